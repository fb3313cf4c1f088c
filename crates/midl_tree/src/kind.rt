ghost use Rattle.std.specs.Prelude.{◌≡◌, ◌∷◌, []};
ghost use Rattle.grammar.specs.Productions.{has};
ghost use Rattle.midl_tree.specs.Kinds.{number_of, names, own_names, no_attributes, declared_first};
ghost use Rattle.midl_tree.specs.declared.kind.Kind.TheVariants.{Base, Float, Out, Void, Event, Static, Namespace, Guid, Text};

/// What a token is to the grammar: each word and mark that a production names, and the tokens that are told by their shape.
#[derive(Clone, Copy, Debug, PartialEq, Eq)]
pub enum Kind {
    Import,
    Namespace,
    Enum,
    Struct,
    Delegate,
    Interface,
    Runtimeclass,
    Requires,
    Event,
    Static,
    Out,
    Void,
    /// A word that names a base type, as `Int32`.
    Base,
    /// `Single` or `Double`, which no type may begin with.
    Float,
    Uuid,
    Version,
    Flags,
    DefaultInterface,
    Get,
    Set,
    /// Any other word.
    Name,
    Number,
    Guid,
    Text,
    OpenBrace,
    CloseBrace,
    OpenParen,
    CloseParen,
    OpenBracket,
    CloseBracket,
    Less,
    Greater,
    Comma,
    Semicolon,
    Colon,
    Dot,
    Equals,
    Minus,
    /// A mark that the grammar doesn't have.
    Other,
}

impl Kind {
    /// Its number, in the order above.
    fn number(self) -> u8
        ensures { result ≡ number_of self }
    {
        self as u8
    }

    /// Whether the two are one kind.
    pub fn is(self, other: Kind) -> bool
        ensures { result ≡ has (number_of other ∷ []) (number_of self) }
    {
        self.number() == other.number()
    }

    /// Whether a word of this kind is a Name.
    pub fn is_name(self) -> bool
        ensures { result ≡ has names (number_of self) }
    {
        matches!(
            self,
            Kind::Base
                | Kind::Float
                | Kind::Uuid
                | Kind::Version
                | Kind::Flags
                | Kind::DefaultInterface
                | Kind::Get
                | Kind::Set
                | Kind::Name
        )
    }

    /// Whether a word of this kind may name a declared type.
    pub fn is_own_name(self) -> bool
        ensures { result ≡ has own_names (number_of self) }
    {
        match self {
            Kind::Base | Kind::Float => false,
            kind => kind.is_name(),
        }
    }

    /// Whether a base word or a float is of this kind.
    pub fn is_base_or_float(self) -> bool
        ensures { result ≡ has (number_of Base ∷ number_of Float ∷ []) (number_of self) }
    {
        matches!(self, Kind::Base | Kind::Float)
    }

    /// Whether a parameter may begin with this kind.
    pub fn begins_param(self) -> bool
        ensures { result ≡ has (number_of Out ∷ names) (number_of self) }
    {
        match self {
            Kind::Out => true,
            kind => kind.is_name(),
        }
    }

    /// Whether a member may begin with this kind.
    pub fn begins_member(self) -> bool
        ensures { result ≡ has (number_of Void ∷ number_of Event ∷ names) (number_of self) }
    {
        match self {
            Kind::Void | Kind::Event => true,
            kind => kind.is_name(),
        }
    }

    /// Whether a class's member may begin with this kind.
    pub fn begins_class_member(self) -> bool
        ensures { result ≡ has (number_of Static ∷ number_of Void ∷ number_of Event ∷ names) (number_of self) }
    {
        match self {
            Kind::Static => true,
            kind => kind.begins_member(),
        }
    }

    /// Whether a word of this kind is a Name that names no attribute.
    pub fn is_no_attribute(self) -> bool
        ensures { result ≡ has no_attributes (number_of self) }
    {
        matches!(
            self,
            Kind::Base | Kind::Float | Kind::Get | Kind::Set | Kind::Name
        )
    }

    /// Whether a declaration with its attributes may begin with this kind.
    pub fn begins_declared(self) -> bool
        ensures { result ≡ has declared_first (number_of self) }
    {
        matches!(
            self,
            Kind::OpenBracket
                | Kind::Enum
                | Kind::Struct
                | Kind::Delegate
                | Kind::Interface
                | Kind::Static
                | Kind::Runtimeclass
        )
    }

    /// Whether an item of a namespace may begin with this kind.
    pub fn begins_item(self) -> bool
        ensures { result ≡ has (number_of Namespace ∷ declared_first) (number_of self) }
    {
        match self {
            Kind::Namespace => true,
            kind => kind.begins_declared(),
        }
    }

    /// Whether a word of this kind may stand for an id.
    pub fn is_id(self) -> bool
        ensures { result ≡ has (number_of Guid ∷ number_of Text ∷ []) (number_of self) }
    {
        matches!(self, Kind::Guid | Kind::Text)
    }
}
