//! Codes of refusals.

ghost use Rattle.std.specs.Prelude.{◌≡◌};

use ranked::Rank;

/// Why a source or a set of declarations is refused, in the order of the table: 17 codes of lexing, parsing, names and
/// synthesis, 28 rules, and 6 limits.
#[derive(Clone, Copy, Debug, PartialEq, Eq)]
pub enum Code {
    NotUtf8,
    BadChar,
    OpenComment,
    OpenText,
    WideNumber,
    LongName,
    Syntax,
    FloatType,
    UnknownAttribute,
    TooDeep,
    BadAttribute,
    ConstructorName,
    DoubleConstructor,
    DuplicateName,
    UnknownType,
    WrongArity,
    SynthesisClash,
    Unresolved,
    WrongKind,
    NotClosed,
    DefaultMissing,
    EnumRepeat,
    FieldRepeat,
    ParamRepeat,
    EnumRange,
    StructEmpty,
    FieldType,
    StructCycle,
    UseKind,
    ExclusiveUse,
    ReferenceArgument,
    EventType,
    EventDelegate,
    OverloadArity,
    OverloadKind,
    MemberCase,
    AccessorClash,
    InterfaceWanted,
    RequiresCycle,
    MemberClash,
    StaticMembers,
    ConstructorArity,
    FactoryShape,
    NamespaceClash,
    DuplicateId,
    ManyTypes,
    ManyMembers,
    ManyParams,
    LongFullName,
    ManyNames,
    ManyUses,
}

/// What is refused: the place, the code and the word.
pub type Refusal = ranked::Refusal<Code>;

impl Rank for Code {
    ghost use Rattle.wr_base.specs.Codes.{rank_of};

    ghost rank = { rank_of };

    fn rank(&self) -> u16 {
        *self as u16
    }
}

impl Code {
    ghost use Rattle.wr_base.specs.Codes.{code_name};

    /// The code's name, as texts on refusals give it.
    pub fn name(&self) -> &'static str
        ensures { result.now ≡ code_name self.now }
    {
        match self {
            Code::NotUtf8 => "NotUtf8",
            Code::BadChar => "BadChar",
            Code::OpenComment => "OpenComment",
            Code::OpenText => "OpenText",
            Code::WideNumber => "WideNumber",
            Code::LongName => "LongName",
            Code::Syntax => "Syntax",
            Code::FloatType => "FloatType",
            Code::UnknownAttribute => "UnknownAttribute",
            Code::TooDeep => "TooDeep",
            Code::BadAttribute => "BadAttribute",
            Code::ConstructorName => "ConstructorName",
            Code::DoubleConstructor => "DoubleConstructor",
            Code::DuplicateName => "DuplicateName",
            Code::UnknownType => "UnknownType",
            Code::WrongArity => "WrongArity",
            Code::SynthesisClash => "SynthesisClash",
            Code::Unresolved => "Unresolved",
            Code::WrongKind => "WrongKind",
            Code::NotClosed => "NotClosed",
            Code::DefaultMissing => "DefaultMissing",
            Code::EnumRepeat => "EnumRepeat",
            Code::FieldRepeat => "FieldRepeat",
            Code::ParamRepeat => "ParamRepeat",
            Code::EnumRange => "EnumRange",
            Code::StructEmpty => "StructEmpty",
            Code::FieldType => "FieldType",
            Code::StructCycle => "StructCycle",
            Code::UseKind => "UseKind",
            Code::ExclusiveUse => "ExclusiveUse",
            Code::ReferenceArgument => "ReferenceArgument",
            Code::EventType => "EventType",
            Code::EventDelegate => "EventDelegate",
            Code::OverloadArity => "OverloadArity",
            Code::OverloadKind => "OverloadKind",
            Code::MemberCase => "MemberCase",
            Code::AccessorClash => "AccessorClash",
            Code::InterfaceWanted => "InterfaceWanted",
            Code::RequiresCycle => "RequiresCycle",
            Code::MemberClash => "MemberClash",
            Code::StaticMembers => "StaticMembers",
            Code::ConstructorArity => "ConstructorArity",
            Code::FactoryShape => "FactoryShape",
            Code::NamespaceClash => "NamespaceClash",
            Code::DuplicateId => "DuplicateId",
            Code::ManyTypes => "ManyTypes",
            Code::ManyMembers => "ManyMembers",
            Code::ManyParams => "ManyParams",
            Code::LongFullName => "LongFullName",
            Code::ManyNames => "ManyNames",
            Code::ManyUses => "ManyUses",
        }
    }
}
