//! Fundamental types and uses of types.

ghost use Rattle.std.specs.Prelude.{◌≡◌, ◌++◌, ◌∷◌, [], if◌then◌else◌, ◌↔◌, IsTrue, IfOk, OnOk, string_bytes};
ghost use Rattle.wr_base.specs.Uses.{text_of, word_of};
ghost use Rattle.wr_base.specs.Words.{base_of_word};

use crate::FullName;
use sqlite_items::Items;
use std::alloc::{AllocError, Global};

/// A fundamental type (MIDL 3.0 reference, Type system).
#[derive(Clone, Copy, Debug, PartialEq, Eq)]
pub enum Base {
    Boolean,
    Char,
    U8,
    I16,
    U16,
    I32,
    U32,
    I64,
    U64,
    Text,
    Guid,
    Object,
}

/// What stands where a type is wanted.
#[derive(Debug, Drop)]
pub enum TypeUse {
    Plain(Base),
    /// An enum or a struct.
    Value(FullName),
    /// An interface, a class or a delegate.
    Reference(FullName),
    /// An instance of a found template.
    Inst(FullName, Items<TypeUse>),
}

/// A list of type uses.
pub type Uses = Items<TypeUse>;

fn base_word(base: Base) -> &'static str
    ensures { result.now ≡ word_of base }
{
    match base {
        Base::Boolean => "Boolean",
        Base::Char => "Char",
        Base::U8 => "UInt8",
        Base::I16 => "Int16",
        Base::U16 => "UInt16",
        Base::I32 => "Int32",
        Base::U32 => "UInt32",
        Base::I64 => "Int64",
        Base::U64 => "UInt64",
        Base::Text => "String",
        Base::Guid => "Guid",
        Base::Object => "Object",
    }
}

impl Base {
    /// The fundamental type of a word, `Char16` being a second word of `Char`; none of any other text.
    #[tactic(auto, unfolding(crate::specs::Words::base_of_word))]
    pub fn from_word(word: &str) -> Option<Base>
        ensures { result ≡ base_of_word word.now }
    {
        match word {
            "Boolean" => Some(Base::Boolean),
            "Char" => Some(Base::Char),
            "Char16" => Some(Base::Char),
            "UInt8" => Some(Base::U8),
            "Int16" => Some(Base::I16),
            "UInt16" => Some(Base::U16),
            "Int32" => Some(Base::I32),
            "UInt32" => Some(Base::U32),
            "Int64" => Some(Base::I64),
            "UInt64" => Some(Base::U64),
            "String" => Some(Base::Text),
            "Guid" => Some(Base::Guid),
            "Object" => Some(Base::Object),
            _ => None,
        }
    }
}

// Puts a comma between two.
fn push_comma(text: &mut String, is_first: bool) -> Result<(), AllocError>
    ensures { OnOk result (string_bytes text.new ≡ (if is_first then string_bytes text.old else string_bytes text.old ++ 44 ∷ [])) }
{
    if is_first { Ok(()) } else { text.push(',') }
}

impl TypeUse {
    /// Puts the text of the use behind what is there.
    pub fn push_text(&self, text: &mut String) -> Result<(), AllocError>
        ensures { OnOk result (string_bytes text.new ≡ string_bytes text.old ++ text_of self.now) }
    {
        match self {
            TypeUse::Plain(base) => text.push_str(base_word(*base)),
            TypeUse::Value(name) => text.push_str(name.as_str()),
            TypeUse::Reference(name) => text.push_str(name.as_str()),
            TypeUse::Inst(name, arguments) => {
                text.push_str(name.as_str())?;
                text.push('<')?;
                let mut is_first = true;
                for argument in arguments.as_slice() {
                    push_comma(text, is_first)?;
                    is_first = false;
                    argument.push_text(text)?;
                }
                text.push('>')?;
                Ok(())
            }
        }
    }

    /// The MIDL word, the full name, or `Name<a,b>` without spaces.
    pub fn text(&self, alloc: Global) -> Result<String, AllocError>
        ensures { IfOk result (λ text. string_bytes text ≡ text_of self.now) }
    {
        let mut text = String::new(alloc);
        self.push_text(&mut text)?;
        Ok(text)
    }
}

impl Clone for TypeUse {
    ghost is_clone = { λ a b. b ≡ a };

    fn clone(&self) -> Result<TypeUse, AllocError> {
        match self {
            TypeUse::Plain(base) => Ok(TypeUse::Plain(*base)),
            TypeUse::Value(name) => Ok(TypeUse::Value(name.clone()?)),
            TypeUse::Reference(name) => Ok(TypeUse::Reference(name.clone()?)),
            TypeUse::Inst(name, arguments) => {
                let mut copied = Items::new(name.allocator());
                for argument in arguments.as_slice() {
                    copied.push(argument.clone()?)?;
                }
                Ok(TypeUse::Inst(name.clone()?, copied))
            }
        }
    }
}

impl TypeUse {
    /// Whether the two are one use.
    pub fn is_same(&self, other: &TypeUse) -> bool
        ensures { IsTrue result ↔ (self.now ≡ other.now) }
    {
        match (self, other) {
            (TypeUse::Plain(a), TypeUse::Plain(b)) => *a == *b,
            (TypeUse::Value(a), TypeUse::Value(b)) => *a == *b,
            (TypeUse::Reference(a), TypeUse::Reference(b)) => *a == *b,
            (TypeUse::Inst(a, left), TypeUse::Inst(b, right)) => {
                let left = left.as_slice();
                let right = right.as_slice();
                if *a != *b || left.len() != right.len() {
                    return false;
                }
                for i in 0..left.len() {
                    if !left[i].is_same(&right[i]) {
                        return false;
                    }
                }
                true
            }
            _ => false,
        }
    }
}

/// A copy of a list of uses.
pub fn copy_uses(alloc: Global, uses: &Uses) -> Result<Uses, AllocError>
    ensures { IfOk result (λ copied. copied ≡ uses.now) }
{
    let mut copied = Items::new(alloc);
    for one in uses.as_slice() {
        copied.push(one.clone()?)?;
    }
    Ok(copied)
}
