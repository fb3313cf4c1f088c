//! What a name means.

ghost use Rattle.std.specs.Prelude.{◌≡◌, ℕ, Some, option_map};
ghost use Rattle.wr_rules.specs.Kinds.{named, arity_of, meaning_of};
ghost use Rattle.pinterface_id.specs.Views.{meaning_view, IsAt};
ghost use Rattle.found_table.specs.Views.{found_view};
ghost use Rattle.wr_rules.specs.Kinds.{found as found_as};

use found_table::{Found, builtin};
use wr_base::{Declaration, FullName, Types};

/// A declared type with its number in the set, or a found one.
#[derive(Clone, Copy, Debug)]
pub enum Meaning<'a> {
    Declared(u32, &'a Declaration),
    Found(Found),
}

fn arguments_of(found: &Found) -> u32
    ensures { result ≡ arity_of (found_as (found_view found.now)) }
{
    match found {
        Found::Struct { .. } => 0,
        Found::Interface { arguments, .. } => *arguments,
        Found::Delegate { arguments, .. } => *arguments,
    }
}

fn arity(meaning: &Meaning) -> u32
    ensures { result ≡ arity_of (meaning_view meaning.now) }
{
    match meaning {
        Meaning::Declared(_, _) => 0,
        Meaning::Found(found) => arguments_of(found),
    }
}

/// What a name means, without regard to arguments.
pub fn meaning_of<'a>(types: &'a Types, name: &FullName) -> Option<Meaning<'a>>
    ensures value { option_map meaning_view result ≡ meaning_of types.now name.now }
    ensures place { IsAt types.now result }
{
    match types.find(name) {
        Some(i) => Some(Meaning::Declared(i, types.at(i))),
        None => match builtin(name.as_str()) {
            Some(found) => Some(Meaning::Found(found)),
            None => None,
        },
    }
}

/// What a full name means that is given so many arguments: the declared type of this name, else the found one.
pub fn named<'a>(types: &'a Types, name: &FullName, count: usize) -> Option<Meaning<'a>>
    ensures value { option_map meaning_view result ≡ named types.now name.now count }
    ensures place { IsAt types.now result }
{
    match meaning_of(types, name) {
        None => None,
        Some(meaning) => {
            if count == arity(&meaning) as usize {
                Some(meaning)
            } else {
                None
            }
        }
    }
}
