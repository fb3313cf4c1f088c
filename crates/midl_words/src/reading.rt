//! Tokens, names and dotted names, read from the front.

ghost use Rattle.std.specs.Prelude.{◌≡◌, ◌∷◌, [], Ok};
ghost use Rattle.grammar.specs.Readers.{starts, after_front};
ghost use Rattle.midl_tree.specs.declared.kind.Kind.TheVariants.{Dot, Number};
ghost use Rattle.midl_tree.specs.Kinds.{number_of, names};
ghost use Rattle.midl_tree.specs.Symbols.{kind_of};
ghost use Rattle.midl_words.specs.Reading.{Gives, is_at, is_there_at, name_at, own_name_at, behind_at, more_dots_at, dotted_at};

use crate::stop::{Code, Stop};
use midl_tree::{Ident, Kind, Numeral, Terminal};
use std::alloc::Global;

/// Whether the next token is of the kind.
pub fn begins(tokens: &[Terminal], kind: Kind) -> bool
    ensures { result ≡ starts kind_of (number_of kind ∷ []) tokens.now }
{
    match tokens {
        [] => false,
        [token, ..] => token.kind().is(kind),
    }
}

/// The next token, which has to be of the kind.
pub fn take(tokens: &[Terminal], kind: Kind) -> Result<(&Terminal, &[Terminal]), Stop>
    ensures { Gives (λ x. (x.0.now, x.1.now)) result (is_at kind tokens.now) }
{
    match tokens {
        [] => Err(Stop::Fault(Code::Syntax, 0)),
        [token, rest @ ..] => {
            if token.kind().is(kind) {
                Ok((token, rest))
            } else {
                Err(Stop::Fault(Code::Syntax, tokens.len()))
            }
        }
    }
}

/// Whether a mark of the kind is next, and what stands behind it.
#[tactic(auto, unfolding(crate::specs::Reading::is_there_at))]
pub fn take_if(tokens: &[Terminal], kind: Kind) -> (bool, &[Terminal])
    ensures { is_there_at kind tokens.now ≡ Ok (result.0, result.1.now) }
{
    match tokens {
        [] => (false, tokens),
        [token, rest @ ..] => {
            if token.kind().is(kind) {
                (true, rest)
            } else {
                (false, tokens)
            }
        }
    }
}

/// Whether the next token is a Name.
pub fn begins_name(tokens: &[Terminal]) -> bool
    ensures { result ≡ starts kind_of names tokens.now }
{
    match tokens {
        [] => false,
        [token, ..] => token.kind().is_name(),
    }
}

/// The next token, which has to be a Name.
pub fn take_name(tokens: &[Terminal]) -> Result<(Ident, &[Terminal]), Stop>
    ensures { Gives (λ x. (x.0, x.1.now)) result (name_at tokens.now) }
{
    match tokens {
        [] => Err(Stop::Fault(Code::Syntax, 0)),
        [token, rest @ ..] => {
            if token.kind().is_name() {
                Ok((Ident::of(token)?, rest))
            } else {
                Err(Stop::Fault(Code::Syntax, tokens.len()))
            }
        }
    }
}

/// The next token, which has to be the Name of a declared type.
pub fn take_own_name(tokens: &[Terminal]) -> Result<(Ident, &[Terminal]), Stop>
    ensures { Gives (λ x. (x.0, x.1.now)) result (own_name_at tokens.now) }
{
    match tokens {
        [] => Err(Stop::Fault(Code::Syntax, 0)),
        [token, rest @ ..] => {
            if token.kind().is_own_name() {
                Ok((Ident::of(token)?, rest))
            } else {
                Err(Stop::Fault(Code::Syntax, tokens.len()))
            }
        }
    }
}

/// The next token, which has to be a Number.
pub fn take_number(tokens: &[Terminal]) -> Result<(Numeral, &[Terminal]), Stop>
    ensures { Gives (λ x. (x.0, x.1.now)) result (is_at Number tokens.now) }
{
    match tokens {
        [] => Err(Stop::Fault(Code::Syntax, 0)),
        [token, rest @ ..] => {
            if token.kind().is(Kind::Number) {
                Ok((Numeral::of(token)?, rest))
            } else {
                Err(Stop::Fault(Code::Syntax, tokens.len()))
            }
        }
    }
}

#[tactic(auto, unfolding(crate::specs::Reading::behind_at))]
fn dot_name_of(tokens: &[Terminal]) -> Result<(Ident, &[Terminal]), Stop>
    ensures { Gives (λ x. (x.0, x.1.now)) result (behind_at Dot name_at tokens.now) }
{
    let (_, rest) = take(tokens, Kind::Dot)?;
    take_name(rest)
}

/// More names, each behind a dot.
pub fn more_dots(
    mut names: Vec<Ident>,
    tokens: &[Terminal],
) -> Result<(Vec<Ident>, &[Terminal]), Stop>
    ensures { Gives (λ x. (x.0.items, x.1.now)) result (after_front names.items more_dots_at tokens.entry.now) }
{
    let mut rest = tokens;
    'more: while begins(rest, Kind::Dot) {
        let (name, after) = dot_name_of(rest)?;
        names.push(name)?;
        rest = after;
    }
    Ok((names, rest))
}

/// Names joined by dots.
#[tactic(auto, unfolding(crate::specs::Reading::dotted_at))]
pub fn dotted_of(alloc: Global, tokens: &[Terminal]) -> Result<(Vec<Ident>, &[Terminal]), Stop>
    ensures { Gives (λ x. (x.0.items, x.1.now)) result (dotted_at tokens.now) }
{
    let (first, rest) = take_name(tokens)?;
    let mut names = Vec::new(alloc);
    names.push(first)?;
    more_dots(names, rest)
}
