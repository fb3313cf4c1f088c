//! Enums.

ghost use Rattle.std.specs.Prelude.{◌≡◌, option_map};
ghost use Rattle.grammar.specs.Readers.{after_front, optional_at};
ghost use Rattle.midl_tree.specs.Kinds.{names};
ghost use Rattle.midl_tree.specs.Symbols.{kind_of};
ghost use Rattle.midl_parse.specs.Lists.{or_none};
ghost use Rattle.midl_words.specs.Reading.{Gives};
ghost use Rattle.midl_parse.specs.ReadEnums.{value_at, case_at, more_cases_at, cases_at, enum_at};
ghost use Rattle.midl_tree.specs.Views.{enum_view};

use midl_tree::{CaseNode, EnumNode, Kind, Terminal, Value};
use midl_words::{Stop, begins, begins_name, take, take_if, take_name, take_number, take_own_name};
use std::alloc::Global;

#[tactic(auto, unfolding(crate::specs::ReadEnums::value_at))]
fn value_of(tokens: &[Terminal]) -> Result<(Value, &[Terminal]), Stop>
    ensures { Gives (λ x. (x.0, x.1.now)) result (value_at tokens.now) }
{
    let (_, rest) = take(tokens, Kind::Equals)?;
    let (negated, rest) = take_if(rest, Kind::Minus);
    let (number, rest) = take_number(rest)?;
    Ok((Value { negated, number }, rest))
}

#[tactic(auto, unfolding(crate::specs::ReadEnums::case_at))]
fn case_of(tokens: &[Terminal]) -> Result<(CaseNode, &[Terminal]), Stop>
    ensures { Gives (λ x. (x.0, x.1.now)) result (case_at tokens.now) }
{
    let (name, rest) = take_name(tokens)?;
    if begins(rest, Kind::Equals) {
        let (value, rest) = value_of(rest)?;
        return Ok((
            CaseNode {
                name,
                value: Some(value),
            },
            rest,
        ));
    }
    Ok((CaseNode { name, value: None }, rest))
}

fn more_cases(
    mut cases: Vec<CaseNode>,
    tokens: &[Terminal],
) -> Result<(Vec<CaseNode>, &[Terminal]), Stop>
    ensures { Gives (λ x. (x.0.items, x.1.now)) result (after_front cases.items more_cases_at tokens.entry.now) }
{
    let mut rest = tokens;
    'more: while begins(rest, Kind::Comma) {
        let (_, after) = take(rest, Kind::Comma)?;
        if !begins_name(after) {
            return Ok((cases, after));
        }
        let (case, after) = case_of(after)?;
        cases.push(case)?;
        rest = after;
    }
    Ok((cases, rest))
}

#[tactic(auto, unfolding(crate::specs::ReadEnums::cases_at))]
fn cases_of(alloc: Global, tokens: &[Terminal]) -> Result<(Vec<CaseNode>, &[Terminal]), Stop>
    ensures { Gives (λ x. (x.0.items, x.1.now)) result (cases_at tokens.now) }
{
    let (first, rest) = case_of(tokens)?;
    let mut cases = Vec::new(alloc);
    cases.push(first)?;
    more_cases(cases, rest)
}

fn some_cases_of(
    alloc: Global,
    tokens: &[Terminal],
) -> Result<(Option<Vec<CaseNode>>, &[Terminal]), Stop>
    ensures { Gives (λ x. (option_map (λ v. v.items) x.0, x.1.now)) result (optional_at kind_of names cases_at tokens.now) }
{
    if !begins_name(tokens) {
        return Ok((None, tokens));
    }
    let (cases, rest) = cases_of(alloc, tokens)?;
    Ok((Some(cases), rest))
}

// With no room behind the last case: a tree lives until all files are read.
fn or_none(alloc: Global, cases: Option<Vec<CaseNode>>) -> Vec<CaseNode>
    ensures { result.items ≡ or_none (option_map (λ v. v.items) cases) }
{
    match cases {
        None => Vec::new(alloc),
        Some(cases) => {
            let mut cases = cases;
            cases.shrink_to_fit();
            cases
        }
    }
}

#[tactic(auto, unfolding(crate::specs::ReadEnums::enum_at))]
pub(crate) fn enum_of(alloc: Global, tokens: &[Terminal]) -> Result<(EnumNode, &[Terminal]), Stop>
    ensures { Gives (λ x. (enum_view x.0, x.1.now)) result (enum_at tokens.now) }
{
    let (_, rest) = take(tokens, Kind::Enum)?;
    let (name, rest) = take_own_name(rest)?;
    let (_, rest) = take(rest, Kind::OpenBrace)?;
    let (cases, rest) = some_cases_of(alloc, rest)?;
    let (_, rest) = take(rest, Kind::CloseBrace)?;
    let (_, rest) = take_if(rest, Kind::Semicolon);
    let cases = or_none(alloc, cases);
    Ok((EnumNode { name, cases }, rest))
}
