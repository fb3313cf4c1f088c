//! What is broken in a set: `broken` prints the first entry that a rule of the declarations since the last set breaks, or the first limit that they pass, each
//! declaration and its parts in plain places, or `well`, and forgets them. `many KIND COUNT NAME REST` declares `NAME0`, `NAME1` and so on.

use crate::given::{Given, declare, types_of};
use case_text::decimal;
use std::alloc::{AllocError, Global};
use type_rules::first_fault;
use wr_base::{Declaration, PlacedTypes, Places, Rank, Refusal, Stop, Types};

fn refusal_text(alloc: Global, refusal: &Refusal) -> Result<String, AllocError> {
    let file = refusal.place.file;
    let offset = refusal.place.offset;
    let code = refusal.code.name();
    let word = refusal.word.as_str();
    format!(in alloc; "{file}:{offset} {code} {word}")
}

fn fault_text(alloc: Global, types: &PlacedTypes) -> Result<String, AllocError> {
    match first_fault(alloc, types)? {
        Some(refusal) => refusal_text(alloc, &refusal),
        None => String::from_str(alloc, "well"),
    }
}

fn placed(alloc: Global, types: Types) -> Result<PlacedTypes, AllocError> {
    if !Places::fits(&types) {
        return Err(AllocError);
    }
    let places = Places::plain(alloc, &types)?;
    Ok(PlacedTypes { types, places })
}

/// The first entry that is broken.
pub fn broken(alloc: Global, list: Vec<Declaration>) -> Result<String, AllocError> {
    match types_of(alloc, list) {
        Ok(types) => fault_text(alloc, &placed(alloc, types)?),
        Err(Stop::Refused(_)) => String::from_str(alloc, "twice"),
        Err(Stop::Memory) => Err(AllocError),
    }
}

/// Declares as many types of a kind, each with its number behind its name and in place of `#`.
pub fn many(alloc: Global, given: &mut Given, case: &str) -> Result<String, AllocError> {
    let (kind, rest) = case.split_once(' ').unwrap_or((case, ""));
    let (count, rest) = rest.split_once(' ').unwrap_or((rest, ""));
    let (name, rest) = rest.split_once(' ').unwrap_or((rest, ""));
    for number in 0..decimal(count) {
        let one = match rest.split_once('#') {
            Some((front, behind)) => {
                format!(in alloc; "{name}{number} {front}{number}{behind}")?
            }
            None => format!(in alloc; "{name}{number} {rest}")?,
        };
        declare(alloc, given, kind, one.as_str())?;
    }
    String::from_str(alloc, count)
}
