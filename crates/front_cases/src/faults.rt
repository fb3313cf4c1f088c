//! `check SOURCE|SOURCE ..` prints what is broken first in the full types of files, or `nothing`, or the first fault before these.

use crate::full::types_of;
use crate::lexing::push_stop;
use crate::names::Answer;
use std::alloc::{AllocError, Global};
use type_rules::first_fault;
use wr_base::{PlacedTypes, Stop};

fn fault_of(alloc: Global, types: &PlacedTypes) -> Answer<()> {
    match first_fault(alloc, types)? {
        Some(refusal) => Err(Stop::Refused(refusal)),
        None => Ok(()),
    }
}

fn checked(alloc: Global, case: &str) -> Answer<()> {
    fault_of(alloc, &types_of(alloc, case)?)
}

/// `nothing`, or the refusal.
pub fn check(out: &mut String, case: &str) -> Result<(), AllocError> {
    match checked(*out.allocator(), case) {
        Ok(()) => out.push_str("nothing"),
        Err(stop) => push_stop(out, &stop),
    }
}
