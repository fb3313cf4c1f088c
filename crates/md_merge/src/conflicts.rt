//! The first name that has two declarations which differ.

ghost use Rattle.std.specs.Prelude.{◌≡◌, MatchBool, MatchOption};
ghost use Rattle.wr_base.specs.Declarations.{name_of};
ghost use Rattle.md_merge.specs.Neighbours.{Differ, Agree, AllAgree, FirstDiffers, ListAgrees, ListDiffers};

use wr_base::{Declaration, Same};

// Whether two declarations have one name and differ.
fn differ(a: &Declaration, b: &Declaration) -> bool
    ensures { MatchBool result (Differ a.now b.now) (Agree a.now b.now) }
{
    if *a.name() == *b.name() {
        !a.same(b)
    } else {
        false
    }
}

fn first_from<'a>(first: &'a Declaration, rest: &'a [Declaration]) -> Option<&'a Declaration>
    ensures { MatchOption result (AllAgree first.now rest.now) (λ d. FirstDiffers first.now rest.now (name_of d.now)) }
{
    let mut last = first;
    let mut rest = rest;
    'each: while let Some((next, after)) = rest.split_first() {
        if differ(last, next) {
            return Some(last);
        }
        last = next;
        rest = after;
    }
    None
}

/// The first declaration that differs from the next one and has its name, in a list in the order of names.
pub(crate) fn first_conflict(list: &[Declaration]) -> Option<&Declaration>
    ensures { MatchOption result (ListAgrees list.now) (λ d. ListDiffers list.now (name_of d.now)) }
{
    match list.split_first() {
        None => None,
        Some((first, rest)) => first_from(first, rest),
    }
}
