//! Parts with the spots where they stand.

ghost use Rattle.std.specs.Prelude.{◌≡◌, ◌<◌, ◌≤◌, IfOk, length, slice_get, Some};
ghost use Rattle.wr_rules.specs.Members.{standing};
ghost use Rattle.placed_sites.specs.Views.{site_view, spot_view};

use placed_sites::{Site, Spot};
use std::alloc::{AllocError, Global};
use std::marker::Model;
use wr_base::{Case, Field, Member, Name, Place};

/// A part of a declaration, with the spot where it stands.
#[derive(Drop)]
pub struct Standing<'a, X> {
    part: &'a X,
    spot: Spot<'a>,
}

impl<'a, X> Model for Standing<'a, X> {
    ghost use Rattle.wr_rules.specs.Members.{Standing as StandingPart};
    ghost use Rattle.placed_sites.specs.Views.{spot_view};

    ghost Value = { StandingPart X };

    ghost view = { λ s. record { part = s.part.now; spot = spot_view s.spot } };
}

impl<'a, X> Standing<'a, X> {
    /// A part at a spot.
    pub fn new(part: &'a X, spot: Spot<'a>) -> Standing<'a, X>
        ensures { result ≡ record { part = part.now; spot = spot_view spot.entry } }
    {
        Standing { part, spot }
    }

    /// The part.
    pub fn part(&self) -> &'a X
        ensures { result.now ≡ self.now.part }
    {
        self.part
    }

    /// Where it stands.
    pub fn spot(&self) -> Spot<'a>
        ensures { spot_view result ≡ self.now.spot }
    {
        self.spot
    }
}

/// A part that has a name.
pub trait Titled {
    ghost use Rattle.std.specs.Prelude.{ℕ, List};

    ghost title: { Self → List ℕ };

    /// The name.
    fn title(&self) -> &Name
        ensures { result.now ≡ title self.now };
}

impl Titled for Case {
    ghost title = { λ c. c.name };

    fn title(&self) -> &Name {
        &self.name
    }
}

impl Titled for Field {
    ghost title = { λ f. f.name };

    fn title(&self) -> &Name {
        &self.name
    }
}

impl Titled for Member {
    ghost use Rattle.wr_rules.specs.Members.{member_name};

    ghost title = { member_name };

    fn title(&self) -> &Name {
        match self {
            Member::Method { name, .. } => name,
            Member::Property { name, .. } => name,
            Member::Event { name, .. } => name,
        }
    }
}

// How many parts have places.
fn part_count<X: Titled>(site: &Site, parts: &[X]) -> usize
    ensures parts { result ≤ length parts.now }
    ensures places { result ≤ length (site_view site.now).places.parts }
    ensures count { result ≡ length (standing (site_view site.now) X.title parts.now (site_view site.now).places.parts) }
{
    let places = site.places.parts.len();
    if places < parts.len() {
        places
    } else {
        parts.len()
    }
}

fn place_at(site: &Site, i: usize) -> Place
    requires { i < length (site_view site.now).places.parts }
    ensures { slice_get (site_view site.now).places.parts i ≡ Some result }
{
    *site.places.parts.at(i)
}

fn part_at<'a, X: Titled>(site: &Site<'a>, parts: &'a [X], i: usize) -> Standing<'a, X>
    requires parts { i < length parts.now }
    requires places { i < length (site_view site.now).places.parts }
    ensures { slice_get (standing (site_view site.now) X.title parts.now (site_view site.now).places.parts) i ≡ Some result }
{
    let part = &parts[i];
    let place = place_at(site, i);
    Standing::new(part, site.part_spot(place, part.title()))
}

/// The parts, each at its place.
pub(crate) fn stand_all<'a, X: Titled>(
    alloc: Global,
    site: &Site<'a>,
    parts: &'a [X],
) -> Result<Vec<Standing<'a, X>>, AllocError>
    ensures { IfOk result (λ list. list.items ≡ standing (site_view site.now) X.title parts.now (site_view site.now).places.parts) }
{
    let mut list = Vec::new(alloc);
    for i in 0..part_count(site, parts) {
        list.push(part_at(site, parts, i))?;
    }
    Ok(list)
}
