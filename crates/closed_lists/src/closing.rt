//! Lists with all that they lead to.

ghost use Rattle.std.specs.Prelude.{◌≡◌, ◌∷◌, [], ◌++◌, ◌<◌, true, Some, None, ℕ, List, IfOk, OnOk, map, length, drop, Contains};
ghost use Rattle.std.specs.HashSet.{Updates, contains_text};
ghost use Rattle.std.specs.String.{string_eq};
ghost use Rattle.std.specs.List.{AllZip};
ghost use Rattle.std.specs.Vec.Iter.{into_iter_items};
ghost use Rattle.wr_base.specs.Uses.{text_of};
ghost use Rattle.wr_rules.specs.ListRules.{listed_in};
ghost use Rattle.closed_lists.specs.Indexes.{names_in, Indexes};
ghost use Rattle.closed_lists.specs.Views.{decls_in, site_view, sites_in};
ghost use Rattle.closed_lists.specs.Closing.{has, Agrees, Meets, Follows};
ghost use Rattle.closed_lists.specs.Closures.{IsClosure, Leads, IsClosing, with_list, next_site, with_lists};

use crate::index::{index_of, required};
use crate::site::PlacedDeclaration;
use sqlite_items::Items;
use std::alloc::{AllocError, Global};
use std::collections::{HashMap, HashSet};
use std::vec::IntoIter;
use wr_base::{Declaration, TypeUse, Uses};

/// Uses, each text once, and their texts.
#[derive(Debug, Drop)]
pub(crate) struct Gathered {
    pub(crate) uses: Vec<TypeUse>,
    pub(crate) texts: HashSet<String>,
}

fn mark(texts: &mut HashSet<String>, text: String) -> Result<(), AllocError>
    ensures { OnOk result (Updates string_eq texts.old texts.new text true) }
{
    match texts.insert(text) {
        Ok(_) => Ok(()),
        Err(_) => Err(AllocError),
    }
}

impl Gathered {
    fn new(alloc: Global) -> Gathered
        ensures agrees { Agrees result }
        ensures empty { result.uses.items ≡ [] }
    {
        Gathered {
            uses: Vec::new(alloc),
            texts: HashSet::new(alloc),
        }
    }

    fn knows(&self, text: &str) -> bool
        ensures { result ≡ has self.now text.now }
    {
        self.texts.contains(text)
    }
}

fn meet(alloc: Global, gathered: &mut Gathered, ty: &TypeUse) -> Result<(), AllocError>
    ensures { OnOk result (Meets (ty.now ∷ []) gathered.old gathered.new) }
{
    let text = ty.text(alloc)?;
    if gathered.knows(text.as_str()) {
        return Ok(());
    }
    mark(&mut gathered.texts, text)?;
    gathered.uses.push(ty.clone()?)?;
    Ok(())
}

fn meet_all(alloc: Global, gathered: &mut Gathered, uses: &[TypeUse]) -> Result<(), AllocError>
    ensures { OnOk result (Meets uses.now gathered.old gathered.new) }
{
    for ty in uses {
        meet(alloc, gathered, ty)?;
    }
    Ok(())
}

// What a list leads to.
fn closure(
    alloc: Global,
    sites: &[PlacedDeclaration],
    index: &HashMap<String, usize>,
    list: &[TypeUse],
) -> Result<Vec<TypeUse>, AllocError>
    requires { Indexes index.now (names_in sites.now) }
    ensures { IfOk result (λ whole. IsClosure (decls_in sites.now) list.now whole.items) }
{
    let mut gathered = Gathered::new(alloc);
    meet_all(alloc, &mut gathered, list)?;
    let mut next = 0usize;
    'more: while next < gathered.uses.len() {
        follow(alloc, sites, index, &mut gathered, next)?;
        next += 1;
    }
    Ok(gathered.uses)
}

// What the use at this place requires is met.
fn follow(
    alloc: Global,
    sites: &[PlacedDeclaration],
    index: &HashMap<String, usize>,
    gathered: &mut Gathered,
    at: usize,
) -> Result<(), AllocError>
    requires index { Indexes index.now (names_in sites.now) }
    requires within { at < length gathered.old.uses.items }
    ensures { OnOk result (Follows (decls_in sites.now) at gathered.old gathered.new) }
{
    let text = gathered.uses[at].text(alloc)?;
    meet_all(alloc, gathered, required(sites, index, text.as_str()))
}

fn list_of(declaration: &Declaration) -> &[TypeUse]
    ensures { result.now ≡ listed_in declaration.now }
{
    match declaration {
        Declaration::Interface { requires_, .. } => requires_.as_slice(),
        Declaration::Class { has, .. } => has.as_slice(),
        _ => &[],
    }
}

fn set_list(declaration: &mut Declaration, whole: Uses)
    ensures { declaration.new ≡ with_list whole declaration.old }
{
    match declaration {
        Declaration::Interface { requires_, .. } => *requires_ = whole,
        Declaration::Class { has, .. } => *has = whole,
        _ => {}
    }
}

// What the list of a declaration leads to.
fn closed_list(
    alloc: Global,
    sites: &[PlacedDeclaration],
    index: &HashMap<String, usize>,
    declaration: &Declaration,
) -> Result<Uses, AllocError>
    requires { Indexes index.now (names_in sites.now) }
    ensures { IfOk result (λ whole. IsClosure (decls_in sites.now) (listed_in declaration.now) whole) }
{
    let whole = closure(alloc, sites, index, list_of(declaration))?;
    Ok(Items::from_vec(whole))
}

// What the list of each declaration leads to.
#[tactic(auto, using(crate::proofs::Moving::leads_turn))]
fn closed_lists(alloc: Global, sites: &[PlacedDeclaration]) -> Result<Vec<Uses>, AllocError>
    ensures { IfOk result (λ lists. AllZip (Leads (decls_in sites.now)) (sites_in sites.now) lists.items) }
{
    let index = index_of(alloc, sites)?;
    let mut lists = Vec::with_capacity(alloc, sites.len())?;
    for site in sites {
        lists.push(closed_list(alloc, sites, &index, &site.declaration)?)?;
    }
    Ok(lists)
}

// The declaration where it stands, with the next list, if there is one.
fn close_next(site: PlacedDeclaration, lists: &mut IntoIter<Uses>) -> PlacedDeclaration
    ensures site { site_view result ≡ next_site (site_view site) (into_iter_items lists.old) }
    ensures rest { into_iter_items lists.new ≡ drop 1 (into_iter_items lists.old) }
{
    let mut site = site;
    match lists.next() {
        Some(whole) => {
            set_list(&mut site.declaration, whole);
            site
        }
        None => site,
    }
}

// The declarations with these lists, none of them copied.
fn with_lists(
    alloc: Global,
    sites: Vec<PlacedDeclaration>,
    lists: Vec<Uses>,
) -> Result<Vec<PlacedDeclaration>, AllocError>
    ensures { IfOk result (λ closed. sites_in closed.items ≡ with_lists (sites_in sites.items) lists.items) }
{
    let mut closed = Vec::with_capacity(alloc, sites.len())?;
    let mut lists = lists.into_iter();
    for site in sites {
        closed.push(close_next(site, &mut lists))?;
    }
    Ok(closed)
}

/// The declarations, each with what its list leads to. None of them is copied.
#[tactic(auto, using(crate::proofs::Moving::all_closing))]
pub fn close_all(
    alloc: Global,
    sites: Vec<PlacedDeclaration>,
) -> Result<Vec<PlacedDeclaration>, AllocError>
    ensures { IfOk result (λ closed. AllZip (IsClosing (decls_in sites.items)) (sites_in sites.items) (sites_in closed.items)) }
{
    let lists = closed_lists(alloc, &sites)?;
    with_lists(alloc, sites, lists)
}
