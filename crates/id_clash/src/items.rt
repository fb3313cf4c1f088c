//! Ids and texts that were met so far, and what a declaration adds to them.

ghost use Rattle.std.specs.Prelude.{◌≡◌, ◌≢◌, ◌⊎◌, ◌↔◌, ◌||◌, ◌==◌, ◌∷◌, [], ℕ, List, Some, None, true, false, IsTrue, IfOk, OnOk, nat_eq};
ghost use Rattle.std.specs.HashMap.{get_by_text};
ghost use Rattle.std.specs.HashSet.{Updates, contains, contains_text};
ghost use Rattle.wr_base.specs.Paths.{is_path};
ghost use Rattle.wr_rules.specs.Kinds.{declared};
ghost use Rattle.wr_rules.specs.Sites.{site_name};
ghost use Rattle.wr_rules.specs.Signatures.{own_id};
ghost use Rattle.placed_sites.specs.Views.{site_view};
ghost use Rattle.id_clash.specs.Items as said;
ghost use Rattle.id_clash.specs.Items.{Meets, One, Fresh, AddsTexts, OfSite, is_had, texts_in, texts_at};

use crate::texts::texts_at;
use namespace_rules::add_text;
use placed_sites::Site;
use std::alloc::{AllocError, Global};
use std::collections::{HashMap, HashSet};
use wr_base::{Declaration, FullName};

/// The ids that declarations and instances have that were met so far, and the texts of these instances.
#[derive(Debug, Drop)]
pub(crate) struct Met {
    pub(crate) ids: HashSet<u128>,
    pub(crate) texts: HashSet<String>,
}

/// Nothing was met.
pub(crate) fn nothing_met(alloc: Global) -> Met
    ensures ids { (id : ℕ) → contains nat_eq result.ids id ≡ false }
    ensures texts { (text : List ℕ) → contains_text result.texts text ≡ false }
{
    Met {
        ids: HashSet::new(alloc),
        texts: HashSet::new(alloc),
    }
}

fn put_id(ids: &mut HashSet<u128>, id: u128) -> Result<(), AllocError>
    ensures { OnOk result (Updates nat_eq ids.old ids.new id true) }
{
    match ids.insert(id) {
        Ok(_) => Ok(()),
        Err(_) => Err(AllocError),
    }
}

fn is_had(reserved: &HashMap<u128, u32>, ids: &HashSet<u128>, id: u128) -> bool
    ensures { result ≡ said.is_had reserved.now ids.now id }
{
    reserved.contains_key(&id) || ids.contains(&id)
}

// Whether the id is had; from here on it is.
fn meet_id(
    reserved: &HashMap<u128, u32>,
    ids: &mut HashSet<u128>,
    id: u128,
) -> Result<bool, AllocError>
    ensures { IfOk result (λ told. (text : List ℕ) → Meets (One text (Some id)) (is_had reserved.now ids.old) (is_had reserved.now ids.new) told) }
{
    let told = is_had(reserved, ids, id);
    put_id(ids, id)?;
    Ok(told)
}

fn meet_optional(
    reserved: &HashMap<u128, u32>,
    ids: &mut HashSet<u128>,
    id: Option<u128>,
) -> Result<bool, AllocError>
    ensures { IfOk result (λ told. (text : List ℕ) → Meets (One text id) (is_had reserved.now ids.old) (is_had reserved.now ids.new) told) }
{
    match id {
        None => Ok(false),
        Some(id) => meet_id(reserved, ids, id),
    }
}

// The id of a text that wasn't met, where it has one.
fn new_id(met: &HashSet<String>, table: &HashMap<String, Option<u128>>, text: &str) -> Option<u128>
    ensures { result ≡ said.new_id (contains_text met.now) (get_by_text table.now) text.now }
{
    if met.contains(text) {
        return None;
    }
    match table.get(text) {
        None => None,
        Some(id) => *id,
    }
}

fn meet_text(
    alloc: Global,
    table: &HashMap<String, Option<u128>>,
    reserved: &HashMap<u128, u32>,
    met: &mut Met,
    text: &str,
) -> Result<bool, AllocError>
    ensures told { IfOk result (λ told. Meets (One text.now (said.new_id (contains_text met.old.texts) (get_by_text table.now) text.now)) (is_had reserved.now met.old.ids) (is_had reserved.now met.new.ids) told) }
    ensures texts { OnOk result (AddsTexts (text.now ∷ []) (contains_text met.old.texts) (contains_text met.new.texts)) }
{
    let id = new_id(&met.texts, table, text);
    add_text(alloc, &mut met.texts, text)?;
    let told = meet_optional(reserved, &mut met.ids, id)?;
    Ok(told)
}

fn either(a: bool, b: bool) -> bool
    ensures { IsTrue result ↔ (IsTrue a ⊎ IsTrue b) }
{
    a || b
}

fn meet_texts(
    alloc: Global,
    table: &HashMap<String, Option<u128>>,
    reserved: &HashMap<u128, u32>,
    met: &mut Met,
    texts: &[String],
) -> Result<bool, AllocError>
    ensures told { IfOk result (λ told. Meets (Fresh (contains_text met.old.texts) (get_by_text table.now) (texts_in texts.now)) (is_had reserved.now met.old.ids) (is_had reserved.now met.new.ids) told) }
    ensures texts { OnOk result (AddsTexts (texts_in texts.now) (contains_text met.old.texts) (contains_text met.new.texts)) }
{
    let mut told = false;
    for text in texts {
        let other = meet_text(alloc, table, reserved, met, text.as_str())?;
        told = either(told, other);
    }
    Ok(told)
}

// The id that an interface or a delegate declares.
fn own_id(declaration: &Declaration) -> Option<u128>
    ensures { result ≡ own_id (Some (declared declaration.now)) }
{
    match declaration {
        Declaration::Interface { id, .. } => Some(*id),
        Declaration::Delegate { id, .. } => Some(*id),
        _ => None,
    }
}

/// Whether an id is reserved, was met, or is another one's of this declaration too: its own id, or that of an instance
/// that it is the first to use. From here on these are met.
pub(crate) fn meet(
    alloc: Global,
    table: &HashMap<String, Option<u128>>,
    reserved: &HashMap<u128, u32>,
    met: &mut Met,
    site: &Site,
) -> Result<bool, AllocError>
    requires path { IsTrue (is_path (site_name (site_view site.now))) }
    ensures told { IfOk result (λ told. Meets (OfSite (contains_text met.old.texts) (get_by_text table.now) (site_view site.now)) (is_had reserved.now met.old.ids) (is_had reserved.now met.new.ids) told) }
    ensures texts { OnOk result (AddsTexts (texts_at (site_view site.now)) (contains_text met.old.texts) (contains_text met.new.texts)) }
{
    let texts = texts_at(alloc, site)?;
    let own = meet_optional(reserved, &mut met.ids, own_id(site.declaration))?;
    let used = meet_texts(alloc, table, reserved, met, texts.as_slice())?;
    Ok(either(own, used))
}
