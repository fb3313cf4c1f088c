//! Ids by text.

ghost use Rattle.std.specs.Prelude.{◌≡◌, ◌∷◌, [], ℕ, Some, None, List, IfOk, OnOk, IsTrue};
ghost use Rattle.std.specs.Option.{is_some};
ghost use Rattle.std.specs.HashMap.{Updates, get_by_text};
ghost use Rattle.std.specs.String.{string_eq};
ghost use Rattle.wr_base.specs.Trees.{tree_of};
ghost use Rattle.wr_rules.specs.NameRules.{is_instance};
ghost use Rattle.id_rules.specs.Table.{Adds};

use pinterface_id::find_id;
use std::alloc::{AllocError, Global};
use std::collections::HashMap;
use wr_base::{TypeUse, Types};

/// No text has an id.
pub(crate) fn no_ids(alloc: Global) -> HashMap<String, Option<u128>>
    ensures { (text : List ℕ) → get_by_text result text ≡ None }
{
    HashMap::new(alloc)
}

fn put(
    table: &mut HashMap<String, Option<u128>>,
    key: String,
    id: Option<u128>,
) -> Result<(), AllocError>
    ensures { OnOk result (Updates string_eq table.old table.new key (Some id)) }
{
    match table.insert(key, id) {
        Ok(_) => Ok(()),
        Err(_) => Err(AllocError),
    }
}

fn knows(table: &HashMap<String, Option<u128>>, text: &str) -> bool
    ensures { result ≡ is_some (get_by_text table.now text.now) }
{
    match table.get(text) {
        Some(_) => true,
        None => false,
    }
}

/// Puts the id of an instance under its text, where that isn't in the table.
pub(crate) fn add_instance(
    alloc: Global,
    types: &Types,
    table: &mut HashMap<String, Option<u128>>,
    ty: &TypeUse,
) -> Result<(), AllocError>
    requires { IsTrue (is_instance (tree_of ty.now)) }
    ensures { OnOk result (Adds types.now (tree_of ty.now ∷ []) (get_by_text table.old) (get_by_text table.new)) }
{
    let text = ty.text(alloc)?;
    if knows(table, text.as_str()) {
        return Ok(());
    }
    let id = find_id(alloc, types, ty)?;
    put(table, text, id)
}
