//! Declarations in the order of their full names.

ghost use Rattle.std.specs.Prelude.{◌≡◌, ◌<◌, ◌≤◌, ◌+◌, ◌^◌, List, ℕ, length, map, slice_get, Some, None, Contains, IfOk, IfErr, IfSome, IfNone, OnOk, OnErr, vec_len};
ghost use Rattle.std.specs.Option.{option_copied};
ghost use Rattle.std.specs.Ordering.{nat_cmp};
ghost use Rattle.std.specs.List.{AllAdjacentBelow};
ghost use Rattle.std.specs.HashMap.{get_by_text, Updates};
ghost use Rattle.std.specs.String.{string_eq};
ghost use Rattle.std.specs.List.Sorted.{IsPermutation, IsSortedByKey};
ghost use Rattle.std.specs.Cmp.Lexicographic.{slice_cmp};
ghost use Rattle.wr_base.specs.declared.declaration.Declaration.TheVariants.{Interface, Class};
ghost use Rattle.wr_base.specs.Declarations.{declared_as, name_of, Precedes, IsInOrder, FirstRepeat, IsOnce};
ghost use Rattle.wr_base.specs.Finding.{Finds};
ghost use Rattle.wr_base.specs.Sets.{set_by};
ghost use Rattle.wr_base.specs.Uses.{text_of};
ghost use Rattle.wr_base.specs.Normal.{normal, names_in_order};
ghost use Rattle.wr_base.specs.Refusals.{IsRefusalOf};

use crate::class_lists::ClassLists;
use crate::same::same_lists;
use crate::sets::uses_in_order;
use crate::{Declaration, FullName, Members, Same, Stop, TypeUse, Uses};
use std::alloc::{AllocError, Global};
use std::collections::HashMap;
use std::marker::Model;

/// Declarations in the order of their full names by bytes, each name once.
#[derive(Debug, Drop)]
pub struct Types {
    items: Vec<Declaration>,
    places: HashMap<String, u32>,
}

impl Model for Types {
    ghost use Rattle.std.specs.Prelude.{List};
    ghost use Rattle.wr_base.specs.declared.declaration.Declaration.{Declaration};
    ghost use Rattle.std.specs.HashMap.{get_by_text};
    ghost use Rattle.wr_base.specs.Finding.{IsTable};
    ghost use Rattle.std.specs.Coded.{codes};
    ghost use Rattle.wr_base.specs.contracts.type_use.TypeUse as uses;

    ghost Value = { List Declaration };

    ghost coded = { Prim.hlevel (codes, uses.the_row.coded) };

    ghost view = { λ t. t.items.items };

    ghost invariant = { λ t. IsTable t.items.items (get_by_text t.places) };
}

fn sort_by_name(list: &mut Vec<Declaration>) -> Result<(), AllocError>
    ensures permutation { IsPermutation list.old.items list.new.items }
    ensures sorted { OnOk result (IsSortedByKey name_of (slice_cmp nat_cmp) list.new.items) }
{
    list.sort_by(|a, b| a.name().as_str().cmp(b.name().as_str()))?;
    Ok(())
}

// The first place whose name is that of the next one, in a list in the order of names.
fn first_repeat(list: &[Declaration]) -> Option<usize>
    requires { IsSortedByKey name_of (slice_cmp nat_cmp) list.now }
    ensures none { IfNone result (AllAdjacentBelow Precedes list.now (length list.now)) }
    ensures some { IfSome result (FirstRepeat list.now) }
{
    if list.len() < 2 {
        return None;
    }
    for i in 1..list.len() {
        if *list[i - 1].name() == *list[i].name() {
            return Some(i - 1);
        }
    }
    None
}

fn put_place(places: &mut HashMap<String, u32>, name: String, place: u32) -> Result<(), AllocError>
    ensures { OnOk result (Updates string_eq places.old places.new name (Some place)) }
{
    match places.insert(name, place) {
        Ok(_) => Ok(()),
        Err(_) => Err(AllocError),
    }
}

// The place of each name.
fn places_of(alloc: Global, list: &[Declaration]) -> Result<HashMap<String, u32>, AllocError>
    requires { length list.now < 2 ^ 32 }
    ensures { IfOk result (λ places. Finds (map name_of list.now) (get_by_text places)) }
{
    let mut places = HashMap::new(alloc);
    for i in 0..list.len() {
        let name = String::from_str(alloc, list[i].name().as_str())?;
        put_place(&mut places, name, i as u32)?;
    }
    Ok(places)
}

// Declarations in the order of their names, each once, with the table of their places.
fn table_of(alloc: Global, list: Vec<Declaration>) -> Result<Types, AllocError>
    requires { IsInOrder list.items }
    ensures { IfOk result (λ types. types ≡ list.items) }
{
    let places = places_of(alloc, &list)?;
    Ok(Types {
        items: list,
        places,
    })
}

fn interface_in_sets(
    alloc: Global,
    name: FullName,
    version: u32,
    id: u128,
    owner: Option<FullName>,
    requires_: Uses,
    members: Members,
) -> Result<Declaration, AllocError>
    ensures { IfOk result (λ done. done ≡ Interface name version id owner (set_by text_of requires_) members) }
{
    let requires_ = uses_in_order(alloc, requires_)?;
    Ok(Declaration::Interface {
        name,
        version,
        id,
        owner,
        requires_,
        members,
    })
}

fn class_in_sets(
    alloc: Global,
    name: FullName,
    version: u32,
    fixed: bool,
    default: Option<TypeUse>,
    direct: bool,
    lists: ClassLists,
) -> Result<Declaration, AllocError>
    ensures { IfOk result (λ done. done ≡ Class name version fixed default (set_by text_of lists.has) direct (names_in_order lists.factories) (names_in_order lists.statics)) }
{
    let lists = lists.in_order(alloc)?;
    Ok(lists.into_class(name, version, fixed, default, direct))
}

// Its lists that stand for sets are put in order.
fn in_sets(alloc: Global, declaration: Declaration) -> Result<Declaration, AllocError>
    ensures { IfOk result (λ done. done ≡ normal declaration) }
{
    match declaration {
        Declaration::Interface {
            name,
            version,
            id,
            owner,
            requires_,
            members,
        } => interface_in_sets(alloc, name, version, id, owner, requires_, members),
        Declaration::Class {
            name,
            version,
            fixed,
            default,
            has,
            direct,
            factories,
            statics,
        } => {
            let lists = ClassLists {
                has,
                factories,
                statics,
            };
            class_in_sets(alloc, name, version, fixed, default, direct, lists)
        }
        other => Ok(other),
    }
}

fn all_in_sets(alloc: Global, list: Vec<Declaration>) -> Result<Vec<Declaration>, AllocError>
    ensures { IfOk result (λ done. done.items ≡ map normal list.items) }
{
    let mut done = Vec::new(alloc);
    for declaration in list {
        done.push(in_sets(alloc, declaration)?)?;
    }
    Ok(done)
}

impl Types {
    /// Puts the declarations and their lists of names and uses in order. Refused is the least full name that stands twice.
    pub fn from_list(alloc: Global, list: Vec<Declaration>) -> Result<Types, Stop<FullName>>
        requires { length list.items < 2 ^ 32 }
        ensures ok { IfOk result (λ types. IsPermutation (map normal list.items) types) }
        // Declarations in order stay where they are.
        ensures exact { IfOk result (λ types. IsInOrder list.items → types ≡ map normal list.items) }
        ensures order { IfOk result IsInOrder }
        ensures once { OnOk result (IsOnce list.items) }
        ensures refused { IfErr result (IsRefusalOf list.items) }
    {
        let mut list = match all_in_sets(alloc, list) {
            Ok(list) => list,
            Err(_) => return Err(Stop::Memory),
        };
        if let Err(_) = sort_by_name(&mut list) {
            return Err(Stop::Memory);
        }
        match first_repeat(&list) {
            None => match table_of(alloc, list) {
                Ok(types) => Ok(types),
                Err(_) => Err(Stop::Memory),
            },
            Some(at) => match list[at].name().clone() {
                Ok(name) => Err(Stop::Refused(name)),
                Err(_) => Err(Stop::Memory),
            },
        }
    }

    /// How many declarations there are.
    pub fn len(&self) -> u32
        ensures len { result ≡ length self.now }
        ensures order { IsInOrder self.now }
    {
        self.items.len() as u32
    }

    /// The declaration at a place, from 0.
    pub fn at(&self, i: u32) -> &Declaration
        requires { i < length self.now }
        ensures value { slice_get self.now i ≡ Some result.now }
        ensures order { IsInOrder self.now }
    {
        &self.items[i as usize]
    }

    /// The place of the declaration of this full name.
    pub fn find(&self, name: &FullName) -> Option<u32>
        ensures found { IfSome result (λ i. slice_get (map name_of self.now) i ≡ Some name.now) }
        // At the place stands the one declaration of this full name.
        ensures place { IfSome result (λ i. declared_as self.now name.now ≡ slice_get self.now i) }
        ensures absent { IfNone result (¬ (Contains (map name_of self.now) name.now)) }
        ensures none { IfNone result (declared_as self.now name.now ≡ None) }
        ensures order { IsInOrder self.now }
    {
        match self.places.get(name.as_str()) {
            Some(place) => Some(*place),
            None => None,
        }
    }
}

impl Clone for Types {
    ghost is_clone = { λ a b. b ≡ a };

    fn clone(&self) -> Result<Types, AllocError> {
        table_of(*self.items.allocator(), self.items.clone()?)
    }
}

impl Same for Types {
    fn same(&self, other: &Types) -> bool {
        same_lists(self.items.as_slice(), other.items.as_slice())
    }
}
