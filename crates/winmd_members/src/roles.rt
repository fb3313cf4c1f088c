//! What each method is: a method, or an accessor of a property or an event.

ghost use Rattle.std.specs.Prelude.{◌≡◌, map, option_map};
ghost use Rattle.md_schema.specs.declared.table.Table.TheVariants as tables;
ghost use Rattle.winmd_cells.specs.Given.{Gives};
ghost use Rattle.winmd_cells.specs.Seen.{seen, tables_in, value_seen};
ghost use Rattle.winmd_members.specs.Seen.{played_seen, role_seen};
ghost use Rattle.winmd_rows.specs.Faults.{each};
ghost use Rattle.winmd_rows.specs.Values.{To as to_value};
ghost use Rattle.winmd_sets.specs.Interfaces as interfaces_as;

use md_schema::{ImageFault, ImageKind, Table};
use ranked::Stop;
use std::alloc::Global;
use winmd_cells::Value;
use winmd_source::{Source, refused};

/// A method, or an accessor of a row of Property or Event.
#[derive(Clone, Copy)]
pub enum Role {
    Method,
    Getter(u32),
    Setter(u32),
    Adder(u32),
    Remover(u32),
}

/// A method and what it is.
#[derive(Clone, Copy)]
pub struct Played {
    pub role: Role,
    pub method: u32,
}

fn of_property(
    source: &Source<'_>,
    offset: u64,
    meaning: u32,
    n: u32,
) -> Result<Role, Stop<ImageFault>>
    ensures { Gives (role_seen source.now.image) result (interfaces_as.accessor_of offset meaning tables.Property (seen source.now.image tables.Property n)) }
{
    if meaning == 2 {
        Ok(Role::Getter(n))
    } else if meaning == 1 {
        Ok(Role::Setter(n))
    } else {
        Err(refused(ImageKind::BadShape, offset))
    }
}

fn of_event(
    source: &Source<'_>,
    offset: u64,
    meaning: u32,
    n: u32,
) -> Result<Role, Stop<ImageFault>>
    ensures { Gives (role_seen source.now.image) result (interfaces_as.accessor_of offset meaning tables.Event (seen source.now.image tables.Event n)) }
{
    if meaning == 8 {
        Ok(Role::Adder(n))
    } else if meaning == 0x10 {
        Ok(Role::Remover(n))
    } else {
        Err(refused(ImageKind::BadShape, offset))
    }
}

fn accessor_of(
    source: &Source<'_>,
    offset: u64,
    meaning: u32,
    table: Table,
    n: u32,
) -> Result<Role, Stop<ImageFault>>
    ensures { Gives (role_seen source.now.image) result (interfaces_as.accessor_of offset meaning table (seen source.now.image table n)) }
{
    match table {
        Table::Property => of_property(source, offset, meaning, n),
        Table::Event => of_event(source, offset, meaning, n),
        _ => Err(refused(ImageKind::BadShape, offset)),
    }
}

/// What leads to a row of a table.
fn associated(
    source: &Source<'_>,
    semantics: u32,
    meaning: u32,
    table: Table,
    n: u32,
) -> Result<Role, Stop<ImageFault>>
    ensures { Gives (role_seen source.now.image) result (interfaces_as.association_of (tables_in source.now.image) (seen source.now.image tables.MethodSemantics semantics) meaning (to_value table n)) }
{
    source.check_row(
        table,
        n,
        source.image.offset(Table::MethodSemantics, semantics, 2),
    )?;
    accessor_of(
        source,
        source.image.offset(Table::MethodSemantics, semantics, 0),
        meaning,
        table,
        n,
    )
}

fn association_of(
    source: &Source<'_>,
    semantics: u32,
    meaning: u32,
    value: Value<'_>,
) -> Result<Role, Stop<ImageFault>>
    ensures { Gives (role_seen source.now.image) result (interfaces_as.association_of (tables_in source.now.image) (seen source.now.image tables.MethodSemantics semantics) meaning (value_seen value.entry)) }
{
    match value {
        Value::To(table, n) => associated(source, semantics, meaning, table, n),
        _ => Err(refused(
            ImageKind::BadShape,
            source.image.offset(Table::MethodSemantics, semantics, 2),
        )),
    }
}

fn role_in(source: &Source<'_>, semantics: Option<u32>) -> Result<Role, Stop<ImageFault>>
    ensures { Gives (role_seen source.now.image) result (interfaces_as.role_in (tables_in source.now.image) (option_map (seen source.now.image tables.MethodSemantics) semantics)) }
{
    match semantics {
        None => Ok(Role::Method),
        Some(row) => {
            let meaning = source.image.number(Table::MethodSemantics, row, 0)?;
            let association = source.image.cell(Table::MethodSemantics, row, 2)?;
            association_of(source, row, meaning, association)
        }
    }
}

fn role_of(source: &Source<'_>, method: u32) -> Result<Played, Stop<ImageFault>>
    ensures { Gives (played_seen source.now.image) result (interfaces_as.role_of (tables_in source.now.image) (seen source.now.image tables.MethodDef method)) }
{
    let semantics = source.at_most_one(
        Table::MethodSemantics,
        source.image.offset(Table::MethodDef, method, 0),
        source.semantics_of(method),
    )?;
    let role = role_in(source, semantics)?;
    Ok(Played { role, method })
}

/// What methods are.
pub(crate) fn roles_of(
    alloc: Global,
    source: &Source<'_>,
    methods: &[u32],
) -> Result<Vec<Played>, Stop<ImageFault>>
    ensures { Gives (λ x. map (played_seen source.now.image) x.items) result (each (interfaces_as.role_of (tables_in source.now.image)) (map (seen source.now.image tables.MethodDef) methods.now)) }
{
    let mut roles = Vec::new(alloc);
    let mut rest = methods;
    'each: while let Some((method, after)) = rest.split_first() {
        let played = role_of(source, *method)?;
        roles.push(played)?;
        rest = after;
    }
    Ok(roles)
}
