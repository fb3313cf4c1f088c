//! Where the tables of a stream begin, and the numbers of their rows.

ghost use Rattle.std.specs.Prelude.{◌≡◌, ◌≤◌, ◌<◌, ◌^◌, ◌+◌, ℕ, IfOk, get_or, length, map, take};
ghost use Rattle.md_bytes.specs.Bytes.{total};
ghost use Rattle.md_schema.specs.Schema.{all_tables, place_of};
ghost use Rattle.md_schema.specs.Tables.{table_size, table_start, upto};
ghost use Rattle.md_schema.specs.Tables as width_as;
ghost use Rattle.md_tables.specs.Lists.{cells_in};
ghost use Rattle.md_schema.specs.Widths.{count_of};

use crate::offsets::total_width;
use md_schema::{Sizes, TABLES, Table, columns};
use md_tables::{Cells, place, widths};
use ranked::Memory;
use std::alloc::Global;

/// How many bytes the rows of a table have.
fn size_of_table(sizes: &Sizes, table: Table) -> u64
    ensures value { result ≡ table_size sizes.now table }
    ensures small { result < 2 ^ 38 }
{
    sizes.count(table) as u64 * total_width(sizes, columns(table))
}

/// How many bytes the rows of up to 38 tables have.
fn size_of_tables(sizes: &Sizes, order: &[Table]) -> u64
    requires { length order.now ≤ 38 }
    ensures value { result ≡ total (map (table_size sizes.now) order.now) }
    ensures small { result < 2 ^ 44 }
{
    let mut sum = 0;
    for table in order {
        sum += size_of_table(sizes, *table);
    }
    sum
}

/// The tables before a table.
fn before(table: Table) -> &'static [Table]
    ensures tables { result.now ≡ take (place_of table) all_tables }
    ensures few { length result.now ≤ 38 }
{
    &TABLES[..place(table)]
}

fn start_of(sizes: &Sizes, from: u64, table: Table) -> u64
    requires { from ≤ 280 }
    ensures value { result ≡ from + table_start sizes.now table }
    ensures near { result ≤ 2 ^ 45 }
{
    from + size_of_tables(sizes, before(table))
}

/// Where each of these tables begins in a stream whose rows begin at an offset.
pub fn starts_of(
    alloc: Global,
    sizes: &Sizes,
    from: u64,
    order: &[Table],
) -> Result<Vec<u64>, Memory>
    requires { from ≤ 280 }
    ensures value { IfOk result (λ starts. starts.items ≡ map (λ table. from + table_start sizes.now table) order.now) }
    ensures near { IfOk result (λ starts. (k : ℕ) → get_or starts.items k 0 ≤ 2 ^ 45) }
{
    let mut starts = Vec::new(alloc);
    for table in order {
        starts.push(start_of(sizes, from, *table))?;
    }
    Ok(starts)
}

/// How many bytes the cells of each column of these tables have.
pub fn widths_of(alloc: Global, sizes: &Sizes, order: &[Table]) -> Result<Vec<Cells>, Memory>
    ensures { IfOk result (λ list. cells_in list.items ≡ map (width_as.widths_of sizes.now) order.now) }
{
    let mut list = Vec::new(alloc);
    for table in order {
        list.push(widths(sizes, columns(*table)))?;
    }
    Ok(list)
}

fn larger(a: u32, b: u32) -> u32
    ensures left { a ≤ result }
    ensures right { b ≤ result }
{
    if a < b { b } else { a }
}

/// How many rows the longest of these tables has.
pub fn longest(sizes: &Sizes, order: &[Table]) -> u32
    ensures { (k : ℕ) → get_or (map (count_of sizes.now) order.now) k 0 ≤ result }
{
    let mut most = 0;
    for table in order {
        most = larger(most, sizes.count(*table));
    }
    most
}

/// The numbers from 1 to a count.
pub fn numbers_to(alloc: Global, count: u32) -> Result<Vec<u32>, Memory>
    ensures { IfOk result (λ numbers. numbers.items ≡ upto 1 count) }
{
    let mut numbers = Vec::new(alloc);
    for i in 0..count {
        numbers.push(i + 1)?;
    }
    Ok(numbers)
}
