//! Calls that take no memory, with every growth refused: each returns its usual result and asks for
//! no growth.
//!
//! A check begins with every growth refused. If it needs memory for the arguments of a call, it
//! allows growths while it makes them, as in `parse_with_memory`, or makes them with `global`. A
//! check takes the allocator twice: as `heap`, to set which growths it refuses, and as `alloc`, to
//! make the call.
mod conditions;
mod faults;
mod lists;
mod logics;
mod named;
mod tables;
mod values;

use crate::in_turn::AllocResult;
use cfgx_testing::checking::hash_of;
use cfgx_testing::heap::{Heap, empty_heap, has_every_block};
use cfgx_testing::refusing::EVERY;
use cfgx_testing::rows::{TableToCheck, check_tables};
use std::alloc::Global;
use std::hash::Hash;

// Returns whether `one` and `same` are equal and have equal hashes, and `one` is below `above`.
fn is_ordered<T: Ord + Hash>(one: &T, same: &T, above: &T) -> bool {
    one == same
        && one != above
        && one.cmp(same).is_eq()
        && one.cmp(above).is_lt()
        && hash_of(one) == hash_of(same)
}

// Returns whether all three were made, and `is_ordered` returns true for them.
fn is_made_and_ordered<T: Ord + Hash>(
    one: &AllocResult<T>,
    same: &AllocResult<T>,
    above: &AllocResult<T>,
) -> bool {
    match (one, same, above) {
        (Ok(one), Ok(same), Ok(above)) => is_ordered(one, same, above),
        _ => false,
    }
}

const TABLES: &[TableToCheck<'_>] = &[
    ("conditions take no memory", conditions::CONDITIONS, 43),
    ("faults take no memory", faults::FAULTS, 3),
    ("lists take no memory", lists::LISTS, 10),
    ("tables of targets take no memory", tables::TABLES, 5),
    ("other values take no memory", values::VALUES, 27),
];

// Returns the field of a row that has only one. Returns an empty text for any other row.
fn only_field(row: &[String]) -> &str {
    match row {
        [field] => field.as_str(),
        _ => "",
    }
}

// Returns whether the row passes the check with the name `name`, or `None` if there is no such
// check.
fn row_passes(global: Global, heap: Heap<'_>, name: &str, row: &[String]) -> Option<bool> {
    match name {
        "conditions take no memory" => Some(conditions::row_passes(global, heap, heap, row)),
        "faults take no memory" => Some(faults::row_passes(global, heap, heap, row)),
        "lists take no memory" => Some(lists::passes(global, heap, heap, only_field(row))),
        "tables of targets take no memory" => Some(tables::row_passes(heap, heap, row)),
        "other values take no memory" => Some(values::passes(global, heap, heap, only_field(row))),
        _ => None,
    }
}

// Refuses every growth, and returns whether the row passes without asking for a growth that is
// refused, or `None` if there is no check with the name `name`.
fn passes_without_growth(
    global: Global,
    heap: Heap<'_>,
    name: &str,
    row: &[String],
) -> Option<bool> {
    heap.refuse(EVERY);
    let refused = heap.refused_growths();
    let passes = row_passes(global, heap, name, row)?;
    Some(passes && heap.refused_growths() == refused)
}

#[test]
fn calls_take_no_memory(rt: HostRuntime) -> Result<(), String> {
    let global = rt.alloc();
    let heap = empty_heap(global);
    check_tables(
        global,
        TABLES,
        |name, row| passes_without_growth(global, &heap, name, row),
    )?;
    assert!(rt; has_every_block(heap));
    Ok(())
}
