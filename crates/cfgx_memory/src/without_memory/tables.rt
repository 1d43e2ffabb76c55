//! Rows and tables of targets, and `pick` of no sections.
use super::is_ordered;
use crate::in_turn::AllocResult;
use crate::in_turn::verdicts::Nowhere;
use cfg_expr::memory::SmallAllocator;
use cfg_expr::targets::{TargetInfo, TargetTable, get_builtin_target_by_triple};
use cfgx_engine::resolve::{Section, pick};
use cfgx_testing::checking::push_ok;
use cfgx_testing::heap::Heap;
use cfgx_testing::refusing::EVERY;
use cfgx_testing::triples::{DARWIN, IOS, MACABI, TVOS};
use std::alloc::AllocError;

/// Rows, or out of memory.
type Rows<'a, A> = AllocResult<Vec<TargetInfo<'a, A>, A>>;

// Copies the rows of the table with the given triples, in the order of `triples`. Leaves out a
// triple that the table does not have.
fn copy_rows<'a, A: SmallAllocator + 'a>(
    alloc: A,
    table: &TargetTable<'a, A>,
    triples: &[&str],
) -> Rows<'a, A> {
    let mut rows = Vec::new(alloc);
    for triple in triples {
        if let Some(row) = get_builtin_target_by_triple(table, triple) {
            push_ok(&mut rows, row.try_clone(alloc))?;
        }
    }
    Ok(rows)
}

// Copies the built-in rows with the given triples, in the order of `triples`.
fn copy_builtin_rows<'a, A: SmallAllocator + 'a>(alloc: A, triples: &[&str]) -> Rows<'a, A> {
    let table = TargetTable::builtins(alloc)?;
    copy_rows(alloc, &table, triples)
}

/// Copies the built-in rows with the given triples, in the order of `triples`, with memory. Every
/// later growth is refused.
pub(super) fn rows_with_memory<'a, A: SmallAllocator + 'a>(
    heap: Heap<'_>,
    alloc: A,
    triples: &[&str],
) -> Rows<'a, A> {
    heap.refuse(0);
    let rows = copy_builtin_rows(alloc, triples);
    heap.refuse(EVERY);
    rows
}

// Makes a table of the rows. Returns the index of the error, or `None` if there is none, and the
// number of rows of the table or the error.
fn refusal<A: SmallAllocator>(rows: Rows<'_, A>) -> AllocResult<(Option<usize>, usize)> {
    match TargetTable::from_rows(rows?) {
        Ok(table) => Ok((None, table.rows().len())),
        Err(error) => Ok((Some(error.index), error.rows.len())),
    }
}

// Returns whether there are three rows, of which the first two are equal and the third is above
// both.
fn are_ordered_rows<A: SmallAllocator>(rows: &[TargetInfo<'_, A>]) -> bool {
    matches!(rows, [one, same, above] if is_ordered(one, same, above))
}

// Makes a table of the rows with the three triples. Returns whether it is refused at `index`, or
// made if `index` is `None`, and `are_ordered_rows` returns `are_ordered` for the rows.
fn table_is<A: SmallAllocator>(
    heap: Heap<'_>,
    alloc: A,
    triples: &[&str],
    index: Option<usize>,
    are_ordered: bool,
) -> bool {
    let rows = rows_with_memory(heap, alloc, triples);
    let is_right = matches!(&rows, Ok(rows) if are_ordered_rows(rows.as_slice()) == are_ordered);
    let refusal = refusal(rows);
    is_right && refusal == Ok((index, 3))
}

// Returns whether the table has a row with the triple `triple`.
fn has_triple<A: SmallAllocator>(table: &TargetTable<'_, A>, triple: &str) -> bool {
    match get_builtin_target_by_triple(table, triple) {
        Some(row) => row.triple.as_str() == triple,
        None => false,
    }
}

// Returns whether rows of the table are found by their triples, and no row by a prefix of its
// triple.
fn finds_rows<A: SmallAllocator>(table: &AllocResult<TargetTable<'_, A>>) -> bool {
    match table {
        Ok(table) => {
            !table.rows().is_empty()
                && has_triple(table, DARWIN)
                && has_triple(table, TVOS)
                && !has_triple(table, "aarch64-apple")
        }
        Err(_) => false,
    }
}

// Returns whether rows of the table of built-in targets are found.
fn finds_builtin_rows<A: SmallAllocator>(heap: Heap<'_>, alloc: A) -> bool {
    heap.refuse(0);
    let table = TargetTable::builtins(alloc);
    heap.refuse(EVERY);
    finds_rows(&table)
}

// Returns whether `pick` returns an empty list for an empty list of sections.
fn picks_of_no_sections<A: SmallAllocator>(alloc: A) -> bool {
    let sections: Vec<Section<A>, A> = Vec::new(alloc);
    matches!(pick(alloc, sections.as_slice(), &Nowhere), Ok(verdicts) if verdicts.is_empty())
}

/// The names of checks.
pub(super) const TABLES: &str = r#"
a table
no table
equal rows
built in
no sections
"#;

// Returns whether the check with the name `check` passes.
fn passes<A: SmallAllocator>(heap: Heap<'_>, alloc: A, check: &str) -> bool {
    match check {
        "a table" => table_is(heap, alloc, &[DARWIN, MACABI, TVOS], None, false),
        "no table" => table_is(heap, alloc, &[DARWIN, MACABI, MACABI], Some(2), false),
        "equal rows" => table_is(heap, alloc, &[IOS, IOS, MACABI], Some(1), true),
        "built in" => finds_builtin_rows(heap, alloc),
        "no sections" => picks_of_no_sections(alloc),
        _ => false,
    }
}

/// Returns whether the check of the row passes, with every growth refused.
pub(super) fn row_passes<A: SmallAllocator>(heap: Heap<'_>, alloc: A, row: &[String]) -> bool {
    let [check] = row else {
        return false;
    };
    heap.refuse(EVERY);
    passes(heap, alloc, check.as_str())
}
