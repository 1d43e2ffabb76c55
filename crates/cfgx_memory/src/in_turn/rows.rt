//! Copies of a row of the table of built-in targets, borrowed and owned.
use super::lists::{owned_families, owned_field, widths_below};
use super::{AllocResult, Outcome, TryClone, check_copy, combine};
use cfg_expr::memory::SmallAllocator;
use cfg_expr::targets::{TargetInfo, TargetTable, get_builtin_target_by_triple};
use cfgx_fields::Field;
use cfgx_targets::builtins::builtin;
use cfgx_testing::checking::assign_ok;
use cfgx_testing::triples::DARWIN;
use std::alloc::AllocError;

impl<'a, A: SmallAllocator> TryClone<A> for TargetInfo<'a, A> {
    fn copy(&self, alloc: A) -> AllocResult<Self> {
        self.try_clone(alloc)
    }
}

const TEXT: &str = "a text of seventeen";

// Replaces the field by one that owns its text.
fn own_field<'a, K: Drop, A: SmallAllocator>(
    alloc: A,
    field: &mut Field<'a, K, A>,
) -> AllocResult<()> {
    assign_ok(field, owned_field(alloc, TEXT))
}

fn some_owned_field<'a, K, A: SmallAllocator>(alloc: A) -> AllocResult<Option<Field<'a, K, A>>> {
    Ok(Some(owned_field(alloc, TEXT)?))
}

// Replaces the optional field by one that owns its text.
fn own_optional_field<'a, K: Drop, A: SmallAllocator>(
    alloc: A,
    field: &mut Option<Field<'a, K, A>>,
) -> AllocResult<()> {
    assign_ok(field, some_owned_field(alloc))
}

// Makes the row own all its texts and lists. If one is refused, the others are still replaced.
fn own_row<'a, A: SmallAllocator + 'a>(alloc: A, row: &mut TargetInfo<'a, A>) -> AllocResult<()> {
    let parts = [
        own_field(alloc, &mut row.triple),
        own_field(alloc, &mut row.arch),
        own_field(alloc, &mut row.panic),
        own_optional_field(alloc, &mut row.os),
        own_optional_field(alloc, &mut row.abi),
        own_optional_field(alloc, &mut row.env),
        own_optional_field(alloc, &mut row.vendor),
        assign_ok(&mut row.families, owned_families(alloc, "wasm unix")),
        assign_ok(&mut row.has_atomics, widths_below(alloc, 10)),
    ];
    if parts.contains(&Err(AllocError)) {
        Err(AllocError)
    } else {
        Ok(())
    }
}

// Makes the row own all its texts and lists, and checks its copy.
fn check_owned_row<'a, A: SmallAllocator + 'a>(alloc: A, row: &mut TargetInfo<'a, A>) -> Outcome {
    own_row(alloc, row)?;
    check_copy(alloc, row)
}

// Checks that the copy equals `value`, and then that it passes `check`.
fn check_copied<T, C>(value: &T, copy: AllocResult<T>, check: C) -> Outcome
where
    T: PartialEq + Drop,
    C: Fn(&mut T) -> Outcome,
    requires { C.IsAlwaysCallable check }
{
    let mut copy = copy?;
    let is_equal = copy == *value;
    let outcome = check(&mut copy);
    if is_equal { outcome } else { Ok(false) }
}

// Checks a copy of the row. Then makes another copy own all its texts and lists, and checks a copy
// of that one.
fn check_row<'a, A: SmallAllocator + 'a>(alloc: A, row: &TargetInfo<'a, A>) -> Outcome {
    let borrowed = check_copy(alloc, row);
    let owned = check_copied(
        row,
        row.try_clone(alloc),
        |copy| check_owned_row(alloc, copy),
    );
    combine(&[borrowed, owned])
}

/// Checks copies of a row of the table of built-in targets.
pub(super) fn check_builtin_row<A: SmallAllocator>(alloc: A) -> Outcome {
    let table = TargetTable::builtins(alloc)?;
    match get_builtin_target_by_triple(&table, DARWIN) {
        Some(row) => check_row(alloc, row),
        None => Ok(false),
    }
}

// Returns whether there is a row, and it has the triple.
fn has_triple<A: SmallAllocator>(row: &Option<TargetInfo<'_, A>>, triple: &str) -> bool {
    match row {
        Some(row) => row.triple.as_str() == triple,
        None => false,
    }
}

/// Checks the row of the built-in target with this triple.
pub(super) fn check_builtin<A: SmallAllocator>(alloc: A, triple: &str) -> Outcome {
    Ok(has_triple(&builtin(alloc, triple)?, triple))
}
