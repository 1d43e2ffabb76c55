//! What lists of families and of widths, single widths, and fields print.
use cfg_expr::error::HasAtomicParseError;
use cfg_expr::targets::{Families, Family, HasAtomic, HasAtomicFailure, HasAtomics, TargetInfo};
use cfgx_fields::{
    AbiKind, ArchKind, EnvKind, FamilyKind, Field, OsKind, PanicKind, TripleKind, VendorKind,
};
use cfgx_testing::checking::{assign_ok, is_ok_true, value_equals};
use cfgx_testing::rows::{Finding, compare, require};
use cfgx_testing::targets::bare;
use std::alloc::{AllocError, Global};

fn families_of<'a>(alloc: Global, names: &'a str) -> Result<Vec<Family<'a>>, AllocError> {
    let mut families = Vec::new(alloc);
    for name in names.split_whitespace() {
        families.push(Family::new_const(name))?;
    }
    Ok(families)
}

fn list_of_families<'a>(alloc: Global, names: &'a str) -> Result<Families<'a>, AllocError> {
    let families = families_of(alloc, names)?;
    Families::new(alloc, families.into_iter())
}

/// Returns what the list of the families with `names` prints.
pub(super) fn families_text(alloc: Global, names: &str) -> Result<String, AllocError> {
    let list = list_of_families(alloc, names)?;
    format!(in alloc; "{list}")
}

// Returns the width of `text`, or the error if `text` is no width or memory runs out.
fn width_of(alloc: Global, text: &str) -> Result<HasAtomic, AllocError> {
    HasAtomic::read(alloc, text).ok().ok_or(AllocError)
}

fn widths_of(alloc: Global, texts: &str) -> Result<Vec<HasAtomic>, AllocError> {
    let mut widths = Vec::new(alloc);
    for text in texts.split_whitespace() {
        widths.push(width_of(alloc, text)?)?;
    }
    Ok(widths)
}

fn list_of_widths(alloc: Global, texts: &str) -> Result<HasAtomics, AllocError> {
    let widths = widths_of(alloc, texts)?;
    HasAtomics::new(alloc, widths.into_iter())
}

/// Returns what the list of the widths of `texts` prints.
pub(super) fn widths_text(alloc: Global, texts: &str) -> Result<String, AllocError> {
    let list = list_of_widths(alloc, texts)?;
    format!(in alloc; "{list}")
}

// Returns what the fault prints, if it equals its copy.
fn fault_text(alloc: Global, error: &HasAtomicParseError) -> Result<String, AllocError> {
    let copy = error.try_clone(alloc)?;
    if copy != *error {
        return String::from_str(alloc, "another copy");
    }
    format!(in alloc; "{error}")
}

/// Returns what the width of `text` prints, or the fault of a text that is no width.
pub(super) fn width_text(alloc: Global, text: &str) -> Result<String, AllocError> {
    match HasAtomic::read(alloc, text) {
        Ok(width) => format!(in alloc; "{width}"),
        Err(HasAtomicFailure::Parse(error)) => fault_text(alloc, &error),
        Err(HasAtomicFailure::Memory(error)) => Err(error),
    }
}

// Returns what a field of the kind `K` that owns its text prints, if it equals its copy and a field
// that borrows the text.
fn printed_field<K: Drop>(alloc: Global, text: &str) -> Result<String, AllocError> {
    let owned: Field<'_, K> = Field::new(String::from_str(alloc, text)?);
    let copy = owned.try_clone(alloc)?;
    if owned != Field::new_const(text) || owned != copy {
        return String::from_str(alloc, "another copy");
    }
    format!(in alloc; "{copy}")
}

/// Compares what a field of each type prints with its text.
pub(super) fn finding_of_field(alloc: Global, text: &str) -> Finding {
    compare(alloc, printed_field::<TripleKind>(alloc, text), text)?;
    compare(alloc, printed_field::<AbiKind>(alloc, text), text)?;
    compare(alloc, printed_field::<ArchKind>(alloc, text), text)?;
    compare(alloc, printed_field::<VendorKind>(alloc, text), text)?;
    compare(alloc, printed_field::<OsKind>(alloc, text), text)?;
    compare(alloc, printed_field::<FamilyKind>(alloc, text), text)?;
    compare(alloc, printed_field::<EnvKind>(alloc, text), text)?;
    compare(alloc, printed_field::<PanicKind>(alloc, text), text)
}

// Gives the row these lists. Returns whether the row then equals its copy.
fn equals_copy<'a>(
    alloc: Global,
    row: &mut TargetInfo<'a>,
    families: &'a str,
    widths: &str,
) -> Result<bool, AllocError> {
    assign_ok(&mut row.families, list_of_families(alloc, families))?;
    assign_ok(&mut row.has_atomics, list_of_widths(alloc, widths))?;
    value_equals(row.try_clone(alloc), row)
}

/// Checks that a row with these families and widths equals its copy.
pub(super) fn finding_of_row(alloc: Global, families: &str, widths: &str) -> Finding {
    let mut row = bare("bare");
    let is_right = is_ok_true(equals_copy(alloc, &mut row, families, widths));
    drop(row);
    require(alloc, is_right, "another copy, no width, or out of memory")
}
