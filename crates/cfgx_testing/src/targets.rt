//! Rows of targets: made by hand, or built in.
use crate::checking::{assign_ok, push_ok};
use cfg_expr::targets::{
    Abi, Arch, Endian, Env, Families, HasAtomics, Os, Panic, TargetInfo, TargetTable, Triple,
    Vendor, get_builtin_target_by_triple,
};
use cfgx_fields::reading::{read_endian, read_u8};
use std::alloc::{AllocError, Global};

/// Returns a row with `triple`, in which everything is missing that may be.
pub fn bare(triple: &str) -> TargetInfo<'_> {
    TargetInfo {
        triple: Triple::new_const(triple),
        os: None,
        abi: None,
        arch: Arch::aarch64(),
        env: None,
        vendor: None,
        families: Families::new_const(&[]),
        pointer_width: 64,
        endian: Endian::little,
        has_atomics: HasAtomics::new_const(&[]),
        panic: Panic::unwind(),
    }
}

// Sets the field with the name `name` to `text`.
fn set_text(
    row: &mut TargetInfo<'static>,
    name: &str,
    text: &'static str,
) -> Result<(), AllocError> {
    match name {
        "triple" => assign_ok(&mut row.triple, Ok(Triple::new_const(text))),
        "os" => assign_ok(&mut row.os, Ok(Some(Os::new_const(text)))),
        "abi" => assign_ok(&mut row.abi, Ok(Some(Abi::new_const(text)))),
        "arch" => assign_ok(&mut row.arch, Ok(Arch::new_const(text))),
        "env" => assign_ok(&mut row.env, Ok(Some(Env::new_const(text)))),
        "vendor" => assign_ok(&mut row.vendor, Ok(Some(Vendor::new_const(text)))),
        "panic" => assign_ok(&mut row.panic, Ok(Panic::new_const(text))),
        _ => Err(AllocError),
    }
}

// Sets the field with the name `name` to `value`. The name of a list sets that list.
fn set_field(
    alloc: Global,
    row: &mut TargetInfo<'static>,
    name: &str,
    value: &'static str,
) -> Result<(), AllocError> {
    match name {
        "unix" => assign_ok(&mut row.families, Families::unix(alloc)),
        "windows" => assign_ok(&mut row.families, Families::windows(alloc)),
        "bits" => assign_ok(&mut row.pointer_width, read_u8(value).ok_or(AllocError)),
        "endian" => assign_ok(&mut row.endian, read_endian(value).ok_or(AllocError)),
        "atomics" => assign_ok(
            &mut row.has_atomics,
            HasAtomics::atomic_8_16_32_64_128_ptr(alloc),
        ),
        _ => set_text(row, name, value),
    }
}

fn set_fields(
    alloc: Global,
    row: &mut TargetInfo<'static>,
    fields: &'static str,
) -> Result<(), AllocError> {
    for field in fields.split_whitespace() {
        let (name, value) = field.split_once('=').unwrap_or((field, ""));
        set_field(alloc, row, name, value)?;
    }
    Ok(())
}

/// Returns a bare row with `triple` and `fields`. Spaces separate the fields: `os=ios` and so on,
/// or `unix`, `windows` or `atomics` for a list.
pub fn row_of(
    alloc: Global,
    triple: &'static str,
    fields: &'static str,
) -> Result<TargetInfo<'static>, AllocError> {
    let mut row: TargetInfo<'static> = bare(triple);
    let is_set = set_fields(alloc, &mut row, fields);
    is_set.and(Ok(row))
}

/// Pushes a row for each line, which is a triple with fields after it.
pub fn push_rows(
    alloc: Global,
    rows: &mut Vec<TargetInfo<'static>>,
    lines: &'static str,
) -> Result<(), AllocError> {
    for line in lines.lines() {
        let (triple, fields) = line.split_once(' ').unwrap_or((line, ""));
        push_ok(rows, row_of(alloc, triple, fields))?;
    }
    Ok(())
}

// Pushes a copy of the row of `table` for each of `triples`. Returns an error if memory runs out,
// or if a row is missing.
fn push_copies(
    alloc: Global,
    rows: &mut Vec<TargetInfo<'static>>,
    table: &TargetTable<'static>,
    triples: &[&str],
) -> Result<(), AllocError> {
    for triple in triples {
        match get_builtin_target_by_triple(table, triple) {
            Some(row) => push_ok(rows, row.try_clone(alloc))?,
            None => return Err(AllocError),
        }
    }
    Ok(())
}

/// Returns copies of the built-in rows with `triples`, in this order.
///
/// Returns an error if memory runs out, or if a triple is not built in.
pub fn builtin_rows(
    alloc: Global,
    triples: &[&str],
) -> Result<Vec<TargetInfo<'static>>, AllocError> {
    let table: TargetTable<'static> = TargetTable::builtins(alloc)?;
    let mut rows: Vec<TargetInfo<'static>> = Vec::new(alloc);
    let pushed = push_copies(alloc, &mut rows, &table, triples);
    pushed.and(Ok(rows))
}
