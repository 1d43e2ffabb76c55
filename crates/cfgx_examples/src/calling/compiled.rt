//! Targets that are not built in: the values and the tables that the pages show.
use super::manifests::values_on;
use super::others::{builtins_and, linux_row};
use super::resolver::value_for;
use super::value_prints;
use cfg_expr::Expression;
use cfg_expr::error::Failure;
use cfg_expr::targets::{TargetInfo, TargetTable, get_builtin_target_by_triple};
use cfgx_testing::checking::is_ok_true;
use cfgx_testing::targets::bare;
use cfgx_testing::triples::IOS;
use std::alloc::{AllocError, Global};

// The lines that `rustc --print cfg --target x86_64-pc-windows-msvc` of 1.95 prints, without most
// features.
const WINDOWS: &str = "debug_assertions\n\
    panic=\"unwind\"\n\
    target_abi=\"\"\n\
    target_arch=\"x86_64\"\n\
    target_endian=\"little\"\n\
    target_env=\"msvc\"\n\
    target_family=\"windows\"\n\
    target_feature=\"sse2\"\n\
    target_has_atomic=\"128\"\n\
    target_has_atomic=\"16\"\n\
    target_has_atomic=\"8\"\n\
    target_has_atomic=\"ptr\"\n\
    target_os=\"windows\"\n\
    target_pointer_width=\"64\"\n\
    target_vendor=\"pc\"\n\
    windows\n";

fn values_on_windows(alloc: Global, conditions: &str) -> Result<Vec<Option<bool>>, Failure> {
    let texts: Vec<&str> = conditions.split(';').collect(alloc)?;
    values_on(alloc, texts.as_slice(), WINDOWS)
}

/// Returns whether the values of the conditions on the target of `WINDOWS` print `values`.
/// Semicolons separate the conditions.
pub fn values_are(alloc: Global, conditions: &str, values: &str) -> bool {
    value_prints(alloc, values_on_windows(alloc, conditions), values)
}

fn is_fault<T: Drop>(outcome: Result<T, Failure>) -> bool {
    matches!(&outcome, Err(Failure::Parse(_)))
}

#[test]
fn faulty_conditions_and_lines_are_refused(rt: HostRuntime) {
    let alloc = rt.alloc();
    assert!(rt; is_fault(values_on(alloc, &["unix", "b)"], WINDOWS)));
    assert!(rt; is_fault(values_on(alloc, &[], "unix\nnot\n")));
    // A compiler may print what no condition can ask.
    let values = values_on(alloc, &["unix"], "target_thread_local\nunix\n");
    assert!(rt; value_prints(alloc, values, "[Some(true)]"));
}

/// Returns the value, with the feature `x`, on the row that is written by hand.
pub fn value_on_linux(alloc: Global, condition: &Expression) -> Result<bool, AllocError> {
    let row = linux_row(alloc)?;
    value_for(alloc, condition, &row, &["x"])
}

fn has_triple(table: &TargetTable<'_>, triple: &str) -> bool {
    get_builtin_target_by_triple(table, triple).is_some()
}

// Returns whether the built-in rows and the row make a table in which `triple` and a built-in
// triple are found.
fn makes_a_table(
    alloc: Global,
    row: TargetInfo<'static>,
    triple: &str,
) -> Result<bool, AllocError> {
    let Some(table) = builtins_and(alloc, row)? else {
        return Ok(false);
    };
    Ok(has_triple(&table, triple) && has_triple(&table, IOS))
}

fn linux_makes_a_table(alloc: Global) -> Result<bool, AllocError> {
    makes_a_table(alloc, linux_row(alloc)?, "x86_64-unknown-linux-gnu")
}

#[test]
fn a_row_is_added_unless_its_triple_is_built_in(rt: HostRuntime) {
    let alloc = rt.alloc();
    assert!(rt; is_ok_true(linux_makes_a_table(alloc)));
    assert!(rt; is_ok_true(makes_a_table(alloc, bare("a"), "a")));
    assert!(rt; matches!(makes_a_table(alloc, bare(IOS), IOS), Ok(false)));
}
