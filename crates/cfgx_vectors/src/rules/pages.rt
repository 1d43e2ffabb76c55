//! Tables of `docs/RULES.md`, word for word. `.ci/pages` compares them with the page.
use super::predicates::predicate_text;
use super::{compare_fault, compare_predicates};
use cfgx_testing::rows::{Finding, compare, compare_pair, fail};
use cfgx_testing::streams::{ALL, run_text};
use cfgx_testing::triples::SIM;
use std::alloc::{AllocError, Global};

// Returns the text between the first two back quotes of a cell, or an empty text if it has none.
fn quoted(cell: &str) -> &str {
    cell.split('`').nth(1).unwrap_or("")
}

// Returns the fault of a cell as rows write it: without back quotes around its name, and without a
// comment.
fn fault_in_cell(alloc: Global, cell: &str) -> Result<String, AllocError> {
    let fault = cell.split(';').next().unwrap_or(cell);
    fault.trim_start_matches('`').replace(alloc, "` at", " at")
}

/// Compares the fault of the text of a row with the fault of the row.
pub(super) fn finding_of_fault(alloc: Global, text: &str, fault: &str) -> Finding {
    let text = quoted(text);
    match fault_in_cell(alloc, fault) {
        Ok(fault) => compare_fault(alloc, text, fault.as_str(), text),
        Err(_) => fail(alloc, "out of memory"),
    }
}

/// Compares the predicate that a spelling asks, and the spelling of that predicate, with a row.
pub(super) fn finding_of_spelling(alloc: Global, predicate: &str, spelling: &str) -> Finding {
    let text = quoted(spelling);
    compare_predicates(alloc, text, text)?;
    compare(alloc, predicate_text(alloc, text), quoted(predicate))
}

// Compares the output and the status of `pick` for `input` with `printed` and its status.
fn compare_picked(alloc: Global, input: &[u8], printed: &str) -> Finding {
    let is_faulty = printed.starts_with("line ") || printed.starts_with("input ");
    let status = if is_faulty { "1" } else { "0" };
    let actual = run_text(alloc, &["pick", SIM], ALL, input);
    compare_pair(alloc, actual, (status, printed))
}

// Returns the bytes of `input`, and the byte ff after them.
fn with_ff(alloc: Global, input: &str) -> Result<Vec<u8>, AllocError> {
    let mut bytes = Vec::new(alloc);
    bytes.extend_from_slice(input.as_bytes())?;
    bytes.push(0xff)?;
    Ok(bytes)
}

// Compares the output and the status of `pick` for `input` and the byte ff with a row.
fn compare_picked_with_ff(alloc: Global, input: &str, printed: &str) -> Finding {
    match with_ff(alloc, input) {
        Ok(bytes) => compare_picked(alloc, bytes.as_slice(), printed),
        Err(_) => fail(alloc, "out of memory"),
    }
}

/// Compares the output of `pick` for the input of a row with the row. A row without an input stands
/// for the empty input and for line feeds alone.
pub(super) fn finding_of_pick(alloc: Global, cell: &str, printed: &str) -> Finding {
    let (input, printed) = (quoted(cell), quoted(printed));
    if cell.ends_with(" and the one byte ff") {
        return compare_picked_with_ff(alloc, input, printed);
    }
    compare_picked(alloc, input.as_bytes(), printed)?;
    if input.is_empty() {
        return compare_picked(alloc, b"\n\n\n".as_slice(), printed);
    }
    Ok(())
}
