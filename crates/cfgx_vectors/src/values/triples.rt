//! Tables of targets with increasing triples, and lookup in the built-in table.
use cfg_expr::targets::{
    TableError, TargetInfo, TargetTable, Triple, get_builtin_target_by_triple,
};
use cfgx_testing::checking::{assign_ok, is_ok_true, push_ok};
use cfgx_testing::rows::{Finding, fail, require};
use cfgx_testing::targets::bare;
use std::alloc::{AllocError, Global};

// Pushes a row for each of `triples`.
fn push_rows<'a>(rows: &mut Vec<TargetInfo<'a>>, triples: &'a str) -> Result<(), AllocError> {
    for triple in triples.split_whitespace() {
        push_ok(rows, Ok(bare(triple)))?;
    }
    Ok(())
}

// Returns rows with `triples`.
fn rows_with<'a>(alloc: Global, triples: &'a str) -> Result<Vec<TargetInfo<'a>>, AllocError> {
    let mut rows = Vec::new(alloc);
    let pushed = push_rows(&mut rows, triples);
    pushed.and(Ok(rows))
}

// Returns whether `rows` have `triples`.
fn have_triples(rows: &[TargetInfo<'_>], triples: &str) -> bool {
    let mut left = triples.split_whitespace();
    for row in rows {
        if left.next() != Some(row.triple.as_str()) {
            return false;
        }
    }
    left.next().is_none()
}

// Returns `table`, or the index at which the rows are refused, if the table or the error has the
// rows with `triples`.
fn made_text(
    alloc: Global,
    made: &Result<TargetTable<'_>, TableError<'_>>,
    triples: &str,
) -> Result<String, AllocError> {
    match made {
        Ok(table) if have_triples(table.rows(), triples) => String::from_str(alloc, "table"),
        Err(error) if have_triples(error.rows.as_slice(), triples) => {
            let index = error.index;
            format!(in alloc; "{index}")
        }
        _ => String::from_str(alloc, "other rows"),
    }
}

/// Returns `table` if rows with `triples` are a table, or the index at which they are refused.
pub(super) fn table_text(alloc: Global, triples: &str) -> Result<String, AllocError> {
    let made = TargetTable::from_rows(rows_with(alloc, triples)?);
    let text = made_text(alloc, &made, triples);
    drop(made);
    text
}

// Pushes the triples of the rows, which spaces separate.
fn push_triples(text: &mut String, rows: &[TargetInfo<'_>]) -> Result<(), AllocError> {
    for row in rows {
        text.push_str(if text.is_empty() { "" } else { " " })?;
        text.push_str(row.triple.as_str())?;
    }
    Ok(())
}

/// Returns the triples of all built-in targets, in the order of the table. Spaces separate them.
pub(super) fn builtin_triples(alloc: Global) -> Result<String, AllocError> {
    let table = TargetTable::builtins(alloc)?;
    let mut text = String::new(alloc);
    push_triples(&mut text, table.rows())?;
    Ok(text)
}

// Returns the triple of the row that is found, or `nowhere`.
fn found_in(alloc: Global, table: &TargetTable<'_>, triple: &str) -> Result<String, AllocError> {
    match get_builtin_target_by_triple(table, triple) {
        Some(row) => String::from_str(alloc, row.triple.as_str()),
        None => String::from_str(alloc, "nowhere"),
    }
}

// Returns the triple of the row with this number. Triples increase with the numbers.
fn numbered_triple<'a>(alloc: Global, number: usize) -> Result<Triple<'a>, AllocError> {
    let text = format!(in alloc; "target-{number:04}")?;
    Ok(Triple::new(text))
}

// Returns a bare row with the triple of this number.
fn numbered_row(alloc: Global, number: usize) -> Result<TargetInfo<'static>, AllocError> {
    let mut row: TargetInfo<'static> = bare("");
    let is_set = assign_ok(&mut row.triple, numbered_triple(alloc, number));
    is_set.and(Ok(row))
}

// Pushes `count` rows, each with its number in its triple.
fn push_numbered(
    alloc: Global,
    rows: &mut Vec<TargetInfo<'static>>,
    count: usize,
) -> Result<(), AllocError> {
    for number in 0..count {
        push_ok(rows, numbered_row(alloc, number))?;
    }
    Ok(())
}

// Returns `count` rows, each with its number in its triple.
fn numbered_rows(alloc: Global, count: usize) -> Result<Vec<TargetInfo<'static>>, AllocError> {
    let mut rows: Vec<TargetInfo<'static>> = Vec::new(alloc);
    let pushed = push_numbered(alloc, &mut rows, count);
    pushed.and(Ok(rows))
}

// Returns whether the row of the table with this number is found by its triple, and no row by more
// than the triple.
fn finds_row(alloc: Global, table: &TargetTable<'_>, number: usize) -> Result<bool, AllocError> {
    let triple = format!(in alloc; "target-{number:04}")?;
    let longer = format!(in alloc; "target-{number:04}-")?;
    let is_found = match get_builtin_target_by_triple(table, triple.as_str()) {
        Some(row) => row.triple.as_str() == triple.as_str(),
        None => false,
    };
    Ok(is_found && get_builtin_target_by_triple(table, longer.as_str()).is_none())
}

// Returns whether each of the rows is found, and there are `count` of them.
fn finds_each_row(alloc: Global, table: &TargetTable<'_>, count: usize) -> bool {
    for number in 0..count {
        if finds_row(alloc, table, number) != Ok(true) {
            return false;
        }
    }
    table.rows().len() == count
}

// Returns whether `count` numbered rows make a table in which each is found.
fn makes_numbered_table(alloc: Global, count: usize) -> Result<bool, AllocError> {
    let made = TargetTable::from_rows(numbered_rows(alloc, count)?);
    let is_right = match &made {
        Ok(table) => finds_each_row(alloc, table, count),
        Err(_) => false,
    };
    drop(made);
    Ok(is_right)
}

/// Checks that as many numbered rows as `count` says make a table in which each is found.
pub(super) fn finding_of_numbered(alloc: Global, count: &str) -> Finding {
    match count.parse() {
        Ok(count) => {
            let is_right = is_ok_true(makes_numbered_table(alloc, count));
            require(alloc, is_right, "no table, or a row that is not found")
        }
        Err(_) => fail(alloc, "no number of rows"),
    }
}

/// Returns the triple of the built-in row that is found by `triple`, or `nowhere`.
pub(super) fn found_triple(alloc: Global, triple: &str) -> Result<String, AllocError> {
    let table = TargetTable::builtins(alloc)?;
    let text = found_in(alloc, &table, triple);
    drop(table);
    text
}
