//! Tables of rows as text, one row per line, and the findings of their checks.
//!
//! A backslash at the end of a line continues the row on the next line. Empty lines and lines that
//! begin with `// ` or `# ` are skipped, unless they continue a row that has text so far. ` | `
//! separates the fields of a row.
//!
//! In a field, `\n`, `\t`, `\r`, `\0` and `\\` are the escapes of Rust, `\u{a0}` is the character
//! U+00A0, and `\e` is the empty text. `~piece~3~` is three copies of `piece`. A field that is
//! `USAGE`, `SECTIONS` or `VERDICTS` stands for the text with that name.
use crate::streams::{SECTIONS, USAGE, VERDICTS};
use std::alloc::{AllocError, Global};
use std::fmt::Debug;
use std::mem;
use std::str::Split;

// Pushes the text of `piece`, which follows a backslash. Returns `None` if `piece` does not begin
// with an escape, or if memory runs out.
fn push_unescaped(text: &mut String, piece: &str) -> Option<()> {
    if let Some(rest) = piece.strip_prefix("u{") {
        let (number, rest) = rest.split_once('}')?;
        let number = u32::from_str_radix(number, 16).ok()?;
        text.push(char::from_u32(number)?).ok()?;
        return text.push_str(rest).ok();
    }
    let mut characters = piece.chars();
    let replacement = match characters.next()? {
        'n' => "\n",
        't' => "\t",
        'r' => "\r",
        '0' => "\0",
        'e' => "",
        _ => return None,
    };
    text.push_str(replacement).ok()?;
    text.push_str(characters.as_str()).ok()
}

/// Returns `field` with its escapes replaced, or `None` if an escape has no meaning or memory runs
/// out.
pub fn unescaped(alloc: Global, field: &str) -> Option<String> {
    let mut pieces = field.split('\\');
    let mut text = String::from_str(alloc, pieces.next()?).ok()?;
    while let Some(piece) = pieces.next() {
        if piece.is_empty() {
            // The escape `\\` leaves an empty piece, and the piece after it is plain text.
            text.push('\\').ok()?;
            text.push_str(pieces.next()?).ok()?;
        } else {
            push_unescaped(&mut text, piece)?;
        }
    }
    Some(text)
}

/// Returns `text` with its backslashes, line breaks, tabs and NULs replaced by their escapes.
pub fn escaped(alloc: Global, text: &str) -> Result<String, AllocError> {
    let mut field = String::new(alloc);
    for character in text.chars() {
        match character {
            '\\' => field.push_str("\\\\")?,
            '\n' => field.push_str("\\n")?,
            '\t' => field.push_str("\\t")?,
            '\r' => field.push_str("\\r")?,
            '\0' => field.push_str("\\0")?,
            _ => field.push(character)?,
        }
    }
    Ok(field)
}

// Pushes `times` copies of `piece`. Returns `None` if `times` is not a number, or if memory runs
// out.
fn push_times(text: &mut String, piece: &str, times: &str) -> Option<()> {
    for _time in 0..times.parse::<usize>().ok()? {
        text.push_str(piece).ok()?;
    }
    Some(())
}

// Pushes the text of `parts`. They come in threes: a piece, the number of its copies, and the text
// after them. Returns `None` if a part is missing or not a number, or if memory runs out.
fn push_parts(text: &mut String, mut parts: Split<'_, char>) -> Option<()> {
    while let Some(piece) = parts.next() {
        push_times(text, piece, parts.next()?)?;
        text.push_str(parts.next()?).ok()?;
    }
    Some(())
}

// Returns `field` with each `~piece~3~` replaced by the copies of `piece`. Returns `None` if the
// number of copies or the `~` after it is missing, if the number is none, or if memory runs out.
fn expanded(alloc: Global, field: &str) -> Option<String> {
    let mut parts = field.split('~');
    let mut text = String::from_str(alloc, parts.next()?).ok()?;
    push_parts(&mut text, parts)?;
    Some(text)
}

// Returns the text that `field` stands for, or `None` if `field` has no meaning or memory runs out.
// A field cannot write `~` itself. Escapes are replaced first, so `\u{7e}` separates parts too.
fn text_of(alloc: Global, field: &str) -> Option<String> {
    let field = match field {
        "USAGE" => USAGE,
        "SECTIONS" => SECTIONS,
        "VERDICTS" => VERDICTS,
        _ => return expanded(alloc, unescaped(alloc, field)?.as_str()),
    };
    String::from_str(alloc, field).ok()
}

/// Returns the texts that the fields of `row` stand for, or `None` if a field has no meaning or
/// memory runs out.
pub fn fields_of(alloc: Global, row: &str) -> Option<Vec<String>> {
    let mut fields = Vec::new(alloc);
    for field in row.split(" | ") {
        fields.push(text_of(alloc, field)?).ok()?;
    }
    Some(fields)
}

// Pushes `line` to `row`, and leaves out a backslash at its end. If `line` does not end with one,
// the row is complete, and is moved to `rows`.
fn push_line(
    alloc: Global,
    rows: &mut Vec<String>,
    row: &mut String,
    line: &str,
) -> Result<(), AllocError> {
    let continued = line.strip_suffix('\\');
    row.push_str(continued.unwrap_or(line))?;
    if continued.is_none() {
        rows.push(mem::replace(row, String::new(alloc)))?;
    }
    Ok(())
}

/// Returns the rows of `table`.
pub fn rows_of(alloc: Global, table: &str) -> Result<Vec<String>, AllocError> {
    let mut rows = Vec::new(alloc);
    let mut row = String::new(alloc);
    for line in table.lines() {
        let is_skippable = line.is_empty() || line.starts_with("// ") || line.starts_with("# ");
        if !is_skippable || !row.is_empty() {
            push_line(alloc, &mut rows, &mut row, line)?;
        }
    }
    if !row.is_empty() {
        rows.push(row)?;
    }
    Ok(rows)
}

/// The result of a check. The error is a message, or the actual text, if it is not the one that the
/// row wants.
pub type Finding = Result<(), String>;

/// Returns `message` as an error.
pub fn fail(alloc: Global, message: &str) -> Finding {
    Err(String::from_str(alloc, message).unwrap_or(String::new(alloc)))
}

/// Compares the text of `actual` with `wanted`. The error is the actual text, or the error of
/// `actual` as `Debug` writes it.
pub fn compare<E: Debug + Drop>(alloc: Global, actual: Result<String, E>, wanted: &str) -> Finding {
    match actual {
        Ok(actual) => {
            if actual.as_str() == wanted {
                return Ok(());
            }
            Err(actual)
        }
        Err(error) => {
            let shown = format!(in alloc; "{error:?}");
            Err(shown.unwrap_or(String::new(alloc)))
        }
    }
}

/// Compares the text of `actual` with `one` and `other`, joined with ` | `.
pub fn compare_pair<E: Debug + Drop>(
    alloc: Global,
    actual: Result<String, E>,
    (one, other): (&str, &str),
) -> Finding {
    match format!(in alloc; "{one} | {other}") {
        Ok(wanted) => compare(alloc, actual, wanted.as_str()),
        Err(_) => fail(alloc, "out of memory"),
    }
}

/// Returns `message` as an error, unless `is_right`.
pub fn require(alloc: Global, is_right: bool, message: &str) -> Finding {
    if is_right {
        Ok(())
    } else {
        fail(alloc, message)
    }
}

// Pushes two lines to `report`: the wrong `row` as it is written, and what its check found.
fn push_wrong(
    alloc: Global,
    report: &mut String,
    row: &str,
    found: &str,
) -> Result<(), AllocError> {
    let found = escaped(alloc, found)?;
    report.push_str(format!(in alloc; "wrong: {row}\nfound: {found}\n")?.as_str())
}

/// Returns a report of the rows that do not pass `check`: each as it is written, with what `check`
/// found. The report is empty if all rows pass.
pub fn wrong_rows<F>(alloc: Global, rows: &[String], check: F) -> Result<String, AllocError>
where
    F: Fn(&str) -> Finding,
    requires { F.IsAlwaysCallable check }
{
    let mut report = String::new(alloc);
    for row in rows {
        if let Err(found) = check(row.as_str()) {
            push_wrong(alloc, &mut report, row.as_str(), found.as_str())?;
        }
    }
    Ok(report)
}

// Returns the finding for `is_right`, the result of a check. `None` means that no check has the
// given name.
fn finding_of(alloc: Global, is_right: Option<bool>) -> Finding {
    match is_right {
        Some(is_right) => require(alloc, is_right, "something else"),
        None => fail(alloc, "no check with this name"),
    }
}

// Checks the fields of `row`. `check` is one function for all tables, so it also gets `name`, which
// says what to check.
fn check_row<F>(alloc: Global, row: &str, name: &str, check: &F) -> Finding
where
    F: Fn(&str, &[String]) -> Option<bool>,
    requires { F.IsAlwaysCallable check.now }
{
    match fields_of(alloc, row) {
        Some(fields) => finding_of(alloc, check(name, fields.as_slice())),
        None => fail(alloc, "a field without a meaning, or out of memory"),
    }
}

/// The name of a check, a table for it, and the number of the rows of that table.
pub type TableToCheck<'a> = (&'a str, &'a str, usize);

// Returns a report of the wrong rows of a table and of a wrong number of rows. The report is empty
// if nothing is wrong.
fn report_of<F>(alloc: Global, table: TableToCheck<'_>, check: &F) -> Result<String, AllocError>
where
    F: Fn(&str, &[String]) -> Option<bool>,
    requires { F.IsAlwaysCallable check.now }
{
    let (name, text, count) = table;
    let rows = rows_of(alloc, text)?;
    let mut report = wrong_rows(
        alloc,
        rows.as_slice(),
        |row| check_row(alloc, row, name, check),
    )?;
    let found = rows.len();
    if found != count {
        let line = format!(in alloc; "{found} rows in place of {count}\n")?;
        report.push_str(line.as_str())?;
    }
    Ok(report)
}

// Pushes the name of the check and the report of a table, if anything is wrong in it.
fn push_report<F>(
    alloc: Global,
    reports: &mut String,
    table: TableToCheck<'_>,
    check: &F,
) -> Result<(), AllocError>
where
    F: Fn(&str, &[String]) -> Option<bool>,
    requires { F.IsAlwaysCallable check.now }
{
    let report = report_of(alloc, table, check)?;
    if report.is_empty() {
        return Ok(());
    }
    let (name, report) = (table.0, report.as_str());
    reports.push_str(format!(in alloc; "{name}: {report}")?.as_str())
}

// Returns the reports of all tables in which something is wrong.
fn reports_of<F>(
    alloc: Global,
    tables: &[TableToCheck<'_>],
    check: &F,
) -> Result<String, AllocError>
where
    F: Fn(&str, &[String]) -> Option<bool>,
    requires { F.IsAlwaysCallable check.now }
{
    let mut reports = String::new(alloc);
    for table in tables {
        push_report(alloc, &mut reports, *table, check)?;
    }
    Ok(reports)
}

/// Checks the rows of each table. `check` gets the name of the check and the fields of a row, and
/// returns whether the row is right, or `None` if no check has this name.
///
/// The error describes each table that has a wrong row or a wrong number of rows.
pub fn check_tables<F>(alloc: Global, tables: &[TableToCheck<'_>], check: F) -> Finding
where
    F: Fn(&str, &[String]) -> Option<bool>,
    requires { F.IsAlwaysCallable check }
{
    match reports_of(alloc, tables, &check) {
        Ok(reports) => {
            if reports.is_empty() {
                return Ok(());
            }
            Err(reports)
        }
        Err(_) => fail(alloc, "out of memory"),
    }
}

/// Returns `prefix`, `times` copies of `piece`, and `suffix`.
pub fn repeated(
    alloc: Global,
    prefix: &str,
    piece: &str,
    times: usize,
    suffix: &str,
) -> Result<String, AllocError> {
    let mut text = String::from_str(alloc, prefix)?;
    for _time in 0..times {
        text.push_str(piece)?;
    }
    text.push_str(suffix)?;
    Ok(text)
}
