//! Results of the Rust crate cfg-expr 0.20.10. The head of the file names the texts that it leaves
//! out.
use crate::reading::first_misread_line;
use cfgx_testing::rows::{Finding, compare_pair, fail, rows_of, unescaped, wrong_rows};
use cfgx_testing::streams::{ALL, run_text};
use std::alloc::{AllocError, Global};

// Returns the text, the status and the output of a row, which tabs separate.
fn fields_of(row: &str) -> Option<(&str, &str, &str)> {
    let (text, result) = row.split_once('\t')?;
    let (status, output) = result.split_once('\t')?;
    Some((text, status, output))
}

// Returns the text and the output without their escapes, and the status.
fn unescaped_fields(alloc: Global, row: &str) -> Option<(String, String, &str)> {
    let (text, status, output) = fields_of(row)?;
    Some((unescaped(alloc, text)?, unescaped(alloc, output)?, status))
}

// Compares the status and the output of `parse` with those of a row.
fn finding(alloc: Global, row: &str) -> Finding {
    match unescaped_fields(alloc, row) {
        Some((text, output, status)) => {
            let actual = run_text(alloc, &["parse", text.as_str()], ALL, &[]);
            compare_pair(alloc, actual, (status, output.as_str()))
        }
        None => fail(alloc, "no text, status and output"),
    }
}

// Pushes the text and the output of a row, if it has both.
fn push_texts(alloc: Global, texts: &mut Vec<String>, row: &str) -> Result<(), AllocError> {
    if let Some((text, output, _)) = unescaped_fields(alloc, row) {
        texts.push(text)?;
        texts.push(output)?;
    }
    Ok(())
}

// Returns the texts and the outputs of the rows.
fn texts_of(alloc: Global, rows: &[String]) -> Result<Vec<String>, AllocError> {
    let mut texts = Vec::new(alloc);
    for row in rows {
        push_texts(alloc, &mut texts, row.as_str())?;
    }
    Ok(texts)
}

// Returns a line that names the first text or output that one reader does not read as `parse` does.
fn misread(alloc: Global, rows: &[String]) -> Result<String, AllocError> {
    let texts = texts_of(alloc, rows)?;
    first_misread_line(alloc, texts.as_slice())
}

/// Returns the wrong rows of the file, and the number of its rows.
pub(crate) fn report(alloc: Global, name: &str, text: &str) -> Result<String, AllocError> {
    let rows = rows_of(alloc, text)?;
    let count = rows.len();
    let wrong = wrong_rows(alloc, rows.as_slice(), |row| finding(alloc, row))?;
    let misread = misread(alloc, rows.as_slice())?;
    format!(in alloc; "{wrong}{misread}{name}: {count} rows")
}
