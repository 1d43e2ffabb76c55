//! The tokens of a text, and lexical faults.
use cfg_expr::error::{Failure, ParseError};
use cfg_expr::expr::lexer::{Lexer, LexerToken};
use cfgx_testing::faults::fault_text;
use cfgx_testing::rows::{Finding, compare, fail};
use std::alloc::{AllocError, Global};

// Returns the token and its span, if they equal those of a copy.
fn item_text(alloc: Global, item: &LexerToken<'_>) -> Result<String, AllocError> {
    let copy = item.clone()?;
    if copy.token != item.token || copy.span != item.span {
        return String::from_str(alloc, "another copy");
    }
    let (token, start, end) = (item.token, item.span.start, item.span.end);
    format!(in alloc; "{token} at {start}..{end}, ")
}

// Returns the fault and its text.
fn fault_item_text(alloc: Global, error: &ParseError) -> Result<String, AllocError> {
    let fault = fault_text(alloc, error)?;
    let original = error.original.as_str();
    format!(in alloc; "{fault} in {original}, ")
}

// Returns what the next call returns, or an empty text at the end.
fn next_text(alloc: Global, lexer: &mut Lexer<'_>) -> Result<String, AllocError> {
    match lexer.next() {
        Some(Ok(item)) => item_text(alloc, &item),
        Some(Err(Failure::Parse(error))) => fault_item_text(alloc, &error),
        Some(Err(Failure::Memory(error))) => Err(error),
        None => Ok(String::new(alloc)),
    }
}

// Returns the item, and the number of bytes that are left after it.
fn with_left(
    alloc: Global,
    item: Result<String, AllocError>,
    left: usize,
) -> Result<String, AllocError> {
    let item = item?;
    format!(in alloc; "{item}{left} left")
}

// Compares the next items with `items`.
fn compare_items(alloc: Global, lexer: &mut Lexer<'_>, items: &[String]) -> Finding {
    for wanted in items {
        let item = next_text(alloc, lexer);
        let actual = with_left(alloc, item, lexer.items_left_bound());
        compare(alloc, actual, wanted.as_str())?;
    }
    Ok(())
}

// Returns whether three more calls return `None`.
fn has_ended(lexer: &mut Lexer<'_>) -> bool {
    for _call in 0..3 {
        if lexer.next().is_some() || lexer.items_left_bound() != 0 {
            return false;
        }
    }
    true
}

// Compares all items of the lexer with `items`, and the number of bytes that are left before them
// with `before`.
fn compare_all(alloc: Global, lexer: &mut Lexer<'_>, before: &str, items: &[String]) -> Finding {
    let actual = with_left(alloc, Ok(String::new(alloc)), lexer.items_left_bound());
    compare(alloc, actual, before)?;
    compare_items(alloc, lexer, items)?;
    if has_ended(lexer) {
        Ok(())
    } else {
        fail(alloc, "one more item")
    }
}

/// Compares the items of the text of a row with the items of the row.
pub(super) fn finding(alloc: Global, row: &[String]) -> Finding {
    let [text, before, items @ ..] = row else {
        return fail(alloc, "no text and no number");
    };
    let mut lexer = Lexer::new(alloc, text.as_str());
    compare_all(alloc, &mut lexer, before.as_str(), items)
}
