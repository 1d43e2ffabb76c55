//! Predicates: what a key means alone and with a value.
use cfg_expr::error::Failure;
use cfg_expr::expr::Predicates;
use cfg_expr::{Expression, Predicate};
use std::alloc::{AllocError, Global};

// Returns a predicate as pages write it: the text of `Debug` without quotes.
fn page_text(alloc: Global, predicate: &Predicate<'_>) -> Result<String, AllocError> {
    format!(in alloc; "{predicate:?}")?
        .as_str()
        .replace(alloc, "\"", "")
}

// Returns an owned predicate as pages write it.
fn owned_page_text(alloc: Global, predicate: Predicate<'_>) -> Result<String, AllocError> {
    let text = page_text(alloc, &predicate);
    drop(predicate);
    text
}

// Returns the only predicate as pages write it, or the number of predicates.
fn only_text(alloc: Global, mut predicates: Predicates<'_>) -> Result<String, AllocError> {
    let count = predicates.left();
    match predicates.next() {
        Some(predicate) if count == 1 => owned_page_text(alloc, predicate),
        _ => format!(in alloc; "{count} predicates"),
    }
}

/// Returns the only predicate that `text` asks, as pages write it.
pub(super) fn predicate_text(alloc: Global, text: &str) -> Result<String, Failure> {
    let expression = Expression::parse(alloc, text)?;
    Ok(only_text(alloc, expression.predicates())?)
}
