//! Faults as rows and pages write them.
use cfg_expr::Expression;
use cfg_expr::error::{Failure, ParseError, Reason};
use std::alloc::{AllocError, Global};

// Returns the terms in back quotes, between brackets.
fn terms_text(alloc: Global, terms: &[&str]) -> Result<String, AllocError> {
    let mut text = String::from_str(alloc, "[")?;
    for (i, term) in terms.iter().enumerate() {
        text.push_str(if i == 0 { "`" } else { " `" })?;
        text.push_str(term)?;
        text.push_str("`")?;
    }
    text.push_str("]")?;
    Ok(text)
}

/// Returns a fault as rows write it, such as `UnopenedParens at 3..4` or `InvalidNot(2) at 0..9`.
/// For `Unexpected`, rows write the terms, such as ``U[`=` `,` `)`] at 2..3``.
pub fn fault_text(alloc: Global, error: &ParseError) -> Result<String, AllocError> {
    let (start, end) = (error.span.start, error.span.end);
    match error.reason {
        Reason::Unexpected(terms) => {
            let terms = terms_text(alloc, terms)?;
            format!(in alloc; "U{terms} at {start}..{end}")
        }
        reason => format!(in alloc; "{reason:?} at {start}..{end}"),
    }
}

// Returns a fault and its text, as rows write them, such as `UnopenedParens at 3..4 | key)`.
fn fault_and_original(alloc: Global, error: &ParseError) -> Result<String, AllocError> {
    let fault = fault_text(alloc, error)?;
    let original = error.original.as_str();
    format!(in alloc; "{fault} | {original}")
}

/// Returns the fault of `text` and the stripped text, as rows write them, or `accepted`.
pub fn fault_of(alloc: Global, text: &str) -> Result<String, AllocError> {
    match Expression::parse(alloc, text) {
        Err(Failure::Parse(error)) => fault_and_original(alloc, &error),
        Err(Failure::Memory(error)) => Err(error),
        Ok(_) => String::from_str(alloc, "accepted"),
    }
}

/// Returns whether rows write the fault as `wanted`, and its text is `original`.
pub fn fault_matches(alloc: Global, error: &ParseError, original: &str, wanted: &str) -> bool {
    match fault_text(alloc, error) {
        Ok(fault) => fault.as_str() == wanted && error.original.as_str() == original,
        Err(_) => false,
    }
}

/// Returns whether `text` has a fault that rows write as `wanted`, in the stripped text `original`.
pub fn text_has_fault(alloc: Global, text: &str, original: &str, wanted: &str) -> bool {
    match Expression::parse(alloc, text) {
        Err(Failure::Parse(error)) => fault_matches(alloc, &error, original, wanted),
        _ => false,
    }
}
