//! Stripping removes the outer `cfg( )` once. Spans count the bytes of the stripped text.
use cfg_expr::Expression;
use cfg_expr::error::Failure;
use cfgx_testing::checking::is_ok_true;
use std::alloc::{AllocError, Global};
use std::fmt::Debug;

// Returns what the expression prints, and its stripped text.
fn printed_and_original(alloc: Global, expression: &Expression) -> Result<String, AllocError> {
    let original = expression.original();
    format!(in alloc; "{expression} | {original}")
}

/// Returns what the expression of `text` prints, and its stripped text.
pub(super) fn stripped(alloc: Global, text: &str) -> Result<String, Failure> {
    let expression = Expression::parse(alloc, text)?;
    Ok(printed_and_original(alloc, &expression)?)
}

// Returns whether the expression equals that of `text`.
fn is_equal(alloc: Global, expression: &Expression, text: &str) -> Result<bool, Failure> {
    let other = Expression::parse(alloc, text)?;
    Ok(*expression == other)
}

// Returns whether the expressions of both texts are equal.
fn are_equal(alloc: Global, one: &str, other: &str) -> Result<bool, Failure> {
    let expression = Expression::parse(alloc, one)?;
    is_equal(alloc, &expression, other)
}

/// Returns `equal` if the expressions of both texts are equal, and otherwise `different`.
pub(super) fn equality(alloc: Global, one: &str, other: &str) -> Result<String, Failure> {
    let is_equal = are_equal(alloc, one, other)?;
    let text = if is_equal { "equal" } else { "different" };
    Ok(String::from_str(alloc, text)?)
}

// Returns whether `Debug` of the value prints `wanted`.
fn shows<T: Debug>(alloc: Global, value: &T, wanted: &str) -> bool {
    match format!(in alloc; "{value:?}") {
        Ok(shown) => shown.as_str() == wanted,
        Err(_) => false,
    }
}

// Returns whether `Debug` of the expression of `text` prints `wanted`.
fn expression_shows(alloc: Global, text: &str, wanted: &str) -> Result<bool, Failure> {
    let expression = Expression::parse(alloc, text)?;
    Ok(shows(alloc, &expression, wanted))
}

/// Returns whether `Debug` of an expression prints its stripped text.
pub(super) fn shows_stripped(alloc: Global) -> bool {
    is_ok_true(expression_shows(alloc, "cfg(all(a))", "Expression(\"all(a)\")"))
}
