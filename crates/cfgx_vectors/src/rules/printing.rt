//! What faults print. The rows were written by hand from the rules of the format.
use cfg_expr::error::{Failure, ParseError, Reason};
use cfgx_testing::checking::value_equals;
use cfgx_testing::faults::{fault_matches, fault_text};
use cfgx_testing::rows::{Finding, compare, fail};
use std::alloc::{AllocError, Global};
use std::ops::Range;

// The reasons without a number, as rows write them.
const REASONS: &[(&str, Reason)] = &[
    ("InvalidCharacters", Reason::InvalidCharacters),
    ("UnclosedParens", Reason::UnclosedParens),
    ("UnopenedParens", Reason::UnopenedParens),
    ("UnclosedQuotes", Reason::UnclosedQuotes),
    ("UnopenedQuotes", Reason::UnopenedQuotes),
    ("Empty", Reason::Empty),
    ("U[]", Reason::Unexpected(&[])),
    ("U[`(`]", Reason::Unexpected(&["("])),
    (
        "U[`<key>` `all` `any` `not`]",
        Reason::Unexpected(&["<key>", "all", "any", "not"]),
    ),
    ("U[`=` `,` `)`]", Reason::Unexpected(&["=", ",", ")"])),
    ("U[`\"<value>\"`]", Reason::Unexpected(&["\"<value>\""])),
    (
        "U[`= \"<target_cfg_value>\"`]",
        Reason::Unexpected(&["= \"<target_cfg_value>\""]),
    ),
    ("InvalidInteger", Reason::InvalidInteger),
    ("MultipleRootPredicates", Reason::MultipleRootPredicates),
    ("InvalidHasAtomic", Reason::InvalidHasAtomic),
    ("UnknownBuiltin", Reason::UnknownBuiltin),
];

// Returns the reason that rows write as `InvalidNot(2)`.
fn invalid_not(name: &str) -> Option<Reason> {
    let number = name.strip_prefix("InvalidNot(")?.strip_suffix(')')?;
    Some(Reason::InvalidNot(number.parse().ok()?))
}

// Returns the reason that rows write as `wanted`.
fn reason_of(wanted: &str) -> Option<Reason> {
    for (name, reason) in REASONS {
        if *name == wanted {
            return Some(*reason);
        }
    }
    invalid_not(wanted)
}

// Returns a fault in `text` with this span. Rows write its reason as `name`.
fn error_of(alloc: Global, text: &str, span: Range<usize>, name: &str) -> Option<ParseError> {
    let reason = reason_of(name)?;
    let original = String::from_str(alloc, text).ok()?;
    Some(ParseError {
        original,
        span,
        reason,
    })
}

// Returns what the reason of the fault prints, and the description of the fault.
fn texts_of(alloc: Global, error: &ParseError) -> Result<String, AllocError> {
    let (reason, description) = (error.reason, error.description());
    format!(in alloc; "{reason} | {description}")
}

/// Returns what the reason `name` of a row prints, and the description of a fault with that reason.
pub(super) fn reason_texts(alloc: Global, name: &str) -> Result<String, AllocError> {
    match error_of(alloc, "", 0..0, name) {
        Some(error) => texts_of(alloc, &error),
        None => String::from_str(alloc, "no such reason"),
    }
}

// Returns the span that rows write as `span`.
fn span_of(span: &str) -> Option<Range<usize>> {
    let (start, end) = span.split_once("..")?;
    Some(start.parse().ok()?..end.parse().ok()?)
}

// Returns the fault in `text` that rows write as `fault`.
fn error_of_row(alloc: Global, text: &str, fault: &str) -> Option<ParseError> {
    let (name, span) = fault.split_once(" at ")?;
    error_of(alloc, text, span_of(span)?, name)
}

// Compares the fault, as rows write it, with `fault`, and what the fault prints with `printed`.
fn compare_printed(alloc: Global, error: &ParseError, fault: &str, printed: &str) -> Finding {
    compare(alloc, fault_text(alloc, error), fault)?;
    compare(alloc, format!(in alloc; "{error}"), printed)
}

/// Compares what the fault of a row prints with the row.
pub(super) fn finding(alloc: Global, text: &str, fault: &str, printed: &str) -> Finding {
    match error_of_row(alloc, text, fault) {
        Some(error) => compare_printed(alloc, &error, fault, printed),
        None => fail(alloc, "no such fault"),
    }
}

/// Returns whether reasons are equal exactly if their parts are.
pub(super) fn compares_reasons() -> bool {
    let terms = Reason::Unexpected(&["big", "little"]);
    terms == Reason::Unexpected(&["big", "little"])
        && terms != Reason::Unexpected(&["big"])
        && Reason::InvalidNot(2) != Reason::InvalidNot(3)
        && Reason::Empty != Reason::UnclosedParens
}

// Returns the fault of a `)` that closes nothing.
fn unopened(alloc: Global, text: &str, span: Range<usize>) -> Result<ParseError, AllocError> {
    error_of(alloc, text, span, "UnopenedParens").ok_or(AllocError)
}

// Returns whether faults with these spans in one text are equal.
fn are_equal(alloc: Global, one: Range<usize>, other: Range<usize>) -> Result<bool, AllocError> {
    let one = unopened(alloc, "a)", one)?;
    value_equals(unopened(alloc, "a)", other), &one)
}

/// Returns whether faults are equal exactly if their parts are.
pub(super) fn compares_faults(alloc: Global) -> bool {
    are_equal(alloc, 1..2, 1..2) == Ok(true) && are_equal(alloc, 1..2, 1..3) == Ok(false)
}

// Returns a fault as a failure, which `?` makes.
fn parse_failure(alloc: Global) -> Result<(), Failure> {
    Err(unopened(alloc, ")", 0..1)?)?;
    Ok(())
}

// Returns whether the failure is the fault of a `)` that closes nothing.
fn is_unopened(alloc: Global, failure: &Result<(), Failure>) -> bool {
    match failure {
        Err(Failure::Parse(error)) => fault_matches(alloc, error, ")", "UnopenedParens at 0..1"),
        _ => false,
    }
}

/// Returns whether faults and `AllocError` become failures.
pub(super) fn makes_failures(alloc: Global) -> bool {
    let failure: Failure = Failure::from(AllocError);
    failure == Failure::Memory(AllocError) && is_unopened(alloc, &parse_failure(alloc))
}
