//! Decisions over answers: a known value, or two fillings.
use cfg_expr::error::Failure;
use cfg_expr::{Decision, Expression};
use cfgx_testing::answers::Answer;
use cfgx_testing::fillings::{answers_of, each_call_decides};
use cfgx_testing::rows::{Finding, compare, require};
use std::alloc::{AllocError, Global};

// Returns a digit for each value.
fn digits_of(alloc: Global, filling: &[bool]) -> Result<String, AllocError> {
    let mut digits = String::new(alloc);
    for value in filling {
        digits.push(if *value { '1' } else { '0' })?;
    }
    Ok(digits)
}

// Returns both fillings, joined with a space.
fn fillings_text(alloc: Global, one: &[bool], other: &[bool]) -> Result<String, AllocError> {
    let one = digits_of(alloc, one)?;
    let other = digits_of(alloc, other)?;
    format!(in alloc; "{one} {other}")
}

// Returns the decision as rows write it.
fn decision_text(alloc: Global, decision: &Decision) -> Result<String, AllocError> {
    match decision {
        Decision::Known(value) => format!(in alloc; "{value}"),
        Decision::Unknown { if_true, if_false } => {
            fillings_text(alloc, if_true.as_slice(), if_false.as_slice())
        }
    }
}

// Returns the decision over `answers`, as rows write it.
fn decided_text(
    alloc: Global,
    expression: &Expression,
    answers: &[Answer],
) -> Result<String, AllocError> {
    if expression.predicates().left() != answers.len() {
        return String::from_str(alloc, "another number of predicates than answers");
    }
    decision_text(alloc, &expression.decide(alloc, answers)?)
}

// Returns the decision of `text` over the answers of `digits`, as rows write it.
fn decision_of(alloc: Global, text: &str, digits: &str) -> Result<String, Failure> {
    let expression = Expression::parse(alloc, text)?;
    Ok(match answers_of(alloc, digits) {
        Some(answers) => decided_text(alloc, &expression, answers.as_slice())?,
        None => String::from_str(alloc, "a digit that is no answer, or out of memory")?,
    })
}

/// Compares the decision of `Expression::decide` with that of a row. Every other call must agree.
pub(super) fn finding(alloc: Global, text: &str, digits: &str, decision: &str) -> Finding {
    compare(alloc, decision_of(alloc, text, digits), decision)?;
    require(
        alloc,
        each_call_decides(alloc, text, digits, decision) == Some(true),
        "another call than `decide` disagrees",
    )
}
