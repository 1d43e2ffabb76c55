//! Decisions and fillings, as rows write them.
use crate::answers::{Answer, answer_of, each_call_finds, lanes_of};
use crate::checking::{is_ok_true, value_equals};
use cfg_expr::error::Failure;
use cfg_expr::expr::{Condition, ConditionReader};
use cfg_expr::{Decision, Expression};
use std::alloc::{AllocError, Allocator, Global};

/// Returns the answers of `digits`, or `None` if a byte is no digit or memory runs out.
pub fn answers_of(alloc: Global, digits: &str) -> Option<Vec<Answer>> {
    let mut answers = Vec::with_capacity(alloc, digits.len()).ok()?;
    for digit in digits.as_bytes() {
        answers.push(answer_of(*digit)?).ok()?;
    }
    Some(answers)
}

// Returns whether `filling` is the filling of `digits`.
fn filling_matches(filling: &[bool], digits: &str) -> bool {
    for (value, digit) in filling.iter().zip(digits.as_bytes()) {
        if answer_of(*digit) != Some(Some(*value)) {
            return false;
        }
    }
    filling.len() == digits.len()
}

// Returns whether the two fillings are those of `row`. A space separates the fillings in `row`.
fn both_fillings_match(if_true: &[bool], if_false: &[bool], row: &str) -> bool {
    match row.split_once(' ') {
        Some((one, other)) => filling_matches(if_true, one) && filling_matches(if_false, other),
        None => false,
    }
}

/// Returns whether `decision` is that of `row`: a known value, or two fillings.
pub fn decision_matches<A: Allocator>(decision: &Decision<A>, row: &str) -> bool {
    match decision {
        Decision::Known(value) => row == if *value { "true" } else { "false" },
        Decision::Unknown { if_true, if_false } => {
            both_fillings_match(if_true.as_slice(), if_false.as_slice(), row)
        }
    }
}

// Returns whether `fillings` are those of `row`. A row with a known value has none.
fn fillings_match(fillings: &Option<(Vec<bool>, Vec<bool>)>, row: &str) -> bool {
    match fillings {
        Some((one, other)) => both_fillings_match(one.as_slice(), other.as_slice(), row),
        None => !row.contains(' '),
    }
}

// Returns whether `polar_fillings` and `decide` of an expression return what `row` says.
fn expression_matches(
    alloc: Global,
    expression: &Expression,
    answers: &[Answer],
    row: &str,
) -> Result<bool, AllocError> {
    if expression.predicates().left() != answers.len() {
        return Ok(false);
    }
    Ok(
        fillings_match(&expression.polar_fillings(alloc, answers)?, row)
            && decision_matches(&expression.decide(alloc, answers)?, row),
    )
}

// Returns whether `polar_fillings` and `eval_lanes` of a condition return what those of the
// expression do.
fn condition_agrees(
    alloc: Global,
    condition: &Condition<'_>,
    expression: &Expression,
    answers: &[Answer],
) -> Result<bool, AllocError> {
    let lanes = lanes_of(alloc, answers)?;
    let count = lanes.len();
    if count != answers.len()
        || condition.predicates().left() != count
        || expression.predicates().left() != count
    {
        return Ok(false);
    }
    let value = condition.eval_lanes(alloc, lanes.as_slice())?;
    let fillings = condition.polar_fillings(alloc, answers)?;
    Ok(
        value == expression.eval_lanes(alloc, lanes.as_slice())?
            && value_equals(expression.polar_fillings(alloc, answers), &fillings)?,
    )
}

// Returns whether `decide` of a condition finds the decision of `row`, also in the memory of an
// earlier decision.
fn condition_decides(
    alloc: Global,
    condition: &Condition<'_>,
    answers: &[Answer],
    row: &str,
) -> Result<bool, AllocError> {
    if condition.predicates().left() != answers.len() {
        return Ok(false);
    }
    let mut decision = Decision::Known(false);
    condition.decide(alloc, answers, &mut decision)?;
    let is_first_right = decision_matches(&decision, row);
    condition.decide(alloc, answers, &mut decision)?;
    Ok(is_first_right && decision_matches(&decision, row))
}

// Returns whether the expression equals its copy.
fn equals_copy(alloc: Global, expression: &Expression) -> bool {
    let copy = expression.try_clone(alloc);
    match &copy {
        Ok(copy) => *copy == *expression,
        Err(_) => false,
    }
}

// Returns whether `from_str` returns the expression for `text`.
fn equals_from_str(alloc: Global, expression: &Expression, text: &str) -> bool {
    let read = Expression::from_str(alloc, text);
    match &read {
        Ok(read) => *read == *expression,
        Err(_) => false,
    }
}

// Reads the text, and checks the calls of the condition.
fn reader_decides<'a>(
    alloc: Global,
    reader: &mut ConditionReader<'a>,
    expression: &Expression,
    (text, answers, row): (&'a str, &[Answer], &str),
) -> Result<bool, Failure> {
    let condition = reader.read(text)?;
    Ok(
        condition_decides(alloc, &condition, answers, row)?
            && condition_agrees(alloc, &condition, expression, answers)?,
    )
}

// Returns whether a new reader reads the text of `row` as a condition whose calls return what `row`
// says.
fn new_reader_decides(
    alloc: Global,
    expression: &Expression,
    row: (&str, &[Answer], &str),
) -> bool {
    let mut reader = ConditionReader::new(alloc);
    is_ok_true(reader_decides(alloc, &mut reader, expression, row))
}

/// Returns whether each call of the expression and of the condition of `text` returns what `row`
/// says, over the answers of `digits`, and the expression equals its copies. Returns `None` if the
/// text or a digit is faulty, or memory runs out.
pub fn each_call_decides(alloc: Global, text: &str, digits: &str, row: &str) -> Option<bool> {
    let answers = answers_of(alloc, digits)?;
    let expression = Expression::parse(alloc, text).ok()?;
    let answers = answers.as_slice();
    Some(
        each_call_finds(alloc, &expression, answers, row.parse().ok())
            && is_ok_true(expression_matches(alloc, &expression, answers, row))
            && equals_copy(alloc, &expression)
            && equals_from_str(alloc, &expression, text)
            && new_reader_decides(alloc, &expression, (text, answers, row)),
    )
}
