//! The value of a condition over one list of answers, by each call that computes it.
use crate::checking::is_ok_true;
use cfg_expr::expr::logic::Kleene64;
use cfg_expr::expr::{Logic, StepsError, eval_steps};
use cfg_expr::{Expression, Predicate};
use std::alloc::{AllocError, Global};

/// True, false, or unknown.
pub type Answer = Option<bool>;

/// Returns the answer of a digit: true for `1`, false for `0`, and unknown for `?`, which counts as
/// a digit here. Returns `None` for any other byte.
pub fn answer_of(digit: u8) -> Option<Answer> {
    match digit {
        b'1' => Some(Some(true)),
        b'0' => Some(Some(false)),
        b'?' => Some(None),
        _ => None,
    }
}

/// Returns the lanes that all hold `answer`.
pub fn in_each_lane(answer: Answer) -> Kleene64 {
    match answer {
        Some(true) => Kleene64::top(),
        Some(false) => Kleene64::bottom(),
        None => Kleene64::new(0, 0),
    }
}

/// Returns whether each lane holds the answer of its digit. The last digit stands for all lanes
/// past it.
pub fn lanes_match_digits(lanes: Kleene64, digits: &[u8]) -> bool {
    for i in 0..64 {
        let digit = digits.get(i).or(digits.last());
        if digit.copied().and_then(answer_of) != Some(lanes.lane(i)) {
            return false;
        }
    }
    true
}

/// Evaluates over `answers`, one for each question in turn. Returns `None` if there are more or
/// fewer questions.
pub fn eval_over_answers<T: Logic + Copy>(
    alloc: Global,
    expression: &Expression,
    answers: &[T],
) -> Option<T> {
    let mut count = 0usize;
    let mut answer = |_predicate: &Predicate<'_>| {
        let answer = answers.get(count).copied();
        count = count.saturating_add(1);
        answer.unwrap_or(T::bottom())
    };
    let value = expression.eval(alloc, &mut answer).ok()?;
    (count == answers.len()).then_some(value)
}

/// Evaluates in lanes. Returns `None` unless there is one answer for each predicate.
pub fn eval_in_lanes(
    alloc: Global,
    expression: &Expression,
    answers: &[Kleene64],
) -> Option<Kleene64> {
    if expression.predicates().left() == answers.len() {
        expression.eval_lanes(alloc, answers).ok()
    } else {
        None
    }
}

// Returns whether `filling` keeps each known answer.
fn fills(filling: &[bool], answers: &[Answer]) -> bool {
    for (value, answer) in filling.iter().zip(answers) {
        if answer.unwrap_or(*value) != *value {
            return false;
        }
    }
    filling.len() == answers.len()
}

// Returns whether `filling` fills `answers` and makes the condition `value`.
fn leads_to(
    alloc: Global,
    expression: &Expression,
    answers: &[Answer],
    filling: &[bool],
    value: bool,
) -> bool {
    eval_over_answers(alloc, expression, filling) == Some(value) && fills(filling, answers)
}

// Returns whether `polar_fillings` returns two fillings exactly if `value` is unknown, one for each
// value.
fn polar_fillings_show(
    alloc: Global,
    expression: &Expression,
    answers: &[Answer],
    value: Answer,
) -> Result<bool, AllocError> {
    if expression.predicates().left() != answers.len() {
        return Ok(false);
    }
    let fillings = expression.polar_fillings(alloc, answers)?;
    Ok(match &fillings {
        Some((if_true, if_false)) => {
            value.is_none()
                && leads_to(alloc, expression, answers, if_true.as_slice(), true)
                && leads_to(alloc, expression, answers, if_false.as_slice(), false)
        }
        None => value.is_some(),
    })
}

/// Returns the answers, each in all lanes.
pub fn lanes_of(alloc: Global, answers: &[Answer]) -> Result<Vec<Kleene64>, AllocError> {
    let mut lanes = Vec::with_capacity(alloc, answers.len())?;
    for answer in answers {
        lanes.push(in_each_lane(*answer))?;
    }
    Ok(lanes)
}

// Returns whether `eval_lanes` returns `value` in each lane if each answer stands in all lanes.
fn lanes_return(
    alloc: Global,
    expression: &Expression,
    answers: &[Answer],
    value: Answer,
) -> Result<bool, AllocError> {
    let lanes = lanes_of(alloc, answers)?;
    Ok(eval_in_lanes(alloc, expression, lanes.as_slice()) == Some(in_each_lane(value)))
}

// Returns whether the steps of the expression have the value `value`.
fn steps_have(
    alloc: Global,
    expression: &Expression,
    answers: &[Answer],
    value: Answer,
) -> Result<bool, StepsError> {
    let steps = expression.steps(alloc)?;
    Ok(eval_steps(alloc, steps.as_slice(), answers)? == value)
}

/// Returns whether `eval`, `eval_lanes`, `polar_fillings` and `eval_steps` all find `value` over
/// `answers`.
pub fn each_call_finds(
    alloc: Global,
    expression: &Expression,
    answers: &[Answer],
    value: Answer,
) -> bool {
    eval_over_answers(alloc, expression, answers) == Some(value)
        && is_ok_true(lanes_return(alloc, expression, answers, value))
        && is_ok_true(polar_fillings_show(alloc, expression, answers, value))
        && is_ok_true(steps_have(alloc, expression, answers, value))
}
