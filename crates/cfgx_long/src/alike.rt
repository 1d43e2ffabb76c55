//! Values of conditions whose predicates all have the same answer, in short, wide and deep texts.
use cfg_expr::Expression;
use cfg_expr::expr::logic::Kleene64;
use cfgx_testing::answers::{
    Answer, answer_of, each_call_finds, eval_in_lanes, eval_over_answers, lanes_match_digits,
};
use cfgx_testing::checking::is_ok_true;
use std::alloc::{AllocError, Global};

/// A text, the number of its predicates, and three digits: its value if all answers are true, if
/// all are false, and if all are unknown.
pub(crate) const ALIKE: &str = r#"
all() | 0 | 111
any() | 0 | 000
not(all()) | 0 | 000
not(any()) | 0 | 111
a | 1 | 10?
not(a) | 1 | 01?
all(not(blah)) | 1 | 01?
any(not(blah)) | 1 | 01?
any(a, a, a) | 3 | 10?
all(a, not(a)) | 2 | 00?
any(a, not(a)) | 2 | 11?
all(a, any(b), c) | 3 | 10?
any(a, all()) | 1 | 111
all(a, any()) | 1 | 000
true | 0 | 111
false | 0 | 000
not(true) | 0 | 000
all(true, true) | 0 | 111
all(a, true) | 1 | 10?
all(true, a) | 1 | 10?
all(a, false) | 1 | 000
any(a, true) | 1 | 111
any(true, a) | 1 | 111
any(false, a) | 1 | 10?
any(a, false, not(true)) | 1 | 10?
all(a, true, any(b), false) | 2 | 000
all(false, a, not(b)) | 2 | 000
any(all(), a) | 1 | 111
any(any(), a) | 1 | 10?
not(not(a)) | 1 | 10?
// Wide and deep texts.
all(any(),~all(),~299~) | 0 | 000
any(~a,~100000~) | 100000 | 10?
all(a,~true,~100000~) | 1 | 10?
~not(~100000~a~)~100000~ | 1 | 10?
~not(~100001~a~)~100001~ | 1 | 01?
~not(~100000~true~)~100000~ | 0 | 111
~not(~100001~true~)~100001~ | 0 | 000
"#;

// Returns whether the value over `bool` is `value`, if each of `count` answers is `answer`.
fn bool_value_is(
    alloc: Global,
    expression: &Expression,
    answer: bool,
    value: Answer,
    count: usize,
) -> Result<bool, AllocError> {
    let answers = vec![in alloc; answer; count]?;
    Ok(eval_over_answers(alloc, expression, answers.as_slice()) == value)
}

// Returns whether each call finds `value`, if each of `count` answers is `answer`. A known answer
// is also tried as a `bool`.
fn value_is(
    alloc: Global,
    expression: &Expression,
    answer: Answer,
    value: Answer,
    count: usize,
) -> Result<bool, AllocError> {
    let answers = vec![in alloc; answer; count]?;
    let is_right = each_call_finds(alloc, expression, answers.as_slice(), value);
    match answer {
        Some(answer) if is_right => bool_value_is(alloc, expression, answer, value, count),
        _ => Ok(is_right),
    }
}

// Returns whether each call finds the value of the digit, if each of `count` answers is `answer`.
fn digit_is_right(
    alloc: Global,
    expression: &Expression,
    answer: Answer,
    digit: u8,
    count: usize,
) -> bool {
    match answer_of(digit) {
        Some(value) => is_ok_true(value_is(alloc, expression, answer, value, count)),
        None => false,
    }
}

// Returns whether `eval` and `eval_lanes` find the lanes of the digits over `answers`.
fn both_find_lanes(
    alloc: Global,
    expression: &Expression,
    digits: &[u8],
    answers: &[Kleene64],
) -> bool {
    let value = eval_over_answers(alloc, expression, answers);
    match value {
        Some(lanes) => {
            lanes_match_digits(lanes, digits) && eval_in_lanes(alloc, expression, answers) == value
        }
        None => false,
    }
}

// Returns whether the lanes of the value are those of the digits, if each of `count` answers is
// true in the first lane, false in the second one, and unknown in all others.
fn lanes_are(
    alloc: Global,
    expression: &Expression,
    digits: &[u8],
    count: usize,
) -> Result<bool, AllocError> {
    let answers = vec![in alloc; Kleene64::new(0b01, 0b10); count]?;
    Ok(both_find_lanes(alloc, expression, digits, answers.as_slice()))
}

// Returns whether the three digits are the values if all answers are true, if all are false, and if
// all are unknown.
fn values_are(alloc: Global, expression: &Expression, digits: &[u8], count: usize) -> bool {
    for (digit, answer) in digits.iter().zip([Some(true), Some(false), None]) {
        if !digit_is_right(alloc, expression, answer, *digit, count) {
            return false;
        }
    }
    digits.len() == 3 && is_ok_true(lanes_are(alloc, expression, digits, count))
}

// Returns whether the values of the text are those of the digits. Returns `None` if the text or the
// count is faulty.
fn text_has_values(alloc: Global, text: &str, count: &str, digits: &str) -> Option<bool> {
    let count = count.parse::<usize>().ok()?;
    let expression = Expression::parse(alloc, text).ok()?;
    Some(values_are(alloc, &expression, digits.as_bytes(), count))
}

/// Returns whether the text of the row has the number of predicates and the values of the row.
pub(crate) fn has_values(alloc: Global, row: &[String]) -> bool {
    match row {
        [text, count, digits] => {
            text_has_values(alloc, text.as_str(), count.as_str(), digits.as_str()) == Some(true)
        }
        _ => false,
    }
}
