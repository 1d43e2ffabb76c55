//! Logics of numbers, of which no law holds.
ghost use Rattle.std.specs.Prelude.{◌+◌, ◌^◌, ◌*◌, ◌%◌};

use cfg_expr::Expression;
use cfg_expr::expr::{Logic, StepsError, eval_steps};
use cfgx_testing::answers::eval_over_answers;
use cfgx_testing::checking::is_ok_true;
use std::alloc::Global;

/// A logic without laws: `a.and(b)` is `3 * a + b`, and both `a.or(b)` and `a.not()` are `a`. All
/// arithmetic wraps.
#[derive(Clone, Copy, Debug, PartialEq, Eq)]
pub struct Lawless(pub u64);

impl Logic for Lawless {
    ghost use Rattle.std.proofs.Common.{lit≤};

    ghost top = { record { 0 = 1 } };

    ghost bottom = { record { 0 = 2 } };

    ghost and = { λ one other. record { 0 = ((one.0 * 3) % 2 ^ 64 + other.0) % 2 ^ 64 } };

    ghost or = { λ one other. one };

    ghost not = { λ one. one };

    ghost small = { (lit≤ tt, lit≤ tt) };

    fn top() -> Lawless {
        Lawless(1)
    }

    fn bottom() -> Lawless {
        Lawless(2)
    }

    fn and(self, other: Lawless) -> Lawless {
        Lawless(self.0.wrapping_mul(3).wrapping_add(other.0))
    }

    fn or(self, _other: Lawless) -> Lawless {
        self
    }

    fn not(self) -> Lawless {
        self
    }
}

/// A logic whose `and` and `or` are their second value.
#[derive(Clone, Copy, Debug, PartialEq, Eq)]
pub struct Second(pub u64);

impl Logic for Second {
    ghost use Rattle.std.proofs.Common.{lit≤};

    ghost top = { record { 0 = 1 } };

    ghost bottom = { record { 0 = 2 } };

    ghost and = { λ one other. other };

    ghost or = { λ one other. other };

    ghost not = { λ one. one };

    ghost small = { (lit≤ tt, lit≤ tt) };

    fn top() -> Second {
        Second(1)
    }

    fn bottom() -> Second {
        Second(2)
    }

    fn and(self, other: Second) -> Second {
        other
    }

    fn or(self, other: Second) -> Second {
        other
    }

    fn not(self) -> Second {
        self
    }
}

/// A logic whose values are numbers.
trait Number: Logic + Copy {
    fn from_number(number: u64) -> Self;

    fn number(self) -> u64;
}

impl Number for Lawless {
    fn from_number(number: u64) -> Lawless {
        Lawless(number)
    }

    fn number(self) -> u64 {
        self.0
    }
}

impl Number for Second {
    fn from_number(number: u64) -> Second {
        Second(number)
    }

    fn number(self) -> u64 {
        self.0
    }
}

/// A row is a logic, a text, the answers in the order of the questions, and the value.
pub const JOINED: &str = r#"
// `all` starts from `top`, which is 1, and first joins the member that is asked last:
// 3 * 1 + 30 = 33, 3 * 33 + 10 = 109, 3 * 109 + 2 = 329.
lawless | all(a, any(b), c) | 20 10 30 | 329
// 3 * 1 + 7 = 10, 3 * 10 + 5 = 35
lawless | all(a, b) | 5 7 | 35
// 3 * 1 + 9 = 12, 3 * 12 + 7 = 43, 3 * 43 + 5 = 134
lawless | all(a, b, c) | 5 7 9 | 134
// `any` is `bottom`, which is 2. What it joins never counts, and is asked all the same.
lawless | any(a, b) | 5 7 | 2
// The value of a list is that of the member that is joined last: the first one of its functions, or
// else its first predicate or literal.
second | all(a, b, c) | 5 7 9 | 5
second | any(a, b, c) | 5 7 9 | 5
second | all(a, any(b), c) | 5 7 9 | 5
second | any(a, all(b), c) | 5 7 9 | 5
second | any(a, all(b, c), not(d)) | 5 7 9 11 | 5
second | all(true, a) | 5 | 1
second | any(a, true) | 5 | 5
second | any(false, a) | 5 | 2
second | all() | \e | 1
second | any() | \e | 2
"#;

// Returns the numbers as values, or `None` if one is no number or memory runs out. Spaces separate
// the numbers.
fn values_of<T: Number>(alloc: Global, numbers: &str) -> Option<Vec<T>> {
    let mut values = Vec::new(alloc);
    for number in numbers.split_whitespace() {
        values.push(T::from_number(number.parse().ok()?)).ok()?;
    }
    Some(values)
}

// Returns whether `eval` and `eval_steps` find `value` over `answers`.
fn both_find<T: Number>(
    alloc: Global,
    expression: &Expression,
    answers: &[T],
    value: u64,
) -> Result<bool, StepsError> {
    let steps = expression.steps(alloc)?;
    let by_steps = eval_steps(alloc, steps.as_slice(), answers)?;
    let is_right = match eval_over_answers(alloc, expression, answers) {
        Some(by_eval) => by_eval.number() == value,
        None => false,
    };
    Ok(is_right && by_steps.number() == value)
}

// Returns whether the condition `text` has the value `value` over `answers`. Returns `None` if the
// text or a number is faulty, or memory runs out.
fn has_value<T: Number>(alloc: Global, text: &str, answers: &str, value: &str) -> Option<bool> {
    let value = value.parse::<u64>().ok()?;
    let answers = values_of::<T>(alloc, answers)?;
    let expression = Expression::parse(alloc, text).ok()?;
    Some(is_ok_true(both_find(alloc, &expression, answers.as_slice(), value)))
}

/// Returns whether the text of `row` has the value of `row` in the logic of `row`.
pub fn joined_value_is_right(alloc: Global, row: &[String]) -> bool {
    let [logic, text, answers, value] = row else {
        return false;
    };
    let (text, answers, value) = (text.as_str(), answers.as_str(), value.as_str());
    match logic.as_str() {
        "lawless" => has_value::<Lawless>(alloc, text, answers, value) == Some(true),
        "second" => has_value::<Second>(alloc, text, answers, value) == Some(true),
        _ => false,
    }
}
