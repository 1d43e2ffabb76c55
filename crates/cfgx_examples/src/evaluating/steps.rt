//! Conditions as steps, and the values of steps.
use super::numbers::Lawless;
use cfg_expr::Expression;
use cfg_expr::expr::{Func, Step, StepsError, eval_steps};
use cfgx_testing::answers::answer_of;
use cfgx_testing::checking::is_ok_true;
use std::alloc::{AllocError, Global};

/// The answers to the predicates of a row. A row has at most five predicates.
const ANSWERS: [Lawless; 5] = [
    Lawless(20),
    Lawless(10),
    Lawless(30),
    Lawless(40),
    Lawless(50),
];

/// A row is a text, its steps, and its value over the first of `ANSWERS`. The first row has the
/// term `(((T&c)&a)&(F|b))`, whose value is 3 * (3 * (3 * 1 + 30) + 10) + 2.
pub const STEPS: &str = r#"
all(a, any(b), c) | all3 ask1 any1 ask0 ask2 | 329
not(any(x)) | not any1 ask0 | 2
any(a, all(b, not(c)), d) | any3 ask2 all2 ask1 not ask0 ask3 | 2
all(any(a), b, not(c), any(d, e)) | all4 any1 ask0 ask4 not ask1 any2 ask2 ask3 | 1481
true | true | 1
not(false) | not false | 2
all(a, true, any(b), false) | all4 ask1 true any1 ask0 false | 176
all(any(), all()) | all2 any0 all0 | 14
a | ask0 | 20
"#;

/// A row is steps, the answers, and the value or why there is none. An answer is `1` for true and
/// `0` for false.
pub const VALUES_OF_STEPS: &str = r#"
ask0 | 1 | true
not ask0 | 1 | false
false | \e | false
all2 ask0 ask1 | 11 | true
any0 | \e | false
all2 ask0 any0 | 1 | false
all2 any0 ask0 | 1 | false
all2 all0 ask0 | 1 | true
all2 ask0 not ask1 | 11 | false
// A step takes the answer that has its number, also if another step has the same number.
all2 ask0 not ask1 | 10 | true
all2 ask1 not ask0 | 10 | false
any2 ask0 ask0 | 01 | false
any2 ask1 ask1 | 01 | true
// The steps of no tree, and of two trees
\e | \e | no value
ask0 ask1 | 11 | no value
true false | \e | no value
not true not | \e | no value
// A function with too few members
not | \e | no value
all1 | \e | no value
all2 ask0 | 1 | no value
all3 ask0 not ask1 | 11 | no value
all18446744073709551615 ask0 | 1 | no value
// A function in last place has no members.
any2 ask0 all0 | 1 | true
any2 ask0 not | 1 | no value
any2 ask0 all1 | 1 | no value
// Functions behind their members
ask0 not | 1 | no value
ask0 ask1 all2 | 11 | no value
any0 all0 all2 | \e | no value
// A number that no answer has
ask1 | 1 | no value
all2 ask0 ask2 | 11 | no value
ask18446744073709551615 | 1 | no value
// The answers are counted first, by the steps that ask.
all2 ask0 | 111 | miscounted
not | 1 | miscounted
\e | 1 | miscounted
ask0 ask1 | 1 | miscounted
ask1 | 11 | miscounted
any2 ask0 ask0 | 1 | miscounted
ask0 | \e | miscounted
ask0 | 11 | miscounted
all2 ask0 ask1 | 1 | miscounted
true | 1 | miscounted
"#;

// Returns the function with this name: `not`, or `all` or `any` and a number.
fn function_named(name: &str) -> Option<Func> {
    if name == "not" {
        return Some(Func::Not);
    }
    match name.strip_prefix("all") {
        Some(count) => Some(Func::All(count.parse().ok()?)),
        None => Some(Func::Any(name.strip_prefix("any")?.parse().ok()?)),
    }
}

// Returns the step with this name: `true`, `false`, `ask` and a number, or that of a function.
fn step_named(name: &str) -> Option<Step> {
    match name {
        "true" => Some(Step::Literal(true)),
        "false" => Some(Step::Literal(false)),
        _ => match name.strip_prefix("ask") {
            Some(number) => Some(Step::Ask(number.parse().ok()?)),
            None => Some(Step::Function(function_named(name)?)),
        },
    }
}

// Returns the steps with these names, or `None` if a name is wrong or memory was refused.
fn steps_named(alloc: Global, names: &str) -> Option<Vec<Step>> {
    let mut steps = Vec::new(alloc);
    for name in names.split(' ') {
        if !name.is_empty() {
            steps.push(step_named(name)?).ok()?;
        }
    }
    Some(steps)
}

// Returns whether `expression` has these steps, and they have this value.
fn steps_are(
    alloc: Global,
    expression: &Expression,
    wanted: &[Step],
    value: &str,
) -> Result<bool, AllocError> {
    let steps = expression.steps(alloc)?;
    let count = expression.predicates().left().min(ANSWERS.len());
    let found = match eval_steps(alloc, steps.as_slice(), &ANSWERS[..count]) {
        Ok(found) => value.parse() == Ok(found.0),
        Err(_) => false,
    };
    Ok(found && steps.as_slice() == wanted)
}

/// Returns whether the text of `row` has its steps, and these have its value.
pub fn steps_are_right(alloc: Global, row: &[String]) -> bool {
    let [text, names, value] = row else {
        return false;
    };
    let Some(wanted) = steps_named(alloc, names.as_str()) else {
        return false;
    };
    match Expression::parse(alloc, text.as_str()) {
        Ok(expression) => {
            is_ok_true(steps_are(alloc, &expression, wanted.as_slice(), value.as_str()))
        }
        Err(_) => false,
    }
}

// Returns the name of what `eval_steps` returned.
fn outcome_of(value: Result<bool, StepsError>) -> &'static str {
    match value {
        Ok(true) => "true",
        Ok(false) => "false",
        Err(StepsError::NoValue) => "no value",
        Err(StepsError::Miscounted) => "miscounted",
        Err(StepsError::Memory(_)) => "out of memory",
    }
}

// Returns the answers that `digits` says, or `None` if one is no answer or memory runs out.
fn answers_of(alloc: Global, digits: &str) -> Option<Vec<bool>> {
    let mut answers = Vec::new(alloc);
    for digit in digits.bytes() {
        answers.push(answer_of(digit)??).ok()?;
    }
    Some(answers)
}

/// Returns whether the steps of `row` have its outcome over its answers.
pub fn value_is_right(alloc: Global, row: &[String]) -> bool {
    let [names, digits, outcome] = row else {
        return false;
    };
    let Some(steps) = steps_named(alloc, names.as_str()) else {
        return false;
    };
    match answers_of(alloc, digits.as_str()) {
        Some(answers) => {
            let value = eval_steps(alloc, steps.as_slice(), answers.as_slice());
            outcome_of(value) == outcome.as_str()
        }
        None => false,
    }
}
