//! Calls on an expression and on its condition.
//!
//! All predicates get the same answer, and the value has to be that answer.
ghost use Rattle.cfg_expr.specs.Given.{AreAnswersTo};

use super::texts::is_same_condition;
use super::verdicts::{check_audit, check_decider, check_pick};
use super::{AllocResult, Outcome};
use cfg_expr::expr::logic::Kleene64;
use cfg_expr::expr::{Condition, Step, StepsError, eval_steps};
use cfg_expr::memory::SmallAllocator;
use cfg_expr::{Decision, Expression, Predicate};
use cfgx_testing::checking::{is_ok_true, value_equals};
use std::alloc::{AllocError, Global};

// The most predicates of an expression here.
const MOST_PREDICATES: usize = 100;

/// Makes the call with the name `call` on the expression, or on its condition, and checks its
/// result.
pub(crate) fn check_expression_call<A: SmallAllocator>(
    alloc: A,
    call: &str,
    expression: &Expression<A>,
) -> Outcome {
    match call {
        "parse" | "from_str" => Ok(true),
        "try_clone" => check_clone(alloc, expression),
        "eval" => check_eval(alloc, expression),
        "eval_lanes" => check_eval_lanes(alloc, expression),
        "polar_fillings" => check_polar_fillings(alloc, expression),
        "decide" => check_decide(alloc, expression),
        "steps" => check_steps(alloc, expression),
        "Decider::decide" => check_decider(alloc, expression),
        "audit" => check_audit(alloc, expression),
        "pick" => check_pick(alloc, expression.original()),
        call => check_condition_call(alloc, call, &expression.condition()),
    }
}

// Makes the call with the name `call` on the condition, and checks its result.
fn check_condition_call<A: SmallAllocator>(
    alloc: A,
    call: &str,
    condition: &Condition<'_>,
) -> Outcome {
    match call {
        "Condition::eval" => check_condition_eval(alloc, condition),
        "Condition::eval_lanes" => check_condition_eval_lanes(alloc, condition),
        "Condition::polar_fillings" => check_condition_polar_fillings(alloc, condition),
        "Condition::decide" => check_condition_decide(alloc, condition),
        "Condition::steps" => check_condition_steps(alloc, condition),
        "eval_over" => check_eval_over(alloc, condition),
        "write_fillings" => check_write_fillings(alloc, condition),
        _ => Ok(false),
    }
}

fn check_clone<A: SmallAllocator>(alloc: A, expression: &Expression<A>) -> Outcome {
    let copy = expression.try_clone(alloc)?;
    let is_same = is_same_condition(&copy.condition(), &expression.condition());
    Ok(copy == *expression && is_same)
}

// Checks that the value is true and that `asked` of `count` predicates were asked: all, or none if
// the call was out of memory.
fn check_value(value: AllocResult<bool>, asked: usize, count: usize) -> Outcome {
    let wanted = if value.is_ok() { count } else { 0 };
    if asked == wanted { value } else { Ok(false) }
}

fn check_eval<A: SmallAllocator>(alloc: A, expression: &Expression<A>) -> Outcome {
    let mut asked = 0usize;
    let value = expression.eval(
        alloc,
        &mut |_predicate: &Predicate<'_>| {
            asked = asked.saturating_add(1);
            true
        },
    );
    check_value(value, asked, expression.predicates().left())
}

fn check_condition_eval<A: SmallAllocator>(alloc: A, condition: &Condition<'_>) -> Outcome {
    let mut asked = 0usize;
    let value = condition.eval(
        alloc,
        &mut |_predicate: &Predicate<'_>| {
            asked = asked.saturating_add(1);
            true
        },
    );
    check_value(value, asked, condition.predicates().left())
}

// Evaluates the condition over the items of `answers`.
fn eval_over_items<A: SmallAllocator>(
    alloc: A,
    condition: &Condition<'_>,
    answers: &[bool],
) -> Outcome
    requires { AreAnswersTo answers.now condition.now }
{
    condition.eval_over(alloc, answers.iter().copied())
}

fn check_eval_over<A: SmallAllocator>(alloc: A, condition: &Condition<'_>) -> Outcome {
    match [true; MOST_PREDICATES].get(..condition.predicates().left()) {
        Some(answers) => eval_over_items(alloc, condition, answers),
        None => Ok(false),
    }
}

/// Checks that the value of the steps over `count` true answers is true.
pub(crate) fn check_eval_steps<A: SmallAllocator>(
    alloc: A,
    steps: &[Step],
    count: usize,
) -> Outcome {
    let Some(answers) = [true; MOST_PREDICATES].get(..count) else {
        return Ok(false);
    };
    match eval_steps(alloc, steps, answers) {
        Err(StepsError::Memory(refused)) => Err(refused),
        value => Ok(is_ok_true(value)),
    }
}

// Compiles the expression to steps, and checks their value.
fn check_steps<A: SmallAllocator>(alloc: A, expression: &Expression<A>) -> Outcome {
    let steps = expression.steps(alloc)?;
    check_eval_steps(alloc, steps.as_slice(), expression.predicates().left())
}

fn check_condition_steps<A: SmallAllocator>(alloc: A, condition: &Condition<'_>) -> Outcome {
    let steps = condition.steps(alloc)?;
    check_eval_steps(alloc, steps.as_slice(), condition.predicates().left())
}

// Returns an answer that is true in one lane, false in another, and unknown in all others.
fn lanes() -> Kleene64 {
    Kleene64::new(0b001, 0b010)
}

fn check_eval_lanes<A: SmallAllocator>(alloc: A, expression: &Expression<A>) -> Outcome {
    match [lanes(); MOST_PREDICATES].get(..expression.predicates().left()) {
        Some(answers) => value_equals(expression.eval_lanes(alloc, answers), &lanes()),
        None => Ok(false),
    }
}

fn check_condition_eval_lanes<A: SmallAllocator>(alloc: A, condition: &Condition<'_>) -> Outcome {
    match [lanes(); MOST_PREDICATES].get(..condition.predicates().left()) {
        Some(answers) => value_equals(condition.eval_lanes(alloc, answers), &lanes()),
        None => Ok(false),
    }
}

// Returns whether each item equals `item`.
fn consists_of<T: PartialEq>(items: &[T], item: &T) -> bool {
    items.iter().all(|one| one == item)
}

// Returns whether `filling` consists of `count` copies of `value`.
fn repeats(filling: &[bool], value: bool, count: usize) -> bool {
    filling.len() == count && consists_of(filling, &value)
}

// Returns whether `if_true` consists of `count` copies of true, and `if_false` of `count` copies of
// false.
fn are_polar(if_true: &[bool], if_false: &[bool], count: usize) -> bool {
    repeats(if_true, true, count) && repeats(if_false, false, count)
}

const UNKNOWN: &[Option<bool>] = &[None; MOST_PREDICATES];

// What `polar_fillings` returns.
type Fillings<A> = AllocResult<Option<(Vec<bool, A>, Vec<bool, A>)>>;

// Checks the fillings of `count` unknown answers: all true, and all false.
fn check_fillings<A: SmallAllocator>(fillings: &Fillings<A>, count: usize) -> Outcome {
    match fillings {
        Ok(Some((if_true, if_false))) => {
            Ok(are_polar(if_true.as_slice(), if_false.as_slice(), count))
        }
        Ok(None) => Ok(false),
        Err(_) => Err(AllocError),
    }
}

fn check_polar_fillings<A: SmallAllocator>(alloc: A, expression: &Expression<A>) -> Outcome {
    let count = expression.predicates().left();
    match UNKNOWN.get(..count) {
        Some(answers) => check_fillings(&expression.polar_fillings(alloc, answers), count),
        None => Ok(false),
    }
}

fn check_condition_polar_fillings<A: SmallAllocator>(
    alloc: A,
    condition: &Condition<'_>,
) -> Outcome {
    let count = condition.predicates().left();
    match UNKNOWN.get(..count) {
        Some(answers) => check_fillings(&condition.polar_fillings(alloc, answers), count),
        None => Ok(false),
    }
}

// The byte of a buffer that nothing was written to.
const UNWRITTEN: u8 = 7;

// Checks the fillings of unknown answers: all true, and all false. Out of memory, nothing is
// written.
fn check_write_fillings<A: SmallAllocator>(alloc: A, condition: &Condition<'_>) -> Outcome {
    let count = condition.predicates().left();
    let Some(answers) = UNKNOWN.get(..count) else {
        return Ok(false);
    };
    let mut if_true = [UNWRITTEN; MOST_PREDICATES];
    let mut if_false = [UNWRITTEN; MOST_PREDICATES];
    let (if_true, if_false) = (&mut if_true[..count], &mut if_false[..count]);
    let written = condition.write_fillings(alloc, answers, if_true, if_false);
    let (one, other) = if written.is_ok() {
        (1, 0)
    } else {
        (UNWRITTEN, UNWRITTEN)
    };
    if consists_of(if_true, &one) && consists_of(if_false, &other) {
        written.and(Ok(true))
    } else {
        Ok(false)
    }
}

/// Returns whether the decision over `count` unknown answers is unknown, with the fillings all true
/// and all false.
pub(super) fn is_polar<A: SmallAllocator>(decision: &Decision<A>, count: usize) -> bool {
    match decision {
        Decision::Unknown { if_true, if_false } => {
            are_polar(if_true.as_slice(), if_false.as_slice(), count)
        }
        Decision::Known(_) => false,
    }
}

// Checks a decision over `count` unknown answers.
fn check_decision<A: SmallAllocator>(decision: &AllocResult<Decision<A>>, count: usize) -> Outcome {
    match decision {
        Ok(decision) => Ok(is_polar(decision, count)),
        Err(_) => Err(AllocError),
    }
}

fn check_decide<A: SmallAllocator>(alloc: A, expression: &Expression<A>) -> Outcome {
    let count = expression.predicates().left();
    match UNKNOWN.get(..count) {
        Some(answers) => check_decision(&expression.decide(alloc, answers), count),
        None => Ok(false),
    }
}

// Out of memory, a second call with the same decision must succeed.
fn check_condition_decide<A: SmallAllocator>(alloc: A, condition: &Condition<'_>) -> Outcome {
    let count = condition.predicates().left();
    let Some(answers) = UNKNOWN.get(..count) else {
        return Ok(false);
    };
    let mut decision = Decision::Known(false);
    let first = condition.decide(alloc, answers, &mut decision);
    if first.is_err() && condition.decide(alloc, answers, &mut decision).is_err() {
        return Ok(false);
    }
    if is_polar(&decision, count) {
        first.and(Ok(true))
    } else {
        Ok(false)
    }
}
