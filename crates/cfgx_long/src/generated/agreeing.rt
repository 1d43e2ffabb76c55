//! The value of a condition in each lane of one list of answers, by each call that computes it.
use super::numbers::Numbers;
use cfg_expr::Expression;
use cfg_expr::expr::Logic;
use cfg_expr::expr::logic::Kleene64;
use cfgx_testing::answers::{Answer, each_call_finds, eval_in_lanes, eval_over_answers};
use std::alloc::{AllocError, Global};

// Returns an answer that is true in some lanes, false in some, and unknown in some.
fn next_answer(numbers: &mut Numbers) -> Kleene64 {
    let (one, other) = (numbers.next(), numbers.next());
    let high = numbers.next() << 32;
    let is_true = Kleene64::new(one | high, 0);
    let is_false = Kleene64::new(other | high, 0).not();
    match numbers.below(4) {
        0 => is_true,
        1 => is_false,
        2 => is_true.and(Kleene64::new(0x00ff_00ff_0f0f_3355, 0xff00_0000_0000_0caa)),
        _ => is_false.or(Kleene64::new(0xaaaa_00f0_1234_0000, 0x5555_0f00_0000_ffff)),
    }
}

fn next_answers(
    alloc: Global,
    numbers: &mut Numbers,
    count: usize,
) -> Result<Vec<Kleene64>, AllocError> {
    let mut answers = Vec::with_capacity(alloc, count)?;
    for _answer in 0..count {
        answers.push(next_answer(numbers))?;
    }
    Ok(answers)
}

// Returns lane `i` of each answer, or the last lane if there is no such lane.
fn lane_of_each(alloc: Global, answers: &[Kleene64], i: usize) -> Result<Vec<Answer>, AllocError> {
    let mut lane = Vec::with_capacity(alloc, answers.len())?;
    for answer in answers {
        lane.push(answer.lane(i.min(63)))?;
    }
    Ok(lane)
}

// Returns whether `eval` finds `value` in all lanes at once, and each call finds it in the first
// lane, in the last one, and in two between them.
fn value_is(
    alloc: Global,
    expression: &Expression,
    answers: &[Kleene64],
    value: Kleene64,
) -> Result<bool, AllocError> {
    for i in [0usize, 21, 42, 63] {
        let lane = lane_of_each(alloc, answers, i)?;
        if !each_call_finds(alloc, expression, lane.as_slice(), value.lane(i.min(63))) {
            return Ok(false);
        }
    }
    Ok(eval_over_answers(alloc, expression, answers) == Some(value))
}

/// Returns whether `eval`, `eval_lanes` and `polar_fillings` agree over the next answers.
pub(super) fn calls_agree_in_lanes(
    alloc: Global,
    numbers: &mut Numbers,
    expression: &Expression,
) -> Result<bool, AllocError> {
    let answers = next_answers(alloc, numbers, expression.predicates().left())?;
    match eval_in_lanes(alloc, expression, answers.as_slice()) {
        Some(value) => value_is(alloc, expression, answers.as_slice(), value),
        None => Ok(false),
    }
}
