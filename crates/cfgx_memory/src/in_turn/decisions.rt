//! Decisions that are made again in the memory of an earlier one.
use super::Outcome;
use super::texts::Parsed;
use cfg_expr::expr::Condition;
use cfg_expr::memory::SmallAllocator;
use cfg_expr::{Decision, Expression};
use cfgx_testing::answers::Answer;
use cfgx_testing::fillings::{answers_of, decision_matches};
use cfgx_testing::heap::{Heap, count_growths};
use std::alloc::Global;

/// A text, answers, and the decision over them. Each growth is refused in turn. A second call,
/// which uses the memory of the decision again, takes none.
pub(super) const DECISIONS: &str = r#"
a | 1 | true
a | ? | 1 0
any() | \e | false
all(a, b) | 0? | false
all(a, b) | 1? | 11 10
any(a, not(a)) | ?? | 01 10
~not(~32~a~)~32~ | 0 | false
~not(~32~a~)~32~ | ? | 1 0
"#;

// Checks that the decision and the one that is made again match `row`, and that the second one
// takes no growth.
fn check_decide_twice<A: SmallAllocator>(
    heap: Heap<'_>,
    alloc: A,
    condition: &Condition<'_>,
    answers: &[Answer],
    row: &str,
) -> Outcome {
    if condition.predicates().left() != answers.len() {
        return Ok(false);
    }
    let mut decision = Decision::Known(false);
    condition.decide(alloc, answers, &mut decision)?;
    let is_first_right = decision_matches(&decision, row);
    let asked = heap.asked_growths();
    condition.decide(alloc, answers, &mut decision)?;
    Ok(is_first_right && decision_matches(&decision, row) && heap.asked_growths() == asked)
}

// Checks that `parsed` has a condition that is decided as `row` says.
fn check_decided<A: SmallAllocator>(
    heap: Heap<'_>,
    alloc: A,
    parsed: &Parsed,
    answers: &[Answer],
    row: &str,
) -> Outcome {
    match parsed {
        Ok(expression) => { check_decide_twice(heap, alloc, &expression.condition(), answers, row) }
        Err(_) => Ok(false),
    }
}

// Returns whether `parsed` is decided as `row` says, with each growth refused in turn.
fn is_decided(global: Global, parsed: &Parsed, answers: &[Answer], row: &str) -> bool {
    count_growths(
        global,
        |heap| check_decided(heap, heap, parsed, answers, row),
    )
    .is_some()
}

/// Returns whether the text of the row is decided as the row says.
pub(super) fn row_passes(global: Global, row: &[String]) -> bool {
    let [text, digits, decision] = row else {
        return false;
    };
    let Some(answers) = answers_of(global, digits.as_str()) else {
        return false;
    };
    let parsed = Expression::parse(global, text.as_str());
    is_decided(global, &parsed, answers.as_slice(), decision.as_str())
}
