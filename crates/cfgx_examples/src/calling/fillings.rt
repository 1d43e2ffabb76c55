//! The decision over answers, with the fillings that show why a value is unknown.
use cfg_expr::{Decision, Expression};
use std::alloc::{AllocError, Global};

/// Returns the decision over `answers`, or `None` unless there is one answer for each predicate.
pub fn decision_over(
    alloc: Global,
    condition: &Expression,
    answers: &[Option<bool>],
) -> Result<Option<Decision>, AllocError> {
    if condition.predicates().left() != answers.len() {
        return Ok(None);
    }
    Ok(Some(condition.decide(alloc, answers)?))
}
