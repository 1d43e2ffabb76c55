//! A condition that is compiled once and evaluated many times.
use cfg_expr::Expression;
use cfg_expr::expr::{StepsError, eval_steps};
use std::alloc::Global;

/// Returns the number of the first list of answers over which the condition is true. The answers
/// of a list are in the order of `predicates`.
pub fn first_true(
    alloc: Global,
    condition: &Expression,
    lists: &[&[bool]],
) -> Result<Option<usize>, StepsError> {
    let steps = condition.steps(alloc)?;
    for (number, answers) in lists.iter().enumerate() {
        if eval_steps(alloc, steps.as_slice(), answers)? {
            return Ok(Some(number));
        }
    }
    Ok(None)
}
