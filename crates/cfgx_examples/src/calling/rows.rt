//! A condition over many targets at once.
use cfg_expr::expr::Predicates;
use cfg_expr::expr::logic::Kleene64;
use cfg_expr::targets::TargetInfo;
use cfg_expr::{Expression, Predicate};
use std::alloc::{AllocError, Global};

/// Returns the value on each row, if nothing else is known. Lane `i` is the value on row `i`.
/// Returns `None` if there are more than 64 rows.
pub fn eval_on_rows(
    alloc: Global,
    condition: &Expression,
    rows: &[TargetInfo],
) -> Result<Option<Kleene64>, AllocError> {
    let answers = answers_of(alloc, condition.predicates(), rows)?;
    if rows.len() > 64 || condition.predicates().left() != answers.len() {
        return Ok(None);
    }
    Ok(Some(condition.eval_lanes(alloc, answers.as_slice())?))
}

fn answers_of(
    alloc: Global,
    predicates: Predicates<'_>,
    rows: &[TargetInfo],
) -> Result<Vec<Kleene64>, AllocError> {
    let mut answers = Vec::new(alloc);
    for predicate in predicates {
        answers.push(lanes(predicate, rows))?;
    }
    Ok(answers)
}

// Returns the answers of at most 64 rows.
fn lanes(predicate: Predicate<'_>, rows: &[TargetInfo]) -> Kleene64 {
    match predicate {
        Predicate::Target(target) if rows.len() <= 64 => target.lanes(rows),
        _ => Kleene64::new(0, 0),
    }
}
