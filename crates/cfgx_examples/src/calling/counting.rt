//! A closure that changes, and a contract on what it counts.
ghost use Rattle.std.specs.Prelude.{◌≡◌, ◌^◌, ◌-◌, length, min, IfOk};
ghost use Rattle.cfg_expr.specs.Words.{HasOneTree, asked};

use cfg_expr::{Expression, Predicate};
use std::alloc::{AllocError, Global};

/// Counts the questions that the evaluation of a condition asks.
pub fn count_questions(alloc: Global, expression: &Expression) -> Result<usize, AllocError>
    ensures { IfOk result (λ count. (one : HasOneTree expression.now)
        × (count ≡ min (length (asked one.tree)) (2 ^ 64 - 1))) }
{
    let mut count = 0usize;
    let mut answer = |_predicate: &Predicate<'_>| {
        count = count.saturating_add(1);
        true
    };
    let _value: bool = expression.eval(alloc, &mut answer)?;
    Ok(count)
}
