//! A contract on the value.
ghost use Rattle.std.specs.Prelude.{IfOk, true};
ghost use Rattle.cfg_expr.specs.Evaluation.{IsValueBy};

use cfg_expr::expr::Logic;
use cfg_expr::{Expression, Predicate};
use std::alloc::{AllocError, Global};

/// Returns the value if every predicate is true.
pub fn if_all_true(alloc: Global, expression: &Expression) -> Result<bool, AllocError>
    ensures { IfOk result (IsValueBy ⟦<bool as Logic>⟧ expression.now (λ _. true)) }
{
    expression.eval(alloc, &mut |_predicate: &Predicate<'_>| true)
}
