//! What `==` and the order of functions and predicates tell a caller.
ghost use Rattle.std.specs.Prelude.{◌≡◌, ◌↔◌, IsTrue};
ghost use Rattle.cfgx_parser.specs.Order.{func_cmp};
ghost use Rattle.cfg_expr.specs.Predicate.{question_of, target_of};

use cfg_expr::expr::Func;
use cfg_expr::{Predicate, TargetPredicate};
use std::cmp::Ordering;

/// Returns whether two functions have the same name and the same number of members.
pub fn is_same_function(one: &Func, other: &Func) -> bool
    ensures { IsTrue result ↔ (one.now ≡ other.now) }
{
    *one == *other
}

/// Returns the order of two functions: by name, and then by the number of members.
pub fn order_of_functions(one: &Func, other: &Func) -> Ordering
    ensures { result ≡ func_cmp one.now other.now }
{
    one.cmp(other)
}

/// Returns whether two predicates ask the same question of a target.
pub fn asks_same_of_targets(one: &TargetPredicate<'_>, other: &TargetPredicate<'_>) -> bool
    ensures { IsTrue result ↔ (target_of one.now ≡ target_of other.now) }
{
    *one == *other
}

/// Returns whether two predicates ask the same question.
pub fn asks_same(one: &Predicate<'_>, other: &Predicate<'_>) -> bool
    ensures { IsTrue result ↔ (question_of one.now ≡ question_of other.now) }
{
    *one == *other
}
