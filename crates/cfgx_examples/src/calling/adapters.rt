//! Adapters over the predicates.
use cfg_expr::{Expression, Predicate};

fn is_test(predicate: Predicate<'_>) -> bool {
    matches!(predicate, Predicate::Test)
}

/// Returns whether a condition asks for a test.
pub fn asks_for_tests(expression: &Expression) -> bool {
    expression.predicates().any(is_test)
}

/// Returns the first flag that a condition asks for.
pub fn first_flag(expression: &Expression) -> Option<Predicate<'_>> {
    expression
        .predicates()
        .find(|predicate| matches!(predicate, Predicate::Flag(_)))
}
