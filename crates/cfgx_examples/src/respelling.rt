//! A caller that spells a predicate and parses the spelling.
ghost use Rattle.std.specs.Prelude.{IfSome};
ghost use Rattle.cfgx_grammar.specs.WellFormed.{IsAlone, IsWellFormed};
ghost use Rattle.cfg_expr.specs.Predicate.{question_of};
ghost use Rattle.cfgx_examples.specs.Examples.{IsReadAlone};

use cfg_expr::error::Failure;
use cfg_expr::expr::spell;
use cfg_expr::{Expression, Predicate};
use std::alloc::Global;
use std::test::Fail;

/// Parses a text that asks one predicate alone. The text has no fault.
fn read_alone(alloc: Global, predicate: &Predicate<'_>, text: &str) -> Result<Expression, Failure>
    requires { IsAlone text.now (question_of predicate.now) }
    ensures { IsReadAlone (question_of predicate.now) result }
{
    let _spelled = predicate;
    Expression::parse(alloc, text)
}

/// Parses the spelling of a predicate. The expression asks this predicate alone. Returns `None` if
/// the spelling was not written.
pub fn read_again(alloc: Global, predicate: &Predicate<'_>) -> Option<Result<Expression, Failure>>
    requires { IsWellFormed (question_of predicate.now) }
    ensures { IfSome result (IsReadAlone (question_of predicate.now)) }
{
    let mut bytes = Vec::new(alloc);
    let Ok(()) = spell(predicate, &mut bytes) else {
        return None;
    };
    let Ok(text) = str::from_utf8(bytes.as_slice()) else {
        return None;
    };
    Some(read_alone(alloc, predicate, text))
}

// Returns whether the predicate is spelled as `text`, and `text` asks one predicate.
fn is_spelled_as(alloc: Global, predicate: &Predicate<'_>, text: &str) -> bool
    requires { IsWellFormed (question_of predicate.now) }
{
    match read_again(alloc, predicate) {
        Some(Ok(again)) => again.original() == text && again.predicates().left() == 1,
        _ => false,
    }
}

// Returns whether the first predicate of the expression is spelled as `text`.
fn is_first_spelled_as(alloc: Global, expression: &Expression, text: &str) -> bool {
    let first = expression.predicates().next();
    let is_spelled = match &first {
        Some(predicate) => is_spelled_as(alloc, predicate, text),
        None => false,
    };
    drop(first);
    is_spelled
}

#[test]
fn a_spelling_asks_its_predicate(rt: HostRuntime) -> Result<(), Fail> {
    let expression = Expression::parse(rt.alloc(), "all(panic = \"abort\", unix)")?;
    assert!(rt; is_first_spelled_as(rt.alloc(), &expression, "panic = \"abort\""));
    Ok(())
}
