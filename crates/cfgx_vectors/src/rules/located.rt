//! Predicates where they stand, in the order in which `located_predicates` returns them.
use cfg_expr::Expression;
use cfg_expr::expr::{Asked, AskedTarget, LocatedPredicate, LocatedPredicates, Span};
use cfg_expr::targets::HasAtomic;
use cfgx_testing::rows::{Finding, compare, fail, require};
use std::alloc::{AllocError, Global};

// Returns `name` and the span as rows write them, or nothing if there is no span.
fn span_text(alloc: Global, name: &str, span: Option<Span>) -> Result<String, AllocError> {
    match span {
        Some(Span { start, end }) => format!(in alloc; ", {name} {start}..{end}"),
        None => Ok(String::new(alloc)),
    }
}

// Returns the kind of a predicate as rows write it.
fn kind_text(alloc: Global, asked: Asked) -> Result<String, AllocError> {
    match asked {
        Asked::Target(AskedTarget::Text(key)) => format!(in alloc; "Text({key:?})"),
        Asked::Target(AskedTarget::Endian(_)) => String::from_str(alloc, "Endian"),
        Asked::Target(AskedTarget::HasAtomic(_)) => String::from_str(alloc, "HasAtomic"),
        Asked::Target(AskedTarget::PointerWidth(_)) => String::from_str(alloc, "PointerWidth"),
        other => format!(in alloc; "{other:?}"),
    }
}

// Returns the number of a predicate as rows write it.
fn number_of(asked: Asked) -> u32 {
    match asked {
        Asked::Target(AskedTarget::HasAtomic(HasAtomic::Pointer)) => 65536,
        _ => asked.number().unwrap_or(0),
    }
}

// Returns the predicate as rows write it: its kind, its number, the span of the whole, and those of
// its key and its value.
fn predicate_text(alloc: Global, predicate: &LocatedPredicate) -> Result<String, AllocError> {
    let kind = kind_text(alloc, predicate.asked)?;
    let number = number_of(predicate.asked);
    let Span { start, end } = predicate.span();
    let key = span_text(alloc, "key", predicate.key_span())?;
    let value = span_text(alloc, "value", predicate.value_span())?;
    format!(in alloc; "{kind} {number} at {start}..{end}{key}{value}")
}

// Returns the next predicate as rows write it.
fn next_text(alloc: Global, predicates: &mut LocatedPredicates<'_>) -> Result<String, AllocError> {
    match predicates.next() {
        Some(predicate) => predicate_text(alloc, &predicate),
        None => String::from_str(alloc, "no predicate"),
    }
}

// Compares the predicates with those of a row.
fn compare_all(
    alloc: Global,
    predicates: &mut LocatedPredicates<'_>,
    wanted: &[String],
) -> Finding {
    for field in wanted {
        compare(alloc, next_text(alloc, predicates), field.as_str())?;
    }
    let has_ended = predicates.left() == 0 && predicates.next().is_none();
    require(alloc, has_ended, "one more predicate")
}

/// Compares the located predicates of the text of a row with the other fields of the row.
pub(super) fn finding(alloc: Global, row: &[String]) -> Finding {
    let [text, wanted @ ..] = row else {
        return fail(alloc, "no text");
    };
    match Expression::parse(alloc, text.as_str()) {
        Ok(expression) => {
            let mut predicates = expression.condition().located_predicates();
            compare_all(alloc, &mut predicates, wanted)
        }
        Err(_) => fail(alloc, "a fault, or out of memory"),
    }
}
