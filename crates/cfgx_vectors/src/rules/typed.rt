//! Predicates as values, in the order in which `predicates` returns them.
use cfg_expr::error::Failure;
use cfg_expr::expr::Predicates;
use cfg_expr::targets::{Abi, Arch, Endian, Env, Family, HasAtomic, Os, Panic, Vendor};
use cfg_expr::{Expression, Predicate, TargetPredicate};
use cfgx_testing::checking::{is_ok_true, value_equals};
use cfgx_testing::rows::{Finding, fail, require};
use std::alloc::Global;

// Returns the byte order that rows write as `name`.
fn byte_order(name: &str) -> Option<Endian> {
    match name {
        "big" => Some(Endian::big),
        "little" => Some(Endian::little),
        _ => None,
    }
}

// Returns the width that rows write as `text`.
fn width(text: &str) -> Option<HasAtomic> {
    match text {
        "ptr" => Some(HasAtomic::Pointer),
        _ => Some(HasAtomic::IntegerSize(text.parse().ok()?)),
    }
}

// Returns the predicate on a target that rows write as `name(contents)`.
fn target_predicate<'a>(name: &str, contents: &'a str) -> Option<TargetPredicate<'a>> {
    match name {
        "Abi" => Some(TargetPredicate::Abi(Abi::new_const(contents))),
        "Arch" => Some(TargetPredicate::Arch(Arch::new_const(contents))),
        "Endian" => Some(TargetPredicate::Endian(byte_order(contents)?)),
        "Env" => Some(TargetPredicate::Env(Env::new_const(contents))),
        "Family" => Some(TargetPredicate::Family(Family::new_const(contents))),
        "HasAtomic" => Some(TargetPredicate::HasAtomic(width(contents)?)),
        "Os" => Some(TargetPredicate::Os(Os::new_const(contents))),
        "Panic" => Some(TargetPredicate::Panic(Panic::new_const(contents))),
        "PointerWidth" => Some(TargetPredicate::PointerWidth(contents.parse().ok()?)),
        "Vendor" => Some(TargetPredicate::Vendor(Vendor::new_const(contents))),
        _ => None,
    }
}

// Returns the predicate that rows write as `name(contents)`. The contents of `KeyValue` are the key
// and the value, with a comma and a space between them.
fn predicate_with<'a>(name: &str, contents: &'a str) -> Option<Predicate<'a>> {
    match name {
        "Feature" => Some(Predicate::Feature(contents)),
        "TargetFeature" => Some(Predicate::TargetFeature(contents)),
        "Flag" => Some(Predicate::Flag(contents)),
        "KeyValue" => {
            let (key, val) = contents.split_once(", ")?;
            Some(Predicate::KeyValue { key, val })
        }
        _ => Some(Predicate::Target(target_predicate(name, contents)?)),
    }
}

// Returns the predicate that rows write as `text`.
fn predicate_of(text: &str) -> Option<Predicate<'_>> {
    match text {
        "Test" => Some(Predicate::Test),
        "DebugAssertions" => Some(Predicate::DebugAssertions),
        "ProcMacro" => Some(Predicate::ProcMacro),
        _ => {
            let (name, rest) = text.split_once('(')?;
            predicate_with(name, rest.strip_suffix(')')?)
        }
    }
}

// Returns whether a predicate on a target equals its copy. Returns true for any other predicate.
fn equals_copy(alloc: Global, predicate: &Predicate<'_>) -> bool {
    match predicate {
        Predicate::Target(asked) => is_ok_true(value_equals(asked.try_clone(alloc), asked)),
        _ => true,
    }
}

// Returns whether there are two predicates, and they are equal.
fn are_equal(alloc: Global, one: &Option<Predicate<'_>>, other: &Option<Predicate<'_>>) -> bool {
    match (one, other) {
        (Some(one), Some(other)) => *one == *other && equals_copy(alloc, one),
        _ => false,
    }
}

// Returns whether the next predicate is the one that rows write as `wanted`.
fn next_is(alloc: Global, predicates: &mut Predicates<'_>, wanted: &str) -> bool {
    let next = predicates.next();
    let wanted = predicate_of(wanted);
    let are_equal = are_equal(alloc, &next, &wanted);
    drop(next);
    drop(wanted);
    are_equal
}

// Returns a message that names the predicate that does not come next.
fn not_next(alloc: Global, wanted: &str) -> Finding {
    match format!(in alloc; "{wanted} does not come next, or is no predicate") {
        Ok(message) => Err(message),
        Err(_) => fail(alloc, "out of memory"),
    }
}

// Compares the predicates with those of a row.
fn compare_all(alloc: Global, predicates: &mut Predicates<'_>, wanted: &[String]) -> Finding {
    for field in wanted {
        if !next_is(alloc, predicates, field.as_str()) {
            return not_next(alloc, field.as_str());
        }
    }
    let has_ended = predicates.left() == 0 && predicates.next().is_none();
    require(alloc, has_ended, "one more predicate")
}

// Compares the predicates of `text` with those of a row.
fn compare_text(alloc: Global, text: &str, wanted: &[String]) -> Result<Finding, Failure> {
    let expression = Expression::parse(alloc, text)?;
    Ok(compare_all(alloc, &mut expression.predicates(), wanted))
}

/// Compares the predicates of the text of a row with the other fields of the row.
pub(super) fn finding(alloc: Global, row: &[String]) -> Finding {
    let [text, wanted @ ..] = row else {
        return fail(alloc, "no text");
    };
    match compare_text(alloc, text.as_str(), wanted) {
        Ok(finding) => finding,
        Err(_) => fail(alloc, "a fault, or out of memory"),
    }
}
