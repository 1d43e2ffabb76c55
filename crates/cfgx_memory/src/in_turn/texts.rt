//! Texts that are parsed, by each call that takes memory.
use super::expressions::check_expression_call;
use super::runs::run_survives;
use super::{Call, Outcome, refuse_each_growth, survives_refusals};
use cfg_expr::Expression;
use cfg_expr::error::{Failure, ParseError};
use cfg_expr::expr::Condition;
use cfg_expr::memory::SmallAllocator;
use cfgx_testing::checking::is_ok_true;
use cfgx_testing::faults::fault_matches;
use cfgx_testing::heap::{empty_heap, has_every_block};
use cfgx_testing::triples::IOS;
use std::alloc::{AllocError, Global};

/// The kind of the calls, the fault of the text or the number of its predicates, the text, and its
/// stripped text if that differs. An `evaluated` text is true if all its predicates are,
/// false if all are false, and has no predicate on targets.
pub(super) const TEXTS: &str = r#"
lexed | U[`<key>` `all` `any` `not`] at 2..3 | a 8 b
read | U[`<key>` `all` `any` `not`] at 2..3 | a 8 b
read | UnopenedParens at 3..4 | key)
read | UnclosedQuotes at 6..10 | key = "abc
read | U[`"<value>"`] at 5..5 | key =
read | U[] at 8..9 | unix = "x"
read | InvalidHasAtomic at 21..26 | target_has_atomic = "65536"
read | InvalidNot(2) at 0..17 | not(a, key = "v")
read | InvalidNot(2) at 0..9 | cfg(not(a, b)) | not(a, b)
read | MultipleRootPredicates at 0..10 | key1, key2
copied | 0 | all()
copied | 0 | cfg(all()) | all()
copied | 0 | cfg( all() ) |  all()\u{20}
copied | 1 | not(key = "v")
copied | 2 | cfg(any(unix, key = "\u{e9}",,),) | any(unix, key = "\u{e9}",,),
copied | 3 | all(feature = "a", not(unix), key = "v")
copied | 3 | any(target_pointer_width = "64", target_endian = "big", panic = "a")
copied | 8 | all(a, b, c, d, not(e), f, g, h)
evaluated | 1 | a
evaluated | 1 | cfg(key) | key
evaluated | 3 | all(a, any(b), c)
// Long texts. No run of the program reads a `parsed` text.
parsed | U[`<key>` `all` `any` `not`] at 100000..100001 | ~\u{20}~100000~8
read | U[`<key>` `all` `any` `not`] at 5000..5001 | ~\u{20}~5000~8
read | UnclosedQuotes at 0..5001 | "~v~5000~
read | UnclosedParens at 3..200 | ~not(~40~a~)~39~
copied | 80 | all(~key = "v", unix,~40~)
evaluated | 1 | ~k~1000~
evaluated | 1 | key = "~v~1000~"
evaluated | 80 | all(~any(a, b),~40~)
evaluated | 1 | ~not(~40~a~)~40~
evaluated | 1 | any(a,~false,~40~)
evaluated | 100 | any(~a,~100~)
evaluated | 1 | ~any(~100~a~)~100~
evaluated | 1 | ~not(~100~a~)~100~
evaluated | 1 | all(a,~true,~100~)
evaluated | 1 | any(a,~false,~100~)
// A `large` text is copied once, with no growth refused.
large | 1 | ~k~5000~
large | 1 | ~k~100000~
large | 50000 | any(~a,~50000~)
large | 1 | ~not(~50000~a~)~50000~
// Few nodes and many.
parsed | 1 | ~k~1~
parsed | 1 | ~k~48~
parsed | 1 | not(a)
parsed | 3 | all(a, b, c)
parsed | 3 | any(~target_os = "a",~3~)
parsed | 1 | any(a,~false,~3~)
parsed | 1 | any(a,~false,~4~)
parsed | 0 | any(~any(),    ~60~)
parsed | 0 | any(~any(),    ~4000~)
"#;

/// What `parse` returns.
pub(crate) type Parsed<A = Global> = Result<Expression<A>, Failure<A>>;

/// Returns whether both conditions have the same text and the same predicates in the same order.
pub(super) fn is_same_condition(one: &Condition<'_>, other: &Condition<'_>) -> bool {
    one.original() == other.original() && one.predicates().eq(other.predicates())
}

/// Returns whether both faults have the same text, span and reason.
pub(super) fn is_same_fault<A: SmallAllocator, B: SmallAllocator>(
    one: &ParseError<A>,
    other: &ParseError<B>,
) -> bool {
    one.original.as_str() == other.original.as_str()
        && one.span == other.span
        && one.reason == other.reason
}

// Makes the call on `expression` and checks its result. The expression must stay equal to
// `expected`.
fn check_unchanged<A: SmallAllocator>(
    alloc: A,
    call: &str,
    expression: &Expression<A>,
    expected: &Expression,
) -> Outcome {
    let outcome = check_expression_call(alloc, call, expression);
    if is_same_condition(&expression.condition(), &expected.condition()) {
        outcome
    } else {
        Ok(false)
    }
}

// Checks that `parsed` is equal to `expected`, and then the call on its expression. A faulty text
// has no expression, so the call is one that parses.
fn check_parsed<A: SmallAllocator>(
    alloc: A,
    call: &str,
    parsed: &Parsed<A>,
    expected: &Parsed,
) -> Outcome {
    match (parsed, expected) {
        (Ok(expression), Ok(expected)) => check_unchanged(alloc, call, expression, expected),
        (Err(Failure::Parse(error)), Err(Failure::Parse(expected))) => {
            Ok(is_same_fault(error, expected) && matches!(call, "parse" | "from_str"))
        }
        (Err(Failure::Memory(_)), _) => Err(AllocError),
        _ => Ok(false),
    }
}

/// Parses the text, by `from_str` if that is the call, and makes the call on its expression. Checks
/// both results. Parsing the text elsewhere returned `expected`.
pub(super) fn check_call<A: SmallAllocator>(
    alloc: A,
    call: &str,
    text: &str,
    expected: &Parsed,
) -> Outcome {
    let parsed = match call {
        "from_str" => Expression::from_str(alloc, text),
        _ => Expression::parse(alloc, text),
    };
    check_parsed(alloc, call, &parsed, expected)
}

// Returns whether `parsed` has the stripped text `original`, and the fault or the number of
// predicates that `wanted` says.
fn matches_row(global: Global, parsed: &Parsed, wanted: &str, original: &str) -> bool {
    match parsed {
        Ok(expression) => {
            expression.original() == original
                && wanted.parse::<usize>().ok() == Some(expression.predicates().left())
        }
        Err(Failure::Parse(error)) => fault_matches(global, error, original, wanted),
        Err(Failure::Memory(_)) => false,
    }
}

// Returns whether each of the calls survives refusals. Spaces separate the calls.
fn calls_survive(global: Global, calls: &str, text: &str, expected: &Parsed) -> bool {
    for call in calls.split(' ') {
        if !survives_refusals(global, Call::Text(call, text, expected)) {
            return false;
        }
    }
    true
}

// Returns whether runs of the program with `text` survive refusals and end with `status`. A flag
// that names nothing takes no memory, so another one stands behind `text`.
fn runs_survive(global: Global, text: &str, status: u8) -> bool {
    run_survives(global, &["parse", text], status)
        && run_survives(global, &["eval", text, "a"], status)
        && run_survives(global, &["eval", "a", text, "b"], status)
        && run_survives(global, &["target", IOS, text], status)
}

// Returns whether each of the calls, a reader and runs of the program survive refusals.
fn all_survive(global: Global, calls: &str, text: &str, expected: &Parsed) -> bool {
    let status = if expected.is_ok() { 0 } else { 1 };
    calls_survive(global, calls, text, expected)
        && refuse_each_growth(global, Call::Read(text, expected)).is_some()
        && runs_survive(global, text, status)
}

// Returns whether the expression of the text equals its copy, and every block is freed.
fn equals_copy(global: Global, text: &str, expected: &Parsed) -> bool {
    let heap = empty_heap(global);
    is_ok_true(check_call(&heap, "try_clone", text, expected)) & has_every_block(heap)
}

// The calls on an `evaluated` text.
const CALLS: &str = "parse from_str try_clone eval decide polar_fillings eval_lanes steps \
    Condition::eval Condition::decide Condition::polar_fillings Condition::eval_lanes \
    Condition::steps eval_over write_fillings Decider::decide audit pick";

// Returns whether the calls of a row of the kind `kind` pass their checks.
fn calls_pass(global: Global, kind: &str, text: &str, expected: &Parsed) -> bool {
    match kind {
        "lexed" => survives_refusals(global, Call::Lex(text)),
        "large" => equals_copy(global, text, expected),
        "parsed" => calls_survive(global, "parse from_str", text, expected),
        "read" => all_survive(global, "parse from_str", text, expected),
        "copied" => all_survive(global, "parse from_str try_clone", text, expected),
        "evaluated" => all_survive(global, CALLS, text, expected),
        _ => false,
    }
}

/// Returns whether the text of the row is parsed as the row says, and its calls pass their checks.
pub(super) fn row_passes(global: Global, fields: &[String]) -> bool {
    let (kind, wanted, text, original) = match fields {
        [kind, wanted, text] => (kind, wanted, text, text),
        [kind, wanted, text, original] => (kind, wanted, text, original),
        _ => return false,
    };
    let expected = Expression::parse(global, text.as_str());
    matches_row(global, &expected, wanted.as_str(), original.as_str())
        & calls_pass(global, kind.as_str(), text.as_str(), &expected)
}
