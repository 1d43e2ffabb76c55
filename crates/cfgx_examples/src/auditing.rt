//! Tests that a condition has the same value on a target by `eval`, in a lane and by `audit`.
use crate::calling::rows::eval_on_rows;
use cfg_expr::expr::logic::Kleene64;
use cfg_expr::targets::{TargetInfo, Triple};
use cfg_expr::{Expression, Predicate};
use cfgx_engine::resolve::{Verdict, audit};
use cfgx_testing::answers::{Answer, answer_of};
use cfgx_testing::checking::{assign_ok, is_ok_true, push_ok};
use cfgx_testing::targets::builtin_rows;
use cfgx_testing::triples::TRIPLES;
use std::alloc::{AllocError, Global};

/// A row is a condition, and its value on each target of `TRIPLES` as a digit: `1` for true, `0`
/// for false and `?`, which counts as a digit here, for unknown. The targets are macOS, iOS, Mac
/// Catalyst, the simulator of iOS, and tvOS, in this order.
pub const AUDITED: &str = r#"
target_abi = "sim" | 00010
any(target_abi = "sim", target_os = "macos") | 10010
not(any(target_os = "ios", target_os = "tvos")) | 10000
all(target_os = "ios", feature = "x") | 0???0
any(target_env = "macabi", all(unix, not(test))) | ??1??
all() | 11111
"#;

// The number of targets.
const TARGET_COUNT: usize = 600;

// Returns the triple `target-<number>`.
fn numbered_triple<'a>(alloc: Global, number: usize) -> Result<Triple<'a>, AllocError> {
    let text = format!(in alloc; "target-{number}")?;
    Ok(Triple::new(text))
}

// Sets the triple of the last target to `target-<number>`.
fn number_last(
    alloc: Global,
    targets: &mut [TargetInfo<'_>],
    number: usize,
) -> Result<(), AllocError> {
    match targets.last_mut() {
        Some(target) => assign_ok(&mut target.triple, numbered_triple(alloc, number)),
        None => Ok(()),
    }
}

// Pushes targets with the triples `target-0`, `target-1` and so on. Their other fields are those of
// `models` in turn.
fn push_numbered<'a>(
    alloc: Global,
    models: &[TargetInfo<'a>],
    targets: &mut Vec<TargetInfo<'a>>,
) -> Result<(), AllocError> {
    for number in 0..TARGET_COUNT {
        if let Some(model) = models.get(number % TRIPLES.len()) {
            push_ok(targets, model.try_clone(alloc))?;
            number_last(alloc, targets.as_mut_slice(), number)?;
        }
    }
    Ok(())
}

// Returns targets with the triples `target-0`, `target-1` and so on. Their other fields are those
// of the targets of `TRIPLES` in turn.
fn numbered_targets(alloc: Global) -> Result<Vec<TargetInfo<'static>>, AllocError> {
    let models: Vec<TargetInfo<'static>> = builtin_rows(alloc, TRIPLES)?;
    let mut targets: Vec<TargetInfo<'static>> = Vec::new(alloc);
    push_numbered(alloc, models.as_slice(), &mut targets)?;
    Ok(targets)
}

// Returns whether there are `TARGET_COUNT` targets, and targets 0, 129 and 599 have the right
// triples. Target 129 is the last of those that are tested in lanes.
fn are_numbered(targets: &[TargetInfo<'_>]) -> bool {
    let triple_at = |index: usize| targets.get(index).map(|target| target.triple.as_str());
    triple_at(0) == Some("target-0")
        && triple_at(129) == Some("target-129")
        && triple_at(599) == Some("target-599")
        && targets.len() == TARGET_COUNT
}

// Returns the answer of `target` to `predicate`. Predicates that are not about targets are unknown.
fn answer_on(predicate: &Predicate<'_>, target: &TargetInfo<'_>) -> Answer {
    match predicate {
        Predicate::Target(asked) => Some(asked.matches(target)),
        _ => None,
    }
}

// Returns the value of `expression` on `target`.
fn value_on(
    alloc: Global,
    expression: &Expression,
    target: &TargetInfo<'_>,
) -> Result<Answer, AllocError> {
    expression.eval(
        alloc,
        &mut |predicate: &Predicate<'_>| answer_on(predicate, target),
    )
}

// Returns whether `value` is the value of `expression` on `target`, or true if there is no target.
fn is_value_on(
    alloc: Global,
    expression: &Expression,
    target: Option<&TargetInfo<'_>>,
    value: Answer,
) -> bool {
    match target {
        Some(target) => value_on(alloc, expression, target) == Ok(value),
        None => true,
    }
}

// Returns whether each lane of `lanes` is the value of `expression` on the target with its index.
fn lanes_are_values(
    alloc: Global,
    expression: &Expression,
    targets: &[TargetInfo<'_>],
    lanes: Kleene64,
) -> bool {
    for i in 0..64 {
        if !is_value_on(alloc, expression, targets.get(i), lanes.lane(i)) {
            return false;
        }
    }
    true
}

// Returns whether the lanes of `expression` on at most 64 `targets` are its values by `eval`.
fn lanes_agree(alloc: Global, expression: &Expression, targets: &[TargetInfo<'_>]) -> bool {
    match eval_on_rows(alloc, expression, targets) {
        Ok(Some(lanes)) => lanes_are_values(alloc, expression, targets, lanes),
        _ => false,
    }
}

// Returns whether the lanes of `expression` on the first 130 targets, in chunks of 64, 64 and 2,
// are its values by `eval`.
fn lanes_agree_in_chunks(
    alloc: Global,
    expression: &Expression,
    targets: &[TargetInfo<'_>],
) -> bool {
    let Some(first) = targets.get(..130) else {
        return false;
    };
    for chunk in first.chunks(64) {
        if !lanes_agree(alloc, expression, chunk) {
            return false;
        }
    }
    true
}

// Returns the verdict for `value`.
fn verdict_of(value: Answer) -> Verdict {
    match value {
        Some(true) => Verdict::Yes,
        Some(false) => Verdict::No,
        None => Verdict::Unknown,
    }
}

// Returns whether `verdict` is the verdict for `digit`, and for the value of `expression` on
// `target`.
fn verdict_agrees(
    alloc: Global,
    expression: &Expression,
    target: &TargetInfo<'_>,
    verdict: Verdict,
    digit: Option<u8>,
) -> bool {
    digit.and_then(answer_of).map(verdict_of) == Some(verdict)
        && value_on(alloc, expression, target).map(verdict_of) == Ok(verdict)
}

// Returns whether there is one verdict for each target, and each is the verdict for the digit of
// its target and for the value on it. The digits repeat, as the targets do.
fn verdicts_agree(
    alloc: Global,
    expression: &Expression,
    targets: &[TargetInfo<'_>],
    verdicts: &[Verdict],
    digits: &[u8],
) -> bool {
    for (number, target) in targets.iter().enumerate() {
        let digit = digits.get(number % TRIPLES.len()).copied();
        let Some(verdict) = verdicts.get(number) else {
            return false;
        };
        if !verdict_agrees(alloc, expression, target, *verdict, digit) {
            return false;
        }
    }
    verdicts.len() == targets.len()
}

// Returns whether an audit of `targets` agrees with `eval` and with `digits`.
fn audit_agrees(
    alloc: Global,
    expression: &Expression,
    targets: &[TargetInfo<'_>],
    digits: &[u8],
) -> bool {
    match audit(alloc, expression, targets) {
        Ok(verdicts) => verdicts_agree(alloc, expression, targets, verdicts.as_slice(), digits),
        Err(_) => false,
    }
}

// Returns whether audits of the first 0, 1, 64, 65 and 130 targets, and of all, agree with `eval`
// and with `digits`.
fn audits_agree(
    alloc: Global,
    expression: &Expression,
    targets: &[TargetInfo<'_>],
    digits: &[u8],
) -> bool {
    for count in [0, 1, 64, 65, 130, TARGET_COUNT] {
        let Some(first) = targets.get(..count) else {
            return false;
        };
        if !audit_agrees(alloc, expression, first, digits) {
            return false;
        }
    }
    true
}

// Returns whether the lanes of `expression` agree with `eval`, and its audits with `eval` and with
// `digits`.
fn agrees_with_digits(
    alloc: Global,
    expression: &Expression,
    digits: &[u8],
) -> Result<bool, AllocError> {
    let targets = numbered_targets(alloc)?;
    let targets = targets.as_slice();
    Ok(
        are_numbered(targets)
            && lanes_agree_in_chunks(alloc, expression, targets)
            && audits_agree(alloc, expression, targets, digits),
    )
}

/// Returns whether the condition of `row` has the values of its digits, and there is one digit for
/// each target of `TRIPLES`.
pub fn row_is_right(alloc: Global, row: &[String]) -> bool {
    let [condition, digits] = row else {
        return false;
    };
    if digits.len() != TRIPLES.len() {
        return false;
    }
    match Expression::parse(alloc, condition.as_str()) {
        Ok(expression) => is_ok_true(agrees_with_digits(alloc, &expression, digits.as_bytes())),
        Err(_) => false,
    }
}
