//! Evaluates conditions on targets, and compares the values with given digits: `1` is true, `0` is
//! false, and `?`, which counts as a digit here, is unknown. `eval` finds the value on one target
//! at a time, and in lanes the values on all targets at once. `pick` finds those on the built-in
//! targets.
use cfg_expr::error::Failure;
use cfg_expr::expr::logic::Kleene64;
use cfg_expr::expr::{Predicates, TargetMatcher};
use cfg_expr::targets::TargetInfo;
use cfg_expr::{Expression, Predicate};
use cfgx_engine::resolve::{Section, Verdict, pick};
use cfgx_testing::answers::{Answer, eval_in_lanes, in_each_lane, lanes_match_digits};
use cfgx_testing::checking::is_ok_true;
use cfgx_testing::rows::{Finding, compare, fail, require};
use cfgx_testing::targets::{builtin_rows, push_rows};
use cfgx_testing::triples::TRIPLES;
use std::alloc::{AllocError, Global};

// The targets that are made by hand: a bare one, iOS, two Windows targets with different vendors,
// and macOS.
const BY_HAND: &str = "bare
aarch64-apple-ios os=ios vendor=apple unix atomics
by-hand os=windows arch=x86 env=msvc vendor=pc windows bits=32
by-hand os=windows arch=x86 env=msvc vendor=uwp windows bits=32
aarch64-apple-darwin os=macos vendor=apple unix atomics
";

// Targets, as rows of a table of targets, and their one answer to each predicate that is not about
// targets.
#[derive(Clone, Copy)]
struct Targets<'a> {
    rows: &'a [TargetInfo<'a>],
    // The answer of each target to predicates that are not about targets
    otherwise: Answer,
}

// Returns the answer of `target` to `predicate`, or `otherwise` if `predicate` is not about
// targets.
fn answer_on<T: TargetMatcher>(predicate: &Predicate<'_>, target: &T, otherwise: Answer) -> Answer {
    match predicate {
        Predicate::Target(asked) => Some(asked.matches(target)),
        _ => otherwise,
    }
}

// Returns the answers of at most 64 targets to `predicate`, in lanes. Each lane is `otherwise` if
// there are more targets, or if `predicate` is not about targets.
fn lanes_on(predicate: &Predicate<'_>, targets: Targets<'_>) -> Kleene64 {
    match predicate {
        Predicate::Target(asked) if targets.rows.len() <= 64 => asked.lanes(targets.rows),
        _ => in_each_lane(targets.otherwise),
    }
}

// Returns what `lanes_on` returns for `predicate`, and drops `predicate`.
fn lanes_on_owned(predicate: Predicate<'_>, targets: Targets<'_>) -> Kleene64 {
    let lanes = lanes_on(&predicate, targets);
    // `drop` is called explicitly; `docs/PROVING.md` says why, under "Owned values".
    drop(predicate);
    lanes
}

// Returns what `lanes_on` returns for each of `predicates`.
fn answers_on(
    alloc: Global,
    predicates: Predicates<'_>,
    targets: Targets<'_>,
) -> Result<Vec<Kleene64>, AllocError> {
    let mut answers = Vec::new(alloc);
    for predicate in predicates {
        answers.push(lanes_on_owned(predicate, targets))?;
    }
    Ok(answers)
}

// Returns the digit of `value`.
fn digit_of(value: Answer) -> char {
    match value {
        Some(true) => '1',
        Some(false) => '0',
        None => '?',
    }
}

// Returns the digits of the values of `expression` on the targets, by `eval`.
fn eval_digits(
    alloc: Global,
    expression: &Expression,
    targets: Targets<'_>,
) -> Result<String, AllocError> {
    let Targets { rows, otherwise } = targets;
    let mut digits = String::new(alloc);
    for row in rows {
        let mut answer = |predicate: &Predicate<'_>| answer_on(predicate, row, otherwise);
        digits.push(digit_of(expression.eval(alloc, &mut answer)?))?;
    }
    Ok(digits)
}

// Returns whether the values of `expression` in lanes, by `eval` and by `eval_in_lanes`, are the
// same and match `digits`.
fn lanes_match(
    alloc: Global,
    expression: &Expression,
    targets: Targets<'_>,
    digits: &[u8],
) -> Result<bool, AllocError> {
    let mut answer = |predicate: &Predicate<'_>| lanes_on(predicate, targets);
    let value = expression.eval(alloc, &mut answer)?;
    let answers = answers_on(alloc, expression.predicates(), targets)?;
    let in_lanes = eval_in_lanes(alloc, expression, answers.as_slice());
    Ok(in_lanes == Some(value) && lanes_match_digits(value, digits))
}

// Compares the values of `expression` with `digits`, which has one digit for each target and one
// more for all unused lanes.
fn compare_values(
    alloc: Global,
    expression: &Expression,
    targets: Targets<'_>,
    digits: &str,
) -> Finding {
    let count = targets.rows.len();
    let on_targets = digits.get(..count).unwrap_or("");
    compare(alloc, eval_digits(alloc, expression, targets), on_targets)?;
    let is_right = digits.len() == count.saturating_add(1)
        && is_ok_true(lanes_match(alloc, expression, targets, digits.as_bytes()));
    require(alloc, is_right, "other values in lanes")
}

// Compares the values of the condition `text` with `digits`.
fn compare_text(alloc: Global, targets: Targets<'_>, text: &str, digits: &str) -> Finding {
    match Expression::parse(alloc, text) {
        Ok(expression) => compare_values(alloc, &expression, targets, digits),
        Err(_) => fail(alloc, "a fault, or out of memory"),
    }
}

// Returns a section whose name and condition are `text`.
fn section_of(alloc: Global, text: &str) -> Result<Section, Failure> {
    let name = String::from_str(alloc, text)?;
    let condition = Expression::parse(alloc, text)?;
    Ok(Section { name, condition })
}

// Returns the digit of the single verdict in `verdicts`, or `x` if `verdicts` does not have exactly
// one item.
fn digit_of_verdict(verdicts: &[Verdict]) -> char {
    match verdicts {
        [verdict] => digit_of(match verdict {
            Verdict::Yes => Some(true),
            Verdict::No => Some(false),
            Verdict::Unknown => None,
        }),
        _ => 'x',
    }
}

// Returns the digit of the verdict of each target on the single section in `sections`, by `pick`.
fn pick_digits(
    alloc: Global,
    sections: &[Section],
    rows: &[TargetInfo<'_>],
) -> Result<String, AllocError> {
    let mut digits = String::new(alloc);
    for row in rows {
        let verdicts = pick(alloc, sections, row)?;
        digits.push(digit_of_verdict(verdicts.as_slice()))?;
    }
    Ok(digits)
}

// Returns the digit of the verdict of each target on a section with the condition `text`.
fn parse_and_pick_digits(
    alloc: Global,
    rows: &[TargetInfo<'_>],
    text: &str,
) -> Result<String, Failure> {
    let section = section_of(alloc, text)?;
    let mut sections = Vec::new(alloc);
    sections.push(section)?;
    Ok(pick_digits(alloc, sections.as_slice(), rows)?)
}

// Compares the values of `text` with `digits`, and the verdicts on it with all digits but the last.
fn compare_text_and_verdicts(
    alloc: Global,
    rows: &[TargetInfo<'_>],
    text: &str,
    digits: &str,
) -> Finding {
    let targets = Targets {
        rows,
        otherwise: None,
    };
    compare_text(alloc, targets, text, digits)?;
    compare(
        alloc,
        parse_and_pick_digits(alloc, rows, text),
        digits.get(..rows.len()).unwrap_or(""),
    )
}

/// Compares the values of `text` and the verdicts on it, both on the targets of `TRIPLES`, with
/// `digits`. Predicates that are not about targets are unknown.
pub(super) fn finding_on_built_in(alloc: Global, text: &str, digits: &str) -> Finding {
    match builtin_rows(alloc, TRIPLES) {
        Ok(rows) => compare_text_and_verdicts(alloc, rows.as_slice(), text, digits),
        Err(_) => fail(alloc, "out of memory"),
    }
}

// Returns the targets that are made by hand.
fn rows_by_hand(alloc: Global) -> Result<Vec<TargetInfo<'static>>, AllocError> {
    let mut rows: Vec<TargetInfo<'static>> = Vec::new(alloc);
    let pushed = push_rows(alloc, &mut rows, BY_HAND);
    // No `?` here: `docs/PROVING.md` says why, under "Owned values".
    pushed.and(Ok(rows))
}

/// Compares `digits` with the values of `text` on the targets that are made by hand. Predicates
/// that are not about targets are true.
pub(super) fn finding_on_hand_made(alloc: Global, text: &str, digits: &str) -> Finding {
    match rows_by_hand(alloc) {
        Ok(rows) => {
            let targets = Targets {
                rows: rows.as_slice(),
                otherwise: Some(true),
            };
            compare_text(alloc, targets, text, digits)
        }
        Err(_) => fail(alloc, "out of memory"),
    }
}

/// Compares the value of `text` in the unused lanes with `digits`. Without targets, all lanes are
/// unused.
pub(super) fn finding_without_targets(alloc: Global, text: &str, digits: &str) -> Finding {
    let targets = Targets {
        rows: &[],
        otherwise: None,
    };
    compare_text(alloc, targets, text, digits)
}
