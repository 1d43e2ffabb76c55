//! Tests that conditions have their values on targets that are known by their facts.
use cfg_expr::Expression;
use cfg_expr::error::Failure;
use cfgx_engine::resolve::{AuditError, Facts, Otherwise, audit_conditions, audit_facts};
use cfgx_testing::answers::{Answer, answer_of};
use std::alloc::Global;

/// The facts of three targets. A fact that no condition can ask is passed over. Some facts name a
/// predicate again, or name one that is true on another target as unknown.
const FACTS: &[&[&str]] = &[
    &[
        "unix",
        "target_os = \"linux\"",
        "target_has_atomic",
        "?feature = \"y\"",
        "?feature = \"z\"",
        "unix",
        "?feature = \"z\"",
    ],
    &[
        "windows",
        "target_os = \"windows\"",
        "target_future = \"1\"",
        "feature = \"x\"",
        "feature = \"z\"",
        "?feature = \"w\"",
        "feature = \"w\"",
    ],
    &[],
];

/// A row is a condition, and its value on each target of `FACTS` as a digit, as in `AUDITED`: first
/// if what no fact names is false, and then if it is unknown where it is not on the target.
pub const AUDITED_BY_FACTS: &str = r#"
unix | 100 | 100
any(windows, target_os = "linux") | 110 | 110
feature = "x" | 010 | ?1?
feature = "y" | ?00 | ???
feature = "z" | ?10 | ?1?
feature = "w" | 010 | ?1?
all(unix, feature = "z") | ?00 | ?00
not(any(feature = "z", feature = "w")) | ?01 | ?0?
not(any(windows, feature = "x")) | 101 | ?0?
all(unix, any(feature = "y", target_os = "linux")) | 100 | 100
target_has_atomic = "8" | 000 | 000
all() | 111 | 111
any() | 000 | 000
"#;

// Returns `count` targets, with the facts of `FACTS` in turn.
fn targets_with_facts(alloc: Global, count: usize) -> Option<Vec<Facts>> {
    let mut targets = Vec::new(alloc);
    for number in 0..count {
        let lines = FACTS.get(number % 3)?;
        let facts = Facts::from_rustc(alloc, lines).ok()?;
        targets.push(facts).ok()?;
    }
    Some(targets)
}

// Returns whether there are `count` values, and each is that of its digit. The digits repeat, as
// the targets do.
fn are_values(values: Option<&[Answer]>, count: usize, digits: &[u8]) -> bool {
    let Some(values) = values else {
        return false;
    };
    for (number, value) in values.iter().enumerate() {
        let digit = digits.get(number % 3).copied();
        if digit.and_then(answer_of) != Some(*value) {
            return false;
        }
    }
    values.len() == count
}

// Returns whether an audit of both conditions finds these values.
fn conditions_agree(
    alloc: Global,
    one: &Expression,
    other: &Expression,
    targets: &[Facts],
    otherwise: Otherwise,
    values: &[Answer],
) -> bool {
    match audit_conditions(
        alloc,
        &[one.condition(), other.condition()],
        targets,
        otherwise,
    ) {
        Ok(found) => found.as_slice() == values,
        Err(_) => false,
    }
}

// Returns whether an audit of `text` and of `all()` on `count` targets finds the values of
// `digits`, and then as many true values, also if both are read already.
fn audit_agrees(
    alloc: Global,
    text: &str,
    count: usize,
    otherwise: Otherwise,
    digits: &[u8],
) -> Option<bool> {
    let targets = targets_with_facts(alloc, count)?;
    let found = audit_facts(alloc, &[text, "all()"], targets.as_slice(), otherwise).ok()?;
    let values = found.as_slice();
    let (one, other) = (
        Expression::parse(alloc, text).ok()?,
        Expression::parse(alloc, "all()").ok()?,
    );
    Some(
        are_values(values.get(..count), count, digits)
            && are_values(values.get(count..), count, b"111")
            && conditions_agree(alloc, &one, &other, targets.as_slice(), otherwise, values),
    )
}

// Returns whether audits on 0, 1, 64, 65 and 130 targets find the values of `digits`.
fn audits_agree(alloc: Global, text: &str, otherwise: Otherwise, digits: &[u8]) -> bool {
    for count in [0, 1, 64, 65, 130] {
        if audit_agrees(alloc, text, count, otherwise, digits) != Some(true) {
            return false;
        }
    }
    digits.len() == FACTS.len()
}

// Returns whether an audit of `all()` and a faulty text ends at index 1.
fn ends_at_fault(alloc: Global) -> bool {
    match audit_facts(alloc, &["all()", "any("], &[], Otherwise::False) {
        Err(
            AuditError {
                index,
                failure: Failure::Parse(_),
            },
        ) => index == 1,
        _ => false,
    }
}

/// Returns whether the condition of `row` has the values of its digits, and an audit ends at a
/// faulty text.
pub fn row_is_right(alloc: Global, row: &[String]) -> bool {
    let [condition, if_false, if_unknown] = row else {
        return false;
    };
    ends_at_fault(alloc)
        && audits_agree(
            alloc,
            condition.as_str(),
            Otherwise::False,
            if_false.as_bytes(),
        )
        && audits_agree(
            alloc,
            condition.as_str(),
            Otherwise::Unknown,
            if_unknown.as_bytes(),
        )
}
