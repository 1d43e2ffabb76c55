//! Audits by facts. If an audit is out of memory, its index is that of the text at which a growth
//! was refused.
use super::Outcome;
use super::verdicts::check_items;
use cfg_expr::Expression;
use cfg_expr::error::Failure;
use cfg_expr::memory::SmallAllocator;
use cfgx_engine::resolve::{
    AuditError, Facts, FactsError, Otherwise, audit_conditions, audit_facts,
};
use cfgx_testing::answers::{Answer, answer_of};
use cfgx_testing::heap::{Heap, count_growths};
use std::alloc::{AllocError, Global};

/// Texts, each with a digit for its value on a target with the fact `a`.
pub(super) const AUDITED: &str = r#"
a | 1 | all(b, any(a), not(a), c, d, e, f, g, h) | 0
all(a, not(b)) | 1 | b | 0 | any(a, b, c, d, e, f) | 1
~not(~40~a~)~40~ | 1 | a | 1 | any(~b,~100~a) | 1 | a | 1
"#;

/// An audit: its texts, their values on one target, and the numbers of growths of the audits of the
/// first text, of the first two, and so on.
#[derive(Clone, Copy)]
struct Audit<'a> {
    texts: &'a [&'a str],
    values: &'a [Answer],
    growths: &'a [u64],
}

// Returns the index of the text that takes the growth with the number `growth`.
fn index_of(growths: &[u64], growth: u64) -> usize {
    let mut index = 0usize;
    for before in growths {
        if growth > *before {
            index = index.saturating_add(1);
        }
    }
    index
}

// Returns a list of one target with the fact `a`.
fn one_target<A: SmallAllocator>(alloc: A) -> Result<Vec<Facts<A>, A>, FactsError<A>> {
    let mut targets = Vec::new(alloc);
    let facts = Facts::from_flags(alloc, &["a"])?;
    match targets.push(facts) {
        Ok(()) => Ok(targets),
        Err(_) => Err(FactsError::Memory(AllocError)),
    }
}

// Checks the values of the audit on the targets. `asked` is the number of growths before the check.
fn check_on<A: SmallAllocator>(
    heap: Heap<'_>,
    alloc: A,
    audit: Audit<'_>,
    targets: &[Facts<A>],
    asked: u64,
) -> Outcome {
    match audit_facts(alloc, audit.texts, targets, Otherwise::False) {
        Ok(values) => Ok(values.as_slice() == audit.values),
        Err(
            AuditError {
                index,
                failure: Failure::Memory(error),
            },
        ) => {
            let growth = heap.asked_growths().saturating_sub(asked);
            if index == index_of(audit.growths, growth) {
                Err(error)
            } else {
                Ok(false)
            }
        }
        Err(_) => Ok(false),
    }
}

// Makes a target, and checks the audit on it.
fn check_audit<A: SmallAllocator>(heap: Heap<'_>, alloc: A, audit: Audit<'_>) -> Outcome {
    let asked = heap.asked_growths();
    match &one_target(alloc) {
        Ok(targets) => check_on(heap, alloc, audit, targets.as_slice(), asked),
        Err(_) => Err(AllocError),
    }
}

// Checks the value of a condition that is read already on the targets.
fn check_audited<A: SmallAllocator>(
    alloc: A,
    value: Answer,
    expression: &Expression<A>,
    targets: &[Facts<A>],
) -> Outcome {
    let conditions = [expression.condition()];
    let found = audit_conditions(alloc, &conditions, targets, Otherwise::False);
    check_items(&found, &[value])
}

/// Checks that the condition has the value of the digit on a target with the fact `a`.
pub(super) fn check_condition<A: SmallAllocator>(alloc: A, digit: &str, text: &str) -> Outcome {
    let Some(value) = digit.as_bytes().first().copied().and_then(answer_of) else {
        return Ok(false);
    };
    match (&Expression::parse(alloc, text), &one_target(alloc)) {
        (Ok(expression), Ok(targets)) => {
            check_audited(alloc, value, expression, targets.as_slice())
        }
        _ => Err(AllocError),
    }
}

// Returns the number of growths that an audit of the first `count` texts takes, if each growth
// after the last one of `growths` is one at the last text.
fn growths_of(
    global: Global,
    texts: &[&str],
    values: &[Answer],
    growths: &[u64],
    count: usize,
) -> Option<u64> {
    let audit = Audit {
        texts: texts.get(..count)?,
        values: values.get(..count)?,
        growths,
    };
    let found = count_growths(global, |heap| check_audit(heap, heap, audit))?;
    (growths.last().copied().unwrap_or(0) < found).then_some(found)
}

// Returns whether audits of the first text, of the first two, and so on, pass their checks.
fn audits_pass(global: Global, texts: &[&str], values: &[Answer]) -> Option<bool> {
    let mut growths = Vec::new(global);
    for count in 1..texts.len().saturating_add(1) {
        let found = growths_of(global, texts, values, growths.as_slice(), count)?;
        growths.push(found).ok()?;
    }
    Some(texts.len() > 1)
}

// Returns the texts and the values of a row.
fn texts_and_values(global: Global, row: &[String]) -> Option<(Vec<&str>, Vec<Answer>)> {
    let (mut texts, mut values) = (Vec::new(global), Vec::new(global));
    for pair in row.chunks(2) {
        let [text, digit] = pair else {
            return None;
        };
        texts.push(text.as_str()).ok()?;
        values.push(answer_of(*digit.as_bytes().first()?)?).ok()?;
    }
    Some((texts, values))
}

/// Returns whether audits of the texts of the row find its values, and end at the right index if
/// they are out of memory.
pub(super) fn row_passes(global: Global, row: &[String]) -> bool {
    match texts_and_values(global, row) {
        Some((texts, values)) => {
            audits_pass(global, texts.as_slice(), values.as_slice()) == Some(true)
        }
        None => false,
    }
}
