//! Conditions on any number of targets and sections, by the calls that take many at once. A NUL
//! separates the words of a field.
use cfg_expr::Expression;
use cfg_expr::error::Failure;
use cfg_expr::targets::TargetInfo;
use cfgx_engine::resolve::{Facts, FactsError, Otherwise, Section, Verdict, audit_facts, pick};
use cfgx_testing::answers::{Answer, answer_of};
use cfgx_testing::rows::{Finding, require};
use cfgx_testing::targets::bare;
use cfgx_testing::words::words_of;
use std::alloc::Global;
use std::slice::from_ref;

// Returns the facts. Both constructors read those of a row alike, and take turns.
fn read_facts(alloc: Global, facts: &[&str], number: usize) -> Result<Facts, FactsError> {
    if number % 2 == 0 {
        Facts::from_flags(alloc, facts)
    } else {
        Facts::from_rustc(alloc, facts)
    }
}

// Returns `count` targets with these facts. Returns `None` if one is faulty or memory runs out.
fn targets_with(alloc: Global, facts: &[&str], count: usize) -> Option<Vec<Facts>> {
    let mut targets = Vec::new(alloc);
    for number in 0..count {
        let facts = read_facts(alloc, facts, number).ok()?;
        targets.push(facts).ok()?;
    }
    Some(targets)
}

// Returns whether there are `count` values, and each is `wanted`.
fn are_all<T: PartialEq>(values: &[T], wanted: &T, count: usize) -> bool {
    for value in values {
        if value != wanted {
            return false;
        }
    }
    values.len() == count
}

// Returns whether each condition has the value of `digit` on each of `count` targets with these
// facts, if what no fact names is false. Returns `None` if a field is faulty, or memory runs out.
fn audit_finds(
    alloc: Global,
    facts: &[&str],
    count: &str,
    texts: &[&str],
    digit: &str,
) -> Option<bool> {
    let count = count.parse::<usize>().ok()?;
    let wanted = answer_of(*digit.as_bytes().first()?)?;
    let targets = targets_with(alloc, facts, count)?;
    let values = audit_facts(alloc, texts, targets.as_slice(), Otherwise::False).ok()?;
    Some(are_all(values.as_slice(), &wanted, count.checked_mul(texts.len())?))
}

/// Checks an audit of the conditions on targets with these facts.
pub(super) fn finding_by_facts(
    alloc: Global,
    facts: &String,
    count: &str,
    texts: &String,
    digit: &str,
) -> Finding {
    let is_right = match (
        words_of(alloc, from_ref(facts)),
        words_of(alloc, from_ref(texts)),
    ) {
        (Ok(facts), Ok(texts)) => {
            audit_finds(alloc, facts.as_slice(), count, texts.as_slice(), digit)
        }
        _ => None,
    };
    require(
        alloc,
        is_right == Some(true),
        "another value, a fault, or out of memory",
    )
}

// Returns `count` sections with the condition `text`.
fn sections_with(alloc: Global, text: &str, count: usize) -> Option<Vec<Section>> {
    let mut sections = Vec::new(alloc);
    for _section in 0..count {
        let section = section_with(alloc, text).ok()?;
        sections.push(section).ok()?;
    }
    Some(sections)
}

// Returns a section with the condition `text` and no name.
fn section_with(alloc: Global, text: &str) -> Result<Section, Failure> {
    let name = String::new(alloc);
    let condition = Expression::parse(alloc, text)?;
    Ok(Section { name, condition })
}

// Returns whether each of `count` sections has the verdict of `digit` on the target.
fn pick_finds(
    alloc: Global,
    count: &str,
    text: &str,
    target: &TargetInfo<'_>,
    digit: &str,
) -> Option<bool> {
    let count = count.parse::<usize>().ok()?;
    let wanted = Verdict::from(answer_of(*digit.as_bytes().first()?)?);
    let sections = sections_with(alloc, text, count)?;
    let verdicts = pick(alloc, sections.as_slice(), target).ok()?;
    Some(are_all(verdicts.as_slice(), &wanted, count))
}

/// Checks `pick` of sections with one condition, on a bare target.
pub(super) fn finding_of_sections(alloc: Global, count: &str, text: &str, digit: &str) -> Finding {
    let target = bare("bare");
    let is_right = pick_finds(alloc, count, text, &target, digit) == Some(true);
    require(
        alloc,
        is_right,
        "another verdict, a fault, or out of memory",
    )
}
