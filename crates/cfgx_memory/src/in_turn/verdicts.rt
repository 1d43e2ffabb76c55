//! The verdicts of a `Decider`, `audit` and `pick` on targets that meet no predicate.
use super::expressions::is_polar;
use super::{AllocResult, Outcome, combine};
use cfg_expr::expr::TargetMatcher;
use cfg_expr::memory::SmallAllocator;
use cfg_expr::{Expression, TargetPredicate};
use cfgx_engine::resolve::{Decider, Section, Verdict, audit, pick};
use std::alloc::{AllocError, Global};

/// A target that meets no predicate.
#[derive(Clone, Copy)]
pub(crate) struct Nowhere;

impl TargetMatcher for Nowhere {
    ghost use Rattle.std.specs.Prelude.{false};

    ghost answer = { λ _ _. false };

    fn matches(&self, _predicate: &TargetPredicate<'_>) -> bool {
        false
    }
}

/// Checks the decision on a target. The expression has no predicate on targets. Out of memory no
/// answer is left.
pub(super) fn check_decider<A: SmallAllocator>(alloc: A, expression: &Expression<A>) -> Outcome {
    let mut decider = Decider::new(alloc);
    match decider.decide(&expression.condition(), &Nowhere) {
        Ok(()) => Ok(is_polar(&decider.decision, decider.answers.len())),
        Err(_) if decider.answers.is_empty() => Err(AllocError),
        Err(_) => Ok(false),
    }
}

/// Checks that `items` equal `wanted`.
pub(super) fn check_items<T: PartialEq + Drop, A: SmallAllocator>(
    items: &AllocResult<Vec<T, A>>,
    wanted: &[T],
) -> Outcome {
    match items {
        Ok(items) => Ok(items.as_slice() == wanted),
        Err(_) => Err(AllocError),
    }
}

/// Checks that the verdict on each of 65 targets is unknown.
pub(super) fn check_audit<A: SmallAllocator>(alloc: A, expression: &Expression<A>) -> Outcome {
    let verdicts = audit(alloc, expression, &[Nowhere; 65]);
    check_items(&verdicts, [Verdict::Unknown; 65].as_slice())
}

// Makes a section whose name is its condition.
fn section<A: SmallAllocator>(alloc: A, text: &str) -> AllocResult<Section<A>> {
    let name = String::from_str(alloc, text)?;
    match Expression::parse(alloc, text) {
        Ok(condition) => Ok(Section { name, condition }),
        Err(_) => Err(AllocError),
    }
}

// Makes a section for each text.
fn sections<A: SmallAllocator>(alloc: A, texts: &[&str]) -> AllocResult<Vec<Section<A>, A>> {
    let mut sections = Vec::new(alloc);
    for text in texts {
        sections.push(section(alloc, text)?)?;
    }
    Ok(sections)
}

// Returns whether the sections are those of the texts, in order.
fn have_texts<A: SmallAllocator>(sections: &[Section<A>], texts: &[&str]) -> bool {
    for (section, text) in sections.iter().zip(texts) {
        if section.name.as_str() != *text || section.condition.original() != *text {
            return false;
        }
    }
    sections.len() == texts.len()
}

// Checks the verdicts on the sections of the three texts. The sections must stay as they were, also
// out of memory.
fn check_verdicts<A: SmallAllocator>(
    alloc: A,
    sections: &[Section<A>],
    texts: &[&str; 3],
) -> Outcome {
    let wanted = [Verdict::Unknown, Verdict::No, Verdict::Yes];
    let outcome = check_items(&pick(alloc, sections, &Nowhere), wanted.as_slice());
    if have_texts(sections, texts) {
        outcome
    } else {
        Ok(false)
    }
}

// Checks the verdicts on the sections twice.
fn check_verdicts_twice<A: SmallAllocator>(
    alloc: A,
    sections: &[Section<A>],
    texts: &[&str; 3],
) -> Outcome {
    let first = check_verdicts(alloc, sections, texts);
    combine(&[first, check_verdicts(alloc, sections, texts)])
}

/// Checks `pick` of a section that is unknown, one that is not taken, and one that is.
pub(super) fn check_pick<A: SmallAllocator>(alloc: A, unknown: &str) -> Outcome {
    let texts = [unknown, "windows", "not(windows)"];
    let sections = sections(alloc, &texts)?;
    check_verdicts_twice(alloc, sections.as_slice(), &texts)
}
