//! How often `audit`, a `Decider` and `pick` ask a target: once for each occurrence of a predicate
//! on the target, whatever the target answers.
use crate::checking::is_ok_true;
use crate::targets::bare;
use cfg_expr::error::Failure;
use cfg_expr::expr::TargetMatcher;
use cfg_expr::targets::{Os, TargetInfo};
use cfg_expr::{Decision, Expression, TargetPredicate};
use cfgx_engine::resolve::{Decider, Section, Verdict, audit, pick};
use std::alloc::{AllocError, Global};
use std::cell::Cell;

/// A target that meets each predicate.
#[derive(Drop)]
struct Everything;

impl TargetMatcher for Everything {
    ghost use Rattle.std.specs.Prelude.{true};

    ghost answer = { λ _ _. true };

    fn matches(&self, _predicate: &TargetPredicate<'_>) -> bool {
        true
    }
}

/// A target that meets no predicate.
#[derive(Drop)]
struct Nothing;

impl TargetMatcher for Nothing {
    ghost use Rattle.std.specs.Prelude.{false};

    ghost answer = { λ _ _. false };

    fn matches(&self, _predicate: &TargetPredicate<'_>) -> bool {
        false
    }
}

// Returns a target whose `os` is `here`.
fn target_here() -> TargetInfo<'static> {
    let mut target: TargetInfo<'static> = bare("here");
    target.os = Some(Os::new_const("here"));
    target
}

/// A target, and how often it was asked.
#[derive(Drop)]
struct Counting<'t, M: TargetMatcher> {
    target: &'t M,
    asked: Cell<usize>,
}

impl<'t, M: TargetMatcher> Counting<'t, M> {
    fn new(target: &'t M) -> Self {
        Counting {
            target,
            asked: Cell::new(0),
        }
    }
}

impl<M: TargetMatcher> TargetMatcher for Counting<'_, M> {
    ghost answer = { λ counting. M.answer counting.target.now };

    fn matches(&self, predicate: &TargetPredicate<'_>) -> bool {
        self.asked.set(self.asked.get().saturating_add(1));
        self.target.matches(predicate)
    }
}

/// How often targets are asked, and what is found.
#[derive(Clone, Copy)]
struct Wanted {
    // The number of targets of an audit
    targets: usize,
    // The verdict on each target
    verdict: Verdict,
    // How often each target is asked
    count: usize,
}

// Returns whether each target was asked as often as `wanted` says, and its verdict is that of
// `wanted`.
fn audit_matches<M: TargetMatcher>(
    targets: &[Counting<'_, M>],
    verdicts: &[Verdict],
    wanted: Wanted,
) -> bool {
    for (target, verdict) in targets.iter().zip(verdicts) {
        if target.asked.get() != wanted.count || *verdict != wanted.verdict {
            return false;
        }
    }
    targets.len() == wanted.targets && verdicts.len() == wanted.targets
}

// Returns `count` targets that count how often they are asked.
fn counting_targets<'t, M: TargetMatcher>(
    alloc: Global,
    target: &'t M,
    count: usize,
) -> Result<Vec<Counting<'t, M>>, AllocError> {
    let mut targets = Vec::new(alloc);
    for _target in 0..count {
        targets.push(Counting::new(target))?;
    }
    Ok(targets)
}

// Returns whether `audit` asks each of its targets as often as `wanted` says, and finds the verdict
// of `wanted` on each.
fn audit_is_right<M: TargetMatcher>(
    alloc: Global,
    condition: &Expression,
    target: &M,
    wanted: Wanted,
) -> Result<bool, AllocError> {
    let targets = counting_targets(alloc, target, wanted.targets)?;
    let verdicts = audit(alloc, condition, targets.as_slice())?;
    Ok(audit_matches(targets.as_slice(), verdicts.as_slice(), wanted))
}

// Returns the verdict of `decision`.
fn verdict_of(decision: &Decision) -> Verdict {
    match decision {
        Decision::Known(true) => Verdict::Yes,
        Decision::Known(false) => Verdict::No,
        Decision::Unknown { .. } => Verdict::Unknown,
    }
}

// Returns whether a `Decider` asks the target as often as `wanted` says, its decision has the
// verdict of `wanted`, and it has one answer for each predicate.
fn decision_is_right<M: TargetMatcher>(
    alloc: Global,
    condition: &Expression,
    target: &M,
    wanted: Wanted,
) -> Result<bool, AllocError> {
    let target = Counting::new(target);
    let mut decider = Decider::new(alloc);
    decider.decide(&condition.condition(), &target)?;
    Ok(
        verdict_of(&decider.decision) == wanted.verdict
            && target.asked.get() == wanted.count
            && decider.answers.len() == condition.predicates().left(),
    )
}

// Returns whether `pick` asks the target as often as `wanted` says, and finds the verdict of
// `wanted` for its only section.
fn pick_is_right<M: TargetMatcher>(
    alloc: Global,
    condition: Expression,
    target: &M,
    wanted: Wanted,
) -> Result<bool, AllocError> {
    let target = Counting::new(target);
    let name = String::new(alloc);
    let verdicts = pick(alloc, &[Section { name, condition }], &target)?;
    Ok(verdicts.as_slice() == [wanted.verdict].as_slice() && target.asked.get() == wanted.count)
}

// Returns the verdict with the name `name`.
fn verdict_named(name: &str) -> Option<Verdict> {
    match name {
        "Yes" => Some(Verdict::Yes),
        "No" => Some(Verdict::No),
        "Unknown" => Some(Verdict::Unknown),
        _ => None,
    }
}

// Returns whether `audit`, a `Decider` and `pick` ask `target` as often as `wanted` says, and find
// the verdict of `wanted`.
fn each_call_asks<M: TargetMatcher>(
    alloc: Global,
    text: &str,
    target: &M,
    wanted: Wanted,
) -> Result<bool, Failure> {
    let condition = Expression::parse(alloc, text)?;
    let audit_is_right = is_ok_true(audit_is_right(alloc, &condition, target, wanted));
    let decision_is_right = is_ok_true(decision_is_right(alloc, &condition, target, wanted));
    let pick_is_right = is_ok_true(pick_is_right(alloc, condition, target, wanted));
    Ok(audit_is_right && decision_is_right && pick_is_right)
}

// Returns whether `audit`, a `Decider` and `pick` ask the target with the name `name` as often as
// `wanted` says, and find the verdict of `wanted`.
fn each_call_asks_named(alloc: Global, name: &str, text: &str, wanted: Wanted) -> bool {
    match name {
        "everything" => is_ok_true(each_call_asks(alloc, text, &Everything, wanted)),
        "nothing" => is_ok_true(each_call_asks(alloc, text, &Nothing, wanted)),
        "here" => {
            let target = target_here();
            is_ok_true(each_call_asks(alloc, text, &target, wanted))
        }
        _ => false,
    }
}

// Returns what a row says of the number of targets, the verdict and the questions.
fn wanted_of(targets: &str, verdict: &str, count: &str) -> Option<Wanted> {
    Some(Wanted {
        targets: targets.parse().ok()?,
        verdict: verdict_named(verdict)?,
        count: count.parse().ok()?,
    })
}

/// Returns whether `audit`, a `Decider` and `pick` ask the target of the row as often as the row
/// says, and find the verdict of the row.
///
/// A row has the number of targets of an audit, a target, a condition, the verdict, and how often
/// each target is asked. `everything` meets each predicate, `nothing` meets none, and `here` is a
/// target whose `os` is `here`, with 64 bits.
pub fn asks_target(alloc: Global, row: &[String]) -> bool {
    let [targets, target, text, verdict, count] = row else {
        return false;
    };
    match wanted_of(targets.as_str(), verdict.as_str(), count.as_str()) {
        Some(wanted) => each_call_asks_named(alloc, target.as_str(), text.as_str(), wanted),
        None => false,
    }
}
