//! Sections of a manifest, each with a condition, and what a target says of them.
ghost use Rattle.std.specs.Prelude.{◌≡◌, ◌↔◌, [], false, IfOk, IsTrue, OnErr, OnOk, map};
ghost use Rattle.std.specs.Cmp.Rules.{comparing};
ghost use Rattle.std.specs.List.{AllZip};
ghost use Rattle.std.proofs.Common.{rules};
ghost use Rattle.cfg_expr.specs.Deciding.{DecidesExactly, Held, held};
ghost use Rattle.cfg_expr.specs.Evaluation.{IsValueBy};
ghost use Rattle.cfgx_grammar.specs.Answer.{HasOneTree};
ghost use Rattle.cfg_expr.specs.Filling.{three_valued};
ghost use Rattle.cfgx_grammar.specs.Tree.{asked};
ghost use Rattle.cfg_expr.specs.Predicate.{question_of};
ghost use Rattle.cfgx_engine.specs.Verdicts.{answer_by, IsVerdict, verdict_eq};

mod auditing;
mod by_facts;
mod facts;
mod index;
mod named;

use auditing::push_values;
pub use by_facts::{AuditError, audit_conditions, audit_facts};
use cfg_expr::expr::{Condition, Predicates, TargetMatcher};
use cfg_expr::memory::SmallAllocator;
use cfg_expr::{Decision, Expression, Predicate};
pub use facts::{Facts, FactsError, Otherwise};
use std::alloc::{AllocError, Global};
use std::fmt;
use std::mem::swap;

/// A section of a manifest, which counts if its condition is true.
#[derive_where(Debug)]
pub struct Section<A: SmallAllocator = Global> {
    /// The name
    pub name: String<A>,
    /// The condition
    pub condition: Expression<A>,
}

// With a derived `Drop` each caller would have to show by hand what dropping an `Expression` needs
// of its allocator, which a `SmallAllocator` has.
impl<A: SmallAllocator> Drop for Section<A> {
    fn drop(self) {
        let Section {
            name: _name,
            condition: _condition,
        } = self;
    }
}

/// Whether a section counts on a target. Each occurrence of a predicate has an answer of its own.
#[derive(Clone, Copy, Debug)]
pub enum Verdict {
    /// It counts, whatever the unknown answers are
    Yes,
    /// It does not count, whatever the unknown answers are
    No,
    /// The unknown answers decide
    Unknown,
}

impl PartialEq for Verdict {
    ghost eq = { verdict_eq };

    ghost laws = { Prim.search (comparing, rules) };

    fn eq(&self, other: &Self) -> bool
        ensures { IsTrue result ↔ (self.now ≡ other.now) }
    {
        matches!(
            (self, other),
            (Verdict::Yes, Verdict::Yes)
                | (Verdict::No, Verdict::No)
                | (Verdict::Unknown, Verdict::Unknown)
        )
    }
}

impl Eq for Verdict {
    ghost laws = { Prim.search (comparing, rules) };
}

/// Returns the verdict of a value.
impl From<Option<bool>> for Verdict {
    ghost use Rattle.std.specs.Prelude.{◌≡◌};
    ghost use Rattle.cfgx_engine.specs.Verdicts.{verdict_of};

    ghost from_gives = { λ value verdict. verdict ≡ verdict_of value };

    fn from(value: Option<bool>) -> Verdict {
        match value {
            Some(true) => Verdict::Yes,
            Some(false) => Verdict::No,
            None => Verdict::Unknown,
        }
    }
}

/// Returns the answer of `matcher` to a predicate on the target, and `None` for any other.
fn ask<M: TargetMatcher>(matcher: &M, predicate: &Predicate<'_>) -> Option<bool>
    ensures { result ≡ answer_by (M.answer matcher.now) (question_of predicate.now) }
{
    match predicate {
        Predicate::Target(target) => Some(matcher.matches(target)),
        _ => None,
    }
}

/// Replaces `answers` by the answer of `matcher` to each predicate, in order.
fn ask_each<A: SmallAllocator, M: TargetMatcher>(
    matcher: &M,
    predicates: Predicates<'_>,
    answers: &mut Vec<Option<bool>, A>,
) -> Result<(), AllocError>
    ensures { OnOk result
        (answers.new.items ≡ map (answer_by (M.answer matcher.now)) predicates.entry) }
{
    answers.clear();
    for predicate in predicates {
        answers.push(ask(matcher, &predicate))?;
    }
    Ok(())
}

/// Decides one condition after another on targets, in the same memory.
#[derive(Drop)]
pub struct Decider<A: SmallAllocator = Global> {
    alloc: A,
    /// What the target answered to each predicate of the last condition that was decided, in order
    pub answers: Vec<Option<bool>, A>,
    /// The decision on this condition
    pub decision: Decision<A>,
    /// Where the next answers are gathered
    gathered: Vec<Option<bool>, A>,
}

impl<A: SmallAllocator> Decider<A> {
    /// Returns a decider without answers, whose decision is `Known(false)`. Takes no memory.
    pub fn new(alloc: A) -> Self
        ensures answers { result.answers.items ≡ [] }
        ensures decision { held result.decision ≡ Held.known false }
    {
        Decider {
            alloc,
            answers: Vec::new(alloc),
            decision: Decision::Known(false),
            gathered: Vec::new(alloc),
        }
    }

    /// Asks `matcher` the predicates of a condition, and decides the condition over its answers as
    /// `Expression::decide` does. The matcher is asked once for each predicate on the target. Every
    /// other predicate is unknown.
    ///
    /// `answers` and `decision` are replaced. Their memory is reused: answers are gathered in the
    /// memory of those before the last ones.
    ///
    /// # Errors
    ///
    /// `AllocError`: the allocator refused memory. `answers` and `decision` then hold what they
    /// held.
    pub fn decide<M: TargetMatcher>(
        &mut self,
        condition: &Condition<'_>,
        matcher: &M,
    ) -> Result<(), AllocError>
        ensures decision { OnOk result ((one : HasOneTree condition.now)
            × DecidesExactly one.tree
            (map (answer_by (M.answer matcher.now)) (asked one.tree)) self.new.decision) }
        ensures answers { OnOk result ((one : HasOneTree condition.now)
            × (self.new.answers.items
            ≡ map (answer_by (M.answer matcher.now)) (asked one.tree))) }
        ensures refused { OnErr result ((self.new.answers.items ≡ self.old.answers.items)
            × (held self.new.decision ≡ held self.old.decision)) }
    {
        ask_each(matcher, condition.predicates(), &mut self.gathered)?;
        condition.decide(self.alloc, self.gathered.as_slice(), &mut self.decision)?;
        swap(&mut self.answers, &mut self.gathered);
        Ok(())
    }
}

/// Writes the name alone.
impl<A: SmallAllocator> fmt::Debug for Decider<A> {
    fn fmt<W: fmt::Write>(&self, f: &mut fmt::Formatter<W>) -> fmt::Result {
        f.debug_struct("Decider").finish_non_exhaustive()
    }
}

/// Evaluates a condition over the answers of `matcher`.
pub(crate) fn eval_on_target<A: SmallAllocator, M: TargetMatcher>(
    alloc: A,
    condition: &Expression<A>,
    matcher: &M,
) -> Result<Option<bool>, AllocError>
    ensures { IfOk result
        (IsValueBy three_valued condition.now (answer_by (M.answer matcher.now))) }
{
    condition.eval(
        alloc,
        &mut |predicate: &Predicate<'_>| ask(matcher, predicate),
    )
}

/// Returns a verdict for each section, in order. The answer to a predicate on the target is that of
/// `matcher`. Every other answer is unknown.
///
/// A verdict is `Yes` exactly if every way to fill the unknown answers makes the section's
/// condition true, and `No` exactly if every way makes it false. Each occurrence of a predicate is
/// filled by itself, so the verdict on `any(test, not(test))` is `Unknown`.
///
/// # Errors
///
/// `AllocError`: `alloc` refused memory.
pub fn pick<A: SmallAllocator, M: TargetMatcher>(
    alloc: A,
    sections: &[Section<A>],
    matcher: &M,
) -> Result<Vec<Verdict, A>, AllocError>
    ensures { IfOk result (λ verdicts. AllZip (λ section verdict.
        IsVerdict (M.answer matcher.now) section.condition verdict) sections.now verdicts.items) }
{
    let mut verdicts = Vec::with_capacity(alloc, sections.len())?;
    for section in sections {
        let value = eval_on_target(alloc, &section.condition, matcher)?;
        verdicts.push(Verdict::from(value))?;
    }
    Ok(verdicts)
}

/// Returns the verdict on a condition for each target, in order. It is the verdict of `pick` on a
/// section with this condition.
///
/// Targets are taken in batches of 64. Each predicate on the target is asked once of each, and the
/// condition is evaluated once for each batch.
///
/// # Errors
///
/// `AllocError`: `alloc` refused memory.
pub fn audit<A: SmallAllocator, M: TargetMatcher>(
    alloc: A,
    condition: &Expression<A>,
    targets: &[M],
) -> Result<Vec<Verdict, A>, AllocError>
    ensures { IfOk result (λ verdicts. AllZip (λ target verdict.
        IsVerdict (M.answer target) condition.now verdict) targets.now verdicts.items) }
{
    let mut verdicts = Vec::with_capacity(alloc, targets.len())?;
    push_values(alloc, &condition.condition(), targets, &mut verdicts)?;
    Ok(verdicts)
}
