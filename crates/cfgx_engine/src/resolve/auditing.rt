//! The values of a condition on many targets. One evaluation in 64 lanes serves up to 64 of them.
ghost use Rattle.std.specs.Prelude.{◌≡◌, ◌≤◌, length, IfOk, OnOk};
ghost use Rattle.std.specs.List.{AllZip};
ghost use Rattle.cfgx_grammar.specs.Answer.{HasOneTree};
ghost use Rattle.cfgx_grammar.specs.Tree.{asked};
ghost use Rattle.cfg_expr.specs.Predicate.{question_of};
ghost use Rattle.cfgx_engine.specs.Verdicts.{answer_by};
ghost use Rattle.cfgx_engine.specs.internal.InLanes.{AddsEach, InLanes, lane_values, TellsValue};

use cfg_expr::Predicate;
use cfg_expr::expr::logic::Kleene64;
use cfg_expr::expr::{Condition, TargetMatcher};
use cfg_expr::memory::SmallAllocator;
use std::alloc::{AllocError, Allocator};

/// At most 64 targets of the type `T`, which are asked together.
pub(super) trait Batch<T> {
    ghost use Rattle.std.specs.Prelude.{Bool, List, Option};
    ghost use Rattle.cfgx_grammar.specs.Question.{Question};

    /// The targets, in order.
    ghost targets: { Self → List T };

    /// Holds of a target, a question and an answer that the target may give to it.
    ghost answers: { Self → T → Question → Option Bool → Type 0 };

    /// Returns the number of targets.
    fn count(&self) -> usize
        ensures count { result ≡ length (targets self.now) }
        ensures few { result ≤ 64 };

    /// Returns the answers to a predicate: lane `i` is that of target `i`.
    // By value, since a drop in the loop of `ask_all` would take longer to prove.
    fn ask(&self, predicate: Predicate<'_>) -> Kleene64
        ensures { InLanes (answers self.now) (targets self.now) (question_of predicate.entry)
            result };
}

/// At most 64 matchers. A predicate that is no `Predicate::Target` is unknown.
#[derive(Drop)]
struct ByMatching<'a, M> {
    matchers: &'a [M],
    ghost few: { length matchers.now ≤ 64 },
}

impl<M: TargetMatcher> Batch<M> for ByMatching<'_, M> {
    ghost targets = { λ by. by.matchers.now };

    ghost answers = { λ _ matcher question answer. answer ≡ answer_by (M.answer matcher) question };

    fn count(&self) -> usize {
        self.matchers.len()
    }

    fn ask(&self, predicate: Predicate<'_>) -> Kleene64
        ensures { InLanes (λ matcher question answer.
            answer ≡ answer_by (M.answer matcher) question) self.now.matchers.now
            (question_of predicate.entry) result }
    {
        match &predicate {
            Predicate::Target(target) => target.lanes(self.matchers),
            _ => Kleene64::new(0, 0),
        }
    }
}

/// Evaluates the condition on each matcher, and pushes each value, converted to `V`, in order. For
/// each batch of at most 64 matchers, the condition is evaluated once. Each matcher is asked each
/// predicate on the target once.
pub(super) fn push_values<A: SmallAllocator, M: TargetMatcher, V: From<Option<bool>> + Drop>(
    alloc: A,
    condition: &Condition<'_>,
    matchers: &[M],
    values: &mut Vec<V, A>,
) -> Result<(), AllocError>
    ensures { OnOk result (AddsEach (λ matcher. TellsValue V.from_gives condition.now
        (λ question answer. answer ≡ answer_by (M.answer matcher) question))
        matchers.now values.old.items values.new.items) }
{
    let mut left = matchers;
    while !left.is_empty() {
        let (batch, others) = left.split_at(left.len().min(64));
        push_batch(alloc, &ByMatching { matchers: batch }, condition, values)?;
        left = others;
    }
    Ok(())
}

/// Evaluates the condition on each target of a batch, and pushes each value, converted to `V`.
pub(super) fn push_batch<A: SmallAllocator, T, S: Batch<T>, V: From<Option<bool>> + Drop>(
    alloc: A,
    batch: &S,
    condition: &Condition<'_>,
    values: &mut Vec<V, A>,
) -> Result<(), AllocError>
    ensures { OnOk result (AddsEach
        (λ target. TellsValue V.from_gives condition.now (S.answers batch.now target))
        (S.targets batch.now) values.old.items values.new.items) }
{
    let answers = ask_all(alloc, batch, condition)?;
    let value = condition.eval_lanes(alloc, answers.as_slice())?;
    push_lanes(value, batch.count(), values)
}

/// Asks a batch each predicate of the condition, in order.
fn ask_all<A: SmallAllocator, T, S: Batch<T>>(
    alloc: A,
    batch: &S,
    condition: &Condition<'_>,
) -> Result<Vec<Kleene64, A>, AllocError>
    ensures { IfOk result (λ answers. (one : HasOneTree condition.now)
        × AllZip (InLanes (S.answers batch.now) (S.targets batch.now)) (asked one.tree)
        answers.items) }
{
    let predicates = condition.predicates();
    let mut answers = Vec::with_capacity(alloc, predicates.left())?;
    for predicate in predicates {
        answers.push(batch.ask(predicate))?;
    }
    Ok(answers)
}

/// Converts the values in the first `count` lanes to `V`, and pushes them.
fn push_lanes<A: Allocator, V: From<Option<bool>> + Drop>(
    value: Kleene64,
    count: usize,
    values: &mut Vec<V, A>,
) -> Result<(), AllocError>
    requires { count ≤ 64 }
    ensures { OnOk result (AddsEach V.from_gives (lane_values count value) values.old.items
        values.new.items) }
{
    for i in 0..count {
        values.push(V::from(value.lane(i)))?;
    }
    Ok(())
}
