//! The steps of conditions, and the value of any steps.
//!
//! The steps of a condition are its nodes as they stand in the text: a function stands in front of
//! its members. They are read from the last to the first, with the stack that evaluates a
//! condition.
ghost use Rattle.std.specs.Prelude.{◌≡◌, ◌≤◌, [], ℕ, List, None, Some, IfErr, IfOk, IsTrue, map};
ghost use Rattle.std.specs.Prelude.{MatchOption, ◌<◌, ◌+◌, ◌↔◌, count_by, length};
ghost use Rattle.std.specs.List.{AllByRecursion, range_with_len};
ghost use Rattle.std.specs.Cmp.Rules.{comparing};
ghost use Rattle.std.proofs.Common.{rules};
ghost use Rattle.cfgx_parser.specs.nodes.Shape.{shape};
ghost use Rattle.cfg_expr.specs.Steps.{AreCounted, AreSteps, AreStepsAs, Fail, HasSteps, HasValue};
ghost use Rattle.cfg_expr.specs.Steps.{is_ask, step_eq};
ghost use Rattle.cfg_expr.specs.nodes.AnswerSlots.{put_at};
ghost use Rattle.cfg_expr.specs.nodes.Reading.{entries, push_item, shape_step, step_item};
ghost use Rattle.cfg_expr.specs.nodes.Reading.{steps_value};
ghost use Rattle.cfg_expr.specs.declared.expr.steps.Step.TheVariants as step;

use super::evaluating::{Slot, Stack, literal_value, push_empty_slots};
use super::{Condition, Func};
use crate::memory::SmallAllocator;
use cfgx_parser::nodes::ExprNode;
use cfgx_syntax::logic::Logic;
use smallvec::SmallVec;
use std::alloc::AllocError;

/// A step of the evaluation of a condition, which is a node of its tree. Steps are read from the
/// last to the first. Equal steps have the same variant, and the same truth value, number or
/// function.
#[derive(Clone, Copy, Debug)]
pub enum Step {
    /// Pushes the answer to the predicate with this number. Predicates are numbered from 0, in the
    /// order in which they are asked
    Ask(usize),
    /// Pushes `top` for true, and `bottom` for false
    Literal(bool),
    /// Pops the values of the members, the first member first, and pushes the value of the function
    Function(Func),
}

impl PartialEq for Step {
    ghost eq = { step_eq };

    ghost laws = { Prim.search (comparing, rules) };

    fn eq(&self, other: &Self) -> bool
        ensures { IsTrue result ↔ (self.now ≡ other.now) }
    {
        match (self, other) {
            (Step::Ask(one), Step::Ask(other)) => one == other,
            (Step::Literal(one), Step::Literal(other)) => one == other,
            (Step::Function(one), Step::Function(other)) => one == other,
            _ => false,
        }
    }
}

impl Eq for Step {
    ghost laws = { Prim.search (comparing, rules) };
}

/// Why steps have no value over answers.
#[derive(Debug, Drop)]
pub enum StepsError {
    /// There are more or fewer answers than steps that ask
    Miscounted,
    /// The steps are not those of one tree, or a step asks for an answer that is not there
    NoValue,
    /// The allocator refused memory
    Memory(AllocError),
}

impl From<AllocError> for StepsError {
    ghost use Rattle.cfg_expr.specs.declared.expr.steps.StepsError.TheVariants.{Memory};

    ghost from_gives = { λ refused error. error ≡ Memory refused };

    fn from(refused: AllocError) -> StepsError {
        StepsError::Memory(refused)
    }
}

/// Reads `step` over `answers`: pushes its answer or its value, or applies it. Returns `None` if
/// the answer is missing, or if a function finds too few members.
fn read_step<T: Logic + Copy>(step: Step, answers: &[T], stack: &mut Stack<'_, T>) -> Option<()>
    requires { (0 < stack.old.begin) × (stack.old.begin ≤ length stack.old.slots.now) }
    ensures entries { let read = step_item T.Logic answers.now step in
        MatchOption result (push_item T.Logic read (entries stack.old) ≡ None)
        (λ _. push_item T.Logic read (entries stack.old) ≡ Some (entries stack.new)) }
    ensures begin { stack.old.begin ≤ stack.new.begin + 1 }
    ensures within { stack.new.begin ≤ length stack.new.slots.now }
{
    match step {
        Step::Ask(number) => stack.push(Slot::Leaf(*answers.get(number)?)),
        Step::Literal(truth) => stack.push(Slot::Leaf(literal_value(truth))),
        Step::Function(func) => stack.apply(func)?,
    }
    Some(())
}

/// Reads the steps from the last to the first over `answers`, and returns the value that is left
/// alone, or `None` if there is none. There is a slot for each step.
fn read_steps<T: Logic + Copy>(steps: &[Step], answers: &[T], slots: &mut [Slot<T>]) -> Option<T>
    requires { length slots.old ≡ length steps.now }
    ensures { result ≡ steps_value T.Logic steps.now answers.now }
{
    let begin = slots.len();
    let mut stack = Stack { slots, begin };
    for place in (0..steps.len()).rev() {
        read_step(steps[place], answers, &mut stack)?;
    }
    stack.into_value()
}

/// Returns the number of steps that ask.
fn count_asks(steps: &[Step]) -> usize
    ensures { result ≡ count_by is_ask steps.now }
{
    steps
        .iter()
        .filter(|step| matches!(step, Step::Ask(_)))
        .count()
}

/// Returns the value that the steps have over `answers`. Any list of steps may be passed. A step
/// that asks takes the answer that has its number. If the steps are those of a condition, and the
/// answers are those to its predicates in the order in which they are asked, this is its value.
///
/// Takes no memory for up to 33 steps.
///
/// # Errors
///
/// `StepsError::Miscounted`: there are more or fewer answers than steps that ask.
/// `StepsError::NoValue`: otherwise, the steps are not those of one tree, or a step asks for an
/// answer that is not there. `StepsError::Memory`: `alloc` refused memory.
pub fn eval_steps<T, A>(alloc: A, steps: &[Step], answers: &[T]) -> Result<T, StepsError>
where
    T: Logic + Copy,
    A: SmallAllocator,
    ensures counted { IfOk result (λ _. AreCounted steps.now answers.now) }
    ensures value { IfOk result (HasValue T.Logic steps.now answers.now) }
    ensures error { IfErr result (Fail T.Logic steps.now answers.now) }
{
    if count_asks(steps) != answers.len() {
        return Err(StepsError::Miscounted);
    }
    let mut slots = SmallVec::new(&alloc);
    push_empty_slots(&mut slots, steps.len())?;
    match read_steps(steps, answers, slots.as_mut_slice()) {
        Some(value) => Ok(value),
        None => Err(StepsError::NoValue),
    }
}

/// What a step becomes in a buffer of steps.
pub trait FromStep: Copy {
    ghost use Rattle.cfg_expr.specs.declared.expr.steps.Step.{Step};

    /// The form of a step.
    ghost form: { Step → Self };

    /// Returns the form of `step`.
    fn from_step(step: Step) -> Self
        ensures { result ≡ form step };
}

impl FromStep for Step {
    ghost use Rattle.cfg_expr.specs.declared.expr.steps.Step.{Step};

    ghost form = { λ step. step };

    fn from_step(step: Step) -> Step {
        step
    }
}

/// Returns the step of a node. That of a predicate asks for the answer 0, until `write_numbers`
/// writes the step with its own number.
fn step_of(node: &ExprNode) -> Step
    ensures { result ≡ shape_step (shape node.now) }
{
    match node {
        ExprNode::Fn { func, .. } => Step::Function(*func),
        ExprNode::Literal(truth) => Step::Literal(*truth),
        ExprNode::Predicate(_) => Step::Ask(0),
    }
}

/// Writes the step of each node, in order, as `step_of` returns it.
fn write_nodes<T: FromStep>(nodes: &[ExprNode], buffer: &mut [T])
    requires { length buffer.old ≡ length nodes.now }
    ensures { buffer.new ≡ map (λ node. T.form (shape_step (shape node))) nodes.now }
{
    for place in 0..nodes.len() {
        buffer[place] = T::from_step(step_of(&nodes[place]));
    }
}

/// Writes steps that ask for the answers 0, 1, 2 and so on, one at each of `places`, over those
/// that `write_nodes` wrote.
fn write_numbers<T: FromStep>(places: &[usize], buffer: &mut [T])
    requires { AllByRecursion (λ place. place < length buffer.old) places.now }
    ensures { buffer.new ≡ put_at buffer.old places.now
        (map (λ number. T.form (step.Ask number)) (range_with_len 0 (length places.now))) }
{
    for number in 0..places.len() {
        buffer[places[number]] = T::from_step(Step::Ask(number));
    }
}

/// Writes the steps of a condition into `buffer`, in time proportional to their number.
pub(crate) fn write_steps<T: FromStep>(condition: &Condition<'_>, buffer: &mut [T])
    requires { HasSteps condition.now (length buffer.old) }
    ensures { AreStepsAs T.form condition.now buffer.new }
{
    write_nodes(condition.nodes(), buffer);
    write_numbers(condition.places(), buffer);
}

/// Returns the steps of a condition, in time proportional to the number of its nodes.
///
/// # Errors
///
/// `AllocError`: `alloc` refused memory.
pub(crate) fn steps_of<A: SmallAllocator>(
    alloc: A,
    condition: &Condition<'_>,
) -> Result<Vec<Step, A>, AllocError>
    ensures { IfOk result (λ steps. AreSteps condition.now steps.items) }
{
    let mut steps = vec![in alloc; Step::Literal(false); condition.step_count()]?;
    write_steps(condition, steps.as_mut_slice());
    Ok(steps)
}
