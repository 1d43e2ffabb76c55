//! Steps as C sees them.

ghost use Rattle.std.specs.Prelude.{◌≡◌, List, MatchBool, MatchOption, count_by, length, map};
ghost use Rattle.cfg_expr.specs.declared.expr.steps.Step.{Step};
ghost use Rattle.cfgx_c.specs.Steps.{c_step, is_c_ask};

use cfg_expr::expr::{FromStep, Func, Step};

/// A step of the evaluation of a condition with a stack. Steps are read from the last to the first.
#[repr(C)]
#[derive(Clone, Copy, Debug)]
pub struct CfgxStep {
    /// The number of the kind: 0 for false, 1 for true, 2 for ask, 3 for `not`, 4 for `all`, 5 for
    /// `any`
    pub kind: u32,
    /// The number of the predicate that the step asks, counted from 0 in the order of asking; for a
    /// function, the number of its members; and otherwise 0
    pub number: usize,
}

/// A step as C sees it.
impl FromStep for CfgxStep {
    ghost use Rattle.cfgx_c.specs.Steps.{c_step};

    ghost form = { c_step };

    fn from_step(step: Step) -> CfgxStep {
        let (kind, number) = match step {
            Step::Literal(false) => (0, 0),
            Step::Literal(true) => (1, 0),
            Step::Ask(number) => (2, number),
            Step::Function(Func::Not) => (3, 1),
            Step::Function(Func::All(count)) => (4, count),
            Step::Function(Func::Any(count)) => (5, count),
        };
        CfgxStep { kind, number }
    }
}

/// Returns the step that C sees as `step`, or `None` if there is none.
fn step_of(step: CfgxStep) -> Option<Step>
    ensures { MatchOption result ((of : Step) → ¬ (c_step of ≡ step)) (λ of. c_step of ≡ step) }
{
    match (step.kind, step.number) {
        (0, 0) => Some(Step::Literal(false)),
        (1, 0) => Some(Step::Literal(true)),
        (2, number) => Some(Step::Ask(number)),
        (3, 1) => Some(Step::Function(Func::Not)),
        (4, count) => Some(Step::Function(Func::All(count))),
        (5, count) => Some(Step::Function(Func::Any(count))),
        _ => None,
    }
}

/// Writes the steps that C sees as `steps` to `list`, which has an item for each of them. Returns
/// false if one of `steps` is no step. Then `list` begins with those before it.
pub(crate) fn read_steps(steps: &[CfgxStep], list: &mut [Step]) -> bool
    requires { length list.old ≡ length steps.now }
    ensures { MatchBool result (map c_step list.new ≡ steps.now)
        ((list : List Step) → ¬ (map c_step list ≡ steps.now)) }
{
    for i in 0..steps.len() {
        let Some(step) = step_of(steps[i]) else {
            return false;
        };
        list[i] = step;
    }
    true
}

/// Returns the number of steps that ask.
pub(crate) fn count_asks(steps: &[CfgxStep]) -> usize
    ensures { result ≡ count_by is_c_ask steps.now }
{
    steps.iter().filter(|step| step.kind == 2).count()
}
