//! The value of steps over answers.

ghost use Rattle.std.specs.Prelude.{◌≡◌, ◌≢◌, ◌≤◌, [], ◌∷◌, List, IfErr, IfOk, length, map};
ghost use Rattle.cfg_expr.specs.declared.expr.steps.Step.{Step};
ghost use Rattle.cfgx_c.specs.Status.{IsOneOf, done, miscounted, no_value, out_of_memory};
ghost use Rattle.cfgx_c.specs.Steps.{Applies, AreCMiscounted, HaveNoCValue, c_step};
ghost use Rattle.cfgx_c.specs.Value.{byte_of_value};
ghost use Rattle.cfgx_c.specs.internal.Applying.{DoNotApply};

use crate::bytes::{byte_of_value, read_answers};
use crate::status::{DONE, MISCOUNTED, NO_VALUE, OUT_OF_MEMORY};
use crate::steps::{CfgxStep, count_asks, read_steps};
use cfg_expr::expr::{Step, StepsError, eval_steps};
use std::alloc::Global;

/// Returns why steps of which one is none have no value over `answers`.
fn error_of(steps: &[CfgxStep], answers: &[u8]) -> StepsError
    requires { (list : List Step) → ¬ (map c_step list ≡ steps.now) }
    ensures { DoNotApply steps.now answers.now result }
{
    if count_asks(steps) == answers.len() {
        StepsError::NoValue
    } else {
        StepsError::Miscounted
    }
}

/// Evaluates the steps over `answers`, with room in `list` for each step and in `given` for each
/// answer. Takes no memory for up to 33 steps.
///
/// The error is that of `eval_steps`.
fn eval_in(
    alloc: Global,
    steps: &[CfgxStep],
    answers: &[u8],
    list: &mut [Step],
    given: &mut [Option<bool>],
) -> Result<Option<bool>, StepsError>
    requires list { length list.old ≡ length steps.now }
    requires given { length given.old ≡ length answers.now }
    ensures value { IfOk result (λ value. Applies steps.now answers.now (byte_of_value value)) }
    ensures error { IfErr result (DoNotApply steps.now answers.now) }
{
    if !read_steps(steps, list) {
        return Err(error_of(steps, answers));
    }
    read_answers(answers, given);
    eval_steps(alloc, list, given)
}

/// Evaluates the steps over `answers`. Takes no memory for up to 33 steps with up to 33 answers.
///
/// The error is that of `eval_steps`.
fn eval_c_steps(
    alloc: Global,
    steps: &[CfgxStep],
    answers: &[u8],
) -> Result<Option<bool>, StepsError>
    ensures value { IfOk result (λ value. Applies steps.now answers.now (byte_of_value value)) }
    ensures error { IfErr result (DoNotApply steps.now answers.now) }
{
    if steps.len() > 33 || answers.len() > 33 {
        let mut list = vec![in alloc; Step::Ask(0); steps.len()]?;
        let mut given = vec![in alloc; None; answers.len()]?;
        return eval_in(
            alloc,
            steps,
            answers,
            list.as_mut_slice(),
            given.as_mut_slice(),
        );
    }
    let (mut list, mut given) = ([Step::Ask(0); 33], [None; 33]);
    let (list, given) = (&mut list[..steps.len()], &mut given[..answers.len()]);
    eval_in(alloc, steps, answers, list, given)
}

/// Evaluates steps over answers, which are as for `cfgx_value`. Any steps may be passed.
///
/// Returns the status `DONE`, and writes the value to `value`: 0 for false, 1 for true, 2 for
/// unknown. Returns `MISCOUNTED` if there are more or fewer answers than steps that ask. Otherwise,
/// returns `NO_VALUE` if the steps are not those of one tree, or ask for an answer that is not
/// there, and `OUT_OF_MEMORY` if memory was refused, which happens only for more than 33 steps or
/// answers. Unless the status is `DONE`, `value` becomes 2.
#[unsafe(no_mangle)]
pub extern "C" fn cfgx_apply(
    alloc: Global,
    steps: &[CfgxStep],
    answers: &[u8],
    value: &mut u8,
) -> u32
    ensures done { result ≡ done → Applies steps.now answers.now value.new }
    ensures no_value { result ≡ no_value → HaveNoCValue steps.now answers.now }
    ensures miscounted { result ≡ miscounted → AreCMiscounted steps.now answers.now }
    ensures short { length steps.now ≤ 33 → length answers.now ≤ 33 → result ≢ out_of_memory }
    ensures unknown { result ≢ done → value.new ≡ byte_of_value None }
    ensures status { IsOneOf result (done ∷ no_value ∷ miscounted ∷ out_of_memory ∷ []) }
{
    *value = byte_of_value(None);
    match eval_c_steps(alloc, steps, answers) {
        Ok(found) => {
            *value = byte_of_value(found);
            DONE
        }
        Err(StepsError::NoValue) => NO_VALUE,
        Err(StepsError::Miscounted) => MISCOUNTED,
        Err(StepsError::Memory(_)) => OUT_OF_MEMORY,
    }
}
