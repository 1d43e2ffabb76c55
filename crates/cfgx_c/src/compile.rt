//! The steps and the predicates of a condition.

ghost use Rattle.std.specs.Prelude.{◌≡◌, ◌≢◌, ◌≤◌, [], ◌∷◌, IfErr, IfOk, OnErr};
ghost use Rattle.std.specs.Str.{IsUtf8};
ghost use Rattle.cfgx_c.specs.Faults.{Tells};
ghost use Rattle.cfgx_c.specs.Status.{IsOneOf, done, faulty, not_utf8, out_of_memory};
ghost use Rattle.cfgx_c.specs.Steps.{Compiles};
ghost use Rattle.cfgx_c.specs.internal.Refusals.{RefusesText, text_statuses};

use crate::fault::{CfgxFault, Refusal};
use crate::predicates::{CfgxPredicate, write_predicates};
use crate::reading::read_condition;
use crate::status::DONE;
use crate::steps::CfgxStep;
use cfg_expr::expr::ConditionReader;
use std::alloc::Global;

/// Reads a condition, and fills both buffers if both have room. Returns the number of steps and
/// that of predicates.
///
/// The error is about the text, or memory was refused.
fn compile(
    alloc: Global,
    text: &[u8],
    steps: &mut [CfgxStep],
    predicates: &mut [CfgxPredicate],
) -> Result<(usize, usize), Refusal>
    ensures ok { IfOk result (λ needed. IsUtf8 text.now × Compiles text.now steps.old steps.new
        needed.0 predicates.old predicates.new needed.1) }
    ensures err { IfErr result (RefusesText text.now text_statuses) }
    ensures kept { OnErr result ((steps.new ≡ steps.old) × (predicates.new ≡ predicates.old)) }
{
    // The reader stands in front of what can fail, or its room would be cleared once more.
    let mut reader = ConditionReader::new(alloc);
    let (condition, offset) = read_condition(&mut reader, text)?;
    let located = condition.located_predicates();
    let (step_count, count) = (condition.step_count(), located.left());
    if step_count > steps.len() || count > predicates.len() {
        return Ok((step_count, count));
    }
    condition.write_steps(&mut steps[..step_count]);
    write_predicates(located, offset, predicates);
    Ok((step_count, count))
}

/// Compiles a condition to steps and its predicates, so that a program can evaluate it with a
/// stack, with values of any logic. The steps are the nodes of its tree, as they stand in the text.
///
/// Returns the status `DONE`, fills `steps` and `predicates`, or neither of them if one has too
/// little room, and writes their numbers to `steps_needed` and `predicates_needed`. Returns
/// `FAULTY` if the text has a fault, `NOT_UTF8` if it is not UTF-8, and `OUT_OF_MEMORY` if memory
/// was refused. Unless the status is `DONE`, both numbers become 0, and both buffers are unchanged.
/// `fault` becomes what `cfgx_check` makes of it.
#[unsafe(no_mangle)]
pub extern "C" fn cfgx_compile(
    alloc: Global,
    text: &[u8],
    steps: &mut [CfgxStep],
    steps_needed: &mut usize,
    predicates: &mut [CfgxPredicate],
    predicates_needed: &mut usize,
    fault: &mut CfgxFault,
) -> u32
    ensures done { result ≡ done → Compiles text.now steps.old steps.new steps_needed.new
        predicates.old predicates.new predicates_needed.new }
    ensures read { Tells [] (text.now ∷ []) result fault.new }
    ensures utf8 { result ≢ not_utf8 → IsUtf8 text.now }
    ensures kept { result ≢ done → (steps.new ≡ steps.old) × (predicates.new ≡ predicates.old)
        × (steps_needed.new ≡ 0) × (predicates_needed.new ≡ 0) }
    ensures status { IsOneOf result (done ∷ faulty ∷ not_utf8 ∷ out_of_memory ∷ []) }
{
    *steps_needed = 0;
    *predicates_needed = 0;
    *fault = CfgxFault::default();
    match compile(alloc, text, steps, predicates) {
        Ok((step_count, count)) => {
            *steps_needed = step_count;
            *predicates_needed = count;
            DONE
        }
        Err(refusal) => refusal.report(fault),
    }
}
