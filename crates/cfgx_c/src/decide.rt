//! The decision of a condition over answers.

ghost use Rattle.std.specs.Prelude.{◌≡◌, ◌≢◌, ◌++◌, [], ◌∷◌, IfOk, OnErr, map};
ghost use Rattle.std.specs.Str.{IsUtf8};
ghost use Rattle.cfgx_c.specs.Buffer.{Fills};
ghost use Rattle.cfgx_syntax.specs.Stripping.{strip};
ghost use Rattle.cfgx_grammar.specs.Answer.{HasOneTree};
ghost use Rattle.cfg_expr.specs.Given.{AreAnswersTo};
ghost use Rattle.cfgx_c.specs.Faults.{Tells};
ghost use Rattle.cfgx_c.specs.Decide.{DecidesOver, both_fillings};
ghost use Rattle.cfgx_c.specs.Status.{IsOneOf, done, faulty, miscounted, not_utf8, out_of_memory};
ghost use Rattle.cfgx_c.specs.Value.{HasOtherCount, answer_of, byte_of_value};

use crate::bytes::{answers_in, byte_of_value, eval_over_bytes};
use crate::fault::CfgxFault;
use crate::reading::read_answered;
use crate::status::{DONE, OUT_OF_MEMORY};
use cfg_expr::expr::{Condition, ConditionReader};
use std::alloc::{AllocError, Global};

/// Writes both fillings of `answers` to the start of `buffer`, one behind the other, if they fit.
/// Returns their length. Takes no memory if they do not fit.
///
/// The error is that `alloc` refused memory.
fn fill_fillings(
    alloc: Global,
    condition: &Condition<'_>,
    answers: &[u8],
    buffer: &mut [u8],
) -> Result<usize, AllocError>
    requires { AreAnswersTo answers.now condition.now }
    ensures ok { IfOk result (λ needed. (one : HasOneTree condition.now)
        → Fills (both_fillings one.tree (map answer_of answers.now)) buffer.old buffer.new needed) }
    ensures kept { OnErr result (buffer.new ≡ buffer.old) }
{
    let count = answers.len();
    let needed = count + count;
    if needed > buffer.len() {
        return Ok(needed);
    }
    let answers = answers_in(&alloc, answers)?;
    let (if_true, rest) = buffer.split_at_mut(count);
    condition.write_fillings(alloc, answers.as_slice(), if_true, &mut rest[..count])?;
    Ok(needed)
}

/// Decides a condition over answers to its predicates, which are as for `cfgx_value`.
///
/// Returns the status `DONE`, and writes the value to `value`: 0 for false, 1 for true, 2 for
/// unknown. If the value is unknown, fills `fillings` with two fillings, one behind the other: each
/// has a byte for each answer, 0 for false or 1 for true, and keeps the known answers. The
/// condition is true with the first one and false with the second one. If the value is known,
/// `needed` becomes 0.
///
/// Returns `FAULTY`, `NOT_UTF8`, `OUT_OF_MEMORY` and `MISCOUNTED` as `cfgx_value` does. With these
/// `needed` becomes 0, `fillings` stays as it was, and `value` becomes 2. `fault` becomes what
/// `cfgx_check` makes of it.
#[unsafe(no_mangle)]
pub extern "C" fn cfgx_decide(
    alloc: Global,
    text: &[u8],
    answers: &[u8],
    fillings: &mut [u8],
    needed: &mut usize,
    value: &mut u8,
    fault: &mut CfgxFault,
) -> u32
    ensures done { result ≡ done → DecidesOver (strip text.now) answers.now fillings.old
        fillings.new needed.new value.new }
    ensures counted { result ≡ done → AreAnswersTo answers.now (strip text.now) }
    ensures read { Tells [] (text.now ∷ []) result fault.new }
    ensures utf8 { result ≢ not_utf8 → IsUtf8 text.now }
    ensures miscounted { result ≡ miscounted → HasOtherCount (strip text.now) answers.now }
    ensures kept { result ≢ done → (fillings.new ≡ fillings.old) × (needed.new ≡ 0)
        × (value.new ≡ byte_of_value None) }
    ensures status { IsOneOf result
        (done ∷ faulty ∷ not_utf8 ∷ out_of_memory ∷ miscounted ∷ []) }
{
    *needed = 0;
    *value = byte_of_value(None);
    *fault = CfgxFault::default();
    let mut reader = ConditionReader::new(alloc);
    let condition = match read_answered(&mut reader, text, answers) {
        Ok(condition) => condition,
        Err(refusal) => return refusal.report(fault),
    };
    match eval_over_bytes(alloc, &condition, answers) {
        Ok(Some(known)) => {
            *value = byte_of_value(Some(known));
            DONE
        }
        Ok(None) => match fill_fillings(alloc, &condition, answers, fillings) {
            Ok(count) => {
                *needed = count;
                DONE
            }
            Err(_) => OUT_OF_MEMORY,
        },
        Err(_) => OUT_OF_MEMORY,
    }
}
