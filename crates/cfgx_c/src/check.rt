//! The check of a text.

ghost use Rattle.std.specs.Prelude.{◌≡◌, ◌≢◌, ◌≤◌, [], ◌∷◌, IfErr, OnOk};
ghost use Rattle.std.specs.Str.{IsUtf8};
ghost use Rattle.cfgx_c.specs.Faults.{IsCondition, Tells};
ghost use Rattle.cfgx_c.specs.Status.{IsOneOf, done, faulty, not_utf8, out_of_memory};
ghost use Rattle.cfgx_c.specs.internal.Refusals.{RefusesText, text_statuses};

use crate::fault::{CfgxFault, Refusal};
use crate::reading::read_condition;
use crate::status::DONE;
use cfg_expr::expr::ConditionReader;
use std::alloc::Global;

/// Checks whether a text is a condition.
///
/// The error is about the text, or memory was refused.
fn check(alloc: Global, text: &[u8]) -> Result<(), Refusal>
    ensures ok { OnOk result (IsCondition text.now) }
    ensures err { IfErr result (RefusesText text.now text_statuses) }
{
    let mut reader = ConditionReader::new(alloc);
    read_condition(&mut reader, text)?;
    Ok(())
}

/// Checks whether a text is a condition. Returns the status `DONE` if it is.
///
/// Returns `FAULTY` if the text has a fault, `NOT_UTF8` if it is not UTF-8, and `OUT_OF_MEMORY` if
/// memory was refused. With the first two writes to `fault` what is wrong with it. Otherwise each
/// member of `fault` becomes 0.
#[unsafe(no_mangle)]
pub extern "C" fn cfgx_check(alloc: Global, text: &[u8], fault: &mut CfgxFault) -> u32
    ensures done { result ≡ done → IsCondition text.now }
    ensures read { Tells [] (text.now ∷ []) result fault.new }
    ensures utf8 { result ≢ not_utf8 → IsUtf8 text.now }
    ensures status { IsOneOf result (done ∷ faulty ∷ not_utf8 ∷ out_of_memory ∷ []) }
{
    *fault = CfgxFault::default();
    match check(alloc, text) {
        Ok(()) => DONE,
        Err(refusal) => refusal.report(fault),
    }
}
