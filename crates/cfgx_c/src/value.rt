//! The value of a condition over answers.

ghost use Rattle.std.specs.Prelude.{◌≡◌, ◌≢◌, ◌≤◌, [], ◌∷◌};
ghost use Rattle.std.specs.Str.{IsUtf8};
ghost use Rattle.cfgx_syntax.specs.Stripping.{strip};
ghost use Rattle.cfgx_c.specs.Faults.{Tells};
ghost use Rattle.cfgx_c.specs.Status.{IsOneOf, done, faulty, miscounted, not_utf8, out_of_memory};
ghost use Rattle.cfgx_c.specs.Value.{HasOtherCount, HasValueByteOver, byte_of_value};

use crate::bytes::{byte_of_value, eval_over_bytes};
use crate::fault::CfgxFault;
use crate::reading::read_answered;
use crate::status::{DONE, OUT_OF_MEMORY};
use cfg_expr::expr::ConditionReader;
use std::alloc::Global;

/// Evaluates a condition over answers to its predicates. `answers` has a byte for each predicate,
/// in the order in which they are asked: 0 for false, 1 for true, and any other for unknown.
///
/// Returns the status `DONE`, and writes the value to `value`: 0 for false, 1 for true, 2 for
/// unknown. Returns `FAULTY` if the text has a fault, `NOT_UTF8` if it is not UTF-8,
/// `OUT_OF_MEMORY` if memory was refused, and `MISCOUNTED` if there are more or fewer answers than
/// predicates. Unless the status is `DONE`, `value` becomes 2. `fault` becomes what `cfgx_check`
/// makes of it.
#[unsafe(no_mangle)]
pub extern "C" fn cfgx_value(
    alloc: Global,
    text: &[u8],
    answers: &[u8],
    value: &mut u8,
    fault: &mut CfgxFault,
) -> u32
    ensures done { result ≡ done → HasValueByteOver (strip text.now) answers.now value.new }
    ensures read { Tells [] (text.now ∷ []) result fault.new }
    ensures utf8 { result ≢ not_utf8 → IsUtf8 text.now }
    ensures miscounted { result ≡ miscounted → HasOtherCount (strip text.now) answers.now }
    ensures unknown { result ≢ done → value.new ≡ byte_of_value None }
    ensures status { IsOneOf result
        (done ∷ faulty ∷ not_utf8 ∷ out_of_memory ∷ miscounted ∷ []) }
{
    *value = byte_of_value(None);
    *fault = CfgxFault::default();
    let mut reader = ConditionReader::new(alloc);
    let condition = match read_answered(&mut reader, text, answers) {
        Ok(condition) => condition,
        Err(refusal) => return refusal.report(fault),
    };
    let Ok(found) = eval_over_bytes(alloc, &condition, answers) else {
        return OUT_OF_MEMORY;
    };
    *value = byte_of_value(found);
    DONE
}
