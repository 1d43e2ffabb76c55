//! What is wrong with a text, in words.

ghost use Rattle.std.specs.Prelude.{◌≡◌, ◌≢◌, ◌≤◌, [], ◌∷◌, Err};
ghost use Rattle.std.specs.Str.{IsUtf8};
ghost use Rattle.cfgx_syntax.specs.Error.{Fault, error_text, fault_in};
ghost use Rattle.cfgx_syntax.specs.Stripping.{strip};
ghost use Rattle.cfgx_grammar.specs.Answer.{ReadsAs};
ghost use Rattle.cfgx_c.specs.Faults.{IsCondition, Tells};
ghost use Rattle.cfgx_c.specs.Buffer.{Fills};
ghost use Rattle.cfgx_c.specs.Status.{IsOneOf, done, faulty, not_utf8, out_of_memory};

use crate::buffer::fill;
use crate::fault::CfgxFault;
use crate::reading::read_text;
use crate::status::{DONE, FAULTY, OUT_OF_MEMORY};
use cfg_expr::error::Failure;
use cfg_expr::expr::ConditionReader;
use std::alloc::Global;

/// Explains what is wrong with a text. Returns the status `FAULTY` if the text has a fault, and
/// fills `message` with what its first fault prints.
///
/// Returns `DONE` if the text is a condition, `NOT_UTF8` if it is not UTF-8, and `OUT_OF_MEMORY` if
/// memory was refused. Unless the status is `FAULTY`, `needed` becomes 0 and `message` is
/// unchanged. `fault` becomes what `cfgx_check` makes of it.
#[unsafe(no_mangle)]
pub extern "C" fn cfgx_explain(
    alloc: Global,
    text: &[u8],
    message: &mut [u8],
    needed: &mut usize,
    fault: &mut CfgxFault,
) -> u32
    ensures done { result ≡ done → IsCondition text.now }
    ensures faulty { result ≡ faulty → (found : Fault) × ReadsAs (strip text.now) (Err found)
        × Fills (error_text (fault_in (strip text.now) found)) message.old message.new needed.new }
    ensures read { Tells [] (text.now ∷ []) result fault.new }
    ensures utf8 { result ≢ not_utf8 → IsUtf8 text.now }
    ensures kept { result ≢ faulty → (message.new ≡ message.old) × (needed.new ≡ 0) }
    ensures status { IsOneOf result (done ∷ faulty ∷ not_utf8 ∷ out_of_memory ∷ []) }
{
    *needed = 0;
    *fault = CfgxFault::default();
    let stripped = match read_text(text) {
        Ok(stripped) => stripped,
        Err(refusal) => return refusal.report(fault),
    };
    let mut reader = ConditionReader::new(alloc);
    let error = match reader.read_stripped(stripped) {
        Ok(_) => return DONE,
        Err(Failure::Parse(error)) => error,
        Err(Failure::Memory(_)) => return OUT_OF_MEMORY,
    };
    let Ok(printed) = format!(in alloc; "{error}") else {
        return OUT_OF_MEMORY;
    };
    *needed = fill(message, printed.as_bytes());
    *fault = CfgxFault::of(0, stripped.offset, &error);
    FAULTY
}
