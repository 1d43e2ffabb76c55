//! The values of many conditions on many targets.

ghost use Rattle.std.specs.Prelude.{◌≡◌, ◌≢◌, ◌↔◌, ◌≤◌, ◌*◌, ◌^◌, [], ◌∷◌, IfErr, IfOk, length};
ghost use Rattle.std.specs.List.{All};
ghost use Rattle.cfgx_c.specs.Audit.{AreAllEnds, FillsValues, ValuesBy};
ghost use Rattle.cfgx_c.specs.Ends.{parts};
ghost use Rattle.cfgx_c.specs.Faults.{IsCondition, IsFact, Tells};
ghost use Rattle.cfgx_c.specs.Status.{IsOneOf, bad_ends, done, faulty, faulty_fact, not_utf8};
ghost use Rattle.cfgx_c.specs.Status.{out_of_memory, too_large};
ghost use Rattle.cfgx_c.specs.internal.Refusals.{Refuses};

use crate::answers::otherwise_of;
use crate::bytes::fill_values;
use crate::ends::{are_ends, texts};
use crate::fault::{CfgxFault, Refusal};
use crate::reading::{read_targets, text_refusal};
use crate::status::{BAD_ENDS, DONE, FAULTY_FACT, NOT_UTF8, TOO_LARGE};
use cfgx_engine::resolve::{Otherwise, audit_facts};
use cfgx_syntax::stripping::strip;
use std::alloc::Global;

/// Reads the facts and then the texts, and returns the values of the texts on the targets. Target
/// `j` has the facts up to `target_ends[j]`.
///
/// The error is about the facts, or else about the texts, or memory was refused.
fn find_values(
    alloc: Global,
    conditions: &[u8],
    condition_ends: &[usize],
    facts: &[u8],
    fact_ends: &[usize],
    target_ends: &[usize],
    otherwise: Otherwise,
) -> Result<Vec<Option<bool>>, Refusal>
    requires { AreAllEnds conditions.now condition_ends.now facts.now fact_ends.now
        target_ends.now }
    ensures ok { IfOk result (λ values. All IsFact (parts fact_ends.now facts.now)
        × All IsCondition (parts condition_ends.now conditions.now)
        × ValuesBy (parts condition_ends.now conditions.now)
        (parts target_ends.now (parts fact_ends.now facts.now)) otherwise values.items) }
    ensures err { IfErr result (Refuses (parts fact_ends.now facts.now)
        (parts condition_ends.now conditions.now)) }
{
    let facts = texts(alloc, facts, fact_ends, FAULTY_FACT)?;
    let targets = read_targets(alloc, facts.as_slice(), target_ends)?;
    let conditions = texts(alloc, conditions, condition_ends, NOT_UTF8)?;
    let conditions = conditions.as_slice();
    match audit_facts(alloc, conditions, targets.as_slice(), otherwise) {
        Ok(values) => Ok(values),
        Err(error) => {
            // The audit has stripped the text, and does not say how many bytes.
            let offset = strip(conditions[error.index]).offset;
            Err(text_refusal(error.index, offset, error.failure))
        }
    }
}

/// Evaluates many conditions on many targets. Target `j` has the facts from `target_ends[j - 1]`,
/// or from 0, up to `target_ends[j]`, and answers by them as in `cfgx_answers`.
///
/// Returns the status `DONE`, and fills `values`: with `n` targets, item `i * n + j` is the value
/// of condition `i` on target `j`, 0 for false, 1 for true, 2 for unknown. Otherwise returns the
/// first of these that is so:
///
/// - `BAD_ENDS`: an end is less than the one before it, or the last one is not the number of items.
/// - `TOO_LARGE`: the number of values does not fit in a `usize`.
/// - `FAULTY_FACT`: a fact is not UTF-8; or all are, and one is faulty.
/// - `NOT_UTF8`: a text is not UTF-8.
/// - `FAULTY`: a text has a fault.
///
/// With the last three `fault` becomes what is wrong with the first one. Returns `OUT_OF_MEMORY` if
/// memory was refused, unless the ends are bad or the number of values is too large. Unless the
/// status is `DONE`, `needed` becomes 0 and `values` is unchanged. With every other status each
/// member of `fault` becomes 0.
#[unsafe(no_mangle)]
pub extern "C" fn cfgx_audit(
    alloc: Global,
    texts: &[u8],
    text_ends: &[usize],
    facts: &[u8],
    fact_ends: &[usize],
    target_ends: &[usize],
    otherwise: u8,
    values: &mut [u8],
    needed: &mut usize,
    fault: &mut CfgxFault,
) -> u32
    ensures done { result ≡ done → All IsFact (parts fact_ends.now facts.now)
        × All IsCondition (parts text_ends.now texts.now)
        × FillsValues (parts text_ends.now texts.now)
        (parts target_ends.now (parts fact_ends.now facts.now)) otherwise values.old values.new
        needed.new }
    ensures read { Tells (parts fact_ends.now facts.now) (parts text_ends.now texts.now) result
        fault.new }
    ensures bad_ends { (result ≡ bad_ends)
        ↔ ¬ AreAllEnds texts.now text_ends.now facts.now fact_ends.now target_ends.now }
    ensures too_large { (result ≡ too_large)
        ↔ (AreAllEnds texts.now text_ends.now facts.now fact_ends.now target_ends.now
        × (2 ^ 64 ≤ length text_ends.now * length target_ends.now)) }
    ensures kept { result ≢ done → (values.new ≡ values.old) × (needed.new ≡ 0) }
    ensures status { IsOneOf result (done ∷ faulty ∷ not_utf8 ∷ out_of_memory ∷ faulty_fact
        ∷ bad_ends ∷ too_large ∷ []) }
{
    *needed = 0;
    *fault = CfgxFault::default();
    if !are_ends(text_ends, texts.len())
        || !are_ends(fact_ends, facts.len())
        || !are_ends(target_ends, fact_ends.len())
    {
        return BAD_ENDS;
    }
    if text_ends.len().checked_mul(target_ends.len()).is_none() {
        return TOO_LARGE;
    }
    match find_values(
        alloc,
        texts,
        text_ends,
        facts,
        fact_ends,
        target_ends,
        otherwise_of(otherwise),
    ) {
        Ok(found) => {
            *needed = fill_values(values, found.as_slice());
            DONE
        }
        Err(refusal) => refusal.report(fault),
    }
}
