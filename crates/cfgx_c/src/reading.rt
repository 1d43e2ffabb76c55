//! Conditions and facts.

ghost use Rattle.std.specs.Prelude.{◌≡◌, ◌+◌, ◌<◌, ◌^◌, ◌∷◌, IfErr, IfOk, length};
ghost use Rattle.std.specs.List.{All, AllZip};
ghost use Rattle.std.specs.Str.{IsUtf8};
ghost use Rattle.cfgx_syntax.specs.Stripping.{strip, strip_offset};
ghost use Rattle.cfg_expr.specs.Given.{AreAnswersTo};
ghost use Rattle.cfgx_engine.specs.Facts.{IsRustcFact, NameAlike, texts_of};
ghost use Rattle.cfgx_c.specs.Ends.{AreEnds, parts};
ghost use Rattle.cfgx_c.specs.Faults.{IsCondition, IsFactFaultOf, fact_offset};
ghost use Rattle.cfgx_c.specs.Status.{faulty_fact, miscounted, not_utf8};
ghost use Rattle.cfgx_c.specs.Value.{HasOtherCount};
ghost use Rattle.cfgx_c.specs.internal.Refusals.{IsAbout, IsFirstFrom, IsStripped};
ghost use Rattle.cfgx_c.specs.internal.Refusals.{RefusesText, text_refusal, text_statuses, views};

use crate::fault::{CfgxFault, Refusal};
use crate::status::{FAULTY, FAULTY_FACT, MISCOUNTED, NOT_UTF8, OUT_OF_MEMORY};
use cfg_expr::error::Failure;
use cfg_expr::expr::{Condition, ConditionReader};
use cfgx_engine::resolve::{Facts, FactsError};
use cfgx_syntax::stripping::{Stripped, strip};
use std::alloc::Global;

/// Returns the only text of a call, stripped.
///
/// The error is about the text.
pub(crate) fn read_text(text: &[u8]) -> Result<Stripped<'_>, Refusal>
    ensures ok { IfOk result (λ stripped. IsStripped text.now stripped × IsUtf8 text.now) }
    ensures err { IfErr result (RefusesText text.now text_statuses) }
    ensures status { IfErr result (λ refusal. refusal.status ≡ not_utf8) }
{
    match str::from_utf8(text) {
        Ok(text) => Ok(strip(text)),
        Err(error) => Err(Refusal {
            status: NOT_UTF8,
            fault: CfgxFault::at_byte(0, error.valid_up_to()),
        }),
    }
}

/// Returns why the text with this number cannot be read. `offset` bytes stand before the stripped
/// text.
pub(crate) fn text_refusal(item: usize, offset: usize, failure: Failure) -> Refusal
    ensures { result ≡ text_refusal item offset failure }
{
    match failure {
        Failure::Parse(error) => Refusal {
            status: FAULTY,
            fault: CfgxFault::of(item, offset, &error),
        },
        Failure::Memory(_) => Refusal::plain(OUT_OF_MEMORY),
    }
}

/// Reads the only text of a call as a condition. Returns it, and how many bytes stand before the
/// stripped text.
///
/// The error is about the text, or memory was refused.
// A call would copy the condition out of its result.
#[inline(always)]
pub(crate) fn read_condition<'r, 'a>(
    reader: &'r mut ConditionReader<'a>,
    text: &'a [u8],
) -> Result<(Condition<'r>, usize), Refusal>
    ensures ok { IfOk result (λ read. (read.0 ≡ strip text.now) × (read.1 ≡ strip_offset text.now)
        × IsCondition text.now) }
    ensures err { IfErr result (RefusesText text.now text_statuses) }
{
    let stripped = read_text(text)?;
    match reader.read_stripped(stripped) {
        Ok(condition) => Ok((condition, stripped.offset)),
        Err(failure) => Err(text_refusal(0, stripped.offset, failure)),
    }
}

/// Reads the only text of a call as a condition with a predicate for each of `answers`.
///
/// The error is about the text, or the number of answers is another one, or memory was refused.
pub(crate) fn read_answered<'r, 'a>(
    reader: &'r mut ConditionReader<'a>,
    text: &'a [u8],
    answers: &[u8],
) -> Result<Condition<'r>, Refusal>
    ensures ok { IfOk result (λ condition. (condition ≡ strip text.now) × IsUtf8 text.now) }
    ensures counted { IfOk result (AreAnswersTo answers.now) }
    ensures err { IfErr result (RefusesText text.now (miscounted ∷ text_statuses)) }
    ensures other_count { IfErr result (λ refusal. refusal.status ≡ miscounted
        → HasOtherCount (strip text.now) answers.now) }
{
    let (condition, _) = read_condition(reader, text)?;
    if condition.predicates().left() != answers.len() {
        return Err(Refusal::plain(MISCOUNTED));
    }
    Ok(condition)
}

/// Returns how many bytes stand before the stripped text of a fact, which `Facts` has stripped and
/// does not say.
fn fact_offset(fact: &str) -> usize
    ensures { result ≡ fact_offset fact.now }
{
    match fact.strip_prefix('?') {
        Some(text) => strip(text).offset + 1,
        None => strip(fact).offset,
    }
}

/// Reads the facts of a target, whose numbers begin at `begin`.
///
/// The error is about the first faulty fact, or memory was refused.
pub(crate) fn read_facts(alloc: Global, begin: usize, facts: &[&str]) -> Result<Facts, Refusal>
    requires { begin + length facts.now < 2 ^ 64 }
    ensures ok { IfOk result (λ read. All IsRustcFact (views facts.now)
        × NameAlike read (texts_of (views facts.now))) }
    ensures err { IfErr result
        (IsAbout faulty_fact (IsFirstFrom begin IsRustcFact IsFactFaultOf (views facts.now))) }
{
    match Facts::from_rustc(alloc, facts) {
        Ok(read) => Ok(read),
        Err(FactsError::Faulty { index, error }) => Err(Refusal {
            status: FAULTY_FACT,
            fault: CfgxFault::of(begin + index, fact_offset(facts[index]), &error),
        }),
        Err(FactsError::Memory(_)) => Err(Refusal::plain(OUT_OF_MEMORY)),
    }
}

/// Reads the facts of each target. Target `j` has the facts from the end of the target before it up
/// to `target_ends[j]`.
///
/// The error is about the first faulty fact, or memory was refused.
pub(crate) fn read_targets(
    alloc: Global,
    facts: &[&str],
    target_ends: &[usize],
) -> Result<Vec<Facts>, Refusal>
    requires { AreEnds target_ends.now (length facts.now) }
    ensures ok { IfOk result (λ targets. All IsRustcFact (views facts.now)
        × AllZip (λ facts read. NameAlike read (texts_of facts))
        (parts target_ends.now (views facts.now)) targets.items) }
    ensures err { IfErr result
        (IsAbout faulty_fact (IsFirstFrom 0 IsRustcFact IsFactFaultOf (views facts.now))) }
{
    let mut targets = Vec::with_capacity(alloc, target_ends.len())?;
    let mut begin = 0;
    for &end in target_ends {
        let read = read_facts(alloc, begin, &facts[begin..end])?;
        targets.push(read)?;
        begin = end;
    }
    Ok(targets)
}
