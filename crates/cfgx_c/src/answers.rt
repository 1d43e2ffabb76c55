//! The answers of the facts of a target to the predicates of a condition.

ghost use Rattle.std.specs.Prelude.{◌≡◌, ◌≢◌, ◌↔◌, [], ◌∷◌, IfErr, IfOk, length};
ghost use Rattle.std.specs.List.{All, AllZip};
ghost use Rattle.cfgx_grammar.specs.Answer.{HasOneTree};
ghost use Rattle.cfgx_grammar.specs.Tree.{asked};
ghost use Rattle.cfg_expr.specs.Predicate.{question_of};
ghost use Rattle.cfgx_engine.specs.Facts.{IsAnswer};
ghost use Rattle.cfgx_c.specs.Answers.{AnswersOfFacts, FillsAnswers, otherwise_of};
ghost use Rattle.cfgx_c.specs.Ends.{AreEnds, parts};
ghost use Rattle.cfgx_c.specs.Faults.{IsCondition, IsFact, Tells};
ghost use Rattle.cfgx_c.specs.Status.{IsOneOf, bad_ends, done, faulty, faulty_fact, not_utf8};
ghost use Rattle.cfgx_c.specs.Status.{out_of_memory};
ghost use Rattle.cfgx_c.specs.internal.Refusals.{Refuses};

use crate::bytes::fill_values;
use crate::ends::{are_ends, texts};
use crate::fault::{CfgxFault, Refusal};
use crate::reading::{read_condition, read_facts};
use crate::status::{BAD_ENDS, DONE, FAULTY_FACT};
use cfg_expr::Predicate;
use cfg_expr::expr::{Condition, ConditionReader};
use cfgx_engine::resolve::{Facts, Otherwise};
use std::alloc::{AllocError, Global};

/// Returns what a byte says of the predicates that no fact names.
pub(crate) fn otherwise_of(byte: u8) -> Otherwise
    ensures { result ≡ otherwise_of byte }
{
    if byte == 0 {
        Otherwise::False
    } else {
        Otherwise::Unknown
    }
}

/// Returns the answer of `facts` to a predicate.
fn ask(facts: &Facts, predicate: Predicate<'_>, otherwise: Otherwise) -> Option<bool>
    ensures { IsAnswer facts.now otherwise (question_of predicate.entry) result }
{
    facts.answer(&predicate, otherwise)
}

/// Returns the answers of `facts` to the predicates of a condition, in the order in which they are
/// asked.
///
/// The error is that `alloc` refused memory.
fn answers_to(
    alloc: Global,
    condition: &Condition<'_>,
    facts: &Facts,
    otherwise: Otherwise,
) -> Result<Vec<Option<bool>>, AllocError>
    ensures { IfOk result (λ answers. (one : HasOneTree condition.now)
        × AllZip (IsAnswer facts.now otherwise) (asked one.tree) answers.items) }
{
    let predicates = condition.predicates();
    let mut answers = Vec::with_capacity(alloc, predicates.left())?;
    for predicate in predicates {
        answers.push(ask(facts, predicate, otherwise))?;
    }
    Ok(answers)
}

/// Reads the facts and then the text, and returns the answers of the facts to the predicates of the
/// text.
///
/// The error is about the facts, or else about the text, or memory was refused.
fn find_answers(
    alloc: Global,
    text: &[u8],
    facts: &[u8],
    fact_ends: &[usize],
    otherwise: Otherwise,
) -> Result<Vec<Option<bool>>, Refusal>
    requires { AreEnds fact_ends.now (length facts.now) }
    ensures ok { IfOk result (λ answers. All IsFact (parts fact_ends.now facts.now)
        × IsCondition text.now
        × AnswersOfFacts text.now (parts fact_ends.now facts.now) otherwise answers.items) }
    ensures err { IfErr result (Refuses (parts fact_ends.now facts.now) (text.now ∷ [])) }
{
    let facts = texts(alloc, facts, fact_ends, FAULTY_FACT)?;
    let facts = read_facts(alloc, 0, facts.as_slice())?;
    let mut reader = ConditionReader::new(alloc);
    let (condition, _) = read_condition(&mut reader, text)?;
    Ok(answers_to(alloc, &condition, &facts, otherwise)?)
}

/// Answers the predicates of a condition by the facts of a target, in the order in which they are
/// asked. Each fact is a text of its own, which `Facts::from_rustc` reads. A predicate that no fact
/// names is false, or unknown if `otherwise` is not 0 and the predicate is not on the target.
///
/// Returns the status `DONE`, writes the number of predicates to `needed`, and fills `answers` if
/// it has room for a byte for each: 0 for false, 1 for true, 2 for unknown. Otherwise returns the
/// first of these that is so:
///
/// - `BAD_ENDS`: an end is less than the one before it, or the last one is not the number of bytes.
/// - `FAULTY_FACT`: a fact is not UTF-8, or is faulty.
/// - `NOT_UTF8`: the text is not UTF-8.
/// - `FAULTY`: the text has a fault.
///
/// Returns `OUT_OF_MEMORY` if memory was refused, unless the ends are bad. Unless the status is
/// `DONE`, `needed` becomes 0 and `answers` is unchanged. With the last three of the list `fault`
/// becomes what is wrong with the first such fact or with the text. With every other status each
/// member of `fault` becomes 0.
#[unsafe(no_mangle)]
pub extern "C" fn cfgx_answers(
    alloc: Global,
    text: &[u8],
    facts: &[u8],
    fact_ends: &[usize],
    otherwise: u8,
    answers: &mut [u8],
    needed: &mut usize,
    fault: &mut CfgxFault,
) -> u32
    ensures done { result ≡ done → All IsFact (parts fact_ends.now facts.now)
        × IsCondition text.now
        × FillsAnswers text.now (parts fact_ends.now facts.now) otherwise answers.old answers.new
        needed.new }
    ensures read { Tells (parts fact_ends.now facts.now) (text.now ∷ []) result fault.new }
    ensures bad_ends { (result ≡ bad_ends) ↔ ¬ AreEnds fact_ends.now (length facts.now) }
    ensures kept { result ≢ done → (answers.new ≡ answers.old) × (needed.new ≡ 0) }
    ensures status { IsOneOf result
        (done ∷ faulty ∷ not_utf8 ∷ out_of_memory ∷ faulty_fact ∷ bad_ends ∷ []) }
{
    *needed = 0;
    *fault = CfgxFault::default();
    if !are_ends(fact_ends, facts.len()) {
        return BAD_ENDS;
    }
    match find_answers(alloc, text, facts, fact_ends, otherwise_of(otherwise)) {
        Ok(found) => {
            *needed = fill_values(answers, found.as_slice());
            DONE
        }
        Err(refusal) => refusal.report(fault),
    }
}
