//! The predicates of a condition as C sees them.

ghost use Rattle.std.specs.Prelude.{◌≡◌, ◌≢◌, ◌≤◌, ◌<◌, ◌+◌, ◌^◌, ◌++◌, ℕ, List, []};
ghost use Rattle.std.specs.Prelude.{◌∷◌, IfErr, IfOk, IfSome, OnErr, drop, length, map};
ghost use Rattle.std.specs.Str.{IsUtf8};
ghost use Rattle.cfgx_parser.specs.Located.{HasCut};
ghost use Rattle.cfg_expr.specs.Located.{AreLocated};
ghost use Rattle.cfgx_c.specs.Buffer.{Fills};
ghost use Rattle.cfgx_c.specs.Faults.{Tells};
ghost use Rattle.cfgx_c.specs.Predicates.{ListsPredicates, c_number, c_predicate, moved};
ghost use Rattle.cfgx_c.specs.Predicates.{moved_or_none};
ghost use Rattle.cfgx_c.specs.Status.{IsOneOf, done, faulty, not_utf8, out_of_memory};
ghost use Rattle.cfgx_c.specs.declared.predicates.CfgxPredicate.{CfgxPredicate};
ghost use Rattle.cfgx_c.specs.internal.Refusals.{RefusesText, text_statuses};

use crate::fault::{CfgxFault, Refusal};
use crate::reading::read_condition;
use crate::status::DONE;
use cfg_expr::expr::{
    Asked, AskedTarget, ConditionReader, LocatedPredicate, LocatedPredicates, Span,
};
use cfg_expr::targets::HasAtomic;
use std::alloc::Global;

/// A predicate of a condition. Spans are in bytes of the text as it was passed.
#[repr(C)]
#[derive(Clone, Copy, Debug)]
pub struct CfgxPredicate {
    /// The number of the kind
    pub kind: u32,
    /// The number of bits of a pointer or of an atomic, 65536 for the width `ptr`, 0 for the byte
    /// order `big` or 1 for `little`; 0 for every other kind
    pub number: u32,
    /// The start of the whole predicate
    pub start: usize,
    /// The end of the whole predicate: that of the quote that ends its value, or that of its key
    pub end: usize,
    /// The start of the key, if the kind does not say it, else 0
    pub key_start: usize,
    /// The end of the key, if the kind does not say it, else 0
    pub key_end: usize,
    /// The start of the value without its quotes, or of `unix` or `windows`. It is 0 if there is no
    /// value or `number` says it
    pub value_start: usize,
    /// The end of the value, in the same way
    pub value_end: usize,
}

/// Returns `span` moved by `offset` bytes.
fn moved(span: Span, offset: usize) -> Span
    requires { (span.start + offset < 2 ^ 64) × (span.end + offset < 2 ^ 64) }
    ensures { result ≡ moved offset span }
{
    Span {
        start: span.start + offset,
        end: span.end + offset,
    }
}

/// Returns `span` moved by `offset` bytes, or that from 0 to 0 if there is none.
fn moved_or_none(span: Option<Span>, offset: usize) -> Span
    requires { IfSome span (λ span.
        (span.start + offset < 2 ^ 64) × (span.end + offset < 2 ^ 64)) }
    ensures { result ≡ moved_or_none offset span }
{
    match span {
        Some(span) => moved(span, offset),
        None => Span { start: 0, end: 0 },
    }
}

/// Returns the number of what is asked, 65536 for an atomic of the width `ptr`, or 0.
fn c_number(asked: Asked) -> u32
    ensures { result ≡ c_number asked }
{
    match asked {
        // Most predicates ask for a text. One test passes them, where `number` takes several.
        Asked::Target(AskedTarget::Text(_)) => 0,
        Asked::Target(AskedTarget::HasAtomic(HasAtomic::Pointer)) => 65536,
        _ => asked.number().unwrap_or(0),
    }
}

/// Returns a predicate as C sees it. `offset` bytes were stripped before the text.
fn c_predicate(predicate: LocatedPredicate, offset: usize) -> CfgxPredicate
    requires { (text : List ℕ) × HasCut text predicate × (length text + offset < 2 ^ 64) }
    ensures { result ≡ c_predicate offset predicate }
{
    let whole = moved(predicate.span(), offset);
    let key = moved_or_none(predicate.key_span(), offset);
    let value = moved_or_none(predicate.value_span(), offset);
    CfgxPredicate {
        kind: predicate.asked.kind(),
        number: c_number(predicate.asked),
        start: whole.start,
        end: whole.end,
        key_start: key.start,
        key_end: key.end,
        value_start: value.start,
        value_end: value.end,
    }
}

/// Writes the predicates of a text to the start of `buffer`, which has room for them. `offset`
/// bytes were stripped before the text.
pub(crate) fn write_predicates(
    predicates: LocatedPredicates<'_>,
    offset: usize,
    buffer: &mut [CfgxPredicate],
)
    requires room { length predicates ≤ length buffer.old }
    requires located { (text : List ℕ) × AreLocated text predicates
        × (length text + offset < 2 ^ 64) }
    ensures { buffer.new ≡ map (c_predicate offset) predicates.entry
        ++ drop (length predicates.entry) buffer.old }
{
    let mut written = 0;
    for predicate in predicates {
        buffer[written] = c_predicate(predicate, offset);
        written += 1;
    }
}

/// Reads a condition, and fills `buffer` with its predicates. Returns their number.
///
/// The error is about the text, or memory was refused.
fn fill_predicates(
    alloc: Global,
    text: &[u8],
    buffer: &mut [CfgxPredicate],
) -> Result<usize, Refusal>
    ensures ok { IfOk result (λ needed. IsUtf8 text.now × (list : List CfgxPredicate)
        × ListsPredicates text.now list × Fills list buffer.old buffer.new needed) }
    ensures err { IfErr result (RefusesText text.now text_statuses) }
    ensures kept { OnErr result (buffer.new ≡ buffer.old) }
{
    // The reader stands in front of what can fail, or its room would be cleared once more.
    let mut reader = ConditionReader::new(alloc);
    let (condition, offset) = read_condition(&mut reader, text)?;
    let predicates = condition.located_predicates();
    let needed = predicates.left();
    if needed > buffer.len() {
        return Ok(needed);
    }
    write_predicates(predicates, offset, buffer);
    Ok(needed)
}

/// Lists the predicates of a condition in the order in which they are asked. A predicate that
/// stands twice is listed twice.
///
/// Returns the status `DONE`, and writes the number of predicates to `needed`. Fills `predicates`
/// if it has room for all of them, and otherwise leaves it as it was. Returns `FAULTY` if the text
/// has a fault, `NOT_UTF8` if it is not UTF-8, and `OUT_OF_MEMORY` if memory was refused. Unless
/// the status is `DONE`, `needed` becomes 0, and `predicates` is unchanged. `fault` becomes what
/// `cfgx_check` makes of it.
#[unsafe(no_mangle)]
pub extern "C" fn cfgx_predicates(
    alloc: Global,
    text: &[u8],
    predicates: &mut [CfgxPredicate],
    needed: &mut usize,
    fault: &mut CfgxFault,
) -> u32
    ensures done { result ≡ done → (list : List CfgxPredicate) × ListsPredicates text.now list
        × Fills list predicates.old predicates.new needed.new }
    ensures read { Tells [] (text.now ∷ []) result fault.new }
    ensures utf8 { result ≢ not_utf8 → IsUtf8 text.now }
    ensures kept { result ≢ done → (predicates.new ≡ predicates.old) × (needed.new ≡ 0) }
    ensures status { IsOneOf result (done ∷ faulty ∷ not_utf8 ∷ out_of_memory ∷ []) }
{
    *needed = 0;
    *fault = CfgxFault::default();
    match fill_predicates(alloc, text, predicates) {
        Ok(found) => {
            *needed = found;
            DONE
        }
        Err(refusal) => refusal.report(fault),
    }
}
