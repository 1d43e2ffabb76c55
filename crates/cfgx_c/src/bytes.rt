//! Answers and values as bytes.

ghost use Rattle.std.specs.Prelude.{◌≡◌, ◌<◌, ◌≤◌, ◌++◌, IfOk, OnErr, drop, length, map};
ghost use Rattle.cfgx_grammar.specs.Answer.{HasOneTree};
ghost use Rattle.cfg_expr.specs.Filling.{three_valued};
ghost use Rattle.cfg_expr.specs.Fold.{tree_fold};
ghost use Rattle.cfg_expr.specs.Given.{AreAnswersTo};
ghost use Rattle.cfgx_c.specs.Buffer.{Fills};
ghost use Rattle.cfgx_c.specs.Value.{answer_of, byte_of_value};

use cfg_expr::expr::Condition;
use smallvec::SmallVec;
use std::alloc::{AllocError, Global};

/// Returns the byte of a value: 0 for false, 1 for true, 2 for unknown.
pub(crate) fn byte_of_value(value: Option<bool>) -> u8
    ensures { result ≡ byte_of_value value }
{
    match value {
        Some(false) => 0,
        Some(true) => 1,
        None => 2,
    }
}

/// Returns the answer in a byte.
fn answer_of(byte: u8) -> Option<bool>
    ensures { result ≡ answer_of byte }
{
    match byte {
        0 => Some(false),
        1 => Some(true),
        _ => None,
    }
}

/// Returns the answers in `bytes`. Takes no memory for up to 33 answers.
///
/// The error is that `alloc` refused memory.
pub(crate) fn answers_in<'a>(
    alloc: &'a Global,
    bytes: &[u8],
) -> Result<SmallVec<Option<bool>, 33, &'a Global>, AllocError>
    ensures answers { IfOk result (λ answers. answers.items ≡ map answer_of bytes.now) }
    ensures short { OnErr result (33 < length bytes.now) }
{
    let mut answers = SmallVec::with_capacity(alloc, bytes.len())?;
    for byte in bytes {
        answers.push_reserved(answer_of(*byte));
    }
    Ok(answers)
}

/// Writes the answers in `bytes` to `list`, which has an item for each of them.
pub(crate) fn read_answers(bytes: &[u8], list: &mut [Option<bool>])
    requires { length list.old ≡ length bytes.now }
    ensures { list.new ≡ map answer_of bytes.now }
{
    for i in 0..bytes.len() {
        list[i] = answer_of(bytes[i]);
    }
}

/// Evaluates a condition over `answers`, which are in the order of its predicates.
///
/// The error is that `alloc` refused memory.
pub(crate) fn eval_over_bytes(
    alloc: Global,
    condition: &Condition<'_>,
    answers: &[u8],
) -> Result<Option<bool>, AllocError>
    requires { AreAnswersTo answers.now condition.now }
    ensures { IfOk result (λ value. (one : HasOneTree condition.now)
        × (value ≡ tree_fold three_valued one.tree (map answer_of answers.now))) }
{
    condition.eval_over(alloc, answers.iter().map(|byte| answer_of(*byte)))
}

/// Writes the bytes of `values` to the start of `buffer` if they all fit; otherwise `buffer` stays
/// as it was. Returns their number.
pub(crate) fn fill_values(buffer: &mut [u8], values: &[Option<bool>]) -> usize
    ensures { Fills (map byte_of_value values.now) buffer.old buffer.new result }
{
    let needed = values.len();
    if needed <= buffer.len() {
        write_values(buffer, values);
    }
    needed
}

/// Writes the bytes of `values` to the start of `buffer`.
fn write_values(buffer: &mut [u8], values: &[Option<bool>])
    requires { length values.now ≤ length buffer.old }
    ensures { buffer.new ≡ map byte_of_value values.now ++ drop (length values.now) buffer.old }
{
    for i in 0..values.len() {
        buffer[i] = byte_of_value(values[i]);
    }
}
