//! Texts that are passed as their bytes and their ends.

ghost use Rattle.std.specs.Prelude.{◌≡◌, ◌↔◌, All, IfErr, IfOk, IsTrue, length, take};
ghost use Rattle.std.specs.Str.{IsUtf8};
ghost use Rattle.std.specs.Str.Lossy.{utf8_valid_len};
ghost use Rattle.cfgx_c.specs.Ends.{AreEnds, parts};
ghost use Rattle.cfgx_c.specs.Faults.{HasNoUtf8};
ghost use Rattle.cfgx_c.specs.internal.Refusals.{IsAbout, IsThatOfFirst, views};

use crate::fault::{CfgxFault, Refusal};
use std::alloc::Global;

/// Whether these are the ends of parts that make up `len` items.
pub(crate) fn are_ends(ends: &[usize], len: usize) -> bool
    ensures { IsTrue result ↔ AreEnds ends.now len }
{
    let mut begin = 0;
    for &end in ends {
        if end < begin {
            return false;
        }
        begin = end;
    }
    begin == len
}

/// Returns the longest text at the front of `bytes`.
fn utf8_front(bytes: &[u8]) -> &str
    ensures front { result.now ≡ take (utf8_valid_len bytes.now) bytes.now }
    ensures utf8 { IsUtf8 result.now }
{
    match bytes.utf8_chunks().next() {
        Some(chunk) => chunk.valid(),
        None => "",
    }
}

/// Returns the parts of `bytes` with these ends as texts. `bytes` are tested once, as a whole.
///
/// The error is about the first part that is not UTF-8, and has `status`; or memory was refused.
pub(crate) fn texts<'a>(
    alloc: Global,
    bytes: &'a [u8],
    ends: &[usize],
    status: u32,
) -> Result<Vec<&'a str>, Refusal>
    requires { AreEnds ends.now (length bytes.now) }
    ensures ok { IfOk result (λ texts. (views texts.items ≡ parts ends.now bytes.now)
        × All IsUtf8 (parts ends.now bytes.now)) }
    ensures err { IfErr result
        (IsAbout status (IsThatOfFirst IsUtf8 HasNoUtf8 (parts ends.now bytes.now))) }
{
    let front = utf8_front(bytes);
    let mut texts = Vec::with_capacity(alloc, ends.len())?;
    let mut begin = 0;
    for &end in ends {
        // The end is behind the front, or it cuts a character.
        if !front.is_char_boundary(end) {
            let start = front.floor_char_boundary(end) - begin;
            return Err(Refusal {
                status,
                fault: CfgxFault::at_byte(texts.len(), start),
            });
        }
        texts.push(&front[begin..end])?;
        begin = end;
    }
    Ok(texts)
}
