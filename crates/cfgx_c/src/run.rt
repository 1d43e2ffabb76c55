//! A run of the program.

ghost use Rattle.std.specs.Prelude.{◌≡◌, ◌↔◌, [], ◌∷◌, All, length};
ghost use Rattle.std.specs.Str.{IsUtf8};
ghost use Rattle.cfgx_c.specs.Ends.{AreEnds, parts};
ghost use Rattle.cfgx_c.specs.Run.{Runs};
ghost use Rattle.cfgx_c.specs.Status.{IsOneOf, bad_ends, done, faulty, not_utf8, out_of_memory};
ghost use Rattle.cfgx_c.specs.Status.{wrong_use};

use crate::buffer::fill;
use crate::ends::{are_ends, texts};
use crate::status::{BAD_ENDS, NOT_UTF8, OUT_OF_MEMORY};
use crate::streams::{SliceSource, VecSink};
use cfgx_engine::engine::run;
use std::alloc::Global;

/// Runs `cfgx` with words on `input`, and returns its exit status. The words, which are the
/// arguments after the program's name, have these ends in `words`. `output` is filled with what
/// `cfgx` prints.
///
/// The statuses are those of `docs/RULES.md`; `OUT_OF_MEMORY` says that memory was refused. Returns
/// `BAD_ENDS` if these are not the ends of parts of `words`, and `NOT_UTF8` if a word is not UTF-8.
/// With these three `needed` becomes 0, and `output` stays as it was.
#[unsafe(no_mangle)]
pub extern "C" fn cfgx_run(
    alloc: Global,
    words: &[u8],
    word_ends: &[usize],
    input: &[u8],
    output: &mut [u8],
    needed: &mut usize,
) -> u32
    ensures run { IsOneOf result (done ∷ faulty ∷ wrong_use ∷ [])
        → Runs (parts word_ends.now words.now) input.now result
        output.old output.new needed.new }
    ensures kept { IsOneOf result (out_of_memory ∷ not_utf8 ∷ bad_ends ∷ [])
        → (output.new ≡ output.old) × (needed.new ≡ 0) }
    ensures bad_ends { (result ≡ bad_ends) ↔ ¬ AreEnds word_ends.now (length words.now) }
    ensures not_utf8 { result ≡ not_utf8 → ¬ All IsUtf8 (parts word_ends.now words.now) }
    ensures utf8 { IsOneOf result (done ∷ faulty ∷ wrong_use ∷ [])
        → All IsUtf8 (parts word_ends.now words.now) }
    ensures status { IsOneOf result (done ∷ faulty ∷ wrong_use ∷ out_of_memory ∷ not_utf8
        ∷ bad_ends ∷ []) }
{
    *needed = 0;
    if !are_ends(word_ends, words.len()) {
        return BAD_ENDS;
    }
    let words = match texts(alloc, words, word_ends, NOT_UTF8) {
        Ok(words) => words,
        Err(refusal) => return refusal.status,
    };
    let mut reader = SliceSource { left: input };
    let mut writer = VecSink::new(alloc);
    let status = u32::from(run(alloc, words.as_slice(), &mut reader, &mut writer));
    if status == OUT_OF_MEMORY {
        return OUT_OF_MEMORY;
    }
    *needed = fill(output, writer.bytes.as_slice());
    status
}
