//! The engine of the program: its commands, its streams, and the one call that runs it.
ghost use Rattle.std.specs.Prelude.{◌≡◌, ◌≢◌, ◌+◌, ◌<◌, ◌≤◌, ◌⊎◌};
ghost use Rattle.std.specs.Io.KnownBytes.{Appends};
ghost use Rattle.std.specs.Cow.{cow_slice_items};
ghost use Rattle.cfgx_engine.specs.Input.{ReadsFront};
ghost use Rattle.cfgx_engine.specs.Prints.{TakesInput, WritesFront, WritesWhole};
ghost use Rattle.cfgx_engine.specs.Request.{request_of, texts, Request};
ghost use Rattle.cfgx_engine.specs.Streams.{TakesFront};

mod command;
mod flags;
pub mod laws;
mod listing;
mod output;
mod reading;
mod sections;
pub mod streams;

use cfg_expr::memory::SmallAllocator;
use output::{Output, output_of};
pub use reading::{Input, Stop, read_input};
use std::alloc::Allocator;
use streams::write_whole;
pub use streams::{Counted, Sink, Source};

/// The status of a run that is out of memory, or in which a read, a write or a flush failed.
const REFUSED: u8 = 3;

/// Runs the command in `words`, those after the program's name, and returns the exit status.
/// `docs/RULES.md` has the rules.
///
/// - 0: the whole output was written.
/// - 1: a text or the input is faulty, and the fault was written.
/// - 2: wrong use, or a triple that is not built in.
/// - 3: out of memory, or a call of the source or the sink failed.
///
/// The output is complete in memory before the first `write`; that of wrong use takes no memory.
/// The first failed call ends the run. Both streams must count fewer than `u64::MAX` failed calls.
pub fn run<A: SmallAllocator, R: Source, W: Sink>(
    alloc: A,
    words: &[&str],
    source: &mut R,
    sink: &mut W,
) -> u8
    requires source { R.failures source.old < u64.MAX }
    requires sink { W.failures sink.old < u64.MAX }

    // Any other status than 3: the whole output was written, and no call failed.
    ensures done { result ≢ 3 → WritesWhole (request_of (texts words.now)) (R.unread source.old)
        result (W.written sink.old) (W.written sink.new) }
    ensures done_count { result ≢ 3 → (W.failures sink.new ≡ W.failures sink.old)
        × (R.failures source.new ≡ R.failures source.old) }

    // Status 3: either nothing was written, and at most one call of the source failed; or one call
    // of the sink failed, none of the source did, and a prefix of the output was written.
    ensures refused { result ≡ 3 → ((sink.new ≡ sink.old)
        × ((R.failures source.new ≡ R.failures source.old)
        ⊎ (R.failures source.new ≡ R.failures source.old + 1)))
        ⊎ ((W.failures sink.new ≡ W.failures sink.old + 1)
        × (R.failures source.new ≡ R.failures source.old)
        × WritesFront (request_of (texts words.now)) (R.unread source.old)
        (W.written sink.old) (W.written sink.new)) }

    // On wrong use, status 3 only says that a call of the sink failed.
    ensures wrong_use { request_of (texts words.now) ≡ Request.wrong_use → result ≡ 3
        → W.failures sink.new ≡ W.failures sink.old + 1 }

    // Only a request that reads its input reads, and what it read stays read.
    ensures source { ¬ TakesInput (request_of (texts words.now)) → source.new ≡ source.old }
    ensures front { ReadsFront (R.unread source.old) (R.unread source.new) }
    ensures status { result ≤ 3 }
{
    match output_of(alloc, words, source) {
        Ok(output) => write_output(sink, &output),
        Err(_) => REFUSED,
    }
}

/// Writes the output and returns its status, or `REFUSED` if a call of the sink failed.
fn write_output<A: Allocator, W: Sink>(sink: &mut W, output: &Output<A>) -> u8
    requires failures { W.failures sink.old < u64.MAX }
    requires status { output.now.status < 3 }
    ensures done { result ≢ 3 → (W.failures sink.new ≡ W.failures sink.old)
        × (result ≡ output.now.status)
        × Appends (W.written sink.old) (W.written sink.new)
        (cow_slice_items output.now.bytes) }
    ensures failed { result ≡ 3 → (W.failures sink.new ≡ W.failures sink.old + 1)
        × TakesFront (W.written sink.old) (W.written sink.new)
        (cow_slice_items output.now.bytes) }
    ensures status { result ≤ 3 }
{
    if write_whole(sink, output.bytes.as_slice()) {
        output.status
    } else {
        REFUSED
    }
}
