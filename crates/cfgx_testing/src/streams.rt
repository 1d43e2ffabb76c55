//! Streams in memory that move few bytes per call and fail on demand, and runs over them.
ghost use Rattle.std.specs.Prelude.{◌≡◌, [], Some};
ghost use Rattle.std.specs.Io.{ReadsAtMost};
ghost use Rattle.std.specs.Io.KnownBytes.{ReadConsumes};

use cfgx_engine::engine::{Sink, Source, run};
use std::alloc::{AllocError, Global};
use std::io::ErrorKind;
use std::{io, str};

/// The output of wrong use.
pub const USAGE: &str =
    "usage: cfgx parse TEXT | eval TEXT FLAG.. | target TRIPLE TEXT | pick TRIPLE\n";

/// Sections of which the simulator takes the first, may take the second and does not take the
/// third.
pub const SECTIONS: &str = "a\tcfg(target_abi = \"sim\")\n\
    b\tany(windows, feature = \"x\")\n\
    c\tall(windows, feature = \"x\")\n";

/// The output of `pick` for `SECTIONS` on the simulator.
pub const VERDICTS: &str = "a\tyes\nb\tunknown\n\ttrue with 01\n\tfalse with 00\nc\tno\n";

/// The number of bytes per call that is no limit.
pub const ALL: usize = usize::MAX;

/// Returns the error of an interrupted call. Such a call is not tried again either.
pub fn interrupted() -> io::Error {
    io::Error::from(ErrorKind::Interrupted)
}

/// A source without bytes. Its reads never fail.
#[derive(Drop)]
pub struct Ended;

impl Source for Ended {
    ghost failures = { λ _. 0 };

    ghost unread = { λ _. Some [] };

    fn read(&mut self, _buffer: &mut [u8]) -> io::Result<usize> {
        Ok(0)
    }
}

/// A source that returns at most `each` bytes per call. Its read with the number `failing_read`,
/// counted from 1, fails.
#[derive(Drop)]
pub struct Pieces<'a> {
    /// The bytes that were not read yet
    pub left: &'a [u8],
    each: usize,
    failing_read: u64,
    /// The number of reads
    pub reads: u64,
    /// The number of failed reads
    pub failures: u64,
    has_ended: bool,
    /// Whether a read had an empty buffer, or followed a read that failed or met the end
    pub is_misused: bool,
}

impl Pieces<'_> {
    /// Returns a source of `left`. No read fails if `failing_read` is 0.
    pub fn new(left: &[u8], each: usize, failing_read: u64) -> Pieces<'_>
        ensures { result.failures ≡ 0 }
    {
        Pieces {
            left,
            each,
            failing_read,
            reads: 0,
            failures: 0,
            has_ended: false,
            is_misused: false,
        }
    }

    /// Returns whether all bytes were read and no call was wrong or failed.
    pub fn is_read_whole(&self) -> bool {
        self.left.is_empty() && self.failures == 0 && !self.is_misused
    }
}

impl io::Read for Pieces<'_> {
    ghost remaining = { λ source. Some source.left.now };

    fn read(&mut self, buffer: &mut [u8]) -> io::Result<usize>
        ensures bound { ReadsAtMost result buffer.new }
        ensures bytes { ReadConsumes (Some self.old.left.now) (Some self.new.left.now)
            result buffer.new }
        ensures kept { self.new.failures ≡ self.old.failures }
    {
        self.reads = self.reads.saturating_add(1);
        self.is_misused |= buffer.is_empty() || self.has_ended;
        if self.reads == self.failing_read {
            self.has_ended = true;
            return Err(interrupted());
        }
        self.has_ended = self.left.is_empty();
        let count = buffer.len().min(self.each.max(1)).min(self.left.len());
        let (taken, rest) = self.left.split_at(count);
        buffer[..count].copy_from_slice(taken);
        self.left = rest;
        Ok(count)
    }
}

impl Source for Pieces<'_> {
    ghost failures = { λ source. source.failures };

    ghost unread = { λ source. Some source.left.now };

    fn read(&mut self, buffer: &mut [u8]) -> io::Result<usize> {
        let count = io::Read::read(self, buffer);
        if count.is_err() {
            self.failures += 1;
        }
        count
    }
}

/// A source of `left` bytes, at most `each` per call. It leaves the buffer as it is.
#[derive(Drop)]
pub struct Counting {
    /// The number of bytes that were not read yet
    pub left: usize,
    /// The most bytes of a call
    pub each: usize,
}

impl Source for Counting {
    ghost use Rattle.std.specs.Prelude.{None};

    ghost failures = { λ _. 0 };

    // The source does not tell its bytes. The contract of a read says enough about them.
    ghost unread = { λ _. None };

    fn read(&mut self, buffer: &mut [u8]) -> io::Result<usize> {
        let count = buffer.len().min(self.each).min(self.left);
        self.left -= count;
        Ok(count)
    }
}

/// A sink that takes at most `each` bytes per call and `room` bytes in all. Its write with the
/// number `failing_write` fails, and that with the number `empty_write` takes no byte, both counted
/// from 1.
#[derive(Drop)]
pub struct Recorder {
    /// The bytes that were written
    pub bytes: Vec<u8>,
    /// The number of failed calls
    pub failures: u64,
    /// The most bytes of a call
    pub each: usize,
    /// The number of bytes that the sink still takes
    pub room: usize,
    /// The number of the write that fails, or 0
    pub failing_write: u64,
    /// The number of the write that takes no byte, or 0
    pub empty_write: u64,
    /// Whether each flush fails
    pub is_flush_failing: bool,
    /// The number of writes
    pub writes: u64,
    /// The number of flushes
    pub flushes: u64,
    /// Whether a write had an empty slice or followed a flush, or a call followed a failed one
    pub is_misused: bool,
}

impl Recorder {
    /// Returns a sink that takes all bytes.
    pub fn new(alloc: Global) -> Recorder
        ensures { result.failures ≡ 0 }
    {
        Recorder {
            bytes: Vec::new(alloc),
            failures: 0,
            each: usize::MAX,
            room: usize::MAX,
            failing_write: 0,
            empty_write: 0,
            is_flush_failing: false,
            writes: 0,
            flushes: 0,
            is_misused: false,
        }
    }
}

impl Sink for Recorder {
    ghost failures = { λ sink. sink.failures };

    ghost written = { λ sink. Some sink.bytes.items };

    fn write(&mut self, bytes: &[u8]) -> io::Result<usize> {
        self.writes = self.writes.saturating_add(1);
        self.is_misused |= bytes.is_empty() || self.failures > 0 || self.flushes > 0;
        if bytes.is_empty() {
            return Ok(0);
        }
        if self.writes == self.failing_write {
            self.failures += 1;
            return Err(interrupted());
        }
        let taken = bytes.len().min(self.each).min(self.room);
        if taken == 0 || self.writes == self.empty_write {
            self.failures += 1;
            return Ok(0);
        }
        if self.bytes.extend_from_slice(&bytes[..taken]).is_err() {
            self.failures += 1;
            return Err(interrupted());
        }
        self.room -= taken;
        Ok(taken)
    }

    fn flush(&mut self) -> io::Result<()> {
        self.flushes = self.flushes.saturating_add(1);
        self.is_misused |= self.failures > 0;
        if self.is_flush_failing {
            self.failures += 1;
            return Err(interrupted());
        }
        Ok(())
    }
}

/// Returns whether `output` was written with one flush and no failed call.
pub fn has_written(sink: &Recorder, output: &[u8]) -> bool {
    sink_matches(sink, output, (sink.writes, 1), 0)
}

/// Returns whether `output` was written by these numbers of writes and flushes, of which `failures`
/// failed. No write had an empty slice or followed a flush, and no call followed a failed one.
pub fn sink_matches(sink: &Recorder, output: &[u8], calls: (u64, u64), failures: u64) -> bool {
    sink.bytes.as_slice() == output
        && (sink.writes, sink.flushes) == calls
        && sink.failures == failures
        && !sink.is_misused
}

/// Returns whether a run with `words` reads `input` to its end, writes the output of `ended` with
/// one flush and no failed call, and returns the status of `ended`. Each call moves at most `each`
/// bytes.
pub fn run_ends_with(
    alloc: Global,
    words: &[&str],
    each: usize,
    input: &[u8],
    ended: (&str, u8),
) -> bool {
    let mut source = Pieces::new(input, each, 0);
    let mut sink = Recorder::new(alloc);
    sink.each = each;
    let status = run(alloc, words, &mut source, &mut sink);
    has_written(&sink, ended.0.as_bytes()) && status == ended.1 && source.is_read_whole()
}

// Returns the status and the output, as rows write them. The text says so if a call of a stream was
// wrong.
fn ended_text(
    alloc: Global,
    status: u8,
    sink: &Recorder,
    is_read_whole: bool,
) -> Result<String, AllocError> {
    let output = sink.bytes.as_slice();
    let text = str::from_utf8(output).unwrap_or("bytes that are not UTF-8");
    let is_stopped = status == 3 && !sink.is_misused;
    if is_stopped || (is_read_whole && has_written(sink, output)) {
        return format!(in alloc; "{status} | {text}");
    }
    format!(in alloc; "{status} | {text} | with a wrong call of a stream")
}

/// Returns the status and the output of a run with `words` over `input`, as rows write them, such
/// as `0 | yes`. Each call moves at most `each` bytes.
pub fn run_text(
    alloc: Global,
    words: &[&str],
    each: usize,
    input: &[u8],
) -> Result<String, AllocError> {
    let mut source = Pieces::new(input, each, 0);
    let mut sink = Recorder::new(alloc);
    sink.each = each;
    let status = run(alloc, words, &mut source, &mut sink);
    ended_text(alloc, status, &sink, source.is_read_whole())
}
