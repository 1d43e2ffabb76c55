//! Streams whose failed calls are counted, and the one loop that writes.

ghost use Rattle.std.specs.Prelude.{◌≡◌, ℕ, ◌+◌, ◌<◌, List, Option, length, None};
ghost use Rattle.std.specs.Prelude.{IfSome, IfNone, is_some, if◌then◌else◌};
ghost use Rattle.std.specs.Bool.{MatchBool};
ghost use Rattle.std.specs.Io.{ReadsAtMost, WritesAtMost};
ghost use Rattle.std.specs.Io.KnownBytes.{Appends, Keeps, ReadConsumes, WriteAppends};
ghost use Rattle.cfgx_engine.specs.Streams.{failures_of, write_failures, Takes, TakesFront};

use std::io;
use std::marker::Model;

/// Where bytes are read from.
///
/// Contracts see the number of its failed calls and, if it tells them, the bytes that are still to
/// come.
pub trait Source {
    // The number of calls that failed so far.
    ghost failures: { Self → ℕ };

    // The bytes that are still to come, in order, or `None` if the source does not tell them.
    ghost unread: { Self → Option (List ℕ) };

    /// Reads bytes into a prefix of `buffer` and returns the length of this prefix. It returns 0
    /// only at the end of the source, or if `buffer` is empty.
    ///
    /// An error counts as a failed call and takes no bytes from the source. The contents of
    /// `buffer` are then not specified.
    fn read(&mut self, buffer: &mut [u8]) -> io::Result<usize>
        requires { failures self.old < u64.MAX }
        ensures count { failures self.new ≡ failures self.old + failures_of result }
        ensures bound { ReadsAtMost result buffer.new }
        ensures bytes { ReadConsumes (unread self.old) (unread self.new) result buffer.new };
}

/// Where bytes are written to.
///
/// Contracts see the number of its failed calls and, if it tells them, the bytes that were written.
pub trait Sink {
    // The number of calls that failed so far.
    ghost failures: { Self → ℕ };

    // The bytes that were written, in order, or `None` if the sink does not tell them.
    ghost written: { Self → Option (List ℕ) };

    /// Writes a prefix of `bytes` and returns its length.
    ///
    /// An error counts as a failed call. So does the length 0 if `bytes` is not empty. A failed
    /// call writes no bytes.
    fn write(&mut self, bytes: &[u8]) -> io::Result<usize>
        requires { failures self.old < u64.MAX }
        ensures count { failures self.new ≡ failures self.old + write_failures result bytes.now }
        ensures bound { WritesAtMost result bytes.now }
        ensures bytes { WriteAppends (written self.old) (written self.new) result bytes.now };

    /// Flushes what the sink has buffered. An error counts as a failed call. The bytes written so
    /// far stay the same.
    fn flush(&mut self) -> io::Result<()>
        requires { failures self.old < u64.MAX }
        ensures count { failures self.new ≡ failures self.old + failures_of result }
        ensures bytes { Keeps (written self.old) (written self.new) };
}

/// A reader or a writer of the standard library with a count of its failed calls.
///
/// Contracts see the stream and the count. It tells no bytes as a source or a sink, since nobody
/// can know those of a terminal or a pipe.
#[derive(Drop)]
pub struct Counted<S> {
    stream: S,
    failures: u64,
}

impl<S> Model for Counted<S> {
    ghost use Rattle.cfgx_engine.specs.Streams.{Counting};

    ghost Value = { Counting S };

    ghost view = { λ counted. record { stream = counted.stream; failures = counted.failures } };
}

impl<S> Counted<S> {
    /// Wraps a stream, of which no failed call is counted yet. It takes no memory.
    pub fn new(stream: S) -> Counted<S>
        ensures { result ≡ record { stream = stream; failures = 0 } }
    {
        Counted {
            stream,
            failures: 0,
        }
    }

    /// Returns the number of calls that failed so far.
    pub fn failures(&self) -> u64
        ensures { result ≡ self.now.failures }
    {
        self.failures
    }

    /// Returns the stream inside.
    pub fn get_ref(&self) -> &S
        ensures { result.now ≡ self.now.stream }
    {
        &self.stream
    }
}

impl<S: io::Read> Source for Counted<S> {
    ghost failures = { λ counted. counted.failures };

    ghost unread = { λ _. None };

    // In addition to the contract of the trait, the bytes are those that the stream gave.
    fn read(&mut self, buffer: &mut [u8]) -> io::Result<usize>
        requires { self.old.failures < u64.MAX }
        ensures count { self.new.failures ≡ self.old.failures + failures_of result }
        ensures bound { ReadsAtMost result buffer.new }
        ensures stream { ReadConsumes (S.remaining self.old.stream)
            (S.remaining self.new.stream) result buffer.new }
    {
        let outcome = self.stream.read(buffer);
        if outcome.is_err() {
            self.failures += 1;
        }
        outcome
    }
}

impl<S: io::Write> Sink for Counted<S> {
    ghost failures = { λ counted. counted.failures };

    ghost written = { λ _. None };

    // In addition to the contract of the trait, the bytes are those that the stream took.
    fn write(&mut self, bytes: &[u8]) -> io::Result<usize>
        requires { self.old.failures < u64.MAX }
        ensures count { self.new.failures ≡ self.old.failures + write_failures result bytes.now }
        ensures bound { WritesAtMost result bytes.now }
        ensures stream { WriteAppends (S.contents self.old.stream)
            (S.contents self.new.stream) result bytes.now }
    {
        let outcome = self.stream.write(bytes);
        let is_failed = match &outcome {
            Ok(taken) => *taken == 0 && !bytes.is_empty(),
            Err(_) => true,
        };
        if is_failed {
            self.failures += 1;
        }
        outcome
    }

    fn flush(&mut self) -> io::Result<()>
        requires { self.old.failures < u64.MAX }
        ensures count { self.new.failures ≡ self.old.failures + failures_of result }
        ensures stream { Keeps (S.contents self.old.stream) (S.contents self.new.stream) }
    {
        let outcome = self.stream.flush();
        if outcome.is_err() {
            self.failures += 1;
        }
        outcome
    }
}

/// Writes all of `bytes`, in as many calls of `write` as the sink needs, and then flushes once.
/// Returns whether no call failed.
///
/// If `bytes` is empty, it only flushes. It stops at the first failed call, even one that was only
/// interrupted. A prefix of `bytes` was written then. The sink must count fewer than `u64::MAX`
/// failed calls.
pub fn write_whole<W: Sink>(sink: &mut W, bytes: &[u8]) -> bool
    requires { W.failures sink.old < u64.MAX }
    ensures count { W.failures sink.new ≡ W.failures sink.old + (if result then 0 else 1) }
    ensures bytes { MatchBool result (Appends (W.written sink.old) (W.written sink.new) bytes.now)
        (TakesFront (W.written sink.old) (W.written sink.new) bytes.now) }
{
    write_in_turns(sink, bytes) && sink.flush().is_ok()
}

/// Writes `bytes` until all are written or a call fails. Returns whether no call failed.
fn write_in_turns<W: Sink>(sink: &mut W, bytes: &[u8]) -> bool
    requires { W.failures sink.old < u64.MAX }
    ensures count { W.failures sink.new ≡ W.failures sink.old + (if result then 0 else 1) }
    ensures bytes { MatchBool result (Appends (W.written sink.old) (W.written sink.new) bytes.now)
        (TakesFront (W.written sink.old) (W.written sink.new) bytes.now) }
{
    let mut left = bytes;
    while !left.is_empty() {
        let Some(rest) = write_once(sink, left) else {
            return false;
        };
        left = rest;
    }
    true
}

/// Calls `write` once. Returns the bytes that are left to write, or `None` if the call failed.
fn write_once<'a, W: Sink>(sink: &mut W, bytes: &'a [u8]) -> Option<&'a [u8]>
    requires room { W.failures sink.old < u64.MAX }
    requires some { 0 < length bytes.now }
    ensures count { W.failures sink.new ≡ W.failures sink.old + (if is_some result then 0 else 1) }
    ensures taken { IfSome result (λ left.
        Takes (W.written sink.old) (W.written sink.new) bytes.now left.now) }
    ensures fewer { IfSome result (λ left. length left.now < length bytes.now) }
    ensures none { IfNone result (Keeps (W.written sink.old) (W.written sink.new)) }
{
    match sink.write(bytes) {
        Ok(0) | Err(_) => None,
        Ok(taken) => Some(&bytes[taken..]),
    }
}
