//! A `Counted` makes one call of its inner stream for each call, and counts the failed ones.
use cfgx_engine::engine::streams::{Counted, Sink, Source, write_whole};
use cfgx_testing::streams::{Pieces, interrupted};
use std::io;

// Returns the number of bytes that a read returns, if it succeeds, and the number of failed calls
// after it.
fn read<S: io::Read>(source: &mut Counted<S>, buffer: &mut [u8]) -> (Option<usize>, u64) {
    if source.failures() == u64::MAX {
        return (None, u64::MAX);
    }
    (Source::read(source, buffer).ok(), source.failures())
}

// The results of reads of at most three bytes, of which the second one fails, and their bytes.
const READS: &[(Option<usize>, u64, &[u8])] = &[
    (Some(3), 0, b"abc"),
    (None, 1, b""),
    (Some(3), 1, b"def"),
    (Some(1), 1, b"g"),
    (Some(0), 1, b""),
];

// Returns the index of the first read with another result than in `READS`.
fn first_wrong_read<S: io::Read>(source: &mut Counted<S>) -> Option<usize> {
    let mut buffer = [0u8; 8];
    for (i, (count, failures, bytes)) in READS.iter().enumerate() {
        if read(source, &mut buffer) != (*count, *failures) || !buffer.starts_with(bytes) {
            return Some(i);
        }
    }
    None
}

fn counts_reads() -> bool {
    let mut source = Counted::new(Pieces::new(b"abcdefg", 3, 2));
    first_wrong_read(&mut source).is_none()
}

/// A call on a sink.
#[derive(Clone, Copy)]
enum Call {
    Write,
    Flush,
    WriteWhole,
}

/// A call, its bytes, the number of bytes that it takes if it succeeds, and the number of failed
/// calls after it.
type Step = (Call, &'static [u8], Option<usize>, u64);

// Returns the number of bytes that the call takes, if it succeeds.
fn taken<S: io::Write>(sink: &mut Counted<S>, call: Call, bytes: &[u8]) -> Option<usize> {
    if sink.failures() == u64::MAX {
        return None;
    }
    let is_done = match call {
        Call::Write => return Sink::write(sink, bytes).ok(),
        Call::Flush => Sink::flush(sink).is_ok(),
        Call::WriteWhole => write_whole(sink, bytes),
    };
    if is_done { Some(bytes.len()) } else { None }
}

// Returns the index of the first step with another result.
fn first_wrong_step<S: io::Write>(sink: &mut Counted<S>, steps: &[Step]) -> Option<usize> {
    for (i, (call, bytes, wanted, failures)) in steps.iter().enumerate() {
        if taken(sink, *call, bytes) != *wanted || sink.failures() != *failures {
            return Some(i);
        }
    }
    None
}

// A full writer in memory takes no byte. That is a failed write.
fn counts_writes() -> bool {
    let mut room = [0u8; 4];
    let mut sink = Counted::new(&mut room[..]);
    let steps: &[Step] = &[
        (Call::Write, b"abc", Some(3), 0),
        (Call::Write, b"", Some(0), 0),
        (Call::Write, b"de", Some(1), 0),
        (Call::Write, b"e", Some(0), 1),
        (Call::Flush, b"", Some(0), 1),
    ];
    first_wrong_step(&mut sink, steps).is_none()
}

// `write_whole` writes the whole output to a writer in memory.
fn writes_whole() -> bool {
    let mut room = [0u8; 6];
    let mut sink = Counted::new(&mut room[..]);
    let steps: &[Step] = &[
        (Call::WriteWhole, b"hello\n", Some(6), 0),
        (Call::WriteWhole, b"more", None, 1),
    ];
    first_wrong_step(&mut sink, steps).is_none() && room == *b"hello\n"
}

// A stream that counts its calls. The first `failing` calls of each kind fail. If `is_empty`, a
// failed write takes no byte, and otherwise it returns an error.
#[derive(Drop)]
struct FirstFail {
    failing: u64,
    is_empty: bool,
    reads: u64,
    writes: u64,
    flushes: u64,
}

fn first_fail(failing: u64, is_empty: bool) -> Counted<FirstFail> {
    Counted::new(FirstFail {
        failing,
        is_empty,
        reads: 0,
        writes: 0,
        flushes: 0,
    })
}

// Returns the numbers of reads, writes and flushes of the inner stream.
fn calls(counted: &Counted<FirstFail>) -> (u64, u64, u64) {
    let stream = counted.get_ref();
    (stream.reads, stream.writes, stream.flushes)
}

impl io::Read for FirstFail {
    fn read(&mut self, _buffer: &mut [u8]) -> io::Result<usize> {
        self.reads = self.reads.saturating_add(1);
        if self.reads <= self.failing {
            return Err(interrupted());
        }
        Ok(0)
    }
}

impl io::Write for FirstFail {
    fn write(&mut self, bytes: &[u8]) -> io::Result<usize> {
        self.writes = self.writes.saturating_add(1);
        if self.writes > self.failing {
            Ok(bytes.len())
        } else if self.is_empty {
            Ok(0)
        } else {
            Err(interrupted())
        }
    }

    fn flush(&mut self) -> io::Result<()> {
        self.flushes = self.flushes.saturating_add(1);
        if self.flushes <= self.failing {
            return Err(interrupted());
        }
        Ok(())
    }
}

fn counts_errors() -> bool {
    let mut sink = first_fail(u64::MAX, false);
    let steps: &[Step] = &[
        (Call::Write, b"a", None, 1),
        (Call::Flush, b"", None, 2),
        (Call::WriteWhole, b"a", None, 3),
        (Call::WriteWhole, b"", None, 4),
    ];
    first_wrong_step(&mut sink, steps).is_none()
}

fn makes_failed_call_once() -> bool {
    let mut stream = first_fail(1, false);
    let mut bytes = [0u8; 4];
    let failing: &[Step] = &[(Call::Write, b"ab", None, 2), (Call::Flush, b"", None, 3)];
    let going: &[Step] = &[
        (Call::Write, b"ab", Some(2), 3),
        (Call::Flush, b"", Some(0), 3),
    ];
    read(&mut stream, &mut bytes) == (None, 1)
        && first_wrong_step(&mut stream, failing).is_none()
        && calls(&stream) == (1, 1, 1)
        && read(&mut stream, &mut bytes) == (Some(0), 3)
        && first_wrong_step(&mut stream, going).is_none()
        && calls(&stream) == (2, 2, 2)
}

fn makes_empty_write_once() -> bool {
    let mut sink = first_fail(1, true);
    let (failing, going): (&[Step], &[Step]) = (
        &[(Call::Write, b"ab", Some(0), 1)],
        &[(Call::Write, b"ab", Some(2), 1)],
    );
    first_wrong_step(&mut sink, failing).is_none()
        && calls(&sink) == (0, 1, 0)
        && first_wrong_step(&mut sink, going).is_none()
        && calls(&sink) == (0, 2, 0)
}

/// Returns whether the property with this name holds, or `None` if no property has it.
pub(super) fn property(name: &str) -> Option<bool> {
    Some(match name {
        "each read is counted if it fails" => counts_reads(),
        "each write is counted if it fails" => counts_writes(),
        "a whole output is written" => writes_whole(),
        "each error is counted" => counts_errors(),
        "a failed call is not made again" => makes_failed_call_once(),
        "a write that took nothing is not made again" => makes_empty_write_once(),
        _ => return None,
    })
}
