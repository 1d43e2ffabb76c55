//! Only `pick` reads, to the end of its input and no further. No write has an empty slice.
use cfgx_engine::engine::run;
use cfgx_testing::rows::{Finding, compare, fail};
use cfgx_testing::streams::{ALL, Pieces, Recorder, SECTIONS, has_written};
use cfgx_testing::triples::SIM;
use std::alloc::{AllocError, Global};

// Returns whether a run reads nothing of `input` and ends as `ended` says. A read would fail, and
// each write takes one byte.
fn leaves_unread(alloc: Global, words: &[&str], input: &[u8], ended: (&str, &str)) -> bool {
    let (status, written) = ended;
    let mut source = Pieces::new(input, ALL, 1);
    let mut sink = Recorder::new(alloc);
    sink.each = 1;
    let actual = run(alloc, words, &mut source, &mut sink);
    let calls = (source.reads, sink.writes);
    let is_ended = status.parse() == Ok(actual) && has_written(&sink, written.as_bytes());
    is_ended && calls == (0, written.len() as u64)
}

/// Returns whether a run reads nothing of any input, and has the status and the output of `ended`.
pub(super) fn reads_nothing(alloc: Global, words: &[&str], ended: (&str, &str)) -> bool {
    leaves_unread(alloc, words, SECTIONS.as_bytes(), ended)
        && leaves_unread(alloc, words, b"", ended)
        && leaves_unread(alloc, words, b"\xff", ended)
        && leaves_unread(alloc, words, b"x", ended)
}

// Returns the number of reads of a run of `pick`, and what is wrong with the run, if anything is.
fn reads_text(alloc: Global, each: usize, input: &str) -> Result<String, AllocError> {
    let mut source = Pieces::new(input.as_bytes(), each, 0);
    let mut sink = Recorder::new(alloc);
    let status = run(alloc, &["pick", SIM], &mut source, &mut sink);
    let reads = source.reads;
    if status < 2 && source.is_read_whole() {
        return format!(in alloc; "{reads}");
    }
    format!(in alloc; "{reads} and status {status}, or a wrong call of the source")
}

/// Compares the number of reads of a run of `pick` with that of a row. No read may follow the end.
pub(super) fn finding_of_reads(alloc: Global, each: &str, input: &str, reads: &str) -> Finding {
    match each.parse() {
        Ok(each) => compare(alloc, reads_text(alloc, each, input), reads),
        Err(_) => fail(alloc, "no number of bytes"),
    }
}
