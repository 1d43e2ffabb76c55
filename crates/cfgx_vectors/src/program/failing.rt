//! The first failed call of a stream is the last call of both streams.
use cfgx_engine::engine::run;
use cfgx_testing::rows::{Finding, compare_pair, fail};
use cfgx_testing::streams::{ALL, Pieces, Recorder, sink_matches};
use cfgx_testing::triples::SIM;
use cfgx_testing::words::words_of;
use std::alloc::{AllocError, Global};
use std::str;

// Applies a setting such as `each=7`, by which the sink takes at most seven bytes per call.
fn apply(sink: &mut Recorder, setting: &str) -> Option<()> {
    let (name, number) = setting.split_once('=')?;
    let number = number.parse::<usize>().ok()?;
    match name {
        "each" => sink.each = number,
        "room" => sink.room = number,
        "failing" => sink.failing_write = number as u64,
        "empty" => sink.empty_write = number as u64,
        "flush" if number == 1 => sink.is_flush_failing = true,
        _ => return None,
    }
    Some(())
}

// Applies each of the settings.
fn apply_all(sink: &mut Recorder, settings: &str) -> Option<()> {
    for setting in settings.split_whitespace() {
        apply(sink, setting)?;
    }
    Some(())
}

// Returns the status and the output of a run over `input`, and the numbers of writes and flushes.
// Only calls of the sink fail.
fn ended_text(
    alloc: Global,
    words: &[&str],
    input: &str,
    mut sink: Recorder,
) -> Result<String, AllocError> {
    if sink.failures > 0 {
        return String::from_str(alloc, "a sink that failed before");
    }
    let mut source = Pieces::new(input.as_bytes(), ALL, 0);
    let status = run(alloc, words, &mut source, &mut sink);
    let written = str::from_utf8(sink.bytes.as_slice()).unwrap_or("bytes that are not UTF-8");
    let (writes, flushes) = (sink.writes, sink.flushes);
    let is_right = sink.failures == u64::from(status == 3) && source.is_read_whole();
    if is_right && !sink.is_misused {
        return format!(in alloc; "{status} | {written} | {writes} {flushes}");
    }
    format!(in alloc; "{status} | {written} | {writes} {flushes} | with a wrong call of a stream")
}

// Compares a run of `words` over `input` with `ended`. The settings apply to the sink.
fn compare_ended(
    alloc: Global,
    settings: &str,
    ended: (&str, &str, &str),
    input: &str,
    words: &[&str],
) -> Finding {
    let mut sink = Recorder::new(alloc);
    if apply_all(&mut sink, settings).is_none() {
        return fail(alloc, "no such sink");
    }
    let (status, written, calls) = ended;
    let actual = ended_text(alloc, words, input, sink);
    match format!(in alloc; "{written} | {calls}") {
        Ok(wanted) => compare_pair(alloc, actual, (status, wanted.as_str())),
        Err(_) => fail(alloc, "out of memory"),
    }
}

/// Compares a run of the words of the row with what the row says.
pub(super) fn finding(alloc: Global, row: &[String]) -> Option<Finding> {
    let [settings, status, written, calls, input, words @ ..] = row else {
        return None;
    };
    let ended = (status.as_str(), written.as_str(), calls.as_str());
    Some(match words_of(alloc, words) {
        Ok(words) => {
            compare_ended(
                alloc,
                settings.as_str(),
                ended,
                input.as_str(),
                words.as_slice(),
            )
        }
        Err(_) => fail(alloc, "out of memory"),
    })
}

// Returns whether a run ends with status 3 if write number `failing` fails. Each write takes one
// byte. The run must have written `output` before that write, and must make no call after it.
fn ends_at_write(alloc: Global, words: &[&str], input: &str, output: &[u8], failing: u64) -> bool {
    let mut source = Pieces::new(input.as_bytes(), ALL, 0);
    let mut sink = Recorder::new(alloc);
    sink.each = 1;
    sink.failing_write = failing;
    let status = run(alloc, words, &mut source, &mut sink);
    sink_matches(&sink, output, (failing, 0), 1) && status == 3 && source.is_read_whole()
}

/// Returns whether each failed write ends the run with status 3. The run must have written the
/// bytes before that write, one per call, and must make no call after it.
pub(super) fn ends_at_each_write(
    alloc: Global,
    words: &[&str],
    input: &str,
    output: &[u8],
) -> bool {
    for written in 0..output.len() {
        let failing = (written as u64).saturating_add(1);
        if !ends_at_write(alloc, words, input, &output[..written], failing) {
            return false;
        }
    }
    true
}

// Returns whether a run in which read number `failing` fails ends with status 3, leaves `left`
// unread, reads no more, and makes no call of its sink. Such a call would fail too.
fn ends_at_read(alloc: Global, input: &[u8], failing: u64, left: &[u8]) -> bool {
    let mut source = Pieces::new(input, 3, failing);
    let mut sink = Recorder::new(alloc);
    sink.failing_write = 1;
    sink.is_flush_failing = true;
    let status = run(alloc, &["pick", SIM], &mut source, &mut sink);
    let calls = (source.reads, source.failures);
    sink_matches(&sink, b"", (0, 0), 0)
        && status == 3
        && calls == (failing, 1)
        && source.left == left
}

// Returns whether each failed read ends the run. Each read has three bytes, and the last one meets
// the end.
fn ends_at_each_read(alloc: Global, input: &[u8]) -> bool {
    let mut left = input;
    for failing in 1..u64::MAX {
        if !ends_at_read(alloc, input, failing, left) {
            return false;
        }
        if left.is_empty() {
            return true;
        }
        left = &left[left.len().min(3)..];
    }
    false
}

/// Returns whether each failed write and each failed read is the last call of a run of `pick`.
pub(super) fn ends_at_each_call(alloc: Global, input: &str, written: &str) -> bool {
    ends_at_each_write(alloc, &["pick", SIM], input, written.as_bytes())
        && ends_at_each_read(alloc, input.as_bytes())
}
