//! `read_input` reads a whole input, up to its limit.
use cfgx_engine::engine::{Input, Stop, read_input};
use cfgx_testing::rows::{Finding, compare, fail};
use cfgx_testing::streams::{Counting, Pieces};
use std::alloc::{AllocError, Global};
use std::str;

const TEN: &[u8] = b"0123456789";

// Returns the error of `read_input`, if it returned one.
fn stop_of(read: Result<Input, Stop>) -> Option<Stop> {
    match read {
        Ok(_) => None,
        Err(stop) => Some(stop),
    }
}

// Returns the bytes that were not read before the failed read, if that was the last read.
fn unread_text(alloc: Global, failing_read: u64) -> Result<String, AllocError> {
    let mut source = Pieces::new(TEN, 3, failing_read);
    let stop = stop_of(read_input(alloc, &mut source));
    let unread = str::from_utf8(source.left).unwrap_or("not UTF-8");
    let (reads, failures) = (source.reads, source.failures);
    if stop == Some(Stop::Device) && (reads, failures) == (failing_read, 1) {
        return String::from_str(alloc, unread);
    }
    format!(in alloc; "{unread}, {stop:?}, {reads} reads, {failures} of them failed")
}

/// Compares the bytes that were not read before a failed read with those of a row.
pub(super) fn finding_of_failed_read(alloc: Global, failing_read: &str, unread: &str) -> Finding {
    match failing_read.parse() {
        Ok(failing_read) => compare(alloc, unread_text(alloc, failing_read), unread),
        Err(_) => fail(alloc, "no number of a read"),
    }
}

// Returns whether `read_input` returned `bytes`.
fn is_read(read: &Result<Input, Stop>, bytes: &[u8]) -> bool {
    match read {
        Ok(Input::Bytes(read)) => read.as_slice() == bytes,
        _ => false,
    }
}

// Returns the number of reads by which the bytes are read to their end.
fn reads_text(alloc: Global, bytes: &[u8], each: usize) -> Result<String, AllocError> {
    let mut source = Pieces::new(bytes, each, 0);
    let is_read = is_read(&read_input(alloc, &mut source), bytes);
    let reads = source.reads;
    if is_read && source.is_read_whole() {
        return format!(in alloc; "{reads}");
    }
    format!(in alloc; "{reads}, and other bytes or a wrong call")
}

/// Compares the number of reads of an input with that of a row.
pub(super) fn finding_of_whole(alloc: Global, input: &str, each: &str, reads: &str) -> Finding {
    match each.parse() {
        Ok(each) => compare(alloc, reads_text(alloc, input.as_bytes(), each), reads),
        Err(_) => fail(alloc, "no number of bytes"),
    }
}

// Returns the number of bytes that `read_input` returned, if it returned any.
fn length_of(read: &Result<Input, Stop>) -> Option<usize> {
    match read {
        Ok(Input::Bytes(bytes)) => Some(bytes.len()),
        _ => None,
    }
}

// Returns the number of bytes that are read from a source of `count` bytes, if it is `count`.
fn length_text(alloc: Global, count: usize, each: usize) -> Result<String, AllocError> {
    let mut source = Counting { left: count, each };
    let length = length_of(&read_input(alloc, &mut source));
    let left = source.left;
    if length == Some(count) && left == 0 {
        return format!(in alloc; "{count}");
    }
    format!(in alloc; "{length:?}, with {left} left")
}

/// Compares the number of bytes that are read from a source with that of a row.
pub(super) fn finding_of_length(alloc: Global, count: &str, each: &str) -> Finding {
    match (count.parse(), each.parse()) {
        (Ok(length), Ok(each)) => compare(alloc, length_text(alloc, length, each), count),
        _ => fail(alloc, "no number of bytes"),
    }
}
