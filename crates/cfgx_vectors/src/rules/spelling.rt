//! The spelling of predicates, by writers that take few bytes per call, or that fail.
use cfg_expr::error::Failure;
use cfg_expr::expr::{Predicates, spell};
use cfg_expr::{Expression, Predicate};
use cfgx_engine::engine::Sink;
use cfgx_testing::checking::is_ok_true;
use cfgx_testing::rows::{Finding, compare, fail, repeated, require};
use cfgx_testing::streams::{ALL, Recorder};
use std::alloc::{AllocError, Global};
use std::io::{self, ErrorKind, Write};
use std::str;

// A writer in memory. The error of a failed call has the kind `kind`.
#[derive(Drop)]
struct Slow {
    sink: Recorder,
    kind: ErrorKind,
}

// Returns a writer that takes at most `each` bytes per call and never fails.
fn slow_writer(alloc: Global, each: usize) -> Slow {
    let mut sink = Recorder::new(alloc);
    sink.each = each;
    Slow {
        sink,
        kind: ErrorKind::Other,
    }
}

impl Write for Slow {
    fn write(&mut self, bytes: &[u8]) -> io::Result<usize> {
        if self.sink.failures == u64::MAX {
            return Err(io::Error::from(self.kind));
        }
        match Sink::write(&mut self.sink, bytes) {
            Ok(taken) => Ok(taken),
            Err(_) => Err(io::Error::from(self.kind)),
        }
    }

    fn flush(&mut self) -> io::Result<()> {
        Ok(())
    }
}

// Spells the predicates of a parsed expression. The error is the kind of the failed call.
fn spell_parsed(read: &Result<Expression, Failure>, writer: &mut Slow) -> Result<(), ErrorKind> {
    match read {
        Ok(expression) => spell_all(expression.predicates(), writer),
        Err(_) => Err(ErrorKind::InvalidInput),
    }
}

// Spells the predicates of `text`.
fn spell_text(alloc: Global, text: &str, writer: &mut Slow) -> Result<(), ErrorKind> {
    spell_parsed(&Expression::parse(alloc, text), writer)
}

fn spell_all(predicates: Predicates<'_>, writer: &mut Slow) -> Result<(), ErrorKind> {
    for predicate in predicates {
        if let Err(error) = spell_one(predicate, writer) {
            return Err(error.kind());
        }
    }
    Ok(())
}

// Spells a predicate.
fn spell_one(predicate: Predicate<'_>, writer: &mut Slow) -> io::Result<()> {
    let spelled = spell(&predicate, writer);
    drop(predicate);
    spelled
}

// Returns whether the writer has the spelling, and no call had an empty slice. If a call takes at
// most one byte, there must be one call for each byte.
fn has_spelling(writer: &Slow, spelled: &str) -> bool {
    let sink = &writer.sink;
    !sink.is_misused
        && sink.bytes.as_slice() == spelled.as_bytes()
        && (sink.each > 1 || sink.writes == spelled.len() as u64)
}

// Returns the spelling by calls that take at most `each` bytes, and what is wrong with it, if
// anything is.
fn spelled_text(alloc: Global, text: &str, each: usize) -> Result<String, AllocError> {
    let mut writer = slow_writer(alloc, each);
    let ended = spell_text(alloc, text, &mut writer);
    let written = str::from_utf8(writer.sink.bytes.as_slice()).unwrap_or("not UTF-8");
    if ended.is_ok() && has_spelling(&writer, written) {
        return String::from_str(alloc, written);
    }
    format!(in alloc; "{written} and an error or a wrong call at {each} bytes a call")
}

// Compares the spelling with `spelled` if each call takes all bytes, three bytes, or one byte.
fn compare_spelling(alloc: Global, text: &str, spelled: &str) -> Finding {
    compare(alloc, spelled_text(alloc, text, ALL), spelled)?;
    compare(alloc, spelled_text(alloc, text, 3), spelled)?;
    compare(alloc, spelled_text(alloc, text, 1), spelled)
}

/// Compares the spelling of a predicate with its text, which has 5,000 bytes between `prefix` and
/// `suffix`.
pub(super) fn finding_of_long(alloc: Global, prefix: &str, suffix: &str) -> Finding {
    match repeated(alloc, prefix, "x", 5_000, suffix) {
        Ok(text) => compare_spelling(alloc, text.as_str(), text.as_str()),
        Err(_) => fail(alloc, "out of memory"),
    }
}

/// Returns whether the flag `true` is spelled as it is. No text asks this flag, since `true` is a
/// literal.
pub(super) fn spells_true(alloc: Global) -> bool {
    let mut writer = slow_writer(alloc, 1);
    spell_one(Predicate::Flag("true"), &mut writer).is_ok() & has_spelling(&writer, "true")
}

// Returns whether the writer has the first `length` bytes of the spelling, and no call followed a
// failed one.
fn has_prefix(writer: &Slow, spelled: &str, length: usize) -> bool {
    writer.sink.bytes.len() == length
        && spelled.as_bytes().starts_with(writer.sink.bytes.as_slice())
        && !writer.sink.is_misused
}

// Returns whether the spelling stops after `room` bytes if the writer takes no more.
fn stops_after(alloc: Global, text: &str, spelled: &str, room: usize) -> bool {
    let mut writer = slow_writer(alloc, 4);
    writer.sink.room = room;
    let ended = spell_text(alloc, text, &mut writer);
    (ended == Err(ErrorKind::WriteZero)) & has_prefix(&writer, spelled, room)
}

// Returns whether the spelling stops where the writer is full, for each number of bytes.
fn stops_at_each(alloc: Global, text: &str, spelled: &str) -> bool {
    for room in 0..spelled.len() {
        if !stops_after(alloc, text, spelled, room) {
            return false;
        }
    }
    true
}

const KINDS: [ErrorKind; 3] = [
    ErrorKind::Interrupted,
    ErrorKind::BrokenPipe,
    ErrorKind::WouldBlock,
];

// Returns whether the spelling ends with the error of the writer if call number `failing` fails.
// Each call takes one byte. The bytes before the failed call must be written.
fn fails_at(alloc: Global, (text, spelled): (&str, &str), failing: usize, kind: ErrorKind) -> bool {
    let mut writer = slow_writer(alloc, 1);
    writer.sink.failing_write = failing as u64;
    writer.kind = kind;
    let has_error = spell_text(alloc, text, &mut writer) == Err(kind);
    has_error
        & (writer.sink.writes == failing as u64)
        & has_prefix(&writer, spelled, failing.saturating_sub(1))
}

// Returns whether the spelling ends with the error of the writer, for each failed call and each
// kind.
fn fails_at_each(alloc: Global, text: &str, spelled: &str) -> bool {
    for failing in 1..=spelled.len() {
        for kind in KINDS {
            if !fails_at(alloc, (text, spelled), failing, kind) {
                return false;
            }
        }
    }
    true
}

// Returns whether the text asks these predicates.
fn asks(alloc: Global, text: &str, predicates: Predicates<'_>) -> Result<bool, Failure> {
    let expression = Expression::parse(alloc, text)?;
    Ok(predicates.eq(expression.predicates()))
}

// Returns whether both texts ask the same predicates.
fn ask_same_predicates(alloc: Global, text: &str, other: &str) -> Result<bool, Failure> {
    let expression = Expression::parse(alloc, text)?;
    Ok(is_ok_true(asks(alloc, other, expression.predicates())))
}

// Returns whether the spelling asks the predicate that the text asks. Returns true if the text asks
// several.
fn asks_its_predicate(alloc: Global, text: &str, spelled: &str) -> bool {
    let has_several = text.starts_with("all(") || text.starts_with("any(");
    has_several || is_ok_true(ask_same_predicates(alloc, text, spelled))
}

/// Compares the spelling of the predicates of `text` with `spelled`. The spelling must stop where a
/// writer is full or fails. The spelling of a predicate must ask that predicate.
pub(super) fn finding(alloc: Global, text: &str, spelled: &str) -> Finding {
    compare_spelling(alloc, text, spelled)?;
    require(
        alloc,
        stops_at_each(alloc, text, spelled),
        "it goes on past a full writer",
    )?;
    require(
        alloc,
        fails_at_each(alloc, text, spelled),
        "it goes on past a failed call",
    )?;
    require(
        alloc,
        asks_its_predicate(alloc, text, spelled),
        "it is read as something else",
    )
}
