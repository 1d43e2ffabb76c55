//! Tests of runs of the program in which memory is refused.
//!
//! A growth is a request for memory.
use super::{Call, Outcome, refuse_each_growth};
use cfg_expr::memory::SmallAllocator;
use cfgx_engine::engine::run;
use cfgx_testing::heap::{empty_heap, has_every_block};
use cfgx_testing::refusing::EVERY;
use cfgx_testing::streams::{ALL, Pieces, Recorder, USAGE, has_written, sink_matches};
use cfgx_testing::triples::SIM;
use cfgx_testing::words::words_of;
use std::alloc::{AllocError, Global};

// The status of wrong use.
const WRONG_USE: u8 = 2;

// The status of a run out of memory.
const OUT_OF_MEMORY: u8 = 3;

/// The input, the status and the output of a run with enough memory.
#[derive(Clone, Copy)]
pub(super) struct WantedRun<'a> {
    input: &'a str,
    status: u8,
    output: &'a [u8],
}

// Runs the program over `input`. Returns the status, the source with the rest of the input, and the
// sink with the output.
fn run_over<'i, A: SmallAllocator>(
    global: Global,
    alloc: A,
    words: &[&str],
    input: &'i str,
) -> (u8, Pieces<'i>, Recorder) {
    // Each read returns as many bytes as it can, and no read fails.
    let mut source = Pieces::new(input.as_bytes(), ALL, 0);
    let mut sink = Recorder::new(global);
    let status = run(alloc, words, &mut source, &mut sink);
    (status, source, sink)
}

// Returns whether the sink has no byte, and there was no write, no flush and no failed call.
fn was_not_called(sink: &Recorder) -> bool {
    sink_matches(sink, b"", (0, 0), 0)
}

// Returns whether the run has read all its input, and has the status and the output of `wanted`.
// Returns the error if the run was out of memory. Then it must not have called its sink, and the
// source must have a suffix of the input left.
fn check_ended(ended: &(u8, Pieces<'_>, Recorder), wanted: &WantedRun<'_>) -> Outcome {
    let (status, source, sink) = ended;
    if source.failures != 0 || !wanted.input.as_bytes().ends_with(source.left) {
        Ok(false)
    } else if *status == OUT_OF_MEMORY && was_not_called(sink) {
        Err(AllocError)
    } else {
        let is_right = has_written(sink, wanted.output) && *status == wanted.status;
        Ok(is_right && source.left.is_empty())
    }
}

/// Runs the program over the input of `wanted`, and checks that it ends as `wanted` says.
pub(super) fn check_run<A: SmallAllocator>(
    global: Global,
    alloc: A,
    words: &[&str],
    wanted: &WantedRun<'_>,
) -> Outcome {
    check_ended(&run_over(global, alloc, words, wanted.input), wanted)
}

// Refuses each growth of a run with `words` in turn. Returns the number of growths, or `None` if a
// run does not end as `wanted` says.
fn run_growths(global: Global, words: &[&str], wanted: &WantedRun<'_>) -> Option<u64> {
    refuse_each_growth(global, Call::Run(words, wanted))
}

/// Returns whether a run without input takes memory, ends with `status`, and survives refusals.
/// Each growth is refused in turn, and a run with memory after it must have the status and the
/// output of the first run, in which no growth is refused.
pub(super) fn run_survives(global: Global, words: &[&str], status: u8) -> bool {
    let (ended, _source, sink) = run_over(global, global, words, "");
    let wanted = WantedRun {
        input: "",
        status,
        output: sink.bytes.as_slice(),
    };
    ended == status && run_growths(global, words, &wanted).unwrap_or(0) > 0
}

/// A kind, a status, and the fields of that kind:
///
/// - `each refused`: the words. Each growth is refused in turn.
/// - `no growth`: the output, and the words. The run takes no memory.
/// - `pick`: the input and the output of a run of `pick` on the simulator. Each growth is refused
///   in turn.
/// - `pick alike`: the inputs and the outputs of two such runs, as input, output, input, output.
///   Both take the same number of growths.
/// - `without memory`: the words. Every growth is refused.
pub(super) const RUNS: &str = r#"
each refused | 1 | parse | \e
each refused | 0 | eval | all(a,~true,~4~)
each refused | 0 | eval | all(a, any(b), c) | a | ?b | c
each refused | 0 | eval | any(target_os = "linux", feature = "a", not(a), not(b))\
 | ?any(target_os = "linux", key = "v") | all(feature = "b", a, b, c, d, e, f)
each refused | 1 | eval | key) | a
each refused | 1 | eval | a | b | ?c | key)
each refused | 1 | eval | a | b | ?key) | c
each refused | 0 | target | aarch64-apple-ios | any(unix, a)
each refused | 0 | target | aarch64-apple-ios-sim | all(test, a, b, c, d, e)
each refused | 1 | target | aarch64-apple-ios | key)
no growth | 2 | unknown triple\n | target | nowhere | key)
// A wide run and a deep one.
each refused | 0 | eval | any(~a,~100~) | ?any(~b,~100~)
each refused | 0 | target | aarch64-apple-tvos | ~not(~40~a~)~40~
// No row is made for an unknown triple, and neither the condition nor the input is read.
no growth | 2 | unknown triple\n | target | nowhere | any(~a,~100~)
no growth | 2 | unknown triple\n | pick | nowhere
pick | 0 | SECTIONS | VERDICTS
pick | 1 | x | line 1: no tab\n
pick | 1 | a\tunix\n\nb\tkey)\n | line 3:\nkey)\n   ^ unopened parens\n
pick | 0 | m\tany(not(feature = "x"), target_os = "linux", test)\
 | m\tunknown\n\ttrue with 001\n\tfalse with 100\n
pick | 0 | \u{e9}\ttrue\r\n\r\n | \u{e9}\tyes\n
pick | 0 | \e | \e
// In a row `pick alike` each field begins on a line of its own.
// The first line leaves the inline room of the reader. Each line is answered in one of two vectors,
// in turn. After two lines, a line of at most their length takes no memory if the output has room.
// The first name has 20 bytes, so the block of the output has 20 and then 40. The output of all
// lines has 34 bytes.
pick alike | 0 | ~n~20~\tall(a, b, c, d, e, not(any(not(f))), windows)\n\
b\tall(a, b, c, d, e, not(any(not(f))), windows)\n\
 | ~n~20~\tno\nb\tno\n\
 | ~n~20~\tall(a, b, c, d, e, not(any(not(f))), windows)\n\
b\tall(a, b, c, d, e, not(any(not(f))), windows)\nc\twindows\n\
 | ~n~20~\tno\nb\tno\nc\tno\n
// Each later unknown section is decided in the memory of the first two, since the reader leaves the
// inline room before the second line. The first name has 400 bytes, so the block of the output has
// 400 and then 800. The output of all lines has fewer bytes.
// The functions of a list are asked before its other predicates. In `any(a, not(a))` the first
// digit is therefore that of the `a` inside `not`.
pick alike | 0 | ~n~400~\tany(a, not(a))\nb\tall(c, d)\n\
 | ~n~400~\tunknown\n\ttrue with 01\n\tfalse with 10\n\
b\tunknown\n\ttrue with 11\n\tfalse with 00\n\
 | ~n~400~\tany(a, not(a))\nb\tall(c, d)\nc\tnot(test)\nd\tall(unix, e)\nf\tany(g, windows)\n\
 | ~n~400~\tunknown\n\ttrue with 01\n\tfalse with 10\n\
b\tunknown\n\ttrue with 11\n\tfalse with 00\nc\tunknown\n\ttrue with 0\n\tfalse with 1\n\
d\tunknown\n\ttrue with 11\n\tfalse with 10\nf\tunknown\n\ttrue with 10\n\tfalse with 00\n
// Wrong use takes no memory, so its status stays 2. Any other run of these has status 3.
without memory | 2
without memory | 2 | parse
without memory | 2 | eval
without memory | 2 | pick
without memory | 2 | pick | a | b
without memory | 2 | target | nowhere
without memory | 3 | parse | a
without memory | 3 | eval | all(a,~true,~4~)
without memory | 3 | target | aarch64-apple-ios | )
"#;

// Returns whether a run without memory ends with `status`. If it is `WRONG_USE`, the run must write
// the usage and ask for no growth. If it is `OUT_OF_MEMORY`, the run must have asked for one.
fn ends_without_memory(global: Global, words: &[&str], status: u8) -> bool {
    let heap = empty_heap(global);
    heap.refuse(EVERY);
    let wrong_use = WantedRun {
        input: "",
        status: WRONG_USE,
        output: USAGE.as_bytes(),
    };
    let outcome = check_run(global, &heap, words, &wrong_use);
    let has_asked = heap.asked_growths() > 0;
    let is_right = match outcome {
        Ok(is_misused) => is_misused && status == WRONG_USE && !has_asked,
        Err(AllocError) => status == OUT_OF_MEMORY && has_asked,
    };
    is_right && has_every_block(heap)
}

// Returns whether a run takes no memory. The first of `fields` is the output, and the others are
// the words.
fn takes_no_growth(global: Global, status: u8, fields: &[&str]) -> bool {
    let [output, words @ ..] = fields else {
        return false;
    };
    let wanted = WantedRun {
        input: "",
        status,
        output: output.as_bytes(),
    };
    run_growths(global, words, &wanted) == Some(0)
}

// Refuses each growth of a run of `pick` in turn. The fields are its input and its output. Returns
// the number of growths, or `None` if a run does not end with `status` and the output.
fn pick_growths(global: Global, status: u8, fields: &[&str]) -> Option<u64> {
    let [input, output] = fields else {
        return None;
    };
    let wanted = WantedRun {
        input: *input,
        status,
        output: output.as_bytes(),
    };
    run_growths(global, &["pick", SIM], &wanted)
}

// Returns whether a run of `pick` takes memory, and ends with `status` and the output of the
// fields.
fn pick_survives(global: Global, status: u8, fields: &[&str]) -> bool {
    pick_growths(global, status, fields).unwrap_or(0) > 0
}

// Returns whether two runs of `pick` take memory, and the same number of growths.
fn picks_take_same(global: Global, status: u8, fields: &[&str]) -> bool {
    let (one, other) = fields.split_at(fields.len().min(2));
    let growths = pick_growths(global, status, one);
    growths.unwrap_or(0) > 0 && pick_growths(global, status, other) == growths
}

// Returns whether a run ends with `status`, with growths refused as `kind` says.
fn run_passes(global: Global, kind: &str, status: u8, fields: &[&str]) -> bool {
    match kind {
        "each refused" => run_survives(global, fields, status),
        "no growth" => takes_no_growth(global, status, fields),
        "pick" => pick_survives(global, status, fields),
        "pick alike" => picks_take_same(global, status, fields),
        "without memory" => ends_without_memory(global, fields, status),
        _ => false,
    }
}

/// Returns whether the run of the row, or each of its two runs, ends as the row says.
pub(super) fn row_passes(global: Global, row: &[String]) -> bool {
    let [kind, status, fields @ ..] = row else {
        return false;
    };
    match (status.parse::<u8>(), words_of(global, fields)) {
        (Ok(status), Ok(fields)) => run_passes(global, kind.as_str(), status, fields.as_slice()),
        _ => false,
    }
}
