//! Runs of the program: their outputs, their statuses, and the calls of their streams.
mod counted;
mod failing;
mod input;
mod reading;

use cfgx_testing::rows::{Finding, compare_pair, fail, require};
use cfgx_testing::streams::{ALL, run_text};
use cfgx_testing::triples::{IOS, SIM, TRIPLES};
use cfgx_testing::words::words_of;
use std::alloc::Global;

// Compares the status and the output of a run over `input` with those of a row.
fn compare_run(alloc: Global, words: &[&str], input: &[u8], ended: (&str, &str)) -> Finding {
    compare_pair(alloc, run_text(alloc, words, ALL, input), ended)
}

// Returns the status and the output of a row, and the words after them.
fn run_of(row: &[String]) -> Option<((&str, &str), &[String])> {
    match row {
        [status, written, words @ ..] => Some(((status.as_str(), written.as_str()), words)),
        _ => None,
    }
}

// Compares a run of the words of `row`, without input, with the status and the output of `row`.
fn finding_of_long_run(alloc: Global, row: &[String]) -> Option<Finding> {
    let (ended, words) = run_of(row)?;
    Some(match words_of(alloc, words) {
        Ok(words) => compare_run(alloc, words.as_slice(), &[], ended),
        Err(_) => fail(alloc, "out of memory"),
    })
}

// Compares a run of `words` with `ended`. The run may not read, and must end at a failed write.
fn compare_without_reads(alloc: Global, words: &[&str], ended: (&str, &str)) -> Finding {
    compare_run(alloc, words, &[], ended)?;
    let (status, written) = ended;
    require(
        alloc,
        reading::reads_nothing(alloc, words, (status, written)),
        "it reads its input",
    )?;
    let ends = failing::ends_at_each_write(alloc, words, "", written.as_bytes());
    require(alloc, ends, "it goes on past a failed write")
}

// Compares a run of the words of `row` with the status and the output of `row`. The run may not
// read.
fn finding_of_run(alloc: Global, row: &[String]) -> Option<Finding> {
    let (ended, words) = run_of(row)?;
    Some(match words_of(alloc, words) {
        Ok(words) => compare_without_reads(alloc, words.as_slice(), ended),
        Err(_) => fail(alloc, "out of memory"),
    })
}

// Compares a run of `pick` for `triple` over `input` with `ended`.
fn compare_pick(alloc: Global, triple: &str, input: &str, ended: (&str, &str)) -> Finding {
    compare_run(alloc, &["pick", triple], input.as_bytes(), ended)
}

// Compares a run of `pick` over `input` with `ended`. Its streams move at most `each` bytes per
// call.
fn compare_in_pieces(alloc: Global, each: usize, input: &str, ended: (&str, &str)) -> Finding {
    compare_pair(
        alloc,
        run_text(alloc, &["pick", SIM], each, input.as_bytes()),
        ended,
    )
}

// Compares runs of `pick` over `input` with `ended`. Their streams move few bytes per call, or all.
// A run must also end at each failed call.
fn compare_by_streams(alloc: Global, input: &str, ended: (&str, &str)) -> Finding {
    for each in &[1, 2, 3, 7, ALL] {
        compare_in_pieces(alloc, *each, input, ended)?;
    }
    require(
        alloc,
        failing::ends_at_each_call(alloc, input, ended.1),
        "it goes on past a failed call",
    )
}

// Compares the value of `text` on each target of `TRIPLES` with that of a row.
fn compare_on_each_target(alloc: Global, written: &str, text: &str) -> Finding {
    for triple in TRIPLES {
        compare_run(alloc, &["target", *triple, text], &[], ("0", written))?;
    }
    Ok(())
}

// Returns the bytes whose hexadecimal numbers the row lists, or `None` if it lists something else.
fn bytes_of(alloc: Global, row: &str) -> Option<Vec<u8>> {
    let mut bytes = Vec::new(alloc);
    for number in row.split(' ') {
        bytes.push(u8::from_str_radix(number, 16).ok()?).ok()?;
    }
    Some(bytes)
}

// Checks that `pick` refuses `input` as bytes that are not UTF-8.
fn compare_refused(alloc: Global, input: &[u8]) -> Finding {
    let ended = ("1", "input is not UTF-8\n");
    compare_run(alloc, &["pick", SIM], input, ended)?;
    compare_run(alloc, &["pick", IOS], input, ended)
}

// Checks that `pick` refuses the bytes of a row.
fn finding_of_bytes(alloc: Global, row: &str) -> Finding {
    match bytes_of(alloc, row) {
        Some(bytes) => compare_refused(alloc, bytes.as_slice()),
        None => fail(alloc, "a number that is no byte"),
    }
}

// Returns the finding of a check in a row of one field.
fn finding_of_one(alloc: Global, check: &str, field: &str) -> Option<Finding> {
    Some(match check {
        "counted stream" => require(alloc, counted::property(field)?, "it does not hold"),
        "not UTF-8" => finding_of_bytes(alloc, field),
        _ => return None,
    })
}

// Returns the finding of a check in a row of two fields.
fn finding_of_two(alloc: Global, check: &str, one: &str, other: &str) -> Option<Finding> {
    Some(match check {
        "run on each target" => compare_on_each_target(alloc, one, other),
        "failed read" => input::finding_of_failed_read(alloc, one, other),
        "length of an input" => input::finding_of_length(alloc, one, other),
        _ => return None,
    })
}

// Returns the finding of a check in a row of three fields.
fn finding_of_three(
    alloc: Global,
    check: &str,
    one: &str,
    other: &str,
    third: &str,
) -> Option<Finding> {
    Some(match check {
        "pick" => compare_pick(alloc, SIM, other, (one, third)),
        "streams of pick" => compare_by_streams(alloc, other, (one, third)),
        "reads" => reading::finding_of_reads(alloc, one, other, third),
        "whole input" => input::finding_of_whole(alloc, one, other, third),
        _ => return None,
    })
}

// Returns the finding of the check `check` in `row`, by the number of its fields.
fn finding_by_number(alloc: Global, check: &str, row: &[String]) -> Option<Finding> {
    match row {
        [one] => finding_of_one(alloc, check, one.as_str()),
        [one, other] => finding_of_two(alloc, check, one.as_str(), other.as_str()),
        [one, other, third] => {
            finding_of_three(alloc, check, one.as_str(), other.as_str(), third.as_str())
        }
        [status, input, written, triple] if check == "pick on a target" => {
            let ended = (status.as_str(), written.as_str());
            Some(compare_pick(alloc, triple.as_str(), input.as_str(), ended))
        }
        _ => None,
    }
}

/// Returns the finding of the check `check` in `row`, or `None` if no check with this name takes as
/// many fields as `row` has.
pub(crate) fn finding(alloc: Global, check: &str, row: &[String]) -> Option<Finding> {
    match check {
        "run" => finding_of_run(alloc, row),
        "long run" => finding_of_long_run(alloc, row),
        "ending" => failing::finding(alloc, row),
        _ => finding_by_number(alloc, check, row),
    }
}
