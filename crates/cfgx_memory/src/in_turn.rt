//! Calls that take memory, with each of their growths refused in turn.
//!
//! The check of a call returns `Ok(true)` if the call returned its usual result, `AllocError` if it
//! was out of memory and left all else as it was, and `Ok(false)` in every other case. After each
//! refused growth the call is made again with memory, and every block has to be freed.
mod audits;
mod calls;
mod decisions;
pub(crate) mod expressions;
pub(crate) mod facts;
mod fields;
mod inputs;
pub(crate) mod lexing;
pub(crate) mod lists;
pub(crate) mod reading;
mod rows;
mod runs;
pub(crate) mod texts;
pub(crate) mod verdicts;
pub(crate) mod widths;

use cfg_expr::memory::SmallAllocator;
use cfgx_testing::checking::{is_ok_true, value_equals};
use cfgx_testing::heap::count_growths;
use cfgx_testing::rows::{TableToCheck, check_tables};
use runs::WantedRun;
use std::alloc::{AllocError, Global};
use texts::Parsed;

/// A value, or out of memory.
pub(crate) type AllocResult<T> = Result<T, AllocError>;

/// What the check of a call returns.
type Outcome = AllocResult<bool>;

/// A call that takes memory.
#[derive(Clone, Copy)]
enum Call<'a> {
    /// The text that the lexer reads.
    Lex(&'a str),
    /// The text that a reader reads, and what parsing it elsewhere returned.
    Read(&'a str, &'a Parsed),
    /// The name of a call, its text, and what parsing the text elsewhere returned.
    Text(&'a str, &'a str, &'a Parsed),
    /// The words of a run of the program, and how it has to end.
    Run(&'a [&'a str], &'a WantedRun<'a>),
    /// The name of a call of the table `CALLS`, and its text.
    Other(&'a str, &'a str),
}

// Makes the call in memory of `alloc` and checks its result. What the check itself needs is in
// memory of `global`.
fn check_call<A: SmallAllocator>(global: Global, alloc: A, call: &Call<'_>) -> Outcome {
    match call {
        Call::Lex(text) => lexing::check_lexer(alloc, text),
        Call::Read(text, parsed) => reading::check_reader(alloc, text, parsed),
        Call::Text(name, text, parsed) => texts::check_call(alloc, name, text, parsed),
        Call::Run(words, wanted) => runs::check_run(global, alloc, words, wanted),
        Call::Other(name, text) => calls::check_call(global, alloc, name, text),
    }
}

// Refuses each growth of the call in turn. Returns the number of growths, or `None` if a check
// fails.
fn refuse_each_growth(global: Global, call: Call<'_>) -> Option<u64> {
    count_growths(global, |heap| check_call(global, heap, &call))
}

// Returns whether the call takes memory and passes its check with each growth refused in turn.
fn survives_refusals(global: Global, call: Call<'_>) -> bool {
    refuse_each_growth(global, call).unwrap_or(0) > 0
}

/// A value with a method that copies it.
trait TryClone<A>: PartialEq + Drop {
    /// Returns a copy in memory of `alloc`.
    fn copy(&self, alloc: A) -> AllocResult<Self>;
}

// Checks that `value` equals its copy. Out of memory, a second copy must succeed.
fn check_copy<T: TryClone<A>, A: SmallAllocator>(alloc: A, value: &T) -> Outcome {
    let outcome = value_equals(value.copy(alloc), value);
    if outcome.is_ok() || is_ok_true(value_equals(value.copy(alloc), value)) {
        outcome
    } else {
        Ok(false)
    }
}

// Returns the first outcome that is not `Ok(true)`, or `Ok(true)` if there is none.
fn combine(outcomes: &[Outcome]) -> Outcome {
    for outcome in outcomes {
        match outcome {
            Ok(true) => {}
            Ok(false) => return Ok(false),
            Err(_) => return Err(AllocError),
        }
    }
    Ok(true)
}

const TABLES: &[TableToCheck<'_>] = &[
    ("each growth of a call on a text", texts::TEXTS, 49),
    ("each growth of each run", runs::RUNS, 32),
    ("each growth of each other call", calls::CALLS, 45),
    ("memory of decisions", decisions::DECISIONS, 8),
    ("memory of a reader", reading::READ, 10),
    ("index of a refused growth", audits::AUDITED, 3),
];

// Returns whether the row passes the check with this name, or `None` if there is no such check.
fn row_passes(global: Global, name: &str, row: &[String]) -> Option<bool> {
    match name {
        "each growth of a call on a text" => Some(texts::row_passes(global, row)),
        "each growth of each run" => Some(runs::row_passes(global, row)),
        "each growth of each other call" => Some(calls::row_passes(global, row)),
        "memory of decisions" => Some(decisions::row_passes(global, row)),
        "memory of a reader" => Some(reading::row_passes(global, row)),
        "index of a refused growth" => Some(audits::row_passes(global, row)),
        _ => None,
    }
}

#[test]
fn each_growth_is_refused(rt: HostRuntime) -> Result<(), String> {
    let global = rt.alloc();
    check_tables(global, TABLES, |name, row| row_passes(global, name, row))
}
