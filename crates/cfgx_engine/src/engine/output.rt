//! The output of a command, which is built in memory before any of it is written.

ghost use Rattle.std.specs.Prelude.{◌≡◌, ◌+◌, ◌<◌, [], IfOk, IsOk, string_bytes};
ghost use Rattle.cfgx_engine.specs.Input.{stop_failures, ReadsFront};
ghost use Rattle.cfgx_engine.specs.internal.ReadsMore.{IsShort, PicksFrom};
ghost use Rattle.cfgx_engine.specs.internal.Shows.{FitsResult, output_view};
ghost use Rattle.cfgx_engine.specs.internal.Shows.{ShowsFailure, ShowsResult};
ghost use Rattle.cfgx_engine.specs.Output.{answer_on, HasValueBy, text_line, value_text};
ghost use Rattle.cfgx_engine.specs.Prints.{Prints, PrintsInput, TakesInput};
ghost use Rattle.cfgx_engine.specs.Request.{request_of, texts, Request};

use super::command::{Command, command_of};
use super::flags::eval_with_flags;
use super::listing::lines;
use super::reading::{Input, Stop, read_input};
use super::sections::sections_output;
use super::streams::Source;
use crate::resolve::eval_on_target;
use cfg_expr::Expression;
use cfg_expr::error::Failure;
use cfg_expr::memory::SmallAllocator;
use cfg_expr::targets::TargetInfo;
use cfg_expr::targets::builtins::builtin;
use std::alloc::{AllocError, Allocator};
use std::borrow::CowSlice;

const USAGE: &str =
    "usage: cfgx parse TEXT | eval TEXT FLAG.. | target TRIPLE TEXT | pick TRIPLE\n";

const UNKNOWN_TRIPLE: &str = "unknown triple\n";

const TOO_LONG: &str = "input too long\n";

const NOT_UTF8_MESSAGE: &str = "input is not UTF-8\n";

const DONE: u8 = 0;

const FAULTY: u8 = 1;

/// The status if the words are wrong: wrong use, or a triple that no built-in target has.
const WRONG_WORDS: u8 = 2;

/// The bytes to write, and the exit status after them.
#[derive(Drop)]
pub(super) struct Output<A: Allocator> {
    pub(super) bytes: CowSlice<'static, u8, A>,
    pub(super) status: u8,
}

impl<A: Allocator> Output<A> {
    /// Returns the output with a constant text. It takes no memory.
    fn constant(text: &'static str, status: u8) -> Self
        ensures { output_view result ≡ record { bytes = text.now; status = status } }
    {
        Output {
            bytes: CowSlice::Borrowed(text.as_bytes()),
            status,
        }
    }

    /// Returns the output of a command that found no fault.
    pub(super) fn done(bytes: Vec<u8, A>) -> Self
        ensures { output_view result ≡ record { bytes = bytes.items; status = 0 } }
    {
        Output {
            bytes: CowSlice::Owned(bytes),
            status: DONE,
        }
    }

    /// Returns the output that reports a fault.
    pub(super) fn faulty(message: String<A>) -> Self
        ensures { output_view result ≡ record { bytes = string_bytes message; status = 1 } }
    {
        Output {
            bytes: CowSlice::Owned(message.into_bytes()),
            status: FAULTY,
        }
    }
}

/// Builds the output of the command in `words`. Only `pick` reads from `source`, and only if its
/// triple is built in. Wrong use takes no memory.
pub(super) fn output_of<A: SmallAllocator, R: Source>(
    alloc: A,
    words: &[&str],
    source: &mut R,
) -> Result<Output<A>, Stop>
    requires { R.failures source.old < u64.MAX }
    ensures right { IfOk result (λ output. PrintsInput (request_of (texts words.now))
        (R.unread source.old) (output_view output)) }
    ensures wrong_use { request_of (texts words.now) ≡ Request.wrong_use → IsOk result }
    ensures count { R.failures source.new ≡ R.failures source.old + stop_failures result }
    ensures front { ReadsFront (R.unread source.old) (R.unread source.new) }
    ensures others { ¬ TakesInput (request_of (texts words.now)) → source.new ≡ source.old }
{
    match command_of(words) {
        Command::Parse(text) => Ok(parse_output(alloc, text)?),
        Command::Eval(text, flags) => Ok(eval_output(alloc, text, flags)?),
        Command::Target(triple, text) => Ok(target_output(alloc, triple, text)?),
        Command::Pick(triple) => pick_output(alloc, triple, source),
        Command::WrongUse => Ok(Output::constant(USAGE, WRONG_WORDS)),
    }
}

/// Returns the output of `parse`: the predicates of `text`, or its fault.
fn parse_output<A: SmallAllocator>(alloc: A, text: &str) -> Result<Output<A>, AllocError>
    ensures { IfOk result (λ output. Prints (Request.parse text.now) [] (output_view output)) }
{
    match Expression::parse(alloc, text) {
        Ok(expression) => Ok(Output::done(lines(alloc, expression.predicates())?)),
        Err(failure) => fault_output(alloc, failure),
    }
}

/// Returns the output of `eval`: the value of `text` with `flags`, or the first fault.
fn eval_output<A: SmallAllocator>(
    alloc: A,
    text: &str,
    flags: &[&str],
) -> Result<Output<A>, AllocError>
    ensures { IfOk result (λ output.
        Prints (Request.eval text.now (texts flags.now)) [] (output_view output)) }
{
    result_output(alloc, eval_with_flags(alloc, text, flags))
}

/// Returns the output of `target`: the value of `text` on the built-in target with `triple`, or its
/// fault. The triple is looked up before the text is parsed.
fn target_output<A: SmallAllocator>(
    alloc: A,
    triple: &str,
    text: &str,
) -> Result<Output<A>, AllocError>
    ensures { IfOk result (λ output.
        Prints (Request.target triple.now text.now) [] (output_view output)) }
{
    let Some(target) = builtin(alloc, triple)? else {
        return Ok(Output::constant(UNKNOWN_TRIPLE, WRONG_WORDS));
    };
    result_output(alloc, parse_and_eval(alloc, &target, text))
}

/// Parses `text` and evaluates it on `target`.
fn parse_and_eval<A: SmallAllocator>(
    alloc: A,
    target: &TargetInfo<'_, A>,
    text: &str,
) -> Result<Option<bool>, Failure<A>>
    ensures { FitsResult (HasValueBy (answer_on target.now) text.now) result }
{
    let condition = Expression::parse(alloc, text)?;
    Ok(eval_on_target(alloc, &condition, target)?)
}

/// Returns the output of `pick`: the verdicts of the built-in target with `triple` on the sections
/// of the input. The input is read only if there is such a target.
fn pick_output<A: SmallAllocator, R: Source>(
    alloc: A,
    triple: &str,
    source: &mut R,
) -> Result<Output<A>, Stop>
    requires { R.failures source.old < u64.MAX }
    ensures right { IfOk result (λ output.
        PrintsInput (Request.pick triple.now) (R.unread source.old) (output_view output)) }
    ensures count { R.failures source.new ≡ R.failures source.old + stop_failures result }
    ensures front { ReadsFront (R.unread source.old) (R.unread source.new) }
    ensures others { ¬ TakesInput (Request.pick triple.now) → source.new ≡ source.old }
{
    let Some(target) = builtin(alloc, triple)? else {
        return Ok(Output::constant(UNKNOWN_TRIPLE, WRONG_WORDS));
    };
    let input = read_input(alloc, source)?;
    Ok(input_output(alloc, &target, input)?)
}

/// Returns the output of `pick` for an input that was read.
fn input_output<A: SmallAllocator>(
    alloc: A,
    target: &TargetInfo<'_, A>,
    input: Input<A>,
) -> Result<Output<A>, AllocError>
    requires { IsShort input }
    ensures { IfOk result (λ output. PicksFrom (answer_on target.now) input (output_view output)) }
{
    match input {
        Input::Bytes(bytes) => match str::from_utf8(bytes.as_slice()) {
            Ok(text) => sections_output(alloc, target, text),
            Err(_) => Ok(Output::constant(NOT_UTF8_MESSAGE, FAULTY)),
        },
        Input::TooLong => Ok(Output::constant(TOO_LONG, FAULTY)),
    }
}

/// Returns the output of a value, or of the fault in its place.
fn result_output<A: Allocator>(
    alloc: A,
    value: Result<Option<bool>, Failure<A>>,
) -> Result<Output<A>, AllocError>
    ensures { IfOk result (λ output. ShowsResult value (output_view output)) }
{
    match value {
        Ok(value) => Ok(Output::constant(value_line(value), DONE)),
        Err(failure) => fault_output(alloc, failure),
    }
}

/// Returns the line of a value.
fn value_line(value: Option<bool>) -> &'static str
    ensures { result.now ≡ text_line (value_text value) }
{
    match value {
        Some(true) => "true\n",
        Some(false) => "false\n",
        None => "unknown\n",
    }
}

/// Returns the output of a fault. Returns an error if `failure` is an error of memory, or if
/// `alloc` refuses memory for the message.
fn fault_output<A: Allocator>(alloc: A, failure: Failure<A>) -> Result<Output<A>, AllocError>
    ensures { IfOk result (λ output. ShowsFailure failure (output_view output)) }
{
    match failure {
        Failure::Parse(error) => Ok(Output::faulty(format!(in alloc; "{error}\n")?)),
        Failure::Memory(error) => Err(error),
    }
}
