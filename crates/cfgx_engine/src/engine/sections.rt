//! Reads the input of the command `pick` line by line, and makes the output.

ghost use Rattle.std.specs.Prelude.{◌≡◌, ◌≤◌, ◌++◌, [], Err, IfErr, IfOk, OnOk, length, map};
ghost use Rattle.std.specs.Prelude.{IsSomeAnd, string_bytes};
ghost use Rattle.std.specs.List.{position_or_len};
ghost use Rattle.std.specs.Str.Lines.{strip_carriage_return};
ghost use Rattle.cfgx_syntax.specs.Error.{failure_of};
ghost use Rattle.cfgx_engine.specs.Input.{input_limit};
ghost use Rattle.cfgx_engine.specs.internal.AddsLine.{AddsLine, AddsVerdict, decision_text};
ghost use Rattle.cfgx_engine.specs.internal.AddsLine.{IfMessage, line_view};
ghost use Rattle.cfgx_engine.specs.internal.Shows.{output_view};
ghost use Rattle.cfgx_engine.specs.Output.{answer_on, faulty_output};
ghost use Rattle.cfgx_engine.specs.Sections.{PrintsLine, PrintsLines, digits, filling_line};
ghost use Rattle.cfgx_engine.specs.Sections.{is_tab, line_fault, line_of, lines_of};

use super::output::Output;
use crate::resolve::Decider;
use cfg_expr::Decision;
use cfg_expr::error::Failure;
use cfg_expr::expr::{Condition, ConditionReader};
use cfg_expr::memory::SmallAllocator;
use cfg_expr::targets::TargetInfo;
use std::alloc::{AllocError, Allocator};

/// Why a line has no output. No output of the lines before it is kept.
#[derive(Drop)]
enum LineError<A: Allocator> {
    /// The line is faulty, and this is the message
    Faulty(String<A>),
    /// The allocator refused memory
    Memory(AllocError),
}

impl<A: Allocator> From<AllocError> for LineError<A> {
    ghost use Rattle.cfgx_engine.specs.declared.engine.sections.LineError.TheVariants.{Memory};

    ghost from_gives = { λ error failed. failed ≡ Memory error };

    fn from(error: AllocError) -> LineError<A> {
        LineError::Memory(error)
    }
}

/// A line, cut at its first tab.
#[derive(Clone, Copy)]
enum Line<'a> {
    /// The line has no byte
    Empty,
    /// The line has bytes, but no tab
    Undivided,
    /// What stands before the first tab, and behind it
    Section { name: &'a str, condition: &'a str },
}

/// Returns the output for `text`: the verdict of `target` on each section, with the two
/// fillings if it is unknown. Empty lines are skipped. If a line is faulty, the output is the
/// message of the first such line alone.
pub(super) fn sections_output<A: SmallAllocator>(
    alloc: A,
    target: &TargetInfo<'_, A>,
    text: &str,
) -> Result<Output<A>, AllocError>
    requires { length text.now ≤ input_limit }
    ensures { IfOk result (λ output.
        PrintsLines (answer_on target.now) (map line_of (lines_of text.now)) (output_view output)) }
{
    match print_lines(alloc, target, text) {
        Ok(printed) => Ok(Output::done(printed)),
        Err(LineError::Faulty(message)) => Ok(Output::faulty(message)),
        Err(LineError::Memory(error)) => Err(error),
    }
}

/// Returns the output of the lines of `text`, one after another.
fn print_lines<A: SmallAllocator>(
    alloc: A,
    target: &TargetInfo<'_, A>,
    text: &str,
) -> Result<Vec<u8, A>, LineError<A>>
    requires { length text.now ≤ input_limit }
    ensures ok { IfOk result (λ printed. PrintsLines (answer_on target.now)
        (map line_of (lines_of text.now)) (record { bytes = printed.items; status = 0 })) }
    ensures err { IfErr result (IfMessage (λ message. PrintsLines (answer_on target.now)
        (map line_of (lines_of text.now)) (faulty_output message))) }
{
    let mut reader = ConditionReader::new(alloc);
    let mut printer = SectionPrinter::new(alloc, target);
    let mut number = 0;
    for line in text.split('\n') {
        number += 1;
        printer.push_line(number, split_line(strip_carriage_return(line)), &mut reader)?;
    }
    Ok(printer.into_printed())
}

/// Returns `line` without the carriage return that it may end with.
fn strip_carriage_return(line: &str) -> &str
    ensures { result.now ≡ strip_carriage_return line.now }
{
    match line.strip_suffix("\r") {
        Some(line) => line,
        None => line,
    }
}

/// Cuts a line at its first tab.
fn split_line(line: &str) -> Line<'_>
    ensures { line_view result ≡ line_of line.now }
{
    if line.is_empty() {
        return Line::Empty;
    }
    let len = name_len(line.as_bytes());
    if len == line.len() {
        return Line::Undivided;
    }
    Line::Section {
        name: &line[..len],
        condition: &line[len + 1..],
    }
}

/// Returns the number of bytes before the first tab, or `bytes.len()` if there is no tab. Names are
/// short, so this loop is faster than `split_once`.
#[tactic(auto, using(cfgx_syntax::proofs::Classes::counted))]
fn name_len(bytes: &[u8]) -> usize
    ensures len { result ≡ position_or_len is_tab bytes.now }
    ensures few { result ≤ length bytes.now }
{
    let mut len = 0;
    while len < bytes.len() && bytes[len] != b'\t' {
        len += 1;
    }
    len
}

/// Collects the output of one section after another, with the verdict of a target on each.
#[derive(Drop)]
struct SectionPrinter<'t, A: SmallAllocator> {
    alloc: A,
    target: &'t TargetInfo<'t, A>,
    decider: Decider<A>,
    /// The output so far
    printed: Vec<u8, A>,
}

impl<'t, A: SmallAllocator> SectionPrinter<'t, A> {
    /// Makes a printer for `target` without any output. Takes no memory.
    fn new(alloc: A, target: &'t TargetInfo<'t, A>) -> Self
        ensures target { result.target.now ≡ target.now }
        ensures printed { result.printed.items ≡ [] }
    {
        SectionPrinter {
            alloc,
            target,
            decider: Decider::new(alloc),
            printed: Vec::new(alloc),
        }
    }

    /// Pushes the output of `line`, which has the number `number`.
    fn push_line<'a>(
        &mut self,
        number: usize,
        line: Line<'a>,
        reader: &mut ConditionReader<'a, A>,
    ) -> Result<(), LineError<A>>
        ensures ok { OnOk result (AddsLine (answer_on self.old.target.now) number
            (line_view line.entry) self.old.printed.items self.new.printed.items) }
        ensures err { IfErr result (IfMessage (λ message. PrintsLine
            (answer_on self.old.target.now) (number, line_view line.entry) (Err message))) }
        ensures target { self.new.target.now ≡ self.old.target.now }
    {
        match line {
            Line::Empty => Ok(()),
            Line::Undivided => {
                let message = format!(in self.alloc; "line {number}: no tab\n")?;
                Err(LineError::Faulty(message))
            }
            Line::Section { name, condition } => match reader.read(condition) {
                Ok(condition) => Ok(self.push_section(name, &condition)?),
                Err(failure) => {
                    let message = fault_message(self.alloc, number, failure)?;
                    Err(LineError::Faulty(message))
                }
            },
        }
    }

    /// Pushes the name of a section and the verdict of the target on its condition.
    fn push_section(&mut self, name: &str, condition: &Condition<'_>) -> Result<(), AllocError>
        ensures adds { OnOk result (AddsVerdict self.old.target.now condition.now
            (self.old.printed.items ++ name.now) self.new.printed.items) }
        ensures target { self.new.target.now ≡ self.old.target.now }
    {
        self.decider.decide(condition, self.target)?;
        self.printed.extend_from_slice(name.as_bytes())?;
        push_decision(&self.decider.decision, &mut self.printed)
    }

    /// Returns the output.
    fn into_printed(self) -> Vec<u8, A>
        ensures { result ≡ self.entry.printed }
    {
        let SectionPrinter {
            decider: _decider,
            printed,
            ..
        } = self;
        printed
    }
}

/// Returns the message of the line `number`, whose condition cannot be parsed. Returns an error if
/// `failure` is an error of memory, or if `alloc` refuses memory for the message.
fn fault_message<A: Allocator>(
    alloc: A,
    number: usize,
    failure: Failure<A>,
) -> Result<String<A>, AllocError>
    ensures { IfOk result (λ message. IsSomeAnd (failure_of failure) (λ fault.
        string_bytes message ≡ line_fault number fault)) }
{
    match failure {
        Failure::Parse(error) => Ok(format!(in alloc; "line {number}:\n{error}\n")?),
        Failure::Memory(error) => Err(error),
    }
}

/// Pushes a tab, the verdict and a newline. If the value is unknown, also pushes the two fillings.
fn push_decision<A: Allocator>(
    decision: &Decision<A>,
    printed: &mut Vec<u8, A>,
) -> Result<(), AllocError>
    ensures { OnOk result
        (printed.new.items ≡ printed.old.items ++ decision_text decision.now) }
{
    match decision {
        Decision::Known(true) => printed.extend_from_slice(b"\tyes\n")?,
        Decision::Known(false) => printed.extend_from_slice(b"\tno\n")?,
        Decision::Unknown { if_true, if_false } => {
            printed.extend_from_slice(b"\tunknown\n")?;
            push_filling("\ttrue with ", if_true.as_slice(), printed)?;
            push_filling("\tfalse with ", if_false.as_slice(), printed)?;
        }
    }
    Ok(())
}

/// Pushes `label` and a filling as a line of their own.
fn push_filling<A: Allocator>(
    label: &str,
    filling: &[bool],
    printed: &mut Vec<u8, A>,
) -> Result<(), AllocError>
    ensures { OnOk result (printed.new.items
        ≡ printed.old.items ++ filling_line label.now filling.now) }
{
    printed.extend_from_slice(label.as_bytes())?;
    push_digits(filling, printed)?;
    printed.push(b'\n')?;
    Ok(())
}

/// Pushes a digit for each value: `1` for true, `0` for false.
fn push_digits<A: Allocator>(filling: &[bool], printed: &mut Vec<u8, A>) -> Result<(), AllocError>
    ensures { OnOk result (printed.new.items ≡ printed.old.items ++ digits filling.now) }
{
    for value in filling {
        printed.push(if *value { b'1' } else { b'0' })?;
    }
    Ok(())
}
