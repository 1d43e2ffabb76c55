//! Ten thousand texts that a generator makes from fixed seeds: tokens in any order, conditions,
//! damaged conditions, and characters in any order. The print and the spellings of an accepted text
//! are parsed again, and its values by each call are compared. The fault of a refused text lies in
//! the text.
mod agreeing;
mod making;
mod numbers;

use agreeing::calls_agree_in_lanes;
use cfg_expr::error::{Failure, ParseError};
use cfg_expr::expr::{Predicates, spell};
use cfg_expr::{Expression, Predicate};
use cfgx_testing::checking::is_ok_true;
use making::make_text;
use numbers::Numbers;
use std::alloc::{AllocError, Global};

// Returns whether the printed expression is parsed to an equal one.
fn print_is_parsed(alloc: Global, expression: &Expression) -> Result<bool, Failure> {
    let printed = format!(in alloc; "{expression}")?;
    Ok(Expression::parse(alloc, printed.as_str())? == *expression)
}

// Writes the spelling of the predicate and a comma. Returns whether there was memory for both.
fn push_spelling(spellings: &mut Vec<u8>, predicate: Predicate<'_>) -> bool {
    let is_written = spell(&predicate, spellings).is_ok() && spellings.push(b',').is_ok();
    drop(predicate);
    is_written
}

// Returns an `all` of the spellings of the predicates.
fn spell_all(alloc: Global, predicates: Predicates<'_>) -> Option<Vec<u8>> {
    let mut spellings = Vec::from_slice(alloc, b"all(").ok()?;
    for predicate in predicates {
        if !push_spelling(&mut spellings, predicate) {
            return None;
        }
    }
    spellings.push(b')').ok()?;
    Some(spellings)
}

// Returns whether `text` asks the predicates of `expression`, or `None` if it is refused.
fn has_same_predicates(alloc: Global, expression: &Expression, text: &[u8]) -> Option<bool> {
    let text = str::from_utf8(text).ok()?;
    let other = Expression::parse(alloc, text).ok()?;
    Some(expression.predicates().eq(other.predicates()))
}

// Returns whether the spellings of the predicates are parsed to the same predicates.
fn spellings_are_parsed(alloc: Global, expression: &Expression) -> Option<bool> {
    let spellings = spell_all(alloc, expression.predicates())?;
    has_same_predicates(alloc, expression, spellings.as_slice())
}

// Returns whether the expression is printed, spelled and evaluated right.
fn expression_passes(alloc: Global, numbers: &mut Numbers, expression: &Expression) -> bool {
    is_ok_true(print_is_parsed(alloc, expression))
        && spellings_are_parsed(alloc, expression) == Some(true)
        && is_ok_true(calls_agree_in_lanes(alloc, numbers, expression))
}

// Returns whether the fault lies in `text`, and what it prints begins with its stripped text.
fn fault_passes(alloc: Global, error: &ParseError, text: &str) -> Result<bool, AllocError> {
    let printed = format!(in alloc; "{error}")?;
    let (original, start, end) = (error.original.as_str(), error.span.start, error.span.end);
    let is_inside = start <= end && end <= original.len() && text.contains(original);
    Ok(is_inside && printed.as_str().starts_with(original))
}

// Checks `parsed`, which parsing the text returned. The first number is 1 if the text is accepted,
// and the second is 1 if it also has at least two predicates. Otherwise they are 0. Returns `None`
// if the check fails.
fn count_parsed(
    alloc: Global,
    numbers: &mut Numbers,
    text: &str,
    parsed: &Result<Expression, Failure>,
) -> Option<(usize, usize)> {
    match parsed {
        Ok(expression) if expression_passes(alloc, numbers, expression) => {
            Some((1, usize::from(expression.predicates().left() > 1)))
        }
        Err(Failure::Parse(error)) if is_ok_true(fault_passes(alloc, error, text)) => {
            Some((0, 0))
        }
        _ => None,
    }
}

// Parses the text, and returns what `count_parsed` returns for it.
fn count_text(alloc: Global, numbers: &mut Numbers, text: &str) -> Option<(usize, usize)> {
    count_parsed(alloc, numbers, text, &Expression::parse(alloc, text))
}

// The number of texts of one seed.
const TEXTS: usize = 2_500;

// Returns the number of accepted texts, and the number of those with at least two predicates. The
// error is the first text whose check fails.
fn count_texts(alloc: Global, seed: u64) -> Result<(usize, usize), String> {
    let mut numbers = Numbers::new(seed);
    let (mut accepted, mut with_several) = (0usize, 0usize);
    for _text in 0..TEXTS {
        let Ok(text) = make_text(alloc, &mut numbers) else {
            return Err(String::new(alloc));
        };
        let Some((accepts, has_several)) = count_text(alloc, &mut numbers, text.as_str()) else {
            return Err(text);
        };
        accepted = accepted.saturating_add(accepts);
        with_several = with_several.saturating_add(has_several);
    }
    Ok((accepted, with_several))
}

// At least 500 texts of each seed are accepted, and at least 500 are refused.
#[test]
fn generated_texts_pass(rt: HostRuntime) -> Result<(), String> {
    for seed in 1..=4 {
        let (accepted, with_several) = count_texts(rt.alloc(), seed)?;
        let are_enough = (500..=TEXTS - 500).contains(&accepted) && with_several >= 300;
        assert!(rt; are_enough, "{accepted} {with_several}");
    }
    Ok(())
}
