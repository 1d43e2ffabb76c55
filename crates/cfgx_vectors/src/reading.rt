//! One reader reads all texts of a file, and reads each as `Expression::parse` does. The texts are
//! the fields of all rows. They are kept to the end of the file, since the reader borrows them.
use cfg_expr::error::Failure;
use cfg_expr::expr::{Condition, ConditionReader};
use cfg_expr::{Expression, Predicate};
use cfgx_testing::rows::escaped;
use std::alloc::{AllocError, Global};

// Returns the value of a condition if each predicate is true, or `None` if memory ran out.
fn value_of(alloc: Global, condition: &Condition<'_>) -> Option<bool> {
    let mut yes = |_asked: &Predicate<'_>| true;
    condition.eval(alloc, &mut yes).ok()
}

// Returns whether both have the same predicates, stripped text and value.
fn conditions_agree(alloc: Global, condition: &Condition<'_>, expression: &Expression) -> bool {
    let value = value_of(alloc, condition);
    value.is_some()
        && value == value_of(alloc, &expression.condition())
        && condition.original() == expression.original()
        && condition.predicates().eq(expression.predicates())
}

// Returns whether reading and parsing returned the same condition, or the same fault.
fn results_agree(
    alloc: Global,
    read: &Result<Condition<'_>, Failure>,
    parsed: &Result<Expression, Failure>,
) -> bool {
    match (read, parsed) {
        (Ok(condition), Ok(expression)) => conditions_agree(alloc, condition, expression),
        (Err(one), Err(other)) => one == other,
        _ => false,
    }
}

// Returns whether the reader reads the text as `parse` does.
fn reads_as_parsed<'a>(alloc: Global, reader: &mut ConditionReader<'a>, text: &'a str) -> bool {
    results_agree(alloc, &reader.read(text), &Expression::parse(alloc, text))
}

// Returns the first text that the reader does not read as `parse` does.
fn first_misread<'a>(
    alloc: Global,
    reader: &mut ConditionReader<'a>,
    texts: &'a [String],
) -> Option<&'a str> {
    for text in texts {
        if !reads_as_parsed(alloc, reader, text.as_str()) {
            return Some(text.as_str());
        }
    }
    None
}

// Returns a line that names the misread text.
fn misread_line(alloc: Global, text: &str) -> Result<String, AllocError> {
    let text = escaped(alloc, text)?;
    format!(in alloc; "wrong: a reader does not read this as `parse` does: {text}\n")
}

/// Returns a line that names the first of the texts that one reader does not read as `parse` does,
/// or an empty text.
pub(crate) fn first_misread_line(alloc: Global, texts: &[String]) -> Result<String, AllocError> {
    let mut reader = ConditionReader::new(alloc);
    match first_misread(alloc, &mut reader, texts) {
        Some(text) => misread_line(alloc, text),
        None => Ok(String::new(alloc)),
    }
}
