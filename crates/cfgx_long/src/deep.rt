//! Tests that deep, wide and long texts are read or have their fault.
use cfg_expr::Expression;
use cfg_expr::error::Failure;
use cfg_expr::expr::{Condition, ConditionReader, Predicates};
use cfgx_testing::checking::{is_ok_true, prints};
use cfgx_testing::faults::text_has_fault;
use std::alloc::Global;

/// A text, and its fault.
pub(crate) const FAULTS: &str = r#"
~all(~100000~ | UnclosedParens at 399999..400000
~not(~100000~a | UnclosedParens at 399999..400001
not(~all(),~300~) | InvalidNot(300) at 0..1805
not(~a,~257~) | InvalidNot(257) at 0..519
not(~true,~300~) | InvalidNot(300) at 0..1505
~false,~100000~ | MultipleRootPredicates at 0..600000
not(~a,~100000~) | InvalidNot(100000) at 0..200005
~a,~100000~ | MultipleRootPredicates at 0..200000
~all(),~256~ | MultipleRootPredicates at 0..1536
"~a~100000~ | UnclosedQuotes at 0..100001
~ ~5000~8 | U[`<key>` `all` `any` `not`] at 5000..5001
any(~a,~49998~8) | U[`<key>` `all` `any` `not`] at 100000..100001
~a~1000~) | UnopenedParens at 1000..1001
all(b~,~3000~c d) | U[`=` `,` `)`] at 3007..3008
"#;

/// Returns whether the text of the row has the fault of the row.
pub(crate) fn has_fault(alloc: Global, row: &[String]) -> bool {
    match row {
        [text, fault] => text_has_fault(alloc, text.as_str(), text.as_str(), fault.as_str()),
        _ => false,
    }
}

/// A text, and the number of its predicates.
pub(crate) const ACCEPTED: &str = r#"
any(~a,~100~) | 100
any(~a,~100000~) | 100000
~not(~100000~a~)~100000~ | 1
all(any(),~all(),~299~) | 0
any(a,~true,~100000~b) | 2
// Two million predicates, and a text of more than eight mebibytes.
any(~a,~2000000~) | 2000000
any(~abcdefg,~1100000~) | 1100000
"#;

// Returns whether `left` returns `count`, and the iterator yields `count` predicates.
fn yields_count(predicates: Predicates<'_>, count: Option<usize>) -> bool {
    Some(predicates.left()) == count && Some(predicates.count()) == count
}

// Returns whether the text has `count` predicates, and its expression keeps and prints the text.
fn parses(alloc: Global, text: &str, count: &str) -> Result<bool, Failure> {
    let expression = Expression::parse(alloc, text)?;
    let is_kept = expression.original() == text && prints(alloc, &expression, text);
    Ok(is_kept && yields_count(expression.predicates(), count.parse().ok()))
}

/// Returns whether the text of the row has the number of predicates of the row.
pub(crate) fn has_predicates(alloc: Global, row: &[String]) -> bool {
    match row {
        [text, count] => is_ok_true(parses(alloc, text.as_str(), count.as_str())),
        _ => false,
    }
}

/// Texts that one reader reads one after another, each with the number of its predicates.
pub(crate) const READ: &str = r#"
any(~a,~100000~) | 100000 | ~not(~100000~a~)~100000~ | 1 | a | 1
"#;

// Returns whether the condition was read, and has `text` and `count` predicates.
fn is_condition(read: &Result<Condition<'_>, Failure>, text: &str, count: &str) -> bool {
    match read {
        Ok(condition) => {
            condition.original() == text && yields_count(condition.predicates(), count.parse().ok())
        }
        Err(_) => false,
    }
}

// Returns whether the reader reads the text of the pair, which has the number of predicates of the
// pair.
fn reads_pair<'a>(reader: &mut ConditionReader<'a>, pair: &'a [String]) -> bool {
    match pair {
        [text, count] => {
            is_condition(&reader.read(text.as_str()), text.as_str(), count.as_str())
        }
        _ => false,
    }
}

// Returns whether the reader reads each pair of the row.
fn reads_pairs<'a>(reader: &mut ConditionReader<'a>, row: &'a [String]) -> bool {
    for pair in row.chunks(2) {
        if !reads_pair(reader, pair) {
            return false;
        }
    }
    !row.is_empty()
}

/// Returns whether a new reader reads each text of the row.
pub(crate) fn reads_texts(alloc: Global, row: &[String]) -> bool {
    let mut reader = ConditionReader::new(alloc);
    reads_pairs(&mut reader, row)
}

/// A run over a text whose fault is at byte 3007. The output has 3007 spaces before the marker.
pub(crate) const FAR: &str = r#"
1 | all(b~,~3000~c d)\n~ ~3007~^ expected one of `=`, `,`, `)` here\n | parse \
| all(b~,~3000~c d)
"#;
