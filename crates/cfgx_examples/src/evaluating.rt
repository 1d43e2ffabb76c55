//! Callers of `Expression::eval`. What their contracts promise is proved by the contract of `eval`
//! alone.
ghost use Rattle.std.specs.Prelude.{◌≡◌, IfOk};
ghost use Rattle.cfg_expr.specs.Evaluation.{IsValueBy};
ghost use Rattle.cfg_expr.specs.Words.{question_of};
ghost use Rattle.cfgx_examples.specs.Examples.{is_among, term_of};

pub mod numbers;
pub mod steps;
pub mod terms;

use crate::calling::counting::count_questions;
use cfg_expr::expr::Logic;
use cfg_expr::{Expression, Predicate};
use cfgx_testing::checking::is_ok_true;
use std::alloc::{AllocError, Global};
use terms::Term;

/// Returns whether a predicate is one of `flags`. A flag is a bare key without another meaning.
fn is_among(flags: &[&str], predicate: &Predicate<'_>) -> bool
    ensures { result ≡ is_among flags.now (question_of predicate.now) }
{
    match predicate {
        Predicate::Flag(name) => flags.contains(name),
        _ => false,
    }
}

/// Returns the value of a condition if `flags` are true and everything else is false.
pub fn eval_with_flags(
    alloc: Global,
    expression: &Expression,
    flags: &[&str],
) -> Result<bool, AllocError>
    ensures { IfOk result
        (IsValueBy ⟦<bool as Logic>⟧ expression.now (is_among flags.now)) }
{
    let mut answer = |predicate: &Predicate<'_>| is_among(flags, predicate);
    expression.eval(alloc, &mut answer)
}

/// Returns the term of a predicate: its name if it is a flag, and otherwise `?`.
fn term_of(predicate: &Predicate<'_>) -> Term
    ensures { result ≡ term_of (question_of predicate.now) }
{
    match predicate {
        Predicate::Flag(name) => Term::new(name.as_bytes()),
        _ => Term::new(b"?"),
    }
}

/// Returns the value of `expression` in the logic of terms, where each predicate has the value
/// `term_of(predicate)`. For `all(a, b)` this is `((T&b)&a)`.
pub fn joined_terms(alloc: Global, expression: &Expression) -> Result<Term, AllocError>
    ensures { IfOk result (IsValueBy ⟦<Term as Logic>⟧ expression.now term_of) }
{
    expression.eval(alloc, &mut |predicate: &Predicate<'_>| term_of(predicate))
}

/// A row is a text, the flags that are true, and the value.
pub const BY_FLAGS: &str = r#"
all(a, not(test)) | a | true
all(a, not(test)) | test | false
any(a, b) | c b | true
any(a, feature = "b") | b feature | false
all(a, b) | a | false
all(a, b, c) | c a b | true
"#;

// Returns the value of `expression` if the names in `flags` are true. Spaces separate the names.
fn eval_with_flags_of_row(alloc: Global, expression: &Expression, flags: &str) -> Option<bool> {
    let flags: Vec<&str> = flags.split(' ').collect(alloc).ok()?;
    eval_with_flags(alloc, expression, flags.as_slice()).ok()
}

/// A row is a text, the number of its questions, and two terms. The first term has the names of the
/// predicates. The second has each name followed by the number of its question. The members are
/// joined from the last to the first, those that are functions after the others.
pub const TERMS: &str = r#"
all(a, any(b), c) | 3 | (((T&c)&a)&(F|b)) | (((T&c3)&a2)&(F|b1))
not(any(x)) | 1 | !(F|x) | !(F|x1)
any(a, all(b, not(c)), d) | 4 | (((F|d)|a)|((T&b)&!c)) | (((F|d4)|a3)|((T&b2)&!c1))
all(test) | 1 | (T&?) | (T&?1)
true | 0 | T | T
not(false) | 0 | !F | !F
all(a, true, any(b), false) | 2 | ((((T&F)&T)&a)&(F|b)) | ((((T&F)&T)&a2)&(F|b1))
any(true, not(a), false) | 1 | (((F|F)|T)|!a) | (((F|F)|T)|!a1)
a | 1 | a | a1
any(a, a, a) | 3 | (((F|a)|a)|a) | (((F|a3)|a2)|a1)
all() | 0 | T | T
// A term keeps its first 64 bytes.
~not(~100~a~)~100~ | 1 | ~!~64~ | ~!~64~
"#;

// Returns the term that has each name followed by the number of its question. Also returns the
// number of questions. No text here asks more than nine.
fn numbered_term(alloc: Global, expression: &Expression) -> Result<(Term, usize), AllocError> {
    let mut count = 0u8;
    let mut answer = |predicate: &Predicate<'_>| {
        count = count.saturating_add(1);
        let mut term = term_of(predicate);
        term.push(b'0'.saturating_add(count));
        term
    };
    let term = expression.eval(alloc, &mut answer)?;
    Ok((term, usize::from(count)))
}

// Returns whether `expression` asks `questions` questions, and has the terms `named` and
// `numbered`.
fn terms_are(
    alloc: Global,
    expression: &Expression,
    questions: &str,
    named: &str,
    numbered: &str,
) -> Result<bool, AllocError> {
    let (term, count) = numbered_term(alloc, expression)?;
    let count_is_right = count_questions(alloc, expression)? == count
        && questions.parse() == Ok(count);
    let names_are_right = joined_terms(alloc, expression)?.as_bytes() == named.as_bytes();
    Ok(count_is_right && names_are_right && term.as_bytes() == numbered.as_bytes())
}

/// Returns whether the text of `row` has the value of `row` if the flags of `row` are true.
pub fn value_is_right(alloc: Global, row: &[String]) -> bool {
    let [text, flags, value] = row else {
        return false;
    };
    match (
        Expression::parse(alloc, text.as_str()),
        value.parse::<bool>(),
    ) {
        (Ok(expression), Ok(value)) => {
            eval_with_flags_of_row(alloc, &expression, flags.as_str()) == Some(value)
        }
        _ => false,
    }
}

/// Returns whether the text of `row` asks as many questions as `row` says, and has the terms of
/// `row`.
pub fn terms_are_right(alloc: Global, row: &[String]) -> bool {
    let [text, questions, named, numbered] = row else {
        return false;
    };
    let (questions, named, numbered) = (questions.as_str(), named.as_str(), numbered.as_str());
    match Expression::parse(alloc, text.as_str()) {
        Ok(expression) => is_ok_true(terms_are(alloc, &expression, questions, named, numbered)),
        Err(_) => false,
    }
}
