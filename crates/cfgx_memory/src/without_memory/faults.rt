//! Tokens of a lexer, and faults and errors that are compared and printed.
use super::conditions::parse_with_memory;
use crate::in_turn::lexing::Item;
use crate::in_turn::texts::Parsed;
use crate::in_turn::widths::PRINTED_ERROR;
use cfg_expr::error::{Failure, ParseError, Reason};
use cfg_expr::expr::lexer::{Lexer, LexerToken, Token};
use cfg_expr::memory::SmallAllocator;
use cfg_expr::targets::{HasAtomic, HasAtomicFailure};
use cfgx_testing::checking::prints;
use cfgx_testing::heap::Heap;
use cfgx_testing::refusing::EVERY;
use std::alloc::{Allocator, Global};
use std::ops::Range;

// Returns whether the item and its copy have `token` and `span`.
fn has_token(item: &LexerToken<'_>, token: Token<'_>, span: &Range<usize>) -> bool {
    let is_right = item.token == token && item.span == *span;
    is_right && matches!(item.clone(), Ok(copy) if copy.token == token && copy.span == *span)
}

// Returns whether the item is `token` with `span`.
fn is_token<A: Allocator>(item: &Item<'_, A>, token: Token<'_>, span: &Range<usize>) -> bool {
    match item {
        Some(Ok(item)) => has_token(item, token, span),
        _ => false,
    }
}

// Returns whether the next item of the lexer is `token` with `span`, and the lexer says that at
// most `bound` items follow.
fn next_is<A: Allocator>(
    lexer: &mut Lexer<'_, A>,
    token: Token<'_>,
    span: Range<usize>,
    bound: usize,
) -> bool {
    is_token(&lexer.next(), token, &span) & (lexer.items_left_bound() == bound)
}

// Returns whether `lexer` has the text `key = "v" 8`, and its first items are the tokens before
// `8`.
fn returns_items<A: Allocator>(lexer: &mut Lexer<'_, A>) -> bool {
    lexer.original() == "key = \"v\" 8"
        && lexer.items_left_bound() == 11
        && next_is(lexer, Token::Key("key"), 0..3, 8)
        && next_is(lexer, Token::Equals, 4..5, 6)
        && next_is(lexer, Token::Value("v"), 6..9, 2)
}

/// Returns whether a lexer of `cfg(key = "v" 8)` returns the tokens before `8`.
pub(super) fn lexes<A: Allocator>(alloc: A) -> bool {
    let mut lexer = Lexer::new(alloc, "cfg(key = \"v\" 8)");
    returns_items(&mut lexer)
}

/// A text, the description of its fault, and what the fault prints.
pub(super) const FAULTS: &str = r#"
not(a, b) | not() takes 1 predicate | \
not(a, b)\n^^^^^^^^^ not() takes 1 predicate, found 2
foo ( | unexpected term | foo (\n    ^ expected one of `=`, `,`, `)` here
key) | unopened parens | key)\n   ^ unopened parens
"#;

// Returns whether the fault has `description` and prints `printed`. No text here is empty.
fn prints_fault<A: Allocator>(
    global: Global,
    error: &ParseError<A>,
    description: &str,
    printed: &str,
) -> bool {
    error.reason != Reason::Empty
        && error.description() == description
        && prints(global, error, printed)
}

// Returns whether both failures are faults, and equal.
fn are_equal_faults<A: Allocator>(one: &Failure<A>, other: &Failure<A>) -> bool {
    match (one, other) {
        (Failure::Parse(error), Failure::Parse(other_error)) => {
            error == other_error && one == other
        }
        _ => false,
    }
}

// Returns whether `failure` and the failure of `text` are faults, and equal.
fn equals_failure_of<A: SmallAllocator>(
    heap: Heap<'_>,
    alloc: A,
    failure: &Failure<A>,
    text: &str,
) -> bool {
    match &parse_with_memory(heap, alloc, text) {
        Err(other) => are_equal_faults(failure, other),
        Ok(_) => false,
    }
}

/// A text, the description of its fault, and what the fault prints.
type Row<'a> = (&'a str, &'a str, &'a str);

// Returns whether the text of the row has the fault of the row. The fault must equal that of the
// same text, and differ from that of another text. Parsing the text returned `parsed`.
fn passes<A: SmallAllocator>(
    global: Global,
    heap: Heap<'_>,
    alloc: A,
    row: Row<'_>,
    parsed: &Parsed<A>,
) -> bool {
    let Err(failure) = parsed else {
        return false;
    };
    let Failure::Parse(error) = failure else {
        return false;
    };
    prints_fault(global, error, row.1, row.2)
        && equals_failure_of(heap, alloc, failure, row.0)
        && !equals_failure_of(heap, alloc, failure, "kei)")
}

/// Returns whether the text of the row has the fault of the row, with every growth refused.
pub(super) fn row_passes<A: SmallAllocator>(
    global: Global,
    heap: Heap<'_>,
    alloc: A,
    row: &[String],
) -> bool {
    let [text, description, printed] = row else {
        return false;
    };
    let row = (text.as_str(), description.as_str(), printed.as_str());
    let parsed = parse_with_memory(heap, alloc, text.as_str());
    passes(global, heap, alloc, row, &parsed)
}

/// What `HasAtomic::read` returns.
type Width<A> = Result<HasAtomic, HasAtomicFailure<A>>;

// Reads the width with memory. Every later growth is refused.
fn read_width_with_memory<A: SmallAllocator>(heap: Heap<'_>, alloc: A, text: &str) -> Width<A> {
    heap.refuse(0);
    let width = HasAtomic::read(alloc, text);
    heap.refuse(EVERY);
    width
}

/// Returns whether the error of `PTR`, which is no width, prints `PRINTED_ERROR`.
pub(super) fn prints_width_error<A: SmallAllocator>(
    global: Global,
    heap: Heap<'_>,
    alloc: A,
) -> bool {
    match &read_width_with_memory(heap, alloc, "PTR") {
        Err(HasAtomicFailure::Parse(error)) => prints(global, error, PRINTED_ERROR),
        _ => false,
    }
}

// Returns whether `one` and `other` are errors of texts, and equal.
fn are_equal_errors<A: SmallAllocator>(one: &Width<A>, other: &Width<A>) -> bool {
    match (one, other) {
        (Err(HasAtomicFailure::Parse(error)), Err(HasAtomicFailure::Parse(other_error))) => {
            error == other_error && one == other
        }
        _ => false,
    }
}

/// Returns whether errors of texts that are no widths are equal exactly if the texts are.
pub(super) fn compares_width_errors<A: SmallAllocator>(heap: Heap<'_>, alloc: A) -> bool {
    let one = read_width_with_memory(heap, alloc, "PTR");
    let same = read_width_with_memory(heap, alloc, "PTR");
    let other = read_width_with_memory(heap, alloc, "65536");
    are_equal_errors(&one, &same) & other.is_err() & !are_equal_errors(&one, &other)
}
