//! A lexer whose text has a fault, and a fault with a copy of its text.
use super::{Outcome, combine};
use cfg_expr::error::{Failure, Reason};
use cfg_expr::expr::lexer::{Lexer, LexerToken, Token};
use cfg_expr::memory::SmallAllocator;
use std::alloc::AllocError;

/// What `next` of a lexer returns.
pub(crate) type Item<'t, A> = Option<Result<LexerToken<'t>, Failure<A>>>;

// Returns whether the item is the key `a`.
fn is_key_a<A: SmallAllocator>(item: &Item<'_, A>) -> bool {
    match item {
        Some(Ok(item)) => item.token == Token::Key("a"),
        _ => false,
    }
}

// Checks that the item is a fault at bytes 2 to 3.
fn check_fault<A: SmallAllocator>(item: &Item<'_, A>) -> Outcome {
    match item {
        Some(Err(Failure::Parse(error))) => Ok(error.span.start == 2 && error.span.end == 3),
        Some(Err(Failure::Memory(_))) => Err(AllocError),
        _ => Ok(false),
    }
}

/// Checks that the lexer of `a 8 b` returns the key `a` and the fault of `8`. The lexer ends
/// after the fault, also if it is out of memory.
pub(super) fn check_lexer<A: SmallAllocator>(alloc: A, text: &str) -> Outcome {
    let mut lexer = Lexer::new(alloc, text);
    let begins = is_key_a(&lexer.next());
    let fault = check_fault(&lexer.next());
    let ends = lexer.next().is_none() & (lexer.items_left_bound() == 0);
    combine(&[Ok(begins), Ok(ends), fault])
}

// Checks that the fault has the text `text`, the span 3..7 and the reason `Empty`.
fn check_failure<A: SmallAllocator>(failure: &Failure<A>, text: &str) -> Outcome {
    match failure {
        Failure::Parse(error) => {
            let is_in_span = error.span.start == 3 && error.span.end == 7;
            Ok(is_in_span && error.original.as_str() == text && error.reason == Reason::Empty)
        }
        Failure::Memory(error) => Err(*error),
    }
}

/// Checks a fault with a copy of `text`.
pub(super) fn check_copied_fault<A: SmallAllocator>(alloc: A, text: &str) -> Outcome {
    check_failure(&Failure::of(alloc, text, 3..7, Reason::Empty), text)
}
