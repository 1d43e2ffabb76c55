//! Whether a text is a key, or a key with a value, of which the key is at fault.
ghost use Rattle.std.specs.Prelude.{◌≡◌, ◌↔◌, IfOk, IsTrue, map, option_map};
ghost use Rattle.cfgx_syntax.specs.Lexer.{token_of};
ghost use Rattle.cfgx_syntax.specs.Stripping.{strip};
ghost use Rattle.cfgx_grammar.specs.Unaskable.{IsUnaskable};
ghost use Rattle.cfgx_grammar.specs.LastPredicate as grammar;
ghost use Rattle.cfgx_parser.specs.parsing.Fields.{located_text};
ghost use Rattle.cfgx_parser.specs.Unaskable.{YieldsFew, HasFaultyKey, IsFaultyKey};

use crate::classification::{LocatedText, Pending, classify};
use crate::located::Span;
use cfgx_syntax::error::Failure;
use cfgx_syntax::lexer::{Lexer, Token};
use cfgx_syntax::memory::SmallAllocator;
use std::alloc::AllocError;

/// Whether `text`, without an outer `cfg( )`, is a key that is at fault, or such a key, `=` and a
/// value. Other texts that no condition can ask are not meant: a key whose value is at fault, or
/// what is no key, such as a text with a lexical fault.
///
/// # Errors
///
/// `AllocError`: `alloc` refused memory.
pub fn is_unaskable<A: SmallAllocator>(alloc: A, text: &str) -> Result<bool, AllocError>
    ensures { IfOk result (λ is. IsTrue is ↔ IsUnaskable (strip text.now)) }
{
    match few_tokens(alloc, Lexer::new(alloc, text)) {
        Ok(Some(tokens)) => Ok(has_faulty_key(&tokens)),
        Ok(None) => Ok(false),
        Err(Failure::Parse(_)) => Ok(false),
        Err(Failure::Memory(error)) => Err(error),
    }
}

/// Returns the tokens that are left, or `None` if they are more than three.
///
/// # Errors
///
/// `Failure::Parse`: a lexical fault before the fourth token. `Failure::Memory`: `alloc` refused
/// memory.
fn few_tokens<'a, A: SmallAllocator>(
    alloc: A,
    lexer: Lexer<'a, A>,
) -> Result<Option<Vec<Token<'a>, A>>, Failure<A>>
    ensures { YieldsFew lexer.entry result }
{
    let mut tokens = Vec::new(alloc);
    for lexed in lexer {
        let found = lexed?;
        if tokens.len() == 3 {
            return Ok(None);
        }
        tokens.push(found.token)?;
    }
    Ok(Some(tokens))
}

/// Whether the tokens are a key that is at fault, or such a key, `=` and a value.
fn has_faulty_key(tokens: &[Token<'_>]) -> bool
    ensures { IsTrue result ↔ HasFaultyKey (map token_of tokens.now) }
{
    match tokens {
        [Token::Key(key)] => is_faulty_key(key, None),
        [Token::Key(key), Token::Equals, Token::Value(value)] => is_faulty_key(key, Some(value)),
        _ => false,
    }
}

/// Whether the key is at fault, and not its value.
fn is_faulty_key(key: &str, value: Option<&str>) -> bool
    ensures { IsTrue result ↔ IsFaultyKey key.now (option_map (λ v. v.now) value.entry) }
{
    let key = text_at(key, 0);
    match value {
        None => classify(&Pending { key, value: None }).is_err(),
        Some(value) => {
            let value = Some(text_at(value, 1));
            match classify(&Pending { key, value }) {
                Ok(_) => false,
                Err(fault) => fault.span.start == 0,
            }
        }
    }
}

/// Returns a text with an empty span at `place`, which tells the key from the value in a fault.
fn text_at(text: &str, place: usize) -> LocatedText<'_>
    ensures { located_text result ≡ grammar.located_text text.now place place }
{
    let span = Span {
        start: place,
        end: place,
    };
    LocatedText { text, span }
}
