//! The tokens of a text as C sees them.

ghost use Rattle.std.specs.Prelude.{◌≡◌, ◌≢◌, ◌<◌, ◌+◌, ◌^◌, List, [], ◌∷◌, IfOk, OnErr, length};
ghost use Rattle.std.specs.Str.{IsUtf8};
ghost use Rattle.cfgx_syntax.specs.Lexer.{item_of, token_of};
ghost use Rattle.cfgx_syntax.specs.Stripping.{strip, strip_offset};
ghost use Rattle.cfgx_c.specs.Buffer.{Fills};
ghost use Rattle.cfgx_c.specs.Faults.{no_fault};
ghost use Rattle.cfgx_c.specs.Status.{IsOneOf, done, faulty, not_utf8, out_of_memory};
ghost use Rattle.cfgx_c.specs.Tokens.{HasLexicalFault, IsNoUtf8, ListsTokens, c_token};
ghost use Rattle.cfgx_c.specs.Tokens.{token_number};
ghost use Rattle.cfgx_c.specs.declared.tokens.CfgxToken.{CfgxToken};
ghost use Rattle.cfgx_c.specs.internal.Lexing.{AreTokens, HasTokenCount, HasTokens};

use crate::fault::CfgxFault;
use crate::reading::read_text;
use crate::status::{DONE, FAULTY, OUT_OF_MEMORY};
use cfg_expr::error::{Failure, ParseError};
use cfgx_syntax::lexer::{Lexer, LexerToken, Token};
use cfgx_syntax::stripping::Stripped;
use std::alloc::{AllocError, Global};

/// A token of a text. Its span is in bytes of the text as it was passed.
#[repr(C)]
#[derive(Clone, Copy, Debug)]
pub struct CfgxToken {
    /// The number of the kind
    pub kind: u32,
    /// The start of the token
    pub start: usize,
    /// The end of the token. That of a value is the end of the quote behind it
    pub end: usize,
}

/// Returns the number of the kind of a token.
fn token_number(token: Token<'_>) -> u32
    ensures { result ≡ token_number (token_of token.entry) }
{
    match token {
        Token::Key(_) => 1,
        Token::Value(_) => 2,
        Token::Equals => 3,
        Token::All => 4,
        Token::Any => 5,
        Token::Not => 6,
        Token::OpenParen => 7,
        Token::CloseParen => 8,
        Token::Comma => 9,
    }
}

/// Returns a token as C sees it. `offset` bytes were stripped before the text.
fn c_token(lexed: &LexerToken<'_>, offset: usize) -> CfgxToken
    requires start { lexed.now.span.start + offset < 2 ^ 64 }
    requires end { lexed.now.span.end + offset < 2 ^ 64 }
    ensures { result ≡ c_token offset (item_of lexed.now) }
{
    CfgxToken {
        kind: token_number(lexed.token),
        start: lexed.span.start + offset,
        end: lexed.span.end + offset,
    }
}

/// Returns the number of tokens of a text up to its lexical fault, and this fault if it has one.
/// Takes no memory for a text without one.
///
/// The error is that `alloc` refused memory for the fault.
fn count_tokens(
    alloc: Global,
    stripped: Stripped<'_>,
) -> Result<(usize, Option<ParseError>), AllocError>
    ensures ok { IfOk result (λ counted. (tokens : List CfgxToken)
        × HasTokens stripped.entry.text.now stripped.entry.offset tokens counted.1
        × (counted.0 ≡ length tokens)) }
    ensures err { OnErr result (HasLexicalFault stripped.entry.text.now) }
{
    let mut count = 0;
    for lexed in Lexer::of_stripped(alloc, stripped) {
        match lexed {
            Ok(_) => count += 1,
            Err(Failure::Parse(error)) => return Ok((count, Some(error))),
            Err(Failure::Memory(error)) => return Err(error),
        }
    }
    Ok((count, None))
}

/// Writes the tokens of a text up to its lexical fault. `buffer` has an item for each of them, so
/// the lexer never comes to the fault, which would take memory.
fn write_tokens(alloc: Global, stripped: Stripped<'_>, buffer: &mut [CfgxToken])
    requires counted { HasTokenCount stripped.text.now (length buffer.old) }
    requires fits { length stripped.text.now + stripped.offset < 2 ^ 64 }
    ensures { AreTokens stripped.entry.text.now stripped.entry.offset buffer.new }
{
    let mut lexer = Lexer::of_stripped(alloc, stripped);
    for i in 0..buffer.len() {
        let Some(Ok(lexed)) = lexer.next() else {
            unreachable!()
        };
        buffer[i] = c_token(&lexed, stripped.offset);
    }
}

/// Fills `buffer` with the tokens of a text up to its lexical fault. Returns their number, and this
/// fault if the text has one. A first pass over the text counts the tokens and finds the fault, and
/// a second one writes them if there is room.
///
/// The error is that `alloc` refused memory for the fault.
fn fill_tokens(
    alloc: Global,
    stripped: Stripped<'_>,
    buffer: &mut [CfgxToken],
) -> Result<(usize, Option<ParseError>), AllocError>
    requires { length stripped.text.now + stripped.offset < 2 ^ 64 }
    ensures ok { IfOk result (λ found. (tokens : List CfgxToken)
        × HasTokens stripped.entry.text.now stripped.entry.offset tokens found.1
        × Fills tokens buffer.old buffer.new found.0) }
    ensures kept { OnErr result (buffer.new ≡ buffer.old) }
    ensures err { OnErr result (HasLexicalFault stripped.entry.text.now) }
{
    let (count, error) = count_tokens(alloc, stripped)?;
    if count <= buffer.len() {
        write_tokens(alloc, stripped, &mut buffer[..count]);
    }
    Ok((count, error))
}

/// Lists the tokens of a text in the order of the text. Neither these nor their order has to make a
/// condition.
///
/// Returns the status `DONE`, writes the number of tokens to `needed`, and fills `tokens` if it has
/// room for all of them. Returns `FAULTY` if somewhere no token can start, or a quote is never
/// closed: then the tokens are those before that place, and `fault` becomes what is wrong there. In
/// both cases `offset` becomes the number of bytes that stand before the stripped text.
///
/// Returns `NOT_UTF8` if the text is not UTF-8, and `OUT_OF_MEMORY` if it has such a fault and memory
/// was refused. Then `needed` becomes 0, and `tokens` is unchanged. With the first of these `offset`
/// becomes 0, and `fault` what `cfgx_check` makes of it.
#[unsafe(no_mangle)]
pub extern "C" fn cfgx_tokens(
    alloc: Global,
    text: &[u8],
    tokens: &mut [CfgxToken],
    needed: &mut usize,
    offset: &mut usize,
    fault: &mut CfgxFault,
) -> u32
    ensures lists { IsOneOf result (done ∷ faulty ∷ []) → ListsTokens text.now result tokens.old
        tokens.new needed.new fault.new }
    ensures not_utf8 { result ≡ not_utf8 → IsNoUtf8 text.now fault.new offset.new }
    ensures utf8 { result ≢ not_utf8 → IsUtf8 text.now }
    ensures offset { result ≢ not_utf8 → offset.new ≡ strip_offset text.now }
    ensures none { result ≡ out_of_memory → fault.new ≡ no_fault }
    ensures memory { result ≡ out_of_memory → HasLexicalFault (strip text.now) }
    ensures kept { IsOneOf result (out_of_memory ∷ not_utf8 ∷ [])
        → (tokens.new ≡ tokens.old) × (needed.new ≡ 0) }
    ensures status { IsOneOf result (done ∷ faulty ∷ not_utf8 ∷ out_of_memory ∷ []) }
{
    *needed = 0;
    *offset = 0;
    *fault = CfgxFault::default();
    let stripped = match read_text(text) {
        Ok(stripped) => stripped,
        Err(refusal) => return refusal.report(fault),
    };
    *offset = stripped.offset;
    let Ok((count, error)) = fill_tokens(alloc, stripped, tokens) else {
        return OUT_OF_MEMORY;
    };
    *needed = count;
    let Some(error) = error else {
        return DONE;
    };
    *fault = CfgxFault::of(0, stripped.offset, &error);
    FAULTY
}
