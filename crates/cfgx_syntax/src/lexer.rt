//! The tokens of a `cfg()` text, with the bytes that spell them.
ghost use Rattle.std.specs.Prelude.{◌≡◌, ◌-◌, ◌<◌, ◌≤◌, length, slice_index, codes, get_or};
ghost use Rattle.std.specs.Prelude.{true, Some};
ghost use Rattle.std.specs.List.{prefix_len};
ghost use Rattle.std.specs.Str.{IsTrimStart};
ghost use Rattle.cfgx_syntax.specs.Items.{HasOneTokenList};
ghost use Rattle.cfgx_syntax.specs.Lexer.{token_of};
ghost use Rattle.cfgx_syntax.specs.LexerState.{starting};
ghost use Rattle.cfgx_syntax.specs.lexing.Beginnings.{BeginsAs};
ghost use Rattle.cfgx_syntax.specs.lexing.ByteClasses.{BeginsWithClass};
ghost use Rattle.cfgx_syntax.specs.Stripping.{strip};
ghost use Rattle.cfgx_syntax.specs.Token.{continues_word, starts_word, IsWord, Spells};

mod bytes;
pub mod laws;

use crate::error::{Failure, Reason, terms};
use crate::stripping::{Stripped, strip};
use bytes::{Class, Run, first_class, quote_in};
use std::alloc::{Allocator, Global};
use std::fmt;
use std::marker::Model;
use std::ops::Range;

/// One lexical unit of a condition.
#[derive(Clone, Copy, Debug)]
pub enum Token<'a> {
    /// A word that names no function.
    Key(&'a str),
    /// The text between two quotes.
    Value(&'a str),
    /// `=`.
    Equals,
    /// `all`.
    All,
    /// `any`.
    Any,
    /// `not`.
    Not,
    /// `(`.
    OpenParen,
    /// `)`.
    CloseParen,
    /// `,`.
    Comma,
}

/// Two tokens are equal if they are of one kind and have equal texts, wherever these lie.
impl PartialEq for Token<'_> {
    ghost use Rattle.std.specs.Prelude.{◌↔◌, IsTrue};
    ghost use Rattle.std.specs.{Cmp.on_per, Cmp.partial_equiv_from_equiv, Ordering.on};
    ghost use Rattle.cfgx_syntax.specs.TokenEquality.{token_eq, token_eq-equiv};

    ghost eq = { on token_of token_eq };

    ghost laws = { on_per token_of (partial_equiv_from_equiv token_eq-equiv) };

    fn eq(&self, other: &Self) -> bool
        ensures value { result ≡ token_eq (token_of self.now) (token_of other.now) }
        ensures same { IsTrue result ↔ (token_of self.now ≡ token_of other.now) }
    {
        match (self, other) {
            (Token::Key(word), Token::Key(other)) => word == other,
            (Token::Value(inside), Token::Value(other)) => inside == other,
            (Token::Equals, Token::Equals)
            | (Token::All, Token::All)
            | (Token::Any, Token::Any)
            | (Token::Not, Token::Not)
            | (Token::OpenParen, Token::OpenParen)
            | (Token::CloseParen, Token::CloseParen)
            | (Token::Comma, Token::Comma) => true,
            _ => false,
        }
    }
}

impl Eq for Token<'_> {
    ghost use Rattle.std.specs.Cmp.{on_equiv};
    ghost use Rattle.cfgx_syntax.specs.TokenEquality.{token_eq-equiv};

    ghost laws = { on_equiv token_of token_eq-equiv };
}

/// Prints what `Debug` prints.
impl fmt::Display for Token<'_> {
    fn fmt<W: fmt::Write>(&self, f: &mut fmt::Formatter<W>) -> fmt::Result {
        fmt::Debug::fmt(self, f)
    }
}

/// A token with its span in the stripped text.
#[derive(Clone, Debug, Drop)]
pub struct LexerToken<'a> {
    /// The token.
    pub token: Token<'a>,
    /// The bytes of the stripped text that spell it.
    pub span: Range<usize>,
}

/// Returns `text` without its leading white space, which is ASCII in most texts.
#[tactic(auto, using(crate::proofs::Blanks::trim_blanks))]
fn after_blanks(text: &str) -> &str
    ensures { IsTrimStart text.now result.now }
{
    let rest = &text[Run::Blanks.len(text.as_bytes())..];
    match rest.as_bytes().first() {
        // Only a character beyond ASCII can still be white space.
        Some(first) if !first.is_ascii() => rest.trim_start(),
        _ => rest,
    }
}

/// Returns `text` without its leading white space, and the class of the first byte that is left, or
/// `None` if none is left.
// As calls, this and `first_token` would add a third to the instructions of parsing a short text.
#[inline(always)]
#[tactic(auto, using(crate::proofs::Blanks::trimmed_already))]
fn trimmed(text: &str) -> (&str, Option<Class>)
    ensures trimmed { IsTrimStart text.now result.0.now }
    ensures class { BeginsWithClass result.0.now result.1 }
{
    let Some(class) = first_class(text) else {
        return (text, None);
    };
    // In most calls the class shows that there is no white space.
    if !class.may_be_white() {
        return (text, Some(class));
    }
    let rest = after_blanks(text);
    (rest, first_class(rest))
}

/// Returns the length of the word that `text` starts with.
#[tactic(auto, using(crate::proofs::WordLemmas::lengths))]
fn word_len(text: &str) -> usize
    requires some { 0 < length text.now }
    requires starts { starts_word (get_or text.now 0 0) ≡ true }
    ensures { result ≡ prefix_len continues_word text.now }
{
    Run::Word.len(&text.as_bytes()[1..]) + 1
}

/// Returns the token that `word` spells.
fn word_token(word: &str) -> Token<'_>
    requires { IsWord word.now }
    ensures { Spells word.now (token_of result) }
{
    match word {
        "all" => Token::All,
        "any" => Token::Any,
        "not" => Token::Not,
        key => Token::Key(key),
    }
}

/// Returns the value that `text` starts with, and the number of bytes that spell it.
///
/// `text` starts with a quote. If no other quote follows, the error has the reason and the number
/// of bytes at fault, which is `text.len()`.
fn value_token(text: &str) -> Result<(Token<'_>, usize), (Reason, usize)>
    requires some { 0 < length text.now }
    requires quote { slice_index text.now 0 ≡ slice_index (codes "\"") 0 }
    ensures { BeginsAs text.now result }
{
    let rest = &text[1..];
    match quote_in(rest) {
        Some(len) => Ok((Token::Value(&rest[..len]), len + 2)),
        None => Err((Reason::UnclosedQuotes, text.len())),
    }
}

/// Returns the token that `text` starts with, and the number of bytes that spell it. `class` is the
/// class of the first byte.
///
/// If no token starts there, the error has the reason and the number of bytes at fault: all of them
/// after a quote that is never closed, else one, even of a longer character.
#[inline(always)]
fn first_token(text: &str, class: Class) -> Result<(Token<'_>, usize), (Reason, usize)>
    requires { BeginsWithClass text.now (Some class) }
    ensures { BeginsAs text.now result }
{
    match class {
        Class::Letter => {
            let len = word_len(text);
            Ok((word_token(&text[..len]), len))
        }
        Class::Equals => Ok((Token::Equals, 1)),
        Class::OpenParen => Ok((Token::OpenParen, 1)),
        Class::CloseParen => Ok((Token::CloseParen, 1)),
        Class::Comma => Ok((Token::Comma, 1)),
        Class::Quote => value_token(text),
        Class::Digit | Class::Blank | Class::Other => {
            Err((Reason::Unexpected(terms::MEMBER), 1))
        }
    }
}

/// An iterator over the tokens of a text, from left to right.
///
/// After an error, and after `None`, every further item is `None`.
#[derive(Drop)]
pub struct Lexer<'a, A: Allocator = Global> {
    original: &'a str,
    /// The text after the last token.
    inner: &'a str,
    /// The allocator for the copy of the text that an error has; `None` after an error.
    alloc: Option<A>,
}

impl<'a, A: Allocator> Model for Lexer<'a, A> {
    ghost use Rattle.std.specs.Prelude.{◌≡◌, ◌-◌, ◌≤◌, length, drop};
    ghost use Rattle.std.specs.Option.{ForNone};
    ghost use Rattle.cfgx_syntax.specs.LexerState.{LexerState};

    ghost Value = { LexerState };

    ghost view = { λ l. record {
      text = l.original.now;
      place = length l.original.now - length l.inner.now;
    } };

    ghost invariant = { λ l.
        (l.inner.now ≡ drop (length l.original.now - length l.inner.now) l.original.now)
        × (length l.inner.now ≤ length l.original.now)
        × ForNone l.alloc (length l.inner.now ≡ 0) };
}

impl<'a, A: Allocator> Lexer<'a, A> {
    /// Returns a lexer of `text` without its outer `cfg( )`. It allocates nothing.
    pub fn new(alloc: A, text: &'a str) -> Self
        ensures starts { result ≡ starting (strip text.now) }
        ensures one { HasOneTokenList (strip text.now) }
    {
        Lexer::of_stripped(alloc, strip(text))
    }

    /// Returns a lexer of a text that is stripped already. It allocates nothing.
    #[tactic(auto, using(crate::proofs::Finding::one_list))]
    pub fn of_stripped(alloc: A, stripped: Stripped<'a>) -> Self
        ensures starts { result ≡ starting stripped.entry.text.now }
        ensures one { HasOneTokenList stripped.entry.text.now }
    {
        Lexer {
            original: stripped.text,
            inner: stripped.text,
            alloc: Some(alloc),
        }
    }

    /// Returns the stripped text, whose bytes spans count.
    pub fn original(&self) -> &'a str
        ensures { result.now ≡ self.now.text }
    {
        self.original
    }

    /// Returns the number of bytes after the last token. It falls with each item, and is 0 after
    /// `None` and after an error.
    pub fn items_left_bound(&self) -> usize
        ensures { result ≡ length self.now.text - self.now.place }
    {
        self.inner.len()
    }
}

/// Yields the tokens in order. The error is the fault at which they end, or `Memory` if there is no
/// memory for the copy of the text.
impl<'a, A: Allocator> Iterator for Lexer<'a, A> {
    type Item = Result<LexerToken<'a>, Failure<A>>;

    ghost use Rattle.std.specs.Prelude.{◌-◌, length};
    ghost use Rattle.std.specs.Iterator.{at_most};
    ghost use Rattle.cfgx_syntax.specs.Lexer.{GivesNext};

    ghost next_gives = { GivesNext };

    ghost remaining = { λ l. at_most (length l.text - l.place) };

    // As a call, it would add a quarter to the instructions of parsing a short text.
    #[inline(always)]
    fn next(&mut self) -> Option<Self::Item> {
        let (rest, class) = trimmed(self.inner);
        self.inner = rest;
        let class = class?;
        let start = self.original.len() - rest.len();
        match first_token(rest, class) {
            Ok((token, len)) => {
                self.inner = &rest[len..];
                Some(Ok(LexerToken {
                    token,
                    span: start..start + len,
                }))
            }
            Err((reason, len)) => {
                self.inner = "";
                let Some(alloc) = self.alloc.take() else {
                    unreachable!()
                };
                let span = start..start + len;
                Some(Err(Failure::of(alloc, self.original, span, reason)))
            }
        }
    }
}
