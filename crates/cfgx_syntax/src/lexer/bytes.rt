//! Classes of bytes, and runs of bytes.
ghost use Rattle.std.specs.Prelude.{◌≡◌, ◌≤◌, length, true};
ghost use Rattle.std.specs.List.{prefix_len};
ghost use Rattle.cfgx_syntax.specs.lexing.ByteClasses.{in_run, is_of, may_be_white};
ghost use Rattle.cfgx_syntax.specs.lexing.ByteClasses.{BeginsWithClass, FindsQuote};

use Class::*;

/// What a byte means to the lexer.
#[derive(Clone, Copy)]
pub(super) enum Class {
    /// An ASCII letter or `_`, which starts a word.
    Letter,
    /// An ASCII digit, which continues a word.
    Digit,
    /// `=`.
    Equals,
    /// `(`.
    OpenParen,
    /// `)`.
    CloseParen,
    /// `,`.
    Comma,
    /// `"`.
    Quote,
    /// ASCII white space.
    Blank,
    /// Any other byte.
    Other,
}

impl Class {
    /// Returns whether a white space character may start with a byte of this class.
    pub(super) fn may_be_white(self) -> bool
        ensures { result ≡ may_be_white self }
    {
        matches!(self, Class::Blank | Class::Other)
    }
}

/// Returns the class of `byte`. This is called for most bytes of a text, so it reads a table.
fn class_of(byte: u8) -> Class
    ensures { is_of result byte ≡ true }
{
    CLASSES[usize::from(byte)]
}

/// Returns the class of the first byte of `text`, or `None` if `text` is empty.
pub(super) fn first_class(text: &str) -> Option<Class>
    ensures { BeginsWithClass text.now result }
{
    match text.as_bytes().first() {
        Some(first) => Some(class_of(*first)),
        None => None,
    }
}

/// A run: bytes side by side that all pass one test.
#[derive(Clone, Copy)]
pub(super) enum Run {
    /// ASCII white space.
    Blanks,
    /// The bytes of a word: ASCII letters, ASCII digits and `_`.
    Word,
    /// The bytes of a value: any byte but `"`.
    Value,
}

impl Run {
    /// Returns whether `byte` may stand in the run.
    fn allows(self, byte: u8) -> bool
        ensures { result ≡ in_run self byte }
    {
        match self {
            Run::Blanks => matches!(class_of(byte), Class::Blank),
            Run::Word => matches!(class_of(byte), Class::Letter | Class::Digit),
            Run::Value => byte != b'"',
        }
    }

    /// Returns the length of the run that `bytes` starts with, and tests one byte a turn.
    fn count(self, bytes: &[u8]) -> usize
        ensures { result ≡ prefix_len (in_run self) bytes.now }
    {
        bytes.iter().take_while(|byte| self.allows(**byte)).count()
    }

    /// Returns the length of the run that `bytes` starts with. It tests four bytes a turn, which
    /// takes two thirds of the instructions of `count`.
    #[inline(always)]
    #[tactic(auto, using(crate::proofs::Classes::counted))]
    pub(super) fn len(self, bytes: &[u8]) -> usize
        ensures len { result ≡ prefix_len (in_run self) bytes.now }
        ensures few { result ≤ length bytes.now }
    {
        let mut len = 0;
        while bytes.len() - len >= 4 {
            if !self.allows(bytes[len]) {
                return len;
            }
            if !self.allows(bytes[len + 1]) {
                return len + 1;
            }
            if !self.allows(bytes[len + 2]) {
                return len + 2;
            }
            if !self.allows(bytes[len + 3]) {
                return len + 3;
            }
            len += 4;
        }
        len + self.count(&bytes[len..])
    }
}

/// Returns the index of the first quote. Most values are short, and for these a test of each byte
/// takes fewer instructions than the preparation of `find`.
#[inline(never)]
pub(super) fn quote_in(text: &str) -> Option<usize>
    ensures { FindsQuote text.now result }
{
    let bytes = text.as_bytes();
    let prefix = &bytes[..bytes.len().min(SHORT_VALUE)];
    let len = Run::Value.len(prefix);
    if len < prefix.len() {
        return Some(len);
    }
    text.find('"')
}

/// The number of bytes that `quote_in` tests before it calls `find`.
const SHORT_VALUE: usize = 16;

/// The class of each byte.
const CLASSES: &[Class] = &[
    Other, Other, Other, Other, Other, Other, Other, Other, Other, Blank, Blank, Blank, Blank,
    Blank, Other, Other, Other, Other, Other, Other, Other, Other, Other, Other, Other, Other,
    Other, Other, Other, Other, Other, Other, Blank, Other, Quote, Other, Other, Other, Other,
    Other, OpenParen, CloseParen, Other, Other, Comma, Other, Other, Other, Digit, Digit, Digit,
    Digit, Digit, Digit, Digit, Digit, Digit, Digit, Other, Other, Other, Equals, Other, Other,
    Other, Letter, Letter, Letter, Letter, Letter, Letter, Letter, Letter, Letter, Letter, Letter,
    Letter, Letter, Letter, Letter, Letter, Letter, Letter, Letter, Letter, Letter, Letter, Letter,
    Letter, Letter, Letter, Other, Other, Other, Other, Letter, Other, Letter, Letter, Letter,
    Letter, Letter, Letter, Letter, Letter, Letter, Letter, Letter, Letter, Letter, Letter, Letter,
    Letter, Letter, Letter, Letter, Letter, Letter, Letter, Letter, Letter, Letter, Letter, Other,
    Other, Other, Other, Other, Other, Other, Other, Other, Other, Other, Other, Other, Other,
    Other, Other, Other, Other, Other, Other, Other, Other, Other, Other, Other, Other, Other,
    Other, Other, Other, Other, Other, Other, Other, Other, Other, Other, Other, Other, Other,
    Other, Other, Other, Other, Other, Other, Other, Other, Other, Other, Other, Other, Other,
    Other, Other, Other, Other, Other, Other, Other, Other, Other, Other, Other, Other, Other,
    Other, Other, Other, Other, Other, Other, Other, Other, Other, Other, Other, Other, Other,
    Other, Other, Other, Other, Other, Other, Other, Other, Other, Other, Other, Other, Other,
    Other, Other, Other, Other, Other, Other, Other, Other, Other, Other, Other, Other, Other,
    Other, Other, Other, Other, Other, Other, Other, Other, Other, Other, Other, Other, Other,
    Other, Other, Other, Other, Other, Other, Other, Other, Other, Other, Other, Other, Other,
    Other, Other,
];
