//! Predicates where they stand in their text.
ghost use Rattle.std.specs.Prelude.{◌≡◌, ◌<◌, ◌^◌, ℕ, List, length};

use crate::asked::{Asked, AskedTarget};
use std::ops::Range;

/// A range of the bytes of a text. Unlike a `Range`, it is `Copy`.
#[derive(Clone, Copy, Debug)]
pub struct Span {
    /// The position of the first byte
    pub start: usize,
    /// The position after the last byte
    pub end: usize,
}

impl Span {
    ghost use Rattle.cfgx_parser.specs.Located.{IsSpan, at};

    /// Returns the bytes of `text` at this span.
    #[inline(always)]
    pub fn cut(self, text: &str) -> &str
        requires { IsSpan text.now self }
        ensures { result.now ≡ at text.now self }
    {
        &text[self.start..self.end]
    }
}

impl From<Range<usize>> for Span {
    ghost from_gives = { λ range span. span ≡ record { start = range.start; end = range.end } };

    fn from(range: Range<usize>) -> Span {
        let Range { start, end } = range;
        Span { start, end }
    }
}

/// A predicate where it stands in a condition. Spans are ranges of the bytes of the stripped text.
#[derive(Clone, Copy, Debug)]
pub struct LocatedPredicate {
    /// What it asks
    pub asked: Asked,
    /// The span of the key
    pub key: Span,
    /// The span of the value without its quotes, or that of the key if there is no value
    pub value: Span,
}

impl LocatedPredicate {
    ghost use Rattle.cfgx_parser.specs.Located.{HasCut, key_span, value_span, whole_span};

    /// Returns the span of the whole predicate: from its key past the closing quote of its value,
    /// or to the end of a key without a value.
    #[inline(always)]
    pub fn span(&self) -> Span
        ensures { (text : List ℕ) → HasCut text self.now → length text < 2 ^ 64
            → result ≡ whole_span self.now }
    {
        let end = if self.value.start == self.key.start {
            self.key.end
        } else {
            // Never wraps: the text goes on behind the value.
            self.value.end.wrapping_add(1)
        };
        Span {
            start: self.key.start,
            end,
        }
    }

    /// Returns the span of the key of a `Flag` or a `KeyValue`, and `None` for every other
    /// predicate, since `asked` says its key.
    #[inline(always)]
    pub fn key_span(&self) -> Option<Span>
        ensures { result ≡ key_span self.now.asked self.now.key }
    {
        match self.asked {
            Asked::Flag | Asked::KeyValue => Some(self.key),
            _ => None,
        }
    }

    /// Returns the span of the value without its quotes, or of `unix` or `windows`. Returns `None`
    /// if there is no value, or if `asked` says it.
    #[inline(always)]
    pub fn value_span(&self) -> Option<Span>
        ensures { result ≡ value_span self.now.asked self.now.value }
    {
        match self.asked {
            Asked::Target(AskedTarget::Text(_))
            | Asked::Feature
            | Asked::TargetFeature
            | Asked::KeyValue => Some(self.value),
            _ => None,
        }
    }
}
