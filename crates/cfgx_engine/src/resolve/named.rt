//! The predicates that facts name, sorted, so that a binary search finds one.
ghost use Rattle.std.specs.Prelude.{◌≡◌, ◌↔◌, ◌++◌, ◌∷◌, [], drop, take, map};
ghost use Rattle.std.specs.Prelude.{IfOk, IsTrue, OnOk};
ghost use Rattle.std.specs.List.{Contains};
ghost use Rattle.std.specs.List.Sorted.{IsPermutation, IsSorted};
ghost use Rattle.cfg_expr.specs.Predicate.{question_of};

use super::index::{Entries, ends_with};
use cfg_expr::Predicate;
use cfg_expr::expr::logic::Kleene64;
use cfg_expr::expr::{AskedTexts, Predicates};
use std::alloc::{AllocError, Allocator};
use std::marker::Model;

/// A predicate that facts name. `kind` and `number` are those of its `AskedTexts`. In the buffer,
/// its key begins at `start`, and its value directly follows.
#[derive(Clone, Copy, Debug)]
struct NamedPredicate {
    kind: u32,
    number: Option<u32>,
    start: usize,
    key_len: usize,
    value_len: usize,
}

impl NamedPredicate {
    ghost use Rattle.cfg_expr.specs.Equality.{texts_code};
    ghost use Rattle.cfgx_engine.specs.internal.Named.{code_at};

    /// Returns what it asks, with its texts, which lie in `buffer`.
    #[inline(always)]
    fn asked_texts(self, buffer: &[u8]) -> AskedTexts<'_>
        ensures { texts_code result ≡ code_at buffer.now self }
    {
        let texts = behind(buffer, self.start);
        AskedTexts {
            kind: self.kind,
            number: self.number,
            key: front(texts, self.key_len),
            value: front(behind(texts, self.key_len), self.value_len),
        }
    }
}

/// Returns the first `len` bytes, or all if there are fewer.
// There never are, here or in `behind`: by the invariant of `NamedPredicates`, the texts lie in the
// buffer.
fn front(bytes: &[u8], len: usize) -> &[u8]
    ensures { result.now ≡ take len bytes.now }
{
    bytes.get(..len).unwrap_or(bytes)
}

/// Returns what follows the first `len` bytes.
fn behind(bytes: &[u8], len: usize) -> &[u8]
    ensures { result.now ≡ drop len bytes.now }
{
    bytes.get(len..).unwrap_or(&[])
}

/// Predicates that facts name. Contracts see a `Code` for each.
#[derive(Drop)]
#[derive_where(Debug)]
pub(super) struct NamedPredicates<A: Allocator> {
    /// The texts of the predicates
    buffer: Vec<u8, A>,
    named: Vec<NamedPredicate, A>,
}

impl<A: Allocator> Model for NamedPredicates<A> {
    ghost use Rattle.std.specs.Prelude.{length, List, map};
    ghost use Rattle.std.specs.List.{All};
    ghost use Rattle.cfg_expr.specs.Equality.{Code};
    ghost use Rattle.cfgx_engine.specs.internal.Named.{IsInside, code_at};

    ghost Value = { List Code };

    ghost view = { λ names. map (code_at names.buffer.items) names.named.items };

    ghost invariant = { λ names. All (IsInside (length names.buffer.items)) names.named.items };
}

impl<A: Allocator> NamedPredicates<A> {
    ghost use Rattle.cfgx_syntax.specs.Kleene.{lane};
    ghost use Rattle.cfgx_engine.specs.internal.Index.{TellsEach};
    ghost use Rattle.cfg_expr.specs.Equality.{code_cmp, question_code, texts_code};

    /// Makes an empty list. Takes no memory.
    pub(super) fn new(alloc: A) -> NamedPredicates<A>
    where
        A: Copy,
        ensures { result ≡ [] }
    {
        NamedPredicates {
            buffer: Vec::new(alloc),
            named: Vec::new(alloc),
        }
    }

    /// Whether nothing was added.
    pub(super) fn is_empty(&self) -> bool
        ensures { IsTrue result ↔ (self.now ≡ []) }
    {
        self.named.is_empty()
    }

    /// Adds predicates, and copies their texts.
    pub(super) fn add(&mut self, predicates: Predicates<'_>) -> Result<(), AllocError>
        ensures { OnOk result
            (self.new ≡ self.old ++ map question_code predicates.entry) }
    {
        for predicate in predicates {
            self.push(&predicate)?;
        }
        Ok(())
    }

    /// Adds a predicate.
    fn push(&mut self, predicate: &Predicate<'_>) -> Result<(), AllocError>
        ensures { OnOk result
            (self.new ≡ self.old ++ question_code (question_of predicate.now) ∷ []) }
    {
        let AskedTexts {
            kind,
            number,
            key,
            value,
        } = predicate.asked_texts();
        let start = self.buffer.len();
        self.buffer.extend_from_slice(key)?;
        self.buffer.extend_from_slice(value)?;
        self.named.push(NamedPredicate {
            kind,
            number,
            start,
            key_len: key.len(),
            value_len: value.len(),
        })?;
        Ok(())
    }

    /// Sorts the predicates, so that `has` finds each.
    pub(super) fn sort(&mut self)
        ensures same { IsPermutation self.old self.new }
        ensures sorted { IsSorted code_cmp self.new }
    {
        let buffer = self.buffer.as_slice();
        self.named.sort_unstable_by(|one, other| one
            .asked_texts(buffer)
            .cmp(&other.asked_texts(buffer)));
    }

    /// Whether the predicate that asks `asked` was added. Those that were added have to be
    /// sorted.
    // Inlined, so that an empty list costs no call.
    #[inline(always)]
    pub(super) fn has(&self, asked: &AskedTexts<'_>) -> bool
        requires { IsSorted code_cmp self.now }
        ensures { IsTrue result ↔ Contains self.now (texts_code asked.now) }
    {
        !self.is_empty() && self.finds(asked)
    }

    /// Whether a binary search finds the predicate that asks `asked`. Those that were added
    /// have to be sorted.
    fn finds(&self, asked: &AskedTexts<'_>) -> bool
        requires { IsSorted code_cmp self.now }
        ensures { IsTrue result ↔ Contains self.now (texts_code asked.now) }
    {
        let buffer = self.buffer.as_slice();
        let found = self
            .named
            .binary_search_by(|named| named.asked_texts(buffer).cmp(asked));
        found.is_ok()
    }

    /// Returns an entry with `answers` for each predicate that was added. They have to be sorted.
    pub(super) fn entries<'a>(
        &'a self,
        alloc: A,
        answers: Kleene64,
    ) -> Result<Entries<'a, A>, AllocError>
    where
        A: Copy,
        requires { IsSorted code_cmp self.now }
        ensures { IfOk result (λ entries. TellsEach self.now (λ i. lane i answers) entries) }
    {
        let buffer = self.buffer.as_slice();
        let all = self.named.as_slice();
        let mut names = Vec::with_capacity(alloc, all.len())?;
        let mut answered = Vec::with_capacity(alloc, all.len())?;
        for named in all {
            let asked = named.asked_texts(buffer);
            // A predicate that several facts name stands more than once.
            if ends_with(names.as_slice(), &asked) {
                continue;
            }
            names.push(asked)?;
            answered.push(answers)?;
        }
        Ok(Entries::of(names, answered))
    }
}
