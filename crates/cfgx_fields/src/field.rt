//! The type behind all field types: a borrowed or owned text with its kind.

ghost use Rattle.std.specs.Prelude.{◌≡◌, ◌↔◌, IfOk, IsTrue, Some};
ghost use Rattle.std.specs.Prelude.{fold, nat_eq, refl, string_bytes};
ghost use Rattle.std.specs.Cmp.{partial_equiv_from_equiv};
ghost use Rattle.std.specs.Cmp.Lexicographic.{nat_list_cmp_total, nat_list_eq_equiv};
ghost use Rattle.std.specs.Cmp.Lexicographic.{pointwise, slice_cmp, texts_po, texts_ties};
ghost use Rattle.std.specs.Cmp.Rules.{hashing};
ghost use Rattle.std.specs.Fmt.{debug_str, styled_text};
ghost use Rattle.std.specs.Hash as fed;
ghost use Rattle.std.specs.Ordering.{nat_cmp};
ghost use Rattle.std.proofs.Common.{rules};

use std::alloc::{AllocError, Allocator, Global};
use std::borrow::CowStr;
use std::cmp::Ordering;
use std::fmt;
use std::hash::{Hash, Hasher};
use std::marker::{Model, PhantomData};

/// A text of the kind `K`, borrowed for `'a` or owned in the allocator `A`.
///
/// Contracts see the list of its bytes. `==`, the order and the hash are those of `str`, so they
/// do not depend on who owns the text. Fields of two kinds have two types.
#[derive(Drop)]
pub struct Field<'a, K, A: Allocator = Global> {
    text: CowStr<'a, A>,
    kind: PhantomData<K>,
}

impl<'a, K, A: Allocator> Model for Field<'a, K, A> {
    ghost use Rattle.std.specs.Prelude.{List, ℕ};
    ghost use Rattle.std.specs.Cow.{cow_str_bytes};

    ghost Value = { List ℕ };

    ghost view = { λ field. cow_str_bytes field.text };
}

impl<'a, K, A: Allocator> Field<'a, K, A> {
    /// Returns a field that owns `text`. It allocates nothing.
    pub fn new(text: String<A>) -> Self
        ensures { result ≡ string_bytes text }
    {
        Field {
            text: CowStr::Owned(text),
            kind: PhantomData,
        }
    }

    /// Returns a field that borrows `text`. It allocates nothing.
    pub const fn new_const(text: &'a str) -> Self
        ensures { result ≡ text.now }
    {
        Field {
            text: CowStr::Borrowed(text),
            kind: PhantomData,
        }
    }

    /// Returns the text.
    pub fn as_str(&self) -> &str
        ensures { result.now ≡ self.now }
    {
        self.text.as_str()
    }

    /// Returns a field equal to this one. A borrowed text is borrowed again, and an owned one is
    /// copied into `alloc`.
    ///
    /// # Errors
    ///
    /// `AllocError`: `alloc` refused memory.
    pub fn try_clone(&self, alloc: A) -> Result<Self, AllocError>
        ensures { IfOk result (λ copy. copy ≡ self.now) }
    {
        match &self.text {
            CowStr::Borrowed(text) => Ok(Field::new_const(*text)),
            CowStr::Owned(text) => Ok(Field::new(String::from_str(alloc, text.as_str())?)),
        }
    }
}

impl<K, A: Allocator> PartialEq for Field<'_, K, A> {
    ghost eq = { pointwise nat_eq };

    ghost laws = { partial_equiv_from_equiv nat_list_eq_equiv };

    fn eq(&self, other: &Self) -> bool
        ensures value { result ≡ pointwise nat_eq self.now other.now }
        ensures same_bytes { IsTrue result ↔ (self.now ≡ other.now) }
    {
        self.as_str() == other.as_str()
    }
}

impl<K, A: Allocator> Eq for Field<'_, K, A> {
    ghost laws = { nat_list_eq_equiv };
}

impl<K, A: Allocator> PartialOrd for Field<'_, K, A> {
    ghost partial_cmp = { λ one other. Some (slice_cmp nat_cmp one other) };

    ghost laws = { texts_po };

    fn partial_cmp(&self, other: &Self) -> Option<Ordering> {
        Some(self.cmp(other))
    }
}

impl<K, A: Allocator> Ord for Field<'_, K, A> {
    ghost cmp = { slice_cmp nat_cmp };

    ghost total = { nat_list_cmp_total };

    ghost matches_partial_cmp = { λ one other. refl };

    ghost matches_eq = { texts_ties };

    fn cmp(&self, other: &Self) -> Ordering
        ensures { result ≡ slice_cmp nat_cmp self.now other.now }
    {
        self.as_str().cmp(other.as_str())
    }
}

impl<K, A: Allocator> Hash for Field<'_, K, A> {
    ghost hash_input = { fed.str };

    ghost respects_eq = { Prim.search (hashing, rules) };

    fn hash<H: Hasher>(&self, state: &mut H)
        ensures { state.new ≡ fold H.write state.old (fed.str self.now) }
    {
        self.as_str().hash(state);
    }
}

impl<K, A: Allocator> fmt::Display for Field<'_, K, A> {
    ghost output = { λ text. Some text };

    ghost styled_output = { λ text style. Some (styled_text style text) };

    fn fmt<W: fmt::Write>(&self, f: &mut fmt::Formatter<W>) -> fmt::Result {
        f.pad(self.as_str())
    }
}

impl<K, A: Allocator> fmt::Debug for Field<'_, K, A> {
    ghost debug_output = { debug_str };

    fn fmt<W: fmt::Write>(&self, f: &mut fmt::Formatter<W>) -> fmt::Result {
        let text = self.as_str();
        fmt::Debug::fmt(&text, f)
    }
}
