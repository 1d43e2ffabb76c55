//! The error for a text that names no width of atomics.

ghost use Rattle.std.specs.Prelude.{◌≡◌, ◌++◌, IfOk, Some, codes};

use crate::Field;
use std::alloc::{AllocError, Allocator, Global};
use std::fmt;
use std::marker::Model;

// Marks a field as a text that names no width of atomics.
#[derive(Drop)]
struct WidthKind;

/// A text that names no width of atomics. Contracts see it as that text.
#[derive(Drop)]
#[derive_where(Debug)]
pub struct HasAtomicParseError<A: Allocator = Global> {
    text: Field<'static, WidthKind, A>,
}

impl<A: Allocator> Model for HasAtomicParseError<A> {
    ghost use Rattle.std.specs.Prelude.{List, ℕ};

    ghost Value = { List ℕ };

    ghost view = { λ error. error.text };

    ghost inverse = { λ bytes. record { text = bytes } };
}

/// Two errors are equal if their texts are.
impl<A: Allocator> PartialEq for HasAtomicParseError<A> {
    ghost use Rattle.std.specs.Prelude.{◌↔◌, IsTrue, nat_eq};
    ghost use Rattle.std.specs.Cmp.{partial_equiv_from_equiv};
    ghost use Rattle.std.specs.Cmp.Lexicographic.{nat_list_eq_equiv, pointwise};

    ghost eq = { pointwise nat_eq };

    ghost laws = { partial_equiv_from_equiv nat_list_eq_equiv };

    fn eq(&self, other: &Self) -> bool
        ensures value { result ≡ pointwise nat_eq self.now other.now }
        ensures same { IsTrue result ↔ (self.now ≡ other.now) }
    {
        self.text == other.text
    }
}

impl<A: Allocator> Eq for HasAtomicParseError<A> {
    ghost use Rattle.std.specs.Cmp.Lexicographic.{nat_list_eq_equiv};

    ghost laws = { nat_list_eq_equiv };
}

impl<A: Allocator> HasAtomicParseError<A> {
    /// Returns the error for `text`, which is copied into `alloc`.
    ///
    /// # Errors
    ///
    /// `AllocError`: `alloc` refused memory.
    pub(crate) fn new(alloc: A, text: &str) -> Result<Self, AllocError>
        ensures { IfOk result (λ error. error ≡ text.now) }
    {
        Ok(HasAtomicParseError {
            text: Field::new(String::from_str(alloc, text)?),
        })
    }

    /// Returns an error equal to this one, whose text is copied into `alloc`.
    ///
    /// # Errors
    ///
    /// `AllocError`: `alloc` refused memory.
    pub fn try_clone(&self, alloc: A) -> Result<Self, AllocError>
        ensures { IfOk result (λ copy. copy ≡ self.now) }
    {
        Ok(HasAtomicParseError {
            text: self.text.try_clone(alloc)?,
        })
    }
}

impl<A: Allocator> fmt::Display for HasAtomicParseError<A> {
    ghost output = { λ text. Some (codes "expected integer or \"ptr\", found " ++ text) };

    fn fmt<W: fmt::Write>(&self, f: &mut fmt::Formatter<W>) -> fmt::Result {
        f.write_str("expected integer or \"ptr\", found ")?;
        f.write_str(self.text.as_str())
    }
}
