//! The width of an atomic, its text and its errors.

use crate::error::HasAtomicParseError;
use crate::reading::read_has_atomic;
use std::alloc::{AllocError, Allocator, Global};
use std::fmt;

mod order;

/// A width of atomics. Numbers of bits are in order, and below the width of a pointer.
#[derive(Clone, Copy, Debug, PartialEq, Eq, Hash)]
pub enum HasAtomic {
    /// A number of bits.
    IntegerSize(u16),
    /// The width of a pointer.
    Pointer,
}

/// The error of `HasAtomic::read`.
#[derive(Drop)]
#[derive_where(Debug)]
pub enum HasAtomicFailure<A: Allocator = Global> {
    /// The text names no width.
    Parse(HasAtomicParseError<A>),
    /// The text names no width, and there is no memory for the copy of it.
    Memory(AllocError),
}

/// Two failures are equal if both have the same text, or both are out of memory.
impl<A: Allocator> PartialEq for HasAtomicFailure<A> {
    ghost use Rattle.std.specs.Prelude.{◌≡◌, ◌↔◌, IsTrue, nat_eq};
    ghost use Rattle.std.specs.{Cmp.on_per, Cmp.partial_equiv_from_equiv, Ordering.on};
    ghost use Rattle.std.specs.{Cmp.Lexicographic.options_equiv, Option.option_eq};
    ghost use Rattle.std.specs.Cmp.Lexicographic.{nat_list_eq_equiv, pointwise};
    ghost use Rattle.cfgx_fields.specs.HasAtomic.{refused_text};

    ghost eq = { on refused_text (option_eq (pointwise nat_eq)) };

    ghost laws = { on_per refused_text
        (partial_equiv_from_equiv (options_equiv nat_list_eq_equiv)) };

    fn eq(&self, other: &Self) -> bool
        ensures value { result
            ≡ option_eq (pointwise nat_eq) (refused_text self.now) (refused_text other.now) }
        ensures same { IsTrue result ↔ (self.now ≡ other.now) }
    {
        match (self, other) {
            (HasAtomicFailure::Parse(one), HasAtomicFailure::Parse(other)) => *one == *other,
            (HasAtomicFailure::Memory(_), HasAtomicFailure::Memory(_)) => true,
            _ => false,
        }
    }
}

impl<A: Allocator> Eq for HasAtomicFailure<A> {
    ghost use Rattle.std.specs.{Cmp.on_equiv, Cmp.Lexicographic.options_equiv};
    ghost use Rattle.std.specs.Cmp.Lexicographic.{nat_list_eq_equiv};
    ghost use Rattle.cfgx_fields.specs.HasAtomic.{refused_text};

    ghost laws = { on_equiv refused_text (options_equiv nat_list_eq_equiv) };
}

impl<A: Allocator> From<HasAtomicParseError<A>> for HasAtomicFailure<A> {
    ghost use Rattle.std.specs.Prelude.{◌≡◌};
    ghost use Rattle.cfgx_fields.specs.declared.atomic.HasAtomicFailure.TheVariants.{Parse};

    ghost from_gives = { λ error failure. failure ≡ Parse error };

    fn from(error: HasAtomicParseError<A>) -> Self {
        HasAtomicFailure::Parse(error)
    }
}

impl<A: Allocator> From<AllocError> for HasAtomicFailure<A> {
    ghost use Rattle.std.specs.Prelude.{◌≡◌};
    ghost use Rattle.cfgx_fields.specs.declared.atomic.HasAtomicFailure.TheVariants.{Memory};

    ghost from_gives = { λ error failure. failure ≡ Memory error };

    fn from(error: AllocError) -> Self {
        HasAtomicFailure::Memory(error)
    }
}

impl HasAtomic {
    ghost use Rattle.std.specs.Prelude.{◌≡◌, Ok};
    ghost use Rattle.cfgx_fields.specs.HasAtomic.{IsWidth, ReadsAtomic, atomic_text};

    /// Reads a number of bits, at most 65535, or `ptr`. It reads what `Display` prints.
    ///
    /// A text that names a width takes no memory. Any other text is copied into `alloc` for the
    /// error.
    ///
    /// # Errors
    ///
    /// `HasAtomicFailure::Parse`: the text names no width. `HasAtomicFailure::Memory`: it names
    /// none, and `alloc` refused memory for the copy.
    pub fn read<A: Allocator>(alloc: A, text: &str) -> Result<HasAtomic, HasAtomicFailure<A>>
        ensures reads { ReadsAtomic text.now result }
        ensures printed { (width : HasAtomic) → IsWidth width → text.now ≡ atomic_text width
            → result ≡ Ok width }
    {
        match read_has_atomic(text) {
            Some(width) => Ok(width),
            None => Err(HasAtomicParseError::new(alloc, text)?.into()),
        }
    }
}

impl fmt::Display for HasAtomic {
    ghost use Rattle.std.specs.Prelude.{Some};
    ghost use Rattle.cfgx_fields.specs.HasAtomic.{atomic_text};

    ghost output = { λ width. Some (atomic_text width) };

    fn fmt<W: fmt::Write>(&self, f: &mut fmt::Formatter<W>) -> fmt::Result {
        match self {
            HasAtomic::IntegerSize(bits) => f.write(*bits),
            HasAtomic::Pointer => f.write_str("ptr"),
        }
    }
}
