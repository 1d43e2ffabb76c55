//! Lists of widths of atomics.

ghost use Rattle.std.specs.Prelude.{◌≡◌, ◌↔◌, Contains, IfOk, IsSorted, IsTrue};

use crate::list::{Member, SortedList, are_sorted};
use cfgx_fields::atomic::HasAtomic;
use std::alloc::{AllocError, Allocator, Global};
use std::borrow::CowSlice;

/// A sorted list of widths of atomics.
pub type HasAtomics<A = Global> = SortedList<'static, HasAtomic, A>;

impl Member for HasAtomic {
    ghost use Rattle.std.proofs.Common.{rules};
    ghost use Rattle.std.specs.Cmp.Rules.{comparing};
    ghost use Rattle.cfgx_fields.specs.HasAtomic.{atomic_text};

    ghost text = { atomic_text };

    ghost printed = { λ width. Prim.search rules };

    ghost equal_is_same = { λ one other. Prim.search (comparing, rules) };
}

// This impl fixes the allocator, so that a call of `is_sorted` need not name it.
impl SortedList<'static, HasAtomic> {
    /// Returns whether no width is below the one before it.
    pub fn is_sorted(widths: &[HasAtomic]) -> bool
        ensures { IsTrue result ↔ IsSorted ⟦<HasAtomic as Ord>⟧.cmp widths.now }
    {
        are_sorted(widths)
    }
}

impl<'a, A: Allocator> SortedList<'a, HasAtomic, A> {
    /// Returns whether `width` is a member.
    pub fn contains(&self, width: HasAtomic) -> bool
        ensures { IsTrue result ↔ Contains self.now width }
    {
        self.has_member(&width)
    }

    /// Returns a list equal to this one. A borrowed list is borrowed again, and an owned one is
    /// copied into `alloc`.
    ///
    /// Returns an error if `alloc` refuses the copy.
    pub fn try_clone(&self, alloc: A) -> Result<Self, AllocError>
        ensures { IfOk result (λ copy. copy ≡ self.now) }
    {
        match &self.items {
            CowSlice::Borrowed(widths) => Ok(SortedList::new_const(*widths)),
            CowSlice::Owned(widths) => {
                Ok(SortedList::from_sorted(Vec::from_slice(alloc, widths.as_slice())?))
            }
        }
    }
}
