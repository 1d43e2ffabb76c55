//! Lists of families.

ghost use Rattle.std.specs.Prelude.{◌≡◌, ◌↔◌, Contains, IfOk, IsSorted, IsTrue};

use crate::list::{Member, SortedList, are_sorted};
use cfgx_fields::Family;
use std::alloc::{AllocError, Allocator, Global};
use std::borrow::CowSlice;

/// A sorted list of families. Contracts see their texts.
pub type Families<'a, A = Global> = SortedList<'a, Family<'a, A>, A>;

impl<A: Allocator> Member for Family<'_, A> {
    ghost use Rattle.std.proofs.Common.{ap, rules, ◌∙◌};
    ghost use Rattle.std.specs.Cmp.Lexicographic.{bytes_decides, texts_ties};
    ghost use Rattle.std.specs.Ordering.{is_eq};

    ghost text = { λ family. family };

    ghost printed = { λ family. Prim.search rules };

    ghost equal_is_same = { λ one other equal.
        (bytes_decides one other).0 (texts_ties one other ∙ ap is_eq equal) };
}

impl<'a, A: Allocator> SortedList<'a, Family<'a, A>, A> {
    /// Returns whether no family is below the one before it.
    pub fn is_sorted(families: &[Family<'_, A>]) -> bool
        ensures { IsTrue result ↔ IsSorted ⟦<Family<'a, A> as Ord>⟧.cmp families.now }
    {
        are_sorted(families)
    }

    /// Returns whether a member has the text of `family`.
    pub fn contains(&self, family: &Family<'_>) -> bool
        ensures { IsTrue result ↔ Contains self.now family.now }
    {
        let text = family.as_str();
        self.as_slice()
            .binary_search_by(|member| member.as_str().cmp(text))
            .is_ok()
    }

    /// Returns a list equal to this one. A borrowed list is borrowed again, and an owned one is
    /// copied into `alloc`, with the texts that it owns.
    ///
    /// Returns an error if `alloc` refuses a copy.
    pub fn try_clone(&self, alloc: A) -> Result<Self, AllocError>
    where
        A: Copy,
        ensures { IfOk result (λ copy. copy ≡ self.now) }
    {
        match &self.items {
            CowSlice::Borrowed(families) => Ok(SortedList::new_const(*families)),
            CowSlice::Owned(families) => {
                let copies = copied(alloc, families.as_slice())?;
                Ok(SortedList::from_sorted(copies))
            }
        }
    }
}

// Returns copies of `families`, in memory of `alloc`.
fn copied<'a, A: Allocator + Copy>(
    alloc: A,
    families: &[Family<'a, A>],
) -> Result<Vec<Family<'a, A>, A>, AllocError>
    ensures { IfOk result (λ copies. copies.items ≡ families.now) }
{
    let mut copies = Vec::with_capacity(alloc, families.len())?;
    for family in families {
        copies.push(family.try_clone(alloc)?)?;
    }
    Ok(copies)
}
