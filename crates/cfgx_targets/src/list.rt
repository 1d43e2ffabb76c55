//! Sorted lists.

ghost use Rattle.std.specs.Prelude.{◌≡◌, ◌↔◌, Contains, IfOk, IsPermutation, IsSorted, IsTrue};
ghost use Rattle.std.specs.Prelude.{List, Some, map, ℕ};
ghost use Rattle.std.specs.Cmp.Lexicographic.{lists_agrees, lists_equiv, lists_per, lists_po};
ghost use Rattle.std.specs.Cmp.Lexicographic.{lists_ties, lists_total, pointwise, slice_cmp};
ghost use Rattle.std.specs.Cmp.Lexicographic.{slice_partial_cmp};
ghost use Rattle.std.specs.Fmt.{DisplaysOnOk};
ghost use Rattle.std.specs.Hash as fed;
ghost use Rattle.std.specs.Hash.{items_Alike};
ghost use Rattle.std.specs.Iterator.{IsFinite};
ghost use Rattle.std.specs.Iterator.Runs.{WholeRun};
ghost use Rattle.cfgx_targets.specs.SortedList.{IsSortedFrom, list_text, others_text};
ghost use Rattle.cfgx_targets.specs.SortedList.{separated_text};

use std::alloc::{AllocError, Allocator, Global};
use std::borrow::CowSlice;
use std::cmp::Ordering;
use std::fmt;
use std::hash::{Hash, Hasher};
use std::marker::Model;

/// A value that may be in a sorted list: values that compare as equal are the same, and contracts
/// know what each prints.
pub trait Member: Ord + Hash + fmt::Debug + fmt::Display + Drop {
    ghost use Rattle.std.specs.declared.cmp.Ordering.TheVariants.{Equal};

    /// The text that a member prints.
    ghost text: { Self → List ℕ };

    ghost printed: { (member : Self) → Self.output member ≡ Some (text member) };

    ghost equal_is_same: { (one other : Self) → Self.cmp one other ≡ Equal → one ≡ other };
}

/// A sorted list, which may have repeats, borrowed for `'a` or owned in the allocator `A`.
/// Contracts see the list of its members.
#[derive(Drop)]
#[derive_where(Debug)]
pub struct SortedList<'a, T: Member, A: Allocator = Global> {
    pub(crate) items: CowSlice<'a, T, A>,
}

impl<'a, T: Member, A: Allocator> Model for SortedList<'a, T, A> {
    ghost use Rattle.std.specs.Prelude.{IsSorted, List};
    ghost use Rattle.std.specs.Cow.{cow_slice_items};

    ghost Value = { List T };

    ghost view = { λ list. cow_slice_items list.items };

    ghost invariant = { λ list. IsSorted T.cmp (cow_slice_items list.items) };
}

impl<'a, T: Member, A: Allocator> SortedList<'a, T, A> {
    /// Returns the sorted list of `items`, repeats included, in memory of `alloc`.
    ///
    /// Returns an error if `alloc` refuses it.
    pub fn new<I: Iterator<Item = T>>(alloc: A, items: I) -> Result<Self, AllocError>
        requires can { I.can_next items }
        requires ends { IsFinite (I.remaining items) }
        ensures { IfOk result (λ list. WholeRun I.next_gives items (λ run.
            IsSortedFrom T.cmp run.items list)) }
    {
        let items = sorted(alloc, items)?;
        Ok(SortedList {
            items: CowSlice::Owned(items),
        })
    }

    /// Returns the list that owns `items`, which are sorted.
    pub(crate) fn from_sorted(items: Vec<T, A>) -> Self
        requires { IsSorted T.cmp items.items }
        ensures { result ≡ items.items }
    {
        SortedList {
            items: CowSlice::Owned(items),
        }
    }

    /// Returns the list that borrows `items`, which are sorted, and allocates nothing. `is_sorted`
    /// tests whether items are sorted.
    pub fn new_const(items: &'a [T]) -> Self
        requires { IsSorted T.cmp items.now }
        ensures { result ≡ items.now }
    {
        SortedList {
            items: CowSlice::Borrowed(items),
        }
    }

    /// Returns the members, in order.
    pub fn as_slice(&self) -> &[T]
        ensures members { result.now ≡ self.now }
        ensures sorted { IsSorted T.cmp result.now }
    {
        self.items.as_slice()
    }

    /// Returns whether `item` is a member.
    pub(crate) fn has_member(&self, item: &T) -> bool
        ensures { IsTrue result ↔ Contains self.now item.now }
    {
        self.as_slice().binary_search(item).is_ok()
    }
}

/// Returns whether no item is below the one before it.
pub(crate) fn are_sorted<T: Member>(items: &[T]) -> bool
    ensures { IsTrue result ↔ IsSorted T.cmp items.now }
{
    items.is_sorted()
}

impl<T: Member, A: Allocator> PartialEq for SortedList<'_, T, A> {
    ghost eq = { pointwise T.eq };

    ghost laws = { lists_per T.PartialEq.laws };

    fn eq(&self, other: &Self) -> bool
        ensures value { result ≡ pointwise T.eq self.now other.now }
        ensures same { IsTrue result ↔ (self.now ≡ other.now) }
        // Lists are equal if the items that they were made of are rearrangements of each other.
        ensures rearranged { (items others : List T) → IsSortedFrom T.cmp items self.now
            → IsSortedFrom T.cmp others other.now → (IsTrue result ↔ IsPermutation items others) }
    {
        self.as_slice() == other.as_slice()
    }
}

impl<T: Member, A: Allocator> Eq for SortedList<'_, T, A> {
    ghost laws = { lists_equiv T.Eq.laws };
}

impl<T: Member, A: Allocator> PartialOrd for SortedList<'_, T, A> {
    ghost partial_cmp = { slice_partial_cmp T.partial_cmp };

    ghost laws = { lists_po T.PartialOrd.laws };

    fn partial_cmp(&self, other: &Self) -> Option<Ordering> {
        self.as_slice().partial_cmp(other.as_slice())
    }
}

impl<T: Member, A: Allocator> Ord for SortedList<'_, T, A> {
    ghost cmp = { slice_cmp T.cmp };

    ghost total = { lists_total T.total };

    ghost matches_partial_cmp = { lists_agrees T.matches_partial_cmp };

    ghost matches_eq = { lists_ties T.cmp T.matches_eq };

    fn cmp(&self, other: &Self) -> Ordering
        ensures { result ≡ slice_cmp T.cmp self.now other.now }
    {
        self.as_slice().cmp(other.as_slice())
    }
}

impl<T: Member, A: Allocator> Hash for SortedList<'_, T, A> {
    ghost hash_input = { fed.slice T.hash_input };

    ghost respects_eq = { (items_Alike (record { fed = T.respects_eq })).fed };

    fn hash<H: Hasher>(&self, state: &mut H) {
        self.as_slice().hash(state);
    }
}

/// Prints the members between braces, with a comma and a space between two.
impl<T: Member, A: Allocator> fmt::Display for SortedList<'_, T, A> {
    ghost output = { λ list. Some (list_text (map T.text list)) };

    fn fmt<W: fmt::Write>(&self, f: &mut fmt::Formatter<W>) -> fmt::Result {
        f.write_str("{")?;
        write_members(f, self.as_slice())?;
        f.write_str("}")
    }
}

// Writes `members`, with a comma and a space between two.
fn write_members<T: Member, W: fmt::Write>(f: &mut fmt::Formatter<W>, members: &[T]) -> fmt::Result
    ensures { DisplaysOnOk W.write_str_gives f.old result
        (Some (separated_text (map T.text members.now))) f.new }
{
    match members.split_first() {
        Some((first, others)) => {
            write!(f, "{first}")?;
            write_others(f, others)
        }
        None => Ok(()),
    }
}

// Writes each of `members` after a comma and a space.
fn write_others<T: Member, W: fmt::Write>(f: &mut fmt::Formatter<W>, members: &[T]) -> fmt::Result
    ensures { DisplaysOnOk W.write_str_gives f.old result
        (Some (others_text (map T.text members.now))) f.new }
{
    for member in members {
        write!(f, ", {member}")?;
    }
    Ok(())
}

// Returns the items in order. It pushes them one by one, since `collect` asks for less memory after
// `alloc` refused a growth.
fn sorted<T: Ord + Drop, A: Allocator, I: Iterator<Item = T>>(
    alloc: A,
    items: I,
) -> Result<Vec<T, A>, AllocError>
    requires can { I.can_next items }
    requires ends { IsFinite (I.remaining items) }
    ensures { IfOk result (λ list. WholeRun I.next_gives items (λ run.
        IsSortedFrom T.cmp run.items list.items)) }
{
    let mut sorted = Vec::new(alloc);
    for item in items {
        sorted.push(item)?;
    }
    sorted.sort_unstable();
    Ok(sorted)
}
