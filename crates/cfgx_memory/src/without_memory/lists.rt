//! Lists of widths and of families.
use super::is_made_and_ordered;
use super::values::EIGHT;
use crate::in_turn::AllocResult;
use crate::in_turn::lists::{SORTED, UNSORTED, list_of};
use cfg_expr::memory::SmallAllocator;
use cfg_expr::targets::{Families, Family, HasAtomic, HasAtomics};
use cfgx_targets::list::{Member, SortedList};
use cfgx_testing::checking::{is_ok_true, prints, value_equals};
use cfgx_testing::heap::Heap;
use cfgx_testing::refusing::EVERY;
use std::alloc::Global;

const POINTER: &[HasAtomic] = &[HasAtomic::Pointer];

// Returns whether `list` was made and is the list of `SORTED`.
fn is_sorted_list<A: SmallAllocator>(global: Global, list: &AllocResult<HasAtomics<A>>) -> bool {
    match list {
        Ok(list) => {
            let is_equal = HasAtomics::<A>::new_const(SORTED) == *list;
            is_equal
                && list.as_slice() == SORTED
                && list.contains(EIGHT)
                && !list.contains(HasAtomic::IntegerSize(16))
                && prints(global, list, "{8, ptr}")
        }
        Err(_) => false,
    }
}

// Returns whether a list that is made of `SORTED` has these widths.
fn makes_widths<A: SmallAllocator>(global: Global, heap: Heap<'_>, alloc: A) -> bool {
    heap.refuse(0);
    let list = list_of(alloc, SORTED);
    heap.refuse(EVERY);
    is_sorted_list(global, &list)
}

// Returns whether the lists of `SORTED` and `UNSORTED` are equal, and below a third list.
fn compares_widths<A: SmallAllocator>(heap: Heap<'_>, alloc: A) -> bool {
    heap.refuse(0);
    let list = list_of(alloc, SORTED);
    let same = list_of(alloc, UNSORTED);
    let above = Ok(HasAtomics::new_const(POINTER));
    heap.refuse(EVERY);
    is_made_and_ordered(&list, &same, &above)
}

// Returns whether the list contains the family.
fn contains_family<A: SmallAllocator>(list: &Families<'_, A>, family: Family<'_>) -> bool {
    let is_member = list.contains(&family);
    drop(family);
    is_member
}

// Returns whether a list that borrows the members of `list` equals its copy.
fn equals_copy_of_borrowed<A: SmallAllocator>(alloc: A, list: &Families<'_, A>) -> bool {
    let borrowed = Families::new_const(list.as_slice());
    is_ok_true(value_equals(borrowed.try_clone(alloc), &borrowed))
}

// Returns whether `list` was made and is the list of `unix` and `wasm`.
fn is_unix_wasm<A: SmallAllocator>(
    global: Global,
    alloc: A,
    list: &AllocResult<Families<'_, A>>,
) -> bool {
    match list {
        Ok(list) => {
            list.as_slice().len() == 2
                && equals_copy_of_borrowed(alloc, list)
                && contains_family(list, Family::unix())
                && contains_family(list, Family::wasm())
                && !contains_family(list, Family::windows())
                && prints(global, list, "{unix, wasm}")
        }
        Err(_) => false,
    }
}

// Returns whether the list that `unix_wasm` makes has these families.
fn makes_families<A: SmallAllocator>(global: Global, heap: Heap<'_>, alloc: A) -> bool {
    heap.refuse(0);
    let list = Families::unix_wasm(alloc);
    heap.refuse(EVERY);
    is_unix_wasm(global, alloc, &list)
}

// Returns whether two lists of the same families are equal, and below a third list.
fn compares_families<A: SmallAllocator>(heap: Heap<'_>, alloc: A) -> bool {
    heap.refuse(0);
    let list = Families::unix_wasm(alloc);
    let same = Families::unix_wasm(alloc);
    let above = Families::wasm(alloc);
    heap.refuse(EVERY);
    is_made_and_ordered(&list, &same, &above)
}

// Returns whether a list that borrows no families is empty.
fn borrows_no_families() -> bool {
    let list: Families<'_> = Families::new_const(&[]);
    list.as_slice().is_empty()
}

// Returns whether the list was made and is empty.
fn is_empty<T: Member, A: SmallAllocator>(list: &AllocResult<SortedList<'_, T, A>>) -> bool {
    matches!(list, Ok(list) if list.as_slice().is_empty())
}

// Returns whether a list of no families is empty.
fn makes_no_families<A: SmallAllocator>(alloc: A) -> bool {
    let none: Vec<Family<'_, A>, A> = Vec::new(alloc);
    is_empty(&Families::new(alloc, none.into_iter()))
}

// Returns whether the families are in order.
fn are_sorted(families: [Family<'_>; 2]) -> bool {
    let are_sorted = Families::<Global>::is_sorted(&families);
    drop(families);
    are_sorted
}

// Returns whether `is_sorted` tells widths in order from widths out of order.
fn tells_sorted_widths() -> bool {
    HasAtomics::<Global>::is_sorted(SORTED) && !HasAtomics::<Global>::is_sorted(UNSORTED)
}

/// The names of checks.
pub(super) const LISTS: &str = r#"
rising families
falling families
order of a slice of widths
list of widths
lists of widths
list of no widths
list of families
lists of families
list of no families
borrowed list of no families
"#;

/// Returns whether the check with the name `check` passes, with every growth refused.
pub(super) fn passes<A: SmallAllocator>(
    global: Global,
    heap: Heap<'_>,
    alloc: A,
    check: &str,
) -> bool {
    match check {
        "rising families" => are_sorted([Family::unix(), Family::wasm()]),
        "falling families" => !are_sorted([Family::wasm(), Family::unix()]),
        "order of a slice of widths" => tells_sorted_widths(),
        "list of widths" => makes_widths(global, heap, alloc),
        "lists of widths" => compares_widths(heap, alloc),
        "list of no widths" => is_empty(&list_of(alloc, &[])),
        "list of families" => makes_families(global, heap, alloc),
        "lists of families" => compares_families(heap, alloc),
        "list of no families" => makes_no_families(alloc),
        "borrowed list of no families" => borrows_no_families(),
        _ => false,
    }
}
