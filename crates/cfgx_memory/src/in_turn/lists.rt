//! Lists of families and of widths, which are made and copied.
use super::{AllocResult, Outcome, TryClone, check_copy, combine};
use cfg_expr::memory::SmallAllocator;
use cfg_expr::targets::{Families, Family, HasAtomic, HasAtomics};
use cfgx_fields::Field;
use cfgx_testing::checking::{is_ok_true, prints, push_ok, value_equals};
use std::alloc::Global;
use std::fmt::Display;

impl<'a, A: SmallAllocator> TryClone<A> for Families<'a, A> {
    fn copy(&self, alloc: A) -> AllocResult<Self> {
        self.try_clone(alloc)
    }
}

/// Checks that the value equals its copy, and prints `text` afterwards, also out of memory.
pub(super) fn check_printed_copy<T: TryClone<A> + Display, A: SmallAllocator>(
    global: Global,
    alloc: A,
    value: &T,
    text: &str,
) -> Outcome {
    let outcome = check_copy(alloc, value);
    combine(&[Ok(prints(global, value, text)), outcome])
}

/// Two widths in order.
pub(crate) const SORTED: &[HasAtomic] = &[HasAtomic::IntegerSize(8), HasAtomic::Pointer];

/// The widths of `SORTED`, out of order.
pub(crate) const UNSORTED: &[HasAtomic] = &[HasAtomic::Pointer, HasAtomic::IntegerSize(8)];

/// Makes a list of `widths`.
pub(crate) fn list_of<A: SmallAllocator>(
    alloc: A,
    widths: &[HasAtomic],
) -> AllocResult<HasAtomics<A>> {
    HasAtomics::new(alloc, widths.iter().copied())
}

/// Makes a list of the widths below `end`.
pub(super) fn widths_below<A: SmallAllocator>(alloc: A, end: u16) -> AllocResult<HasAtomics<A>> {
    HasAtomics::new(alloc, (0..end).map(HasAtomic::IntegerSize))
}

// Does what `check_copy` does, which cannot be called: the borrow checker takes no `'static` list
// as an argument of a function of any type.
fn check_copy_of_widths<A: SmallAllocator>(alloc: A, list: &HasAtomics<A>) -> Outcome {
    let outcome = value_equals(list.try_clone(alloc), list);
    if outcome.is_ok() || is_ok_true(value_equals(list.try_clone(alloc), list)) {
        outcome
    } else {
        Ok(false)
    }
}

// Checks a list of 10,000 widths and its copy.
fn check_many_widths<A: SmallAllocator>(alloc: A) -> Outcome {
    let list = widths_below(alloc, 10_000)?;
    let is_long = list.as_slice().len() == 10_000;
    combine(&[Ok(is_long), check_copy_of_widths(alloc, &list)])
}

/// Makes a field that owns its text.
pub(super) fn owned_field<'a, K, A: SmallAllocator>(
    alloc: A,
    text: &str,
) -> AllocResult<Field<'a, K, A>> {
    Ok(Field::new(String::from_str(alloc, text)?))
}

// Pushes a family that owns its text for each name. Spaces separate the names.
fn push_families<'a, A: SmallAllocator + 'a>(
    alloc: A,
    families: &mut Vec<Family<'a, A>, A>,
    names: &str,
) -> AllocResult<()> {
    for name in names.split(' ') {
        push_ok(families, owned_field(alloc, name))?;
    }
    Ok(())
}

/// Makes a list of families that own their texts. Spaces separate the names.
pub(super) fn owned_families<'a, A: SmallAllocator + 'a>(
    alloc: A,
    names: &str,
) -> AllocResult<Families<'a, A>> {
    let mut families = Vec::new(alloc);
    push_families(alloc, &mut families, names)?;
    Families::new(alloc, families.into_iter())
}

// Checks a list of 10,000 families and its copy.
fn check_many_families<A: SmallAllocator>(alloc: A, names: &str) -> Outcome {
    let list = owned_families(alloc, names)?;
    let is_long = list.as_slice().len() == 10_000;
    combine(&[Ok(is_long), check_copy(alloc, &list)])
}

/// Checks a list of 10,000 members and its copy.
pub(super) fn check_long_list<A: SmallAllocator>(alloc: A, name: &str, text: &str) -> Outcome {
    match name {
        "families" => check_many_families(alloc, text),
        "widths" => check_many_widths(alloc),
        _ => Ok(false),
    }
}

// Makes the list of families with the name `name`, if there is one.
fn families_named<'a, A: SmallAllocator + 'a>(
    alloc: A,
    name: &str,
) -> Option<AllocResult<Families<'a, A>>> {
    match name {
        "unix" => Some(Families::unix(alloc)),
        "unix and wasm" => Some(Families::unix_wasm(alloc)),
        "wasm" => Some(Families::wasm(alloc)),
        "windows" => Some(Families::windows(alloc)),
        "four" => Some(owned_families(alloc, "wasm unix b ")),
        _ => None,
    }
}

// Checks the value that was made, its copy, and that it prints `text`.
fn check_made<T: TryClone<A> + Display, A: SmallAllocator>(
    global: Global,
    alloc: A,
    made: Option<AllocResult<T>>,
    text: &str,
) -> Outcome {
    match made {
        Some(Ok(value)) => check_printed_copy(global, alloc, &value, text),
        Some(Err(error)) => Err(error),
        None => Ok(false),
    }
}

/// Checks the list of families with the name `name`, its copy, and that it prints `text`.
pub(super) fn check_families<A: SmallAllocator>(
    global: Global,
    alloc: A,
    name: &str,
    text: &str,
) -> Outcome {
    check_made(global, alloc, families_named(alloc, name), text)
}

// Makes the list of widths with the name `name`, if there is one.
fn widths_named<A: SmallAllocator>(alloc: A, name: &str) -> Option<AllocResult<HasAtomics<A>>> {
    match name {
        "128" => Some(HasAtomics::atomic_8_16_32_64_128_ptr(alloc)),
        "64" => Some(HasAtomics::atomic_8_16_32_64_ptr(alloc)),
        "32" => Some(HasAtomics::atomic_8_16_32_ptr(alloc)),
        "borrowed" => Some(Ok(HasAtomics::new_const(SORTED))),
        "two" => Some(list_of(alloc, UNSORTED)),
        _ => None,
    }
}

/// Checks the list of widths with the name `name`, its copy, and that it prints `text`.
pub(super) fn check_widths<A: SmallAllocator>(
    global: Global,
    alloc: A,
    name: &str,
    text: &str,
) -> Outcome {
    match widths_named(alloc, name) {
        Some(Ok(list)) => {
            let outcome = check_copy_of_widths(alloc, &list);
            combine(&[Ok(prints(global, &list, text)), outcome])
        }
        Some(Err(error)) => Err(error),
        None => Ok(false),
    }
}
