//! Copies of fields and predicates. A copy of an owned text takes one growth. Other copies take
//! none.
use super::{AllocResult, Outcome, TryClone, check_copy};
use cfg_expr::TargetPredicate;
use cfg_expr::memory::SmallAllocator;
use cfg_expr::targets::{Abi, Arch, Endian, Env, Family, HasAtomic, Os, Panic, Vendor};
use cfgx_fields::{
    AbiKind, ArchKind, EnvKind, FamilyKind, Field, OsKind, PanicKind, TripleKind, VendorKind,
};
use cfgx_testing::checking::{is_ok_true, value_equals};

// Checks that a borrowed value and an owned one of the same text equal each other's copies. The
// copy of the borrowed one takes no memory.
fn check_copies<T: PartialEq + Drop>(
    copy_of_borrowed: AllocResult<T>,
    copy_of_owned: AllocResult<T>,
    borrowed: T,
    owned: T,
) -> Outcome {
    let is_right = owned == borrowed && is_ok_true(value_equals(copy_of_borrowed, &owned));
    let outcome = value_equals(copy_of_owned, &borrowed);
    if is_right { outcome } else { Ok(false) }
}

// Checks fields of the kind `K` that have `text`.
fn check_field_of<K: Drop, A: SmallAllocator>(alloc: A, text: &str) -> Outcome {
    let owned: Field<'_, K, A> = Field::new(String::from_str(alloc, text)?);
    let borrowed = Field::new_const(text);
    check_copies(
        borrowed.try_clone(alloc),
        owned.try_clone(alloc),
        borrowed,
        owned,
    )
}

/// Checks fields of the kind with the name `kind`.
pub(super) fn check_field<A: SmallAllocator>(alloc: A, kind: &str, text: &str) -> Outcome {
    match kind {
        "triple" => check_field_of::<TripleKind, A>(alloc, text),
        "abi" => check_field_of::<AbiKind, A>(alloc, text),
        "arch" => check_field_of::<ArchKind, A>(alloc, text),
        "vendor" => check_field_of::<VendorKind, A>(alloc, text),
        "os" => check_field_of::<OsKind, A>(alloc, text),
        "family" => check_field_of::<FamilyKind, A>(alloc, text),
        "env" => check_field_of::<EnvKind, A>(alloc, text),
        "panic" => check_field_of::<PanicKind, A>(alloc, text),
        _ => Ok(false),
    }
}

// A predicate of the kind `$kind`. The function `$new` makes its field from `$text`.
macro_rules! predicate {
    ($kind:ident $new:ident $text:ident) => {
        match $kind {
            "abi" => Some(TargetPredicate::Abi(Abi::$new($text))),
            "arch" => Some(TargetPredicate::Arch(Arch::$new($text))),
            "vendor" => Some(TargetPredicate::Vendor(Vendor::$new($text))),
            "os" => Some(TargetPredicate::Os(Os::$new($text))),
            "family" => Some(TargetPredicate::Family(Family::$new($text))),
            "env" => Some(TargetPredicate::Env(Env::$new($text))),
            "panic" => Some(TargetPredicate::Panic(Panic::$new($text))),
            _ => None,
        }
    };
}

fn owned_predicate<'a, A: SmallAllocator>(
    kind: &str,
    text: String<A>,
) -> Option<TargetPredicate<'a, A>> {
    predicate!(kind new text)
}

fn borrowed_predicate<'a, A: SmallAllocator>(
    kind: &str,
    text: &'a str,
) -> Option<TargetPredicate<'a, A>> {
    predicate!(kind new_const text)
}

// Checks a borrowed predicate and an owned one of the same text.
fn check_predicate_copies<'a, A: SmallAllocator>(
    alloc: A,
    borrowed: TargetPredicate<'a, A>,
    owned: TargetPredicate<'a, A>,
) -> Outcome {
    check_copies(
        borrowed.try_clone(alloc),
        owned.try_clone(alloc),
        borrowed,
        owned,
    )
}

/// Checks predicates of the kind with the name `kind`.
pub(super) fn check_predicate<A: SmallAllocator>(alloc: A, kind: &str, text: &str) -> Outcome {
    let owned_text = String::from_str(alloc, text)?;
    match (
        borrowed_predicate(kind, text),
        owned_predicate(kind, owned_text),
    ) {
        (Some(borrowed), Some(owned)) => check_predicate_copies(alloc, borrowed, owned),
        _ => Ok(false),
    }
}

impl<'a, A: SmallAllocator> TryClone<A> for TargetPredicate<'a, A> {
    fn copy(&self, alloc: A) -> AllocResult<Self> {
        self.try_clone(alloc)
    }
}

// Returns the predicate with the name `name`, which has no text.
fn plain_predicate<'a, A: SmallAllocator>(name: &str) -> Option<TargetPredicate<'a, A>> {
    match name {
        "big" => Some(TargetPredicate::Endian(Endian::big)),
        "ptr" => Some(TargetPredicate::HasAtomic(HasAtomic::Pointer)),
        "8" => Some(TargetPredicate::HasAtomic(HasAtomic::IntegerSize(8))),
        "64" => Some(TargetPredicate::PointerWidth(64)),
        _ => None,
    }
}

/// Checks the predicate with the name `name`, which has no text.
pub(super) fn check_plain_predicate<A: SmallAllocator>(alloc: A, name: &str) -> Outcome {
    match plain_predicate(name) {
        Some(predicate) => check_copy(alloc, &predicate),
        None => Ok(false),
    }
}
