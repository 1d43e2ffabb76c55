//! What comparisons tell a caller. Each clause follows from the contract of the call alone.
ghost use Rattle.std.specs.Prelude.{◌≡◌, ◌↔◌, IsPermutation, IsTrue, List, ℕ};
ghost use Rattle.std.specs.Cmp.Lexicographic.{slice_cmp};
ghost use Rattle.std.specs.Ordering.{nat_cmp};
ghost use Rattle.cfgx_syntax.specs.Error.{cause_of, failure_of, fault_of};
ghost use Rattle.cfgx_syntax.specs.Lexer.{token_of};
ghost use Rattle.cfgx_fields.specs.{Endian.endian_cmp, HasAtomic.atomic_cmp};
ghost use Rattle.cfgx_targets.specs.{SortedList.IsSortedFrom, TargetInfo.info_cmp};

use cfgx_engine::resolve::Verdict;
use cfgx_fields::Arch;
use cfgx_fields::atomic::{HasAtomic, HasAtomicFailure};
use cfgx_fields::endian::Endian;
use cfgx_fields::error::HasAtomicParseError;
use cfgx_syntax::error::{Failure, ParseError, Reason};
use cfgx_syntax::lexer::Token;
use cfgx_syntax::logic::Kleene64;
use cfgx_targets::atomics::HasAtomics;
use cfgx_targets::families::Families;
use cfgx_targets::info::TargetInfo;
use std::alloc::Allocator;
use std::cmp::Ordering;

/// Returns whether two reasons have the same variant, number and terms.
pub fn are_equal_reasons(one: &Reason, other: &Reason) -> bool
    ensures { IsTrue result ↔ (cause_of one.now ≡ cause_of other.now) }
{
    *one == *other
}

/// Returns whether two faults have the same text, span and reason.
pub fn are_equal_faults<A: Allocator>(one: &ParseError<A>, other: &ParseError<A>) -> bool
    ensures { IsTrue result ↔ (fault_of one.now ≡ fault_of other.now) }
{
    *one == *other
}

/// Returns whether two failures are the same fault, or both out of memory.
pub fn are_equal_failures<A: Allocator>(one: &Failure<A>, other: &Failure<A>) -> bool
    ensures { IsTrue result ↔ (failure_of one.now ≡ failure_of other.now) }
{
    *one == *other
}

/// Returns whether two tokens are of one kind, with the same text if they have one.
pub fn are_equal_tokens(one: &Token<'_>, other: &Token<'_>) -> bool
    ensures { IsTrue result ↔ (token_of one.now ≡ token_of other.now) }
{
    *one == *other
}

/// Returns whether both planes are equal.
pub fn are_equal_lanes(one: Kleene64, other: Kleene64) -> bool
    ensures { IsTrue result ↔ (one ≡ other) }
{
    one == other
}

/// Returns whether two fields have the same text.
pub fn are_equal_fields<A: Allocator>(one: &Arch<'_, A>, other: &Arch<'_, A>) -> bool
    ensures { IsTrue result ↔ (one.now ≡ other.now) }
{
    *one == *other
}

/// Returns the order of two fields, by their bytes.
pub fn order_of_fields<A: Allocator>(one: &Arch<'_, A>, other: &Arch<'_, A>) -> Ordering
    ensures { result ≡ slice_cmp nat_cmp one.now other.now }
{
    one.cmp(other)
}

/// Returns whether two byte orders are the same.
pub fn are_equal_byte_orders(one: Endian, other: Endian) -> bool
    ensures { IsTrue result ↔ (one ≡ other) }
{
    one == other
}

/// Returns the order of two byte orders: `big` is below `little`.
pub fn order_of_byte_orders(one: Endian, other: Endian) -> Ordering
    ensures { result ≡ endian_cmp one other }
{
    one.cmp(&other)
}

/// Returns whether two widths are the same.
pub fn are_equal_widths(one: HasAtomic, other: HasAtomic) -> bool
    ensures { IsTrue result ↔ (one ≡ other) }
{
    one == other
}

/// Returns the order of two widths: by the number of bits, and then the pointer's.
pub fn order_of_widths(one: HasAtomic, other: HasAtomic) -> Ordering
    ensures { result ≡ atomic_cmp one other }
{
    one.cmp(&other)
}

/// Returns whether two faults of widths have the same text.
pub fn are_equal_width_faults<A: Allocator>(
    one: &HasAtomicParseError<A>,
    other: &HasAtomicParseError<A>,
) -> bool
    ensures { IsTrue result ↔ (one.now ≡ other.now) }
{
    *one == *other
}

/// Returns whether two failures of widths are faults of the same text, or both out of memory.
pub fn are_equal_width_failures<A: Allocator>(
    one: &HasAtomicFailure<A>,
    other: &HasAtomicFailure<A>,
) -> bool
    ensures { IsTrue result ↔ (one.now ≡ other.now) }
{
    *one == *other
}

/// Returns whether two lists have the same members in the same places. They do exactly if the items
/// of one are a permutation of the items of the other.
pub fn are_equal_families<A: Allocator>(one: &Families<'_, A>, other: &Families<'_, A>) -> bool
    ensures same { IsTrue result ↔ (one.now ≡ other.now) }
    ensures rearranged { (items others : List (List ℕ)) →
        IsSortedFrom (slice_cmp nat_cmp) items one.now →
        IsSortedFrom (slice_cmp nat_cmp) others other.now →
        (IsTrue result ↔ IsPermutation items others) }
{
    *one == *other
}

/// Returns the order of two lists of families, by their members in turn.
pub fn order_of_families<A: Allocator>(one: &Families<'_, A>, other: &Families<'_, A>) -> Ordering
    ensures { result ≡ slice_cmp (slice_cmp nat_cmp) one.now other.now }
{
    one.cmp(other)
}

/// Returns whether two lists of widths have the same members in the same places.
pub fn are_equal_atomics<A: Allocator>(one: &HasAtomics<A>, other: &HasAtomics<A>) -> bool
    ensures { IsTrue result ↔ (one.now ≡ other.now) }
{
    *one == *other
}

/// Returns the order of two lists of widths, by their members in turn.
pub fn order_of_atomics<A: Allocator>(one: &HasAtomics<A>, other: &HasAtomics<A>) -> Ordering
    ensures { result ≡ slice_cmp atomic_cmp one.now other.now }
{
    one.cmp(other)
}

/// Returns whether two targets have the same fields.
pub fn are_equal_targets<A: Allocator>(one: &TargetInfo<'_, A>, other: &TargetInfo<'_, A>) -> bool
    ensures { IsTrue result ↔ (one.now ≡ other.now) }
{
    *one == *other
}

/// Returns the order of two targets, by their fields in turn.
pub fn order_of_targets<A: Allocator>(
    one: &TargetInfo<'_, A>,
    other: &TargetInfo<'_, A>,
) -> Ordering
    ensures { result ≡ info_cmp one.now other.now }
{
    one.cmp(other)
}

/// Returns whether two verdicts are the same.
pub fn are_equal_verdicts(one: Verdict, other: Verdict) -> bool
    ensures { IsTrue result ↔ (one ≡ other) }
{
    one == other
}
