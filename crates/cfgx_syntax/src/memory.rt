//! The allocators of expressions.
use std::alloc::{Allocator, Global};

/// A copyable allocator handle of at most 2^32 bytes, such as a reference.
///
/// The vectors of an expression store the handle beside their inline elements, so its size is part
/// of theirs. Every `&A` is such a handle, so any other allocator is passed as `&alloc`.
pub trait SmallAllocator: Allocator + Copy {
    ghost use Rattle.cfgx_syntax.specs.Size.{IsSmall};

    ghost small: { IsSmall Self.row };
}

impl SmallAllocator for Global {
    ghost use Rattle.std.proofs.Common.{lit≤};

    ghost small = { (lit≤ tt, lit≤ tt) };
}

impl<A: Allocator> SmallAllocator for &A {
    ghost use Rattle.std.proofs.Common.{lit≤};

    ghost small = { (lit≤ tt, lit≤ tt) };
}
