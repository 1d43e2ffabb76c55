//! The named panic strategies.
ghost use Rattle.std.specs.Prelude.{◌≡◌, codes};

use crate::Panic;
use std::alloc::Allocator;

impl<'a, A: Allocator> Panic<'a, A> {
    /// The panic strategy `abort`.
    pub const fn abort() -> Self
        ensures { result ≡ codes "abort" }
    {
        Self::new_const("abort")
    }

    /// The panic strategy `unwind`.
    pub const fn unwind() -> Self
        ensures { result ≡ codes "unwind" }
    {
        Self::new_const("unwind")
    }
}
