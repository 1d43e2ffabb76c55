//! The named families.
ghost use Rattle.std.specs.Prelude.{◌≡◌, codes};

use crate::Family;
use std::alloc::Allocator;

impl<'a, A: Allocator> Family<'a, A> {
    /// The family `unix`.
    pub const fn unix() -> Self
        ensures { result ≡ codes "unix" }
    {
        Self::new_const("unix")
    }

    /// The family `wasm`.
    pub const fn wasm() -> Self
        ensures { result ≡ codes "wasm" }
    {
        Self::new_const("wasm")
    }

    /// The family `windows`.
    pub const fn windows() -> Self
        ensures { result ≡ codes "windows" }
    {
        Self::new_const("windows")
    }
}
