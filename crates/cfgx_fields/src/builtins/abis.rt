//! The named ABIs.
ghost use Rattle.std.specs.Prelude.{◌≡◌, codes};

use crate::Abi;
use std::alloc::Allocator;

impl<'a, A: Allocator> Abi<'a, A> {
    /// The ABI `abi64`.
    pub const fn abi64() -> Self
        ensures { result ≡ codes "abi64" }
    {
        Self::new_const("abi64")
    }

    /// The ABI `abiv2`.
    pub const fn abiv2() -> Self
        ensures { result ≡ codes "abiv2" }
    {
        Self::new_const("abiv2")
    }

    /// The ABI `abiv2hf`.
    pub const fn abiv2hf() -> Self
        ensures { result ≡ codes "abiv2hf" }
    {
        Self::new_const("abiv2hf")
    }

    /// The ABI `eabi`.
    pub const fn eabi() -> Self
        ensures { result ≡ codes "eabi" }
    {
        Self::new_const("eabi")
    }

    /// The ABI `eabihf`.
    pub const fn eabihf() -> Self
        ensures { result ≡ codes "eabihf" }
    {
        Self::new_const("eabihf")
    }

    /// The ABI `elfv1`.
    pub const fn elfv1() -> Self
        ensures { result ≡ codes "elfv1" }
    {
        Self::new_const("elfv1")
    }

    /// The ABI `elfv2`.
    pub const fn elfv2() -> Self
        ensures { result ≡ codes "elfv2" }
    {
        Self::new_const("elfv2")
    }

    /// The ABI `fortanix`.
    pub const fn fortanix() -> Self
        ensures { result ≡ codes "fortanix" }
    {
        Self::new_const("fortanix")
    }

    /// The ABI `ilp32`.
    pub const fn ilp32() -> Self
        ensures { result ≡ codes "ilp32" }
    {
        Self::new_const("ilp32")
    }

    /// The ABI `ilp32e`.
    pub const fn ilp32e() -> Self
        ensures { result ≡ codes "ilp32e" }
    {
        Self::new_const("ilp32e")
    }

    /// The ABI `llvm`.
    pub const fn llvm() -> Self
        ensures { result ≡ codes "llvm" }
    {
        Self::new_const("llvm")
    }

    /// The ABI `macabi`.
    pub const fn macabi() -> Self
        ensures { result ≡ codes "macabi" }
    {
        Self::new_const("macabi")
    }

    /// The ABI `pauthtest`.
    pub const fn pauthtest() -> Self
        ensures { result ≡ codes "pauthtest" }
    {
        Self::new_const("pauthtest")
    }

    /// The ABI `sim`.
    pub const fn sim() -> Self
        ensures { result ≡ codes "sim" }
    {
        Self::new_const("sim")
    }

    /// The ABI `softfloat`.
    pub const fn softfloat() -> Self
        ensures { result ≡ codes "softfloat" }
    {
        Self::new_const("softfloat")
    }

    /// The ABI `spe`.
    pub const fn spe() -> Self
        ensures { result ≡ codes "spe" }
    {
        Self::new_const("spe")
    }

    /// The ABI `uwp`.
    pub const fn uwp() -> Self
        ensures { result ≡ codes "uwp" }
    {
        Self::new_const("uwp")
    }

    /// The ABI `vec-extabi`.
    pub const fn vec_extabi() -> Self
        ensures { result ≡ codes "vec-extabi" }
    {
        Self::new_const("vec-extabi")
    }

    /// The ABI `x32`.
    pub const fn x32() -> Self
        ensures { result ≡ codes "x32" }
    {
        Self::new_const("x32")
    }
}
