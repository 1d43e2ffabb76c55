//! The named vendors.
ghost use Rattle.std.specs.Prelude.{◌≡◌, codes};

use crate::Vendor;
use std::alloc::Allocator;

impl<'a, A: Allocator> Vendor<'a, A> {
    /// The vendor `amd`.
    pub const fn amd() -> Self
        ensures { result ≡ codes "amd" }
    {
        Self::new_const("amd")
    }

    /// The vendor `apple`.
    pub const fn apple() -> Self
        ensures { result ≡ codes "apple" }
    {
        Self::new_const("apple")
    }

    /// The vendor `espressif`.
    pub const fn espressif() -> Self
        ensures { result ≡ codes "espressif" }
    {
        Self::new_const("espressif")
    }

    /// The vendor `fortanix`.
    pub const fn fortanix() -> Self
        ensures { result ≡ codes "fortanix" }
    {
        Self::new_const("fortanix")
    }

    /// The vendor `ibm`.
    pub const fn ibm() -> Self
        ensures { result ≡ codes "ibm" }
    {
        Self::new_const("ibm")
    }

    /// The vendor `kmc`.
    pub const fn kmc() -> Self
        ensures { result ≡ codes "kmc" }
    {
        Self::new_const("kmc")
    }

    /// The vendor `mti`.
    pub const fn mti() -> Self
        ensures { result ≡ codes "mti" }
    {
        Self::new_const("mti")
    }

    /// The vendor `nintendo`.
    pub const fn nintendo() -> Self
        ensures { result ≡ codes "nintendo" }
    {
        Self::new_const("nintendo")
    }

    /// The vendor `nvidia`.
    pub const fn nvidia() -> Self
        ensures { result ≡ codes "nvidia" }
    {
        Self::new_const("nvidia")
    }

    /// The vendor `openwrt`.
    pub const fn openwrt() -> Self
        ensures { result ≡ codes "openwrt" }
    {
        Self::new_const("openwrt")
    }

    /// The vendor `pc`.
    pub const fn pc() -> Self
        ensures { result ≡ codes "pc" }
    {
        Self::new_const("pc")
    }

    /// The vendor `risc0`.
    pub const fn risc0() -> Self
        ensures { result ≡ codes "risc0" }
    {
        Self::new_const("risc0")
    }

    /// The vendor `sony`.
    pub const fn sony() -> Self
        ensures { result ≡ codes "sony" }
    {
        Self::new_const("sony")
    }

    /// The vendor `sun`.
    pub const fn sun() -> Self
        ensures { result ≡ codes "sun" }
    {
        Self::new_const("sun")
    }

    /// The vendor `unikraft`.
    pub const fn unikraft() -> Self
        ensures { result ≡ codes "unikraft" }
    {
        Self::new_const("unikraft")
    }

    /// The vendor `unknown`.
    pub const fn unknown() -> Self
        ensures { result ≡ codes "unknown" }
    {
        Self::new_const("unknown")
    }

    /// The vendor `uwp`.
    pub const fn uwp() -> Self
        ensures { result ≡ codes "uwp" }
    {
        Self::new_const("uwp")
    }

    /// The vendor `vex`.
    pub const fn vex() -> Self
        ensures { result ≡ codes "vex" }
    {
        Self::new_const("vex")
    }

    /// The vendor `win7`.
    pub const fn win7() -> Self
        ensures { result ≡ codes "win7" }
    {
        Self::new_const("win7")
    }

    /// The vendor `wrs`.
    pub const fn wrs() -> Self
        ensures { result ≡ codes "wrs" }
    {
        Self::new_const("wrs")
    }
}
