//! The named environments.
ghost use Rattle.std.specs.Prelude.{◌≡◌, codes};

use crate::Env;
use std::alloc::Allocator;

impl<'a, A: Allocator> Env<'a, A> {
    /// The environment `gnu`.
    pub const fn gnu() -> Self
        ensures { result ≡ codes "gnu" }
    {
        Self::new_const("gnu")
    }

    /// The environment `macabi`.
    pub const fn macabi() -> Self
        ensures { result ≡ codes "macabi" }
    {
        Self::new_const("macabi")
    }

    /// The environment `mlibc`.
    pub const fn mlibc() -> Self
        ensures { result ≡ codes "mlibc" }
    {
        Self::new_const("mlibc")
    }

    /// The environment `msvc`.
    pub const fn msvc() -> Self
        ensures { result ≡ codes "msvc" }
    {
        Self::new_const("msvc")
    }

    /// The environment `musl`.
    pub const fn musl() -> Self
        ensures { result ≡ codes "musl" }
    {
        Self::new_const("musl")
    }

    /// The environment `newlib`.
    pub const fn newlib() -> Self
        ensures { result ≡ codes "newlib" }
    {
        Self::new_const("newlib")
    }

    /// The environment `nto70`.
    pub const fn nto70() -> Self
        ensures { result ≡ codes "nto70" }
    {
        Self::new_const("nto70")
    }

    /// The environment `nto71`.
    pub const fn nto71() -> Self
        ensures { result ≡ codes "nto71" }
    {
        Self::new_const("nto71")
    }

    /// The environment `nto71_iosock`.
    pub const fn nto71_iosock() -> Self
        ensures { result ≡ codes "nto71_iosock" }
    {
        Self::new_const("nto71_iosock")
    }

    /// The environment `ohos`.
    pub const fn ohos() -> Self
        ensures { result ≡ codes "ohos" }
    {
        Self::new_const("ohos")
    }

    /// The environment `p1`.
    pub const fn p1() -> Self
        ensures { result ≡ codes "p1" }
    {
        Self::new_const("p1")
    }

    /// The environment `p2`.
    pub const fn p2() -> Self
        ensures { result ≡ codes "p2" }
    {
        Self::new_const("p2")
    }

    /// The environment `p3`.
    pub const fn p3() -> Self
        ensures { result ≡ codes "p3" }
    {
        Self::new_const("p3")
    }

    /// The environment `relibc`.
    pub const fn relibc() -> Self
        ensures { result ≡ codes "relibc" }
    {
        Self::new_const("relibc")
    }

    /// The environment `sgx`.
    pub const fn sgx() -> Self
        ensures { result ≡ codes "sgx" }
    {
        Self::new_const("sgx")
    }

    /// The environment `sim`.
    pub const fn sim() -> Self
        ensures { result ≡ codes "sim" }
    {
        Self::new_const("sim")
    }

    /// The environment `uclibc`.
    pub const fn uclibc() -> Self
        ensures { result ≡ codes "uclibc" }
    {
        Self::new_const("uclibc")
    }

    /// The environment `v5`.
    pub const fn v5() -> Self
        ensures { result ≡ codes "v5" }
    {
        Self::new_const("v5")
    }
}
