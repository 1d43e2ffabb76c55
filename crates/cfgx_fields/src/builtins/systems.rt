//! The named operating systems.
ghost use Rattle.std.specs.Prelude.{◌≡◌, codes};

use crate::Os;
use std::alloc::Allocator;

impl<'a, A: Allocator> Os<'a, A> {
    /// The operating system `aix`.
    pub const fn aix() -> Self
        ensures { result ≡ codes "aix" }
    {
        Self::new_const("aix")
    }

    /// The operating system `amdhsa`.
    pub const fn amdhsa() -> Self
        ensures { result ≡ codes "amdhsa" }
    {
        Self::new_const("amdhsa")
    }

    /// The operating system `android`.
    pub const fn android() -> Self
        ensures { result ≡ codes "android" }
    {
        Self::new_const("android")
    }

    /// The operating system `cuda`.
    pub const fn cuda() -> Self
        ensures { result ≡ codes "cuda" }
    {
        Self::new_const("cuda")
    }

    /// The operating system `cygwin`.
    pub const fn cygwin() -> Self
        ensures { result ≡ codes "cygwin" }
    {
        Self::new_const("cygwin")
    }

    /// The operating system `dragonfly`.
    pub const fn dragonfly() -> Self
        ensures { result ≡ codes "dragonfly" }
    {
        Self::new_const("dragonfly")
    }

    /// The operating system `emscripten`.
    pub const fn emscripten() -> Self
        ensures { result ≡ codes "emscripten" }
    {
        Self::new_const("emscripten")
    }

    /// The operating system `espidf`.
    pub const fn espidf() -> Self
        ensures { result ≡ codes "espidf" }
    {
        Self::new_const("espidf")
    }

    /// The operating system `freebsd`.
    pub const fn freebsd() -> Self
        ensures { result ≡ codes "freebsd" }
    {
        Self::new_const("freebsd")
    }

    /// The operating system `fuchsia`.
    pub const fn fuchsia() -> Self
        ensures { result ≡ codes "fuchsia" }
    {
        Self::new_const("fuchsia")
    }

    /// The operating system `haiku`.
    pub const fn haiku() -> Self
        ensures { result ≡ codes "haiku" }
    {
        Self::new_const("haiku")
    }

    /// The operating system `helenos`.
    pub const fn helenos() -> Self
        ensures { result ≡ codes "helenos" }
    {
        Self::new_const("helenos")
    }

    /// The operating system `hermit`.
    pub const fn hermit() -> Self
        ensures { result ≡ codes "hermit" }
    {
        Self::new_const("hermit")
    }

    /// The operating system `horizon`.
    pub const fn horizon() -> Self
        ensures { result ≡ codes "horizon" }
    {
        Self::new_const("horizon")
    }

    /// The operating system `hurd`.
    pub const fn hurd() -> Self
        ensures { result ≡ codes "hurd" }
    {
        Self::new_const("hurd")
    }

    /// The operating system `illumos`.
    pub const fn illumos() -> Self
        ensures { result ≡ codes "illumos" }
    {
        Self::new_const("illumos")
    }

    /// The operating system `ios`.
    pub const fn ios() -> Self
        ensures { result ≡ codes "ios" }
    {
        Self::new_const("ios")
    }

    /// The operating system `l4re`.
    pub const fn l4re() -> Self
        ensures { result ≡ codes "l4re" }
    {
        Self::new_const("l4re")
    }

    /// The operating system `linux`.
    pub const fn linux() -> Self
        ensures { result ≡ codes "linux" }
    {
        Self::new_const("linux")
    }

    /// The operating system `lynxos178`.
    pub const fn lynxos178() -> Self
        ensures { result ≡ codes "lynxos178" }
    {
        Self::new_const("lynxos178")
    }

    /// The operating system `macos`.
    pub const fn macos() -> Self
        ensures { result ≡ codes "macos" }
    {
        Self::new_const("macos")
    }

    /// The operating system `managarm`.
    pub const fn managarm() -> Self
        ensures { result ≡ codes "managarm" }
    {
        Self::new_const("managarm")
    }

    /// The operating system `motor`.
    pub const fn motor() -> Self
        ensures { result ≡ codes "motor" }
    {
        Self::new_const("motor")
    }

    /// The operating system `netbsd`.
    pub const fn netbsd() -> Self
        ensures { result ≡ codes "netbsd" }
    {
        Self::new_const("netbsd")
    }

    /// The operating system `nto`.
    pub const fn nto() -> Self
        ensures { result ≡ codes "nto" }
    {
        Self::new_const("nto")
    }

    /// The operating system `nuttx`.
    pub const fn nuttx() -> Self
        ensures { result ≡ codes "nuttx" }
    {
        Self::new_const("nuttx")
    }

    /// The operating system `openbsd`.
    pub const fn openbsd() -> Self
        ensures { result ≡ codes "openbsd" }
    {
        Self::new_const("openbsd")
    }

    /// The operating system `psp`.
    pub const fn psp() -> Self
        ensures { result ≡ codes "psp" }
    {
        Self::new_const("psp")
    }

    /// The operating system `psx`.
    pub const fn psx() -> Self
        ensures { result ≡ codes "psx" }
    {
        Self::new_const("psx")
    }

    /// The operating system `qnx`.
    pub const fn qnx() -> Self
        ensures { result ≡ codes "qnx" }
    {
        Self::new_const("qnx")
    }

    /// The operating system `qurt`.
    pub const fn qurt() -> Self
        ensures { result ≡ codes "qurt" }
    {
        Self::new_const("qurt")
    }

    /// The operating system `redox`.
    pub const fn redox() -> Self
        ensures { result ≡ codes "redox" }
    {
        Self::new_const("redox")
    }

    /// The operating system `rtems`.
    pub const fn rtems() -> Self
        ensures { result ≡ codes "rtems" }
    {
        Self::new_const("rtems")
    }

    /// The operating system `solaris`.
    pub const fn solaris() -> Self
        ensures { result ≡ codes "solaris" }
    {
        Self::new_const("solaris")
    }

    /// The operating system `solid_asp3`.
    pub const fn solid_asp3() -> Self
        ensures { result ≡ codes "solid_asp3" }
    {
        Self::new_const("solid_asp3")
    }

    /// The operating system `teeos`.
    pub const fn teeos() -> Self
        ensures { result ≡ codes "teeos" }
    {
        Self::new_const("teeos")
    }

    /// The operating system `trusty`.
    pub const fn trusty() -> Self
        ensures { result ≡ codes "trusty" }
    {
        Self::new_const("trusty")
    }

    /// The operating system `tvos`.
    pub const fn tvos() -> Self
        ensures { result ≡ codes "tvos" }
    {
        Self::new_const("tvos")
    }

    /// The operating system `uefi`.
    pub const fn uefi() -> Self
        ensures { result ≡ codes "uefi" }
    {
        Self::new_const("uefi")
    }

    /// The operating system `unknown`.
    pub const fn unknown() -> Self
        ensures { result ≡ codes "unknown" }
    {
        Self::new_const("unknown")
    }

    /// The operating system `vexos`.
    pub const fn vexos() -> Self
        ensures { result ≡ codes "vexos" }
    {
        Self::new_const("vexos")
    }

    /// The operating system `visionos`.
    pub const fn visionos() -> Self
        ensures { result ≡ codes "visionos" }
    {
        Self::new_const("visionos")
    }

    /// The operating system `vita`.
    pub const fn vita() -> Self
        ensures { result ≡ codes "vita" }
    {
        Self::new_const("vita")
    }

    /// The operating system `vxworks`.
    pub const fn vxworks() -> Self
        ensures { result ≡ codes "vxworks" }
    {
        Self::new_const("vxworks")
    }

    /// The operating system `wasi`.
    pub const fn wasi() -> Self
        ensures { result ≡ codes "wasi" }
    {
        Self::new_const("wasi")
    }

    /// The operating system `watchos`.
    pub const fn watchos() -> Self
        ensures { result ≡ codes "watchos" }
    {
        Self::new_const("watchos")
    }

    /// The operating system `windows`.
    pub const fn windows() -> Self
        ensures { result ≡ codes "windows" }
    {
        Self::new_const("windows")
    }

    /// The operating system `xous`.
    pub const fn xous() -> Self
        ensures { result ≡ codes "xous" }
    {
        Self::new_const("xous")
    }

    /// The operating system `zkvm`.
    pub const fn zkvm() -> Self
        ensures { result ≡ codes "zkvm" }
    {
        Self::new_const("zkvm")
    }
}
