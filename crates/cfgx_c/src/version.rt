//! The version of the calls.

ghost use Rattle.std.specs.Prelude.{◌≡◌};
ghost use Rattle.cfgx_c.specs.Version.{version};

/// The version of the language of conditions.
const LANGUAGE: u32 = 2;

/// The major version of the calls.
const MAJOR: u32 = 3;

/// The minor version of the calls.
const MINOR: u32 = 0;

/// Returns the version of the library: that of the language of conditions times 1,000,000, and the
/// major version of the calls times 1,000, and their minor version.
#[unsafe(no_mangle)]
pub extern "C" fn cfgx_version() -> u32
    ensures { result ≡ version }
{
    LANGUAGE * 1_000_000 + MAJOR * 1_000 + MINOR
}
