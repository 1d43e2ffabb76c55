//! Readers of the values of target keys. They allocate nothing.

ghost use Rattle.std.specs.Prelude.{◌≡◌, ◌^◌};
ghost use Rattle.cfgx_fields.specs.Endian.{endian_named};
ghost use Rattle.cfgx_fields.specs.HasAtomic.{atomic_named};
ghost use Rattle.cfgx_fields.specs.Number.{read_below};

use crate::atomic::HasAtomic;
use crate::endian::Endian;

/// Returns the number that `text` writes, at most 255: at most one `+`, and then ASCII digits.
/// Returns `None` for any other text.
pub fn read_u8(text: &str) -> Option<u8>
    ensures { result ≡ read_below (2 ^ 8) text.now }
{
    text.parse::<u8>().ok()
}

/// Returns the number that `text` writes, at most 65535: at most one `+`, and then ASCII digits.
/// Returns `None` for any other text.
pub fn read_u16(text: &str) -> Option<u16>
    ensures { result ≡ read_below (2 ^ 16) text.now }
{
    text.parse::<u16>().ok()
}

/// Returns the byte order that `text` names, if it names one.
#[tactic(auto, unfolding(crate::specs::Endian::endian_named))]
pub fn read_endian(text: &str) -> Option<Endian>
    ensures { result ≡ endian_named text.now }
{
    match text {
        "big" => Some(Endian::big),
        "little" => Some(Endian::little),
        _ => None,
    }
}

/// Returns the width of atomics that `text` names: a number that `read_u16` reads, or `ptr`.
/// Returns `None` for any other text.
#[tactic(auto, unfolding(crate::specs::HasAtomic::atomic_named))]
pub fn read_has_atomic(text: &str) -> Option<HasAtomic>
    ensures { result ≡ atomic_named text.now }
{
    match read_u16(text) {
        Some(bits) => Some(HasAtomic::IntegerSize(bits)),
        None if text == "ptr" => Some(HasAtomic::Pointer),
        None => None,
    }
}
