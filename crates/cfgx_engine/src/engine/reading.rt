//! An input that is read to its end, up to a limit.
ghost use Rattle.std.specs.Prelude.{◌≡◌, ◌+◌, ◌<◌, ◌≤◌, length, take, is_some};
ghost use Rattle.std.specs.Prelude.{IfSome, IfNone, IsTrue, if◌then◌else◌, ◌↔◌};
ghost use Rattle.std.specs.Cmp.Rules.{comparing};
ghost use Rattle.std.specs.Io.KnownBytes.{Keeps};
ghost use Rattle.std.proofs.Common.{rules};
ghost use Rattle.cfgx_engine.specs.Input.{input_limit, ReadsInput, stop_eq, stop_failures};
ghost use Rattle.cfgx_engine.specs.internal.ReadsMore.{IsRoom, ReadsMore};

use super::streams::Source;
use std::alloc::{AllocError, Allocator, Global};

/// The most bytes that an input may have: 16 MiB.
const LIMIT: usize = 16_777_216;

/// The number of bytes by which the buffer grows. It is no more than a pipe gives in one read,
/// since the new bytes are zeroed first.
const CHUNK: usize = 65_536;

/// The result of reading an input to its end.
#[derive(Drop)]
#[derive_where(Debug)]
pub enum Input<A: Allocator = Global> {
    /// All its bytes, at most 16,777,216
    Bytes(Vec<u8, A>),
    /// The input has more bytes than that
    TooLong,
}

/// Why an input was not read to its end.
#[derive(Clone, Copy, Debug)]
pub enum Stop {
    /// The allocator refused memory
    Memory,
    /// A call of the source failed
    Device,
}

impl PartialEq for Stop {
    ghost eq = { stop_eq };

    ghost laws = { Prim.search (comparing, rules) };

    fn eq(&self, other: &Self) -> bool
        ensures { IsTrue result ↔ (self.now ≡ other.now) }
    {
        matches!(
            (self, other),
            (Stop::Memory, Stop::Memory) | (Stop::Device, Stop::Device)
        )
    }
}

impl Eq for Stop {
    ghost laws = { Prim.search (comparing, rules) };
}

impl From<AllocError> for Stop {
    ghost use Rattle.cfgx_engine.specs.declared.engine.reading.Stop.TheVariants.{Memory};

    ghost from_gives = { λ _ stop. stop ≡ Memory };

    fn from(_error: AllocError) -> Stop {
        Stop::Memory
    }
}

/// Makes room behind the first `filled` bytes if there is none. Returns `false` if it is refused
/// memory.
fn make_room<A: Allocator>(bytes: &mut Vec<u8, A>, filled: usize) -> bool
    requires { IsRoom bytes.old.items filled }
    ensures { IsTrue result → (filled < length bytes.new.items)
        × (length bytes.new.items ≤ input_limit + 1)
        × (take filled bytes.new.items ≡ take filled bytes.old.items) }
{
    if filled < bytes.len() {
        return true;
    }
    let len = (bytes.len() + CHUNK).min(LIMIT + 1);
    bytes.resize(len, 0).is_ok()
}

/// Reads once, behind the first `filled` bytes. Returns the number of bytes that were read, or
/// `None` if the call failed.
fn read_once<R: Source>(source: &mut R, bytes: &mut [u8], filled: usize) -> Option<usize>
    requires failures { R.failures source.old < u64.MAX }
    requires room { filled < length bytes.old }
    ensures count { R.failures source.new
        ≡ R.failures source.old + (if is_some result then 0 else 1) }
    ensures came { IfSome result (λ count. ReadsMore (R.unread source.old) (R.unread source.new)
        bytes.new filled count) }
    ensures front { take filled bytes.new ≡ take filled bytes.old }
    ensures none { IfNone result (Keeps (R.unread source.old) (R.unread source.new)) }
{
    source.read(&mut bytes[filled..]).ok()
}

/// Reads a source to its end.
///
/// Returns `TooLong` once it has read one byte more than 16,777,216. What was read stays read in
/// every case. The source must count fewer than `u64::MAX` failed calls.
///
/// # Errors
///
/// `Stop::Memory`: `alloc` refused memory. `Stop::Device`: a call of the source failed, and none
/// was made after it.
pub fn read_input<A: Allocator, R: Source>(alloc: A, source: &mut R) -> Result<Input<A>, Stop>
    requires { R.failures source.old < u64.MAX }
    ensures count { R.failures source.new ≡ R.failures source.old + stop_failures result }
    ensures bytes { ReadsInput (R.unread source.old) (R.unread source.new) result }
{
    let mut bytes = Vec::new(alloc);
    let mut filled = 0;
    while filled <= LIMIT {
        if !make_room(&mut bytes, filled) {
            return Err(Stop::Memory);
        }
        let Some(count) = read_once(source, bytes.as_mut_slice(), filled) else {
            return Err(Stop::Device);
        };
        if count == 0 {
            bytes.truncate(filled);
            return Ok(Input::Bytes(bytes));
        }
        filled += count;
    }
    Ok(Input::TooLong)
}
