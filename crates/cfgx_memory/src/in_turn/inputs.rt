//! Inputs that are read whole.
use super::Outcome;
use cfgx_engine::engine::{Input, Stop, read_input};
use cfgx_testing::checking::is_ok_true;
use cfgx_testing::streams::Pieces;
use std::alloc::{AllocError, Allocator, Global};

// Checks that the input consists of `bytes`.
fn check_bytes<A: Allocator>(input: &Result<Input<A>, Stop>, bytes: &[u8]) -> Outcome {
    match input {
        Ok(Input::Bytes(read)) => Ok(read.as_slice() == bytes),
        Err(Stop::Memory) => Err(AllocError),
        _ => Ok(false),
    }
}

/// Checks that `read_input` reads all bytes. Out of memory, no call of the source failed, and a
/// second `read_input` returns the bytes that were not read yet.
pub(super) fn check_input<A: Allocator>(global: Global, alloc: A, bytes: &[u8]) -> Outcome {
    let mut source = Pieces::new(bytes, 65_536, 0);
    let outcome = check_bytes(&read_input(alloc, &mut source), bytes);
    let left = source.left;
    if let Ok(is_whole) = outcome {
        return Ok(is_whole && left.is_empty());
    }
    if source.failures > 0 || !bytes.ends_with(left) {
        return Ok(false);
    }
    if is_ok_true(check_bytes(&read_input(global, &mut source), left)) {
        Err(AllocError)
    } else {
        Ok(false)
    }
}

/// Returns whether `read_input` returns the failure of the read with the number `failing_read`.
pub(super) fn stops_at_failed_read<A: Allocator>(alloc: A, failing_read: &str) -> bool {
    let Ok(failing_read) = failing_read.parse() else {
        return false;
    };
    let mut source = Pieces::new(b"0123456789", 3, failing_read);
    matches!(read_input(alloc, &mut source), Err(Stop::Device))
}
