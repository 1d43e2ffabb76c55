//! The limit of an input, 16,777,216 bytes, which is checked before anything else.
use cfgx_engine::engine::{Input, read_input};
use cfgx_testing::heap::{Heap, empty_heap, has_every_block};
use cfgx_testing::streams::{ALL, Counting, run_ends_with};
use cfgx_testing::triples::IOS;
use std::alloc::{AllocError, Global};
use std::test::Fail;

// The length of a source, the most bytes of a call, the length of the input unless it is too long,
// and the number of bytes that are left.
const LENGTHS: &[(usize, usize, Option<usize>, usize)] = &[
    (16_777_216, ALL, Some(16_777_216), 0),
    (16_777_217, ALL, None, 0),
    (16_777_221, 65_536, None, 4),
];

// Returns whether `read_input` returns an input of `wanted` bytes, or finds it too long if `wanted`
// is `None`.
fn reads_length(alloc: Heap<'_>, source: &mut Counting, wanted: Option<usize>) -> bool {
    match read_input(alloc, source) {
        Ok(Input::Bytes(bytes)) => wanted == Some(bytes.len()),
        Ok(Input::TooLong) => wanted.is_none(),
        Err(_) => false,
    }
}

// Returns whether the source of the row is read as the row says, and all memory is freed.
fn length_passes(alloc: Global, row: &(usize, usize, Option<usize>, usize)) -> bool {
    let (count, each, wanted, left) = *row;
    let heap = empty_heap(alloc);
    let mut source = Counting { left: count, each };
    reads_length(&heap, &mut source, wanted) && source.left == left && has_every_block(heap)
}

#[test]
fn an_input_has_at_most_sixteen_mebibytes(rt: HostRuntime) {
    for row in LENGTHS {
        assert!(rt; length_passes(rt.alloc(), row), "{row:?}");
    }
}

// The number of line feeds in an input, the byte that replaces the first one, and the output and
// the status. The length is checked before UTF-8.
const RUNS: &[(usize, u8, (&str, u8))] = &[
    (16_777_217, b'\n', ("input too long\n", 1)),
    (16_777_217, b'\xff', ("input too long\n", 1)),
    (16_777_216, b'\xff', ("input is not UTF-8\n", 1)),
    (16_777_216, b'\n', ("", 0)),
];

// Returns whether a run over the input of the row ends as the row says.
fn run_passes(alloc: Global, row: &(usize, u8, (&str, u8))) -> Result<bool, AllocError> {
    let (count, first, ended) = *row;
    let mut input = vec![in alloc; b'\n'; count]?;
    if let Some(byte) = input.first_mut() {
        *byte = first;
    }
    Ok(run_ends_with(alloc, &["pick", IOS], ALL, input.as_slice(), ended))
}

#[test]
fn the_length_is_checked_first(rt: HostRuntime) -> Result<(), Fail> {
    for row in RUNS {
        assert!(rt; run_passes(rt.alloc(), row)?, "{row:?}");
    }
    Ok(())
}
