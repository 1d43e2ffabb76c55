//! Tests of the allocator that refuses on demand, and of the arena that counts its blocks.
use cfgx_testing::checking::{check_all, is_ok_true};
use cfgx_testing::heap::{empty_heap, has_every_block};
use cfgx_testing::refusing::Refusing;
use std::alloc::{AllocError, Allocator, Global};
use std::mem::forget;

// Pushes 100 bytes to a list that begins with no block and outgrows each block that it gets.
// Returns whether the list has 100 bytes.
fn fill_list<A: Allocator>(alloc: A) -> Result<bool, AllocError> {
    let mut bytes = Vec::new(alloc);
    for byte in 0..100u8 {
        bytes.push(byte)?;
    }
    Ok(bytes.len() == 100)
}

// Refuses each growth of the list in turn, until the list has no growth of that number. Returns the
// number of growths.
fn count_list_growths(heap: &Refusing<Global>) -> Option<u64> {
    for n in 1..=100u64 {
        heap.refuse(n);
        let is_filled = is_ok_true(fill_list(heap));
        if is_filled == heap.has_refused() {
            return None;
        }
        if is_filled {
            return Some(n.saturating_sub(1));
        }
    }
    None
}

// Returns whether the second growth from now is refused, leaves the list as it was, and succeeds
// when it is tried again. Both arguments are the same allocator.
fn refuses_second<A: Allocator>(heap: &Refusing<Global>, alloc: A) -> Result<bool, AllocError> {
    let mut bytes = Vec::with_capacity(alloc, 1)?;
    bytes.push(7u8)?;
    let was_ahead = !heap.has_refused();
    let is_refused = bytes.push(8).is_err() & heap.has_refused();
    let stays = bytes.as_slice() == [7].as_slice();
    bytes.push(8)?;
    Ok(was_ahead & is_refused & stays & (bytes.as_slice() == [7, 8].as_slice()))
}

// Returns whether the allocator refuses the second growth when it is told to, and no other growth.
fn refuses_only_one(heap: &Refusing<Global>) -> bool {
    let was_filled = heap.has_refused() && is_ok_true(fill_list(heap));
    heap.refuse(2);
    let is_one = is_ok_true(refuses_second(heap, heap));
    heap.refuse(1);
    heap.refuse(0);
    was_filled && is_one && is_ok_true(fill_list(heap))
}

// Makes a list of one block, and then forgets or drops it.
fn make_list<A: Allocator>(alloc: A, is_forgotten: bool) -> Result<bool, AllocError> {
    let bytes = vec![in alloc; 0u8; 8]?;
    if is_forgotten {
        forget(bytes);
    } else {
        drop(bytes);
    }
    Ok(true)
}

// Returns whether the arena counts the block of a forgotten list as in use, and that of a dropped
// one as freed.
fn counts_block(global: Global, is_forgotten: bool) -> bool {
    let heap = empty_heap(global);
    let is_made = is_ok_true(make_list(&heap, is_forgotten));
    is_made && has_every_block(heap) != is_forgotten
}

#[test]
fn growths_are_refused_and_blocks_counted(rt: HostRuntime) -> Result<(), &'static str> {
    let heap = Refusing::new(rt.alloc());
    check_all(&[
        ("only one growth is refused", refuses_only_one(&heap)),
        (
            "each growth is refused in turn",
            count_list_growths(&heap).unwrap_or(0) >= 3,
        ),
        ("a block in use is counted", counts_block(rt.alloc(), true)),
        ("a freed block is not", counts_block(rt.alloc(), false)),
    ])
}
