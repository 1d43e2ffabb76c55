//! An allocator that counts its blocks and refuses on demand, and calls whose growths it refuses
//! one after another.
use crate::checking::is_ok_true;
use crate::refusing::Refusing;
use bumpalo::Bump;
use std::alloc::{AllocError, Global};

/// A handle of such an allocator. Its arena counts the blocks in use.
pub type Heap<'h> = &'h Refusing<Bump>;

/// Returns an allocator that refuses nothing yet.
pub fn empty_heap(alloc: Global) -> Refusing<Bump> {
    Refusing::new(Bump::new(alloc))
}

/// Returns whether every block was freed. An arena refuses to be reset while a block is in use.
pub fn has_every_block(heap: Refusing<Bump>) -> bool {
    heap.into_inner().reset().is_ok()
}

// More growths than any call here needs.
const MOST_GROWTHS: u64 = 1000;

/// Counts the growths of `call`.
///
/// In turn `n` growth `n` is refused: `call` must return the error, and then `Ok(true)` when it is
/// made again. The turn in which no growth is refused must return `Ok(true)` at once. Every block
/// must be freed at the end of each turn. Otherwise this returns `None`.
pub fn count_growths<C>(alloc: Global, call: C) -> Option<u64>
where
    C: Fn(&Refusing<Bump>) -> Result<bool, AllocError>,
    requires { C.IsAlwaysCallable call }
{
    for turn in 0..MOST_GROWTHS {
        let heap = empty_heap(alloc);
        heap.refuse(turn.saturating_add(1));
        let result = call(&heap);
        if !heap.has_refused() {
            let is_right = is_ok_true(result) && has_every_block(heap);
            return if is_right { Some(turn) } else { None };
        }
        if result.is_ok() || !is_ok_true(call(&heap)) || !has_every_block(heap) {
            return None;
        }
    }
    None
}
