//! An allocator for tests that refuses a growth on demand.
ghost use Rattle.std.specs.Prelude.{◌≡◌};

use std::alloc::{AllocError, Allocator};
use std::cell::Cell;

/// The argument by which `Refusing::refuse` refuses every growth.
pub const EVERY: u64 = u64::MAX;

/// The growth that is refused next, and the numbers of growths so far.
#[derive(Clone, Copy)]
struct Countdown {
    // 1 if the next growth is refused, 2 if the one after it is, and so on; 0 if none is.
    ahead: u64,
    // The number of growths that were asked for.
    asked: u64,
    // The number of growths that were refused.
    refused: u64,
}

/// An allocator that passes each call to `inner`, except the growths that it refuses. A growth is
/// any call for a block, also for one to move to.
#[derive(Drop)]
pub struct Refusing<B: Allocator> {
    inner: B,
    countdown: Cell<Countdown>,
}

impl<B: Allocator> Refusing<B> {
    /// Returns an allocator that refuses nothing until `refuse` is called.
    pub fn new(inner: B) -> Refusing<B> {
        Refusing {
            inner,
            countdown: Cell::new(Countdown {
                ahead: 0,
                asked: 0,
                refused: 0,
            }),
        }
    }

    /// Refuses the `n`th growth from now on and no other: the next one if `n` is 1, none if `n` is
    /// 0, and each one if `n` is `EVERY`.
    pub fn refuse(&self, n: u64) {
        let mut countdown = self.countdown.get();
        countdown.ahead = n;
        self.countdown.set(countdown);
    }

    /// Returns the inner allocator.
    pub fn into_inner(self) -> B
        ensures { result ≡ self.inner }
    {
        self.inner
    }

    /// Returns whether the growth that `refuse` named was refused. Returns true if it named none.
    pub fn has_refused(&self) -> bool {
        self.countdown.get().ahead == 0
    }

    /// Returns the number of growths that were asked for, also those that were refused.
    pub fn asked_growths(&self) -> u64 {
        self.countdown.get().asked
    }

    /// Returns the number of growths that were refused.
    pub fn refused_growths(&self) -> u64 {
        self.countdown.get().refused
    }
}

// Counts a growth. Returns whether it is refused. No clause can say when: the content of a cell is
// no part of its value.
fn ends_countdown(countdown: &Cell<Countdown>) -> bool {
    let Countdown {
        ahead,
        asked,
        refused,
    } = countdown.get();
    let is_refused = ahead == 1 || ahead == EVERY;
    countdown.set(Countdown {
        ahead: if ahead == EVERY {
            EVERY
        } else {
            ahead.saturating_sub(1)
        },
        asked: asked.saturating_add(1),
        refused: refused.saturating_add(u64::from(is_refused)),
    });
    is_refused
}

unsafe impl<B: Allocator> Allocator for Refusing<B> {
    // The right to free a block is that of the inner allocator.
    ghost dealloc_token = { λ refusing. B.dealloc_token refusing.inner };

    fn allocate(&self, size: usize, align: usize) -> Result<*mut u8, AllocError> {
        if ends_countdown(&self.countdown) {
            return Err(AllocError);
        }
        self.inner.allocate(size, align)
    }

    unsafe fn deallocate(&self, ptr: *mut u8, size: usize, align: usize) {
        self.inner.deallocate(ptr, size, align);
    }
}
