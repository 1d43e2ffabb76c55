//! The error of a text that is no width.
use super::lists::check_printed_copy;
use super::{AllocResult, Outcome, TryClone};
use cfg_expr::error::HasAtomicParseError;
use cfg_expr::memory::SmallAllocator;
use cfg_expr::targets::{HasAtomic, HasAtomicFailure};
use std::alloc::Global;

impl<A: SmallAllocator> TryClone<A> for HasAtomicParseError<A> {
    fn copy(&self, alloc: A) -> AllocResult<Self> {
        self.try_clone(alloc)
    }
}

/// What the error of `PTR` prints.
pub(crate) const PRINTED_ERROR: &str = "expected integer or \"ptr\", found PTR";

// Returns the error of a text that is no width, or `None` if it is one.
fn width_error<A: SmallAllocator>(
    alloc: A,
    text: &str,
) -> AllocResult<Option<HasAtomicParseError<A>>> {
    match HasAtomic::read(alloc, text) {
        Err(HasAtomicFailure::Parse(error)) => Ok(Some(error)),
        Err(HasAtomicFailure::Memory(error)) => Err(error),
        Ok(_width) => Ok(None),
    }
}

/// Checks the error of `PTR`, its copy, and that it prints `text`.
pub(super) fn check_width_error<A: SmallAllocator>(
    global: Global,
    alloc: A,
    text: &str,
) -> Outcome {
    match width_error(alloc, "PTR")? {
        Some(error) => check_printed_copy(global, alloc, &error, text),
        None => Ok(false),
    }
}
