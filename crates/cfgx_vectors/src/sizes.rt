//! Rows of every size. In a table whose check begins with `each size of `, `$` stands for a size.
use std::alloc::{AllocError, Global};

// Every size up to this one is tried.
const LAST: usize = 130;

// The sizes beyond.
const BEYOND: [usize; 6] = [255, 256, 257, 511, 1_000, 2_000];

/// The number of sizes.
pub(crate) const COUNT: usize = LAST + 1 + BEYOND.len();

/// Returns the size with this index, if there is one.
pub(crate) fn size_at(index: usize) -> Option<usize> {
    if index <= LAST {
        Some(index)
    } else {
        BEYOND.get(index - LAST - 1).copied()
    }
}

/// Returns the row with `size` for each `$`.
pub(crate) fn row_of_size(alloc: Global, row: &str, size: usize) -> Result<String, AllocError> {
    let digits = format!(in alloc; "{size}")?;
    row.replace(alloc, "$", digits.as_str())
}
