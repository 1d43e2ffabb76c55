//! What the calls return. A number means the same in all calls.

/// The call succeeded. A buffer that is too small stays as it was.
pub(crate) const DONE: u32 = 0;

/// A text is no condition; of `cfgx_run`: a text or the input is faulty.
pub(crate) const FAULTY: u32 = 1;

/// Of `cfgx_run`: wrong words, or a triple that is not built in.
pub(crate) const WRONG_USE: u32 = 2;

/// Memory was refused.
pub(crate) const OUT_OF_MEMORY: u32 = 3;

/// A text or a word is not UTF-8.
pub(crate) const NOT_UTF8: u32 = 4;

/// There are more or fewer answers than predicates.
pub(crate) const MISCOUNTED: u32 = 5;

/// An end is less than the one before it, or the last one is not the number of items.
pub(crate) const BAD_ENDS: u32 = 6;

/// Over no answers do the steps have a value.
pub(crate) const NO_VALUE: u32 = 7;

/// The number of values does not fit in a `usize`.
pub(crate) const TOO_LARGE: u32 = 8;

/// A fact is faulty, or not UTF-8.
pub(crate) const FAULTY_FACT: u32 = 9;
