//! Checks of results and of values, and steps that may be out of memory.
use std::alloc::{AllocError, Allocator, Global};
use std::fmt::Display;
use std::hash::{DefaultHasher, Hash, Hasher};

/// Returns whether `outcome` is `Ok(true)`.
pub fn is_ok_true<E: Drop>(outcome: Result<bool, E>) -> bool {
    match outcome {
        Ok(value) => value,
        Err(_error) => false,
    }
}

/// Returns whether the value of `outcome` equals `wanted`.
pub fn value_equals<T: PartialEq + Drop, E: Drop>(
    outcome: Result<T, E>,
    wanted: &T,
) -> Result<bool, E> {
    Ok(outcome? == *wanted)
}

/// Pushes the value of `outcome`.
pub fn push_ok<T: Drop, A: Allocator>(
    list: &mut Vec<T, A>,
    outcome: Result<T, AllocError>,
) -> Result<(), AllocError> {
    list.push(outcome?)?;
    Ok(())
}

/// Replaces `*place` by the value of `outcome`.
pub fn assign_ok<T: Drop>(place: &mut T, outcome: Result<T, AllocError>) -> Result<(), AllocError> {
    *place = outcome?;
    Ok(())
}

/// Checks that each named value is true. The error is the name of the first one that is not.
pub fn check_all<'a>(checks: &[(&'a str, bool)]) -> Result<(), &'a str> {
    for (name, is_true) in checks {
        if !*is_true {
            return Err(*name);
        }
    }
    Ok(())
}

/// Returns the hash of `value`.
pub fn hash_of<T: Hash>(value: &T) -> u64 {
    let mut state = DefaultHasher::new();
    value.hash(&mut state);
    state.finish()
}

/// Returns whether `value` prints `text`.
pub fn prints<T: Display>(alloc: Global, value: &T, text: &str) -> bool {
    match format!(in alloc; "{value}") {
        Ok(printed) => printed.as_str() == text,
        Err(_) => false,
    }
}
