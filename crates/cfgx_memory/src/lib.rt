//! Tests of calls that are out of memory, and of calls that take no memory.
//!
//! A check calls `drop` on an owned value, or passes it to a function that is generic over its
//! type, and takes its allocator as a type parameter: the proof of a drop is long at a known type.
#![tactic(auto)]

#[cfg(test)]
mod allocator;
#[cfg(test)]
mod in_turn;
#[cfg(test)]
mod without_memory;
