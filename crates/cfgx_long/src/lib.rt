//! Tests that take long unless LLVM builds them: deep, wide and long texts, inputs of 16 MiB,
//! generated texts, and values over every list of answers.
//!
//! A check calls `drop` on an owned value, or passes it to a function by a reference: the proof of
//! a drop is long where a scope ends.
#![tactic(auto)]

#[cfg(test)]
mod alike;
#[cfg(test)]
mod asking;
#[cfg(test)]
mod checks;
#[cfg(test)]
mod deep;
#[cfg(test)]
mod facts;
#[cfg(test)]
mod generated;
#[cfg(test)]
mod input;
#[cfg(test)]
mod many;
#[cfg(test)]
mod one_by_one;
