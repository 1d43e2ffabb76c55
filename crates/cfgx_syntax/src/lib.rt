//! The tokens of a `cfg()` text, its faults, the values that it can have, and the allocators of
//! expressions.
#![tactic(auto)]

pub mod error;
pub mod lexer;
pub mod logic;
pub mod memory;
pub mod stripping;
