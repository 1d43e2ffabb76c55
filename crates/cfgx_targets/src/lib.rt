//! Compilation targets, as the conditions of `cfg()` see them.
#![tactic(auto)]

pub mod atomics;
pub mod builtins;
pub mod families;
pub mod info;
pub mod list;
pub mod table;
