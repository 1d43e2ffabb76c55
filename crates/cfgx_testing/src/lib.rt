//! What the tests of several crates share: an allocator that refuses on demand, streams in memory
//! that fail on demand, a runtime that keeps what is printed, tables of rows as text, faults as
//! rows write them, values and fillings, and rows of targets.
//!
//! Tests own predicates, rows and faults in small functions, and some call `drop` on them. "Owned
//! values" in `docs/PROVING.md` gives the reason.
#![tactic(auto)]

pub mod answers;
pub mod asking;
pub mod checking;
pub mod faults;
pub mod fillings;
pub mod heap;
pub mod printing;
pub mod refusing;
pub mod rows;
pub mod streams;
pub mod targets;
pub mod triples;
pub mod words;
