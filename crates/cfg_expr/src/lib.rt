//! Conditions of Rust's `#[cfg(..)]`: parses them, lists their predicates and evaluates them.
#![tactic(auto)]

pub mod error;
pub mod expr;
pub mod targets;

pub use cfgx_syntax::memory;
pub use error::ParseError;
pub use expr::{Asked, Decision, Expression, Predicate, TargetPredicate};
