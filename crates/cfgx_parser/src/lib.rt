//! From a `cfg()` text to the nodes of its tree, in one pass.
#![tactic(auto)]

pub mod asked;
mod classification;
pub mod function;
pub mod located;
pub mod nodes;
pub mod parser;
pub mod unaskable;
