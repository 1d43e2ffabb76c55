//! The engine of the program cfgx: its commands and its streams, and the verdicts on sections.
#![tactic(auto)]

pub mod engine;
pub mod resolve;
