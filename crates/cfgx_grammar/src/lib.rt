//! What a `cfg()` condition is, as definitions and theorems without code: its trees, its one first
//! fault, what it asks, its values, and a parser as a function on tokens that finds all of these.
#![tactic(auto)]
