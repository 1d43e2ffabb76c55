//! The callers on the pages, and others. Each is proved by the contracts of its calls.
#![tactic(auto)]

#[cfg(test)]
mod asking;
#[cfg(test)]
pub mod auditing;
#[cfg(test)]
pub mod auditing_by_facts;
#[cfg(test)]
pub mod calling;
#[cfg(test)]
mod checks;
#[cfg(test)]
pub mod evaluating;
#[cfg(test)]
pub mod facts;
#[cfg(test)]
pub mod respelling;
#[cfg(test)]
mod values;
#[cfg(test)]
mod windows;
