//! Faults of texts.

pub mod laws;

pub use cfgx_fields::error::HasAtomicParseError;
pub use cfgx_syntax::error::{Failure, ParseError, Reason};
