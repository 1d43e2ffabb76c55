//! Fields, hashes, verdicts and widths, compared with values that are known from outside, and what
//! `Debug` names.
mod debug;
mod fields;
mod hashing;
mod verdicts;
mod widths;
