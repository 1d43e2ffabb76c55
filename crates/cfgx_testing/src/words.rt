//! Rows of runs of the program: `status | output | word | word ..`. A `\0` separates words.
use crate::streams::{ALL, run_ends_with};
use std::alloc::{AllocError, Global};

/// Returns the words of `texts`.
pub fn words_of(alloc: Global, texts: &[String]) -> Result<Vec<&str>, AllocError> {
    let mut words = Vec::new(alloc);
    for text in texts {
        for word in text.split('\0') {
            words.push(word)?;
        }
    }
    Ok(words)
}

/// Returns whether a run with the words of `row` has the status and the output of `row`.
pub fn run_matches_row(alloc: Global, row: &[String]) -> bool {
    let [status, output, words @ ..] = row else {
        return false;
    };
    match (words_of(alloc, words), status.parse()) {
        (Ok(words), Ok(status)) => {
            run_ends_with(alloc, words.as_slice(), ALL, &[], (output.as_str(), status))
        }
        _ => false,
    }
}
