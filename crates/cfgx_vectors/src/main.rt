//! Checks the files that its arguments name: results of the Rust crate, and tables about the rules
//! of texts, about the program `cfgx`, and about values and targets. It prints each wrong row with
//! what was found, and the number of rows of each file.
#![tactic(auto)]

mod program;
mod reading;
mod rules;
mod rust_crate;
mod sizes;
mod tables;
mod values;

use cfgx_testing::rows::{Finding, fail};
use std::alloc::{AllocError, Global};
use std::{env, fs, io};

// Returns the finding of the check `check` in `row`.
fn finding(alloc: Global, check: &str, row: &[String]) -> Finding {
    if let Some(finding) = rules::finding(alloc, check, row) {
        return finding;
    }
    if let Some(finding) = program::finding(alloc, check, row) {
        return finding;
    }
    match values::finding(alloc, check, row) {
        Some(finding) => finding,
        None => fail(alloc, "no check with this name and number of fields"),
    }
}

// Returns what is wrong in the file, and the number of its rows.
fn report(alloc: Global, name: &str, text: &str) -> Result<String, AllocError> {
    if name.ends_with(".tsv") {
        rust_crate::report(alloc, name, text)
    } else {
        tables::report(alloc, name, text)
    }
}

fn report_of_file(rt: &HostRuntime, name: &str) -> io::Result<String> {
    let text = fs::read_to_string(rt, name)?;
    Ok(report(rt.alloc(), name, text.as_str())?)
}

fn main(rt: HostRuntime) -> io::Result<()> {
    for name in env::args(&rt)?.skip(1) {
        let report = report_of_file(&rt, name.as_str())?;
        println!(rt; "{report}")?;
    }
    Ok(())
}
