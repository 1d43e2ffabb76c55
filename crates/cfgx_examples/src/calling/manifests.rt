//! The values of conditions on a target that a compiler describes, and what the pages show of a
//! manifest.
use cfg_expr::error::Failure;
use cfgx_engine::resolve::{AuditError, Facts, Otherwise, audit_facts};
use std::alloc::Global;
use std::slice::from_ref;

/// Returns the value of each condition on the target of which `rustc --print cfg` prints `lines`.
/// A feature or a flag that no line names is unknown, and `None` is an unknown value.
pub fn values_on(
    alloc: Global,
    conditions: &[&str],
    lines: &str,
) -> Result<Vec<Option<bool>>, Failure> {
    let lines: Vec<&str> = lines.lines().collect(alloc)?;
    let target = Facts::from_rustc(alloc, lines.as_slice())?;
    match audit_facts(alloc, conditions, from_ref(&target), Otherwise::Unknown) {
        Ok(values) => Ok(values),
        Err(AuditError { failure, .. }) => Err(failure),
    }
}

/// The input on the page. `.ci/pages` compares the blocks of text there with these constants.
pub const SECTIONS: &str = "objc2\tcfg(all(target_vendor = \"apple\", not(loom)))\n\
    notify\tcfg(any(windows, target_os = \"macos\"))\n\
    loom\tcfg(loom)\n\
    libc\tcfg(unix)\n\
    signal-hook\tcfg(unix)\n";

/// The output of `pick` for `SECTIONS` on the simulator.
pub const VERDICTS: &str = "objc2\tunknown\n\
    \ttrue with 01\n\
    \tfalse with 11\n\
    notify\tno\n\
    loom\tunknown\n\
    \ttrue with 1\n\
    \tfalse with 0\n\
    libc\tyes\n\
    signal-hook\tyes\n";

/// The predicates of the condition in README.
pub const ORDER: &str = "b\na\nc\n";

/// The predicates of the condition of `objc2`.
pub const PREDICATES: &str = "loom\ntarget_vendor = \"apple\"\n";
