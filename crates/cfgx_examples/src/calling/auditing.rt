//! Conditions on targets that are known by their facts.
use cfg_expr::error::Failure;
use cfgx_engine::resolve::{AuditError, Facts, Otherwise, audit_facts};
use std::alloc::Global;

/// Returns the conditions that are true on one of the targets, if what no fact names is false.
pub fn true_somewhere<'a>(
    alloc: Global,
    conditions: &[&'a str],
    targets: &[Facts],
) -> Result<Vec<&'a str>, Failure> {
    let values = match audit_facts(alloc, conditions, targets, Otherwise::False) {
        Ok(values) => values,
        Err(AuditError { failure, .. }) => return Err(failure),
    };
    let mut found = Vec::new(alloc);
    for (condition, row) in conditions.iter().zip(values.chunks(targets.len().max(1))) {
        if row.contains(&Some(true)) {
            found.push(*condition)?;
        }
    }
    Ok(found)
}
