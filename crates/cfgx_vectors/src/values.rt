//! Values and fillings, values on targets, and the lists, widths, fields and tables of targets.
mod audits;
mod fillings;
mod lists;
mod matching;
mod triples;

use cfgx_testing::asking::asks_target;
use cfgx_testing::rows::{Finding, compare, require};
use std::alloc::Global;

// Returns the finding of a check in a row of one field.
fn finding_of_one(alloc: Global, check: &str, field: &str) -> Option<Finding> {
    Some(match check {
        "field" => lists::finding_of_field(alloc, field),
        "all built-in targets" => compare(alloc, triples::builtin_triples(alloc), field),
        "numbered table" => triples::finding_of_numbered(alloc, field),
        _ => return None,
    })
}

// Returns the finding of a check in a row of two fields.
fn finding_of_two(alloc: Global, check: &str, one: &str, other: &str) -> Option<Finding> {
    Some(match check {
        "values on built-in targets" => matching::finding_on_built_in(alloc, one, other),
        "values on targets made by hand" => matching::finding_on_hand_made(alloc, one, other),
        "values on no target" => matching::finding_without_targets(alloc, one, other),
        "list of families" => compare(alloc, lists::families_text(alloc, one), other),
        "list of widths" => compare(alloc, lists::widths_text(alloc, one), other),
        "width" => compare(alloc, lists::width_text(alloc, one), other),
        "table" => compare(alloc, triples::table_text(alloc, one), other),
        "copied row" => lists::finding_of_row(alloc, one, other),
        "built-in target" => compare(alloc, triples::found_triple(alloc, one), other),
        _ => return None,
    })
}

// Returns the finding of a check in a row of three fields.
fn finding_of_three(
    alloc: Global,
    check: &str,
    one: &str,
    other: &str,
    third: &str,
) -> Option<Finding> {
    Some(match check {
        "fillings" => fillings::finding(alloc, one, other, third),
        "sections" => audits::finding_of_sections(alloc, one, other, third),
        _ => return None,
    })
}

/// Returns the finding of the check `check` in `row`, or `None` if no check with this name takes as
/// many fields as `row` has.
pub(crate) fn finding(alloc: Global, check: &str, row: &[String]) -> Option<Finding> {
    match row {
        [field] => finding_of_one(alloc, check, field.as_str()),
        [one, other] => finding_of_two(alloc, check, one.as_str(), other.as_str()),
        [one, other, third] => {
            finding_of_three(alloc, check, one.as_str(), other.as_str(), third.as_str())
        }
        [facts, count, texts, digit] if check == "values by facts" => {
            Some(audits::finding_by_facts(alloc, facts, count.as_str(), texts, digit.as_str()))
        }
        _ if check == "targets that are asked" => {
            Some(require(
                alloc,
                asks_target(alloc, row),
                "other calls or another verdict",
            ))
        }
        _ => None,
    }
}
