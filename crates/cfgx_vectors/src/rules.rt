//! The rules of texts, and the checks of their rows.
mod definitions;
mod located;
mod order;
mod pages;
mod predicates;
mod printing;
mod spelling;
mod stripping;
mod tokens;
mod typed;

use cfgx_testing::faults::fault_of;
use cfgx_testing::rows::{Finding, compare, compare_pair, fail, require};
use cfgx_testing::streams::{ALL, run_text};
use std::alloc::Global;

/// Compares `predicates`, which line feeds separate, with those that `parse` prints for `text`.
pub(crate) fn compare_predicates(alloc: Global, text: &str, predicates: &str) -> Finding {
    let end = if predicates.is_empty() { "" } else { "\n" };
    match format!(in alloc; "{predicates}{end}") {
        Ok(written) => {
            let actual = run_text(alloc, &["parse", text], ALL, &[]);
            compare_pair(alloc, actual, ("0", written.as_str()))
        }
        Err(_) => fail(alloc, "out of memory"),
    }
}

/// Compares the fault of the text and the stripped text with those of a row.
fn compare_fault(alloc: Global, text: &str, fault: &str, stripped: &str) -> Finding {
    compare_pair(alloc, fault_of(alloc, text), (fault, stripped))
}

// Returns whether the property with this name holds, or `None` if no property has it.
fn property(alloc: Global, name: &str) -> Option<bool> {
    Some(match name {
        "equal reasons have equal parts" => printing::compares_reasons(),
        "equal faults have equal parts" => printing::compares_faults(alloc),
        "a failure is a fault or out of memory" => printing::makes_failures(alloc),
        "a flag that is spelled as a literal is written as it is" => spelling::spells_true(alloc),
        "`Debug` of an expression shows its stripped text" => stripping::shows_stripped(alloc),
        _ => return None,
    })
}

// Returns the finding of a check in a row of one field.
fn finding_of_one(alloc: Global, check: &str, name: &str) -> Option<Finding> {
    if check != "property" {
        return None;
    }
    Some(require(alloc, property(alloc, name)?, "it does not hold"))
}

// Returns the finding of a check in a row of two fields.
fn finding_of_two(alloc: Global, check: &str, one: &str, other: &str) -> Option<Finding> {
    Some(match check {
        "fault" => compare_fault(alloc, one, other, one),
        "predicates" => compare_predicates(alloc, one, other),
        "stripped text" => compare_pair(alloc, stripping::stripped(alloc, one), (other, other)),
        "type" => compare(alloc, predicates::predicate_text(alloc, one), other),
        "calls for the next predicate" => compare(alloc, order::calls_text(alloc, one), other),
        "nodes" => compare(alloc, order::nodes_text(alloc, one), other),
        "spelling" => spelling::finding(alloc, one, other),
        "long spelling" => spelling::finding_of_long(alloc, one, other),
        "spelling of the page" => pages::finding_of_spelling(alloc, one, other),
        "pick of the page" => pages::finding_of_pick(alloc, one, other),
        _ => return None,
    })
}

// Returns the finding of a check in a row of three fields.
fn finding_of_three(
    alloc: Global,
    check: &str,
    one: &str,
    other: &str,
    third: &str,
) -> Option<Finding> {
    Some(match check {
        "fault in the stripped text" => compare_fault(alloc, one, other, third),
        "equality" => compare(alloc, stripping::equality(alloc, one, other), third),
        "reason" => compare_pair(alloc, printing::reason_texts(alloc, one), (other, third)),
        "printed fault" => printing::finding(alloc, one, other, third),
        "fault of the page" => pages::finding_of_fault(alloc, one, other),
        _ => return None,
    })
}

/// Returns the finding of the check `check` in `row`, or `None` if no check with this name takes as
/// many fields as `row` has.
pub(crate) fn finding(alloc: Global, check: &str, row: &[String]) -> Option<Finding> {
    match check {
        "items" => Some(tokens::finding(alloc, row)),
        "typed predicates" => Some(typed::finding(alloc, row)),
        "located predicates" => Some(located::finding(alloc, row)),
        _ => finding_by_number(alloc, check, row),
    }
}

// Returns the finding of the check `check` in `row`, by the number of its fields.
fn finding_by_number(alloc: Global, check: &str, row: &[String]) -> Option<Finding> {
    match row {
        [name] => finding_of_one(alloc, check, name.as_str()),
        [one, other] => finding_of_two(alloc, check, one.as_str(), other.as_str()),
        [one, other, third] => {
            finding_of_three(alloc, check, one.as_str(), other.as_str(), third.as_str())
        }
        _ => None,
    }
}
