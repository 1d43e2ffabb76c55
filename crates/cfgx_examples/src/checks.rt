//! Tables of rows, and the checks of these rows by name.
//!
//! All tables share one test and one closure.
use crate::asking::ASKED;
use crate::auditing::AUDITED;
use crate::auditing_by_facts::AUDITED_BY_FACTS;
use crate::calling::ANSWERS;
use crate::evaluating::numbers::{JOINED, joined_value_is_right};
use crate::evaluating::steps::{STEPS, VALUES_OF_STEPS};
use crate::evaluating::{BY_FLAGS, TERMS};
use crate::facts::{ANSWERED, READ};
use crate::{auditing, auditing_by_facts, calling, evaluating, facts};
use cfgx_testing::asking::asks_target;
use cfgx_testing::rows::{Finding, TableToCheck, check_tables};
use std::alloc::Global;

/// The name of a check, its table, and the number of rows.
const TABLES: &[TableToCheck<'static>] = &[
    ("examples", ANSWERS, 55),
    ("verdicts on many targets", AUDITED, 6),
    ("values by facts", AUDITED_BY_FACTS, 13),
    ("values with flags", BY_FLAGS, 6),
    ("terms and questions", TERMS, 12),
    ("values in logics without laws", JOINED, 14),
    ("steps and their values", STEPS, 9),
    ("values of steps", VALUES_OF_STEPS, 41),
    ("facts that are read", READ, 31),
    ("answers of facts", ANSWERED, 13),
    ("targets that are asked", ASKED, 33),
];

// Returns whether the row passes the check, or `None` if no check has this name.
fn row_is_right(alloc: Global, check: &str, row: &[String]) -> Option<bool> {
    match check {
        "examples" => calling::row_is_right(alloc, row),
        "verdicts on many targets" => Some(auditing::row_is_right(alloc, row)),
        "values by facts" => Some(auditing_by_facts::row_is_right(alloc, row)),
        "values with flags" => Some(evaluating::value_is_right(alloc, row)),
        "terms and questions" => Some(evaluating::terms_are_right(alloc, row)),
        "values in logics without laws" => Some(joined_value_is_right(alloc, row)),
        "steps and their values" => Some(evaluating::steps::steps_are_right(alloc, row)),
        "values of steps" => Some(evaluating::steps::value_is_right(alloc, row)),
        "facts that are read" => Some(facts::outcome_is_right(alloc, row)),
        "answers of facts" => Some(facts::answers_are_right(alloc, row)),
        "targets that are asked" => Some(asks_target(alloc, row)),
        _ => None,
    }
}

#[test]
fn each_wrong_table_is_told(rt: HostRuntime) {
    let alloc = rt.alloc();
    let tables = [
        ("one", "a\nb", 2),
        ("other", "c", 1),
        ("miscounted", "a", 2),
        ("right", "a", 1),
        ("unnamed", "a", 1),
    ];
    let found = check_tables(alloc, &tables, |check, row| match check {
        "unnamed" => None,
        _ => Some(matches!(row, [field] if field.as_str() == "a")),
    });
    let wanted = "one: wrong: b\nfound: something else\n\
        other: wrong: c\nfound: something else\n\
        miscounted: 1 rows in place of 2\n\
        unnamed: wrong: a\nfound: no check with this name\n";
    assert!(rt; matches!(&found, Err(report) if report.as_str() == wanted));
}

#[test]
fn rows_of_each_table_are_right(rt: HostRuntime) -> Finding {
    let alloc = rt.alloc();
    check_tables(alloc, TABLES, |check, row| row_is_right(alloc, check, row))
}
