//! Tables of rows, and the check of each table.
use crate::alike::{ALIKE, has_values};
use crate::asking::ASKED;
use crate::deep::{ACCEPTED, FAR, FAULTS, READ, has_fault, has_predicates, reads_texts};
use crate::facts::{COLLIDING, FOUND, finds_colliding, finds_each};
use crate::many::{LARGE, MEMBERS, decides, first_member_decides};
use cfgx_testing::asking::asks_target;
use cfgx_testing::rows::{TableToCheck, check_tables};
use cfgx_testing::words::run_matches_row;
use std::alloc::Global;

const TABLES: &[TableToCheck<'static>] = &[
    ("fault", FAULTS, 14),
    ("predicates", ACCEPTED, 7),
    ("read", READ, 1),
    ("run", FAR, 1),
    ("answers that are alike", ALIKE, 37),
    ("fillings", LARGE, 6),
    ("targets that are asked", ASKED, 10),
    ("lanes of members", MEMBERS, 1),
    ("facts", FOUND, 4),
    ("facts that collide", COLLIDING, 2),
];

// Returns whether the row passes the check with this name, or `None` if there is no such check.
fn row_passes(alloc: Global, name: &str, row: &[String]) -> Option<bool> {
    match name {
        "fault" => Some(has_fault(alloc, row)),
        "predicates" => Some(has_predicates(alloc, row)),
        "read" => Some(reads_texts(alloc, row)),
        "run" => Some(run_matches_row(alloc, row)),
        "answers that are alike" => Some(has_values(alloc, row)),
        "fillings" => Some(decides(alloc, row)),
        "targets that are asked" => Some(asks_target(alloc, row)),
        "lanes of members" => Some(first_member_decides(alloc, row)),
        "facts" => Some(finds_each(alloc, row)),
        "facts that collide" => Some(finds_colliding(alloc, row)),
        _ => None,
    }
}

#[test]
fn rows_of_long_texts_pass(rt: HostRuntime) -> Result<(), String> {
    let alloc = rt.alloc();
    check_tables(alloc, TABLES, |name, row| row_passes(alloc, name, row))
}
