//! `Debug` of the types that write it by hand names the type, or what the value holds. No text is
//! promised beyond that.
use cfg_expr::Expression;
use cfg_expr::error::Failure;
use cfg_expr::expr::ConditionReader;
use cfg_expr::targets::{TargetInfo, TargetTable};
use cfgx_parser::parser::Parser;
use cfgx_testing::checking::{check_all, is_ok_true, push_ok};
use cfgx_testing::targets::bare;
use cfgx_testing::triples::TRIPLES;
use std::alloc::{AllocError, Global};
use std::fmt::Debug;

// Returns whether `text` has each of `parts`, one behind another.
fn has_parts(text: &str, parts: &[&str]) -> bool {
    let mut left = text;
    for part in parts {
        let Some((_before, rest)) = left.split_once(part) else {
            return false;
        };
        left = rest;
    }
    true
}

// Returns whether `Debug` of `value` prints each of `parts`, one behind another.
fn shows<T: Debug>(alloc: Global, value: &T, parts: &[&str]) -> bool {
    match format!(in alloc; "{value:?}") {
        Ok(shown) => has_parts(shown.as_str(), parts),
        Err(_) => false,
    }
}

// Returns whether a table shows the triples of its rows.
fn table_is_shown(alloc: Global) -> Result<bool, AllocError> {
    let table = TargetTable::builtins(alloc)?;
    let is_shown = shows(alloc, &table, TRIPLES);
    drop(table);
    Ok(is_shown)
}

// Returns bare rows with these triples.
fn rows_with(
    alloc: Global,
    triples: &[&'static str],
) -> Result<Vec<TargetInfo<'static>>, AllocError> {
    let mut rows: Vec<TargetInfo<'static>> = Vec::new(alloc);
    for triple in triples {
        push_ok(&mut rows, Ok(bare(triple)))?;
    }
    Ok(rows)
}

// Returns whether the error of a table shows its index and the triples of its rows.
fn table_error_is_shown(alloc: Global) -> Result<bool, AllocError> {
    let made = TargetTable::from_rows(rows_with(alloc, &["first", "first", "third"])?);
    let is_shown = match &made {
        Ok(_) => false,
        Err(error) => shows(
            alloc,
            error,
            &["TableError", "1", "first", "first", "third"],
        ),
    };
    drop(made);
    Ok(is_shown)
}

// Returns whether an expression and its condition show their stripped text.
fn condition_is_shown(alloc: Global) -> Result<bool, Failure> {
    let expression = Expression::parse(alloc, "cfg(all(unix, a))")?;
    Ok(
        shows(alloc, &expression, &["Expression", "all(unix, a)"])
            && shows(
                alloc,
                &expression.condition(),
                &["Condition", "all(unix, a)"],
            )
            && shows(
                alloc,
                &expression.condition().located_predicates(),
                &["LocatedPredicates"],
            ),
    )
}

// Returns whether a reader of conditions and a parser show their names.
fn readers_are_shown(alloc: Global) -> bool {
    let conditions = ConditionReader::new(alloc);
    let parser = Parser::new(alloc, 0);
    shows(alloc, &conditions, &["ConditionReader"]) && shows(alloc, &parser, &["Parser"])
}

#[test]
fn debug_shows_names_and_contents(rt: HostRuntime) -> Result<(), &'static str> {
    let alloc = rt.alloc();
    check_all(&[
        ("a table", is_ok_true(table_is_shown(alloc))),
        (
            "the error of a table",
            is_ok_true(table_error_is_shown(alloc)),
        ),
        ("a condition", is_ok_true(condition_is_shown(alloc))),
        ("readers", readers_are_shown(alloc)),
    ])
}
