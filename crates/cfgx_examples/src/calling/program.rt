//! A whole program.
use cfg_expr::Expression;
use cfg_expr::error::Failure;
use std::io;

/// Prints the predicates of a condition, or what is wrong with it.
fn print_predicates(rt: &(impl Print + AllocGlobal), text: &str) -> io::Result<()> {
    let condition = match Expression::parse(rt.alloc(), text) {
        Ok(condition) => condition,
        Err(Failure::Parse(fault)) => return println!(rt; "{fault}"),
        Err(Failure::Memory(error)) => return Err(error.into()),
    };
    for predicate in condition.predicates() {
        println!(rt; "{predicate:?}")?;
    }
    Ok(())
}

pub fn main(rt: HostRuntime) -> io::Result<()> {
    print_predicates(&rt, "all(unix, feature = \"x\")")
}

// Returns whether the program prints `wanted` for `text`.
fn prints(rt: &HostRuntime, text: &str, wanted: &str) -> bool {
    let printer = cfgx_testing::printing::Printer::new(rt.alloc());
    let is_printed = print_predicates(&printer, text).is_ok();
    printer.into_text().as_str() == wanted && is_printed
}

#[test]
fn the_program_prints_predicates_and_faults(rt: HostRuntime) {
    let predicates = "Target(Family(\"unix\"))\nFeature(\"x\")\n";
    assert!(rt; prints(&rt, "all(unix, feature = \"x\")", predicates));
    assert!(rt; prints(&rt, "all()", ""));
    assert!(rt; prints(&rt, "key)", "key)\n   ^ unopened parens\n"));
}
