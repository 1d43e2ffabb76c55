//! The value for one build, whose target and features are known.
use super::others::linux_row;
use cfg_expr::error::Failure;
use cfg_expr::expr::TargetMatcher;
use cfg_expr::{Expression, Predicate};
use std::alloc::{AllocError, Global};
use std::io;

/// Returns the value of a condition on a target with these features, if everything else is false.
pub fn value_for<M: TargetMatcher>(
    alloc: Global,
    condition: &Expression,
    target: &M,
    features: &[&str],
) -> Result<bool, AllocError> {
    condition.eval(
        alloc,
        &mut |predicate: &Predicate<'_>| match predicate {
            Predicate::Target(asked) => asked.matches(target),
            Predicate::Feature(name) => features.contains(name),
            _ => false,
        },
    )
}

/// Prints the value of a condition on a target with the feature `x`.
fn print_value<M: TargetMatcher + Drop>(
    rt: &(impl Print + AllocGlobal),
    condition: &Expression,
    target: M,
) -> io::Result<()> {
    let value = value_for(rt.alloc(), condition, &target, &["x"])?;
    println!(rt; "{value}")
}

fn print_on_linux(rt: &(impl Print + AllocGlobal), condition: &Expression) -> io::Result<()> {
    print_value(rt, condition, linux_row(rt.alloc())?)
}

/// Prints the value of the condition `text` on Linux, or what is wrong with it.
fn print_text_on_linux(rt: &(impl Print + AllocGlobal), text: &str) -> io::Result<()> {
    match Expression::parse(rt.alloc(), text) {
        Ok(condition) => print_on_linux(rt, &condition),
        Err(Failure::Parse(fault)) => println!(rt; "{fault}"),
        Err(Failure::Memory(error)) => Err(error.into()),
    }
}

pub fn main(rt: HostRuntime) -> io::Result<()> {
    print_text_on_linux(&rt, "all(unix, feature = \"x\")")
}

// Returns whether the program prints `wanted` for `text`.
fn prints(rt: &HostRuntime, text: &str, wanted: &str) -> bool {
    let printer = cfgx_testing::printing::Printer::new(rt.alloc());
    let is_printed = print_text_on_linux(&printer, text).is_ok();
    printer.into_text().as_str() == wanted && is_printed
}

#[test]
fn the_program_prints_values_and_faults(rt: HostRuntime) {
    assert!(rt; prints(&rt, "all(unix, feature = \"x\")", "true\n"));
    assert!(rt; prints(&rt, "all(unix, feature = \"y\")", "false\n"));
    assert!(rt; prints(&rt, "key)", "key)\n   ^ unopened parens\n"));
}
