//! The program of `docs/README.md`.
use cfg_expr::{Expression, Predicate};
use std::io;

/// Prints the value of a condition if the feature `x` is on and nothing else is known.
fn print_value(rt: &(impl Print + AllocGlobal)) -> io::Result<()> {
    let Ok(condition) = Expression::parse(rt.alloc(), "any(unix, feature = \"x\")") else {
        return println!(rt; "a faulty text, or out of memory");
    };
    let mut answer = |asked: &Predicate<'_>| match asked {
        Predicate::Feature(name) => Some(*name == "x"),
        _ => None,
    };
    let value: Option<bool> = condition.eval(rt.alloc(), &mut answer)?;
    println!(rt; "{value:?}")
}

pub fn main(rt: HostRuntime) -> io::Result<()> {
    print_value(&rt)
}

#[test]
fn the_program_prints_the_value(rt: HostRuntime) {
    let printer = cfgx_testing::printing::Printer::new(rt.alloc());
    assert!(rt; print_value(&printer).is_ok());
    assert!(rt; printer.into_text().as_str() == "Some(true)\n");
}
