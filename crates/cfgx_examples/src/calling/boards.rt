//! The verdicts of boards on sections.
use super::matcher::Board;
use super::value_prints;
use cfg_expr::Expression;
use cfg_expr::error::Failure;
use cfg_expr::expr::TargetMatcher;
use cfgx_engine::resolve::{Section, Verdict, pick};
use std::alloc::Global;

/// A board of 16 bits without an operating system.
pub const BARE: Board<'static> = Board {
    os: "none",
    pointer_width: 16,
};

/// A board with Linux, of 64 bits.
pub const LINUX: Board<'static> = Board {
    os: "linux",
    pointer_width: 64,
};

// Returns the verdict of `target` on each dependency, which is a name and a condition.
fn verdicts_on<M: TargetMatcher>(
    alloc: Global,
    dependencies: &[(&str, &str)],
    target: &M,
) -> Result<Vec<Verdict>, Failure> {
    let mut sections = Vec::new(alloc);
    for (name, condition) in dependencies {
        sections.push(section_of(alloc, name, condition)?)?;
    }
    Ok(pick(alloc, sections.as_slice(), target)?)
}

fn section_of(alloc: Global, name: &str, condition: &str) -> Result<Section, Failure> {
    let name = String::from_str(alloc, name)?;
    let condition = Expression::parse(alloc, condition)?;
    Ok(Section { name, condition })
}

// Returns whether the verdicts of `board` on `manifest` print `verdicts`.
fn verdicts_are<M: TargetMatcher>(
    alloc: Global,
    board: &M,
    manifest: &[(&str, &str)],
    verdicts: &str,
) -> bool {
    value_prints(alloc, verdicts_on(alloc, manifest, board), verdicts)
}

/// Returns whether the verdicts of `BARE` and of `LINUX` on a section with `condition` print
/// `verdicts`, which a space separates.
pub fn verdicts_of_both_are(alloc: Global, condition: &str, verdicts: &str) -> bool {
    let manifest = [("", condition)];
    match verdicts.split_once(' ') {
        Some((one, other)) => {
            verdicts_are(alloc, &BARE, &manifest, one)
                && verdicts_are(alloc, &LINUX, &manifest, other)
        }
        None => false,
    }
}

const MANIFEST: &[(&str, &str)] = &[
    ("timers", "target_pointer_width = \"16\""),
    ("files", "not(target_os = \"none\")"),
    ("logging", "feature = \"log\""),
    (
        "threads",
        "all(target_os = \"linux\", feature = \"threads\")",
    ),
];

fn is_fault<T: Drop>(outcome: Result<T, Failure>) -> bool {
    matches!(&outcome, Err(Failure::Parse(_)))
}

#[test]
fn sections_are_picked_and_faults_refused(rt: HostRuntime) {
    let alloc = rt.alloc();
    assert!(rt; verdicts_are(alloc, &BARE, MANIFEST, "[Yes, No, Unknown, No]"));
    assert!(rt; is_fault(verdicts_on(alloc, &[("a", "b)")], &BARE)));
}
