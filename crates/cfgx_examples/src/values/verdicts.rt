//! The verdicts of `pick` on any number of sections, with and without names, on each target of
//! `TRIPLES`.
use cfg_expr::Expression;
use cfg_expr::error::Failure;
use cfg_expr::expr::TargetMatcher;
use cfg_expr::targets::TargetInfo;
use cfgx_engine::resolve::{Section, Verdict, pick};
use cfgx_testing::answers::answer_of;
use cfgx_testing::checking::is_ok_true;
use cfgx_testing::rows::repeated;
use cfgx_testing::targets::builtin_rows;
use cfgx_testing::triples::TRIPLES;
use std::alloc::Global;

// A row is a condition, and a digit for its value on each target of `TRIPLES`.
const CONDITIONS: &str = r#"target_os = "macos" | 10000
feature = "x" | ?????
not(target_os = "macos") | 01111
all(target_abi = "sim", feature = "x") | 000?0
any(target_os = "tvos", target_env = "macabi") | 00101
"#;

// Pushes a section with `name` and `condition`.
fn push_section(
    alloc: Global,
    sections: &mut Vec<Section>,
    name: &str,
    condition: &str,
) -> Result<(), Failure> {
    let name = String::from_str(alloc, name)?;
    let condition = Expression::parse(alloc, condition)?;
    sections.push(Section { name, condition })?;
    Ok(())
}

// The rows for one target.
#[derive(Clone, Copy)]
struct Rows<'a> {
    // The rows, one per line
    lines: &'a str,
    // The index of the digit of the target
    digit: usize,
    // Whether the name of a section is its condition. Otherwise it is empty.
    are_named: bool,
}

// Returns the name, the condition and the digits of a row.
fn fields_of(row: &str, is_named: bool) -> (&str, &str, &str) {
    let (condition, digits) = row.split_once(" | ").unwrap_or((row, ""));
    (if is_named { condition } else { "" }, condition, digits)
}

// Returns a section for each row.
fn sections_of(alloc: Global, rows: Rows<'_>) -> Result<Vec<Section>, Failure> {
    let mut sections = Vec::new(alloc);
    for row in rows.lines.lines() {
        let (name, condition, _digits) = fields_of(row, rows.are_named);
        push_section(alloc, &mut sections, name, condition)?;
    }
    Ok(sections)
}

// Returns the verdict of a digit, if there is one.
fn verdict_of(digit: Option<&u8>) -> Option<Verdict> {
    Some(match answer_of(*digit?)? {
        Some(true) => Verdict::Yes,
        Some(false) => Verdict::No,
        None => Verdict::Unknown,
    })
}

// Returns whether the section is that of the row, and the verdict that of the row's digit.
fn section_matches(section: &Section, verdict: Verdict, row: &str, rows: Rows<'_>) -> bool {
    let (name, condition, digits) = fields_of(row, rows.are_named);
    section.name.as_str() == name
        && section.condition.original() == condition
        && verdict_of(digits.as_bytes().get(rows.digit)) == Some(verdict)
}

// Returns whether the sections and the verdicts are those of the rows.
fn sections_match(sections: &[Section], verdicts: &[Verdict], rows: Rows<'_>) -> bool {
    let mut lines = rows.lines.lines();
    for (section, verdict) in sections.iter().zip(verdicts) {
        if !section_matches(section, *verdict, lines.next().unwrap_or(""), rows) {
            return false;
        }
    }
    sections.len() == verdicts.len() && lines.next().is_none()
}

// Returns whether `pick` returns the verdicts of the rows twice, and leaves the sections as they
// were.
fn pick_matches<M: TargetMatcher>(
    alloc: Global,
    target: &M,
    rows: Rows<'_>,
) -> Result<bool, Failure> {
    let sections = sections_of(alloc, rows)?;
    let verdicts = pick(alloc, sections.as_slice(), target)?;
    let again = pick(alloc, sections.as_slice(), target)?;
    Ok(verdicts == again && sections_match(sections.as_slice(), verdicts.as_slice(), rows))
}

// Returns whether `pick` returns the verdicts of the lines on each target.
fn picks_match(alloc: Global, targets: &[TargetInfo<'_>], lines: &str, are_named: bool) -> bool {
    for (digit, target) in targets.iter().enumerate() {
        let rows = Rows {
            lines,
            digit,
            are_named,
        };
        if !is_ok_true(pick_matches(alloc, target, rows)) {
            return false;
        }
    }
    true
}

// Returns whether `pick` returns the verdicts of `CONDITIONS`, repeated `times` times, on each
// target.
fn picks_match_repeated(alloc: Global, times: usize, are_named: bool) -> Result<bool, Failure> {
    let lines = repeated(alloc, "", CONDITIONS, times, "")?;
    let targets = builtin_rows(alloc, TRIPLES)?;
    Ok(picks_match(alloc, targets.as_slice(), lines.as_str(), are_named))
}

#[test]
fn verdicts_on_any_number_of_sections_with_and_without_names(rt: HostRuntime) {
    for (times, are_named) in [(0, true), (1, true), (4_000, true), (1, false)] {
        let is_right = is_ok_true(picks_match_repeated(rt.alloc(), times, are_named));
        assert!(rt; is_right, "{times} {are_named}");
    }
}
