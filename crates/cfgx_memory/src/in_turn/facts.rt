//! Facts that are read.
use super::Outcome;
use cfg_expr::Predicate;
use cfg_expr::memory::SmallAllocator;
use cfgx_engine::resolve::{Facts, FactsError, Otherwise};

/// What a call that reads facts returns.
type Read<A> = Result<Facts<A>, FactsError<A>>;

fn answer_to<A: SmallAllocator>(facts: &Facts<A>, flag: &str) -> Option<bool> {
    facts.answer(&Predicate::Flag(flag), Otherwise::Unknown)
}

/// Returns whether the facts name the flag `a` as true, and no flag `other`.
pub(crate) fn name_a<A: SmallAllocator>(facts: &Facts<A>) -> bool {
    answer_to(facts, "a") == Some(true) && answer_to(facts, "other").is_none()
}

// Checks that the facts were read, and name the flag `a`.
fn check_read<A: SmallAllocator>(read: &Read<A>) -> Outcome {
    match read {
        Ok(facts) => Ok(name_a(facts)),
        Err(FactsError::Memory(error)) => Err(*error),
        Err(FactsError::Faulty { .. }) => Ok(false),
    }
}

// Checks that the second fact is faulty.
fn check_faulty<A: SmallAllocator>(read: &Read<A>) -> Outcome {
    match read {
        Ok(_) => Ok(false),
        Err(FactsError::Memory(error)) => Err(*error),
        Err(FactsError::Faulty { index, .. }) => Ok(*index == 1),
    }
}

fn check_flags<A: SmallAllocator>(alloc: A, text: &str) -> Outcome {
    check_read(&Facts::from_flags(alloc, &["a", text]))
}

fn check_lines<A: SmallAllocator>(alloc: A, text: &str) -> Outcome {
    check_read(&Facts::from_rustc(alloc, &["a", text]))
}

fn check_faulty_flag<A: SmallAllocator>(alloc: A, text: &str) -> Outcome {
    check_faulty(&Facts::from_flags(alloc, &["a", text]))
}

fn check_faulty_line<A: SmallAllocator>(alloc: A, text: &str) -> Outcome {
    check_faulty(&Facts::from_rustc(alloc, &["a", text]))
}

/// Checks the facts `a` and `text`, which are read by the call with the name `name`.
pub(super) fn check_facts<A: SmallAllocator>(alloc: A, name: &str, text: &str) -> Outcome {
    match name {
        "flags" => check_flags(alloc, text),
        "lines" => check_lines(alloc, text),
        "with a faulty flag" => check_faulty_flag(alloc, text),
        "with a faulty line" => check_faulty_line(alloc, text),
        _ => Ok(false),
    }
}
