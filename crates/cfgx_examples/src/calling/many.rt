//! Many conditions, read one after another.
use cfg_expr::Predicate;
use cfg_expr::error::Failure;
use cfg_expr::expr::{ConditionReader, TargetMatcher};
use std::alloc::Global;

/// Returns the conditions that `target` decides, if nothing else is known.
pub fn decided_on<'a, M: TargetMatcher>(
    alloc: Global,
    texts: &[&'a str],
    target: &M,
) -> Result<Vec<&'a str>, Failure> {
    let mut reader = ConditionReader::new(alloc);
    let mut decided = Vec::new(alloc);
    for text in texts {
        let condition = reader.read(text)?;
        let mut answer = |asked: &Predicate<'_>| match asked {
            Predicate::Target(asked) => Some(asked.matches(target)),
            _ => None,
        };
        let value: Option<bool> = condition.eval(alloc, &mut answer)?;
        if value.is_some() {
            decided.push(*text)?;
        }
    }
    Ok(decided)
}
