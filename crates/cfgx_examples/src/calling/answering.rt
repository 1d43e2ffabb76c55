//! The value for one build, by what rustc says of its target and by its flags.
use cfg_expr::error::Failure;
use cfg_expr::{Expression, Predicate};
use cfgx_engine::resolve::{Facts, Otherwise};
use std::alloc::Global;

/// Returns the value for a build. `lines` are those that `rustc --print cfg` prints for its target.
/// `flags` name what else is true, such as features, and what is unknown.
pub fn value_for_build(
    alloc: Global,
    condition: &Expression,
    lines: &[&str],
    flags: &[&str],
) -> Result<Option<bool>, Failure> {
    let target = Facts::from_rustc(alloc, lines)?;
    let build = Facts::from_flags(alloc, flags)?;
    let mut answer = |asked: &Predicate<'_>| match target.answer(asked, Otherwise::Unknown) {
        Some(truth) => Some(truth),
        None => build.answer(asked, Otherwise::False),
    };
    Ok(condition.eval(alloc, &mut answer)?)
}
