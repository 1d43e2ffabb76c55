//! Evaluates a text for the command `eval`, whose flags are facts. A predicate that no flag names
//! is false.

ghost use Rattle.cfgx_engine.specs.internal.Shows.{FitsResult};
ghost use Rattle.cfgx_engine.specs.Output.{HasValueByFlags};
ghost use Rattle.cfgx_engine.specs.Request.{texts};

use crate::resolve::{Facts, Otherwise};
use cfg_expr::Predicate;
use cfg_expr::error::Failure;
use cfg_expr::expr::ConditionReader;
use cfg_expr::memory::SmallAllocator;

/// Evaluates `text` with `flags`. The text is parsed before the flags, so its fault comes first.
pub(super) fn eval_with_flags<A: SmallAllocator>(
    alloc: A,
    text: &str,
    flags: &[&str],
) -> Result<Option<bool>, Failure<A>>
    ensures { FitsResult (HasValueByFlags text.now (texts flags.now)) result }
{
    let mut reader = ConditionReader::new(alloc);
    let condition = reader.read(text)?;
    let facts = Facts::from_flags(alloc, flags)?;
    let mut answer = |predicate: &Predicate<'_>| facts.answer(predicate, Otherwise::False);
    Ok(condition.eval(alloc, &mut answer)?)
}
