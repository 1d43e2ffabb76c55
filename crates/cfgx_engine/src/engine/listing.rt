//! The output of `parse`: the predicates of a condition, one on each line.

ghost use Rattle.std.specs.Prelude.{◌≡◌, ◌++◌, IfOk, OnOk};
ghost use Rattle.cfgx_engine.specs.Output.{text_line, lines};
ghost use Rattle.cfg_expr.specs.Predicate.{question_of};
ghost use Rattle.cfgx_grammar.specs.Spelling.{spelling};

use cfg_expr::Predicate;
use cfg_expr::expr::{Predicates, spell};
use cfg_expr::memory::SmallAllocator;
use std::alloc::{AllocError, Allocator};

/// Returns a line for each predicate.
pub(super) fn lines<A: SmallAllocator>(
    alloc: A,
    predicates: Predicates<'_>,
) -> Result<Vec<u8, A>, AllocError>
    ensures { IfOk result (λ printed. printed.items ≡ lines predicates.entry) }
{
    let mut printed = Vec::new(alloc);
    for predicate in predicates {
        push_line(predicate, &mut printed)?;
    }
    Ok(printed)
}

/// Pushes the line of a predicate. `spell` fails only if the vector is refused memory.
fn push_line<A: Allocator>(
    predicate: Predicate<'_>,
    printed: &mut Vec<u8, A>,
) -> Result<(), AllocError>
    ensures { OnOk result (printed.new.items
        ≡ printed.old.items ++ text_line (spelling (question_of predicate.entry))) }
{
    spell(&predicate, printed).map_err(|_| AllocError)?;
    printed.push(b'\n')?;
    Ok(())
}
