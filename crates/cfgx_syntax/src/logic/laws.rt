//! What holds of all answers in 64 lanes: a caller of a function knows what it ensures.
ghost use Rattle.std.specs.Prelude.{IsTrue};
ghost use Rattle.std.specs.List.{AllByRecursion};
ghost use Rattle.cfgx_syntax.specs.Kleene.{IsDisjoint};

use super::Kleene64;

/// Whether no lane of any of the answers is both true and false, which is so of all answers.
pub fn are_disjoint(answers: &[Kleene64]) -> bool
    ensures holds { IsTrue result }
    ensures disjoint { AllByRecursion IsDisjoint answers.now }
{
    answers.iter().all(Kleene64::is_disjoint)
}
