//! The predicates of a condition where they stand in its text.
ghost use Rattle.std.specs.Prelude.{◌≡◌, length};

use cfgx_parser::located::LocatedPredicate;
use cfgx_parser::nodes::ExprNode;
use std::fmt;
use std::marker::Model;

/// The predicates of a condition where they stand, in the order in which they are asked. They have
/// the spans of their keys and values, and `Predicates` has the texts.
#[derive(Drop)]
pub struct LocatedPredicates<'a> {
    pub(super) nodes: &'a [ExprNode],
    /// The places of the predicates that are left
    pub(super) places: &'a [usize],
}

impl<'a> Model for LocatedPredicates<'a> {
    ghost use Rattle.std.specs.Prelude.{List, ℕ};
    ghost use Rattle.cfgx_parser.specs.declared.located.LocatedPredicate.{LocatedPredicate};
    ghost use Rattle.cfgx_parser.specs.nodes.KeepsTree.{NamePredicates, predicates_at};

    ghost Value = { List LocatedPredicate };

    ghost view = { λ p. predicates_at p.nodes.now p.places.now };

    ghost invariant = { λ p. (text : List ℕ) × NamePredicates text p.nodes.now p.places.now };
}

impl LocatedPredicates<'_> {
    /// Returns the number of predicates that are left.
    pub fn left(&self) -> usize
        ensures { result ≡ length self.now }
    {
        self.places.len()
    }
}

/// Writes the name alone.
impl fmt::Debug for LocatedPredicates<'_> {
    fn fmt<W: fmt::Write>(&self, f: &mut fmt::Formatter<W>) -> fmt::Result {
        f.debug_struct("LocatedPredicates").finish_non_exhaustive()
    }
}

impl Iterator for LocatedPredicates<'_> {
    type Item = LocatedPredicate;

    ghost use Rattle.std.specs.Iterator.{YieldsFirst, item_count};

    ghost next_gives = { YieldsFirst (λ s. s) };

    ghost remaining = { item_count (λ s. s) };

    // Inlined, since `Predicates` yields each predicate by it.
    #[inline(always)]
    fn next(&mut self) -> Option<LocatedPredicate> {
        let (place, others) = self.places.split_first()?;
        self.places = others;
        match self.nodes.get(*place) {
            Some(ExprNode::Predicate(predicate)) => Some(*predicate),
            // By the invariant, a predicate stands at each place.
            _ => unreachable!(),
        }
    }
}
