//! Conditions, and the predicates that they ask.
ghost use Rattle.std.specs.Prelude.{◌≡◌, ◌≤◌, length, IfOk, IsOk};
ghost use Rattle.cfgx_syntax.specs.Stripping.{strip};
ghost use Rattle.cfg_expr.specs.Given.{AreAnswersTo};
ghost use Rattle.cfgx_grammar.specs.Answer.{Answers};
ghost use Rattle.cfg_expr.specs.Deciding.{AreFillings, Decides, IsExactOverAll};
ghost use Rattle.cfg_expr.specs.Evaluation.{AsksInOrder, EvaluatesTo, MayEvaluate};
ghost use Rattle.cfg_expr.specs.Evaluation.{IsByLaneOverAll, IsValueInLanes};
ghost use Rattle.cfg_expr.specs.Steps.{AreSteps};

mod asked_texts;
mod condition;
mod evaluating;
mod filling;
pub mod laws;
mod located;
mod matcher;
mod predicates;
mod spelling;
mod steps;

use crate::error::Failure;
use crate::memory::SmallAllocator;
pub use asked_texts::AskedTexts;
pub use cfgx_parser::asked::{Asked, AskedTarget};
pub use cfgx_parser::function::Func;
pub use cfgx_parser::located::{LocatedPredicate, Span};
use cfgx_parser::nodes::ExprNode;
use cfgx_parser::parser::Parser;
use cfgx_syntax::lexer::Lexer;
use cfgx_syntax::logic::Kleene64;
pub use cfgx_syntax::logic::Logic;
pub use cfgx_syntax::{lexer, logic, stripping};
pub use condition::{Condition, ConditionReader};
pub use located::LocatedPredicates;
pub use matcher::TargetMatcher;
pub use predicates::{Predicate, Predicates, TargetPredicate};
use smallvec::SmallVec;
pub use spelling::spell;
use std::alloc::{AllocError, Allocator, Global};
use std::fmt;
use std::marker::Model;
pub use steps::{FromStep, Step, StepsError, eval_steps};

/// A parsed condition. Contracts see it as its stripped text.
#[derive(Drop)]
pub struct Expression<A: Allocator = Global> {
    /// The stripped text; the name is that of `cfg-expr`
    original: String<A>,
    /// In source order
    nodes: SmallVec<ExprNode, 5, A>,
    /// The indices of the predicates among the nodes, in the order in which they are asked
    places: SmallVec<usize, 4, A>,
}

impl<A: Allocator> Model for Expression<A> {
    ghost use Rattle.std.specs.Prelude.{List, ℕ, string_bytes};
    ghost use Rattle.cfgx_parser.specs.nodes.KeepsTree.{KeepsOneTree};

    ghost Value = { List ℕ };

    ghost view = { λ e. string_bytes e.original };

    ghost invariant = { λ e. KeepsOneTree (string_bytes e.original) e.nodes.items e.places.items };
}

/// What `decide` found.
#[derive_where(Debug)]
#[derive(Drop)]
pub enum Decision<A: Allocator = Global> {
    /// The value, whatever the unknown answers are
    Known(bool),
    /// The value depends on the unknown answers, as two fillings show. A filling has one truth
    /// value for each answer, in order. For a known answer it is that answer
    Unknown {
        /// A filling with which the condition is true
        if_true: Vec<bool, A>,
        /// A filling with which the condition is false
        if_false: Vec<bool, A>,
    },
}

impl<A: Allocator> Expression<A> {
    /// Returns the text without an outer `cfg( )`. Spans are ranges of its bytes.
    pub fn original(&self) -> &str
        ensures { result.now ≡ self.now }
    {
        self.original.as_str()
    }
}

/// Writes the stripped text.
impl<A: Allocator> fmt::Display for Expression<A> {
    ghost use Rattle.std.specs.Prelude.{Some};

    ghost output = { λ text. Some text };

    fn fmt<W: fmt::Write>(&self, f: &mut fmt::Formatter<W>) -> fmt::Result {
        f.write_str(self.original())
    }
}

/// Two expressions are equal if their stripped texts are equal: `key` and `key,` are not.
impl<A: Allocator> PartialEq for Expression<A> {
    ghost use Rattle.std.specs.Prelude.{nat_eq, ◌↔◌, IsTrue};
    ghost use Rattle.std.specs.Cmp.{partial_equiv_from_equiv};
    ghost use Rattle.std.specs.Cmp.Lexicographic.{nat_list_eq_equiv, pointwise};

    ghost eq = { pointwise nat_eq };

    ghost laws = { partial_equiv_from_equiv nat_list_eq_equiv };

    fn eq(&self, other: &Self) -> bool
        ensures { IsTrue result ↔ (self.now ≡ other.now) }
    {
        self.original() == other.original()
    }
}

/// Writes the `Debug` form of the stripped text in parentheses.
impl<A: Allocator> fmt::Debug for Expression<A> {
    fn fmt<W: fmt::Write>(&self, f: &mut fmt::Formatter<W>) -> fmt::Result {
        write!(f, "Expression({:?})", self.original())
    }
}

impl<A: SmallAllocator> Expression<A> {
    /// Borrows the expression as a condition. Takes no memory.
    pub fn condition(&self) -> Condition<'_>
        ensures { result ≡ self.now }
    {
        Condition {
            original: self.original.as_str(),
            nodes: self.nodes.as_slice(),
            places: self.places.as_slice(),
        }
    }

    /// Parses a text, which may stand in `cfg( )`.
    ///
    /// # Errors
    ///
    /// `Failure::Parse`: the first fault of the text, whose span lies in the text without an outer
    /// `cfg( )`. `Failure::Memory`: `alloc` refused memory.
    #[inline]
    pub fn parse(alloc: A, text: &str) -> Result<Self, Failure<A>>
        ensures { Answers (strip text.now) result }
    {
        let lexer = Lexer::new(alloc, text);
        let original = lexer.original();
        let mut parser = Parser::new(alloc, original.len());
        // The failure of a faulty text holds a copy of the text, which is what `alloc` is for.
        parser.read_all(alloc, lexer)?;
        let original = String::from_str(alloc, original)?;
        let (nodes, places) = parser.into_parts();
        Ok(Expression {
            original,
            nodes,
            places,
        })
    }

    /// Does what `parse` does, under the name of Rust's trait, which has no allocator to pass.
    ///
    /// # Errors
    ///
    /// Those of `parse`.
    pub fn from_str(alloc: A, text: &str) -> Result<Self, Failure<A>>
        ensures { Answers (strip text.now) result }
    {
        Self::parse(alloc, text)
    }

    /// Copies the expression.
    ///
    /// # Errors
    ///
    /// `AllocError`: `alloc` refused memory.
    #[inline]
    pub fn try_clone(&self, alloc: A) -> Result<Self, AllocError>
        ensures { IfOk result (λ copy. copy ≡ self.now) }
    {
        Ok(Expression {
            original: String::from_str(alloc, self.original.as_str())?,
            nodes: SmallVec::from_slice(alloc, self.nodes.as_slice())?,
            places: SmallVec::from_slice(alloc, self.places.as_slice())?,
        })
    }

    /// Returns the predicates in the order in which they are asked, which is that of `cfg-expr`:
    /// in each list first those of its functions, one function after another, and then its own.
    /// So `all(a, any(b, not(c)), d)` asks c, b, a and d. Takes no memory.
    pub fn predicates(&self) -> Predicates<'_>
        ensures { AsksInOrder self.now result }
    {
        self.condition().predicates()
    }

    /// Evaluates the condition over what `ep` answers to its predicates.
    ///
    /// `ep` is asked each occurrence of a predicate once, in the order of `predicates`, before any
    /// answers are joined. The members of `all` are joined by `and` to `top`, and those of `any` by
    /// `or` to `bottom`, in the reverse of this order: from the last back, first the predicates and
    /// literals of the list, and then its functions.
    ///
    /// The contract of `ep` must allow a call with each predicate, in every state in which earlier
    /// calls leave `ep`.
    ///
    /// # Errors
    ///
    /// `AllocError`: `alloc` refused memory, which happens only for a text of more than 66 bytes.
    /// `ep` is as it was.
    pub fn eval<EP, T>(&self, alloc: A, ep: &mut EP) -> Result<T, AllocError>
    where
        EP: FnMut(&Predicate<'_>) -> T,
        T: Logic,
        requires { MayEvaluate EP.FnMut self.now ep.old }
        ensures { EvaluatesTo T.Logic EP.FnMut self.now ep.old ep.new result }
    {
        self.condition().eval(alloc, ep)
    }

    /// Decides the condition over answers of which some may be unknown: returns its value, or two
    /// fillings of the unknown answers, one with which it is true and one with which it is false.
    ///
    /// `answers` has one answer for each occurrence of a predicate, in the order of `predicates`.
    /// An unknown one is `None`. The value is known exactly if every filling leads to it.
    ///
    /// # Errors
    ///
    /// `AllocError`: `alloc` refused memory.
    pub fn decide(&self, alloc: A, answers: &[Option<bool>]) -> Result<Decision<A>, AllocError>
        requires { AreAnswersTo answers.now self.now }
        // This holds whatever the call returns.
        ensures exact { IsExactOverAll self.now }
        ensures decision { IfOk result (Decides self.now answers.now) }
    {
        let mut decision = Decision::Known(false);
        self.condition().decide(alloc, answers, &mut decision)?;
        Ok(decision)
    }

    /// Returns the two fillings of `decide`, first the one with which the condition is true, or
    /// `None` if the value is known.
    ///
    /// # Errors
    ///
    /// `AllocError`: `alloc` refused memory.
    pub fn polar_fillings(
        &self,
        alloc: A,
        answers: &[Option<bool>],
    ) -> Result<Option<(Vec<bool, A>, Vec<bool, A>)>, AllocError>
        requires { AreAnswersTo answers.now self.now }
        // This holds whatever the call returns.
        ensures exact { IsExactOverAll self.now }
        ensures fillings { IfOk result (AreFillings self.now answers.now) }
    {
        self.condition().polar_fillings(alloc, answers)
    }

    /// Evaluates the condition in 64 lanes at once, such as those of `TargetPredicate::lanes`.
    ///
    /// `answers` has one answer for each occurrence of a predicate, in the order of `predicates`.
    /// They are joined as in `eval`, so each lane of the value is the value over this lane of the
    /// answers.
    ///
    /// # Errors
    ///
    /// `AllocError`: `alloc` refused memory, which happens only for a text of more than 66 bytes.
    pub fn eval_lanes(&self, alloc: A, answers: &[Kleene64]) -> Result<Kleene64, AllocError>
        requires { AreAnswersTo answers.now self.now }
        // This holds whatever the call returns.
        ensures lanes { IsByLaneOverAll self.now }
        ensures value { IfOk result (IsValueInLanes self.now answers.now) }
        ensures short { length self.now ≤ 66 → IsOk result }
    {
        self.condition().eval_lanes(alloc, answers)
    }

    /// Compiles the condition to steps. Read from the last to the first with a stack, they give
    /// what `eval` gives. `eval_steps` reads them so, and callers may write this loop in other
    /// languages. It may join the members of a function in any order if `and` and `or` are
    /// commutative and associative. For any other logic it has to keep the order of `eval`.
    ///
    /// A predicate, a literal and a function are one step each, as they stand in the text: the step
    /// of a function comes before those of its members. A step that asks has the number of its
    /// predicate in the order of `predicates`.
    ///
    /// # Errors
    ///
    /// `AllocError`: `alloc` refused memory.
    pub fn steps(&self, alloc: A) -> Result<Vec<Step, A>, AllocError>
        ensures { IfOk result (λ steps. AreSteps self.now steps.items) }
    {
        self.condition().steps(alloc)
    }
}
