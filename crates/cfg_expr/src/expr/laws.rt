//! Laws on the order, the values, the steps and the located predicates of all conditions, for
//! proofs of callers. Each function does nothing, and its caller knows what it ensures.
ghost use Rattle.std.specs.Prelude.{◌≡◌, ℕ, ◌<◌, ◌≤◌, ◌+◌, ◌*◌, ◌∷◌, ◌++◌, Bool, List, Option};
ghost use Rattle.std.specs.Prelude.{Some, length, map};
ghost use Rattle.std.specs.List.{AllByRecursion};
ghost use Rattle.cfgx_syntax.specs.Kleene.{lane};
ghost use Rattle.cfgx_syntax.specs.Token.{Token};
ghost use Rattle.cfg_expr.specs.Filling.{KeepsKnown, three_valued};
ghost use Rattle.cfg_expr.specs.Fold.{answered, tree_fold, list_value, tree_value, values_of};
ghost use Rattle.cfg_expr.specs.Homomorphism.{IsHomomorphism, Passes, is_disjoint, lane_valued};
ghost use Rattle.cfg_expr.specs.Located.{AreLocated};
ghost use Rattle.cfgx_grammar.specs.Grammar.{HasTree, IsTree, commas_and_opens};
ghost use Rattle.cfgx_grammar.specs.Question.{Question};
ghost use Rattle.cfgx_grammar.specs.Tree.{ListFunction, Tree, Trees, arranged, asked, asked_each};
ghost use Rattle.cfg_expr.specs.Steps.{AreCounted, HasValue, steps_of};
ghost use Rattle.cfg_expr.specs.StepStack.{Algebra, Entry, JoinsInAnyOrder, after_steps, as_eval};
ghost use Rattle.cfg_expr.specs.StepStack.{as_written, folded};
ghost use Rattle.cfgx_parser.specs.declared.located.LocatedPredicate.{LocatedPredicate};
ghost use Rattle.cfg_expr.specs.declared.expr.steps.Step.{Step};

use super::Logic;

/// A function asks what its members ask, one after another as they are arranged.
pub fn asks_as_arranged()
    ensures { (function : ListFunction) (trees : Trees Question)
        → asked (Tree.list function trees) ≡ asked_each (arranged trees) }
{}

/// The value of a list is the `list_value` of the values of its arranged members: `all` joins them
/// from the last back by `and` to `top`, and `any` by `or` to `bottom`.
pub fn lists_are_joined_as_arranged<T: Logic>()
    ensures { (function : ListFunction) (trees : Trees T)
        → tree_value T.Logic (Tree.list function trees)
        ≡ list_value T.Logic function (values_of T.Logic (arranged trees)) }
{}

/// A tree with answers in place of its predicates asks these answers, in order, if there is one for
/// each predicate. So `tree_fold` is the value of a tree that asks them.
pub fn answered_trees_ask_their_answers<T: Logic>()
    ensures { (tree : Tree Question) (answers : List T) → length answers ≡ length (asked tree)
        → asked (answered T.Logic.top tree answers) ≡ answers }
{}

/// A map that takes the constants and operations of one logic to those of another takes the value
/// of a condition to its value over the mapped answers. The map needs to do so only for values that
/// pass `test`, if the answers pass it, and the operations keep it.
pub fn homomorphisms_keep_values<T: Logic, U: Logic>()
    ensures { (test : T → Bool) (to : T → U) → IsHomomorphism T.Logic U.Logic (Passes test) to
        → (tree : Tree Question) (answers : List T) → AllByRecursion (Passes test) answers
        → to (tree_fold T.Logic tree answers) ≡ tree_fold U.Logic tree (map to answers) }
{}

/// `lane i` is a homomorphism, for values of which no lane is both true and false.
pub fn lanes_are_homomorphisms()
    ensures { (i : ℕ) → i < 64
        → IsHomomorphism lane_valued three_valued (Passes is_disjoint) (lane i) }
{}

/// The steps of a condition have its value over answers to its predicates.
pub fn steps_have_the_value<T: Logic>()
    ensures value { (tree : Tree Question) (answers : List T)
        → length answers ≡ length (asked tree)
        → HasValue T.Logic (steps_of tree) answers (tree_fold T.Logic tree answers) }
    ensures counted { (tree : Tree Question) (answers : List T)
        → length answers ≡ length (asked tree) → AreCounted (steps_of tree) answers }
{}

/// A loop of a caller's own that reads the steps of a condition, from the last to the first with a
/// stack, leaves one value more on the stack. The values may be of any type: `algebra` says what is
/// pushed for an answer, for a literal, and for a function over the values of its members. When the
/// loop has read some of the steps, it has pushed no more values than it has read steps. So a stack
/// with room for one value for each step is never full before a push.
pub fn steps_are_read_with_a_stack<T: Logic, S>()
    ensures folded { (algebra : Algebra T S) (tree : Tree Question) (answers : List T)
        (stack : List S) → length answers ≡ length (asked tree)
        → after_steps algebra answers (steps_of tree) stack
        ≡ Some (folded algebra (answered T.Logic.top tree answers) ∷ stack) }
    ensures height { (algebra : Algebra T S) (tree : Tree Question) (answers : List T)
        (stack : List S) (before read : List Step) → length answers ≡ length (asked tree)
        → steps_of tree ≡ before ++ read
        → (left : List S) × (after_steps algebra answers read stack ≡ Some left)
        × (length left ≤ length read + length stack) }
{}

/// A loop that reads the steps of a condition, from the last to the first over any stack, pushes
/// the value of the condition, if it joins members in the order of `eval`. In a logic whose values
/// may be joined in any order, it may join members as they stand in the text.
pub fn steps_push_the_value<T: Logic>()
    ensures as_eval { (tree : Tree Question) (answers : List T) (stack : List (Entry T))
        → length answers ≡ length (asked tree)
        → (entry : Entry T) × (entry.value ≡ tree_fold T.Logic tree answers)
        × (after_steps (as_eval T.Logic) answers (steps_of tree) stack ≡ Some (entry ∷ stack)) }
    ensures as_written { JoinsInAnyOrder T.Logic.and → JoinsInAnyOrder T.Logic.or
        → (tree : Tree Question) (answers : List T) (stack : List T)
        → length answers ≡ length (asked tree)
        → after_steps (as_written T.Logic) answers (steps_of tree) stack
        ≡ Some (tree_fold T.Logic tree answers ∷ stack) }
{}

/// Steps have one value over the same answers.
pub fn steps_have_one_value<T: Logic>()
    ensures { (steps : List Step) (answers : List T) (value other : T)
        → HasValue T.Logic steps answers value → HasValue T.Logic steps answers other
        → value ≡ other }
{}

/// A condition has one step, and at most one more for each comma and each opening parenthesis among
/// its tokens. So a text with `n` steps has at least `2 * n - 1` bytes.
pub fn steps_are_few()
    ensures by_tokens { (tokens : List Token) (tree : Tree Question) → IsTree tokens tree
        → length (steps_of tree) ≤ 1 + commas_and_opens tokens }
    ensures twice { (text : List ℕ) (tree : Tree Question) → HasTree text tree
        → 2 * length (steps_of tree) ≤ 1 + length text }
    ensures by_bytes { (text : List ℕ) (tree : Tree Question) → HasTree text tree
        → length (steps_of tree) ≤ length text }
{}

/// A value that is known stays as it is when more answers become known: `later` has each answer
/// that `answers` knows.
pub fn known_values_stay()
    ensures { (tree : Tree Question) (answers later : List (Option Bool)) (value : Bool)
        → KeepsKnown answers later → tree_fold three_valued tree answers ≡ Some value
        → tree_fold three_valued tree later ≡ Some value }
{}

/// A text has one list of located predicates.
pub fn predicates_are_located_once()
    ensures { (text : List ℕ) (list others : List LocatedPredicate)
        → AreLocated text list → AreLocated text others → list ≡ others }
{}
