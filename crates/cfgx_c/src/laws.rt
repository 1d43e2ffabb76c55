//! Laws over the calls, for proofs of callers. Each speaks over the words of the calls' contracts,
//! so it holds of any two calls that meet them. Each function does nothing, and its caller knows
//! what it ensures.

ghost use Rattle.std.specs.Prelude.{◌≡◌, ◌≤◌, ◌+◌, ◌*◌, ℕ, Bool, List, Option, Some, IsSomeAnd};
ghost use Rattle.std.specs.Prelude.{length, map, slice_get, take};
ghost use Rattle.std.specs.List.{All};
ghost use Rattle.std.specs.Str.{IsUtf8};
ghost use Rattle.cfgx_syntax.specs.Stripping.{strip};
ghost use Rattle.cfgx_engine.specs.declared.resolve.facts.Otherwise.{Otherwise};
ghost use Rattle.cfgx_c.specs.Answers.{AnswersOfFacts};
ghost use Rattle.cfgx_c.specs.Audit.{ValuesBy};
ghost use Rattle.cfgx_c.specs.Faults.{HasFactFault, HasFault, HasNoUtf8, IsCondition, IsFact};
ghost use Rattle.cfgx_c.specs.Faults.{HasSpanIn, HasSpanInItem, Tells};
ghost use Rattle.cfgx_c.specs.Predicates.{HasSpansIn, ListsPredicates};
ghost use Rattle.cfgx_c.specs.Status.{done, faulty, faulty_fact, not_utf8};
ghost use Rattle.cfgx_c.specs.Steps.{Applies, AreCMiscounted, Compiles, HaveNoCValue};
ghost use Rattle.cfgx_c.specs.Tokens.{HasLexicalFault, IsNoUtf8, ListsTokens};
ghost use Rattle.cfgx_c.specs.Value.{HasOtherCount, HasValueByteOver, byte_of_value};
ghost use Rattle.cfgx_c.specs.declared.fault.CfgxFault.{CfgxFault};
ghost use Rattle.cfgx_c.specs.declared.predicates.CfgxPredicate.{CfgxPredicate};
ghost use Rattle.cfgx_c.specs.declared.steps.CfgxStep.{CfgxStep};
ghost use Rattle.cfgx_c.specs.declared.tokens.CfgxToken.{CfgxToken};

/// The steps that `cfgx_compile` wrote have, by `cfgx_apply`, the value that the condition has by
/// `cfgx_value`, over the same answers. Both buffers had room.
pub fn apply_after_compile_is_value()
    ensures { (text answers : List ℕ) (old_steps new_steps : List CfgxStep) (steps_needed : ℕ)
        (old_predicates new_predicates : List CfgxPredicate) (predicates_needed value : ℕ)
        → Compiles text old_steps new_steps steps_needed old_predicates new_predicates
        predicates_needed → steps_needed ≤ length old_steps
        → predicates_needed ≤ length old_predicates
        → HasValueByteOver (strip text) answers value
        → Applies (take steps_needed new_steps) answers value }
{}

/// A text has one list of predicates. So those that `cfgx_compile` writes are those of
/// `cfgx_predicates`.
pub fn predicates_are_listed_once()
    ensures { (text : List ℕ) (list others : List CfgxPredicate) → ListsPredicates text list
        → ListsPredicates text others → list ≡ others }
{}

/// The spans of each predicate lie in the text as it was passed: that of the whole, and those of
/// its key and its value, which are empty if there is none. Each start is at most the end, and this
/// at most the length.
pub fn predicates_lie_in_their_text()
    ensures { (text : List ℕ) (list : List CfgxPredicate) → ListsPredicates text list
        → All (λ predicate. HasSpansIn predicate text) list }
{}

/// Steps have at most one value over the same answers. Steps that have one are never said to have
/// none, nor are answers that are miscounted. So `cfgx_apply` has one status but for memory.
pub fn applies_in_one_way()
    ensures same { (steps : List CfgxStep) (answers : List ℕ) (one other : ℕ)
        → Applies steps answers one → Applies steps answers other → one ≡ other }
    ensures not_without { (steps : List CfgxStep) (answers : List ℕ) (value : ℕ)
        → Applies steps answers value → ¬ HaveNoCValue steps answers }
    ensures not_miscounted { (steps : List CfgxStep) (answers : List ℕ) (value : ℕ)
        → Applies steps answers value → ¬ AreCMiscounted steps answers }
    ensures either { (steps : List CfgxStep) (answers : List ℕ)
        → HaveNoCValue steps answers → ¬ AreCMiscounted steps answers }
{}

/// A condition has at most one value over the same answers, and then there are as many of these as
/// predicates.
pub fn has_value_in_one_way()
    ensures same { (text answers : List ℕ) (one other : ℕ) → HasValueByteOver text answers one
        → HasValueByteOver text answers other → one ≡ other }
    ensures not_miscounted { (text answers : List ℕ) (value : ℕ)
        → HasValueByteOver text answers value → ¬ HasOtherCount text answers }
{}

/// A text is a condition, has a fault, or is not UTF-8: no two of these. A fact is read or passed
/// over, has a fault, or is not UTF-8: no two of these either. So a call that reads conditions and
/// facts has one status but for memory.
pub fn reads_in_one_way()
    ensures no_fault { (text : List ℕ) (fault : CfgxFault) → IsCondition text
        → ¬ HasFault text fault }
    ensures utf8 { (text : List ℕ) (fault : CfgxFault) → IsUtf8 text → ¬ HasNoUtf8 text fault }
    ensures fault_utf8 { (text : List ℕ) (fault other : CfgxFault) → HasFault text fault
        → ¬ HasNoUtf8 text other }
    ensures no_fact_fault { (fact : List ℕ) (fault : CfgxFault) → IsFact fact
        → ¬ HasFactFault fact fault }
    ensures fact_fault_utf8 { (fact : List ℕ) (fault other : CfgxFault) → HasFactFault fact fault
        → ¬ HasNoUtf8 fact other }
{}

/// A text has one status of `cfgx_tokens`, one number of tokens and one fault, but for memory.
/// Memory is taken for a lexical fault alone: a text that has the status `DONE` has none, so it is
/// never out of memory. A text in UTF-8 never has a byte that is none.
pub fn lists_tokens_in_one_way()
    ensures same { (text : List ℕ) (one other : ℕ) (old new other_old other_new : List CfgxToken)
        (needed other_needed : ℕ) (fault other_fault : CfgxFault)
        → ListsTokens text one old new needed fault
        → ListsTokens text other other_old other_new other_needed other_fault
        → (one ≡ other) × (needed ≡ other_needed) × (fault ≡ other_fault) }
    ensures done { (text : List ℕ) (old new : List CfgxToken) (needed : ℕ) (fault : CfgxFault)
        → ListsTokens text done old new needed fault → ¬ HasLexicalFault (strip text) }
    ensures utf8 { (text : List ℕ) (fault : CfgxFault) (offset : ℕ) → IsUtf8 text
        → ¬ IsNoUtf8 text fault offset }
{}

/// The span of a fault lies in the text or the fact that has its number, as this was passed: the
/// sum of `offset` and `start` is at most that of `offset` and `end`, and this at most the length.
pub fn faults_lie_in_their_items()
    ensures of_text { (facts texts : List (List ℕ)) (status : ℕ) (fault : CfgxFault)
        → Tells facts texts status fault → status ≡ faulty → HasSpanInItem texts fault }
    ensures of_bytes { (facts texts : List (List ℕ)) (status : ℕ) (fault : CfgxFault)
        → Tells facts texts status fault → status ≡ not_utf8 → HasSpanInItem texts fault }
    ensures of_fact { (facts texts : List (List ℕ)) (status : ℕ) (fault : CfgxFault)
        → Tells facts texts status fault → status ≡ faulty_fact → HasSpanInItem facts fault }
    ensures of_tokens { (text : List ℕ) (status : ℕ) (old new : List CfgxToken) (needed : ℕ)
        (fault : CfgxFault) → ListsTokens text status old new needed fault → status ≡ faulty
        → HasSpanIn fault text }
    ensures of_tokens_bytes { (text : List ℕ) (fault : CfgxFault) (offset : ℕ)
        → IsNoUtf8 text fault offset → HasSpanIn fault text }
{}

/// An item of `cfgx_audit` is the value, by `cfgx_value`, of its condition over the answers that
/// `cfgx_answers` writes for the facts of its target. By `apply_after_compile_is_value` it is that
/// of `cfgx_apply` too.
pub fn audit_is_value_of_answers()
    ensures { (texts : List (List ℕ)) (targets : List (List (List ℕ))) (otherwise : Otherwise)
        (values answers : List (Option Bool)) (i j : ℕ) (text : List ℕ) (facts : List (List ℕ))
        → ValuesBy texts targets otherwise values → slice_get texts i ≡ Some text
        → slice_get targets j ≡ Some facts → AnswersOfFacts text facts otherwise answers
        → IsSomeAnd (slice_get values (i * length targets + j))
        (λ value. HasValueByteOver (strip text) (map byte_of_value answers)
        (byte_of_value value)) }
{}
