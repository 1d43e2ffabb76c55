//! Laws on the first faults of all texts, for proofs of callers. Each function does nothing, and
//! its caller knows what it ensures.
ghost use Rattle.std.specs.Prelude.{ℕ, List};
ghost use Rattle.cfgx_grammar.specs.FirstFault.{HasFirstFault};
ghost use Rattle.cfgx_syntax.specs.Error.{Fault};
ghost use Rattle.cfgx_syntax.specs.Spans.{LiesIn};
ghost use Rattle.cfgx_syntax.specs.Terms.{HasNumberedTerms};

/// The span of the first fault of a text lies in the text: its start is at most its end, and its
/// end at most the length of the text. The fault that `parse` returns is the first one of the
/// stripped text: `has` of its `ReadsAs` says so.
pub fn faults_lie_in_their_text()
    ensures { (text : List ℕ) (fault : Fault) → HasFirstFault text fault
        → LiesIn text fault.start fault.end }
{}

/// If the first fault of a text is that a term was not expected, the list of the terms that were
/// expected has a number above 0.
pub fn expected_terms_have_a_number()
    ensures { (text : List ℕ) (fault : Fault) → HasFirstFault text fault
        → HasNumberedTerms fault.cause }
{}
