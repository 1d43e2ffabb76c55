//! Laws on the tokens of all texts, for proofs of callers. Each function does nothing, and its
//! caller knows what it ensures.
ghost use Rattle.std.specs.Prelude.{◌≡◌, ℕ, List, Some};
ghost use Rattle.cfgx_syntax.specs.Error.{Fault};
ghost use Rattle.cfgx_syntax.specs.Items.{AreItems, Ending, EndsAs, Item, LieInOrder, lexical};
ghost use Rattle.cfgx_syntax.specs.Spans.{LiesIn};

/// The span of each token lies in the text, from its start to its end, and behind the spans of all
/// tokens before it.
pub fn tokens_lie_in_order()
    ensures { (text : List ℕ) (items : List Item) (ending : Ending) → AreItems text items ending
        → LieInOrder text items }
{}

/// The span of the fault at which the tokens end lies in the text, from its start to its end.
pub fn lexical_faults_lie_in_their_text()
    ensures { (text : List ℕ) (place : ℕ) (ending : Ending) (fault : Fault)
        → EndsAs text place ending → lexical text ending ≡ Some fault
        → LiesIn text fault.start fault.end }
{}
