//! Laws on what predicates ask, for proofs of callers. Each function does nothing, and its caller
//! knows what it ensures.
ghost use Rattle.std.specs.Prelude.{◌≡◌, ◌↔◌, IsTrue};
ghost use Rattle.cfgx_parser.specs.Asked.{asked_number, kind_number};
ghost use Rattle.cfgx_parser.specs.contracts.asked.AskedPartialEq.TheImpl as asked;
ghost use Rattle.cfgx_parser.specs.contracts.asked.AskedTargetPartialEq.TheImpl as asked_target;
ghost use Rattle.cfgx_parser.specs.declared.asked.Asked.{Asked};
ghost use Rattle.cfgx_parser.specs.declared.asked.AskedTarget.{AskedTarget};

/// The number of the kind and the number, if there is one, tell what a predicate asks.
pub fn numbers_tell_what_is_asked()
    ensures { (one : Asked) (other : Asked) → kind_number one ≡ kind_number other
        → asked_number one ≡ asked_number other → one ≡ other }
{}

/// By `==`, what two predicates ask is equal exactly if it is the same.
pub fn equal_asked_are_the_same()
    ensures of_target { (one : AskedTarget) (other : AskedTarget)
        → IsTrue ((asked_target.ghosts).eq one other) ↔ (one ≡ other) }
    ensures of_any { (one : Asked) (other : Asked)
        → IsTrue ((asked.ghosts).eq one other) ↔ (one ≡ other) }
{}
