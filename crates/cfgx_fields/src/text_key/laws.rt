//! A law on the keys whose value is any text, for proofs of callers. The function does nothing, and
//! its caller knows what it ensures.
ghost use Rattle.std.specs.Prelude.{◌≡◌, ◌↔◌, IsTrue};
ghost use Rattle.cfgx_fields.specs.contracts.text_key.TextKeyPartialEq.TheImpl as text_key;
ghost use Rattle.cfgx_fields.specs.declared.text_key.TextKey.{TextKey};

/// By `==`, two keys are equal exactly if they are the same.
pub fn equal_keys_are_the_same()
    ensures { (one : TextKey) (other : TextKey)
        → IsTrue ((text_key.ghosts).eq one other) ↔ (one ≡ other) }
{}
