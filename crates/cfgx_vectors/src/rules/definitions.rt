//! The definitions of tokens, on texts whose tokens are known from outside.
ghost use Rattle.std.specs.Prelude.{◌≡◌, [], ◌∷◌, Some, None, codes};
ghost use Rattle.cfgx_syntax.specs.Error.{Cause};
ghost use Rattle.cfgx_syntax.specs.Items.{AreItems, Ending, EndsAs, Stands, lexical, expects_token};
ghost use Rattle.cfgx_syntax.specs.Stripping.{strip};
ghost use Rattle.cfgx_syntax.specs.Token as spelled;

// `cfg( )` is stripped once, and only if the text ends with it.
pub(crate) fn stripped()
    ensures wrapped { strip (codes "cfg(key)") ≡ codes "key" }
    ensures empty { strip (codes "cfg()") ≡ [] }
    ensures once { strip (codes "cfg(cfg(a))") ≡ codes "cfg(a)" }
    ensures with_space { strip (codes "cfg(a) ") ≡ codes "cfg(a) " }
    ensures half { strip (codes "cfg(key") ≡ codes "cfg(key" }
{}

// The token lists of texts. In `a 8 b` one token stands before the `8`, where no token starts.
// U+00A0, whose bytes are c2 a0, is white space.
pub(crate) fn listed()
    ensures stuck { AreItems (codes "a 8 b")
        (record { token = spelled.Token.key (codes "a"); start = 0; end = 1 } ∷ [])
        (Ending.no_token 2) }
    ensures unclosed { AreItems (codes "a \"bc")
        (record { token = spelled.Token.key (codes "a"); start = 0; end = 1 } ∷ [])
        (Ending.unclosed_quotes 2) }
    ensures empty_value { AreItems (codes "=\"\"")
        (record { token = spelled.Token.equals; start = 0; end = 1 }
        ∷ record { token = spelled.Token.value []; start = 1; end = 3 } ∷ [])
        Ending.blank }
    ensures wide_space { AreItems (194 ∷ 160 ∷ codes "any")
        (record { token = spelled.Token.any; start = 2; end = 5 } ∷ [])
        Ending.blank }
{}

// The lexical faults of texts, with their spans.
pub(crate) fn refused()
    ensures stuck { lexical (codes "a 8 b") (Ending.no_token 2)
        ≡ Some (record { cause = expects_token; start = 2; end = 3 }) }
    ensures unclosed { lexical (codes "a \"bc") (Ending.unclosed_quotes 2)
        ≡ Some (record { cause = Cause.unclosed_quotes; start = 2; end = 5 }) }
    ensures blank { lexical (codes "a") Ending.blank ≡ None }
{}

// Wrong items: a part of a word, the name of a function as a key, a value without its last quote, a
// value with a quote inside, and a value without its quotes. Wrong endings: a token where none may
// start, a value as an unclosed quote, and white space before a token.
pub(crate) fn excluded()
    ensures short { Stands (codes "ab") 0
        (record { token = spelled.Token.key (codes "a"); start = 0; end = 1 }) → ⊥ }
    ensures function { Stands (codes "all") 0
        (record { token = spelled.Token.key (codes "all"); start = 0; end = 3 }) → ⊥ }
    ensures unclosed { Stands (codes "\"a") 0
        (record { token = spelled.Token.value (codes "a"); start = 0; end = 2 }) → ⊥ }
    ensures past { Stands (codes "\"a\"b\"") 0
        (record { token = spelled.Token.value (codes "a\"b"); start = 0; end = 5 }) → ⊥ }
    ensures bare { Stands (codes "\"a\"") 0
        (record { token = spelled.Token.value (codes "a"); start = 1; end = 2 }) → ⊥ }
    ensures token { EndsAs (codes "=") 0 (Ending.no_token 0) → ⊥ }
    ensures closed { EndsAs (codes "\"\"") 0 (Ending.unclosed_quotes 0) → ⊥ }
    ensures not_blank { EndsAs (codes " a") 0 Ending.blank → ⊥ }
{}
