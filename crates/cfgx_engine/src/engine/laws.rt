//! Laws on the output of a request, for the proofs of callers. Each function has the law as its
//! clause and does nothing.
ghost use Rattle.std.specs.List.{AllByRecursion};
ghost use Rattle.std.specs.Prelude.{◌≡◌, List, ℕ};
ghost use Rattle.std.specs.Str.{IsUtf8};
ghost use Rattle.cfgx_engine.specs.Output.{Output};
ghost use Rattle.cfgx_engine.specs.Prints.{Prints};
ghost use Rattle.cfgx_engine.specs.Request.{Request, request_of};

/// A request has at most one output on an input. So the words and the input alone decide what is
/// written.
pub fn has_one_output()
    ensures { (request : Request) (input : List ℕ) (one other : Output)
        → Prints request input one → Prints request input other → one ≡ other }
{}

/// A request of words that are UTF-8 has an output on each input.
pub fn has_an_output()
    ensures { (words : List (List ℕ)) (input : List ℕ) → AllByRecursion IsUtf8 words
        → (output : Output) × Prints (request_of words) input output }
{}
