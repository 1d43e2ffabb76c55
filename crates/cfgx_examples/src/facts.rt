//! Tests of facts: which texts are facts, and what they answer.
use cfg_expr::Expression;
use cfg_expr::error::Failure;
use cfgx_engine::resolve::{Facts, FactsError, Otherwise};
use cfgx_testing::answers::answer_of;
use cfgx_testing::checking::is_ok_true;
use cfgx_testing::faults::fault_text;
use std::alloc::{AllocError, Global};

/// The lines that `rustc --print cfg --target x86_64-unknown-linux-gnu` of 1.95 prints. A semicolon
/// follows each.
const LINUX: &str = "debug_assertions;panic=\"unwind\";target_abi=\"\";target_arch=\"x86_64\";\
    target_endian=\"little\";target_env=\"gnu\";target_family=\"unix\";target_feature=\"fxsr\";\
    target_feature=\"sse\";target_feature=\"sse2\";target_has_atomic=\"16\";\
    target_has_atomic=\"32\";target_has_atomic=\"64\";target_has_atomic=\"8\";\
    target_has_atomic=\"ptr\";target_os=\"linux\";target_pointer_width=\"64\";\
    target_vendor=\"unknown\";unix;";

/// A row has a constructor, the facts that follow those of `LINUX`, and `read`, or the index and
/// the fault of the first faulty fact. Semicolons separate the facts, of which `LINUX` has 19.
pub const READ: &str = r#"
flags | test | read
rustc | test | read
// A fact may ask anything, or nothing, and may stand in `cfg( )`.
flags | any(a, not(b), true);?all();?cfg(test) | read
rustc | any(a, not(b), true);?all();?cfg(test) | read
// What no condition can ask is passed over by one of the constructors: a key without its value, and
// an unknown key `target_..`. A nightly prints such lines.
flags | target_thread_local | 19: U[`= "<target_cfg_value>"`] at 0..19
flags | test;?target_has_atomic | 20: U[`= "<target_cfg_value>"`] at 0..17
flags | feature | 19: U[`= "<feature_name>"`] at 0..7
flags | panic | 19: U[`= "<panic_strategy>"`] at 0..5
flags | target_x="a" | 19: U[`target_arch` `target_feature` `target_os` `target_family` \
`target_env` `target_endian` `target_has_atomic` `target_pointer_width` `target_vendor`] at 0..8
rustc | target_thread_local | read
rustc | test;?target_has_atomic | read
rustc | feature;panic;target_;target_os | read
rustc | target_x="a";target_has_atomic_load_store="8";target_object_format = "elf" | read
rustc | ?target_x="" ;cfg( target_thread_local );?cfg(target_x="a") | read
// No other faulty fact is.
rustc | target_feature="" | 19: U[`<feature>`] at 16..16
rustc | target_has_atomic="x" | 19: InvalidHasAtomic at 19..20
rustc | target_endian="x" | 19: InvalidInteger at 15..16
rustc | target_pointer_width="256" | 19: InvalidInteger at 22..25
rustc | test;?unix = "x" | 20: U[] at 8..9
rustc | target_thread_local, | 19: U[`= "<target_cfg_value>"`] at 0..19
rustc | all(target_thread_local) | 19: U[`= "<target_cfg_value>"`] at 4..23
rustc | target_x= | 19: U[`"<value>"`] at 9..9
rustc | target_x test | 19: U[`=` `,` `)`] at 9..13
rustc | target_x="a" test | 19: U[`,` `)`] at 13..17
rustc | target_x="a | 19: UnclosedQuotes at 9..11
rustc | target_x. | 19: U[`<key>` `all` `any` `not`] at 8..9
rustc | all | 19: U[`(`] at 0..3
rustc | ? | 19: Empty at 0..0
rustc | ??target_x | 19: U[`<key>` `all` `any` `not`] at 0..1
// The first one counts.
flags | a b;target_x;c d e | 19: U[`=` `,` `)`] at 2..3
rustc | test;target_x;a b;c d e | 21: U[`=` `,` `)`] at 2..3
"#;

/// A row has facts that follow those of `LINUX`, a text, and what the facts answer to its
/// predicates, in order: where a predicate that no fact names is false, and where it may be
/// unknown.
/// An answer is `1` for true, `0` for false and `?` for unknown.
pub const ANSWERED: &str = r#"
test | all(unix, windows, target_os = "linux", target_os = "macos") | 1010 | 1010
test | all(test, debug_assertions, proc_macro, target_feature = "sse2") | 1101 | 11?1
test | all(feature = "x", key, key = "x", target_feature = "avx") | 0000 | ????
test | all(panic = "unwind", panic = "abort", target_abi = "", target_abi = "x") | 1010 | 1010
test | all(target_has_atomic = "8", target_has_atomic = "128") | 10 | 10
test | all(target_pointer_width = "064", target_pointer_width = "32") | 10 | 10
// Unknown facts. True wins, whatever their order.
?test;?windows;?key | all(test, windows, key, proc_macro) | ???0 | ????
?unix;?cfg(any(a, unix)) | all(unix, a) | 1? | 1?
?a;a;b;?b | all(a, b) | 11 | 11
// A fact names each of its predicates.
not(a);all(b, any(c, not(d)));?any(e, f) | all(a, b, c, d, e, f, g) | 1111??0 | 1111???
target_family="wasm" | all(unix, windows, target_family = "wasm") | 101 | 101
// One that asks nothing names nothing, nor does one that is passed over.
true;any();?false | all(a, test) | 00 | ??
target_x;target_x="a";?feature | all(a, feature = "") | 00 | ??
"#;

/// A call that reads facts.
#[derive(Clone, Copy)]
enum Constructor {
    FromFlags,
    FromRustc,
}

// Returns the constructor that rows write as `name`.
fn constructor_named(name: &str) -> Option<Constructor> {
    match name {
        "flags" => Some(Constructor::FromFlags),
        "rustc" => Some(Constructor::FromRustc),
        _ => None,
    }
}

// Returns the facts of `LINUX` and of `facts`.
fn read_facts(alloc: Global, constructor: Constructor, facts: &str) -> Result<Facts, FactsError> {
    let lines = match format!(in alloc; "{LINUX}{facts}") {
        Ok(lines) => lines,
        Err(error) => return Err(FactsError::Memory(error)),
    };
    let lines: Vec<&str> = match lines.as_str().split(';').collect(alloc) {
        Ok(lines) => lines,
        Err(_) => return Err(FactsError::Memory(AllocError)),
    };
    match constructor {
        Constructor::FromFlags => Facts::from_flags(alloc, lines.as_slice()),
        Constructor::FromRustc => Facts::from_rustc(alloc, lines.as_slice()),
    }
}

// Returns `read`, or the index and the fault, as rows write them.
fn outcome_text(alloc: Global, outcome: &Result<Facts, FactsError>) -> Result<String, AllocError> {
    match outcome {
        Ok(_) => String::from_str(alloc, "read"),
        Err(FactsError::Faulty { index, error }) => {
            let fault = fault_text(alloc, error)?;
            format!(in alloc; "{index}: {fault}")
        }
        Err(FactsError::Memory(_)) => String::from_str(alloc, "out of memory"),
    }
}

fn outcome_is(
    alloc: Global,
    constructor: Constructor,
    facts: &str,
    wanted: &str,
) -> Result<bool, AllocError> {
    let outcome = read_facts(alloc, constructor, facts);
    Ok(outcome_text(alloc, &outcome)?.as_str() == wanted)
}

/// Returns whether the facts of `row` have the outcome of `row`.
pub fn outcome_is_right(alloc: Global, row: &[String]) -> bool {
    let [constructor, facts, wanted] = row else {
        return false;
    };
    match constructor_named(constructor.as_str()) {
        Some(constructor) => {
            is_ok_true(outcome_is(alloc, constructor, facts.as_str(), wanted.as_str()))
        }
        None => false,
    }
}

// Returns whether the answers of `facts` to the predicates of the condition are those of the
// digits.
fn answers_match(
    facts: &Facts,
    condition: &Expression,
    otherwise: Otherwise,
    digits: &str,
) -> bool {
    let mut left = digits.as_bytes();
    for predicate in condition.predicates() {
        let Some((digit, others)) = left.split_first() else {
            return false;
        };
        if Some(facts.answer(&predicate, otherwise)) != answer_of(*digit) {
            return false;
        }
        left = others;
    }
    left.is_empty()
}

fn both_match(
    alloc: Global,
    facts: &Facts,
    text: &str,
    digits: [&str; 2],
) -> Result<bool, Failure> {
    let condition = Expression::parse(alloc, text)?;
    let [if_false, if_unknown] = digits;
    Ok(
        answers_match(facts, &condition, Otherwise::False, if_false)
            && answers_match(facts, &condition, Otherwise::Unknown, if_unknown),
    )
}

/// Returns whether the facts of `row` give the answers of `row`.
pub fn answers_are_right(alloc: Global, row: &[String]) -> bool {
    let [facts, text, if_false, if_unknown] = row else {
        return false;
    };
    match read_facts(alloc, Constructor::FromRustc, facts.as_str()) {
        Ok(facts) => is_ok_true(both_match(
            alloc,
            &facts,
            text.as_str(),
            [if_false.as_str(), if_unknown.as_str()],
        )),
        Err(_) => false,
    }
}
