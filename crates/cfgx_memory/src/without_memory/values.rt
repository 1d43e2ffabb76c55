//! Functions, byte orders, widths, reasons, tokens, verdicts, logics, streams, the version, and
//! named values.
use super::faults::{compares_width_errors, lexes, prints_width_error};
use super::is_ordered;
use super::logics::logic_is_right;
use super::named::named_values_are_right;
use crate::in_turn::facts::name_a;
use cfg_expr::TargetPredicate;
use cfg_expr::error::Reason;
use cfg_expr::expr::Func;
use cfg_expr::expr::lexer::Token;
use cfg_expr::memory::SmallAllocator;
use cfg_expr::targets::{Abi, Endian, HasAtomic, Os, rustc_version};
use cfgx_engine::engine::Counted;
use cfgx_engine::resolve::{Facts, Verdict};
use cfgx_testing::checking::{is_ok_true, prints, value_equals};
use cfgx_testing::heap::Heap;
use cfgx_testing::refusing::EVERY;
use cfgx_testing::streams::{ALL, Pieces};
use std::alloc::Global;
use std::str::FromStr;

/// The width of eight bits.
pub(super) const EIGHT: HasAtomic = HasAtomic::IntegerSize(8);

// Functions in order: `not`, and then `all` and `any`, each by the number of its members.
const FUNCTIONS: [Func; 6] = [
    Func::Not,
    Func::All(0),
    Func::All(2),
    Func::All(10),
    Func::Any(0),
    Func::Any(1),
];

// Returns whether `value` compares with each of the values as `index` does with the index of that
// value.
fn compares_by_index<T: Ord>(values: &[T], index: usize, value: &T) -> bool {
    for (other_index, other) in values.iter().enumerate() {
        let order = index.cmp(&other_index);
        let is_equal = value == other;
        if is_equal != order.is_eq()
            || value.cmp(other) != order
            || value.partial_cmp(other) != Some(order)
        {
            return false;
        }
    }
    true
}

// Returns whether the values are in strictly increasing order.
fn are_increasing<T: Ord>(values: &[T]) -> bool {
    for (index, value) in values.iter().enumerate() {
        if !compares_by_index(values, index, value) {
            return false;
        }
    }
    true
}

// Returns whether byte orders are read from their names, and from no other text.
fn reads_byte_orders() -> bool {
    let other = Err(Reason::Unexpected(&["big", "little"]));
    Endian::from_str("big") == Ok(Endian::big)
        && Endian::from_str("little") == Ok(Endian::little)
        && Endian::from_str("Big") == other
        && Endian::from_str("") == other
}

// Returns whether the text is read as `width`.
fn reads_width<A: SmallAllocator>(alloc: A, text: &str, width: HasAtomic) -> bool {
    is_ok_true(value_equals(HasAtomic::read(alloc, text), &width))
}

fn prints_widths(global: Global) -> bool {
    prints(global, &EIGHT, "8") && prints(global, &HasAtomic::Pointer, "ptr")
}

// Returns whether reasons are equal exactly if they are the same, and a reason prints its message.
fn compares_reasons(global: Global) -> bool {
    let reason = Reason::InvalidNot(2);
    reason == Reason::InvalidNot(2)
        && reason != Reason::InvalidNot(3)
        && reason != Reason::Empty
        && Reason::Unexpected(&["="]) != Reason::Unexpected(&["(", "="])
        && prints(global, &reason, "not() takes 1 predicate, found 2")
}

// Returns whether tokens are equal exactly if they are the same, and a token prints its variant.
fn compares_tokens(global: Global) -> bool {
    Token::Key("a") == Token::Key("a")
        && Token::Key("a") != Token::Value("a")
        && Token::Any != Token::All
        && prints(global, &Token::OpenParen, "OpenParen")
}

// Returns whether predicates are equal exactly if they have the same kind and the same text.
fn compares_predicates<A: SmallAllocator>() -> bool {
    let abi = TargetPredicate::<A>::Abi(Abi::sim());
    let same = TargetPredicate::Abi(Abi::new_const("sim"));
    let os = TargetPredicate::Os(Os::new_const("sim"));
    (abi == same) & (abi != os) & (same != TargetPredicate::PointerWidth(64))
}

fn compares_verdicts() -> bool {
    Verdict::Yes == Verdict::Yes && Verdict::Yes != Verdict::No && Verdict::No != Verdict::Unknown
}

// Returns whether a stream has no failed call at first.
fn counts_from_zero() -> bool {
    let counted = Counted::new(Pieces::new(b"ab", ALL, 0));
    counted.failures() == 0 && counted.get_ref().left == b"ab".as_slice()
}

// Reads facts with memory. Returns whether they answer.
fn answers_by_facts<A: SmallAllocator>(heap: Heap<'_>, alloc: A) -> bool {
    heap.refuse(0);
    let facts = Facts::from_flags(alloc, &["all(a, b)", "?key = \"v\""]);
    heap.refuse(EVERY);
    matches!(&facts, Ok(facts) if name_a(facts))
}

/// The names of checks.
pub(super) const VALUES: &str = r#"
order of functions
order of byte orders
order of widths
a byte order is read
a number is read
ptr is read
widths are printed
reasons
tokens
tokens of a lexer
predicates on a target
verdicts
error of a width
errors of widths
answers of facts
version
counted stream
named abis
named architectures
named vendors
named systems
named families
named environments
named panic strategies
logic bool
logic option
logic lanes
"#;

// Returns whether the check with the name `check` passes. The check never allows a growth.
fn passes_alone<A: SmallAllocator>(global: Global, alloc: A, check: &str) -> bool {
    match check {
        "order of functions" => are_increasing(&FUNCTIONS),
        "order of byte orders" => is_ordered(&Endian::big, &Endian::big, &Endian::little),
        "order of widths" => is_ordered(&EIGHT, &EIGHT, &HasAtomic::Pointer),
        "a byte order is read" => reads_byte_orders(),
        "a number is read" => reads_width(alloc, "+08", EIGHT),
        "ptr is read" => reads_width(alloc, "ptr", HasAtomic::Pointer),
        "widths are printed" => prints_widths(global),
        "reasons" => compares_reasons(global),
        "tokens" => compares_tokens(global),
        "tokens of a lexer" => lexes(alloc),
        "predicates on a target" => compares_predicates::<A>(),
        "verdicts" => compares_verdicts(),
        "version" => rustc_version() == "1.99.0",
        "counted stream" => counts_from_zero(),
        _ => false,
    }
}

/// Returns whether the check with the name `check` passes, with every growth refused. Errors and
/// facts are made with memory.
pub(super) fn passes<A: SmallAllocator>(
    global: Global,
    heap: Heap<'_>,
    alloc: A,
    check: &str,
) -> bool {
    match check.split_once(' ') {
        Some(("named", name)) => named_values_are_right::<A>(name),
        Some(("logic", name)) => logic_is_right(name),
        Some(("error", "of a width")) => prints_width_error(global, heap, alloc),
        Some(("errors", "of widths")) => compares_width_errors(heap, alloc),
        Some(("answers", "of facts")) => answers_by_facts(heap, alloc),
        _ => passes_alone(global, alloc, check),
    }
}
