//! Calls that stand in no example of the pages, written as in Rust, without types that Rust would
//! infer.
use super::streams::Kept;
use cfg_expr::error::laws::{expected_terms_have_a_number, faults_lie_in_their_text};
use cfg_expr::error::{Failure, Reason};
use cfg_expr::expr::Logic;
use cfg_expr::expr::laws::{
    homomorphisms_keep_values, lanes_are_homomorphisms, steps_are_read_with_a_stack,
    steps_push_the_value,
};
use cfg_expr::expr::lexer::Lexer;
use cfg_expr::expr::lexer::laws::{lexical_faults_lie_in_their_text, tokens_lie_in_order};
use cfg_expr::expr::logic::Kleene64;
use cfg_expr::expr::logic::laws::are_disjoint;
use cfg_expr::targets::{Endian, Families, Family, HasAtomic, HasAtomicFailure, HasAtomics, Os};
use cfgx_engine::engine::laws::{has_an_output, has_one_output};
use cfgx_engine::engine::streams::write_whole;
use cfgx_fields::reading::{read_endian, read_has_atomic, read_u8, read_u16};
use cfgx_fields::text_key::laws::equal_keys_are_the_same;
use cfgx_parser::asked::laws::{equal_asked_are_the_same, numbers_tell_what_is_asked};
use cfgx_syntax::error::laws::{
    lists_have_different_numbers, numbers_name_the_reason, reasons_have_different_numbers,
};
use cfgx_syntax::stripping::strip;
use cfgx_testing::checking::{check_all, is_ok_true, value_equals};
use std::alloc::{AllocError, Global};
use std::str::FromStr;

fn contains_family(families: &Families<'_>, family: Family<'_>) -> bool {
    let is_member = families.contains(&family);
    drop(family);
    is_member
}

// Returns whether the list `unix_wasm` is sorted, and contains `unix` and not `windows`.
fn unix_wasm_is_right(alloc: Global) -> Result<bool, AllocError> {
    let families = Families::unix_wasm(alloc)?;
    Ok(
        contains_family(&families, Family::unix())
            && !contains_family(&families, Family::new_const("windows"))
            && Families::is_sorted(families.as_slice()),
    )
}

fn is_sorted_with_wasm_first() -> bool {
    Families::is_sorted(&[<Family<'_>>::wasm(), Family::unix()])
}

// Returns whether the list `atomic_8_16_32_ptr` contains 8 and not 64.
fn atomic_8_16_32_ptr_is_right(alloc: Global) -> Result<bool, AllocError> {
    let widths = HasAtomics::atomic_8_16_32_ptr(alloc)?;
    let has_eight = widths.contains(HasAtomic::IntegerSize(8));
    let has_more = widths.contains(HasAtomic::IntegerSize(64));
    drop(widths);
    Ok(has_eight && !has_more)
}

fn are_equal<T: PartialEq + Drop>(one: T, other: T) -> bool {
    one == other
}

// Returns whether two reads of one text are equal, and a read of another text is not.
fn reads_are_compared(alloc: Global) -> bool {
    are_equal(HasAtomic::read(alloc, "x"), HasAtomic::read(alloc, "x"))
        && !are_equal(HasAtomic::read(alloc, "x"), HasAtomic::read(alloc, "y"))
}

// Returns whether `8` is a width, and the empty text is none.
fn widths_are_read(alloc: Global) -> bool {
    let is_read = HasAtomic::read(alloc, "8") == Ok(HasAtomic::IntegerSize(8));
    let no_width = HasAtomic::read(alloc, "");
    is_read && matches!(no_width, Err(HasAtomicFailure::Parse(_)))
}

// Returns whether `Failure::of` makes a fault in the whole text.
fn fault_is_made(alloc: Global) -> bool {
    match Failure::of(alloc, "a b", 2..3, Reason::MultipleRootPredicates) {
        Failure::Parse(fault) => fault.original.as_str() == "a b" && fault.span == (2..3),
        Failure::Memory(_) => false,
    }
}

// Returns whether `value` equals `same` and is above `below`.
fn equals_and_exceeds<T: PartialOrd + Drop>(value: &T, same: T, below: T) -> bool {
    *value == same && *value > below
}

fn is_linux(os: &Os<'_>) -> bool {
    equals_and_exceeds(os, Os::linux(), Os::new_const("ios")) && os.as_str() == "linux"
}

fn text_is_stripped(alloc: Global) -> bool {
    let lexer = Lexer::new(alloc, "cfg(unix)");
    let (wrapped, bare) = (strip("cfg(unix)"), strip("unix"));
    lexer.original() == "unix"
        && (wrapped.text == "unix" && wrapped.offset == 4)
        && (bare.text == "unix" && bare.offset == 0)
}

fn system_is_copied(alloc: Global) -> Result<bool, AllocError> {
    let os = Os::new(String::from_str(alloc, "linux")?);
    Ok(is_linux(&os) && is_ok_true(value_equals(os.try_clone(alloc), &os)))
}

#[test]
fn values_are_read_and_made(rt: HostRuntime) -> Result<(), &'static str> {
    let alloc = rt.alloc();
    check_all(&[
        ("255", read_u8("+255") == Some(255)),
        ("256", read_u8("256").is_none()),
        ("65535", read_u16("65535") == Some(65_535)),
        ("65536", read_u16("65536").is_none()),
        ("big", read_endian("big") == Some(Endian::big)),
        ("Big", read_endian("Big").is_none()),
        ("ptr", read_has_atomic("ptr") == Some(HasAtomic::Pointer)),
        ("little", Endian::from_str("little") == Ok(Endian::little)),
        ("compared reads", reads_are_compared(alloc)),
        ("a width", widths_are_read(alloc)),
        ("families", is_ok_true(unix_wasm_is_right(alloc))),
        ("not sorted", !is_sorted_with_wasm_first()),
        ("widths", is_ok_true(atomic_8_16_32_ptr_is_right(alloc))),
        ("a copy", is_ok_true(system_is_copied(alloc))),
        ("a stripped text", text_is_stripped(alloc)),
        ("a fault", fault_is_made(alloc)),
    ])
}

// Calls the laws, which return nothing. Only proofs use them.
fn call_laws() {
    homomorphisms_keep_values::<bool, Option<bool>>();
    lanes_are_homomorphisms();
    steps_are_read_with_a_stack::<bool, usize>();
    steps_push_the_value::<Option<bool>>();
    tokens_lie_in_order();
    lexical_faults_lie_in_their_text();
    faults_lie_in_their_text();
    expected_terms_have_a_number();
    reasons_have_different_numbers();
    lists_have_different_numbers();
    numbers_name_the_reason();
    numbers_tell_what_is_asked();
    equal_asked_are_the_same();
    equal_keys_are_the_same();
    has_an_output();
    has_one_output();
}

// `Option` has methods `and` and `or` of its own, so the trait is named here.
#[test]
fn logics_are_joined(rt: HostRuntime) {
    call_laws();
    assert!(rt; bool::top().and(true) && !bool::bottom().or(false));
    assert!(rt; Logic::and(None, Some(false)) == Some(false));
    assert!(rt; Logic::or(None, Some(false)).is_none());
    assert!(rt; Kleene64::top().not() == Kleene64::bottom());
}

#[test]
fn lanes_are_joined_one_by_one() -> Result<(), &'static str> {
    let three = Kleene64::new(0b001, 0b010);
    check_all(&[
        ("lane 0", three.lane(0) == Some(true)),
        ("lane 1", three.lane(1) == Some(false)),
        ("lane 2", three.lane(2).is_none()),
        ("lane 63", three.lane(63).is_none()),
        ("and", three.and(three.not()) == Kleene64::new(0, 0b011)),
        ("or", three.or(three.not()) == Kleene64::new(0b011, 0)),
        ("true lanes", three.is_true() == 0b001),
        ("false lanes", three.is_false() == 0b010),
        ("other lanes", three != Kleene64::new(1, 0)),
        ("disjoint planes", are_disjoint(&[three])),
    ])
}

#[test]
fn bytes_are_written(rt: HostRuntime) {
    let bytes = Vec::new(rt.alloc());
    let mut sink = Kept { bytes, failures: 0 };
    let is_written = write_whole(&mut sink, b"true\n");
    assert!(rt; is_written && sink.bytes.as_slice() == b"true\n".as_slice());
}
