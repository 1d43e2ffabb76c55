//! Widths, byte orders, and named values that are spelled otherwise than their functions.
use cfg_expr::error::Reason;
use cfg_expr::targets::{Abi, Endian, HasAtomic, HasAtomics, Os, rustc_version};
use cfgx_testing::checking::{check_all, prints};
use std::alloc::Global;
use std::fmt::Display;

const EIGHT: HasAtomic = HasAtomic::IntegerSize(8);

const POINTER: HasAtomic = HasAtomic::Pointer;

// Returns whether `value` prints `text`.
fn owned_prints<T: Display + Drop>(alloc: Global, value: T, text: &str) -> bool {
    prints(alloc, &value, text)
}

#[test]
fn widths_are_sorted_and_names_are_read(rt: HostRuntime) -> Result<(), &'static str> {
    let alloc = rt.alloc();
    let both = Reason::Unexpected(&["big", "little"]);
    check_all(&[
        ("falling widths", !HasAtomics::is_sorted(&[POINTER, EIGHT])),
        ("equal widths", HasAtomics::is_sorted(&[EIGHT, EIGHT])),
        ("no width", HasAtomics::is_sorted(&[])),
        ("big", "big".parse::<Endian>() == Ok(Endian::big)),
        ("little", "little".parse::<Endian>() == Ok(Endian::little)),
        ("Big", "Big".parse::<Endian>() == Err(both)),
        (
            "vec-extabi",
            owned_prints(alloc, Abi::<Global>::vec_extabi(), "vec-extabi"),
        ),
        (
            "solid_asp3",
            owned_prints(alloc, Os::<Global>::solid_asp3(), "solid_asp3"),
        ),
        ("version", rustc_version() == "1.99.0"),
    ])
}
