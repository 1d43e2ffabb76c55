//! The example in the README of `cfg-expr`, on three rows that are written by hand. Predicates that
//! are not on the target are true.
use cfg_expr::targets::{
    Abi, Arch, Endian, Env, Families, HasAtomic, HasAtomics, Os, Panic, TargetInfo, Triple, Vendor,
};
use cfg_expr::{Expression, Predicate};
use cfgx_testing::triples::DARWIN;
use std::alloc::{AllocError, Global};

/// The condition of the example.
const CONDITION: &str = "all(target_os = \"windows\", target_arch = \"x86\", windows, \
    target_env = \"msvc\", target_feature = \"fxsr\", target_feature = \"sse\", \
    target_feature = \"sse2\", target_pointer_width = \"32\", target_endian = \"little\", \
    not(target_vendor = \"uwp\"), feature = \"cool_thing\",)";

const WIDTHS: &[HasAtomic] = &[
    HasAtomic::IntegerSize(8),
    HasAtomic::IntegerSize(16),
    HasAtomic::IntegerSize(32),
    HasAtomic::IntegerSize(64),
    HasAtomic::Pointer,
];

// Returns a row of Windows for x86, with this triple and vendor.
fn windows(
    alloc: Global,
    triple: &'static str,
    vendor: &'static str,
) -> Result<TargetInfo<'static>, AllocError> {
    let families = Families::windows(alloc)?;
    Ok(TargetInfo {
        triple: Triple::new_const(triple),
        os: Some(Os::new_const("windows")),
        abi: Some(Abi::new_const("")),
        arch: Arch::new_const("x86"),
        env: Some(Env::new_const("msvc")),
        vendor: Some(Vendor::new_const(vendor)),
        families,
        pointer_width: 32,
        endian: Endian::little,
        has_atomics: HasAtomics::new_const(WIDTHS),
        panic: Panic::new_const("unwind"),
    })
}

// Returns a row of macOS.
fn darwin(alloc: Global) -> Result<TargetInfo<'static>, AllocError> {
    let families = Families::unix(alloc)?;
    let has_atomics = HasAtomics::atomic_8_16_32_64_128_ptr(alloc)?;
    Ok(TargetInfo {
        triple: Triple::new_const(DARWIN),
        os: Some(Os::new_const("macos")),
        abi: None,
        arch: Arch::new_const("aarch64"),
        env: None,
        vendor: Some(Vendor::new_const("apple")),
        families,
        pointer_width: 64,
        endian: Endian::little,
        has_atomics,
        panic: Panic::new_const("unwind"),
    })
}

// Returns the value of the condition on the row. Predicates that are not on the target are true.
fn value_on(
    alloc: Global,
    condition: &Expression,
    row: &TargetInfo<'_>,
) -> Result<bool, AllocError> {
    condition.eval(
        alloc,
        &mut |predicate: &Predicate<'_>| match predicate {
            Predicate::Target(target) => target.matches(row),
            _ => true,
        },
    )
}

// Returns the value of `CONDITION` on the row, or `None` if memory ran out.
fn value_of_condition(alloc: Global, row: Result<TargetInfo<'_>, AllocError>) -> Option<bool> {
    match (Expression::parse(alloc, CONDITION), &row) {
        (Ok(condition), Ok(row)) => value_on(alloc, &condition, row).ok(),
        _ => None,
    }
}

#[test]
fn a_condition_on_windows_has_its_value(rt: HostRuntime) {
    let alloc = rt.alloc();
    let pc = windows(alloc, "i686-pc-windows-msvc", "pc");
    assert!(rt; value_of_condition(alloc, pc) == Some(true));
    let uwp = windows(alloc, "i686-uwp-windows-msvc", "uwp");
    assert!(rt; value_of_condition(alloc, uwp) == Some(false));
    assert!(rt; value_of_condition(alloc, darwin(alloc)) == Some(false));
}
