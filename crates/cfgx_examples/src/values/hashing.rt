//! Equal values have equal hashes. The unequal values here have different ones.
use cfg_expr::targets::{Endian, HasAtomic, TargetInfo};
use cfgx_testing::checking::{hash_of, is_ok_true};
use cfgx_testing::targets::row_of;
use std::alloc::{AllocError, Global};
use std::hash::Hash;

// Returns the hash of the value of `outcome`.
fn hash_of_ok<T: Hash + Drop>(outcome: Result<T, AllocError>) -> Result<u64, AllocError> {
    Ok(hash_of(&outcome?))
}

// Each field, with a value that differs from that of a bare row.
const FIELDS: &str = "triple=other os=ios abi=sim arch=arm env=gnu vendor=apple unix bits=32 \
    endian=big atomics panic=abort";

// Returns whether the hash of a bare row changes with this field.
fn changes_hash(alloc: Global, field: &'static str) -> Result<bool, AllocError> {
    let hash = hash_of_ok(row_of(alloc, "bare", ""))?;
    Ok(hash_of_ok(row_of(alloc, "bare", field))? != hash)
}

#[test]
fn each_field_changes_the_hash_of_a_row(rt: HostRuntime) -> Result<(), &'static str> {
    let mut count = 0usize;
    for field in FIELDS.split(' ') {
        if !is_ok_true(changes_hash(rt.alloc(), field)) {
            return Err(field);
        }
        count = count.saturating_add(1);
    }
    if count == 11 { Ok(()) } else { Err("fields") }
}

// Returns a row of iOS with `fields`.
fn ios(alloc: Global, fields: &'static str) -> Result<TargetInfo<'static>, AllocError> {
    row_of(alloc, "aarch64-apple-ios", fields)
}

// Returns a copy of a row of iOS with `fields`.
fn ios_copied(alloc: Global, fields: &'static str) -> Result<TargetInfo<'static>, AllocError> {
    let row = ios(alloc, fields)?;
    let copy = row.try_clone(alloc);
    drop(row);
    copy
}

// Returns whether a row and its copy have the same hash, and a bare row has another one.
fn copy_keeps_hash(alloc: Global) -> Result<bool, AllocError> {
    let fields = "os=ios vendor=apple unix atomics";
    let hash = hash_of_ok(ios(alloc, fields))?;
    let bare = hash_of_ok(ios(alloc, ""))?;
    Ok(hash_of_ok(ios_copied(alloc, fields))? == hash && bare != hash)
}

// Returns whether two of the values have the same hash exactly if they are equal.
fn hashes_tell_equality<T: Hash + Eq>(values: &[T]) -> bool {
    for one in values {
        for other in values {
            if (hash_of(one) == hash_of(other)) != (one == other) {
                return false;
            }
        }
    }
    true
}

const WIDTHS: &[HasAtomic] = &[
    HasAtomic::IntegerSize(0),
    HasAtomic::IntegerSize(8),
    HasAtomic::IntegerSize(64),
    HasAtomic::IntegerSize(8),
    HasAtomic::Pointer,
    HasAtomic::Pointer,
];

#[test]
fn only_equal_values_have_equal_hashes(rt: HostRuntime) {
    assert!(rt; is_ok_true(copy_keeps_hash(rt.alloc())));
    assert!(rt; hashes_tell_equality(WIDTHS));
    assert!(rt; hashes_tell_equality(&[Endian::big, Endian::little, Endian::big]));
}
