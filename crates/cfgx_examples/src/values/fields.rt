//! Fields of each type compare, hash and print like their texts, without memory.
use cfgx_fields::{
    AbiKind, ArchKind, EnvKind, FamilyKind, Field, OsKind, PanicKind, TripleKind, VendorKind,
};
use cfgx_testing::checking::{hash_of, is_ok_true, value_equals};
use cfgx_testing::heap::{Heap, empty_heap, has_every_block};
use cfgx_testing::refusing::EVERY;
use std::alloc::{AllocError, Allocator, Global};
use std::fmt::Display;
use std::hash::Hash;

/// Texts in the order of their bytes. The longer `aa` is below `b`, and letters past ASCII are
/// above all others.
const RISING: &str = "|Z|a|a text of a field that is not a short one|\
    a text of a field that stands behind it|aa|b|é|日本";

// Returns whether the field prints like the text.
fn prints_like<T: Display>(alloc: Global, field: &T, text: &str) -> Result<bool, AllocError> {
    let wanted = format!(in alloc; "{text}|{text:>3}|")?;
    value_equals(format!(in alloc; "{field}|{field:>3}|"), &wanted)
}

/// Two texts of `RISING`, each after its index.
type TwoTexts<'a> = ((usize, &'a str), (usize, &'a str));

// Returns whether the fields of two texts compare, hash and print like the texts.
fn behave_like_texts<T: Ord + Hash + Display>(
    alloc: Global,
    fields: (&T, &T),
    texts: TwoTexts<'_>,
) -> bool {
    let ((one, other), ((i, text), (j, other_text))) = (fields, texts);
    (one == other) == (i == j)
        && one.cmp(other) == i.cmp(&j)
        && (hash_of(one) == hash_of(other)) == (i == j)
        && is_ok_true(prints_like(alloc, one, text))
        && is_ok_true(prints_like(alloc, other, other_text))
}

// Returns an owned copy of the text. The heap refuses every growth after it.
fn owned_text<'h>(heap: Heap<'h>, text: &str) -> Result<String<Heap<'h>>, AllocError> {
    heap.refuse(0);
    let owned = String::from_str(heap, text)?;
    heap.refuse(EVERY);
    Ok(owned)
}

/// Two fields of one kind.
type TwoFields<'f, 'a, K, A> = (&'f Field<'a, K, A>, &'f Field<'a, K, A>);

// Returns whether the fields have the texts, and behave like them.
fn fields_match_texts<K, A: Allocator>(
    alloc: Global,
    fields: TwoFields<'_, '_, K, A>,
    texts: TwoTexts<'_>,
) -> bool {
    let (one, other) = fields;
    let have_texts = one.as_str() == texts.0.1 && other.as_str() == texts.1.1;
    have_texts && behave_like_texts(alloc, fields, texts)
}

// Returns whether a borrowed field of the first text and an owned field of the second one match the
// texts.
fn borrowed_and_owned_match<K: Drop, A: Allocator>(
    alloc: Global,
    owned: Result<String<A>, AllocError>,
    texts: TwoTexts<'_>,
) -> Result<bool, AllocError> {
    let owned = Field::<'_, K, A>::new(owned?);
    let borrowed = Field::new_const(texts.0.1);
    Ok(fields_match_texts(alloc, (&borrowed, &owned), texts))
}

// Returns whether two fields of the kind `K` match `texts`. The owned field is in `heap`.
fn kind_matches<K: Drop>(alloc: Global, heap: Heap<'_>, texts: TwoTexts<'_>) -> bool {
    let owned = owned_text(heap, texts.1.1);
    is_ok_true(borrowed_and_owned_match::<K, _>(alloc, owned, texts))
}

// Returns whether two fields of each kind match the texts.
fn each_kind_matches(alloc: Global, heap: Heap<'_>, texts: TwoTexts<'_>) -> bool {
    kind_matches::<TripleKind>(alloc, heap, texts)
        && kind_matches::<AbiKind>(alloc, heap, texts)
        && kind_matches::<ArchKind>(alloc, heap, texts)
        && kind_matches::<VendorKind>(alloc, heap, texts)
        && kind_matches::<OsKind>(alloc, heap, texts)
        && kind_matches::<FamilyKind>(alloc, heap, texts)
        && kind_matches::<EnvKind>(alloc, heap, texts)
        && kind_matches::<PanicKind>(alloc, heap, texts)
}

// Compares each text of `RISING` with each one. The error is the first two texts that fail.
fn check_each_pair(alloc: Global, heap: Heap<'_>) -> Result<(), TwoTexts<'static>> {
    for one in RISING.split('|').enumerate() {
        for other in RISING.split('|').enumerate() {
            if !each_kind_matches(alloc, heap, (one, other)) {
                return Err((one, other));
            }
        }
    }
    Ok(())
}

#[test]
fn fields_behave_like_texts(rt: HostRuntime) -> Result<(), TwoTexts<'static>> {
    let heap = empty_heap(rt.alloc());
    let checked = check_each_pair(rt.alloc(), &heap);
    assert!(rt; heap.refused_growths() == 0 && RISING.split('|').count() == 9);
    assert!(rt; has_every_block(heap));
    checked
}
