//! What predicates ask, with their texts, by which they are compared.
ghost use Rattle.std.specs.Prelude.{◌≡◌, ◌↔◌, IsTrue, refl};
ghost use Rattle.std.specs.Cmp.{on_equiv, on_total, partial_equiv_from_equiv};
ghost use Rattle.std.specs.Cmp.{partial_order_from_agreeing_total};
ghost use Rattle.std.specs.Cmp.Lexicographic.{lists_equiv, lists_ties, lists_total};
ghost use Rattle.std.specs.Cmp.Lexicographic.{nat_list_cmp_total, nat_list_eq_equiv, slice_cmp};
ghost use Rattle.std.specs.Cmp.Lexicographic.{texts_ties};
ghost use Rattle.std.specs.Ordering.{as_partial_cmp, nat_cmp, on};
ghost use Rattle.cfg_expr.specs.Equality.{code_cmp, code_eq, number_code, texts_code};

use std::cmp::Ordering;

/// What a predicate asks: the numbers of an `Asked`, and the texts. Predicates that are not equal
/// have different ones.
#[derive(Clone, Copy, Debug)]
pub struct AskedTexts<'a> {
    /// The number of its kind, as `Asked::kind` tells it
    pub kind: u32,
    /// The number that it asks for, as `Asked::number` tells it
    pub number: Option<u32>,
    /// The bytes of the key of a `Flag` or a `KeyValue`; for every other predicate none
    pub key: &'a [u8],
    /// The bytes of the value, if it is a text, else none
    pub value: &'a [u8],
}

impl PartialEq for AskedTexts<'_> {
    ghost eq = { on texts_code code_eq };

    ghost laws = { partial_equiv_from_equiv (on_equiv texts_code (lists_equiv nat_list_eq_equiv)) };

    fn eq(&self, other: &Self) -> bool
        ensures value { result ≡ on texts_code code_eq self.now other.now }
        ensures same { IsTrue result ↔ (texts_code self.now ≡ texts_code other.now) }
    {
        self.kind == other.kind
            && self.number == other.number
            && self.key == other.key
            && self.value == other.value
    }
}

impl Eq for AskedTexts<'_> {
    ghost laws = { on_equiv texts_code (lists_equiv nat_list_eq_equiv) };
}

impl PartialOrd for AskedTexts<'_> {
    ghost partial_cmp = { as_partial_cmp (on texts_code code_cmp) };

    ghost laws = { partial_order_from_agreeing_total (on texts_code code_cmp)
        (on_total texts_code (lists_total nat_list_cmp_total)) (λ _ _. refl)
        (λ one other. lists_ties (slice_cmp nat_cmp) texts_ties (texts_code one)
        (texts_code other)) };

    fn partial_cmp(&self, other: &Self) -> Option<Ordering> {
        Some(self.cmp(other))
    }
}

/// The kinds are compared first, and then the numbers that are asked for: a predicate without such
/// a number is less than one with it. Then the lengths of key and value are compared, and last the
/// bytes of both. So texts are compared only if all numbers are equal.
impl Ord for AskedTexts<'_> {
    ghost cmp = { on texts_code code_cmp };

    ghost total = { on_total texts_code (lists_total nat_list_cmp_total) };

    ghost matches_partial_cmp = { λ _ _. refl };

    ghost matches_eq = { λ one other. lists_ties (slice_cmp nat_cmp) texts_ties (texts_code one)
        (texts_code other) };

    // Inlined, since most predicates that a search meets are of another kind, and then nothing else
    // is compared.
    #[inline(always)]
    fn cmp(&self, other: &Self) -> Ordering
        ensures { result ≡ code_cmp (texts_code self.now) (texts_code other.now) }
    {
        let kinds = self.kind.cmp(&other.kind);
        if kinds.is_ne() {
            return kinds;
        }
        let numbers = compare_numbers(self.number, other.number);
        if numbers.is_ne() {
            return numbers;
        }
        let key_lens = self.key.len().cmp(&other.key.len());
        if key_lens.is_ne() {
            return key_lens;
        }
        let value_lens = self.value.len().cmp(&other.value.len());
        if value_lens.is_ne() {
            return value_lens;
        }
        let keys = self.key.cmp(&other.key);
        if keys.is_ne() {
            return keys;
        }
        self.value.cmp(&other.value)
    }
}

/// Compares two numbers. `None` is less than any number.
fn compare_numbers(one: Option<u32>, other: Option<u32>) -> Ordering
    ensures { result ≡ slice_cmp nat_cmp (number_code one) (number_code other) }
{
    match (one, other) {
        (Some(one), Some(other)) => one.cmp(&other),
        (Some(_), None) => Ordering::Greater,
        (None, Some(_)) => Ordering::Less,
        (None, None) => Ordering::Equal,
    }
}
