//! The predicates of a condition, and the iterator over them.
ghost use Rattle.std.specs.Prelude.{◌≡◌, ◌↔◌, IsTrue, length, map};
ghost use Rattle.std.specs.Cmp.{partial_equiv_from_equiv};
ghost use Rattle.std.specs.Cmp.Lexicographic.{lists_equiv, nat_list_eq_equiv};
ghost use Rattle.std.specs.Cmp.{on_equiv};
ghost use Rattle.std.specs.List.{AllByRecursion};
ghost use Rattle.std.specs.Ordering.{on};
ghost use Rattle.cfg_expr.specs.Equality.{question_code, question_eq, target_code, target_eq};
ghost use Rattle.cfg_expr.specs.Equality.{texts_code};
ghost use Rattle.cfg_expr.specs.Predicate.{question_of, target_of};
ghost use Rattle.cfgx_parser.specs.Asked.{target_text, target_with, without_text};
ghost use Rattle.cfgx_parser.specs.Located.{HasCut, question_at};

use super::{AskedTexts, LocatedPredicates};
use cfgx_fields::atomic::HasAtomic;
use cfgx_fields::endian::Endian;
use cfgx_fields::text_key::TextKey;
use cfgx_fields::{Abi, Arch, Env, Family, Os, Panic, Vendor};
use cfgx_parser::asked::{Asked, AskedTarget};
use cfgx_parser::located::LocatedPredicate;
use std::alloc::{Allocator, Global};
use std::marker::Model;

/// A predicate on the target for which a crate is compiled.
#[derive(Drop)]
#[derive_where(Debug)]
pub enum TargetPredicate<'a, A: Allocator = Global> {
    /// `target_abi`
    Abi(Abi<'a, A>),
    /// `target_arch`
    Arch(Arch<'a, A>),
    /// `target_endian`
    Endian(Endian),
    /// `target_env`
    Env(Env<'a, A>),
    /// `target_family`, and the bare keys `unix` and `windows`
    Family(Family<'a, A>),
    /// `target_has_atomic`
    HasAtomic(HasAtomic),
    /// `target_os`
    Os(Os<'a, A>),
    /// `panic`
    Panic(Panic<'a, A>),
    /// `target_pointer_width`, in bits
    PointerWidth(u8),
    /// `target_vendor`
    Vendor(Vendor<'a, A>),
}

/// A predicate of a condition. The texts of one that `Predicates` yields are those of the
/// condition.
#[derive(Drop)]
#[derive_where(Debug)]
pub enum Predicate<'a, A: Allocator = Global> {
    /// A predicate on the target
    Target(TargetPredicate<'a, A>),
    /// `test`
    Test,
    /// `debug_assertions`
    DebugAssertions,
    /// `proc_macro`
    ProcMacro,
    /// `feature`, with the name of the feature, which may be empty
    Feature(&'a str),
    /// `target_feature`, with the name of the feature
    TargetFeature(&'a str),
    /// A bare key without a meaning of its own, such as `loom`
    Flag(&'a str),
    /// A key without a meaning of its own, with a value
    KeyValue {
        /// The key
        key: &'a str,
        /// The value, without its quotes; it may be empty
        val: &'a str,
    },
}

/// Two predicates on targets are equal if they ask the same key for the same value, whether the
/// text is borrowed or owned.
impl<A: Allocator> PartialEq for TargetPredicate<'_, A> {
    ghost eq = { on target_of target_eq };

    ghost laws = { partial_equiv_from_equiv
        (on_equiv target_of (on_equiv target_code (lists_equiv nat_list_eq_equiv))) };

    fn eq(&self, other: &Self) -> bool
        ensures value { result ≡ target_eq (target_of self.now) (target_of other.now) }
        ensures same { IsTrue result ↔ (target_of self.now ≡ target_of other.now) }
    {
        let (one, text) = self.parts();
        let (other, other_text) = other.parts();
        one == other && text == other_text
    }
}

impl<A: Allocator> Eq for TargetPredicate<'_, A> {
    ghost laws = { on_equiv target_of (on_equiv target_code (lists_equiv nat_list_eq_equiv)) };
}

/// Two predicates are equal if they have the same kind, key and value, wherever their texts lie.
impl<A: Allocator> PartialEq for Predicate<'_, A> {
    ghost eq = { on question_of question_eq };

    ghost laws = { partial_equiv_from_equiv
        (on_equiv question_of (on_equiv question_code (lists_equiv nat_list_eq_equiv))) };

    fn eq(&self, other: &Self) -> bool
        ensures value { result ≡ question_eq (question_of self.now) (question_of other.now) }
        ensures same { IsTrue result ↔ (question_of self.now ≡ question_of other.now) }
    {
        self.asked_texts() == other.asked_texts()
    }
}

impl<A: Allocator> Eq for Predicate<'_, A> {
    ghost laws = { on_equiv question_of
        (on_equiv question_code (lists_equiv nat_list_eq_equiv)) };
}

impl<'a> TargetPredicate<'a> {
    /// Returns the predicate that asks `asked`. Its text, if its key has one, is `text`.
    pub(super) fn of(asked: AskedTarget, text: &'a str) -> Self
        ensures { target_of result ≡ target_with text.now asked }
    {
        use AskedTarget::Text;
        match asked {
            Text(TextKey::Abi) => TargetPredicate::Abi(Abi::new_const(text)),
            Text(TextKey::Arch) => TargetPredicate::Arch(Arch::new_const(text)),
            Text(TextKey::Env) => TargetPredicate::Env(Env::new_const(text)),
            Text(TextKey::Family) => TargetPredicate::Family(Family::new_const(text)),
            Text(TextKey::Os) => TargetPredicate::Os(Os::new_const(text)),
            Text(TextKey::Panic) => TargetPredicate::Panic(Panic::new_const(text)),
            Text(TextKey::Vendor) => TargetPredicate::Vendor(Vendor::new_const(text)),
            AskedTarget::Endian(endian) => TargetPredicate::Endian(endian),
            AskedTarget::HasAtomic(width) => TargetPredicate::HasAtomic(width),
            AskedTarget::PointerWidth(bits) => TargetPredicate::PointerWidth(bits),
        }
    }
}

impl<A: Allocator> TargetPredicate<'_, A> {
    /// Returns what is asked, and the text that is asked for, which is empty for a byte order, a
    /// number of bits and the `ptr` of `target_has_atomic`.
    pub(super) fn parts(&self) -> (AskedTarget, &str)
        ensures asked { result.0 ≡ without_text (target_of self.now) }
        ensures text { result.1.now ≡ target_text (target_of self.now) }
    {
        use AskedTarget::Text;
        match self {
            TargetPredicate::Abi(abi) => (Text(TextKey::Abi), abi.as_str()),
            TargetPredicate::Arch(arch) => (Text(TextKey::Arch), arch.as_str()),
            TargetPredicate::Endian(endian) => (AskedTarget::Endian(*endian), ""),
            TargetPredicate::Env(env) => (Text(TextKey::Env), env.as_str()),
            TargetPredicate::Family(family) => (Text(TextKey::Family), family.as_str()),
            TargetPredicate::HasAtomic(width) => (AskedTarget::HasAtomic(*width), ""),
            TargetPredicate::Os(os) => (Text(TextKey::Os), os.as_str()),
            TargetPredicate::Panic(panic) => (Text(TextKey::Panic), panic.as_str()),
            TargetPredicate::PointerWidth(bits) => (AskedTarget::PointerWidth(*bits), ""),
            TargetPredicate::Vendor(vendor) => (Text(TextKey::Vendor), vendor.as_str()),
        }
    }
}

impl<'a> Predicate<'a> {
    /// Returns the predicate at `located`, with its texts cut out of `text`, in which it stands.
    #[inline(always)]
    pub(super) fn of(located: &LocatedPredicate, text: &'a str) -> Self
        requires { HasCut text.now located.now }
        ensures { question_of result ≡ question_at text.now located.now }
    {
        let LocatedPredicate { asked, key, value } = *located;
        match asked {
            Asked::Target(target) => {
                Predicate::Target(TargetPredicate::of(target, value.cut(text)))
            }
            Asked::Test => Predicate::Test,
            Asked::DebugAssertions => Predicate::DebugAssertions,
            Asked::ProcMacro => Predicate::ProcMacro,
            Asked::Feature => Predicate::Feature(value.cut(text)),
            Asked::TargetFeature => Predicate::TargetFeature(value.cut(text)),
            Asked::Flag => Predicate::Flag(key.cut(text)),
            Asked::KeyValue => Predicate::KeyValue {
                key: key.cut(text),
                val: value.cut(text),
            },
        }
    }
}

impl<A: Allocator> Predicate<'_, A> {
    /// Returns what the predicate asks, with its texts.
    pub fn asked_texts(&self) -> AskedTexts<'_>
        ensures { texts_code result ≡ question_code (question_of self.now) }
    {
        let (asked, key, value) = match self {
            Predicate::Target(target) => {
                let (asked, text) = target.parts();
                (Asked::Target(asked), "", text)
            }
            Predicate::Test => (Asked::Test, "", ""),
            Predicate::DebugAssertions => (Asked::DebugAssertions, "", ""),
            Predicate::ProcMacro => (Asked::ProcMacro, "", ""),
            Predicate::Feature(name) => (Asked::Feature, "", *name),
            Predicate::TargetFeature(name) => (Asked::TargetFeature, "", *name),
            Predicate::Flag(key) => (Asked::Flag, *key, ""),
            Predicate::KeyValue { key, val } => (Asked::KeyValue, *key, *val),
        };
        AskedTexts {
            kind: asked.kind(),
            number: asked.number(),
            key: key.as_bytes(),
            value: value.as_bytes(),
        }
    }
}

/// The predicates of a condition, in the order in which they are asked, with their texts.
#[derive(Drop)]
pub struct Predicates<'a> {
    text: &'a str,
    /// Where those that are left stand in the text
    located: LocatedPredicates<'a>,
}

impl<'a> Model for Predicates<'a> {
    ghost use Rattle.std.specs.Prelude.{List, map};
    ghost use Rattle.std.specs.List.{AllByRecursion};
    ghost use Rattle.cfgx_grammar.specs.Question.{Question};
    ghost use Rattle.cfgx_parser.specs.Located.{HasCut, question_at};

    ghost Value = { List Question };

    ghost view = { λ p. map (question_at p.text.now) p.located };

    ghost invariant = { λ p. AllByRecursion (HasCut p.text.now) p.located };
}

impl<'a> Predicates<'a> {
    /// Returns the iterator over the predicates at `located`, which stand in `text`.
    pub(super) fn new(text: &'a str, located: LocatedPredicates<'a>) -> Self
        requires { AllByRecursion (HasCut text.now) located }
        ensures { result ≡ map (question_at text.now) located.entry }
    {
        Predicates { text, located }
    }

    /// Returns the number of predicates that are left.
    pub fn left(&self) -> usize
        ensures { result ≡ length self.now }
    {
        self.located.left()
    }
}

impl<'a> Iterator for Predicates<'a> {
    type Item = Predicate<'a>;

    ghost use Rattle.std.specs.Iterator.{YieldsFirstBy, item_count};

    ghost next_gives = { YieldsFirstBy question_of (λ s. s) };

    ghost remaining = { item_count (λ s. s) };

    #[inline(always)]
    fn next(&mut self) -> Option<Predicate<'a>> {
        let located = self.located.next()?;
        Some(Predicate::of(&located, self.text))
    }
}
