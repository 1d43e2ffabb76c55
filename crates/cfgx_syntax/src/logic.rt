//! The values that answers to predicates can have, and how `all`, `any` and `not` combine them.
ghost use Rattle.std.specs.Prelude.{◌≡◌, ◌&&◌, ◌||◌, Some, None, true, false, not};
ghost use Rattle.cfgx_syntax.specs.Logic.{kleene_and, kleene_or, kleene_not};

mod kleene;
pub mod laws;

pub use kleene::Kleene64;

/// Values with the operations of truth values.
///
/// Every call returns, and the result depends only on the arguments. Nothing else is required: the
/// operations need not be commutative, for example.
pub trait Logic: Drop {
    ghost use Rattle.cfgx_syntax.specs.Size.{IsSmall};

    /// The result of `top`.
    ghost top: { Self };

    /// The result of `bottom`.
    ghost bottom: { Self };

    /// The result of `and`.
    ghost and: { Self → Self → Self };

    /// The result of `or`.
    ghost or: { Self → Self → Self };

    /// The result of `not`.
    ghost not: { Self → Self };

    /// The value of a conjunction of nothing.
    fn top() -> Self
        ensures { result ≡ top };

    /// The value of a disjunction of nothing.
    fn bottom() -> Self
        ensures { result ≡ bottom };

    /// The conjunction of both.
    fn and(self, other: Self) -> Self
        ensures { result ≡ and self other };

    /// The disjunction of both.
    fn or(self, other: Self) -> Self
        ensures { result ≡ or self other };

    /// The negation.
    fn not(self) -> Self
        ensures { result ≡ not self };

    // A value takes few bytes, so that a vector may hold some inline. It is a fact of layout.
    ghost small: { IsSmall Self.row };
}

/// Truth values, joined by `&&`, `||` and `!`.
impl Logic for bool {
    ghost use Rattle.std.proofs.Common.{lit≤};

    ghost top = { true };

    ghost bottom = { false };

    ghost and = { λ one other. one && other };

    ghost or = { λ one other. one || other };

    ghost not = { not };

    ghost small = { (lit≤ tt, lit≤ tt) };

    fn top() -> bool
        ensures { result ≡ true }
    {
        true
    }

    fn bottom() -> bool
        ensures { result ≡ false }
    {
        false
    }

    fn and(self, other: bool) -> bool
        ensures { result ≡ (self && other) }
    {
        self && other
    }

    fn or(self, other: bool) -> bool
        ensures { result ≡ (self || other) }
    {
        self || other
    }

    fn not(self) -> bool
        ensures { result ≡ not self }
    {
        !self
    }
}

/// Answers that may be unknown, which is `None`, joined by Kleene's strong tables.
impl Logic for Option<bool> {
    ghost use Rattle.std.proofs.Common.{lit≤};

    ghost top = { Some true };

    ghost bottom = { Some false };

    ghost and = { kleene_and };

    ghost or = { kleene_or };

    ghost not = { kleene_not };

    ghost small = { (lit≤ tt, lit≤ tt) };

    fn top() -> Option<bool>
        ensures { result ≡ Some true }
    {
        Some(true)
    }

    fn bottom() -> Option<bool>
        ensures { result ≡ Some false }
    {
        Some(false)
    }

    fn and(self, other: Option<bool>) -> Option<bool>
        ensures { result ≡ kleene_and self other }
    {
        match (self, other) {
            (Some(false), _) | (_, Some(false)) => Some(false),
            (Some(true), Some(true)) => Some(true),
            _ => None,
        }
    }

    fn or(self, other: Option<bool>) -> Option<bool>
        ensures { result ≡ kleene_or self other }
    {
        match (self, other) {
            (Some(false), Some(false)) => Some(false),
            (Some(true), _) | (_, Some(true)) => Some(true),
            _ => None,
        }
    }

    fn not(self) -> Option<bool>
        ensures { result ≡ kleene_not self }
    {
        self.map(|known| !known)
    }
}
