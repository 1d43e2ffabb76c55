//! A logic of one's own.
use cfg_expr::expr::Logic;

/// The cost of a condition: `all` costs as much as its dearest member, and `any` as its cheapest.
#[derive(Clone, Copy)]
pub struct Cost(pub u64);

impl Logic for Cost {
    ghost use Rattle.std.proofs.Common.{lit≤};
    ghost use Rattle.std.specs.Prelude.{◌-◌, ◌^◌, max, min};

    ghost top = { record { 0 = 0 } };

    ghost bottom = { record { 0 = 2 ^ 64 - 1 } };

    ghost and = { λ one other. record { 0 = max one.0 other.0 } };

    ghost or = { λ one other. record { 0 = min one.0 other.0 } };

    ghost not = { λ one. one };

    // The size is at most 2^32 bytes. This line is the same for every type.
    ghost small = { (lit≤ tt, lit≤ tt) };

    fn top() -> Cost {
        Cost(0)
    }

    fn bottom() -> Cost {
        Cost(u64::MAX)
    }

    fn and(self, other: Cost) -> Cost {
        Cost(self.0.max(other.0))
    }

    fn or(self, other: Cost) -> Cost {
        Cost(self.0.min(other.0))
    }

    fn not(self) -> Cost {
        self
    }
}
