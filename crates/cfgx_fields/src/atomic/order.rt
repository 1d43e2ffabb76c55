//! The order of widths.
ghost use Rattle.std.specs.Prelude.{◌≡◌, refl};
ghost use Rattle.std.specs.Cmp.{partial_order_from_agreeing_total};
ghost use Rattle.std.specs.Ordering.{as_partial_cmp};
ghost use Rattle.cfgx_fields.specs.HasAtomic.{atomic_cmp};
ghost use Rattle.cfgx_fields.specs.laws.Orders.{atomic_cmp-total, atomic_eq-ties};

use super::HasAtomic;
use std::cmp::Ordering;

impl PartialOrd for HasAtomic {
    ghost partial_cmp = { as_partial_cmp atomic_cmp };

    ghost laws = { partial_order_from_agreeing_total atomic_cmp atomic_cmp-total (λ _ _. refl)
        atomic_eq-ties };

    fn partial_cmp(&self, other: &Self) -> Option<Ordering> {
        Some(self.cmp(other))
    }
}

impl Ord for HasAtomic {
    ghost cmp = { atomic_cmp };

    ghost total = { atomic_cmp-total };

    ghost matches_partial_cmp = { λ _ _. refl };

    ghost matches_eq = { atomic_eq-ties };

    fn cmp(&self, other: &Self) -> Ordering
        ensures { result ≡ atomic_cmp self.now other.now }
    {
        match (self, other) {
            (HasAtomic::IntegerSize(bits), HasAtomic::IntegerSize(others)) => bits.cmp(others),
            (HasAtomic::IntegerSize(_), HasAtomic::Pointer) => Ordering::Less,
            (HasAtomic::Pointer, HasAtomic::IntegerSize(_)) => Ordering::Greater,
            (HasAtomic::Pointer, HasAtomic::Pointer) => Ordering::Equal,
        }
    }
}
