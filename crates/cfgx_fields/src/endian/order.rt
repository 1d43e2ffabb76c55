//! The order of byte orders.
ghost use Rattle.std.specs.Prelude.{◌≡◌, refl};
ghost use Rattle.std.specs.Cmp.{partial_order_from_agreeing_total};
ghost use Rattle.std.specs.Ordering.{as_partial_cmp};
ghost use Rattle.cfgx_fields.specs.Endian.{endian_cmp};
ghost use Rattle.cfgx_fields.specs.laws.Orders.{endian_cmp-total, endian_eq-ties};

use super::Endian;
use std::cmp::Ordering;

impl PartialOrd for Endian {
    ghost partial_cmp = { as_partial_cmp endian_cmp };

    ghost laws = { partial_order_from_agreeing_total endian_cmp endian_cmp-total (λ _ _. refl)
        endian_eq-ties };

    fn partial_cmp(&self, other: &Self) -> Option<Ordering> {
        Some(self.cmp(other))
    }
}

impl Ord for Endian {
    ghost cmp = { endian_cmp };

    ghost total = { endian_cmp-total };

    ghost matches_partial_cmp = { λ _ _. refl };

    ghost matches_eq = { endian_eq-ties };

    fn cmp(&self, other: &Self) -> Ordering
        ensures { result ≡ endian_cmp self.now other.now }
    {
        match (self, other) {
            (Endian::big, Endian::little) => Ordering::Less,
            (Endian::little, Endian::big) => Ordering::Greater,
            _ => Ordering::Equal,
        }
    }
}
