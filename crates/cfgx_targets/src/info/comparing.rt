//! The equality and the order of targets.
ghost use Rattle.std.specs.Prelude.{◌≡◌, ◌↔◌, IsTrue, refl};
ghost use Rattle.std.specs.Cmp.{partial_equiv_from_equiv, partial_order_from_agreeing_total};
ghost use Rattle.std.specs.Ordering.{as_partial_cmp};
ghost use Rattle.cfgx_targets.specs.TargetInfo.{info_cmp, info_eq};
ghost use Rattle.cfgx_targets.specs.laws.TargetEquality.{info_eq-equiv};
ghost use Rattle.cfgx_targets.specs.laws.TargetOrder.{info_cmp-total, info_eq-ties};

use super::TargetInfo;
use cfgx_fields::atomic::HasAtomic;
use cfgx_fields::endian::Endian;
use std::alloc::Allocator;
use std::cmp::Ordering;

impl<A: Allocator> PartialEq for TargetInfo<'_, A> {
    ghost eq = { info_eq ⟦<Endian as PartialEq>⟧.eq ⟦<HasAtomic as PartialEq>⟧.eq };

    ghost laws = { partial_equiv_from_equiv info_eq-equiv };

    #[tactic(auto, using(crate::proofs::TargetLemmas::info_eq_tells))]
    fn eq(&self, other: &Self) -> bool
        ensures value { result
            ≡ info_eq ⟦<Endian as PartialEq>⟧.eq ⟦<HasAtomic as PartialEq>⟧.eq self.now other.now }
        ensures same { IsTrue result ↔ (self.now ≡ other.now) }
    {
        self.triple == other.triple
            && self.os == other.os
            && self.abi == other.abi
            && self.arch == other.arch
            && self.env == other.env
            && self.vendor == other.vendor
            && self.families == other.families
            && self.pointer_width == other.pointer_width
            && self.endian == other.endian
            && self.has_atomics == other.has_atomics
            && self.panic == other.panic
    }
}

impl<A: Allocator> Eq for TargetInfo<'_, A> {
    ghost laws = { info_eq-equiv };
}

impl<A: Allocator> PartialOrd for TargetInfo<'_, A> {
    ghost partial_cmp = { as_partial_cmp info_cmp };

    ghost laws = { partial_order_from_agreeing_total info_cmp info_cmp-total (λ _ _. refl)
        info_eq-ties };

    fn partial_cmp(&self, other: &Self) -> Option<Ordering> {
        Some(self.cmp(other))
    }
}

impl<A: Allocator> Ord for TargetInfo<'_, A> {
    ghost cmp = { info_cmp };

    ghost total = { info_cmp-total };

    ghost matches_partial_cmp = { λ _ _. refl };

    ghost matches_eq = { info_eq-ties };

    fn cmp(&self, other: &Self) -> Ordering
        ensures { result ≡ info_cmp self.now other.now }
    {
        self.triple
            .cmp(&other.triple)
            .then(self.os.cmp(&other.os))
            .then(self.abi.cmp(&other.abi))
            .then(self.arch.cmp(&other.arch))
            .then(self.env.cmp(&other.env))
            .then(self.vendor.cmp(&other.vendor))
            .then(self.families.cmp(&other.families))
            .then(self.pointer_width.cmp(&other.pointer_width))
            .then(self.endian.cmp(&other.endian))
            .then(self.has_atomics.cmp(&other.has_atomics))
            .then(self.panic.cmp(&other.panic))
    }
}
