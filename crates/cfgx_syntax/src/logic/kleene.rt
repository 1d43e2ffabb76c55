//! Sixty-four answers that may be unknown, joined all at once.
#![tactic(auto, using(crate::proofs::LaneLemmas::lanes))]

ghost use Rattle.std.specs.Prelude.{◌≡◌, ◌<◌, Some, true, false, IsTrue};
ghost use Rattle.cfgx_syntax.specs.Kleene.{AreDisjoint, EachLane, IsDisjoint, behind, lane};
ghost use Rattle.cfgx_syntax.specs.Kleene.{planes_and, planes_bottom, planes_not, planes_or};
ghost use Rattle.cfgx_syntax.specs.Kleene.{planes_top};
ghost use Rattle.cfgx_syntax.specs.Logic.{kleene_and, kleene_not, kleene_or};

use super::Logic;
use std::marker::Model;

/// Sixty-four answers, each true, false or unknown: lane `i` is bit `i` of two planes, where bit 0
/// is the lowest. No lane is both true and false. Equal answers are equal in each lane.
#[derive(Clone, Copy, Debug)]
pub struct Kleene64 {
    is_true: u64,
    is_false: u64,
}

impl Model for Kleene64 {
    ghost use Rattle.cfgx_syntax.specs.Kleene.{AreDisjoint, Planes};

    ghost Value = { Planes };

    ghost view = { λ k. record { is_true = k.is_true; is_false = k.is_false } };

    ghost invariant = { λ k. AreDisjoint k.is_true k.is_false };

    ghost inverse = { λ p. record { is_true = p.is_true; is_false = p.is_false } };
}

impl PartialEq for Kleene64 {
    ghost use Rattle.std.specs.Prelude.{◌↔◌};
    ghost use Rattle.std.proofs.Common.{rules};
    ghost use Rattle.std.specs.Cmp.Rules.{comparing};
    ghost use Rattle.cfgx_syntax.specs.Kleene.{planes_eq};

    ghost eq = { planes_eq };

    ghost laws = { Prim.search (comparing, rules) };

    fn eq(&self, other: &Self) -> bool
        ensures value { result ≡ planes_eq self.now other.now }
        ensures same { IsTrue result ↔ (self.now ≡ other.now) }
    {
        (self.is_true, self.is_false) == (other.is_true, other.is_false)
    }
}

impl Eq for Kleene64 {
    ghost use Rattle.std.proofs.Common.{rules};
    ghost use Rattle.std.specs.Cmp.Rules.{comparing};

    ghost laws = { Prim.search (comparing, rules) };
}

impl Kleene64 {
    /// The answers whose true lanes are the bits of `is_true`, and whose false lanes are those of
    /// `is_false`. No bit may stand in both.
    pub fn new(is_true: u64, is_false: u64) -> Kleene64
        requires { AreDisjoint is_true is_false }
        ensures { result ≡ record { is_true = is_true; is_false = is_false } }
    {
        Kleene64 { is_true, is_false }
    }

    /// The lanes that are true, as bits.
    pub fn is_true(&self) -> u64
        ensures { result ≡ self.now.is_true }
    {
        self.is_true
    }

    /// The lanes that are false, as bits.
    pub fn is_false(&self) -> u64
        ensures { result ≡ self.now.is_false }
    {
        self.is_false
    }

    /// Whether no lane is both true and false, which is so of every value.
    pub(super) fn is_disjoint(&self) -> bool
        ensures holds { IsTrue result }
        ensures disjoint { IsDisjoint self.now }
    {
        (self.is_true & self.is_false) == 0
    }

    /// The answer in lane `i`, which is below 64: `None` if it is unknown.
    pub fn lane(&self, i: usize) -> Option<bool>
        requires { i < 64 }
        ensures { result ≡ lane i self.now }
    {
        if (self.is_true >> i) & 1 == 1 {
            Some(true)
        } else if (self.is_false >> i) & 1 == 1 {
            Some(false)
        } else {
            None
        }
    }

    /// Moves each lane up by one, and puts `answer` into lane 0. What was in lane 63 is gone.
    pub fn push_front(self, answer: Option<bool>) -> Kleene64
        ensures { EachLane result (behind answer (λ i. lane i self)) }
    {
        Kleene64 {
            is_true: self.is_true << 1 | u64::from(answer == Some(true)),
            is_false: self.is_false << 1 | u64::from(answer == Some(false)),
        }
    }
}

/// Each operation does in every lane what it does on `Option<bool>`.
impl Logic for Kleene64 {
    ghost use Rattle.std.proofs.Common.{lit≤};

    ghost top = { planes_top };

    ghost bottom = { planes_bottom };

    ghost and = { planes_and };

    ghost or = { planes_or };

    ghost not = { planes_not };

    ghost small = { (lit≤ tt, lit≤ tt) };

    fn top() -> Kleene64
        ensures planes { result ≡ planes_top }
        ensures lanes { EachLane result (λ _. Some true) }
    {
        Kleene64::new(u64::MAX, 0)
    }

    fn bottom() -> Kleene64
        ensures planes { result ≡ planes_bottom }
        ensures lanes { EachLane result (λ _. Some false) }
    {
        Kleene64::new(0, u64::MAX)
    }

    fn and(self, other: Kleene64) -> Kleene64
        ensures planes { result ≡ planes_and self other }
        ensures lanes { EachLane result (λ i. kleene_and (lane i self) (lane i other)) }
    {
        Kleene64 {
            is_true: self.is_true & other.is_true,
            is_false: self.is_false | other.is_false,
        }
    }

    fn or(self, other: Kleene64) -> Kleene64
        ensures planes { result ≡ planes_or self other }
        ensures lanes { EachLane result (λ i. kleene_or (lane i self) (lane i other)) }
    {
        Kleene64 {
            is_true: self.is_true | other.is_true,
            is_false: self.is_false & other.is_false,
        }
    }

    fn not(self) -> Kleene64
        ensures planes { result ≡ planes_not self }
        ensures lanes { EachLane result (λ i. kleene_not (lane i self)) }
    {
        Kleene64 {
            is_true: self.is_false,
            is_false: self.is_true,
        }
    }
}
