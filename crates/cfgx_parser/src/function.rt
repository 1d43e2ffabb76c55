//! The functions of conditions, and their order.
ghost use Rattle.std.specs.Prelude.{◌≡◌, ◌↔◌, IsTrue};
ghost use Rattle.std.specs.Cmp.{partial_order_from_own_ties};
ghost use Rattle.std.specs.Cmp.Rules.{comparing};
ghost use Rattle.std.specs.Ordering.{as_partial_cmp};
ghost use Rattle.std.proofs.Common.{rules};
ghost use Rattle.cfgx_parser.specs.Order.{func_cmp, func_eq, func_members, func_rank};

use std::cmp::Ordering;

/// A function of a condition, by its name alone.
#[derive(Clone, Copy)]
pub(crate) enum FuncKind {
    /// `not`
    Not,
    /// `all`
    All,
    /// `any`
    Any,
}

/// A function of a condition, with the number of its members.
#[derive(Clone, Copy, Debug)]
pub enum Func {
    /// `not()`, which has one member
    Not,
    /// `all()`, with the number of its members
    All(usize),
    /// `any()`, with the number of its members
    Any(usize),
}

impl Func {
    /// Returns the rank of the name in the order of functions.
    fn rank(self) -> u8
        ensures { result ≡ func_rank self }
    {
        match self {
            Func::Not => 0,
            Func::All(_) => 1,
            Func::Any(_) => 2,
        }
    }

    /// Returns the number of members.
    pub fn members(self) -> usize
        ensures { result ≡ func_members self }
    {
        match self {
            Func::Not => 1,
            Func::All(count) | Func::Any(count) => count,
        }
    }
}

/// Two functions are equal if they have the same name and the same number of members.
impl PartialEq for Func {
    ghost eq = { func_eq };

    ghost laws = { Prim.search (comparing, rules) };

    fn eq(&self, other: &Self) -> bool
        ensures { IsTrue result ↔ (self.now ≡ other.now) }
    {
        match (self, other) {
            (Func::Not, Func::Not) => true,
            (Func::All(one), Func::All(other)) | (Func::Any(one), Func::Any(other)) => one == other,
            _ => false,
        }
    }
}

impl Eq for Func {
    ghost laws = { Prim.search (comparing, rules) };
}

impl PartialOrd for Func {
    ghost partial_cmp = { as_partial_cmp func_cmp };

    ghost laws = { partial_order_from_own_ties (Prim.search (comparing, rules))
        (Prim.search (comparing, rules)) };

    fn partial_cmp(&self, other: &Self) -> Option<Ordering> {
        Some(self.cmp(other))
    }
}

/// Functions are ordered by name (`not`, `all`, `any`), and then by the number of their members.
impl Ord for Func {
    ghost cmp = { func_cmp };

    ghost total = { Prim.search (comparing, rules) };

    ghost matches_partial_cmp = { Prim.search (comparing, rules) };

    ghost matches_eq = { Prim.search (comparing, rules) };

    fn cmp(&self, other: &Self) -> Ordering
        ensures { result ≡ func_cmp self.now other.now }
    {
        self.rank()
            .cmp(&other.rank())
            .then(self.members().cmp(&other.members()))
    }
}
