//! A logic whose values are terms.
ghost use Rattle.std.specs.Prelude.{◌≡◌, ◌≤◌, ◌++◌, ◌∷◌, [], codes, length, take};
ghost use Rattle.cfgx_examples.specs.Terms.{cut, in_parens};

use cfg_expr::expr::Logic;
use std::marker::Model;

/// The most bytes of a term. Bytes past them are cut off.
const ROOM: usize = 64;

/// A term: `T`, `F`, `(x&y)`, `(x|y)`, `!x`, or the bytes of a caller. Contracts see its bytes.
#[derive(Debug, Drop)]
pub struct Term {
    bytes: [u8; ROOM],
    length: usize,
}

impl Model for Term {
    ghost use Rattle.std.specs.Prelude.{List, ℕ, ◌≤◌, take};

    ghost Value = { List ℕ };

    ghost view = { λ term. take term.length term.bytes };

    ghost invariant = { λ term. term.length ≤ 64 };
}

impl Term {
    /// Returns the term of `bytes`.
    pub fn new(bytes: &[u8]) -> Term
        ensures { result ≡ cut bytes.now }
    {
        let mut term = Term {
            bytes: [0; ROOM],
            length: 0,
        };
        term.append(bytes);
        term
    }

    /// Returns the bytes of the term.
    pub fn as_bytes(&self) -> &[u8]
        ensures { result.now ≡ self.now }
    {
        &self.bytes[..self.length]
    }

    /// Pushes a byte.
    pub fn push(&mut self, byte: u8)
        ensures { self.new ≡ cut (self.old ++ byte ∷ []) }
    {
        if self.length < ROOM {
            self.bytes[self.length] = byte;
            self.length += 1;
        }
    }

    /// Pushes each of `bytes`.
    fn append(&mut self, bytes: &[u8])
        ensures { self.new ≡ cut (self.old ++ bytes.now) }
    {
        let _within = self.length;
        for byte in bytes {
            self.push(*byte);
        }
    }

    /// Returns both terms in parentheses, with `sign` between them.
    fn join(&self, sign: u8, other: &Term) -> Term
        ensures { result ≡ in_parens sign self.now other.now }
    {
        let mut term = Term::new(b"(");
        term.append(self.as_bytes());
        term.push(sign);
        term.append(other.as_bytes());
        term.push(b')');
        term
    }
}

impl Logic for Term {
    ghost use Rattle.std.proofs.Common.{lit≤};

    ghost top = { codes "T" };

    ghost bottom = { codes "F" };

    ghost and = { in_parens 38 };

    ghost or = { in_parens 124 };

    ghost not = { λ term. cut (codes "!" ++ term) };

    ghost small = { (lit≤ tt, lit≤ tt) };

    fn top() -> Term {
        Term::new(b"T")
    }

    fn bottom() -> Term {
        Term::new(b"F")
    }

    fn and(self, other: Term) -> Term {
        self.join(b'&', &other)
    }

    fn or(self, other: Term) -> Term {
        self.join(b'|', &other)
    }

    fn not(self) -> Term {
        let mut term = Term::new(b"!");
        term.append(self.as_bytes());
        term
    }
}
