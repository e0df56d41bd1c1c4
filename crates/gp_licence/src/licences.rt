//! Licences in somebody's hands: they are split and joined, and can't be lost or made up.
ghost use Rattle.std.specs.Prelude.{◌≡◌, ℕ, ◌+◌, ◌<◌, ◌≤◌, IfSome, IfNone};
ghost use Rattle.gp_licence.specs.Limits.{max_licences};

use crate::ledger_parts::LedgerParts;
use gp_linear::NeverDropped;
use std::marker::Model;
use std::mem;
use std::sync::ledger::Ledger;

/// Some licences of one book, or none. Contracts see their number.
///
/// There is no `Drop`: who holds licences joins them to others, gives them back to the book, or
/// shows that there are none left (`drop_empty`). `L` names the book that they are from, so
/// licences of two books can't be brought together.
pub struct Licences<L: Ledger> {
    count: u32,
    parts: Option<LedgerParts<L>>,
}

impl<L: Ledger> NeverDropped for Licences<L> {}

impl<L: Ledger> Model for Licences<L> {
    ghost use Rattle.std.specs.Prelude.{◌≡◌, ℕ, ◌≤◌, IfSome, IfNone};
    ghost use Rattle.gp_licence.specs.Limits.{max_licences};

    ghost Value = { ℕ };

    ghost view = { λ l. l.count };

    ghost invariant = { λ l. IfSome l.parts (λ p. p ≡ l.count) × IfNone l.parts (l.count ≡ 0)
        × (l.count ≤ max_licences) };
}

impl<L: Ledger> Licences<L> {
    /// Makes no licences, for any book.
    pub fn none() -> Licences<L>
        ensures { result ≡ 0 }
    {
        Licences {
            count: 0,
            parts: None,
        }
    }

    /// Makes as many licences as there are parts.
    pub(crate) fn of_parts(count: u32, parts: LedgerParts<L>) -> Licences<L>
        requires count { parts ≡ count }
        requires most { count ≤ max_licences }
        ensures { result ≡ count }
    {
        Licences {
            count,
            parts: Some(parts),
        }
    }

    /// Gives the parts of the ledger that stand for these licences.
    pub(crate) fn into_parts(self) -> Option<LedgerParts<L>>
        ensures some { IfSome result (λ p. p ≡ self) }
        ensures none { IfNone result (self ≡ 0) }
    {
        let Licences { count: _, parts } = self;
        parts
    }

    /// Tells how many there are.
    pub fn count(&self) -> u32
        ensures count { result ≡ self.now }
        ensures most { result ≤ max_licences }
    {
        self.count
    }

    /// Joins both, all of them.
    pub fn join(self, other: Licences<L>) -> Licences<L>
        ensures { result ≡ self + other }
    {
        let Licences { count, parts } = self;
        let Licences {
            count: more,
            parts: others,
        } = other;
        match (parts, others) {
            (None, parts) => Licences { count: more, parts },
            (parts, None) => Licences { count, parts },
            (Some(mut parts), Some(others)) => {
                parts.merge(others);
                Licences {
                    count: count + more,
                    parts: Some(parts),
                }
            }
        }
    }

    /// Adds others to these, in place.
    pub fn absorb(&mut self, others: Licences<L>)
        ensures { self.new ≡ self.old + others }
    {
        let held = mem::replace(self, Licences::none());
        mem::replace(self, held.join(others)).drop_empty();
    }

    /// Splits these into one and the rest.
    pub fn split_one(self) -> (Licences<L>, Licences<L>)
        requires { 0 < self }
        ensures one { result.0 ≡ 1 }
        ensures rest { result.1 + 1 ≡ self }
    {
        let mut rest = self;
        let one = rest.split_off_one();
        (one, rest)
    }

    /// Takes one off these, in place.
    pub fn split_off_one(&mut self) -> Licences<L>
        requires { 0 < self.old }
        ensures one { result ≡ 1 }
        ensures rest { self.new + 1 ≡ self.old }
    {
        self.split_off(1)
    }

    /// Takes so many off these, in place.
    pub fn split_off(&mut self, count: u32) -> Licences<L>
        requires some { 0 < count }
        requires there { count ≤ self.old }
        ensures taken { result ≡ count }
        ensures rest { self.new + count ≡ self.old }
    {
        let Licences { count: held, parts } = self;
        let Some(parts) = parts else {
            unreachable!();
        };
        *held -= count;
        Licences::of_parts(count, parts.split_off(count))
    }

    /// Ends a value that holds no licence.
    pub fn drop_empty(self)
        requires { self ≡ 0 }
    {
        if let Some(parts) = self.into_parts() {
            parts.end();
        }
    }
}
