//! The parts of the ledger that stand for licences: the one file that calls `std::sync::ledger`.
ghost use Rattle.std.specs.Prelude.{◌≡◌, ℕ, ◌+◌, ◌<◌, ◌≤◌};
ghost use Rattle.gp_licence.specs.Limits.{max_licences};

use gp_linear::NeverDropped;
use std::marker::{Model, PhantomData};
use std::sync::ledger::{Blank, Ledger, Share};

/// The most licences that a book can have: one for each unit of 16 ports with 254 units each.
///
/// A book's ledger is cut into so many parts, whatever the book's own total.
pub const MAX_LICENCES: u32 = 4064;

/// States that `MAX_LICENCES` is the number that contracts have for it.
pub fn licences_are_limited()
    ensures { MAX_LICENCES ≡ max_licences }
{}

/// The ledger has no more parts than a book can have licences. It takes no bytes.
#[derive(Drop)]
struct Bounded<L: Ledger> {
    ledger: PhantomData<L>,
    ghost most: { L.parts ≤ max_licences },
}

impl<L: Ledger> Bounded<L> {
    /// Says the same once more, for other parts of the ledger.
    fn again(&self) -> Bounded<L> {
        // The field is read so that its bound is known of the new value, too.
        let _ = &self.ledger;
        Bounded {
            ledger: PhantomData,
        }
    }
}

/// A part of the ledger for each of some licences. Contracts see how many parts there are.
///
/// It takes no bytes, and has no `Drop`: only `end` lets it go.
pub(crate) struct LedgerParts<L: Ledger> {
    share: Share<L>,
    bounded: Bounded<L>,
}

impl<L: Ledger> NeverDropped for LedgerParts<L> {}

impl<L: Ledger> Model for LedgerParts<L> {
    ghost use Rattle.std.specs.Prelude.{◌≡◌, ℕ, ◌≤◌};
    ghost use Rattle.gp_licence.specs.Limits.{max_licences};

    ghost Value = { ℕ };

    ghost view = { λ p. p.share.parts };

    ghost invariant = { λ p. (p.share.amount ≡ 0) × (p.share.parts ≤ max_licences) };
}

impl<L: Ledger> LedgerParts<L> {
    /// Makes all parts of a new ledger.
    pub(crate) fn whole(blank: Blank) -> LedgerParts<L>
        requires name { blank.name ≡ L.name }
        requires parts { (blank.parts ≡ L.parts) × (L.parts ≡ max_licences) }
        ensures { result ≡ max_licences }
    {
        let (_book, share) = blank.open::<L>();
        let bounded = Bounded {
            ledger: PhantomData,
        };
        LedgerParts { share, bounded }
    }

    /// Takes one part off.
    pub(crate) fn split_one(&mut self) -> LedgerParts<L>
        requires { 0 < self.old }
        ensures one { result ≡ 1 }
        ensures rest { self.new + 1 ≡ self.old }
        ensures most { self.old ≤ max_licences }
    {
        self.split_off(1)
    }

    /// Takes so many parts off.
    pub(crate) fn split_off(&mut self, count: u32) -> LedgerParts<L>
        requires { count ≤ self.old }
        ensures taken { result ≡ count }
        ensures rest { self.new + count ≡ self.old }
        ensures most { self.old ≤ max_licences }
    {
        LedgerParts {
            share: self.share.split_off(u64::from(count), 0),
            bounded: self.bounded.again(),
        }
    }

    /// Adds the other's parts. Both have no more parts than the ledger.
    pub(crate) fn merge(&mut self, other: LedgerParts<L>)
        ensures sum { self.new ≡ self.old + other }
        ensures most { self.new ≤ max_licences }
    {
        let LedgerParts { share, bounded: _ } = other;
        // The field is read so that the bound on the ledger's parts is known of the sum.
        let _ = &self.bounded.ledger;
        self.share.merge(share);
    }

    /// Lets the parts go, at a book's end or where there are none.
    pub(crate) fn end(self) {
        let LedgerParts {
            share: _,
            bounded: Bounded { ledger: _ },
        } = self;
    }
}
