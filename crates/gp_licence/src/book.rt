//! The book that hands licences out and takes them back.
ghost use Rattle.std.specs.Prelude.{◌≡◌, ℕ, ◌+◌, ◌≤◌, min};
ghost use Rattle.gp_licence.specs.Limits.{max_licences};

use crate::ledger_parts::LedgerParts;
use crate::licences::Licences;
use gp_linear::NeverDropped;
use std::marker::Model;
use std::sync::ledger::{Blank, Ledger};

/// All licences that nobody holds. Contracts see how many are free and how many there are in all.
///
/// There is no `Drop`: a book ends by `close`.
pub struct LicenceBook<L: Ledger> {
    free: u32,
    total: u32,
    parts: LedgerParts<L>,
}

impl<L: Ledger> NeverDropped for LicenceBook<L> {}

impl<L: Ledger> Model for LicenceBook<L> {
    ghost use Rattle.std.specs.Prelude.{◌≡◌, ◌+◌, ◌≤◌};
    ghost use Rattle.gp_licence.specs.Limits.{max_licences};
    ghost use Rattle.gp_licence.specs.Book.{BookState};

    ghost Value = { BookState };

    ghost view = { λ b. record { free = b.free; total = b.total } };

    // The book keeps the parts of the ledger that stand for no licence, too.
    ghost invariant = { λ b. (b.parts + b.total ≡ max_licences + b.free) × (b.free ≤ b.total)
        × (b.total ≤ max_licences) };
}

impl<L: Ledger> LicenceBook<L> {
    /// Makes a book of so many licences, all of them free, at most `MAX_LICENCES`.
    ///
    /// `blank` is a new ledger of `MAX_LICENCES` parts, made by `Blank::new`, and `L` its name.
    pub fn new(blank: Blank, total: u32) -> LicenceBook<L>
        requires name { blank.name ≡ L.name }
        requires parts { (blank.parts ≡ L.parts) × (L.parts ≡ max_licences) }
        requires total { total ≤ max_licences }
        ensures free { result.free ≡ total }
        ensures total { result.total ≡ total }
    {
        LicenceBook {
            free: total,
            total,
            parts: LedgerParts::whole(blank),
        }
    }

    /// Tells how many licences nobody holds.
    pub fn free(&self) -> u32
        ensures free { result ≡ self.now.free }
        ensures most { result ≤ self.now.total }
    {
        self.free
    }

    /// Tells how many licences the book was made with.
    pub fn total(&self) -> u32
        ensures total { result ≡ self.now.total }
        ensures most { result ≤ max_licences }
    {
        self.total
    }

    /// Takes one licence where one is free, else none.
    pub fn take(&mut self) -> Licences<L>
        ensures taken { result ≡ min 1 self.old.free }
        ensures free { self.new.free + result ≡ self.old.free }
        ensures total { self.new.total ≡ self.old.total }
    {
        if self.free == 0 {
            return Licences::none();
        }
        self.free -= 1;
        Licences::of_parts(1, self.parts.split_one())
    }

    /// Takes licences back. They are never more than are out.
    pub fn give(&mut self, back: Licences<L>)
        ensures free { self.new.free ≡ self.old.free + back }
        ensures total { self.new.total ≡ self.old.total }
        ensures most { self.old.free + back ≤ self.old.total }
    {
        let count = back.count();
        if let Some(parts) = back.into_parts() {
            self.parts.merge(parts);
            self.free += count;
        }
    }

    /// Ends the book, with all that its holders still have, and says how many licences came back.
    pub fn close(self, held: Licences<L>) -> u32
        ensures all { result ≡ self.free + held }
        ensures most { result ≤ self.total }
    {
        let mut book = self;
        book.give(held);
        let LicenceBook {
            free,
            total: _,
            parts,
        } = book;
        parts.end();
        free
    }
}
