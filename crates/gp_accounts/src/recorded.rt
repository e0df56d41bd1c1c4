//! What keeps numbered entries of one port, in order, as a trait: a journal is such.
ghost use Rattle.std.specs.Prelude.{◌≡◌};
ghost use Rattle.gp_journal.specs.Kept.{History, history_of};

use gp_journal::Journal;
use gp_machine::Entry;

/// What keeps numbered entries of one port, in order.
pub trait Recorded {
    ghost history: { Self → History };

    /// Gives the number of the first entry that is kept.
    fn first(&self) -> u64
        ensures { result ≡ (history self.now).first };

    /// Gives the entries that are kept, in order.
    fn entries(&self) -> &[Entry]
        ensures { result.now ≡ (history self.now).entries };
}

impl Recorded for Journal {
    ghost history = { history_of };

    fn first(&self) -> u64 {
        Journal::first(self)
    }

    fn entries(&self) -> &[Entry] {
        Journal::entries(self)
    }
}
