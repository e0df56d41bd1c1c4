//! What is cut from a journal, with the states before and behind it: pieces that follow one another are one run.
ghost use Rattle.std.specs.Prelude.{◌≡◌, ◌↔◌, length, IsTrue};
ghost use Rattle.gp_journal.specs.Kept.{entry_in};
ghost use Rattle.gp_journal.specs.Piece.{Joins, history_of_piece, PiecesAreOneRun};

use super::entries::Entries;
use gp_machine::Entry;
use gp_port::PortImage;

/// The entries from where a journal began up to where it was cut.
#[derive(Drop)]
pub struct Piece {
    /// The number of its first entry, counted from the opening of the port.
    pub first: u64,
    /// The state before its first entry, or `None` where the port was just opened.
    pub from: Option<PortImage>,
    /// The state after its last entry.
    pub to: PortImage,
    /// Its entries, in order.
    pub entries: Entries,
}

impl Piece {
    /// Tells how many entries the piece has.
    pub fn len(&self) -> u64
        ensures { result ≡ length self.now.entries }
    {
        self.entries.len() as u64
    }

    /// Gives the entry with this number, counted from the opening of the port, if the piece has it.
    pub fn entry_at(&self, number: u64) -> Option<Entry>
        ensures { result ≡ entry_in (history_of_piece self.now) number }
    {
        if number < self.first {
            return None;
        }
        self.entries
            .as_slice()
            .get((number - self.first) as usize)
            .copied()
    }

    /// Tells whether a journal or a piece that begins with this number and in this state follows the piece.
    pub fn joins(&self, first: u64, from: &PortImage) -> bool
        ensures { IsTrue result ↔ Joins self.now first from.now }
    {
        match self.first.checked_add(self.len()) {
            Some(end) => end == first && self.to.is_same_as(from),
            None => false,
        }
    }
}

/// Pieces that follow one another from the opening of a port up to where its journal begins are, with the entries of
/// the journal, one run from the opening.
pub fn pieces_are_one_run()
    ensures { PiecesAreOneRun }
{}
