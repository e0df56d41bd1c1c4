//! `Journal`, the entries of a port since it was last cut, with numbers that count from the port's opening, and the
//! state before them. Room is made before a step, so that recording one takes no memory.
ghost use Rattle.std.specs.Prelude.{◌≡◌, ◌+◌, ◌<◌, ◌^◌, ◌++◌, ◌∷◌, [], None, Some, length, vec_len, vec_capacity, OnOk, OnErr, MatchOption};
ghost use Rattle.gp_journal.specs.Kept.{entry_in, history_of};
ghost use Rattle.gp_journal.specs.Recording.{Records};

use super::entries::Entries;
use super::fault::JournalFault;
use super::piece::Piece;
use gp_machine::{Entry, Event};
use gp_port::{Licences, PortCore, PortImage};
use std::alloc::Global;
use std::marker::Model;
use std::mem;
use std::sync::ledger::Ledger;

/// The entries of one port since its journal was last cut. Their numbers count from the opening of the port.
/// Contracts see the number of the first entry that is kept, the state before it, the entries, and for how many more
/// there is room.
#[derive(Drop)]
pub struct Journal {
    first: u64,
    base: Option<PortImage>,
    entries: Vec<Entry>,
}

impl Model for Journal {
    ghost use Rattle.std.specs.Prelude.{◌-◌, ◌+◌, ◌<◌, ◌^◌, vec_len, vec_capacity};
    ghost use Rattle.gp_machine.specs.Codes.{port_codes};
    ghost use Rattle.gp_machine.specs.contracts.entry.Entry as entry;
    ghost use Rattle.gp_journal.specs.Kept.{Kept};

    ghost Value = { Kept };

    ghost coded = { Prim.hlevel (port_codes, entry.the_row.coded) };

    ghost view = { λ j. record {
      first = j.first;
      base = j.base;
      entries = j.entries.items;
      room = vec_capacity j.entries - vec_len j.entries;
    } };

    ghost invariant = { λ j. j.first + vec_len j.entries < 2 ^ 64 };
}

impl Journal {
    /// Begins the journal of a port that was just opened. It takes no memory.
    pub fn new(alloc: Global) -> Journal
        ensures first { result.first ≡ 0 }
        ensures base { result.base ≡ None }
        ensures entries { result.entries ≡ [] }
    {
        Journal {
            first: 0,
            base: None,
            entries: Vec::new(alloc),
        }
    }

    /// Makes room for one entry more. Where there is none yet, the room doubles; what is recorded stays, also where
    /// the allocator refuses.
    pub fn reserve_one(&mut self) -> Result<(), JournalFault>
        ensures first { self.new.first ≡ self.old.first }
        ensures base { self.new.base ≡ self.old.base }
        ensures entries { self.new.entries ≡ self.old.entries }
        ensures room { OnOk result (0 < self.new.room) }
        ensures full { OnErr result (self.old.room ≡ 0) }
    {
        match self.entries.try_reserve(1) {
            Ok(()) => Ok(()),
            Err(_) => Err(JournalFault::OutOfMemory),
        }
    }

    /// Records an entry, and gives its number. It takes no memory.
    pub fn append(&mut self, entry: Entry) -> u64
        requires room { 0 < self.old.room }
        requires count { self.old.first + length self.old.entries + 1 < 2 ^ 64 }
        ensures number { result ≡ self.old.first + length self.old.entries }
        ensures first { self.new.first ≡ self.old.first }
        ensures base { self.new.base ≡ self.old.base }
        ensures entries { self.new.entries ≡ self.old.entries ++ entry ∷ [] }
        ensures room { self.new.room + 1 ≡ self.old.room }
    {
        let number = self.len();
        push_within(&mut self.entries, entry);
        number
    }

    /// Lets a port make a step, as its `step_wishing` does, and records it: the answer is written where it is kept.
    /// Gives what is left of the licences. It takes no memory.
    #[inline(always)]
    pub fn record<L: Ledger>(
        &mut self,
        core: &mut PortCore<L>,
        purse: Licences<L>,
        event: Event,
        wished: Option<u16>,
    ) -> Licences<L>
        requires room { 0 < self.old.room }
        requires count { self.old.first + length self.old.entries + 1 < 2 ^ 64 }
        ensures records { Records self.old.entries self.new.entries core.old core.new purse event wished result }
        ensures first { self.new.first ≡ self.old.first }
        ensures base { self.new.base ≡ self.old.base }
        ensures room { self.new.room + 1 ≡ self.old.room }
    {
        record_in(&mut self.entries, core, purse, event, wished)
    }

    /// Tells how many entries were ever recorded: the number of the next one.
    pub fn len(&self) -> u64
        ensures { result ≡ self.now.first + length self.now.entries }
    {
        self.first + self.entries.len() as u64
    }

    /// Gives the number of the first entry that is kept, or of the next one where none is.
    pub fn first(&self) -> u64
        ensures { result ≡ self.now.first }
    {
        self.first
    }

    /// Gives the state before that entry, or `None` where the journal goes back to the opening of the port.
    pub fn base(&self) -> Option<&PortImage>
        ensures { MatchOption result (self.now.base ≡ None) (λ image. self.now.base ≡ Some image.now) }
    {
        self.base.as_ref()
    }

    /// Gives the entry with this number, if it is kept.
    pub fn entry_at(&self, number: u64) -> Option<Entry>
        ensures { result ≡ entry_in (history_of self.now) number }
    {
        if number < self.first {
            return None;
        }
        self.entries.get((number - self.first) as usize).copied()
    }

    /// Gives the entries that are kept, in order.
    pub fn entries(&self) -> &[Entry]
        ensures { result.now ≡ self.now.entries }
    {
        self.entries.as_slice()
    }

    /// Hands out the entries that are kept, and begins anew after them. Both images are of the state in which these
    /// entries end. It takes no memory.
    pub fn cut(&mut self, base: PortImage, to: PortImage) -> Piece
        ensures first { result.first ≡ self.old.first }
        ensures from { result.from ≡ self.old.base }
        ensures entries { result.entries ≡ self.old.entries }
        ensures to { result.to ≡ to }
        ensures next { self.new.first ≡ self.old.first + length self.old.entries }
        ensures base { self.new.base ≡ Some base }
        ensures empty { self.new.entries ≡ [] }
    {
        let next = self.len();
        let first = mem::replace(&mut self.first, next);
        let alloc = *self.entries.allocator();
        let entries = mem::replace(&mut self.entries, Vec::new(alloc));
        let from = mem::replace(&mut self.base, Some(base));
        Piece {
            first,
            from,
            to,
            entries: Entries::from(entries),
        }
    }
}

/// Lets a port make a step, and writes its entry behind the others.
#[inline(always)]
fn record_in<L: Ledger>(
    entries: &mut Vec<Entry>,
    core: &mut PortCore<L>,
    purse: Licences<L>,
    event: Event,
    wished: Option<u16>,
) -> Licences<L>
    requires { vec_len entries.old < vec_capacity entries.old }
    ensures records { Records entries.old.items entries.new.items core.old core.new purse event wished result }
    ensures room { vec_capacity entries.new ≡ vec_capacity entries.old }
{
    let place = entries.len();
    push_within(entries, Entry::blank());
    core.step_entry(purse, event, wished, &mut entries[place])
}

/// Appends an item where there is room for it.
// Generic: the proof then needs not look into an entry, which has no proof at `push_reserved` itself.
fn push_within<T: Copy>(items: &mut Vec<T>, item: T)
    requires { vec_len items.old < vec_capacity items.old }
    ensures items { items.new.items ≡ items.old.items ++ item ∷ [] }
    ensures room { vec_capacity items.new ≡ vec_capacity items.old }
{
    items.push_reserved(item);
}
