//! A port with its journal: the entries that are kept always tell how the port came to stand where it stands.
ghost use Rattle.std.specs.Prelude.{◌≡◌, ◌≤◌, ◌↔◌, length, None, Some, IfOk, IfErr, OnErr, MatchOption, IsErrOf, IsTrue};
ghost use Rattle.gp_machine.specs.State.{rows_of};
ghost use Rattle.gp_machine.specs.Run.{entry_outcome};
ghost use Rattle.gp_port.specs.Numbers.{GrantsWish};
ghost use Rattle.gp_chassis.specs.Desk.{DeskStands, HasRoom, MayOpen, Serves, ServesInPlace, Cuts, opened, last_kept};
ghost use Rattle.gp_machine.specs.Config.{max_journal_limit};

use crate::fault::ApplyFault;
use gp_journal::{Journal, Piece};
use gp_licence::Licences;
use gp_linear::NeverDropped;
use gp_machine::{Entry, Event, MAX_JOURNAL_LIMIT, PortConfig, Receipt};
use gp_port::{ImageFault, OpenFault, PortCore, PortImage};
use std::alloc::Global;
use std::marker::Model;
use std::sync::ledger::Ledger;

/// A port with its journal. Contracts see how many entries the journal may keep, what it keeps, and where the port
/// stands.
///
/// The entries that are kept always tell how the port came to stand where it stands. There is no `Drop`: a desk ends by
/// `close`.
pub struct PortDesk<L: Ledger> {
    core: PortCore<L>,
    journal: Journal,
    limit: u32,
}

impl<L: Ledger> NeverDropped for PortDesk<L> {}

impl<L: Ledger> Model for PortDesk<L> {
    ghost use Rattle.std.specs.Prelude.{◌≤◌, length};
    ghost use Rattle.gp_machine.specs.Codes.{port_codes};
    ghost use Rattle.gp_machine.specs.contracts.entry.Entry as entry;
    ghost use Rattle.gp_machine.specs.Config.{max_journal_limit};
    ghost use Rattle.gp_chassis.specs.Desk.{DeskState, DeskStands};

    ghost Value = { DeskState };

    ghost coded = { Prim.hlevel (port_codes, entry.the_row.coded) };

    ghost view = { λ d. record {
      limit = d.limit;
      first = d.journal.first;
      base = d.journal.base;
      entries = d.journal.entries;
      state = d.core;
    } };

    ghost invariant = { λ d. DeskStands (record {
      limit = d.limit;
      first = d.journal.first;
      base = d.journal.base;
      entries = d.journal.entries;
      state = d.core;
    })
        × (length d.journal.entries ≤ d.limit)
        × (d.limit ≤ max_journal_limit) };
}

impl<L: Ledger> PortDesk<L> {
    /// Opens a port of this configuration, with a journal that keeps so many entries at most, 1 to `MAX_JOURNAL_LIMIT`.
    /// `OpenFault` says when it is not opened.
    pub fn begin(
        alloc: Global,
        config: &PortConfig,
        journal_limit: u32,
    ) -> Result<PortDesk<L>, OpenFault>
        ensures ok { IfOk result (λ desk. desk ≡ opened journal_limit config.now) }
        ensures limit { IsErrOf result OpenFault.Limit ↔ (MayOpen config.now journal_limit → ⊥) }
    {
        if journal_limit == 0 || journal_limit > MAX_JOURNAL_LIMIT {
            return Err(OpenFault::Limit);
        }
        let core = PortCore::begin(alloc, config)?;
        Ok(PortDesk {
            core,
            journal: Journal::new(alloc),
            limit: journal_limit,
        })
    }

    /// Tells whether the journal may keep an entry more.
    pub fn has_room(&self) -> bool
        ensures { IsTrue result ↔ HasRoom self.now }
    {
        self.journal.entries().len() < self.limit as usize && self.journal.len() < u64::MAX
    }

    /// Makes one step of the port with these licences at hand, and records it. `port` is the number that the receipt
    /// has. What the port leaves of the licences is given back, and all of them where there is a fault:
    /// `JournalFull`, else `OutOfMemory`.
    // Inlined, so that the receipt is made where the caller wants it.
    #[inline(always)]
    pub fn serve(
        &mut self,
        port: u8,
        purse: Licences<L>,
        event: Event,
    ) -> Result<(Receipt, Licences<L>), (ApplyFault, Licences<L>)>
        ensures ok { IfOk result (λ served. Serves self.old self.new port purse event served.0 served.1) }
        ensures err { IfErr result (λ fault. (fault.1 ≡ purse) × (self.new ≡ self.old)) }
        ensures full { IfErr result (λ fault. (fault.0 ≡ ApplyFault.JournalFull) ↔ (HasRoom self.old → ⊥)) }
        ensures some_port { IfErr result (λ fault. fault.0 ≡ ApplyFault.NoPort → ⊥) }
    {
        self.serve_wishing(port, purse, event, None)
    }

    /// Does the same, and hands out the wished number where it is free and one is handed out.
    #[inline(always)]
    pub fn serve_wishing(
        &mut self,
        port: u8,
        purse: Licences<L>,
        event: Event,
        wished: Option<u16>,
    ) -> Result<(Receipt, Licences<L>), (ApplyFault, Licences<L>)>
        ensures ok { IfOk result (λ served. Serves self.old self.new port purse event served.0 served.1) }
        ensures err { IfErr result (λ fault. (fault.1 ≡ purse) × (self.new ≡ self.old)) }
        ensures full { IfErr result (λ fault. (fault.0 ≡ ApplyFault.JournalFull) ↔ (HasRoom self.old → ⊥)) }
        ensures some_port { IfErr result (λ fault. fault.0 ≡ ApplyFault.NoPort → ⊥) }
        ensures wished { IfOk result
            (λ served. GrantsWish purse self.old.state event wished (entry_outcome served.0.entry self.new.state)) }
    {
        match self.serve_in_place(purse, event, wished) {
            Ok((number, rest)) => Ok((self.last_receipt(port, number), rest)),
            Err(fault) => Err(fault),
        }
    }

    /// Makes the step and records it in the journal alone, as the last entry there, and gives the entry's number.
    // The entry is written to the journal once: whoever wants it copies it out, or borrows it there.
    #[inline(always)]
    pub(crate) fn serve_in_place(
        &mut self,
        purse: Licences<L>,
        event: Event,
        wished: Option<u16>,
    ) -> Result<(u64, Licences<L>), (ApplyFault, Licences<L>)>
        ensures ok { IfOk result (λ kept. ServesInPlace self.old self.new purse event wished kept.0 kept.1) }
        ensures err { IfErr result (λ fault. (fault.1 ≡ purse) × (self.new ≡ self.old)) }
        ensures full { IfErr result (λ fault. (fault.0 ≡ ApplyFault.JournalFull) ↔ (HasRoom self.old → ⊥)) }
        ensures some_port { IfErr result (λ fault. fault.0 ≡ ApplyFault.NoPort → ⊥) }
    {
        if !self.has_room() {
            return Err((ApplyFault::JournalFull, purse));
        }
        if self.journal.reserve_one().is_err() {
            return Err((ApplyFault::OutOfMemory, purse));
        }
        let number = self.journal.len();
        let rest = self.journal.record(&mut self.core, purse, event, wished);
        Ok((number, rest))
    }

    /// Gives the receipt of the last entry that the journal keeps, with these numbers of the port and of the entry.
    #[inline(always)]
    pub(crate) fn last_receipt(&self, port: u8, number: u64) -> Receipt
        requires { last_kept self.now ≡ None → ⊥ }
        ensures port { result.port ≡ port }
        ensures number { result.number ≡ number }
        ensures entry { last_kept self.now ≡ Some result.entry }
    {
        match self.last_entry() {
            Some(entry) => Receipt {
                port,
                number,
                entry: *entry,
            },
            None => unreachable!(),
        }
    }

    /// Lends the last entry that the journal keeps, if it keeps one.
    #[inline(always)]
    pub(crate) fn last_entry(&self) -> Option<&Entry>
        ensures { MatchOption result (last_kept self.now ≡ None) (λ entry. last_kept self.now ≡ Some entry.now) }
    {
        self.journal.entries().last()
    }

    /// Hands out what the journal keeps, and begins it anew after that: the next entry has the next number. Memory is
    /// taken for two images of the port; without it nothing changes.
    pub fn cut(&mut self, alloc: Global) -> Result<Piece, ImageFault>
        ensures ok { IfOk result (λ piece. Cuts self.old self.new piece) }
        ensures err { OnErr result (self.new ≡ self.old) }
    {
        let base = self.core.image(alloc)?;
        let to = base.try_clone(alloc)?;
        Ok(self.cut_at(base, to))
    }

    /// Hands out what the journal keeps, and begins it anew after that, with two images of where the port stands. It
    /// takes no memory.
    pub fn cut_at(&mut self, base: PortImage, to: PortImage) -> Piece
        requires base { base ≡ self.old.state }
        requires to { to ≡ self.old.state }
        ensures { Cuts self.old self.new result }
    {
        self.journal.cut(base, to)
    }

    /// Gives the port.
    pub fn core(&self) -> &PortCore<L>
        ensures { result.now ≡ self.now.state }
    {
        &self.core
    }

    /// Gives what the port was opened with.
    pub fn config(&self) -> &PortConfig
        ensures { result.now ≡ self.now.state.config }
    {
        self.core.config()
    }

    /// Gives the journal, which tells how the port came to stand where it stands.
    pub fn journal(&self) -> &Journal
        ensures first { result.now.first ≡ self.now.first }
        ensures base { result.now.base ≡ self.now.base }
        ensures entries { result.now.entries ≡ self.now.entries }
        ensures stands { DeskStands self.now }
        ensures kept { length self.now.entries ≤ max_journal_limit }
    {
        &self.journal
    }

    /// Ends the port, with its journal and the licence of each active unit.
    pub fn close(self) -> (Journal, Licences<L>)
        ensures first { result.0.first ≡ self.first }
        ensures base { result.0.base ≡ self.base }
        ensures entries { result.0.entries ≡ self.entries }
        ensures stands { DeskStands self }
        ensures licences { result.1 ≡ rows_of self.state }
    {
        let PortDesk {
            core,
            journal,
            limit: _,
        } = self;
        (journal, core.close())
    }
}
