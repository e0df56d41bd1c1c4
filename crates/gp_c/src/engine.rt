//! What stands behind a handle: a chassis that is closed where it is dropped.
ghost use Rattle.std.specs.Prelude.{◌≡◌, ◌↔◌, ◌⊎◌, IfOk, IfErr, OnOk, OnErr};
ghost use Rattle.std.specs.Option.{ForSome};
ghost use Rattle.gp_ploam.specs.Down.{IsProperDown};
ghost use Rattle.gp_c.specs.Entries.{entry_at};
ghost use Rattle.gp_c.specs.Serves.{IsServed, Refuses, IsCut, KeepsJournal, row_at, counts_at};

use crate::answer::{AnswerNumbers, answer_of};
use crate::counts::{PortCounts, counts_of};
use crate::fault::Fault;
use crate::kept::KeptEntry;
use crate::row::{RowNumbers, row_of};
use gp_chassis::{ChassisCore, CoreFault};
use gp_machine::{Event, Receipt};
use gp_ploam::Serial;
use std::alloc::Global;
use std::marker::Model;
use std::sync::ledger::Ledger;

/// A chassis with its licences. Contracts see the chassis.
pub struct Engine<L: Ledger> {
    pub(crate) core: ChassisCore<L>,
}

impl<L: Ledger> Model for Engine<L> {
    ghost use Rattle.gp_machine.specs.Codes.{port_codes};
    ghost use Rattle.gp_machine.specs.contracts.entry.Entry as entry;
    ghost use Rattle.gp_chassis.specs.Core.{CoreState};

    ghost Value = { CoreState };

    ghost coded = { Prim.hlevel (port_codes, entry.the_row.coded) };

    ghost view = { λ e. e.core };
}

impl<L: Ledger> Engine<L> {
    /// Serves an event at a port, and tells by numbers what it gave.
    #[inline(always)]
    pub(crate) fn apply(&mut self, port: u8, event: Event) -> Result<AnswerNumbers, Fault>
        ensures ok { IfOk result (λ answer. IsServed self.old port event self.new answer) }
        ensures err { OnErr result (self.new ≡ self.old) }
        ensures refuses { IfErr result (λ fault. Refuses self.old port fault) }
    {
        let Some(desk) = self.core.desk(port) else {
            return Err(Fault::NoPort);
        };
        let mask = desk.config().mask;
        let number = match self.core.apply_in_place(port, event, None) {
            Ok(number) => number,
            Err(fault) => return Err(fault_of(fault)),
        };
        match self.core.last_entry(port) {
            Some(entry) => Ok(answer_of(mask, number, &entry.answer)),
            None => unreachable!(),
        }
    }

    /// Tells what a port knows of the unit with this serial number. The faults are `NoPort` and `NoUnit`.
    #[inline(always)]
    pub(crate) fn show(&self, port: u8, serial: &Serial) -> Result<RowNumbers, Fault>
        ensures { result ≡ row_at self.now port serial.now }
    {
        let Some(desk) = self.core.desk(port) else {
            return Err(Fault::NoPort);
        };
        match desk.core().row_of(serial) {
            Some(row) => Ok(row_of(&row)),
            None => Err(Fault::NoUnit),
        }
    }

    /// Tells how many licences are free.
    pub(crate) fn free(&self) -> u32
        ensures { result ≡ self.now.free }
    {
        self.core.free()
    }

    /// Tells what is counted of a port. The fault is `NoPort`.
    pub(crate) fn tally(&self, port: u8) -> Result<PortCounts, Fault>
        ensures { result ≡ counts_at self.now port }
    {
        match self.core.desk(port) {
            Some(desk) => Ok(counts_of(desk)),
            None => Err(Fault::NoPort),
        }
    }

    /// Gives an entry that a port's journal keeps. The faults are `NoPort` and `NoEntry`.
    pub(crate) fn entry(&self, port: u8, number: u64) -> Result<KeptEntry, Fault>
        ensures kept { result ≡ entry_at self.now port number }
        ensures proper { IfOk result (λ kept. ForSome kept.receipt.entry.answer.sent IsProperDown) }
    {
        let Some(desk) = self.core.desk(port) else {
            return Err(Fault::NoPort);
        };
        let journal = desk.journal();
        match journal.entry_at(number) {
            Some(entry) => Ok(KeptEntry {
                mask: desk.config().mask,
                receipt: Receipt {
                    port,
                    number,
                    entry,
                },
            }),
            None => Err(Fault::NoEntry),
        }
    }

    /// Lets go what a port's journal keeps, and begins it anew. The faults are `NoPort` and `OutOfMemory`.
    pub(crate) fn cut(&mut self, alloc: Global, port: u8) -> Result<(), Fault>
        ensures ok { OnOk result (IsCut self.old port self.new) }
        ensures err { OnErr result (self.new ≡ self.old) }
        ensures refuses { IfErr result (λ fault. KeepsJournal self.old port fault) }
    {
        match self.core.cut(alloc, port) {
            Ok(_piece) => {}
            Err(fault) => return Err(fault_of(fault)),
        }
        Ok(())
    }
}

impl<L: Ledger> Drop for Engine<L> {
    fn drop(self) {
        let Engine { core } = self;
        core.close();
    }
}

/// The same fault, told by this library. There is always an actor 0.
fn fault_of(fault: CoreFault) -> Fault
    requires { fault ≡ CoreFault.NoActor → ⊥ }
    ensures no_port { (result ≡ Fault.NoPort) ↔ (fault ≡ CoreFault.NoPort) }
    ensures full { (result ≡ Fault.JournalFull) ↔ (fault ≡ CoreFault.JournalFull) }
    ensures only { (result ≡ Fault.NoPort) ⊎ (result ≡ Fault.JournalFull) ⊎ (result ≡ Fault.OutOfMemory) }
{
    match fault {
        CoreFault::NoPort => Fault::NoPort,
        CoreFault::JournalFull => Fault::JournalFull,
        CoreFault::OutOfMemory => Fault::OutOfMemory,
        CoreFault::NoActor => unreachable!(),
    }
}
