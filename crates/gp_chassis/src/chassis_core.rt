//! `ChassisCore`, the chassis on one thread: its ports, the book of licences and the hands of its actors. What actors
//! do is a move of `specs/World.antt`; a call that is refused changes nothing.
ghost use Rattle.std.specs.Prelude.{ℕ, ◌≡◌, ◌+◌, ◌<◌, ◌≤◌, ◌↔◌, length, map, slice_get, slice_index, slice_set, None, Some, Err, IfOk, IfErr, OnOk, OnErr, MatchOption, sum_by, All};
ghost use Rattle.std.specs.Option.{ForSome};
ghost use Rattle.std.specs.Result.{result_err};
ghost use Rattle.gp_ploam.specs.Down.{IsProperDown};
ghost use Rattle.gp_chassis.specs.Desk.{opened};
ghost use Rattle.gp_chassis.specs.Limits.{IsWithin};
ghost use Rattle.gp_chassis.specs.World.{Take, Port, Give, ChassisStep, HoldsApart, hand, taken, given, units_of};
ghost use Rattle.gp_chassis.specs.World.{actors, world_opened};
ghost use Rattle.gp_chassis.specs.Core.{Stands, CoreServes, CoreCuts, AppliesWishing, CoreAppliesInPlace, FailsAt};
ghost use Rattle.gp_chassis.specs.Core.{CoreServesInPlace, JoinsAt, IsFullAt, world_of, core_opened, with_licences};
ghost use Rattle.gp_chassis.specs.Core.{lent, last_kept_at};

use crate::config::ChassisConfig;
use crate::desk::PortDesk;
use crate::fault::{ApplyFault, CoreFault};
use crate::hands::{close_desks, empty_hands, give_hands, pull, put};
use gp_journal::Piece;
use gp_licence::{LicenceBook, Licences, MAX_LICENCES};
use gp_linear::NeverDropped;
use gp_machine::{Entry, Event, PortConfig, Receipt};
use gp_port::OpenFault;
use std::alloc::Global;
use std::marker::Model;
use std::sync::ledger::{Blank, Ledger};

/// Up to sixteen ports with their journals, the book of their licences, and the hands of 64 actors, numbered from 0.
/// Ports are numbered from 0 too. Contracts see all of it.
///
/// There is no `Drop`: a chassis ends by `close`.
pub struct ChassisCore<L: Ledger> {
    desks: Vec<PortDesk<L>>,
    book: LicenceBook<L>,
    hands: Vec<Licences<L>>,
}

impl<L: Ledger> NeverDropped for ChassisCore<L> {}

impl<L: Ledger> Model for ChassisCore<L> {
    ghost use Rattle.gp_machine.specs.Codes.{port_codes};
    ghost use Rattle.gp_machine.specs.contracts.entry.Entry as entry;
    ghost use Rattle.gp_chassis.specs.Core.{CoreState, Stands};

    ghost Value = { CoreState };

    ghost coded = { Prim.hlevel (port_codes, entry.the_row.coded) };

    ghost view = { λ c. record
        { desks = c.desks.items; free = c.book.free; hands = c.hands.items; licences = c.book.total } };

    ghost invariant = { λ c. Stands
        (record { desks = c.desks.items; free = c.book.free; hands = c.hands.items; licences = c.book.total }) };
}

impl<L: Ledger> ChassisCore<L> {
    /// Opens a chassis: each port with no units, in standby, all licences free, and all hands empty.
    /// `OpenFault::Limit` where the configuration is outside its limits or admits a serial number twice, on one port
    /// or on two; else `OutOfMemory`.
    ///
    /// `blank` is a new ledger of `MAX_LICENCES` parts, made by `Blank::new`, and `L` its name.
    pub fn begin(
        alloc: Global,
        blank: Blank,
        config: &ChassisConfig,
    ) -> Result<ChassisCore<L>, OpenFault>
        requires name { blank.name ≡ L.name }
        requires parts { (blank.parts ≡ L.parts) × (L.parts ≡ MAX_LICENCES) }
        ensures ok { IfOk result
            (λ core. core ≡ core_opened config.now.ports.items config.now.licences config.now.journal_limit) }
        ensures world { IfOk result (λ core. world_of core ≡ world_opened config.now.ports.items config.now.licences) }
        ensures limit { IsWithin config.now → result ≡ Err OpenFault.Limit → ⊥ }
        ensures outside { (IsWithin config.now → ⊥) → result ≡ Err OpenFault.Limit }
    {
        if !config.is_within(alloc) {
            return Err(OpenFault::Limit);
        }
        let book = LicenceBook::new(blank, config.licences);
        let opened = open_desks(alloc, config.ports.as_slice(), config.journal_limit, book);
        let (desks, book) = match opened {
            Ok(opened) => opened,
            Err(fault) => return Err(fault),
        };
        let Ok(hands) = empty_hands(alloc) else {
            close_desks(desks, book).close(Licences::none());
            return Err(OpenFault::OutOfMemory);
        };
        Ok(ChassisCore { desks, book, hands })
    }

    /// States what holds of a chassis whatever was called: each port came to where it stands by the entries that its
    /// journal keeps, no two active units of a port share an ONU-ID or an Alloc-ID and a disabled serial number holds
    /// none, each licence is free, in an actor's hands or with an active unit, and so there are no more active units
    /// than licences.
    pub fn stands(&self)
        ensures all { Stands self.now }
        ensures apart { All HoldsApart (world_of self.now).ports }
        ensures few { units_of (world_of self.now) ≤ self.now.licences }
    {
        // The invariant is known once a field is looked at.
        let _ = &self.book;
    }

    /// Tells how many ports there are.
    pub fn ports(&self) -> usize
        ensures { result ≡ length self.now.desks }
    {
        self.desks.len()
    }

    /// Gives the port with this number and its journal, if it is there.
    pub fn desk(&self, port: u8) -> Option<&PortDesk<L>>
        ensures { MatchOption result (slice_get self.now.desks port ≡ None)
            (λ desk. slice_get self.now.desks port ≡ Some desk.now) }
    {
        if usize::from(port) >= self.desks.len() {
            return None;
        }
        Some(&self.desks[usize::from(port)])
    }

    /// Tells how many licences are free: neither in an actor's hands nor with an active unit.
    pub fn free(&self) -> u32
        ensures { result ≡ self.now.free }
    {
        self.book.free()
    }

    /// Takes one licence into the actor's hands, if they are empty and one is free, and tells how many are then in
    /// them. The only fault is `NoActor`. It takes no memory.
    pub fn take(&mut self, actor: u8) -> Result<u32, CoreFault>
        ensures ok { OnOk result (self.new ≡ with_licences self.old (taken actor (world_of self.old))) }
        ensures step { OnOk result (ChassisStep (Take actor) (world_of self.old) (world_of self.new)) }
        ensures count { IfOk result (λ count. count ≡ hand (world_of self.new) actor) }
        ensures err { OnErr result (self.new ≡ self.old) }
        ensures no_actor { (result ≡ Err CoreFault.NoActor) ↔ (actors ≤ actor) }
        ensures only { IfErr result (λ fault. fault ≡ CoreFault.NoActor) }
    {
        let actor = usize::from(actor);
        if actor >= self.hands.len() {
            return Err(CoreFault::NoActor);
        }
        self.take_in(actor);
        Ok(self.hands[actor].count())
    }

    /// Makes one step of a port with all that is in the actor's hands, and records it; what the port leaves is then
    /// in them.
    pub fn step(&mut self, actor: u8, port: u8, event: Event) -> Result<Receipt, CoreFault>
        ensures ok { IfOk result (λ receipt. CoreServes self.old self.new actor port event receipt) }
        ensures step { IfOk result
            (λ receipt. ChassisStep (Port actor port receipt.entry) (world_of self.old) (world_of self.new)) }
        ensures proper { IfOk result (λ receipt. ForSome receipt.entry.answer.sent IsProperDown) }
        ensures err { OnErr result (self.new ≡ self.old) }
        ensures no_actor { (result ≡ Err CoreFault.NoActor) ↔ (actors ≤ actor) }
        ensures no_port { (result ≡ Err CoreFault.NoPort) ↔ ((actor < actors) × (length self.old.desks ≤ port)) }
        ensures full { (actor < actors) → port < length self.old.desks
            → IfErr result (λ fault. (fault ≡ CoreFault.JournalFull) ↔ IsFullAt self.old port) }
    {
        let actor = usize::from(actor);
        if actor >= self.hands.len() {
            return Err(CoreFault::NoActor);
        }
        if usize::from(port) >= self.desks.len() {
            return Err(CoreFault::NoPort);
        }
        let number = self.serve_from(actor, port, event, None)?;
        Ok(self.last_receipt(port, number))
    }

    /// Makes all that is in the actor's hands free again. The only fault is `NoActor`. It takes no memory.
    pub fn give(&mut self, actor: u8) -> Result<(), CoreFault>
        ensures ok { OnOk result (self.new ≡ with_licences self.old (given actor (world_of self.old))) }
        ensures step { OnOk result (ChassisStep (Give actor) (world_of self.old) (world_of self.new)) }
        ensures err { OnErr result (self.new ≡ self.old) }
        ensures no_actor { (result ≡ Err CoreFault.NoActor) ↔ (actors ≤ actor) }
        ensures only { IfErr result (λ fault. fault ≡ CoreFault.NoActor) }
    {
        let actor = usize::from(actor);
        if actor >= self.hands.len() {
            return Err(CoreFault::NoActor);
        }
        self.give_from(actor);
        Ok(())
    }

    /// Serves an event as actor 0: takes a licence for a burst, makes the port's step, and gives back what it leaves.
    /// A burst is handed no licence only where none is free.
    pub fn apply(&mut self, port: u8, event: Event) -> Result<Receipt, CoreFault>
        ensures ok { IfOk result (λ receipt. AppliesWishing self.old self.new port event None receipt) }
        ensures fault { FailsAt self.old self.new port (result_err result) }
    {
        let number = self.apply_in_place(port, event, None)?;
        Ok(self.last_receipt(port, number))
    }

    /// Does the same, and hands out the wished number where it is free and one is handed out.
    pub fn apply_wishing(
        &mut self,
        port: u8,
        event: Event,
        wished: Option<u16>,
    ) -> Result<Receipt, CoreFault>
        ensures ok { IfOk result (λ receipt. AppliesWishing self.old self.new port event wished receipt) }
        ensures fault { FailsAt self.old self.new port (result_err result) }
    {
        let number = self.apply_in_place(port, event, wished)?;
        Ok(self.last_receipt(port, number))
    }

    /// Does the same, and gives the number of the entry alone, which `last_entry` then lends.
    pub fn apply_in_place(
        &mut self,
        port: u8,
        event: Event,
        wished: Option<u16>,
    ) -> Result<u64, CoreFault>
        ensures ok { IfOk result (λ number. CoreAppliesInPlace self.old self.new port event wished number) }
        ensures fault { FailsAt self.old self.new port (result_err result) }
    {
        if usize::from(port) >= self.desks.len() {
            return Err(CoreFault::NoPort);
        }
        let before = self.hands[0].count();
        self.lend(&event);
        match self.serve_from(0, port, event, wished) {
            Ok(number) => {
                self.give_from(0);
                Ok(number)
            }
            Err(fault) => {
                if self.hands[0].count() != before {
                    self.give_from(0);
                }
                Err(fault)
            }
        }
    }

    /// Lends the last entry that the journal of this port keeps, if the port is there and its journal keeps one.
    pub fn last_entry(&self, port: u8) -> Option<&Entry>
        ensures { MatchOption result (last_kept_at self.now port ≡ None)
            (λ entry. last_kept_at self.now port ≡ Some entry.now) }
    {
        if usize::from(port) >= self.desks.len() {
            return None;
        }
        self.desks[usize::from(port)].last_entry()
    }

    /// Hands out what a port's journal keeps, and begins it anew after that: the next entry has the next number. The
    /// faults are `NoPort` and `OutOfMemory`.
    pub fn cut(&mut self, alloc: Global, port: u8) -> Result<Piece, CoreFault>
        ensures ok { IfOk result (λ piece. CoreCuts self.old self.new port piece) }
        ensures joins { IfOk result (λ piece. JoinsAt self.new port piece) }
        ensures world { world_of self.new ≡ world_of self.old }
        ensures err { OnErr result (self.new ≡ self.old) }
        ensures no_port { (result ≡ Err CoreFault.NoPort) ↔ (length self.old.desks ≤ port) }
        ensures only { IfErr result (λ fault. (fault ≡ CoreFault.NoActor → ⊥) × (fault ≡ CoreFault.JournalFull → ⊥)) }
    {
        let port = usize::from(port);
        if port >= self.desks.len() {
            return Err(CoreFault::NoPort);
        }
        let desk = &mut self.desks[port];
        let Ok(piece) = desk.cut(alloc) else {
            return Err(CoreFault::OutOfMemory);
        };
        Ok(piece)
    }

    /// Ends the chassis, and tells how many licences came back: all that it was opened with. It takes no memory.
    pub fn close(self) -> u32
        ensures licences { result ≡ self.licences }
        ensures stands { Stands self }
    {
        let ChassisCore { desks, book, hands } = self;
        close_desks(desks, give_hands(hands, book)).close(Licences::none())
    }

    /// Takes one licence into the actor's hands, if they are empty and one is free.
    fn take_in(&mut self, actor: usize)
        requires { actor < length self.old.hands }
        ensures { self.new ≡ with_licences self.old (taken actor (world_of self.old)) }
    {
        if self.hands[actor].count() == 0 && self.book.free() > 0 {
            let one = self.book.take();
            put(&mut self.hands, actor, one);
        }
    }

    /// Makes all that is in the actor's hands free again.
    fn give_from(&mut self, actor: usize)
        requires { actor < length self.old.hands }
        ensures { self.new ≡ with_licences self.old (given actor (world_of self.old)) }
    {
        let back = pull(&mut self.hands, actor);
        self.book.give(back);
    }

    /// Takes a licence into the hands of actor 0 for a burst.
    fn lend(&mut self, event: &Event)
        requires { 0 < length self.old.hands }
        ensures { self.new ≡ lent event.now self.old }
    {
        if let Event::Burst { .. } = event {
            self.take_in(0);
        }
    }

    /// Has the desk of a port serve an event with all that is in the actor's hands, and hand out the wished number
    /// where it can. The entry then stands in the port's journal, and its number is told.
    fn serve_from(
        &mut self,
        actor: usize,
        port: u8,
        event: Event,
        wished: Option<u16>,
    ) -> Result<u64, CoreFault>
        requires actor { actor < length self.old.hands }
        requires port { port < length self.old.desks }
        ensures ok { IfOk result (λ number. CoreServesInPlace self.old self.new actor port event wished number) }
        ensures err { OnErr result (self.new ≡ self.old) }
        ensures full { IfErr result (λ fault. (fault ≡ CoreFault.JournalFull) ↔ IsFullAt self.old port) }
        ensures only { IfErr result (λ fault. (fault ≡ CoreFault.NoActor → ⊥) × (fault ≡ CoreFault.NoPort → ⊥)) }
    {
        let purse = pull(&mut self.hands, actor);
        let desk = &mut self.desks[usize::from(port)];
        match desk.serve_in_place(purse, event, wished) {
            Ok((number, rest)) => {
                put(&mut self.hands, actor, rest);
                Ok(number)
            }
            Err((fault, purse)) => {
                put(&mut self.hands, actor, purse);
                Err(fault_of(fault))
            }
        }
    }

    /// Gives the receipt of the last entry that the journal of this port keeps, with this number of the entry.
    #[inline(always)]
    fn last_receipt(&self, port: u8, number: u64) -> Receipt
        requires { last_kept_at self.now port ≡ None → ⊥ }
        ensures port { result.port ≡ port }
        ensures number { result.number ≡ number }
        ensures entry { last_kept_at self.now port ≡ Some result.entry }
    {
        self.desks[usize::from(port)].last_receipt(port, number)
    }
}

/// Opens a desk for each configuration. Where there is no memory, the book ends, with the desks that were opened so
/// far.
fn open_desks<L: Ledger>(
    alloc: Global,
    configs: &[PortConfig],
    journal_limit: u32,
    book: LicenceBook<L>,
) -> Result<(Vec<PortDesk<L>>, LicenceBook<L>), OpenFault>
    ensures ok { IfOk result (λ desks. (desks.0.items ≡ map (opened journal_limit) configs.now) × (desks.1 ≡ book)) }
    ensures err { IfErr result (λ fault. fault ≡ OpenFault.OutOfMemory) }
{
    let Ok(mut desks) = Vec::with_capacity(alloc, configs.len()) else {
        book.close(Licences::none());
        return Err(OpenFault::OutOfMemory);
    };
    for config in configs {
        let Ok(desk) = PortDesk::begin(alloc, config, journal_limit) else {
            close_desks(desks, book).close(Licences::none());
            return Err(OpenFault::OutOfMemory);
        };
        desks.push_reserved(desk);
    }
    Ok((desks, book))
}

/// The same fault, told by the chassis.
fn fault_of(fault: ApplyFault) -> CoreFault
    ensures full { (result ≡ CoreFault.JournalFull) ↔ (fault ≡ ApplyFault.JournalFull) }
    ensures only { (result ≡ CoreFault.NoActor → ⊥) × (result ≡ CoreFault.NoPort → ⊥) }
{
    match fault {
        ApplyFault::JournalFull => CoreFault::JournalFull,
        _ => CoreFault::OutOfMemory,
    }
}
