//! The port, the book of its licences, the units, and what was sent: the parts that steps and frames of a run are made
//! of. Once room is made for what may be sent, none of them fails.
ghost use Rattle.std.specs.Prelude.{◌≡◌, ◌+◌, ◌<◌, ◌≤◌, ◌++◌, [], IfSome, OnOk, length};
ghost use Rattle.std.specs.Option.{ForSome, option_to_list};
ghost use Rattle.gp_ploam.specs.Down.{IsProperDown};
ghost use Rattle.gp_machine.specs.State.{rows_of};
ghost use Rattle.gp_onu.specs.declared.limits.TheConstants.{MAX_DELAY, MAX_SIMULATED_UNITS};
ghost use Rattle.gp_onu.specs.Table.{Dark, Light};
ghost use Rattle.gp_fibre.specs.declared.world.TheConstants.{MAX_FRAMES};
ghost use Rattle.gp_fibre.specs.UnitStore.{IsCodeFor, IsNextAsked, IsNextOf, onu_id_meant};
ghost use Rattle.gp_fibre.specs.Forgetting.{FibreForgets, forgotten_before};
ghost use Rattle.gp_fibre.specs.World.{kept_at, nothing_forgotten, status_at};
ghost use Rattle.gp_fibre.specs.Step.{PortTakes, UnitAnswers, UnitChanges, purse_for, unit_hearing, unit_taking, world_after_frame};

use super::sent::Sent;
use super::sent_burst::SentBurst;
use super::unit_store::UnitStore;
use gp_licence::{LicenceBook, Licences};
use gp_machine::{Entry, Event};
use gp_onu::UnitStatus;
use gp_ploam::Down;
use gp_port::PortCore;
use gp_ranging::Grant;
use std::alloc::{AllocError, Global};
use std::marker::Model;
use std::sync::ledger::Ledger;

/// The port, the book of its licences, the units, and what was sent.
pub struct Fibre<L: Ledger> {
    pub(super) core: PortCore<L>,
    pub(super) book: LicenceBook<L>,
    pub(super) store: UnitStore,
    copies: Sent<Down>,
    grants: Sent<Grant>,
    bursts: Sent<SentBurst>,
}

impl<L: Ledger> Model for Fibre<L> {
    ghost use Rattle.std.specs.Prelude.{◌≡◌, ◌+◌, ◌-◌, ◌≤◌, All, [], vec_capacity, vec_len};
    ghost use Rattle.gp_ploam.specs.Down.{IsProperDown};
    ghost use Rattle.gp_machine.specs.Codes.{port_codes};
    ghost use Rattle.gp_machine.specs.State.{rows_of};
    ghost use Rattle.gp_ploam.specs.declared.message.Down.TheVariants.{NoMessage};
    ghost use Rattle.gp_ranging.specs.declared.grant.Grant.TheVariants.{Search};
    ghost use Rattle.gp_fibre.specs.Fibre.{FibreStand};
    ghost use Rattle.gp_fibre.specs.Sent.{with_blanks};
    ghost use Rattle.gp_fibre.specs.Step.{burst_with};
    ghost use Rattle.gp_fibre.specs.declared.sent.TheConstants.{MAX_FORGOTTEN};

    ghost Value = { FibreStand };

    ghost coded = { Prim.hlevel port_codes };

    ghost view = { λ f. record {
      world = record {
        port = f.core;
        free = f.book.free;
        units = f.store.units;
        copies = with_blanks NoMessage f.copies.forgotten f.copies.items.items;
        grants = with_blanks Search f.grants.forgotten f.grants.items.items;
        bursts = with_blanks (burst_with 0 []) f.bursts.forgotten f.bursts.items.items;
        forgotten = record { copies = f.copies.forgotten; grants = f.grants.forgotten; bursts = f.bursts.forgotten };
      };
      total = f.book.total;
      frames = f.store.frames;
      copies_room = vec_capacity f.copies.items - vec_len f.copies.items;
      grants_room = vec_capacity f.grants.items - vec_len f.grants.items;
      bursts_room = vec_capacity f.bursts.items - vec_len f.bursts.items;
    } };

    ghost invariant = { λ f. All IsProperDown f.copies.items.items × (f.book.free + rows_of f.core ≡ f.book.total)
        × (f.copies.forgotten ≤ MAX_FORGOTTEN) × (f.grants.forgotten ≤ MAX_FORGOTTEN)
        × (f.bursts.forgotten ≤ MAX_FORGOTTEN) };
}

impl<L: Ledger> Fibre<L> {
    /// Begins with this port, this book of licences and these units. Nothing was sent.
    pub fn new(alloc: Global, core: PortCore<L>, book: LicenceBook<L>, store: UnitStore) -> Fibre<L>
        requires { book.free + rows_of core ≡ book.total }
        ensures port { result.world.port ≡ core }
        ensures free { result.world.free ≡ book.free }
        ensures units { result.world.units ≡ store.units }
        ensures nothing { (result.world.copies ≡ []) × (result.world.grants ≡ []) × (result.world.bursts ≡ []) }
        ensures forgotten { result.world.forgotten ≡ nothing_forgotten }
        ensures total { result.total ≡ book.total }
        ensures frames { result.frames ≡ store.frames }
    {
        Fibre {
            core,
            book,
            store,
            copies: Sent::new(alloc),
            grants: Sent::new(alloc),
            bursts: Sent::new(alloc),
        }
    }

    /// Gives the port.
    pub fn core(&self) -> &PortCore<L>
        ensures { result.now ≡ self.now.world.port }
    {
        &self.core
    }

    /// Tells how many licences are free.
    pub fn free(&self) -> u32
        ensures { result ≡ self.now.world.free }
    {
        self.book.free()
    }

    /// Makes room for what so many events of the port may send and grant, and for so many bursts. It fails only where
    /// there is no memory.
    pub fn reserve(&mut self, events: usize, bursts: usize) -> Result<(), AllocError>
        ensures world { self.new.world ≡ self.old.world }
        ensures total { self.new.total ≡ self.old.total }
        ensures frames { self.new.frames ≡ self.old.frames }
        ensures copies { OnOk result (events ≤ self.new.copies_room) }
        ensures grants { OnOk result (events ≤ self.new.grants_room) }
        ensures bursts { OnOk result (bursts ≤ self.new.bursts_room) }
    {
        self.copies.reserve(events)?;
        self.grants.reserve(events)?;
        self.bursts.reserve(bursts)
    }

    /// Gives the port an event. A burst takes a licence first, where one is free, and what is left is free again.
    // Inlined, so that the entry is made where the caller wants it.
    #[inline(always)]
    pub fn take(&mut self, event: Event) -> Entry
        requires copies { 0 < self.old.copies_room }
        requires grants { 0 < self.old.grants_room }
        ensures taken { PortTakes self.old.world event result self.new.world }
        ensures total { self.new.total ≡ self.old.total }
        ensures frames { self.new.frames ≡ self.old.frames }
        ensures proper { ForSome result.answer.sent IsProperDown }
        ensures copies_room { self.old.copies_room ≤ self.new.copies_room + 1 }
        ensures grants_room { self.old.grants_room ≤ self.new.grants_room + 1 }
        ensures bursts { self.new.bursts_room ≡ self.old.bursts_room }
    {
        let mut entry = Entry::blank();
        self.take_into(event, &mut entry);
        entry
    }

    /// Does the same, and writes the entry where the caller wants it, whatever stood there.
    #[inline(always)]
    pub fn take_into(&mut self, event: Event, entry: &mut Entry)
        requires copies { 0 < self.old.copies_room }
        requires grants { 0 < self.old.grants_room }
        ensures taken { PortTakes self.old.world event entry.new self.new.world }
        ensures total { self.new.total ≡ self.old.total }
        ensures frames { self.new.frames ≡ self.old.frames }
        ensures proper { ForSome entry.new.answer.sent IsProperDown }
        ensures copies_room { self.old.copies_room ≤ self.new.copies_room + 1 }
        ensures grants_room { self.old.grants_room ≤ self.new.grants_room + 1 }
        ensures bursts { self.new.bursts_room ≡ self.old.bursts_room }
    {
        let purse = take_purse(&mut self.book, &event);
        let rest = self.core.step_entry(purse, event, None, entry);
        self.book.give(rest);
        self.copies.add(entry.answer.sent);
        self.grants.add(entry.answer.grant);
    }

    /// Gives the copy with this number, if it was sent and not forgotten.
    pub fn copy_at(&self, number: u64) -> Option<Down>
        ensures value { result ≡ kept_at self.now.world.forgotten.copies self.now.world.copies number }
        ensures proper { ForSome result IsProperDown }
    {
        self.copies.get(number)
    }

    /// Gives the grant with this number, if it was issued and not forgotten.
    pub fn grant_at(&self, number: u64) -> Option<Grant>
        ensures { result ≡ kept_at self.now.world.forgotten.grants self.now.world.grants number }
    {
        self.grants.get(number)
    }

    /// Gives the burst with this number, if a unit answered with it and it was not forgotten.
    pub fn burst_at(&self, number: u64) -> Option<SentBurst>
        ensures { result ≡ kept_at self.now.world.forgotten.bursts self.now.world.bursts number }
    {
        self.bursts.get(number)
    }

    /// Tells how many units there are.
    pub fn units(&self) -> usize
        ensures value { result ≡ length self.now.world.units }
        ensures few { result ≤ MAX_SIMULATED_UNITS }
    {
        self.store.len()
    }

    /// Tells what the unit at a place is, if there is one.
    pub fn status(&self, place: usize) -> Option<UnitStatus>
        ensures { result ≡ status_at self.now.world.units place }
    {
        self.store.status(place)
    }

    /// Tells how many copies were sent.
    pub fn copies(&self) -> u64
        ensures value { result ≡ length self.now.world.copies }
        ensures kept { self.now.world.forgotten.copies ≤ result }
    {
        self.copies.count()
    }

    /// Tells how many grants were issued.
    pub fn grants(&self) -> u64
        ensures value { result ≡ length self.now.world.grants }
        ensures kept { self.now.world.forgotten.grants ≤ result }
    {
        self.grants.count()
    }

    /// Tells how many bursts the units answered with.
    pub fn bursts(&self) -> u64
        ensures value { result ≡ length self.now.world.bursts }
        ensures kept { self.now.world.forgotten.bursts ≤ result }
    {
        self.bursts.count()
    }

    /// Tells how many frames the units have had.
    pub fn frames(&self) -> u64
        ensures value { result ≡ self.now.frames }
        ensures fits { result ≤ MAX_FRAMES }
    {
        self.store.frames()
    }

    /// Finds the first place from `from` on whose unit a message may be meant for.
    pub fn next_meant(&self, message: &Down, from: u16) -> Option<u16>
        ensures next { IsNextOf self.now.world.units (onu_id_meant message.now) from result }
        ensures few { IfSome result (λ place. place < MAX_SIMULATED_UNITS) }
    {
        self.store.next_meant(message, from)
    }

    /// Lets a copy of a message reach a unit. Its code is made for the first that heeds it, and kept for the others.
    pub fn hear(&mut self, place: usize, message: &Down, code: &mut Option<[u8; 13]>)
        requires place { place < length self.old.world.units }
        requires proper { IsProperDown message.now }
        requires code { ForSome code.old (IsCodeFor self.old.world.units message.now) }
        ensures unit { UnitChanges self.old.world place (unit_hearing message.now) self.new.world }
        ensures rest { self.new ≡ record self.old { world = self.new.world } }
        ensures code { ForSome code.new (IsCodeFor self.new.world.units message.now) }
    {
        self.store.hear(place, message, code);
    }

    /// Lets light reach a unit.
    pub fn light(&mut self, place: usize)
        requires { place < length self.old.world.units }
        ensures unit { UnitChanges self.old.world place (unit_taking Light) self.new.world }
        ensures rest { self.new ≡ record self.old { world = self.new.world } }
    {
        self.store.light(place);
    }

    /// Takes the light from a unit.
    pub fn dark(&mut self, place: usize)
        requires { place < length self.old.world.units }
        ensures unit { UnitChanges self.old.world place (unit_taking Dark) self.new.world }
        ensures rest { self.new ≡ record self.old { world = self.new.world } }
    {
        self.store.dark(place);
    }

    /// Finds the first place from `from` on whose unit a grant asks.
    pub fn next_asked(&self, grant: Grant, from: u16) -> Option<u16>
        ensures next { IsNextAsked self.now.world.units grant from result }
        ensures few { IfSome result (λ place. place < MAX_SIMULATED_UNITS) }
    {
        self.store.next_asked(grant, from)
    }

    /// Lets a grant reach a unit, and gives its burst, if it answers with one: that is the next burst.
    pub fn give(&mut self, place: usize, grant: Grant) -> Option<SentBurst>
        requires place { place < length self.old.world.units }
        requires room { 0 < self.old.bursts_room }
        ensures unit { UnitAnswers self.old.world place grant self.new.world }
        ensures answer { self.new.world.bursts ≡ self.old.world.bursts ++ option_to_list result }
        ensures near { ForSome result (λ burst. burst.at ≤ MAX_DELAY) }
        ensures rest { self.new ≡ record self.old { world = self.new.world; bursts_room = self.new.bursts_room } }
        ensures room { self.old.bursts_room ≤ self.new.bursts_room + 1 }
    {
        let answer = self.store.grant(place, grant);
        self.bursts.add(answer);
        answer
    }

    /// Ends a frame of each unit.
    pub fn end_frame(&mut self)
        requires { self.old.frames < MAX_FRAMES }
        ensures { self.new
            ≡ record self.old { world = world_after_frame self.old.world; frames = self.old.frames + 1 } }
    {
        self.store.frame();
    }

    /// Forgets all copies and grants, and the bursts before the one with this number. How many there were stays, and so
    /// does the room that they took.
    pub fn forget(&mut self, burst: u64)
        requires kept { self.old.world.forgotten.bursts ≤ burst }
        requires sent { burst ≤ length self.old.world.bursts }
        ensures forgets { FibreForgets self.old.world self.new.world }
        ensures forgotten { self.new.world.forgotten
            ≡ forgotten_before (length self.old.world.copies) (length self.old.world.grants) burst }
        ensures total { self.new.total ≡ self.old.total }
        ensures frames { self.new.frames ≡ self.old.frames }
    {
        self.copies.forget_before(self.copies.count());
        self.grants.forget_before(self.grants.count());
        self.bursts.forget_before(burst);
    }

    /// Ends it, and says how many licences it has in all.
    pub fn close(self) -> u32
        ensures { result ≡ self.total }
    {
        let Fibre {
            core,
            book,
            store: _,
            copies: _,
            grants: _,
            bursts: _,
        } = self;
        book.close(core.close())
    }
}

/// Takes the licences for an event: one for a burst, where one is free.
fn take_purse<L: Ledger>(book: &mut LicenceBook<L>, event: &Event) -> Licences<L>
    ensures purse { result ≡ purse_for event.now book.old.free }
    ensures free { book.new.free + result ≡ book.old.free }
    ensures total { book.new.total ≡ book.old.total }
{
    match event {
        Event::Burst { .. } => book.take(),
        Event::Frame | Event::Command(_) => Licences::none(),
    }
}
