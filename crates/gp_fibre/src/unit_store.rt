//! The simulated units by their places. Contracts see each as it is after all frames; each is brought up to date only
//! before something else happens to it, or in the frame that ends its state.
ghost use Rattle.std.specs.Prelude.{◌≡◌, ◌+◌, ◌-◌, ◌<◌, ◌≤◌, ◌==◌, ℕ, All, IfOk, None, Some, if◌then◌else◌, length, map, false};
ghost use Rattle.std.specs.Option.{ForSome, IfSome, IsSome, option_map};
ghost use Rattle.gp_ploam.specs.Down.{IsProperDown, code_of_down};
ghost use Rattle.gp_ploam.specs.Mask.{mask_value};
ghost use Rattle.gp_onu.specs.Frames.{frames_left, unit_after_frames};
ghost use Rattle.gp_onu.specs.declared.limits.TheConstants.{MAX_DELAY, MAX_RANDOM_DELAY, MAX_SIMULATED_UNITS};
ghost use Rattle.gp_onu.specs.Table.{Dark, Frame, Light};
ghost use Rattle.std.specs.FinMap.{get};
ghost use Rattle.gp_fibre.specs.declared.world.TheConstants.{MAX_FRAMES};
ghost use Rattle.gp_fibre.specs.World.{planned_unit, status_at};
ghost use Rattle.gp_fibre.specs.Step.{ChangesAt, burst_with, unit_hearing, unit_taking};
ghost use Rattle.gp_fibre.specs.UnitStore.{Answers, IsCodeFor, IsNextAsked, IsNextOf, due_of, unit_at, with_timer};
ghost use Rattle.gp_fibre.specs.UnitStore as spec;

use super::asked_units::AskedUnits;
use super::sent_burst::SentBurst;
use super::stored_unit::StoredUnit;
use super::unit_plan::UnitPlan;
use gp_onu::UnitStatus;
use gp_ploam::{BROADCAST_ONU, Down, Mask, down_round_trip, encode_down};
use gp_ranging::Grant;
use gp_timers::{TimerFault, Wheel};
use std::alloc::{AllocError, Global};
use std::marker::Model;

/// The units of a world, by their places. Contracts see them as they are after the frames that they have had.
///
/// A unit is brought up to date only where something other than a frame happens to it, and in the frame that ends its
/// state. So a frame costs nothing but for the units whose states it ends: a wheel has a timer for each unit whose
/// state will end by itself. An index tells which units a grant asks.
#[derive(Drop)]
pub struct UnitStore {
    mask: Mask,
    frames: u64,
    stored_units: Vec<StoredUnit>,
    timers: Wheel,
    asked: AskedUnits,
}

impl Model for UnitStore {
    ghost use Rattle.std.specs.Prelude.{◌+◌};
    ghost use Rattle.gp_fibre.specs.UnitStore.{UnitStoreState, IsUnitStore, AreIndexed, units_at};

    ghost Value = { UnitStoreState };

    ghost view = { λ f. record { units = units_at f.frames f.stored_units.items; frames = f.frames } };

    ghost invariant = { λ f. IsUnitStore f.mask f.frames (f.frames + 1) f.stored_units.items f.timers
        × AreIndexed f.stored_units.items f.asked };
}

impl UnitStore {
    /// Begins with the units that are planned, each lit. Their codes have their check octets under `mask`.
    pub fn begin(alloc: Global, mask: Mask, plans: &[UnitPlan]) -> Result<UnitStore, AllocError>
        requires few { length plans.now ≤ MAX_SIMULATED_UNITS }
        requires delay { All (λ plan. plan.delay ≤ MAX_DELAY) plans.now }
        requires random { All (λ plan. plan.random ≤ MAX_RANDOM_DELAY) plans.now }
        ensures { IfOk result (λ store. store ≡ record { units = map (planned_unit mask) plans.now; frames = 0 }) }
    {
        let mut stored_units = Vec::with_capacity(alloc, plans.len())?;
        for plan in plans {
            stored_units.push_reserved(StoredUnit::new(mask, plan));
        }
        let timers = match Wheel::begin(alloc, plans.len() as u16) {
            Ok(timers) => timers,
            Err(TimerFault::OutOfMemory) => return Err(AllocError),
        };
        let asked = AskedUnits::begin(alloc, plans.len() as u16)?;
        Ok(UnitStore {
            mask,
            frames: 0,
            stored_units,
            timers,
            asked,
        })
    }

    /// Tells how many units there are.
    pub fn len(&self) -> usize
        ensures value { result ≡ length self.now.units }
        ensures few { result ≤ MAX_SIMULATED_UNITS }
    {
        self.stored_units.len()
    }

    /// Tells how many frames they have had.
    pub fn frames(&self) -> u64
        ensures value { result ≡ self.now.frames }
        ensures fits { result ≤ MAX_FRAMES }
    {
        self.frames
    }

    /// Tells what the unit at a place is, if there is one. It need not be up to date for that: frames that don't end
    /// its state change nothing of it.
    pub fn status(&self, place: usize) -> Option<UnitStatus>
        ensures { result ≡ status_at self.now.units place }
    {
        match self.stored_units.get(place) {
            Some(stored) => Some(stored.unit.status()),
            None => None,
        }
    }

    /// Lets a copy of a message reach a unit. One that it surely passes over costs a comparison or two. Its code is
    /// made for the first unit that heeds it, and kept for the others.
    pub fn hear(&mut self, place: usize, message: &Down, code: &mut Option<[u8; 13]>)
        requires place { place < length self.old.units }
        requires proper { IsProperDown message.now }
        requires code { ForSome code.old (IsCodeFor self.old.units message.now) }
        ensures unit { ChangesAt self.old.units place (unit_hearing message.now) self.new.units }
        ensures frames { self.new.frames ≡ self.old.frames }
        ensures code { ForSome code.new (IsCodeFor self.new.units message.now) }
    {
        if !self.stored_units[place].unit.may_notice(message) {
            return;
        }
        let octets = code_of(message, self.mask, code);
        down_round_trip();
        let stored = &mut self.stored_units[place];
        let due_before = stored.due();
        let asked_before = stored.asked_by();
        stored.bring(self.frames);
        stored.unit.hear(&octets);
        let due = stored.due();
        let asked_by = stored.asked_by();
        renew_timer(&mut self.timers, place, due_before, due);
        self.asked.change(place, asked_before, asked_by);
    }

    /// Lets light reach a unit.
    pub fn light(&mut self, place: usize)
        requires { place < length self.old.units }
        ensures unit { ChangesAt self.old.units place (unit_taking Light) self.new.units }
        ensures frames { self.new.frames ≡ self.old.frames }
    {
        let stored = &mut self.stored_units[place];
        let due_before = stored.due();
        let asked_before = stored.asked_by();
        stored.bring(self.frames);
        stored.unit.light();
        let due = stored.due();
        let asked_by = stored.asked_by();
        renew_timer(&mut self.timers, place, due_before, due);
        self.asked.change(place, asked_before, asked_by);
    }

    /// Takes the light from a unit.
    pub fn dark(&mut self, place: usize)
        requires { place < length self.old.units }
        ensures unit { ChangesAt self.old.units place (unit_taking Dark) self.new.units }
        ensures frames { self.new.frames ≡ self.old.frames }
    {
        let stored = &mut self.stored_units[place];
        let due_before = stored.due();
        let asked_before = stored.asked_by();
        stored.bring(self.frames);
        stored.unit.dark();
        let due = stored.due();
        let asked_by = stored.asked_by();
        renew_timer(&mut self.timers, place, due_before, due);
        self.asked.change(place, asked_before, asked_by);
    }

    /// Finds the first place from `from` on whose unit a grant asks, without going through the units.
    pub fn next_asked(&self, grant: Grant, from: u16) -> Option<u16>
        ensures next { IsNextAsked self.now.units grant from result }
        ensures few { IfSome result (λ place. place < MAX_SIMULATED_UNITS) }
    {
        let Some(place) = self.asked.next(grant, from) else {
            return None;
        };
        if usize::from(place) < self.stored_units.len() {
            Some(place)
        } else {
            None
        }
    }

    /// Finds the first place from `from` on whose unit a message may be meant for. Of a message for one ONU-ID that
    /// is the first unit that has it, found without going through the units; of any other, the very first.
    pub fn next_meant(&self, message: &Down, from: u16) -> Option<u16>
        ensures next { IsNextOf self.now.units (spec.onu_id_meant message.now) from result }
        ensures few { IfSome result (λ place. place < MAX_SIMULATED_UNITS) }
    {
        match onu_id_meant(message) {
            Some(onu) => self.next_asked(Grant::Poll(onu), from),
            None => self.place_from(from),
        }
    }

    fn place_from(&self, from: u16) -> Option<u16>
        ensures next { IsNextOf self.now.units None from result }
        ensures few { IfSome result (λ place. place < MAX_SIMULATED_UNITS) }
    {
        if usize::from(from) < self.stored_units.len() {
            Some(from)
        } else {
            None
        }
    }

    /// Lets a grant reach a unit, which may answer with a burst.
    pub fn grant(&mut self, place: usize, grant: Grant) -> Option<SentBurst>
        requires { place < length self.old.units }
        ensures unit { Answers self.old.units place grant result self.new.units }
        ensures near { ForSome result (λ burst. burst.at ≤ MAX_DELAY) }
        ensures frames { self.new.frames ≡ self.old.frames }
    {
        if !self.stored_units[place].unit.may_answer(grant) {
            return None;
        }
        let stored = &mut self.stored_units[place];
        let due_before = stored.due();
        let asked_before = stored.asked_by();
        stored.bring(self.frames);
        let answer = stored.unit.grant(grant, stored.random);
        let at = stored.delay;
        let due = stored.due();
        let asked_by = stored.asked_by();
        renew_timer(&mut self.timers, place, due_before, due);
        self.asked.change(place, asked_before, asked_by);
        burst_of(at, answer)
    }

    /// Ends a frame of each unit.
    pub fn frame(&mut self)
        requires { self.old.frames < MAX_FRAMES }
        ensures units { self.new.units ≡ map (unit_taking Frame) self.old.units }
        ensures frames { self.new.frames ≡ self.old.frames + 1 }
    {
        self.frames += 1;
        while let Some(name) = self.timers.due(self.frames) {
            let place = usize::from(name);
            let stored = &mut self.stored_units[place];
            let asked_before = stored.asked_by();
            stored.pass(self.frames);
            let due = stored.due();
            let asked_by = stored.asked_by();
            renew_timer(&mut self.timers, place, None, due);
            self.asked.change(place, asked_before, asked_by);
        }
    }
}

/// Gives the code of a message, and makes it where it was not made before.
fn code_of(message: &Down, mask: Mask, made: &mut Option<[u8; 13]>) -> [u8; 13]
    requires proper { IsProperDown message.now }
    requires made { ForSome made.old (λ code. code ≡ code_of_down message.now (mask_value mask)) }
    ensures value { result ≡ code_of_down message.now (mask_value mask) }
    ensures made { made.new ≡ Some result }
{
    if let Some(code) = *made {
        return code;
    }
    let code = encode_down(message, mask);
    *made = Some(code);
    code
}

/// Gives the ONU-ID that a message is meant for, if it is meant for the units that have one.
fn onu_id_meant(message: &Down) -> Option<u8>
    ensures { result ≡ spec.onu_id_meant message.now }
{
    match *message {
        Down::RangingTime { onu, .. } | Down::AssignAlloc { onu, .. } => Some(onu),
        Down::Deactivate { onu } | Down::Popup { onu } => {
            if onu == BROADCAST_ONU {
                None
            } else {
                Some(onu)
            }
        }
        _ => None,
    }
}

/// Makes the burst of a code after this round-trip delay, where there is a code.
fn burst_of(at: u32, bytes: Option<[u8; 13]>) -> Option<SentBurst>
    ensures { result ≡ option_map (λ octets. burst_with at octets) bytes }
{
    match bytes {
        Some(bytes) => Some(SentBurst { at, bytes }),
        None => None,
    }
}

/// Writes the timer of a place, which is due at `before`, anew, where that changes.
fn renew_timer(timers: &mut Wheel, place: usize, before: Option<u64>, after: Option<u64>)
    requires place { place < timers.old.names }
    requires few { place < MAX_SIMULATED_UNITS }
    requires before { get timers.old.frames place ≡ before }
    ensures names { timers.new.names ≡ timers.old.names }
    ensures frames { (name : ℕ)
        → get timers.new.frames name ≡ (if name == place then after else get timers.old.frames name) }
{
    if before == after {
        return;
    }
    put_timer(timers, place, after);
}

/// Sets the timer of a place, or makes sure that it isn't set.
fn put_timer(timers: &mut Wheel, place: usize, due: Option<u64>)
    requires place { place < timers.old.names }
    requires few { place < MAX_SIMULATED_UNITS }
    ensures { timers.new ≡ with_timer timers.old place due }
{
    let name = place as u16;
    match due {
        Some(due) => timers.set(name, due),
        None => {
            timers.cancel(name);
        }
    }
}
