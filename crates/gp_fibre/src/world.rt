//! `World`, a fibre as others use it: single steps, runs of frames, forgetting, and its end with all licences. Memory
//! for a step or a frame is taken first, so that after a fault none of it has happened.
ghost use Rattle.std.specs.Prelude.{◌≡◌, ◌+◌, ◌<◌, ◌≤◌, ◌↔◌, ◌⊎◌, Some, None, All, false, IfErr, IfOk, IsErrOf, OnErr, OnOk, length, vec_capacity};
ghost use Rattle.std.specs.List.{list_all};
ghost use Rattle.std.specs.Option.{ForSome};
ghost use Rattle.gp_fibre.specs.World as spec;
ghost use Rattle.gp_fibre.specs.Forgetting.{WorldForgets, all_but_coming};
ghost use Rattle.gp_fibre.specs.Schedule.{FramesRun, IsFaultOf, IsProperEntry, IsRunFault, PutsFrame, StepsTo, StopsAt, StopsShort, TakesTo, opening_state, step_fault};

use super::fault::WorldFault;
use super::fibre::Fibre;
use super::flights::Flights;
use super::loss_plan::LossPlan;
use super::losses::Losses;
use super::lost_numbers::LostNumbers;
use super::running::play_frame;
use super::sent_burst::SentBurst;
use super::unit_plan::UnitPlan;
use super::unit_store::UnitStore;
use super::world_step::WorldStep;
use gp_licence::{LicenceBook, MAX_LICENCES};
use gp_machine::{Entry, Event, PortConfig};
use gp_onu::{MAX_DELAY, MAX_RANDOM_DELAY, MAX_SIMULATED_UNITS, UnitStatus};
use gp_port::{OpenFault, PortCore};
use std::alloc::Global;
use std::marker::Model;
use std::sync::ledger::{Blank, Ledger};

/// The most frames that a world counts, 2^63 (this profile's own rule).
pub const MAX_FRAMES: u64 = 9_223_372_036_854_775_808;

/// One port, its licences, and the simulated units that it reaches. Contracts see all that was sent, how much of it was
/// forgotten, and each unit as it is after the frames so far.
///
/// It has no `Drop`: it is ended by `close`, which gathers its licences.
pub struct World<L: Ledger> {
    pub(super) fibre: Fibre<L>,
    pub(super) flights: Flights,
}

impl<L: Ledger> Model for World<L> {
    ghost use Rattle.gp_machine.specs.Codes.{port_codes};
    ghost use Rattle.gp_fibre.specs.Flights.{AreInReach, AreKept};
    ghost use Rattle.gp_fibre.specs.Schedule.{WorldState};

    ghost Value = { WorldState };

    ghost coded = { Prim.hlevel port_codes };

    ghost view = { λ w. record
        { fibre = w.fibre.world; licences = w.fibre.total; frames = w.fibre.frames; flights = w.flights.flights } };

    ghost invariant = { λ w. AreKept w.fibre.world w.flights.flights × AreInReach w.fibre.frames w.flights.flights };
}

impl<L: Ledger> World<L> {
    /// Begins a world with a port that was just opened, all licences free, and the units, each lit. A number outside
    /// its range is `Limit`: those of the configuration, at most `MAX_LICENCES` licences, at most
    /// `MAX_SIMULATED_UNITS` units, each with a delay of at most `MAX_DELAY` bit times and a random delay of at most
    /// `MAX_RANDOM_DELAY`.
    ///
    /// `blank` is a new ledger of `MAX_LICENCES` parts, made by `Blank::new`, and `L` its name.
    pub fn begin(
        alloc: Global,
        blank: Blank,
        config: &PortConfig,
        licences: u32,
        plans: &[UnitPlan],
    ) -> Result<World<L>, WorldFault>
        requires name { blank.name ≡ L.name }
        requires parts { (blank.parts ≡ L.parts) × (L.parts ≡ MAX_LICENCES) }
        ensures begun { IfOk result (λ world. world ≡ opening_state config.now licences plans.now) }
        ensures limit { IsErrOf result WorldFault.Limit
            ↔ (spec.is_world_within_limits config.now licences plans.now ≡ false) }
        ensures only { IfErr result (λ fault. (fault ≡ WorldFault.Limit) ⊎ (fault ≡ WorldFault.OutOfMemory)) }
    {
        if !is_within_limits(config, licences, plans) {
            return Err(WorldFault::Limit);
        }
        let store = UnitStore::begin(alloc, config.mask, plans)?;
        match PortCore::begin(alloc, config) {
            Ok(core) => Ok(World {
                fibre: Fibre::new(alloc, core, LicenceBook::new(blank, licences), store),
                flights: Flights::new(alloc),
            }),
            Err(OpenFault::OutOfMemory) => Err(WorldFault::OutOfMemory),
            Err(OpenFault::Limit) => unreachable!(),
        }
    }

    /// Makes one step, and gives the entry of the port, where the step is an event of it. A burst takes a licence
    /// first, where one is free, and gives back what it does not use. All memory is taken first, so that after a
    /// fault nothing has changed. The fault is the first that applies in the order of `WorldFault`; `Limit` is a
    /// frame after 2^63 of them.
    pub fn step(&mut self, step: WorldStep) -> Result<Option<Entry>, WorldFault>
        ensures made { IfOk result (λ given. StepsTo self.old step given self.new) }
        ensures possible { OnOk result (step_fault self.old step ≡ None) }
        ensures unchanged { OnErr result (self.new ≡ self.old) }
        ensures fault { IfErr result (λ fault. IsFaultOf self.old step fault) }
        ensures proper { IfOk result (λ given. ForSome given IsProperEntry) }
    {
        match step {
            WorldStep::Frame => self.frame(),
            WorldStep::Command(command) => self.take(Event::Command(command)),
            WorldStep::Deliver { copy, unit } => self.deliver(copy, unit),
            WorldStep::Give { grant, unit } => self.give(grant, unit),
            WorldStep::Arrive { burst } => self.arrive(burst),
            WorldStep::Bytes { at, bytes } => self.take(Event::Burst { at, bytes }),
            WorldStep::Light(unit) => self.light(unit),
            WorldStep::Dark(unit) => self.dark(unit),
        }
    }

    /// Makes a frame of the port, and then of each unit.
    fn frame(&mut self) -> Result<Option<Entry>, WorldFault>
        ensures made { IfOk result (λ given. StepsTo self.old WorldStep.Frame given self.new) }
        ensures possible { OnOk result (step_fault self.old WorldStep.Frame ≡ None) }
        ensures unchanged { OnErr result (self.new ≡ self.old) }
        ensures fault { IfErr result (λ fault. IsFaultOf self.old WorldStep.Frame fault) }
        ensures proper { IfOk result (λ given. ForSome given IsProperEntry) }
    {
        let frame = self.fibre.frames();
        if frame >= MAX_FRAMES {
            return Err(WorldFault::Limit);
        }
        self.fibre.reserve(1, 0)?;
        let entry = self.fibre.take(Event::Frame);
        self.fibre.end_frame();
        self.flights.remove_due(frame);
        Ok(Some(entry))
    }

    /// Gives the port an event that is no frame.
    fn take(&mut self, event: Event) -> Result<Option<Entry>, WorldFault>
        ensures made { IfOk result (λ given. TakesTo self.old event given self.new) }
        ensures unchanged { OnErr result (self.new ≡ self.old) }
        ensures fault { IfErr result (λ fault. fault ≡ WorldFault.OutOfMemory) }
        ensures proper { IfOk result (λ given. ForSome given IsProperEntry) }
    {
        self.fibre.reserve(1, 0)?;
        Ok(Some(self.fibre.take(event)))
    }

    /// Gives the port a burst that a unit answered with.
    fn arrive(&mut self, burst: u64) -> Result<Option<Entry>, WorldFault>
        ensures made { IfOk result (λ given. StepsTo self.old (WorldStep.Arrive burst) given self.new) }
        ensures possible { OnOk result (step_fault self.old (WorldStep.Arrive burst) ≡ None) }
        ensures unchanged { OnErr result (self.new ≡ self.old) }
        ensures fault { IfErr result (λ fault. IsFaultOf self.old (WorldStep.Arrive burst) fault) }
        ensures proper { IfOk result (λ given. ForSome given IsProperEntry) }
    {
        let Some(arrived) = self.fibre.burst_at(burst) else {
            return Err(WorldFault::NoBurst);
        };
        let SentBurst { at, bytes } = arrived;
        self.take(Event::Burst { at, bytes })
    }

    /// Lets a copy reach a unit.
    fn deliver(&mut self, copy: u64, unit: u16) -> Result<Option<Entry>, WorldFault>
        ensures made { IfOk result (λ given. StepsTo self.old (WorldStep.Deliver copy unit) given self.new) }
        ensures possible { OnOk result (step_fault self.old (WorldStep.Deliver copy unit) ≡ None) }
        ensures unchanged { OnErr result (self.new ≡ self.old) }
        ensures fault { IfErr result (λ fault. IsFaultOf self.old (WorldStep.Deliver copy unit) fault) }
        ensures proper { IfOk result (λ given. ForSome given IsProperEntry) }
    {
        let Some(message) = self.fibre.copy_at(copy) else {
            return Err(WorldFault::NoCopy);
        };
        let place = self.place_of(unit)?;
        self.fibre.hear(place, &message, &mut None);
        Ok(None)
    }

    /// Lets a grant reach a unit.
    fn give(&mut self, grant: u64, unit: u16) -> Result<Option<Entry>, WorldFault>
        ensures made { IfOk result (λ given. StepsTo self.old (WorldStep.Give grant unit) given self.new) }
        ensures possible { OnOk result (step_fault self.old (WorldStep.Give grant unit) ≡ None) }
        ensures unchanged { OnErr result (self.new ≡ self.old) }
        ensures fault { IfErr result (λ fault. IsFaultOf self.old (WorldStep.Give grant unit) fault) }
        ensures proper { IfOk result (λ given. ForSome given IsProperEntry) }
    {
        let place = self.place_of(unit)?;
        let Some(asked) = self.fibre.grant_at(grant) else {
            return Err(WorldFault::NoGrant);
        };
        self.fibre.reserve(0, 1)?;
        self.fibre.give(place, asked);
        Ok(None)
    }

    /// Lets light reach a unit.
    fn light(&mut self, unit: u16) -> Result<Option<Entry>, WorldFault>
        ensures made { IfOk result (λ given. StepsTo self.old (WorldStep.Light unit) given self.new) }
        ensures possible { OnOk result (step_fault self.old (WorldStep.Light unit) ≡ None) }
        ensures unchanged { OnErr result (self.new ≡ self.old) }
        ensures fault { IfErr result (λ fault. IsFaultOf self.old (WorldStep.Light unit) fault) }
        ensures proper { IfOk result (λ given. ForSome given IsProperEntry) }
    {
        let place = self.place_of(unit)?;
        self.fibre.light(place);
        Ok(None)
    }

    /// Takes the light from a unit.
    fn dark(&mut self, unit: u16) -> Result<Option<Entry>, WorldFault>
        ensures made { IfOk result (λ given. StepsTo self.old (WorldStep.Dark unit) given self.new) }
        ensures possible { OnOk result (step_fault self.old (WorldStep.Dark unit) ≡ None) }
        ensures unchanged { OnErr result (self.new ≡ self.old) }
        ensures fault { IfErr result (λ fault. IsFaultOf self.old (WorldStep.Dark unit) fault) }
        ensures proper { IfOk result (λ given. ForSome given IsProperEntry) }
    {
        let place = self.place_of(unit)?;
        self.fibre.dark(place);
        Ok(None)
    }

    /// Gives the place of a unit, or `NoUnit`.
    fn place_of(&self, unit: u16) -> Result<usize, WorldFault>
        ensures place { IfOk result (λ place. (place ≡ unit) × (place < length self.now.fibre.units)) }
        ensures fault { IfErr result (λ fault. (fault ≡ WorldFault.NoUnit) × (length self.now.fibre.units ≤ unit)) }
    {
        let place = usize::from(unit);
        if place < self.fibre.units() {
            Ok(place)
        } else {
            Err(WorldFault::NoUnit)
        }
    }

    /// Makes so many frames, each with all that follows from it: the port's frame; the copy that it sends reaches
    /// each unit, in order; its grant each unit, in order; each answer reaches the port after as many whole frames as
    /// its round trip has; and the frame of each unit. The copies and bursts of the loss plan reach nobody. It
    /// answers the entries of the port, in order. After a fault, which is `OutOfMemory` or, after 2^63 frames,
    /// `Limit`, the whole frames before it stand. It runs `run_into`, with a copy of the loss plan.
    pub fn run(
        &mut self,
        alloc: Global,
        frames: u32,
        loss: &LossPlan,
    ) -> Result<Vec<Entry>, WorldFault>
        ensures runs { IfOk result
            (λ entries. FramesRun loss.now.copies.items loss.now.bursts.items frames self.old entries.items self.new) }
        ensures stops { IfErr result
            (λ fault. StopsShort loss.now.copies.items loss.now.bursts.items frames self.old fault self.new) }
        ensures proper { IfOk result (λ entries. All IsProperEntry entries.items) }
    {
        let mut entries = Vec::new(alloc);
        if frames == 0 {
            return Ok(entries);
        }
        let mut losses = Losses::listed(loss)?;
        if let Err(fault) = self.run_into(frames, &mut losses, &mut entries) {
            return Err(fault);
        }
        Ok(entries)
    }

    /// Does the same, and copies no losses: those that the caller lends are looked up, and put in order where that
    /// saves time. The entries go into a list that the caller lends, in place of what it held; its room never falls.
    /// After a fault the entries of the whole frames before it stand there.
    pub fn run_into(
        &mut self,
        frames: u32,
        losses: &mut Losses,
        entries: &mut Vec<Entry>,
    ) -> Result<(), WorldFault>
        ensures runs { OnOk result
            (FramesRun losses.old.copies losses.old.bursts frames self.old entries.new.items self.new) }
        ensures stops { IfErr result
            (λ fault. StopsShort losses.old.copies losses.old.bursts frames self.old fault self.new) }
        ensures stands { IfErr result
            (λ fault. StopsAt losses.old.copies losses.old.bursts frames self.old entries.new.items fault self.new) }
        ensures proper { OnOk result (All IsProperEntry entries.new.items) }
        ensures proper_after_fault { OnErr result (All IsProperEntry entries.new.items) }
        ensures capacity { vec_capacity entries.old ≤ vec_capacity entries.new }
        ensures losses { losses.new ≡ losses.old }
    {
        entries.clear();
        for _ in 0..frames {
            if let Err(fault) = self.run_frame(entries, &mut losses.copies, &mut losses.bursts) {
                return Err(fault);
            }
        }
        Ok(())
    }

    /// Makes a frame of a run. All memory is taken first.
    fn run_frame(
        &mut self,
        entries: &mut Vec<Entry>,
        lost_copies: &mut LostNumbers,
        lost_bursts: &mut LostNumbers,
    ) -> Result<(), WorldFault>
        requires proper { All IsProperEntry entries.old.items }
        ensures runs { OnOk result
            (PutsFrame lost_copies.old lost_bursts.old self.old entries.old.items entries.new.items
            self.new) }
        ensures unchanged { OnErr result (self.new ≡ self.old) }
        ensures fault { IfErr result (λ fault. IsRunFault self.old fault) }
        ensures kept { OnErr result (entries.new.items ≡ entries.old.items) }
        ensures capacity { vec_capacity entries.old ≤ vec_capacity entries.new }
        ensures proper { OnOk result (All IsProperEntry entries.new.items) }
        ensures lost_copies { lost_copies.new ≡ lost_copies.old }
        ensures lost_bursts { lost_bursts.new ≡ lost_bursts.old }
    {
        if self.fibre.frames() >= MAX_FRAMES {
            return Err(WorldFault::Limit);
        }
        let units = self.fibre.units();
        let events = 1 + self.flights.len() + units;
        self.fibre.reserve(events, units)?;
        self.flights.reserve(units)?;
        entries.reserve(events)?;
        play_frame(
            &mut self.fibre,
            &mut self.flights,
            entries,
            lost_copies,
            lost_bursts,
        );
        Ok(())
    }

    /// Forgets the copies, grants and bursts that were sent, but for the bursts that are still to come in a run: a step
    /// that asks for one of them is then `NoCopy`, `NoGrant` or `NoBurst`. Numbers go on and are not given anew; port,
    /// units, licences and what is still to come stay as they are. So a long run that forgets after each of its parts
    /// needs no more memory than one part.
    pub fn forget(&mut self)
        ensures forgets { WorldForgets self.old self.new }
        ensures forgotten { self.new.fibre.forgotten ≡ all_but_coming self.old }
    {
        let next = self.fibre.bursts();
        self.fibre.forget(self.flights.first_to_come(next));
    }

    /// Gives the port.
    pub fn port(&self) -> &PortCore<L>
        ensures { result.now ≡ self.now.fibre.port }
    {
        self.fibre.core()
    }

    /// Tells how many licences are free.
    pub fn free(&self) -> u32
        ensures { result ≡ self.now.fibre.free }
    {
        self.fibre.free()
    }

    /// Tells how many simulated units there are.
    pub fn units(&self) -> usize
        ensures { result ≡ length self.now.fibre.units }
    {
        self.fibre.units()
    }

    /// Tells what the simulated unit at this place is after the frames so far, if there is one.
    pub fn unit_status(&self, unit: u16) -> Option<UnitStatus>
        ensures { result ≡ spec.status_at self.now.fibre.units unit }
    {
        self.fibre.status(usize::from(unit))
    }

    /// Ends the world, and says how many licences it was begun with: all are back.
    pub fn close(self) -> u32
        ensures { result ≡ self.licences }
    {
        let World { fibre, flights: _ } = self;
        fibre.close()
    }
}

/// Tells whether all numbers that a world begins with are in their ranges.
fn is_within_limits(config: &PortConfig, licences: u32, plans: &[UnitPlan]) -> bool
    ensures { result ≡ spec.is_world_within_limits config.now licences plans.now }
{
    config.is_within_limits()
        && licences <= MAX_LICENCES
        && plans.len() <= usize::from(MAX_SIMULATED_UNITS)
        && are_plans_within_limits(plans)
}

fn are_plans_within_limits(plans: &[UnitPlan]) -> bool
    ensures { result ≡ list_all spec.is_plan_within_limits plans.now }
{
    plans.iter().all(|plan| is_plan_within_limits(plan))
}

fn is_plan_within_limits(plan: &UnitPlan) -> bool
    ensures { result ≡ spec.is_plan_within_limits plan.now }
{
    plan.delay <= MAX_DELAY && plan.random <= MAX_RANDOM_DELAY
}
