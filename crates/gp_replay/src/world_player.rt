//! The fibre with the number of its port's next entry, and frames of it, some at a time.
ghost use Rattle.std.specs.Prelude.{◌≡◌, ◌+◌, ◌<◌, ◌^◌, [], None, All, IfOk, OnOk, length, map, true};
ghost use Rattle.std.specs.Option.{ForSome};
ghost use Rattle.gp_fibre.specs.World.{is_world_within_limits, status_at};
ghost use Rattle.gp_fibre.specs.Forgetting.{WorldForgets};
ghost use Rattle.gp_fibre.specs.Schedule.{FramesRun, IsProperEntry, StepsTo, opening_state, step_fault};
ghost use Rattle.gp_replay.specs.WorldPlay.{plan_of};
ghost use Rattle.gp_replay.specs.WorldWriting.{HasFibreRoom};

use gp_fibre::{Losses, UnitPlan, World, WorldFault, WorldStep};
use gp_licence::MAX_LICENCES;
use gp_machine::{Entry, PortConfig};
use gp_onu::UnitStatus;
use gp_port::PortCore;
use gp_script::ScriptUnit;
use std::alloc::{AllocError, Global};
use std::marker::Model;
use std::sync::ledger::{Blank, Ledger};

/// The fibre that a script with simulated units is played on. Contracts see it with the number of the port's next
/// entry.
///
/// It has no `Drop`: its licences are gathered by `close`.
pub(crate) struct WorldPlayer<L: Ledger> {
    alloc: Global,
    world: World<L>,
    next: u64,
}

impl<L: Ledger> Model for WorldPlayer<L> {
    ghost use Rattle.gp_machine.specs.Codes.{port_codes};
    ghost use Rattle.gp_replay.specs.WorldWriting.{FibrePlay};

    ghost Value = { FibrePlay };

    ghost coded = { Prim.hlevel port_codes };

    ghost view = { λ p. record { world = p.world; next = p.next } };
}

impl<L: Ledger> WorldPlayer<L> {
    /// Begins the fibre, before its first event.
    pub(crate) fn begin(
        alloc: Global,
        blank: Blank,
        config: &PortConfig,
        licences: u32,
        units: &[ScriptUnit],
    ) -> Result<WorldPlayer<L>, AllocError>
        requires name { blank.name ≡ L.name }
        requires parts { (blank.parts ≡ L.parts) × (L.parts ≡ MAX_LICENCES) }
        requires limits { is_world_within_limits config.now licences (map plan_of units.now) ≡ true }
        ensures world { IfOk result
            (λ player. player.world ≡ opening_state config.now licences (map plan_of units.now)) }
        ensures next { IfOk result (λ player. player.next ≡ 0) }
    {
        let plans = plans_of(alloc, units)?;
        match World::begin(alloc, blank, config, licences, plans.as_slice()) {
            Ok(world) => Ok(WorldPlayer {
                alloc,
                world,
                next: 0,
            }),
            Err(WorldFault::Limit) => unreachable!(),
            Err(_) => Err(AllocError),
        }
    }

    /// Begins a list of entries. It takes no memory.
    pub(crate) fn no_entries(&self) -> Vec<Entry>
        ensures { result.items ≡ [] }
    {
        Vec::new(self.alloc)
    }

    /// Makes so many frames of a run. The entries of the port, in order, take the place of what the list holds. An
    /// error is answered where memory was refused; some of the frames are then made.
    pub(crate) fn run_frames(
        &mut self,
        frames: u32,
        losses: &mut Losses,
        entries: &mut Vec<Entry>,
    ) -> Result<(), AllocError>
        requires room { HasFibreRoom frames self.old }
        ensures ran { OnOk result
            (FramesRun losses.old.copies losses.old.bursts frames self.old.world entries.new.items self.new.world) }
        ensures proper { OnOk result (All IsProperEntry entries.new.items) }
        ensures next { self.new.next ≡ self.old.next }
        ensures losses { losses.new ≡ losses.old }
    {
        match self.world.run_into(frames, losses, entries) {
            Ok(()) => Ok(()),
            Err(WorldFault::Limit) => unreachable!(),
            Err(_) => Err(AllocError),
        }
    }

    /// Takes a step that is possible, and gives the entry of the port, where the step is an event of it. An error is
    /// answered where memory was refused.
    pub(crate) fn take_step(&mut self, step: WorldStep) -> Result<Option<Entry>, AllocError>
        requires possible { step_fault self.old.world step ≡ None }
        ensures taken { IfOk result (λ given. StepsTo self.old.world step given self.new.world) }
        ensures proper { IfOk result (λ given. ForSome given IsProperEntry) }
        ensures next { self.new.next ≡ self.old.next }
    {
        match self.world.step(step) {
            Ok(given) => Ok(given),
            Err(WorldFault::OutOfMemory) => Err(AllocError),
            Err(_) => unreachable!(),
        }
    }

    /// Forgets what was sent and is not to come any more, so that a long play needs no more memory than a short one.
    pub(crate) fn forget(&mut self)
        ensures world { WorldForgets self.old.world self.new.world }
        ensures next { self.new.next ≡ self.old.next }
    {
        self.world.forget();
    }

    /// Gives the number of the port's next entry.
    pub(crate) fn take_number(&mut self) -> u64
        requires { self.old.next + 1 < 2 ^ 64 }
        ensures number { result ≡ self.old.next }
        ensures world { self.new.world ≡ self.old.world }
        ensures next { self.new.next ≡ self.old.next + 1 }
    {
        let number = self.next;
        self.next += 1;
        number
    }

    /// Gives the port.
    pub(crate) fn port(&self) -> &PortCore<L>
        ensures { result.now ≡ self.now.world.fibre.port }
    {
        self.world.port()
    }

    /// Tells how many licences are free.
    pub(crate) fn free(&self) -> u32
        ensures { result ≡ self.now.world.fibre.free }
    {
        self.world.free()
    }

    /// How many simulated units there are.
    pub(crate) fn units(&self) -> usize
        ensures { result ≡ length self.now.world.fibre.units }
    {
        self.world.units()
    }

    /// What the simulated unit at this place is, if there is one.
    pub(crate) fn unit_status(&self, unit: u16) -> Option<UnitStatus>
        ensures { result ≡ status_at self.now.world.fibre.units unit }
    {
        self.world.unit_status(unit)
    }

    /// Ends the fibre, and answers how many licences there are.
    pub(crate) fn close(self) -> u32
        ensures { result ≡ self.world.licences }
    {
        let WorldPlayer {
            alloc: _,
            world,
            next: _,
        } = self;
        world.close()
    }
}

/// Plans the units of a script.
fn plans_of(alloc: Global, units: &[ScriptUnit]) -> Result<Vec<UnitPlan>, AllocError>
    ensures { IfOk result (λ plans. plans.items ≡ map plan_of units.now) }
{
    let mut plans = Vec::with_capacity(alloc, units.len())?;
    for unit in units {
        plans.push_reserved(UnitPlan {
            serial: unit.serial,
            delay: unit.delay,
            random: unit.random,
        });
    }
    Ok(plans)
}
