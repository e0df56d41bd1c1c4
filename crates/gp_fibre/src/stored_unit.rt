//! A simulated unit as it was when it was last brought up to date, and the frame that ends its state: all frames before
//! that are made up for at once.
ghost use Rattle.std.specs.Prelude.{◌≡◌, ◌+◌, ◌-◌, ◌<◌, ◌≤◌, None};
ghost use Rattle.std.specs.Option.{ForSome, IfSome, IsSome};
ghost use Rattle.gp_onu.specs.Frames.{frames_left, unit_after_frames};
ghost use Rattle.gp_fibre.specs.declared.world.TheConstants.{MAX_FRAMES};
ghost use Rattle.gp_fibre.specs.World.{planned_unit};
ghost use Rattle.gp_fibre.specs.declared.asked_by.AskedBy.TheVariants.{Nothing};
ghost use Rattle.gp_fibre.specs.AskedUnits.{asked_by_of};
ghost use Rattle.gp_fibre.specs.UnitStore.{due_of, unit_at};

use super::asked_by::AskedBy;
use super::unit_plan::UnitPlan;
use gp_onu::Unit;
use gp_ploam::Mask;

/// A unit at its place on the fibre, as it was when something other than a frame last happened to it.
#[derive(Drop)]
pub struct StoredUnit {
    /// The unit as it was when it was last brought up to date.
    pub(super) unit: Unit,
    /// How many frames it had had then.
    pub(super) brought: u64,
    /// Its whole round-trip delay in bit times.
    pub(super) delay: u32,
    /// Its random delay, in units of 32 bytes.
    pub(super) random: u16,
}

impl StoredUnit {
    /// Stores a unit that is planned, lit. Its codes have their check octets under `mask`.
    pub(super) fn new(mask: Mask, plan: &UnitPlan) -> StoredUnit
        ensures unit { unit_at 0 result ≡ planned_unit mask plan.now }
        ensures mask { result.unit.mask ≡ mask }
        ensures delay { result.delay ≡ plan.now.delay }
        ensures random { result.random ≡ plan.now.random }
        ensures brought { result.brought ≡ 0 }
        ensures due { due_of result ≡ None }
        ensures asked { asked_by_of result.unit.stage ≡ Nothing }
    {
        let mut unit = Unit::new(plan.serial, mask);
        unit.light();
        StoredUnit {
            unit,
            brought: 0,
            delay: plan.delay,
            random: plan.random,
        }
    }

    /// Brings the unit up to date, where its state did not end since it was.
    pub(super) fn bring(&mut self, frames: u64)
        requires brought { self.old.brought ≤ frames }
        requires ahead { ForSome (due_of self.old) (λ due. frames < due) }
        ensures { self.new
            ≡ record self.old { unit = unit_after_frames (frames - self.old.brought) self.old.unit; brought = frames } }
    {
        catch_up(&mut self.unit, frames - self.brought);
        self.brought = frames;
    }

    /// Brings the unit up to date in the frame that ends its state.
    pub(super) fn pass(&mut self, frames: u64)
        requires brought { self.old.brought ≤ frames }
        requires now { due_of self.old ≡ Some frames }
        ensures { self.new
            ≡ record self.old { unit = unit_after_frames (frames - self.old.brought) self.old.unit; brought = frames } }
    {
        end_state(&mut self.unit);
        self.brought = frames;
    }

    /// Tells after how many frames of the world the unit's state ends, if nothing else happens.
    pub(super) fn due(&self) -> Option<u64>
        requires { self.now.brought ≤ MAX_FRAMES }
        ensures value { result ≡ due_of self.now }
        ensures later { ForSome result (λ due. self.now.brought + 1 ≤ due) }
    {
        match self.unit.ends_in() {
            Some(left) => Some(self.brought + u64::from(left)),
            None => None,
        }
    }

    /// Tells which grants ask the unit. For that it need not be up to date.
    pub(super) fn asked_by(&self) -> AskedBy
        ensures { result ≡ asked_by_of self.now.unit.stage }
    {
        AskedBy::of(&self.unit)
    }
}

/// Ends so many frames, none of which ends the unit's state.
fn catch_up(unit: &mut Unit, frames: u64)
    requires { ForSome (frames_left unit.old) (λ left. frames < left) }
    ensures { unit.new ≡ unit_after_frames frames unit.old }
{
    let Some(_) = unit.ends_in() else {
        return;
    };
    unit.skip(frames as u32);
}

/// Ends all frames up to and with the one that ends the unit's state.
fn end_state(unit: &mut Unit)
    requires { IsSome (frames_left unit.old) }
    ensures { IfSome (frames_left unit.old) (λ left. unit.new ≡ unit_after_frames left unit.old) }
{
    let Some(left) = unit.ends_in() else {
        unreachable!()
    };
    unit.skip(left - 1);
    unit.frame();
}
