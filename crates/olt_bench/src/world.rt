//! Measures frames of a port with 64 simulated units, and of one with 1,024.
ghost use Rattle.std.specs.Prelude.{◌≡◌};
ghost use Rattle.gp_licence.specs.declared.ledger_parts.TheConstants.{MAX_LICENCES};

use super::config::{config_of, memory, serial_of};
use super::measured::{Measured, number_of};
use super::port::FRAMES;
use gp_fibre::{LossPlan, UnitPlan, World, WorldFault, WorldStep};
use gp_licence::MAX_LICENCES;
use gp_machine::{Command, Entry, PortConfig};
use std::alloc::{AllocError, Global};
use std::io;
use std::marker::Brand;
use std::rt::Clock;
use std::sync::ledger::{Blank, Ledger};
use std::time::Instant;

/// How many pieces of a run a round has.
const PIECES: u32 = 16;

/// How many frames a piece has, as in a replay.
const FRAMES_AT_ONCE: u32 = 256;

/// How many units a port may admit.
const MAX_ADMITTED: usize = 512;

/// How many units may be active.
const LICENCES: u32 = 254;

/// By how many bit times a unit is farther away than the one before it, so that the answer of each of 1,024 units
/// comes in the frame that asks it.
const DISTANCE: u32 = 151;

/// Plans so many units, with different serial numbers and delays.
fn plans_of(alloc: Global, count: u16) -> Result<Vec<UnitPlan>, AllocError> {
    let mut plans = Vec::new(alloc);
    for place in 0..count {
        plans.push(UnitPlan {
            serial: serial_of(place),
            delay: u32::from(place) * DISTANCE,
            random: 0,
        })?;
    }
    Ok(plans)
}

/// Makes what the port is opened with: it admits as many of the units as it may.
fn config_for(alloc: Global, plans: &[UnitPlan]) -> Result<PortConfig, AllocError> {
    let mut serials = Vec::new(alloc);
    for plan in plans.iter().take(MAX_ADMITTED) {
        serials.push(plan.serial)?;
    }
    Ok(config_of(serials))
}

/// Measures frames of a world with 64 units, and of one with 1,024, of which the port admits 512 and has rows for 254.
pub(crate) fn measure_worlds<R: AllocGlobal + Print + Eprint + Clock>(
    rt: &R,
    rounds: u32,
) -> io::Result<()> {
    for count in [64, 1024] {
        let plans = plans_of(rt.alloc(), count)?;
        let config = config_for(rt.alloc(), &plans)?;
        let mut measured = Measured::default();
        for _ in 0..rounds {
            let blank = Blank::new(u64::from(MAX_LICENCES));
            measure_round::<Brand, R>(rt, blank, &config, &plans, &mut measured)?;
        }
        measured.tell(rt, "world frames", plans.len())?;
    }
    Ok(())
}

/// Measures a world that is begun for it, and ended after it, so that it doesn't grow with the rounds.
fn measure_round<L: Ledger, R: AllocGlobal + Clock>(
    rt: &R,
    blank: Blank,
    config: &PortConfig,
    plans: &[UnitPlan],
    measured: &mut Measured,
) -> io::Result<()>
    requires name { blank.name ≡ L.name }
    requires parts { (blank.parts ≡ L.parts) × (L.parts ≡ MAX_LICENCES) }
{
    let alloc = rt.alloc();
    let mut world = World::<L>::begin(alloc, blank, config, LICENCES, plans).map_err(error_of)?;
    let result = play(rt, &mut world, measured);
    world.close();
    result
}

/// Has the units found and ranged, and then runs the frames that are measured: the port asks its operating units in
/// turn, and hears their answers. The search and the ranging are not in the time; what a run gives is, and the memory
/// that it takes.
fn play<L: Ledger, R: AllocGlobal + Clock>(
    rt: &R,
    world: &mut World<L>,
    measured: &mut Measured,
) -> io::Result<()> {
    let alloc = rt.alloc();
    let loss = LossPlan {
        copies: Vec::new(alloc),
        bursts: Vec::new(alloc),
    };
    let search = WorldStep::Command(Command::Search);
    world.step(search).map_err(error_of)?;
    world.run(alloc, FRAMES, &loss).map_err(error_of)?;
    for _ in 0..PIECES {
        let begin = Instant::now(rt)?;
        let entries = world.run(alloc, FRAMES_AT_ONCE, &loss).map_err(error_of)?;
        measured.add_time(rt, begin)?;
        measured.count_all(u64::from(FRAMES_AT_ONCE), sum_of(&entries));
    }
    Ok(())
}

/// Adds up what the port answered.
fn sum_of(entries: &[Entry]) -> u64 {
    let mut sum = 0u64;
    for entry in entries {
        sum = sum.wrapping_add(number_of(&entry.answer));
    }
    sum
}

/// Tells why a world was not begun, or did not go on.
fn error_of(fault: WorldFault) -> io::Error {
    match fault {
        WorldFault::OutOfMemory => memory(),
        _ => io::ErrorKind::InvalidInput.into(),
    }
}
