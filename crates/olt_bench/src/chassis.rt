//! Measures frames of a port in a chassis, each recorded in the port's journal; cutting it is not in the time.
ghost use Rattle.std.specs.Prelude.{◌≡◌};
ghost use Rattle.gp_licence.specs.declared.ledger_parts.TheConstants.{MAX_LICENCES};

use super::config::{config_of, error_of, memory};
use super::measured::Measured;
use gp_chassis::{ChassisConfig, ChassisCore};
use gp_machine::Event;
use std::alloc::Global;
use std::io;
use std::rt::Clock;
use std::sync::ledger::{Blank, Ledger};
use std::time::Instant;

/// How many entries a journal keeps before it is cut, as a replay cuts it.
const ENTRIES: u32 = 4096;

/// Opens a chassis of one port that admits nobody.
fn open<L: Ledger>(alloc: Global, blank: Blank) -> io::Result<ChassisCore<L>>
    requires name { blank.name ≡ L.name }
    requires parts { (blank.parts ≡ L.parts) × (L.parts ≡ MAX_LICENCES) }
{
    let mut ports = Vec::new(alloc);
    ports.push(config_of(Vec::new(alloc)))?;
    let config = ChassisConfig {
        licences: 0,
        journal_limit: ENTRIES,
        ports,
    };
    ChassisCore::begin(alloc, blank, &config).map_err(error_of)
}

/// Measures frames of a port in a chassis, each recorded in the port's journal.
pub(crate) fn measure_chassis<L: Ledger, R: AllocGlobal + Print + Eprint + Clock>(
    rt: &R,
    blank: Blank,
    rounds: u32,
) -> io::Result<()>
    requires name { blank.name ≡ L.name }
    requires parts { (blank.parts ≡ L.parts) × (L.parts ≡ MAX_LICENCES) }
{
    let mut core = open::<L>(rt.alloc(), blank)?;
    let result = measure_rounds(rt, &mut core, rounds);
    core.close();
    result
}

/// Measures so many rounds, each of as many frames as the journal keeps. It is cut after each round, which is not in
/// the time.
fn measure_rounds<L: Ledger, R: AllocGlobal + Print + Eprint + Clock>(
    rt: &R,
    core: &mut ChassisCore<L>,
    rounds: u32,
) -> io::Result<()> {
    let mut measured = Measured::default();
    for _ in 0..rounds {
        let begin = Instant::now(rt)?;
        play(core, &mut measured)?;
        measured.add_time(rt, begin)?;
        core.cut(rt.alloc(), 0).map_err(|_| memory())?;
    }
    measured.tell(rt, "chassis frames", core.ports())
}

/// Applies one round of frames. The number of each entry counts.
fn play<L: Ledger>(core: &mut ChassisCore<L>, measured: &mut Measured) -> io::Result<()> {
    for _ in 0..ENTRIES {
        match core.apply(0, Event::Frame) {
            Ok(receipt) => measured.count(receipt.number),
            Err(_) => return Err(memory()),
        }
    }
    Ok(())
}
