//! The job `engine`: sixteen ports in a program of its own, whose units answer each grant, and whose journals are cut
//! where they are full.
ghost use Rattle.std.specs.Prelude.{◌≡◌};
ghost use Rattle.std.specs.Option.{ForSome};
ghost use Rattle.gp_ploam.specs.Down.{IsProperDown};
ghost use Rattle.gp_licence.specs.declared.ledger_parts.TheConstants.{MAX_LICENCES};

use crate::choices::Choices;
use crate::digest::Digest;
use crate::fault::JobFault;
use crate::serials::serial_of;
use crate::windows::{UNITS, Units, flood_of, rogue};
use gp_chassis::{ChassisConfig, ChassisCore};
use gp_licence::MAX_LICENCES;
use gp_machine::{Admitted, Answer, Command, Event, PortConfig, Receipt, Reply};
use gp_ploam::{Mask, encode_down};
use gp_ranging::Grant;
use std::alloc::{AllocError, Global};
use std::marker::Brand;
use std::sync::ledger::{Blank, Ledger};

/// How many ports the chassis has.
const PORTS: u8 = 16;

/// How many licences it has.
const LICENCES: u32 = 900;

/// How many entries a port's journal keeps before it is cut.
const ENTRIES: u64 = 4_096;

/// How many frames each port has in a part.
const FRAMES: u32 = 60_000;

/// Makes what a port is opened with.
fn config_of(alloc: Global, lot: u8, port: u8) -> Result<PortConfig, AllocError> {
    let mut serials = Vec::new(alloc);
    for place in 0..UNITS {
        serials.push(serial_of(lot, port, place))?;
    }
    Ok(PortConfig {
        mask: Mask::Plain,
        teqd: 311_040,
        overhead: [port; 10],
        max_units: 254,
        alloc_last: 4095,
        cycles: 2,
        search_period: 0,
        quarantine: 800,
        admitted: Admitted::from(serials),
    })
}

/// Makes what the chassis is opened with.
fn chassis_of(alloc: Global, lot: u8) -> Result<ChassisConfig, AllocError> {
    let mut ports = Vec::new(alloc);
    for port in 0..PORTS {
        ports.push(config_of(alloc, lot, port)?)?;
    }
    Ok(ChassisConfig {
        licences: LICENCES,
        journal_limit: ENTRIES as u32,
        ports,
    })
}

/// Makes the units of each port.
fn units_of(alloc: Global, lot: u8) -> Result<Vec<Units>, AllocError> {
    let mut units = Vec::new(alloc);
    for port in 0..PORTS {
        units.push(Units::new(alloc, lot, port)?)?;
    }
    Ok(units)
}

/// Makes a number of a reply.
fn number_of(reply: &Reply) -> u64 {
    match *reply {
        Reply::Ticked => 1,
        Reply::Refused(refusal) => 256 + u64::from(refusal.number()),
        Reply::Found(onu) => 512 + u64::from(onu),
        Reply::Again(onu) => 768 + u64::from(onu),
        Reply::Repeat(onu) => 1_024 + u64::from(onu),
        Reply::Restarted(onu) => 1_280 + u64::from(onu),
        Reply::Ranged { onu, eqd } => 1_536 + u64::from(onu) + u64::from(eqd) * 65_536,
        Reply::Alive(onu) => 1_792 + u64::from(onu),
        Reply::Acked(alloc) => 8_192 + u64::from(alloc),
        Reply::Allocated(alloc) => 16_384 + u64::from(alloc),
        Reply::Releasing(alloc) => 32_768 + u64::from(alloc),
        Reply::Deactivated(onu) => 2_048 + u64::from(onu),
        Reply::PoppedUpAll(units) => 2_304 + u64::from(units),
        _ => 2,
    }
}

/// Makes a number of a grant.
fn granted(grant: Option<Grant>) -> u64 {
    match grant {
        None => 0,
        Some(Grant::Search) => 1,
        Some(Grant::Range(onu)) => 256 + u64::from(onu),
        Some(Grant::Poll(onu)) => 512 + u64::from(onu),
    }
}

/// Adds what an event was answered with.
fn add_answer(digest: &mut Digest, answer: &Answer)
    requires { ForSome answer.now.sent IsProperDown }
{
    let grant = granted(answer.grant).wrapping_mul(1_000_003);
    let alarm = if answer.alarm.is_some() { 7_777_777 } else { 0 };
    let number = number_of(&answer.reply);
    digest.add(number.wrapping_add(grant).wrapping_add(alarm));
    if let Some(sent) = &answer.sent {
        if let Some(word) = encode_down(sent, Mask::Plain).first_chunk::<8>() {
            digest.add(u64::from_le_bytes(*word));
        }
    }
}

/// Hands an event to a port, adds what it is answered with, and cuts the port's journal where it is full.
fn apply<L: Ledger>(
    alloc: Global,
    core: &mut ChassisCore<L>,
    port: u8,
    event: Event,
    digest: &mut Digest,
) -> Result<Receipt, JobFault> {
    let Ok(receipt) = core.apply(port, event) else {
        return Err(JobFault::Unexpected);
    };
    digest.add(receipt.number);
    add_answer(digest, &receipt.entry.answer);
    if receipt.number % ENTRIES == ENTRIES - 1 {
        match core.cut(alloc, port) {
            Ok(piece) => digest.add(piece.first.wrapping_add(piece.len())),
            Err(_) => return Err(JobFault::OutOfMemory),
        }
    }
    Ok(receipt)
}

/// Has a search window hear a rogue's flood, and each unit of the port.
fn search<L: Ledger>(
    alloc: Global,
    core: &mut ChassisCore<L>,
    port: u8,
    units: &mut Units,
    choices: &mut Choices,
    digest: &mut Digest,
) -> Result<(), JobFault> {
    for _ in 0..flood_of(choices) {
        apply(alloc, core, port, rogue(choices), digest)?;
    }
    if choices.is_once_in(2) {
        for place in 0..UNITS {
            let receipt = apply(alloc, core, port, units.searched(place), digest)?;
            units.note(&receipt.entry.answer.reply, place);
        }
    }
    Ok(())
}

/// Has the units that a grant asks answer it. One poll in a thousand isn't answered.
fn answer<L: Ledger>(
    alloc: Global,
    core: &mut ChassisCore<L>,
    port: u8,
    units: &mut Units,
    grant: Grant,
    choices: &mut Choices,
    digest: &mut Digest,
) -> Result<(), JobFault> {
    match grant {
        Grant::Search => search(alloc, core, port, units, choices, digest),
        Grant::Range(onu) => {
            apply(alloc, core, port, units.ranged(onu), digest)?;
            Ok(())
        }
        Grant::Poll(onu) => {
            if !choices.is_once_in(1_000) {
                apply(alloc, core, port, units.polled(onu), digest)?;
            }
            Ok(())
        }
    }
}

/// Gives a command that an operator has now and then.
fn command_of(choices: &mut Choices, lot: u8, port: u8) -> Command {
    let serial = serial_of(lot, port, choices.below(u32::from(UNITS)) as u16);
    match choices.below(6) {
        0 => Command::Deactivate(serial),
        1 => Command::Alloc(serial),
        2 => Command::Dealloc { serial, alloc: 256 },
        3 => Command::Show(serial),
        4 => Command::Popup(serial),
        _ => Command::Search,
    }
}

/// Has one frame go by on a port, and the answers that are due.
fn tick<L: Ledger>(
    alloc: Global,
    core: &mut ChassisCore<L>,
    (port, lot): (u8, u8),
    units: &mut Units,
    choices: &mut Choices,
    digest: &mut Digest,
) -> Result<(), JobFault> {
    let receipt = apply(alloc, core, port, Event::Frame, digest)?;
    if let Some(grant) = units.hear(receipt.entry.answer.grant) {
        answer(alloc, core, port, units, grant, choices, digest)?;
    }
    if choices.is_once_in(2_000) {
        let command = Event::Command(command_of(choices, lot, port));
        apply(alloc, core, port, command, digest)?;
    }
    Ok(())
}

/// Has frames go by, on each port in turn.
fn tick_all<L: Ledger>(
    alloc: Global,
    core: &mut ChassisCore<L>,
    lot: u8,
    choices: &mut Choices,
    digest: &mut Digest,
) -> Result<(), JobFault> {
    let mut ports = units_of(alloc, lot)?;
    for port in 0..PORTS {
        apply(alloc, core, port, Event::Command(Command::Search), digest)?;
    }
    for _ in 0..FRAMES {
        for port in 0..PORTS {
            if let Some(units) = ports.get_mut(usize::from(port)) {
                tick(alloc, core, (port, lot), units, choices, digest)?;
            }
        }
    }
    Ok(())
}

/// Opens a chassis, has frames go by, and closes it.
fn serve_on<L: Ledger>(
    alloc: Global,
    blank: Blank,
    choices: &mut Choices,
    digest: &mut Digest,
) -> Result<(), JobFault>
    requires name { blank.name ≡ L.name }
    requires parts { (blank.parts ≡ L.parts) × (L.parts ≡ MAX_LICENCES) }
{
    let lot = choices.below(256) as u8;
    let config = chassis_of(alloc, lot)?;
    let Ok(mut core) = ChassisCore::<L>::begin(alloc, blank, &config) else {
        return Err(JobFault::Unexpected);
    };
    let outcome = tick_all(alloc, &mut core, lot, choices, digest);
    digest.add(u64::from(core.free()));
    digest.add(u64::from(core.close()));
    outcome
}

/// Serves the events of a part, and adds what they were answered with.
pub(crate) fn serve(
    alloc: Global,
    part: u32,
    seed: u32,
    mut digest: Digest,
) -> Result<Digest, JobFault> {
    let mut choices = Choices::new(seed, part);
    let blank = Blank::new(u64::from(MAX_LICENCES));
    serve_on::<Brand>(alloc, blank, &mut choices, &mut digest)?;
    Ok(digest)
}
