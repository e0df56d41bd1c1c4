//! The job `soak`: scripts with simulated units whose light comes and goes, and with losses, played to their traces.
//! Other jobs use these scripts too.

use crate::choices::Choices;
use crate::digest::Digest;
use crate::fault::JobFault;
use crate::serials::{add_list, serial_of, text_of};
use gp_replay::run_replay;
use gp_stream::{Sink, Source};
use std::alloc::{AllocError, Global};

/// How many serial numbers a port may admit.
const MAX_ADMITTED: u16 = 512;

/// A kilometre of fibre in bit times, there and back.
const KILOMETRE: u32 = 12_442;

/// What a script of a soak has.
#[derive(Clone, Copy)]
pub(crate) struct Kind {
    /// The simulated units.
    pub(crate) units: u16,
    /// The numbers of copies and bursts that are lost.
    pub(crate) losses: u32,
    /// How often frames go by until something else happens.
    pub(crate) spells: u32,
    /// How many frames each time.
    pub(crate) frames: u32,
    /// How many units go dark at once, in each spell.
    pub(crate) dark: u16,
    /// For how many frames a freed ONU-ID is given to no other unit.
    pub(crate) quarantine: u32,
}

/// The kinds of scripts: a fibre split 1:32 to 1:256, some of it dark every few seconds; a power cut of all units; more
/// units than a port has ONU-IDs for; a long list of losses.
const KINDS: [Kind; 8] = [
    Kind {
        units: 64,
        losses: 300,
        spells: 12,
        frames: 20_000,
        dark: 1,
        quarantine: 800,
    },
    Kind {
        units: 32,
        losses: 200,
        spells: 30,
        frames: 8_000,
        dark: 1,
        quarantine: 0,
    },
    Kind {
        units: 128,
        losses: 1_000,
        spells: 10,
        frames: 24_000,
        dark: 2,
        quarantine: 800,
    },
    Kind {
        units: 64,
        losses: 2_000,
        spells: 6,
        frames: 20_000,
        dark: 1,
        quarantine: 8_000,
    },
    Kind {
        units: 256,
        losses: 500,
        spells: 8,
        frames: 16_000,
        dark: 4,
        quarantine: 0,
    },
    Kind {
        units: 254,
        losses: 400,
        spells: 3,
        frames: 32_000,
        dark: 254,
        quarantine: 800,
    },
    Kind {
        units: 1_024,
        losses: 600,
        spells: 8,
        frames: 16_000,
        dark: 8,
        quarantine: 800,
    },
    Kind {
        units: 64,
        losses: 20_000,
        spells: 3,
        frames: 12_000,
        dark: 1,
        quarantine: 800,
    },
];

/// Gives the kind of a part.
fn kind_of(part: u32) -> Kind {
    KINDS[(part % KINDS.len() as u32) as usize]
}

/// Adds the port, which admits as many of the units as it may.
fn add_port(
    alloc: Global,
    script: &mut String,
    choices: &mut Choices,
    kind: Kind,
    lot: u8,
) -> Result<(), AllocError> {
    let cycles = choices.between(4, 10);
    let quarantine = kind.quarantine;
    script.push_str("licences = 254\n[[port]]\nteqd = 460000\nadmit = ")?;
    add_list(alloc, script, lot, 0, kind.units.min(MAX_ADMITTED))?;
    write!(script, "\ncycles = {cycles}\nquarantine = {quarantine}\n\n")
}

/// Adds the units, each 5 to 35 km away.
fn add_units(
    alloc: Global,
    script: &mut String,
    choices: &mut Choices,
    kind: Kind,
    lot: u8,
) -> Result<(), AllocError> {
    for place in 0..kind.units {
        let serial = text_of(alloc, serial_of(lot, 0, place))?;
        let delay = choices.between(KILOMETRE * 5, KILOMETRE * 35);
        let random = choices.below(4096);
        write!(
            script,
            "[[unit]]\nserial = \"{serial}\"\ndelay = {delay}\nrandom = {random}\n"
        )?;
    }
    Ok(())
}

/// Adds the losses: one in eight is a copy, the others are bursts of the whole run.
fn add_losses(script: &mut String, choices: &mut Choices, kind: Kind) -> Result<(), AllocError> {
    let bursts = kind.spells.saturating_mul(kind.frames) / 3;
    script.push_str("lose = [\n")?;
    for _ in 0..kind.losses {
        if choices.is_once_in(8) {
            let copy = choices.below(4_000);
            write!(script, "{{copy = {copy}}},\n")?;
        } else {
            let burst = choices.below(bursts);
            write!(script, "{{burst = {burst}}},\n")?;
        }
    }
    script.push_str("]\n")
}

/// Adds a spell: units go dark, frames go by, they come back, and the port searches for them.
fn add_spell(script: &mut String, choices: &mut Choices, kind: Kind) -> Result<(), AllocError> {
    let units = u32::from(kind.units);
    let first = choices.below(units);
    for number in 0..u32::from(kind.dark) {
        let unit = first.saturating_add(number) % units.max(1);
        write!(script, "{{unit = {unit}, light = false}},\n")?;
    }
    let frames = choices.between(kind.frames / 2, kind.frames);
    write!(script, "{{port = 0, frames = {frames}}},\n")?;
    for number in 0..u32::from(kind.dark) {
        let unit = first.saturating_add(number) % units.max(1);
        write!(script, "{{unit = {unit}, light = true}},\n")?;
    }
    let rest = kind.frames.saturating_sub(frames).saturating_add(1);
    script.push_str("{port = 0, command = \"search\"},\n")?;
    write!(script, "{{port = 0, frames = {rest}}},\n")
}

/// Writes the script of a kind.
pub(crate) fn script_of(
    alloc: Global,
    choices: &mut Choices,
    kind: Kind,
) -> Result<String, AllocError> {
    let mut script = String::new(alloc);
    let lot = choices.below(256) as u8;
    add_port(alloc, &mut script, choices, kind, lot)?;
    let mut lists = String::new(alloc);
    add_units(alloc, &mut lists, choices, kind, lot)?;
    let mut top = String::new(alloc);
    add_losses(&mut top, choices, kind)?;
    top.push_str("event = [\n{port = 0, command = \"search\"},\n{port = 0, frames = 3000},\n")?;
    for _ in 0..kind.spells {
        add_spell(&mut top, choices, kind)?;
    }
    top.push_str("]\n")?;
    top.push_str(script.as_str())?;
    top.push_str(lists.as_str())?;
    Ok(top)
}

/// Plays the script of a part, and adds its trace.
pub(crate) fn play(
    alloc: Global,
    part: u32,
    seed: u32,
    digest: Digest,
) -> Result<Digest, JobFault> {
    let mut choices = Choices::new(seed, part);
    let script = script_of(alloc, &mut choices, kind_of(part))?;
    let mut source = Source::new(script.as_bytes());
    let mut sink = Sink::new(alloc, digest)?;
    match run_replay(alloc, &mut source, &mut sink) {
        Ok(()) => Ok(sink.into_inner()),
        Err(_) => Err(JobFault::Unexpected),
    }
}
