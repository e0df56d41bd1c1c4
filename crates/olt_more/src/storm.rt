//! Storms of one to sixteen ports, by threads.
use crate::choices::Choices;
use crate::codes::{nothing, searched};
use crate::digest::Digest;
use crate::fault::JobFault;
use crate::serials::{add_list, serial_of, text_of};
use gp_ploam::Mask;
use gp_storm::run_storm;
use gp_stream::{Sink, Source};
use std::alloc::{AllocError, Global};
use std::sync::Wait;
use std::thread::Threads;

/// How many serial numbers each port admits.
const ADMITTED: u16 = 64;

/// What a storm has.
#[derive(Clone, Copy)]
struct Kind {
    ports: u8,
    /// How many bursts, and how many commands, of all ports together.
    bursts: u32,
    commands: u32,
    /// How often frames go by, and how many each time.
    runs: u32,
    frames: u32,
}

/// The kinds of storms: 100,000 events of one port, 250,000 of four, 400,000 of sixteen.
const KINDS: [Kind; 3] = [
    Kind {
        ports: 1,
        bursts: 7_600,
        commands: 400,
        runs: 92,
        frames: 1_000,
    },
    Kind {
        ports: 4,
        bursts: 9_200,
        commands: 800,
        runs: 600,
        frames: 400,
    },
    Kind {
        ports: 16,
        bursts: 9_000,
        commands: 1_000,
        runs: 1_560,
        frames: 250,
    },
];

/// Gives the kind of a part.
fn kind_of(part: u32) -> Kind {
    KINDS[(part % KINDS.len() as u32) as usize]
}

/// Writes a burst of a unit that asks for an ONU-ID, or that is polled.
fn add_burst(
    alloc: Global,
    script: &mut String,
    choices: &mut Choices,
    (lot, kind): (u8, Kind),
) -> Result<(), AllocError> {
    let port = choices.below(u32::from(kind.ports)) as u8;
    let place = choices.below(u32::from(ADMITTED)) as u16;
    let code = if choices.is_once_in(2) {
        searched(serial_of(lot, port, place), Mask::Plain)
    } else {
        nothing((place % 256) as u8, Mask::Plain)
    };
    let digits = hex::encode(alloc, code)?;
    let at = choices.between(60_000, 310_000);
    write!(
        script,
        "{{port = {port}, at = {at}, burst = \"{digits}\"}},\n"
    )
}

/// Writes a command.
fn add_command(
    alloc: Global,
    script: &mut String,
    choices: &mut Choices,
    (lot, kind): (u8, Kind),
) -> Result<(), AllocError> {
    let port = choices.below(u32::from(kind.ports)) as u8;
    let place = choices.below(u32::from(ADMITTED)) as u16;
    let serial = text_of(alloc, serial_of(lot, port, place))?;
    let word = match choices.below(8) {
        0 | 1 => return write!(script, "{{port = {port}, command = \"search\"}},\n"),
        2 => return write!(script, "{{port = {port}, command = \"popup-all\"}},\n"),
        3 => "alloc",
        4 => "disable",
        5 => "enable",
        6 => "popup",
        _ => "show",
    };
    write!(
        script,
        "{{port = {port}, command = \"{word}\", serial = \"{serial}\"}},\n"
    )
}

/// Writes the script of a storm.
fn script_of(alloc: Global, choices: &mut Choices, kind: Kind) -> Result<String, AllocError> {
    let lot = choices.below(256) as u8;
    let licences = choices.between(1, 4_064);
    let mut script = String::new(alloc);
    write!(script, "licences = {licences}\nevent = [\n")?;
    for _ in 0..kind.commands {
        add_command(alloc, &mut script, choices, (lot, kind))?;
    }
    for _ in 0..kind.bursts {
        add_burst(alloc, &mut script, choices, (lot, kind))?;
    }
    for run in 0..kind.runs {
        let port = run % u32::from(kind.ports).max(1);
        let frames = kind.frames;
        write!(script, "{{port = {port}, frames = {frames}}},\n")?;
    }
    script.push_str("]\n")?;
    for port in 0..kind.ports {
        let cycles = choices.between(1, 10);
        write!(script, "[[port]]\ncycles = {cycles}\nadmit = ")?;
        add_list(alloc, &mut script, lot, port, ADMITTED)?;
        script.push_str("\n")?;
    }
    Ok(script)
}

/// Runs the storm of a part, and adds its totals.
pub(crate) fn run<R: AllocGlobal + Threads + Wait + Sync>(
    rt: &R,
    part: u32,
    seed: u32,
    digest: Digest,
) -> Result<Digest, JobFault> {
    let alloc = rt.alloc();
    let mut choices = Choices::new(seed, part);
    let script = script_of(alloc, &mut choices, kind_of(part))?;
    let mut source = Source::new(script.as_bytes());
    let mut sink = Sink::new(alloc, digest)?;
    match run_storm(rt, alloc, &mut source, &mut sink) {
        Ok(()) => Ok(sink.into_inner()),
        Err(_) => Err(JobFault::Unexpected),
    }
}
