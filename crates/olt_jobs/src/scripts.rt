//! The job `scripts`: scripts of many sizes, some with a fault, each checked and played.

use crate::choices::Choices;
use crate::digest::Digest;
use crate::fault::JobFault;
use crate::serials::{add_list, serial_of, text_of};
use gp_check::check_script;
use gp_replay::{RunFault, run_replay};
use gp_stream::{Sink, Source};
use std::alloc::{AllocError, Global};

/// What a script of a folder has.
#[derive(Clone, Copy)]
struct Kind {
    ports: u8,
    /// How many serial numbers each port admits.
    admitted: u16,
    events: u32,
    /// Whether events stand in tables of their own, or in one list.
    tables: bool,
    /// Whether long remarks stand between them.
    remarks: bool,
    /// Whether its last event has a fault.
    faulty: bool,
}

/// The kinds of scripts: from 2 KB to nearly a mebibyte, most of them small.
const KINDS: [Kind; 16] = [
    Kind {
        ports: 1,
        admitted: 8,
        events: 40,
        tables: true,
        remarks: false,
        faulty: false,
    },
    Kind {
        ports: 2,
        admitted: 32,
        events: 120,
        tables: false,
        remarks: false,
        faulty: false,
    },
    Kind {
        ports: 1,
        admitted: 64,
        events: 300,
        tables: true,
        remarks: true,
        faulty: false,
    },
    Kind {
        ports: 4,
        admitted: 64,
        events: 600,
        tables: false,
        remarks: false,
        faulty: false,
    },
    Kind {
        ports: 1,
        admitted: 4,
        events: 60,
        tables: true,
        remarks: true,
        faulty: true,
    },
    Kind {
        ports: 16,
        admitted: 128,
        events: 2_000,
        tables: false,
        remarks: false,
        faulty: false,
    },
    Kind {
        ports: 1,
        admitted: 512,
        events: 1_500,
        tables: true,
        remarks: false,
        faulty: false,
    },
    Kind {
        ports: 2,
        admitted: 16,
        events: 4_000,
        tables: true,
        remarks: true,
        faulty: false,
    },
    Kind {
        ports: 1,
        admitted: 16,
        events: 80,
        tables: false,
        remarks: false,
        faulty: false,
    },
    Kind {
        ports: 3,
        admitted: 100,
        events: 6_000,
        tables: false,
        remarks: false,
        faulty: false,
    },
    Kind {
        ports: 1,
        admitted: 64,
        events: 9_000,
        tables: true,
        remarks: false,
        faulty: true,
    },
    Kind {
        ports: 1,
        admitted: 254,
        events: 200,
        tables: true,
        remarks: false,
        faulty: false,
    },
    Kind {
        ports: 8,
        admitted: 64,
        events: 1_000,
        tables: false,
        remarks: true,
        faulty: false,
    },
    Kind {
        ports: 16,
        admitted: 512,
        events: 500,
        tables: true,
        remarks: false,
        faulty: false,
    },
    Kind {
        ports: 1,
        admitted: 32,
        events: 12_000,
        tables: false,
        remarks: false,
        faulty: false,
    },
    Kind {
        ports: 2,
        admitted: 64,
        events: 15_000,
        tables: true,
        remarks: false,
        faulty: false,
    },
];

/// Gives the kind of a part.
fn kind_of(part: u32) -> Kind {
    KINDS[(part % KINDS.len() as u32) as usize]
}

/// What stands around the keys of an event, and between them.
#[derive(Clone, Copy)]
struct Frame {
    before: &'static str,
    between: &'static str,
    behind: &'static str,
}

/// Gives what stands around the keys of the events of a script.
fn frame_of(kind: Kind) -> Frame {
    if kind.tables {
        Frame {
            before: "[[event]]\n",
            between: "\n",
            behind: "\n",
        }
    } else {
        Frame {
            before: "    {",
            between: ", ",
            behind: "},\n",
        }
    }
}

/// Writes a burst of a unit: it says its serial number, is polled, acknowledges or loses its power.
fn add_burst(
    alloc: Global,
    script: &mut String,
    choices: &mut Choices,
    (lot, kind): (u8, Kind),
    port: u8,
    between: &str,
) -> Result<(), AllocError> {
    let at = choices.between(60_000, 310_000);
    write!(script, "{between}at = {at}{between}")?;
    let place = choices.below(u32::from(kind.admitted)) as u16;
    let onu = choices.below(64);
    match choices.below(8) {
        0 | 1 => {
            let serial = text_of(alloc, serial_of(lot, port, place))?;
            write!(script, "say = \"serial\"{between}serial = \"{serial}\"")
        }
        2 => {
            let serial = text_of(alloc, serial_of(lot, port, place))?;
            write!(
                script,
                "say = \"serial\"{between}serial = \"{serial}\"{between}onu = {onu}"
            )
        }
        3 => write!(script, "say = \"gasp\"{between}onu = {onu}"),
        4 => write!(script, "say = \"ack\"{between}onu = {onu}{between}id = 10"),
        5 => {
            let code = hex::encode(alloc, crate::codes::garbled(onu as u8))?;
            write!(script, "burst = \"{code}\"")
        }
        _ => write!(script, "say = \"none\"{between}onu = {onu}"),
    }
}

/// Writes a command.
fn add_command(
    alloc: Global,
    script: &mut String,
    choices: &mut Choices,
    (lot, kind): (u8, Kind),
    port: u8,
    between: &str,
) -> Result<(), AllocError> {
    let place = choices.below(u32::from(kind.admitted)) as u16;
    let serial = text_of(alloc, serial_of(lot, port, place))?;
    let word = match choices.below(10) {
        0 | 1 | 2 => return write!(script, "{between}command = \"search\""),
        3 => return write!(script, "{between}command = \"enable-all\""),
        4 => "alloc",
        5 => "deactivate",
        6 => "disable",
        7 => "enable",
        8 => "popup",
        _ => "show",
    };
    write!(
        script,
        "{between}command = \"{word}\"{between}serial = \"{serial}\""
    )
}

/// Writes an event.
fn add_event(
    alloc: Global,
    script: &mut String,
    choices: &mut Choices,
    (lot, kind): (u8, Kind),
) -> Result<(), AllocError> {
    let Frame {
        before,
        between,
        behind,
    } = frame_of(kind);
    if kind.remarks && choices.is_once_in(4) {
        let number = choices.number();
        write!(
            script,
            "# the bench that wrote this had the run {number}, see its own log for what came before\n"
        )?;
    }
    let port = choices.below(u32::from(kind.ports)) as u8;
    write!(script, "{before}port = {port}")?;
    match choices.below(10) {
        0..=4 => {
            let frames = choices.between(1, 12);
            write!(script, "{between}frames = {frames}")?;
        }
        5..=8 => add_burst(alloc, script, choices, (lot, kind), port, between)?,
        _ => add_command(alloc, script, choices, (lot, kind), port, between)?,
    }
    script.push_str(behind)
}

/// Writes the ports of a script.
fn add_ports(
    alloc: Global,
    script: &mut String,
    choices: &mut Choices,
    (lot, kind): (u8, Kind),
) -> Result<(), AllocError> {
    for port in 0..kind.ports {
        let cycles = choices.between(1, 10);
        let quarantine = choices.below(8_001);
        write!(
            script,
            "[[port]]\ncycles = {cycles}\nquarantine = {quarantine}\nadmit = "
        )?;
        add_list(alloc, script, lot, port, kind.admitted)?;
        script.push_str("\n\n")?;
    }
    Ok(())
}

/// Writes the events of a script.
fn add_events(
    alloc: Global,
    script: &mut String,
    choices: &mut Choices,
    (lot, kind): (u8, Kind),
) -> Result<(), AllocError> {
    for _ in 0..kind.events {
        add_event(alloc, script, choices, (lot, kind))?;
    }
    if kind.faulty {
        let Frame {
            before,
            between,
            behind,
        } = frame_of(kind);
        write!(script, "{before}port = 0{between}frames = 1000001{behind}")?;
    }
    Ok(())
}

/// Writes a script of this kind.
fn script_of(alloc: Global, choices: &mut Choices, kind: Kind) -> Result<String, AllocError> {
    let lot = choices.below(256) as u8;
    let mut script = String::new(alloc);
    let licences = choices.between(1, 254);
    write!(script, "licences = {licences}\n")?;
    if kind.tables {
        add_ports(alloc, &mut script, choices, (lot, kind))?;
        add_events(alloc, &mut script, choices, (lot, kind))?;
    } else {
        script.push_str("event = [\n")?;
        add_events(alloc, &mut script, choices, (lot, kind))?;
        script.push_str("]\n")?;
        add_ports(alloc, &mut script, choices, (lot, kind))?;
    }
    Ok(script)
}

/// Makes a number of how a play ended, or says that it can't end so.
fn number_of(kind: Kind, outcome: Result<(), RunFault>) -> Option<u64> {
    match outcome {
        Ok(()) => Some(0),
        Err(RunFault::Script(_)) if kind.faulty => Some(1),
        Err(_) => None,
    }
}

/// Checks the script of a part and plays it, and adds what is written of both.
pub(crate) fn check(
    alloc: Global,
    part: u32,
    seed: u32,
    digest: Digest,
) -> Result<Digest, JobFault> {
    let mut choices = Choices::new(seed, part);
    let kind = kind_of(part);
    let script = script_of(alloc, &mut choices, kind)?;
    let mut sink = Sink::new(alloc, digest)?;
    let mut source = Source::new(script.as_bytes());
    let name = format!(in alloc; "script-{part}.toml")?;
    if check_script(alloc, name.as_str(), &mut source, &mut sink).is_err() {
        return Err(JobFault::Unexpected);
    }
    let mut source = Source::new(script.as_bytes());
    let outcome = run_replay(alloc, &mut source, &mut sink);
    let Some(number) = number_of(kind, outcome) else {
        return Err(JobFault::Unexpected);
    };
    let mut digest = sink.into_inner();
    digest.add(number);
    Ok(digest)
}
