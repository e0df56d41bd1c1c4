//! What a test bench sends on its ports: frames up to a grant, and the answer to it.
use crate::choices::Choices;
use crate::codes::{garbled, nothing, searched, serial_number};
use crate::fibre::mask_number;
use crate::serials::{add_list, serial_of};
use gp_ploam::Mask;
use std::alloc::{AllocError, Global};

/// How many ports a bench has, and how many units on each.
const PORTS: u8 = 4;

const UNITS: u8 = 60;

/// A bench.
#[derive(Clone, Copy)]
pub(crate) struct Bench {
    pub(crate) lot: u8,
    pub(crate) mask: Mask,
}

/// Writes the script that a bench opens.
pub(crate) fn opening(alloc: Global, bench: Bench) -> Result<String, AllocError> {
    let mut script = String::new(alloc);
    let mask = mask_number(bench.mask);
    write!(script, "licences = 254\nmask = {mask}\n")?;
    for port in 0..PORTS {
        script.push_str("[[port]]\ncycles = 1\nquarantine = 0\nadmit = ")?;
        add_list(alloc, &mut script, bench.lot, port, u16::from(UNITS))?;
        script.push_str("\n")?;
    }
    Ok(script)
}

/// Writes a burst.
fn add_burst(
    alloc: Global,
    lines: &mut String,
    choices: &mut Choices,
    port: u8,
    code: [u8; 13],
) -> Result<(), AllocError> {
    let at = choices.between(60_000, 310_000);
    let digits = hex::encode(alloc, code)?;
    write!(lines, "{port} burst {at} {digits}\n")
}

/// Writes what finds and ranges the units of a port.
fn add_search(
    alloc: Global,
    lines: &mut String,
    choices: &mut Choices,
    bench: Bench,
    port: u8,
) -> Result<(), AllocError> {
    write!(lines, "{port} search\n{port} until search\n")?;
    for onu in 0..UNITS {
        let serial = serial_of(bench.lot, port, u16::from(onu));
        add_burst(alloc, lines, choices, port, searched(serial, bench.mask))?;
    }
    for onu in 0..UNITS {
        let serial = serial_of(bench.lot, port, u16::from(onu));
        write!(lines, "{port} until range {onu}\n")?;
        add_burst(
            alloc,
            lines,
            choices,
            port,
            serial_number(onu, serial, bench.mask),
        )?;
    }
    Ok(())
}

/// Writes a poll of each unit of each port, and its answer: that of one unit in sixteen is garbled, in each of the
/// sixteen rounds another's.
fn add_round(
    alloc: Global,
    lines: &mut String,
    choices: &mut Choices,
    bench: Bench,
    round: u8,
) -> Result<(), AllocError> {
    for onu in 0..UNITS {
        for port in 0..PORTS {
            write!(lines, "{port} until poll {onu}\n")?;
            let code = if onu % 16 == round % 16 {
                garbled(onu, bench.mask)
            } else {
                nothing(onu, bench.mask)
            };
            add_burst(alloc, lines, choices, port, code)?;
        }
    }
    Ok(())
}

/// Writes what a bench sends: searches, and sixteen rounds of polls, so many times.
pub(crate) fn lines_of(
    alloc: Global,
    choices: &mut Choices,
    bench: Bench,
    times: u32,
) -> Result<String, AllocError> {
    let mut lines = String::new(alloc);
    for port in 0..PORTS {
        add_search(alloc, &mut lines, choices, bench, port)?;
    }
    let mut rounds = String::new(alloc);
    for round in 0..16u8 {
        add_round(alloc, &mut rounds, choices, bench, round)?;
    }
    for _ in 0..times {
        lines.push_str(rounds.as_str())?;
    }
    Ok(lines)
}
