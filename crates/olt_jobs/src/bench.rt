//! What a test bench sends on its ports, line by line: searches, polls with their answers, Alloc-IDs, a rogue's floods,
//! units that are ranged anew.

use crate::choices::Choices;
use crate::codes::{acknowledged, garbled, nothing, searched, serial_number};
use crate::serials::{add_list, serial_of, text_of};
use std::alloc::{AllocError, Global};

/// How many ports a bench has, and how many units on each.
const PORTS: u8 = 4;

const UNITS: u8 = 60;

/// How many units that nobody admitted a rogue's flood has.
const FLOOD: u16 = 150;

/// Lines that ask for nothing, or for what isn't there.
const OTHER_LINES: [&'static str; 8] = [
    "0 frmae\n",
    "# the next unit is on the second shelf\n",
    "9 frame\n",
    "\n",
    "1 burst 4294967296 0004000000000000000000007c\n",
    "2 burst 100000 00040000000000000000007c\n",
    "3 show WAGP00\n",
    "0 frame 0\n",
];

/// What a bench sends for one unit, each a line.
#[derive(Drop)]
struct UnitLines {
    searched: String,
    ranged: String,
    polled: String,
    acknowledged: String,
    garbled: String,
    alloc: String,
    dealloc: String,
    show: String,
    until_range: String,
    until_poll: String,
}

/// What a bench sends for one port, each a line.
#[derive(Drop)]
struct PortLines {
    search: String,
    until_search: String,
    frame: String,
    popup_all: String,
    units: Vec<UnitLines>,
}

/// Writes a burst.
fn burst_of(alloc: Global, port: u8, at: u32, code: [u8; 13]) -> Result<String, AllocError> {
    let digits = hex::encode(alloc, code)?;
    format!(in alloc; "{port} burst {at} {digits}\n")
}

/// Writes the lines of a unit, which the port gives this ONU-ID.
fn unit_lines(
    alloc: Global,
    choices: &mut Choices,
    lot: u8,
    port: u8,
    onu: u8,
) -> Result<UnitLines, AllocError> {
    let serial = serial_of(lot, port, u16::from(onu));
    let text = text_of(alloc, serial)?;
    let at = choices.between(60_000, 310_000);
    Ok(UnitLines {
        searched: burst_of(alloc, port, at, searched(serial))?,
        ranged: burst_of(alloc, port, at, serial_number(onu, serial))?,
        polled: burst_of(alloc, port, at, nothing(onu))?,
        acknowledged: burst_of(alloc, port, at, acknowledged(onu))?,
        garbled: burst_of(alloc, port, at, garbled(onu))?,
        alloc: format!(in alloc; "{port} alloc {text}\n")?,
        dealloc: format!(in alloc; "{port} dealloc {text} 256\n")?,
        show: format!(in alloc; "{port} show {text}\n")?,
        until_range: format!(in alloc; "{port} until range {onu}\n")?,
        until_poll: format!(in alloc; "{port} until poll {onu}\n")?,
    })
}

/// Writes the lines of a port.
fn port_lines(
    alloc: Global,
    choices: &mut Choices,
    lot: u8,
    port: u8,
) -> Result<PortLines, AllocError> {
    let mut units = Vec::new(alloc);
    for onu in 0..UNITS {
        units.push(unit_lines(alloc, choices, lot, port, onu)?)?;
    }
    Ok(PortLines {
        search: format!(in alloc; "{port} search\n")?,
        until_search: format!(in alloc; "{port} until search\n")?,
        frame: format!(in alloc; "{port} frame\n")?,
        popup_all: format!(in alloc; "{port} popup-all\n")?,
        units,
    })
}

/// Writes what ranges each unit anew, one after the other.
fn add_ranging(turns: &mut String, port: &PortLines) -> Result<(), AllocError> {
    for unit in port.units.as_slice() {
        turns.push_str(unit.until_range.as_str())?;
        turns.push_str(unit.ranged.as_str())?;
    }
    Ok(())
}

/// Writes what finds and ranges the units of a port.
fn add_search(turns: &mut String, port: &PortLines) -> Result<(), AllocError> {
    turns.push_str(port.search.as_str())?;
    turns.push_str(port.until_search.as_str())?;
    for unit in port.units.as_slice() {
        turns.push_str(unit.searched.as_str())?;
    }
    add_ranging(turns, port)
}

/// Writes a search in which only units answer that nobody admitted.
fn add_flood(
    alloc: Global,
    turns: &mut String,
    choices: &mut Choices,
    number: u8,
    port: &PortLines,
) -> Result<(), AllocError> {
    turns.push_str(port.search.as_str())?;
    turns.push_str(port.until_search.as_str())?;
    for place in 0..FLOOD {
        let lot = choices.below(256) as u8;
        let serial = serial_of(lot, 255, place);
        let at = choices.between(60_000, 310_000);
        turns.push_str(burst_of(alloc, number, at, searched(serial))?.as_str())?;
    }
    Ok(())
}

/// What a cycle has beside frames and answers.
#[derive(Clone, Copy)]
struct Extra {
    /// The unit that is given an Alloc-ID, or gives it back.
    alloc: u8,
    /// Whether it gives it back.
    back: bool,
    /// Behind which unit, if any, a rogue floods a search.
    flood: u8,
    /// Whether all units are ranged anew.
    anew: bool,
}

/// Writes a poll of a unit and its answer, and what happens before it.
fn add_poll(
    alloc: Global,
    turns: &mut String,
    choices: &mut Choices,
    (number, onu): (u8, u8),
    port: &PortLines,
    unit: &UnitLines,
    extra: Extra,
) -> Result<(), AllocError> {
    if onu == extra.alloc {
        let line = if extra.back {
            &unit.dealloc
        } else {
            &unit.alloc
        };
        turns.push_str(line.as_str())?;
        turns.push_str(unit.until_poll.as_str())?;
        return turns.push_str(unit.acknowledged.as_str());
    }
    if onu == extra.flood {
        add_flood(alloc, turns, choices, number, port)?;
        turns.push_str(unit.until_poll.as_str())?;
    } else {
        turns.push_str(port.frame.as_str())?;
    }
    match choices.below(100) {
        0 => turns.push_str(unit.garbled.as_str())?,
        1 => turns.push_str(unit.show.as_str())?,
        2 => {
            let place = choices.below(OTHER_LINES.len() as u32) as usize;
            turns.push_str(OTHER_LINES[place])?
        }
        _ => {}
    }
    turns.push_str(unit.polled.as_str())
}

/// Writes one poll of each unit of each port.
fn add_cycle(
    alloc: Global,
    turns: &mut String,
    choices: &mut Choices,
    ports: &[PortLines],
    extra: Extra,
) -> Result<(), AllocError> {
    for onu in 0..UNITS {
        for (number, port) in ports.iter().enumerate() {
            if let Some(unit) = port.units.get(usize::from(onu)) {
                let place = ((number % 256) as u8, onu);
                add_poll(alloc, turns, choices, place, port, unit, extra)?;
            }
        }
    }
    if extra.anew {
        for port in ports {
            turns.push_str(port.popup_all.as_str())?;
            add_ranging(turns, port)?;
            if let Some(unit) = port.units.first() {
                turns.push_str(unit.until_poll.as_str())?;
            }
        }
    }
    Ok(())
}

/// Writes the script that a bench opens.
pub(crate) fn opening(alloc: Global, lot: u8) -> Result<String, AllocError> {
    let mut script = String::new(alloc);
    script.push_str("licences = 254\n")?;
    for port in 0..PORTS {
        script.push_str("[[port]]\ncycles = 1\nquarantine = 0\nadmit = ")?;
        add_list(alloc, &mut script, lot, port, u16::from(UNITS))?;
        script.push_str("\n")?;
    }
    Ok(script)
}

/// Writes what a bench sends in so many cycles, each a poll of every unit.
pub(crate) fn turns_of(
    alloc: Global,
    choices: &mut Choices,
    lot: u8,
    cycles: u32,
) -> Result<String, AllocError> {
    let mut ports = Vec::new(alloc);
    for port in 0..PORTS {
        ports.push(port_lines(alloc, choices, lot, port)?)?;
    }
    let mut turns = String::new(alloc);
    for port in ports.as_slice() {
        add_search(&mut turns, port)?;
    }
    let mut unit = 0;
    for cycle in 0..cycles {
        let back = cycle % 2 == 1;
        if !back {
            unit = choices.below(u32::from(UNITS)) as u8;
        }
        let flood = choices.below(800).min(255) as u8;
        let extra = Extra {
            alloc: unit,
            back,
            flood,
            anew: cycle % 100 == 99,
        };
        add_cycle(alloc, &mut turns, choices, &ports, extra)?;
    }
    Ok(turns)
}
