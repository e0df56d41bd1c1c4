//! Scripts that are read: what each says, and its first fault.
mod faults;
mod ranges;

use crate::printed::is_printed;
use gp_machine::{Command, PortConfig};
use gp_ploam::{Mask, Serial};
use gp_script::{
    Script, ScriptError, ScriptEvent, ScriptFault, ScriptUnit, read_script, read_storm_script,
};
use std::alloc::Global;

const SYNTAX: Option<ScriptFault> = Some(ScriptFault::Syntax);

const SHAPE: Option<ScriptFault> = Some(ScriptFault::Shape);

const RANGE: Option<ScriptFault> = Some(ScriptFault::Range);

const SERIAL: Option<ScriptFault> = Some(ScriptFault::Serial);

const HEX: Option<ScriptFault> = Some(ScriptFault::Hex);

/// Scripts that differ in what stands between two texts, and the fault of each, if it has one.
#[derive(Clone, Copy)]
struct Table {
    before: &'static str,
    behind: &'static str,
    is_storm: bool,
    rows: &'static [(&'static str, Option<ScriptFault>)],
}

const A: Serial = Serial(*b"ABCD\x00\x00\x00\x01");

/// What a script says, but for what its ports are.
#[derive(Clone, Copy)]
struct Said {
    before: &'static str,
    text: &'static str,
    is_storm: bool,
    licences: u32,
    mask: Mask,
    journal_limit: u32,
    ports: usize,
    units: &'static [ScriptUnit],
    copies: &'static [u64],
    bursts: &'static [u64],
    events: &'static [ScriptEvent],
}

/// One unit found and ranged.
const ONE_UNIT: Said = Said {
    before: "",
    text: "licences = 1
[[port]]
cycles = 1
admit = [\"ABCD00000001\"]
[[event]]
port = 0
command = \"search\"
[[event]]
port = 0
frames = 5
[[event]]
port = 0
at = 100000
say = \"serial\"
serial = \"ABCD00000001\"
[[event]]
port = 0
frames = 4
[[event]]
port = 0
at = 100000
say = \"serial\"
serial = \"ABCD00000001\"
onu = 0
",
    is_storm: false,
    licences: 1,
    mask: Mask::Plain,
    journal_limit: 1_000_000,
    ports: 1,
    units: &[],
    copies: &[],
    bursts: &[],
    events: &[
        ScriptEvent::Command {
            port: 0,
            command: Command::Search,
        },
        ScriptEvent::Frames { port: 0, count: 5 },
        ScriptEvent::Burst {
            port: 0,
            at: 100_000,
            bytes: *b"\xff\x01ABCD\x00\x00\x00\x01\x00\x00\x2c",
        },
        ScriptEvent::Frames { port: 0, count: 4 },
        ScriptEvent::Burst {
            port: 0,
            at: 100_000,
            bytes: *b"\x00\x01ABCD\x00\x00\x00\x01\x00\x00\x6b",
        },
    ],
};

const NO_UNITS: Said = Said {
    text: "licences = 1\nport = [{}, {}]\nunit = []\nlose = []\nevent = []",
    ports: 2,
    events: &[],
    ..ONE_UNIT
};

/// Other forms of keys and bursts.
const OTHER_FORMS: Said = Said {
    text: "event = [{port = 0, at = 7, burst = \"0004000000000000000000007C\"},
        {port = 0, at = 8, say = \"none\", onu = 0}]
        unit = []
        lose = []
        licences = 0
        mask = 85
        journal_limit = 16
        port = [{overhead = \"0102030405060708090A\"}]",
    licences: 0,
    mask: Mask::Coset,
    journal_limit: 16,
    events: &[
        ScriptEvent::Burst {
            port: 0,
            at: 7,
            bytes: *b"\x00\x04\x00\x00\x00\x00\x00\x00\x00\x00\x00\x00\x7c",
        },
        // Under the other mask the check octet is 7c XOR 55.
        ScriptEvent::Burst {
            port: 0,
            at: 8,
            bytes: *b"\x00\x04\x00\x00\x00\x00\x00\x00\x00\x00\x00\x00\x29",
        },
    ],
    ..ONE_UNIT
};

const UNITS_ON_THE_FIBRE: Said = Said {
    text: "licences = 1
        port = [{cycles = 1, admit = [\"ABCD00000001\"]}]
        unit = [{serial = \"ABCD00000001\", delay = 200000},
        {random = 4095, delay = 0, serial = \"ABCD00000001\"}]
        lose = [{copy = 4}, {burst = 0}, {copy = 3}, {copy = 4}, {burst = 7}]
        event = [{port = 0, command = \"search\"}, {unit = 1, light = false},
        {port = 0, frames = 11}, {unit = 1, light = true}]",
    units: &[
        ScriptUnit {
            serial: A,
            delay: 200_000,
            random: 0,
        },
        ScriptUnit {
            serial: A,
            delay: 0,
            random: 4095,
        },
    ],
    copies: &[4, 3, 4],
    bursts: &[0, 7],
    events: &[
        ScriptEvent::Command {
            port: 0,
            command: Command::Search,
        },
        ScriptEvent::Light {
            unit: 1,
            lit: false,
        },
        ScriptEvent::Frames { port: 0, count: 11 },
        ScriptEvent::Light { unit: 1, lit: true },
    ],
    ..ONE_UNIT
};

/// The last octets of the bursts are the remainders of the twelve before them.
const SAYINGS: Said = Said {
    text: "licences = 1
        port = [{}]
        event = [{port = 0, at = 1, say = \"gasp\", onu = 5},
        {port = 0, at = 2, say = \"ack\", onu = 0, id = 10},
        {port = 0, at = 3, say = \"ack\", onu = 255, id = 255}]",
    events: &[
        ScriptEvent::Burst {
            port: 0,
            at: 1,
            bytes: *b"\x05\x03\0\0\0\0\0\0\0\0\0\0\x0f",
        },
        ScriptEvent::Burst {
            port: 0,
            at: 2,
            bytes: *b"\x00\x09\x0a\0\0\0\0\0\0\0\0\0\x7e",
        },
        ScriptEvent::Burst {
            port: 0,
            at: 3,
            bytes: *b"\xff\x09\xff\0\0\0\0\0\0\0\0\0\x8d",
        },
    ],
    ..ONE_UNIT
};

const COMMANDS: Said = Said {
    text: "licences = 1
        port = [{}]
        event = [{port = 0, command = \"search\"},
        {port = 0, command = \"enable-all\"},
        {port = 0, command = \"popup-all\"},
        {port = 0, command = \"alloc\", serial = \"ABCD00000001\"},
        {port = 0, command = \"deactivate\", serial = \"ABCD00000001\"},
        {port = 0, command = \"disable\", serial = \"ABCD00000001\"},
        {port = 0, command = \"enable\", serial = \"ABCD00000001\"},
        {port = 0, command = \"popup\", serial = \"ABCD00000001\"},
        {port = 0, command = \"show\", serial = \"4142434400000001\"},
        {port = 0, command = \"dealloc\", serial = \"ABCD00000001\", alloc = 256}]",
    events: &[
        ScriptEvent::Command {
            port: 0,
            command: Command::Search,
        },
        ScriptEvent::Command {
            port: 0,
            command: Command::EnableAll,
        },
        ScriptEvent::Command {
            port: 0,
            command: Command::PopupAll,
        },
        ScriptEvent::Command {
            port: 0,
            command: Command::Alloc(A),
        },
        ScriptEvent::Command {
            port: 0,
            command: Command::Deactivate(A),
        },
        ScriptEvent::Command {
            port: 0,
            command: Command::Disable(A),
        },
        ScriptEvent::Command {
            port: 0,
            command: Command::Enable(A),
        },
        ScriptEvent::Command {
            port: 0,
            command: Command::Popup(A),
        },
        ScriptEvent::Command {
            port: 0,
            command: Command::Show(A),
        },
        ScriptEvent::Command {
            port: 0,
            command: Command::Dealloc {
                serial: A,
                alloc: 256,
            },
        },
    ],
    ..ONE_UNIT
};

/// A storm's script has its ports and events, and no units.
const ONE_UNIT_IN_A_STORM: Said = Said {
    before: "journal_limit = 15\nunit = []\nlose = []\n",
    is_storm: true,
    journal_limit: 15,
    ..ONE_UNIT
};

const SCRIPTS: [Said; 7] = [
    ONE_UNIT,
    NO_UNITS,
    OTHER_FORMS,
    UNITS_ON_THE_FIBRE,
    SAYINGS,
    COMMANDS,
    ONE_UNIT_IN_A_STORM,
];

/// Reads a script, or a storm's.
fn read(alloc: Global, is_storm: bool, bytes: &[u8]) -> Result<Script, ScriptError> {
    if is_storm {
        read_storm_script(alloc, bytes)
    } else {
        read_script(alloc, bytes)
    }
}

/// Tells whether a script says this of itself and of its ports.
fn has_settings(script: &Script, said: &Said) -> bool {
    script.licences == said.licences
        && script.mask == said.mask
        && script.journal_limit == said.journal_limit
        && script.ports.len() == said.ports
}

/// Tells whether a script has these units, losses and events.
fn has_events(script: &Script, said: &Said) -> bool {
    script.units.as_slice() == said.units
        && script.losses.copies.as_slice() == said.copies
        && script.losses.bursts.as_slice() == said.bursts
        && script.events.as_slice() == said.events
}

/// Reads what a script says.
fn read_said(alloc: Global, said: &Said) -> Result<Script, ScriptError> {
    let text = format!(in alloc; "{}{}", said.before, said.text)?;
    read(alloc, said.is_storm, text.as_bytes())
}

#[test]
fn scripts(rt: HostRuntime) -> Result<(), ScriptError> {
    for said in &SCRIPTS {
        let script = read_said(rt.alloc(), said)?;
        assert!(rt; has_settings(&script, said), "{}", said.text);
        assert!(rt; has_events(&script, said), "{}", said.text);
    }
    Ok(())
}

/// Tells whether a port has these, and all else as it is where a script says nothing of it.
fn is_port(
    port: &PortConfig,
    mask: Mask,
    overhead: [u8; 10],
    cycles: u8,
    admitted: &[Serial],
) -> bool {
    port.mask == mask
        && port.overhead == overhead
        && port.cycles == cycles
        && port.admitted.as_slice() == admitted
        && port.teqd == 311_040
        && port.max_units == 254
        && port.alloc_last == 4095
        && port.search_period == 0
        && port.quarantine == 800
}

/// Tells whether the one port of a script is so.
fn has_port(
    alloc: Global,
    said: &Said,
    overhead: [u8; 10],
    cycles: u8,
    admitted: &[Serial],
) -> Result<bool, ScriptError> {
    let script = read_said(alloc, said)?;
    Ok(match script.ports.as_slice() {
        [port] => is_port(port, said.mask, overhead, cycles, admitted),
        _ => false,
    })
}

/// The port of a script with one, where it says little of it and where it says more.
#[test]
fn ports(rt: HostRuntime) -> Result<(), ScriptError> {
    assert!(rt; has_port(rt.alloc(), &ONE_UNIT, [0; 10], 1, &[A])?);
    let overhead = [1, 2, 3, 4, 5, 6, 7, 8, 9, 10];
    assert!(rt; has_port(rt.alloc(), &OTHER_FORMS, overhead, 3, &[])?);
    Ok(())
}

/// The fault of a script, if it has one. Running out of memory ends the test.
fn fault_of(
    alloc: Global,
    is_storm: bool,
    bytes: &[u8],
) -> Result<Option<ScriptFault>, ScriptError> {
    match read(alloc, is_storm, bytes) {
        Ok(_) => Ok(None),
        Err(ScriptError::Fault(fault)) => Ok(Some(fault)),
        Err(ScriptError::OutOfMemory) => Err(ScriptError::OutOfMemory),
    }
}

/// The first text of these tables that gives a script another fault or none.
fn first_other(alloc: Global, tables: &[Table]) -> Result<Option<&'static str>, ScriptError> {
    for table in tables {
        for (value, fault) in table.rows {
            let text = format!(in alloc; "{}{value}{}", table.before, table.behind)?;
            if fault_of(alloc, table.is_storm, text.as_bytes())? != *fault {
                return Ok(Some(*value));
            }
        }
    }
    Ok(None)
}

#[test]
fn faults_of_scripts(rt: HostRuntime) {
    assert!(rt; first_other(rt.alloc(), &faults::TABLES) == Ok(None));
}

#[test]
fn ends_of_ranges(rt: HostRuntime) {
    assert!(rt; first_other(rt.alloc(), &ranges::TABLES) == Ok(None));
}

/// The fault of as many spaces as a script may be long.
fn fault_of_spaces(alloc: Global) -> Result<Option<ScriptFault>, ScriptError> {
    let spaces = vec![in alloc; b' '; 1_048_576]?;
    fault_of(alloc, false, &spaces)
}

#[test]
fn bytes_that_are_no_script(rt: HostRuntime) {
    assert!(rt; fault_of_spaces(rt.alloc()) == Ok(SHAPE));
    assert!(rt; fault_of(rt.alloc(), false, b"\xff") == Ok(SYNTAX));
}

/// Faults, and the text of each.
const TEXTS: [(ScriptFault, &'static str); 6] = [
    (ScriptFault::Syntax, "1 syntax"),
    (ScriptFault::Shape, "2 shape"),
    (ScriptFault::Range, "3 range"),
    (ScriptFault::Serial, "4 serial"),
    (ScriptFault::Hex, "5 hex"),
    (ScriptFault::Duplicate, "6 duplicate"),
];

#[test]
fn texts_of_faults(rt: HostRuntime) {
    for (fault, text) in &TEXTS {
        assert!(rt; is_printed(rt.alloc(), fault, text), "{text}");
        assert!(rt;
            is_printed(rt.alloc(), &ScriptError::Fault(*fault), text),
            "{text}"
        );
    }
    assert!(rt; is_printed(rt.alloc(), &ScriptError::OutOfMemory, "out of memory"));
}
