//! Scripts with a fault, or with two, and which is told.
use super::{HEX, RANGE, SERIAL, SHAPE, SYNTAX, Table};
use gp_script::ScriptFault;

const DUPLICATE: Option<ScriptFault> = Some(ScriptFault::Duplicate);

/// Scripts with a fault of the top.
const TOP_FAULTS: [(&'static str, Option<ScriptFault>); 19] = [
    ("", SHAPE),
    ("licences = ", SYNTAX),
    ("licences = 1", SHAPE),
    ("port = [{}]", SHAPE),
    ("licences = 1\nport = 3", SHAPE),
    ("licences = 1\nport = []", RANGE),
    ("licences = 1\nport = [{}, 3]", SHAPE),
    ("licences = 1\nport = [{}]\nmasks = 0", SHAPE),
    ("licences = 1\nport = [{}]\njournal_limit = \"1\"", SHAPE),
    ("licences = 1\nport = [{}]\n[[unit]]", SHAPE),
    ("licences = 1\nport = [{}]\n[[lose]]", SHAPE),
    ("licences = 1\nport = [{}]\n[unit]", SHAPE),
    ("licences = 1\nport = [{}]\nunit = [1]", SHAPE),
    ("licences = 1\nport = [{}]\nlose = 0", SHAPE),
    (
        "licences = 1\nport = [{}]\nunit = []\nlose = [{copy = 0}]",
        SHAPE,
    ),
    (
        "licences = 1\nport = [{}, {}]\nunit = [{serial = \"ABCD00000001\", delay = 0}]",
        SHAPE,
    ),
    (
        "licences = 1\nport = []\nunit = [{serial = \"ABCD00000001\", delay = 0}]",
        RANGE,
    ),
    (
        "licences = 1\nport = [{}]\nunit = []\nevent = [{unit = 0, light = true}]",
        SHAPE,
    ),
    ("licences = 1\nport = [{}]\nevent = [1]", SHAPE),
];

/// Scripts with a fault of a port table.
const PORT_FAULTS: [(&'static str, Option<ScriptFault>); 9] = [
    ("licences = 1\nport = [{cycle = 1}]", SHAPE),
    ("licences = 1\nport = [{cycles = 1.0}]", SHAPE),
    ("licences = 1\nport = [{admit = \"ABCD00000001\"}]", SHAPE),
    ("licences = 1\nport = [{admit = [1]}]", SHAPE),
    (
        "licences = 1\nport = [{admit = [\"abCD00000001\"]}]",
        SERIAL,
    ),
    (
        "licences = 1\nport = [{overhead = \"000000000000000000\"}]",
        HEX,
    ),
    (
        "licences = 1\nport = [{admit = [\"ABCD0000000a\", \"414243440000000A\"]}]",
        DUPLICATE,
    ),
    (
        "licences = 1\nport = [{admit = [\"ABCD00000001\"]}, {}, {admit = [\"ABCD00000001\"]}]",
        DUPLICATE,
    ),
    ("licences = 1\nport = [{}, {cycles = 0}]", RANGE),
];

/// Events with a fault.
const EVENT_FAULTS: [(&'static str, Option<ScriptFault>); 30] = [
    ("", SHAPE),
    ("port = 0", SHAPE),
    ("frames = 1", SHAPE),
    ("port = 0, frames = 1, at = 0", SHAPE),
    ("port = 0, frames = \"1\"", SHAPE),
    ("port = 1, frames = 1", RANGE),
    ("port = 0, burst = \"00\"", SHAPE),
    (
        "port = 0, at = 0, burst = \"0004000000000000000000007\"",
        HEX,
    ),
    (
        "port = 0, at = 0, burst = \"0004000000000000000000007g\"",
        HEX,
    ),
    (
        "port = 0, at = 0, burst = \"0004000000000000000000007c7c\"",
        HEX,
    ),
    ("port = 0, at = 0, say = \"serial\"", SHAPE),
    (
        "port = 0, at = 0, say = \"serial\", serial = \"ABCD0000001\"",
        SERIAL,
    ),
    ("port = 0, at = 0, say = \"none\"", SHAPE),
    ("port = 0, at = 0, say = \"none\", onu = 0, id = 10", SHAPE),
    ("port = 0, at = 0, say = \"gasp\"", SHAPE),
    ("port = 0, say = \"gasp\", onu = 0", SHAPE),
    ("port = 0, at = 0, say = \"ack\", onu = 0", SHAPE),
    ("port = 0, at = 0, say = \"ack\", id = 10", SHAPE),
    ("port = 0, at = 0, say = \"hello\", onu = 0", SHAPE),
    ("port = 0, at = 0, say = 0, onu = 0", SHAPE),
    ("port = 0, command = \"reset\"", SHAPE),
    ("port = 0, command = \"show\"", SHAPE),
    (
        "port = 0, command = \"enable-all\", serial = \"ABCD00000001\"",
        SHAPE,
    ),
    (
        "port = 0, command = \"alloc\", serial = \"ABCD00000001\", alloc = 256",
        SHAPE,
    ),
    (
        "port = 0, command = \"dealloc\", serial = \"ABCD00000001\"",
        SHAPE,
    ),
    ("port = 0, command = \"popup\", serial = \"A\"", SERIAL),
    (
        "port = 0, command = \"dealloc\", serial = \"A\", alloc = 4096",
        SERIAL,
    ),
    ("port = 1, command = \"disable\", serial = \"A\"", RANGE),
    (
        "port = 0, command = \"search\", serial = \"ABCD00000001\"",
        SHAPE,
    ),
    ("unit = 0, light = true", SHAPE),
];

/// Items under `unit` with a fault, the first where there are two.
const UNIT_FAULTS: [(&'static str, Option<ScriptFault>); 11] = [
    ("{}", SHAPE),
    ("{serial = \"ABCD00000001\"}", SHAPE),
    ("{delay = 0}", SHAPE),
    ("{serial = 1, delay = 0}", SHAPE),
    ("{serial = \"A\", delay = \"0\"}", SHAPE),
    (
        "{serial = \"ABCD00000001\", delay = 0, random = true}",
        SHAPE,
    ),
    ("{serial = \"ABCD00000001\", delay = 0, port = 0}", SHAPE),
    ("{serial = \"A\", delay = -1}", SERIAL),
    ("{serial = \"A\", delay = 0}, {}", SERIAL),
    (
        "{serial = \"ABCD00000001\", delay = 622081}, {serial = \"A\", delay = 0}",
        RANGE,
    ),
    ("{serial = \"ABCD00000001\", delay = 0}, 1", SHAPE),
];

/// Items under `lose` with a fault, the first where there are two.
const LOSE_FAULTS: [(&'static str, Option<ScriptFault>); 9] = [
    ("{}", SHAPE),
    ("{copy = 0, burst = 0}", SHAPE),
    ("{copy = -1, burst = 0}", SHAPE),
    ("{copy = \"0\"}", SHAPE),
    ("{burst = true}", SHAPE),
    ("{copy = 0, unit = 0}", SHAPE),
    ("{copy = -1}", RANGE),
    ("{burst = -1}, {}", RANGE),
    ("{copy = 0}, 0", SHAPE),
];

/// Events with a fault in a script with one unit.
const LIGHT_FAULTS: [(&'static str, Option<ScriptFault>); 9] = [
    ("light = true", SHAPE),
    ("unit = 0", SHAPE),
    ("unit = 0, light = 1", SHAPE),
    ("unit = \"0\", light = true", SHAPE),
    ("unit = 1, light = \"on\"", SHAPE),
    ("unit = 0, light = true, port = 0", SHAPE),
    ("unit = 0, light = true, port = 0, frames = 1", SHAPE),
    ("unit = 1, light = true", RANGE),
    ("port = 1, frames = 1", RANGE),
];

/// Scripts with two faults, and the first of them.
const TWO_FAULTS: [(&'static str, Option<ScriptFault>); 21] = [
    ("licences = \"1\"\n[[port", SYNTAX),
    ("licences = 4065\nport = [{cycle = 1}]", RANGE),
    ("licences = \"1\"\nmask = 1\nport = [{}]", SHAPE),
    ("licences = 1\nport = [{cycles = 0, unit = 1}]", SHAPE),
    (
        "licences = 1\nport = [{cycles = 0, admit = [\"A\"]}]",
        RANGE,
    ),
    (
        "licences = 1\nport = [{overhead = \"0\", cycles = 0}]",
        RANGE,
    ),
    (
        "licences = 1\nport = [{overhead = \"0\", quarantine = 8001}]",
        RANGE,
    ),
    (
        "licences = 1\nport = [{overhead = \"0\", admit = [\"A\"]}]",
        HEX,
    ),
    ("licences = 1\nport = [{cycles = 0}, {cycle = 1}]", RANGE),
    (
        "licences = 1\nport = [{overhead = \"0\"}, {cycles = 0}]",
        HEX,
    ),
    (
        "licences = 1\nport = [{}, {admit = [\"A\"]}, {admit = 0}]",
        SERIAL,
    ),
    (
        "licences = 1\nport = [{admit = [\"ABCD00000001\"]}, {admit = [\"ABCD00000001\"]}, {overhead = \"0\"}]",
        DUPLICATE,
    ),
    (
        "licences = 1\nport = [{admit = [\"A\"]}]\n[[event]]",
        SERIAL,
    ),
    (
        "licences = 1\nport = [{overhead = \"0\"}]\nunit = [{serial = \"A\", delay = 0}]",
        HEX,
    ),
    (
        "licences = 1\nport = [{}]\nlose = [{copy = -1}]\nunit = [{serial = \"A\", delay = 0}]",
        SERIAL,
    ),
    (
        "licences = 1\nport = [{}]\nevent = [{}]\nlose = [{copy = -1}]\nunit = [{serial = \"ABCD00000001\", delay = 0}]",
        RANGE,
    ),
    (
        "licences = 1\nport = [{admit = [\"ABCD00000001\", \"A\", \"ABCD00000001\"]}]",
        SERIAL,
    ),
    (
        "licences = 1\nport = [{admit = [\"ABCD00000001\", \"ABCD00000001\", \"A\"]}]",
        DUPLICATE,
    ),
    (
        "licences = 1\nport = [{}]\nevent = [{port = 0, at = -1, burst = \"0\"}]",
        RANGE,
    ),
    (
        "licences = 1\nport = [{}]\nevent = [{port = 0, at = 0, burst = \"0\"}, {}]",
        HEX,
    ),
    (
        "licences = 1\nport = [{}]\n[[event]]\nport = 0\nat = 0\nsay = \"serial\"\nserial = \"A\"\nonu = 256",
        SERIAL,
    ),
];

/// Scripts for a storm, and the fault of each, if it has one. A table under `unit` or `lose` comes before all ranges.
const STORM_FAULTS: [(&'static str, Option<ScriptFault>); 10] = [
    ("licences = 1\nport = [{}, {}]\nunit = []\nlose = []", None),
    (
        "licences = 1\nport = [{}]\nunit = [{serial = \"ABCD00000001\", delay = 0}]",
        SHAPE,
    ),
    ("licences = 1\nport = [{}]\nlose = [{copy = 0}]", SHAPE),
    (
        "licences = 1\nport = [{}]\nunit = [{serial = \"ABCD00000001\", delay = 0}]\nlose = [{copy = 0}]",
        SHAPE,
    ),
    (
        "licences = 1\nport = [{}]\nevent = [{unit = 0, light = true}]",
        SHAPE,
    ),
    ("licences = 4065\nport = [{}]\nunit = []\nlose = []", RANGE),
    ("licences = 4065\nport = [{}]\nunit = [{}]", SHAPE),
    (
        "licences = 1\nport = []\nunit = [{serial = \"ABCD00000001\", delay = 0}]",
        SHAPE,
    ),
    (
        "licences = 1\nport = [{cycles = 0}]\nunit = [{serial = \"A\", delay = -1}]",
        SHAPE,
    ),
    ("licences = 1\nport = [{}]\nunit = [{}]\n[[port", SYNTAX),
];

/// Each of them, with what stands before it and behind it.
pub(crate) const TABLES: [Table; 8] = [
    Table {
        before: "",
        behind: "",
        is_storm: false,
        rows: &TOP_FAULTS,
    },
    Table {
        before: "",
        behind: "",
        is_storm: false,
        rows: &PORT_FAULTS,
    },
    Table {
        before: "licences = 1\nport = [{}]\nevent = [{",
        behind: "}]",
        is_storm: false,
        rows: &EVENT_FAULTS,
    },
    Table {
        before: "licences = 1\nport = [{}]\nunit = [",
        behind: "]",
        is_storm: false,
        rows: &UNIT_FAULTS,
    },
    Table {
        before: "licences = 1\nport = [{}]\nunit = [{serial = \"ABCD00000001\", delay = 0}]\nlose = [",
        behind: "]",
        is_storm: false,
        rows: &LOSE_FAULTS,
    },
    Table {
        before: "licences = 1\nport = [{}]\nunit = [{serial = \"ABCD00000001\", delay = 0}]\nevent = [{",
        behind: "}]",
        is_storm: false,
        rows: &LIGHT_FAULTS,
    },
    Table {
        before: "",
        behind: "",
        is_storm: false,
        rows: &TWO_FAULTS,
    },
    Table {
        before: "",
        behind: "",
        is_storm: true,
        rows: &STORM_FAULTS,
    },
];
