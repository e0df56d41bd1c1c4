//! Tables of bytes and texts that are no script, or one with a fault or two, and the fault that is told of each
//! (docs/SCRIPTS.md).

use crate::tally::Tally;
use gp_script::{ScriptError, ScriptFault, read_script};
use std::alloc::Global;
use std::io;

const SYNTAX: Option<ScriptFault> = Some(ScriptFault::Syntax);

const SHAPE: Option<ScriptFault> = Some(ScriptFault::Shape);

const RANGE: Option<ScriptFault> = Some(ScriptFault::Range);

const SERIAL: Option<ScriptFault> = Some(ScriptFault::Serial);

const HEX: Option<ScriptFault> = Some(ScriptFault::Hex);

/// Scripts that differ in what stands between two texts, and the fault of each, if it has one.
#[derive(Clone, Copy)]
struct Table {
    name: &'static str,
    before: &'static str,
    behind: &'static str,
    rows: &'static [(&'static str, Option<ScriptFault>)],
}

/// Bytes in place of a script.
const BYTES: &[(&'static [u8], Option<ScriptFault>)] = &[
    (b"", SHAPE),
    (b"\n\n", SHAPE),
    (b"# licences = 1", SHAPE),
    (b"# licences = 1\n# port = [{}]\n", SHAPE),
    (b"licences = 1\r\nport = [{}]\r\n", None),
    (
        b"licences = 1\r\n[[port]]\r\n\r\n[[event]]\r\nport = 0\r\nframes = 1\r\n",
        None,
    ),
    (b"licences = 1 # one\nport = [{}] # port = 3", None),
    (b"licences = 1\nport = [{}]", None),
    // A byte order mark is skipped where a script begins, and stands nowhere else.
    (b"\xef\xbb\xbflicences = 1\nport = [{}]", None),
    (b"\xef\xbb\xbf", SHAPE),
    (b"\xef\xbb\xbf\xef\xbb\xbflicences = 1\nport = [{}]", SYNTAX),
    (b"licences = 1\n\xef\xbb\xbfport = [{}]", SYNTAX),
    // A carriage return alone ends no line.
    (b"licences = 1\rport = [{}]", SYNTAX),
    // Octets that are no UTF-8, also where no value is: the last is half a letter.
    (b"\xfflicences = 1\nport = [{}]", SYNTAX),
    (b"licences = 1\nport = [{}] # \xc3\xa9", None),
    (b"licences = 1\nport = [{}] # \xe9", SYNTAX),
    (b"licences = 1\nport = [{}] # \xc0\x80", SYNTAX),
    (b"licences = 1\nport = [{}] # \xed\xa0\x80", SYNTAX),
    (b"licences = 1\nport = [{}] # \xf4\x90\x80\x80", SYNTAX),
    (b"licences = 1\nport = [{}] # \xf0\x9f\x98", SYNTAX),
    // Other encodings of text.
    (b"\xff\xfel\0i\0c\0", SYNTAX),
    (b"\0l\0i\0c\0e", SYNTAX),
    // Control characters in a text and behind a value.
    (
        b"licences = 1\nport = [{overhead = \"00000000000000000\x0000\"}]",
        SYNTAX,
    ),
    (
        b"licences = 1\nport = [{overhead = \"00000000000000000\x7f00\"}]",
        SYNTAX,
    ),
    (
        b"licences = 1\nport = [{overhead = \"00000000000000000\n00\"}]",
        SYNTAX,
    ),
    (b"licences = 1\x00\nport = [{}]", SYNTAX),
    (b"licences = 1\x1a", SYNTAX),
    // A key of the top behind a table is one of the table.
    (b"[[port]]\nlicences = 1", SHAPE),
    (b"[port]\n[port]\nlicences = 1", SYNTAX),
    (b"licences = 1\nport = [{}]\n[[port]]", SYNTAX),
];

/// Texts in place of a serial number: as a unit's, and as one that is admitted.
const SERIALS: &[(&'static str, Option<ScriptFault>)] = &[
    ("ABCD00000001", None),
    ("0000deadBEEF", None),
    ("4142434400000001", None),
    ("00000000ffffffFF", None),
    ("\\u0041BCD00000001", None),
    ("", SERIAL),
    ("ABCD0000001", SERIAL),
    ("ABCD000000001", SERIAL),
    ("414243440000001", SERIAL),
    ("41424344000000010", SERIAL),
    ("abcd00000001", SERIAL),
    ("ABCd00000001", SERIAL),
    ("AB-D00000001", SERIAL),
    ("ABCD0000000G", SERIAL),
    ("ABCD 0000001", SERIAL),
    ("ABCD00000001 ", SERIAL),
    ("ABÉ00000001", SERIAL),
    ("ABCD0000001\\u0000", SERIAL),
    ("ABCD+0000001", SERIAL),
    ("G142434400000001", SERIAL),
];

/// Events at two ports.
const EVENTS: &[(&'static str, Option<ScriptFault>)] = &[
    ("{port = 1, frames = 1}, {port = 0, frames = 1}", None),
    ("{port = 2, frames = 1}", Some(ScriptFault::Range)),
    (
        "{port = 1, frames = 1}, {port = 2, frames = 1}",
        Some(ScriptFault::Range),
    ),
    (
        "{port = -1, command = \"search\"}",
        Some(ScriptFault::Range),
    ),
    (
        "{port = 256, command = \"search\"}",
        Some(ScriptFault::Range),
    ),
    ("{unit = 0, light = true}", SHAPE),
    // A delay is no time: a burst may have a shorter one than the burst before it.
    (
        "{port = 0, at = 9, say = \"none\", onu = 0}, {port = 0, at = 3, say = \"none\", onu = 0}",
        None,
    ),
    // The first event with a fault is told.
    (
        "{port = 1, at = 0, burst = \"0\"}, {port = 2, frames = 1}, {}",
        HEX,
    ),
    (
        "{port = 2, frames = 1}, {port = 1, at = 0, burst = \"0\"}, {}",
        Some(ScriptFault::Range),
    ),
];

/// Scripts with faults at the keys of the top, of units and of what is lost.
const TOP_KEYS: &[(&'static str, Option<ScriptFault>)] = &[
    // The keys in another order.
    (
        "event = [{light = false, unit = 0}]\nlose = [{copy = 0}]\nunit = [{random = 4095, delay = 0, serial = \"ABCD00000001\"}]\nport = [{}]\njournal_limit = 7\nmask = 85\nlicences = 1",
        None,
    ),
    // A key twice, and a number of more than 64 bits.
    ("licences = 1\nport = [{}]\nlicences = 1", SYNTAX),
    ("licences = 9223372036854775808\nport = [{}]", SYNTAX),
    // The greatest and the least numbers.
    ("licences = 9223372036854775807\nport = [{}]", RANGE),
    (
        "licences = 1\nport = [{}]\nmask = -9223372036854775808",
        RANGE,
    ),
    (
        "licences = 1\nport = [{}]\njournal_limit = 9223372036854775807",
        RANGE,
    ),
    (
        "licences = 1\nport = [{}]\nunit = [{serial = \"ABCD00000001\", delay = 9223372036854775807}]",
        RANGE,
    ),
    (
        "licences = 1\nport = [{}]\nunit = [{serial = \"ABCD00000001\", delay = 0, random = -9223372036854775808}]",
        RANGE,
    ),
    // Values of other types.
    ("licences = 1.0\nport = [{}]", SHAPE),
    ("licences = 1\nport = [{}]\nmask = 1979-05-27", SHAPE),
    ("licences = 1\nport = {}", SHAPE),
    ("licences = 1\nport = [[{}]]", SHAPE),
    (
        "licences = 1\nport = [{}]\nunit = [{serial = \"ABCD00000001\", delay = 0, random = 07:32:00}]",
        SHAPE,
    ),
    (
        "licences = 1\nport = [{}]\nunit = [{serial = \"ABCD00000001\", delay = 0}]\nlose = [{copy = inf}]",
        SHAPE,
    ),
    // Two faults: the top's shape first, then its keys, ports, units, losses and events.
    ("licences = 4065\nport = [{}]\nmask = true", SHAPE),
    ("licences = 1\nport = []\nevent = 0", SHAPE),
    ("port = [{admit = [\"A\"]}]\nmask = 1\nlicences = 1", RANGE),
    (
        "event = [{}]\nport = [{}]\njournal_limit = 0\nlicences = 1",
        RANGE,
    ),
    ("unit = [{}]\nport = [{cycles = 0}]\nlicences = 1", RANGE),
    (
        "event = [{}]\nport = [{overhead = \"0\"}]\nlicences = 1",
        HEX,
    ),
    (
        "lose = [{}]\nunit = [{delay = -1, serial = \"A\"}]\nport = [{}]\nlicences = 1",
        SERIAL,
    ),
    (
        "event = [{port = 0, at = 0, burst = \"0\"}]\nlose = [{}]\nunit = [{serial = \"ABCD00000001\", delay = 0}]\nport = [{}]\nlicences = 1",
        SHAPE,
    ),
];

/// Keys of a port: in another order, twice, too long, the greatest and the least numbers, of other types, and two
/// faults.
const PORT_KEYS: &[(&'static str, Option<ScriptFault>)] = &[
    (
        "admit = [], overhead = \"00000000000000000000\", quarantine = 0, search_period = 0, cycles = 1, alloc_last = 256, max_units = 1, teqd = 0",
        None,
    ),
    ("cycles = 1, cycles = 1", SYNTAX),
    ("teqd = 9223372036854775808", SYNTAX),
    ("teqd = 9223372036854775807", RANGE),
    ("max_units = -9223372036854775808", RANGE),
    ("alloc_last = 9223372036854775807", RANGE),
    ("cycles = -9223372036854775808", RANGE),
    ("search_period = 9223372036854775807", RANGE),
    ("quarantine = 9223372036854775807", RANGE),
    ("teqd = inf", SHAPE),
    ("max_units = nan", SHAPE),
    ("alloc_last = true", SHAPE),
    ("cycles = {a = 1}", SHAPE),
    ("search_period = 1979-05-27T07:32:00Z", SHAPE),
    ("quarantine = [1]", SHAPE),
    ("overhead = 0", SHAPE),
    ("admit = {}", SHAPE),
    ("admit = [\"ABCD00000001\", 1979-05-27]", SHAPE),
    ("admit = [[\"ABCD00000001\"]]", SHAPE),
    ("overhead = \"0102030405060708090g\"", HEX),
    ("overhead = \"é02030405060708090a\"", HEX),
    ("overhead = 0, cycles = 0", SHAPE),
    ("admit = 0, teqd = -1", SHAPE),
    ("admit = [\"A\"], overhead = \"0\"", HEX),
    ("admit = [\"A\"], quarantine = -1", RANGE),
];

/// Keys of an event, likewise, and left out.
const EVENT_KEYS: &[(&'static str, Option<ScriptFault>)] = &[
    ("frames = 1, port = 0", None),
    (
        "burst = \"0004000000000000000000007C\", at = 0, port = 0",
        None,
    ),
    ("id = 10, onu = 0, say = \"ack\", at = 0, port = 0", None),
    (
        "alloc = 0, serial = \"ABCD00000001\", command = \"dealloc\", port = 0",
        None,
    ),
    ("port = 0, port = 0, frames = 1", SYNTAX),
    ("port = 0, frames = 9223372036854775808", SYNTAX),
    ("port = 9223372036854775807, frames = 1", RANGE),
    ("port = 0, frames = -9223372036854775808", RANGE),
    (
        "port = 0, at = 9223372036854775807, say = \"none\", onu = 0",
        RANGE,
    ),
    (
        "port = 0, at = 0, say = \"serial\", serial = \"ABCD00000001\", onu = 9223372036854775807",
        RANGE,
    ),
    (
        "port = 0, at = 0, say = \"ack\", onu = 0, id = -9223372036854775808",
        RANGE,
    ),
    (
        "port = 0, command = \"dealloc\", serial = \"ABCD00000001\", alloc = 9223372036854775807",
        RANGE,
    ),
    ("at = 0, burst = \"0004000000000000000000007C\"", SHAPE),
    ("command = \"search\"", SHAPE),
    ("port = 0, command = \"dealloc\", alloc = 0", SHAPE),
    ("port = \"0\", frames = 1", SHAPE),
    ("port = 0, frames = 1e3", SHAPE),
    (
        "port = 0, at = 0.5, burst = \"0004000000000000000000007C\"",
        SHAPE,
    ),
    ("port = 0, at = 0, burst = 0", SHAPE),
    ("port = 0, at = 0, say = \"gasp\", onu = false", SHAPE),
    (
        "port = 0, at = 0, say = \"ack\", onu = 0, id = \"10\"",
        SHAPE,
    ),
    ("port = 0, at = 0, say = \"serial\", serial = 0", SHAPE),
    (
        "port = 0, at = 0, say = \"serial\", serial = \"ABCD00000001\", onu = 07:32:00",
        SHAPE,
    ),
    ("port = 0, command = 0", SHAPE),
    (
        "port = 0, command = \"show\", serial = [\"ABCD00000001\"]",
        SHAPE,
    ),
    (
        "port = 0, command = \"dealloc\", serial = \"ABCD00000001\", alloc = {}",
        SHAPE,
    ),
    ("port = 1, frames = \"1\"", SHAPE),
    ("port = 0, at = -1, burst = 0", SHAPE),
    (
        "port = 0, at = 0, say = \"ack\", onu = 256, id = true",
        SHAPE,
    ),
    ("port = 1, command = \"show\", serial = 0", SHAPE),
    (
        "port = 0, command = \"dealloc\", serial = \"A\", alloc = \"0\"",
        SHAPE,
    ),
    ("burst = \"0\", at = 0, port = 1", RANGE),
    ("burst = \"0\", at = -1, port = 0", RANGE),
    ("port = 1, at = 0, say = \"serial\", serial = \"A\"", RANGE),
    ("serial = \"A\", say = \"serial\", at = -1, port = 0", RANGE),
    (
        "onu = 256, serial = \"A\", say = \"serial\", at = 0, port = 0",
        SERIAL,
    ),
    (
        "alloc = 0, serial = \"A\", command = \"dealloc\", port = 1",
        RANGE,
    ),
    (
        "alloc = 4096, serial = \"A\", command = \"dealloc\", port = 0",
        SERIAL,
    ),
];

/// Events of a script with two ports.
const TWO_PORTS: &[Table] = &[Table {
    name: "events",
    before: "licences = 1\nport = [{}, {}]\nevent = [",
    behind: "]",
    rows: EVENTS,
}];

/// Where a serial number may stand.
const UNITS: &[Table] = &[
    Table {
        name: "admitted",
        before: "licences = 1\nport = [{admit = [\"",
        behind: "\"]}]",
        rows: SERIALS,
    },
    Table {
        name: "commanded",
        before: "licences = 1\nport = [{}]\nevent = [{port = 0, command = \"show\", serial = \"",
        behind: "\"}]",
        rows: SERIALS,
    },
];

/// Where keys may stand.
const KEYS: &[Table] = &[
    Table {
        name: "top",
        before: "",
        behind: "",
        rows: TOP_KEYS,
    },
    Table {
        name: "port",
        before: "licences = 1\nport = [{",
        behind: "}]",
        rows: PORT_KEYS,
    },
    Table {
        name: "event",
        before: "licences = 1\nport = [{}]\nevent = [{",
        behind: "}]",
        rows: EVENT_KEYS,
    },
];

/// Tells whether a script has this fault, or none.
fn is_read(alloc: Global, script: &[u8], wanted: Option<ScriptFault>) -> io::Result<bool> {
    match read_script(alloc, script) {
        Ok(_) => Ok(wanted.is_none()),
        Err(ScriptError::Fault(fault)) => Ok(wanted == Some(fault)),
        Err(ScriptError::OutOfMemory) => Err(io::ErrorKind::OutOfMemory.into()),
    }
}

/// Tells whether a script of three texts has the fault.
fn has_fault(
    alloc: Global,
    before: &str,
    middle: &str,
    behind: &str,
    wanted: Option<ScriptFault>,
) -> io::Result<bool> {
    let script = format!(in alloc; "{before}{middle}{behind}")?;
    is_read(alloc, script.as_bytes(), wanted)
}

/// Counts each text of a table.
fn count_rows(alloc: Global, tally: &mut Tally, table: &Table) -> io::Result<()> {
    for (place, (text, wanted)) in table.rows.iter().enumerate() {
        let right = has_fault(alloc, table.before, text, table.behind, *wanted)?;
        tally.count(table.name, place, right);
    }
    Ok(())
}

/// Reads each text of these tables.
fn check_tables<R: AllocGlobal + Print>(rt: &R, title: &str, tables: &[Table]) -> io::Result<bool> {
    let mut tally = Tally::default();
    for table in tables {
        count_rows(rt.alloc(), &mut tally, table)?;
    }
    tally.tell(rt, title)
}

fn check_bytes<R: AllocGlobal + Print>(rt: &R) -> io::Result<bool> {
    let mut tally = Tally::default();
    for (place, (script, wanted)) in BYTES.iter().enumerate() {
        tally.count("script", place, is_read(rt.alloc(), script, *wanted)?);
    }
    tally.tell(rt, "bytes in place of a script")
}

/// Tells whether so many digits are read in place of octets, which are so many digits.
fn are_octets(
    alloc: Global,
    length: usize,
    before: &str,
    behind: &str,
    digits: usize,
) -> io::Result<bool> {
    let text = "0".repeat(alloc, length)?;
    let wanted = if length == digits { None } else { HEX };
    has_fault(alloc, before, text.as_str(), behind, wanted)
}

/// Reads digits of each length in place of thirteen octets, and of ten.
fn check_digits<R: AllocGlobal + Print>(rt: &R) -> io::Result<bool> {
    let mut tally = Tally::default();
    for length in 0..80usize {
        let before = "licences = 1\nport = [{}]\nevent = [{port = 0, at = 0, burst = \"";
        let right = are_octets(rt.alloc(), length, before, "\"}]", 26)?;
        tally.count("burst", length, right);
        let before = "licences = 1\nport = [{overhead = \"";
        let right = are_octets(rt.alloc(), length, before, "\"}]", 20)?;
        tally.count("overhead", length, right);
    }
    tally.tell(rt, "digits in place of octets")
}

/// Tells whether so many values, each within the one before it, are read so where each is closed, and aren't where
/// none is.
fn is_nested(
    alloc: Global,
    depth: usize,
    (opening, closing): (&str, &str),
    wanted: Option<ScriptFault>,
) -> io::Result<bool> {
    let before = opening.repeat(alloc, depth)?;
    let behind = closing.repeat(alloc, depth)?;
    let value = format!(in alloc; "{before}1{behind}")?;
    let script = "licences = 1\nport = [{}]\nmask = ";
    let closed = has_fault(alloc, script, value.as_str(), "", wanted)?;
    let open = has_fault(alloc, script, before.as_str(), "", SYNTAX)?;
    Ok(closed && open)
}

/// Reads values within values. What is no deeper than sixty is read, and is of a wrong type; what is a hundred deep
/// is refused.
fn check_nesting<R: AllocGlobal + Print>(rt: &R) -> io::Result<bool> {
    let mut tally = Tally::default();
    for (depth, wanted) in [(1, SHAPE), (60, SHAPE), (100, SYNTAX), (10_000, SYNTAX)] {
        let arrays = is_nested(rt.alloc(), depth, ("[", "]"), wanted)?;
        tally.count("arrays", depth, arrays);
        let tables = is_nested(rt.alloc(), depth, ("{a = ", "}"), wanted)?;
        tally.count("tables", depth, tables);
    }
    tally.tell(rt, "values within values, closed and open")
}

/// Reads what is no script, or nearly none.
pub(crate) fn check<R: AllocGlobal + Print>(rt: &R) -> io::Result<bool> {
    let mut right = check_bytes(rt)?;
    right &= check_tables(rt, "events at two ports", TWO_PORTS)?;
    right &= check_tables(rt, "texts in place of a serial number", UNITS)?;
    right &= check_digits(rt)?;
    right &= check_nesting(rt)?;
    right &= check_tables(rt, "keys of tables", KEYS)?;
    Ok(right)
}
