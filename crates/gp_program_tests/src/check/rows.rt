//! Scripts with a mistake, and what is told of each; scripts with none.
use super::Table;

/// Mistakes of the top.
const TOP: [(&'static str, &'static str); 28] = [
    (
        "",
        "licences: 2 shape, missing; it has to stand before the first table",
    ),
    (
        "[[port]]\nlicences = 1",
        "licences: 2 shape, missing; it has to stand before the first table",
    ),
    (
        "licences = 4.0\nport = [{}]",
        "licences: 2 shape, not a whole number, line 1",
    ),
    ("licences = 1", "port: 2 shape, missing"),
    (
        "licences = \"1\"\nport = [{}]",
        "licences: 2 shape, not a whole number, line 1",
    ),
    (
        "licences = -1\nport = [{}]",
        "licences: 3 range, 0 to 4064, line 1",
    ),
    (
        "licences = 4065\nport = [{}]",
        "licences: 3 range, 0 to 4064, line 1",
    ),
    (
        "licences = 1\nport = [{}]\nmask = true",
        "mask: 2 shape, not a whole number, line 3",
    ),
    (
        "licences = 1\nport = [{}]\nmask = 1",
        "mask: 3 range, 0 or 85, line 3",
    ),
    (
        "licences = 1\nport = [{}]\nmask = -85",
        "mask: 3 range, 0 or 85, line 3",
    ),
    (
        "licences = 1\nport = [{}]\njournal_limit = 0",
        "journal_limit: 3 range, 1 to 1000000, line 3",
    ),
    (
        "licences = 1\nport = 3",
        "port: 2 shape, not a list; each table of it begins with [[port]], line 2",
    ),
    (
        "licences = 1\nport = []",
        "port: 3 range, 1 to 16 tables, line 2",
    ),
    (
        "licences = 1\nport = [{}, 3]",
        "port 1: 2 shape, not a table",
    ),
    (
        "licences = 1\nport = [{}]\nmasks = 0",
        "masks: 2 shape, unknown key, perhaps mask; there are licences, mask, journal_limit, port, unit, lose, event, line 3",
    ),
    (
        "licences = 1\nport = [{}]\nz = 0\nb = 0",
        "b: 2 shape, unknown key; there are licences, mask, journal_limit, port, unit, lose, event, line 4",
    ),
    (
        "licences = 1\nport = [{}]\n\"b c\" = 0",
        "top: 2 shape, unknown key; there are licences, mask, journal_limit, port, unit, lose, event",
    ),
    (
        "licences = 1\nport = [{}]\n\"b\\nc\" = 0",
        "top: 2 shape, unknown key; there are licences, mask, journal_limit, port, unit, lose, event",
    ),
    (
        "licences = 1\nport = [{}]\na-2345678_1234567890123456789012345678901234567890123456789012345 = 0",
        "top: 2 shape, unknown key; there are licences, mask, journal_limit, port, unit, lose, event, line 3",
    ),
    (
        "licences = 1\nport = [{}]\na-2345678_123456789012345678901234567890123456789012345678901234 = 0",
        "a-2345678_123456789012345678901234567890123456789012345678901234: 2 shape, unknown key; there are licences, mask, journal_limit, port, unit, lose, event, line 3",
    ),
    (
        "licences = 1\nport = [{}]\n[unit]",
        "unit: 2 shape, not a list; each table of it begins with [[unit]], line 3",
    ),
    (
        "licences = 1\nport = [{}]\nunit = [1]",
        "unit 0: 2 shape, not a table",
    ),
    (
        "licences = 1\nport = [{}]\nlose = [{}, {}, 7]",
        "lose 2: 2 shape, not a table",
    ),
    (
        "licences = 1\nport = [{}]\nevent = [[]]",
        "event 0: 2 shape, not a table",
    ),
    (
        "licences = 1\nport = [{}]\nevent = 0",
        "event: 2 shape, not a list; each table of it begins with [[event]], line 3",
    ),
    (
        "licences = 1\nport = [{}]\n[[lose]]",
        "lose: 2 shape, only beside units, line 3",
    ),
    (
        "licences = 1\nport = [{}, {}]\n[[unit]]",
        "unit: 2 shape, only beside one port, line 3",
    ),
    (
        "licences = 1\nport = [{}, {}]\n[[event]]\nport = 2\nframes = 1",
        "event 0, port: 3 range, 0 to 1, line 4",
    ),
];

/// Mistakes of the second of three port tables, of which the first admits two serial numbers.
const PORTS: [(&'static str, &'static str); 27] = [
    (
        "cycle = 1",
        "port 1, cycle: 2 shape, unknown key, perhaps cycles; there are teqd, max_units, alloc_last, cycles, search_period, quarantine, overhead, admit, line 5",
    ),
    (
        "tedq = 1",
        "port 1, tedq: 2 shape, unknown key, perhaps teqd; there are teqd, max_units, alloc_last, cycles, search_period, quarantine, overhead, admit, line 5",
    ),
    (
        "tequ = 1",
        "port 1, tequ: 2 shape, unknown key, perhaps teqd; there are teqd, max_units, alloc_last, cycles, search_period, quarantine, overhead, admit, line 5",
    ),
    (
        "cyces = 1",
        "port 1, cyces: 2 shape, unknown key, perhaps cycles; there are teqd, max_units, alloc_last, cycles, search_period, quarantine, overhead, admit, line 5",
    ),
    (
        "_admit = []",
        "port 1, _admit: 2 shape, unknown key, perhaps admit; there are teqd, max_units, alloc_last, cycles, search_period, quarantine, overhead, admit, line 5",
    ),
    (
        "cicle = 1",
        "port 1, cicle: 2 shape, unknown key; there are teqd, max_units, alloc_last, cycles, search_period, quarantine, overhead, admit, line 5",
    ),
    (
        "\"\" = 1",
        "port 1: 2 shape, unknown key; there are teqd, max_units, alloc_last, cycles, search_period, quarantine, overhead, admit, line 4",
    ),
    (
        "teqd = 0.5",
        "port 1, teqd: 2 shape, not a whole number, line 5",
    ),
    (
        "teqd = -1",
        "port 1, teqd: 3 range, 0 to 4294967295, line 5",
    ),
    (
        "teqd = 4294967296",
        "port 1, teqd: 3 range, 0 to 4294967295, line 5",
    ),
    (
        "max_units = 0",
        "port 1, max_units: 3 range, 1 to 254, line 5",
    ),
    (
        "alloc_last = 255",
        "port 1, alloc_last: 3 range, 256 to 4095, line 5",
    ),
    ("cycles = 11", "port 1, cycles: 3 range, 1 to 10, line 5"),
    (
        "search_period = 1000001",
        "port 1, search_period: 3 range, 0 to 1000000, line 5",
    ),
    (
        "quarantine = 8001",
        "port 1, quarantine: 3 range, 0 to 8000, line 5",
    ),
    (
        "overhead = 0",
        "port 1, overhead: 2 shape, not a text, line 5",
    ),
    (
        "overhead = \"0102030405060708090\"",
        "port 1, overhead: 5 hex, 20 hexadecimal digits, line 5",
    ),
    (
        "admit = \"ABCD00000003\"",
        "port 1, admit: 2 shape, not a list, line 5",
    ),
    (
        "admit = [\"ABCD00000003\", 1]",
        "port 1, admit 1: 2 shape, not a text, line 5",
    ),
    (
        "admit = [\"ABCD00000003\", \"\"]",
        "port 1, admit 1: 4 serial, 4 of A to Z and 0 to 9 and 8 hexadecimal digits, or 16 hexadecimal digits, line 5",
    ),
    (
        "admit = [\"ABCD00000003\", \"ABCD00000002\"]",
        "port 1, admit 1: 6 duplicate, also on port 0, line 5",
    ),
    (
        "admit = [\"ABCD00000001\"]",
        "port 1, admit 0: 6 duplicate, also on port 0, line 5",
    ),
    (
        "admit = [\"4142434400000002\"]",
        "port 1, admit 0: 6 duplicate, also on port 0, line 5",
    ),
    (
        "admit = [\"ABCD00000003\", \"ABCD00000004\", \"ABCD00000003\"]",
        "port 1, admit 2: 6 duplicate, also on port 1, line 5",
    ),
    (
        "admit = [\"ABCD00000005\"]",
        "port 2, admit 0: 6 duplicate, also on port 1, line 7",
    ),
    (
        "cycles = 0\nadmit = [1]",
        "port 1, admit 0: 2 shape, not a text, line 6",
    ),
    (
        "cycles = 0\nmax_units = 0",
        "port 1, max_units: 3 range, 1 to 254, line 6",
    ),
];

/// Mistakes of the second of two unit tables.
const UNITS: [(&'static str, &'static str); 8] = [
    ("delay = 0", "unit 1, serial: 2 shape, missing, line 6"),
    (
        "serial = \"ABCD00000001\"",
        "unit 1, delay: 2 shape, missing, line 6",
    ),
    (
        "serial = 1\ndelay = 0",
        "unit 1, serial: 2 shape, not a text, line 7",
    ),
    (
        "serial = \"abcd00000001\"\ndelay = 0",
        "unit 1, serial: 4 serial, 4 of A to Z and 0 to 9 and 8 hexadecimal digits, or 16 hexadecimal digits, line 7",
    ),
    (
        "serial = \"ABCD00000001\"\ndelay = 622081",
        "unit 1, delay: 3 range, 0 to 622080, line 8",
    ),
    (
        "serial = \"ABCD00000001\"\ndelay = \"0\"",
        "unit 1, delay: 2 shape, not a whole number, line 8",
    ),
    (
        "serial = \"ABCD00000001\"\ndelay = 0\nrandom = 4096",
        "unit 1, random: 3 range, 0 to 4095, line 9",
    ),
    (
        "serial = \"ABCD00000001\"\ndelay = 0\nrandoms = 1",
        "unit 1, randoms: 2 shape, unknown key, perhaps random; there are serial, delay, random, line 9",
    ),
];

/// Mistakes of the second of two tables of what is lost.
const LOSSES: [(&'static str, &'static str); 6] = [
    ("", "lose 1: 2 shape, either copy or burst, line 8"),
    (
        "copy = 0\nburst = 0",
        "lose 1: 2 shape, either copy or burst, line 8",
    ),
    (
        "copies = 0",
        "lose 1, copies: 2 shape, unknown key; there are copy, burst, line 9",
    ),
    (
        "copy = \"0\"",
        "lose 1, copy: 2 shape, not a whole number, line 9",
    ),
    (
        "copy = -1",
        "lose 1, copy: 3 range, 0 to 9223372036854775807, line 9",
    ),
    (
        "burst = -1",
        "lose 1, burst: 3 range, 0 to 9223372036854775807, line 9",
    ),
];

/// Mistakes of the second of two events of a port.
const EVENTS: [(&'static str, &'static str); 31] = [
    (
        "",
        "event 1: 2 shape, no form of an event, which has frames, burst, say, command or light, line 6",
    ),
    (
        "port = 0",
        "event 1: 2 shape, no form of an event, which has frames, burst, say, command or light, line 6",
    ),
    ("frames = 1", "event 1, port: 2 shape, missing, line 6"),
    (
        "port = 1\nframes = 1",
        "event 1, port: 3 range, 0 to 0, line 7",
    ),
    (
        "port = 0\nframes = 0",
        "event 1, frames: 3 range, 1 to 1000000, line 8",
    ),
    (
        "port = 0\nframes = 1\nat = 0",
        "event 1, at: 2 shape, unknown key in this form of an event, line 9",
    ),
    (
        "port = 0\nburst = \"\"",
        "event 1, at: 2 shape, missing, line 6",
    ),
    (
        "port = 0\nat = 0\nburst = \"\"",
        "event 1, burst: 5 hex, 26 hexadecimal digits, line 9",
    ),
    (
        "port = 0\nat = 0\nburst = 0",
        "event 1, burst: 2 shape, not a text, line 9",
    ),
    (
        "port = 0\nat = -1\nburst = \"00\"",
        "event 1, at: 3 range, 0 to 4294967295, line 8",
    ),
    (
        "port = 0\nsay = 1",
        "event 1, say: 2 shape, not a text, line 8",
    ),
    (
        "port = 0\nsay = \"hello\"",
        "event 1, say: 2 shape, unknown word; there are serial, gasp, none, ack, line 8",
    ),
    (
        "port = 0\nat = 0\nsay = \"serial\"",
        "event 1, serial: 2 shape, missing, line 6",
    ),
    (
        "port = 0\nat = 0\nsay = \"serial\"\nserial = \"ABCD0000000\"",
        "event 1, serial: 4 serial, 4 of A to Z and 0 to 9 and 8 hexadecimal digits, or 16 hexadecimal digits, line 10",
    ),
    (
        "port = 0\nat = 0\nsay = \"serial\"\nserial = \"ABCD00000001\"\nonu = 256",
        "event 1, onu: 3 range, 0 to 255, line 11",
    ),
    (
        "port = 0\nat = 0\nsay = \"gasp\"",
        "event 1, onu: 2 shape, missing, line 6",
    ),
    (
        "port = 0\nat = 0\nsay = \"gasp\"\nonu = 256",
        "event 1, onu: 3 range, 0 to 255, line 10",
    ),
    (
        "port = 0\nat = 0\nsay = \"none\"\nonu = 0\nid = 1",
        "event 1, id: 2 shape, unknown key in this form of an event, line 11",
    ),
    (
        "port = 0\nat = 0\nsay = \"ack\"\nonu = 0",
        "event 1, id: 2 shape, missing, line 6",
    ),
    (
        "port = 0\nat = 0\nsay = \"ack\"\nonu = 0\nid = 256",
        "event 1, id: 3 range, 0 to 255, line 11",
    ),
    (
        "port = 0\ncommand = 1",
        "event 1, command: 2 shape, not a text, line 8",
    ),
    (
        "port = 0\ncommand = \"find\"",
        "event 1, command: 2 shape, unknown word; there are search, alloc, dealloc, deactivate, disable, enable, enable-all, popup, popup-all, show, line 8",
    ),
    (
        "command = \"search\"",
        "event 1, port: 2 shape, missing, line 6",
    ),
    (
        "port = 0\ncommand = \"search\"\nserial = \"ABCD00000001\"",
        "event 1, serial: 2 shape, unknown key in this form of an event, line 9",
    ),
    (
        "port = 0\ncommand = \"alloc\"",
        "event 1, serial: 2 shape, missing, line 6",
    ),
    (
        "port = 0\ncommand = \"popup\"\nserial = 1",
        "event 1, serial: 2 shape, not a text, line 9",
    ),
    (
        "port = 0\ncommand = \"dealloc\"\nserial = \"ABCD00000001\"",
        "event 1, alloc: 2 shape, missing, line 6",
    ),
    (
        "port = 0\ncommand = \"dealloc\"\nserial = \"ABCD00000001\"\nalloc = 4096",
        "event 1, alloc: 3 range, 0 to 4095, line 10",
    ),
    (
        "port = 0\ncomand = \"search\"",
        "event 1, comand: 2 shape, unknown key, perhaps command; there are port, frames, burst, say, command, light, at, serial, onu, id, alloc, unit, line 8",
    ),
    (
        "port = 0\ncomand = \"search\"\nframes = 1",
        "event 1, comand: 2 shape, unknown key, perhaps command; there are port, frames, burst, say, command, light, at, serial, onu, id, alloc, unit, line 8",
    ),
    (
        "unit = 0\nlight = true",
        "event 1, light: 2 shape, only beside units, line 8",
    ),
];

/// Mistakes of the lights of two units.
const LIGHTS: [(&'static str, &'static str); 5] = [
    ("light = true", "event 0, unit: 2 shape, missing, line 9"),
    (
        "unit = 0\nlight = 1",
        "event 0, light: 2 shape, not true or false, line 11",
    ),
    (
        "unit = 2\nlight = true",
        "event 0, unit: 3 range, 0 to 1, line 10",
    ),
    (
        "unit = -1\nlight = true",
        "event 0, unit: 3 range, 0 to 1, line 10",
    ),
    (
        "unit = 0\nlight = true\nport = 0",
        "event 0, port: 2 shape, unknown key in this form of an event, line 12",
    ),
];

pub(super) const TABLES: [Table; 7] = [
    Table {
        before: "",
        behind: "\n",
        rows: &TOP,
    },
    Table {
        before: "licences = 1\n[[port]]\nadmit = [\"ABCD00000001\", \"ABCD00000002\"]\n[[port]]\n",
        behind: "\n[[port]]\nadmit = [\"ABCD00000005\"]\n",
        rows: &PORTS,
    },
    Table {
        before: "licences = 1\n[[port]]\n[[unit]]\nserial = \"ABCD00000001\"\ndelay = 0\n[[unit]]\n",
        behind: "\n",
        rows: &UNITS,
    },
    Table {
        before: "licences = 1
[[port]]
[[unit]]
serial = \"ABCD00000001\"
delay = 0
[[lose]]
copy = 0
[[lose]]
",
        behind: "\n",
        rows: &LOSSES,
    },
    Table {
        before: "licences = 1\n[[port]]\n[[event]]\nport = 0\nframes = 1\n[[event]]\n",
        behind: "\n[[event]]\nport = 0\nframes = 1\n",
        rows: &EVENTS,
    },
    Table {
        before: "licences = 1
[[port]]
[[unit]]
serial = \"ABCD00000001\"
delay = 0
[[unit]]
serial = \"ABCD00000002\"
delay = 0
[[event]]
",
        behind: "\n",
        rows: &LIGHTS,
    },
    Table {
        before: "",
        behind: "\n",
        rows: &LINES,
    },
];

/// Scripts whose lines are told, or are not, and what is told of each.
const LINES: [(&'static str, &'static str); 27] = [
    // spaces and tabs stand around a header, and a remark behind it
    (
        "licences = 1\n[[port]]\n\t [[port]] \t# the second\n \tcycles\t = 0",
        "port 1, cycles: 3 range, 1 to 10, line 4",
    ),
    (
        "licences = 1\n[[port]]#\n[[port]]# [[port]]\ncycles=0\n",
        "port 1, cycles: 3 range, 1 to 10, line 4",
    ),
    // lines that end as those of other systems
    (
        "licences = 1\r\n\r\n[[port]]\r\n[[port]]\r\ncycles = 0\r\n",
        "port 1, cycles: 3 range, 1 to 10, line 5",
    ),
    // remarks and empty lines count
    (
        "# a port\n\nlicences = 1\n# [[port]]\n[[port]]\n# cycles = 0\ncycles = 0",
        "port 0, cycles: 3 range, 1 to 10, line 7",
    ),
    // a key that is written in another way
    (
        "licences = 1\n[[port]]\nadmit = []\nteqd.x = 1",
        "port 0, teqd: 2 shape, not a whole number, line 2",
    ),
    (
        "licences = 1\n[[port]]\n\"cycles\" = 0",
        "port 0, cycles: 3 range, 1 to 10, line 2",
    ),
    (
        "licences = 1\n\"mask\" = 1\n[[port]]",
        "mask: 3 range, 0 or 85",
    ),
    // a list over several lines is told by the line of its key
    (
        "licences = 1\n[[port]]\nadmit = [\n  \"ABCD00000001\",\n  1,\n]",
        "port 0, admit 1: 2 shape, not a text, line 3",
    ),
    (
        "licences = 1\nport = [\n  {},\n  3,\n]",
        "port 1: 2 shape, not a table",
    ),
    // a key below the header of another table
    (
        "licences = 1\n[[port]]\nteqd = 0\n[port.cycles]\n[[port]]\ncycles = 1",
        "port 0, cycles: 2 shape, not a whole number, line 2",
    ),
    (
        "licences = 1\n[[port]]\n[mask]\nmask = 1",
        "mask: 2 shape, not a whole number, line 3",
    ),
    // lists in one line have no headers
    (
        "licences = 1\nport = [{cycles = 0}]",
        "port 0, cycles: 3 range, 1 to 10",
    ),
    (
        "licences = 1\nport = [{}]\n[[event]]\nport = 0\nframes = 0",
        "event 0, frames: 3 range, 1 to 1000000, line 5",
    ),
    // headers that are written in another way
    (
        "licences = 1\n[[port]]\n[[ port ]]\n[[port]]\ncycles = 0",
        "port 2, cycles: 3 range, 1 to 10",
    ),
    (
        "licences = 1\n[[\"port\"]]\ncycles = 0",
        "port 0, cycles: 3 range, 1 to 10",
    ),
    (
        "licences = 1\n[[port]]\n[[port.cycles]]",
        "port 0, cycles: 2 shape, not a whole number",
    ),
    (
        "licences = 5000\n[[port]]\n\t[['unit']]",
        "licences: 3 range, 0 to 4064, line 1",
    ),
    // a key of the top behind a header
    (
        "licences = 1\n[[port]]\nmask = 85",
        "port 0, mask: 2 shape, unknown key here; it has to stand before the first table, line 3",
    ),
    // a header whose word is another one, or that is no list's
    (
        "licences = 1\n[[port]]\n[[events]]\nport = 0\nframes = 1",
        "events: 2 shape, unknown key, perhaps event; there are licences, mask, journal_limit, port, unit, lose, event, line 3",
    ),
    (
        "licences = 1\n[[port]]\n\t[ event ] # one\nport = 0\nframes = 1",
        "event: 2 shape, not a list; each table of it begins with [[event]], line 3",
    ),
    (
        "licences = 1\n[[port]]\n[[ events ]]#\nport = 0",
        "events: 2 shape, unknown key, perhaps event; there are licences, mask, journal_limit, port, unit, lose, event, line 3",
    ),
    (
        "licences = 1\n[[port]]\n[[event.x]]\nport = 0",
        "event: 2 shape, not a list; each table of it begins with [[event]]",
    ),
    // texts that may go over several lines
    (
        "licences = 1\n[[port]]\noverhead = \"\"\"\n[[port]]\n\"\"\"",
        "port 0, overhead: 5 hex, 20 hexadecimal digits",
    ),
    (
        "licences = 1\n[[port]]\noverhead = '''\n[[port]]\n'''",
        "port 0, overhead: 5 hex, 20 hexadecimal digits",
    ),
    (
        "licences = 5000 # '''\n[[port]]",
        "licences: 3 range, 0 to 4064",
    ),
    (
        "licences = 1\n[[port]]\noverhead = '' # \"\"\ncycles = 0",
        "port 0, cycles: 3 range, 1 to 10, line 4",
    ),
    // the first line with the key is told
    (
        "licences = 1\n[[port]]\nadmit = [ # cycles = 0\n]\ncycles = 0 # cycles = 1",
        "port 0, cycles: 3 range, 1 to 10, line 5",
    ),
];

/// Scripts, and their counts.
pub(super) const SCRIPTS: [(&'static str, &'static str); 3] = [
    ("licences = 0\nport = [{}]", "1 port, 0 units, 0 events"),
    (
        "licences = 1\nport = [{}, {}]\n[[event]]\nport = 1\nframes = 7",
        "2 ports, 0 units, 1 event",
    ),
    (
        "licences = 1
port = [{}]
[[unit]]
serial = \"ABCD00000001\"
delay = 0
[[lose]]
copy = 0
[[event]]
unit = 0
light = true
[[event]]
port = 0
frames = 1",
        "1 port, 1 unit, 2 events",
    ),
];

/// Texts that are no TOML, and where. A column counts characters.
pub(super) const SYNTAX: [(&'static str, &'static str); 5] = [
    ("licences == 1", "line 1, column 11"),
    ("licences = 1\n\nport = [{}]\nmask =", "line 4, column 7"),
    ("licences = 1\nlicences = 2", "line 2, column 1"),
    ("# \u{e9}\nmask = \"\u{e9}\u{e9}\" 3", "line 2, column 13"),
    ("licences = 1\n[port", "line 2, column 6"),
];
