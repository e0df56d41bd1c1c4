//! The ends of each range, and the greatest counts.
use super::{RANGE, SERIAL, SHAPE, Table, fault_of};
use gp_script::{ScriptError, ScriptFault};
use std::alloc::{AllocError, Global};

/// The values of a script, with texts outside the range of each and at its ends.
pub(crate) const TABLES: [Table; 23] = [
    Table {
        before: "licences = ",
        behind: "\nport = [{}]",
        is_storm: false,
        rows: &[("-1", RANGE), ("4065", RANGE), ("0", None), ("4064", None)],
    },
    Table {
        before: "licences = 1\nport = [{}]\nmask = ",
        behind: "",
        is_storm: false,
        rows: &[("84", RANGE), ("86", RANGE), ("0", None), ("85", None)],
    },
    Table {
        before: "licences = 1\nport = [{}]\njournal_limit = ",
        behind: "",
        is_storm: false,
        rows: &[
            ("0", RANGE),
            ("1000001", RANGE),
            ("1", None),
            ("1000000", None),
        ],
    },
    Table {
        before: "licences = 1\nport = [{teqd = ",
        behind: "}]",
        is_storm: false,
        rows: &[
            ("-1", RANGE),
            ("4294967296", RANGE),
            ("0", None),
            ("4294967295", None),
        ],
    },
    Table {
        before: "licences = 1\nport = [{max_units = ",
        behind: "}]",
        is_storm: false,
        rows: &[("0", RANGE), ("255", RANGE), ("1", None), ("254", None)],
    },
    Table {
        before: "licences = 1\nport = [{alloc_last = ",
        behind: "}]",
        is_storm: false,
        rows: &[
            ("255", RANGE),
            ("4096", RANGE),
            ("256", None),
            ("4095", None),
        ],
    },
    Table {
        before: "licences = 1\nport = [{cycles = ",
        behind: "}]",
        is_storm: false,
        rows: &[("0", RANGE), ("11", RANGE), ("1", None), ("10", None)],
    },
    Table {
        before: "licences = 1\nport = [{search_period = ",
        behind: "}]",
        is_storm: false,
        rows: &[
            ("-1", RANGE),
            ("1000001", RANGE),
            ("0", None),
            ("1000000", None),
        ],
    },
    Table {
        before: "licences = 1\nport = [{quarantine = ",
        behind: "}]",
        is_storm: false,
        rows: &[("-1", RANGE), ("8001", RANGE), ("0", None), ("8000", None)],
    },
    Table {
        before: "licences = 1\nport = [{}]\nevent = [{command = \"search\", port = ",
        behind: "}]",
        is_storm: false,
        rows: &[("-1", RANGE), ("1", RANGE), ("0", None)],
    },
    Table {
        before: "licences = 1\nport = [{}]\nevent = [{port = 0, frames = ",
        behind: "}]",
        is_storm: false,
        rows: &[
            ("0", RANGE),
            ("1000001", RANGE),
            ("1", None),
            ("1000000", None),
        ],
    },
    Table {
        before: "licences = 1\nport = [{}]\nevent = [{port = 0, burst = \"0004000000000000000000007c\", at = ",
        behind: "}]",
        is_storm: false,
        rows: &[
            ("-1", RANGE),
            ("4294967296", RANGE),
            ("0", None),
            ("4294967295", None),
        ],
    },
    Table {
        before: "licences = 1\nport = [{}]\nevent = [{port = 0, at = 0, say = \"serial\", serial = \"ABCD00000001\", onu = ",
        behind: "}]",
        is_storm: false,
        rows: &[("-1", RANGE), ("256", RANGE), ("0", None), ("255", None)],
    },
    Table {
        before: "licences = 1\nport = [{}]\nevent = [{port = 0, say = \"none\", onu = 0, at = ",
        behind: "}]",
        is_storm: false,
        rows: &[
            ("-1", RANGE),
            ("4294967296", RANGE),
            ("0", None),
            ("4294967295", None),
        ],
    },
    Table {
        before: "licences = 1\nport = [{}]\nevent = [{port = 0, at = 0, say = \"none\", onu = ",
        behind: "}]",
        is_storm: false,
        rows: &[("-1", RANGE), ("256", RANGE), ("0", None), ("255", None)],
    },
    Table {
        before: "licences = 1\nport = [{}]\nevent = [{port = 0, at = 0, say = \"gasp\", onu = ",
        behind: "}]",
        is_storm: false,
        rows: &[("-1", RANGE), ("256", RANGE), ("0", None), ("255", None)],
    },
    Table {
        before: "licences = 1\nport = [{}]\nevent = [{port = 0, at = 0, say = \"ack\", onu = 0, id = ",
        behind: "}]",
        is_storm: false,
        rows: &[("-1", RANGE), ("256", RANGE), ("0", None), ("255", None)],
    },
    Table {
        before: "licences = 1\nport = [{}]\nevent = [{port = 0, command = \"dealloc\", serial = \"ABCD00000001\", alloc = ",
        behind: "}]",
        is_storm: false,
        rows: &[("-1", RANGE), ("4096", RANGE), ("0", None), ("4095", None)],
    },
    Table {
        before: "licences = 1\nport = [{}]\nunit = [{serial = \"ABCD00000001\", delay = ",
        behind: "}]",
        is_storm: false,
        rows: &[
            ("-1", RANGE),
            ("622081", RANGE),
            ("0", None),
            ("622080", None),
        ],
    },
    Table {
        before: "licences = 1\nport = [{}]\nunit = [{serial = \"ABCD00000001\", delay = 0, random = ",
        behind: "}]",
        is_storm: false,
        rows: &[("-1", RANGE), ("4096", RANGE), ("0", None), ("4095", None)],
    },
    Table {
        before: "licences = 1\nport = [{}]\nunit = [{serial = \"ABCD00000001\", delay = 0}]\nlose = [{copy = ",
        behind: "}]",
        is_storm: false,
        rows: &[
            ("-1", RANGE),
            ("-9223372036854775808", RANGE),
            ("0", None),
            ("9223372036854775807", None),
        ],
    },
    Table {
        before: "licences = 1\nport = [{}]\nunit = [{serial = \"ABCD00000001\", delay = 0}]\nlose = [{burst = ",
        behind: "}]",
        is_storm: false,
        rows: &[
            ("-1", RANGE),
            ("-9223372036854775808", RANGE),
            ("0", None),
            ("9223372036854775807", None),
        ],
    },
    Table {
        before: "licences = 1\nport = [{}]\nunit = [{serial = \"ABCD00000001\", delay = 0}]\nevent = [{light = false, unit = ",
        behind: "}]",
        is_storm: false,
        rows: &[("-1", RANGE), ("1", RANGE), ("0", None)],
    },
];

/// A script in which a piece is repeated with a number in it, so many times in each group.
#[derive(Clone, Copy)]
struct Repeated {
    before: &'static str,
    groups: u32,
    opening: &'static str,
    piece: [&'static str; 2],
    count: u32,
    closing: &'static str,
    behind: &'static str,
    fault: Option<ScriptFault>,
}

/// A port that admits nothing but these serial numbers.
const ADMITTING: Repeated = Repeated {
    before: "licences = 1\n",
    groups: 1,
    opening: "[[port]]\nadmit = [",
    piece: ["\"ABCD", "\","],
    count: 512,
    closing: "]\n",
    behind: "",
    fault: None,
};

/// Ports that admit nothing, and how many.
const PORTS: Repeated = Repeated {
    before: "licences = 1\nport = [",
    groups: 17,
    opening: "{},",
    piece: ["", ""],
    count: 0,
    closing: "",
    behind: "]",
    fault: RANGE,
};

/// Units on the fibre of one port.
const UNITS: Repeated = Repeated {
    before: "licences = 1\nport = [{}]\n",
    groups: 1,
    opening: "unit = [",
    piece: ["{delay = 0, serial = \"ABCD", "\"},"],
    count: 1024,
    closing: "]",
    behind: "",
    fault: None,
};

/// As many serial numbers as a port may admit, and one more.
const SERIALS: [Repeated; 6] = [
    ADMITTING,
    Repeated {
        count: 513,
        fault: RANGE,
        ..ADMITTING
    },
    // Too many serial numbers are told before a wrong one.
    Repeated {
        opening: "[[port]]\nadmit = [\"A\",",
        count: 511,
        fault: SERIAL,
        ..ADMITTING
    },
    Repeated {
        opening: "[[port]]\nadmit = [\"A\",",
        fault: RANGE,
        ..ADMITTING
    },
    // Sixteen ports, each of which admits as many serial numbers as it may, with an event at the last, and at one more.
    Repeated {
        groups: 16,
        behind: "[[event]]\nport = 15\nframes = 1",
        ..ADMITTING
    },
    Repeated {
        groups: 16,
        behind: "[[event]]\nport = 16\nframes = 1",
        fault: RANGE,
        ..ADMITTING
    },
];

/// A port table too many, beside another fault each.
const PORT_TABLES: [Repeated; 4] = [
    PORTS,
    Repeated {
        before: "licences = \"1\"\nport = [",
        fault: SHAPE,
        ..PORTS
    },
    Repeated {
        behind: "]\nunit = [{serial = \"ABCD00000001\", delay = 0}]",
        fault: SHAPE,
        ..PORTS
    },
    // A port table too many is told before a fault of one.
    Repeated {
        before: "licences = 1\nport = [{cycle = 1},",
        groups: 16,
        ..PORTS
    },
];

/// As many units as there may be, and one more.
const UNIT_TABLES: [Repeated; 4] = [
    UNITS,
    Repeated {
        count: 1025,
        fault: RANGE,
        ..UNITS
    },
    // A unit table too many is told before a fault of a port; as many as there may be come after the ports.
    Repeated {
        before: "licences = 1\nport = [{cycle = 1}]\n",
        count: 1025,
        fault: RANGE,
        ..UNITS
    },
    Repeated {
        before: "licences = 1\nport = [{cycle = 1}]\n",
        fault: SHAPE,
        ..UNITS
    },
];

/// Writes the script.
fn text_of(alloc: Global, row: &Repeated) -> Result<String, AllocError> {
    let mut text = String::new(alloc);
    text.push_str(row.before)?;
    for group in 0..row.groups {
        text.push_str(row.opening)?;
        for number in 0..row.count {
            let [before, behind] = row.piece;
            let piece = format!(in alloc; "{before}{group:02}{number:06}{behind}")?;
            text.push_str(piece.as_str())?;
        }
        text.push_str(row.closing)?;
    }
    text.push_str(row.behind)?;
    Ok(text)
}

/// The fault of a row's script, if it has one.
fn fault_of_row(alloc: Global, row: &Repeated) -> Result<Option<ScriptFault>, ScriptError> {
    let text = text_of(alloc, row)?;
    fault_of(alloc, false, text.as_bytes())
}

/// Gives the place of the first row whose script has another fault, and that.
fn first_wrong(
    alloc: Global,
    rows: &[Repeated],
) -> Result<Option<(usize, Option<ScriptFault>)>, ScriptError> {
    for (place, row) in rows.iter().enumerate() {
        let found = fault_of_row(alloc, row)?;
        if found != row.fault {
            return Ok(Some((place, found)));
        }
    }
    Ok(None)
}

#[test]
fn most_serial_numbers(rt: HostRuntime) {
    assert!(rt; first_wrong(rt.alloc(), &SERIALS) == Ok(None));
}

#[test]
fn most_ports(rt: HostRuntime) {
    assert!(rt; first_wrong(rt.alloc(), &PORT_TABLES) == Ok(None));
}

#[test]
fn most_units(rt: HostRuntime) {
    assert!(rt; first_wrong(rt.alloc(), &UNIT_TABLES) == Ok(None));
}
