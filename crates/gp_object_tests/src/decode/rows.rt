//! A row for each message: its code, and its object.
use crate::fields::Plain;

const ONU: Plain = Plain::Number("onu", 3);

const SERIAL: Plain = Plain::Text("serial", "ABCD00000001");

/// A code, the name of its message, and the fields of that. What has a name of the standard has it here.
pub(super) type Row = (&'static str, &'static str, &'static [Plain]);

pub(super) const DOWN: [Row; 13] = [
    (
        "ff0100112233445566778899b5",
        "Upstream_Overhead",
        &[Plain::Text("octets", "00112233445566778899")],
    ),
    (
        "ff0303414243440000000100a3",
        "Assign_ONU-ID",
        &[ONU, SERIAL],
    ),
    (
        "0304000003386000000000007b",
        "Ranging_Time",
        &[ONU, Plain::Number("eqd", 211_040)],
    ),
    ("03050000000000000000000084", "Deactivate_ONU-ID", &[ONU]),
    (
        "ff06ff41424344000000010055",
        "Disable_Serial_Number",
        &[SERIAL],
    ),
    (
        "ff060041424344000000010078",
        "Enable_Serial_Number",
        &[SERIAL],
    ),
    ("ff060f00000000000000000053", "Enable_All", &[]),
    (
        "030a1010010000000000000025",
        "Assign_Alloc-ID",
        &[ONU, Plain::Number("alloc", 257), Plain::Truth("keep", true)],
    ),
    (
        "030a1010ff00000000000000ed",
        "Assign_Alloc-ID",
        &[
            ONU,
            Plain::Number("alloc", 257),
            Plain::Truth("keep", false),
        ],
    ),
    ("ff0b000000000000000000009e", "No_message", &[]),
    ("030c0000000000000000000063", "POPUP", &[ONU]),
    (
        "ff09001122334455667788994d",
        "Request_Password",
        &[
            Plain::Number("id", 9),
            Plain::Number("octet1", 255),
            Plain::Text("octets", "00112233445566778899"),
        ],
    ),
    (
        "ff07011122334455667788999f",
        "Other",
        &[
            Plain::Number("id", 7),
            Plain::Number("octet1", 255),
            Plain::Text("octets", "01112233445566778899"),
        ],
    ),
];

pub(super) const UP: [Row; 6] = [
    (
        "030141424344000000010aa57c",
        "Serial_Number_ONU",
        &[
            ONU,
            SERIAL,
            Plain::Number("random", 170),
            Plain::Number("flags", 5),
        ],
    ),
    ("030300000000000000000000c6", "Dying_Gasp", &[ONU]),
    ("0304000000000000000000009b", "No_message", &[ONU]),
    (
        "03090a00000000000000000099",
        "Acknowledge",
        &[ONU, Plain::Number("id", 10)],
    ),
    (
        "03050011223344556677889969",
        "Encryption_key",
        &[
            Plain::Number("id", 5),
            Plain::Number("octet1", 3),
            Plain::Text("octets", "00112233445566778899"),
        ],
    ),
    (
        "030a00112233445566778899cc",
        "Other",
        &[
            Plain::Number("id", 10),
            Plain::Number("octet1", 3),
            Plain::Text("octets", "00112233445566778899"),
        ],
    ),
];
