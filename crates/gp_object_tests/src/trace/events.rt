//! A row for each event: a frame, bursts, and each command.
use super::{A, is_told};
use crate::fields::{Field, Plain};
use gp_machine::{Answer, Command, Event, Reply};
use std::alloc::{AllocError, Global};

/// An event, its line, whose reply is `searching`, and the fields of that behind the first two.
type Row = (Event, &'static str, &'static [Field]);

const SERIAL: Field = Field::Plain(Plain::Text("serial", "ABCD00000001"));

const REPLY: Field = Field::Plain(Plain::Text("reply", "searching"));

const EVENTS: [Row; 14] = [
    (
        Event::Frame,
        "1 7 frame = searching",
        &[Field::Plain(Plain::Text("event", "frame")), REPLY],
    ),
    (
        Event::Burst {
            at: 100_000,
            bytes: *b"\x00\x01ABCD\x00\x00\x00\x01\x00\x00\x6b",
        },
        "1 7 burst 100000 0001414243440000000100006b = searching",
        &[
            Field::Plain(Plain::Text("event", "burst")),
            Field::Plain(Plain::Number("at", 100_000)),
            Field::Plain(Plain::Text("code", "0001414243440000000100006b")),
            Field::Plain(Plain::Text("message", "Serial_Number_ONU 0 ABCD00000001 0 0")),
            Field::Object(
                "message_fields",
                &[
                    Plain::Text("name", "Serial_Number_ONU"),
                    Plain::Number("onu", 0),
                    Plain::Text("serial", "ABCD00000001"),
                    Plain::Number("random", 0),
                    Plain::Number("flags", 0),
                ],
            ),
            REPLY,
        ],
    ),
    // a wrong check octet, and the greatest delay
    (
        Event::Burst {
            at: 4_294_967_295,
            bytes: *b"\x00\x01ABCD\x00\x00\x00\x01\x00\x00\x6c",
        },
        "1 7 burst 4294967295 0001414243440000000100006c = searching",
        &[
            Field::Plain(Plain::Text("event", "burst")),
            Field::Plain(Plain::Number("at", 4_294_967_295)),
            Field::Plain(Plain::Text("code", "0001414243440000000100006c")),
            Field::Plain(Plain::Null("message")),
            Field::Plain(Plain::Null("message_fields")),
            REPLY,
        ],
    ),
    // a unit's vendor in other octets than letters
    (
        Event::Command(Command::Alloc(gp_ploam::Serial(*b"\x00\x22\x5c\xff\x00\x00\x00\x01"))),
        "1 7 alloc 00225CFF00000001 = searching",
        &[
            Field::Plain(Plain::Text("event", "alloc")),
            Field::Plain(Plain::Text("serial", "00225CFF00000001")),
            REPLY,
        ],
    ),
    (
        Event::Command(Command::Search),
        "1 7 search = searching",
        &[Field::Plain(Plain::Text("event", "search")), REPLY],
    ),
    (
        Event::Command(Command::Alloc(A)),
        "1 7 alloc ABCD00000001 = searching",
        &[Field::Plain(Plain::Text("event", "alloc")), SERIAL, REPLY],
    ),
    (
        Event::Command(Command::Dealloc {
            serial: A,
            alloc: 256,
        }),
        "1 7 dealloc ABCD00000001 256 = searching",
        &[
            Field::Plain(Plain::Text("event", "dealloc")),
            SERIAL,
            Field::Plain(Plain::Number("alloc", 256)),
            REPLY,
        ],
    ),
    (
        Event::Command(Command::Deactivate(A)),
        "1 7 deactivate ABCD00000001 = searching",
        &[
            Field::Plain(Plain::Text("event", "deactivate")),
            SERIAL,
            REPLY,
        ],
    ),
    (
        Event::Command(Command::Disable(A)),
        "1 7 disable ABCD00000001 = searching",
        &[Field::Plain(Plain::Text("event", "disable")), SERIAL, REPLY],
    ),
    (
        Event::Command(Command::Enable(A)),
        "1 7 enable ABCD00000001 = searching",
        &[Field::Plain(Plain::Text("event", "enable")), SERIAL, REPLY],
    ),
    (
        Event::Command(Command::EnableAll),
        "1 7 enable-all = searching",
        &[Field::Plain(Plain::Text("event", "enable-all")), REPLY],
    ),
    (
        Event::Command(Command::Popup(A)),
        "1 7 popup ABCD00000001 = searching",
        &[Field::Plain(Plain::Text("event", "popup")), SERIAL, REPLY],
    ),
    (
        Event::Command(Command::PopupAll),
        "1 7 popup-all = searching",
        &[Field::Plain(Plain::Text("event", "popup-all")), REPLY],
    ),
    (
        Event::Command(Command::Show(A)),
        "1 7 show ABCD00000001 = searching",
        &[Field::Plain(Plain::Text("event", "show")), SERIAL, REPLY],
    ),
];

/// Tells whether an event has its line and its fields.
fn is_row(alloc: Global, row: &Row) -> Result<bool, AllocError> {
    let (event, text, fields) = *row;
    is_told(alloc, event, Answer::from(Reply::Searching), text, fields)
}

#[test]
fn events(rt: HostRuntime) {
    for row in &EVENTS {
        assert!(rt; is_row(rt.alloc(), row) == Ok(true), "{}", row.1);
    }
}
