//! Lines that tell events and lines that ask for something: what each says, and its first fault.
use crate::printed::is_printed;
use gp_lines::{Asked, LONGEST_LINE, LineFault, parse_event, parse_turn, picked, split_line};
use gp_machine::{Command, Event};
use gp_ploam::{Mask, Serial};
use gp_ranging::Grant;

const A: Serial = Serial(*b"ABCD\x00\x00\x00\x01");

/// Texts, and the event that each tells.
const EVENTS: [(&'static str, Event); 16] = [
    ("frame", Event::Frame),
    (
        "burst 100000 ff01414243440000000100002c",
        Event::Burst {
            at: 100_000,
            bytes: [255, 1, 65, 66, 67, 68, 0, 0, 0, 1, 0, 0, 44],
        },
    ),
    (
        "burst 04294967295 FF01414243440000000100002C",
        Event::Burst {
            at: 4_294_967_295,
            bytes: [255, 1, 65, 66, 67, 68, 0, 0, 0, 1, 0, 0, 44],
        },
    ),
    ("search", Event::Command(Command::Search)),
    ("alloc ABCD00000001", Event::Command(Command::Alloc(A))),
    ("alloc 4142434400000001", Event::Command(Command::Alloc(A))),
    (
        "dealloc ABCD00000001 256",
        Event::Command(Command::Dealloc {
            serial: A,
            alloc: 256,
        }),
    ),
    (
        "dealloc ABCD00000001 4095",
        Event::Command(Command::Dealloc {
            serial: A,
            alloc: 4095,
        }),
    ),
    (
        "dealloc ABCD00000001 00",
        Event::Command(Command::Dealloc {
            serial: A,
            alloc: 0,
        }),
    ),
    (
        "deactivate ABCD00000001",
        Event::Command(Command::Deactivate(A)),
    ),
    ("disable ABCD00000001", Event::Command(Command::Disable(A))),
    ("enable ABCD00000001", Event::Command(Command::Enable(A))),
    ("enable-all", Event::Command(Command::EnableAll)),
    ("popup ABCD00000001", Event::Command(Command::Popup(A))),
    ("popup-all", Event::Command(Command::PopupAll)),
    ("show ABCD00000001", Event::Command(Command::Show(A))),
];

/// Texts that tell no event, and the first fault of each.
const EVENT_FAULTS: [(&'static str, LineFault); 22] = [
    ("", LineFault::Word),
    ("Frame", LineFault::Word),
    ("frame ", LineFault::Word),
    (" frame", LineFault::Word),
    ("frame\r", LineFault::Word),
    ("enable_all", LineFault::Word),
    ("alloc", LineFault::Word),
    ("alloc  ABCD00000001", LineFault::Word),
    ("alloc ABCD00000001 256", LineFault::Word),
    ("dealloc ABCD00000001", LineFault::Word),
    ("alloc ABCD0000001", LineFault::Serial),
    ("alloc abcd00000001", LineFault::Serial),
    ("dealloc x x", LineFault::Serial),
    ("dealloc ABCD00000001 x", LineFault::Number),
    ("dealloc ABCD00000001 4096", LineFault::Range),
    ("burst x x", LineFault::Number),
    ("burst +1 00", LineFault::Number),
    ("burst  00", LineFault::Number),
    ("burst 4294967296 x", LineFault::Range),
    ("burst 99999999999999999999999 00", LineFault::Range),
    ("burst 1 ff01414243440000000100002", LineFault::Hex),
    ("burst 1 ff0141424344000000010000zz", LineFault::Hex),
];

/// Lines, and what each asks for.
const TURNS: [(&'static str, Asked); 22] = [
    ("", Asked::Nothing),
    ("\r", Asked::Nothing),
    ("#", Asked::Nothing),
    ("# 16 frame", Asked::Nothing),
    (
        "15 frame",
        Asked::Event {
            port: 15,
            event: Event::Frame,
        },
    ),
    (
        "0 search\r",
        Asked::Event {
            port: 0,
            event: Event::Command(Command::Search),
        },
    ),
    ("0 frame 1", Asked::Frames { port: 0, count: 1 }),
    (
        "0 frame 1000000",
        Asked::Frames {
            port: 0,
            count: 1_000_000,
        },
    ),
    (
        "15 frame 010\r",
        Asked::Frames {
            port: 15,
            count: 10,
        },
    ),
    (
        "0 until search",
        Asked::Until {
            port: 0,
            grant: Grant::Search,
            most: 1_000_000,
        },
    ),
    (
        "0 until range 0",
        Asked::Until {
            port: 0,
            grant: Grant::Range(0),
            most: 1_000_000,
        },
    ),
    (
        "1 until poll 4",
        Asked::Until {
            port: 1,
            grant: Grant::Poll(4),
            most: 1_000_000,
        },
    ),
    (
        "1 until poll 253",
        Asked::Until {
            port: 1,
            grant: Grant::Poll(253),
            most: 1_000_000,
        },
    ),
    (
        "0 until search within 1",
        Asked::Until {
            port: 0,
            grant: Grant::Search,
            most: 1,
        },
    ),
    (
        "3 until range 7 within 1000000\r",
        Asked::Until {
            port: 3,
            grant: Grant::Range(7),
            most: 1_000_000,
        },
    ),
    (
        "0 until poll 007 within 0040",
        Asked::Until {
            port: 0,
            grant: Grant::Poll(7),
            most: 40,
        },
    ),
    ("unit 0 light", Asked::Light { unit: 0, lit: true }),
    (
        "unit 0 dark",
        Asked::Light {
            unit: 0,
            lit: false,
        },
    ),
    (
        "unit 1023 light\r",
        Asked::Light {
            unit: 1023,
            lit: true,
        },
    ),
    (
        "unit 0001 dark",
        Asked::Light {
            unit: 1,
            lit: false,
        },
    ),
    ("unit 0 show", Asked::ShowUnit { unit: 0 }),
    ("unit 01023 show\r", Asked::ShowUnit { unit: 1023 }),
];

/// Lines that are no turn, and the first fault of each.
const TURN_FAULTS: [(&'static str, LineFault); 82] = [
    ("15", LineFault::Word),
    ("frame", LineFault::Word),
    (" ", LineFault::Space),
    (" # x", LineFault::Space),
    ("x nothing", LineFault::Number),
    ("16 nothing", LineFault::Range),
    ("0 nothing", LineFault::Word),
    ("0 frame\r\r", LineFault::Word),
    ("0 \r", LineFault::Space),
    ("1 frame 0", LineFault::Range),
    ("1 frame 1000001", LineFault::Range),
    ("1 frame x", LineFault::Number),
    ("1 frame ", LineFault::Space),
    ("1 frame 1 2", LineFault::Word),
    ("1 alloc x", LineFault::Serial),
    ("1 burst 1 x", LineFault::Hex),
    ("0 until", LineFault::Word),
    ("0 until frame", LineFault::Word),
    ("0 until poll", LineFault::Word),
    ("0 until search 1", LineFault::Word),
    ("0 until poll x", LineFault::Number),
    ("0 until range 254", LineFault::Range),
    ("x until poll 254", LineFault::Number),
    ("0 until within 5", LineFault::Word),
    ("0 until search within", LineFault::Word),
    ("0 until search within 5 5", LineFault::Word),
    ("0 until search Within 5", LineFault::Word),
    ("0 until search 1 within 5", LineFault::Word),
    ("0 until range within 5", LineFault::Word),
    ("0 until poll x within", LineFault::Word),
    ("0 until ranges 254 within x", LineFault::Word),
    ("0 until search within x", LineFault::Number),
    ("0 until search within 0", LineFault::Range),
    ("0 until search within 1000001", LineFault::Range),
    ("0 until poll x within 0", LineFault::Number),
    ("0 until poll 254 within x", LineFault::Range),
    ("0 until poll 253 within x", LineFault::Number),
    ("0 until range 253 within 0", LineFault::Range),
    ("unit 0", LineFault::Word),
    ("unit x bright", LineFault::Word),
    ("unit x light", LineFault::Number),
    ("unit 1024 dark", LineFault::Range),
    ("unit show", LineFault::Word),
    ("unit 1024 shows", LineFault::Word),
    ("unit 0 show onu", LineFault::Word),
    ("unit -1 show", LineFault::Number),
    ("unit 1024 show", LineFault::Range),
    ("0  frame", LineFault::Space),
    (" 0 frame", LineFault::Space),
    ("0 frame ", LineFault::Space),
    ("0 frame \r", LineFault::Space),
    ("x  nothing", LineFault::Space),
    ("16 burst  5 ff0141424344000000010000zz", LineFault::Space),
    ("0 alloc ABCD00000001 ", LineFault::Space),
    ("unit  0 light", LineFault::Space),
    ("0 until search  within 5", LineFault::Space),
    ("0\tframe", LineFault::Word),
    ("0 say", LineFault::Word),
    ("0 say nothing", LineFault::Word),
    ("0 say serial", LineFault::Word),
    ("0 say serial X at", LineFault::Word),
    ("0 say serial X onu", LineFault::Word),
    ("0 say serial X at 1 onu 3", LineFault::Word),
    ("0 say serial X id 3", LineFault::Word),
    ("0 say serial X onu x at x", LineFault::Serial),
    (
        "0 say serial ABCD00000001 onu x at 4294967296",
        LineFault::Number,
    ),
    ("0 say serial ABCD00000001 onu 256 at x", LineFault::Range),
    ("0 say serial ABCD00000001 at 4294967296", LineFault::Range),
    ("0 say serial ABCD00000001 at x", LineFault::Number),
    ("0 say gasp", LineFault::Word),
    ("0 say gasp 3", LineFault::Word),
    ("0 say gasp onu x at", LineFault::Word),
    ("0 say gasp onu 256", LineFault::Range),
    ("0 say none onu 3 4", LineFault::Word),
    ("0 say none onu -1", LineFault::Number),
    ("0 say ack onu 3", LineFault::Word),
    ("0 say ack id 3 onu 3", LineFault::Word),
    ("0 say ack onu 3 id 256", LineFault::Range),
    ("0 say ack onu x id 256", LineFault::Number),
    ("16 say ack onu x id 256", LineFault::Range),
    ("0 say  gasp onu 3", LineFault::Space),
    ("say gasp onu 3", LineFault::Number),
];

/// Lines in which a unit says something, the mask, and the port, the delay and the octets of the burst.
const SAID: [(&'static str, Mask, u8, u32, [u8; 13]); 11] = [
    (
        "0 say serial ABCD00000001",
        Mask::Plain,
        0,
        0,
        [255, 1, 65, 66, 67, 68, 0, 0, 0, 1, 0, 0, 44],
    ),
    (
        "1 say serial 4142434400000001 at 90000",
        Mask::Plain,
        1,
        90_000,
        [255, 1, 65, 66, 67, 68, 0, 0, 0, 1, 0, 0, 44],
    ),
    (
        "0 say serial ABCD00000001 onu 3\r",
        Mask::Plain,
        0,
        0,
        [3, 1, 65, 66, 67, 68, 0, 0, 0, 1, 0, 0, 140],
    ),
    (
        "15 say serial ABCD00000001 onu 003 at 04294967295",
        Mask::Plain,
        15,
        4_294_967_295,
        [3, 1, 65, 66, 67, 68, 0, 0, 0, 1, 0, 0, 140],
    ),
    (
        "0 say serial ABCD00000001",
        Mask::Coset,
        0,
        0,
        [255, 1, 65, 66, 67, 68, 0, 0, 0, 1, 0, 0, 121],
    ),
    (
        "0 say gasp onu 3",
        Mask::Plain,
        0,
        0,
        [3, 3, 0, 0, 0, 0, 0, 0, 0, 0, 0, 0, 198],
    ),
    (
        "0 say gasp onu 3 at 5",
        Mask::Coset,
        0,
        5,
        [3, 3, 0, 0, 0, 0, 0, 0, 0, 0, 0, 0, 147],
    ),
    (
        "0 say none onu 7 at 100000",
        Mask::Plain,
        0,
        100_000,
        [7, 4, 0, 0, 0, 0, 0, 0, 0, 0, 0, 0, 232],
    ),
    (
        "0 say ack onu 3 id 10",
        Mask::Plain,
        0,
        0,
        [3, 9, 10, 0, 0, 0, 0, 0, 0, 0, 0, 0, 153],
    ),
    (
        "0 say ack onu 3 id 10 at 1",
        Mask::Coset,
        0,
        1,
        [3, 9, 10, 0, 0, 0, 0, 0, 0, 0, 0, 0, 204],
    ),
    (
        "0 say none onu 255",
        Mask::Plain,
        0,
        0,
        [255, 4, 0, 0, 0, 0, 0, 0, 0, 0, 0, 0, 59],
    ),
];

/// Faults, and the word by which each is printed.
const WORDS: [(LineFault, &'static str); 7] = [
    (LineFault::Word, "word"),
    (LineFault::Number, "number"),
    (LineFault::Serial, "serial"),
    (LineFault::Hex, "hex"),
    (LineFault::Range, "range"),
    (LineFault::Long, "long"),
    (LineFault::Space, "space"),
];

#[test]
fn events_of_a_trace(rt: HostRuntime) {
    for (text, event) in &EVENTS {
        assert!(rt; parse_event(text.as_bytes()) == Ok(*event), "{text}");
    }
}

#[test]
fn no_events(rt: HostRuntime) {
    for (text, fault) in &EVENT_FAULTS {
        assert!(rt; parse_event(text.as_bytes()) == Err(*fault), "{text}");
    }
    assert!(rt; parse_event(b"alloc \xff") == Err(LineFault::Serial));
}

/// Tells whether a line asks for this under a mask, or has this fault.
fn is_turn(text: &str, mask: Mask, wanted: Result<Asked, LineFault>) -> bool {
    parse_turn(mask, text.as_bytes()) == wanted
}

#[test]
fn turns(rt: HostRuntime) {
    for (text, asked) in &TURNS {
        assert!(rt; is_turn(text, Mask::Plain, Ok(*asked)), "{text}");
    }
}

#[test]
fn no_turns(rt: HostRuntime) {
    for (text, fault) in &TURN_FAULTS {
        assert!(rt; is_turn(text, Mask::Plain, Err(*fault)), "{text}");
    }
}

#[test]
fn what_units_say(rt: HostRuntime) {
    for (text, mask, port, at, bytes) in &SAID {
        let event = Event::Burst {
            at: *at,
            bytes: *bytes,
        };
        let asked = Asked::Event { port: *port, event };
        assert!(rt; is_turn(text, *mask, Ok(asked)), "{text}");
    }
}

#[test]
fn long_lines(rt: HostRuntime) {
    let mut line = [b' '; LONGEST_LINE + 1];
    line[0] = b'#';
    assert!(rt; parse_turn(Mask::Plain, &line[..LONGEST_LINE]) == Ok(Asked::Nothing));
    assert!(rt; parse_turn(Mask::Plain, &line) == Err(LineFault::Long));
}

#[test]
fn words_of_faults(rt: HostRuntime) {
    for (fault, word) in &WORDS {
        assert!(rt; is_printed(rt.alloc(), fault, word), "{word}");
    }
}

/// Tells whether a line is one of a trace, with these parts.
fn is_line(text: &[u8], port: u8, number: u64, event: Event, answer: &[u8]) -> bool {
    match split_line(text) {
        Some(line) => {
            line.port == port
                && line.number == number
                && line.event == event
                && line.answer == answer
        }
        None => false,
    }
}

#[test]
fn lines_of_a_trace(rt: HostRuntime) {
    let text =
        b"0 18446744073709551615 burst 100000 ff01414243440000000100002c = found 7 alarm = x";
    let event = Event::Burst {
        at: 100_000,
        bytes: [255, 1, 65, 66, 67, 68, 0, 0, 0, 1, 0, 0, 44],
    };
    assert!(rt; is_line(text, 0, u64::MAX, event, b"found 7 alarm = x"));
    let shown = Event::Command(Command::Show(A));
    assert!(rt; is_line(b"15 0 show ABCD00000001 = ", 15, 0, shown, b""));
}

/// Answers, and the number that each picks.
const PICKED: [(&'static str, Option<u16>); 6] = [
    ("found 7 alarm = x", Some(7)),
    ("allocated 256", Some(256)),
    ("again 7", None),
    ("found", None),
    ("found 65536", None),
    ("found x", None),
];

#[test]
fn numbers_that_are_picked(rt: HostRuntime) {
    for (answer, number) in &PICKED {
        assert!(rt; picked(answer.as_bytes()) == *number, "{answer}");
    }
}

const NO_LINES: [&'static str; 10] = [
    "",
    "0 6 frame",
    "0 6 frame= ok",
    "0 6 frame =ok",
    "0 6 frame  = ok",
    "16 6 frame = ok",
    "0 18446744073709551616 frame = ok",
    "0 frame = ok",
    "0 x frame = ok",
    "0 6 frames = ok",
];

#[test]
fn no_lines_of_a_trace(rt: HostRuntime) {
    for text in &NO_LINES {
        assert!(rt; split_line(text.as_bytes()).is_none(), "{text}");
    }
}
