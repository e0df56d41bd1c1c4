//! Lines of a log and of a trace: what each says, and its first fault; and lines of a log that are written.
use crate::printed::is_printed;
use gp_lines::LONGEST_LINE;
use gp_log::{LAST_FRAME, LogFault, LogLine, Said, push_entry, read_line};
use gp_ranging::Grant;
use std::alloc::{AllocError, Global};

/// The octets of `ff01414243440000000100002c`.
const HEARD: [u8; 13] = [255, 1, 65, 66, 67, 68, 0, 0, 0, 1, 0, 0, 44];

/// The octets of `ff03004142434400000001001b`.
const SENT: [u8; 13] = [255, 3, 0, 65, 66, 67, 68, 0, 0, 0, 1, 0, 27];

/// Lines that are passed over.
const REMARKS: [&'static str; 6] = [
    "",
    "\r",
    "#",
    "# 0 12 down x",
    "\u{FEFF}",
    "\u{FEFF}# begin\r",
];

/// Lines of a message down, with the port and the time of each, in nanoseconds.
const DOWN: [(&'static str, u8, u64); 41] = [
    ("12 down ff03004142434400000001001b", 0, 1_500_000),
    ("0 12 down ff03004142434400000001001b", 0, 1_500_000),
    ("15 0 down FF03004142434400000001001B\r", 15, 0),
    ("015,0012,down,0xff03004142434400000001001b", 15, 1_500_000),
    ("3;12;down;0Xff03004142434400000001001b;", 3, 1_500_000),
    (
        "3\t12\tdown\tff 03 00 41 42 43 44 00 00 00 01 00 1b",
        3,
        1_500_000,
    ),
    (
        "3, 12, down, ff:03:00:41:42:43:44:00:00:00:01:00:1b",
        3,
        1_500_000,
    ),
    (
        " 3 \t12 down  ff-03-00-41-42-43-44-00-00-00-01-00-1b ,; ",
        3,
        1_500_000,
    ),
    ("1 down ff0300-41424344:00000001 001b", 0, 125_000),
    ("\u{FEFF}1 down ff03004142434400000001001b\r", 0, 125_000),
    ("0us down ff03004142434400000001001b", 0, 0),
    ("125us down ff03004142434400000001001b", 0, 125_000),
    ("2 125.0us down ff03004142434400000001001b", 2, 125_000),
    ("0.125us down ff03004142434400000001001b", 0, 125),
    ("0.125ms down ff03004142434400000001001b", 0, 125_000),
    ("1.000001ms down ff03004142434400000001001b", 0, 1_000_001),
    ("7ms down ff03004142434400000001001b", 0, 7_000_000),
    ("0.000125s down ff03004142434400000001001b", 0, 125_000),
    (
        "1700000000.123456789s down ff03004142434400000001001b",
        0,
        1_700_000_000_123_456_789,
    ),
    ("1.5s down ff03004142434400000001001b", 0, 1_500_000_000),
    ("1,5us down ff03004142434400000001001b", 1, 5_000),
    (
        "0.0001250000000s down ff03004142434400000001001b",
        0,
        125_000,
    ),
    ("0.1250us down ff03004142434400000001001b", 0, 125),
    (
        "147573952589676 down ff03004142434400000001001b",
        0,
        18_446_744_073_709_500_000,
    ),
    (
        "18446744073.709551615s down ff03004142434400000001001b",
        0,
        u64::MAX,
    ),
    (
        "18446744073709551.615us down ff03004142434400000001001b",
        0,
        u64::MAX,
    ),
    (
        "0000000000000000000000000000001 down ff03004142434400000001001b",
        0,
        125_000,
    ),
    ("1ns down ff03004142434400000001001b", 0, 1),
    ("125000.75ns down ff03004142434400000001001b", 0, 125_000),
    ("0.1255us down ff03004142434400000001001b", 0, 125),
    ("2.5\u{B5}s down ff03004142434400000001001b", 0, 2_500),
    ("2.5\u{3BC}s down ff03004142434400000001001b", 0, 2_500),
    ("0.0000001ms down ff03004142434400000001001b", 0, 0),
    (
        "1.9999999999s down ff03004142434400000001001b",
        0,
        1_999_999_999,
    ),
    ("12 Down ff03004142434400000001001b", 0, 1_500_000),
    ("12 ds ff03004142434400000001001b", 0, 1_500_000),
    ("3,12,DS,ff03004142434400000001001b", 3, 1_500_000),
    ("12 D ff03004142434400000001001b", 0, 1_500_000),
    (
        "12 DownStream ff.03.00.41.42.43.44.00.00.00.01.00.1b",
        0,
        1_500_000,
    ),
    (
        "12 down \"FF 03 00 41 42 43 44 00 00 00 01 00 1B\"",
        0,
        1_500_000,
    ),
    ("12;down;\"0xff03004142434400000001001b\";", 0, 1_500_000),
];

/// Lines of a message up, with the delay of each.
const UP: [(&'static str, Option<u32>); 12] = [
    ("6 up ff01414243440000000100002c", None),
    ("6 up ff01414243440000000100002c 100000", Some(100_000)),
    ("6,up,FF01414243440000000100002C,100000", Some(100_000)),
    ("0 6 up ff 01 41 42 43 44 00 00 00 01 00 00 2c", None),
    ("0 6 up ff 01 41 42 43 44 00 00 00 01 00 00 2c 10", Some(10)),
    ("6 up ff:01:41:42:43:44:00:00:00:01:00:00:2c;0", Some(0)),
    (
        "6 up 0xff01414243440000000100002c\t4294967295 ",
        Some(u32::MAX),
    ),
    (
        "6 up ff01414243440000000100002c 04294967295",
        Some(u32::MAX),
    ),
    ("6 up ff01414243440000000100002c ,", None),
    ("6 us ff01414243440000000100002c 7", Some(7)),
    ("6 U ff01414243440000000100002c", None),
    (
        "6,UpStream,\"ff01414243440000000100002c\",100000",
        Some(100_000),
    ),
];

/// Lines of a grant.
const GRANTS: [(&'static str, Grant); 6] = [
    ("6 grant search", Grant::Search),
    ("0,6,grant,search,", Grant::Search),
    ("6 grant range 0", Grant::Range(0)),
    ("0 6 grant range 0253", Grant::Range(253)),
    ("6;grant;poll;255", Grant::Poll(255)),
    ("6 GRANT poll 3", Grant::Poll(3)),
];

/// Lines that say nothing, and the first fault of each.
const FAULTS: [(&'static str, LogFault); 71] = [
    (" ", LogFault::Word),
    (" # 12", LogFault::Word),
    ("12", LogFault::Word),
    ("down ff03004142434400000001001b", LogFault::Word),
    ("12 ff03004142434400000001001b", LogFault::Word),
    ("12 sent ff03004142434400000001001b", LogFault::Word),
    ("1 2 3 down ff03004142434400000001001b", LogFault::Word),
    ("12\rdown ff03004142434400000001001b", LogFault::Word),
    ("12:down:ff03004142434400000001001b", LogFault::Word),
    ("12 down ff03004142434400000001001b 0", LogFault::Word),
    (
        "12 down ff 03 00 41 42 43 44 00 00 00 01 00 1b 00",
        LogFault::Word,
    ),
    ("12 up ff01414243440000000100002c 1 2", LogFault::Word),
    ("12 grant", LogFault::Word),
    ("12 grant Search", LogFault::Word),
    ("12 grant search 0", LogFault::Word),
    ("12 grant range 0 0", LogFault::Word),
    ("12 grant 0", LogFault::Word),
    ("16 12 down x", LogFault::Number),
    ("x y down x", LogFault::Number),
    ("-1 12 down ff03004142434400000001001b", LogFault::Number),
    ("1us 12 down ff03004142434400000001001b", LogFault::Number),
    ("12 grant range", LogFault::Number),
    ("12 grant range 256", LogFault::Number),
    ("12 grant poll x", LogFault::Number),
    ("12 grant poll -1", LogFault::Number),
    (
        "12 up ff01414243440000000100002c 4294967296",
        LogFault::Number,
    ),
    ("12 up ff01414243440000000100002c x", LogFault::Number),
    ("12 up ff01414243440000000100002c 1.5", LogFault::Number),
    (
        "12 up ff 01 41 42 43 44 00 00 00 01 00 00 2c 1b x",
        LogFault::Number,
    ),
    ("x down x", LogFault::Time),
    ("down down ff03004142434400000001001b", LogFault::Time),
    ("-1 down ff03004142434400000001001b", LogFault::Time),
    ("1.0 down ff03004142434400000001001b", LogFault::Time),
    ("1.ns down ff03004142434400000001001b", LogFault::Time),
    ("1.5xns down ff03004142434400000001001b", LogFault::Time),
    (
        "0.0000001xms down ff03004142434400000001001b",
        LogFault::Time,
    ),
    ("12 dow ff03004142434400000001001b", LogFault::Word),
    ("12 downs ff03004142434400000001001b", LogFault::Word),
    ("12 down \"ff03004142434400000001001b", LogFault::Code),
    ("12 down ff03004142434400000001001b\"", LogFault::Code),
    ("12 down \"ff03004142434400000001001b\"x", LogFault::Code),
    ("12 down \"\"ff03004142434400000001001b\"\"", LogFault::Code),
    ("1. down ff03004142434400000001001b", LogFault::Time),
    ("us down ff03004142434400000001001b", LogFault::Time),
    (".5us down ff03004142434400000001001b", LogFault::Time),
    ("5.us down ff03004142434400000001001b", LogFault::Time),
    ("1.5.5us down ff03004142434400000001001b", LogFault::Time),
    ("1US down ff03004142434400000001001b", LogFault::Time),
    ("1mss down ff03004142434400000001001b", LogFault::Time),
    ("1 ms down ff03004142434400000001001b", LogFault::Time),
    ("0.125x0us down ff03004142434400000001001b", LogFault::Time),
    ("1.0.0us down ff03004142434400000001001b", LogFault::Time),
    (
        "147573952589677 down ff03004142434400000001001b",
        LogFault::Time,
    ),
    (
        "18446744073.709551616s down ff03004142434400000001001b",
        LogFault::Time,
    ),
    (
        "99999999999999999999 down ff03004142434400000001001b",
        LogFault::Time,
    ),
    ("12 down", LogFault::Code),
    ("12 down ff03004142434400000001001", LogFault::Code),
    ("12 down ff03004142434400000001001b0", LogFault::Code),
    ("12 down ff03004142434400000001001g", LogFault::Code),
    ("12 down 0x", LogFault::Code),
    ("12 down 0x0xff03004142434400000001001b", LogFault::Code),
    ("12 down :ff03004142434400000001001b", LogFault::Code),
    ("12 down ff03004142434400000001001b:", LogFault::Code),
    ("12 down ff  03004142434400000001001b", LogFault::Code),
    (
        "12 down ff,03,00,41,42,43,44,00,00,00,01,00,1b",
        LogFault::Code,
    ),
    ("12 down f:f03004142434400000001001b", LogFault::Code),
    ("12 up x x", LogFault::Code),
    (
        "0 5 frame = ok sent ff03004142434400000001001",
        LogFault::Code,
    ),
    (
        "0 5 frame = ok sent ff03004142434400000001001b grant polls 1",
        LogFault::Word,
    ),
    ("0 5 frame = ok granted", LogFault::Word),
    ("0 5 frame = found 3", LogFault::Word),
];

/// Lines of a trace: the port, whether it has a frame more, and what was said.
const TRACES: [(&'static str, u8, bool, Option<Said>, Option<Said>); 9] = [
    ("0 1 frame = ok", 0, true, None, None),
    (
        "15 7 frame = ok sent ff03004142434400000001001b\r",
        15,
        true,
        Some(Said::Down(SENT)),
        None,
    ),
    (
        "0 5 frame = ok grant search",
        0,
        true,
        None,
        Some(Said::Grant(Grant::Search)),
    ),
    (
        "0 5 frame = ok sent ff03004142434400000001001b grant poll 3",
        0,
        true,
        Some(Said::Down(SENT)),
        Some(Said::Grant(Grant::Poll(3))),
    ),
    (
        "0 5 frame = ok grant range 3 alarm LOS ABCD00000001",
        0,
        true,
        None,
        Some(Said::Grant(Grant::Range(3))),
    ),
    (
        "0 5 frame = ok sent ff03004142434400000001001b alarm LOS ABCD00000001",
        0,
        true,
        Some(Said::Down(SENT)),
        None,
    ),
    (
        "0 6 burst 100000 ff01414243440000000100002c = found 0",
        0,
        false,
        Some(Said::Up {
            code: HEARD,
            delay: Some(100_000),
        }),
        None,
    ),
    ("0 0 search = searching", 0, false, None, None),
    (
        "2 9 alloc ABCD00000001 = refused 8 not-active",
        2,
        false,
        None,
        None,
    ),
];

/// Lines that are written: the port, the frames, the nanoseconds of that time, what was said.
const WRITTEN: [(&'static str, u8, u64, u64, Said); 6] = [
    (
        "0 12 down ff03004142434400000001001b",
        0,
        12,
        1_500_000,
        Said::Down(SENT),
    ),
    (
        "15 147573952589676 up ff01414243440000000100002c",
        15,
        LAST_FRAME,
        18_446_744_073_709_500_000,
        Said::Up {
            code: HEARD,
            delay: None,
        },
    ),
    (
        "0 0 up ff01414243440000000100002c 4294967295",
        0,
        0,
        0,
        Said::Up {
            code: HEARD,
            delay: Some(u32::MAX),
        },
    ),
    (
        "3 7 grant search",
        3,
        7,
        875_000,
        Said::Grant(Grant::Search),
    ),
    (
        "3 7 grant range 253",
        3,
        7,
        875_000,
        Said::Grant(Grant::Range(253)),
    ),
    (
        "3 7 grant poll 0",
        3,
        7,
        875_000,
        Said::Grant(Grant::Poll(0)),
    ),
];

/// Faults, and the word of each.
const WORDS: [(LogFault, &'static str); 5] = [
    (LogFault::Word, "word"),
    (LogFault::Number, "number"),
    (LogFault::Code, "code"),
    (LogFault::Time, "time"),
    (LogFault::Long, "long"),
];

/// Tells whether a line says this.
fn is_line(line: &str, wanted: LogLine) -> bool {
    read_line(line.as_bytes()) == Ok(wanted)
}

/// Tells whether a line is one of a log at this port and time, which says this.
fn is_said(line: &str, port: u8, time: u64, said: Said) -> bool {
    is_line(line, LogLine::Log { port, time, said })
}

#[test]
fn remarks(rt: HostRuntime) {
    for line in &REMARKS {
        assert!(rt; is_line(line, LogLine::Remark), "{line}");
    }
}

#[test]
fn messages_down(rt: HostRuntime) {
    for (line, port, time) in &DOWN {
        assert!(rt; is_said(line, *port, *time, Said::Down(SENT)), "{line}");
    }
}

/// At port 0 and frame 6.
#[test]
fn messages_up(rt: HostRuntime) {
    for (line, delay) in &UP {
        let said = Said::Up {
            code: HEARD,
            delay: *delay,
        };
        assert!(rt; is_said(line, 0, 750_000, said), "{line}");
    }
}

/// At port 0 and frame 6.
#[test]
fn grants(rt: HostRuntime) {
    for (line, grant) in &GRANTS {
        assert!(rt; is_said(line, 0, 750_000, Said::Grant(*grant)), "{line}");
    }
}

#[test]
fn lines_of_a_trace(rt: HostRuntime) {
    for (line, port, is_frame, first, second) in &TRACES {
        let wanted = LogLine::Trace {
            port: *port,
            is_frame: *is_frame,
            first: *first,
            second: *second,
        };
        assert!(rt; is_line(line, wanted), "{line}");
    }
}

/// Tells whether a line has this fault first.
fn is_fault(line: &[u8], fault: LogFault) -> bool {
    read_line(line) == Err(fault)
}

#[test]
fn first_faults(rt: HostRuntime) {
    for (line, fault) in &FAULTS {
        assert!(rt; is_fault(line.as_bytes(), *fault), "{line}");
    }
}

#[test]
fn long_lines(rt: HostRuntime) {
    let mut line = [b' '; LONGEST_LINE + 1];
    line[0] = b'#';
    assert!(rt; read_line(&line[..LONGEST_LINE]) == Ok(LogLine::Remark));
    assert!(rt; is_fault(&line, LogFault::Long));
}

#[test]
fn words_of_faults(rt: HostRuntime) {
    for (fault, word) in &WORDS {
        assert!(rt; is_printed(rt.alloc(), fault, word), "{word}");
    }
}

/// Tells whether a line is written of this.
fn is_written(
    alloc: Global,
    port: u8,
    frames: u64,
    said: Said,
    line: &str,
) -> Result<bool, AllocError> {
    let mut out = Vec::new(alloc);
    push_entry(&mut out, port, frames, &said)?;
    Ok(out.strip_suffix(b"\n") == Some(line.as_bytes()))
}

#[test]
fn written_lines(rt: HostRuntime) {
    for (line, port, frames, _, said) in &WRITTEN {
        let is_so = is_written(rt.alloc(), *port, *frames, *said, line);
        assert!(rt; is_so == Ok(true), "{line}");
    }
}

#[test]
fn written_lines_are_read(rt: HostRuntime) {
    for (line, port, _, time, said) in &WRITTEN {
        assert!(rt; is_said(line, *port, *time, *said), "{line}");
    }
}
