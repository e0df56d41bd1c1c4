//! Lines that ask for something, and what is said to each.
use gp_drive::{DriveFault, DriveManner, Driven, drive_script, run_drive, run_drive_in};
use gp_replay::RunFault;
use gp_script::{ScriptFault, read_script};
use gp_stream::{Sink, Source};
use std::alloc::Global;
use std::test::Fail;

/// A port that admits one unit and searches once.
const PORT: &str = "licences = 1\n[[port]]\ncycles = 1\nadmit = [\"ABCD00000001\"]\n";

/// The same port, with the unit on its fibre.
const FIBRE: &str = "licences = 1\n[[port]]\ncycles = 1\nadmit = [\"ABCD00000001\"]\n\
    [[unit]]\nserial = \"ABCD00000001\"\ndelay = 200000\n";

/// A search, up to its window.
const SEARCH: &str = "\
0 0 search = searching
0 1 frame = ok
0 2 frame = ok sent ff010000000000000000000058
0 3 frame = ok sent ff010000000000000000000058
0 4 frame = ok sent ff010000000000000000000058
0 5 frame = ok grant search
";

/// Lines in which units say something, and the bursts that these are.
const SAID: &[u8] =
    b"0 search\n0 until search\n0 say serial ABCD00000001 at 100000\n0 say none onu 3\n\
    0 say gasp onu 0 at 7\n0 say ack onu 3 id 10\n";

const BURSTS: &[u8] = b"0 search\n0 until search\n0 burst 100000 ff01414243440000000100002c\n\
    0 burst 0 0304000000000000000000009b\n0 burst 7 00030000000000000000000021\n0 burst 0 03090a00000000000000000099\n";

/// The same bursts under a mask.
const MASKED: &[u8] = b"0 search\n0 until search\n0 burst 100000 ff014142434400000001000079\n\
    0 burst 0 030400000000000000000000ce\n0 burst 7 00030000000000000000000074\n0 burst 0 03090a000000000000000000cc\n";

/// The port with check octets that are XORed with 85.
const MASKED_PORT: &str =
    "licences = 1\nmask = 85\n[[port]]\ncycles = 1\nadmit = [\"ABCD00000001\"]\n";

/// The unit from its first frame to its operation, what it is on the way, and what it is in the dark.
const SHOWN: &str = "\
unit 0 O2
0 0 search = searching
0 1 frame = ok
0 2 frame = ok sent ff010000000000000000000058
unit 0 O3
0 3 frame = ok sent ff010000000000000000000058
0 4 frame = ok sent ff010000000000000000000058
0 5 frame = ok grant search
0 6 frame = ok
0 7 burst 200000 ff01414243440000000100002c = found 0
0 8 frame = ok sent ff03004142434400000001001b
unit 0 O4 onu 0
0 9 frame = ok sent ff03004142434400000001001b
0 10 frame = ok sent ff03004142434400000001001b
0 11 frame = ok grant range 0
0 12 frame = ok
0 13 burst 200000 0001414243440000000100006b = ranged 0 111040
0 14 frame = ok sent 0004000001b1c00000000000d2
unit 0 O5 onu 0 eqd 111040
error 15 unit
unit 0 O6 onu 0 eqd 111040 dark
unit 0 O6 onu 0 eqd 111040
";

/// A search, and frames up to its window: the first four don't reach it, and the fifth is it.
const TOO_FEW: &str = "\
0 0 search = searching
0 1 frame = ok
0 2 frame = ok sent ff010000000000000000000058
0 3 frame = ok sent ff010000000000000000000058
0 4 frame = ok sent ff010000000000000000000058
error 2 never
0 5 frame = ok grant search
error 4 range
";

/// Nothing is done beside the answers.
const PLAIN: DriveManner = DriveManner {
    done: false,
    lights: false,
};

/// Each line is told to be done.
const DONE: DriveManner = DriveManner {
    done: true,
    lights: false,
};

/// Light that comes and goes is told.
const LIGHTS: DriveManner = DriveManner {
    done: false,
    lights: true,
};

/// Both are.
const ALL: DriveManner = DriveManner {
    done: true,
    lights: true,
};

/// A manner, a script, lines, what is written, and how many lines were answered, and how many of them by errors.
type Row = (
    DriveManner,
    &'static str,
    &'static [u8],
    &'static str,
    (u64, u64),
);

/// What is written of a script and lines, and how it ended; None where memory was refused.
fn driven(
    alloc: Global,
    script: &str,
    lines: &[u8],
) -> Option<(Result<Driven, DriveFault>, Vec<u8>)> {
    let mut script = Source::new(script.as_bytes());
    let mut turns = Source::endless(lines);
    let mut sink = Sink::new(alloc, Vec::new(alloc)).ok()?;
    let outcome = run_drive(alloc, &mut script, &mut turns, &mut sink);
    Some((outcome, sink.into_inner()))
}

/// The same in a manner.
fn driven_in(
    alloc: Global,
    manner: DriveManner,
    script: &str,
    lines: &[u8],
) -> Option<(Result<Driven, DriveFault>, Vec<u8>)> {
    let mut script = Source::new(script.as_bytes());
    let mut turns = Source::endless(lines);
    let mut sink = Sink::new(alloc, Vec::new(alloc)).ok()?;
    let outcome = run_drive_in(alloc, manner, &mut script, &mut turns, &mut sink);
    Some((outcome, sink.into_inner()))
}

/// Tells whether so many lines were answered, so many of them by errors, and this was written.
fn is_driven(
    found: &Option<(Result<Driven, DriveFault>, Vec<u8>)>,
    expected: &str,
    (lines, errors): (u64, u64),
) -> bool {
    match found {
        Some((outcome, said)) => {
            *outcome == Ok(Driven { lines, errors }) && said.as_slice() == expected.as_bytes()
        }
        None => false,
    }
}

/// What is written of a row, and how it ended: in its manner, or where that is the plain one without.
fn driven_row(alloc: Global, row: &Row) -> Option<(Result<Driven, DriveFault>, Vec<u8>)> {
    let (manner, script, lines, _, _) = *row;
    if manner == PLAIN {
        driven(alloc, script, lines)
    } else {
        driven_in(alloc, manner, script, lines)
    }
}

/// Tells whether a row is driven so.
fn drives(alloc: Global, row: &Row) -> bool {
    is_driven(&driven_row(alloc, row), row.3, row.4)
}

/// Three ways to ask for a search and its frames.
const SEARCHES: [Row; 3] = [
    (
        PLAIN,
        PORT,
        b"0 search\n0 frame\n0 frame\n0 frame\n0 frame\n0 frame\n",
        SEARCH,
        (6, 0),
    ),
    (PLAIN, PORT, b"0 search\n0 frame 5", SEARCH, (2, 0)),
    (
        PLAIN,
        PORT,
        b"# until\r\n0 search\n\n0 until search\n",
        SEARCH,
        (4, 0),
    ),
];

#[test]
fn a_search_in_three_ways(rt: HostRuntime) {
    for row in &SEARCHES {
        assert!(rt; drives(rt.alloc(), row), "{}", row.3);
    }
}

/// Tells whether the same is written of these lines and of those.
fn are_same(alloc: Global, script: &str, lines: &[u8], others: &[u8]) -> bool {
    let said = driven(alloc, script, lines);
    said.is_some() && said == driven(alloc, script, others)
}

#[test]
fn what_units_say(rt: HostRuntime) {
    assert!(rt; are_same(rt.alloc(), PORT, SAID, BURSTS));
    assert!(rt; are_same(rt.alloc(), MASKED_PORT, SAID, MASKED));
}

/// A unit that is heard, and lines in which none is.
const HEARD: [Row; 2] = [
    (
        PLAIN,
        PORT,
        b"0 search\n0 until search\n0 say serial ABCD00000001 at 200000\n",
        "0 0 search = searching\n\
        0 1 frame = ok\n\
        0 2 frame = ok sent ff010000000000000000000058\n\
        0 3 frame = ok sent ff010000000000000000000058\n\
        0 4 frame = ok sent ff010000000000000000000058\n\
        0 5 frame = ok grant search\n\
        0 6 burst 200000 ff01414243440000000100002c = found 0\n",
        (3, 0),
    ),
    (
        PLAIN,
        PORT,
        b"1 say gasp onu 3\n0 say gasp\n",
        "error 1 port\nerror 2 word\n",
        (2, 2),
    ),
];

#[test]
fn units_that_are_heard(rt: HostRuntime) {
    for row in &HEARD {
        assert!(rt; drives(rt.alloc(), row), "{}", row.3);
    }
}

/// Lines that are no turns, among turns.
const NO_TURNS: [Row; 2] = [
    (
        PLAIN,
        PORT,
        b"0 frmae\nx frame\n0 frame 0\n0 alloc X\n0 burst 5 00\n1 frame\nunit 0 dark\n0 search\n",
        "error 1 word\nerror 2 number\nerror 3 range\nerror 4 serial\nerror 5 hex\nerror 6 port\nerror 7 unit\n\
        0 0 search = searching\n",
        (8, 7),
    ),
    (
        PLAIN,
        PORT,
        b" 0 frame\n0  frmae\n17 frame \n# a  remark \n0 frame\n",
        "error 1 space\nerror 2 space\nerror 3 space\n0 0 frame = ok\n",
        (5, 3),
    ),
];

#[test]
fn lines_that_are_no_turns(rt: HostRuntime) {
    for row in &NO_TURNS {
        assert!(rt; drives(rt.alloc(), row), "{}", row.3);
    }
}

/// A line of one octet more than may be, and one of as many.
const LONG_LINES: [Row; 2] = [
    (PLAIN, PORT, &[b'#'; 4_097], "error 1 long\n", (1, 1)),
    (PLAIN, PORT, &[b'#'; 4_096], "", (1, 0)),
];

#[test]
fn a_line_that_is_too_long(rt: HostRuntime) {
    for row in &LONG_LINES {
        assert!(rt; drives(rt.alloc(), row), "{}", row.3);
    }
}

const ON_THE_FIBRE: Row = (
    PLAIN,
    FIBRE,
    b"unit 0 dark\nunit 1 light\nunit 0 light\n0 search\n0 until range 0\n",
    "error 2 unit\n\
        0 0 search = searching\n\
        0 1 frame = ok\n\
        0 2 frame = ok sent ff010000000000000000000058\n\
        0 3 frame = ok sent ff010000000000000000000058\n\
        0 4 frame = ok sent ff010000000000000000000058\n\
        0 5 frame = ok grant search\n\
        0 6 frame = ok\n\
        0 7 burst 200000 ff01414243440000000100002c = found 0\n\
        0 8 frame = ok sent ff03004142434400000001001b\n\
        0 9 frame = ok sent ff03004142434400000001001b\n\
        0 10 frame = ok sent ff03004142434400000001001b\n\
        0 11 frame = ok grant range 0\n",
    (5, 1),
);

#[test]
fn a_unit_on_the_fibre(rt: HostRuntime) {
    assert!(rt; drives(rt.alloc(), &ON_THE_FIBRE));
}

/// Lines that ask what a unit is.
const SHOWS: [Row; 3] = [
    (
        PLAIN,
        FIBRE,
        b"unit 0 show\n0 search\n0 frame 2\nunit 0 show\n0 until search\n0 frame\n0 frame\n\
        unit 0 show\n0 until range 0\n0 frame\n0 frame\n# it was ranged\n\nunit 0 show\nunit 1 show\n\
        unit 0 dark\nunit 0 show\nunit 0 light\nunit 00 show\r\n",
        SHOWN,
        (19, 1),
    ),
    (
        PLAIN,
        PORT,
        b"unit 0 show\nunit  0 show\nunit 0 show 1\nunit x show\nunit 1024 show\n",
        "error 1 unit\nerror 2 space\nerror 3 word\nerror 4 number\nerror 5 range\n",
        (5, 5),
    ),
    (
        DONE,
        FIBRE,
        b"unit 0 dark\nunit 0 show\n0 frame\n",
        "done 1\nunit 0 O1 dark\ndone 2\n0 0 frame = ok\ndone 3\n",
        (3, 0),
    ),
];

#[test]
fn what_a_unit_is(rt: HostRuntime) {
    for row in &SHOWS {
        assert!(rt; drives(rt.alloc(), row), "{}", row.3);
    }
}

/// A script whose unit is in the dark at first.
const DARK_UNIT: &str = "licences = 1\n[[port]]\n[[unit]]\nserial = \"ABCD00000001\"\ndelay = 0\n\
    [[event]]\nunit = 0\nlight = false\n[[event]]\nport = 0\nframes = 1\n";

/// Light of the script's own events, and light that lines ask for, also at a unit that has it already.
const LIGHTS_TOLD: [Row; 2] = [
    (
        ALL,
        DARK_UNIT,
        b"unit 0 light\nunit 0 light\n0 frame\nunit 0 dark\nunit 0 show\nunit 1 dark\n",
        "unit 0 dark\n0 0 frame = ok\nunit 0 light\ndone 1\nunit 0 light\ndone 2\n\
        0 1 frame = ok\ndone 3\nunit 0 dark\ndone 4\nunit 0 O1 dark\ndone 5\nerror 6 unit\ndone 6\n",
        (6, 1),
    ),
    (LIGHTS, PORT, b"0 search\n0 until search\n", SEARCH, (2, 0)),
];

#[test]
fn lights_that_are_told(rt: HostRuntime) {
    for row in &LIGHTS_TOLD {
        assert!(rt; drives(rt.alloc(), row), "{}", row.3);
    }
}

const NEVER: Row = (
    PLAIN,
    PORT,
    b"0 search\n0 until search within 4\n0 until search within 1\n0 until poll 0 within 0\n",
    TOO_FEW,
    (4, 2),
);

#[test]
fn a_grant_that_is_never_made(rt: HostRuntime) {
    assert!(rt; drives(rt.alloc(), &NEVER));
}

const LAST: Row = (
    PLAIN,
    PORT,
    b"0 search\n0 until search within 5\n",
    SEARCH,
    (2, 0),
);

#[test]
fn the_last_frame_that_may_be(rt: HostRuntime) {
    assert!(rt; drives(rt.alloc(), &LAST));
}

/// Lines of which it is told that they are done.
const DONE_LINES: [Row; 3] = [
    (
        DONE,
        FIBRE,
        b"\n# remark\r\nunit 0 dark\n7 frame\n0 search\n0 frmae\n0 until search within 2\nunit 1 dark\n0 frame",
        "done 1\ndone 2\ndone 3\nerror 4 port\ndone 4\n\
        0 0 search = searching\ndone 5\nerror 6 word\ndone 6\n\
        0 1 frame = ok\n0 2 frame = ok sent ff010000000000000000000058\nerror 7 never\ndone 7\n\
        error 8 unit\ndone 8\n\
        0 3 frame = ok sent ff010000000000000000000058\ndone 9\n",
        (9, 4),
    ),
    (DONE, PORT, b"", "", (0, 0)),
    (DONE, PORT, &[b'#'; 4_097], "error 1 long\ndone 1\n", (1, 1)),
];

#[test]
fn lines_that_are_done(rt: HostRuntime) {
    for row in &DONE_LINES {
        assert!(rt; drives(rt.alloc(), row), "{}", row.3);
    }
}

/// Tells whether a search is driven of a script that was read before.
fn is_driven_when_read(alloc: Global, text: &str) -> Result<bool, Fail> {
    let script = read_script(alloc, text.as_bytes())?;
    let lines: &[u8] = b"0 search\n0 until search\n";
    let mut turns = Source::endless(lines);
    let mut sink = Sink::new(alloc, Vec::new(alloc))?;
    let outcome = drive_script(alloc, PLAIN, script, &mut turns, &mut sink);
    let found = Some((outcome, sink.into_inner()));
    Ok(is_driven(&found, SEARCH, (2, 0)))
}

/// A script that was read before is driven as it is where it is read first: on its ports, and on its fibre.
#[test]
fn a_script_that_was_read(rt: HostRuntime) -> Result<(), Fail> {
    assert!(rt; is_driven_when_read(rt.alloc(), PORT)?);
    assert!(rt; is_driven_when_read(rt.alloc(), FIBRE)?);
    Ok(())
}

/// The fault of a script, where it has one.
fn fault_of(found: &Option<(Result<Driven, DriveFault>, Vec<u8>)>) -> Option<DriveFault> {
    match found {
        Some((Err(fault), _)) => Some(*fault),
        _ => None,
    }
}

#[test]
fn a_script_that_is_none(rt: HostRuntime) {
    let found = driven(rt.alloc(), "ports = 1", b"0 frame\n");
    let shape = DriveFault::Script(RunFault::Script(ScriptFault::Shape));
    assert!(rt; fault_of(&found) == Some(shape));
}
