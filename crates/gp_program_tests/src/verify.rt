//! Traces that are told to be runs, and the first line of each that is not.
mod objects;
mod words;

use gp_explain::Form;
use gp_replay::RunFault;
use gp_script::ScriptFault;
use gp_stream::{Sink, Source};
use gp_verify::{CheckFault, Verdict, VerifyFault, verify_script, verify_told};
use std::alloc::{AllocError, Global};

/// A port that admits one unit and searches once.
const SCRIPT: &str = "licences = 1\n[[port]]\ncycles = 1\nadmit = [\"ABCD00000001\"]\n";

/// A search, up to its window.
const SEARCH: &str = "\
0 0 search = searching
0 1 frame = ok
0 2 frame = ok sent ff010000000000000000000058
0 3 frame = ok sent ff010000000000000000000058
0 4 frame = ok sent ff010000000000000000000058
0 5 frame = ok grant search
";

/// A unit answers in it, and is ranged.
const RANGED: &str = "\
0 6 burst 100000 ff01414243440000000100002c = found 0
0 7 frame = ok sent ff03004142434400000001001b
0 8 frame = ok sent ff03004142434400000001001b
0 9 frame = ok sent ff03004142434400000001001b
0 10 frame = ok grant range 0
0 11 burst 100000 0001414243440000000100006b = ranged 0 211040
0 12 frame = ok sent 0004000003386000000000009c
0 13 frame = ok sent 0004000003386000000000009c
0 14 frame = ok sent 0004000003386000000000009c
0 15 frame = ok
";

/// The line of the unit's answer.
const FOUND: &str = "0 6 burst 100000 ff01414243440000000100002c = found 0\n";

/// What comes behind a search, and what is found of the whole: how many lines a run has, or why the seventh can't be.
const ROWS: [(&'static str, Result<u64, Verdict>); 13] = [
    ("", Ok(6)),
    (RANGED, Ok(16)),
    (FOUND, Ok(7)),
    (
        "0 6 burst 100000 ff01414243440000000100002c = found 7\n",
        Ok(7),
    ),
    (
        "0 6 burst 100000 ff01414243440000000100002c = found 253\n",
        Ok(7),
    ),
    (
        "0 6 burst 100000 ff01414243440000000100002c = found 254\n",
        Err(Verdict::NotAStep),
    ),
    (
        "0 6 burst 100000 ff01414243440000000100002c = found 007\n",
        Err(Verdict::NotAStep),
    ),
    (
        "0 6 burst 0100000 ff01414243440000000100002c = found 7\n",
        Err(Verdict::NotAStep),
    ),
    (
        "0 5 burst 100000 ff01414243440000000100002c = found 7\n",
        Err(Verdict::WrongNumber),
    ),
    ("1 0 frame = ok\n", Err(Verdict::NoPort)),
    ("found 7\n", Err(Verdict::NotALine)),
    ("\n", Err(Verdict::NotALine)),
    ("0 6 frame = ok\r\n", Err(Verdict::NotAStep)),
];

/// What is found of a text, and what is written.
type Found = (Result<u64, CheckFault>, Vec<u8>);

/// What is found of a text, and what is written; None where memory was refused.
fn found(alloc: Global, script: &str, text: &[u8]) -> Option<Found> {
    let mut script = Source::new(script.as_bytes());
    let mut trace = Source::endless(text);
    let mut sink = Sink::new(alloc, Vec::new(alloc)).ok()?;
    let outcome = verify_script(alloc, &mut script, &mut trace, &mut sink);
    Some((outcome, sink.into_inner()))
}

/// What is found of a text, where so many lines are asked for, and all that is told of it in a form; None where memory
/// was refused.
fn told(
    alloc: Global,
    form: Form,
    at_least: Option<u64>,
    script: &str,
    text: &[u8],
) -> Option<Found> {
    let mut script = Source::new(script.as_bytes());
    let mut trace = Source::endless(text);
    let mut sink = Sink::new(alloc, Vec::new(alloc)).ok()?;
    let outcome = verify_told(alloc, form, at_least, &mut script, &mut trace, &mut sink);
    Some((outcome, sink.into_inner()))
}

/// What is found of a search and this behind it.
fn found_behind(alloc: Global, last: &[u8]) -> Option<Found> {
    let mut text = Vec::from_slice(alloc, SEARCH.as_bytes()).ok()?;
    text.extend_from_slice(last).ok()?;
    found(alloc, SCRIPT, &text)
}

/// Tells whether this is found.
fn is_found(found: &Option<Found>, wanted: Result<u64, CheckFault>) -> bool {
    match found {
        Some((outcome, _)) => *outcome == wanted,
        None => false,
    }
}

/// Tells whether this is written.
fn is_written(found: &Option<Found>, wanted: &str) -> bool {
    match found {
        Some((_, written)) => written.as_slice() == wanted.as_bytes(),
        None => false,
    }
}

/// Tells whether what is written ends so.
fn is_ended(found: &Option<Found>, end: &str) -> bool {
    match found {
        Some((_, written)) => written.as_slice().ends_with(end.as_bytes()),
        None => false,
    }
}

/// Tells whether this is found of a search and these lines behind it: so many lines of a run, or why the seventh line
/// can't be.
fn is_verdict(found: &Option<Found>, wanted: Result<u64, Verdict>) -> bool {
    match wanted {
        Ok(lines) => is_found(found, Ok(lines)),
        Err(verdict) => {
            let refused = VerifyFault::Refused { line: 7, verdict };
            is_found(found, Err(CheckFault::Trace(refused)))
        }
    }
}

#[test]
fn lines_behind_a_search(rt: HostRuntime) {
    for (last, wanted) in &ROWS {
        let found = found_behind(rt.alloc(), last.as_bytes());
        assert!(rt; is_verdict(&found, *wanted), "{last}");
    }
}

#[test]
fn a_line_without_its_feed(rt: HostRuntime) {
    let last = b"0 6 burst 100000 ff01414243440000000100002c = found 0";
    let unended = CheckFault::Trace(VerifyFault::Unended { line: 7 });
    assert!(rt; is_found(&found_behind(rt.alloc(), last), Err(unended)));
}

/// What comes behind a ranged unit, and what is written of the whole.
const TOLD: [(&'static str, &'static str); 9] = [
    ("", ""),
    ("0 16 frame = ok grant poll 0\n", ""),
    ("0 16 frame = ok grant poll 0", ""),
    (
        "found 7\n",
        "line 17: found 7\nwhy: the port: a line begins with one, 0 to 15\n",
    ),
    (
        "\n",
        "line 17: \nwhy: the port: a line begins with one, 0 to 15\n",
    ),
    (
        "1 0 frame = ok\n",
        "line 17: 1 0 frame = ok\nwhy: the port: the last of the script is 0\n",
    ),
    (
        "0 17 frame = ok\n",
        "line 17: 0 17 frame = ok\nmachine: 0 16 frame = ok grant poll 0\n\
why: the number: `16` is next, not `17`\n",
    ),
    (
        "0 16 search = found 0\n0 17 frame = ok\n",
        "line 17: 0 16 search = found 0\nmachine: 0 16 search = searching\n\
why: the reply: `searching`, not `found 0`\n",
    ),
    (
        "0 16 alloc ABCD00000001 = allocated 4096\n",
        "line 17: 0 16 alloc ABCD00000001 = allocated 4096\n\
machine: 0 16 alloc ABCD00000001 = allocated 256\nany free Alloc-ID would do\n\
why: the reply: `allocated 256`, not `allocated 4096`\n",
    ),
];

/// What comes behind a search, and what is written of the whole.
const TOLD_FOUND: [(&'static str, &'static str); 4] = [
    (FOUND, ""),
    (
        "0 6 burst 100000 ff01414243440000000100002c = found 254\n",
        "line 7: 0 6 burst 100000 ff01414243440000000100002c = found 254\n\
machine: 0 6 burst 100000 ff01414243440000000100002c = found 0\nany free ONU-ID would do\n\
why: the reply: `found 0`, not `found 254`\n",
    ),
    (
        "0 6 burst 100000 ff01414243440000000100002c = found 007\n",
        "line 7: 0 6 burst 100000 ff01414243440000000100002c = found 007\n\
machine: 0 6 burst 100000 ff01414243440000000100002c = found 7\nany free ONU-ID would do\n\
why: the reply: `found 7`, not `found 007`\n",
    ),
    (
        "0 5 burst 100000 ff01414243440000000100002c = stray\n",
        "line 7: 0 5 burst 100000 ff01414243440000000100002c = stray\n\
machine: 0 6 burst 100000 ff01414243440000000100002c = found 0\nany free ONU-ID would do\n\
why: the number: `6` is next, not `5`\n",
    ),
];

/// The frame behind the unit's answer, which sends the first copy of its ONU-ID.
const FIRST: &str = "0 7 frame = ok sent ff03004142434400000001001b\n";

/// The three frames behind the unit's answer, which send the copies of its ONU-ID.
const THREE: &str = "\
0 7 frame = ok sent ff03004142434400000001001b
0 8 frame = ok sent ff03004142434400000001001b
0 9 frame = ok sent ff03004142434400000001001b
";

/// The same, and the frame that asks the unit for its round-trip delay.
const RANGE_ASKED: &str = "\
0 7 frame = ok sent ff03004142434400000001001b
0 8 frame = ok sent ff03004142434400000001001b
0 9 frame = ok sent ff03004142434400000001001b
0 10 frame = ok grant range 0
";

/// What comes behind a search and a line that can't be, and why it can't.
const WHY: [(&'static str, &'static str, &'static str); 9] = [
    ("", "00 6 frame = ok\n", "the port: `0`, not `00`"),
    ("", "0 06 frame = ok\n", "the number: `6` is next, not `06`"),
    (
        "",
        "0 6 burst 0100000 ff01414243440000000100002c = found 7\n",
        "the event: it is spelled `burst 100000 ff01414243440000000100002c`, \
not `burst 0100000 ff01414243440000000100002c`",
    ),
    (
        "",
        "0 6 frame = ok\r\n",
        "a carriage return stands at octet 15",
    ),
    ("", "0 6 frame = ok \n", "a space stands at octet 15"),
    ("", "0 6 frame = ok\t\n", "a tab stands at octet 15"),
    (
        RANGED,
        "0 16 frame = okgrant poll 0\n",
        "a space is missing at octet 16",
    ),
    (
        RANGED,
        "0 16 frame = ok alarm LOS ABCD00000001\n",
        "the grant: `poll 0`, the operating unit whose turn it is, and the line has none",
    ),
    (
        RANGED,
        "0 16 frame = ok grant poll 0 alarm LOS ABCD00000001\n",
        "the alarm: none, not `LOS ABCD00000001`",
    ),
];

/// What comes behind a unit's answer and a line that can't be, and why it can't.
const WHY_SENT: [(&'static str, &'static str, &'static str); 12] = [
    (
        "",
        "0 7 frame = ok sent ff03004142434400000001001c\n",
        "the message sent: the first copy of `Assign_ONU-ID 0 ABCD00000001` is owed, \
not `ff03004142434400000001001c` (crc, 1b should stand)",
    ),
    (
        "",
        "0 7 frame = ok sent ff03004142434400000001004e\n",
        "the message sent: the first copy of `Assign_ONU-ID 0 ABCD00000001` is owed, \
not `ff03004142434400000001004e` (crc, right under mask 85)",
    ),
    (
        "",
        "0 7 frame = ok sent ff0300414243440000000100\n",
        "the message sent: the first copy of `Assign_ONU-ID 0 ABCD00000001` is owed, \
not `ff0300414243440000000100`",
    ),
    (
        FIRST,
        "0 8 frame = ok sent ff030141424344000000010073\n",
        "the message sent: the second copy of `Assign_ONU-ID 0 ABCD00000001` is owed, \
not `Assign_ONU-ID 1 ABCD00000001`",
    ),
    (
        FIRST,
        "0 8 frame = ok grant range 0\n",
        "the message sent: the second copy of `Assign_ONU-ID 0 ABCD00000001` is owed, and the line has none",
    ),
    (
        FIRST,
        "0 8 frame = ok sent ff03004142434400000001001b grant range 0\n",
        "the grant: none, since a message was owed, not `range 0`",
    ),
    (
        FIRST,
        "0 8 search = refused 14 already-searching sent ff03004142434400000001001b\n",
        "the message sent: none, since only a frame sends one, not `Assign_ONU-ID 0 ABCD00000001`",
    ),
    (
        FIRST,
        "0 8 search = refused 14 already-searching grant search\n",
        "the grant: none, since only a frame grants, not `search`",
    ),
    (
        "0 7 frame = ok sent ff03004142434400000001001b\n0 8 frame = ok sent ff03004142434400000001001b\n",
        "0 9 frame = ok\n",
        "the message sent: the third copy of `Assign_ONU-ID 0 ABCD00000001` is owed, and the line has none",
    ),
    (
        THREE,
        "0 10 frame = ok sent ff03004142434400000001001b\n",
        "the message sent: none is owed, not `Assign_ONU-ID 0 ABCD00000001`",
    ),
    (
        THREE,
        "0 10 frame = ok grant range 1\n",
        "the grant: `range 0`, the least ONU-ID of a ranging unit, not `range 1`",
    ),
    (
        RANGE_ASKED,
        "0 11 burst 100000 00030000000000000000000021 = gasp 0\n",
        "the alarm: `DG ABCD00000001`, and the line has none",
    ),
];

/// What comes behind a search and is no line of a trace, and why.
const WHY_NONE: [(&'static str, &'static str); 14] = [
    (
        "16 0 frame = ok\n",
        "the port: a line begins with one, 0 to 15",
    ),
    (
        " 0 6 frame = ok\n",
        "the port: a line begins with one, 0 to 15",
    ),
    (
        "0\n",
        "the number: how many entries the port had before stands behind the port",
    ),
    (
        "0 frame = ok\n",
        "the number: how many entries the port had before stands behind the port",
    ),
    (
        "0 18446744073709551616 frame = ok\n",
        "the number: how many entries the port had before stands behind the port",
    ),
    (
        "0 6 = ok\n",
        "the event: `frame`, `burst AT CODE` or a command stands behind the number",
    ),
    (
        "0 6 frmae = ok\n",
        "the event: `frame`, `burst AT CODE` or a command stands behind the number",
    ),
    (
        "0 6  frame = ok\n",
        "the event: `frame`, `burst AT CODE` or a command stands behind the number",
    ),
    (
        "0 6 burst x ff01414243440000000100002c = stray\n",
        "the event: a number has decimal digits alone",
    ),
    (
        "0 6 burst 4294967296 ff01414243440000000100002c = stray\n",
        "the event: a delay is 4294967295 at most, and an Alloc-ID 4095",
    ),
    (
        "0 6 burst 5 ff01414243440000000100002 = stray\n",
        "the event: a code has 26 hexadecimal digits",
    ),
    (
        "0 6 show ABCD0000000G = ok\n",
        "the event: a serial number has 12 characters, as `ABCD00000001`, or 16 hexadecimal digits",
    ),
    (
        "0 6 frame\n",
        "the answer: ` = ` and the reply stand behind the event",
    ),
    (
        "0 6 frame=ok\n",
        "the event: `frame`, `burst AT CODE` or a command stands behind the number",
    ),
];

/// Tells whether this is why the line behind a search and these is none of a run.
fn is_why(alloc: Global, behind: &str, line: &str, reason: &str) -> Result<bool, AllocError> {
    let text = format!(in alloc; "{behind}{line}")?;
    let why = format!(in alloc; "\nwhy: {reason}\n")?;
    Ok(is_ended(&found_behind(alloc, text.as_bytes()), &why))
}

#[test]
fn why_it_is_none(rt: HostRuntime) {
    for (behind, line, reason) in &WHY {
        assert!(rt;
            is_why(rt.alloc(), behind, line, reason) == Ok(true),
            "{line}"
        );
    }
}

#[test]
fn why_it_is_no_line(rt: HostRuntime) {
    for (line, reason) in &WHY_NONE {
        assert!(rt; is_why(rt.alloc(), "", line, reason) == Ok(true), "{line}");
    }
}

/// Tells the same behind the unit's answer and these.
fn is_why_behind_an_answer(
    alloc: Global,
    behind: &str,
    line: &str,
    reason: &str,
) -> Result<bool, AllocError> {
    let answered = format!(in alloc; "{FOUND}{behind}")?;
    is_why(alloc, &answered, line, reason)
}

#[test]
fn why_no_message_is(rt: HostRuntime) {
    for (behind, line, reason) in &WHY_SENT {
        let is_so = is_why_behind_an_answer(rt.alloc(), behind, line, reason);
        assert!(rt; is_so == Ok(true), "{line}");
    }
}

/// Tells whether this is what is written of a search and these behind it.
fn writes(alloc: Global, behind: &str, last: &str, told: &str) -> Result<bool, AllocError> {
    let text = format!(in alloc; "{behind}{last}")?;
    Ok(is_written(&found_behind(alloc, text.as_bytes()), told))
}

#[test]
fn what_is_told_behind_a_ranged_unit(rt: HostRuntime) {
    for (last, told) in &TOLD {
        assert!(rt;
            writes(rt.alloc(), RANGED, last, told) == Ok(true),
            "{last}"
        );
    }
}

#[test]
fn what_is_told_behind_a_search(rt: HostRuntime) {
    for (last, told) in &TOLD_FOUND {
        assert!(rt; writes(rt.alloc(), "", last, told) == Ok(true), "{last}");
    }
}

#[test]
fn a_long_line(rt: HostRuntime) {
    let found = found_behind(rt.alloc(), &[b'0'; 4_097]);
    assert!(rt; is_verdict(&found, Err(Verdict::TooLong)) && is_written(&found, ""));
    let found = found_behind(rt.alloc(), &[b'0'; 4_096]);
    assert!(rt; is_verdict(&found, Err(Verdict::NotALine)));
}

#[test]
fn no_script(rt: HostRuntime) {
    let shape = CheckFault::Script(RunFault::Script(ScriptFault::Shape));
    assert!(rt; is_found(&found(rt.alloc(), "licences = 1\n", b""), Err(shape)));
}
