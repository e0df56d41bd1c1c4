//! Traces that are told otherwise while they are written.
ghost use Rattle.std.specs.Prelude.{◌≡◌};

use crate::replay::{ONE_UNIT, ONE_UNIT_TRACE};
use crate::streams::ShortWriter;
use gp_explain::{Form, Telling};
use gp_ploam::Mask;
use gp_replay::run_replay;
use gp_stream::{Sink, Source};
use gp_tell::{Began, TellFault, Teller};
use std::alloc::{AllocError, Global};
use std::io::Write;
use std::marker::Brand;

/// How the telling ended, and what the writer below got.
type Told<W> = (Result<(), TellFault>, W);

/// What is told of octets that are written in pieces of so many.
fn told_by<B: Began, W: Write + Drop>(
    alloc: Global,
    telling: Telling,
    octets: &[u8],
    piece: usize,
    writer: W,
) -> Result<Told<W>, AllocError>
    requires manner { telling ≡ B.manner }
    requires held { W.contents writer ≡ B.held }
{
    let mut teller = Teller::<B, W>::new(alloc, telling, writer)?;
    for octets in octets.chunks(piece.max(1)) {
        if teller.write_all(octets).is_err() {
            break;
        }
    }
    let ended = teller.finish();
    Ok((ended, teller.into_inner()))
}

/// What is told of octets.
fn told(
    alloc: Global,
    telling: Telling,
    octets: &[u8],
    piece: usize,
) -> Result<Told<Vec<u8>>, AllocError> {
    told_by::<Brand, Vec<u8>>(alloc, telling, octets, piece, Vec::new(alloc))
}

/// A trace, its form, whether its time is told, and what is told of it.
type Row = (&'static str, Form, bool, &'static str);

const ROWS: [Row; 9] = [
    ("", Form::Words, true, ""),
    (
        "0 7 frame = ok sent ff03004142434400000001001b\n",
        Form::Words,
        false,
        "0 7 frame = ok sent [Assign_ONU-ID 0 ABCD00000001]\n",
    ),
    (
        "0 0 search = searching\n0 1 frame = ok\n1 0 frame = ok\n0 2 frame = ok grant search\n",
        Form::Words,
        true,
        "[frame 0, 0.000 ms] 0 0 search = searching\n[frame 1, 0.125 ms] 0 1 frame = ok\n\
             [frame 1, 0.125 ms] 1 0 frame = ok\n[frame 2, 0.250 ms] 0 2 frame = ok grant search\n",
    ),
    (
        "0 7 frame = ok sent ff03004142434400000001001b\n",
        Form::Plain,
        true,
        "[frame 1, 0.125 ms] 0 7 frame = ok sent ff03004142434400000001001b\n",
    ),
    // of a line that is open nothing is told
    (
        "0 1 frame = ok\n0 2 frame = ok",
        Form::Words,
        false,
        "0 1 frame = ok\n",
    ),
    // what is no line of a trace stays as it is
    (
        "error 3 word\ndone 3\nunit 0 O4 onu 0\n\nx sent ff03004142434400000001001b\n",
        Form::Words,
        true,
        "error 3 word\ndone 3\nunit 0 O4 onu 0\n\nx sent ff03004142434400000001001b\n",
    ),
    // light comes and goes at port 0's time, whatever other ports had
    (
        "unit 0 dark\n0 0 frame = ok\n1 0 frame = ok\n1 1 frame = ok\nunit 1023 light\nunit 7 dark\n",
        Form::Plain,
        true,
        "[frame 0, 0.000 ms] unit 0 dark\n[frame 1, 0.125 ms] 0 0 frame = ok\n\
             [frame 1, 0.125 ms] 1 0 frame = ok\n[frame 2, 0.250 ms] 1 1 frame = ok\n\
             [frame 1, 0.125 ms] unit 1023 light\n[frame 1, 0.125 ms] unit 7 dark\n",
    ),
    (
        "0 0 frame = ok\nunit 3 light\n",
        Form::Words,
        false,
        "0 0 frame = ok\nunit 3 light\n",
    ),
    // a millisecond has eight frames
    (
        "0 0 frame = ok\n0 1 frame = ok\n0 2 frame = ok\n0 3 frame = ok\n0 4 frame = ok\n0 5 frame = ok\n\
             0 6 frame = ok\n0 7 frame = ok\n0 8 frame = ok\n",
        Form::Plain,
        true,
        "[frame 1, 0.125 ms] 0 0 frame = ok\n[frame 2, 0.250 ms] 0 1 frame = ok\n\
             [frame 3, 0.375 ms] 0 2 frame = ok\n[frame 4, 0.500 ms] 0 3 frame = ok\n\
             [frame 5, 0.625 ms] 0 4 frame = ok\n[frame 6, 0.750 ms] 0 5 frame = ok\n\
             [frame 7, 0.875 ms] 0 6 frame = ok\n[frame 8, 1.000 ms] 0 7 frame = ok\n\
             [frame 9, 1.125 ms] 0 8 frame = ok\n",
    ),
];

/// The same as JSON.
const OBJECTS: [Row; 16] = [
    (
        "0 6 burst 100000 ff01414243440000000100002c = found 0\n",
        Form::Json,
        false,
        "{\"port\":0,\"number\":6,\"event\":\"burst\",\"at\":100000,\"code\":\"ff01414243440000000100002c\",\
             \"message\":\"Serial_Number_ONU 255 ABCD00000001 0 0\",\"message_fields\":{\"name\":\"Serial_Number_ONU\",\
             \"onu\":255,\"serial\":\"ABCD00000001\",\"random\":0,\"flags\":0},\"reply\":\"found\",\"onu\":0}\n",
    ),
    (
        "0 7 frame = ok sent ff03004142434400000001001b\n",
        Form::Json,
        true,
        "{\"frames\":1,\"port\":0,\"number\":7,\"event\":\"frame\",\"reply\":\"ok\",\
             \"sent\":\"ff03004142434400000001001b\",\"sent_message\":\"Assign_ONU-ID 0 ABCD00000001\",\
             \"sent_fields\":{\"name\":\"Assign_ONU-ID\",\"onu\":0,\"serial\":\"ABCD00000001\"}}\n",
    ),
    (
        "0 5 frame = ok grant range 0\n",
        Form::Json,
        false,
        "{\"port\":0,\"number\":5,\"event\":\"frame\",\"reply\":\"ok\",\"grant\":\"range\",\"grant_onu\":0}\n",
    ),
    (
        "2 9 frame = ok grant search alarm LOS ABCD00000001\n",
        Form::Json,
        false,
        "{\"port\":2,\"number\":9,\"event\":\"frame\",\"reply\":\"ok\",\"grant\":\"search\",\
             \"alarm\":\"LOS\",\"alarm_serial\":\"ABCD00000001\"}\n",
    ),
    (
        "3 1 burst 5 ff01414243440000000100002d = refused 2 garbled\n",
        Form::Json,
        false,
        "{\"port\":3,\"number\":1,\"event\":\"burst\",\"at\":5,\"code\":\"ff01414243440000000100002d\",\
             \"message\":null,\"message_fields\":null,\"reply\":\"refused\",\"refusal\":2,\"reason\":\"garbled\"}\n",
    ),
    (
        "0 23 dealloc ABCD00000001 256 = releasing 256\n",
        Form::Json,
        false,
        "{\"port\":0,\"number\":23,\"event\":\"dealloc\",\"serial\":\"ABCD00000001\",\"alloc\":256,\
             \"reply\":\"releasing\",\"reply_alloc\":256}\n",
    ),
    (
        "0 11 burst 100000 0001414243440000000100006b = ranged 0 211040\n",
        Form::Json,
        false,
        "{\"port\":0,\"number\":11,\"event\":\"burst\",\"at\":100000,\"code\":\"0001414243440000000100006b\",\
             \"message\":\"Serial_Number_ONU 0 ABCD00000001 0 0\",\"message_fields\":{\"name\":\"Serial_Number_ONU\",\
             \"onu\":0,\"serial\":\"ABCD00000001\",\"random\":0,\"flags\":0},\"reply\":\"ranged\",\"onu\":0,\
             \"eqd\":211040}\n",
    ),
    (
        "error 3 word\n",
        Form::Json,
        true,
        "{\"error\":\"word\",\"line\":3}\n",
    ),
    (
        "0 6 frame = ok\nerror 3 never\ndone 3\ndone 18446744073709551615\n",
        Form::Json,
        false,
        "{\"port\":0,\"number\":6,\"event\":\"frame\",\"reply\":\"ok\"}\n{\"error\":\"never\",\"line\":3}\n\
             {\"done\":3}\n{\"done\":18446744073709551615}\n",
    ),
    // what looks like it
    (
        "done\ndone 03\ndone 3 \ndone x\nDone 3\ndone 3 word\nerror 3\n",
        Form::Json,
        false,
        "{\"line\":\"done\"}\n{\"line\":\"done 03\"}\n{\"line\":\"done 3 \"}\n{\"line\":\"done x\"}\n\
             {\"line\":\"Done 3\"}\n{\"line\":\"done 3 word\"}\n{\"line\":\"error 3\"}\n",
    ),
    // what a simulated unit is
    (
        "unit 0 O2\nunit 1023 O4 onu 253\nunit 7 O5 onu 0 eqd 4294967295\n\
             unit 7 O6 onu 0 eqd 0 dark\nunit 3 O7 dark\n",
        Form::Json,
        true,
        "{\"unit\":0,\"state\":\"O2\",\"light\":true}\n\
             {\"unit\":1023,\"state\":\"O4\",\"onu\":253,\"light\":true}\n\
             {\"unit\":7,\"state\":\"O5\",\"onu\":0,\"eqd\":4294967295,\"light\":true}\n\
             {\"unit\":7,\"state\":\"O6\",\"onu\":0,\"eqd\":0,\"light\":false}\n\
             {\"unit\":3,\"state\":\"O7\",\"light\":false}\n",
    ),
    // what looks like it
    (
        "unit 0\nunit 00 O2\nunit 0 O8\nunit 0 O2 light\nunit 0 O5 eqd 1 onu 0\nunit 0 O4 onu x\nunit 0 O2 dark \n",
        Form::Json,
        false,
        "{\"line\":\"unit 0\"}\n{\"line\":\"unit 00 O2\"}\n{\"line\":\"unit 0 O8\"}\n\
             {\"line\":\"unit 0 O2 light\"}\n{\"line\":\"unit 0 O5 eqd 1 onu 0\"}\n\
             {\"line\":\"unit 0 O4 onu x\"}\n{\"line\":\"unit 0 O2 dark \"}\n",
    ),
    // that light came or went
    (
        "0 0 frame = ok\nunit 0 light\nunit 1023 dark\n",
        Form::Json,
        true,
        "{\"frames\":1,\"port\":0,\"number\":0,\"event\":\"frame\",\"reply\":\"ok\"}\n\
             {\"frames\":1,\"unit\":0,\"light\":true}\n{\"frames\":1,\"unit\":1023,\"light\":false}\n",
    ),
    (
        "unit 7 dark\nunit 7 light\n",
        Form::Json,
        false,
        "{\"unit\":7,\"light\":false}\n{\"unit\":7,\"light\":true}\n",
    ),
    // what looks like it
    (
        "unit light\nunit 07 dark\nunit x light\nunits 7 dark\nunit 7 Dark\nunit 7 light \nunit 7 dark 1\n",
        Form::Json,
        true,
        "{\"line\":\"unit light\"}\n{\"line\":\"unit 07 dark\"}\n{\"line\":\"unit x light\"}\n\
             {\"line\":\"units 7 dark\"}\n{\"line\":\"unit 7 Dark\"}\n{\"line\":\"unit 7 light \"}\n\
             {\"line\":\"unit 7 dark 1\"}\n",
    ),
    // what no trace spells so
    (
        "0 07 frame = ok\nsay \"a\\b\"\t\n",
        Form::Json,
        false,
        "{\"line\":\"0 07 frame = ok\"}\n{\"line\":\"say \\\"a\\\\b\\\"\\u0009\"}\n",
    ),
];

/// Tells whether a row is told so, in pieces of so many octets.
fn is_told(alloc: Global, row: &Row, piece: usize) -> Result<bool, AllocError> {
    let (trace, form, timed, wanted) = *row;
    let telling = Telling::new(alloc, Mask::Plain, form, timed);
    let (ended, written) = told(alloc, telling, trace.as_bytes(), piece)?;
    Ok(ended.is_ok() && written.as_slice() == wanted.as_bytes())
}

/// Whatever pieces the octets come in.
#[test]
fn traces(rt: HostRuntime) -> Result<(), AllocError> {
    for row in &ROWS {
        for piece in [1, 2, 7, 100_000] {
            assert!(rt; is_told(rt.alloc(), row, piece)?, "{}", row.0);
        }
    }
    Ok(())
}

#[test]
fn json(rt: HostRuntime) -> Result<(), AllocError> {
    for row in &OBJECTS {
        assert!(rt; is_told(rt.alloc(), row, 100_000)?, "{}", row.0);
    }
    Ok(())
}

/// A line of a trace with so many spaces behind it, and a line feed or none.
fn line_of(alloc: Global, spaces: usize, ended: bool) -> Result<Vec<u8>, AllocError> {
    let mut text = Vec::from_slice(alloc, b"0 1 frame = ok")?;
    for _ in 0..spaces {
        text.push(b' ')?;
    }
    if ended {
        text.push(b'\n')?;
    }
    Ok(text)
}

/// Tells whether such a line is passed on as it is, or nothing is.
fn is_passed_on(
    alloc: Global,
    spaces: usize,
    ended: bool,
    is_told: bool,
) -> Result<bool, AllocError> {
    let text = line_of(alloc, spaces, ended)?;
    let telling = Telling::new(alloc, Mask::Plain, Form::Words, false);
    let (end, written) = told(alloc, telling, &text, 1_000)?;
    let is_same = written.as_slice() == text.as_slice();
    Ok(end.is_ok() && if is_told { is_same } else { written.is_empty() })
}

/// A line of 4,096 octets is looked at; one more is passed on as it is, also before its line feed.
#[test]
fn long_lines(rt: HostRuntime) -> Result<(), AllocError> {
    for (spaces, ended, is_told) in [
        (4_082, true, true),
        (4_083, true, true),
        (4_082, false, false),
        (4_083, false, true),
    ] {
        assert!(rt;
            is_passed_on(rt.alloc(), spaces, ended, is_told)?,
            "{spaces}"
        );
    }
    Ok(())
}

/// What is told of two lines.
const TOLD: &[u8] = b"0 7 frame = ok sent [Assign_ONU-ID 0 ABCD00000001]\n0 8 frame = ok\n";

/// Tells whether a writer below with so much room has a prefix of what is told, and where it fails that is told.
fn is_cut_at(alloc: Global, room: usize) -> Result<bool, AllocError> {
    let trace = b"0 7 frame = ok sent ff03004142434400000001001b\n0 8 frame = ok\n";
    let telling = Telling::new(alloc, Mask::Plain, Form::Words, false);
    let writer = ShortWriter {
        taken: Vec::new(alloc),
        room,
        fails: true,
    };
    let (ended, writer) = told_by::<Brand, ShortWriter>(alloc, telling, trace, 9, writer)?;
    Ok(
        ended.is_err() == (room < TOLD.len())
            && TOLD.starts_with(&writer.taken)
            && writer.taken.len() == room.min(TOLD.len()),
    )
}

/// A writer below that fails has a prefix of what is told, and the fault stays.
#[test]
fn a_write_below_fails(rt: HostRuntime) -> Result<(), AllocError> {
    for room in 0..=TOLD.len() {
        assert!(rt; is_cut_at(rt.alloc(), room)?, "{room}");
    }
    Ok(())
}

/// How a replay ended whose trace is told, how the telling did, and what the writer below got.
fn replayed<B: Began, W: Write + Drop>(
    alloc: Global,
    telling: Telling,
    script: &[u8],
    writer: W,
) -> Result<(bool, Told<W>), AllocError>
    requires manner { telling ≡ B.manner }
    requires held { W.contents writer ≡ B.held }
{
    let teller = Teller::<B, W>::new(alloc, telling, writer)?;
    let mut sink = Sink::new(alloc, teller)?;
    let outcome = run_replay(alloc, &mut Source::new(script), &mut sink);
    let mut teller = sink.into_inner();
    let ended = teller.finish();
    Ok((outcome.is_ok(), (ended, teller.into_inner())))
}

/// Tells whether a replay that is told is played to its end, and has the words of its trace.
fn is_replayed_in_words(alloc: Global) -> Result<bool, AllocError> {
    let telling = Telling::new(alloc, Mask::Plain, Form::Words, true);
    let script = ONE_UNIT.as_bytes();
    let (is_played, (ended, by_replay)) = replayed::<Brand, Vec<u8>>(
        alloc,
        telling,
        script,
        Vec::new(alloc),
    )?;
    let telling = Telling::new(alloc, Mask::Plain, Form::Words, true);
    let (_, of_trace) = told(alloc, telling, ONE_UNIT_TRACE.as_bytes(), 1_000)?;
    let is_same = by_replay.as_slice() == of_trace.as_slice();
    Ok(is_played && ended.is_ok() && is_same && !by_replay.is_empty())
}

#[test]
fn a_replay_in_words(rt: HostRuntime) {
    assert!(rt; is_replayed_in_words(rt.alloc()) == Ok(true));
}
