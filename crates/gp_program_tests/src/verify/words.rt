//! What is told of a trace in words, and where the output takes no more of what is told at the end.
use super::{FOUND, Found, RANGED, SCRIPT, SEARCH, is_found, is_written, told};
use crate::streams::ShortWriter;
use gp_explain::Form;
use gp_flow::{LinesFault, Unanswered};
use gp_stream::{Sink, Source};
use gp_verify::{CheckFault, VerifyFault, verify_told};
use std::alloc::{AllocError, Global};

/// What comes behind a search, and what is told of the whole, in words.
const ROWS: [(&str, &str); 8] = [
    ("", "6 lines, a run\n"),
    (FOUND, "7 lines, a run\n"),
    (
        "0 6 burst 100000 ff01414243440000000100002c = found 254\n",
        "line 7: 0 6 burst 100000 [Serial_Number_ONU 255 ABCD00000001 0 0] = found 254\n\
machine: 0 6 burst 100000 [Serial_Number_ONU 255 ABCD00000001 0 0] = found 0\n\
any free ONU-ID would do\n\
why: the reply: `found 0`, not `found 254`\n",
    ),
    (
        "0 6 burst 100000 ff01414243440000000100002d = found 0\n",
        "line 7: 0 6 burst 100000 [garbled ff01414243440000000100002d] = found 0\n\
machine: 0 6 burst 100000 [garbled ff01414243440000000100002d] = refused 2 garbled\n\
why: the reply: `refused 2 garbled`, not `found 0`\n",
    ),
    (
        "1 0 burst 5 ff01414243440000000100002c = stray\n",
        "line 7: 1 0 burst 5 [Serial_Number_ONU 255 ABCD00000001 0 0] = stray\n\
why: the port: the last of the script is 0\n",
    ),
    (
        "burst 5 ff01414243440000000100002c\n",
        "line 7: burst 5 ff01414243440000000100002c\nwhy: the port: a line begins with one, 0 to 15\n",
    ),
    (
        "0 7 frame = ok\n",
        "line 7: 0 7 frame = ok\nmachine: 0 6 frame = ok\n\
why: the number: `6` is next, not `7`\n",
    ),
    ("0 6 frame = ok", ""),
];

/// Tells whether this is told of a search and these behind it, in a form.
fn tells(
    alloc: Global,
    form: Form,
    behind: &str,
    last: &str,
    wanted: &str,
) -> Result<bool, AllocError> {
    let text = format!(in alloc; "{SEARCH}{behind}{last}")?;
    let found = told(alloc, form, None, SCRIPT, text.as_bytes());
    Ok(is_written(&found, wanted))
}

#[test]
fn lines_in_words(rt: HostRuntime) {
    for (last, wanted) in &ROWS {
        let is_so = tells(rt.alloc(), Form::Words, "", last, wanted);
        assert!(rt; is_so == Ok(true), "{last}");
    }
}

/// A line whose message isn't the one that is owed, what is told of it in words, and as it is.
const OTHER_SENT: &str = "0 7 frame = ok sent ff030141424344000000010073\n";

const IN_WORDS: &str = "line 8: 0 7 frame = ok sent [Assign_ONU-ID 1 ABCD00000001]\n\
machine: 0 7 frame = ok sent [Assign_ONU-ID 0 ABCD00000001]\n\
why: the message sent: the first copy of `Assign_ONU-ID 0 ABCD00000001` is owed, \
not `Assign_ONU-ID 1 ABCD00000001`\n";

const AS_IT_IS: &str = "line 8: 0 7 frame = ok sent ff030141424344000000010073\n\
machine: 0 7 frame = ok sent ff03004142434400000001001b\n\
why: the message sent: the first copy of `Assign_ONU-ID 0 ABCD00000001` is owed, \
not `Assign_ONU-ID 1 ABCD00000001`\n";

/// The code of a message that is sent is told as one of the line terminal.
#[test]
fn sent_in_words(rt: HostRuntime) {
    let in_words = tells(rt.alloc(), Form::Words, FOUND, OTHER_SENT, IN_WORDS);
    assert!(rt; in_words == Ok(true));
    let as_it_is = tells(rt.alloc(), Form::Plain, FOUND, OTHER_SENT, AS_IT_IS);
    assert!(rt; as_it_is == Ok(true));
}

/// Tells whether a run of six lines, where seven are asked for, is found, and nothing is told.
fn is_run_untold(alloc: Global, form: Form) -> bool {
    let found = told(alloc, form, Some(7), SCRIPT, SEARCH.as_bytes());
    is_found(&found, Ok(6)) && is_written(&found, "")
}

/// A run is told as one as it is, too, and of one of too few lines nothing.
#[test]
fn runs_as_they_are(rt: HostRuntime) {
    assert!(rt; tells(rt.alloc(), Form::Plain, "", RANGED, "16 lines, a run\n") == Ok(true));
    assert!(rt; is_run_untold(rt.alloc(), Form::Plain));
    assert!(rt; is_run_untold(rt.alloc(), Form::Words));
}

/// How a telling of too few lines ends whose output has so much room, and what it takes.
fn told_to(alloc: Global, room: usize) -> Result<Found, AllocError> {
    let mut script = Source::new(SCRIPT.as_bytes());
    let mut trace = Source::endless(SEARCH.as_bytes());
    let writer = ShortWriter {
        taken: Vec::new(alloc),
        room,
        fails: true,
    };
    let mut sink = Sink::new(alloc, writer)?;
    let outcome = verify_told(
        alloc,
        Form::Json,
        Some(7),
        &mut script,
        &mut trace,
        &mut sink,
    );
    Ok((outcome, sink.into_inner().taken))
}

/// What is told of a run of six lines where seven are wanted.
const TOO_FEW: &[u8] = b"{\"run\":false,\"kind\":\"too few lines\",\"lines\":6,\"wanted\":7}\n";

/// Tells whether an output with so much room has a prefix of what is told, and where that is not all it is answered.
fn is_cut_at(found: &Found, room: usize) -> bool {
    let stopped = LinesFault::Line(Unanswered::Write);
    let outcome = if room < TOO_FEW.len() {
        Err(CheckFault::Trace(VerifyFault::Lines(stopped)))
    } else {
        Ok(6)
    };
    found.0 == outcome && TOO_FEW.get(..room) == Some(found.1.as_slice())
}

/// Where the output takes no more that is answered, and it has a prefix of what is told.
#[test]
fn an_end_that_is_not_written(rt: HostRuntime) -> Result<(), AllocError> {
    for room in 0..=TOO_FEW.len() {
        let found = told_to(rt.alloc(), room)?;
        assert!(rt; is_cut_at(&found, room), "{room}");
    }
    Ok(())
}
