//! Traces in words.
use gp_explain::{ExplainFault, Form, NoLine, Telling, explain_trace};
use gp_ploam::Mask;
use gp_stream::{Sink, Source};
use std::alloc::{AllocError, Global};

/// A trace, its mask, what is written of it, and how it ends.
type Row = (&'static str, Mask, &'static str, Result<u64, ExplainFault>);

/// The second line is none of a trace.
const NO_SECOND_LINE: Result<u64, ExplainFault> = Err(ExplainFault::Refused {
    line: 2,
    why: NoLine::NotALine,
});

const ROWS: [Row; 10] = [
    ("", Mask::Plain, "", Ok(0)),
    (
        "0 7 frame = ok sent ff03004142434400000001001b\n",
        Mask::Plain,
        "0 7 frame = ok sent [Assign_ONU-ID 0 ABCD00000001]\n",
        Ok(1),
    ),
    (
        "0 6 burst 100000 ff01414243440000000100002c = found 0\n0 7 frame = ok grant range 0\n",
        Mask::Plain,
        "0 6 burst 100000 [Serial_Number_ONU 255 ABCD00000001 0 0] = found 0\n0 7 frame = ok grant range 0\n",
        Ok(2),
    ),
    // digits in upper case, zeros in front of a number, and no line feed behind the last line
    (
        "0 006 burst 0100000 FF01414243440000000100002C = found 0",
        Mask::Plain,
        "0 006 burst 0100000 [Serial_Number_ONU 255 ABCD00000001 0 0] = found 0\n",
        Ok(1),
    ),
    // a check octet that is wrong, and one that is so under this mask
    (
        "3 1 burst 5 ff01414243440000000100002d = refused 2 garbled\n",
        Mask::Plain,
        "3 1 burst 5 [garbled ff01414243440000000100002d] = refused 2 garbled\n",
        Ok(1),
    ),
    (
        "0 7 frame = ok sent ff03004142434400000001001b grant range 0\n",
        Mask::Coset,
        "0 7 frame = ok sent [garbled ff03004142434400000001001b] grant range 0\n",
        Ok(1),
    ),
    (
        "0 7 frame = ok sent ff03004142434400000001004e alarm LOS ABCD00000001\n",
        Mask::Coset,
        "0 7 frame = ok sent [Assign_ONU-ID 0 ABCD00000001] alarm LOS ABCD00000001\n",
        Ok(1),
    ),
    (
        "0 0 search = searching\n\n0 1 frame = ok\n",
        Mask::Plain,
        "0 0 search = searching\n",
        NO_SECOND_LINE,
    ),
    // what a drive says beside its trace is none
    (
        "0 0 search = searching\ndone 1\n",
        Mask::Plain,
        "0 0 search = searching\n",
        NO_SECOND_LINE,
    ),
    (
        "0 0 search = searching\n0 1 burst 0 ff = ok\n",
        Mask::Plain,
        "0 0 search = searching\n",
        NO_SECOND_LINE,
    ),
];

/// How a trace is told in words, and what is written.
fn explained(
    alloc: Global,
    text: &[u8],
    mask: Mask,
) -> Result<(Result<u64, ExplainFault>, Vec<u8>), AllocError> {
    let mut source = Source::endless(text);
    let mut sink = Sink::new(alloc, Vec::new(alloc))?;
    let telling = Telling::new(alloc, mask, Form::Words, false);
    let outcome = explain_trace(alloc, telling, &mut source, &mut sink);
    Ok((outcome, sink.into_inner()))
}

/// Tells whether a row is told so.
fn is_row(alloc: Global, row: &Row) -> Result<bool, AllocError> {
    let (text, mask, words, wanted) = *row;
    let (outcome, written) = explained(alloc, text.as_bytes(), mask)?;
    Ok(outcome == wanted && written.as_slice() == words.as_bytes())
}

#[test]
fn traces(rt: HostRuntime) {
    for row in &ROWS {
        assert!(rt; is_row(rt.alloc(), row) == Ok(true), "{}", row.0);
    }
}

/// How a line with so many spaces behind it is told.
fn outcome_with(alloc: Global, spaces: usize) -> Result<Result<u64, ExplainFault>, AllocError> {
    let mut text = Vec::from_slice(alloc, b"0 1 frame = ok")?;
    for _ in 0..spaces {
        text.push(b' ')?;
    }
    let (outcome, _) = explained(alloc, &text, Mask::Plain)?;
    Ok(outcome)
}

/// The longest line that is looked at has 4,096 octets; one more is too long.
#[test]
fn long_lines(rt: HostRuntime) {
    let too_long = Err(ExplainFault::Refused {
        line: 1,
        why: NoLine::TooLong,
    });
    assert!(rt; outcome_with(rt.alloc(), 4_082) == Ok(Ok(1)));
    assert!(rt; outcome_with(rt.alloc(), 4_083) == Ok(too_long));
}
