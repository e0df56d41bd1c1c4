//! Traces written as logs.
use gp_explain::{ExplainFault, NoLine};
use gp_log::{LogLine, read_line};
use gp_stream::{Sink, Source};
use gp_transcribe::transcribe_trace;
use std::alloc::{AllocError, Global};

/// The trace of one unit that is found and ranged.
const ONE_UNIT_TRACE: &'static str = "\
0 0 search = searching
0 1 frame = ok
0 2 frame = ok sent ff010000000000000000000058
0 3 frame = ok sent ff010000000000000000000058
0 4 frame = ok sent ff010000000000000000000058
0 5 frame = ok grant search
0 6 burst 100000 ff01414243440000000100002c = found 0
0 7 frame = ok sent ff03004142434400000001001b
0 8 frame = ok sent ff03004142434400000001001b
0 9 frame = ok sent ff03004142434400000001001b
0 10 frame = ok grant range 0
0 11 burst 100000 0001414243440000000100006b = ranged 0 211040
0 12 frame = ok sent 0004000003386000000000009c
0 13 frame = ok sent 0004000003386000000000009c
0 14 frame = ok sent 0004000003386000000000009c
0 15 frame = ok
";

/// What the fibre of one unit carries, as a log.
const ONE_UNIT_LOG: &'static str = "\
0 2 down ff010000000000000000000058
0 3 down ff010000000000000000000058
0 4 down ff010000000000000000000058
0 5 grant search
0 5 up ff01414243440000000100002c 100000
0 6 down ff03004142434400000001001b
0 7 down ff03004142434400000001001b
0 8 down ff03004142434400000001001b
0 9 grant range 0
0 9 up 0001414243440000000100006b 100000
0 10 down 0004000003386000000000009c
0 11 down 0004000003386000000000009c
0 12 down 0004000003386000000000009c
";

/// A trace, what is written of it, and how it ends.
type Row = (&'static str, &'static str, Result<u64, ExplainFault>);

/// A line that is none of a trace.
const fn refused(line: u64) -> Result<u64, ExplainFault> {
    Err(ExplainFault::Refused {
        line,
        why: NoLine::NotALine,
    })
}

fn rows() -> [Row; 14] {
    [
        ("", "", Ok(0)),
        (ONE_UNIT_TRACE, ONE_UNIT_LOG, Ok(16)),
        // each port has its own frames, and what was sent stands before what was granted
        (
            "1 0 frame = ok\n15 0 frame = ok sent ff010000000000000000000058 grant poll 7\n1 1 frame = ok grant range 253\n",
            "15 1 down ff010000000000000000000058\n15 1 grant poll 7\n1 2 grant range 253\n",
            Ok(3),
        ),
        // before the first frame the time is 0; a command says nothing, nor does an alarm
        (
            "0 0 search = searching\n0 1 burst 4294967295 ff01414243440000000100002c = refused 3 unheard\n0 2 frame = ok alarm LOS ABCD00000001\n",
            "0 0 up ff01414243440000000100002c 4294967295\n",
            Ok(3),
        ),
        // whatever the check octet is; digits in upper case, zeros in front of a number, no line feed at the end
        (
            "0 006 burst 0100 FF01414243440000000100002D = refused 2 garbled",
            "0 0 up ff01414243440000000100002d 100\n",
            Ok(1),
        ),
        // a carriage return at the end of a line
        (
            "0 0 frame = ok grant search\r\n0 1 frame = ok\r\n",
            "0 1 grant search\n",
            Ok(2),
        ),
        // an empty line, a remark, a line of a log, what is none, one that is cut off
        (
            "0 0 frame = ok grant search\n\n",
            "0 1 grant search\n",
            refused(2),
        ),
        ("# begin\n0 0 frame = ok\n", "", refused(1)),
        (
            "0 0 frame = ok grant search\n0 2 grant search\n",
            "0 1 grant search\n",
            refused(2),
        ),
        ("0 0 search = searching\ndone 1\n", "", refused(2)),
        ("0 0 frame = ok\n16 0 frame = ok\n", "", refused(2)),
        (
            "0 0 frame = ok grant search\n0 1 frame\n",
            "0 1 grant search\n",
            refused(2),
        ),
        // an answer to a frame that can't be read
        (
            "0 0 frame = ok grant search\n0 1 frame = late\n0 2 frame = ok\n",
            "0 1 grant search\n",
            refused(2),
        ),
        ("0 0 frame = ok sent ff01\n", "", refused(1)),
    ]
}

/// What is written of a trace, and how it ends.
fn transcribed(
    alloc: Global,
    trace: &[u8],
) -> Result<(Result<u64, ExplainFault>, Vec<u8>), AllocError> {
    let mut source = Source::endless(trace);
    let mut sink = Sink::new(alloc, Vec::new(alloc))?;
    let outcome = transcribe_trace(alloc, &mut source, &mut sink);
    Ok((outcome, sink.into_inner()))
}

#[test]
fn traces(rt: HostRuntime) -> Result<(), AllocError> {
    for (trace, log, wanted) in rows() {
        let (outcome, written) = transcribed(rt.alloc(), trace.as_bytes())?;
        assert_eq!(rt; outcome, wanted, "{trace}");
        assert!(rt; written.as_slice() == log.as_bytes(), "{trace}");
    }
    Ok(())
}

/// The longest line that is looked at has 4,096 octets; one more is too long.
#[test]
fn long_lines(rt: HostRuntime) -> Result<(), AllocError> {
    let too_long = Err(ExplainFault::Refused {
        line: 1,
        why: NoLine::TooLong,
    });
    for (spaces, log, wanted) in [(4_069, "0 1 grant search\n", Ok(1)), (4_070, "", too_long)] {
        let mut text = Vec::new(rt.alloc());
        text.extend_from_slice(b"0 1 frame = ok grant search")?;
        text.resize(27 + spaces, b' ')?;
        let (outcome, written) = transcribed(rt.alloc(), text.as_slice())?;
        assert_eq!(rt; outcome, wanted);
        assert!(rt; written.as_slice() == log.as_bytes());
    }
    Ok(())
}

/// Each line that is written is one of a log.
#[test]
fn lines_that_are_read(rt: HostRuntime) -> Result<(), AllocError> {
    for line in ONE_UNIT_LOG.lines() {
        let read = matches!(read_line(line.as_bytes()), Ok(LogLine::Log { port: 0, .. }));
        assert!(rt; read, "{line}");
    }
    Ok(())
}
