//! Every span and mark stands for something that a line says, and none is left out: counted against the input.
use crate::drawn::{ALL, codes_of, count_of, drawn, drawn_with_sum};
use gp_explain::ExplainFault;
use gp_picture::{Codes, Frames};
use gp_ploam::Mask;
use std::alloc::{AllocError, Global};

/// The trace of a unit that is lost with LOS, found again, and gasps with a burst.
const TRACE: &'static str = "\
0 0 search = searching\n\
0 1 frame = ok\n\
0 2 frame = ok sent ff010000000000000000000058\n\
0 3 frame = ok sent ff010000000000000000000058\n\
0 4 frame = ok sent ff010000000000000000000058\n\
0 5 frame = ok grant search\n\
0 6 burst 100000 ff01414243440000000100002c = found 0\n\
0 7 frame = ok sent ff03004142434400000001001b\n\
0 8 frame = ok sent ff03004142434400000001001b\n\
0 9 frame = ok sent ff03004142434400000001001b\n\
0 10 frame = ok grant range 0\n\
0 11 burst 100000 0001414243440000000100006b = ranged 0 211040\n\
0 12 frame = ok sent 0004000003386000000000009c\n\
0 13 frame = ok sent 0004000003386000000000009c\n\
0 14 frame = ok sent 0004000003386000000000009c\n\
0 15 frame = ok\n\
0 16 frame = ok grant poll 0\n\
0 17 frame = ok\n\
0 18 frame = ok\n\
0 19 frame = ok\n\
0 20 alloc ABCD00000001 = allocated 256\n\
0 21 frame = ok sent 000a1000010000000000000047\n\
0 22 frame = ok sent 000a1000010000000000000047\n\
0 23 frame = ok sent 000a1000010000000000000047\n\
0 24 frame = ok grant poll 0\n\
0 25 frame = ok\n\
0 26 frame = ok\n\
0 27 frame = ok\n\
0 28 frame = ok grant poll 0\n\
0 29 frame = ok\n\
0 30 frame = ok\n\
0 31 frame = ok\n\
0 32 frame = ok grant poll 0\n\
0 33 frame = ok\n\
0 34 frame = ok\n\
0 35 frame = ok alarm LOS ABCD00000001\n\
0 36 frame = ok sent 00050000000000000000000063\n\
0 37 frame = ok sent 00050000000000000000000063\n\
0 38 frame = ok sent 00050000000000000000000063\n\
0 39 frame = ok\n\
0 40 search = searching\n\
0 41 frame = ok\n\
0 42 frame = ok sent ff010000000000000000000058\n\
0 43 frame = ok sent ff010000000000000000000058\n\
0 44 frame = ok sent ff010000000000000000000058\n\
0 45 frame = ok grant search\n\
0 46 burst 100000 ff01414243440000000100002c = found 1\n\
0 47 frame = ok sent ff030141424344000000010073\n\
0 48 frame = ok sent ff030141424344000000010073\n\
0 49 frame = ok sent ff030141424344000000010073\n\
0 50 frame = ok grant range 1\n\
0 51 burst 100000 01014142434400000001000036 = ranged 1 211040\n\
0 52 alloc ABCD00000001 = allocated 256\n\
0 53 frame = ok sent 010400000338600000000000c1\n\
0 54 frame = ok sent 010400000338600000000000c1\n\
0 55 frame = ok sent 010400000338600000000000c1\n\
0 56 frame = ok sent 010a100001000000000000001a\n\
0 57 frame = ok sent 010a100001000000000000001a\n\
0 58 frame = ok sent 010a100001000000000000001a\n\
0 59 frame = ok\n\
0 60 burst 100000 0103000000000000000000007c = gasp 1 alarm DG ABCD00000001\n\
";

/// A log in which two units have one ONU-ID.
const LOG: &'static str = "\
0 down ff010000000000000000000058\n\
1 down ff010000000000000000000058\n\
2 down ff010000000000000000000058\n\
3 grant search\n\
4 up ff01414243440000000100002c 10000\n\
4 up ff0148575443000012ab0000cb 20000\n\
5 down ff0303414243440000000100a3\n\
6 down ff0303414243440000000100a3\n\
7 down ff0303414243440000000100a3\n\
8 down ff030348575443000012ab0082\n\
9 down ff030348575443000012ab0082\n\
10 down ff030348575443000012ab0082\n\
11 grant range 3\n\
12 up 0301414243440000000100008c 10000\n\
12 up 030148575443000012ab00006b 20000\n\
13 down 030400000497f00000000000a2\n\
14 down 030400000497f00000000000a2\n\
15 down ff06ff41424344000000010055\n\
";

/// The second, the fourth and the last line come too late at their ports.
const FALLS: &'static str = "\
9 down ff010000000000000000000058\n\
8 down ff010000000000000000000058\n\
1 3 down ff010000000000000000000058\n\
7 grant poll 9\n\
9 down ff010000000000000000000058\n\
1 2 down ff010000000000000000000058\n\
";

/// The code of the first line is right under mask 85 alone, that of the second under none, and that of the last under 0.
const MIXED: &'static str = "\
0 0 frame = ok sent ff01000000000000000000000d\n\
0 1 burst 100000 ff01414243440000000100002d = refused 2 garbled\n\
# a remark\n\
0 2 frame = ok grant search\n\
0 3 frame = ok sent ff010000000000000000000058 grant search\n\
";

/// Gives how many lines of a text hold these words.
fn lines_with(text: &str, words: &str) -> u64 {
    let mut count = 0u64;
    for line in text.split('\n') {
        if line.contains(words) {
            count = count.saturating_add(1);
        }
    }
    count
}

#[test]
fn the_spans_of_a_trace(rt: HostRuntime) -> Result<(), ExplainFault> {
    let picture = drawn(rt.alloc(), TRACE.as_bytes(), ALL)?;
    let text = picture.as_slice();
    assert_eq!(rt; count_of(text, "k"), lines_with(TRACE, " = found "));
    assert_eq!(rt; count_of(text, "r"), lines_with(TRACE, " = found "));
    assert_eq!(rt; count_of(text, "o"), lines_with(TRACE, " = ranged "));
    assert_eq!(rt; count_of(text, "x"), 1);
    Ok(())
}

#[test]
fn the_marks_of_a_trace(rt: HostRuntime) -> Result<(), ExplainFault> {
    let picture = drawn(rt.alloc(), TRACE.as_bytes(), ALL)?;
    let text = picture.as_slice();
    assert_eq!(rt; count_of(text, "w"), lines_with(TRACE, " grant poll "));
    assert_eq!(rt; count_of(text, "a"), lines_with(TRACE, " alarm "));
    assert_eq!(rt; count_of(text, "f"), 0);
    Ok(())
}

#[test]
fn the_marks_of_a_log(rt: HostRuntime) -> Result<(), ExplainFault> {
    let picture = drawn(rt.alloc(), LOG.as_bytes(), ALL)?;
    let text = picture.as_slice();
    // what an audit of it tells
    assert_eq!(rt; count_of(text, "f"), 4);
    assert_eq!(rt; count_of(text, "w"), 0);
    assert_eq!(rt; count_of(text, "k"), 2);
    Ok(())
}

#[test]
fn times_that_fall(rt: HostRuntime) -> Result<(), ExplainFault> {
    let (picture, sum) = drawn_with_sum(rt.alloc(), FALLS.as_bytes(), ALL)?;
    // the poll, which is of nobody, is not heard
    assert_eq!(rt; count_of(picture.as_slice(), "f"), 3);
    assert_eq!(rt; [sum.lines, sum.fallen], [6, 3]);
    let (cut, sum) = drawn_with_sum(rt.alloc(), FALLS.as_bytes(), Frames { from: 0, to: 5 })?;
    // those that are not drawn are counted too
    assert_eq!(rt; count_of(cut.as_slice(), "f"), 1);
    assert_eq!(rt; [sum.lines, sum.fallen], [6, 3]);
    Ok(())
}

#[test]
fn codes_that_are_garbled(rt: HostRuntime) -> Result<(), ExplainFault> {
    // each code counts: of lines that fall, and of frames that are not drawn
    let none = codes_of(rt.alloc(), FALLS, ALL, Mask::Plain)?;
    assert_eq!(rt;
        none,
        Codes {
            came: 5,
            garbled: 0
        }
    );
    let later = Frames { from: 20, to: 30 };
    let all = codes_of(rt.alloc(), FALLS, later, Mask::Coset)?;
    assert_eq!(rt;
        all,
        Codes {
            came: 5,
            garbled: 5
        }
    );
    for mask in [Mask::Plain, Mask::Coset] {
        let some = codes_of(rt.alloc(), MIXED, ALL, mask)?;
        assert_eq!(rt;
            some,
            Codes {
                came: 3,
                garbled: 2
            }
        );
    }
    let grants = codes_of(rt.alloc(), "1 grant search\n", ALL, Mask::Coset)?;
    assert_eq!(rt; grants, Codes::none());
    Ok(())
}

/// Gives a log of so many poll windows of nobody, four frames apart, of two ports in turn.
fn polls(alloc: Global, windows: u64) -> Result<String, AllocError> {
    let mut log = String::new(alloc);
    for number in 0..windows {
        let port = number % 2;
        let time = number.saturating_mul(4);
        write!(log, "{port} {time} grant poll 7\n")?;
    }
    Ok(log)
}

#[test]
fn more_marks_than_are_kept(rt: HostRuntime) -> Result<(), ExplainFault> {
    let log = polls(rt.alloc(), 5_002)?;
    let picture = drawn(rt.alloc(), log.as_bytes(), ALL)?;
    let text = picture.as_slice();
    // each of them breaks a rule, and all but the last of each port were seen to close
    assert_eq!(rt; count_of(text, "f"), 5_002);
    assert_eq!(rt; count_of(text, "w"), 5_000);
    assert!(rt; text.len() < 1_000_000);
    Ok(())
}
