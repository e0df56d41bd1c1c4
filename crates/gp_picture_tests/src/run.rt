//! A short run, element by element.
use crate::drawn::{ALL, count_of, drawn, holds};
use gp_explain::{ExplainFault, NoLine};
use gp_picture::Frames;

/// A unit is found, ranged, polled without an answer, lost with an alarm, and removed.
const RUN: &'static str = "\
2 0 frame = ok grant search\n\
2 1 burst 100000 ff01414243440000000100002c = found 0\n\
2 2 frame = ok sent ff03004142434400000001001b\n\
2 3 frame = ok sent ff03004142434400000001001b\n\
2 4 frame = ok sent ff03004142434400000001001b\n\
2 5 frame = ok grant range 0\n\
2 6 burst 100000 0001414243440000000100006b = ranged 0 211040\n\
2 7 frame = ok sent 0004000003386000000000009c\n\
2 8 frame = ok sent 0004000003386000000000009c\n\
2 9 frame = ok sent 0004000003386000000000009c\n\
2 10 frame = ok grant poll 0\n\
2 11 frame = ok\n\
2 12 frame = ok\n\
2 13 frame = ok alarm LOS ABCD00000001\n\
2 14 frame = ok sent 00050000000000000000000063\n\
2 15 frame = ok sent 00050000000000000000000063\n\
2 16 frame = ok sent 00050000000000000000000063\n\
2 17 frame = ok\n\
2 18 frame = ok\n\
2 19 frame = ok\n\
2 20 frame = ok\n\
2 21 frame = ok\n\
";

/// What is drawn of it: of the frames 1 to 20 each has 50 units.
const DRAWN: [&'static str; 6] = [
    "<rect class=\"k\" x=\"0\" y=\"48\" width=\"50\" height=\"12\"><title>asking, line 2: 2 1 burst 100000 ff01414243440000000100002c = found 0</title></rect>\n",
    "<rect class=\"r\" x=\"50\" y=\"48\" width=\"200\" height=\"12\"><title>ranging with ONU-ID 0, line 3: 2 2 frame = ok sent ff03004142434400000001001b</title></rect>\n",
    "<rect class=\"o\" x=\"250\" y=\"48\" width=\"350\" height=\"12\"><title>operating with ONU-ID 0, line 8: ",
    "<rect class=\"x\" x=\"600\" y=\"48\" width=\"400\" height=\"12\"><title>removed by Deactivate_ONU-ID, line 15: 2 14 frame = ok sent 00050000000000000000000063</title></rect>\n<text class=\"t\" x=\"606\" y=\"48\" dy=\"10\">Deactivate_ONU-ID</text>\n",
    "<rect class=\"w\" x=\"400\" y=\"16\" width=\"150\" height=\"12\"><title>poll 0, line 11: 2 10 frame = ok grant poll 0</title></rect>\n<text class=\"l\" x=\"554\" y=\"16\" dy=\"10\">poll 0</text>\n",
    "<rect class=\"a\" x=\"550\" y=\"32\" width=\"4\" height=\"12\"><title>LOS, line 14: 2 13 frame = ok alarm LOS ABCD00000001</title></rect>\n",
];

/// The frames in which it is polled, and the one before them.
const POLLED: Frames = Frames { from: 8, to: 12 };

#[test]
fn a_run(rt: HostRuntime) -> Result<(), ExplainFault> {
    let picture = drawn(rt.alloc(), RUN.as_bytes(), ALL)?;
    for element in DRAWN {
        assert!(rt; holds(picture.as_slice(), element), "{element}");
    }
    Ok(())
}

/// A window that nobody answers, and nothing more for long.
const GAP: &'static str = "1 grant poll 3\n100 down ff010000000000000000000058\n";

#[test]
fn a_window_before_a_gap(rt: HostRuntime) -> Result<(), ExplainFault> {
    let picture = drawn(rt.alloc(), GAP.as_bytes(), ALL)?;
    assert!(rt;
        holds(
            picture.as_slice(),
            "<rect class=\"w\" x=\"0\" y=\"16\" width=\"30\""
        )
    );
    let cut = drawn(rt.alloc(), GAP.as_bytes(), Frames { from: 0, to: 3 })?;
    assert!(rt; !holds(cut.as_slice(), "<rect class=\"w\" x=\"0\""));
    Ok(())
}

#[test]
fn some_frames(rt: HostRuntime) -> Result<(), ExplainFault> {
    let picture = drawn(rt.alloc(), RUN.as_bytes(), POLLED)?;
    let text = picture.as_slice();
    assert!(rt; holds(text, "<rect class=\"o\" x=\"0\" y=\"48\" width=\"1000\""));
    assert!(rt; holds(text, "<rect class=\"w\" x=\"200\" y=\"16\" width=\"600\""));
    assert!(rt; holds(text, ">8</text>") && holds(text, ">12</text>"));
    assert_eq!(rt;
        [
            count_of(text, "k"),
            count_of(text, "r"),
            count_of(text, "x")
        ],
        [0, 0, 0]
    );
    Ok(())
}

#[test]
fn a_line_that_is_none(rt: HostRuntime) {
    let text = b"0 0 search = searching\n\n0 1 frmae = ok\n";
    let refused = ExplainFault::Refused {
        line: 3,
        why: NoLine::NotALine,
    };
    match drawn(rt.alloc(), text, ALL) {
        Ok(_) => assert!(rt; false),
        Err(fault) => assert_eq!(rt; fault, refused),
    }
}
