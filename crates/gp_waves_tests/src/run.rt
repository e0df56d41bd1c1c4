//! A short run, change by change.
use crate::dumped::{ALL, Count, dumped, has_count, is_sum};
use crate::parsed::{Wanted, parse};
use gp_waves::Frames;
use std::alloc::{AllocError, Global};

/// A unit is found and ranged, then polled without an answer, lost with an alarm, and removed.
pub(crate) const RUN: &'static str = "\
2 0 frame = ok grant search\n\
2 1 burst 100000 ff01414243440000000100002c = found 0\n\
2 2 frame = ok sent ff03004142434400000001001b\n\
2 3 frame = ok grant range 0\n\
2 4 burst 100000 0001414243440000000100006b = ranged 0 211040\n\
2 5 frame = ok sent 0004000003386000000000009c\n\
2 6 frame = ok grant poll 0\n\
2 7 frame = ok\n\
2 8 frame = ok\n\
2 9 frame = ok alarm LOS ABCD00000001\n\
2 10 frame = ok sent 00050000000000000000000063\n\
";

/// Its dump: `ABCD` is 41424344, 100000 is 186a0, 211040 is 33860 in hexadecimal digits.
pub(crate) const DUMP: &'static str = "\
$timescale 1 ns $end\n\
$comment grant, window: 1 search, 2 range, 3 poll; alarm: 1 LOS, 2 LOAM, 3 LOA, 4 SUF, 5 DF, 6 DG; state: 0 removed, 1 asking, 2 ranging, 3 operating; z: none $end\n\
$scope module port2 $end\n\
$var wire 1 cf frame $end\n\
$var reg 104 cs sent $end\n\
$var reg 8 cg grant $end\n\
$var reg 8 ca asked $end\n\
$var reg 8 cw window $end\n\
$var reg 104 cb burst $end\n\
$var reg 32 cd delay $end\n\
$var reg 8 cl alarm $end\n\
$scope module unit0 $end\n\
$var reg 64 cn0 serial $end\n\
$var reg 8 ct0 state $end\n\
$var reg 8 co0 onu $end\n\
$var reg 32 ce0 delay $end\n\
$upscope $end\n\
$upscope $end\n\
$enddefinitions $end\n\
#125000\n\
1cf\n\
b00000001 cg\n\
bz ca\n\
b00000001 cw\n\
b11111111000000010100000101000010010000110100010000000000000000000000000000000001000000000000000000101100 cb\n\
b00000000000000011000011010100000 cd\n\
b0100000101000010010000110100010000000000000000000000000000000001 cn0\n\
b00000001 ct0\n\
bz co0\n\
bz ce0\n\
#250000\n\
0cf\n\
b11111111000000110000000001000001010000100100001101000100000000000000000000000000000000010000000000011011 cs\n\
b00000010 ct0\n\
b00000000 co0\n\
bz cg\n\
bz ca\n\
bz cb\n\
bz cd\n\
#375000\n\
1cf\n\
b00000010 cg\n\
b00000000 ca\n\
b00000010 cw\n\
b00000000000000010100000101000010010000110100010000000000000000000000000000000001000000000000000001101011 cb\n\
b00000000000000011000011010100000 cd\n\
bz cs\n\
#500000\n\
0cf\n\
b00000000000001000000000000000000000000110011100001100000000000000000000000000000000000000000000010011100 cs\n\
b00000011 ct0\n\
b00000000000000110011100001100000 ce0\n\
bz cg\n\
bz ca\n\
bz cw\n\
bz cb\n\
bz cd\n\
#625000\n\
1cf\n\
b00000011 cg\n\
b00000000 ca\n\
b00000011 cw\n\
bz cs\n\
#750000\n\
0cf\n\
bz cg\n\
bz ca\n\
#875000\n\
1cf\n\
#1000000\n\
0cf\n\
b00000001 cl\n\
bz cw\n\
#1125000\n\
1cf\n\
b00000000000001010000000000000000000000000000000000000000000000000000000000000000000000000000000001100011 cs\n\
b00000000 ct0\n\
bz co0\n\
bz ce0\n\
bz cl\n\
#1250000\n\
bz cs\n\
";

/// Tells whether the run is dumped so.
fn is_run(alloc: Global) -> Result<bool, AllocError> {
    let dump = dumped(alloc, RUN, ALL)?;
    Ok(dump.text() == DUMP && is_sum(&dump, 11, 0))
}

#[test]
fn a_run(rt: HostRuntime) {
    assert!(rt; is_run(rt.alloc()) == Ok(true));
}

/// The frames from the one behind the answer on, up to the last but one.
const SOME: Frames = Frames { from: 5, to: 8 };

/// What is known of the unit stands where they begin.
const BEGIN: &'static str = "$enddefinitions $end\n\
#625000\n\
b0100000101000010010000110100010000000000000000000000000000000001 cn0\n\
b00000011 ct0\n\
b00000000 co0\n\
b00000000000000110011100001100000 ce0\n\
1cf\n";

const OF_SOME: [Count; 5] = [
    ("", "frame", Wanted::Each, 4),
    ("", "grant", Wanted::Something, 1),
    ("", "alarm", Wanted::Something, 1),
    ("", "burst", Wanted::Something, 0),
    ("unit", "state", Wanted::Each, 1),
];

/// Tells whether these frames are dumped with this beginning.
fn is_begun(alloc: Global) -> Result<bool, AllocError> {
    let dump = dumped(alloc, RUN, SOME)?;
    Ok(dump.text().contains(BEGIN))
}

#[test]
fn some_frames(rt: HostRuntime) {
    assert!(rt; is_begun(rt.alloc()) == Ok(true));
    for row in &OF_SOME {
        assert!(rt;
            has_count(rt.alloc(), RUN, SOME, row) == Ok(true),
            "{}",
            row.1
        );
    }
}

/// Tells whether a text is a dump with no variable.
fn has_none(alloc: Global, text: &str) -> Result<bool, AllocError> {
    match parse(alloc, text)? {
        Some(parsed) => Ok(parsed.variables.is_empty()),
        None => Ok(false),
    }
}

/// Tells whether that is so of the dump of no line.
fn is_empty(alloc: Global) -> Result<bool, AllocError> {
    let dump = dumped(alloc, "", ALL)?;
    let is_end = dump.text().ends_with(" none $end\n$enddefinitions $end\n");
    Ok(is_end && has_none(alloc, dump.text())?)
}

#[test]
fn no_line(rt: HostRuntime) {
    assert!(rt; is_empty(rt.alloc()) == Ok(true));
}
