//! Lines that are counted, whole and in pieces.
use gp_alarms::AlarmKind;
use gp_machine::Refusal;
use gp_ploam::Mask;
use gp_tally::{Counter, PortTally, UnitCounts, kind_place};
use std::alloc::{AllocError, Global};

/// A unit is found, ranged and lost, another is refused; the last line is open, and two lines are none of a trace.
const TEXT: &str = "\
0 0 search = searching
0 1 frame = ok grant search
0 2 burst 5 ff01414243440000000100002c = found 0
0 3 burst 6 ff01414243440000000100002c = refused 6 no-licence
0 4 burst 6 ff01414243440000000100002c = refused 1 stray
no line of a trace
0 5 frame = ok grant range 0
0 6 burst 100000 0001414243440000000100006b = ranged 0 211040
0 7 frame = ok alarm LOS ABCD00000001
1 0 frame = ok
9 0 frame = ok

0 8 frame = ok";

/// Counts a text in pieces of so many octets, on two ports.
fn counted(alloc: Global, text: &str, piece: usize) -> Result<Counter, AllocError> {
    let mut counter = Counter::new(alloc, Mask::Plain, 2)?;
    for octets in text.as_bytes().chunks(piece.max(1)) {
        counter.take(octets);
    }
    Ok(counter)
}

/// How often a port refused something so.
fn refused(port: &PortTally, refusal: Refusal) -> u64 {
    port.counts().refusals[usize::from(refusal.number())]
}

/// Tells whether a unit was found, ranged and lost so.
fn is_unit(unit: &UnitCounts) -> bool {
    (unit.found, unit.ranged) == (1, 1)
        && (unit.heard, unit.asked, unit.took) == (Some(2), None, Some(1))
        && unit.alarms[kind_place(AlarmKind::Los)] == 1
}

/// Tells whether the units of a port are one that was counted so.
fn is_one_unit(port: &PortTally) -> bool {
    port.units().len() == 1 && port.units().iter().all(|(_, unit)| is_unit(unit))
}

/// Tells whether the first port was counted so.
fn is_first(port: &PortTally) -> bool {
    let counts = port.counts();
    (counts.frames, counts.bursts, counts.commands) == (3, 4, 1)
        && refused(port, Refusal::NoLicence) == 1
        && refused(port, Refusal::Stray) == 1
        && refused(port, Refusal::Busy) == 0
        && counts.alarms[kind_place(AlarmKind::Los)] == 1
        && is_one_unit(port)
}

/// Tells whether both ports were counted so.
fn are_counted(ports: &[PortTally]) -> bool {
    match ports {
        [first, second] => is_first(first) && second.counts().frames == 1,
        _ => false,
    }
}

/// Tells whether a counter has counted so.
fn has_counted(counter: &Counter) -> bool {
    match counter.ports() {
        Ok(ports) => are_counted(ports),
        Err(_) => false,
    }
}

/// Tells whether the text is counted so in pieces of so many octets.
fn is_counted(alloc: Global, piece: usize) -> Result<bool, AllocError> {
    let counter = counted(alloc, TEXT, piece)?;
    Ok(has_counted(&counter))
}

#[test]
fn pieces_are_counted_as_a_whole(rt: HostRuntime) {
    for piece in [1, 2, 7, 64, 100_000] {
        assert!(rt; is_counted(rt.alloc(), piece) == Ok(true), "{piece}");
    }
}
