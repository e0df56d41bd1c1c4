//! The ends of poll windows, by rows, and the names of alarms.
use crate::samples::prints;
use gp_alarms::Outcome::{Acked, Dark, Garbled, Gasped, Good};
use gp_alarms::{AlarmKind, Outcome, PollCounts, close_poll};
use std::process::Abort;

/// Dark, garbled and waiting windows.
type Counts = [u8; 3];

/// Poll windows that end so one after the other, with an Alloc-ID pending or not: what was counted before them and
/// after, and the first alarm, with the number of windows that had ended by then.
type Row = (
    Counts,
    &'static [Outcome],
    bool,
    Counts,
    Option<(usize, AlarmKind)>,
);

const ROWS: [Row; 21] = [
    // Each outcome of a window.
    ([2, 1, 1], &[Good], true, [0, 0, 2], None),
    ([2, 1, 1], &[Garbled], true, [0, 2, 2], None),
    ([2, 1, 1], &[Dark], true, [3, 1, 2], None),
    ([2, 1, 1], &[Gasped], true, [0, 0, 1], None),
    ([2, 1, 1], &[Acked], true, [0, 0, 0], None),
    // Each limit, and which alarm comes first.
    (
        [3, 2, 2],
        &[Dark],
        true,
        [4, 2, 3],
        Some((1, AlarmKind::Los)),
    ),
    (
        [2, 2, 2],
        &[Dark],
        true,
        [3, 2, 3],
        Some((1, AlarmKind::Loa)),
    ),
    (
        [3, 2, 2],
        &[Garbled],
        true,
        [0, 3, 3],
        Some((1, AlarmKind::Loam)),
    ),
    (
        [3, 1, 2],
        &[Garbled],
        true,
        [0, 2, 3],
        Some((1, AlarmKind::Loa)),
    ),
    (
        [3, 2, 2],
        &[Good],
        true,
        [0, 0, 3],
        Some((1, AlarmKind::Loa)),
    ),
    ([3, 2, 2], &[Gasped], true, [0, 0, 2], None),
    ([3, 2, 2], &[Acked], true, [0, 0, 0], None),
    // A garbled window ends the row of dark ones, so that four more are needed.
    (
        [0, 0, 0],
        &[Dark, Dark, Garbled, Dark, Dark, Dark, Dark],
        false,
        [4, 1, 0],
        Some((7, AlarmKind::Los)),
    ),
    // A dark one keeps the garbled ones counted, and a message of the unit ends their count.
    (
        [0, 0, 0],
        &[Garbled, Dark, Garbled, Dark, Garbled],
        false,
        [0, 3, 0],
        Some((5, AlarmKind::Loam)),
    ),
    (
        [0, 0, 0],
        &[Garbled, Garbled, Good, Garbled],
        false,
        [0, 1, 0],
        None,
    ),
    // Windows that end while an Alloc-ID is pending count for LOA, but for that of a Dying_Gasp; others don't.
    (
        [0, 0, 0],
        &[Good, Good, Good],
        true,
        [0, 0, 3],
        Some((3, AlarmKind::Loa)),
    ),
    ([0, 0, 0], &[Good, Good, Good], false, [0, 0, 0], None),
    (
        [0, 0, 0],
        &[Good, Gasped, Good, Gasped],
        true,
        [0, 0, 2],
        None,
    ),
    (
        [0, 0, 0],
        &[Good, Good, Acked, Good, Good],
        true,
        [0, 0, 2],
        None,
    ),
    // The fourth dark window in a row is the third of a pending Alloc-ID: LOS comes before LOA.
    (
        [1, 0, 0],
        &[Dark, Dark, Dark],
        true,
        [4, 0, 3],
        Some((3, AlarmKind::Los)),
    ),
    (
        [0, 0, 0],
        &[Dark, Dark, Dark],
        true,
        [3, 0, 3],
        Some((3, AlarmKind::Loa)),
    ),
];

/// Ends a poll window: what is counted then, and the alarm.
fn end_one(
    rt: &impl Abort,
    counts: PollCounts,
    outcome: Outcome,
    pending: bool,
) -> (PollCounts, Option<AlarmKind>) {
    assert!(rt; counts.dark <= 3 && counts.garbled <= 2 && counts.waiting <= 2);
    close_poll(counts, outcome, pending)
}

/// Ends poll windows up to the first alarm: what is counted then, and the alarm.
fn ended(
    rt: &impl Abort,
    counted: PollCounts,
    outcomes: &[Outcome],
    pending: bool,
) -> (PollCounts, Option<(usize, AlarmKind)>) {
    let mut counts = counted;
    for (before, outcome) in outcomes.iter().enumerate() {
        let (then, alarm) = end_one(rt, counts, *outcome, pending);
        if let Some(kind) = alarm {
            return (then, Some((before + 1, kind)));
        }
        counts = then;
    }
    (counts, None)
}

fn counts_of(counted: Counts) -> PollCounts {
    let [dark, garbled, waiting] = counted;
    PollCounts {
        dark,
        garbled,
        waiting,
    }
}

/// Tells whether the windows of a row end so.
fn is_ended(rt: &impl Abort, row: &Row) -> bool {
    let (counts, first) = ended(rt, counts_of(row.0), row.1, row.2);
    counts == counts_of(row.3) && first == row.4
}

#[test]
fn dark_and_garbled_polls(rt: HostRuntime) {
    for row in &ROWS {
        assert!(rt; is_ended(&rt, row), "{:?} {:?}", row.0, row.1);
    }
}

const NAMES: [(AlarmKind, &'static str); 6] = [
    (AlarmKind::Los, "LOS"),
    (AlarmKind::Loam, "LOAM"),
    (AlarmKind::Loa, "LOA"),
    (AlarmKind::Suf, "SUF"),
    (AlarmKind::Df, "DF"),
    (AlarmKind::Dg, "DG"),
];

#[test]
fn names_of_alarms(rt: HostRuntime) {
    for (kind, name) in &NAMES {
        assert!(rt; prints(rt.alloc(), kind, name), "{name}");
    }
}
