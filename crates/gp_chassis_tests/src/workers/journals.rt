//! Journals that are full and cut, also where memory is refused, and copies that are owed up to the most.
ghost use Rattle.std.specs.Prelude.{◌≡◌};
ghost use Rattle.gp_licence.specs.declared.ledger_parts.TheConstants.{MAX_LICENCES};

use super::meeting::{Meeting, Meets};
use super::{Line, ONE_UNIT, close, cut, cut_without_last, play, reply, workers_of};
use crate::units::{A, A_RANGED, A_SEARCHED, B_SEARCHED, NOTHING, SEARCH, Said, chassis_of};
use gp_alarms::{Alarm, AlarmKind};
use gp_chassis::{ApplyFault, ChassisConfig};
use gp_licence::MAX_LICENCES;
use gp_machine::{Command, Event, FIRST_ALLOC_ID, Refusal};
use gp_workers::{Chassis, CloseFault, Closed, Cut, NoGate, Totals, Worker};
use std::alloc::Global;
use std::marker::Brand;
use std::process::Abort;
use std::sync::Wait;
use std::sync::atomic::{AtomicU64, Ordering};
use std::sync::ledger::{Blank, Ledger};
use std::time::Clock;

/// No events, no alarms, and one unit that is active.
const ONE_ACTIVE: Totals = Totals {
    frames: 0,
    bursts: 0,
    commands: 0,
    los: 0,
    loam: 0,
    loa: 0,
    suf: 0,
    df: 0,
    dg: 0,
    units: 1,
};

/// The operator asks what the port knows of A.
const SHOW_A: Event = Event::Command(Command::Show(A));

const ENABLE_ALL: Event = Event::Command(Command::EnableAll);

/// A comes to operate with the last entry that the journal keeps.
const BOUNDED: &[Line] = &[
    (0, 1, 0, SEARCH, Ok(Said::Searching)),
    (0, 5, 0, Event::Frame, Ok(Said::Ticked)),
    (0, 1, 0, A_SEARCHED, Ok(Said::Found(0))),
    (0, 4, 0, Event::Frame, Ok(Said::Ticked)),
    (0, 1, 0, A_RANGED, Ok(Said::Ranged(0, 211_040))),
    (0, 4, 0, Event::Frame, Ok(Said::Ticked)),
    (0, 1, 0, Event::Frame, Err(ApplyFault::JournalFull)),
];

const SHOWN: &[Line] = &[(0, 1, 0, SHOW_A, Ok(Said::More))];

/// A search up to its window.
const WINDOW: &[Line] = &[
    (0, 1, 0, SEARCH, Ok(Said::Searching)),
    (0, 5, 0, Event::Frame, Ok(Said::Ticked)),
];

/// A worker with no receipts finds A on a port with no entries: both take memory while it has the one licence.
const FOUND: &[Line] = &[
    (1, 1, 0, A_SEARCHED, Ok(Said::Found(0))),
    (0, 1, 0, B_SEARCHED, Ok(Said::Refused(Refusal::NoLicence))),
];

/// What A and B are answered, who speak once each, with one licence. Where memory is refused for A's burst, its
/// licence is back for B.
const HEARD: [[Result<Said, ApplyFault>; 2]; 2] = [
    [Ok(Said::Found(0)), Ok(Said::Refused(Refusal::NoLicence))],
    [Err(ApplyFault::OutOfMemory), Ok(Said::Found(0))],
];

/// How a piece and the journal after it join: the numbers of the first entries, how many entries each has, and
/// whether the journal goes on where the piece ends, and an entry earlier.
fn joined(cut: &Cut, closed: &Closed) -> Option<((u64, u64), (u64, usize), (bool, bool))> {
    let piece = cut.pieces.as_slice().first()?;
    let journal = closed.journals.as_slice().first()?;
    let base = journal.base()?;
    let next = journal.first();
    Some((
        (piece.first, piece.len()),
        (next, journal.entries().len()),
        (
            piece.joins(next, base),
            piece.joins(next.wrapping_sub(1), base),
        ),
    ))
}

/// What a cut leaves: the places of the lines before and after it that were answered otherwise, and why it is refused
/// without the last worker; what it adds up to, what the journals add up to that go on after it, and how the two
/// join.
type Outcome = (
    ([Option<usize>; 2], CloseFault),
    (
        [Totals; 2],
        Option<((u64, u64), (u64, usize), (bool, bool))>,
    ),
);

/// Plays lines, cuts, and plays others, with so many tries at most where memory is refused. There is no outcome where
/// the chassis is not opened.
fn outcome_of<L: Ledger, R: Abort + Wait>(
    rt: &R,
    alloc: Global,
    blank: Blank,
    config: &ChassisConfig,
    lines: (&[Line], &[Line]),
    tries: u8,
) -> Option<Outcome>
    requires name { blank.name ≡ L.name }
    requires parts { (blank.parts ≡ L.parts) × (L.parts ≡ MAX_LICENCES) }
{
    let chassis = Chassis::<NoGate, L>::begin(alloc, blank, config, NoGate).ok()?;
    let mut workers = workers_of(rt, alloc, &chassis, 2);
    let wrong = play(rt, &chassis, &mut workers, lines.0, tries);
    let (fault, chassis, workers) = cut_without_last(rt, alloc, chassis, workers);
    let (chassis, mut workers, cut) = cut(rt, alloc, chassis, workers, tries);
    let wrong = [wrong, play(rt, &chassis, &mut workers, lines.1, tries)];
    let closed = close(rt, alloc, chassis, workers, tries).expect(rt, "closed");
    Some((
        (wrong, fault),
        ([cut.totals, closed.totals], joined(&cut, &closed)),
    ))
}

/// The same on one port that admits A and B, with one licence and a new ledger.
fn outcome<R: Abort + Wait>(
    rt: &R,
    alloc: Global,
    journal_limit: u32,
    lines: (&[Line], &[Line]),
    tries: u8,
) -> Option<Outcome> {
    let config = chassis_of(alloc, 1, journal_limit, 1, &[(1, 2)]).ok()?;
    let blank = Blank::new(u64::from(MAX_LICENCES));
    outcome_of::<Brand, R>(rt, alloc, blank, &config, lines, tries)
}

/// Tells whether there is an outcome, and it is this.
fn is_outcome(found: &Option<Outcome>, wanted: &Outcome) -> bool {
    match found {
        Some((played, left)) => *played == wanted.0 && *left == wanted.1,
        None => false,
    }
}

const BOUNDED_OUTCOME: Outcome = (
    ([None, None], CloseFault::WorkerMissing),
    (
        [
            Totals {
                frames: 13,
                bursts: 2,
                commands: 1,
                ..ONE_ACTIVE
            },
            Totals {
                commands: 1,
                ..ONE_ACTIVE
            },
        ],
        Some(((0, 16), (16, 1), (true, false))),
    ),
);

#[test]
fn bounded_journals(rt: HostRuntime) {
    let found = outcome(&rt, rt.alloc(), 16, (BOUNDED, SHOWN), 1);
    assert!(rt; is_outcome(&found, &BOUNDED_OUTCOME));
}

const SHORT_OUTCOME: Outcome = (
    ([None, None], CloseFault::WorkerMissing),
    (
        [
            Totals {
                frames: 5,
                commands: 1,
                units: 0,
                ..ONE_ACTIVE
            },
            Totals {
                bursts: 2,
                ..ONE_ACTIVE
            },
        ],
        Some(((0, 6), (6, 2), (true, false))),
    ),
);

/// A search and its bursts with two tries of each call, and once more where the chassis was not opened.
fn outcome_at_last<R: Abort + Wait>(rt: &R, alloc: Global) -> Option<Outcome> {
    match outcome(rt, alloc, 100, (WINDOW, FOUND), 2) {
        None => outcome(rt, alloc, 100, (WINDOW, FOUND), 2),
        found => found,
    }
}

// Passes whichever one request for memory is refused, and with ample memory (`rt try --test --fail-alloc N`).
#[test]
fn cuts_and_bursts_short_of_memory(rt: HostRuntime) {
    assert!(rt; is_outcome(&outcome_at_last(&rt, rt.alloc()), &SHORT_OUTCOME));
}

/// Has a worker with no receipts hear A and then B on a port with no entries, without a second try, and gives the
/// place of the line before them that was answered otherwise. There is no answer where the chassis is not opened.
fn heard_of<L: Ledger, R: Abort + Wait>(
    rt: &R,
    alloc: Global,
    blank: Blank,
    config: &ChassisConfig,
) -> Option<(Option<usize>, [Result<Said, ApplyFault>; 2])>
    requires name { blank.name ≡ L.name }
    requires parts { (blank.parts ≡ L.parts) × (L.parts ≡ MAX_LICENCES) }
{
    let chassis = Chassis::<NoGate, L>::begin(alloc, blank, config, NoGate).ok()?;
    let mut workers = workers_of(rt, alloc, &chassis, 2);
    let wrong = play(rt, &chassis, &mut workers, WINDOW, 2);
    let (chassis, mut workers, _) = cut(rt, alloc, chassis, workers, 2);
    let worker = workers.last_mut().expect(rt, "a worker");
    let first = reply(rt, &chassis, worker, 0, A_SEARCHED);
    let second = reply(rt, &chassis, worker, 0, B_SEARCHED);
    close(rt, alloc, chassis, workers, 2).expect(rt, "closed");
    Some((wrong, [first, second]))
}

/// The same on one port that admits A and B, with one licence and a new ledger.
fn heard<R: Abort + Wait>(
    rt: &R,
    alloc: Global,
) -> Option<(Option<usize>, [Result<Said, ApplyFault>; 2])> {
    let config = chassis_of(alloc, 1, 100, 1, &[(1, 2)]).ok()?;
    heard_of::<Brand, R>(rt, alloc, Blank::new(u64::from(MAX_LICENCES)), &config)
}

/// The same, and once more where the chassis was not opened.
fn heard_at_last<R: Abort + Wait>(
    rt: &R,
    alloc: Global,
) -> Option<(Option<usize>, [Result<Said, ApplyFault>; 2])> {
    match heard(rt, alloc) {
        None => heard(rt, alloc),
        found => found,
    }
}

/// Tells whether A and B are answered so, or so, and the lines before them as they have to be.
fn is_heard(found: &Option<(Option<usize>, [Result<Said, ApplyFault>; 2])>) -> bool {
    let Some(heard) = found else {
        return false;
    };
    let (wrong, answers) = heard;
    wrong.is_none() && HEARD.contains(answers)
}

// Passes whichever one request for memory is refused, and with ample memory (`rt try --test --fail-alloc N`).
#[test]
fn a_burst_behind_one_short_of_memory(rt: HostRuntime) {
    let found = heard_at_last(&rt, rt.alloc());
    assert!(rt; is_heard(&found), "{found:?}");
}

/// A gets an Alloc-ID, does not acknowledge it in two polls, and commands fill the queue.
const FILLED: &[Line] = &[
    (
        0,
        1,
        0,
        Event::Command(Command::Alloc(A)),
        Ok(Said::Allocated(FIRST_ALLOC_ID)),
    ),
    // Three copies are sent, and then the unit is polled.
    (0, 4, 0, Event::Frame, Ok(Said::Ticked)),
    (0, 1, 0, NOTHING, Ok(Said::Alive(0))),
    (0, 1, 0, Event::Frame, Ok(Said::Ticked)),
    (0, 1, 0, NOTHING, Ok(Said::Alive(0))),
    (0, 1, 0, Event::Frame, Ok(Said::Ticked)),
    (0, 63, 0, ENABLE_ALL, Ok(Said::EnabledAll)),
    (0, 1, 0, ENABLE_ALL, Ok(Said::Refused(Refusal::Busy))),
];

/// A third poll is not acknowledged: A is removed.
const LOST: &[Line] = &[
    (0, 1, 0, NOTHING, Ok(Said::Alive(0))),
    (0, 1, 0, SHOW_A, Ok(Said::Refused(Refusal::NotActive))),
];

/// Which alarm a worker was told last.
fn last_alarm<L: Ledger>(worker: Option<&Worker<L>>) -> Option<Alarm> {
    let mut last = None;
    for receipt in worker?.receipts() {
        if receipt.entry.answer.alarm.is_some() {
            last = receipt.entry.answer.alarm;
        }
    }
    last
}

/// Fills the queue of a port, and gives the places of the lines that were answered otherwise, how many copies were
/// owed before and after A was lost, the alarm of it, and how many such alarms and active units there are at last.
fn fill_the_queue<C: Clock + Drop, L: Ledger, R: Wait>(
    rt: &R,
    alloc: Global,
    blank: Blank,
    config: &ChassisConfig,
    meeting: &Meeting<C>,
) -> Option<([Option<usize>; 3], [u64; 2], Option<Alarm>, (u64, u64))>
    requires name { blank.name ≡ L.name }
    requires parts { (blank.parts ≡ L.parts) × (L.parts ≡ MAX_LICENCES) }
{
    let chassis = Chassis::<Meets<'_, C>, L>::begin(alloc, blank, config, Meets(meeting)).ok()?;
    let mut workers = workers_of(rt, alloc, &chassis, 1);
    let begun = play(rt, &chassis, &mut workers, ONE_UNIT, 1);
    let filled = play(rt, &chassis, &mut workers, FILLED, 1);
    let before = meeting.owed.load(Ordering::SeqCst);
    let lost = play(rt, &chassis, &mut workers, LOST, 1);
    let owed = [before, meeting.owed.load(Ordering::SeqCst)];
    let alarm = last_alarm(workers.as_slice().first());
    let closed = close(rt, alloc, chassis, workers, 1).ok()?;
    Some((
        [begun, filled, lost],
        owed,
        alarm,
        (closed.totals.loa, closed.totals.units),
    ))
}

/// The same with a new ledger.
fn queue<C: Clock + Drop, R: Wait>(
    rt: &R,
    alloc: Global,
    clock: C,
) -> Option<([Option<usize>; 3], [u64; 2], Option<Alarm>, (u64, u64))> {
    let config = chassis_of(alloc, 1, 200, 1, &[(1, 1)]).ok()?;
    let meeting = Meeting {
        clock,
        kept: 0,
        awaited: 1,
        owed: AtomicU64::new(0),
        stage: AtomicU64::new(0),
    };
    let blank = Blank::new(u64::from(MAX_LICENCES));
    fill_the_queue::<C, Brand, R>(rt, alloc, blank, &config, &meeting)
}

const LOA: Alarm = Alarm {
    kind: AlarmKind::Loa,
    serial: A,
};

/// Tells whether the queue of a port is filled, and what is told and left then.
fn is_filled<C: Clock + Drop, R: Wait>(rt: &R, alloc: Global, clock: C) -> bool {
    let Some(filled) = queue(rt, alloc, clock) else {
        return false;
    };
    let (wrong, owed, alarm, left) = filled;
    wrong == [None; 3] && owed == [189, 192] && alarm == Some(LOA) && left == (1, 0)
}

#[test]
fn full_queue(rt: HostRuntime) {
    assert!(rt; is_filled(&rt, rt.alloc(), rt));
}
