//! Three ports, each of which admits a unit of its own: after a cut, and after a close or a cut that is refused, each
//! is still served under its own number.
ghost use Rattle.std.specs.Prelude.{◌≡◌};
ghost use Rattle.gp_licence.specs.declared.ledger_parts.TheConstants.{MAX_LICENCES};

use super::{Line, close, close_without_last, cut, cut_without_last, play, workers_of};
use crate::units::{SEARCH, Said, chassis_of};
use gp_chassis::{ApplyFault, ChassisConfig};
use gp_licence::MAX_LICENCES;
use gp_machine::{Command, Event, Refusal};
use gp_ploam::Serial;
use gp_workers::{Chassis, CloseFault, Closed, Cut, NoGate, Worker};
use std::alloc::Global;
use std::marker::Brand;
use std::process::Abort;
use std::sync::Wait;
use std::sync::ledger::{Blank, Ledger};

/// What is tried between the first lines and the others.
#[derive(Clone, Copy, Debug, PartialEq, Eq)]
enum Between {
    Cut,
    CutWithoutLast,
    CloseWithoutLast,
}

/// The numbers of the units that the ports admit.
const UNITS: &[(u16, u16)] = &[(1, 1), (101, 1), (201, 1)];

/// Each port gets another number of entries.
const FIRST: &[Line] = &[
    (0, 1, 0, SEARCH, Ok(Said::Searching)),
    (0, 1, 0, Event::Frame, Ok(Said::Ticked)),
    (1, 3, 1, Event::Frame, Ok(Said::Ticked)),
    (2, 1, 2, Event::Frame, Ok(Said::Ticked)),
];

/// The operator asks what each port knows of its own unit, which is admitted there alone.
const LATER: &[Line] = &[
    (
        1,
        1,
        0,
        Event::Command(Command::Show(Serial(*b"ABCD\0\0\0\x01"))),
        NOT_ACTIVE,
    ),
    (
        2,
        1,
        1,
        Event::Command(Command::Show(Serial(*b"ABCD\0\0\0\x65"))),
        NOT_ACTIVE,
    ),
    (
        0,
        1,
        2,
        Event::Command(Command::Show(Serial(*b"ABCD\0\0\0\xc9"))),
        NOT_ACTIVE,
    ),
];

const NOT_ACTIVE: Result<Said, ApplyFault> = Ok(Said::Refused(Refusal::NotActive));

/// What each way leaves: why it was refused, the first number and the length of each piece, and the same of each
/// journal.
type Row = (
    Between,
    Option<CloseFault>,
    &'static [(u64, u64)],
    [(u64, u64); 3],
);

/// What is left: the places of the lines that were answered otherwise, why a close or a cut was refused, and whether
/// the cut and the close handed out what the row has.
type Outcome = ([Option<usize>; 2], Option<CloseFault>, bool, bool);

/// Tells whether pieces begin with these numbers, and are so long.
fn are_pieces(cut: &Cut, wanted: &[(u64, u64)]) -> bool {
    let same = cut
        .pieces
        .iter()
        .zip(wanted)
        .all(|(piece, kept)| *kept == (piece.first, piece.len()));
    same && cut.pieces.len() == wanted.len()
}

/// Tells whether journals begin with these numbers, and keep so many entries.
fn are_journals(closed: &Closed, wanted: &[(u64, u64)]) -> bool {
    let same = closed.journals.iter().zip(wanted).all(|(journal, kept)| {
        *kept == (journal.first(), journal.entries().len() as u64)
    });
    same && closed.journals.len() == wanted.len()
}

/// A chassis, its workers, why a close or a cut of it was refused, and whether a cut handed out these pieces.
type Tried<L> = (Chassis<NoGate, L>, Vec<Worker<L>>, Option<CloseFault>, bool);

/// Cuts, or is refused, in this way; where nothing is cut there have to be no pieces.
fn tried<L: Ledger, R: Abort + Wait>(
    rt: &R,
    alloc: Global,
    chassis: Chassis<NoGate, L>,
    workers: Vec<Worker<L>>,
    row: &Row,
    tries: u8,
) -> Tried<L> {
    match row.0 {
        Between::Cut => {
            let (chassis, workers, cut) = cut(rt, alloc, chassis, workers, tries);
            let are_pieces = are_pieces(&cut, row.2);
            (chassis, workers, None, are_pieces)
        }
        Between::CutWithoutLast => {
            let (fault, chassis, workers) = cut_without_last(rt, alloc, chassis, workers);
            (chassis, workers, Some(fault), row.2.is_empty())
        }
        Between::CloseWithoutLast => {
            let (fault, chassis, workers) = close_without_last(rt, alloc, chassis, workers);
            (chassis, workers, Some(fault), row.2.is_empty())
        }
    }
}

/// Plays the first lines, cuts or is refused, plays the others and closes, with so many tries at most where memory is
/// refused. There is no outcome where the chassis is not opened.
fn outcome_of<L: Ledger, R: Abort + Wait>(
    rt: &R,
    alloc: Global,
    blank: Blank,
    config: &ChassisConfig,
    row: &Row,
    tries: u8,
) -> Option<Outcome>
    requires name { blank.name ≡ L.name }
    requires parts { (blank.parts ≡ L.parts) × (L.parts ≡ MAX_LICENCES) }
{
    let chassis = Chassis::<NoGate, L>::begin(alloc, blank, config, NoGate).ok()?;
    let mut workers = workers_of(rt, alloc, &chassis, 3);
    let first = play(rt, &chassis, &mut workers, FIRST, tries);
    let (chassis, mut workers, fault, are_pieces) = tried(rt, alloc, chassis, workers, row, tries);
    let later = play(rt, &chassis, &mut workers, LATER, tries);
    let closed = close(rt, alloc, chassis, workers, tries).expect(rt, "closed");
    Some((
        [first, later],
        fault,
        are_pieces,
        are_journals(&closed, &row.3),
    ))
}

/// The same with a new ledger.
fn outcome<R: Abort + Wait>(rt: &R, alloc: Global, row: &Row, tries: u8) -> Option<Outcome> {
    let config = chassis_of(alloc, 1, 100, 1, UNITS).ok()?;
    let blank = Blank::new(u64::from(MAX_LICENCES));
    outcome_of::<Brand, R>(rt, alloc, blank, &config, row, tries)
}

const WAYS: [Row; 3] = [
    (
        Between::Cut,
        None,
        &[(0, 2), (0, 3), (0, 1)],
        [(2, 1), (3, 1), (1, 1)],
    ),
    (
        Between::CutWithoutLast,
        Some(CloseFault::WorkerMissing),
        &[],
        [(0, 3), (0, 4), (0, 2)],
    ),
    (
        Between::CloseWithoutLast,
        Some(CloseFault::WorkerMissing),
        &[],
        [(0, 3), (0, 4), (0, 2)],
    ),
];

/// Tells whether there is an outcome, and it is as its row has it.
fn is_left(found: &Option<Outcome>, row: &Row) -> bool {
    let Some(outcome) = found else {
        return false;
    };
    let (wrong, fault, are_pieces, are_journals) = outcome;
    *wrong == [None, None] && *fault == row.1 && *are_pieces && *are_journals
}

#[test]
fn each_port_under_its_number(rt: HostRuntime) {
    for row in &WAYS {
        assert!(rt;
            is_left(&outcome(&rt, rt.alloc(), row, 1), row),
            "{:?}",
            row.0
        );
    }
}

/// The same with two tries of each call, and once more where the chassis was not opened.
fn outcome_at_last<R: Abort + Wait>(rt: &R, alloc: Global, row: &Row) -> Option<Outcome> {
    match outcome(rt, alloc, row, 2) {
        None => outcome(rt, alloc, row, 2),
        found => found,
    }
}

// Passes whichever one request for memory is refused, and with ample memory (`rt try --test --fail-alloc N`): a cut
// and a close that are refused are tried again.
#[test]
fn each_port_short_of_memory(rt: HostRuntime) {
    assert!(rt; is_left(&outcome_at_last(&rt, rt.alloc(), &WAYS[0]), &WAYS[0]));
}
