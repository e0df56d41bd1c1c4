//! Workers whose receipts are accounted for, and those that are missing, too many, or altered.
ghost use Rattle.std.specs.Prelude.{◌≡◌};
ghost use Rattle.gp_licence.specs.declared.ledger_parts.TheConstants.{MAX_LICENCES};

use super::{Line, ONE_UNIT, close, close_without_last, play, workers_of};
use crate::units::{A, Said, chassis_of};
use gp_accounts::reconcile;
use gp_chassis::{ApplyFault, ChassisConfig};
use gp_journal::Journal;
use gp_licence::MAX_LICENCES;
use gp_machine::{Command, Event, FIRST_ALLOC_ID, Receipt, Reply};
use gp_unit::{Phase, RowView};
use gp_workers::{Chassis, CloseFault, Closed, MAX_WORKERS, NoGate, Totals, Worker, WorkerFault};
use std::alloc::{AllocError, Global};
use std::marker::Brand;
use std::process::Abort;
use std::sync::Wait;
use std::sync::ledger::{Blank, Ledger};

/// A with the equalization delay that it was ranged with, and one further Alloc-ID, which it has still to acknowledge.
const A_WITH_ALLOC_ID: RowView = RowView {
    onu: 0,
    allocs: [
        Some((FIRST_ALLOC_ID, false)),
        None,
        None,
        None,
        None,
        None,
        None,
        None,
    ],
    pending: Some(FIRST_ALLOC_ID),
    waiting: 0,
    phase: Phase::Operating {
        eqd: 211_040,
        dark: 0,
        garbled: 0,
    },
};

/// What the journals of three workers add up to.
const THREE_WORKERS: Totals = Totals {
    frames: 14,
    bursts: 2,
    commands: 3,
    los: 0,
    loam: 0,
    loa: 0,
    suf: 0,
    df: 0,
    dg: 0,
    units: 1,
};

/// The second worker asks for an Alloc-ID for A, the third for what the port knows of A; it has port 1 tick, and
/// there is no port 2.
const TWO_MORE: &[Line] = &[
    (
        1,
        1,
        0,
        Event::Command(Command::Alloc(A)),
        Ok(Said::Allocated(FIRST_ALLOC_ID)),
    ),
    (2, 1, 0, Event::Command(Command::Show(A)), Ok(Said::More)),
    (2, 1, 1, Event::Frame, Ok(Said::Ticked)),
    (2, 1, 2, Event::Frame, Err(ApplyFault::NoPort)),
];

/// The row that the worker was shown first.
fn shown<L: Ledger>(worker: Option<&Worker<L>>) -> Option<RowView> {
    match worker?.receipts().first()?.entry.answer.reply {
        Reply::Shown(row) => Some(row.view()),
        _ => None,
    }
}

/// Copies the receipts of a worker, behind those of others.
fn add_told<L: Ledger>(
    alloc: Global,
    worker: &Worker<L>,
    told: &mut Vec<Vec<Receipt>>,
) -> Result<(), AllocError> {
    let receipts = worker.receipts().to_vec(alloc)?;
    told.push(receipts)?;
    Ok(())
}

/// Copies the receipts of workers, in order.
fn add_all_told<L: Ledger>(
    alloc: Global,
    workers: &[Worker<L>],
    told: &mut Vec<Vec<Receipt>>,
) -> Result<(), AllocError> {
    for worker in workers {
        add_told(alloc, worker, told)?;
    }
    Ok(())
}

/// Alters the answers in receipts.
fn alter(receipts: &mut [Receipt]) {
    for receipt in receipts.iter_mut() {
        receipt.entry.answer.reply = Reply::Allocated(257);
    }
}

/// Alters the answers to the second worker.
fn alter_second(told: &mut [Vec<Receipt>]) {
    if let Some(receipts) = told.get_mut(1) {
        alter(receipts);
    }
}

/// Compares the receipts with the journals: as they were told, and with the answer to the second worker altered.
fn reconciled(
    alloc: Global,
    journals: &[Journal],
    told: &mut [Vec<Receipt>],
) -> [Result<(), CloseFault>; 2] {
    if journals.len() > 16 {
        return [Err(CloseFault::Mismatch); 2];
    }
    let before = reconcile(alloc, journals, told);
    alter_second(told);
    [before, reconcile(alloc, journals, told)]
}

/// How three workers serve: the places of the lines that were answered otherwise, the row that was shown, whether the
/// receipts were copied, and why the chassis does not close without the third.
type Served = ([Option<usize>; 2], Option<RowView>, bool, CloseFault);

/// What they leave: the totals, the lengths of the journals, and how the receipts compare with them.
type Left = (Totals, [u64; 2], [Result<(), CloseFault>; 2]);

/// How long the first two journals are.
fn lengths_of(closed: &Closed) -> [u64; 2] {
    match closed.journals.as_slice() {
        [first, second] => [first.len(), second.len()],
        _ => [0, 0],
    }
}

/// Serves by three workers, copies the receipts of each, and closes without the third and then with it.
fn three_on<L: Ledger, R: Abort + Wait>(
    rt: &R,
    alloc: Global,
    blank: Blank,
    config: &ChassisConfig,
    told: &mut Vec<Vec<Receipt>>,
) -> Option<(Served, Closed)>
    requires name { blank.name ≡ L.name }
    requires parts { (blank.parts ≡ L.parts) × (L.parts ≡ MAX_LICENCES) }
{
    let chassis = Chassis::<NoGate, L>::begin(alloc, blank, config, NoGate).ok()?;
    let mut workers = workers_of(rt, alloc, &chassis, 3);
    let wrong = [
        play(rt, &chassis, &mut workers, ONE_UNIT, 1),
        play(rt, &chassis, &mut workers, TWO_MORE, 1),
    ];
    let row = shown(workers.as_slice().get(2));
    let is_told = add_all_told(alloc, workers.as_slice(), told).is_ok();
    let (fault, chassis, workers) = close_without_last(rt, alloc, chassis, workers);
    let closed = close(rt, alloc, chassis, workers, 1).ok()?;
    Some(((wrong, row, is_told, fault), closed))
}

/// The same with a new ledger.
fn three<R: Abort + Wait>(
    rt: &R,
    alloc: Global,
    told: &mut Vec<Vec<Receipt>>,
) -> Option<(Served, Closed)> {
    let config = chassis_of(alloc, 2, 100, 1, &[(1, 1), (101, 1)]).ok()?;
    three_on::<Brand, R>(
        rt,
        alloc,
        Blank::new(u64::from(MAX_LICENCES)),
        &config,
        told,
    )
}

/// What they leave, compared with what they were told.
fn left_of(alloc: Global, closed: &Closed, told: &mut [Vec<Receipt>]) -> Left {
    let compared = reconciled(alloc, closed.journals.as_slice(), told);
    (closed.totals, lengths_of(closed), compared)
}

/// How three workers serve, and what they leave.
fn outcome<R: Abort + Wait>(rt: &R, alloc: Global) -> Option<(Served, Left)> {
    let mut told = Vec::new(alloc);
    let (served, closed) = three(rt, alloc, &mut told)?;
    Some((served, left_of(alloc, &closed, &mut told)))
}

/// Tells whether this is how three workers serve, and what they leave.
fn is_outcome(found: &Option<(Served, Left)>, served: &Served, left: &Left) -> bool {
    match found {
        Some((was_served, is_left)) => *was_served == *served && *is_left == *left,
        None => false,
    }
}

const SERVED: Served = (
    [None, None],
    Some(A_WITH_ALLOC_ID),
    true,
    CloseFault::WorkerMissing,
);

const LEFT: Left = (THREE_WORKERS, [18, 1], [Ok(()), Err(CloseFault::Mismatch)]);

#[test]
fn three_workers(rt: HostRuntime) {
    assert!(rt; is_outcome(&outcome(&rt, rt.alloc()), &SERVED, &LEFT));
}

/// How many workers are made, why there is none after them, and whether the chassis closes with them.
fn most_on<L: Ledger, R: Wait>(
    rt: &R,
    alloc: Global,
    blank: Blank,
    config: &ChassisConfig,
) -> Option<(usize, Option<WorkerFault>, bool)>
    requires name { blank.name ≡ L.name }
    requires parts { (blank.parts ≡ L.parts) × (L.parts ≡ MAX_LICENCES) }
{
    let chassis = Chassis::<NoGate, L>::begin(alloc, blank, config, NoGate).ok()?;
    let workers = workers_of(rt, alloc, &chassis, MAX_WORKERS);
    let count = workers.len();
    let fault = match chassis.worker(rt, alloc) {
        Ok(worker) => {
            worker.retire();
            None
        }
        Err(fault) => Some(fault),
    };
    let closes = close(rt, alloc, chassis, workers, 1).is_ok();
    Some((count, fault, closes))
}

/// The same with a new ledger.
fn most<R: Wait>(rt: &R, alloc: Global) -> Option<(usize, Option<WorkerFault>, bool)> {
    let config = chassis_of(alloc, 1, 100, 1, &[(1, 1)]).ok()?;
    most_on::<Brand, R>(rt, alloc, Blank::new(u64::from(MAX_LICENCES)), &config)
}

#[test]
fn most_workers(rt: HostRuntime) {
    assert!(rt; most(&rt, rt.alloc()) == Some((64, Some(WorkerFault::TooMany), true)));
}
