//! What no clause says: worked runs of a chassis with workers, ports whose locks are held at once, threads over
//! rings, and that memory suffices or is told.
mod accounts;
mod journals;
mod loops;
mod meeting;
mod parallel;
mod ports;

use super::units::{A_RANGED, A_SEARCHED, SEARCH, Said, spoken};
use gp_chassis::ApplyFault;
use gp_machine::Event;
use gp_workers::{Chassis, CloseFault, CloseRefused, Closed, Cut, Gate, NoGate, Worker};
use std::alloc::Global;
use std::process::Abort;
use std::sync::Wait;
use std::sync::ledger::Ledger;

/// A worker has a port serve an event so many times, and the port answers so each time: the worker, how many times,
/// the port, the event and the answer.
type Line = (usize, u8, u8, Event, Result<Said, ApplyFault>);

/// A begins to operate on port 0, which has seen nothing yet.
const ONE_UNIT: &[Line] = &[
    (0, 1, 0, SEARCH, Ok(Said::Searching)),
    (0, 5, 0, Event::Frame, Ok(Said::Ticked)),
    (0, 1, 0, A_SEARCHED, Ok(Said::Found(0))),
    (0, 4, 0, Event::Frame, Ok(Said::Ticked)),
    (0, 1, 0, A_RANGED, Ok(Said::Ranged(0, 211_040))),
    (0, 4, 0, Event::Frame, Ok(Said::Ticked)),
];

/// Has an event served, and tells what the port replied.
fn reply<G: Gate<L>, L: Ledger, R: Wait>(
    rt: &R,
    chassis: &Chassis<G, L>,
    worker: &mut Worker<L>,
    port: u8,
    event: Event,
) -> Result<Said, ApplyFault> {
    match chassis.apply(rt, worker, port, event) {
        Ok(receipt) => Ok(spoken(&receipt.entry.answer.reply)),
        Err(fault) => Err(fault),
    }
}

/// The same, with so many tries at most where memory is refused.
fn serve<G: Gate<L>, L: Ledger, R: Wait>(
    rt: &R,
    chassis: &Chassis<G, L>,
    worker: &mut Worker<L>,
    port: u8,
    event: Event,
    tries: u8,
) -> Result<Said, ApplyFault> {
    let mut answer = Err(ApplyFault::OutOfMemory);
    for _ in 0..tries {
        if answer == Err(ApplyFault::OutOfMemory) {
            answer = reply(rt, chassis, worker, port, event);
        }
    }
    answer
}

/// Plays lines, with so many tries of each call at most where memory is refused, and gives the place of the first
/// line that is answered otherwise.
fn play<G: Gate<L>, L: Ledger, R: Wait>(
    rt: &R,
    chassis: &Chassis<G, L>,
    workers: &mut [Worker<L>],
    lines: &[Line],
    tries: u8,
) -> Option<usize> {
    for (place, (worker, times, port, event, answer)) in lines.iter().enumerate() {
        if *worker >= workers.len() {
            return Some(place);
        }
        for _ in 0..*times {
            if serve(rt, chassis, &mut workers[*worker], *port, *event, tries) != *answer {
                return Some(place);
            }
        }
    }
    None
}

/// Adds a worker to a list. Where memory is refused twice for it, the worker ends.
fn add<L: Ledger>(workers: &mut Vec<Worker<L>>, worker: Worker<L>) {
    if let Err(failed) = workers.push(worker) {
        if let Err(failed) = workers.push(failed.value) {
            failed.value.retire();
        }
    }
}

/// Makes a worker, and adds it to a list.
fn add_worker<G: Gate<L>, L: Ledger, R: Wait>(
    rt: &R,
    alloc: Global,
    chassis: &Chassis<G, L>,
    workers: &mut Vec<Worker<L>>,
) {
    if let Ok(worker) = chassis.worker(rt, alloc) {
        add(workers, worker);
    }
}

/// Makes so many workers, and adds them to a list.
fn add_workers<G: Gate<L>, L: Ledger, R: Wait>(
    rt: &R,
    alloc: Global,
    chassis: &Chassis<G, L>,
    workers: &mut Vec<Worker<L>>,
    count: u8,
) {
    for _ in 0..count {
        add_worker(rt, alloc, chassis, workers);
    }
}

/// Makes so many workers.
fn workers_of<G: Gate<L>, L: Ledger, R: Wait>(
    rt: &R,
    alloc: Global,
    chassis: &Chassis<G, L>,
    count: u8,
) -> Vec<Worker<L>> {
    let mut workers = Vec::new(alloc);
    add_workers(rt, alloc, chassis, &mut workers, count);
    workers
}

/// Ends workers, with their receipts.
fn end_workers<L: Ledger>(workers: Vec<Worker<L>>) {
    let mut workers = workers;
    while let Some(worker) = workers.pop() {
        worker.retire();
    }
    workers.destroy_empty();
}

/// Ends a chassis that was not closed or cut, with its workers, and gives why it was not.
fn end<G: Gate<L>, L: Ledger, R: Wait>(rt: &R, refused: CloseRefused<G, L>) -> CloseFault {
    let CloseRefused {
        fault,
        chassis,
        workers,
    } = refused;
    end_workers(workers);
    chassis.discard(rt);
    fault
}

/// Closes a chassis that was not closed. Where it does not close again it ends all the same, with its workers.
fn close_again<G: Gate<L>, L: Ledger, R: Wait>(
    rt: &R,
    alloc: Global,
    refused: CloseRefused<G, L>,
) -> Result<Closed, CloseFault> {
    let CloseRefused {
        fault: _,
        chassis,
        workers,
    } = refused;
    match chassis.close(alloc, workers) {
        Ok(closed) => Ok(closed),
        Err(refused) => Err(end(rt, refused)),
    }
}

/// Closes a chassis, with a second try where memory was refused. Where it does not close it ends all the same, with
/// its workers.
fn close<G: Gate<L>, L: Ledger, R: Wait>(
    rt: &R,
    alloc: Global,
    chassis: Chassis<G, L>,
    workers: Vec<Worker<L>>,
    tries: u8,
) -> Result<Closed, CloseFault> {
    let refused = match chassis.close(alloc, workers) {
        Ok(closed) => return Ok(closed),
        Err(refused) => refused,
    };
    if tries < 2 || refused.fault != CloseFault::OutOfMemory {
        return Err(end(rt, refused));
    }
    close_again(rt, alloc, refused)
}

/// Closes a chassis without its last worker, and gives why that is refused, with all as it was.
fn close_without_last<L: Ledger, R: Abort>(
    rt: &R,
    alloc: Global,
    chassis: Chassis<NoGate, L>,
    mut workers: Vec<Worker<L>>,
) -> (CloseFault, Chassis<NoGate, L>, Vec<Worker<L>>) {
    let last = workers.pop().expect(rt, "a last worker");
    let refused = match chassis.close(alloc, workers) {
        Ok(_) => panic!(rt; "closed without its last worker"),
        Err(refused) => refused,
    };
    let CloseRefused {
        fault,
        chassis,
        mut workers,
    } = refused;
    add(&mut workers, last);
    (fault, chassis, workers)
}

/// Cuts the journals of a chassis that was not cut since memory was refused.
fn cut_again<L: Ledger, R: Abort>(
    rt: &R,
    alloc: Global,
    refused: CloseRefused<NoGate, L>,
) -> (Chassis<NoGate, L>, Vec<Worker<L>>, Cut) {
    let CloseRefused {
        fault,
        chassis,
        workers,
    } = refused;
    assert!(rt; fault == CloseFault::OutOfMemory);
    match chassis.cut(alloc, workers) {
        Ok(done) => done,
        Err(_) => panic!(rt; "not cut"),
    }
}

/// Cuts the journals of a chassis, with a second try where memory was refused.
fn cut<L: Ledger, R: Abort + Wait>(
    rt: &R,
    alloc: Global,
    chassis: Chassis<NoGate, L>,
    workers: Vec<Worker<L>>,
    tries: u8,
) -> (Chassis<NoGate, L>, Vec<Worker<L>>, Cut) {
    match chassis.cut(alloc, workers) {
        Ok(done) => done,
        Err(refused) => {
            assert!(rt; tries > 1);
            cut_again(rt, alloc, refused)
        }
    }
}

/// Cuts a chassis without its last worker, and gives why that is refused, with all as it was.
fn cut_without_last<L: Ledger, R: Abort>(
    rt: &R,
    alloc: Global,
    chassis: Chassis<NoGate, L>,
    mut workers: Vec<Worker<L>>,
) -> (CloseFault, Chassis<NoGate, L>, Vec<Worker<L>>) {
    let last = workers.pop().expect(rt, "a last worker");
    let refused = match chassis.cut(alloc, workers) {
        Ok(_) => panic!(rt; "cut without its last worker"),
        Err(refused) => refused,
    };
    let CloseRefused {
        fault,
        chassis,
        mut workers,
    } = refused;
    add(&mut workers, last);
    (fault, chassis, workers)
}
