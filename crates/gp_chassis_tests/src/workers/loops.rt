//! What the loops have a chassis serve, and what they leave in a ring.
ghost use Rattle.std.specs.Prelude.{◌≡◌};
ghost use Rattle.gp_licence.specs.declared.ledger_parts.TheConstants.{MAX_LICENCES};

use super::{close, workers_of};
use crate::units::{A_OCTETS, chassis_of};
use gp_chassis::{ApplyFault, ChassisConfig};
use gp_licence::MAX_LICENCES;
use gp_machine::Command;
use gp_workers::{
    Chassis, Closed, NoGate, RingItem, Worker, clock_loop, operator_loop, reader_loop,
};
use rtrb::{Consumer, Producer, RingBuffer};
use std::alloc::Global;
use std::marker::Brand;
use std::sync::Wait;
use std::sync::ledger::{Blank, Ledger};
use std::thread;
use std::thread::Threads;

/// What a loop answers, and how many receipts its worker got.
type Told = (Result<u64, ApplyFault>, usize);

/// What a clock, an operator and a reader told, and how many frames, commands and bursts the journals have.
type Outcome = ((Told, Told, Told), Option<(u64, u64, u64)>);

/// Three frames on two ports; a search on port 1, and one on a port that is not there; two bursts.
const TOLD: (Told, Told, Told) = ((Ok(3), 3), (Err(ApplyFault::NoPort), 1), (Ok(2), 2));

/// A burst of A.
const BURST: RingItem = RingItem::Burst {
    at: 100_000,
    bytes: A_OCTETS,
};

/// Runs a clock, an operator and a reader, each with a worker of its own.
fn run<L: Ledger, R: Wait>(
    rt: &R,
    chassis: &Chassis<NoGate, L>,
    workers: &mut [Worker<L>],
    consumer: Consumer<RingItem>,
) -> (Told, Told, Told) {
    if workers.len() < 3 {
        return ((Ok(0), 0), (Ok(0), 0), (Ok(0), 0));
    }
    let ticked = clock_loop(rt, chassis, &mut workers[0], &[(0, 2), (1, 1)]);
    let commands = [(1, Command::Search), (5, Command::Search)];
    let asked = operator_loop(rt, chassis, &mut workers[1], &commands);
    let read = reader_loop(rt, chassis, &mut workers[2], 0, consumer);
    (
        (ticked, workers[0].receipts().len()),
        (asked, workers[1].receipts().len()),
        (read, workers[2].receipts().len()),
    )
}

/// How many frames, commands and bursts the journals have.
fn events_of(closed: Option<Closed>) -> Option<(u64, u64, u64)> {
    closed.map(|closed| {
        (
            closed.totals.frames,
            closed.totals.commands,
            closed.totals.bursts,
        )
    })
}

/// Runs the loops on a chassis of two ports. There is no outcome where it is not opened.
fn outcome_of<L: Ledger, R: Wait>(
    rt: &R,
    alloc: Global,
    blank: Blank,
    config: &ChassisConfig,
    consumer: Consumer<RingItem>,
    tries: u8,
) -> Option<Outcome>
    requires name { blank.name ≡ L.name }
    requires parts { (blank.parts ≡ L.parts) × (L.parts ≡ MAX_LICENCES) }
{
    let chassis = Chassis::<NoGate, L>::begin(alloc, blank, config, NoGate).ok()?;
    let mut workers = workers_of(rt, alloc, &chassis, 3);
    let told = run(rt, &chassis, &mut workers, consumer);
    let closed = close(rt, alloc, chassis, workers, tries);
    Some((told, events_of(closed.ok())))
}

/// The same with a new ledger.
fn outcome_of_ring<R: Wait>(
    rt: &R,
    alloc: Global,
    consumer: Consumer<RingItem>,
    tries: u8,
) -> Option<Outcome> {
    let config = chassis_of(alloc, 1, 100, 1, &[(1, 1), (101, 1)]).ok()?;
    let blank = Blank::new(u64::from(MAX_LICENCES));
    outcome_of::<Brand, R>(rt, alloc, blank, &config, consumer, tries)
}

/// The same with a ring of two bursts. It is told also how much room the ring has at last.
fn outcome<R: Wait>(rt: &R, alloc: Global, tries: u8) -> Option<(Outcome, usize)> {
    let (mut producer, consumer) = RingBuffer::new(alloc, 3).ok()?;
    if producer
        .push_entire_slice(&[BURST, BURST, RingItem::End])
        .is_err()
    {
        return None;
    }
    let outcome = outcome_of_ring(rt, alloc, consumer, tries)?;
    Some((outcome, producer.slots()))
}

/// Tells whether there is an outcome, and it is what the loops have to tell.
fn is_whole(found: &Option<(Outcome, usize)>) -> bool {
    match found {
        Some((outcome, room)) => { outcome.0 == TOLD && outcome.1 == Some((3, 1, 2)) && *room == 3 }
        None => false,
    }
}

#[test]
fn clock_operator_and_reader(rt: HostRuntime) {
    assert!(rt; is_whole(&outcome(&rt, rt.alloc(), 1)));
}

/// Whether a loop told what it has to, or ended early since memory ran out.
fn is_told(told: &Told, whole: &Told) -> bool {
    *told == *whole || (told.0 == Err(ApplyFault::OutOfMemory) && told.1 < whole.1)
}

/// Whether each loop did, and the journals have as many events as the workers have receipts.
fn are_told(told: &(Told, Told, Told), events: Option<(u64, u64, u64)>) -> bool {
    let (clock, operator, reader) = told;
    is_told(clock, &TOLD.0)
        && is_told(operator, &TOLD.1)
        && is_told(reader, &TOLD.2)
        && events == Some((clock.1 as u64, operator.1 as u64, reader.1 as u64))
}

/// Whether there is an outcome, and it is this, and the ring has room for three at last.
fn is_told_by_all(found: &Option<(Outcome, usize)>) -> bool {
    match found {
        Some((outcome, room)) => are_told(&outcome.0, outcome.1) && *room == 3,
        None => false,
    }
}

/// The same with two tries of a close, and once more where the chassis was not opened.
fn outcome_at_last<R: Wait>(rt: &R, alloc: Global) -> Option<(Outcome, usize)> {
    match outcome(rt, alloc, 2) {
        None => outcome(rt, alloc, 2),
        found => found,
    }
}

// Passes whichever one request for memory is refused, and with ample memory (`rt try --test --fail-alloc N`).
#[test]
fn loops_short_of_memory(rt: HostRuntime) {
    assert!(rt; is_told_by_all(&outcome_at_last(&rt, rt.alloc())));
}

/// Puts an item into the ring once there is a place, and tells whether it did: not where the reader is gone.
fn put<R: Wait>(rt: &R, producer: &mut Producer<RingItem>, item: RingItem) -> bool {
    for _ in rt.forever() {
        if producer.push(item).is_ok() {
            return true;
        }
        if producer.is_abandoned() {
            return false;
        }
        thread::yield_now();
    }
    unreachable!()
}

/// Puts so many bursts of A into the ring and then the end, and tells whether it did.
fn feed<R: Wait>(rt: &R, producer: &mut Producer<RingItem>, bursts: u8) -> bool {
    for _ in 0..bursts {
        if !put(rt, producer, BURST) {
            return false;
        }
    }
    put(rt, producer, RingItem::End)
}

/// Feeds a ring in one thread, and reads it in another for port 0 of a chassis.
fn feed_and_read<L: Ledger + Send + Sync, R: Threads + Wait + Sync>(
    rt: &R,
    chassis: &Chassis<NoGate, L>,
    workers: &mut [Worker<L>],
    (mut producer, consumer): (Producer<RingItem>, Consumer<RingItem>),
    bursts: u8,
) -> (bool, Result<u64, ApplyFault>) {
    if workers.len() < 1 {
        return (false, Ok(0));
    }
    let worker = &mut workers[0];
    thread::join(
        rt,
        || feed(rt, &mut producer, bursts),
        || reader_loop(rt, chassis, worker, 0, consumer),
    )
}

/// Whether all went into the ring, what the reader answers, and how many frames, commands and bursts the journals have.
type Read = ((bool, Result<u64, ApplyFault>), Option<(u64, u64, u64)>);

/// Feeds a ring of two places with so many bursts in one thread, and reads it in another for a port whose journal
/// keeps so many.
fn read_of<L: Ledger + Send + Sync, R: Threads + Wait + Sync>(
    rt: &R,
    alloc: Global,
    blank: Blank,
    config: &ChassisConfig,
    bursts: u8,
) -> Option<Read>
    requires name { blank.name ≡ L.name }
    requires parts { (blank.parts ≡ L.parts) × (L.parts ≡ MAX_LICENCES) }
{
    let ring = RingBuffer::new(alloc, 2).ok()?;
    let chassis = Chassis::<NoGate, L>::begin(alloc, blank, config, NoGate).ok()?;
    let mut workers = workers_of(rt, alloc, &chassis, 1);
    let read = feed_and_read(rt, &chassis, &mut workers, ring, bursts);
    let closed = close(rt, alloc, chassis, workers, 1);
    Some((read, events_of(closed.ok())))
}

/// The same with a new ledger.
fn read<R: Threads + Wait + Sync>(
    rt: &R,
    alloc: Global,
    bursts: u8,
    journal_limit: u32,
) -> Option<Read> {
    let config = chassis_of(alloc, 1, journal_limit, 1, &[(1, 1)]).ok()?;
    let blank = Blank::new(u64::from(MAX_LICENCES));
    read_of::<Brand, R>(rt, alloc, blank, &config, bursts)
}

/// How many bursts are fed, how many entries the journal keeps, and what is read then.
const READS: [(u8, u32, Read); 2] = [
    (2, 100, ((true, Ok(2)), Some((0, 0, 2)))),
    (
        9,
        1,
        ((true, Err(ApplyFault::JournalFull)), Some((0, 0, 1))),
    ),
];

/// Tells whether something is read, and it is this.
fn is_read(found: &Option<Read>, wanted: &Read) -> bool {
    match found {
        Some((told, events)) => *told == wanted.0 && *events == wanted.1,
        None => false,
    }
}

// After the second burst has found a journal of one entry full, the others and the end are taken out all the same.
#[test]
fn reader_of_a_ring(rt: HostRuntime) {
    for (bursts, journal_limit, told) in &READS {
        let found = read(&rt, rt.alloc(), *bursts, *journal_limit);
        assert!(rt; is_read(&found, told), "{told:?}");
    }
}
