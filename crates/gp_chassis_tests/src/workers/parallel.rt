//! Ports that are served at once, by real threads.
ghost use Rattle.std.specs.Prelude.{◌≡◌};
ghost use Rattle.gp_licence.specs.declared.ledger_parts.TheConstants.{MAX_LICENCES};

use super::meeting::{ARMED, INSIDE, MET, Meeting, Meets};
use super::{add, close, play, workers_of};
use crate::units::{SEARCH, Said, chassis_of, heard};
use gp_chassis::ChassisConfig;
use gp_licence::MAX_LICENCES;
use gp_machine::Event;
use gp_workers::{Chassis, NoGate, Worker};
use std::alloc::Global;
use std::marker::Brand;
use std::process::Abort;
use std::sync::Wait;
use std::sync::atomic::{AtomicU64, Ordering};
use std::sync::ledger::{Blank, Ledger};
use std::thread;
use std::thread::Threads;
use std::time::Clock;

/// Sixteen ports, each of which admits 63 units of its own.
const UNITS: &[(u16, u16)] = &[
    (1, 63),
    (101, 63),
    (201, 63),
    (301, 63),
    (401, 63),
    (501, 63),
    (601, 63),
    (701, 63),
    (801, 63),
    (901, 63),
    (1001, 63),
    (1101, 63),
    (1201, 63),
    (1301, 63),
    (1401, 63),
    (1501, 63),
];

/// The number of a port's first unit.
fn first_unit(port: u8) -> u16 {
    u16::from(port) * 100 + 1
}

/// Has one port serve an event while another, whose lock is kept, has begun to serve one; and gives what the meeting
/// has noted.
fn meet<C: Clock + Drop + Send + Sync, L: Ledger + Send + Sync, R: Abort + Threads + Wait + Sync>(
    rt: &R,
    alloc: Global,
    blank: Blank,
    meeting: &Meeting<C>,
    config: &ChassisConfig,
    events: (Event, Event),
) -> Option<(u64, u64)>
    requires name { blank.name ≡ L.name }
    requires parts { (blank.parts ≡ L.parts) × (L.parts ≡ MAX_LICENCES) }
{
    let chassis = Chassis::<Meets<'_, C>, L>::begin(alloc, blank, config, Meets(meeting)).ok()?;
    let mut opener = workers_of(rt, alloc, &chassis, 1);
    let lines = [
        (0, 1, meeting.kept, SEARCH, Ok(Said::Searching)),
        (0, 1, meeting.kept, Event::Frame, Ok(Said::Ticked)),
    ];
    let wrong = play(rt, &chassis, &mut opener, &lines, 1);
    let mut first = chassis.worker(rt, alloc).expect(rt, "a first worker");
    let mut second = chassis.worker(rt, alloc).expect(rt, "a second worker");
    meeting.stage.store(ARMED, Ordering::SeqCst);
    let (kept, other) = thread::join(
        rt,
        || chassis
            .apply(rt, &mut first, meeting.kept, events.0)
            .is_ok(),
        || {
            meeting.wait_for(INSIDE);
            chassis
                .apply(rt, &mut second, meeting.awaited, events.1)
                .is_ok()
        },
    );
    add(&mut opener, first);
    add(&mut opener, second);
    let closed = close(rt, alloc, chassis, opener, 1).is_ok();
    if wrong.is_some() || !kept || !other || !closed {
        return None;
    }
    Some((
        meeting.owed.load(Ordering::SeqCst),
        meeting.stage.load(Ordering::SeqCst),
    ))
}

/// What is noted where two ports of a new chassis are served at once: how many copies were owed on the first, and
/// whether the other answered meanwhile.
fn notes_of<C: Clock + Drop + Send + Sync, R: Abort + Threads + Wait + Sync>(
    rt: &R,
    alloc: Global,
    clock: C,
    (kept, awaited): (u8, u8),
    events: (Event, Event),
) -> Option<(u64, u64)> {
    let config = chassis_of(alloc, 100, 100, 1, UNITS).ok()?;
    let meeting = Meeting {
        clock,
        kept,
        awaited,
        owed: AtomicU64::new(0),
        stage: AtomicU64::new(0),
    };
    let blank = Blank::new(u64::from(MAX_LICENCES));
    meet::<C, Brand, R>(rt, alloc, blank, &meeting, &config, events)
}

/// Notes that three copies were owed on the first port, and that the other answered meanwhile.
const MEET: Option<(u64, u64)> = Some((3, MET));

/// Tells whether two ports meet that hear their first units at once.
fn meet_by_bursts<C: Clock + Drop + Send + Sync, R: Abort + Threads + Wait + Sync>(
    rt: &R,
    alloc: Global,
    clock: C,
    (kept, other): (u8, u8),
) -> bool {
    let bursts = (heard(first_unit(kept)), heard(first_unit(other)));
    notes_of(rt, alloc, clock, (kept, other), bursts) == MEET
}

#[test]
fn two_ports_at_once(rt: HostRuntime) {
    let frames = (Event::Frame, Event::Frame);
    assert!(rt; notes_of(&rt, rt.alloc(), rt, (0, 1), frames) == MEET);
    for other in 1..16u8 {
        for kept in 0..other {
            let is_met = meet_by_bursts(&rt, rt.alloc(), rt, (kept, other));
            assert!(rt; is_met, "ports {kept} and {other}");
        }
    }
}

/// Has a port hear all its units.
fn hear_all<L: Ledger, R: Wait>(
    rt: &R,
    chassis: &Chassis<NoGate, L>,
    worker: &mut Worker<L>,
    port: u8,
) {
    for number in 0..63u16 {
        let event = heard(first_unit(port).wrapping_add(number));
        let _ = chassis.apply(rt, worker, port, event);
    }
}

/// Opens a search window on a port.
fn open_window<L: Ledger, R: Wait>(
    rt: &R,
    chassis: &Chassis<NoGate, L>,
    workers: &mut [Worker<L>],
    port: u8,
) {
    let lines = [
        (0, 1, port, SEARCH, Ok(Said::Searching)),
        (0, 5, port, Event::Frame, Ok(Said::Ticked)),
    ];
    let _ = play(rt, chassis, workers, &lines, 1);
}

/// Opens one on each port.
fn open_windows<L: Ledger, R: Wait>(
    rt: &R,
    chassis: &Chassis<NoGate, L>,
    workers: &mut [Worker<L>],
) {
    for port in 0..16u8 {
        open_window(rt, chassis, workers, port);
    }
}

/// Opens a search window on each port, has all ports hear their units at once, and gives how many bursts the journals
/// have and how many units are active.
fn storm_of<L: Ledger + Send + Sync, R: Threads + Wait + Sync>(
    rt: &R,
    alloc: Global,
    blank: Blank,
    config: &ChassisConfig,
) -> Option<(u64, u64)>
    requires name { blank.name ≡ L.name }
    requires parts { (blank.parts ≡ L.parts) × (L.parts ≡ MAX_LICENCES) }
{
    let chassis = Chassis::<NoGate, L>::begin(alloc, blank, config, NoGate).ok()?;
    let mut workers = workers_of(rt, alloc, &chassis, 16);
    open_windows(rt, &chassis, &mut workers);
    let shared = &chassis;
    thread::for_each_mut(
        rt,
        workers.as_mut_slice(),
        16,
        &|port, worker| {
            if let Ok(port) = u8::try_from(port) {
                hear_all(rt, shared, worker, port);
            }
        },
    );
    let closed = close(rt, alloc, chassis, workers, 1).ok()?;
    Some((closed.totals.bursts, closed.totals.units))
}

/// The same with a new ledger.
fn storm<R: Threads + Wait + Sync>(rt: &R, alloc: Global) -> Option<(u64, u64)> {
    let config = chassis_of(alloc, 100, 200, 1, UNITS).ok()?;
    storm_of::<Brand, R>(rt, alloc, Blank::new(u64::from(MAX_LICENCES)), &config)
}

// Each unit is heard once, and each of them that gets one of the hundred licences keeps it.
#[test]
fn sixteen_ports_at_once(rt: HostRuntime) {
    assert!(rt; storm(&rt, rt.alloc()) == Some((16 * 63, 100)));
}
