//! Measures frames that one, two and four threads have served by one chassis, each by a port of its own.
ghost use Rattle.std.specs.Prelude.{◌≡◌};
ghost use Rattle.gp_licence.specs.declared.ledger_parts.TheConstants.{MAX_LICENCES};

use super::config::{config_of, error_of, memory};
use super::measured::Measured;
use gp_chassis::{ChassisConfig, MAX_PORTS};
use gp_licence::MAX_LICENCES;
use gp_machine::{Event, Receipt};
use gp_workers::{Chassis, CloseFault, CloseRefused, NoGate, Worker};
use std::alloc::{AllocError, Global};
use std::marker::Brand;
use std::rt::Clock;
use std::sync::Wait;
use std::sync::ledger::{Blank, Ledger};
use std::thread::Threads;
use std::time::Instant;
use std::{io, thread};

/// How many frames each thread has served in a round: as many entries a journal keeps then, and as many receipts a
/// worker.
const FRAMES: u32 = 16_384;

/// A chassis with a worker for each of its ports.
struct Staffed<L: Ledger> {
    chassis: Chassis<NoGate, L>,
    workers: Vec<Worker<L>>,
}

/// Makes what a chassis is opened with: so many ports, none of which admits a unit.
fn config_with(alloc: Global, ports: u8) -> Result<ChassisConfig, AllocError> {
    let mut configs = Vec::new(alloc);
    for _ in 0..ports {
        configs.push(config_of(Vec::new(alloc)))?;
    }
    Ok(ChassisConfig {
        licences: 0,
        journal_limit: FRAMES,
        ports: configs,
    })
}

/// Measures frames that 1, 2 and 4 threads have served by one chassis, each thread by a port of its own.
pub(crate) fn measure_threads<R: AllocGlobal + Print + Eprint + Clock + Threads + Wait + Sync>(
    rt: &R,
    rounds: u32,
) -> io::Result<()> {
    for threads in [1, 2, 4] {
        let blank = Blank::new(u64::from(MAX_LICENCES));
        measure_chassis::<Brand, R>(rt, blank, threads, rounds)?;
    }
    Ok(())
}

/// Measures so many threads.
fn measure_chassis<
    L: Ledger + Send + Sync,
    R: AllocGlobal + Print + Eprint + Clock + Threads + Wait + Sync,
>(rt: &R, blank: Blank, threads: u8, rounds: u32) -> io::Result<()>
    requires name { blank.name ≡ L.name }
    requires parts { (blank.parts ≡ L.parts) × (L.parts ≡ MAX_LICENCES) }
{
    let alloc = rt.alloc();
    let config = config_with(alloc, threads)?;
    let chassis = Chassis::<NoGate, L>::begin(alloc, blank, &config, NoGate).map_err(error_of)?;
    let mut staffed = staff(rt, chassis, threads)?;
    let mut measured = Measured::default();
    for _ in 0..rounds {
        staffed = measure_round(rt, staffed, &mut measured)?;
    }
    let Staffed { chassis, workers } = staffed;
    match chassis.close(alloc, workers) {
        Ok(closed) => measured.tell(rt, "frames by threads", closed.journals.len()),
        Err(refused) => Err(give_up(rt, refused)),
    }
}

/// Makes so many workers of a chassis, which ends where they can't be made.
fn staff<L: Ledger, R: AllocGlobal + Wait>(
    rt: &R,
    chassis: Chassis<NoGate, L>,
    count: u8,
) -> io::Result<Staffed<L>> {
    match workers_of(rt, &chassis, count) {
        Ok(workers) => Ok(Staffed { chassis, workers }),
        Err(error) => {
            chassis.discard(rt);
            Err(error)
        }
    }
}

/// Makes so many workers.
fn workers_of<L: Ledger, R: AllocGlobal + Wait>(
    rt: &R,
    chassis: &Chassis<NoGate, L>,
    count: u8,
) -> io::Result<Vec<Worker<L>>> {
    let mut workers = Vec::with_capacity(rt.alloc(), usize::from(count))?;
    for _ in 0..count {
        let Ok(worker) = chassis.worker(rt, rt.alloc()) else {
            retire_all(workers);
            return Err(io::ErrorKind::InvalidInput.into());
        };
        workers.push_reserved(worker);
    }
    Ok(workers)
}

/// Measures a round. The journals are cut after it, where they agree with the receipts, which is not in the time.
fn measure_round<L: Ledger + Send + Sync, R: AllocGlobal + Clock + Threads + Wait + Sync>(
    rt: &R,
    staffed: Staffed<L>,
    measured: &mut Measured,
) -> io::Result<Staffed<L>> {
    let Staffed {
        chassis,
        mut workers,
    } = staffed;
    let sum = match serve(rt, &chassis, workers.as_mut_slice(), measured) {
        Ok(sum) => sum,
        Err(error) => {
            retire_all(workers);
            chassis.discard(rt);
            return Err(error);
        }
    };
    match chassis.cut(rt.alloc(), workers) {
        Ok((chassis, workers, cut)) => {
            measured.count_all(cut.totals.frames, sum);
            Ok(Staffed { chassis, workers })
        }
        Err(refused) => Err(give_up(rt, refused)),
    }
}

/// Has each worker's frames served in a thread of its own, and adds up what the workers were told. That the threads
/// are started and joined is in the time.
fn serve<L: Ledger + Send + Sync, R: Clock + Threads + Wait + Sync>(
    rt: &R,
    chassis: &Chassis<NoGate, L>,
    workers: &mut [Worker<L>],
    measured: &mut Measured,
) -> io::Result<u64> {
    let begin = Instant::now(rt)?;
    thread::for_each_mut(
        rt,
        workers,
        usize::from(MAX_PORTS),
        &|port, worker| {
            if let Ok(port) = u8::try_from(port) {
                serve_frames(rt, chassis, port, worker);
            }
        },
    );
    measured.add_time(rt, begin)?;
    let mut sum = 0u64;
    for worker in workers {
        sum = sum.wrapping_add(sum_of(worker.receipts())?);
    }
    Ok(sum)
}

/// Has a round's frames served by a port, up to the first that is not.
fn serve_frames<L: Ledger, R: Wait>(
    rt: &R,
    chassis: &Chassis<NoGate, L>,
    port: u8,
    worker: &mut Worker<L>,
) {
    for _ in 0..FRAMES {
        if chassis.apply(rt, worker, port, Event::Frame).is_err() {
            return;
        }
    }
}

/// Adds up the numbers of the entries of a round. Memory was refused where there are fewer.
fn sum_of(receipts: &[Receipt]) -> io::Result<u64> {
    if receipts.len() < FRAMES as usize {
        return Err(memory());
    }
    let mut sum = 0u64;
    for receipt in receipts {
        sum = sum.wrapping_add(receipt.number);
    }
    Ok(sum)
}

/// Ends a chassis that is not closed or cut, with its workers, and tells why.
fn give_up<L: Ledger, R: Wait>(rt: &R, refused: CloseRefused<NoGate, L>) -> io::Error {
    let CloseRefused {
        fault,
        chassis,
        workers,
    } = refused;
    retire_all(workers);
    chassis.discard(rt);
    match fault {
        CloseFault::OutOfMemory => memory(),
        _ => io::ErrorKind::InvalidData.into(),
    }
}

/// Ends workers.
fn retire_all<L: Ledger>(workers: Vec<Worker<L>>) {
    let mut workers = workers;
    while let Some(worker) = workers.pop() {
        worker.retire();
    }
    workers.destroy_empty();
}
