//! The rings between feeders and readers, and the loops of readers, clock and operator.
ghost use Rattle.std.specs.Prelude.{◌≡◌, ◌+◌, ◌-◌, ◌<◌, ◌≤◌, [], ℕ, length, map, All, Ok, Err, IfErr, IfOk, MatchResult, slice_index_or, vec_len};
ghost use Rattle.gp_machine.specs.Config.{max_ports};
ghost use Rattle.gp_workers.specs.Ring.{GrowsByBursts};
ghost use Rattle.gp_storm.specs.Faults.{plan_fault_of};
ghost use Rattle.gp_storm.specs.Plan.{bursts_at};
ghost use Rattle.gp_storm.specs.Serving.{AreServed, IsFaultOf, IsServed};

use super::fault::PlanFault;
use super::feeder::feed;
use super::plan::Plan;
use super::task::{Task, end_tasks, first_fault, retire_all, tasks_for, workers_of};
use gp_chassis::ApplyFault;
use gp_workers::{Chassis, NoGate, RingItem, Worker, clock_loop, operator_loop, reader_loop};
use rtrb::{Consumer, Producer, RingBuffer};
use std::alloc::{AllocError, Global};
use std::sync::Wait;
use std::sync::ledger::Ledger;
use std::thread::Threads;
use std::{mem, thread};

/// How many items a ring has room for.
const RING_CAPACITY: usize = 64;

/// The ends of the rings of all ports.
#[derive(Drop)]
pub(crate) struct RingEnds {
    /// The end of each port's feeder.
    producers: Vec<Producer<RingItem>>,
    /// The end of each task: the operator has none, then each port's reader has one, and the clock has none.
    consumers: Vec<Option<Consumer<RingItem>>>,
}

/// Makes a ring for each port.
pub(crate) fn rings(alloc: Global, ports: usize) -> Result<RingEnds, AllocError>
    requires { ports ≤ max_ports }
    ensures { IfOk result (λ rings. vec_len rings.consumers ≡ ports + 2) }
{
    let mut producers = Vec::with_capacity(alloc, ports)?;
    let mut consumers = Vec::with_capacity(alloc, ports + 2)?;
    consumers.push_reserved(None);
    for _ in 0..ports {
        let (producer, consumer) = RingBuffer::new(alloc, RING_CAPACITY)?;
        producers.push_reserved(producer);
        consumers.push_reserved(Some(consumer));
    }
    consumers.push_reserved(None);
    Ok(RingEnds {
        producers,
        consumers,
    })
}

/// What the answer of a loop means for the storm.
fn told(answer: Result<u64, ApplyFault>) -> Result<(), PlanFault>
    ensures { MatchResult answer (λ count. result ≡ Ok tt) (λ fault. result ≡ Err (plan_fault_of fault)) }
{
    match answer {
        Ok(_) => Ok(()),
        Err(fault) => Err(PlanFault::from(fault)),
    }
}

/// Runs the reader of a port.
fn read<L: Ledger, R: Wait>(
    rt: &R,
    chassis: &Chassis<NoGate, L>,
    port: usize,
    task: &mut Task<L>,
) -> Result<(), PlanFault>
    requires { task.old.worker.receipts ≡ [] }
    ensures { GrowsByBursts [] task.new.worker.receipts port }
{
    let Ok(number) = u8::try_from(port) else {
        return Err(PlanFault::Mismatch);
    };
    let Some(consumer) = mem::replace(&mut task.ring, None) else {
        return Err(PlanFault::Mismatch);
    };
    told(reader_loop(rt, chassis, &mut task.worker, number, consumer))
}

/// Runs the loop of the task at a place: the first one is the operator's, the last one the clock's, and between them
/// each port has its reader.
fn serve<L: Ledger, R: Wait>(
    rt: &R,
    chassis: &Chassis<NoGate, L>,
    plan: &Plan,
    last: usize,
    place: usize,
    task: &mut Task<L>,
)
    requires { task.old.worker.receipts ≡ [] }
    ensures { IsServed plan.now last place task.new.worker.receipts task.new.ended }
{
    task.ended = if place == 0 {
        let commands = plan.commands.as_slice();
        told(operator_loop(rt, chassis, &mut task.worker, commands))
    } else if place == last {
        let pairs = plan.frames.as_slice();
        told(clock_loop(rt, chassis, &mut task.worker, pairs))
    } else {
        read(rt, chassis, place - 1, task)
    };
}

/// Runs all tasks to their ends, each in a thread of its own where one can be made.
fn serve_all<L: Ledger + Send + Sync, R: Threads + Wait + Sync>(
    rt: &R,
    chassis: &Chassis<NoGate, L>,
    plan: &Plan,
    tasks: &mut [Task<L>],
)
    requires some { 0 < length tasks.old }
    requires fresh { All (λ task. task.worker.receipts ≡ []) tasks.old }
    ensures { (place : ℕ) (d : _) → place < length tasks.old
        → IsServed plan.now (length tasks.old - 1) place (slice_index_or tasks.new place d).worker.receipts
        (slice_index_or tasks.new place d).ended }
{
    let count = tasks.len();
    let last = count - 1;
    thread::for_each_mut(
        rt,
        tasks,
        count,
        &|place, task| { serve(rt, chassis, plan, last, place, task) },
    );
}

/// Runs all tasks to their ends, and hands out their workers where none had a fault.
fn workers_after<L: Ledger + Send + Sync, R: Threads + Wait + Sync>(
    rt: &R,
    alloc: Global,
    chassis: &Chassis<NoGate, L>,
    plan: &Plan,
    tasks: Vec<Task<L>>,
) -> Result<Vec<Worker<L>>, PlanFault>
    requires some { 1 < vec_len tasks }
    requires fresh { All (λ task. task.worker.receipts ≡ []) tasks.items }
    ensures served { IfOk result
        (λ workers. AreServed plan.now (vec_len tasks - 1) (map (λ worker. worker.receipts) workers.items)) }
    ensures fault { IfErr result (IsFaultOf plan.now (vec_len tasks - 1)) }
{
    let Ok(workers) = Vec::with_capacity(alloc, tasks.len()) else {
        end_tasks(tasks);
        return Err(PlanFault::OutOfMemory);
    };
    let mut tasks = tasks;
    serve_all(rt, chassis, plan, tasks.as_mut_slice());
    match first_fault(tasks.as_slice()) {
        Ok(()) => Ok(workers_of(tasks, workers)),
        Err(fault) => {
            workers.destroy_empty();
            end_tasks(tasks);
            Err(fault)
        }
    }
}

/// The bursts that are planned for a port: none where the plan has no list for it.
fn bursts_for(plan: &Plan, port: usize) -> &[(u32, [u8; 13])]
    ensures { result.now ≡ bursts_at port plan.now }
{
    match plan.bursts.get(port) {
        Some(bursts) => bursts.as_slice(),
        None => &[],
    }
}

/// Runs the plan's threads to their ends: a feeder for each ring, and the tasks. A feeder that is not started is a
/// mismatch; then the ends of all rings are dropped, so that no thread waits for it.
pub(crate) fn run<L: Ledger + Send + Sync, R: Threads + Wait + Sync>(
    rt: &R,
    alloc: Global,
    chassis: &Chassis<NoGate, L>,
    plan: &Plan,
    rings: RingEnds,
    workers: Vec<Worker<L>>,
) -> Result<Vec<Worker<L>>, PlanFault>
    requires some { 1 < vec_len rings.consumers }
    requires count { vec_len workers ≡ vec_len rings.consumers }
    requires fresh { All (λ worker. worker.receipts ≡ []) workers.items }
    ensures served { IfOk result
        (λ workers. AreServed plan.now (vec_len rings.consumers - 1) (map (λ worker. worker.receipts) workers.items)) }
    ensures fault { IfErr result (IsFaultOf plan.now (vec_len rings.consumers - 1)) }
{
    let RingEnds {
        producers,
        consumers,
    } = rings;
    // A closure holds nothing that can't be dropped, so it takes the workers out of a list that it borrows.
    let mut handed = workers;
    let lent = &mut handed;
    let served = thread::scope(
        thread::scope_env(),
        rt,
        move |scope| -> Result<Vec<Worker<L>>, PlanFault>
            requires some { 1 < vec_len consumers }
            requires count { vec_len lent.now ≡ vec_len consumers }
            requires fresh { All (λ worker. worker.receipts ≡ []) lent.now.items }
            ensures { MatchResult result
                (λ workers. AreServed plan.entry.now (vec_len consumers - 1)
                (map (λ worker. worker.receipts) workers.items))
                (IsFaultOf plan.entry.now (vec_len consumers - 1)) }
        {
            let workers = mem::replace(lent, Vec::new(alloc));
            let tasks = match tasks_for(alloc, consumers, workers) {
                Ok(tasks) => tasks,
                Err(fault) => return Err(fault),
            };
            let mut producers = producers;
            while let Some(producer) = producers.pop() {
                let mut producer = producer;
                let bursts = bursts_for(plan, producers.len());
                if scope
                    .spawn(move || feed(rt, &mut producer, bursts))
                    .is_err()
                {
                    end_tasks(tasks);
                    return Err(PlanFault::Mismatch);
                }
            }
            workers_after(rt, alloc, chassis, plan, tasks)
        },
    );
    retire_all(handed);
    served
}
