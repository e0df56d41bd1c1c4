//! What one thread of a storm has while it runs.
ghost use Rattle.std.specs.Prelude.{◌≡◌, ◌+◌, ◌<◌, ◌≤◌, ◌∷◌, [], ◌⊎◌, map, All, IfErr, IfOk, vec_len, vec_capacity};
ghost use Rattle.gp_storm.specs.Serving.{first_fault_of};

use super::fault::PlanFault;
use gp_workers::{Chassis, NoGate, RingItem, Worker};
use rtrb::Consumer;
use std::alloc::Global;
use std::sync::Wait;
use std::sync::ledger::Ledger;

/// What one thread of a storm has: its worker, a reader's end of its ring, and how its loop ended.
pub(crate) struct Task<L: Ledger> {
    pub(crate) worker: Worker<L>,
    pub(crate) ring: Option<Consumer<RingItem>>,
    pub(crate) ended: Result<(), PlanFault>,
}

/// Makes so many workers of a chassis. Where one isn't made those before it end.
pub(crate) fn workers_for<L: Ledger, R: Wait>(
    rt: &R,
    alloc: Global,
    chassis: &Chassis<NoGate, L>,
    count: usize,
) -> Result<Vec<Worker<L>>, PlanFault>
    ensures count { IfOk result (λ workers. vec_len workers ≡ count) }
    ensures fresh { IfOk result (λ workers. All (λ worker. worker.receipts ≡ []) workers.items) }
    ensures fault { IfErr result
        (λ fault. (fault ≡ PlanFault.OutOfMemory) ⊎ (fault ≡ PlanFault.Mismatch)) }
{
    let Ok(workers) = Vec::with_capacity(alloc, count) else {
        return Err(PlanFault::OutOfMemory);
    };
    let mut workers = workers;
    for _ in 0..count {
        let Ok(worker) = chassis.worker(rt, alloc) else {
            retire_all(workers);
            return Err(PlanFault::Mismatch);
        };
        workers.push_reserved(worker);
    }
    Ok(workers)
}

/// Ends workers.
pub(crate) fn retire_all<L: Ledger>(workers: Vec<Worker<L>>) {
    let mut workers = workers;
    while let Some(worker) = workers.pop() {
        worker.retire();
    }
    workers.destroy_empty();
}

/// Makes a task for each end of a ring, with one of the workers in each.
pub(crate) fn tasks_for<L: Ledger>(
    alloc: Global,
    rings: Vec<Option<Consumer<RingItem>>>,
    workers: Vec<Worker<L>>,
) -> Result<Vec<Task<L>>, PlanFault>
    requires count { vec_len workers ≡ vec_len rings }
    requires fresh { All (λ worker. worker.receipts ≡ []) workers.items }
    ensures count { IfOk result (λ tasks. vec_len tasks ≡ vec_len rings) }
    ensures fresh { IfOk result (λ tasks. All (λ task. task.worker.receipts ≡ []) tasks.items) }
    ensures fault { IfErr result (λ fault. fault ≡ PlanFault.OutOfMemory) }
{
    let Ok(tasks) = Vec::with_capacity(alloc, rings.len()) else {
        retire_all(workers);
        return Err(PlanFault::OutOfMemory);
    };
    let mut tasks = tasks;
    let mut workers = workers;
    let mut rings = rings;
    while !rings.is_empty() {
        tasks.push_reserved(Task {
            worker: workers.remove(0),
            ring: rings.remove(0),
            ended: Ok(()),
        });
    }
    workers.destroy_empty();
    Ok(tasks)
}

/// Gives the first fault in the order of the tasks: the operator's, else that of the first reader by port, else the
/// clock's.
pub(crate) fn first_fault<L: Ledger>(tasks: &[Task<L>]) -> Result<(), PlanFault>
    ensures { result ≡ first_fault_of (map (λ task. task.ended) tasks.now) }
{
    for task in tasks {
        if let Err(fault) = task.ended {
            return Err(fault);
        }
    }
    Ok(())
}

/// Takes the workers out of their tasks, in order, into an empty list that has room for them.
pub(crate) fn workers_of<L: Ledger>(tasks: Vec<Task<L>>, workers: Vec<Worker<L>>) -> Vec<Worker<L>>
    requires empty { workers.items ≡ [] }
    requires room { vec_len tasks ≤ vec_capacity workers }
    ensures { result.items ≡ map (λ task. task.worker) tasks.items }
{
    let mut tasks = tasks;
    let mut workers = workers;
    while !tasks.is_empty() {
        let Task {
            worker,
            ring: _,
            ended: _,
        } = tasks.remove(0);
        workers.push_reserved(worker);
    }
    tasks.destroy_empty();
    workers
}

/// Ends tasks, with their workers and their ends of rings.
pub(crate) fn end_tasks<L: Ledger>(tasks: Vec<Task<L>>) {
    let mut tasks = tasks;
    while let Some(task) = tasks.pop() {
        let Task {
            worker,
            ring: _,
            ended: _,
        } = task;
        worker.retire();
    }
    tasks.destroy_empty();
}
