//! A storm's threads, started, joined and added up.
ghost use Rattle.std.specs.Prelude.{◌≡◌, ◌+◌, ◌<◌, ◌≤◌, ◌⊎◌, [], All, Err, IfErr, IfOk, length, map, vec_len};
ghost use Rattle.gp_licence.specs.declared.ledger_parts.TheConstants.{MAX_LICENCES};
ghost use Rattle.gp_machine.specs.Config.{max_ports};
ghost use Rattle.gp_chassis.specs.Limits.{IsWithin};
ghost use Rattle.gp_workers.specs.Closing.{Ending};
ghost use Rattle.gp_storm.specs.Plan.{frame_count};
ghost use Rattle.gp_storm.specs.Serving.{AreServed, IsFaultOf, IsStormFaultOf};

use super::fault::{PlanFault, StormFault, storm_fault};
use super::plan::Plan;
use super::task::{retire_all, workers_for};
use super::threads::{rings, run};
use gp_accounts::CloseFault;
use gp_chassis::ChassisConfig;
use gp_licence::MAX_LICENCES;
use gp_workers::{Chassis, CloseRefused, Closed, NoGate, Worker};
use std::alloc::Global;
use std::sync::Wait;
use std::sync::ledger::{Blank, Ledger};
use std::thread::Threads;

/// Runs the plan over a new chassis of this configuration, and gives what the chassis leaves. `StormFault` says when
/// there is none: `Limit`, else `NoPort` where the plan has more lists of bursts than there are ports, else the first
/// fault of the threads, else what keeps the chassis from being closed. Ports for which the plan has no list have no
/// bursts.
///
/// `blank` is a new ledger of `MAX_LICENCES` parts, made by `Blank::new`, and `L` its name.
pub fn storm<L: Ledger + Send + Sync, R: Threads + Wait + Sync>(
    rt: &R,
    alloc: Global,
    blank: Blank,
    config: &ChassisConfig,
    plan: &Plan,
) -> Result<Closed, StormFault>
    requires name { blank.name ≡ L.name }
    requires parts { (blank.parts ≡ L.parts) × (L.parts ≡ MAX_LICENCES) }
    ensures limit { IsWithin config.now → result ≡ Err StormFault.Limit → ⊥ }
    ensures outside { (IsWithin config.now → ⊥) → result ≡ Err StormFault.Limit }
    ensures licences { IfOk result (λ closed. closed.licences ≡ config.now.licences) }
    ensures ending { IfOk result (λ closed. Ending config.now.ports.items closed.journals.items closed.totals) }
    ensures frames { IfOk result (λ closed. closed.totals.frames ≡ frame_count plan.now.frames.items) }
    ensures commands { IfOk result (λ closed. closed.totals.commands ≡ length plan.now.commands.items) }
    ensures no_port { IsWithin config.now → length config.now.ports.items < length plan.now.bursts.items
        → result ≡ Err StormFault.NoPort }
    ensures fault { IfErr result (IsStormFaultOf plan.now (length config.now.ports.items)) }
{
    if !config.is_within(alloc) {
        return Err(StormFault::Limit);
    }
    if plan.bursts.len() > config.ports.len() {
        return Err(StormFault::NoPort);
    }
    let Ok(chassis) = Chassis::<NoGate, L>::begin(alloc, blank, config, NoGate) else {
        return Err(StormFault::OutOfMemory);
    };
    let ports = config.ports.len();
    let workers = match workers_for(rt, alloc, &chassis, ports + 2) {
        Ok(workers) => workers,
        Err(fault) => {
            chassis.discard(rt);
            return Err(storm_fault(fault));
        }
    };
    let workers = match work(rt, alloc, &chassis, ports, plan, workers) {
        Ok(workers) => workers,
        Err(fault) => {
            chassis.discard(rt);
            return Err(storm_fault(fault));
        }
    };
    match chassis.close(alloc, workers) {
        Ok(closed) => Ok(closed),
        Err(refused) => Err(given_up(rt, refused)),
    }
}

/// Runs the plan over a chassis of so many ports, and hands back all its workers.
pub(crate) fn work<L: Ledger + Send + Sync, R: Threads + Wait + Sync>(
    rt: &R,
    alloc: Global,
    chassis: &Chassis<NoGate, L>,
    ports: usize,
    plan: &Plan,
    workers: Vec<Worker<L>>,
) -> Result<Vec<Worker<L>>, PlanFault>
    requires ports { ports ≤ max_ports }
    requires count { vec_len workers ≡ ports + 2 }
    requires fresh { All (λ worker. worker.receipts ≡ []) workers.items }
    ensures served { IfOk result
        (λ workers. AreServed plan.now (ports + 1) (map (λ worker. worker.receipts) workers.items)) }
    ensures fault { IfErr result (IsFaultOf plan.now (ports + 1)) }
{
    match rings(alloc, ports) {
        Ok(rings) => run(rt, alloc, chassis, plan, rings, workers),
        Err(_) => {
            retire_all(workers);
            Err(PlanFault::OutOfMemory)
        }
    }
}

/// Ends a chassis that does not close, with its workers.
pub(crate) fn given_up<L: Ledger, R: Wait>(rt: &R, refused: CloseRefused<NoGate, L>) -> StormFault
    ensures { (result ≡ StormFault.OutOfMemory) ⊎ (result ≡ StormFault.Mismatch) }
{
    let CloseRefused {
        fault,
        chassis,
        workers,
    } = refused;
    retire_all(workers);
    chassis.discard(rt);
    match fault {
        CloseFault::OutOfMemory => StormFault::OutOfMemory,
        _ => StormFault::Mismatch,
    }
}
