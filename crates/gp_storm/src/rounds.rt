//! A storm in rounds: a part of its plan at a time, with the journals cut between, so that what is kept doesn't grow
//! with the plan.
ghost use Rattle.std.specs.Prelude.{◌≡◌, ◌+◌, ◌<◌, ◌≤◌, [], All, Err, IfOk, length, vec_len};
ghost use Rattle.gp_licence.specs.declared.ledger_parts.TheConstants.{MAX_LICENCES};
ghost use Rattle.gp_machine.specs.Config.{max_ports};
ghost use Rattle.gp_chassis.specs.Limits.{IsWithin};
ghost use Rattle.gp_workers.specs.Closing.{CutEnding};
ghost use Rattle.gp_storm.specs.Plan.{frame_count};
ghost use Rattle.gp_storm.specs.Rounds.{IsEnding};

use super::engine::{given_up, work};
use super::fault::{StormFault, storm_fault};
use super::left::Left;
use super::plan::Plan;
use super::so_far::SoFar;
use super::task::{retire_all, workers_for};
use gp_chassis::ChassisConfig;
use gp_licence::MAX_LICENCES;
use gp_linear::NeverDropped;
use gp_workers::{Chassis, Cut, NoGate, Totals, Worker};
use std::alloc::Global;
use std::sync::Wait;
use std::sync::ledger::{Blank, Ledger};
use std::thread::Threads;

/// What a storm adds up to.
#[derive(Drop)]
pub(crate) struct Counted {
    /// What all journals add up to, and how many units were active.
    pub(crate) totals: Totals,
    /// How many licences came back: all that the chassis was opened with.
    pub(crate) licences: u32,
}

/// A chassis between two rounds, with all its workers.
struct Between<L: Ledger> {
    chassis: Chassis<NoGate, L>,
    workers: Vec<Worker<L>>,
    ghost ports: { length chassis.configs ≤ max_ports },
    ghost count: { vec_len workers ≡ length chassis.configs + 2 },
}

impl<L: Ledger> NeverDropped for Between<L> {}

impl<L: Ledger + Send + Sync> Between<L> {
    /// Ends all.
    fn give_up<R: Wait>(self, rt: &R) {
        let Between { chassis, workers } = self;
        retire_all(workers);
        chassis.discard(rt);
    }

    /// Runs a part of a plan, and cuts the journals. Where there is a fault all is ended.
    fn round<R: Threads + Wait + Sync>(
        self,
        rt: &R,
        alloc: Global,
        ports: usize,
        part: &Plan,
    ) -> Result<(Between<L>, Cut), StormFault>
        requires ports { ports ≡ length self.chassis.configs }
        requires fresh { All (λ worker. worker.receipts ≡ []) self.workers.items }
        ensures fresh { IfOk result (λ done. All (λ worker. worker.receipts ≡ []) done.0.workers.items) }
        ensures chassis { IfOk result (λ done. done.0.chassis ≡ self.chassis) }
        ensures ending { IfOk result (λ done. CutEnding self.chassis.configs done.1.pieces.items done.1.totals) }
        ensures frames { IfOk result (λ done. done.1.totals.frames ≡ frame_count part.now.frames.items) }
        ensures commands { IfOk result (λ done. done.1.totals.commands ≡ length part.now.commands.items) }
        ensures limit { result ≡ Err StormFault.Limit → ⊥ }
    {
        let Between { chassis, workers } = self;
        let workers = match work(rt, alloc, &chassis, ports, part, workers) {
            Ok(workers) => workers,
            Err(fault) => {
                chassis.discard(rt);
                return Err(storm_fault(fault));
            }
        };
        match chassis.cut(alloc, workers) {
            Ok((chassis, workers, cut)) => Ok((Between { chassis, workers }, cut)),
            Err(refused) => Err(given_up(rt, refused)),
        }
    }

    /// Closes the chassis, and tells how many licences came back.
    fn close<R: Wait>(self, rt: &R, alloc: Global) -> Result<u32, StormFault>
        ensures licences { IfOk result (λ licences. licences ≡ self.chassis.licences) }
        ensures limit { result ≡ Err StormFault.Limit → ⊥ }
    {
        let Between { chassis, workers } = self;
        match chassis.close(alloc, workers) {
            Ok(closed) => Ok(closed.licences),
            Err(refused) => Err(given_up(rt, refused)),
        }
    }
}

/// Runs the next part of a plan, and cuts the journals. Where there is a fault all is ended.
fn next_round<L: Ledger + Send + Sync, R: Threads + Wait + Sync>(
    rt: &R,
    alloc: Global,
    ports: usize,
    between: Between<L>,
    left: &mut Left<'_>,
) -> Result<(Between<L>, Cut), StormFault>
    requires ports { ports ≡ length between.chassis.configs }
    requires fresh { All (λ worker. worker.receipts ≡ []) between.workers.items }
    ensures fresh { IfOk result (λ done. All (λ worker. worker.receipts ≡ []) done.0.workers.items) }
    ensures chassis { IfOk result (λ done. done.0.chassis ≡ between.chassis) }
    ensures ending { IfOk result (λ done. CutEnding between.chassis.configs done.1.pieces.items done.1.totals) }
    ensures frames { IfOk result (λ done. frame_count left.old.frames.items
        ≡ done.1.totals.frames + frame_count left.new.frames.items) }
    ensures commands { IfOk result (λ done. length left.old.commands.now
        ≡ done.1.totals.commands + length left.new.commands.now) }
    ensures limit { result ≡ Err StormFault.Limit → ⊥ }
{
    match left.next(alloc) {
        Ok(part) => between.round(rt, alloc, ports, &part),
        Err(_) => {
            between.give_up(rt);
            Err(StormFault::OutOfMemory)
        }
    }
}

/// Runs what is left of a plan, a round after another, and closes the chassis.
fn rounds<L: Ledger + Send + Sync, R: Threads + Wait + Sync>(
    rt: &R,
    alloc: Global,
    config: &ChassisConfig,
    between: Between<L>,
    left: Left<'_>,
) -> Result<Counted, StormFault>
    requires ports { config.now.ports.items ≡ between.chassis.configs }
    requires fresh { All (λ worker. worker.receipts ≡ []) between.workers.items }
    ensures ending { IfOk result (λ counted. IsEnding between.chassis.configs counted.totals) }
    ensures licences { IfOk result (λ counted. counted.licences ≡ between.chassis.licences) }
    ensures frames { IfOk result (λ counted. counted.totals.frames ≡ frame_count left.entry.frames.items) }
    ensures commands { IfOk result (λ counted. counted.totals.commands ≡ length left.entry.commands.now) }
    ensures limit { result ≡ Err StormFault.Limit → ⊥ }
{
    let ports = config.ports.len();
    let mut left = left;
    let (between, cut) = match next_round(rt, alloc, ports, between, &mut left) {
        Ok(done) => done,
        Err(fault) => return Err(fault),
    };
    let mut between = between;
    let mut so_far = match SoFar::begun(alloc, cut, config.journal_limit) {
        Ok(so_far) => so_far,
        Err(fault) => {
            between.give_up(rt);
            return Err(fault);
        }
    };
    for _ in rt.forever() {
        if left.is_done() {
            let licences = match between.close(rt, alloc) {
                Ok(licences) => licences,
                Err(fault) => return Err(fault),
            };
            return Ok(Counted {
                totals: so_far.totals,
                licences,
            });
        }
        let (next, cut) = match next_round(rt, alloc, ports, between, &mut left) {
            Ok(done) => done,
            Err(fault) => return Err(fault),
        };
        between = next;
        so_far = match so_far.joined(alloc, cut, config.journal_limit) {
            Ok(so_far) => so_far,
            Err(fault) => {
                between.give_up(rt);
                return Err(fault);
            }
        };
    }
    between.give_up(rt);
    unreachable!()
}

/// Runs the plan over a new chassis of this configuration, a part at a time, and gives what its journals add up to.
/// `StormFault` says when it doesn't: `Limit`, else `NoPort` where the plan has more lists of bursts than there are
/// ports, else the first fault of the threads or what keeps the chassis from being cut or closed. `JournalFull` is
/// answered where a port has more entries than its journal may keep, though it is cut before. What is kept is that of
/// one part, and of the frames of the plan their pairs of a port and a count.
///
/// `blank` is a new ledger of `MAX_LICENCES` parts, made by `Blank::new`, and `L` its name.
pub(crate) fn storm_in_rounds<L: Ledger + Send + Sync, R: Threads + Wait + Sync>(
    rt: &R,
    alloc: Global,
    blank: Blank,
    config: &ChassisConfig,
    plan: &Plan,
) -> Result<Counted, StormFault>
    requires name { blank.name ≡ L.name }
    requires parts { (blank.parts ≡ L.parts) × (L.parts ≡ MAX_LICENCES) }
    ensures limit { IsWithin config.now → result ≡ Err StormFault.Limit → ⊥ }
    ensures outside { (IsWithin config.now → ⊥) → result ≡ Err StormFault.Limit }
    ensures licences { IfOk result (λ counted. counted.licences ≡ config.now.licences) }
    ensures ending { IfOk result (λ counted. IsEnding config.now.ports.items counted.totals) }
    ensures frames { IfOk result (λ counted. counted.totals.frames ≡ frame_count plan.now.frames.items) }
    ensures commands { IfOk result (λ counted. counted.totals.commands ≡ length plan.now.commands.items) }
    ensures no_port { IsWithin config.now → length config.now.ports.items < length plan.now.bursts.items
        → result ≡ Err StormFault.NoPort }
{
    if !config.is_within(alloc) {
        return Err(StormFault::Limit);
    }
    if plan.bursts.len() > config.ports.len() {
        return Err(StormFault::NoPort);
    }
    let Ok(left) = Left::of(alloc, plan) else {
        return Err(StormFault::OutOfMemory);
    };
    let Ok(chassis) = Chassis::<NoGate, L>::begin(alloc, blank, config, NoGate) else {
        return Err(StormFault::OutOfMemory);
    };
    match workers_for(rt, alloc, &chassis, config.ports.len() + 2) {
        Ok(workers) => rounds(rt, alloc, config, Between { chassis, workers }, left),
        Err(fault) => {
            chassis.discard(rt);
            Err(storm_fault(fault))
        }
    }
}
