//! `Chassis`, which any number of threads share: a lock for each port and one for the licences, no two of them held at
//! once. Each event is served under its port's lock.
ghost use Rattle.std.specs.Prelude.{◌≡◌, ◌++◌, ◌∷◌, ◌<◌, ◌≤◌, ◌↔◌, [], Err, length, vec_len, IfOk, IfErr, OnErr, OnOk};
ghost use Rattle.std.specs.Option.{ForSome};
ghost use Rattle.gp_ploam.specs.Down.{IsProperDown};
ghost use Rattle.gp_licence.specs.declared.ledger_parts.TheConstants.{MAX_LICENCES};
ghost use Rattle.gp_chassis.specs.Limits.{IsWithin};
ghost use Rattle.gp_workers.specs.Chassis.{IsSomeStep, PurseFits};
ghost use Rattle.gp_workers.specs.declared.chassis.TheConstants.{MAX_WORKERS};

use super::fault::WorkerFault;
use super::gate::Gate;
use super::opening::{clone_configs, end_ports, open_ports};
use super::worker::Worker;
use gp_chassis::{ApplyFault, ChassisConfig, PortDesk};
use gp_laws::every_state_is_sound;
use gp_licence::{LicenceBook, Licences, MAX_LICENCES};
use gp_linear::NeverDropped;
use gp_machine::{Event, PortConfig, Receipt};
use gp_port::OpenFault;
use std::alloc::Global;
use std::marker::Model;
use std::sync::ledger::{Blank, Ledger};
use std::sync::{Mutex, Wait};

/// The most workers of one chassis (this profile's own rule).
pub const MAX_WORKERS: u8 = 64;

/// What lies under the lock of the licences: their book, and how many workers there are.
pub(crate) struct Stock<L: Ledger> {
    pub(crate) book: LicenceBook<L>,
    pub(crate) workers: u8,
    ghost few: { workers ≤ MAX_WORKERS },
}

/// Up to sixteen ports, each with its journal under a lock of its own, and one stock of licences under another lock.
/// Any number of threads may share it. Contracts see what each port was opened with, and how many licences there are.
///
/// No call holds two of the locks at once. There is no `Drop`: a chassis ends by `close` or `discard`.
pub struct Chassis<G: Gate<L>, L: Ledger> {
    pub(crate) gate: G,
    pub(crate) configs: Vec<PortConfig>,
    pub(crate) ports: Vec<Mutex<PortDesk<L>>>,
    pub(crate) stock: Mutex<Stock<L>>,
    pub(crate) licences: u32,
}

impl<G: Gate<L>, L: Ledger> NeverDropped for Chassis<G, L> {}

impl<G: Gate<L>, L: Ledger> Model for Chassis<G, L> {
    ghost use Rattle.std.specs.Prelude.{◌≡◌, ◌≤◌, vec_len};
    ghost use Rattle.gp_machine.specs.Config.{max_ports};
    ghost use Rattle.gp_workers.specs.Chassis.{ChassisState};

    ghost Value = { ChassisState };

    ghost view = { λ c. record { configs = c.configs.items; licences = c.licences } };

    ghost invariant = { λ c. (vec_len c.ports ≡ vec_len c.configs) × (vec_len c.configs ≤ max_ports) };
}

impl<G: Gate<L>, L: Ledger> Chassis<G, L> {
    /// Opens a chassis: each port with no units, in standby, and all licences free. `OpenFault::Limit` where the
    /// configuration is outside its limits or admits a serial number twice, on one port or on two; else
    /// `OutOfMemory`.
    ///
    /// `blank` is a new ledger of `MAX_LICENCES` parts, made by `Blank::new`, and `L` its name.
    pub fn begin(
        alloc: Global,
        blank: Blank,
        config: &ChassisConfig,
        gate: G,
    ) -> Result<Chassis<G, L>, OpenFault>
        requires name { blank.name ≡ L.name }
        requires parts { (blank.parts ≡ L.parts) × (L.parts ≡ MAX_LICENCES) }
        ensures configs { IfOk result (λ chassis. chassis.configs ≡ config.now.ports.items) }
        ensures licences { IfOk result (λ chassis. chassis.licences ≡ config.now.licences) }
        ensures limit { IsWithin config.now → result ≡ Err OpenFault.Limit → ⊥ }
        ensures outside { (IsWithin config.now → ⊥) → result ≡ Err OpenFault.Limit }
    {
        if !config.is_within(alloc) {
            return Err(OpenFault::Limit);
        }
        let Ok(configs) = clone_configs(alloc, config.ports.as_slice()) else {
            return Err(OpenFault::OutOfMemory);
        };
        let book = LicenceBook::new(blank, config.licences);
        match open_ports(alloc, config.ports.as_slice(), config.journal_limit, book) {
            Ok((ports, book)) => Ok(Chassis {
                gate,
                configs,
                ports,
                stock: Mutex::new(Stock { book, workers: 0 }),
                licences: config.licences,
            }),
            Err(fault) => Err(fault),
        }
    }

    /// Makes a worker, with no receipts. `WorkerFault` says when none is made.
    pub fn worker<R: Wait>(&self, rt: &R, alloc: Global) -> Result<Worker<L>, WorkerFault>
        ensures { IfOk result (λ worker. worker.receipts ≡ []) }
    {
        let mut stock = self.stock.lock(rt);
        if stock.workers == MAX_WORKERS {
            return Err(WorkerFault::TooMany);
        }
        stock.workers += 1;
        Ok(Worker::new(alloc))
    }

    /// Has a port serve an event, and gives the worker the receipt. For a burst a licence is taken first, if one is
    /// free, and what the port leaves is given back; so with threads a burst can find none while another worker holds
    /// one that it gives back. `ApplyFault` says when the event is not served; then no port, no journal and no worker
    /// changes.
    pub fn apply<R: Wait>(
        &self,
        rt: &R,
        worker: &mut Worker<L>,
        port: u8,
        event: Event,
    ) -> Result<Receipt, ApplyFault>
        ensures port { IfOk result (λ receipt. receipt.port ≡ port) }
        ensures event { IfOk result (λ receipt. receipt.entry.event ≡ event) }
        ensures purse { IfOk result (λ receipt. PurseFits event receipt.entry.purse_in) }
        ensures step { IfOk result (λ receipt. IsSomeStep receipt.entry) }
        ensures proper { IfOk result (λ receipt. ForSome receipt.entry.answer.sent IsProperDown) }
        ensures grown { IfOk result (λ receipt. worker.new.receipts ≡ worker.old.receipts ++ receipt ∷ []) }
        ensures err { OnErr result (worker.new.receipts ≡ worker.old.receipts) }
        ensures no_port { (result ≡ Err ApplyFault.NoPort) ↔ (length self.now.configs ≤ port) }
    {
        if usize::from(port) >= self.ports.len() {
            return Err(ApplyFault::NoPort);
        }
        let purse = self.purse_for(rt, event);
        let served = self.serve(rt, worker, port, purse, event);
        self.gate.answered(port);
        match served {
            Ok((receipt, rest)) => {
                self.give_back(rt, rest);
                worker.record(&receipt);
                Ok(receipt)
            }
            Err((fault, purse)) => {
                self.give_back(rt, purse);
                Err(fault)
            }
        }
    }

    /// Takes what is handed in with an event: for a burst one licence, if one is free.
    fn purse_for<R: Wait>(&self, rt: &R, event: Event) -> Licences<L>
        ensures { PurseFits event result }
    {
        match event {
            Event::Burst { .. } => self.stock.lock(rt).book.take(),
            _ => Licences::none(),
        }
    }

    /// Gives back licences. Where there are none, as after most events, the lock of the stock is not taken.
    fn give_back<R: Wait>(&self, rt: &R, licences: Licences<L>) {
        if licences.count() == 0 {
            licences.drop_empty();
        } else {
            self.stock.lock(rt).book.give(licences);
        }
    }

    /// Has a port serve an event under its lock, and makes room for the receipt before the step.
    fn serve<R: Wait>(
        &self,
        rt: &R,
        worker: &mut Worker<L>,
        port: u8,
        purse: Licences<L>,
        event: Event,
    ) -> Result<(Receipt, Licences<L>), (ApplyFault, Licences<L>)>
        requires { port < length self.now.configs }
        ensures receipt { IfOk result
            (λ served. (served.0.port ≡ port) × (served.0.entry.event ≡ event) × (served.0.entry.purse_in ≡ purse)) }
        ensures step { IfOk result (λ served. IsSomeStep served.0.entry) }
        ensures proper { IfOk result (λ served. ForSome served.0.entry.answer.sent IsProperDown) }
        ensures room { OnOk result (0 < worker.new.room) }
        ensures worker { worker.new.receipts ≡ worker.old.receipts }
        ensures err { IfErr result (λ fault. fault.0 ≡ ApplyFault.NoPort → ⊥) }
    {
        let mut desk = self.ports[usize::from(port)].lock(rt);
        self.gate.inside(rt, port, desk.core());
        if !desk.has_room() {
            return Err((ApplyFault::JournalFull, purse));
        }
        if worker.reserve_one().is_err() {
            return Err((ApplyFault::OutOfMemory, purse));
        }
        serve_soundly(&mut desk, port, purse, event)
    }

    /// Ends the chassis with all that its journals keep, whatever its workers were told, and tells how many licences
    /// came back: all that it was opened with.
    pub fn discard<R: Wait>(self, rt: &R) -> u32
        ensures { result ≡ self.licences }
    {
        let Chassis {
            gate: _,
            configs: _,
            ports,
            stock,
            licences,
        } = self;
        let Stock { book, workers: _ } = stock.into_inner();
        let back = end_ports(ports, book);
        if back != licences {
            // Each licence that was taken was given back before its `apply` returned, so this is never so.
            for _ in rt.forever() {}
            unreachable!();
        }
        back
    }
}

/// Has a desk serve an event: a step from a sound state.
fn serve_soundly<L: Ledger>(
    desk: &mut PortDesk<L>,
    port: u8,
    purse: Licences<L>,
    event: Event,
) -> Result<(Receipt, Licences<L>), (ApplyFault, Licences<L>)>
    ensures receipt { IfOk result
        (λ served. (served.0.port ≡ port) × (served.0.entry.event ≡ event) × (served.0.entry.purse_in ≡ purse)) }
    ensures step { IfOk result (λ served. IsSomeStep served.0.entry) }
    ensures proper { IfOk result (λ served. ForSome served.0.entry.answer.sent IsProperDown) }
    ensures err { IfErr result (λ fault. fault.0 ≡ ApplyFault.NoPort → ⊥) }
{
    every_state_is_sound();
    let _journal = desk.journal();
    desk.serve(port, purse, event)
}
