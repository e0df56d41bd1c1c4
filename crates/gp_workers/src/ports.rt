//! What the loops need of a chassis, as a trait: a port serves an event, and the worker keeps the receipt.
ghost use Rattle.std.specs.Prelude.{◌≡◌, ◌++◌, ◌∷◌, [], IfOk, OnErr};

use super::chassis::Chassis;
use super::gate::Gate;
use super::worker::Worker;
use gp_chassis::ApplyFault;
use gp_machine::{Event, Receipt};
use std::sync::Wait;
use std::sync::ledger::Ledger;

/// What has ports serve events.
pub trait Ports<L: Ledger> {
    /// Has a port serve an event, and gives the worker the receipt; the worker's receipts stay as they are where it
    /// is not served.
    fn apply<R: Wait>(
        &self,
        rt: &R,
        worker: &mut Worker<L>,
        port: u8,
        event: Event,
    ) -> Result<Receipt, ApplyFault>
        ensures receipt { IfOk result (λ receipt. (receipt.port ≡ port) × (receipt.entry.event ≡ event)) }
        ensures grown { IfOk result (λ receipt. worker.new.receipts ≡ worker.old.receipts ++ receipt ∷ []) }
        ensures err { OnErr result (worker.new.receipts ≡ worker.old.receipts) };
}

impl<G: Gate<L>, L: Ledger> Ports<L> for Chassis<G, L> {
    fn apply<R: Wait>(
        &self,
        rt: &R,
        worker: &mut Worker<L>,
        port: u8,
        event: Event,
    ) -> Result<Receipt, ApplyFault> {
        Chassis::apply(self, rt, worker, port, event)
    }
}
