//! `Worker`, one who has events served by a chassis, with the receipts of all that were. It is no `Drop`: it ends with
//! its chassis, or hands its receipts out.
ghost use Rattle.std.specs.Prelude.{◌≡◌, ◌<◌, ◌++◌, ◌∷◌, [], All, OnOk};

use gp_accounts::ReceiptList;
use gp_linear::NeverDropped;
use gp_machine::Receipt;
use std::alloc::{AllocError, Global};
use std::marker::{Model, PhantomData};
use std::sync::ledger::Ledger;

/// One who has events served by a chassis, with the receipts of all that were. Contracts see the receipts.
///
/// There is no `Drop`: a worker ends with its chassis, or by `retire`.
pub struct Worker<L: Ledger> {
    receipts: Vec<Receipt>,
    chassis: PhantomData<L>,
}

impl<L: Ledger> NeverDropped for Worker<L> {}

impl<L: Ledger> Model for Worker<L> {
    ghost use Rattle.std.specs.Coded.{codes};
    ghost use Rattle.std.specs.Prelude.{◌-◌, vec_len, vec_capacity};
    ghost use Rattle.gp_machine.specs.contracts.entry.Entry as entry;
    ghost use Rattle.gp_workers.specs.Chassis.{WorkerState};

    ghost Value = { WorkerState };

    ghost coded = { Prim.hlevel (codes, entry.the_row.coded) };

    ghost view = { λ w. record { receipts = w.receipts.items; room = vec_capacity w.receipts - vec_len w.receipts } };
}

impl<L: Ledger> Worker<L> {
    /// Makes a worker with no receipts. It takes no memory.
    pub(crate) fn new(alloc: Global) -> Worker<L>
        ensures { result.receipts ≡ [] }
    {
        Worker {
            receipts: Vec::new(alloc),
            chassis: PhantomData,
        }
    }

    /// Gives the receipts, in order.
    pub fn receipts(&self) -> &[Receipt]
        ensures { result.now ≡ self.now.receipts }
    {
        self.receipts.as_slice()
    }

    /// Makes room for one receipt more.
    pub(crate) fn reserve_one(&mut self) -> Result<(), AllocError>
        ensures receipts { self.new.receipts ≡ self.old.receipts }
        ensures room { OnOk result (0 < self.new.room) }
    {
        self.receipts.try_reserve(1)
    }

    /// Keeps a receipt. It takes no memory.
    pub(crate) fn record(&mut self, receipt: &Receipt)
        requires { 0 < self.old.room }
        ensures { self.new.receipts ≡ self.old.receipts ++ receipt.now ∷ [] }
    {
        self.receipts.push_reserved(*receipt);
    }

    /// Forgets all receipts.
    pub(crate) fn clear(&mut self)
        ensures { self.new.receipts ≡ [] }
    {
        self.receipts.clear();
    }

    /// Ends the worker, and hands out its receipts.
    pub fn retire(self) -> Vec<Receipt>
        ensures { result.items ≡ self.receipts }
    {
        let Worker {
            receipts,
            chassis: _,
        } = self;
        receipts
    }
}

impl<L: Ledger> ReceiptList for Worker<L> {
    ghost told = { λ worker. worker.receipts };

    fn receipts(&self) -> &[Receipt] {
        Worker::receipts(self)
    }
}

/// Ends workers, with their receipts.
pub(crate) fn end_workers<L: Ledger>(workers: Vec<Worker<L>>) {
    let mut workers = workers;
    while let Some(worker) = workers.pop() {
        worker.retire();
    }
    workers.destroy_empty();
}

/// Has workers forget all receipts.
pub(crate) fn clear_all<L: Ledger>(workers: &mut [Worker<L>])
    ensures { All (λ worker. worker.receipts ≡ []) workers.new }
{
    for worker in workers.iter_mut() {
        worker.clear();
    }
}
