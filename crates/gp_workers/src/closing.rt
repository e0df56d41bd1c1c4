//! How a chassis is closed or cut: only where receipts and journals tell of the same steps, and configurations and
//! licences are as they were; else all is handed back as it was.
ghost use Rattle.std.specs.Prelude.{◌≡◌, ◌≤◌, [], length, map, All, Err, IfOk, IfErr, OnOk, vec_len, vec_capacity};
ghost use Rattle.gp_journal.specs.Kept.{history_of};
ghost use Rattle.gp_journal.specs.Piece.{history_of_piece};
ghost use Rattle.gp_accounts.specs.Accounted.{Accounted};
ghost use Rattle.gp_chassis.specs.Desk.{history_of_desk};
ghost use Rattle.gp_machine.specs.Config.{max_ports};
ghost use Rattle.gp_workers.specs.Closing.{AddsUp, CutEnding, Ending, chassis_of};

use super::chassis::{Chassis, Stock};
use super::desks::{are_configured, close_all, cut_all, images_of, rows_in};
use super::gate::Gate;
use super::totals::{Totals, of_desks};
use super::unlocked::{Unlocked, put_back, take_out};
use super::worker::{Worker, clear_all, end_workers};
use gp_accounts::{CloseFault, reconcile};
use gp_chassis::PortDesk;
use gp_journal::{Journal, Piece};
use gp_linear::NeverDropped;
use gp_machine::PortConfig;
use gp_port::PortImage;
use std::alloc::Global;
use std::sync::Mutex;
use std::sync::ledger::Ledger;

/// What a chassis leaves.
#[derive(Drop)]
pub struct Closed {
    /// The journal of each port, from its last cut on.
    pub journals: Vec<Journal>,
    /// What these journals add up to, and how many units were active.
    pub totals: Totals,
    /// How many licences came back: all that the chassis was opened with.
    pub licences: u32,
}

/// What is cut from the journals of a chassis.
#[derive(Drop)]
pub struct Cut {
    /// What each port's journal kept, from its cut before this one on.
    pub pieces: Vec<Piece>,
    /// What these pieces add up to, and how many units are active.
    pub totals: Totals,
}

/// A chassis that is not closed or cut, with the workers that were handed in. All is as it was.
pub struct CloseRefused<G: Gate<L>, L: Ledger> {
    /// Why.
    pub fault: CloseFault,
    /// The chassis.
    pub chassis: Chassis<G, L>,
    /// The workers.
    pub workers: Vec<Worker<L>>,
}

impl<G: Gate<L>, L: Ledger> NeverDropped for CloseRefused<G, L> {}

/// A chassis whose desks are out of their locks, with its workers.
struct Opened<G: Gate<L>, L: Ledger> {
    gate: G,
    configs: Vec<PortConfig>,
    ports: Vec<Mutex<PortDesk<L>>>,
    desks: Vec<Unlocked<L>>,
    stock: Stock<L>,
    licences: u32,
    workers: Vec<Worker<L>>,
    ghost count: { vec_len desks ≡ vec_len configs },
    ghost most: { vec_len configs ≤ max_ports },
    ghost empty: { vec_len ports ≡ 0 },
    ghost room: { vec_len desks ≤ vec_capacity ports },
}

impl<G: Gate<L>, L: Ledger> Chassis<G, L> {
    /// Ends the chassis with all its workers, where their receipts and its journals tell of the same steps. It is
    /// handed back with the workers where it is not ended: `WorkerMissing`, else `OutOfMemory`, else `Mismatch`. It
    /// is also a mismatch where a desk has another configuration than its port was opened with, or where a licence is
    /// missing.
    pub fn close(self, alloc: Global, workers: Vec<Worker<L>>) -> Result<Closed, CloseRefused<G, L>>
        ensures ending { IfOk result (λ closed. Ending self.configs closed.journals.items closed.totals) }
        ensures accounted { IfOk result
            (λ closed. Accounted (map history_of closed.journals.items)
            (map (λ worker. worker.receipts) workers.items)) }
        ensures licences { IfOk result (λ closed. closed.licences ≡ self.licences) }
        ensures chassis { IfErr result (λ refused. refused.chassis ≡ self) }
        ensures workers { IfErr result (λ refused. refused.workers.items ≡ workers.items) }
    {
        match self.opened(alloc, workers) {
            Ok(opened) => opened.close(alloc),
            Err(refused) => Err(refused),
        }
    }

    /// Hands out what all journals keep, and begins them anew after that, and has the workers forget their receipts,
    /// where `close` would end the chassis. It is handed back as it was where `close` would not.
    pub fn cut(
        self,
        alloc: Global,
        workers: Vec<Worker<L>>,
    ) -> Result<(Chassis<G, L>, Vec<Worker<L>>, Cut), CloseRefused<G, L>>
        ensures ending { IfOk result (λ done. CutEnding self.configs done.2.pieces.items done.2.totals) }
        ensures accounted { IfOk result
            (λ done. Accounted (map history_of_piece done.2.pieces.items)
            (map (λ worker. worker.receipts) workers.items)) }
        ensures goes_on { IfOk result (λ done. done.0 ≡ self) }
        ensures forgotten { IfOk result
            (λ done. All (λ worker. worker.receipts ≡ []) done.1.items × (length done.1.items ≡ length workers.items)) }
        ensures chassis { IfErr result (λ refused. refused.chassis ≡ self) }
        ensures workers { IfErr result (λ refused. refused.workers.items ≡ workers.items) }
    {
        match self.opened(alloc, workers) {
            Ok(opened) => opened.cut(alloc),
            Err(refused) => Err(refused),
        }
    }

    /// Takes the desks out of their locks, where as many workers are handed in as were made.
    fn opened(
        self,
        alloc: Global,
        workers: Vec<Worker<L>>,
    ) -> Result<Opened<G, L>, CloseRefused<G, L>>
        ensures ok { IfOk result
            (λ opened. (opened.configs.items ≡ self.configs) × (opened.licences ≡ self.licences)
            × (opened.workers.items ≡ workers.items)) }
        ensures chassis { IfErr result (λ refused. refused.chassis ≡ self) }
        ensures workers { IfErr result (λ refused. refused.workers.items ≡ workers.items) }
        ensures fault { IfErr result (λ refused. refused.fault ≡ CloseFault.Mismatch → ⊥) }
    {
        let Chassis {
            gate,
            configs,
            ports,
            stock,
            licences,
        } = self;
        let stock = stock.into_inner();
        let fault = if workers.len() != usize::from(stock.workers) {
            CloseFault::WorkerMissing
        } else {
            match Vec::with_capacity(alloc, ports.len()) {
                Ok(desks) => {
                    let (ports, desks) = take_out(ports, desks);
                    return Ok(Opened {
                        gate,
                        configs,
                        ports,
                        desks,
                        stock,
                        licences,
                        workers,
                    });
                }
                Err(_) => CloseFault::OutOfMemory,
            }
        };
        Err(CloseRefused {
            fault,
            chassis: Chassis {
                gate,
                configs,
                ports,
                stock: Mutex::new(stock),
                licences,
            },
            workers,
        })
    }
}

impl<G: Gate<L>, L: Ledger> NeverDropped for Opened<G, L> {}

impl<G: Gate<L>, L: Ledger> Opened<G, L> {
    /// Ends all, where it adds up.
    fn close(self, alloc: Global) -> Result<Closed, CloseRefused<G, L>>
        ensures ending { IfOk result (λ closed. Ending self.configs.items closed.journals.items closed.totals) }
        ensures accounted { IfOk result
            (λ closed. Accounted (map history_of closed.journals.items)
            (map (λ worker. worker.receipts) self.workers.items)) }
        ensures licences { IfOk result (λ closed. closed.licences ≡ self.licences) }
        ensures chassis { IfErr result
            (λ refused. (refused.chassis.configs ≡ self.configs.items) × (refused.chassis.licences ≡ self.licences)) }
        ensures workers { IfErr result (λ refused. refused.workers.items ≡ self.workers.items) }
        ensures missing { IfErr result (λ refused. refused.fault ≡ CloseFault.WorkerMissing → ⊥) }
        ensures mismatch { IfErr result (λ refused. refused.fault ≡ CloseFault.Mismatch
            → AddsUp
            (chassis_of self.configs.items self.licences) self.desks.items self.stock.book.free self.workers.items
            → ⊥) }
    {
        let Ok(journals) = Vec::with_capacity(alloc, self.desks.len()) else {
            return Err(self.refused(CloseFault::OutOfMemory));
        };
        match self.check(alloc) {
            Ok(()) => Ok(self.closed(journals)),
            Err(fault) => Err(self.refused(fault)),
        }
    }

    /// Cuts all journals, where it adds up.
    fn cut(self, alloc: Global) -> Result<(Chassis<G, L>, Vec<Worker<L>>, Cut), CloseRefused<G, L>>
        ensures ending { IfOk result (λ done. CutEnding self.configs.items done.2.pieces.items done.2.totals) }
        ensures accounted { IfOk result
            (λ done. Accounted (map history_of_piece done.2.pieces.items)
            (map (λ worker. worker.receipts) self.workers.items)) }
        ensures goes_on { IfOk result
            (λ done. (done.0.configs ≡ self.configs.items) × (done.0.licences ≡ self.licences)) }
        ensures forgotten { IfOk result
            (λ done. All (λ worker. worker.receipts ≡ []) done.1.items
            × (length done.1.items ≡ length self.workers.items)) }
        ensures chassis { IfErr result
            (λ refused. (refused.chassis.configs ≡ self.configs.items) × (refused.chassis.licences ≡ self.licences)) }
        ensures workers { IfErr result (λ refused. refused.workers.items ≡ self.workers.items) }
        ensures missing { IfErr result (λ refused. refused.fault ≡ CloseFault.WorkerMissing → ⊥) }
        ensures mismatch { IfErr result (λ refused. refused.fault ≡ CloseFault.Mismatch
            → AddsUp
            (chassis_of self.configs.items self.licences) self.desks.items self.stock.book.free self.workers.items
            → ⊥) }
    {
        let Ok(pieces) = Vec::with_capacity(alloc, self.desks.len()) else {
            return Err(self.refused(CloseFault::OutOfMemory));
        };
        let Ok(bases) = images_of(alloc, self.desks.as_slice()) else {
            return Err(self.refused(CloseFault::OutOfMemory));
        };
        let Ok(ends) = images_of(alloc, self.desks.as_slice()) else {
            return Err(self.refused(CloseFault::OutOfMemory));
        };
        match self.check(alloc) {
            Ok(()) => Ok(self.cut_with(pieces, bases, ends)),
            Err(fault) => Err(self.refused(fault)),
        }
    }

    /// Tells whether all adds up: the receipts of the workers, the configurations and the licences.
    fn check(&self, alloc: Global) -> Result<(), CloseFault>
        ensures ok { OnOk result
            (AddsUp (chassis_of self.now.configs.items self.now.licences) self.now.desks.items self.now.stock.book.free
            self.now.workers.items) }
        ensures mismatch { result ≡ Err CloseFault.Mismatch
            → AddsUp
            (chassis_of self.now.configs.items self.now.licences) self.now.desks.items self.now.stock.book.free
            self.now.workers.items → ⊥ }
        ensures missing { result ≡ Err CloseFault.WorkerMissing → ⊥ }
    {
        reconcile(alloc, self.desks.as_slice(), self.workers.as_slice())?;
        if !are_configured(self.configs.as_slice(), self.desks.as_slice()) {
            return Err(CloseFault::Mismatch);
        }
        let _total = self.stock.book.total();
        if self.stock.book.free() + rows_in(self.desks.as_slice()) != self.licences {
            return Err(CloseFault::Mismatch);
        }
        Ok(())
    }

    /// Puts all back as it was.
    fn refused(self, fault: CloseFault) -> CloseRefused<G, L>
        ensures fault { result.fault ≡ fault }
        ensures configs { result.chassis.configs ≡ self.configs.items }
        ensures licences { result.chassis.licences ≡ self.licences }
        ensures workers { result.workers.items ≡ self.workers.items }
    {
        let Opened {
            gate,
            configs,
            ports,
            desks,
            stock,
            licences,
            workers,
        } = self;
        let ports = put_back(desks, ports);
        CloseRefused {
            fault,
            chassis: Chassis {
                gate,
                configs,
                ports,
                stock: Mutex::new(stock),
                licences,
            },
            workers,
        }
    }

    /// Ends all.
    fn closed(self, journals: Vec<Journal>) -> Closed
        requires empty { journals.items ≡ [] }
        requires room { vec_len self.desks ≤ vec_capacity journals }
        requires adds_up { AddsUp (chassis_of self.configs.items self.licences) self.desks.items self.stock.book.free
            self.workers.items }
        ensures ending { Ending self.configs.items result.journals.items result.totals }
        ensures histories { map history_of_desk self.desks.items ≡ map history_of result.journals.items }
        ensures licences { result.licences ≡ self.licences }
    {
        let Opened {
            gate: _,
            configs: _,
            ports,
            desks,
            stock,
            licences: _,
            workers,
        } = self;
        let totals = of_desks(desks.as_slice());
        ports.destroy_empty();
        end_workers(workers);
        let Stock { book, workers: _ } = stock;
        let (journals, licences) = close_all(desks, book, journals);
        Closed {
            journals,
            totals,
            licences,
        }
    }

    /// Cuts all journals, with two images of where each port stands, and has the workers forget their receipts.
    fn cut_with(
        self,
        pieces: Vec<Piece>,
        bases: Vec<PortImage>,
        ends: Vec<PortImage>,
    ) -> (Chassis<G, L>, Vec<Worker<L>>, Cut)
        requires empty { pieces.items ≡ [] }
        requires room { vec_len self.desks ≤ vec_capacity pieces }
        requires bases { bases.items ≡ map (λ desk. desk.state) self.desks.items }
        requires ends { ends.items ≡ map (λ desk. desk.state) self.desks.items }
        requires adds_up { AddsUp (chassis_of self.configs.items self.licences) self.desks.items self.stock.book.free
            self.workers.items }
        ensures ending { CutEnding self.configs.items result.2.pieces.items result.2.totals }
        ensures histories { map history_of_desk self.desks.items ≡ map history_of_piece result.2.pieces.items }
        ensures chassis { (result.0.configs ≡ self.configs.items) × (result.0.licences ≡ self.licences) }
        ensures forgotten { All (λ worker. worker.receipts ≡ []) result.1.items
            × (length result.1.items ≡ length self.workers.items) }
    {
        let Opened {
            gate,
            configs,
            ports,
            desks,
            stock,
            licences,
            workers,
        } = self;
        let totals = of_desks(desks.as_slice());
        let (ports, pieces) = cut_all(desks, ports, bases, ends, pieces);
        let mut workers = workers;
        clear_all(&mut workers);
        let chassis = Chassis {
            gate,
            configs,
            ports,
            stock: Mutex::new(stock),
            licences,
        };
        (chassis, workers, Cut { pieces, totals })
    }
}
