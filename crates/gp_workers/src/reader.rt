//! What the reader of a port runs: the bursts of a ring, served in order up to its end. After a fault the rest is taken
//! out unserved, so that whoever fills the ring is not kept waiting.
ghost use Rattle.std.specs.Prelude.{◌≡◌, ◌+◌, ◌++◌, ◌∷◌, [], ℕ, List, length, IfOk, OnErr, OnOk};
ghost use mathlib.Core.List.{IsPrefix};
ghost use Rattle.rtrb.specs.Ring.{received, known_items};
ghost use Rattle.gp_workers.specs.Asked.{Extends, ExtendsBy, bursts_on};
ghost use Rattle.gp_workers.specs.Ring.{GrowsByBursts, up_to_end};

use super::ports::Ports;
use super::worker::Worker;
use gp_chassis::ApplyFault;
use gp_machine::Event;
use rtrb::Consumer;
use std::sync::Wait;
use std::sync::ledger::Ledger;
use std::thread;

/// What is put into the ring of a port.
#[derive(Clone, Copy, Debug, PartialEq, Eq)]
pub enum RingItem {
    /// A burst of thirteen octets. `at` is its whole round-trip delay, in bit times.
    Burst { at: u32, bytes: [u8; 13] },
    /// Nothing more is read.
    End,
}

/// Gives the next item of the ring, once there is one.
fn next_item<R: Wait>(rt: &R, consumer: &mut Consumer<RingItem>) -> RingItem
    ensures taken { received consumer.new ≡ received consumer.old ++ result ∷ [] }
    ensures known { IsPrefix (known_items consumer.old) (result ∷ known_items consumer.new) }
{
    for _ in rt.forever() {
        if let Ok(item) = consumer.pop() {
            return item;
        }
        thread::yield_now();
    }
    unreachable!()
}

/// Drops the items of the ring up to its end.
fn drain<R: Wait>(rt: &R, consumer: &mut Consumer<RingItem>) {
    for _ in rt.forever() {
        if let RingItem::End = next_item(rt, consumer) {
            return;
        }
    }
}

/// Has a port serve the bursts of a ring, in order, up to its end, and tells how many there were. After a fault the
/// items up to the end are dropped, so that whoever puts them there is not kept waiting.
pub fn reader_loop<P: Ports<L>, L: Ledger, R: Wait>(
    rt: &R,
    ports: &P,
    worker: &mut Worker<L>,
    port: u8,
    consumer: Consumer<RingItem>,
) -> Result<u64, ApplyFault>
    ensures ok { (bursts : List (ℕ × List ℕ)) (rest : List _) → known_items consumer ≡ up_to_end bursts rest
        → OnOk result (Extends worker.old.receipts worker.new.receipts (bursts_on port bursts)) }
    ensures kind { GrowsByBursts worker.old.receipts worker.new.receipts port }
    ensures count { IfOk result (λ count. length worker.old.receipts + count ≡ length worker.new.receipts) }
    ensures err { (bursts : List (ℕ × List ℕ)) (rest : List _) → known_items consumer ≡ up_to_end bursts rest
        → OnErr result (ExtendsBy worker.old.receipts worker.new.receipts (bursts_on port bursts)) }
{
    let mut consumer = consumer;
    let start = worker.receipts().len();
    for _ in rt.forever() {
        match next_item(rt, &mut consumer) {
            RingItem::End => return Ok((worker.receipts().len() - start) as u64),
            RingItem::Burst { at, bytes } => {
                if let Err(fault) = ports.apply(rt, worker, port, Event::Burst { at, bytes }) {
                    drain(rt, &mut consumer);
                    return Err(fault);
                }
            }
        }
    }
    unreachable!()
}
