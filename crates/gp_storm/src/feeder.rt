//! The thread that feeds a port's bursts into its ring.
ghost use Rattle.std.specs.Prelude.{◌≡◌, ◌++◌, ◌∷◌, [], IsTrue};
ghost use Rattle.rtrb.specs.Ring.{sent};
ghost use Rattle.gp_workers.specs.Ring.{in_ring, up_to_end};

use gp_workers::RingItem;
use rtrb::Producer;
use std::sync::Wait;
use std::thread;

/// Puts an item into the ring once there is a place, and tells whether it did: not where the reader is gone.
fn put<R: Wait>(rt: &R, producer: &mut Producer<RingItem>, item: RingItem) -> bool
    ensures { IsTrue result → sent producer.new ≡ sent producer.old ++ item ∷ [] }
{
    for _ in rt.forever() {
        if producer.push(item).is_ok() {
            return true;
        }
        if producer.is_abandoned() {
            return false;
        }
        thread::yield_now();
    }
    unreachable!()
}

/// A burst as it stands in a ring.
fn item_of(burst: &(u32, [u8; 13])) -> RingItem
    ensures { result ≡ in_ring burst.now }
{
    RingItem::Burst {
        at: burst.0,
        bytes: burst.1,
    }
}

/// Puts all bursts into the ring and then the end, and tells whether it did: not where the reader is gone.
pub(crate) fn feed<R: Wait>(
    rt: &R,
    producer: &mut Producer<RingItem>,
    bursts: &[(u32, [u8; 13])],
) -> bool
    ensures { IsTrue result → sent producer.new ≡ sent producer.old ++ up_to_end bursts.now [] }
{
    for burst in bursts {
        if !put(rt, producer, item_of(burst)) {
            return false;
        }
    }
    put(rt, producer, RingItem::End)
}
