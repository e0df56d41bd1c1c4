//! Whether receipts and journals tell of the same steps. The memory for that is taken before anything is compared.
ghost use Rattle.std.specs.Prelude.{◌≡◌, OnOk, map};
ghost use Rattle.gp_accounts.specs.Accounted.{Accounted};

use super::fault::CloseFault;
use super::marking::are_accounted;
use super::places::places_of;
use super::recorded::Recorded;
use super::told::ReceiptList;
use std::alloc::Global;

/// Tells whether the receipts of all workers and the journals of all ports tell of the same steps: each receipt names
/// an entry, each worker's numbers on a port rise, and each entry is named by one receipt. The memory for the check
/// is taken before anything is compared: `OutOfMemory` where the allocator refused it, else `Mismatch` where they do
/// not.
pub fn reconcile<J: Recorded, W: ReceiptList>(
    alloc: Global,
    journals: &[J],
    workers: &[W],
) -> Result<(), CloseFault>
    ensures accounted { OnOk result (Accounted (map J.history journals.now) (map W.told workers.now)) }
    ensures mismatch { result ≡ Err CloseFault.Mismatch
        → Accounted (map J.history journals.now) (map W.told workers.now) → ⊥ }
    ensures ended { result ≡ Err CloseFault.WorkerMissing → ⊥ }
{
    let Some(places) = places_of(alloc, journals) else {
        return Err(CloseFault::OutOfMemory);
    };
    let Ok(mut marks) = vec![in alloc; 0u8; places.count] else {
        return Err(CloseFault::OutOfMemory);
    };
    if are_accounted(journals, workers, &places.starts, &mut marks) {
        Ok(())
    } else {
        Err(CloseFault::Mismatch)
    }
}
