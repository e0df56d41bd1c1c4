//! One pass over each worker's receipts: each names an entry, has a number above the last one of its port, and makes
//! the entry's mark, which no other has made. In the end each mark is made.
ghost use Rattle.std.specs.Prelude.{◌≡◌, ◌<◌, ◌≤◌, ◌^◌, ◌↔◌, ℕ, All, IsTrue, Some, length, map, slice_index, false};
ghost use Rattle.gp_accounts.specs.Accounted.{Accounted, IsNamed, Rises};
ghost use Rattle.gp_accounts.specs.Places.{AreStarts, GrowBy, IsNamedAgain, entry_count};

use super::places::place_of;
use super::recorded::Recorded;
use super::told::ReceiptList;
use gp_machine::Receipt;

/// How many ports a receipt can name.
const PORTS: usize = 256;

/// Tells whether the receipts of all workers and the journals of all ports tell of the same steps, in one pass over
/// each worker's receipts. There is a mark for each entry, which is not made yet.
pub(super) fn are_accounted<J: Recorded, W: ReceiptList>(
    journals: &[J],
    workers: &[W],
    starts: &[usize],
    marks: &mut [u8],
) -> bool
    requires starts { AreStarts (map J.history journals.now) starts.now }
    requires count { length marks.old ≡ entry_count (map J.history journals.now) }
    requires blank { All (λ m. m ≡ 0) marks.old }
    ensures { IsTrue result ↔ Accounted (map J.history journals.now) (map W.told workers.now) }
{
    for worker in workers {
        if !mark_each(journals, starts, worker.receipts(), marks) {
            return false;
        }
    }
    all_ones(marks)
}

/// Makes the mark of the entry of each receipt, in order. It stops at a receipt that names no entry, whose number is
/// not above the last one of its port, or whose entry has its mark already.
fn mark_each<J: Recorded>(
    journals: &[J],
    starts: &[usize],
    receipts: &[Receipt],
    marks: &mut [u8],
) -> bool
    requires starts { AreStarts (map J.history journals.now) starts.now }
    requires count { length marks.old ≡ entry_count (map J.history journals.now) }
    requires once { All (λ m. m ≤ 1) marks.old }
    ensures named { IsTrue result → All (IsNamed (map J.history journals.now)) receipts.now }
    ensures rising { IsTrue result → Rises receipts.now }
    ensures marked { IsTrue result → GrowBy (map J.history journals.now) receipts.now marks.old marks.new }
    ensures once { IsTrue result → All (λ m. m ≤ 1) marks.new }
    ensures refused { result ≡ false → All (IsNamed (map J.history journals.now)) receipts.now → Rises receipts.now
        → IsNamedAgain (map J.history journals.now) receipts.now marks.old }
{
    let mut last: [Option<u64>; PORTS] = [None; PORTS];
    for receipt in receipts {
        let Some(place) = place_of(journals, starts, receipt) else {
            return false;
        };
        let port = usize::from(receipt.port);
        if !is_above(last[port], receipt.number) {
            return false;
        }
        last[port] = Some(receipt.number);
        if marks[place] != 0 {
            return false;
        }
        marks[place] = 1;
    }
    true
}

/// Tells whether a number is greater than the last one, where there is one.
fn is_above(last: Option<u64>, number: u64) -> bool
    ensures { IsTrue result ↔ ((before : ℕ) → last ≡ Some before → before < number) }
{
    match last {
        Some(last) => last < number,
        None => true,
    }
}

fn all_ones(marks: &[u8]) -> bool
    ensures { IsTrue result ↔ ((k : ℕ) → k < length marks.now → slice_index marks.now k ≡ 1) }
{
    for mark in marks {
        if *mark != 1 {
            return false;
        }
    }
    true
}
