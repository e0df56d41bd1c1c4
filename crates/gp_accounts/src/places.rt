//! Where the mark of each entry stands, those of a port behind those of the port before it, and which one a receipt
//! names.
ghost use Rattle.std.specs.Prelude.{◌≡◌, ◌<◌, ◌^◌, ◌↔◌, IfSome, IsTrue, MatchOption, Some, map};
ghost use Rattle.gp_journal.specs.Kept.{entry_in};
ghost use Rattle.gp_accounts.specs.Accounted.{IsNamed};
ghost use Rattle.gp_accounts.specs.Places.{AreStarts, IsPlaceOf, entry_count};

use super::comparing::is_same_entry;
use super::recorded::Recorded;
use gp_machine::Receipt;
use std::alloc::Global;

/// Where the marks of all entries stand: those of a port behind those of the port before it.
#[derive(Drop)]
pub(super) struct Places {
    /// Where the marks of each port begin.
    pub(super) starts: Vec<usize>,
    /// How many marks there are.
    pub(super) count: usize,
}

/// Finds where the marks of the entries of all ports stand. There is no answer where memory for it is refused, or
/// where there are more entries than memory can hold marks.
pub(super) fn places_of<J: Recorded>(alloc: Global, journals: &[J]) -> Option<Places>
    ensures { IfSome result
        (λ places. AreStarts (map J.history journals.now) places.starts.items
        × (places.count ≡ entry_count (map J.history journals.now))) }
{
    let mut starts = Vec::with_capacity(alloc, journals.len()).ok()?;
    let mut count = 0usize;
    for journal in journals {
        starts.push_reserved(count);
        count = count.checked_add(journal.entries().len())?;
    }
    Some(Places { starts, count })
}

/// Gives the place of the mark of the entry that the receipt names, or `None` where it names none.
pub(super) fn place_of<J: Recorded>(
    journals: &[J],
    starts: &[usize],
    receipt: &Receipt,
) -> Option<usize>
    requires starts { AreStarts (map J.history journals.now) starts.now }
    requires count { entry_count (map J.history journals.now) < 2 ^ 64 }
    ensures { MatchOption result (IsNamed (map J.history journals.now) receipt.now → ⊥)
        (λ place. IsPlaceOf (map J.history journals.now) receipt.now place) }
{
    let port = usize::from(receipt.port);
    if port >= journals.len() {
        return None;
    }
    let journal = &journals[port];
    let first = journal.first();
    if !has_entry(journal, first, receipt) {
        return None;
    }
    Some(starts[port] + (receipt.number - first) as usize)
}

/// Tells whether the journal, which begins at `first`, has the entry of the receipt. They are compared where they
/// stand.
fn has_entry<J: Recorded>(journal: &J, first: u64, receipt: &Receipt) -> bool
    requires { first ≡ (J.history journal.now).first }
    ensures { IsTrue result ↔ (entry_in (J.history journal.now) receipt.now.number ≡ Some receipt.now.entry) }
{
    if receipt.number < first {
        return false;
    }
    match journal.entries().get((receipt.number - first) as usize) {
        None => false,
        Some(entry) => is_same_entry(entry, &receipt.entry),
    }
}
