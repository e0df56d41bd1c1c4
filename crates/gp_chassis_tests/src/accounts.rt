//! What no clause says: which receipts are reconciled with the journal of a port, by worked rows, and what becomes of
//! it where memory is refused.
use super::units::{SEARCH, record};
use gp_accounts::{CloseFault, reconcile};
use gp_journal::{Journal, JournalFault};
use gp_machine::{Answer, Entry, Event, Receipt, Reply};
use std::alloc::Global;

/// An entry of the port: it searched first, and had a frame then. The answer to the search may be altered.
fn entry(number: u64, altered: bool) -> Entry {
    let (event, reply) = match (number, altered) {
        (0, false) => (SEARCH, Reply::Searching),
        (0, true) => (SEARCH, Reply::Ticked),
        _ => (Event::Frame, Reply::Ticked),
    };
    Entry {
        purse_in: 0,
        event,
        answer: Answer::from(reply),
        purse_out: 0,
    }
}

/// The receipt of that entry.
fn receipt(number: u64, altered: bool) -> Receipt {
    Receipt {
        port: 0,
        number,
        entry: entry(number, altered),
    }
}

/// A worked row: two receipts, each by the entry's number and whether it is altered; how many of them the first
/// worker was told, from which one on the second was, and whether that is what the journal has.
type Row = (
    &'static str,
    [(u64, bool); 2],
    (usize, usize),
    Result<(), CloseFault>,
);

const ROWS: &[Row] = &[
    ("told to one", [(0, false), (1, false)], (2, 2), Ok(())),
    ("told to two", [(1, false), (0, false)], (1, 1), Ok(())),
    (
        "an answer altered",
        [(0, true), (1, false)],
        (2, 2),
        Err(CloseFault::Mismatch),
    ),
    (
        "in the wrong order",
        [(1, false), (0, false)],
        (2, 2),
        Err(CloseFault::Mismatch),
    ),
    (
        "told to nobody",
        [(0, false), (1, false)],
        (1, 2),
        Err(CloseFault::Mismatch),
    ),
];

/// Appends both entries.
fn record_both(journal: &mut Journal) -> Result<(), JournalFault> {
    record(journal, entry(0, false))?;
    record(journal, entry(1, false))
}

/// The journal of a port that searched and then had a frame.
fn journal(alloc: Global) -> Result<Journal, JournalFault> {
    let mut journal = Journal::new(alloc);
    record_both(&mut journal)?;
    Ok(journal)
}

/// The receipts from one place up to another.
fn part_of(alloc: Global, receipts: &[Receipt], from: usize, to: usize) -> Option<Vec<Receipt>> {
    if from > to || to > receipts.len() {
        return None;
    }
    receipts[from..to].to_vec(alloc).ok()
}

/// What two workers were told.
fn told(alloc: Global, row: &Row) -> Option<[Vec<Receipt>; 2]> {
    let named = row.1;
    let receipts = [
        receipt(named[0].0, named[0].1),
        receipt(named[1].0, named[1].1),
    ];
    let first = part_of(alloc, &receipts, 0, row.2.0)?;
    let second = part_of(alloc, &receipts, row.2.1, 2)?;
    Some([first, second])
}

/// Reconciles receipts with journals, with so many tries at most where memory is refused.
fn reconcile_at_last(
    alloc: Global,
    journals: &[Journal; 1],
    told: &[Vec<Receipt>; 2],
    tries: u8,
) -> Result<(), CloseFault> {
    let mut answer = Err(CloseFault::OutOfMemory);
    for _ in 0..tries {
        if answer == Err(CloseFault::OutOfMemory) {
            answer = reconcile(alloc, journals, told);
        }
    }
    answer
}

/// Reconciles what two workers were told with the journal, with so many tries at most where memory is refused. There
/// is no answer where it is refused before.
fn reconciled(alloc: Global, row: &Row, tries: u8) -> Option<Result<(), CloseFault>> {
    let told = told(alloc, row)?;
    let journals = [journal(alloc).ok()?];
    Some(reconcile_at_last(alloc, &journals, &told, tries))
}

#[test]
fn worked_rows(rt: HostRuntime) {
    for row in ROWS {
        assert!(rt; reconciled(rt.alloc(), row, 1) == Some(row.3), "{}", row.0);
    }
}

/// The same with two tries, and once more where memory was refused before.
fn reconciled_at_last(alloc: Global, row: &Row) -> Option<Result<(), CloseFault>> {
    match reconciled(alloc, row, 2) {
        None => reconciled(alloc, row, 2),
        found => found,
    }
}

// Passes whichever one request for memory is refused, and with ample memory (`rt try --test --fail-alloc N`).
#[test]
fn memory_short_or_ample(rt: HostRuntime) {
    for row in ROWS {
        assert!(rt;
            reconciled_at_last(rt.alloc(), row) == Some(row.3),
            "{}",
            row.0
        );
    }
}
