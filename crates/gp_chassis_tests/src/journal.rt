//! What no clause says: `replays` on a small history, also where memory is refused.
ghost use Rattle.std.specs.Prelude.{◌≡◌};

use super::units::{A, A_SEARCHED, SEARCH, port_of, record};
use gp_journal::{Journal, JournalFault, replays};
use gp_licence::{LicenceBook, MAX_LICENCES};
use gp_machine::{Answer, Command, Entry, Event, PortConfig, Reply};
use gp_ploam::Down;
use gp_port::PortCore;
use std::alloc::Global;
use std::marker::Brand;
use std::sync::ledger::{Blank, Ledger};

/// What A's port is asked: a search, five frames, A's serial number, to remove A, and six frames.
const EVENTS: [Event; 14] = [
    SEARCH,
    Event::Frame,
    Event::Frame,
    Event::Frame,
    Event::Frame,
    Event::Frame,
    A_SEARCHED,
    Event::Command(Command::Deactivate(A)),
    Event::Frame,
    Event::Frame,
    Event::Frame,
    Event::Frame,
    Event::Frame,
    Event::Frame,
];

/// A worked row: with which ONU-ID A is recorded as found, with which one later, by how many frames a freed ONU-ID
/// rests, and whether the journal tells where the port stands. The port gives A the ONU-ID 0.
type Row = (u8, u8, u16, bool);

/// An answer that nothing else says is told from the others; another ONU-ID throughout is told where it could not be
/// A's.
const ROWS: [Row; 4] = [
    (0, 0, 800, true),
    (1, 0, 800, false),
    (7, 7, 0, true),
    (7, 7, 800, false),
];

/// Makes a step with one licence at hand, and gives its entry.
fn entry_of<L: Ledger>(port: &mut PortCore<L>, book: &mut LicenceBook<L>, event: Event) -> Entry {
    let purse = book.take();
    let purse_in = purse.count();
    let (answer, rest) = port.step(purse, event);
    let purse_out = rest.count();
    book.give(rest);
    Entry {
        purse_in,
        event,
        answer,
        purse_out,
    }
}

/// The same answer, with one ONU-ID where A is found, and one in all that is said of it later.
fn with_numbers(answer: Answer, found: u8, later: u8) -> Answer {
    let reply = match answer.reply {
        Reply::Found(_) => Reply::Found(found),
        Reply::Deactivated(_) => Reply::Deactivated(later),
        other => other,
    };
    let sent = match answer.sent {
        Some(Down::AssignOnu { onu: _, serial }) => Some(Down::AssignOnu { onu: later, serial }),
        Some(Down::Deactivate { onu: _ }) => Some(Down::Deactivate { onu: later }),
        other => other,
    };
    Answer {
        reply,
        sent,
        grant: answer.grant,
        alarm: answer.alarm,
    }
}

/// Makes a step, and records it with these ONU-IDs.
fn record_step<L: Ledger>(
    journal: &mut Journal,
    port: &mut PortCore<L>,
    book: &mut LicenceBook<L>,
    row: &Row,
    event: Event,
) -> Result<(), JournalFault> {
    let mut entry = entry_of(port, book, event);
    entry.answer = with_numbers(entry.answer, row.0, row.1);
    record(journal, entry)
}

/// Makes the steps of A's port, and records each.
fn record_all<L: Ledger>(
    journal: &mut Journal,
    port: &mut PortCore<L>,
    book: &mut LicenceBook<L>,
    row: &Row,
) -> Result<(), JournalFault> {
    for event in &EVENTS {
        record_step(journal, port, book, row, *event)?;
    }
    Ok(())
}

/// Whether the journal tells where the port stands. It is asked once more where memory is refused.
fn tells<L: Ledger>(
    alloc: Global,
    config: &PortConfig,
    journal: &Journal,
    port: &PortCore<L>,
) -> Result<bool, JournalFault> {
    match replays(alloc, config, journal, port) {
        Err(_) => replays(alloc, config, journal, port),
        tells => tells,
    }
}

/// Makes the steps of A's port, and tells whether their journal tells where the port stands.
fn tells_of_steps<L: Ledger>(
    alloc: Global,
    config: &PortConfig,
    port: &mut PortCore<L>,
    book: &mut LicenceBook<L>,
    row: &Row,
) -> Result<bool, JournalFault> {
    let mut journal = Journal::new(alloc);
    record_all(&mut journal, port, book, row)?;
    tells(alloc, config, &journal, port)
}

/// Whether the journal of A's port tells where the port stands. There is no answer where memory for the port is
/// refused.
fn outcome_of<L: Ledger>(
    alloc: Global,
    blank: Blank,
    config: &PortConfig,
    row: &Row,
) -> Option<Result<bool, JournalFault>>
    requires name { blank.name ≡ L.name }
    requires parts { (blank.parts ≡ L.parts) × (L.parts ≡ MAX_LICENCES) }
{
    let mut port = PortCore::<L>::begin(alloc, config).ok()?;
    let mut book = LicenceBook::<L>::new(blank, 1);
    let outcome = tells_of_steps(alloc, config, &mut port, &mut book, row);
    book.close(port.close());
    Some(outcome)
}

/// The same with a new ledger.
fn outcome(alloc: Global, row: &Row) -> Option<Result<bool, JournalFault>> {
    let mut config = port_of(alloc, (1, 1), 3).ok()?;
    config.quarantine = row.2;
    outcome_of::<Brand>(alloc, Blank::new(u64::from(MAX_LICENCES)), &config, row)
}

/// The same, and once more where memory for the port was refused.
fn outcome_at_last(alloc: Global, row: &Row) -> Option<Result<bool, JournalFault>> {
    match outcome(alloc, row) {
        None => outcome(alloc, row),
        found => found,
    }
}

// Passes whichever one request for memory is refused, and with ample memory (`rt try --test --fail-alloc N`).
#[test]
fn histories(rt: HostRuntime) {
    for row in &ROWS {
        assert!(rt;
            outcome_at_last(rt.alloc(), row) == Some(Ok(row.3)),
            "{row:?}"
        );
    }
}
