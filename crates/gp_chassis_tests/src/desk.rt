//! What no clause says: that a desk opens and serves with ample memory, and where memory is refused stands as before,
//! and its licences come back.
ghost use Rattle.std.specs.Prelude.{◌≡◌};

use super::units::{A_RANGED, A_SEARCHED, SEARCH, Said, port_of, spoken};
use gp_chassis::{ApplyFault, PortDesk};
use gp_licence::{LicenceBook, Licences, MAX_LICENCES};
use gp_machine::{Event, PortConfig};
use gp_port::OpenFault;
use std::alloc::Global;
use std::marker::Brand;
use std::sync::ledger::{Blank, Ledger};

/// What a desk answers: the number of the receipt and the reply; and how many licences come back.
type Answer = (Result<(u64, Said), ApplyFault>, u32);

/// An event, so many times, and what is answered the first time. Each further receipt has the next number.
type Line = (u8, Event, Answer);

/// A is found and ranged, with one licence at hand for each burst. Then the journal has the sixteen entries that it
/// may keep.
const ONE_UNIT: &[Line] = &[
    (1, SEARCH, (Ok((0, Said::Searching)), 0)),
    (5, Event::Frame, (Ok((1, Said::Ticked)), 0)),
    (1, A_SEARCHED, (Ok((6, Said::Found(0))), 0)),
    (4, Event::Frame, (Ok((7, Said::Ticked)), 0)),
    (1, A_RANGED, (Ok((11, Said::Ranged(0, 211_040))), 1)),
    (4, Event::Frame, (Ok((12, Said::Ticked)), 0)),
    (1, Event::Frame, (Err(ApplyFault::JournalFull), 0)),
    (1, A_RANGED, (Err(ApplyFault::JournalFull), 1)),
];

/// How many entries a desk has and keeps, how many units are active and how many copies owed on its port, and how
/// many licences are free.
fn stands<L: Ledger>(
    desk: &PortDesk<L>,
    book: &LicenceBook<L>,
) -> ((u64, usize), (usize, usize), u32) {
    let journal = desk.journal();
    let core = desk.core();
    (
        (journal.len(), journal.entries().len()),
        (core.rows(), core.owed()),
        book.free(),
    )
}

/// Has a desk serve an event, with one licence at hand for a burst.
fn serve<L: Ledger>(desk: &mut PortDesk<L>, book: &mut LicenceBook<L>, event: Event) -> Answer {
    let purse = match event {
        Event::Burst { .. } => book.take(),
        _ => Licences::none(),
    };
    let (answer, rest) = match desk.serve(0, purse, event) {
        Ok((receipt, rest)) => {
            let said = spoken(&receipt.entry.answer.reply);
            (Ok((receipt.number, said)), rest)
        }
        Err((fault, purse)) => (Err(fault), purse),
    };
    let back = rest.count();
    book.give(rest);
    (answer, back)
}

/// The same, and again where memory is refused and there is a try left. There is no answer where the refusal changed
/// anything.
fn serve_at_last<L: Ledger>(
    desk: &mut PortDesk<L>,
    book: &mut LicenceBook<L>,
    event: Event,
    tries: u8,
) -> Option<Answer> {
    let before = stands(desk, book);
    let answer = serve(desk, book, event);
    if answer.0 != Err(ApplyFault::OutOfMemory) || tries < 2 {
        return Some(answer);
    }
    if stands(desk, book) != before {
        return None;
    }
    Some(serve(desk, book, event))
}

/// What is answered at a further time.
fn at_turn(answer: Answer, turn: u8) -> Answer {
    match answer {
        (Ok((number, said)), back) => (Ok((number.wrapping_add(u64::from(turn)), said)), back),
        other => other,
    }
}

/// Plays the lines, and gives the place of the first one that is answered otherwise.
fn play<L: Ledger>(desk: &mut PortDesk<L>, book: &mut LicenceBook<L>, tries: u8) -> Option<usize> {
    for (place, (times, event, answer)) in ONE_UNIT.iter().enumerate() {
        for turn in 0..*times {
            if serve_at_last(desk, book, *event, tries) != Some(at_turn(*answer, turn)) {
                return Some(place);
            }
        }
    }
    None
}

/// Opens a desk, plays the lines with so many tries at most where memory is refused, and closes it: the place of the
/// first line that is answered otherwise, how many entries the journal has, and how many of two licences come back.
fn outcome_of<L: Ledger>(
    alloc: Global,
    blank: Blank,
    config: &PortConfig,
    tries: u8,
) -> Result<(Option<usize>, u64, u32), OpenFault>
    requires name { blank.name ≡ L.name }
    requires parts { (blank.parts ≡ L.parts) × (L.parts ≡ MAX_LICENCES) }
{
    let mut desk = PortDesk::<L>::begin(alloc, config, 16)?;
    let mut book = LicenceBook::<L>::new(blank, 2);
    let wrong = play(&mut desk, &mut book, tries);
    let (journal, held) = desk.close();
    Ok((wrong, journal.len(), book.close(held)))
}

/// The same with a new ledger.
fn outcome(alloc: Global, tries: u8) -> Result<(Option<usize>, u64, u32), OpenFault> {
    let config = port_of(alloc, (1, 1), 1)?;
    outcome_of::<Brand>(alloc, Blank::new(u64::from(MAX_LICENCES)), &config, tries)
}

#[test]
fn one_unit(rt: HostRuntime) {
    assert!(rt; outcome(rt.alloc(), 1) == Ok((None, 16, 2)));
}

/// The same with two tries of each event, and once more where memory for the desk was refused.
fn outcome_at_last(alloc: Global) -> Result<(Option<usize>, u64, u32), OpenFault> {
    match outcome(alloc, 2) {
        Err(OpenFault::OutOfMemory) => outcome(alloc, 2),
        found => found,
    }
}

// Passes whichever one request for memory is refused, and with ample memory (`rt try --test --fail-alloc N`).
#[test]
fn memory_short_or_ample(rt: HostRuntime) {
    assert!(rt; outcome_at_last(rt.alloc()) == Ok((None, 16, 2)));
}
