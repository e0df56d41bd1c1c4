//! A chassis that is played by lines: what it is asked, and what it has to answer. Ports, actors and units go by
//! their numbers.
use crate::units::{Said, heard, spoken};
use gp_alarms::AlarmKind;
use gp_chassis::{ChassisCore, CoreFault};
use gp_machine::{Entry, Event, Receipt};
use std::alloc::Global;
use std::sync::ledger::Ledger;

/// What a chassis is asked.
#[derive(Clone, Copy)]
pub(super) enum Call {
    /// A port serves an event.
    Apply(u8, Event),
    /// A port hears this unit answer a search, and each further time the unit with the next number.
    Hear(u8, u16),
    /// An actor has a port hear a unit answer a search.
    Step(u8, u8, u16),
    /// A port's journal is cut: the number of the piece's first entry, and how many it has.
    Cut(u8),
    /// An actor takes: how many are in hand.
    Take(u8),
    /// An actor gives.
    Give(u8),
    /// How many copies a port owes.
    Owed(u8),
    /// How many licences are free.
    Free,
}

/// What it answers: a reply and an alarm, or numbers; the first is 1 where a window is opened.
pub(super) type Answer = Result<(Option<Said>, Option<AlarmKind>, u64, u64), CoreFault>;

/// How a port is asked to serve an event.
#[derive(Clone, Copy)]
pub(super) enum Way {
    /// Its receipt is given.
    Receipt,
    /// Its entry is lent where the journal keeps it.
    Kept,
}

/// A call, so many times, and what is answered each time, with the next ONU-ID each further time where a unit is found.
pub(super) type Line = (u8, Call, Answer);

/// Plays lines, each event in this way, each call with so many tries at most where memory is refused, and gives the
/// place of the first line that is answered otherwise.
pub(super) fn play<L: Ledger>(
    alloc: Global,
    core: &mut ChassisCore<L>,
    lines: &[Line],
    way: Way,
    tries: u8,
) -> Option<usize> {
    for (place, (times, call, answer)) in lines.iter().enumerate() {
        for turn in 0..*times {
            if answer_at_last(alloc, core, (call, way), turn, tries) != at_turn(*answer, turn) {
                return Some(place);
            }
        }
    }
    None
}

/// What is answered the first time, with the next ONU-ID each further time.
fn at_turn(answer: Answer, turn: u8) -> Answer {
    match answer {
        Ok((Some(Said::Found(onu)), alarm, first, second)) => {
            let found = Said::Found(onu.wrapping_add(turn));
            Ok((Some(found), alarm, first, second))
        }
        other => other,
    }
}

/// Makes a call, and makes it again where memory is refused, with so many tries at most.
fn answer_at_last<L: Ledger>(
    alloc: Global,
    core: &mut ChassisCore<L>,
    asked: (&Call, Way),
    turn: u8,
    tries: u8,
) -> Answer {
    let mut answer = Err(CoreFault::OutOfMemory);
    for _ in 0..tries {
        if answer == Err(CoreFault::OutOfMemory) {
            answer = make(alloc, core, asked, turn);
        }
    }
    answer
}

fn make<L: Ledger>(
    alloc: Global,
    core: &mut ChassisCore<L>,
    asked: (&Call, Way),
    turn: u8,
) -> Answer {
    let (call, way) = asked;
    match *call {
        Call::Apply(port, event) => replied(serve(core, port, event, way)),
        Call::Hear(port, first) => {
            let number = first.wrapping_add(u16::from(turn));
            replied(serve(core, port, heard(number), way))
        }
        Call::Step(actor, port, number) => {
            replied(entry_of(core.step(actor, port, heard(number))))
        }
        Call::Cut(port) => cut(alloc, core, port),
        Call::Take(actor) => counted(core.take(actor)),
        Call::Give(actor) => match core.give(actor) {
            Ok(()) => counted(Ok(0)),
            Err(fault) => Err(fault),
        },
        Call::Owed(port) => owed(core, port),
        Call::Free => counted(Ok(core.free())),
    }
}

/// Has a port serve an event.
fn serve<L: Ledger>(
    core: &mut ChassisCore<L>,
    port: u8,
    event: Event,
    way: Way,
) -> Result<Entry, CoreFault> {
    match way {
        Way::Receipt => entry_of(core.apply(port, event)),
        Way::Kept => {
            let number = core.apply_in_place(port, event, None)?;
            kept(core, port, number)
        }
    }
}

/// Gives the entry of a receipt.
fn entry_of(applied: Result<Receipt, CoreFault>) -> Result<Entry, CoreFault> {
    match applied {
        Ok(receipt) => Ok(receipt.entry),
        Err(fault) => Err(fault),
    }
}

/// Copies the last entry that a port's journal keeps. `NoActor`, which no such call answers, where it has not this
/// number, or none is kept.
fn kept<L: Ledger>(core: &ChassisCore<L>, port: u8, number: u64) -> Result<Entry, CoreFault> {
    match (core.last_entry(port), core.desk(port)) {
        (Some(entry), Some(desk)) if desk.journal().len().checked_sub(1) == Some(number) => Ok(
            *entry,
        ),
        _ => Err(CoreFault::NoActor),
    }
}

fn replied(served: Result<Entry, CoreFault>) -> Answer {
    match served {
        Ok(entry) => {
            let answer = entry.answer;
            let alarm = match answer.alarm {
                Some(alarm) => Some(alarm.kind),
                None => None,
            };
            let opened = u64::from(answer.grant.is_some());
            Ok((Some(spoken(&answer.reply)), alarm, opened, 0))
        }
        Err(fault) => Err(fault),
    }
}

fn counted(count: Result<u32, CoreFault>) -> Answer {
    match count {
        Ok(count) => Ok((None, None, u64::from(count), 0)),
        Err(fault) => Err(fault),
    }
}

fn owed<L: Ledger>(core: &ChassisCore<L>, port: u8) -> Answer {
    match core.desk(port) {
        Some(desk) => Ok((None, None, desk.core().owed() as u64, 0)),
        None => Err(CoreFault::NoPort),
    }
}

fn cut<L: Ledger>(alloc: Global, core: &mut ChassisCore<L>, port: u8) -> Answer {
    match core.cut(alloc, port) {
        Ok(piece) => Ok((None, None, piece.first, piece.len())),
        Err(fault) => Err(fault),
    }
}
