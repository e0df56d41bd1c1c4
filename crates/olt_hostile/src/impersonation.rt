//! Plays the stories of `stories.rt`, each on a port of its own, and compares each answer and how the port stands.

use crate::port::{AttackedPort, FAR, code_of};
use crate::stories::{Line, STORIES, Said, Story};
use crate::tally::Tally;
use gp_alarms::AlarmKind;
use gp_machine::{Command, Event, Reply};
use gp_ploam::Mask;
use gp_ranging::Grant;
use std::alloc::Global;
use std::io;
use std::sync::ledger::Ledger;

/// Makes the octets of what is said.
fn code_said(said: Said) -> [u8; 13] {
    let (onu, id, body) = match said {
        Said::Number(onu, serial) => {
            let [a, b, c, d, e, f, g, h] = serial.0;
            (onu, 1, [a, b, c, d, e, f, g, h, 0, 0])
        }
        Said::Gasp(onu) => (onu, 3, [0; 10]),
        Said::Nothing(onu) => (onu, 4, [0; 10]),
        Said::Heard(onu, id) => (onu, 9, [id, 0, 0, 0, 0, 0, 0, 0, 0, 0]),
    };
    code_of(onu, id, body, Mask::Plain)
}

/// Tells whether the port answers what is said with this reply and alarm, and sends and grants nothing.
fn hears<L: Ledger>(
    port: &mut AttackedPort<L>,
    at: u32,
    said: Said,
    wanted: (Reply, Option<AlarmKind>),
) -> bool {
    let bytes = code_said(said);
    let outcome = port.step(Event::Burst { at, bytes });
    let kind = outcome.alarm.map(|alarm| alarm.0);
    (outcome.reply, kind) == wanted && outcome.sent.is_none() && outcome.grant.is_none()
}

/// Tells whether the port carries out the command so.
fn carries_out<L: Ledger>(port: &mut AttackedPort<L>, command: Command, reply: Reply) -> bool {
    let outcome = port.step(Event::Command(command));
    outcome.reply == reply && outcome.alarm.is_none() && outcome.sent.is_none()
}

/// Tells whether only the last of so many frames grants and raises an alarm, and these.
fn ticks<L: Ledger>(
    port: &mut AttackedPort<L>,
    count: u32,
    last: (Option<Grant>, Option<AlarmKind>),
) -> bool {
    for frame in 1..=count {
        let outcome = port.step(Event::Frame);
        let told = (outcome.grant, outcome.alarm.map(|alarm| alarm.0));
        let wanted = if frame == count { last } else { (None, None) };
        if told != wanted {
            return false;
        }
    }
    true
}

/// Tells whether the port answers a line.
fn answers<L: Ledger>(port: &mut AttackedPort<L>, line: &Line) -> bool {
    match *line {
        Line::Frames(count, grant) => ticks(port, count, (grant, None)),
        Line::Loses(count, alarm) => ticks(port, count, (None, Some(alarm))),
        Line::Asked(command, told) => carries_out(port, command, told.reply()),
        Line::Denies(command, refusal) => { carries_out(port, command, Reply::Refused(refusal)) }
        Line::Says(said, told) => hears(port, FAR, said, (told.reply(), None)),
        Line::SaysFrom(at, said, told) => hears(port, at, said, (told.reply(), None)),
        Line::Alarms(said, told, alarm) => hears(port, FAR, said, (told.reply(), Some(alarm))),
        Line::Refuses(said, refusal) => { hears(port, FAR, said, (Reply::Refused(refusal), None)) }
        Line::Stands(rows, owed, free) => port.stands() == (rows, owed, free),
    }
}

/// Plays a story on a port of its own, each line a case, those before its scene too.
fn play<L: Ledger>(alloc: Global, port: &mut AttackedPort<L>, story: &Story) -> io::Result<Tally> {
    port.renew(alloc, story.scene.cycles())?;
    let mut tally = Tally::default();
    for (number, line) in story.scene.lines().iter().enumerate() {
        tally.count("before the scene", number, answers(port, line));
    }
    for (number, line) in story.lines.iter().enumerate() {
        tally.count("line", number, answers(port, line));
    }
    Ok(tally)
}

/// Plays each story.
pub(crate) fn check<L: Ledger, R: AllocGlobal + Print>(
    rt: &R,
    port: &mut AttackedPort<L>,
) -> io::Result<bool> {
    let mut right = true;
    for story in STORIES {
        let tally = play(rt.alloc(), port, story)?;
        right &= tally.tell(rt, story.name)?;
    }
    Ok(right)
}
