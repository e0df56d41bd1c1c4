//! A port that is played by lines: what it is asked, and what it has to answer.
ghost use Rattle.std.specs.Prelude.{◌≡◌, ◌≤◌};

use super::parts::{
    ALL_AT_ONCE, BEGINNINGS, COMMANDS, EIGHT_ALLOC_IDS, NUMBERS, Part, RANGING, TWO_UNITS,
};
use gp_alarms::{Alarm, AlarmKind};
use gp_licence::{LicenceBook, Licences, MAX_LICENCES};
use gp_machine::{Admitted, Command, Entry, Event, PortConfig, Refusal, Reply};
use gp_ploam::{ASSIGN_ALLOC_ID, BROADCAST_ONU, Down, Mask, Serial, Up, encode_up, is_proper_up};
use gp_port::{OpenFault, PortCore};
use gp_ranging::Grant;
use std::alloc::{AllocError, Global};
use std::sync::ledger::{Blank, Ledger};

/// What happens at a port, and what it answers.
#[derive(Clone, Copy)]
pub(super) enum Line {
    /// So many times this command, with this reply each time.
    Asked(u8, Command, Reply),
    /// A unit's message after this round-trip delay in bit times, with this reply and alarm.
    Heard(u32, Up, Reply, Option<AlarmKind>),
    /// Thirteen octets with a wrong check octet, which the open window refuses.
    Garbled,
    /// So many frames, of which the last alone grants and raises an alarm, and these.
    Frames(u8, Option<Grant>, Option<AlarmKind>),
    /// So many frames that send this message, and neither grant nor raise an alarm.
    Sends(u8, Down),
    /// So many copies are owed.
    Owes(usize),
}

pub(super) const A: Serial = Serial(*b"ABCD\0\0\0\x01");

pub(super) const B: Serial = Serial(*b"ABCD\0\0\0\x02");

pub(super) const C: Serial = Serial(*b"ABCD\0\0\0\x03");

pub(super) const D: Serial = Serial(*b"ABCD\0\0\0\x04");

/// A's serial number, before A has an ONU-ID.
pub(super) const A_SEARCHED: Up = Up::SerialNumber {
    onu: BROADCAST_ONU,
    serial: A,
    random: 0,
    flags: 0,
};

pub(super) const B_SEARCHED: Up = Up::SerialNumber {
    onu: BROADCAST_ONU,
    serial: B,
    random: 0,
    flags: 0,
};

pub(super) const D_SEARCHED: Up = Up::SerialNumber {
    onu: BROADCAST_ONU,
    serial: D,
    random: 0,
    flags: 0,
};

/// A's serial number, with A's ONU-ID.
pub(super) const A_RANGED: Up = Up::SerialNumber {
    onu: 0,
    serial: A,
    random: 0,
    flags: 0,
};

pub(super) const B_RANGED: Up = Up::SerialNumber {
    onu: 1,
    serial: B,
    random: 0,
    flags: 0,
};

/// What A answers a poll: that it has heard Assign_Alloc-ID, or nothing.
pub(super) const A_ACKNOWLEDGES: Up = Up::Acknowledge {
    onu: 0,
    id: ASSIGN_ALLOC_ID,
    copy: [0; 9],
};

pub(super) const A_HAS_NOTHING: Up = Up::NoMessage { onu: 0 };

/// Octets with a wrong check octet.
pub(super) const GARBLED: Event = Event::Burst {
    at: 0,
    bytes: [0xff; 13],
};

/// How far the units are, in bit times; an equalized delay of 311,040 leaves them 211,040.
pub(super) const FAR: u32 = 100_000;

pub(super) const RANGED_A: Reply = Reply::Ranged {
    onu: 0,
    eqd: 211_040,
};

pub(super) const RANGING_TIME: Down = Down::RangingTime {
    onu: 0,
    eqd: 211_040,
};

/// The numbers in which ports differ.
#[derive(Clone, Copy)]
pub(super) struct Numbers {
    pub(super) max_units: u8,
    pub(super) alloc_last: u16,
    pub(super) quarantine: u16,
}

pub(super) const USUAL: Numbers = Numbers {
    max_units: 254,
    alloc_last: 4095,
    quarantine: 800,
};

/// The place of the first part that a port answers otherwise, and the line's place in the table that has the part.
pub(super) type Wrong = Option<(usize, [Option<usize>; 7])>;

/// The defaults but for some numbers, with A to D admitted.
fn config_of(alloc: Global, numbers: Numbers) -> Result<PortConfig, AllocError> {
    let admitted = Admitted::from([A, B, C, D].to_vec(alloc)?);
    Ok(PortConfig {
        mask: Mask::Plain,
        teqd: 311_040,
        overhead: [0; 10],
        max_units: numbers.max_units,
        alloc_last: numbers.alloc_last,
        cycles: 1,
        search_period: 0,
        quarantine: numbers.quarantine,
        admitted,
    })
}

/// A port, and the licences that its units don't hold.
pub(super) struct Played<L: Ledger> {
    pub(super) port: PortCore<L>,
    book: LicenceBook<L>,
}

impl<L: Ledger> Played<L> {
    /// Opens a port of four licences, on which A to D are admitted.
    pub(super) fn begin(
        alloc: Global,
        blank: Blank,
        numbers: Numbers,
    ) -> Result<Played<L>, OpenFault>
        requires name { blank.name ≡ L.name }
        requires parts { (blank.parts ≡ L.parts) × (L.parts ≡ MAX_LICENCES) }
    {
        let config = config_of(alloc, numbers)?;
        let port = PortCore::begin(alloc, &config)?;
        let book = LicenceBook::new(blank, 4);
        Ok(Played { port, book })
    }

    /// What is at hand for an event: a burst has a licence, if one is free.
    fn purse_for(&mut self, event: Event) -> Licences<L> {
        match event {
            Event::Burst { .. } => self.book.take(),
            _ => Licences::none(),
        }
    }

    /// Makes a step, and gives its entry.
    pub(super) fn step(&mut self, event: Event) -> Entry {
        let purse = self.purse_for(event);
        let purse_in = purse.count();
        let (answer, rest) = self.port.step(purse, event);
        let purse_out = rest.count();
        self.book.give(rest);
        Entry {
            purse_in,
            event,
            answer,
            purse_out,
        }
    }

    /// Plays the parts, and gives the first one that the port answers otherwise, with the place of the line in its
    /// table.
    pub(super) fn first_wrong(&mut self, parts: &[Part]) -> Wrong {
        for (place, part) in parts.iter().enumerate() {
            let wrong = [
                self.wrong_beginning(*part),
                self.wrong_ranging(*part),
                self.wrong_numbers(*part),
                self.wrong_two(*part),
                self.wrong_commands(*part),
                self.wrong_alloc_ids(*part),
                self.wrong_all(*part),
            ];
            if wrong != [None; 7] {
                return Some((place, wrong));
            }
        }
        None
    }

    fn wrong_beginning(&mut self, part: Part) -> Option<usize> {
        self.first_wrong_of(&BEGINNINGS, part)
    }

    fn wrong_ranging(&mut self, part: Part) -> Option<usize> {
        self.first_wrong_of(&RANGING, part)
    }

    fn wrong_numbers(&mut self, part: Part) -> Option<usize> {
        self.first_wrong_of(&NUMBERS, part)
    }

    fn wrong_two(&mut self, part: Part) -> Option<usize> {
        self.first_wrong_of(&TWO_UNITS, part)
    }

    fn wrong_commands(&mut self, part: Part) -> Option<usize> {
        self.first_wrong_of(&COMMANDS, part)
    }

    fn wrong_alloc_ids(&mut self, part: Part) -> Option<usize> {
        self.first_wrong_of(&EIGHT_ALLOC_IDS, part)
    }

    fn wrong_all(&mut self, part: Part) -> Option<usize> {
        self.first_wrong_of(&ALL_AT_ONCE, part)
    }

    /// Plays those of the lines that are of this part, and gives the place of the first one that the port answers
    /// otherwise.
    fn first_wrong_of(&mut self, lines: &[(Part, Line)], part: Part) -> Option<usize> {
        for (place, (of, line)) in lines.iter().enumerate() {
            if *of == part && !self.answers(line) {
                return Some(place);
            }
        }
        None
    }

    fn answers(&mut self, line: &Line) -> bool {
        match *line {
            Line::Asked(times, command, reply) => self.carries_out(times, command, reply),
            Line::Heard(at, message, reply, alarm) => self.hears(at, message, reply, alarm),
            Line::Garbled => {
                let answer = self.step(GARBLED).answer;
                answer.reply == Reply::Refused(Refusal::Garbled) && answer.alarm.is_none()
            }
            Line::Frames(count, grant, alarm) => self.ticks(count, grant, alarm),
            Line::Sends(count, message) => self.sends(count, message),
            Line::Owes(copies) => self.port.owed() == copies,
        }
    }

    fn carries_out(&mut self, times: u8, command: Command, reply: Reply) -> bool {
        for _ in 0..times {
            let answer = self.step(Event::Command(command)).answer;
            if answer.reply != reply || answer.alarm.is_some() {
                return false;
            }
        }
        true
    }

    fn hears(&mut self, at: u32, message: Up, reply: Reply, alarm: Option<AlarmKind>) -> bool {
        if !is_proper_up(&message) {
            return false;
        }
        let bytes = encode_up(&message, Mask::Plain);
        let answer = self.step(Event::Burst { at, bytes }).answer;
        answer.reply == reply && kind_of(answer.alarm) == alarm
    }

    fn ticks(&mut self, count: u8, grant: Option<Grant>, alarm: Option<AlarmKind>) -> bool {
        for frame in 1..=count {
            let answer = self.step(Event::Frame).answer;
            let told = (answer.grant, kind_of(answer.alarm));
            let expected = if frame == count {
                (grant, alarm)
            } else {
                (None, None)
            };
            if told != expected {
                return false;
            }
        }
        true
    }

    fn sends(&mut self, count: u8, message: Down) -> bool {
        for _ in 0..count {
            let answer = self.step(Event::Frame).answer;
            if answer.sent != Some(message) || answer.grant.is_some() || answer.alarm.is_some() {
                return false;
            }
        }
        true
    }

    /// Ends the port.
    pub(super) fn close(self) {
        let Played { port, book } = self;
        book.close(port.close());
    }
}

fn kind_of(alarm: Option<Alarm>) -> Option<AlarmKind> {
    alarm.map(|alarm| alarm.kind)
}
