//! Bursts of every identifier with every octet 1, in each window of a port, and codes with bits that are turned. What
//! each has to be answered with follows from docs/MACHINE.md.

use crate::port::{A, AttackedPort, B, FAR, Outcome, STRANGER, code_of};
use crate::tally::Tally;
use gp_alarms::AlarmKind;
use gp_machine::{Command, Event, Refusal, Reply};
use gp_ploam::{BROADCAST_ONU, Mask, Serial};
use gp_ranging::Grant;
use std::alloc::Global;
use std::io;
use std::ops::RangeInclusive;
use std::sync::ledger::Ledger;

/// The identifiers of Serial_Number_ONU, Dying_Gasp and Acknowledge (G.984.3, clause 9).
const SERIAL_NUMBER: u8 = 1;

const GASP: u8 = 3;

const ACKNOWLEDGE: u8 = 9;

/// What is open while the port is attacked.
#[derive(Clone, Copy, PartialEq, Eq)]
enum Window {
    /// No window is open, and A operates.
    Closed,
    /// A search window is open, and no unit is active.
    Search,
    /// The ranging window of A, which has ONU-ID 0.
    Range,
    /// The poll window of A, which has ONU-ID 0 and has still to acknowledge the Alloc-ID 256.
    Poll,
}

/// Whose serial number the bursts have as octets 3 to 10.
#[derive(Clone, Copy)]
enum Speaker {
    /// The unit that is asked.
    A,
    /// Another one that is admitted.
    B,
    /// One that is not admitted.
    Stranger,
    /// A, with check octets under the other mask.
    Masked,
}

impl Window {
    fn name(self) -> &'static str {
        match self {
            Window::Closed => "no window",
            Window::Search => "search window",
            Window::Range => "ranging window",
            Window::Poll => "poll window",
        }
    }
}

impl Speaker {
    fn name(self) -> &'static str {
        match self {
            Speaker::A => "the unit's serial number",
            Speaker::B => "another's serial number",
            Speaker::Stranger => "a stranger's serial number",
            Speaker::Masked => "the other mask",
        }
    }

    fn serial(self) -> Serial {
        match self {
            Speaker::A | Speaker::Masked => A,
            Speaker::B => B,
            Speaker::Stranger => STRANGER,
        }
    }

    fn mask(self) -> Mask {
        match self {
            Speaker::Masked => Mask::Coset,
            _ => Mask::Plain,
        }
    }
}

/// How many bursts were answered in which way.
#[derive(Clone, Copy, Default, Drop)]
struct Answers {
    stray: u32,
    garbled: u32,
    wrong_window: u32,
    not_admitted: u32,
    /// In any other way.
    heard: u32,
}

impl Answers {
    fn count(&mut self, reply: &Reply) {
        match *reply {
            Reply::Refused(Refusal::Stray) => self.stray = self.stray.saturating_add(1),
            Reply::Refused(Refusal::Garbled) => self.garbled = self.garbled.saturating_add(1),
            Reply::Refused(Refusal::WrongWindow) => {
                self.wrong_window = self.wrong_window.saturating_add(1);
            }
            Reply::Refused(Refusal::NotAdmitted) => {
                self.not_admitted = self.not_admitted.saturating_add(1);
            }
            _ => self.heard = self.heard.saturating_add(1),
        }
    }
}

/// What came of one attack.
#[derive(Clone, Copy, Default, Drop)]
struct AttackTally {
    tally: Tally,
    answers: Answers,
}

/// Brings a new port to where the window is open. Whether it is.
fn open_window<L: Ledger>(
    alloc: Global,
    port: &mut AttackedPort<L>,
    window: Window,
) -> io::Result<bool> {
    port.renew(alloc, 1)?;
    port.step(Event::Command(Command::Search));
    let grant = port.frames(5);
    Ok(match window {
        Window::Search => grant == Some(Grant::Search),
        Window::Range => range_a(port),
        Window::Closed => range_a(port) && operate_a(port),
        Window::Poll => range_a(port) && operate_a(port) && poll_a(port),
    })
}

/// Has A found in its search window, until it is asked in a ranging window.
fn range_a<L: Ledger>(port: &mut AttackedPort<L>) -> bool {
    hear(port, BROADCAST_ONU, SERIAL_NUMBER, Speaker::A);
    port.frames(4) == Some(Grant::Range(0))
}

/// Has A ranged, until no copy is owed and no window is open.
fn operate_a<L: Ledger>(port: &mut AttackedPort<L>) -> bool {
    hear(port, 0, SERIAL_NUMBER, Speaker::A);
    port.frames(4).is_none()
}

/// Gives A an Alloc-ID, and opens its poll window.
fn poll_a<L: Ledger>(port: &mut AttackedPort<L>) -> bool {
    port.step(Event::Command(Command::Alloc(A)));
    port.frames(4) == Some(Grant::Poll(0))
}

/// Has the port hear a burst with these two octets.
fn hear<L: Ledger>(port: &mut AttackedPort<L>, octet1: u8, id: u8, speaker: Speaker) -> Outcome {
    let [a, b, c, d, e, f, g, h] = speaker.serial().0;
    let body = [a, b, c, d, e, f, g, h, 0, 0];
    let bytes = code_of(octet1, id, body, speaker.mask());
    port.step(Event::Burst { at: FAR, bytes })
}

/// Says what a burst is to be answered with (docs/MACHINE.md).
fn reply_to(window: Window, speaker: Speaker, octet1: u8, id: u8) -> Reply {
    match (window, speaker) {
        (Window::Closed, _) => Reply::Refused(Refusal::Stray),
        (_, Speaker::Masked) => Reply::Refused(Refusal::Garbled),
        (Window::Search, _) => in_search(speaker, octet1, id),
        (Window::Range, _) => in_range(speaker, octet1, id),
        (Window::Poll, _) => in_poll(speaker, octet1, id),
    }
}

fn in_search(speaker: Speaker, octet1: u8, id: u8) -> Reply {
    if octet1 != BROADCAST_ONU || id != SERIAL_NUMBER {
        return Reply::Refused(Refusal::WrongWindow);
    }
    match speaker {
        Speaker::Stranger => Reply::Refused(Refusal::NotAdmitted),
        _ => Reply::Found(0),
    }
}

fn in_range(speaker: Speaker, octet1: u8, id: u8) -> Reply {
    let eqd = 211_040;
    match (octet1, id, speaker) {
        (0, SERIAL_NUMBER, Speaker::A) => Reply::Ranged { onu: 0, eqd },
        (0, SERIAL_NUMBER, _) => Reply::Refused(Refusal::WrongWindow),
        (0, GASP, _) => Reply::Gasp(0),
        (0, _, _) => Reply::StillRanging(0),
        _ => Reply::Refused(Refusal::WrongWindow),
    }
}

fn in_poll(speaker: Speaker, octet1: u8, id: u8) -> Reply {
    match (octet1, id, speaker) {
        (0, ACKNOWLEDGE, Speaker::A) => Reply::Acked(256),
        (0, GASP, _) => Reply::Gasp(0),
        (0, _, _) => Reply::Alive(0),
        _ => Reply::Refused(Refusal::WrongWindow),
    }
}

/// Says what is to come of a burst with this reply: nothing is sent or granted; only a unit that is found gets a row,
/// of the two licences, and only it and one that is ranged have a message owed to them.
fn outcome_of(window: Window, reply: Reply) -> Outcome {
    let found = matches!(&reply, Reply::Found(_));
    let told = found || matches!(&reply, Reply::Ranged { .. });
    let gasped = matches!(&reply, Reply::Gasp(_));
    let active = found || window != Window::Search;
    Outcome {
        reply,
        sent: None,
        grant: None,
        alarm: if gasped {
            Some((AlarmKind::Dg, A))
        } else {
            None
        },
        rows: if active { 1 } else { 0 },
        owed: if told { 3 } else { 0 },
        free: if active { 1 } else { 2 },
    }
}

/// Tells whether the next burst needs a new port: this one changed more than what a window has seen.
fn is_spent(window: Window, reply: &Reply) -> bool {
    match *reply {
        Reply::Refused(_) => false,
        Reply::StillRanging(_) => false,
        Reply::Gasp(_) => window == Window::Poll,
        _ => true,
    }
}

impl AttackTally {
    /// Has the port hear every identifier with this octet 1.
    fn hear_identifiers<L: Ledger>(
        &mut self,
        alloc: Global,
        port: &mut AttackedPort<L>,
        asked: (Window, Speaker),
        octet1: u8,
    ) -> io::Result<()> {
        let (window, speaker) = asked;
        for id in 0..=u8::MAX {
            let outcome = hear(port, octet1, id, speaker);
            let wanted = outcome_of(window, reply_to(window, speaker, octet1, id));
            let number = usize::from(octet1) * 256 + usize::from(id);
            self.tally
                .count("octet 1 and identifier", number, outcome == wanted);
            self.answers.count(&outcome.reply);
            if is_spent(window, &outcome.reply) && !open_window(alloc, port, window)? {
                self.tally.count("the window does not open", number, false);
            }
        }
        Ok(())
    }

    /// Prints what came of it, and tells whether each case came out as it should.
    fn tell<R: AllocGlobal + Print>(
        &self,
        rt: &R,
        window: Window,
        speaker: Speaker,
    ) -> io::Result<bool> {
        let Answers {
            stray,
            garbled,
            wrong_window,
            not_admitted,
            heard,
        } = self.answers;
        let window = window.name();
        let speaker = speaker.name();
        let table = format!(in rt.alloc();
            "{window}, {speaker}, {stray} stray, {garbled} garbled, {wrong_window} in the wrong window, {not_admitted} not admitted, {heard} heard"
        )?;
        self.tally.tell(rt, table.as_str())
    }
}

/// Has a port hear every identifier with each of these octets 1.
fn attack<L: Ledger, R: AllocGlobal + Print>(
    rt: &R,
    port: &mut AttackedPort<L>,
    window: Window,
    speaker: Speaker,
    octets1: RangeInclusive<u8>,
) -> io::Result<bool> {
    let mut heard = AttackTally::default();
    if !open_window(rt.alloc(), port, window)? {
        heard.tally.count("the window does not open", 0, false);
    }
    for octet1 in octets1 {
        heard.hear_identifiers(rt.alloc(), port, (window, speaker), octet1)?;
    }
    heard.tell(rt, window, speaker)
}

/// A code of A's serial number with one bit turned, for each of its 104 bits, and with each other check octet. Each
/// is garbled, and the right code is still heard behind them.
fn attack_check_octet<L: Ledger, R: AllocGlobal + Print>(
    rt: &R,
    port: &mut AttackedPort<L>,
) -> io::Result<bool> {
    let mut tally = Tally::default();
    let right = open_window(rt.alloc(), port, Window::Search)?;
    tally.count("the window does not open", 0, right);
    let code = code_of(
        BROADCAST_ONU,
        SERIAL_NUMBER,
        *b"\x0aBCD\0\0\0\x01\0\0",
        Mask::Plain,
    );
    let garbled = outcome_of(Window::Search, Reply::Refused(Refusal::Garbled));
    for place in 0..13usize {
        for turned in 1..=u8::MAX {
            let mut bytes = code;
            bytes[place] ^= turned;
            if place == 12 || turned.count_ones() == 1 {
                let outcome = port.step(Event::Burst { at: FAR, bytes });
                tally.count("a code with another octet", place, outcome == garbled);
            }
        }
    }
    let outcome = port.step(Event::Burst {
        at: FAR,
        bytes: code,
    });
    let found = outcome_of(Window::Search, Reply::Found(0));
    tally.count("the right code", 0, outcome == found);
    tally.tell(rt, "wrong check octets")
}

/// Attacks a port in each window with every octet 1. How many bursts get which answer follows from docs/MACHINE.md:
///
/// - With no window open each of the 65,536 is Stray. Under the other mask each is Garbled in any window.
/// - In a search window the one with identifier 1 and octet 1 = 255 is an answer: the unit is found, or is not
///   admitted. The 65,535 others are in the wrong window.
/// - In the ranging window of ONU-ID 0 the 65,280 with another octet 1 are in the wrong window. Of the other 256,
///   identifier 1 is the unit's answer, or in the wrong window where it tells another's serial number; 3 is a gasp;
///   for the 254 others the unit is still ranging. So 256 are heard from the unit, and 255 from another, with 65,281
///   in the wrong window.
/// - In the poll window of ONU-ID 0 the 65,280 with another octet 1 are in the wrong window. The other 256 are heard:
///   3 is a gasp, 9 an acknowledgement where octet 3 is 10, as in the unit's serial number, and every other one shows
///   that the unit lives.
fn attack_each_window<L: Ledger, R: AllocGlobal + Print>(
    rt: &R,
    port: &mut AttackedPort<L>,
) -> io::Result<bool> {
    let mut right = attack(rt, port, Window::Closed, Speaker::A, 0..=u8::MAX)?;
    right &= attack(rt, port, Window::Search, Speaker::Stranger, 0..=u8::MAX)?;
    right &= attack(rt, port, Window::Range, Speaker::B, 0..=u8::MAX)?;
    right &= attack(rt, port, Window::Poll, Speaker::A, 0..=u8::MAX)?;
    Ok(right)
}

/// Attacks it with each serial number and the octets 1 that may be heard, 0 in the windows of ONU-ID 0 and 255 in a
/// search window, and the one next to each. Of these 512 bursts as many are heard as above.
pub(crate) fn check<L: Ledger, R: AllocGlobal + Print>(
    rt: &R,
    port: &mut AttackedPort<L>,
) -> io::Result<bool> {
    let mut right = attack_each_window(rt, port)?;
    for window in [Window::Closed, Window::Search, Window::Range, Window::Poll] {
        for speaker in [Speaker::A, Speaker::B, Speaker::Stranger, Speaker::Masked] {
            let octets1 = if window == Window::Search {
                254..=255
            } else {
                0..=1
            };
            right &= attack(rt, port, window, speaker, octets1)?;
        }
    }
    right &= attack_check_octet(rt, port)?;
    Ok(right)
}
