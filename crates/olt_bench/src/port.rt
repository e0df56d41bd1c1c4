//! Measures a port alone, without units and with 64 and 254: frames at rest, a whole search and ranging, polls that go
//! unanswered, polls that are answered.
ghost use Rattle.std.specs.Prelude.{◌≡◌};
ghost use Rattle.gp_licence.specs.declared.ledger_parts.TheConstants.{MAX_LICENCES};

use super::config::{config_of, error_of};
use super::measured::{Measured, number_of};
use super::units::{Unit, units_of};
use gp_licence::{LicenceBook, Licences};
use gp_machine::{Command, Event};
use gp_port::PortCore;
use gp_ranging::Grant;
use std::alloc::Global;
use std::rt::Clock;
use std::sync::ledger::{Blank, Ledger};
use std::time::Instant;
use std::{io, mem};

/// How many units are heard in one search window: three copies are owed to each, and at most 189 in all.
const HEARD_IN_A_WINDOW: usize = 63;

/// More frames than the search and the ranging of 254 units take.
pub(crate) const FRAMES: u32 = 2000;

/// The frames of three polls of a unit that answers none, four for each. With a fourth such poll it would be removed.
const DARK_FRAMES: u32 = 12;

/// What one round does.
#[derive(Clone, Copy, PartialEq, Eq)]
enum Part {
    /// A thousand frames of a port that asks nobody.
    IdleFrames,
    /// A whole search and ranging, of a port newly opened.
    Acquisition,
    /// Twelve frames for each unit, in which polls go unanswered.
    DarkFrames,
    /// A thousand polls, each answered by No_message.
    Polls,
}

/// A port, and the licences that its units don't hold.
struct LicensedPort<L: Ledger> {
    port: PortCore<L>,
    book: LicenceBook<L>,
    /// What the last step granted.
    granted: Option<Grant>,
    measured: Measured,
}

impl<L: Ledger> LicensedPort<L> {
    /// Makes a step.
    fn step(&mut self, purse: Licences<L>, event: Event) {
        let (answer, rest) = self.port.step(purse, event);
        self.book.give(rest);
        self.granted = answer.grant;
        self.measured.count(number_of(&answer));
    }

    fn frames(&mut self, count: u32) {
        for _ in 0..count {
            self.step(Licences::none(), Event::Frame);
        }
    }

    /// Makes one round.
    fn play(&mut self, part: Part, units: &[Unit]) {
        match part {
            Part::IdleFrames => self.frames(1000),
            Part::Acquisition => self.acquire(units),
            Part::DarkFrames => {
                for _ in units {
                    self.frames(DARK_FRAMES);
                }
            }
            Part::Polls => self.answer_polls(1000, units),
        }
    }

    /// Searches for units and ranges them, until the first of them is polled.
    fn acquire(&mut self, units: &[Unit]) {
        self.step(Licences::none(), Event::Command(Command::Search));
        let mut silent = units;
        for _ in 0..FRAMES {
            self.frames(1);
            match self.granted {
                Some(Grant::Search) => silent = self.find(silent),
                Some(Grant::Range(_)) => self.answer(units),
                Some(Grant::Poll(_)) => return,
                None => {}
            }
        }
    }

    /// Hears the serial numbers of the first of these units, each with a licence at hand, and gives the other units.
    fn find<'a>(&mut self, units: &'a [Unit]) -> &'a [Unit] {
        let (heard, silent) = units.split_at(units.len().min(HEARD_IN_A_WINDOW));
        for unit in heard {
            let purse = self.book.take();
            let bytes = unit.searched;
            self.step(purse, Event::Burst { at: 100_000, bytes });
        }
        silent
    }

    /// Hears what the one unit answers that the last step asked.
    fn answer(&mut self, units: &[Unit]) {
        let (onu, polled) = match self.granted {
            Some(Grant::Range(onu)) => (onu, false),
            Some(Grant::Poll(onu)) => (onu, true),
            _ => return,
        };
        if let Some(unit) = units.get(usize::from(onu)) {
            let bytes = if polled { unit.polled } else { unit.ranged };
            self.step(Licences::none(), Event::Burst { at: 100_000, bytes });
        }
    }

    /// Hears so many polls answered, each before the frame that opens the next window.
    fn answer_polls(&mut self, count: usize, units: &[Unit]) {
        for _ in 0..count {
            self.answer(units);
            self.frames(1);
        }
    }
}

/// Opens a port that admits these units.
fn open<L: Ledger>(alloc: Global, units: &[Unit]) -> io::Result<PortCore<L>> {
    let mut serials = Vec::new(alloc);
    for unit in units {
        serials.push(unit.serial)?;
    }
    PortCore::begin(alloc, &config_of(serials)).map_err(error_of)
}

/// Measures a port without units, and one with 64 and with 254.
pub(crate) fn measure<L: Ledger, R: AllocGlobal + Print + Eprint + Clock>(
    rt: &R,
    blank: Blank,
    rounds: u32,
) -> io::Result<()>
    requires name { blank.name ≡ L.name }
    requires parts { (blank.parts ≡ L.parts) × (L.parts ≡ MAX_LICENCES) }
{
    let mut port = LicensedPort::<L> {
        port: open(rt.alloc(), &[])?,
        book: LicenceBook::new(blank, 254),
        granted: None,
        measured: Measured::default(),
    };
    let result = measure_each(rt, &mut port, rounds);
    let LicensedPort {
        port,
        book,
        granted: _,
        measured: _,
    } = port;
    book.close(port.close());
    result
}

fn measure_each<L: Ledger, R: AllocGlobal + Print + Eprint + Clock>(
    rt: &R,
    port: &mut LicensedPort<L>,
    rounds: u32,
) -> io::Result<()> {
    measure_part(rt, port, "idle frames", Part::IdleFrames, &[], rounds)?;
    for count in [64, 254] {
        let units = units_of(rt.alloc(), count)?;
        measure_part(rt, port, "acquisition", Part::Acquisition, &units, rounds)?;
        measure_part(rt, port, "dark frames", Part::DarkFrames, &units, rounds)?;
        measure_part(rt, port, "answered polls", Part::Polls, &units, rounds)?;
    }
    Ok(())
}

/// Measures so many rounds. After one of `DarkFrames` each unit answers a poll, which is not in the time.
fn measure_part<L: Ledger, R: AllocGlobal + Print + Eprint + Clock>(
    rt: &R,
    port: &mut LicensedPort<L>,
    name: &str,
    part: Part,
    units: &[Unit],
    rounds: u32,
) -> io::Result<()> {
    port.measured = Measured::default();
    for _ in 0..rounds {
        if part == Part::Acquisition {
            let last = mem::replace(&mut port.port, open(rt.alloc(), units)?);
            port.book.give(last.close());
        }
        let begin = Instant::now(rt)?;
        port.play(part, units);
        port.measured.add_time(rt, begin)?;
        if part == Part::DarkFrames {
            let measured = port.measured;
            port.answer_polls(units.len(), units);
            port.measured = measured;
        }
    }
    port.measured.tell(rt, name, port.port.rows())
}
