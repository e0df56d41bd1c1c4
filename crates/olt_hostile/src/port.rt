//! The port that is attacked, its units, and how it stands behind each event: rows, owed copies, free licences.
ghost use Rattle.std.specs.Prelude.{◌≡◌};
ghost use Rattle.gp_licence.specs.declared.ledger_parts.TheConstants.{MAX_LICENCES};

use gp_alarms::AlarmKind;
use gp_licence::{LicenceBook, Licences};
use gp_machine::{Admitted, Event, PortConfig, Reply};
use gp_ploam::{Down, Mask, Serial, crc};
use gp_port::{OpenFault, PortCore};
use gp_ranging::Grant;
use std::alloc::{AllocError, Global};
use std::sync::ledger::{Blank, Ledger};
use std::{io, mem};

/// How many licences the attacked port has.
const LICENCES: u32 = 2;

/// A unit that is admitted. The first octet of its serial number is the identifier of Assign_Alloc-ID, so that the
/// same octets 3 to 12 are also those of an Acknowledge of that message.
pub(crate) const A: Serial = Serial(*b"\x0aBCD\0\0\0\x01");

/// Others that are admitted.
pub(crate) const B: Serial = Serial(*b"ABCD\0\0\0\x02");

pub(crate) const C: Serial = Serial(*b"ABCD\0\0\0\x03");

/// A unit that is not admitted.
pub(crate) const STRANGER: Serial = Serial(*b"ZZZZ\0\0\0\x01");

/// How far the units are, in bit times.
pub(crate) const FAR: u32 = 100_000;

/// What came of an event, and how the port stands behind it.
#[derive(Clone, Copy, PartialEq, Eq)]
pub(crate) struct Outcome {
    pub(crate) reply: Reply,
    pub(crate) sent: Option<Down>,
    pub(crate) grant: Option<Grant>,
    pub(crate) alarm: Option<(AlarmKind, Serial)>,
    /// How many units are active.
    pub(crate) rows: usize,
    /// How many copies are owed.
    pub(crate) owed: usize,
    /// How many licences no unit holds.
    pub(crate) free: u32,
}

/// A port, and the licences that its units don't hold.
pub(crate) struct AttackedPort<L: Ledger> {
    port: PortCore<L>,
    book: LicenceBook<L>,
}

impl<L: Ledger> AttackedPort<L> {
    /// Opens a port that admits A, B and C, and has two licences.
    pub(crate) fn begin(alloc: Global, blank: Blank) -> io::Result<AttackedPort<L>>
        requires name { blank.name ≡ L.name }
        requires parts { (blank.parts ≡ L.parts) × (L.parts ≡ MAX_LICENCES) }
    {
        let port = open(alloc, 1)?;
        Ok(AttackedPort {
            port,
            book: LicenceBook::new(blank, LICENCES),
        })
    }

    /// Opens a new port in place of this one, whose searches have so many windows.
    pub(crate) fn renew(&mut self, alloc: Global, cycles: u8) -> io::Result<()> {
        let last = mem::replace(&mut self.port, open(alloc, cycles)?);
        self.book.give(last.close());
        Ok(())
    }

    /// Makes a step. A burst has a licence at hand, if one is free.
    pub(crate) fn step(&mut self, event: Event) -> Outcome {
        let purse = match event {
            Event::Burst { .. } => self.book.take(),
            _ => Licences::none(),
        };
        let (answer, rest) = self.port.step(purse, event);
        self.book.give(rest);
        Outcome {
            reply: answer.reply,
            sent: answer.sent,
            grant: answer.grant,
            alarm: answer.alarm.map(|alarm| (alarm.kind, alarm.serial)),
            rows: self.port.rows(),
            owed: self.port.owed(),
            free: self.book.free(),
        }
    }

    /// Lets so many frames go by, and gives what the last one grants.
    pub(crate) fn frames(&mut self, count: u32) -> Option<Grant> {
        let mut grant = None;
        for _ in 0..count {
            grant = self.step(Event::Frame).grant;
        }
        grant
    }

    /// Tells how many units are active, how many copies are owed, and how many licences are free.
    pub(crate) fn stands(&self) -> (usize, usize, u32) {
        (self.port.rows(), self.port.owed(), self.book.free())
    }

    /// Ends the port.
    pub(crate) fn close(self) {
        let AttackedPort { port, book } = self;
        book.close(port.close());
    }
}

/// What the port is opened with.
fn config_of(alloc: Global, cycles: u8) -> Result<PortConfig, AllocError> {
    Ok(PortConfig {
        mask: Mask::Plain,
        teqd: 311_040,
        overhead: [0; 10],
        max_units: 254,
        alloc_last: 4095,
        cycles,
        search_period: 0,
        quarantine: 800,
        admitted: Admitted::from([A, B, C].to_vec(alloc)?),
    })
}

/// Opens a port.
fn open<L: Ledger>(alloc: Global, cycles: u8) -> io::Result<PortCore<L>> {
    let config = config_of(alloc, cycles)?;
    PortCore::begin(alloc, &config).map_err(|fault| match fault {
        OpenFault::Limit => io::ErrorKind::InvalidInput.into(),
        OpenFault::OutOfMemory => io::ErrorKind::OutOfMemory.into(),
    })
}

/// Makes the code of these octets 1 to 12, whatever they say, with a check octet that is right under the mask.
pub(crate) fn code_of(octet1: u8, id: u8, body: [u8; 10], mask: Mask) -> [u8; 13] {
    let [a, b, c, d, e, f, g, h, i, j] = body;
    let check = crc(&[octet1, id, a, b, c, d, e, f, g, h, i, j], mask);
    [octet1, id, a, b, c, d, e, f, g, h, i, j, check]
}
