//! The engine in a program of its own: one port finds one unit and ranges it. `README.md` shows this file.
#![tactic(auto)]

ghost use Rattle.std.specs.Prelude.{◌≡◌};

use gp_licence::{LicenceBook, Licences, MAX_LICENCES};
use gp_machine::{Admitted, Answer, Command, Event, PortConfig};
use gp_ploam::{Mask, Serial, Up, encode_up};
use gp_port::{OpenFault, PortCore};
use std::alloc::{AllocError, Global};
use std::io;
use std::marker::Brand;
use std::sync::ledger::{Blank, Ledger};

/// The unit's serial number, ABCD00000001.
const UNIT: Serial = Serial(*b"ABCD\0\0\0\x01");

/// A port, and the licences that its units take.
struct Terminal<L: Ledger> {
    port: PortCore<L>,
    book: LicenceBook<L>,
}

impl<L: Ledger> Terminal<L> {
    /// Opens a port with one licence. All memory that it ever needs is taken here.
    fn begin(alloc: Global, blank: Blank, config: &PortConfig) -> Result<Terminal<L>, OpenFault>
        requires name { blank.name ≡ L.name }
        requires parts { (blank.parts ≡ L.parts) × (L.parts ≡ MAX_LICENCES) }
    {
        let port = PortCore::begin(alloc, config)?;
        let book = LicenceBook::new(blank, 1);
        Ok(Terminal { port, book })
    }

    /// Hands an event to the port. A burst comes with a licence, if one is free; what isn't used comes back.
    fn step(&mut self, event: Event) -> Answer {
        let purse = match event {
            Event::Burst { .. } => self.book.take(),
            _ => Licences::none(),
        };
        let (answer, rest) = self.port.step(purse, event);
        self.book.give(rest);
        answer
    }

    /// Lets so many frames go by, and gives the answer to the last.
    fn frames(&mut self, count: u32) -> Answer {
        for _ in 1..count {
            self.step(Event::Frame);
        }
        self.step(Event::Frame)
    }

    /// Ends the port. Without it the program is refused: a licence would be lost.
    fn close(self) -> u32 {
        let Terminal { port, book } = self;
        book.close(port.close())
    }
}

/// The unit says its serial number, from 100,000 bit times of round trip away.
fn serial_number(onu: u8) -> Event {
    let message = Up::SerialNumber {
        onu,
        serial: UNIT,
        random: 0,
        flags: 0,
    };
    let bytes = encode_up(&message, Mask::Plain);
    Event::Burst { at: 100_000, bytes }
}

/// A port that admits the unit, and searches once.
fn config(alloc: Global) -> Result<PortConfig, AllocError> {
    Ok(PortConfig {
        mask: Mask::Plain,
        teqd: 311_040,
        overhead: [0; 10],
        max_units: 254,
        alloc_last: 4095,
        cycles: 1,
        search_period: 0,
        quarantine: 800,
        admitted: Admitted::from([UNIT].to_vec(alloc)?),
    })
}

/// Finds the unit and ranges it, and gives what the port answered.
fn activate<L: Ledger>(alloc: Global, blank: Blank) -> Result<[Answer; 5], OpenFault>
    requires name { blank.name ≡ L.name }
    requires parts { (blank.parts ≡ L.parts) × (L.parts ≡ MAX_LICENCES) }
{
    let config = config(alloc)?;
    let mut terminal: Terminal<L> = Terminal::begin(alloc, blank, &config)?;
    let answers = [
        terminal.step(Event::Command(Command::Search)),
        terminal.frames(5),
        terminal.step(serial_number(255)),
        terminal.frames(4),
        terminal.step(serial_number(0)),
    ];
    terminal.close();
    Ok(answers)
}

fn main(rt: HostRuntime) -> io::Result<()> {
    let blank = Blank::new(u64::from(MAX_LICENCES));
    match activate::<Brand>(rt.alloc(), blank) {
        Ok(answers) => {
            for answer in &answers {
                let Answer { reply, grant, .. } = answer;
                println!(rt; "{reply:?}, {grant:?}")?;
            }
            Ok(())
        }
        Err(fault) => println!(rt; "{fault}"),
    }
}
