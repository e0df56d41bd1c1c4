//! Events as plain numbers, both ways: what C asks for, and what an entry tells.
ghost use Rattle.std.specs.Prelude.{◌≡◌};
ghost use Rattle.gp_c.specs.Events as spec;

use crate::command::command_of;
use gp_machine::{Command, Event};
use gp_ploam::Serial;

/// An event. A number that its kind has no use for isn't looked at, and is 0 where the library writes it.
#[repr(C)]
#[derive(Clone, Copy, Debug)]
pub struct EventNumbers {
    /// Of a burst: the whole round-trip delay in bit times.
    pub at: u32,
    /// Of a command: an Alloc-ID.
    pub alloc: u16,
    /// The kind: 0 a frame, 1 a burst, 2 a command.
    pub kind: u8,
    /// The kind of the command, 0 to 9.
    pub command: u8,
    /// Of a command: a serial number.
    pub serial: [u8; 8],
    /// Of a burst: its thirteen octets.
    pub octets: [u8; 13],
}

/// Makes a frame, of which all numbers are 0.
pub(crate) fn frame_numbers() -> EventNumbers
    ensures { result ≡ spec.frame_numbers }
{
    EventNumbers {
        at: 0,
        alloc: 0,
        kind: 0,
        command: 0,
        serial: [0; 8],
        octets: [0; 13],
    }
}

/// Makes a command of this kind.
fn numbered(command: u8, serial: Serial, alloc: u16) -> EventNumbers
    ensures { result ≡ spec.numbered command serial alloc }
{
    let Serial(serial) = serial;
    EventNumbers {
        at: 0,
        alloc,
        kind: 2,
        command,
        serial,
        octets: [0; 13],
    }
}

/// Tells a command by its numbers.
fn command_numbers(command: Command) -> EventNumbers
    ensures { result ≡ spec.command_numbers command }
{
    let none = Serial([0; 8]);
    match command {
        Command::Search => numbered(0, none, 0),
        Command::Alloc(serial) => numbered(1, serial, 0),
        Command::Dealloc { serial, alloc } => numbered(2, serial, alloc),
        Command::Deactivate(serial) => numbered(3, serial, 0),
        Command::Disable(serial) => numbered(4, serial, 0),
        Command::Enable(serial) => numbered(5, serial, 0),
        Command::EnableAll => numbered(6, none, 0),
        Command::Popup(serial) => numbered(7, serial, 0),
        Command::PopupAll => numbered(8, none, 0),
        Command::Show(serial) => numbered(9, serial, 0),
    }
}

/// Tells an event by its numbers.
pub(crate) fn event_numbers(event: &Event) -> EventNumbers
    ensures { result ≡ spec.event_numbers event.now }
{
    match *event {
        Event::Frame => frame_numbers(),
        Event::Burst { at, bytes } => EventNumbers {
            at,
            alloc: 0,
            kind: 1,
            command: 0,
            serial: [0; 8],
            octets: bytes,
        },
        Event::Command(command) => command_numbers(command),
    }
}

/// Makes the event of these numbers, if there is one.
pub(crate) fn event_of(numbers: &EventNumbers) -> Option<Event>
    ensures { result ≡ spec.event_of numbers.now }
{
    match numbers.kind {
        0 => Some(Event::Frame),
        1 => Some(Event::Burst {
            at: numbers.at,
            bytes: numbers.octets,
        }),
        2 => commanded(numbers),
        _ => None,
    }
}

/// Makes the command of these numbers, if there is one.
fn commanded(numbers: &EventNumbers) -> Option<Event>
    ensures { result ≡ spec.commanded numbers.now }
{
    let command = command_of(numbers.command, Serial(numbers.serial), numbers.alloc)?;
    Some(Event::Command(command))
}
