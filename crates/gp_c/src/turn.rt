//! A turn that a line of text asks for, as numbers.
ghost use Rattle.std.specs.Prelude.{◌≡◌};
ghost use Rattle.gp_c.specs.Turns as spec;

use crate::answer::grant_numbers;
use crate::event::{EventNumbers, event_numbers, frame_numbers};
use crate::fault::Fault;
use crate::row::flag;
use gp_lines::{Asked, LineFault, parse_turn};
use gp_ploam::Mask;

/// What a line asks for. A number that its kind has no use for is 0.
#[repr(C)]
#[derive(Clone, Copy, Debug)]
pub struct TurnNumbers {
    /// The event, of kind 1.
    pub event: EventNumbers,
    /// How many frames, of kind 2; at most how many, of kind 3.
    pub count: u32,
    /// A simulated unit, of kinds 4 and 5.
    pub unit: u16,
    /// The kind: 0 nothing, 1 an event at the port, 2 so many frames, 3 frames up to a grant, 4 the light of a
    /// simulated unit, 5 what a simulated unit is.
    pub kind: u8,
    /// The port, 0 to 15.
    pub port: u8,
    /// 1 where the light comes, of kind 4.
    pub is_lit: u8,
    /// The kind of the grant, of kind 3.
    pub grant: u8,
    /// The ONU-ID that it asks.
    pub grant_onu: u8,
}

/// Makes nothing, of which all numbers are 0.
fn nothing() -> TurnNumbers
    ensures { result ≡ spec.nothing }
{
    TurnNumbers {
        event: frame_numbers(),
        count: 0,
        unit: 0,
        kind: 0,
        port: 0,
        is_lit: 0,
        grant: 0,
        grant_onu: 0,
    }
}

/// Tells a turn by its numbers.
fn turn_numbers(asked: &Asked) -> TurnNumbers
    ensures { result ≡ spec.turn_numbers asked.now }
{
    match *asked {
        Asked::Nothing => nothing(),
        Asked::Event { port, event } => TurnNumbers {
            kind: 1,
            port,
            event: event_numbers(&event),
            ..nothing()
        },
        Asked::Frames { port, count } => TurnNumbers {
            kind: 2,
            port,
            count,
            ..nothing()
        },
        Asked::Until { port, grant, most } => {
            let (grant, grant_onu) = grant_numbers(&Some(grant));
            TurnNumbers {
                kind: 3,
                port,
                count: most,
                grant,
                grant_onu,
                ..nothing()
            }
        }
        Asked::Light { unit, lit } => TurnNumbers {
            kind: 4,
            unit,
            is_lit: flag(lit),
            ..nothing()
        },
        Asked::ShowUnit { unit } => TurnNumbers {
            kind: 5,
            unit,
            ..nothing()
        },
    }
}

/// The same fault, told by this library.
fn line_fault(fault: LineFault) -> Fault
    ensures { result ≡ spec.line_fault fault }
{
    match fault {
        LineFault::Word => Fault::LineWord,
        LineFault::Number => Fault::LineNumber,
        LineFault::Serial => Fault::LineSerial,
        LineFault::Hex => Fault::LineHex,
        LineFault::Range => Fault::LineRange,
        LineFault::Long => Fault::LineLong,
        LineFault::Space => Fault::LineSpace,
    }
}

/// Reads the turn that a line asks for. What a unit says is the burst of its message under no mask.
pub(crate) fn turn_of(line: &[u8]) -> Result<TurnNumbers, Fault>
    ensures { result ≡ spec.turn_of line.now }
{
    match parse_turn(Mask::Plain, line) {
        Ok(asked) => Ok(turn_numbers(&asked)),
        Err(fault) => Err(line_fault(fault)),
    }
}
