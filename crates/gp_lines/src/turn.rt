//! `parse_turn`: what a line asks for, or its first fault. Whether a port or a unit is there is not known here.
ghost use Rattle.std.specs.Prelude.{◌≡◌, ◌↔◌, Ok, Err, IfSome, if◌then◌else◌};
ghost use Rattle.gp_ploam.specs.declared.check.Mask.{Mask as AnyMask};
ghost use Rattle.gp_lines.specs.declared.fault.LineFault.{LineFault as AnyFault};
ghost use Rattle.gp_lines.specs.declared.fault.LineFault.TheVariants as faults;
ghost use Rattle.gp_lines.specs.declared.turn.Asked.{Asked as AnyAsked};
ghost use Rattle.gp_lines.specs.Parts.{parts_of, has_space_too_many};
ghost use Rattle.gp_lines.specs.Turn.{SpellsTurn, without_return, is_remark};
ghost use Rattle.gp_lines.specs.TurnFault.{HasTurnFault};
ghost use Rattle.gp_lines.specs.TurnReading as spec;

use crate::event::event_in;
use crate::fault::LineFault;
use crate::fields::number_in;
use crate::grant::{one_number, until_turn};
use crate::laws::turns_are_read;
use crate::leading::{leading_burst, leading_number};
use crate::parts::{cut, has_space_too_many, is_word, two_parts};
use crate::say::say_event;
use crate::word::UnitWord;
use gp_flow::MAX_LINE_BYTES;
use gp_machine::{Event, MAX_PORTS};
use gp_ploam::Mask;
use gp_ranging::Grant;

/// The greatest port.
pub const LAST_PORT: u8 = MAX_PORTS - 1;

/// How many ports a trace may tell of: 0 to [`LAST_PORT`].
pub const PORTS: usize = MAX_PORTS as usize;

/// The most frames that one line asks for.
pub const MOST_FRAMES: u32 = 1_000_000;

/// The last place that a simulated unit may have in a script.
pub const LAST_UNIT: u16 = 1023;

/// The most octets that a line has before its line feed.
pub const LONGEST_LINE: usize = MAX_LINE_BYTES;

/// What a line asks for.
#[derive(Clone, Copy, Debug, PartialEq, Eq)]
pub enum Asked {
    /// Nothing: the line is empty, or a remark.
    Nothing,
    /// That this happens at the port, once. The port is 0 to `LAST_PORT`.
    Event { port: u8, event: Event },
    /// So many frames at the port, 1 to `MOST_FRAMES`.
    Frames { port: u8, count: u32 },
    /// Frames at the port, up to the one that makes this grant, at most 1 to `MOST_FRAMES`.
    Until { port: u8, grant: Grant, most: u32 },
    /// The light of a simulated unit comes or goes. The unit is told by its place in the script, 0 to `LAST_UNIT`.
    Light { unit: u16, lit: bool },
    /// What the simulated unit at this place is, 0 to `LAST_UNIT`: nothing happens.
    ShowUnit { unit: u16 },
}

/// Reads so many frames.
#[tactic(auto, unfolding(crate::specs::TurnReading::frames_turn))]
fn frames_turn(port: u8, text: &[u8]) -> Result<Asked, LineFault>
    ensures { result ≡ spec.frames_turn port (parts_of text.now) }
{
    let count = one_number(1, u64::from(MOST_FRAMES), text)? as u32;
    Ok(Asked::Frames { port, count })
}

/// Reads an event, which is to happen once.
#[tactic(auto, unfolding(crate::specs::TurnReading::event_turn))]
fn event_turn(port: u8, text: &[u8]) -> Result<Asked, LineFault>
    ensures { result ≡ spec.event_turn port (parts_of text.now) }
{
    let event = event_in(text)?;
    Ok(Asked::Event { port, event })
}

/// Reads what a unit says, which is to arrive once.
#[tactic(auto, unfolding(crate::specs::TurnReading::say_turn))]
fn say_turn(mask: Mask, port: u8, text: &[u8]) -> Result<Asked, LineFault>
    ensures { result ≡ spec.say_turn mask port (parts_of text.now) }
{
    let event = say_event(mask, text)?;
    Ok(Asked::Event { port, event })
}

/// Reads what stands behind a port.
fn behind_turn(mask: Mask, port: u8, text: &[u8]) -> Result<Asked, LineFault>
    ensures { result ≡ spec.behind_turn mask port (parts_of text.now) }
{
    let (word, rest) = cut(text);
    let Some(rest) = rest else {
        return event_turn(port, text);
    };
    if is_word(word, "frame") {
        frames_turn(port, rest)
    } else if is_word(word, "until") {
        until_turn(port, rest)
    } else if is_word(word, "say") {
        say_turn(mask, port, rest)
    } else {
        event_turn(port, text)
    }
}

/// Reads a port, and what stands behind it.
#[tactic(auto, unfolding(crate::specs::TurnReading::port_turn))]
fn port_turn(mask: Mask, digits: &[u8], text: &[u8]) -> Result<Asked, LineFault>
    ensures { result ≡ spec.port_turn mask digits.now (parts_of text.now) }
{
    let port = number_in(0, u64::from(LAST_PORT), digits)? as u8;
    behind_turn(mask, port, text)
}

/// Reads what is asked of a unit.
#[tactic(auto, unfolding(crate::specs::TurnReading::unit_turn))]
fn unit_turn(text: &[u8]) -> Result<Asked, LineFault>
    ensures { result ≡ spec.unit_turn (parts_of text.now) }
{
    let (unit, word) = two_parts(text)?;
    let word = UnitWord::from_text(word)?;
    let unit = number_in(0, u64::from(LAST_UNIT), unit)? as u16;
    Ok(word.of(unit))
}

/// Reads what begins with a unit or a port.
#[tactic(auto, unfolding(crate::specs::TurnReading::begun_turn))]
fn begun_turn(mask: Mask, first: &[u8], text: &[u8]) -> Result<Asked, LineFault>
    ensures { result ≡ spec.begun_turn mask first.now (parts_of text.now) }
{
    if is_word(first, "unit") {
        unit_turn(text)
    } else {
        port_turn(mask, first, text)
    }
}

/// Reads a turn that asks for a frame or a burst, in one pass. None for any other, and for some of these: those with
/// very many digits.
fn usual_turn(text: &[u8]) -> Option<Asked>
    ensures { (mask : AnyMask) → IfSome result (λ asked. spec.turn_of_parts mask (parts_of text.now) ≡ Ok asked) }
{
    let (port, told) = leading_number(text)?;
    if port > u64::from(LAST_PORT) {
        return None;
    }
    let port = port as u8;
    if is_word(told, "frame") {
        let event = Event::Frame;
        return Some(Asked::Event { port, event });
    }
    let (event, rest) = leading_burst(told)?;
    if !rest.is_empty() {
        return None;
    }
    Some(Asked::Event { port, event })
}

/// Reads the parts of any turn.
fn any_turn(mask: Mask, text: &[u8]) -> Result<Asked, LineFault>
    ensures { result ≡ spec.turn_of_parts mask (parts_of text.now) }
{
    let (first, rest) = cut(text);
    match rest {
        None => Err(LineFault::Word),
        Some(rest) => begun_turn(mask, first, rest),
    }
}

/// Gives the fault of a text that has this one, if its spaces are right.
fn first_fault(text: &[u8], fault: LineFault) -> LineFault
    ensures { result ≡ (if has_space_too_many (parts_of text.now) then faults.Space else fault) }
{
    if has_space_too_many(text) {
        LineFault::Space
    } else {
        fault
    }
}

/// Reads any turn, with one space between its parts.
fn spaced_turn(mask: Mask, text: &[u8]) -> Result<Asked, LineFault>
    ensures { result ≡ spec.spaced_turn mask (parts_of text.now) }
{
    match any_turn(mask, text) {
        Ok(asked) => Ok(asked),
        Err(fault) => Err(first_fault(text, fault)),
    }
}

/// Reads a turn.
fn turn_in(mask: Mask, text: &[u8]) -> Result<Asked, LineFault>
    ensures { result ≡ spec.spaced_turn mask (parts_of text.now) }
{
    match usual_turn(text) {
        Some(asked) => Ok(asked),
        None => spaced_turn(mask, text),
    }
}

/// Tells whether a text asks for nothing.
fn is_remark(text: &[u8]) -> bool
    ensures { result ≡ is_remark text.now }
{
    matches!(text, [] | [b'#', ..])
}

/// Gives a line without a carriage return at its end.
fn without_return(line: &[u8]) -> &[u8]
    ensures { result.now ≡ without_return line.now }
{
    match line.strip_suffix(b"\r") {
        Some(text) => text,
        None => line,
    }
}

/// Reads a line.
fn asked_in(mask: Mask, line: &[u8]) -> Result<Asked, LineFault>
    ensures { result ≡ spec.turn_of mask line.now }
{
    if line.len() > LONGEST_LINE {
        return Err(LineFault::Long);
    }
    let text = without_return(line);
    if is_remark(text) {
        return Ok(Asked::Nothing);
    }
    turn_in(mask, text)
}

/// Reads a line `PORT EVENT`, with the event as `parse_event` reads it, `PORT frame COUNT`, `PORT until GRANT`,
/// `PORT until GRANT within COUNT`, `unit I light`, `unit I dark` or `unit I show`. A grant is `search`, `range N` or
/// `poll N`. A line that is empty or begins with `#` asks for nothing. The line comes without its line feed; a carriage
/// return at its end is no part of it.
///
/// `PORT say serial S [onu N] [at D]`, `PORT say gasp onu N [at D]`, `PORT say none onu N [at D]` and
/// `PORT say ack onu N id K [at D]` are the burst of a unit's message, encoded with the mask: N is 255 and D is 0 where
/// they are left out.
///
/// Whether the port and the unit are there is not known here. Takes no memory.
pub fn parse_turn(mask: Mask, line: &[u8]) -> Result<Asked, LineFault>
    ensures value { result ≡ spec.turn_of mask line.now }
    ensures asked { (asked : AnyAsked) → (result ≡ Ok asked) ↔ SpellsTurn mask line.now asked }
    ensures fault { (fault : AnyFault) → (result ≡ Err fault) ↔ HasTurnFault line.now fault }
{
    turns_are_read();
    asked_in(mask, line)
}
