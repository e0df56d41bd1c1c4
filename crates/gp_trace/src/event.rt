//! What happened at the port, as text: a frame, a burst, or a command.
ghost use Rattle.std.specs.Prelude.{◌+◌, ◌≤◌, length};
ghost use Rattle.gp_machine.specs.declared.event.Command.TheVariants.{Dealloc};
ghost use Rattle.gp_trace.specs.Writes.{Writes};
ghost use Rattle.gp_trace.specs.Text.{command_text, event_text};

use crate::pieces::{write_code, write_numbered, write_of_unit, write_text, write_u16};
use gp_machine::{Command, Event};
use gp_ploam::Serial;

/// Writes that a unit is to give an Alloc-ID back.
fn write_dealloc(line: &mut [u8], end: usize, serial: &Serial, alloc: u16) -> usize
    requires room { 30 ≤ end }
    requires within { end ≤ length line.old }
    ensures { Writes 30 (command_text (Dealloc serial.now alloc)) line.old end line.new result }
{
    let at = write_u16(line, end, alloc);
    let at = write_text(line, at, " ");
    write_of_unit(line, at, "dealloc", serial)
}

/// Writes what the operator asked for.
fn write_command(line: &mut [u8], end: usize, command: &Command) -> usize
    requires room { 30 ≤ end }
    requires within { end ≤ length line.old }
    ensures { Writes 30 (command_text command.now) line.old end line.new result }
{
    let word = command.word();
    match command {
        Command::Search | Command::EnableAll | Command::PopupAll => write_text(line, end, word),
        Command::Dealloc { serial, alloc } => write_dealloc(line, end, serial, *alloc),
        Command::Alloc(serial)
        | Command::Deactivate(serial)
        | Command::Disable(serial)
        | Command::Enable(serial)
        | Command::Popup(serial)
        | Command::Show(serial) => write_of_unit(line, end, word, serial),
    }
}

/// Writes a burst, with its round-trip delay in bit times and its octets.
fn write_burst(line: &mut [u8], end: usize, at: u32, bytes: &[u8; 13]) -> usize
    requires room { 43 ≤ end }
    requires within { end ≤ length line.old }
    ensures { Writes 43 (event_text (Event.Burst at bytes.now)) line.old end line.new result }
{
    let start = write_code(line, end, bytes);
    let start = write_text(line, start, " ");
    write_numbered(line, start, "burst", at)
}

/// Writes what happened at the port.
pub(crate) fn write_event(line: &mut [u8], end: usize, event: &Event) -> usize
    requires room { 43 ≤ end }
    requires within { end ≤ length line.old }
    ensures { Writes 43 (event_text event.now) line.old end line.new result }
{
    match event {
        Event::Frame => write_text(line, end, "frame"),
        Event::Burst { at, bytes } => write_burst(line, end, *at, bytes),
        Event::Command(command) => write_command(line, end, command),
    }
}
