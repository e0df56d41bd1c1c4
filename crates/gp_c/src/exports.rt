//! What C calls. Each answers a status: 0 where it is done, else the number of a fault.
ghost use Rattle.std.specs.Prelude.{◌≡◌, ◌⊎◌, Some, None, Ok, Err, IfOk, IfErr, length};
ghost use Rattle.std.specs.Option.{ForSome};
ghost use Rattle.gp_ploam.specs.Down.{IsProperDown};
ghost use Rattle.gp_machine.specs.declared.event.Command.{Command as AnyCommand};
ghost use Rattle.gp_machine.specs.declared.event.Event.{Event as AnyEvent};
ghost use Rattle.gp_machine.specs.declared.event.Event.TheVariants.{Frame, Burst, Command as Commanded};
ghost use Rattle.gp_c.specs.declared.fault.Fault.{Fault as AnyFault};
ghost use Rattle.gp_c.specs.Faults.{fault_number, status_text};
ghost use Rattle.gp_c.specs.Events.{event_of};
ghost use Rattle.gp_c.specs.Entries.{told_by, event_told, answer_told, line_told};
ghost use Rattle.gp_c.specs.Turns.{turn_of};
ghost use Rattle.gp_c.specs.Commands as spec;
ghost use Rattle.gp_c.specs.Settings.{serial_of};
ghost use Rattle.gp_c.specs.Calls.{asked_for, TellsOpen, TellsAnswer, TellsCut, kept_at, shown_at, free_at, closed_at, tallied_at, status_of, written, text_in, line_in, length_in};

use crate::answer::AnswerNumbers;
use crate::calls::{apply, close, cut, entry, free, open, show, tally};
use crate::command::command_of;
use crate::counts::PortCounts;
use crate::event::{EventNumbers, event_of as event_in};
use crate::fault::{Fault, text_of};
use crate::handle::Handle;
use crate::kept::KeptEntry;
use crate::row::RowNumbers;
use crate::settings::{ChassisSettings, PortSettings, SerialNumber};
use crate::turn::{TurnNumbers, turn_of as turn_in};
use gp_machine::Event;
use gp_ploam::Serial;
use gp_trace::{MAX_LINE, write_line};
use std::alloc::Global;

/// The status of a call that is done.
const DONE: u32 = 0;

/// Opens a chassis behind a closed handle.
#[unsafe(no_mangle)]
pub extern "C" fn wp_open(
    alloc: Global,
    handle: &mut Handle,
    settings: &ChassisSettings,
    ports: &[PortSettings],
    serials: &[SerialNumber],
) -> u32
    ensures { TellsOpen (asked_for settings.now ports.now serials.now) handle.old.value handle.new.value result }
{
    match open(handle, alloc, settings, ports, serials) {
        Ok(()) => DONE,
        Err(fault) => fault.number(),
    }
}

/// A downstream frame of a port begins.
#[unsafe(no_mangle)]
pub extern "C" fn wp_frame(
    alloc: Global,
    handle: &mut Handle,
    port: u8,
    answer: &mut AnswerNumbers,
) -> u32
    ensures { TellsAnswer handle.old.value port Frame handle.new.value result answer.old answer.new }
{
    serve(handle, alloc, port, Event::Frame, answer)
}

/// Thirteen octets arrive at a port after this round-trip delay in bit times.
#[unsafe(no_mangle)]
pub extern "C" fn wp_burst(
    alloc: Global,
    handle: &mut Handle,
    port: u8,
    at: u32,
    octets: &[u8; 13],
    answer: &mut AnswerNumbers,
) -> u32
    ensures { TellsAnswer handle.old.value port (Burst at octets.now) handle.new.value result answer.old answer.new }
{
    let event = Event::Burst { at, bytes: *octets };
    serve(handle, alloc, port, event, answer)
}

/// The operator asks a port for something.
#[unsafe(no_mangle)]
pub extern "C" fn wp_command(
    alloc: Global,
    handle: &mut Handle,
    port: u8,
    kind: u8,
    serial: &SerialNumber,
    alloc_id: u16,
    answer: &mut AnswerNumbers,
) -> u32
    ensures serves { (command : AnyCommand) → spec.command_of kind (serial_of serial.now) alloc_id ≡ Some command
        → TellsAnswer handle.old.value port (Commanded command) handle.new.value result answer.old answer.new }
    ensures unknown { spec.command_of kind (serial_of serial.now) alloc_id ≡ None
        → result ≡ fault_number AnyFault.NoCommand }
    ensures nothing { spec.command_of kind (serial_of serial.now) alloc_id ≡ None
        → (handle.new.value ≡ handle.old.value) × (answer.new ≡ answer.old) }
{
    match command_of(kind, Serial(serial.octets), alloc_id) {
        Some(command) => serve(handle, alloc, port, Event::Command(command), answer),
        None => Fault::NoCommand.number(),
    }
}

/// What is told by numbers happens at a port.
#[unsafe(no_mangle)]
pub extern "C" fn wp_apply(
    alloc: Global,
    handle: &mut Handle,
    port: u8,
    event: &EventNumbers,
    answer: &mut AnswerNumbers,
) -> u32
    ensures serves { (happens : AnyEvent) → event_of event.now ≡ Some happens
        → TellsAnswer handle.old.value port happens handle.new.value result answer.old answer.new }
    ensures unknown { event_of event.now ≡ None → result ≡ fault_number AnyFault.NoEvent }
    ensures nothing { event_of event.now ≡ None
        → (handle.new.value ≡ handle.old.value) × (answer.new ≡ answer.old) }
{
    match event_in(event) {
        Some(happens) => serve(handle, alloc, port, happens, answer),
        None => Fault::NoEvent.number(),
    }
}

/// Tells what a port knows of a unit.
#[unsafe(no_mangle)]
pub extern "C" fn wp_show(
    alloc: Global,
    handle: &mut Handle,
    port: u8,
    serial: &SerialNumber,
    row: &mut RowNumbers,
) -> u32
    ensures unchanged { handle.new.value ≡ handle.old.value }
    ensures status { result ≡ status_of (shown_at handle.old.value port (serial_of serial.now)) }
    ensures row { row.new ≡ written row.old (shown_at handle.old.value port (serial_of serial.now)) }
{
    match show(handle, alloc, port, Serial(serial.octets)) {
        Ok(shown) => {
            *row = shown;
            DONE
        }
        Err(fault) => fault.number(),
    }
}

/// Tells how many licences are free.
#[unsafe(no_mangle)]
pub extern "C" fn wp_free(alloc: Global, handle: &mut Handle, count: &mut u32) -> u32
    ensures unchanged { handle.new.value ≡ handle.old.value }
    ensures status { result ≡ status_of (free_at handle.old.value) }
    ensures count { count.new ≡ written count.old (free_at handle.old.value) }
{
    match free(handle, alloc) {
        Ok(told) => {
            *count = told;
            DONE
        }
        Err(fault) => fault.number(),
    }
}

/// Tells what is counted of a port.
#[unsafe(no_mangle)]
pub extern "C" fn wp_count(
    alloc: Global,
    handle: &mut Handle,
    port: u8,
    counts: &mut PortCounts,
) -> u32
    ensures unchanged { handle.new.value ≡ handle.old.value }
    ensures status { result ≡ status_of (tallied_at handle.old.value port) }
    ensures counts { counts.new ≡ written counts.old (tallied_at handle.old.value port) }
{
    match tally(handle, alloc, port) {
        Ok(told) => {
            *counts = told;
            DONE
        }
        Err(fault) => fault.number(),
    }
}

/// Tells by numbers an entry that a port's journal keeps.
#[unsafe(no_mangle)]
pub extern "C" fn wp_entry(
    alloc: Global,
    handle: &mut Handle,
    port: u8,
    number: u64,
    event: &mut EventNumbers,
    answer: &mut AnswerNumbers,
) -> u32
    ensures unchanged { handle.new.value ≡ handle.old.value }
    ensures status { result ≡ status_of (kept_at handle.old.value port number) }
    ensures event { event.new ≡ written event.old (told_by event_told (kept_at handle.old.value port number)) }
    ensures answer { answer.new ≡ written answer.old (told_by answer_told (kept_at handle.old.value port number)) }
{
    let kept = match entry(handle, alloc, port, number) {
        Ok(kept) => kept,
        Err(fault) => return fault.number(),
    };
    *event = kept.event();
    *answer = kept.answer();
    DONE
}

/// Writes the trace line of an entry that a port's journal keeps, where the buffer has room for it, and tells how many
/// octets it has.
#[unsafe(no_mangle)]
pub extern "C" fn wp_line(
    alloc: Global,
    handle: &mut Handle,
    port: u8,
    number: u64,
    buffer: &mut [u8],
    length: &mut usize,
) -> u32
    ensures unchanged { handle.new.value ≡ handle.old.value }
    ensures status { result ≡ status_of (kept_at handle.old.value port number) }
    ensures text { buffer.new ≡ line_in buffer.old (told_by line_told (kept_at handle.old.value port number)) }
    ensures length { length.new ≡ length_in length.old (told_by line_told (kept_at handle.old.value port number)) }
{
    match entry(handle, alloc, port, number) {
        Ok(kept) => {
            *length = write_entry_line(&kept, buffer);
            DONE
        }
        Err(fault) => fault.number(),
    }
}

/// Lets go what a port's journal keeps, so that it has room again.
#[unsafe(no_mangle)]
pub extern "C" fn wp_cut(alloc: Global, handle: &mut Handle, port: u8) -> u32
    ensures { TellsCut handle.old.value port handle.new.value result }
{
    match cut(handle, alloc, port) {
        Ok(()) => DONE,
        Err(fault) => fault.number(),
    }
}

/// Closes the handle.
#[unsafe(no_mangle)]
pub extern "C" fn wp_close(alloc: Global, handle: &mut Handle) -> u32
    ensures closed { handle.new.value ≡ None }
    ensures status { result ≡ status_of (closed_at handle.old.value) }
{
    match close(handle, alloc) {
        Ok(()) => DONE,
        Err(fault) => fault.number(),
    }
}

/// Has a port serve an event, and tells what it gave.
#[inline(always)]
fn serve(
    handle: &mut Handle,
    alloc: Global,
    port: u8,
    event: Event,
    answer: &mut AnswerNumbers,
) -> u32
    ensures { TellsAnswer handle.old.value port event handle.new.value result answer.old answer.new }
{
    match apply(handle, alloc, port, event) {
        Ok(told) => {
            *answer = told;
            DONE
        }
        Err(fault) => fault.number(),
    }
}

/// Reads the turn that a line of text asks for.
#[unsafe(no_mangle)]
pub extern "C" fn wp_turn(line: &[u8], turn: &mut TurnNumbers) -> u32
    ensures status { result ≡ status_of (turn_of line.now) }
    ensures turn { turn.new ≡ written turn.old (turn_of line.now) }
{
    match turn_in(line) {
        Ok(told) => {
            *turn = told;
            DONE
        }
        Err(fault) => fault.number(),
    }
}

/// Writes a status in words, where the buffer has room for them, and tells how many octets they have.
#[unsafe(no_mangle)]
pub extern "C" fn wp_text(status: u32, buffer: &mut [u8]) -> usize
    ensures length { result ≡ length (status_text status) }
    ensures text { buffer.new ≡ text_in buffer.old (status_text status) }
{
    write_text(text_of(status).as_bytes(), buffer)
}

/// Writes the line of an entry where the buffer has room for it, and tells how many octets it has.
fn write_entry_line(kept: &KeptEntry, buffer: &mut [u8]) -> usize
    requires { ForSome kept.now.receipt.entry.answer.sent IsProperDown }
    ensures length { result ≡ length (line_told kept.now) }
    ensures text { buffer.new ≡ text_in buffer.old (line_told kept.now) }
{
    let mut line = [0u8; MAX_LINE];
    let start = write_line(&mut line, kept.mask, &kept.receipt);
    write_text(&line[start..], buffer)
}

/// Writes a text where the buffer has room for it, and tells how many octets it has.
fn write_text(text: &[u8], buffer: &mut [u8]) -> usize
    ensures length { result ≡ length text.now }
    ensures text { buffer.new ≡ text_in buffer.old text.now }
{
    if text.len() <= buffer.len() {
        buffer[..text.len()].copy_from_slice(text);
    }
    text.len()
}
