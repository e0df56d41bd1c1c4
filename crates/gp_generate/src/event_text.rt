//! The text of an event.
ghost use Rattle.std.specs.Prelude.{◌≡◌, ◌++◌, OnOk};
ghost use Rattle.gp_generate.specs.declared.event.Event.TheVariants as events;
ghost use Rattle.gp_generate.specs.Events as spec;
ghost use Rattle.gp_generate.specs.Fields.{lines_of};

use crate::event::{Event, Said};
use crate::pieces::{
    push_burst_key, push_number, push_serial_key, push_text, push_truth, push_word,
};
use gp_machine::Command;
use gp_ploam::Serial;
use std::alloc::AllocError;

/// Appends the key of a unit's serial number, and the end of the table.
fn push_about_unit(out: &mut Vec<u8>, serial: &Serial) -> Result<(), AllocError>
    ensures { OnOk result (out.new.items ≡ out.old.items ++ lines_of (spec.about_unit serial.now)) }
{
    push_serial_key(out, serial)?;
    push_text(out, "\n")
}

/// Appends the keys of an Alloc-ID that is given back, and the end of the table.
fn push_about_alloc(out: &mut Vec<u8>, serial: &Serial, alloc: u16) -> Result<(), AllocError>
    ensures { OnOk result (out.new.items ≡ out.old.items ++ lines_of (spec.about_alloc serial.now alloc)) }
{
    push_serial_key(out, serial)?;
    push_number(out, "alloc", u64::from(alloc))?;
    push_text(out, "\n")
}

/// Appends what a command is about, and the end of the table.
fn push_about(out: &mut Vec<u8>, command: &Command) -> Result<(), AllocError>
    ensures { OnOk result (out.new.items ≡ out.old.items ++ lines_of (spec.about_fields command.now)) }
{
    match command {
        Command::Search | Command::EnableAll | Command::PopupAll => push_text(out, "\n"),
        Command::Dealloc { serial, alloc } => push_about_alloc(out, serial, *alloc),
        Command::Alloc(serial)
        | Command::Deactivate(serial)
        | Command::Disable(serial)
        | Command::Enable(serial)
        | Command::Popup(serial)
        | Command::Show(serial) => push_about_unit(out, serial),
    }
}

/// Appends what a unit says, and the end of the table.
fn push_said(out: &mut Vec<u8>, said: &Said) -> Result<(), AllocError>
    ensures { OnOk result (out.new.items ≡ out.old.items ++ lines_of (spec.said_fields said.now)) }
{
    match said {
        Said::Serial { serial, onu } => push_says_serial(out, serial, *onu),
        Said::Gasp { onu } => push_says(out, "gasp", *onu),
        Said::Nothing { onu } => push_says(out, "none", *onu),
        Said::Ack { onu, id } => push_says_ack(out, *onu, *id),
    }
}

/// Appends that it says its serial number.
fn push_says_serial(out: &mut Vec<u8>, serial: &Serial, onu: u8) -> Result<(), AllocError>
    ensures { OnOk result (out.new.items ≡ out.old.items ++ lines_of (spec.says_serial serial.now onu)) }
{
    push_word(out, "say", "serial")?;
    push_serial_key(out, serial)?;
    push_number(out, "onu", u64::from(onu))?;
    push_text(out, "\n")
}

/// Appends that it says something that has no key but its ONU-ID.
fn push_says(out: &mut Vec<u8>, word: &str, onu: u8) -> Result<(), AllocError>
    ensures { OnOk result (out.new.items ≡ out.old.items ++ lines_of (spec.says_word word.now onu)) }
{
    push_word(out, "say", word)?;
    push_number(out, "onu", u64::from(onu))?;
    push_text(out, "\n")
}

/// Appends that it acknowledges a message.
fn push_says_ack(out: &mut Vec<u8>, onu: u8, id: u8) -> Result<(), AllocError>
    ensures { OnOk result (out.new.items ≡ out.old.items ++ lines_of (spec.says_ack onu id)) }
{
    push_word(out, "say", "ack")?;
    push_number(out, "onu", u64::from(onu))?;
    push_number(out, "id", u64::from(id))?;
    push_text(out, "\n")
}

/// Appends how an event begins, and its port.
fn push_at_port(out: &mut Vec<u8>, port: u8) -> Result<(), AllocError>
    ensures { OnOk result (out.new.items ≡ out.old.items ++ spec.at_port port) }
{
    push_text(out, "[[event]]\n")?;
    push_number(out, "port", u64::from(port))
}

/// Appends frames.
fn push_frames(out: &mut Vec<u8>, port: u8, count: u32) -> Result<(), AllocError>
    ensures { OnOk result (out.new.items ≡ out.old.items ++ spec.event_text (events.Frames port count)) }
{
    push_at_port(out, port)?;
    push_number(out, "frames", u64::from(count))?;
    push_text(out, "\n")
}

/// Appends a burst.
fn push_burst(out: &mut Vec<u8>, port: u8, at: u32, code: &[u8; 13]) -> Result<(), AllocError>
    ensures { OnOk result (out.new.items ≡ out.old.items ++ spec.event_text (events.Burst port at code.now)) }
{
    push_at_port(out, port)?;
    push_number(out, "at", u64::from(at))?;
    push_burst_key(out, code)?;
    push_text(out, "\n")
}

/// Appends a burst in words.
fn push_say(out: &mut Vec<u8>, port: u8, at: u32, said: &Said) -> Result<(), AllocError>
    ensures { OnOk result (out.new.items ≡ out.old.items ++ spec.event_text (events.Say port at said.now)) }
{
    push_at_port(out, port)?;
    push_number(out, "at", u64::from(at))?;
    push_said(out, said)
}

/// Appends a command.
fn push_command(out: &mut Vec<u8>, port: u8, command: &Command) -> Result<(), AllocError>
    ensures { OnOk result (out.new.items ≡ out.old.items ++ spec.event_text (events.Command port command.now)) }
{
    push_at_port(out, port)?;
    push_word(out, "command", command.word())?;
    push_about(out, command)
}

/// Appends that light comes or goes.
fn push_light(out: &mut Vec<u8>, unit: u16, lit: bool) -> Result<(), AllocError>
    ensures { OnOk result (out.new.items ≡ out.old.items ++ spec.event_text (events.Light unit lit)) }
{
    push_text(out, "[[event]]\n")?;
    push_number(out, "unit", u64::from(unit))?;
    push_truth(out, "light", lit)?;
    push_text(out, "\n")
}

/// Appends an event.
pub(crate) fn push_event(out: &mut Vec<u8>, event: &Event) -> Result<(), AllocError>
    ensures { OnOk result (out.new.items ≡ out.old.items ++ spec.event_text event.now) }
{
    match event {
        Event::Frames { port, count } => push_frames(out, *port, *count),
        Event::Burst { port, at, code } => push_burst(out, *port, *at, code),
        Event::Say { port, at, said } => push_say(out, *port, *at, said),
        Event::Command { port, command } => push_command(out, *port, command),
        Event::Light { unit, lit } => push_light(out, *unit, *lit),
    }
}
