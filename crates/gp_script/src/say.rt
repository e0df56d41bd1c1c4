//! Events in which a unit says something: its burst is encoded here.
ghost use Rattle.std.specs.Prelude.{◌≡◌, ℕ, ◌<◌, IfOk};
ghost use Rattle.toml.specs.View.{table_view};
ghost use Rattle.gp_ploam.specs.Up.{IsProperUp};
ghost use Rattle.gp_script.specs.Fault.{Sees};
ghost use Rattle.gp_script.specs.Say as spec;
ghost use Rattle.gp_script.specs.View.{NamesPort};

use crate::keys::{has_only, needed_number, needed_text, number_at};
use crate::place::{Key, Wanted};
use crate::script::ScriptEvent;
use crate::values::{delay_in, in_range_or, octet_in, port_in, serial_of};
use crate::walk::{TableFault, wanted_at};
use gp_ploam::{BROADCAST_ONU, Mask, Up, encode_up};
use toml::Table;

/// Who says something, and where and when it arrives.
#[derive(Clone, Copy)]
struct Speaker {
    /// The place of the port, from 0.
    port: u8,
    /// The whole round-trip delay, in bit times.
    at: u32,
    /// The ONU-ID of the unit.
    onu: u8,
}

/// Makes the burst of a unit's message, encoded with the script's mask.
fn said(mask: Mask, speaker: Speaker, message: &Up) -> ScriptEvent
    requires { IsProperUp message.now }
    ensures value { result ≡ spec.said mask speaker message.now }
    ensures port { (ports : ℕ) → speaker.port < ports → NamesPort ports result }
{
    ScriptEvent::Burst {
        port: speaker.port,
        at: speaker.at,
        bytes: encode_up(message, mask),
    }
}

/// Reads an event in which a unit says its serial number.
#[tactic(auto, unfolding(crate::specs::Say::say_serial))]
fn say_serial(ports: u8, mask: Mask, table: &Table) -> Result<ScriptEvent, TableFault<'_>>
    ensures value { Sees (λ e. e) result (spec.say_serial ports mask (table_view table.now)) }
    ensures port { IfOk result (λ e. NamesPort ports e) }
{
    let keys = [Key::Port, Key::At, Key::Say, Key::Serial, Key::Onu];
    has_only(table, &keys)?;
    let port = needed_number(table, Key::Port)?;
    let at = needed_number(table, Key::At)?;
    let serial = needed_text(table, Key::Serial)?;
    let onu = number_at(table, Key::Onu)?;
    let port = port_in(ports, port)?;
    let at = delay_in(at)?;
    let serial = serial_of(serial)?;
    let onu = in_range_or(
        Key::Onu,
        u32::from(BROADCAST_ONU),
        0..=u32::from(u8::MAX),
        onu,
    )? as u8;
    let message = Up::SerialNumber {
        onu,
        serial,
        random: 0,
        flags: 0,
    };
    Ok(said(mask, Speaker { port, at, onu }, &message))
}

/// Reads who says something that has no key but the unit's ONU-ID.
#[tactic(auto, unfolding(crate::specs::Say::speaker_of))]
fn speaker_of(ports: u8, table: &Table) -> Result<Speaker, TableFault<'_>>
    ensures value { Sees (λ e. e) result (spec.speaker_of ports (table_view table.now)) }
    ensures port { IfOk result (λ speaker. speaker.port < ports) }
{
    let keys = [Key::Port, Key::At, Key::Say, Key::Onu];
    has_only(table, &keys)?;
    let port = needed_number(table, Key::Port)?;
    let at = needed_number(table, Key::At)?;
    let onu = needed_number(table, Key::Onu)?;
    let port = port_in(ports, port)?;
    let at = delay_in(at)?;
    let onu = octet_in(Key::Onu, onu)?;
    Ok(Speaker { port, at, onu })
}

/// Reads an event in which a unit says that it is losing its power.
#[tactic(auto, unfolding(crate::specs::Say::say_gasp))]
fn say_gasp(ports: u8, mask: Mask, table: &Table) -> Result<ScriptEvent, TableFault<'_>>
    ensures value { Sees (λ e. e) result (spec.say_gasp ports mask (table_view table.now)) }
    ensures port { IfOk result (λ e. NamesPort ports e) }
{
    let speaker = speaker_of(ports, table)?;
    Ok(said(mask, speaker, &Up::DyingGasp { onu: speaker.onu }))
}

/// Reads an event in which a unit says that it has nothing to say.
#[tactic(auto, unfolding(crate::specs::Say::say_none))]
fn say_none(ports: u8, mask: Mask, table: &Table) -> Result<ScriptEvent, TableFault<'_>>
    ensures value { Sees (λ e. e) result (spec.say_none ports mask (table_view table.now)) }
    ensures port { IfOk result (λ e. NamesPort ports e) }
{
    let speaker = speaker_of(ports, table)?;
    Ok(said(mask, speaker, &Up::NoMessage { onu: speaker.onu }))
}

/// Reads an event in which a unit acknowledges a message, of which the identifier alone is told.
#[tactic(auto, unfolding(crate::specs::Say::say_ack))]
fn say_ack(ports: u8, mask: Mask, table: &Table) -> Result<ScriptEvent, TableFault<'_>>
    ensures value { Sees (λ e. e) result (spec.say_ack ports mask (table_view table.now)) }
    ensures port { IfOk result (λ e. NamesPort ports e) }
{
    let keys = [Key::Port, Key::At, Key::Say, Key::Onu, Key::Id];
    has_only(table, &keys)?;
    let port = needed_number(table, Key::Port)?;
    let at = needed_number(table, Key::At)?;
    let onu = needed_number(table, Key::Onu)?;
    let id = needed_number(table, Key::Id)?;
    let port = port_in(ports, port)?;
    let at = delay_in(at)?;
    let onu = octet_in(Key::Onu, onu)?;
    let id = octet_in(Key::Id, id)?;
    let message = Up::Acknowledge {
        onu,
        id,
        copy: [0; 9],
    };
    Ok(said(mask, Speaker { port, at, onu }, &message))
}

/// Reads what a unit says, which is told by its word.
#[tactic(auto, unfolding(crate::specs::Say::say_event))]
pub(crate) fn say_event(ports: u8, mask: Mask, table: &Table) -> Result<ScriptEvent, TableFault<'_>>
    ensures value { Sees (λ e. e) result (spec.say_event ports mask (table_view table.now)) }
    ensures port { IfOk result (λ e. NamesPort ports e) }
{
    match needed_text(table, Key::Say)? {
        "serial" => say_serial(ports, mask, table),
        "gasp" => say_gasp(ports, mask, table),
        "none" => say_none(ports, mask, table),
        "ack" => say_ack(ports, mask, table),
        _ => Err(wanted_at(Key::Say, Wanted::Word)),
    }
}
