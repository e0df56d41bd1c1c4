//! The line of a change: the value of a variable, and its identifier; and the line of a time, which stands there only
//! where it is behind the last one.
ghost use Rattle.std.specs.Prelude.{◌≡◌, ◌<◌, ◌++◌, OnOk, codes, decimal};
ghost use Rattle.gp_machine.specs.Config.{max_ports};
ghost use Rattle.gp_dump.specs.Dump as dump;
ghost use Rattle.gp_dump.specs.Text as spec;

use crate::change::{PortChange, UnitChange};
use crate::number::state_number;
use crate::piece::{
    push_alarm, push_code, push_level, push_number, push_octet, push_octets, push_port_id,
    push_unit_id, push_window, push_word,
};
use std::alloc::AllocError;

/// Gives the letter of a variable of a port.
fn letter_of_port(what: &PortChange) -> u8
    ensures { result ≡ spec.letter_of_port what.now }
{
    match what {
        PortChange::Frame(_) => b'f',
        PortChange::Sent(_) => b's',
        PortChange::Grant(_) => b'g',
        PortChange::Asked(_) => b'a',
        PortChange::Window(_) => b'w',
        PortChange::Burst(_) => b'b',
        PortChange::Delay(_) => b'd',
        PortChange::Alarm(_) => b'l',
    }
}

/// Gives the letter of a variable of a unit.
fn letter_of_unit(what: &UnitChange) -> u8
    ensures { result ≡ spec.letter_of_unit what.now }
{
    match what {
        UnitChange::Serial(_) => b'n',
        UnitChange::State(_) => b't',
        UnitChange::Onu(_) => b'o',
        UnitChange::Delay(_) => b'e',
    }
}

/// Appends the value of a variable of a port.
fn push_port_value(out: &mut Vec<u8>, what: &PortChange) -> Result<(), AllocError>
    ensures { OnOk result (out.new.items ≡ out.old.items ++ spec.port_value what.now) }
{
    match what {
        PortChange::Frame(level) => push_level(out, *level),
        PortChange::Sent(code) => push_code(out, code),
        PortChange::Grant(kind) => push_window(out, *kind),
        PortChange::Asked(onu) => push_octet(out, *onu),
        PortChange::Window(kind) => push_window(out, *kind),
        PortChange::Burst(code) => push_code(out, code),
        PortChange::Delay(delay) => push_word(out, *delay),
        PortChange::Alarm(kind) => push_alarm(out, *kind),
    }
}

/// Appends the value of a variable of a unit.
fn push_unit_value(out: &mut Vec<u8>, what: &UnitChange) -> Result<(), AllocError>
    ensures { OnOk result (out.new.items ≡ out.old.items ++ spec.unit_value what.now) }
{
    match what {
        UnitChange::Serial(serial) => push_octets(out, &serial.0),
        UnitChange::State(state) => push_octets(out, &[state_number(*state)]),
        UnitChange::Onu(onu) => push_octet(out, *onu),
        UnitChange::Delay(delay) => push_word(out, *delay),
    }
}

/// Appends the line of a change of a port.
pub(crate) fn push_port_change(
    out: &mut Vec<u8>,
    number: u8,
    what: &PortChange,
) -> Result<(), AllocError>
    requires { number < max_ports }
    ensures { OnOk result (out.new.items ≡ out.old.items
        ++ (spec.port_value what.now ++ spec.port_id number (spec.letter_of_port what.now) ++ codes "\n")) }
{
    push_port_value(out, what)?;
    push_port_id(out, number, letter_of_port(what))?;
    out.extend_from_slice(b"\n")
}

/// Appends the line of a change of a unit.
pub(crate) fn push_unit_change(
    out: &mut Vec<u8>,
    number: u8,
    lane: u16,
    what: &UnitChange,
) -> Result<(), AllocError>
    requires { number < max_ports }
    ensures { OnOk result (out.new.items ≡ out.old.items
        ++ (spec.unit_value what.now ++ spec.unit_id number (spec.letter_of_unit what.now) lane ++ codes "\n")) }
{
    push_unit_value(out, what)?;
    push_unit_id(out, number, letter_of_unit(what), lane)?;
    out.extend_from_slice(b"\n")
}

/// Appends a time, in nanoseconds.
fn push_stamp(out: &mut Vec<u8>, time: u64) -> Result<(), AllocError>
    ensures { OnOk result (out.new.items ≡ out.old.items ++ (codes "#" ++ decimal time ++ codes "\n")) }
{
    out.extend_from_slice(b"#")?;
    push_number(out, time)?;
    out.extend_from_slice(b"\n")
}

/// Appends a time, where it is behind the last one.
pub(crate) fn push_time(out: &mut Vec<u8>, last: Option<u64>, time: u64) -> Result<(), AllocError>
    ensures { OnOk result (out.new.items ≡ out.old.items ++ dump.time_text last time) }
{
    match last {
        Some(last) if time <= last => Ok(()),
        _ => push_stamp(out, time),
    }
}
