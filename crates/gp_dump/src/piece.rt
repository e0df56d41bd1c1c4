//! The pieces that lines are made of: identifiers of variables, and values, as levels or as binary digits.
ghost use Rattle.std.specs.Prelude.{◌≡◌, ◌<◌, ◌++◌, OnOk, decimal};
ghost use Rattle.std.specs.List.{flat_map};
ghost use Rattle.gp_machine.specs.Config.{max_ports};
ghost use Rattle.gp_dump.specs.Text as spec;

use crate::change::WindowKind;
use crate::number::{alarm_number, window_number};
use gp_alarms::AlarmKind;
use itoa::Buffer;
use std::alloc::AllocError;

/// Appends a number in decimal digits.
pub(crate) fn push_number(out: &mut Vec<u8>, number: u64) -> Result<(), AllocError>
    ensures { OnOk result (out.new.items ≡ out.old.items ++ decimal number) }
{
    let mut digits = Buffer::new();
    out.extend_from_slice(digits.format(number).as_bytes())
}

/// Appends the identifier of a variable of a port.
pub(crate) fn push_port_id(out: &mut Vec<u8>, port: u8, letter: u8) -> Result<(), AllocError>
    requires { port < max_ports }
    ensures { OnOk result (out.new.items ≡ out.old.items ++ spec.port_id port letter) }
{
    out.extend_from_slice(&[b'a' + port, letter])
}

/// Appends the identifier of a variable of a unit's lane.
pub(crate) fn push_unit_id(
    out: &mut Vec<u8>,
    port: u8,
    letter: u8,
    lane: u16,
) -> Result<(), AllocError>
    requires { port < max_ports }
    ensures { OnOk result (out.new.items ≡ out.old.items ++ spec.unit_id port letter lane) }
{
    push_port_id(out, port, letter)?;
    push_number(out, u64::from(lane))
}

/// Gives the eight binary digits of an octet.
fn octet_digits(octet: u8) -> [u8; 8]
    ensures { result ≡ spec.octet_digits octet }
{
    [
        b'0' + octet / 128 % 2,
        b'0' + octet / 64 % 2,
        b'0' + octet / 32 % 2,
        b'0' + octet / 16 % 2,
        b'0' + octet / 8 % 2,
        b'0' + octet / 4 % 2,
        b'0' + octet / 2 % 2,
        b'0' + octet % 2,
    ]
}

/// Gives the four octets of a number, the greatest first.
fn word_octets(number: u32) -> [u8; 4]
    ensures { result ≡ spec.word_octets number }
{
    [
        (number / 16_777_216) as u8,
        (number / 65_536 % 256) as u8,
        (number / 256 % 256) as u8,
        (number % 256) as u8,
    ]
}

/// Appends the binary digits of octets.
fn push_digits(out: &mut Vec<u8>, octets: &[u8]) -> Result<(), AllocError>
    ensures { OnOk result (out.new.items ≡ out.old.items ++ flat_map spec.octet_digits octets.now) }
{
    'octets: for octet in octets {
        out.extend_from_slice(&octet_digits(*octet))?;
    }
    Ok(())
}

/// Appends a vector of these octets.
pub(crate) fn push_octets(out: &mut Vec<u8>, octets: &[u8]) -> Result<(), AllocError>
    ensures { OnOk result (out.new.items ≡ out.old.items ++ spec.octets_text octets.now) }
{
    out.extend_from_slice(b"b")?;
    push_digits(out, octets)?;
    out.extend_from_slice(b" ")
}

/// Appends that nothing stands there.
fn push_nothing(out: &mut Vec<u8>) -> Result<(), AllocError>
    ensures { OnOk result (out.new.items ≡ out.old.items ++ spec.nothing_text) }
{
    out.extend_from_slice(b"bz ")
}

/// Appends a level.
pub(crate) fn push_level(out: &mut Vec<u8>, level: bool) -> Result<(), AllocError>
    ensures { OnOk result (out.new.items ≡ out.old.items ++ spec.level_text level) }
{
    if level {
        out.extend_from_slice(b"1")
    } else {
        out.extend_from_slice(b"0")
    }
}

/// Appends a code, or nothing.
pub(crate) fn push_code(out: &mut Vec<u8>, code: &Option<[u8; 13]>) -> Result<(), AllocError>
    ensures { OnOk result (out.new.items ≡ out.old.items ++ spec.code_text code.now) }
{
    match code {
        Some(octets) => push_octets(out, octets),
        None => push_nothing(out),
    }
}

/// Appends an octet, or nothing.
pub(crate) fn push_octet(out: &mut Vec<u8>, octet: Option<u8>) -> Result<(), AllocError>
    ensures { OnOk result (out.new.items ≡ out.old.items ++ spec.octet_text octet) }
{
    match octet {
        Some(octet) => push_octets(out, &[octet]),
        None => push_nothing(out),
    }
}

/// Appends a number of four octets, or nothing.
pub(crate) fn push_word(out: &mut Vec<u8>, number: Option<u32>) -> Result<(), AllocError>
    ensures { OnOk result (out.new.items ≡ out.old.items ++ spec.word_text number) }
{
    match number {
        Some(number) => push_octets(out, &word_octets(number)),
        None => push_nothing(out),
    }
}

/// Appends what a window asks for, or nothing.
pub(crate) fn push_window(out: &mut Vec<u8>, kind: Option<WindowKind>) -> Result<(), AllocError>
    ensures { OnOk result (out.new.items ≡ out.old.items ++ spec.window_text kind) }
{
    match kind {
        Some(kind) => push_octets(out, &[window_number(kind)]),
        None => push_nothing(out),
    }
}

/// Appends an alarm, or nothing.
pub(crate) fn push_alarm(out: &mut Vec<u8>, kind: Option<AlarmKind>) -> Result<(), AllocError>
    ensures { OnOk result (out.new.items ≡ out.old.items ++ spec.alarm_text kind) }
{
    match kind {
        Some(kind) => push_octets(out, &[alarm_number(kind)]),
        None => push_nothing(out),
    }
}
