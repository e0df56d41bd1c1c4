//! The alarm at the end of the text of an answer, which is counted; and the kind of alarm that a line tells, which is
//! drawn and dumped.
ghost use Rattle.std.specs.Prelude.{◌≡◌, position};
ghost use Rattle.std.specs.Char.{is_ascii_uppercase};
ghost use Rattle.std.specs.Result.{result_ok};
ghost use Rattle.gp_lines.specs.Parts.{parts_of};
ghost use Rattle.gp_lines.specs.Reading.{serial_in};
ghost use Rattle.gp_tally.specs.Told as spec;

use gp_alarms::{Alarm, AlarmKind};
use gp_lines::{cut, serial_in};

/// Gives the kind of alarm with this name.
fn kind_named(name: &[u8]) -> Option<AlarmKind>
    ensures { result ≡ spec.kind_named name.now }
{
    match name {
        b"LOS" => Some(AlarmKind::Los),
        b"LOAM" => Some(AlarmKind::Loam),
        b"LOA" => Some(AlarmKind::Loa),
        b"SUF" => Some(AlarmKind::Suf),
        b"DF" => Some(AlarmKind::Df),
        b"DG" => Some(AlarmKind::Dg),
        _ => None,
    }
}

/// Gives the kind of alarm that a line of a trace tells: the word behind the first part that is `alarm`. No serial
/// number is looked for behind it. Takes no memory.
pub fn kind_told(text: &[u8]) -> Option<AlarmKind>
    ensures { result ≡ spec.kind_told (parts_of text.now) }
{
    let (mut part, mut rest) = cut(text);
    'parts: while let Some(behind) = rest {
        let (next, others) = cut(behind);
        if part == b"alarm".as_slice() {
            return kind_named(next);
        }
        part = next;
        rest = others;
    }
    None
}

/// Gives the place of the first capital.
fn first_capital(text: &[u8]) -> Option<usize>
    ensures { result ≡ position is_ascii_uppercase text.now }
{
    text.iter().position(|octet| octet.is_ascii_uppercase())
}

/// Gives what stands from the first capital on.
#[tactic(auto, unfolding(crate::specs::Told::from_capital))]
fn from_capital(text: &[u8]) -> &[u8]
    ensures { result.now ≡ spec.from_capital text.now }
{
    match first_capital(text) {
        Some(place) => &text[place..],
        None => &[],
    }
}

/// Reads a kind and a serial number.
fn alarm_of(kind: &[u8], serial: &[u8]) -> Option<Alarm>
    ensures { result ≡ spec.alarm_with (spec.kind_named kind.now) (result_ok (serial_in serial.now)) }
{
    let kind = kind_named(kind)?;
    let serial = serial_in(serial).ok()?;
    Some(Alarm { kind, serial })
}

/// Reads the alarm that a text is.
fn alarm_by(text: &[u8]) -> Option<Alarm>
    ensures { result ≡ spec.alarm_by (parts_of text.now) }
{
    let (kind, Some(rest)) = cut(text) else {
        return None;
    };
    let (serial, _) = cut(rest);
    alarm_of(kind, serial)
}

/// Reads the alarm at the end of the text of an answer, if there is one.
pub(crate) fn alarm_in(answer: &[u8]) -> Option<Alarm>
    ensures { result ≡ spec.alarm_by (parts_of (spec.from_capital answer.now)) }
{
    alarm_by(from_capital(answer))
}
