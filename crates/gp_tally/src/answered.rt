//! What the text of an answer says.
ghost use Rattle.std.specs.Prelude.{◌≡◌};
ghost use Rattle.std.specs.Str.{bytes_eq};
ghost use Rattle.gp_lines.specs.Parts.{parts_of};
ghost use Rattle.gp_lines.specs.Picks.{first_number};
ghost use Rattle.gp_tally.specs.Told as spec;

use crate::alarm::alarm_in;
use crate::told::Answered;
use gp_lines::{cut, number_in};
use gp_machine::Refusal;

/// Gives the refusal with a number in its text.
fn refusal_numbered(number: &[u8]) -> Option<Refusal>
    ensures { result ≡ spec.refusal_numbered number.now }
{
    match number {
        b"1" => Some(Refusal::Stray),
        b"2" => Some(Refusal::Garbled),
        b"3" => Some(Refusal::WrongWindow),
        b"4" => Some(Refusal::NotAdmitted),
        b"5" => Some(Refusal::NoId),
        b"6" => Some(Refusal::NoLicence),
        b"7" => Some(Refusal::Busy),
        b"8" => Some(Refusal::NotActive),
        b"9" => Some(Refusal::NotOperating),
        b"10" => Some(Refusal::PendingAlloc),
        b"11" => Some(Refusal::AllocFull),
        b"12" => Some(Refusal::NotHeld),
        b"13" => Some(Refusal::NoAlloc),
        b"14" => Some(Refusal::AlreadySearching),
        _ => None,
    }
}

/// Gives the refusal with the number that a text begins with.
fn first_refusal(text: &[u8]) -> Option<Refusal>
    ensures { result ≡ spec.first_refusal (parts_of text.now) }
{
    let (number, _) = cut(text);
    refusal_numbered(number)
}

/// Reads why something was refused.
fn refused_in(answer: &[u8]) -> Option<Refusal>
    ensures { result ≡ spec.refused_by (parts_of answer.now) }
{
    match cut(answer) {
        (b"refused", Some(rest)) => first_refusal(rest),
        _ => None,
    }
}

/// Reads the number that a text begins with.
fn first_number(text: &[u8]) -> Option<u16>
    ensures { result ≡ first_number (parts_of text.now) }
{
    let (digits, _) = cut(text);
    match number_in(0, u64::from(u16::MAX), digits) {
        Ok(number) => Some(number as u16),
        Err(_) => None,
    }
}

/// Reads which ONU-ID a unit got that was found.
fn found_in(answer: &[u8]) -> Option<u16>
    ensures { result ≡ spec.onu_by (parts_of answer.now) }
{
    match cut(answer) {
        (b"found", Some(rest)) => first_number(rest),
        _ => None,
    }
}

/// Tells whether a unit was ranged.
fn ranged_in(answer: &[u8]) -> bool
    ensures { result ≡ spec.ranged_by (parts_of answer.now) }
{
    let (word, _) = cut(answer);
    word == b"ranged".as_slice()
}

/// Reads what the text of an answer says.
#[tactic(auto, unfolding(crate::specs::Told::answered_in))]
pub(crate) fn answered_in(answer: &[u8]) -> Answered
    ensures { result ≡ spec.answered_in answer.now }
{
    Answered {
        refused: refused_in(answer),
        found: found_in(answer),
        ranged: ranged_in(answer),
        alarm: alarm_in(answer),
    }
}
