//! What a unit says, in the words of a line: the burst that they stand for.
ghost use Rattle.std.specs.Prelude.{◌≡◌, ◌≤◌, IfOk, MatchResult, Ok, Err, Some, length, codes};
ghost use Rattle.std.specs.Option.{option_copied};
ghost use Rattle.gp_ploam.specs.Up.{IsProperUp};
ghost use Rattle.gp_lines.specs.Parts.{parts_of, parts_behind};
ghost use Rattle.gp_lines.specs.Reading as reading;
ghost use Rattle.gp_lines.specs.Say as words;
ghost use Rattle.gp_lines.specs.SayReading as spec;

use crate::fault::LineFault;
use crate::fields::{number_in, serial_in};
use crate::parts::{cut, is_word};
use gp_machine::Event;
use gp_ploam::{BROADCAST_ONU, Mask, Up, encode_up};

/// What a unit says that its ONU-ID says whole.
#[derive(Clone, Copy)]
pub(crate) enum OnuSaying {
    /// It is losing its power.
    Gasp,
    /// It has nothing to say.
    Silence,
}

impl OnuSaying {
    /// Gives the message of the unit with this ONU-ID.
    fn message(self, onu: u8) -> Up
        ensures value { result ≡ words.onu_message self onu }
        ensures proper { IsProperUp result }
    {
        match self {
            OnuSaying::Gasp => Up::DyingGasp { onu },
            OnuSaying::Silence => Up::NoMessage { onu },
        }
    }
}

/// Makes the burst of a message, encoded with the mask, that arrives with this round-trip delay.
fn said(mask: Mask, at: u32, message: &Up) -> Event
    requires { IsProperUp message.now }
    ensures { result ≡ words.said mask at message.now }
{
    let bytes = encode_up(message, mask);
    Event::Burst { at, bytes }
}

/// Takes the text of a field that has to be there, and what stands behind it.
fn named<'a>(
    word: &str,
    behind: Option<&'a [u8]>,
) -> Result<(&'a [u8], Option<&'a [u8]>), LineFault>
    ensures { MatchResult result
        (λ named. spec.named_of word.now (parts_behind (option_copied behind.entry))
        ≡ Ok (named.0.now, parts_behind (option_copied named.1)))
        (λ fault. spec.named_of word.now (parts_behind (option_copied behind.entry)) ≡ Err fault) }
{
    let Some(text) = behind else {
        return Err(LineFault::Word);
    };
    let (first, Some(rest)) = cut(text) else {
        return Err(LineFault::Word);
    };
    if is_word(first, word) {
        Ok(cut(rest))
    } else {
        Err(LineFault::Word)
    }
}

/// Takes the text of an ONU-ID, if it is there, and what stands behind it.
#[tactic(auto, unfolding(crate::specs::SayReading::onu_of))]
fn onu_if(behind: Option<&[u8]>) -> (Option<&[u8]>, Option<&[u8]>)
    ensures { spec.onu_of (parts_behind (option_copied behind.entry))
        ≡ (option_copied result.0, parts_behind (option_copied result.1)) }
{
    match named("onu", behind) {
        Ok((onu, rest)) => (Some(onu), rest),
        Err(_) => (None, behind),
    }
}

/// Gives the text of a field, behind which nothing may stand.
fn last<'a>(text: &'a [u8], behind: Option<&[u8]>) -> Result<Option<&'a [u8]>, LineFault>
    ensures { MatchResult result
        (λ last. spec.last_of (text.now, parts_behind (option_copied behind.entry)) ≡ Ok (option_copied last))
        (λ fault. spec.last_of (text.now, parts_behind (option_copied behind.entry)) ≡ Err fault) }
{
    match behind {
        Some(_) => Err(LineFault::Word),
        None => Ok(Some(text)),
    }
}

/// Takes the text of a delay, behind which nothing stands.
#[tactic(auto, unfolding(crate::specs::SayReading::named_at))]
fn named_at(text: &[u8]) -> Result<Option<&[u8]>, LineFault>
    ensures { MatchResult result (λ at. spec.named_at (parts_of text.now) ≡ Ok (option_copied at))
        (λ fault. spec.named_at (parts_of text.now) ≡ Err fault) }
{
    let (at, behind) = named("at", Some(text))?;
    last(at, behind)
}

/// Takes it, if it is there.
fn at_in(behind: Option<&[u8]>) -> Result<Option<&[u8]>, LineFault>
    ensures { MatchResult result
        (λ at. spec.at_of (parts_behind (option_copied behind.entry)) ≡ Ok (option_copied at))
        (λ fault. spec.at_of (parts_behind (option_copied behind.entry)) ≡ Err fault) }
{
    match behind {
        Some(text) => named_at(text),
        None => Ok(None),
    }
}

/// Reads the number of a field, or gives the one that is meant where the field is left out.
fn number_or(meant: u64, high: u64, digits: Option<&[u8]>) -> Result<u64, LineFault>
    requires { meant ≤ high }
    ensures value { result ≡ spec.number_or meant high (option_copied digits.entry) }
    ensures within { IfOk result (λ number. number ≤ high) }
{
    match digits {
        Some(digits) => number_in(0, high, digits),
        None => Ok(meant),
    }
}

/// Reads a delay, which is 0 where it is left out.
fn delay_or(digits: Option<&[u8]>) -> Result<u32, LineFault>
    ensures { result ≡ spec.number_or 0 4294967295 (option_copied digits.entry) }
{
    let at = number_or(0, u64::from(u32::MAX), digits)?;
    Ok(at as u32)
}

/// Reads an octet.
fn octet_in(digits: &[u8]) -> Result<u8, LineFault>
    ensures { result ≡ reading.number_in 0 255 digits.now }
{
    let octet = number_in(0, u64::from(u8::MAX), digits)?;
    Ok(octet as u8)
}

/// Reads the ONU-ID of a unit that says its serial number: that it has none, where it is left out.
fn onu_or(digits: Option<&[u8]>) -> Result<u8, LineFault>
    ensures { result ≡ spec.number_or 255 255 (option_copied digits.entry) }
{
    let onu = number_or(u64::from(BROADCAST_ONU), u64::from(u8::MAX), digits)?;
    Ok(onu as u8)
}

/// Reads what a unit says that tells its serial number.
#[tactic(auto, unfolding(crate::specs::SayReading::serial_fields, crate::specs::SayReading::serial_said))]
fn say_serial(mask: Mask, text: &[u8]) -> Result<Event, LineFault>
    ensures { result ≡ spec.form_said mask (spec.serial_form (parts_of text.now)) }
{
    let (serial, behind) = cut(text);
    let (onu, behind) = onu_if(behind);
    let at = at_in(behind)?;
    let serial = serial_in(serial)?;
    let onu = onu_or(onu)?;
    let at = delay_or(at)?;
    let message = Up::SerialNumber {
        onu,
        serial,
        random: 0,
        flags: 0,
    };
    Ok(said(mask, at, &message))
}

/// Reads what its ONU-ID says whole.
#[tactic(auto, unfolding(crate::specs::SayReading::onu_form, crate::specs::SayReading::onu_said))]
fn say_onu(mask: Mask, says: OnuSaying, behind: Option<&[u8]>) -> Result<Event, LineFault>
    ensures { result ≡ spec.form_said mask (spec.onu_form says (parts_behind (option_copied behind.entry))) }
{
    let (onu, behind) = named("onu", behind)?;
    let at = at_in(behind)?;
    let onu = octet_in(onu)?;
    let at = delay_or(at)?;
    Ok(said(mask, at, &says.message(onu)))
}

/// Reads an acknowledgement, of which the identifier of the message alone is told.
#[tactic(auto, unfolding(crate::specs::SayReading::ack_form, crate::specs::SayReading::ack_said))]
fn say_ack(mask: Mask, behind: Option<&[u8]>) -> Result<Event, LineFault>
    ensures { result ≡ spec.form_said mask (spec.ack_form (parts_behind (option_copied behind.entry))) }
{
    let (onu, behind) = named("onu", behind)?;
    let (id, behind) = named("id", behind)?;
    let at = at_in(behind)?;
    let onu = octet_in(onu)?;
    let id = octet_in(id)?;
    let at = delay_or(at)?;
    let message = Up::Acknowledge {
        onu,
        id,
        copy: [0; 9],
    };
    Ok(said(mask, at, &message))
}

/// Reads what a unit says, behind the word `say`.
#[tactic(auto, unfolding(crate::specs::SayReading::worded_form))]
pub(crate) fn say_event(mask: Mask, text: &[u8]) -> Result<Event, LineFault>
    ensures { result ≡ spec.say_event mask (parts_of text.now) }
{
    let (word, behind) = cut(text);
    match (word, behind) {
        (b"serial", Some(text)) => say_serial(mask, text),
        (b"gasp", _) => say_onu(mask, OnuSaying::Gasp, behind),
        (b"none", _) => say_onu(mask, OnuSaying::Silence, behind),
        (b"ack", _) => say_ack(mask, behind),
        _ => Err(LineFault::Word),
    }
}
