//! The words of a message, behind what a buffer holds.
ghost use Rattle.std.specs.Prelude.{◌≡◌, ◌≢◌, ◌+◌, ◌<◌, ◌≤◌, ◌++◌, ℕ, List, Err, IfErr, OnOk, codes, decimal, length, true, false, vec_capacity, vec_len};
ghost use Rattle.hex.specs.Hex.{encode_lower};
ghost use Rattle.gp_serial.specs.Spelling.{text_of_serial};
ghost use Rattle.gp_decode.specs.Appending.{Appends};
ghost use Rattle.gp_decode.specs.Line.{HasWords, HasWordsIn, LacksWords};
ghost use Rattle.gp_decode.specs.Message.{down_named, down_text, down_words, keep_text, named_text, other_text, up_named, up_text, up_words};
ghost use Rattle.gp_decode.specs.Names as standard;

use super::fault::DecodeFault;
use super::names::other_name;
use gp_ploam::{Down, Mask, Serial, Up, decode_down, decode_up};
use gp_serial::push_serial_text;
use itoa::Buffer;
use std::alloc::AllocError;

/// Appends a number.
fn push_number(out: &mut Vec<u8>, number: u32) -> Result<(), AllocError>
    ensures { Appends (decimal number) out.old out.new result }
{
    let mut digits = Buffer::new();
    out.extend_from_slice(digits.format(number).as_bytes())
}

/// Appends a word and a number.
fn push_numbered(out: &mut Vec<u8>, word: &str, number: u32) -> Result<(), AllocError>
    ensures { Appends (word.now ++ decimal number) out.old out.new result }
{
    out.extend_from_slice(word.as_bytes())?;
    push_number(out, number)
}

/// Appends a name and a number.
fn push_named_number(out: &mut Vec<u8>, name: &str, number: u32) -> Result<(), AllocError>
    ensures { Appends (name.now ++ codes " " ++ decimal number) out.old out.new result }
{
    out.extend_from_slice(name.as_bytes())?;
    push_numbered(out, " ", number)
}

/// Appends a word and two numbers.
fn push_numbers(out: &mut Vec<u8>, word: &str, first: u32, second: u32) -> Result<(), AllocError>
    ensures { Appends (word.now ++ decimal first ++ codes " " ++ decimal second) out.old out.new result }
{
    push_numbered(out, word, first)?;
    push_numbered(out, " ", second)
}

/// Appends a word and ten octets, in lower-case hexadecimal digits.
fn push_octets(out: &mut Vec<u8>, word: &str, octets: &[u8; 10]) -> Result<(), AllocError>
    ensures { Appends (word.now ++ encode_lower octets.now) out.old out.new result }
{
    let mut digits = [0u8; 20];
    hex::encode_to_slice(octets.as_slice(), &mut digits).unwrap();
    out.extend_from_slice(word.as_bytes())?;
    out.extend_from_slice(&digits)
}

/// Appends a word and a serial number.
fn push_serial(out: &mut Vec<u8>, word: &str, serial: &Serial) -> Result<(), AllocError>
    ensures { Appends (word.now ++ text_of_serial serial.now) out.old out.new result }
{
    out.extend_from_slice(word.as_bytes())?;
    push_serial_text(out, serial)
}

/// Appends a word, an ONU-ID and a serial number.
fn push_unit(out: &mut Vec<u8>, word: &str, onu: u8, serial: &Serial) -> Result<(), AllocError>
    ensures { Appends (word.now ++ decimal onu ++ codes " " ++ text_of_serial serial.now) out.old out.new result }
{
    push_numbered(out, word, u32::from(onu))?;
    push_serial(out, " ", serial)
}

/// Appends a message that this profile has no name for.
fn push_other(out: &mut Vec<u8>, id: u8, octet1: u8, body: &[u8; 10]) -> Result<(), AllocError>
    ensures { Appends (other_text id octet1 body.now) out.old out.new result }
{
    push_numbers(out, "Other ", u32::from(id), u32::from(octet1))?;
    push_octets(out, " ", body)
}

/// Appends a name, its octet 1, and octets 3 to 12.
fn push_name(out: &mut Vec<u8>, name: &str, octet1: u8, body: &[u8; 10]) -> Result<(), AllocError>
    ensures { Appends (name.now ++ codes " " ++ decimal octet1 ++ codes " " ++ encode_lower body.now)
        out.old out.new result }
{
    push_named_number(out, name, u32::from(octet1))?;
    push_octets(out, " ", body)
}

/// Appends a message that this profile has no name for, by the name that the standard has for it, if it has one.
fn push_named(
    out: &mut Vec<u8>,
    upstream: bool,
    id: u8,
    octet1: u8,
    body: &[u8; 10],
) -> Result<(), AllocError>
    ensures { Appends (named_text (standard.other_name upstream id) id octet1 body.now) out.old out.new result }
{
    match other_name(upstream, id) {
        Some(name) => push_name(out, name, octet1, body),
        None => push_other(out, id, octet1, body),
    }
}

/// Gives the word for what becomes of an Alloc-ID, behind a space.
fn keep_word(keep: bool) -> &'static str
    ensures { result.now ≡ codes " " ++ keep_text keep }
{
    if keep { " keep" } else { " back" }
}

/// Appends a word, two numbers, and the word for what becomes of an Alloc-ID.
fn push_alloc(
    out: &mut Vec<u8>,
    word: &str,
    first: u32,
    second: u32,
    keep: bool,
) -> Result<(), AllocError>
    ensures { Appends (word.now ++ decimal first ++ codes " " ++ decimal second ++ codes " " ++ keep_text keep)
        out.old out.new result }
{
    push_numbers(out, word, first, second)?;
    out.extend_from_slice(keep_word(keep).as_bytes())
}

/// Appends a message of the line terminal: its name and its fields.
pub(crate) fn push_down(out: &mut Vec<u8>, message: &Down) -> Result<(), AllocError>
    ensures { Appends (down_text message.now) out.old out.new result }
{
    match message {
        Down::UpstreamOverhead { burst } => push_octets(out, "Upstream_Overhead ", burst),
        Down::AssignOnu { onu, serial } => push_unit(out, "Assign_ONU-ID ", *onu, serial),
        Down::RangingTime { onu, eqd } => push_numbers(out, "Ranging_Time ", u32::from(*onu), *eqd),
        Down::Deactivate { onu } => push_numbered(out, "Deactivate_ONU-ID ", u32::from(*onu)),
        Down::DisableSerial { serial } => push_serial(out, "Disable_Serial_Number ", serial),
        Down::EnableSerial { serial } => push_serial(out, "Enable_Serial_Number ", serial),
        Down::EnableAll => out.extend_from_slice(b"Enable_All"),
        Down::AssignAlloc { onu, alloc, keep } => {
            let onu = u32::from(*onu);
            let alloc = u32::from(*alloc);
            push_alloc(out, "Assign_Alloc-ID ", onu, alloc, *keep)
        }
        Down::NoMessage => out.extend_from_slice(b"No_message"),
        Down::Popup { onu } => push_numbered(out, "POPUP ", u32::from(*onu)),
        Down::Other { id, octet1, body } => push_other(out, *id, *octet1, body),
    }
}

/// Appends a word, an ONU-ID, a serial number and two numbers.
fn push_unit_numbers(
    out: &mut Vec<u8>,
    word: &str,
    onu: u8,
    serial: &Serial,
    first: u32,
    second: u32,
) -> Result<(), AllocError>
    ensures { Appends (word.now ++ decimal onu ++ codes " " ++ text_of_serial serial.now ++ codes " " ++ decimal first
        ++ codes " " ++ decimal second) out.old out.new result }
{
    push_unit(out, word, onu, serial)?;
    push_numbers(out, " ", first, second)
}

/// Appends a message of a unit: its name and its fields; of an Acknowledge the copy of the message is left out.
pub(crate) fn push_up(out: &mut Vec<u8>, message: &Up) -> Result<(), AllocError>
    ensures { Appends (up_text message.now) out.old out.new result }
{
    match message {
        Up::SerialNumber {
            onu,
            serial,
            random,
            flags,
        } => {
            let random = u32::from(*random);
            let flags = u32::from(*flags);
            push_unit_numbers(out, "Serial_Number_ONU ", *onu, serial, random, flags)
        }
        Up::DyingGasp { onu } => push_numbered(out, "Dying_Gasp ", u32::from(*onu)),
        Up::NoMessage { onu } => push_numbered(out, "No_message ", u32::from(*onu)),
        Up::Acknowledge { onu, id, .. } => {
            push_numbers(out, "Acknowledge ", u32::from(*onu), u32::from(*id))
        }
        Up::Other { id, octet1, body } => push_other(out, *id, *octet1, body),
    }
}

/// Appends a message of the line terminal, with the standard's name of one that this profile has no name for.
fn push_named_down(out: &mut Vec<u8>, message: &Down) -> Result<(), AllocError>
    ensures { Appends (down_named message.now) out.old out.new result }
{
    match message {
        Down::Other { id, octet1, body } => push_named(out, false, *id, *octet1, body),
        _ => push_down(out, message),
    }
}

/// The same with such names or without.
fn push_down_in(out: &mut Vec<u8>, message: &Down, names: bool) -> Result<(), AllocError>
    ensures { Appends (down_words names message.now) out.old out.new result }
{
    if names {
        push_named_down(out, message)
    } else {
        push_down(out, message)
    }
}

/// Appends a message of a unit, with the standard's name of one that this profile has no name for.
fn push_named_up(out: &mut Vec<u8>, message: &Up) -> Result<(), AllocError>
    ensures { Appends (up_named message.now) out.old out.new result }
{
    match message {
        Up::Other { id, octet1, body } => push_named(out, true, *id, *octet1, body),
        _ => push_up(out, message),
    }
}

/// The same with such names or without.
fn push_up_in(out: &mut Vec<u8>, message: &Up, names: bool) -> Result<(), AllocError>
    ensures { Appends (up_words names message.now) out.old out.new result }
{
    if names {
        push_named_up(out, message)
    } else {
        push_up(out, message)
    }
}

/// Appends the words of the message that a code is read as, upstream or downstream: its name and its fields. `Crc` is
/// answered where the check octet is wrong under the mask.
///
/// Memory is taken only where the buffer has no room for the words. Where it is refused, what the buffer held stands
/// there, and behind it maybe the first part of the words. The room never gets less.
pub fn push_words_of(
    out: &mut Vec<u8>,
    code: &[u8; 13],
    upstream: bool,
    mask: Mask,
) -> Result<(), DecodeFault>
    ensures words { OnOk result ((words : List ℕ) × HasWords upstream mask code.now words
        × (out.new.items ≡ out.old.items ++ words)) }
    ensures fault { IfErr result (LacksWords upstream mask code.now) }
    ensures kept { IfErr result (λ fault. fault ≢ DecodeFault.OutOfMemory → out.new.items ≡ out.old.items) }
    ensures part { result ≡ Err DecodeFault.OutOfMemory → (part rest : List ℕ)
        × HasWords upstream mask code.now (part ++ rest)
        × (out.new.items ≡ out.old.items ++ part) }
    ensures room { result ≡ Err DecodeFault.OutOfMemory → (words : List ℕ) × HasWords upstream mask code.now words
        × (vec_capacity out.old < vec_len out.old + length words) }
    ensures capacity { vec_capacity out.old ≤ vec_capacity out.new }
{
    push_words_in(out, code, upstream, mask, false)
}

/// Appends them so, and where `names` with the name that G.984.3 has for a message that this profile has no row for, in
/// the place of `Other` and its identifier: `Request_Password 255 00000000000000000000`. One that has no such name is
/// told as `Other` then too.
///
/// What of memory and of a wrong check octet is the same.
pub(crate) fn push_words_in(
    out: &mut Vec<u8>,
    code: &[u8; 13],
    upstream: bool,
    mask: Mask,
    names: bool,
) -> Result<(), DecodeFault>
    ensures words { OnOk result ((words : List ℕ) × HasWordsIn names upstream mask code.now words
        × (out.new.items ≡ out.old.items ++ words)) }
    ensures fault { IfErr result (LacksWords upstream mask code.now) }
    ensures kept { IfErr result (λ fault. fault ≢ DecodeFault.OutOfMemory → out.new.items ≡ out.old.items) }
    ensures part { result ≡ Err DecodeFault.OutOfMemory → (part rest : List ℕ)
        × HasWordsIn names upstream mask code.now (part ++ rest) × (out.new.items ≡ out.old.items ++ part) }
    ensures room { result ≡ Err DecodeFault.OutOfMemory → (words : List ℕ)
        × HasWordsIn names upstream mask code.now words
        × (vec_capacity out.old < vec_len out.old + length words) }
    ensures capacity { vec_capacity out.old ≤ vec_capacity out.new }
{
    if upstream {
        push_up_words(out, code, mask, names)
    } else {
        push_down_words(out, code, mask, names)
    }
}

/// Appends the words of the upstream message that a code is read as.
fn push_up_words(
    out: &mut Vec<u8>,
    code: &[u8; 13],
    mask: Mask,
    names: bool,
) -> Result<(), DecodeFault>
    ensures words { OnOk result ((words : List ℕ) × HasWordsIn names true mask code.now words
        × (out.new.items ≡ out.old.items ++ words)) }
    ensures fault { IfErr result (LacksWords true mask code.now) }
    ensures kept { IfErr result (λ fault. fault ≢ DecodeFault.OutOfMemory → out.new.items ≡ out.old.items) }
    ensures part { result ≡ Err DecodeFault.OutOfMemory → (part rest : List ℕ)
        × HasWordsIn names true mask code.now (part ++ rest) × (out.new.items ≡ out.old.items ++ part) }
    ensures room { result ≡ Err DecodeFault.OutOfMemory → (words : List ℕ) × HasWordsIn names true mask code.now words
        × (vec_capacity out.old < vec_len out.old + length words) }
    ensures capacity { vec_capacity out.old ≤ vec_capacity out.new }
{
    let message = decode_up(code, mask)?;
    push_up_in(out, &message, names)?;
    Ok(())
}

/// Appends the words of the downstream message that a code is read as.
fn push_down_words(
    out: &mut Vec<u8>,
    code: &[u8; 13],
    mask: Mask,
    names: bool,
) -> Result<(), DecodeFault>
    ensures words { OnOk result ((words : List ℕ) × HasWordsIn names false mask code.now words
        × (out.new.items ≡ out.old.items ++ words)) }
    ensures fault { IfErr result (LacksWords false mask code.now) }
    ensures kept { IfErr result (λ fault. fault ≢ DecodeFault.OutOfMemory → out.new.items ≡ out.old.items) }
    ensures part { result ≡ Err DecodeFault.OutOfMemory → (part rest : List ℕ)
        × HasWordsIn names false mask code.now (part ++ rest) × (out.new.items ≡ out.old.items ++ part) }
    ensures room { result ≡ Err DecodeFault.OutOfMemory → (words : List ℕ) × HasWordsIn names false mask code.now words
        × (vec_capacity out.old < vec_len out.old + length words) }
    ensures capacity { vec_capacity out.old ≤ vec_capacity out.new }
{
    let message = decode_down(code, mask)?;
    push_down_in(out, &message, names)?;
    Ok(())
}
