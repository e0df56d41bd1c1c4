//! The codes of the units' messages, written and read by their rows (G.984.3, clause 9). A proper message is read back
//! as it was; a code is read as one message at most.
ghost use Rattle.std.specs.Prelude.{◌≡◌, ◌≢◌, ◌↔◌, ◌≤◌, ◌+◌, ◌*◌, ◌/◌, ◌%◌, ℕ, List, [], ◌∷◌, ◌++◌, IfNone, IfOk, IfSome, IsErrOf, IsTrue, drop, length, take};
ghost use Rattle.gp_ploam.specs.declared.message.Up.{Up};
ghost use Rattle.gp_ploam.specs.Mask.{mask_value};
ghost use Rattle.gp_ploam.specs.Row.{Agrees, HasRightCheck, written};
ghost use Rattle.gp_ploam.specs.Up.{IsFittingUp, IsNamedUp, IsProperUp, MatchesNoNamedUp, ReadsUp, code_of_up, up_row};

use super::check::{Mask, checked, sealed};
use super::identifier::up as identifier;
use super::message::{PloamFault, Serial, Up};
use super::octets::{body_of, with_body};

/// Writes the first twelve octets of a message's code.
fn up_octets(message: &Up) -> [u8; 12]
    requires { IsFittingUp message.now }
    ensures { result ≡ written (up_row message.now) }
{
    match *message {
        Up::SerialNumber {
            onu,
            serial,
            random,
            flags,
        } => {
            let body = serial_number_body(serial, random, flags);
            with_body(onu, identifier::SERIAL_NUMBER_ONU, body)
        }
        Up::DyingGasp { onu } => with_body(onu, identifier::DYING_GASP, [0; 10]),
        Up::NoMessage { onu } => with_body(onu, identifier::NO_MESSAGE, [0; 10]),
        Up::Acknowledge { onu, id, copy } => {
            let mut body = [id, 0, 0, 0, 0, 0, 0, 0, 0, 0];
            body[1..].copy_from_slice(&copy);
            with_body(onu, identifier::ACKNOWLEDGE, body)
        }
        Up::Other { id, octet1, body } => with_body(octet1, id, body),
    }
}

/// Writes octets 3 to 12 of Serial_Number_ONU.
fn serial_number_body(serial: Serial, random: u16, flags: u8) -> [u8; 10]
    requires random { random ≤ 4095 }
    requires flags { flags ≤ 15 }
    ensures { result ≡ serial.0 ++ (random / 16) ∷ (random % 16 * 16 + flags) ∷ [] }
{
    let mut body = [0; 10];
    body[..8].copy_from_slice(&serial.0);
    body[8] = (random / 16) as u8;
    body[9] = (random % 16) as u8 * 16 + flags;
    body
}

/// Reads the named message that twelve octets stand for.
fn named_from(octets: &[u8; 12]) -> Option<Up>
    ensures named { IfSome result IsNamedUp }
    ensures fitting { IfSome result IsFittingUp }
    ensures row { IfSome result (λ m. Agrees (up_row m) octets.now) }
    ensures none { IfNone result (MatchesNoNamedUp octets.now) }
{
    let onu = octets[0];
    let message = match octets[1] {
        identifier::SERIAL_NUMBER_ONU => Up::SerialNumber {
            onu,
            serial: serial_in(octets),
            random: u16::from(octets[10]) * 16 + u16::from(octets[11] / 16),
            flags: octets[11] % 16,
        },
        identifier::DYING_GASP => Up::DyingGasp { onu },
        identifier::NO_MESSAGE => Up::NoMessage { onu },
        identifier::ACKNOWLEDGE => Up::Acknowledge {
            onu,
            id: octets[2],
            copy: copy_in(octets),
        },
        _ => return None,
    };
    Some(message)
}

/// Reads the serial number from octet 3 on.
fn serial_in(octets: &[u8; 12]) -> Serial
    ensures { result.0 ≡ take 8 (drop 2 octets.now) }
{
    let mut serial = [0; 8];
    serial.copy_from_slice(&octets[2..10]);
    Serial(serial)
}

/// Reads octets 4 to 12, what an Acknowledge copies.
fn copy_in(octets: &[u8; 12]) -> [u8; 9]
    ensures { result ≡ drop 3 octets.now }
{
    let mut copy = [0; 9];
    copy.copy_from_slice(&octets[3..]);
    copy
}

/// Reads the message that twelve octets stand for.
fn up_from(octets: &[u8; 12]) -> Up
    ensures proper { IsProperUp result }
    ensures row { Agrees (up_row result) octets.now }
{
    match named_from(octets) {
        Some(message) => message,
        None => Up::Other {
            id: octets[1],
            octet1: octets[0],
            body: body_of(octets),
        },
    }
}

/// Tells whether the message is the one that its own code stands for: `random` is at
/// most 4095, `flags` at most 15, and an `Other` has the octets of no named
/// message.
pub fn is_proper_up(message: &Up) -> bool
    ensures { IsTrue result ↔ IsProperUp message.now }
{
    stands_for_itself(*message)
}

/// Tells the same of a message by value.
fn stands_for_itself(message: Up) -> bool
    ensures { IsTrue result ↔ IsProperUp message }
{
    match message {
        Up::SerialNumber { random, flags, .. } => random <= 4095 && flags <= 15,
        Up::Other { id, octet1, body } => named_from(&with_body(octet1, id, body)).is_none(),
        _ => true,
    }
}

/// Writes the code of a message, with its check octet.
pub fn encode_up(message: &Up, mask: Mask) -> [u8; 13]
    requires { IsProperUp message.now }
    ensures { result ≡ code_of_up message.now (mask_value mask) }
{
    sealed(up_octets(message), mask)
}

/// Reads the message of a code. Octets that its row leaves free are not
/// looked at, and a code of no named row is an `Other`.
pub fn decode_up(code: &[u8], mask: Mask) -> Result<Up, PloamFault>
    ensures read { IfOk result (ReadsUp code.now (mask_value mask)) }
    ensures only { (m : Up) → ReadsUp code.now (mask_value mask) m → result ≡ Ok m }
    ensures length { IsErrOf result PloamFault.Length ↔ (length code.now ≢ 13) }
    ensures crc { IsErrOf result PloamFault.Crc
        ↔ ((length code.now ≡ 13) × ¬ HasRightCheck code.now (mask_value mask)) }
{
    Ok(up_from(checked(code, mask)?))
}

/// States that what is encoded is read back as it was.
pub fn up_round_trip()
    ensures { (m : Up) (mask : ℕ) → IsProperUp m → ReadsUp (code_of_up m mask) mask m }
{}

/// States that a code is read as one message at most.
pub fn up_read_once()
    ensures { (code : List ℕ) (mask : ℕ) (m n : Up) →
        ReadsUp code mask m → ReadsUp code mask n → m ≡ n }
{}
