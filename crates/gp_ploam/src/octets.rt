//! The parts of codes that several messages share: octets 3 to 12 behind the identifier, and a serial number from octet
//! 4 on.
ghost use Rattle.std.specs.Prelude.{◌≡◌, ◌∷◌, ◌++◌, [], drop, length, map, take};
ghost use Rattle.gp_ploam.specs.OnuIds.{broadcast_onu};
ghost use Rattle.gp_ploam.specs.Row.{written};
ghost use Rattle.gp_ploam.specs.Row.Cell.{Free, Is};

use super::message::{BROADCAST_ONU, Serial};

/// Writes a row that is spelled out: octet 1, the identifier, and ten octets.
#[inline]
pub fn with_body(octet1: u8, id: u8, body: [u8; 10]) -> [u8; 12]
    ensures { result ≡ written (Is octet1 ∷ Is id ∷ map Is body) }
{
    let mut octets = [octet1, id, 0, 0, 0, 0, 0, 0, 0, 0, 0, 0];
    octets[2..].copy_from_slice(&body);
    octets
}

/// Writes a row for every unit, with a serial number from octet 4 on.
#[inline]
pub fn with_serial(id: u8, octet3: u8, serial: Serial) -> [u8; 12]
    ensures { result ≡ written (Is broadcast_onu ∷ Is id ∷ Is octet3 ∷ map Is serial.0 ++ Free 0 ∷ []) }
{
    let mut octets = [BROADCAST_ONU, id, octet3, 0, 0, 0, 0, 0, 0, 0, 0, 0];
    octets[3..11].copy_from_slice(&serial.0);
    octets
}

/// Gives octets 3 to 12.
#[inline]
pub fn body_of(octets: &[u8; 12]) -> [u8; 10]
    ensures { result ≡ drop 2 octets.now }
{
    let mut body = [0; 10];
    body.copy_from_slice(&octets[2..]);
    body
}

/// Gives the serial number from octet 4 on.
#[inline]
pub fn serial_in(octets: &[u8; 12]) -> Serial
    ensures { result.0 ≡ take 8 (drop 3 octets.now) }
{
    let mut serial = [0; 8];
    serial.copy_from_slice(&octets[3..11]);
    Serial(serial)
}
