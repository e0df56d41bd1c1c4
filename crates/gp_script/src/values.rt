//! Values in their ranges: numbers, places, delays, codes, serial numbers.
ghost use Rattle.std.specs.Prelude.{◌≡◌, ◌<◌, ◌≤◌, IfOk, length};
ghost use Rattle.std.specs.Range.{range_inclusive_start as low_of, range_inclusive_end as high_of};
ghost use Rattle.toml.specs.View.{items_view};
ghost use Rattle.gp_script.specs.Fault.{Sees};
ghost use Rattle.gp_script.specs.Mistake.{at_key};
ghost use Rattle.gp_script.specs.Values as spec;
ghost use Rattle.gp_script.specs.declared.place.Spot.TheVariants as spots;

use crate::place::{Counted, Key, Wanted};
use crate::walk::{TableFault, wanted_at};
use gp_ploam::{Mask, Serial};
use gp_serial::parse_serial;
use hex::FromHex;
use std::ops::RangeInclusive;
use toml::Value;

/// Reads a number within its range. Each of these functions is given the key at which the value stands.
pub(crate) fn in_range<'a>(
    key: Key,
    range: RangeInclusive<u32>,
    number: i64,
) -> Result<u32, TableFault<'a>>
    ensures value { Sees (λ n. n) result (at_key key (spec.in_range (low_of range) (high_of range) number)) }
    ensures within { IfOk result (λ n. (low_of range ≤ n) × (n ≤ high_of range)) }
{
    let (low, high) = range.into_inner();
    match u32::try_from(number) {
        Ok(number) if low <= number && number <= high => Ok(number),
        _ => Err(out_of_range(key, u64::from(low), u64::from(high))),
    }
}

/// Tells that a number is wanted from one to another.
fn out_of_range<'a>(key: Key, low: u64, high: u64) -> TableFault<'a>
    ensures { result ≡ TableFault.Unmet (spots.Key key) (Wanted.Range low high) }
{
    wanted_at(key, Wanted::Range { low, high })
}

/// Reads a number within its range, or the default where it is left out.
pub(crate) fn in_range_or<'a>(
    key: Key,
    default: u32,
    range: RangeInclusive<u32>,
    number: Option<i64>,
) -> Result<u32, TableFault<'a>>
    requires from { low_of range ≤ default }
    requires to { default ≤ high_of range }
    ensures value { Sees (λ n. n) result (at_key key (spec.in_range_or default (low_of range) (high_of range) number)) }
    ensures within { IfOk result (λ n. (low_of range ≤ n) × (n ≤ high_of range)) }
{
    match number {
        None => Ok(default),
        Some(number) => in_range(key, range, number),
    }
}

/// Reads the place of one of so many ports or units.
pub(crate) fn place_in<'a>(key: Key, count: u16, number: i64) -> Result<u16, TableFault<'a>>
    ensures value { Sees (λ n. n) result (at_key key (spec.place_in count number)) }
    ensures within { IfOk result (λ place. place < count) }
{
    match u16::try_from(number) {
        Ok(place) if place < count => Ok(place),
        _ => Err(out_of_range(key, 0, u64::from(count.saturating_sub(1)))),
    }
}

/// Reads the place of one of so many ports.
pub(crate) fn port_in<'a>(ports: u8, number: i64) -> Result<u8, TableFault<'a>>
    ensures value { Sees (λ n. n) result (at_key Key.Port (spec.place_in ports number)) }
    ensures within { IfOk result (λ port. port < ports) }
{
    let place = place_in(Key::Port, u16::from(ports), number)?;
    Ok(place as u8)
}

/// Reads a number from 0 on.
pub(crate) fn number_from_0<'a>(key: Key, number: i64) -> Result<u64, TableFault<'a>>
    ensures { Sees (λ n. n) result (at_key key (spec.number_from_0 number)) }
{
    match u64::try_from(number) {
        Ok(number) => Ok(number),
        Err(_) => Err(out_of_range(key, 0, 9_223_372_036_854_775_807)),
    }
}

/// Reads a round-trip delay in bit times.
pub(crate) fn delay_in<'a>(number: i64) -> Result<u32, TableFault<'a>>
    ensures { Sees (λ n. n) result (at_key Key.At (spec.delay_in number)) }
{
    in_range(Key::At, 0..=u32::MAX, number)
}

/// Reads a number of one octet.
pub(crate) fn octet_in<'a>(key: Key, number: i64) -> Result<u8, TableFault<'a>>
    ensures { Sees (λ n. n) result (at_key key (spec.octet_in number)) }
{
    let octet = in_range(key, 0..=u32::from(u8::MAX), number)?;
    Ok(octet as u8)
}

/// Counts the items, of which there have to be as many as a range allows.
#[tactic(auto, using(crate::proofs::ItemsLemmas::item_count_view))]
pub(crate) fn count_in<'a>(
    key: Key,
    counted: Counted,
    range: RangeInclusive<u32>,
    items: &[Value],
) -> Result<u32, TableFault<'a>>
    ensures value { Sees (λ n. n) result
        (at_key key (spec.count_in counted (low_of range) (high_of range) (items_view items.now))) }
    ensures count { IfOk result (λ n. n ≡ length items.now) }
    ensures within { IfOk result (λ n. (low_of range ≤ n) × (n ≤ high_of range)) }
{
    let (low, high) = range.into_inner();
    let count = items.len();
    if low as usize <= count && count <= high as usize {
        Ok(count as u32)
    } else {
        let (low, high) = (u64::from(low), u64::from(high));
        Err(wanted_at(key, Wanted::Count { counted, low, high }))
    }
}

/// Gives the mask of a number, 0 or 85.
pub(crate) fn mask_of<'a>(number: Option<i64>) -> Result<Mask, TableFault<'a>>
    ensures { Sees (λ m. m) result (at_key Key.Mask (spec.mask_of number)) }
{
    match number {
        None | Some(0) => Ok(Mask::Plain),
        Some(85) => Ok(Mask::Coset),
        Some(_) => Err(wanted_at(Key::Mask, Wanted::MaskNumber)),
    }
}

/// Reads the serial number that a text spells.
pub(crate) fn serial_in_text(text: &str) -> Result<Serial, Wanted>
    ensures { result ≡ spec.serial_of text.now }
{
    parse_serial(text).map_err(|_| Wanted::SerialText)
}

/// Reads the serial number that a text at the key `serial` spells.
pub(crate) fn serial_of<'a>(text: &str) -> Result<Serial, TableFault<'a>>
    ensures { Sees (λ s. s) result (at_key Key.Serial (spec.serial_of text.now)) }
{
    serial_in_text(text).map_err(|want| wanted_at(Key::Serial, want))
}

/// Reads the octets that twice as many hex digits spell.
fn octets_in_text<const N: usize>(text: &str) -> Result<[u8; N], Wanted>
    requires { N < 32768 }
    ensures { result ≡ spec.octets_of N text.now }
{
    let want = Wanted::Digits(2 * N);
    <[u8; N] as FromHex>::from_hex(text).map_err(|_| want)
}

/// Reads the octets that twice as many hex digits at a key spell.
pub(crate) fn octets_of<'a, const N: usize>(key: Key, text: &str) -> Result<[u8; N], TableFault<'a>>
    requires { N < 32768 }
    ensures { Sees (λ octets. octets) result (at_key key (spec.octets_of N text.now)) }
{
    octets_in_text(text).map_err(|want| wanted_at(key, want))
}
