//! A time in a line, in frames or with a unit, read as whole nanoseconds: what is finer is cut off.
ghost use Rattle.std.specs.Prelude.{◌≡◌, ◌≤◌, ◌^◌, ◌+◌, ◌*◌, ◌<◌, length, position};
ghost use Rattle.std.specs.Char.{is_ascii_digit};
ghost use Rattle.std.specs.List.{list_all};
ghost use Rattle.std.specs.Option.{SomeIff};
ghost use Rattle.gp_log.specs.Time as spec;

use crate::fault::LogFault;
use crate::fields::{cut, is_word, number_in};

/// How many nanoseconds a frame has: it lasts 125 microseconds (G.984.3, clause 8).
pub const FRAME_NANOSECONDS: u64 = 125_000;

/// The greatest number of frames that is a time: 64 bits hold its nanoseconds.
pub const LAST_FRAME: u64 = u64::MAX / FRAME_NANOSECONDS;

/// What a time is counted in.
#[derive(Clone, Copy)]
pub(crate) enum TimeUnit {
    Frames,
    Nanoseconds,
    Microseconds,
    Milliseconds,
    Seconds,
}

/// Tells whether a text is `us`, or the same with the sign U+00B5 or U+03BC.
fn is_microseconds(text: &[u8]) -> bool
    ensures { result ≡ spec.is_microseconds text.now }
{
    matches!(text, b"us" | b"\xc2\xb5s" | b"\xce\xbcs")
}

impl TimeUnit {
    /// Tells which unit a text spells. Frames have no word.
    #[tactic(auto, unfolding(crate::specs::Time::unit_of))]
    fn from_text(text: &[u8]) -> Option<TimeUnit>
        ensures { result ≡ spec.unit_of text.now }
    {
        if is_word(text, "") {
            Some(TimeUnit::Frames)
        } else if is_word(text, "ns") {
            Some(TimeUnit::Nanoseconds)
        } else if is_microseconds(text) {
            Some(TimeUnit::Microseconds)
        } else if is_word(text, "ms") {
            Some(TimeUnit::Milliseconds)
        } else if is_word(text, "s") {
            Some(TimeUnit::Seconds)
        } else {
            None
        }
    }

    /// Gives how many nanoseconds this unit has.
    fn nanoseconds(self) -> u64
        ensures { result ≡ spec.nanoseconds_of self }
    {
        match self {
            TimeUnit::Frames => FRAME_NANOSECONDS,
            TimeUnit::Nanoseconds => 1,
            TimeUnit::Microseconds => 1_000,
            TimeUnit::Milliseconds => 1_000_000,
            TimeUnit::Seconds => 1_000_000_000,
        }
    }

    /// Gives how many decimals behind the point count.
    fn decimals(self) -> usize
        ensures value { result ≡ spec.decimals_of self }
        ensures within { result ≤ 9 }
    {
        match self {
            TimeUnit::Frames | TimeUnit::Nanoseconds => 0,
            TimeUnit::Microseconds => 3,
            TimeUnit::Milliseconds => 6,
            TimeUnit::Seconds => 9,
        }
    }
}

/// Tells whether an octet is one of a unit's word.
fn is_of_unit(octet: u8) -> bool
    ensures { result ≡ spec.is_of_unit octet }
{
    !(octet.is_ascii_digit() || octet == b'.')
}

/// Gives the place of the first octet of a unit.
fn first_of_unit(text: &[u8]) -> Option<usize>
    ensures { result ≡ position spec.is_of_unit text.now }
{
    text.iter().position(|octet| is_of_unit(*octet))
}

/// Gives the place of the first point.
fn first_point(text: &[u8]) -> Option<usize>
    ensures { result ≡ position spec.is_point text.now }
{
    text.iter().position(|octet| *octet == b'.')
}

/// Gives a power of ten.
fn power_of_ten(exponent: usize) -> u64
    requires { exponent ≤ 9 }
    ensures value { result ≡ 10 ^ exponent }
    ensures within { result ≤ 1000000000 }
{
    10u64.pow(exponent as u32)
}

/// Reads the decimals behind a point.
#[tactic(auto, unfolding(crate::specs::Time::decimals_in))]
fn decimals_in(decimals: usize, digits: &[u8]) -> Result<u64, LogFault>
    requires few { decimals ≤ 9 }
    requires within { length digits.now ≤ decimals }
    ensures { result ≡ spec.decimals_in decimals digits.now }
{
    let number = number_in(LogFault::Time, 999_999_999, digits)?;
    Ok(number * power_of_ten(decimals - digits.len()))
}

/// Tells whether each octet is a digit.
fn are_digits(text: &[u8]) -> bool
    ensures { result ≡ list_all is_ascii_digit text.now }
{
    text.iter().all(|octet| octet.is_ascii_digit())
}

/// Reads decimals, of which so many count.
fn counted_in(decimals: usize, digits: &[u8]) -> Result<u64, LogFault>
    requires { decimals ≤ 9 }
    ensures { result ≡ spec.counted_in decimals digits.now }
{
    match digits.split_at_checked(decimals) {
        None => decimals_in(decimals, digits),
        Some((counted, finer)) if are_digits(finer) => decimals_in(decimals, counted),
        Some(_) => Err(LogFault::Time),
    }
}

/// Reads decimals of which none counts.
fn uncounted_in(digits: &[u8]) -> Result<u64, LogFault>
    ensures { result ≡ spec.uncounted_in digits.now }
{
    if digits.is_empty() || !are_digits(digits) {
        Err(LogFault::Time)
    } else {
        Ok(0)
    }
}

/// Reads the decimals behind a point.
fn decimals_behind(unit: TimeUnit, digits: &[u8]) -> Result<u64, LogFault>
    ensures { result ≡ spec.decimals_behind unit digits.now }
{
    match unit {
        TimeUnit::Frames => Err(LogFault::Time),
        TimeUnit::Nanoseconds => uncounted_in(digits),
        TimeUnit::Microseconds | TimeUnit::Milliseconds | TimeUnit::Seconds => {
            counted_in(unit.decimals(), digits)
        }
    }
}

/// Reads what stands behind a whole number: nothing, or a point and decimals.
fn fraction_in(unit: TimeUnit, text: &[u8]) -> Result<u64, LogFault>
    ensures { result ≡ spec.fraction_of unit text.now }
{
    match text {
        [] => Ok(0),
        [_, digits @ ..] => decimals_behind(unit, digits),
    }
}

/// Gives so many units and a fraction, if 64 bits hold them.
fn sum(whole: u64, unit: u64, fraction: u64) -> Option<u64>
    ensures { SomeIff result (whole * unit + fraction < 2 ^ 64) (whole * unit + fraction) }
{
    whole.checked_mul(unit)?.checked_add(fraction)
}

/// Gives the same as a time.
fn fitting(whole: u64, unit: u64, fraction: u64) -> Result<u64, LogFault>
    ensures { result ≡ spec.fitting (whole * unit + fraction) }
{
    sum(whole, unit, fraction).ok_or(LogFault::Time)
}

/// Reads a number of a unit.
#[tactic(auto, unfolding(crate::specs::Time::time_in))]
fn time_in(unit: TimeUnit, text: &[u8]) -> Result<u64, LogFault>
    ensures { result ≡ spec.time_in unit text.now }
{
    let (whole, fraction) = cut(text, first_point(text));
    let whole = number_in(LogFault::Time, u64::MAX, whole)?;
    let fraction = fraction_in(unit, fraction)?;
    fitting(whole, unit.nanoseconds(), fraction)
}

/// Reads a time: frames, or a number with a decimal point or not and one of the units `ns`, `us`, `µs`, `ms` and `s`.
pub(crate) fn time_of(text: &[u8]) -> Result<u64, LogFault>
    ensures { result ≡ spec.time_of text.now }
{
    let (number, unit) = cut(text, first_of_unit(text));
    match TimeUnit::from_text(unit) {
        Some(unit) => time_in(unit, number),
        None => Err(LogFault::Time),
    }
}
