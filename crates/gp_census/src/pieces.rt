//! The pieces that both forms are made of: names of states, numbers behind their names, times, and the Alloc-IDs of a
//! unit.
ghost use Rattle.std.specs.Prelude.{◌≡◌, ◌<◌, ◌++◌, ◌==◌, if◌then◌else◌, OnOk, decimal};
ghost use Rattle.std.specs.FinMap as map;
ghost use Rattle.gp_observer.specs.Observer.{some_passes};
ghost use Rattle.gp_census.specs.Told.{allocs_with, alloc_ids, allocs_below};
ghost use Rattle.gp_census.specs.Text as spec;

use crate::told::UnitState;
use gp_watch::PortWatch;
use itoa::Buffer;
use std::alloc::AllocError;

/// How many Alloc-IDs there are.
const ALLOC_IDS: u16 = 4096;

/// How many nanoseconds a millisecond has, and a thousandth of one.
const MILLISECOND: u64 = 1_000_000;

const MICROSECOND: u64 = 1000;

/// Gives the name of a state.
pub(crate) fn state_name(state: UnitState) -> &'static str
    ensures { result.now ≡ spec.state_name state }
{
    match state {
        UnitState::Disabled => "disabled",
        UnitState::Operating => "operating",
        UnitState::Assigned => "assigned",
        UnitState::Asking => "asking",
        UnitState::Gone => "gone",
    }
}

/// Appends a number.
fn push_number(out: &mut Vec<u8>, number: u64) -> Result<(), AllocError>
    ensures { OnOk result (out.new.items ≡ out.old.items ++ decimal number) }
{
    let mut digits = Buffer::new();
    out.extend_from_slice(digits.format(number).as_bytes())
}

/// Appends a number behind its name.
pub(crate) fn push_field(out: &mut Vec<u8>, name: &str, number: u64) -> Result<(), AllocError>
    ensures { OnOk result (out.new.items ≡ out.old.items ++ spec.number_field name.now number) }
{
    out.extend_from_slice(name.as_bytes())?;
    push_number(out, number)
}

/// Appends a number behind its name, where there is one.
pub(crate) fn push_if(out: &mut Vec<u8>, name: &str, number: Option<u64>) -> Result<(), AllocError>
    ensures { OnOk result (out.new.items ≡ out.old.items ++ spec.number_if name.now number) }
{
    match number {
        Some(number) => push_field(out, name, number),
        None => Ok(()),
    }
}

/// Appends a number behind its name, or `null` where there is none.
pub(crate) fn push_or_null(
    out: &mut Vec<u8>,
    name: &str,
    number: Option<u64>,
) -> Result<(), AllocError>
    ensures { OnOk result (out.new.items ≡ out.old.items ++ spec.number_or_null name.now number) }
{
    match number {
        Some(number) => push_field(out, name, number),
        None => {
            out.extend_from_slice(name.as_bytes())?;
            out.extend_from_slice(b"null")
        }
    }
}

/// Appends three digits.
fn push_three_digits(out: &mut Vec<u8>, number: u64) -> Result<(), AllocError>
    requires { number < 1000 }
    ensures { OnOk result (out.new.items ≡ out.old.items ++ spec.three_digits number) }
{
    let hundreds = b'0' + (number / 100) as u8;
    let tens = b'0' + (number / 10 % 10) as u8;
    let ones = b'0' + (number % 10) as u8;
    out.extend_from_slice(&[hundreds, tens, ones])
}

/// Appends nanoseconds in milliseconds with three decimals, the rest cut off.
fn push_milliseconds(out: &mut Vec<u8>, time: u64) -> Result<(), AllocError>
    ensures { OnOk result (out.new.items ≡ out.old.items ++ spec.milliseconds time) }
{
    push_number(out, time / MILLISECOND)?;
    out.extend_from_slice(b".")?;
    push_three_digits(out, time / MICROSECOND % 1000)
}

/// Appends a time behind its name, where there is one.
pub(crate) fn push_time_if(
    out: &mut Vec<u8>,
    name: &str,
    time: Option<u64>,
) -> Result<(), AllocError>
    ensures { OnOk result (out.new.items ≡ out.old.items ++ spec.time_if name.now time) }
{
    let Some(time) = time else {
        return Ok(());
    };
    out.extend_from_slice(name.as_bytes())?;
    push_milliseconds(out, time)?;
    out.extend_from_slice(b" ms")
}

/// Tells whether an Alloc-ID belongs to an ONU-ID.
fn belongs_to(watch: &PortWatch, alloc: u16, onu: u8) -> bool
    ensures { result ≡ some_passes (λ owner. owner == onu) (map.get watch.now.seen.alloc alloc) }
{
    match watch.owner(alloc) {
        Some(owner) => owner == onu,
        None => false,
    }
}

/// Gives what stands before a number, where there are some before it or not.
fn before<'a>(some: bool, first: &'a str, other: &'a str) -> &'a str
    ensures { result.now ≡ (if some then other.now else first.now) }
{
    if some { other } else { first }
}

/// Appends the Alloc-IDs that belong to an ONU-ID: one text before the first, and another before each further one.
fn push_allocs_of(
    out: &mut Vec<u8>,
    watch: &PortWatch,
    onu: u8,
    first: &str,
    other: &str,
) -> Result<(), AllocError>
    ensures { OnOk result (out.new.items ≡ out.old.items
        ++ spec.strung first.now other.now (allocs_below alloc_ids watch.now onu)) }
{
    let mut some = false;
    for alloc in 0..ALLOC_IDS {
        if belongs_to(watch, alloc, onu) {
            push_field(out, before(some, first, other), u64::from(alloc))?;
            some = true;
        }
    }
    Ok(())
}

/// Appends the Alloc-IDs of a unit by its ONU-ID, where it has some.
pub(crate) fn push_allocs(
    out: &mut Vec<u8>,
    watch: &PortWatch,
    onu: Option<u8>,
    first: &str,
    other: &str,
) -> Result<(), AllocError>
    ensures { OnOk result (out.new.items ≡ out.old.items
        ++ spec.strung first.now other.now (allocs_with watch.now onu)) }
{
    match onu {
        Some(onu) => push_allocs_of(out, watch, onu, first, other),
        None => Ok(()),
    }
}
