//! A line without columns whose time gets a unit.
ghost use Rattle.std.specs.Prelude.{◌≡◌, ◌++◌, OnOk};
ghost use Rattle.line_columns.specs.Layout as spec;

use crate::unit::TimeUnit;
use crate::words::{is_bare, is_direction, next_word};
use std::alloc::AllocError;

/// Appends a text whose time, which stands first, gets this unit.
fn push_first(
    out: &mut Vec<u8>,
    unit: TimeUnit,
    text: &[u8],
    time: &[u8],
    behind: &[u8],
) -> Result<(), AllocError>
    ensures { OnOk result
        (out.new.items ≡ out.old.items ++ spec.timed_first unit text.now (time.now, behind.now)) }
{
    if !is_bare(time) {
        return out.extend_from_slice(text);
    }
    out.extend_from_slice(time)?;
    out.extend_from_slice(unit.text())?;
    out.extend_from_slice(behind)
}

/// Appends a text whose time stands behind a port.
fn push_second(
    out: &mut Vec<u8>,
    unit: TimeUnit,
    text: &[u8],
    port: &[u8],
    time: &[u8],
    behind: &[u8],
) -> Result<(), AllocError>
    ensures { OnOk result (out.new.items
        ≡ out.old.items ++ spec.timed_second unit text.now port.now (time.now, behind.now)) }
{
    if !(is_bare(port) && is_bare(time)) {
        return out.extend_from_slice(text);
    }
    out.extend_from_slice(port)?;
    out.extend_from_slice(b" ")?;
    push_first(out, unit, text, time, behind)
}

/// Appends a text whose time gets this unit, if it has none.
pub(crate) fn push_timed(out: &mut Vec<u8>, unit: TimeUnit, text: &[u8]) -> Result<(), AllocError>
    ensures { OnOk result (out.new.items ≡ out.old.items ++ spec.timed unit text.now) }
{
    let (first, behind) = next_word(text);
    let (second, rest) = next_word(behind);
    if is_direction(second) {
        return push_first(out, unit, text, first, behind);
    }
    let (third, _) = next_word(rest);
    if is_direction(third) {
        return push_second(out, unit, text, first, second, rest);
    }
    out.extend_from_slice(text)
}
