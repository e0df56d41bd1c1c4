//! The line that is made of the fields of another.
ghost use Rattle.std.specs.Prelude.{◌≡◌, ◌++◌, OnOk, codes};
ghost use Rattle.line_columns.specs.Rows as spec;

use crate::row::Row;
use crate::unit::TimeUnit;
use crate::words::{is_bare, is_grant, is_up};
use std::alloc::AllocError;

/// Appends a time; one that has no unit gets this one.
pub(crate) fn push_time(out: &mut Vec<u8>, unit: TimeUnit, time: &[u8]) -> Result<(), AllocError>
    ensures { OnOk result (out.new.items ≡ out.old.items ++ spec.with_unit unit time.now) }
{
    out.extend_from_slice(time)?;
    if is_bare(time) {
        out.extend_from_slice(unit.text())?;
    }
    Ok(())
}

/// Appends what stands in front of the time.
fn push_port(out: &mut Vec<u8>, port: &[u8]) -> Result<(), AllocError>
    ensures { OnOk result (out.new.items ≡ out.old.items ++ spec.port_text port.now) }
{
    if port.is_empty() {
        return Ok(());
    }
    out.extend_from_slice(port)?;
    out.extend_from_slice(b" ")
}

/// Appends a code, in quotation marks, or the words of a grant.
fn push_code(out: &mut Vec<u8>, direction: &[u8], code: &[u8]) -> Result<(), AllocError>
    ensures { OnOk result (out.new.items ≡ out.old.items ++ spec.code_text direction.now code.now) }
{
    if is_grant(direction) {
        return out.extend_from_slice(code);
    }
    out.extend_from_slice(b"\"")?;
    out.extend_from_slice(code)?;
    out.extend_from_slice(b"\"")
}

/// Appends the delay of what a unit says.
fn push_delay(out: &mut Vec<u8>, direction: &[u8], delay: &[u8]) -> Result<(), AllocError>
    ensures { OnOk result (out.new.items ≡ out.old.items ++ spec.delay_text direction.now delay.now) }
{
    if is_up(direction) && !delay.is_empty() {
        out.extend_from_slice(b" ")?;
        out.extend_from_slice(delay)?;
    }
    Ok(())
}

/// Appends a word and a space.
fn push_word(out: &mut Vec<u8>, word: &[u8]) -> Result<(), AllocError>
    ensures { OnOk result (out.new.items ≡ out.old.items ++ (word.now ++ codes " ")) }
{
    out.extend_from_slice(word)?;
    out.extend_from_slice(b" ")
}

/// Appends the line that is made of these fields.
pub(crate) fn push_row(out: &mut Vec<u8>, unit: TimeUnit, row: &Row<'_>) -> Result<(), AllocError>
    ensures { OnOk result (out.new.items ≡ out.old.items ++ spec.row_text unit (record {
      port = row.now.port.now;
      time = row.now.time.now;
      direction = row.now.direction.now;
      code = row.now.code.now;
      delay = row.now.delay.now;
    })) }
{
    push_port(out, row.port)?;
    push_time(out, unit, row.time)?;
    out.extend_from_slice(b" ")?;
    push_word(out, row.direction)?;
    push_code(out, row.direction, row.code)?;
    push_delay(out, row.direction, row.delay)
}
