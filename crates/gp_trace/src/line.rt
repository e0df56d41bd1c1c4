//! The line of an entry, written from its end on, so that no piece of it is moved; it takes no more than `MAX_LINE`
//! bytes.
ghost use Rattle.std.specs.Prelude.{◌≡◌, ◌+◌, ◌<◌, ◌≤◌, ◌++◌, OnOk, OnErr, drop, length, vec_len, vec_capacity};
ghost use Rattle.std.specs.Option.{ForSome};
ghost use Rattle.gp_ploam.specs.Down.{IsProperDown};
ghost use Rattle.gp_trace.specs.Writes.{Writes};
ghost use Rattle.gp_trace.specs.Text.{line_of};

use crate::answer::write_answer;
use crate::event::write_event;
use crate::pieces::{write_text, write_u8, write_u64};
use gp_machine::{Entry, Receipt};
use gp_ploam::Mask;
use std::alloc::AllocError;

/// How many bytes the line of an entry has at most.
pub const MAX_LINE: usize = 256;

/// Writes the line of an entry so that it ends at `end`, from its end on, so that no piece of it is moved. The mask is
/// that of the port's codes.
#[tactic(auto, unfolding(crate::specs::Text::line_of))]
fn write_before(
    line: &mut [u8],
    end: usize,
    mask: Mask,
    port: u8,
    number: u64,
    entry: &Entry,
) -> usize
    requires proper { ForSome entry.now.answer.sent IsProperDown }
    requires room { MAX_LINE ≤ end }
    requires within { end ≤ length line.old }
    ensures { Writes MAX_LINE
        (line_of mask (record { port = port; number = number; entry = entry.now })) line.old end line.new result }
{
    let at = write_text(line, end, "\n");
    let at = write_answer(line, at, mask, &entry.answer);
    let at = write_text(line, at, " = ");
    let at = write_event(line, at, &entry.event);
    let at = write_text(line, at, " ");
    let at = write_u64(line, at, number);
    let at = write_text(line, at, " ");
    write_u8(line, at, port)
}

/// Writes the line of an entry, which has this number on this port, at the end of a buffer of [`MAX_LINE`] bytes or
/// more, and tells where in the buffer it begins. What stands before that is left open. The mask is that of the port's
/// codes. Takes no memory.
pub fn write_entry(buffer: &mut [u8], mask: Mask, port: u8, number: u64, entry: &Entry) -> usize
    requires proper { ForSome entry.now.answer.sent IsProperDown }
    requires room { MAX_LINE ≤ length buffer.old }
    ensures line { drop result buffer.new
        ≡ line_of mask (record { port = port; number = number; entry = entry.now }) }
    ensures begins { result + length (line_of mask (record { port = port; number = number; entry = entry.now }))
        ≡ length buffer.new }
    ensures short { length (line_of mask (record { port = port; number = number; entry = entry.now })) ≤ MAX_LINE }
{
    write_before(buffer, buffer.len(), mask, port, number, entry)
}

/// Does the same of the entry of a receipt.
pub fn write_line(buffer: &mut [u8], mask: Mask, receipt: &Receipt) -> usize
    requires proper { ForSome receipt.now.entry.answer.sent IsProperDown }
    requires room { MAX_LINE ≤ length buffer.old }
    ensures line { drop result buffer.new ≡ line_of mask receipt.now }
    ensures begins { result + length (line_of mask receipt.now) ≡ length buffer.new }
    ensures short { length (line_of mask receipt.now) ≤ MAX_LINE }
{
    let Receipt {
        port,
        number,
        entry,
    } = receipt;
    write_entry(buffer, mask, *port, *number, entry)
}

/// Appends the line of an entry. The mask is that of the port's codes.
///
/// Takes memory only where there is no room for [`MAX_LINE`] bytes more. An error is answered where that
/// memory was refused, and leaves `out` as it was.
pub fn push_line(out: &mut Vec<u8>, mask: Mask, receipt: &Receipt) -> Result<(), AllocError>
    requires proper { ForSome receipt.now.entry.answer.sent IsProperDown }
    ensures ok { OnOk result (out.new.items ≡ out.old.items ++ line_of mask receipt.now) }
    ensures short { OnOk result (length (line_of mask receipt.now) ≤ MAX_LINE) }
    ensures untouched { OnErr result (out.new.items ≡ out.old.items) }
    ensures room { OnErr result (vec_capacity out.old < vec_len out.old + MAX_LINE) }
    ensures capacity { vec_capacity out.old ≤ vec_capacity out.new }
{
    out.reserve(MAX_LINE)?;
    let mut line = [0u8; MAX_LINE];
    let start = write_line(&mut line, mask, receipt);
    out.extend_from_slice(&line[start..]).unwrap();
    Ok(())
}
