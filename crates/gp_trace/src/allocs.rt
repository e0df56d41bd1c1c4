//! The further Alloc-IDs of a unit as text, with a mark before those that it is giving back.
ghost use Rattle.std.specs.Prelude.{◌+◌, ◌≤◌, ◌++◌, length, [], if◌then◌else◌, codes};
ghost use Rattle.gp_pools.specs.Slots.{filled};
ghost use Rattle.gp_trace.specs.Writes.{Writes};
ghost use Rattle.gp_trace.specs.Reply.{alloc_text, allocs_text};

use crate::pieces::{write_text, write_u16};

/// How many bytes the Alloc-IDs of a unit take at most: eight of five digits, each with a mark and a comma.
const MAX_ALLOCS_TEXT: usize = 56;

/// How many further Alloc-IDs a unit may have.
const SLOTS: usize = 8;

/// Writes an Alloc-ID, marked if the unit is giving it back.
fn write_alloc(line: &mut [u8], end: usize, alloc: u16, leaving: bool) -> usize
    requires room { 6 ≤ end }
    requires within { end ≤ length line.old }
    ensures { Writes 6 (alloc_text (alloc, leaving)) line.old end line.new result }
{
    let mut at = end;
    if leaving {
        at = write_text(line, at, "!");
    }
    write_u16(line, at, alloc)
}

/// Writes a comma, but behind the last Alloc-ID.
fn write_separator(line: &mut [u8], end: usize, is_last: bool) -> usize
    requires room { 1 ≤ end }
    requires within { end ≤ length line.old }
    ensures { Writes 1 (if is_last then [] else codes ",") line.old end line.new result }
{
    if is_last {
        return end;
    }
    write_text(line, end, ",")
}

/// Writes an Alloc-ID before those that stand behind it, if there are any.
fn write_before(line: &mut [u8], end: usize, alloc: u16, leaving: bool, is_last: bool) -> usize
    requires room { 7 ≤ end }
    requires within { end ≤ length line.old }
    ensures { Writes 7 (alloc_text (alloc, leaving) ++ (if is_last then [] else codes ","))
        line.old end line.new result }
{
    let at = write_separator(line, end, is_last);
    write_alloc(line, at, alloc, leaving)
}

/// Writes the further Alloc-IDs of a unit with commas between, or a dash where it has none.
pub(crate) fn write_allocs(line: &mut [u8], end: usize, slots: &[Option<(u16, bool)>; 8]) -> usize
    requires room { MAX_ALLOCS_TEXT ≤ end }
    requires within { end ≤ length line.old }
    ensures { Writes MAX_ALLOCS_TEXT (allocs_text (filled slots.now)) line.old end line.new result }
{
    let mut at = end;
    let mut is_empty = true;
    for place in 0..SLOTS {
        if let Some((alloc, leaving)) = slots[SLOTS - 1 - place] {
            at = write_before(line, at, alloc, leaving, is_empty);
            is_empty = false;
        }
    }
    if is_empty {
        return write_text(line, at, "-");
    }
    at
}
