//! A reply as text, by the words of `specs/Reply.antt`.
ghost use Rattle.std.specs.Prelude.{◌+◌, ◌≤◌, length};
ghost use Rattle.gp_machine.specs.declared.reply.Reply.TheVariants.{Ranged};
ghost use Rattle.gp_trace.specs.Writes.{Writes};
ghost use Rattle.gp_trace.specs.Reply.{phase_text, refusal_text, reply_text, row_text};

use crate::allocs::write_allocs;
use crate::pieces::{write_numbered, write_text, write_u32};
use gp_machine::{Phase, Refusal, Reply, Row};

/// Writes a refusal, by its number and its name.
fn write_refusal(line: &mut [u8], end: usize, refusal: Refusal) -> usize
    requires room { 36 ≤ end }
    requires within { end ≤ length line.old }
    ensures { Writes 36 (refusal_text refusal) line.old end line.new result }
{
    let at = write_text(line, end, refusal.name());
    let at = write_text(line, at, " ");
    write_numbered(line, at, "refused", u32::from(refusal.number()))
}

/// Writes that a unit is ranged, with its equalization delay in bit times.
fn write_ranged(line: &mut [u8], end: usize, onu: u8, eqd: u32) -> usize
    requires room { 28 ≤ end }
    requires within { end ≤ length line.old }
    ensures { Writes 28 (reply_text (Ranged onu eqd)) line.old end line.new result }
{
    let at = write_u32(line, end, eqd);
    let at = write_text(line, at, " ");
    write_numbered(line, at, "ranged", u32::from(onu))
}

/// Writes how far the activation of a unit has gone.
fn write_phase(line: &mut [u8], end: usize, phase: &Phase) -> usize
    requires room { 20 ≤ end }
    requires within { end ≤ length line.old }
    ensures { Writes 20 (phase_text phase.now) line.old end line.new result }
{
    match *phase {
        Phase::Ranging { attempts, .. } => {
            write_numbered(line, end, "ranging", u32::from(attempts))
        }
        Phase::Operating { eqd, .. } => write_numbered(line, end, "operating", eqd),
    }
}

/// Writes what a port knows of a unit.
fn write_row(line: &mut [u8], end: usize, row: &Row) -> usize
    requires room { 100 ≤ end }
    requires within { end ≤ length line.old }
    ensures { Writes 100 (row_text row.now) line.old end line.new result }
{
    let at = write_allocs(line, end, &row.allocs.slots());
    let at = write_text(line, at, " allocs ");
    let at = write_phase(line, at, &row.phase);
    let at = write_text(line, at, " ");
    write_numbered(line, at, "unit", u32::from(row.onu))
}

/// Writes what the port replied.
pub(crate) fn write_reply(line: &mut [u8], end: usize, reply: &Reply) -> usize
    requires room { 100 ≤ end }
    requires within { end ≤ length line.old }
    ensures { Writes 100 (reply_text reply.now) line.old end line.new result }
{
    match *reply {
        Reply::Ticked => write_text(line, end, "ok"),
        Reply::Refused(refusal) => write_refusal(line, end, refusal),
        Reply::Searching => write_text(line, end, "searching"),
        Reply::Found(onu) => write_numbered(line, end, "found", u32::from(onu)),
        Reply::Again(onu) => write_numbered(line, end, "again", u32::from(onu)),
        Reply::Repeat(onu) => write_numbered(line, end, "repeat", u32::from(onu)),
        Reply::Restarted(onu) => write_numbered(line, end, "restarted", u32::from(onu)),
        Reply::DisabledSeen => write_text(line, end, "disabled-seen"),
        Reply::Ranged { onu, eqd } => write_ranged(line, end, onu, eqd),
        Reply::TooFar(onu) => write_numbered(line, end, "too-far", u32::from(onu)),
        Reply::StillRanging(onu) => write_numbered(line, end, "still-ranging", u32::from(onu)),
        Reply::Alive(onu) => write_numbered(line, end, "alive", u32::from(onu)),
        Reply::Acked(alloc) => write_numbered(line, end, "acked", u32::from(alloc)),
        Reply::Gasp(onu) => write_numbered(line, end, "gasp", u32::from(onu)),
        Reply::Allocated(alloc) => write_numbered(line, end, "allocated", u32::from(alloc)),
        Reply::Releasing(alloc) => write_numbered(line, end, "releasing", u32::from(alloc)),
        Reply::Deactivated(onu) => write_numbered(line, end, "deactivated", u32::from(onu)),
        Reply::Disabled => write_text(line, end, "disabled"),
        Reply::Enabled => write_text(line, end, "enabled"),
        Reply::EnabledAll => write_text(line, end, "enabled-all"),
        Reply::PoppedUp(onu) => write_numbered(line, end, "popped-up", u32::from(onu)),
        Reply::PoppedUpAll(count) => write_numbered(line, end, "popped-up-all", u32::from(count)),
        Reply::Shown(row) => write_row(line, end, &row),
    }
}
