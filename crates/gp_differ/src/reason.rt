//! Why a line is not the one that the machine says in its place.
ghost use Rattle.std.specs.Prelude.{◌≡◌, ◌++◌, ℕ, List, OnOk, codes};
ghost use Rattle.std.specs.Option.{option_copied};
ghost use Rattle.gp_differ.specs.Alike.{difference_of};
ghost use Rattle.gp_differ.specs.Parts.{view_of};
ghost use Rattle.gp_differ.specs.Reasons as spec;

use crate::alike::{difference_of, push_blank};
use crate::difference::Difference;
use crate::message::{message_of, push_code_remark};
use crate::parts::{LineParts, or_empty, spelled};
use crate::wanted::{
    push_alarm, push_grant, push_marked, push_not, push_not_part, push_not_words, push_sent,
};
use gp_ploam::Mask;
use std::alloc::{AllocError, Global};

/// Appends in which of the parts that every line has lines differ, and how.
fn push_texts(
    out: &mut Vec<u8>,
    name: &str,
    said: &[u8],
    behind: &str,
    given: &[u8],
) -> Result<(), AllocError>
    ensures { OnOk result (out.new.items ≡ out.old.items
        ++ (name.now ++ spec.marked said.now ++ behind.now ++ spec.not_text given.now)) }
{
    out.extend_from_slice(name.as_bytes())?;
    push_marked(out, said)?;
    out.extend_from_slice(behind.as_bytes())?;
    push_not(out, given)
}

/// Appends how messages that were sent differ: the one that is owed, in these words, with so many copies behind it, and
/// the one that the line has.
fn push_messages(
    out: &mut Vec<u8>,
    left: usize,
    given: &LineParts<'_>,
    said: &LineParts<'_>,
    wanted: &[u8],
    told: &[u8],
) -> Result<(), AllocError>
    ensures { OnOk result (out.new.items ≡ out.old.items
        ++ spec.part_reason Difference.Sent left (view_of given.now) (view_of said.now) wanted.now told.now) }
{
    out.extend_from_slice(b"the message sent: ")?;
    push_sent(out, said, left, wanted)?;
    push_not_words(out, given.sent, told)
}

/// Appends how grants differ.
fn push_grants(
    out: &mut Vec<u8>,
    given: &LineParts<'_>,
    said: &LineParts<'_>,
) -> Result<(), AllocError>
    ensures { OnOk result (out.new.items ≡ out.old.items
        ++ (codes "the grant: " ++ spec.grant_wanted (view_of said.now) (view_of said.now).grant
        ++ spec.not_part (view_of given.now).grant)) }
{
    out.extend_from_slice(b"the grant: ")?;
    push_grant(out, said)?;
    push_not_part(out, given.grant)
}

/// Appends how alarms differ.
fn push_alarms(
    out: &mut Vec<u8>,
    given: Option<&[u8]>,
    said: Option<&[u8]>,
) -> Result<(), AllocError>
    ensures { OnOk result (out.new.items ≡ out.old.items
        ++ (codes "the alarm: " ++ spec.alarm_wanted (option_copied said.entry)
        ++ spec.not_part (option_copied given.entry))) }
{
    out.extend_from_slice(b"the alarm: ")?;
    push_alarm(out, said)?;
    push_not_part(out, given)
}

/// Appends how lines differ in this part. The messages that are owed and that the line has are told in these words, and
/// so many copies are owed behind.
fn push_part(
    out: &mut Vec<u8>,
    difference: Difference,
    left: usize,
    given: &LineParts<'_>,
    said: &LineParts<'_>,
    wanted: &[u8],
    told: &[u8],
) -> Result<(), AllocError>
    ensures { OnOk result (out.new.items ≡ out.old.items
        ++ spec.part_reason difference left (view_of given.now) (view_of said.now) wanted.now told.now) }
{
    match difference {
        Difference::Blank => Ok(()),
        Difference::Port => push_texts(out, "the port: ", said.port, "", given.port),
        Difference::Number => push_texts(
            out,
            "the number: ",
            said.number,
            " is next",
            given.number,
        ),
        Difference::Event => {
            push_texts(
                out,
                "the event: it is spelled ",
                said.event,
                "",
                given.event,
            )
        }
        Difference::Reply => push_texts(out, "the reply: ", said.reply, "", given.reply),
        Difference::Sent => push_messages(out, left, given, said, wanted, told),
        Difference::Grant => push_grants(out, given, said),
        Difference::Alarm => push_alarms(out, given.alarm, said.alarm),
    }
}

/// Appends why a line is not the one that is said, by how it differs. The messages are told in these words.
fn push_told(
    out: &mut Vec<u8>,
    difference: Difference,
    left: usize,
    given: &[u8],
    said: &[u8],
    wanted: &[u8],
    told: &[u8],
) -> Result<(), AllocError>
    ensures { OnOk result (out.new.items ≡ out.old.items
        ++ spec.reason_by difference left given.now said.now wanted.now told.now) }
{
    match difference {
        Difference::Blank => push_blank(out, given, said),
        difference => push_part(
            out,
            difference,
            left,
            &spelled(given),
            &spelled(said),
            wanted,
            told,
        ),
    }
}

/// Appends the same, where messages with the same words are told by their codes as they are spelled.
fn push_apart(
    out: &mut Vec<u8>,
    difference: Difference,
    left: usize,
    given: &[u8],
    said: &[u8],
    wanted: &[u8],
    told: &[u8],
) -> Result<(), AllocError>
    ensures { OnOk result (out.new.items ≡ out.old.items
        ++ spec.reason_for difference left given.now said.now wanted.now told.now) }
{
    if wanted == told {
        // What differs is not said in words.
        let (wanted, told) = (or_empty(spelled(said).sent), or_empty(spelled(given).sent));
        return push_told(out, difference, left, given, said, wanted, told);
    }
    push_told(out, difference, left, given, said, wanted, told)
}

/// Appends what would be right of the message that a line has, where another one was sent.
fn push_remark(
    out: &mut Vec<u8>,
    difference: Difference,
    mask: Mask,
    part: &[u8],
) -> Result<(), AllocError>
    ensures { OnOk result (out.new.items ≡ out.old.items ++ spec.sent_remark difference mask part.now) }
{
    match difference {
        Difference::Sent => push_code_remark(out, part, mask),
        Difference::Blank
        | Difference::Port
        | Difference::Number
        | Difference::Event
        | Difference::Reply
        | Difference::Grant
        | Difference::Alarm => Ok(()),
    }
}

/// Appends why a line is not the one that the machine says in its place, where so many copies of messages are owed
/// behind that: the first part that differs, what the machine has there, and what the line has. Codes are those under
/// the mask; of one whose check octet is wrong it says what would be right. Both lines come without their line feeds.
///
/// Where memory is refused, a part of the text may have been appended.
pub fn push_reason(
    alloc: Global,
    mask: Mask,
    left: usize,
    given: &[u8],
    said: &[u8],
    out: &mut Vec<u8>,
) -> Result<(), AllocError>
    ensures { OnOk result ((reason : List ℕ) × spec.IsReason mask left given.now said.now reason
        × (out.new.items ≡ out.old.items ++ reason)) }
{
    let sent = or_empty(spelled(given).sent);
    let wanted = message_of(alloc, or_empty(spelled(said).sent), mask)?;
    let told = message_of(alloc, sent, mask)?;
    let difference = difference_of(alloc, given, said)?;
    push_apart(
        out,
        difference,
        left,
        given,
        said,
        wanted.as_slice(),
        told.as_slice(),
    )?;
    push_remark(out, difference, mask, sent)
}
