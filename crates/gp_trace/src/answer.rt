//! What a port gave for an event, as text: the reply, then the message sent, the grant and the alarm, where there are
//! such.
ghost use Rattle.std.specs.Prelude.{◌+◌, ◌≤◌, length};
ghost use Rattle.std.specs.Option.{ForSome};
ghost use Rattle.gp_ploam.specs.Down.{IsProperDown};
ghost use Rattle.gp_trace.specs.Writes.{Writes};
ghost use Rattle.gp_trace.specs.Text.{alarm_text, answer_text, grant_text, sent_text};

use crate::pieces::{write_code, write_numbered, write_of_unit, write_text};
use crate::reply::write_reply;
use gp_alarms::Alarm;
use gp_machine::Answer;
use gp_ploam::{Down, Mask};
use gp_ranging::Grant;

/// Writes the code of the message that was sent, where there is one.
fn write_sent(line: &mut [u8], end: usize, mask: Mask, sent: &Option<Down>) -> usize
    requires proper { ForSome sent.now IsProperDown }
    requires room { 32 ≤ end }
    requires within { end ≤ length line.old }
    ensures { Writes 32 (sent_text mask sent.now) line.old end line.new result }
{
    match sent {
        None => end,
        Some(message) => {
            let at = write_code(line, end, &gp_ploam::encode_down(message, mask));
            write_text(line, at, " sent ")
        }
    }
}

/// Writes the grant that was issued, where there is one.
fn write_grant(line: &mut [u8], end: usize, grant: &Option<Grant>) -> usize
    requires room { 23 ≤ end }
    requires within { end ≤ length line.old }
    ensures { Writes 23 (grant_text grant.now) line.old end line.new result }
{
    match *grant {
        None => end,
        Some(Grant::Search) => write_text(line, end, " grant search"),
        Some(Grant::Range(onu)) => write_numbered(line, end, " grant range", u32::from(onu)),
        Some(Grant::Poll(onu)) => write_numbered(line, end, " grant poll", u32::from(onu)),
    }
}

/// Writes the alarm that was raised, where there is one.
fn write_alarm(line: &mut [u8], end: usize, alarm: &Option<Alarm>) -> usize
    requires room { 28 ≤ end }
    requires within { end ≤ length line.old }
    ensures { Writes 28 (alarm_text alarm.now) line.old end line.new result }
{
    match alarm {
        None => end,
        Some(alarm) => {
            let at = write_of_unit(line, end, alarm.kind.name(), &alarm.serial);
            write_text(line, at, " alarm ")
        }
    }
}

/// Writes what the port gave for an event. The message that it sent is written as its code under
/// the mask.
pub(crate) fn write_answer(line: &mut [u8], end: usize, mask: Mask, answer: &Answer) -> usize
    requires proper { ForSome answer.now.sent IsProperDown }
    requires room { 183 ≤ end }
    requires within { end ≤ length line.old }
    ensures { Writes 183 (answer_text mask answer.now) line.old end line.new result }
{
    let at = write_alarm(line, end, &answer.alarm);
    let at = write_grant(line, at, &answer.grant);
    let at = write_sent(line, at, mask, &answer.sent);
    write_reply(line, at, &answer.reply)
}
