//! Whether two entries are equal, part by part; each comparison holds exactly where both are.
ghost use Rattle.std.specs.Prelude.{◌≡◌, ◌↔◌, IsTrue};

use gp_alarms::Alarm;
use gp_machine::{Answer, Entry, Event, Reply, compares_replies};
use gp_ploam::Down;
use gp_ranging::Grant;

/// Tells whether two entries are equal.
pub(super) fn is_same_entry(entry: &Entry, other: &Entry) -> bool
    ensures { IsTrue result ↔ (entry.now ≡ other.now) }
{
    entry.purse_in == other.purse_in
        && is_same_event(&entry.event, &other.event)
        && is_same_answer(&entry.answer, &other.answer)
        && entry.purse_out == other.purse_out
}

fn is_same_event(event: &Event, other: &Event) -> bool
    ensures { IsTrue result ↔ (event.now ≡ other.now) }
{
    *event == *other
}

fn is_same_answer(answer: &Answer, other: &Answer) -> bool
    ensures { IsTrue result ↔ (answer.now ≡ other.now) }
{
    is_same_reply(&answer.reply, &other.reply)
        && is_same_message(&answer.sent, &other.sent)
        && is_same_grant(&answer.grant, &other.grant)
        && is_same_alarm(&answer.alarm, &other.alarm)
}

fn is_same_reply(reply: &Reply, other: &Reply) -> bool
    ensures { IsTrue result ↔ (reply.now ≡ other.now) }
{
    compares_replies();
    *reply == *other
}

fn is_same_message(sent: &Option<Down>, other: &Option<Down>) -> bool
    ensures { IsTrue result ↔ (sent.now ≡ other.now) }
{
    *sent == *other
}

fn is_same_grant(grant: &Option<Grant>, other: &Option<Grant>) -> bool
    ensures { IsTrue result ↔ (grant.now ≡ other.now) }
{
    *grant == *other
}

fn is_same_alarm(alarm: &Option<Alarm>, other: &Option<Alarm>) -> bool
    ensures { IsTrue result ↔ (alarm.now ≡ other.now) }
{
    *alarm == *other
}
