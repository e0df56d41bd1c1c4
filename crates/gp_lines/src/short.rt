//! Answers whose lines are not too long.
ghost use Rattle.std.specs.Prelude.{◌≡◌, length};
ghost use Rattle.std.specs.Option.{ForSome};
ghost use Rattle.gp_ploam.specs.Down.{IsProperDown};
ghost use Rattle.gp_lines.specs.Short.{HasShortReply, IsShortAnswer};

use crate::told::serial_is_told;
use gp_alarms::Alarm;
use gp_machine::{Answer, Reply};

/// States that an answer is short if the message that it sends is one that its code stands for: its other fields are
/// what their types hold.
pub fn answer_is_short(answer: &Answer)
    requires { ForSome answer.now.sent IsProperDown }
    ensures { IsShortAnswer answer.now }
{
    reply_is_short(&answer.reply);
    alarm_is_short(&answer.alarm);
}

/// States it of a reply.
fn reply_is_short(reply: &Reply)
    ensures { HasShortReply reply.now }
{
    if let Reply::Shown(row) = reply {
        let _ = row.allocs.len();
    }
}

/// States that an alarm names a serial number of eight octets.
fn alarm_is_short(alarm: &Option<Alarm>)
    ensures { ForSome alarm.now (λ alarm. length alarm.serial.0 ≡ 8) }
{
    if let Some(alarm) = alarm {
        serial_is_told(&alarm.serial);
    }
}
