//! `entry_is_told`: the line of an entry is told as JSON by its fields.
ghost use Rattle.std.specs.Option.{ForSome};
ghost use Rattle.gp_ploam.specs.Down.{IsProperDown};
ghost use Rattle.gp_trace.specs.Text.{line_of};
ghost use Rattle.gp_entry_objects.specs.Told.{IsToldByFields};

use crate::held::{event_holds, grant_holds, is_small, reply_holds, sent_holds};
use gp_machine::Receipt;
use gp_ploam::Mask;

/// States that the line which a trace has of an entry, under the mask of its port's codes, has fields, under whatever
/// mask its codes are told, and that each object that is told of the line has these fields: it is not told as one text.
///
/// It looks at the entry, and changes nothing.
pub fn entry_is_told(mask: Mask, told: Mask, receipt: &Receipt)
    requires { ForSome receipt.now.entry.answer.sent IsProperDown }
    ensures { IsToldByFields told (line_of mask receipt.now) }
{
    is_small(u64::from(receipt.port));
    is_small(receipt.number);
    event_holds(told, &receipt.entry.event);
    reply_holds(&receipt.entry.answer.reply);
    sent_holds(mask, told, &receipt.entry.answer.sent);
    grant_holds(&receipt.entry.answer.grant);
}
