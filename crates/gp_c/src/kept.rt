//! An entry that a port's journal keeps, with the mask by which its messages become codes: told by numbers, as an event
//! and as an answer.
ghost use Rattle.std.specs.Prelude.{◌≡◌};
ghost use Rattle.std.specs.Option.{ForSome};
ghost use Rattle.gp_ploam.specs.Down.{IsProperDown};
ghost use Rattle.gp_ploam.specs.Mask.{mask_value};
ghost use Rattle.gp_c.specs.Answers.{answer_numbers};
ghost use Rattle.gp_c.specs.Events.{event_numbers as numbers_of_event};

use crate::answer::{AnswerNumbers, answer_of};
use crate::event::{EventNumbers, event_numbers};
use gp_machine::Receipt;
use gp_ploam::Mask;

/// An entry that a port's journal keeps.
#[derive(Clone, Copy)]
pub struct KeptEntry {
    /// The mask of the port's codes.
    pub mask: Mask,
    /// The entry with its port and its number.
    pub receipt: Receipt,
}

impl KeptEntry {
    /// Tells by numbers what happened.
    pub(crate) fn event(&self) -> EventNumbers
        ensures { result ≡ numbers_of_event self.now.receipt.entry.event }
    {
        event_numbers(&self.receipt.entry.event)
    }

    /// Tells by numbers what the port gave for it.
    pub(crate) fn answer(&self) -> AnswerNumbers
        requires { ForSome self.now.receipt.entry.answer.sent IsProperDown }
        ensures { result ≡ answer_numbers (mask_value self.now.mask)
            self.now.receipt.number self.now.receipt.entry.answer }
    {
        answer_of(self.mask, self.receipt.number, &self.receipt.entry.answer)
    }
}
