//! A line of a trace, read.
ghost use Rattle.std.specs.Prelude.{IfSome, IfNone};
ghost use Rattle.gp_tally.specs.Told.{HappensAs, TellsLine};
ghost use Rattle.gp_tally.specs.Ports.{IsNoLine};

use crate::answered::answered_in;
use crate::told::{Happened, Told};
use gp_lines::split_line;
use gp_machine::Event;
use gp_ploam::{Mask, decode_up};

/// Reads the message of a burst under the mask.
fn happened(mask: Mask, event: &Event) -> Happened
    ensures { HappensAs mask event.now result }
{
    match event {
        Event::Frame => Happened::Frame,
        Event::Burst { bytes, .. } => Happened::Burst(decode_up(bytes, mask).ok()),
        Event::Command(_) => Happened::Command,
    }
}

/// Reads a line of a trace without its line feed: its port, and what it tells. None where it is no line of a trace.
pub(crate) fn told_in(mask: Mask, text: &[u8]) -> Option<(u8, Told)>
    ensures told { IfSome result (λ told. TellsLine mask text.now told.0 told.1) }
    ensures none { IfNone result (IsNoLine text.now) }
{
    match split_line(text) {
        None => None,
        Some(line) => {
            let told = Told {
                happened: happened(mask, &line.event),
                answered: answered_in(line.answer),
            };
            Some((line.port, told))
        }
    }
}
