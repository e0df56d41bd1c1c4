//! A summary of a play: what was counted of each port and of its units, how they stand at the end, and the licences.
//!
//! Promise: a script is played and its trace written as in a replay, and the lines that are told are those of
//! `specs/Text.antt`, of what is counted of the trace and of the ports at the end (`play_summed`). Of a trace alone the
//! lines are those of `specs/Heard.antt` (`heard_summary`).
//!
//! - `form.rt`: `SummaryForm`, text or JSON. `pieces.rt`: numbers behind their names, and counts by a name each.
//! - `standing.rt`: how a unit stands. `port.rt`, `unit.rt`: the line of a port and of a unit. `lines.rt`: a port with
//!   its units, and the licences. `ports.rt`: the ports that a script was played on.
//! - `playing.rt`: `play_summed`, a script that is played and summed, and `sum_with_lights`, with the light that comes
//!   and goes between the lines of its trace. `heard.rt`: what was counted of a trace alone, and how its units stand as
//!   they were heard on the fibre (`heard_summary`).
//!
//! Where to make which change: what a line says stands in `specs/Text.antt`, of a trace alone in `specs/Heard.antt`;
//! what is counted, in `gp_tally`; what is heard, in `gp_observer`, and what is known of a unit by it, in `gp_census`.
#![tactic(auto)]

mod form;
mod heard;
mod lines;
mod pieces;
mod playing;
mod port;
mod ports;
mod standing;
mod unit;

pub use form::SummaryForm;
pub use heard::heard_summary;
pub use playing::{Ended, Summed, play_summed, sum_with_lights};
pub use ports::{chassis_summary, fibre_summary};
