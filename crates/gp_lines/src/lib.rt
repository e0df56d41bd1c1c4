//! The lines of a trace, read, and lines that ask for something: a trace is a language.
//!
//! Promise: what the trace says is read back, exactly, and the first fault of a line is told (`parse_event`,
//! `parse_turn`, `split_line`).
//!
//! - `event.rt`: `parse_event`, an event as a trace tells it.
//! - `turn.rt`, `grant.rt`, `say.rt`: `parse_turn`, what a line asks for; `grant.rt` has the frames up to a grant,
//!   `say.rt` what a unit says.
//! - `traced.rt`: `split_line`, a line of a trace cut into its parts. `leading.rt`: what a text begins with,
//!   read in one pass.
//! - `picks.rt`: `picked`, the number that an answer picks.
//! - `laws.rt`, `told.rt`, `short.rt`: what `gp_trace` writes is read back, a text tells one thing at most, a line of a
//!   trace has no line feed but the one that ends it, and is not too long; the limits are those of contracts.
//! - `word.rt`: the words that events begin with, and those of a simulated unit. `fields.rt`: numbers, serial numbers,
//!   and codes, whose digits `gp_code` reads. `parts.rt`: what stands between the spaces of a text. `fault.rt`: what is
//!   wrong with a line.
//!
//! Where to make which change: what a text spells stands in `specs/Spelling.antt` and `specs/Turn.antt`, its first
//! fault in `specs/Fault.antt` and `specs/TurnFault.antt`, a line of a trace in `specs/Trace.antt`.
//! What a unit says has these in `specs/Say.antt` and `specs/SayFault.antt`. `specs/Reading.antt`,
//! `specs/TurnReading.antt` and `specs/SayReading.antt` are the same as functions, which the laws tie to them. The word
//! of an event stands in `specs/Words.antt`, `specs/Spelling.antt` and `word.rt`.
#![tactic(auto)]

mod event;
mod fault;
mod fields;
mod grant;
mod laws;
mod leading;
mod parts;
mod picks;
mod say;
mod short;
mod told;
mod traced;
mod turn;
mod word;

pub use event::parse_event;
pub use fault::LineFault;
pub use fields::{number_in, serial_in};
pub use laws::{
    events_are_read, one_cut, one_event, one_turn, picks_are_read, told_events_are_read,
    told_picks_are_read, told_turns_are_read, traced_lines_are_cut, traced_lines_are_short,
    traced_lines_end_once, turns_are_limited, turns_are_read,
};
pub use parts::cut;
pub use picks::picked;
pub use short::answer_is_short;
pub use told::event_is_told;
pub use traced::{TraceLine, split_line};
pub use turn::{Asked, LAST_PORT, LAST_UNIT, LONGEST_LINE, MOST_FRAMES, PORTS, parse_turn};
