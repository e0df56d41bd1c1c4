//! What it means to play a script, and the engine that reads a script, plays it and writes its trace.
//!
//! Promise: what is written is the whole trace of a play of the script, and nothing else; each port's entries are a
//! run (`run_replay`).
//!
//! - `replaying.rt`: `play_script`, from a script that was read to the bytes of its trace, `play_with_lights`, with the
//!   light that comes and goes at simulated units between, and `run_replay`, from the bytes of a script.
//! - `opening.rt`: `open_chassis` and `open_fibre`, which take a script apart and open what its events are played on.
//! - `event_player.rt`: `EventPlayer`, what events are played on; `lights.rt`: `tell_events`, which plays the events of
//!   a script on it, and tells when light comes or goes, where that is wanted; `play_end.rt`: the end of a play.
//! - `player.rt`: `Player`, the ports of a script (`seat.rt`) with the book of their licences: it keeps no journal, and
//!   a turn (`turn.rt`) takes no memory, of which only what is asked behind its line is told (`told.rt`). `playing.rt`:
//!   plays an event on it, which is a turn or more, and writes the line of each.
//! - `fibre_player.rt`: `FibrePlayer`, the fibre of one port with its simulated units, by `world_player.rt`;
//!   `world_playing.rt`: plays an event on it, and writes the lines of what its port does.
//! - `trace_out.rt`: `TraceOut`, where the lines of a trace go. `line_buffer.rt`: the memory in which a line is built.
//! - `fault.rt`: why a replay ended early. `laws.rt`: what holds of all that is played.
//!
//! Where to make which change: what playing means stands in `specs/ScriptPlay.antt`, by `specs/Play.antt` on a
//! chassis and by `specs/WorldPlay.antt` on a fibre, and what the two have in common in `specs/Playing.antt`; what is
//! written of it in `specs/Writing.antt`, `specs/WorldWriting.antt` and, of light, `specs/Lights.antt`, and how a
//! replay may end in `specs/Outcome.antt`. A new form of event is a case of `turns_of` and `WorldTakes` there, and of
//! `play_event` and `play_world_event` here.
#![tactic(auto)]

mod event_player;
mod fault;
mod fibre_player;
mod laws;
mod lights;
mod line_buffer;
mod opening;
mod play_end;
mod player;
mod playing;
mod replaying;
mod seat;
mod told;
mod trace_out;
mod turn;
mod world_player;
mod world_playing;

pub use event_player::EventPlayer;
pub use fault::{PlayFault, RunFault};
pub use fibre_player::FibrePlayer;
pub use laws::{each_port_runs, licences_are_kept, lights_are_told};
pub use lights::{put_light_if, tell_events};
pub use line_buffer::LineBuffer;
pub use opening::{Opened, open_chassis, open_fibre};
pub use play_end::end_play;
pub use player::Player;
pub use replaying::{play_script, play_with_lights, run_replay};
pub use told::EntryWritten;
pub use trace_out::TraceOut;
pub use turn::Turn;
