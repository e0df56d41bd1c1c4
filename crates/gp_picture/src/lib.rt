//! Draws a trace, or a log of messages, as an SVG picture: a chart a port, a lane a unit, from what is heard on the
//! fibre.
//!
//! Promise: any input is read to its end or to its first line that is none, nothing else is written than one picture,
//! and how it ended, how many lines fell, how many codes came and are garbled, and whether all that was heard is outside
//! of it is told exactly (`draw_trace`). What is drawn is tested.
//!
//! - `options.rt`: `PictureOptions`, the frames that are drawn, and what is heard is judged by. `moment.rt`: a line and
//!   its frame.
//! - `state.rt`: what a unit does. `touched.rt`: which units a message touches. `lane.rt`: a unit's changes.
//! - `mark.rt`: marks and their rows. `windows.rt`: the windows that are open. `room.rt`: how much is kept, and which
//!   frames as one.
//! - `port.rt`: what is kept of one port, and what something that is heard changes of it. `picture.rt`: all that is
//!   drawn. `fault.rt`: why a line can't be.
//! - `drawer.rt`: `Drawer`, which is given lines one after another; `serving.rt`: as what serves lines.
//!   `running.rt`: `draw_trace`, from the bytes of a trace or a log to its picture; `draw_trace_with`, the same of lines
//!   that are laid out in columns.
//! - `scale.rt`: where a frame stands in the picture. `text.rt`: the elements; `legend.rt`, `mark_text.rt`,
//!   `lane_text.rt`, `port_text.rt`: the legend, a row of marks, a lane, a port; `whole.rt`: the whole picture.
//!
//! Where to make which change: what a message changes of a unit in `touched.rt` and `state.rt`, what is marked in
//! `port.rt`, how it looks in `legend.rt` (the styles and their one legend), how it may end in `specs/Outcome.antt`.
#![tactic(auto)]

mod drawer;
mod fault;
mod lane;
mod lane_text;
mod legend;
mod mark;
mod mark_text;
mod moment;
mod options;
mod picture;
mod port;
mod port_text;
mod room;
mod running;
mod scale;
mod serving;
mod state;
mod text;
mod touched;
mod whole;
mod windows;

pub use gp_finding::Codes;
pub use gp_lines::PORTS;
pub use gp_times::{Frames, Outside};
pub use options::PictureOptions;
pub use running::{PictureSum, draw_trace, draw_trace_with};
