//! The activation machine of one port, as code (G.984.3, clause 10).
//!
//! Promise: each step is a step of the machine, keeps licences, takes no memory and can't fail; an image is of the
//! port's state; a follower makes exactly the steps that entries tell of (`PortCore::step`, `image`,
//! `PortFollower::follow`).
//!
//! - `port_machine.rt`: `PortMachine`, the machine without its licences, and the questions that it asks itself.
//! - `changes.rt`, `unit_changes.rt`: a method for each change that a step makes.
//! - `frame.rt`, `burst.rt`, `search_window.rt`, `range_window.rt`, `poll_window.rt`, `command.rt`, `unit_command.rt`,
//!   `alloc_command.rt`: a method for each table of `gp_machine`, whose clause is that table.
//! - `answers.rt`: what a frame and a burst give, small enough to hand up; it is written to an `Answer` once.
//! - `port_core.rt`: `PortCore`, a `PortMachine` with one licence for each active unit; `step_entry` writes the entry
//!   that tells of a step, `step` and `step_wishing` hand out its answer.
//! - `image.rt`: `PortImage`, what a port knows as plain data, and the machine made of it again; `comparing.rt`: when
//!   two ports know the same.
//! - `follower.rt`: `PortFollower`, a `PortMachine` without licences that follows the entries of a history.
//! - `octets.rt`: octets of any length as a burst. `open.rt`: why a port is not opened.
//!
//! A changed rule is changed in its table in `gp_machine` and in the method of the same name here; another
//! representation of the units, in `gp_table`.
#![tactic(auto)]

mod alloc_command;
mod answers;
mod burst;
mod changes;
mod command;
mod comparing;
mod follower;
mod frame;
mod image;
mod octets;
mod open;
mod poll_window;
mod port_core;
mod port_machine;
mod range_window;
mod search_window;
mod unit_changes;
mod unit_command;

pub use follower::PortFollower;
pub use gp_alarms::{Alarm, AlarmKind};
pub use gp_common::Common;
pub use gp_licence::Licences;
pub use gp_machine::{
    Admitted, Answer, Command, Entry, Event, Phase, PortConfig, Receipt, Refusal, Reply, Row,
};
pub use gp_ploam::{Down, Mask, PloamFault, Serial};
pub use gp_ranging::{Grant, WindowImage};
pub use gp_unit::RowView;
pub use gp_volley::OwedImage;
pub use image::{ImageFault, PortImage};
pub use octets::burst_of;
pub use open::OpenFault;
pub use port_core::PortCore;
