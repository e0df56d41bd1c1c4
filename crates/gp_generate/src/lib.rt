//! A script by chance: of any number a script, the same for the same number.
//!
//! Promise: what is written is the text that the definitions fix by what is asked for, whole or to where memory was
//! refused or a write failed (`generate`, over a `Plan`).
//!
//! - `plan.rt`: `Asked` and `Wish`, what is asked for; `Plan`, a script that there can be. `chance.rt`: what is drawn.
//! - `step.rt`: the steps of a scene; `scene.rt`: the table of scenes, and what may be said and asked anywhere.
//! - `cast.rt`: who is in a scene. `action.rt`: what may happen anywhere. `event.rt`: an event; `making.rt`: the event
//!   that a step is; `course.rt`: scene after scene, an event at a time.
//! - `pieces.rt`: a key and its value. `tables.rt`: what stands before the events. `event_text.rt`: an event's table.
//! - `mistake.rt`: the mistakes that a script may have. `generating.rt`: `generate`, the whole text into a sink.
//!
//! Where to make which change: what is to come more often is a row of `scene.rt` and of `specs/Scenes.antt`; a new
//! mistake a row of `mistake.rt` and of `specs/Mistakes.antt`; a new form of event a variant of `Event` and its keys in
//! `specs/Events.antt`.
#![tactic(auto)]

mod action;
mod cast;
mod chance;
mod course;
mod event;
mod event_text;
mod generating;
mod making;
mod mistake;
mod pieces;
mod plan;
mod scene;
mod step;
mod tables;

pub use action::Action;
pub use cast::Cast;
pub use chance::{Draw, Drawn};
pub use course::Moment;
pub use event::{Event, Said};
pub use generating::{GenerateFault, generate};
pub use mistake::{MISTAKES, Mistake};
pub use plan::{Asked, Plan, PlanFault, Wish};
pub use scene::{ORDERS, SAYINGS, SCENES, Scene};
pub use step::{Opening, Order, Step, Words};
