//! The messages that a port still owes to its units: each is sent three times in a row, one copy in
//! a frame.
//!
//! Promise: each message is sent three times in a row, in the order in which messages were owed, and none is lost
//! (`VolleyQueue::owe`, `send_one`).
//!
//! - `volley.rt`: `Volley`, one message with the copies of it that are left, and `COPIES`.
//! - `queue.rt`: `VolleyQueue`, the volleys in a ring of std's with room for 64 of them, and the limits.
//! - `owed_image.rt`: `OwedImage`, the volleys of a queue as plain data.
//! - `specs/Copies.antt`: how many copies are sent, and how many there is room for. `specs/Volley.antt`: a
//!   volley's state. `specs/Queue.antt`: what the queue keeps; only of its first message may a copy have been sent.
//! - `proofs/Copies.antt`: lemmas on copies in a row.
//!
//! Contracts see a queue as the list of its copies. Neither it nor a volley has `Drop`: what is owed is sent, or
//! closed. Another number of copies or messages is a change of the constants and of `specs/Copies.antt`.
#![tactic(auto)]

mod owed_image;
mod queue;
mod volley;

pub use owed_image::OwedImage;
pub use queue::{
    MAX_COPIES, MAX_COPIES_WITH_ROOM, MAX_MESSAGES, QueueFault, VolleyQueue, copies_are_limited,
};
pub use volley::{COPIES, Volley};
