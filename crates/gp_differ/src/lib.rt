//! In what a line of a trace differs from the one that the machine says in its place.
//!
//! Promise: the first part that differs is named, with what is owed there (`difference_of`, `push_reason`), and of a
//! text that is no line of a trace the first part that isn't one (`why_no_line`).
//!
//! - `difference.rt`: `Difference`, the parts that lines differ in.
//! - `parts.rt`: a line cut into its parts, and the first that differs. `word.rt`: a text cut at a word.
//! - `alike.rt`: lines that look alike; `difference_of`.
//! - `reason.rt`: `push_reason`, why a line is not the one that is said; `wanted.rt`: what is owed in a part's place;
//!   `message.rt`: a message that was sent, in words, and what would be right of a wrong check octet.
//! - `no_line.rt`: `why_no_line`.
//!
//! Where to make which change: what the parts of a line are stands in `specs/Parts.antt`, what it is to look alike in
//! `specs/Alike.antt`, and the texts in `specs/Reasons.antt` and `specs/NoLine.antt`.
#![tactic(auto)]

mod alike;
mod difference;
mod message;
mod no_line;
mod parts;
mod reason;
mod wanted;
mod word;

pub use alike::difference_of;
pub use difference::Difference;
pub use no_line::why_no_line;
pub use reason::push_reason;
