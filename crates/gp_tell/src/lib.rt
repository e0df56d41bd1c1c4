//! Tells a trace otherwise while it is written.
//!
//! Promise: what is written is what was taken, told line by line (`Teller`).
//!
//! - `teller.rt`: `Teller`, a writer that is handed a trace and writes what is told of its lines to the writer below;
//!   `writing.rt`: as a writer. `began.rt`: what it began with.
//! - `fault.rt`: why it tells no more.
//!
//! Where to make which change: what is told of a line is `gp_explain`'s; of octets in any pieces, `specs/Octets.antt`;
//! what the writer below has of it, `specs/Teller.antt`.
#![tactic(auto)]

mod began;
mod fault;
mod teller;
mod writing;

pub use began::Began;
pub use fault::TellFault;
pub use teller::Teller;
