//! Traces that are told or verified and scripts that are driven, and what became of each port and unit in them.
//!
//! Promise: what is read and written is as without it, and what is told at the end is what was counted of the lines of
//! the trace, and, where there are ports, how they stand then (`explain_summed`, `verify_summed`, `drive_summed`).
//!
//! - `explaining.rt`: `explain_summed`, a trace that is told again while its lines are counted and heard; `hearing.rt`:
//!   the writer that counts and hears, `hearer.rt`: lines that are heard, in whatever pieces they come; `codes.rt`:
//!   `HeardCodes`, how many codes can't be read.
//! - `verifying.rt`: `verify_summed`, a trace that is verified while its entries are counted; `counting_verifier.rt`:
//!   the verifier that counts, `opening.rt` what it began with. `reach.rt`: up to which line a trace is told of, and in
//!   which form a summary is told beside it.
//! - `driving.rt`: `drive_summed`, a script that is driven while the lines of its entries are counted.
//! - `laws.rt`: lines of light count for nothing.
//!
//! Where to make which change: the lines that are told of ports and units are `gp_summary`'s, what is counted is
//! `gp_tally`'s; what is said before them of a trace that is no run stands in `specs/Verifying.antt`.
#![tactic(auto)]

mod codes;
mod counting_verifier;
mod driving;
mod explaining;
mod hearer;
mod hearing;
mod laws;
mod opening;
mod reach;
mod verifying;

pub use codes::HeardCodes;
pub use driving::{DriveEnded, DriveSummed, drive_summed};
pub use explaining::{Explained, explain_summed};
pub use laws::lights_count_for_nothing;
pub use reach::summary_form;
pub use verifying::{Verified, verify_summed};
