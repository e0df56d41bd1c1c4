//! What is kept of a port's log besides what is known of its units, in tables, at the same cost for each line. Nothing
//! of the program uses it yet.
//!
//! Promise: what is kept after a window is opened, after a unit answers, or after a message is sent is exactly what
//! `hear_rules` defines (`GrantBook::grant`, `GrantBook::answer`, `SentBook::sent`), and so is what is said by it
//! (`GrantBook::twice`, `SentBook::is_overdue`, `SentBook::is_settled`); contracts say so of `grants_of`, the reading
//! of the windows, and of what agrees with the messages that are kept. Where something can't be noted nothing changes.
//! Memory is taken where a log is begun, and for a serial number that answers a search for the first time; at most 64
//! windows are looked through.
//!
//! - `grants.rt`: the last windows, and which of them were answered (`GrantBook`). `granted.rt`: one of them.
//! - `searches.rt`: which search each serial number answered last. `fault.rt`: why something can't be noted.
//! - `sent.rt`: what was sent last about each ONU-ID's holder and delay, about all ONU-IDs and all serial numbers, and
//!   how often (`SentBook`). `sending.rt`: that of one of them. Alloc-IDs and single serial numbers are still to come.
//! - `tests.rt`, `sent_tests.rt`: worked logs.
//! - `specs/Grants.antt`: how windows are kept, and `grants_of`. `specs/Searches.antt`: the serial numbers.
//! - `specs/Sent.antt`: how messages are kept. `specs/Sendings.antt`: one of them.
//!
//! Where to make which change: what is kept and what is judged by it stands in `hear_rules`; a new part of a log is a
//! file here with a reading of its own. How it is kept is free under unchanged clauses.
#![tactic(auto)]

mod fault;
mod granted;
mod grants;
mod searches;
mod sending;
mod sent;
#[cfg(test)]
mod sent_tests;
#[cfg(test)]
mod tests;

pub use fault::NoteFault;
pub use grants::GrantBook;
pub use searches::MOST_SEARCHED;
pub use sent::{Place, SentBook};
