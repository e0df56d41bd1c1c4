//! What a port was asked and what it answered, in order, with numbers that count from its opening.
//!
//! Promise: a history is found to tell how a port came to stand where it stands exactly where it does (`replays`,
//! `Piece::joins`).
//!
//! - `journal.rt`: `Journal`, the entries since it was last cut, and the state before them; a step is recorded where it
//!   is kept (`record`).
//! - `entries.rt`: `Entries`, entries as plain data. `piece.rt`: `Piece`, what is cut from a journal, and the law
//!   that pieces which follow one another are one run.
//! - `replaying.rt`: `replays`, whether a journal tells how a port came to stand where it stands.
//! - `fault.rt`: the one reason for which a call fails.
//!
//! `specs/Kept.antt` is what contracts see of a journal, `specs/Recording.antt` what a step adds to it,
//! `specs/Replays.antt` what it tells of a port, `specs/Piece.antt` how pieces join. `proofs/Runs.antt` has what crates
//! above need of `Replays`: an empty record, one step more, two records in a row.
//!
//! Where to make which change: what an entry keeps is `Entry` of `gp_machine`; how entries are followed is
//! `PortFollower` of `gp_port`; what else a record of a port has to keep to is `Replays`, and its test
//! `begin_follower` or `follow_all`.
#![tactic(auto)]

mod entries;
mod fault;
mod journal;
mod piece;
mod replaying;

pub use entries::Entries;
pub use fault::JournalFault;
pub use gp_machine::{Entry, Receipt};
pub use journal::Journal;
pub use piece::{Piece, pieces_are_one_run};
pub use replaying::replays;
