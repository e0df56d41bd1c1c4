//! Which files of a folder of scripts belong together: `NAME.toml` is a script, `NAME.trace` the trace that it has to
//! write, `NAME.faults` what is told of it where it is wrong.
//!
//! Promise: each script of the folder is one case, with what stands beside it, and each trace and each list of faults
//! without a script is named (`cases_of`, `strays_of`). All other files are passed over.
//!
//! - `part.rt`: `Part`, what a file is by the end of its name. `case.rt`: a script and what stands beside it.
//! - `listing.rt`: `cases_of` and `strays_of`, which go through the names of a folder.
//!
//! Where to make which change: the endings stand in `specs/Names.antt` and in `part.rt`, which files make a case in
//! `specs/Folder.antt` and in `listing.rt`.
#![tactic(auto)]

mod case;
mod listing;
mod part;

pub use case::{Beside, Case};
pub use listing::{Stray, cases_of, strays_of};
pub use part::Part;
