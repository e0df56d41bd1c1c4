//! Whether what the workers of a chassis were told is what its journals have: each receipt tells of an entry, each
//! entry is told of once, and each worker was told in order.
//!
//! Promise: receipts and journals are found to agree exactly where each entry is told of once, by its own receipt
//! (`reconcile`).
//!
//! - `recorded.rt`: `Recorded`, what keeps numbered entries. `told.rt`: `Told`, what was told of them. A journal and
//!   a list of receipts are such; other types become so by an `impl`.
//! - `places.rt`: where the mark of each entry stands, and that of the entry which a receipt names. `marking.rt`: one
//!   pass over each worker's receipts, in which each names an entry, has a number above the last one of its port, and
//!   makes the entry's mark; in the end each mark is made.
//! - `reconciling.rt`: `reconcile`, which takes the memory for the marks before it compares. `fault.rt`: why a chassis
//!   does not close.
//! - `comparing.rt`: whether two entries are equal.
//!
//! `specs/Accounted.antt` is the whole meaning, `specs/Places.antt` only what the files here say to one another. A
//! changed rule is changed there and in the file of its test.
#![tactic(auto)]

mod comparing;
mod fault;
mod marking;
mod places;
mod reconciling;
mod recorded;
mod told;

pub use fault::CloseFault;
pub use reconciling::reconcile;
pub use recorded::Recorded;
pub use told::ReceiptList;
