//! Serial numbers as people write them, and the list of those that are admitted.
//!
//! Promise: a text is read exactly as what it spells, and its first fault is told (`parse_serial`,
//! `AdmissionList::admit`).
//!
//! - `reading.rt`: `parse_serial`, and the law that what is read is what is spelled.
//! - `text.rt`: `SerialText` and the calls that write.
//! - `admission.rt`: `AdmissionList`, its limit `MAX_ON_A_PORT` and the count of each port; it stands on `index.rt`,
//!   the map itself (a `BTreeMap`), and `key.rt`, its key. Another representation of the map changes these two alone.
//! - `fault.rt`: both fault enums.
//! - `specs/Spelling.antt`: what a spelling is. `specs/Admitted.antt`: what the list is, and its limit.
#![tactic(auto)]

mod admission;
mod fault;
mod index;
mod key;
mod reading;
mod text;

pub use admission::{AdmissionList, MAX_ON_A_PORT};
pub use fault::{AdmitFault, SerialFault};
pub use index::Admission;
pub use reading::{parse_serial, spellings_are_read};
pub use text::{SerialText, push_serial_text, serial_text, text_spells_serial};
