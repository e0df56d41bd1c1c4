//! The PLOAM messages of ITU-T G.984.3, clause 9, and their codes of thirteen
//! octets.
//!
//! Promise: a code is its message's row with its check octet, and thirteen octets are read as that message alone or
//! refused as what they are (`encode_down`, `decode_down`, and `_up`).
//!
//! - `message.rt`: the messages of both directions (`Down`, `Up`), `Serial`, `LAST_ONU`, `ONU_IDS` and `BROADCAST_ONU`.
//! - `identifier.rt`: the identifiers of both directions.
//! - `check.rt`: `Mask`, the check octet, and what both directions do with it.
//! - `octets.rt`: the parts of codes that several messages share.
//! - `down.rt`, `up.rt`: one direction each: writing and reading codes, which messages are proper, the two laws.
//! - `specs/Row.antt`: what a cell of the table of codes is, and what it means to be read by one.
//!   `specs/Down.antt`, `specs/Up.antt`: the tables, one row a message. `specs/Crc.antt`: the check octet by long
//!   division. `specs/OnuIds.antt`: the last ONU-ID, and the one that means every unit.
//!   `specs/Serials.antt`: serial numbers compared and stored.
//!
//! A new message is a variant in `message.rt`, an identifier, a row and the ranges of its fields in `specs/`, an arm
//! for writing it and one for reading it.
#![tactic(auto)]

mod check;
mod down;
mod identifier;
mod message;
mod octets;
mod up;

pub use check::{Mask, crc};
pub use down::{decode_down, down_read_once, down_round_trip, encode_down, is_proper};
pub use identifier::down::ASSIGN_ALLOC_ID;
pub use message::{BROADCAST_ONU, Down, LAST_ONU, ONU_IDS, PloamFault, Serial, Up};
pub use up::{decode_up, encode_up, is_proper_up, up_read_once, up_round_trip};
