//! Says as JSON which messages codes are, and which codes words have: an object for each line.
//!
//! Promise: each line is answered by the object of its code or its words, or by that of its first fault
//! (`decode_objects`, `encode_objects`; of one code, or the words of one message, `decode_object`, `encode_object`).
//!
//! - `decoder.rt`: `decode_objects`, what answers lines of codes; `shown.rt`: the answer to one; `spelled.rt`: whose
//!   code a line has, and its octets or its first fault.
//! - `encoder.rt`: `encode_objects`, what answers lines of words; `words.rt`: the answer to one.
//! - `alone.rt`: `decode_object` and `encode_object`, which answer one text as if it were the first line.
//! - `message.rt`: the name and the fields of a message. `object.rt`: how an object begins, its fields, and the object
//!   of a fault.
//!
//! Where to make which change: what an object of a code has stands in `specs/Decoded.antt`, one of words in
//! `specs/Encoded.antt`, what both have in `specs/Object.antt`, the fields of a message in `gp_json`; what is passed
//! over in a line, and which faults there are, in `gp_decode` and `gp_encode`.
#![tactic(auto)]

mod alone;
mod decoder;
mod encoder;
mod message;
mod object;
mod shown;
mod spelled;
mod words;

pub use alone::{decode_object, encode_object};
pub use decoder::decode_objects;
pub use encoder::encode_objects;
