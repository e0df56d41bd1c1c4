//! Says in words which PLOAM message a code is, where the code is given as hexadecimal digits.
//!
//! Promise: a code is told in the words of its message, or its first fault is (`decode_line`, `decode_lines`).
//!
//! - `line.rt`: `decode_line`, which reads the digits and writes the message's line; `decode_line_in`, with names of
//!   the standard too.
//! - `lines.rt`: `decode_lines`, which does so of each line of an input, and `decode_each_in`, where each says its
//!   direction; `decoder.rt`: `Decoder`, what serves the lines; `answer.rt`: what is said to one, and
//!   `push_check_note`, what would be right of a wrong check octet; `text.rt`: what a line says; `direction.rt`: whose
//!   messages the codes are.
//! - `append.rt`: a message as its name and its fields; `push_words_of`, the words of thirteen octets behind what a
//!   buffer holds. `words.rt`: `words_of`, the same as a text.
//! - `names.rt`: `other_name`, the names of messages without a row.
//! - `code.rt`: the thirteen octets of a text of hexadecimal digits, which `gp_code` reads, or its first fault.
//! - `laws.rt`: a code in digits alone is read as it is; no row has another name.
//! - `fault.rt`: what may be wrong with a text, or with saying its message.
//!
//! Where to make which change: the words for a message stand in `append.rt` and `specs/Message.antt`;
//! what is wrong with a text, and in which order, in `code.rt` and `specs/Line.antt`; what is passed over in a line of
//! many in `text.rt` and `specs/LineText.antt`; what is said to it in `answer.rt` and `specs/Lines.antt`; a line on
//! standard error or an exit status in `gp_report`.
#![tactic(auto)]

mod answer;
mod append;
mod code;
mod decoder;
mod direction;
mod fault;
mod laws;
mod line;
mod lines;
mod names;
mod text;
mod words;

pub use answer::push_check_note;
pub use append::push_words_of;
pub use decoder::{Decoder, FaultAt};
pub use direction::Direction;
pub use fault::DecodeFault;
pub use laws::{named_rows_stay, plain_digits_stay};
pub use line::{decode_line, decode_line_in};
pub use lines::{decode_each_in, decode_lines};
pub use names::other_name;
pub use text::{is_remark, without_return};
pub use words::words_of;
