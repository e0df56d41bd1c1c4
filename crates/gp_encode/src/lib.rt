//! Gives the code of a message that is said in words: the inverse of `gp_decode`.
//!
//! Promise: words give the code that is told in these words, and what `decode` says comes back (`encode_words`,
//! `encode_lines`, `words_come_back`).
//!
//! - `line.rt`: `encode_line`, which writes the code in hexadecimal digits; `encoding.rt`: `encode_words`, from words
//!   to thirteen octets.
//! - `lines.rt`: `encode_lines`, which does so of each line of an input; `encoder.rt`: `Encoder`, what serves the
//!   lines; `answer.rt`: what is said to one.
//! - `down.rt`, `up.rt`: the message that words say, of each direction; `fields.rt`: its fields.
//! - `laws.rt`: the words that `gp_decode` has for a message say that message.
//! - `fault.rt`: what may be wrong with words.
//!
//! Where to make which change: the words of a message stand in `specs/Words.antt` and in the function of `down.rt` or
//! `up.rt` that is proved to read them, a kind of field in `specs/Fields.antt` and `fields.rt`; what is said to a line
//! of many in `answer.rt` and `specs/Lines.antt`.
#![tactic(auto)]

mod answer;
mod down;
mod encoder;
mod encoding;
mod fault;
mod fields;
mod laws;
mod line;
mod lines;
mod up;

pub use encoder::WordsFaultAt;
pub use encoding::encode_words;
pub use fault::{EncodeFault, WordsFault};
pub use laws::{words_are_read, words_come_back};
pub use line::encode_line;
pub use lines::encode_lines;
