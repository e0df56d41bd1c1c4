//! Writes the lines of a trace as JSON, one object a line.
//!
//! Promise: a line is the object of its parts, or that of a line that is none (`write_object`, `write_other`,
//! `write_light`).
//!
//! - `object.rt`: `write_object`, a line as an object; `other.rt`: `write_other`, one that is none of a trace, with
//!   `unit.rt`, what is told of a simulated unit. `light.rt`: `light_in` and `write_light`, that light came or went
//!   there.
//! - `slot.rt`: what stands where in a line, and which field it makes; `field.rt`: that field.
//! - `message.rt`: a message as an object; `words.rt`: in words; `allocs.rt`: Alloc-IDs as a list of objects.
//! - `writer.rt`: `ObjectWriter`, which gathers the pieces of an object.
//! - `text.rt`: `push_quoted`, a text of any octets, and numbers, as JSON spells them; `quoted.rt`: `quoted_text`, a
//!   text in UTF-8.
//!
//! Where to make which change: which field a part makes, and what stands behind it, in `specs/Slots.antt` and
//! `slot.rt`; how a field is spelled in `specs/Fields.antt` and `field.rt`; the fields of a message in
//! `specs/Message.antt` and `message.rt`.
#![tactic(auto)]

mod allocs;
mod field;
mod light;
mod message;
mod object;
mod other;
mod quoted;
mod slot;
mod text;
mod unit;
mod words;
mod writer;

pub use light::{LightLine, light_in, write_light};
pub use object::write_object;
pub use other::write_other;
pub use quoted::quoted_text;
pub use slot::{Kind, Slot};
pub use text::push_quoted;
