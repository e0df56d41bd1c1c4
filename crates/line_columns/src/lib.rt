//! Lines of delimited text, as analysers and spreadsheets write them, made into lines without columns.
//!
//! Promise: what is read of a line with a layout is what the definitions say, exactly (`plain_of`); a name is that of
//! the first column that has it in the heading, and one that no column has is told (`place_of`); which columns a text
//! asks for is read whole, or what is wrong with it is told (`columns_asked`).
//!
//! - `unit.rt`: `TimeUnit`, what a time without a unit is counted in. `columns.rt`: `Columns`, which column is which,
//!   and `Separator`.
//! - `layout.rt`: `Layout`, and `plain_of`, what is read of a line.
//! - `text.rt`: parts of a text. `words.rt`: the words of a line without columns. `quoted.rt`: fields in quotation
//!   marks. `field.rt`: the fields of a line. `row.rt`: those that are wanted; `push.rt`: the line that is made of them.
//! - `timed.rt`: a line without columns whose time gets a unit.
//! - `heading.rt`: the column of a name. `asked.rt`: which columns a text asks for; `wanted.rt`: the column of a number
//!   or a name.
//!
//! Where to make which change: how fields are parted and quoted stands in `specs/Fields.antt`, what is made of a line's
//! fields in `specs/Rows.antt`, what is read of a line in `specs/Layout.antt`. How the line that is made is read stands
//! in `gp_log`.
#![tactic(auto)]

mod asked;
mod columns;
mod field;
mod heading;
mod layout;
mod push;
mod quoted;
mod row;
mod text;
mod timed;
mod unit;
mod wanted;
mod words;

pub use asked::{AskedFault, Parts, columns_asked};
pub use columns::{Columns, Separator};
pub use heading::{MOST_COLUMNS, place_of};
pub use layout::{Layout, plain_of};
pub use unit::TimeUnit;
pub use wanted::{is_number, place_asked};
