//! The layout that is asked for, by the first line where columns have names.
ghost use Rattle.std.specs.Prelude.{◌≡◌, ◌<◌, ◌^◌, MatchResult};
ghost use Rattle.std.specs.Option.{SomeIff};
ghost use Rattle.std.specs.Str.Parse.{IsNumeral, digits_value};
ghost use Rattle.line_columns.specs.Wanted as spec;

use crate::columns::Separator;
use crate::heading::place_of;

/// Reads a number of decimal digits below 2 ^ 16.
fn number_in(text: &str) -> Option<u16>
    ensures { spec.IsNumber text.now result }
{
    text.parse::<u16>().ok()
}

/// Tells whether a column is given by its number.
pub fn is_number(column: &str) -> bool
    ensures { spec.IsNumbered column.now result }
{
    number_in(column).is_some()
}

/// Gives how many columns stand before one that is given by its number from 1, or by a name of the line that names the
/// columns; None where there is none.
pub fn place_asked(separator: Separator, column: &str, heading: &[u8]) -> Option<usize>
    ensures { spec.IsPlaceAsked separator column.now heading.now result }
{
    match number_in(column) {
        Some(0) => None,
        Some(number) => Some(usize::from(number) - 1),
        None => place_of(separator, column.as_bytes(), heading),
    }
}
