//! The column of a name, by the line that names the columns.
ghost use Rattle.std.specs.Prelude.{◌≡◌, option_map};
ghost use Rattle.line_columns.specs.Heading as spec;

use crate::columns::Separator;
use crate::field::field;
use crate::text::text_of;

/// How many columns are looked at for a name.
pub const MOST_COLUMNS: usize = 1_024;

/// Tells whether a column, if there is one, has this name.
fn has_name(name: &[u8], column: Option<&[u8]>) -> bool
    ensures { result ≡ spec.has_name name.now (option_map (λ column. column.now) column.entry) }
{
    match column {
        Some(column) => column == name,
        None => false,
    }
}

/// Tells whether the column with so many before it has this name.
fn is_named(separator: Separator, name: &[u8], heading: &[u8], place: usize) -> bool
    ensures { result ≡ spec.is_named separator name.now heading.now place }
{
    has_name(name, field(separator.octet(), place, text_of(heading)))
}

/// Gives how many columns stand before the first one of this name, by the line that names them; None where no column
/// has it.
pub fn place_of(separator: Separator, name: &[u8], heading: &[u8]) -> Option<usize>
    ensures { spec.IsPlace separator name.now heading.now result }
{
    'places: for place in 0..MOST_COLUMNS {
        if is_named(separator, name, heading, place) {
            return Some(place);
        }
    }
    None
}
