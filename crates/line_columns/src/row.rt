//! The fields of a line that are wanted.
ghost use Rattle.std.specs.Prelude.{◌≡◌, None, Some, MatchOption, option_map};
ghost use Rattle.line_columns.specs.Rows as spec;

use crate::columns::Columns;
use crate::field::field;
use crate::words::is_word;

/// What a line says, by its fields: the port and the delay are empty where there are none.
#[derive(Clone, Copy)]
pub(crate) struct Row<'a> {
    pub(crate) port: &'a [u8],
    pub(crate) time: &'a [u8],
    pub(crate) direction: &'a [u8],
    pub(crate) code: &'a [u8],
    pub(crate) delay: &'a [u8],
}

/// Reads a field that has to be one word.
fn word_at(separator: u8, place: usize, text: &[u8]) -> Option<&[u8]>
    ensures { option_map (λ word. word.now) result ≡ spec.word_at separator place text.now }
{
    let word = field(separator, place, text)?;
    if is_word(word) { Some(word) } else { None }
}

/// Reads the port, if there is a column for it.
fn port_at(separator: u8, place: Option<usize>, text: &[u8]) -> Option<&[u8]>
    ensures { option_map (λ word. word.now) result ≡ spec.port_at separator place text.now }
{
    match place {
        None => Some(&[]),
        Some(place) => word_at(separator, place, text),
    }
}

/// Reads the delay, if there is a column for it.
fn delay_at(separator: u8, place: Option<usize>, text: &[u8]) -> Option<&[u8]>
    ensures { option_map (λ word. word.now) result ≡ spec.delay_at separator place text.now }
{
    match place {
        None => Some(&[]),
        Some(place) => field(separator, place, text),
    }
}

/// Reads the fields that are wanted; None where a line has fewer columns, one that has to be a word is none, or a
/// quotation mark isn't closed before the last that is wanted.
#[tactic(auto, unfolding(crate::specs::Rows::row_of))]
pub(crate) fn row_of<'a>(columns: &Columns, text: &'a [u8]) -> Option<Row<'a>>
    ensures { MatchOption result (spec.row_of columns.now text.now ≡ None) (λ row. spec.row_of columns.now text.now
        ≡ Some (record {
          port = row.port.now;
          time = row.time.now;
          direction = row.direction.now;
          code = row.code.now;
          delay = row.delay.now;
        })) }
{
    let separator = columns.separator.octet();
    let port = port_at(separator, columns.port, text)?;
    let time = word_at(separator, columns.time, text)?;
    let direction = word_at(separator, columns.direction, text)?;
    let code = field(separator, columns.code, text)?;
    let delay = delay_at(separator, columns.delay, text)?;
    Some(Row {
        port,
        time,
        direction,
        code,
        delay,
    })
}
