//! The fields of a line of delimited text.
ghost use Rattle.std.specs.Prelude.{◌≡◌, None, Some, MatchOption, option_map};
ghost use Rattle.line_columns.specs.Fields as spec;

use crate::quoted::quoted;
use crate::text::{cut, first_octet, trimmed, trimmed_end};

/// A field, and what stands behind the separator that ends it; None where the line ends it.
#[derive(Clone, Copy)]
pub(crate) struct Cut<'a> {
    pub(crate) text: &'a [u8],
    pub(crate) rest: Option<&'a [u8]>,
}

/// Gives a field that was closed, if nothing but a separator stands behind it.
fn closed<'a>(separator: u8, text: &'a [u8], behind: &'a [u8]) -> Option<Cut<'a>>
    ensures { MatchOption result (spec.closed separator text.now behind.now ≡ None) (λ field.
        spec.closed separator text.now behind.now ≡ Some (field.text.now, option_map (λ rest. rest.now) field.rest)) }
{
    match behind {
        [] => Some(Cut { text, rest: None }),
        [octet, rest @ ..] if *octet == separator => Some(Cut {
            text,
            rest: Some(rest),
        }),
        _ => None,
    }
}

/// Reads a field behind the quotation mark that opens it.
#[tactic(auto, unfolding(crate::specs::Fields::quoted_field))]
fn quoted_field(separator: u8, text: &[u8]) -> Option<Cut<'_>>
    ensures { MatchOption result (spec.quoted_field separator text.now ≡ None) (λ field.
        spec.quoted_field separator text.now ≡ Some (field.text.now, option_map (λ rest. rest.now) field.rest)) }
{
    let (said, behind) = quoted(text)?;
    closed(separator, said, trimmed(behind))
}

/// Gives what stands behind the separator with which a text begins.
fn behind_first(text: &[u8]) -> Option<&[u8]>
    ensures { option_map (λ rest. rest.now) result ≡ spec.behind_first text.now }
{
    match text {
        [] => None,
        [_, rest @ ..] => Some(rest),
    }
}

/// Reads a field without quotation marks.
#[tactic(auto, unfolding(crate::specs::Fields::bare_field))]
fn bare_field(separator: u8, text: &[u8]) -> Cut<'_>
    ensures { spec.bare_field separator text.now ≡ (result.text.now, option_map (λ rest. rest.now) result.rest) }
{
    let (field, behind) = cut(text, first_octet(separator, text));
    Cut {
        text: trimmed_end(field),
        rest: behind_first(behind),
    }
}

/// Reads a field that begins here.
fn field_here(separator: u8, text: &[u8]) -> Option<Cut<'_>>
    ensures { MatchOption result (spec.field_here separator text.now ≡ None) (λ field.
        spec.field_here separator text.now ≡ Some (field.text.now, option_map (λ rest. rest.now) field.rest)) }
{
    match text {
        [] => Some(Cut { text, rest: None }),
        [b'"', inside @ ..] => quoted_field(separator, inside),
        _ => Some(bare_field(separator, text)),
    }
}

/// Reads the first field of a line; None where a quotation mark isn't closed, or something stands behind one that
/// closes.
#[tactic(auto, unfolding(crate::specs::Fields::first_field))]
fn first_field(separator: u8, text: &[u8]) -> Option<Cut<'_>>
    ensures { MatchOption result (spec.first_field separator text.now ≡ None) (λ field.
        spec.first_field separator text.now ≡ Some (field.text.now, option_map (λ rest. rest.now) field.rest)) }
{
    field_here(separator, trimmed(text))
}

/// Gives what stands behind the first field; None where it is the last, or can't be read.
#[tactic(auto, unfolding(crate::specs::Fields::behind_field))]
fn behind_field(separator: u8, text: &[u8]) -> Option<&[u8]>
    ensures { option_map (λ rest. rest.now) result ≡ spec.behind_field separator text.now }
{
    first_field(separator, text)?.rest
}

/// Reads the field with so many before it; None where there are fewer.
pub(crate) fn field(separator: u8, place: usize, text: &[u8]) -> Option<&[u8]>
    ensures { option_map (λ field. field.now) result ≡ spec.field separator place text.now }
{
    let mut rest = text;
    'fields: for _ in 0..place {
        rest = behind_field(separator, rest)?;
    }
    let first = first_field(separator, rest)?;
    Some(first.text)
}
