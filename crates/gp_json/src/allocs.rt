//! The Alloc-IDs of a unit as a list of objects.
ghost use Rattle.std.specs.Prelude.{◌≡◌, ◌++◌, OnOk, codes, position};
ghost use Rattle.std.specs.List.{list_all};
ghost use Rattle.gp_json.specs.Allocs as spec;

use crate::message::truth;
use crate::text::is_number;
use crate::writer::ObjectWriter;
use std::alloc::AllocError;

/// Gives what stands before the mark of one that is leaving, or all, and tells whether the mark stands at the end.
fn marked(part: &[u8]) -> (&[u8], bool)
    ensures number { result.0.now ≡ spec.without_mark part.now }
    ensures leaving { result.1 ≡ spec.is_leaving part.now }
{
    match part.strip_suffix(b"!") {
        Some(number) => (number, true),
        None => (part, false),
    }
}

/// Tells whether this is an Alloc-ID.
fn is_alloc(part: &[u8]) -> bool
    ensures { result ≡ spec.is_alloc part.now }
{
    is_number(marked(part).0)
}

/// Tells whether all that commas part are Alloc-IDs.
fn are_allocs(text: &[u8]) -> bool
    ensures { result ≡ list_all spec.is_alloc (spec.split_allocs text.now) }
{
    text.split(|octet| *octet == b',')
        .all(|part| is_alloc(part))
}

/// Gives the place of the first comma.
fn first_comma(text: &[u8]) -> Option<usize>
    ensures { result ≡ position spec.is_comma text.now }
{
    text.iter().position(|octet| *octet == b',')
}

/// Appends an Alloc-ID, and whether it is leaving.
fn push_alloc(out: &mut ObjectWriter, part: &[u8]) -> Result<(), AllocError>
    ensures { OnOk result (out.new ≡ out.old ++ spec.alloc_object part.now) }
{
    let (number, is_leaving) = marked(part);
    out.put(b"{\"alloc\":")?;
    out.put(number)?;
    out.put(b",\"leaving\":")?;
    out.put(truth(is_leaving).as_bytes())?;
    out.put(b"}")
}

/// Appends one that another stands behind.
fn push_next(out: &mut ObjectWriter, part: &[u8]) -> Result<(), AllocError>
    ensures { OnOk result (out.new ≡ out.old ++ (spec.alloc_object part.now ++ codes ",")) }
{
    push_alloc(out, part)?;
    out.put(b",")
}

/// Appends the objects of all that commas part.
fn push_objects(out: &mut ObjectWriter, text: &[u8]) -> Result<(), AllocError>
    ensures { OnOk result (out.new ≡ out.old ++ spec.alloc_objects (spec.split_allocs text.now)) }
{
    let mut rest = text;
    'parts: while let Some(at) = first_comma(rest) {
        push_next(out, &rest[..at])?;
        rest = &rest[at + 1..];
    }
    push_alloc(out, rest)
}

/// Appends a list with the objects of all that commas part.
fn push_listed(out: &mut ObjectWriter, text: &[u8]) -> Result<(), AllocError>
    ensures { OnOk result (out.new ≡ out.old
        ++ (codes "[" ++ spec.alloc_objects (spec.split_allocs text.now) ++ codes "]")) }
{
    out.put(b"[")?;
    push_objects(out, text)?;
    out.put(b"]")
}

/// Appends the list of the Alloc-IDs that a text tells, or `null`.
pub(crate) fn push_list(out: &mut ObjectWriter, text: &[u8]) -> Result<(), AllocError>
    ensures { OnOk result (out.new ≡ out.old ++ spec.alloc_list text.now) }
{
    if text == b"-".as_slice() {
        out.put(b"[]")
    } else if are_allocs(text) {
        push_listed(out, text)
    } else {
        out.put(b"null")
    }
}
