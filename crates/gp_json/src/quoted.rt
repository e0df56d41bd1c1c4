//! A text in UTF-8 as JSON spells it.
ghost use Rattle.std.specs.Prelude.{◌≡◌, ◌++◌, IfOk, OnOk};
ghost use Rattle.std.specs.List.{flat_map};
ghost use Rattle.gp_json.specs.Spelling as spec;

use crate::text::push_octet;
use std::alloc::{AllocError, Global};

/// Appends an octet within a text.
fn push_utf8_octet(out: &mut Vec<u8>, octet: u8) -> Result<(), AllocError>
    ensures { OnOk result (out.new.items ≡ out.old.items ++ spec.escaped_utf8 octet) }
{
    if octet > 127 {
        out.extend_from_slice(&[octet])
    } else {
        push_octet(out, octet)
    }
}

/// Appends the octets of a text.
fn push_utf8(out: &mut Vec<u8>, text: &[u8]) -> Result<(), AllocError>
    ensures { OnOk result (out.new.items ≡ out.old.items ++ flat_map spec.escaped_utf8 text.now) }
{
    'octets: for octet in text {
        push_utf8_octet(out, *octet)?;
    }
    Ok(())
}

/// Gives a text between quotation marks, as JSON spells it: a quotation mark and a backslash behind a backslash, octets
/// that aren't printable by their numbers, and all else, also what is no ASCII, as it is. Fails where memory was
/// refused.
pub fn quoted_text(alloc: Global, text: &str) -> Result<Vec<u8>, AllocError>
    ensures { IfOk result (λ quoted. quoted.items ≡ spec.quoted_utf8 text.now) }
{
    let mut out = Vec::from_slice(alloc, b"\"")?;
    push_utf8(&mut out, text.as_bytes())?;
    out.extend_from_slice(b"\"")?;
    Ok(out)
}
