//! Texts and numbers as JSON spells them.
ghost use Rattle.std.specs.Prelude.{◌≡◌, ◌<◌, ◌++◌, OnOk, position};
ghost use Rattle.std.specs.List.{flat_map, list_all};
ghost use Rattle.gp_json.specs.Spelling as spec;
ghost use Rattle.gp_json.specs.Runs.{is_escaped, is_plain};

use std::alloc::AllocError;

/// Gives a hexadecimal digit.
fn hex_digit(number: u8) -> u8
    requires { number < 16 }
    ensures { result ≡ spec.hex_digit number }
{
    if number < 10 {
        b'0' + number
    } else {
        b'a' - 10 + number
    }
}

/// Appends an octet within a text.
pub(crate) fn push_octet(out: &mut Vec<u8>, octet: u8) -> Result<(), AllocError>
    ensures { OnOk result (out.new.items ≡ out.old.items ++ spec.escaped octet) }
{
    if octet == b'"' || octet == b'\\' {
        return out.extend_from_slice(&[b'\\', octet]);
    }
    if octet >= b' ' && octet <= b'~' {
        return out.extend_from_slice(&[octet]);
    }
    out.extend_from_slice(b"\\u00")?;
    out.extend_from_slice(&[hex_digit(octet / 16), hex_digit(octet % 16)])
}

/// Tells whether an octet within a text doesn't stand for itself.
fn is_escaped(octet: u8) -> bool
    ensures { result ≡ is_escaped octet }
{
    octet == b'"' || octet == b'\\' || octet < b' ' || octet > b'~'
}

/// Tells whether each octet of a text stands for itself. It looks at each, also behind one that doesn't.
pub(crate) fn is_plain(text: &[u8]) -> bool
    ensures { result ≡ list_all is_plain text.now }
{
    let mut all = true;
    for octet in text {
        all &= !is_escaped(*octet);
    }
    all
}

/// Gives the place of the first octet that doesn't stand for itself.
fn first_escaped(text: &[u8]) -> Option<usize>
    ensures { result ≡ position is_escaped text.now }
{
    text.iter().position(|octet| is_escaped(*octet))
}

/// Appends the octets of a text, one by one.
fn push_each(out: &mut Vec<u8>, text: &[u8]) -> Result<(), AllocError>
    ensures { OnOk result (out.new.items ≡ out.old.items ++ flat_map spec.escaped text.now) }
{
    'octets: for octet in text {
        push_octet(out, *octet)?;
    }
    Ok(())
}

/// Appends the octets of a text: at once those before the first that doesn't stand for itself, and then one by one.
pub(crate) fn push_octets(out: &mut Vec<u8>, text: &[u8]) -> Result<(), AllocError>
    ensures { OnOk result (out.new.items ≡ out.old.items ++ flat_map spec.escaped text.now) }
{
    let plain = first_escaped(text).unwrap_or(text.len());
    out.extend_from_slice(&text[..plain])?;
    push_each(out, &text[plain..])
}

/// Appends a text of any octets, between quotation marks: a quotation mark and a backslash behind a backslash, other
/// printable ASCII as it is, and the rest by their numbers, as `\u00c3`. Where memory is refused, a part of it may have
/// been appended.
pub fn push_quoted(out: &mut Vec<u8>, text: &[u8]) -> Result<(), AllocError>
    ensures { OnOk result (out.new.items ≡ out.old.items ++ spec.quoted text.now) }
{
    out.extend_from_slice(b"\"")?;
    push_octets(out, text)?;
    out.extend_from_slice(b"\"")
}

/// Tells whether there is a digit, and no zero before another.
fn begins_well(part: &[u8]) -> bool
    ensures { result ≡ spec.begins_well part.now }
{
    match part {
        [] => false,
        [_] => true,
        [first, ..] => *first != b'0',
    }
}

/// Tells whether this is a decimal digit.
fn is_digit(octet: u8) -> bool
    ensures { result ≡ spec.is_digit octet }
{
    octet >= b'0' && octet <= b'9'
}

/// Tells whether these are decimal digits, if they are any.
fn are_digits(part: &[u8]) -> bool
    ensures { result ≡ list_all spec.is_digit part.now }
{
    part.iter().all(|octet| is_digit(*octet))
}

/// Tells whether these are decimal digits as JSON spells a number.
pub(crate) fn is_number(part: &[u8]) -> bool
    ensures { result ≡ spec.is_number part.now }
{
    begins_well(part) && are_digits(part)
}
