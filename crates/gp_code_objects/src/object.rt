//! How the object of a line begins, its fields, and the object of a fault.
ghost use Rattle.std.specs.Prelude.{◌≡◌, ◌++◌, OnOk, codes, decimal};
ghost use Rattle.gp_json.specs.Message.{key_text, number_field, text_field};
ghost use Rattle.gp_code_objects.specs.Object as spec;

use itoa::Buffer;
use std::alloc::AllocError;

/// Puts the beginning of a line's object into a buffer, in place of what it held.
pub(crate) fn begin_object(out: &mut Vec<u8>, line: u64) -> Result<(), AllocError>
    ensures { OnOk result (out.new.items ≡ spec.object_begun line) }
{
    let mut digits = Buffer::new();
    out.clear();
    out.extend_from_slice(b"{\"line\":")?;
    out.extend_from_slice(digits.format(line).as_bytes())
}

/// Appends the end of an object.
pub(crate) fn end_object(out: &mut Vec<u8>) -> Result<(), AllocError>
    ensures { OnOk result (out.new.items ≡ out.old.items ++ spec.object_end) }
{
    out.extend_from_slice(b"}\n")
}

/// Appends the name of a field.
pub(crate) fn push_key(out: &mut Vec<u8>, key: &str) -> Result<(), AllocError>
    ensures { OnOk result (out.new.items ≡ out.old.items ++ key_text key.now) }
{
    out.extend_from_slice(b",\"")?;
    out.extend_from_slice(key.as_bytes())?;
    out.extend_from_slice(b"\":")
}

/// Appends a field that is a text in which nothing is escaped.
pub(crate) fn push_text(out: &mut Vec<u8>, key: &str, text: &[u8]) -> Result<(), AllocError>
    ensures { OnOk result (out.new.items ≡ out.old.items ++ text_field key.now text.now) }
{
    push_key(out, key)?;
    out.extend_from_slice(b"\"")?;
    out.extend_from_slice(text)?;
    out.extend_from_slice(b"\"")
}

/// Appends a field that is a number.
pub(crate) fn push_number(out: &mut Vec<u8>, key: &str, number: u32) -> Result<(), AllocError>
    ensures { OnOk result (out.new.items ≡ out.old.items ++ number_field key.now number) }
{
    let mut digits = Buffer::new();
    push_key(out, key)?;
    out.extend_from_slice(digits.format(number).as_bytes())
}

/// Appends the field of a code.
pub(crate) fn push_code(out: &mut Vec<u8>, code: &[u8; 13]) -> Result<(), AllocError>
    ensures { OnOk result (out.new.items ≡ out.old.items ++ spec.code_field code.now) }
{
    let mut digits = [0u8; 26];
    hex::encode_to_slice(code.as_slice(), &mut digits).unwrap();
    push_text(out, "code", digits.as_slice())
}

/// Puts the object of a line with a fault of this name into a buffer, in place of what it held.
pub(crate) fn put_error(out: &mut Vec<u8>, line: u64, name: &str) -> Result<(), AllocError>
    ensures { OnOk result (out.new.items ≡ spec.error_object line name.now) }
{
    begin_object(out, line)?;
    push_text(out, "error", name.as_bytes())?;
    end_object(out)
}
