//! Fields of JSON objects, as several of the tests look them up.
use serde_json::Value;
use std::alloc::Global;

/// A field of an object.
#[derive(Clone, Copy)]
pub(crate) enum Field {
    Text(&'static str, &'static str),
    Number(&'static str, u64),
    Truth(&'static str, bool),
}

/// Tells whether an object has this field.
fn has_field(object: &Value, field: Field) -> bool {
    match field {
        Field::Text(name, text) => object.get(name).and_then(Value::as_str) == Some(text),
        Field::Number(name, number) => object.get(name).and_then(Value::as_u64) == Some(number),
        Field::Truth(name, truth) => object.get(name).and_then(Value::as_bool) == Some(truth),
    }
}

/// Tells whether an object has each of these fields.
pub(crate) fn has_fields(object: &Value, fields: &[Field]) -> bool {
    for field in fields {
        if !has_field(object, *field) {
            return false;
        }
    }
    true
}

/// Tells whether a value is an object with these fields and no other.
pub(crate) fn is_object(value: &Value, fields: &[Field]) -> bool {
    match value.as_object() {
        Some(all) => all.len() == fields.len() && has_fields(value, fields),
        None => false,
    }
}

/// The value of octets that are one line of JSON. None where they are none.
pub(crate) fn value_of_line(alloc: Global, line: &[u8]) -> Option<Value> {
    let text = str::from_utf8(line).ok()?;
    let end = line.iter().position(|octet| *octet == b'\n')?;
    if end + 1 != line.len() {
        return None;
    }
    Value::from_str(alloc, text).ok()
}
