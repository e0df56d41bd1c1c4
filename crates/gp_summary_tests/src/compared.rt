//! Summaries beside what is wanted of them: texts, and objects that are read again.
use serde_json::Value;
use std::alloc::{AllocError, Global};

/// Tells whether there is a summary, and it is this.
pub(crate) fn is_text(summary: &Result<Vec<u8>, AllocError>, wanted: &str) -> bool {
    match summary {
        Ok(text) => text.as_slice() == wanted.as_bytes(),
        Err(_) => false,
    }
}

/// Tells whether a summary is this, or memory for it was refused.
pub(crate) fn is_text_or_refused(summary: &Result<Vec<u8>, AllocError>, wanted: &str) -> bool {
    match summary {
        Ok(text) => text.as_slice() == wanted.as_bytes(),
        Err(_) => true,
    }
}

/// What stands at a key.
#[derive(Clone, Copy)]
pub(crate) enum Wanted {
    Number(u64),
    Text(&'static str),
    /// A list of these numbers.
    Numbers(&'static [u64]),
}

/// A field of the object of a line: which line it is, from 0, the key, and what stands there.
pub(crate) type Field = (usize, &'static str, Wanted);

/// The object of a line, if it is one.
fn object_of(alloc: Global, line: &[u8]) -> Option<Value> {
    let text = str::from_utf8(line).ok()?;
    Value::from_str(alloc, text).ok()
}

/// The objects of the lines of a summary, with `null` for each line that is none.
fn objects_of(alloc: Global, summary: &[u8]) -> Result<Vec<Value>, AllocError> {
    let mut objects = Vec::new(alloc);
    for line in summary.split(|octet| *octet == b'\n') {
        if !line.is_empty() {
            objects.push(object_of(alloc, line).unwrap_or(Value::Null))?;
        }
    }
    Ok(objects)
}

/// Tells whether a value is a list of these numbers.
fn are_numbers(value: &Value, wanted: &[u64]) -> bool {
    let Some(list) = value.as_array() else {
        return false;
    };
    list.len() == wanted.len()
        && list
            .iter()
            .zip(wanted.iter())
            .all(|(one, number)| one.as_u64() == Some(*number))
}

/// Tells whether this stands at a key of an object.
fn has(object: &Value, key: &str, wanted: Wanted) -> bool {
    match wanted {
        Wanted::Number(number) => object.get(key).and_then(Value::as_u64) == Some(number),
        Wanted::Text(text) => object.get(key).and_then(Value::as_str) == Some(text),
        Wanted::Numbers(numbers) => {
            object.get(key).map(|value| are_numbers(value, numbers)) == Some(true)
        }
    }
}

/// Tells whether there are so many objects, and one of them has this field.
fn have(objects: &[Value], count: usize, field: &Field) -> bool {
    let (place, key, wanted) = *field;
    match objects.get(place) {
        Some(object) => objects.len() == count && has(object, key, wanted),
        None => false,
    }
}

/// Tells whether a summary has so many lines, and the object of one of them has this field.
pub(crate) fn has_field(
    alloc: Global,
    summary: &[u8],
    lines: usize,
    field: &Field,
) -> Result<bool, AllocError> {
    let objects = objects_of(alloc, summary)?;
    Ok(have(&objects, lines, field))
}
