//! Fields that are wanted of an object, and whether it has them and no other.
use serde_json::Value;
use std::alloc::{AllocError, Global};

/// A field that is no object and no list.
#[derive(Clone, Copy)]
pub(crate) enum Plain {
    Text(&'static str, &'static str),
    Number(&'static str, u64),
    Truth(&'static str, bool),
    Null(&'static str),
}

/// A field of an object.
#[derive(Clone, Copy)]
pub(crate) enum Field {
    Plain(Plain),
    /// An object with these fields.
    Object(&'static str, &'static [Plain]),
    /// A list of such.
    List(&'static str, &'static [&'static [Plain]]),
}

/// Tells whether an object has this field.
fn has_plain(object: &Value, field: Plain) -> bool {
    match field {
        Plain::Text(name, text) => object.get(name).and_then(Value::as_str) == Some(text),
        Plain::Number(name, number) => object.get(name).and_then(Value::as_u64) == Some(number),
        Plain::Truth(name, truth) => object.get(name).and_then(Value::as_bool) == Some(truth),
        Plain::Null(name) => object.get(name).map(Value::is_null) == Some(true),
    }
}

/// Tells how many fields an object has; None of a value that is none.
fn count_of(value: &Value) -> Option<usize> {
    value.as_object().map(|all| all.len())
}

/// Tells whether a value is an object with these fields and no other.
pub(crate) fn is_plain_object(value: &Value, fields: &[Plain]) -> bool {
    count_of(value) == Some(fields.len()) && fields.iter().all(|field| has_plain(value, *field))
}

/// Tells whether a value is a list of objects with these fields and no other.
fn is_list(value: &Value, objects: &[&'static [Plain]]) -> bool {
    let Some(told) = value.as_array() else {
        return false;
    };
    told.len() == objects.len()
        && told
            .iter()
            .zip(objects.iter())
            .all(|(one, fields)| is_plain_object(one, *fields))
}

/// Tells whether an object has this field.
fn has_field(object: &Value, field: Field) -> bool {
    match field {
        Field::Plain(plain) => has_plain(object, plain),
        Field::Object(name, fields) => {
            object.get(name).map(|value| is_plain_object(value, fields)) == Some(true)
        }
        Field::List(name, objects) => {
            object.get(name).map(|value| is_list(value, objects)) == Some(true)
        }
    }
}

/// Tells whether a value is an object with these fields, in two parts, and no other.
pub(crate) fn is_object(value: &Value, front: &[Plain], fields: &[Field]) -> bool {
    count_of(value) == Some(front.len().saturating_add(fields.len()))
        && front.iter().all(|field| has_plain(value, *field))
        && fields.iter().all(|field| has_field(value, *field))
}

/// The same of fields that are no objects and no lists.
pub(crate) fn is_split_object(value: &Value, front: &[Plain], fields: &[Plain]) -> bool {
    count_of(value) == Some(front.len().saturating_add(fields.len()))
        && front.iter().all(|field| has_plain(value, *field))
        && fields.iter().all(|field| has_plain(value, *field))
}

/// The text of octets that are whole lines.
fn whole_lines(octets: &[u8]) -> Option<&str> {
    let text = str::from_utf8(octets).ok()?;
    (text.is_empty() || text.ends_with('\n')).then_some(text)
}

/// Reads a line as JSON. Tells whether it is that.
fn push_line(values: &mut Vec<Value>, alloc: Global, line: &str) -> Result<bool, AllocError> {
    match Value::from_str(alloc, line) {
        Ok(value) => {
            values.push(value)?;
            Ok(true)
        }
        Err(_) => Ok(false),
    }
}

/// Reads each line of a text as JSON. Tells whether all are that.
fn push_lines(values: &mut Vec<Value>, alloc: Global, text: &str) -> Result<bool, AllocError> {
    for line in text.lines() {
        if !push_line(values, alloc, line)? {
            return Ok(false);
        }
    }
    Ok(true)
}

/// Reads each line of a text as JSON. None where one is none, or the last has no line feed.
pub(crate) fn read_lines(alloc: Global, octets: &[u8]) -> Result<Option<Vec<Value>>, AllocError> {
    let Some(text) = whole_lines(octets) else {
        return Ok(None);
    };
    let mut values = Vec::new(alloc);
    match push_lines(&mut values, alloc, text)? {
        true => Ok(Some(values)),
        false => Ok(None),
    }
}

/// Tells whether values are objects with these fields each, and no others.
fn are_objects(values: &[Value], wanted: &[&'static [Plain]]) -> bool {
    values.len() == wanted.len()
        && values
            .iter()
            .zip(wanted.iter())
            .all(|(value, fields)| is_plain_object(value, *fields))
}

/// Tells whether the lines of a text are objects with these fields each, and no others.
pub(crate) fn are_lines(
    alloc: Global,
    text: &[u8],
    wanted: &[&'static [Plain]],
) -> Result<bool, AllocError> {
    match read_lines(alloc, text)? {
        Some(values) => Ok(are_objects(&values, wanted)),
        None => Ok(false),
    }
}
