//! Entries of a port, the line of each, and the object that is told of the line.
ghost use Rattle.std.specs.Option.{ForSome};
ghost use Rattle.gp_ploam.specs.Down.{IsProperDown};

mod events;
mod replies;
mod rest;

use crate::fields::{Field, Plain, is_object};
use gp_json::write_object;
use gp_machine::{Answer, Entry, Event, Receipt};
use gp_ploam::{Mask, Serial};
use gp_trace::push_line;
use serde_json::Value;
use std::alloc::{AllocError, Global};

const A: Serial = Serial(*b"ABCD\x00\x00\x00\x01");

/// Every entry here is the seventh of port 1, in whose line the field of a reply or of an event stands behind these.
const FRONT: [Plain; 2] = [Plain::Number("port", 1), Plain::Number("number", 7)];

/// The line of an entry with this event and this answer, without its line feed.
fn line_of(alloc: Global, event: Event, answer: Answer) -> Result<Vec<u8>, AllocError>
    requires { ForSome answer.sent IsProperDown }
{
    let entry = Entry {
        purse_in: 0,
        event,
        answer,
        purse_out: 0,
    };
    let receipt = Receipt {
        port: 1,
        number: 7,
        entry,
    };
    let mut line = Vec::new(alloc);
    push_line(&mut line, Mask::Plain, &receipt)?;
    line.pop();
    Ok(line)
}

/// Tells whether an entry has this line.
fn is_line(alloc: Global, event: Event, answer: Answer, text: &str) -> Result<bool, AllocError>
    requires { ForSome answer.sent IsProperDown }
{
    let line = line_of(alloc, event, answer)?;
    Ok(line.as_slice() == text.as_bytes())
}

/// What is told of a line as an object.
fn object_of(alloc: Global, line: &[u8]) -> Result<Vec<u8>, AllocError> {
    let mut out = Vec::new(alloc);
    write_object(alloc, Mask::Plain, None, line, &mut out)?;
    Ok(out)
}

/// Reads an object; None where that is no JSON, or not one line.
fn read(alloc: Global, octets: &[u8]) -> Option<Value> {
    let text = str::from_utf8(octets).ok()?;
    if !text.ends_with('\n') {
        return None;
    }
    Value::from_str(alloc, text).ok()
}

/// Tells whether a text is an object with the two fields in front and these.
fn has_fields(alloc: Global, octets: &[u8], fields: &[Field]) -> bool {
    match read(alloc, octets) {
        Some(object) => is_object(&object, FRONT.as_slice(), fields),
        None => false,
    }
}

/// Tells whether a line is told by the two fields in front and these.
fn is_told_by(alloc: Global, line: &str, fields: &[Field]) -> Result<bool, AllocError> {
    let object = object_of(alloc, line.as_bytes())?;
    Ok(has_fields(alloc, &object, fields))
}

/// Tells whether an entry has this line, and is told by the two fields in front and these.
fn is_told(
    alloc: Global,
    event: Event,
    answer: Answer,
    text: &str,
    fields: &[Field],
) -> Result<bool, AllocError>
    requires { ForSome answer.sent IsProperDown }
{
    if !is_line(alloc, event, answer, text)? {
        return Ok(false);
    }
    is_told_by(alloc, text, fields)
}
