//! What is told of files as objects, read again as JSON: each field, and no other.
use crate::json::{Field, has_fields, value_of_line};
use gp_check::{Purpose, find_script, found_object, unread_object};
use gp_stream::Source;
use serde_json::Value;
use std::alloc::{AllocError, Global};

/// A script, and the fields of its object beside its name.
type Row = (&'static str, &'static [Field]);

const SCRIPT: Row = (
    "licences = 1\n[[port]]\n[[event]]\nport = 0\nframes = 1\n",
    &[
        Field::Truth("ok", true),
        Field::Number("ports", 1),
        Field::Number("units", 0),
        Field::Number("events", 1),
    ],
);

const AT_KEY: Row = (
    "licences = 1\n[[port]]\n[[port]]\ncycles = 0\n",
    &[
        Field::Truth("ok", false),
        Field::Text("table", "port"),
        Field::Number("index", 1),
        Field::Text("key", "cycles"),
        Field::Number("line", 4),
        Field::Text("kind", "range"),
        Field::Text("wanted", "1 to 10"),
    ],
);

const AT_ITEM: Row = (
    "licences = 1\n[[port]]\nadmit = [\"ABCD00000001\", \"ABCD\"]\n",
    &[
        Field::Truth("ok", false),
        Field::Text("table", "port"),
        Field::Number("index", 0),
        Field::Text("key", "admit"),
        Field::Number("item", 1),
        Field::Number("line", 3),
        Field::Text("kind", "serial"),
        Field::Text(
            "wanted",
            "4 of A to Z and 0 to 9 and 8 hexadecimal digits, or 16 hexadecimal digits",
        ),
    ],
);

const AT_TOP: Row = (
    "licences = 1\n",
    &[
        Field::Truth("ok", false),
        Field::Text("table", "top"),
        Field::Text("key", "port"),
        Field::Text("kind", "shape"),
        Field::Text("wanted", "missing"),
    ],
);

/// A key with a quotation mark, a backslash, a line feed, and what is no ASCII.
const UNKNOWN: Row = (
    "licences = 1\n\"a\\\"\\\\\\n\u{e4}\\u001f\" = 0\n[[port]]\n",
    &[
        Field::Truth("ok", false),
        Field::Text("table", "top"),
        Field::Text("key", "a\"\\\n\u{e4}\u{1f}"),
        Field::Text("kind", "shape"),
        Field::Text(
            "wanted",
            "unknown key; there are licences, mask, journal_limit, port, unit, lose, event",
        ),
    ],
);

const ROWS: [Row; 5] = [SCRIPT, AT_KEY, AT_ITEM, AT_TOP, UNKNOWN];

/// Tells whether a value is an object of the file with this name, with these fields and no other.
fn is_of_file(value: &Value, name: &str, fields: &[Field]) -> bool {
    let Some(all) = value.as_object() else {
        return false;
    };
    let is_named = value.get("file").and_then(Value::as_str) == Some(name);
    is_named && all.len() == fields.len() + 1 && has_fields(value, fields)
}

/// Tells whether a line is such an object.
fn is_told(alloc: Global, line: &[u8], name: &str, fields: &[Field]) -> bool {
    match value_of_line(alloc, line) {
        Some(value) => is_of_file(&value, name, fields),
        None => false,
    }
}

/// What is told of a file with these octets, as an object.
fn object_of(
    alloc: Global,
    purpose: Purpose,
    name: &str,
    octets: &[u8],
) -> Result<Vec<u8>, AllocError> {
    let mut source = Source::new(octets);
    let found = find_script(alloc, purpose, &mut source)?;
    found_object(alloc, name, &found)
}

const NAME: &str = "a \"b\"\\\u{e4}\u{7f}.toml";

#[test]
fn objects_of_scripts(rt: HostRuntime) -> Result<(), AllocError> {
    for (text, fields) in &ROWS {
        let object = object_of(rt.alloc(), Purpose::Replay, NAME, text.as_bytes())?;
        assert!(rt; is_told(rt.alloc(), &object, NAME, fields), "{text}");
    }
    Ok(())
}

/// The line of what is no TOML, and that a column follows.
#[test]
fn objects_of_no_toml(rt: HostRuntime) -> Result<(), AllocError> {
    let object = object_of(rt.alloc(), Purpose::Replay, "s", b"licences = 1\nport\n")?;
    let begin = b"{\"file\":\"s\",\"ok\":false,\"line\":2,\"column\":";
    assert!(rt; object.as_slice().starts_with(begin));
    Ok(())
}

const NO_TEXT: &[Field] = &[
    Field::Truth("ok", false),
    Field::Text("kind", "syntax"),
    Field::Text("wanted", "not UTF-8"),
];

#[test]
fn objects_of_no_text(rt: HostRuntime) -> Result<(), AllocError> {
    let object = object_of(rt.alloc(), Purpose::Storm, "s", b"\xff")?;
    assert!(rt; is_told(rt.alloc(), &object, "s", NO_TEXT));
    Ok(())
}

const NOT_READ: &[Field] = &[
    Field::Truth("ok", false),
    Field::Text("why", "can't be read: \"x\""),
];

#[test]
fn objects_of_what_is_not_read(rt: HostRuntime) -> Result<(), AllocError> {
    let object = unread_object(rt.alloc(), "s", "can't be read: \"x\"")?;
    assert!(rt; is_told(rt.alloc(), &object, "s", NOT_READ));
    Ok(())
}
