//! What is told of a trace as an object, read again as JSON: each field, and no other.
use super::{FOUND, Found, RANGED, SCRIPT, SEARCH, is_found, is_written, told};
use crate::json::{Field, is_object, value_of_line};
use gp_explain::Form;
use gp_replay::RunFault;
use gp_script::ScriptFault;
use gp_verify::CheckFault;
use std::alloc::{AllocError, Global};

/// What comes behind a search, and the fields of the object that is told of the whole.
type Row = (&'static [u8], &'static [Field]);

const RUN: Row = (b"", &[Field::Truth("run", true), Field::Number("lines", 6)]);

const OTHER_ANSWER: Row = (
    b"0 6 burst 100000 ff01414243440000000100002c = found 254\n",
    &[
        Field::Truth("run", false),
        Field::Text("kind", "not a run"),
        Field::Number("line", 7),
        Field::Text(
            "text",
            "0 6 burst 100000 ff01414243440000000100002c = found 254",
        ),
        Field::Text(
            "machine",
            "0 6 burst 100000 ff01414243440000000100002c = found 0",
        ),
        Field::Text("choice", "any free ONU-ID would do"),
        Field::Text("why", "the reply: `found 0`, not `found 254`"),
    ],
);

const OTHER_NUMBER: Row = (
    b"0 7 frame = ok\n",
    &[
        Field::Truth("run", false),
        Field::Text("kind", "not the next number"),
        Field::Number("line", 7),
        Field::Text("text", "0 7 frame = ok"),
        Field::Text("machine", "0 6 frame = ok"),
        Field::Text("why", "the number: `6` is next, not `7`"),
    ],
);

const NO_PORT: Row = (
    b"1 0 frame = ok\n",
    &[
        Field::Truth("run", false),
        Field::Text("kind", "no such port"),
        Field::Number("line", 7),
        Field::Text("text", "1 0 frame = ok"),
        Field::Text("why", "the port: the last of the script is 0"),
    ],
);

/// A quotation mark, a backslash, a tab, what is no UTF-8, and an a with two dots in UTF-8: each octet is a character.
const NO_LINE: Row = (
    b"found \"7\"\\\t\xff\xc3\xa4\x7f\r\n",
    &[
        Field::Truth("run", false),
        Field::Text("kind", "no line of a trace"),
        Field::Number("line", 7),
        Field::Text("text", "found \"7\"\\\t\u{ff}\u{c3}\u{a4}\u{7f}\r"),
        Field::Text("why", "the port: a line begins with one, 0 to 15"),
    ],
);

/// The same octets in a line of a trace, which the reason tells too.
const ODD_ANSWER: Row = (
    b"0 6 frame = \"\\\t\xff\xc3\xa4\n",
    &[
        Field::Truth("run", false),
        Field::Text("kind", "not a run"),
        Field::Number("line", 7),
        Field::Text("text", "0 6 frame = \"\\\t\u{ff}\u{c3}\u{a4}"),
        Field::Text("machine", "0 6 frame = ok"),
        Field::Text("why", "the reply: `ok`, not `\"\\\t\u{ff}\u{c3}\u{a4}`"),
    ],
);

const OPEN: Row = (
    b"0 6 burst 100000 ff01414243440000000100002c = found 0",
    &[
        Field::Truth("run", false),
        Field::Text("kind", "no line feed"),
        Field::Number("line", 7),
    ],
);

const LONG: Row = (
    &[b'0'; 4_097],
    &[
        Field::Truth("run", false),
        Field::Text("kind", "line too long"),
        Field::Number("line", 7),
    ],
);

const ROWS: [Row; 8] = [
    RUN,
    OTHER_ANSWER,
    OTHER_NUMBER,
    NO_PORT,
    NO_LINE,
    ODD_ANSWER,
    OPEN,
    LONG,
];

/// What is asked for at least, a text, and the fields of its object.
type Counted = (Option<u64>, &'static str, &'static [Field]);

const NONE_CAME: Counted = (
    None,
    "",
    &[
        Field::Truth("run", false),
        Field::Text("kind", "no line came"),
        Field::Number("lines", 0),
        Field::Number("wanted", 1),
    ],
);

const NONE_WANTED: Counted = (
    Some(0),
    "",
    &[Field::Truth("run", true), Field::Number("lines", 0)],
);

const ONE_WANTED: Counted = (
    Some(1),
    "",
    &[
        Field::Truth("run", false),
        Field::Text("kind", "too few lines"),
        Field::Number("lines", 0),
        Field::Number("wanted", 1),
    ],
);

const AS_MANY: Counted = (
    Some(6),
    SEARCH,
    &[Field::Truth("run", true), Field::Number("lines", 6)],
);

const ONE_MORE: Counted = (
    Some(7),
    SEARCH,
    &[
        Field::Truth("run", false),
        Field::Text("kind", "too few lines"),
        Field::Number("lines", 6),
        Field::Number("wanted", 7),
    ],
);

const MANY_MORE: Counted = (
    Some(u64::MAX),
    SEARCH,
    &[
        Field::Truth("run", false),
        Field::Text("kind", "too few lines"),
        Field::Number("lines", 6),
        Field::Number("wanted", u64::MAX),
    ],
);

const COUNTED: [Counted; 6] = [
    NONE_CAME,
    NONE_WANTED,
    ONE_WANTED,
    AS_MANY,
    ONE_MORE,
    MANY_MORE,
];

/// Tells whether a line in ASCII is told, which is an object with these fields and no other.
fn is_object_told(alloc: Global, found: &Option<Found>, fields: &[Field]) -> bool {
    let Some((_, line)) = found else {
        return false;
    };
    match value_of_line(alloc, line) {
        Some(value) => line.is_ascii() && is_object(&value, fields),
        None => false,
    }
}

/// Tells whether this is told of a text, where so many lines are asked for.
fn is_told(alloc: Global, at_least: Option<u64>, text: &[u8], fields: &[Field]) -> bool {
    let found = told(alloc, Form::Json, at_least, SCRIPT, text);
    is_object_told(alloc, &found, fields)
}

/// Tells the same of a search and this behind it.
fn is_told_behind(alloc: Global, last: &[u8], fields: &[Field]) -> Result<bool, AllocError> {
    let mut text = Vec::from_slice(alloc, SEARCH.as_bytes())?;
    text.extend_from_slice(last)?;
    Ok(is_told(alloc, None, &text, fields))
}

#[test]
fn objects_of_lines(rt: HostRuntime) {
    for (last, fields) in &ROWS {
        assert!(rt; is_told_behind(rt.alloc(), last, fields) == Ok(true));
    }
}

#[test]
fn objects_of_counts(rt: HostRuntime) {
    for (at_least, text, fields) in &COUNTED {
        assert!(rt; is_told(rt.alloc(), *at_least, text.as_bytes(), fields));
    }
}

const NO_ALLOC_ID: &[Field] = &[
    Field::Truth("run", false),
    Field::Text("kind", "not a run"),
    Field::Number("line", 17),
    Field::Text("text", "0 16 alloc ABCD00000001 = allocated 4096"),
    Field::Text("machine", "0 16 alloc ABCD00000001 = allocated 256"),
    Field::Text("choice", "any free Alloc-ID would do"),
    Field::Text("why", "the reply: `allocated 256`, not `allocated 4096`"),
];

const SIXTEEN_LINES: &[Field] = &[Field::Truth("run", true), Field::Number("lines", 16)];

/// An Alloc-ID that is not free; and one of a run of sixteen lines.
#[test]
fn objects_behind_a_ranged_unit(rt: HostRuntime) -> Result<(), AllocError> {
    let run = format!(in rt.alloc(); "{SEARCH}{RANGED}")?;
    assert!(rt; is_told(rt.alloc(), Some(16), run.as_bytes(), SIXTEEN_LINES));
    let text = format!(in rt.alloc(); "{run}0 16 alloc ABCD00000001 = allocated 4096\n")?;
    assert!(rt; is_told(rt.alloc(), None, text.as_bytes(), NO_ALLOC_ID));
    Ok(())
}

/// Nothing is told as an object of a script that is wrong.
#[test]
fn no_object_of_no_script(rt: HostRuntime) {
    let script = "licences = 1\n";
    let found = told(rt.alloc(), Form::Json, None, script, FOUND.as_bytes());
    let shape = CheckFault::Script(RunFault::Script(ScriptFault::Shape));
    assert!(rt; is_found(&found, Err(shape)) && is_written(&found, ""));
}
