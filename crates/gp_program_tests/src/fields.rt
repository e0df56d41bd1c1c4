//! The messages and the Alloc-IDs of a trace as objects, read as JSON: each field, and no other.
use crate::json::{Field, is_object, value_of_line};
use gp_explain::{ExplainFault, Form, Telling, explain_trace};
use gp_ploam::Mask;
use gp_stream::{Sink, Source};
use serde_json::Value;
use std::alloc::{AllocError, Global};

/// A line of a trace up to a code, what stands behind that, and the names of its words and of its object.
type Way = (&'static str, &'static str, &'static str, &'static str);

const DOWN: Way = ("0 7 frame = ok sent ", "\n", "sent_message", "sent_fields");

const UP: Way = ("0 6 burst 5 ", " = ok\n", "message", "message_fields");

/// A code, the words of its message, and the fields of its object.
type Row = (Way, &'static str, &'static str, &'static [Field]);

const ONU: Field = Field::Number("onu", 3);

const SERIAL: Field = Field::Text("serial", "ABCD00000001");

const DOWN_ROWS: [Row; 13] = [
    (
        DOWN,
        "ff0100112233445566778899b5",
        "Upstream_Overhead 00112233445566778899",
        &[
            Field::Text("name", "Upstream_Overhead"),
            Field::Text("octets", "00112233445566778899"),
        ],
    ),
    (
        DOWN,
        "ff0303414243440000000100a3",
        "Assign_ONU-ID 3 ABCD00000001",
        &[Field::Text("name", "Assign_ONU-ID"), ONU, SERIAL],
    ),
    (
        DOWN,
        "0304000003386000000000007b",
        "Ranging_Time 3 211040",
        &[
            Field::Text("name", "Ranging_Time"),
            ONU,
            Field::Number("eqd", 211_040),
        ],
    ),
    (
        DOWN,
        "03050000000000000000000084",
        "Deactivate_ONU-ID 3",
        &[Field::Text("name", "Deactivate_ONU-ID"), ONU],
    ),
    (
        DOWN,
        "ff06ff41424344000000010055",
        "Disable_Serial_Number ABCD00000001",
        &[Field::Text("name", "Disable_Serial_Number"), SERIAL],
    ),
    (
        DOWN,
        "ff060041424344000000010078",
        "Enable_Serial_Number ABCD00000001",
        &[Field::Text("name", "Enable_Serial_Number"), SERIAL],
    ),
    (
        DOWN,
        "ff060f00000000000000000053",
        "Enable_All",
        &[Field::Text("name", "Enable_All")],
    ),
    (
        DOWN,
        "030a1010010000000000000025",
        "Assign_Alloc-ID 3 257 keep",
        &[
            Field::Text("name", "Assign_Alloc-ID"),
            ONU,
            Field::Number("alloc", 257),
            Field::Truth("keep", true),
        ],
    ),
    (
        DOWN,
        "030a1010ff00000000000000ed",
        "Assign_Alloc-ID 3 257 back",
        &[
            Field::Text("name", "Assign_Alloc-ID"),
            ONU,
            Field::Number("alloc", 257),
            Field::Truth("keep", false),
        ],
    ),
    (
        DOWN,
        "ff0b000000000000000000009e",
        "No_message",
        &[Field::Text("name", "No_message")],
    ),
    (
        DOWN,
        "030c0000000000000000000063",
        "POPUP 3",
        &[Field::Text("name", "POPUP"), ONU],
    ),
    // without a row, with a name of the standard and without
    (
        DOWN,
        "ff09001122334455667788994d",
        "Other 9 255 00112233445566778899",
        &[
            Field::Text("name", "Request_Password"),
            Field::Number("id", 9),
            Field::Number("octet1", 255),
            Field::Text("octets", "00112233445566778899"),
        ],
    ),
    (
        DOWN,
        "ff07011122334455667788999f",
        "Other 7 255 01112233445566778899",
        &[
            Field::Text("name", "Other"),
            Field::Number("id", 7),
            Field::Number("octet1", 255),
            Field::Text("octets", "01112233445566778899"),
        ],
    ),
];

const UP_ROWS: [Row; 6] = [
    (
        UP,
        "030141424344000000010aa57c",
        "Serial_Number_ONU 3 ABCD00000001 170 5",
        &[
            Field::Text("name", "Serial_Number_ONU"),
            ONU,
            SERIAL,
            Field::Number("random", 170),
            Field::Number("flags", 5),
        ],
    ),
    (
        UP,
        "030300000000000000000000c6",
        "Dying_Gasp 3",
        &[Field::Text("name", "Dying_Gasp"), ONU],
    ),
    (
        UP,
        "0304000000000000000000009b",
        "No_message 3",
        &[Field::Text("name", "No_message"), ONU],
    ),
    (
        UP,
        "03090a00000000000000000099",
        "Acknowledge 3 10",
        &[
            Field::Text("name", "Acknowledge"),
            ONU,
            Field::Number("id", 10),
        ],
    ),
    (
        UP,
        "03050011223344556677889969",
        "Other 5 3 00112233445566778899",
        &[
            Field::Text("name", "Encryption_key"),
            Field::Number("id", 5),
            Field::Number("octet1", 3),
            Field::Text("octets", "00112233445566778899"),
        ],
    ),
    (
        UP,
        "030a00112233445566778899cc",
        "Other 10 3 00112233445566778899",
        &[
            Field::Text("name", "Other"),
            Field::Number("id", 10),
            Field::Number("octet1", 3),
            Field::Text("octets", "00112233445566778899"),
        ],
    ),
];

/// What is written of a line of a trace, as JSON.
fn written_of(
    alloc: Global,
    line: &str,
) -> Result<(Result<u64, ExplainFault>, Vec<u8>), AllocError> {
    let mut source = Source::endless(line.as_bytes());
    let mut sink = Sink::new(alloc, Vec::new(alloc))?;
    let telling = Telling::new(alloc, Mask::Plain, Form::Json, false);
    let outcome = explain_trace(alloc, telling, &mut source, &mut sink);
    Ok((outcome, sink.into_inner()))
}

/// The same as a value, which is null where it is no line of JSON.
fn object_of(alloc: Global, line: &str) -> Result<Value, AllocError> {
    let (outcome, written) = written_of(alloc, line)?;
    if outcome != Ok(1) {
        return Ok(Value::Null);
    }
    Ok(value_of_line(alloc, &written).unwrap_or(Value::Null))
}

/// A line of a trace with a code.
fn line_with(alloc: Global, way: Way, code: &str) -> Result<String, AllocError> {
    let mut line = String::from_str(alloc, way.0)?;
    line.push_str(code)?;
    line.push_str(way.1)?;
    Ok(line)
}

/// Tells whether a line's message has these words and these fields.
fn is_told(line: &Value, way: Way, words: &str, fields: &[Field]) -> bool {
    let Some(object) = line.get(way.3) else {
        return false;
    };
    line.get(way.2).and_then(Value::as_str) == Some(words) && is_object(object, fields)
}

/// Tells whether a row's message is told so.
fn is_row(alloc: Global, row: &Row) -> Result<bool, AllocError> {
    let (way, code, words, fields) = *row;
    let line = line_with(alloc, way, code)?;
    let object = object_of(alloc, &line)?;
    Ok(is_told(&object, way, words, fields))
}

#[test]
fn messages_down(rt: HostRuntime) {
    for row in &DOWN_ROWS {
        assert!(rt; is_row(rt.alloc(), row) == Ok(true), "{}", row.2);
    }
}

#[test]
fn messages_up(rt: HostRuntime) {
    for row in &UP_ROWS {
        assert!(rt; is_row(rt.alloc(), row) == Ok(true), "{}", row.2);
    }
}

/// Tells whether an object has a field that is null.
fn is_null(object: &Value, name: &str) -> bool {
    match object.get(name) {
        Some(value) => value.is_null(),
        None => false,
    }
}

/// Tells whether neither the words nor the object of a garbled message is told.
fn is_untold(alloc: Global, way: Way) -> Result<bool, AllocError> {
    let line = line_with(alloc, way, "030300000000000000000000c7")?;
    let object = object_of(alloc, &line)?;
    Ok(is_null(&object, way.2) && is_null(&object, way.3))
}

/// Of a code whose check octet is wrong neither is told.
#[test]
fn garbled_messages(rt: HostRuntime) {
    assert!(rt; is_untold(rt.alloc(), DOWN) == Ok(true));
    assert!(rt; is_untold(rt.alloc(), UP) == Ok(true));
}

/// The Alloc-IDs of a unit, and which of them are leaving. None of a text that is no list.
type Allocs = Option<&'static [(u64, bool)]>;

const ALLOCS: [(&'static str, Allocs); 12] = [
    ("-", Some(&[])),
    ("256", Some(&[(256, false)])),
    ("256!", Some(&[(256, true)])),
    (
        "256,300!,4095",
        Some(&[(256, false), (300, true), (4095, false)]),
    ),
    ("0!,1!", Some(&[(0, true), (1, true)])),
    ("256,", None),
    (",256", None),
    ("256!!", None),
    ("!", None),
    ("0256", None),
    ("-,256", None),
    ("256;300", None),
];

/// Tells whether a value is this Alloc-ID, which is leaving or not.
fn is_alloc(value: &Value, alloc: u64, leaving: bool) -> bool {
    let fields = [
        Field::Number("alloc", alloc),
        Field::Truth("leaving", leaving),
    ];
    is_object(value, fields.as_slice())
}

/// Tells whether a value is a list of these Alloc-IDs, or null.
fn are_allocs(value: &Value, wanted: Allocs) -> bool {
    let Some(wanted) = wanted else {
        return value.is_null();
    };
    let Some(told) = value.as_array() else {
        return false;
    };
    told.len() == wanted.len()
        && told
            .iter()
            .zip(wanted.iter())
            .all(|(one, alloc)| is_alloc(one, alloc.0, alloc.1))
}

/// The line of a unit with this text for its Alloc-IDs.
fn unit_with(alloc: Global, text: &str) -> Result<String, AllocError> {
    let mut line = String::from_str(
        alloc,
        "0 22 show ABCD00000001 = unit 0 operating 211040 allocs ",
    )?;
    line.push_str(text)?;
    line.push('\n')?;
    Ok(line)
}

/// Tells whether a unit's object has the text of its Alloc-IDs, and a list of these.
fn has_allocs(object: &Value, text: &str, wanted: Allocs) -> bool {
    let is_text = object.get("allocs").and_then(Value::as_str) == Some(text);
    match object.get("alloc_list") {
        Some(list) => is_text && are_allocs(list, wanted),
        None => false,
    }
}

#[test]
fn alloc_ids(rt: HostRuntime) -> Result<(), AllocError> {
    for (text, wanted) in &ALLOCS {
        let line = unit_with(rt.alloc(), text)?;
        let object = object_of(rt.alloc(), &line)?;
        assert!(rt; has_allocs(&object, text, *wanted), "{text}");
    }
    Ok(())
}
