//! What is told of a file that may be a script: its counts, or where it is wrong and what is wanted there.
mod objects;
mod rows;

use crate::streams::FailingReader;
use gp_check::{Purpose, ScriptCheckFault, check_script, placed_line};
use gp_stream::{Sink, Source};
use std::alloc::{AllocError, Global};
use std::io::{self, Read};

/// Scripts that differ in what stands between two texts, and what is told of each.
#[derive(Clone, Copy)]
struct Table {
    before: &'static str,
    behind: &'static str,
    rows: &'static [(&'static str, &'static str)],
}

/// What is answered, and what is written.
type Told = (Result<bool, ScriptCheckFault>, Vec<u8>);

/// What is told of the bytes of a file `s`.
fn told<R: Read + Drop>(alloc: Global, reader: R) -> Result<Told, AllocError> {
    let mut source = Source::new(reader);
    let mut sink = Sink::new(alloc, Vec::new(alloc))?;
    let answer = check_script(alloc, "s", &mut source, &mut sink);
    Ok((answer, sink.into_inner()))
}

/// Tells whether this is written, and the answer.
fn is_answer(told: &Told, written: &str, is_script: bool) -> bool {
    told.0 == Ok(is_script) && told.1.as_slice() == written.as_bytes()
}

/// Tells whether this is the line that is written of a text, and the answer.
fn is_told(alloc: Global, text: &str, line: &str, is_script: bool) -> Result<bool, AllocError> {
    let found = told(alloc, text.as_bytes())?;
    let wanted = format!(in alloc; "s: {line}\n")?;
    Ok(is_answer(&found, &wanted, is_script))
}

/// The first text of these tables of which another line is written.
fn first_other(alloc: Global, tables: &[Table]) -> Result<Option<&'static str>, AllocError> {
    for table in tables {
        for (value, line) in table.rows {
            let text = format!(in alloc; "{}{value}{}", table.before, table.behind)?;
            if !is_told(alloc, text.as_str(), line, false)? {
                return Ok(Some(*value));
            }
        }
    }
    Ok(None)
}

#[test]
fn places_of_mistakes(rt: HostRuntime) {
    assert!(rt; first_other(rt.alloc(), &rows::TABLES) == Ok(None));
}

#[test]
fn scripts_are_counted(rt: HostRuntime) {
    for (text, line) in &rows::SCRIPTS {
        assert!(rt; is_told(rt.alloc(), text, line, true) == Ok(true), "{line}");
    }
}

/// Tells whether a file is no script, of which a line is written that begins so.
fn is_begun(told: &Told, begin: &str) -> bool {
    let line = told.1.as_slice();
    told.0 == Ok(false) && line.starts_with(begin.as_bytes()) && line.ends_with(b"\n")
}

/// Tells whether a text has a syntax fault at a place.
fn is_syntax_fault(alloc: Global, text: &str, place: &str) -> Result<bool, AllocError> {
    let found = told(alloc, text.as_bytes())?;
    let begin = format!(in alloc; "s: {place}: 1 syntax, ")?;
    Ok(is_begun(&found, &begin))
}

/// The line and the column of a syntax fault, both from 1; what the library says of it is left open.
#[test]
fn lines_and_columns(rt: HostRuntime) {
    for (text, place) in &rows::SYNTAX {
        assert!(rt;
            is_syntax_fault(rt.alloc(), text, place) == Ok(true),
            "{text}"
        );
    }
}

/// Tells whether a file is no script, of which this is written.
fn is_unread<R: Read + Drop>(alloc: Global, reader: R, written: &str) -> Result<bool, AllocError> {
    let found = told(alloc, reader)?;
    Ok(is_answer(&found, written, false))
}

#[test]
fn files_that_are_no_text(rt: HostRuntime) {
    let no_text = b"\xff".as_slice();
    assert!(rt; is_unread(rt.alloc(), no_text, "s: 1 syntax, not UTF-8\n") == Ok(true));
    assert!(rt; is_unread(rt.alloc(), FailingReader, "s: can't be read\n") == Ok(true));
    let spaces = io::repeat(b' ').take(1_048_577);
    assert!(rt; is_unread(rt.alloc(), spaces, "s: more than 1048576 bytes\n") == Ok(true));
}

/// So many tables in a list.
fn tables(alloc: Global, before: &str, count: usize, behind: &str) -> Result<String, AllocError> {
    let mut text = String::from_str(alloc, before)?;
    for _ in 0..count {
        text.push_str("{},")?;
    }
    text.push_str(behind)?;
    Ok(text)
}

/// Tells whether this is told of a script with so many tables in a list.
fn is_told_of_tables(
    alloc: Global,
    before: &str,
    count: usize,
    line: &str,
) -> Result<bool, AllocError> {
    let text = tables(alloc, before, count, "]")?;
    is_told(alloc, &text, line, false)
}

#[test]
fn too_many_tables(rt: HostRuntime) {
    let before = "licences = 1\nport = [";
    let line = "port: 3 range, 1 to 16 tables, line 2";
    assert!(rt; is_told_of_tables(rt.alloc(), before, 17, line) == Ok(true));
    let before = "licences = 1\nport = [{}]\nunit = [";
    let line = "unit: 3 range, 0 to 1024 tables, line 3";
    assert!(rt; is_told_of_tables(rt.alloc(), before, 1_025, line) == Ok(true));
}

/// Tells whether this is told of octets alone: a line, or nothing where they are a script.
fn is_placed(
    alloc: Global,
    purpose: Purpose,
    octets: &[u8],
    wanted: Option<&str>,
) -> Result<bool, AllocError> {
    let line = placed_line(alloc, purpose, octets)?;
    Ok(match (&line, wanted) {
        (Some(line), Some(wanted)) => line.as_str() == wanted,
        (None, None) => true,
        _ => false,
    })
}

/// A script with a unit, which no storm has.
const WITH_A_UNIT: &[u8] =
    b"licences = 1\n[[port]]\n[[unit]]\nserial = \"ABCD00000001\"\ndelay = 0";

/// What is told of octets alone is what is told of a file that has them, and nothing where they are a script.
#[test]
fn lines_without_a_name(rt: HostRuntime) {
    let text = b"licences = 1\n[[port]]\ncycles = 0";
    let line = Some("port 0, cycles: 3 range, 1 to 10, line 3");
    assert!(rt; is_placed(rt.alloc(), Purpose::Replay, text, line) == Ok(true));
    assert!(rt; is_placed(rt.alloc(), Purpose::Replay, WITH_A_UNIT, None) == Ok(true));
    let line = Some("unit: 2 shape, not in a storm, line 3");
    assert!(rt; is_placed(rt.alloc(), Purpose::Storm, WITH_A_UNIT, line) == Ok(true));
}

/// A script whose mistake stands behind empty lines: one, doubled so many times.
fn script_with_lines(alloc: Global, doubled: u32) -> Result<String, AllocError> {
    let mut feeds = String::from_str(alloc, "\n")?;
    for _ in 0..doubled {
        feeds = format!(in alloc; "{feeds}{feeds}")?;
    }
    format!(in alloc; "licences = 1\n[[port]]\n{feeds}cycles = 0")
}

/// A text of many lines takes no deep stack.
#[test]
fn lines_in_long_texts(rt: HostRuntime) -> Result<(), AllocError> {
    let text = script_with_lines(rt.alloc(), 17)?;
    let line = "port 0, cycles: 3 range, 1 to 10, line 131075";
    assert!(rt; is_told(rt.alloc(), &text, line, false)?);
    Ok(())
}

/// What is answered of a script that is empty where the output has so much room, and what it takes.
fn told_to(alloc: Global, room: usize) -> Result<Told, AllocError> {
    let mut source = Source::new(b"".as_slice());
    let mut taken = vec![in alloc; 0; room]?;
    let mut sink = Sink::new(alloc, &mut taken[..])?;
    let answer = check_script(alloc, "s", &mut source, &mut sink);
    drop(sink);
    Ok((answer, taken))
}

/// What was gathered before goes out first, and a writer that takes no more ends it.
#[test]
fn writers_that_end(rt: HostRuntime) -> Result<(), AllocError> {
    let (answer, taken) = told_to(rt.alloc(), 12)?;
    assert!(rt; answer == Err(ScriptCheckFault::Write));
    assert!(rt; taken.as_slice() == b"s: licences:".as_slice());
    Ok(())
}
