//! The line of a script where a mistake stands.
ghost use Rattle.std.specs.Prelude.{◌≡◌, ◌+◌, ◌<◌, ◌≤◌, ◌^◌, IfOk, IfSome, length, map};
ghost use Rattle.std.specs.Option.{option_copied};
ghost use Rattle.std.specs.Str.Lines.{lines};
ghost use Rattle.gp_script.specs.Fault.{mistake_view, table_mistake_view};
ghost use Rattle.gp_check.specs.Lines as spec;

use crate::text::is_top;
use gp_script::{Mistake, Spot, TableMistake, TablePlace};
use std::alloc::{AllocError, Global};
use std::str;

/// Gives a text without the spaces and tabs at its front.
fn behind_blanks(mut text: &[u8]) -> &[u8]
    ensures { result.now ≡ spec.behind_blanks text.entry.now }
{
    while let [b' ' | b'\t', rest @ ..] = text {
        text = rest;
    }
    text
}

/// Tells whether nothing stands there but a remark, if that.
fn is_remark_at_most(text: &[u8]) -> bool
    ensures { result ≡ spec.is_remark_at_most text.now }
{
    match text {
        [] => true,
        [first, ..] => *first == b'#',
    }
}

/// Tells whether a line is this header.
fn is_header(header: &[u8], line: &[u8]) -> bool
    ensures { result ≡ spec.is_header header.now line.now }
{
    let text = behind_blanks(line);
    text.starts_with(header) && is_remark_at_most(behind_blanks(&text[header.len()..]))
}

/// Tells whether a line is the header of one of the four lists of tables.
fn is_known_header(line: &[u8]) -> bool
    ensures { result ≡ spec.is_known_header line.now }
{
    is_header(b"[[port]]", line)
        || is_header(b"[[unit]]", line)
        || is_header(b"[[lose]]", line)
        || is_header(b"[[event]]", line)
}

/// Tells whether a line begins as a header of a list, but is none of those.
fn is_odd_header(line: &[u8]) -> bool
    ensures { result ≡ spec.is_odd_header line.now }
{
    behind_blanks(line).starts_with(b"[[") && !is_known_header(line)
}

/// Tells whether a text begins with this octet.
fn begins_with(octet: u8, text: &[u8]) -> bool
    ensures { result ≡ spec.begins_with octet text.now }
{
    match text {
        [] => false,
        [first, ..] => *first == octet,
    }
}

/// Tells whether a line gives a value to the key with this name.
fn has_key(name: &[u8], line: &[u8]) -> bool
    ensures { result ≡ spec.has_key name.now line.now }
{
    let text = behind_blanks(line);
    text.starts_with(name) && begins_with(b'=', behind_blanks(&text[name.len()..]))
}

/// Tells whether a text of several lines may begin here.
fn begins_long_text(text: &[u8]) -> bool
    ensures { result ≡ spec.begins_long_text text.now }
{
    match text {
        [first, second, third, ..] => {
            (*first == b'"' || *first == b'\'') && (first == second && second == third)
        }
        _ => false,
    }
}

/// Tells whether a text of several lines may begin somewhere in a text.
fn has_long_text(mut text: &[u8]) -> bool
    ensures { result ≡ spec.has_long_text text.entry.now }
{
    while let [_, rest @ ..] = text {
        if begins_long_text(text) {
            return true;
        }
        text = rest;
    }
    false
}

/// Tells whether a line of a text is an odd header.
fn has_odd_header(text: &str) -> bool
    ensures { result ≡ spec.has_odd_header text.now }
{
    text.lines().any(|line| is_odd_header(line.as_bytes()))
}

/// Gives the lines of a text.
fn lines_of(alloc: Global, text: &str) -> Result<Vec<&str>, AllocError>
    ensures { IfOk result (λ script. map (λ line. line.now) script.items ≡ lines text.now) }
{
    text.lines().collect(alloc)
}

/// Gives the number of the line that is this header and has so many of them before it.
fn header_line(mut lines: &[&str], header: &[u8], place: usize) -> Option<usize>
    requires { length lines.now + 1 < 2 ^ 64 }
    ensures line { result ≡ spec.header_line header.now place 1 (map (λ line. line.now) lines.entry.now) }
    ensures within { IfSome result (λ number. number ≤ length lines.entry.now) }
{
    let mut left = place;
    let mut number = 1;
    while let [line, rest @ ..] = lines {
        if is_header(header, line.as_bytes()) {
            if left == 0 {
                return Some(number);
            }
            left -= 1;
        }
        number += 1;
        lines = rest;
    }
    None
}

/// Gives the number of the first line with this key, before the first that begins a table, in lines of which the first
/// has this number.
fn key_line(mut lines: &[&str], first: usize, name: &[u8]) -> Option<usize>
    requires { first + length lines.now < 2 ^ 64 }
    ensures { result ≡ spec.key_line name.now first (map (λ line. line.now) lines.entry.now) }
{
    let mut number = first;
    while let [line, rest @ ..] = lines {
        let text = line.as_bytes();
        if begins_with(b'[', behind_blanks(text)) {
            return None;
        }
        if has_key(name, text) {
            return Some(number);
        }
        number += 1;
        lines = rest;
    }
    None
}

/// Tells whether a text closes the header of a table with this name: the name stands at its front and this behind it.
fn is_closed(name: &[u8], close: &[u8], text: &[u8]) -> bool
    ensures { result ≡ spec.is_closed name.now close.now text.now }
{
    text.starts_with(name) && is_header(close, &text[name.len()..])
}

/// Tells whether a line is the header of the table with this name, or of one of a list of tables.
fn is_header_of(name: &[u8], line: &[u8]) -> bool
    ensures { result ≡ spec.is_header_of name.now line.now }
{
    let text = behind_blanks(line);
    if text.starts_with(b"[[") {
        is_closed(name, b"]]", behind_blanks(&text[2..]))
    } else {
        begins_with(b'[', text) && is_closed(name, b"]", behind_blanks(&text[1..]))
    }
}

/// Gives the number of the first line that is a header with this name.
fn first_header(mut lines: &[&str], name: &[u8]) -> Option<usize>
    requires { length lines.now + 1 < 2 ^ 64 }
    ensures { result ≡ spec.first_header name.now 1 (map (λ line. line.now) lines.entry.now) }
{
    let mut line_number = 1;
    while let [line, rest @ ..] = lines {
        if is_header_of(name, line.as_bytes()) {
            return Some(line_number);
        }
        line_number += 1;
        lines = rest;
    }
    None
}

/// Gives the line of a key of the top, or of the first header with its name.
fn line_in_top(lines: &[&str], key: Option<&[u8]>) -> Option<usize>
    requires { length lines.now + 1 < 2 ^ 64 }
    ensures { result ≡ spec.line_in_top (option_copied key.entry) (map (λ line. line.now) lines.now) }
{
    let name = key?;
    match key_line(lines, 1, name) {
        Some(line) => Some(line),
        None => first_header(lines, name),
    }
}

/// Gives the line of a key of the table whose header is this line.
fn line_below(lines: &[&str], header: usize, key: Option<&[u8]>) -> usize
    requires within { header ≤ length lines.now }
    requires room { length lines.now + 1 < 2 ^ 64 }
    ensures { result ≡ spec.line_below (option_copied key.entry) (map (λ line. line.now) lines.now) header }
{
    match key {
        None => header,
        Some(name) => key_line(&lines[header..], header + 1, name).unwrap_or(header),
    }
}

/// Gives the line of a table of a list, or of a key of it.
fn line_in_list(lines: &[&str], header: &[u8], place: usize, key: Option<&[u8]>) -> Option<usize>
    requires { length lines.now + 1 < 2 ^ 64 }
    ensures { result
        ≡ spec.line_in_list header.now place (option_copied key.entry) (map (λ line. line.now) lines.now) }
{
    let header = header_line(lines, header, place)?;
    Some(line_below(lines, header, key))
}

/// Gives the line of a table, or of a key of it.
fn line_in_table(lines: &[&str], table: TablePlace, key: Option<&[u8]>) -> Option<usize>
    requires { length lines.now + 1 < 2 ^ 64 }
    ensures { result ≡ spec.line_in_table table (option_copied key.entry) (map (λ line. line.now) lines.now) }
{
    match table {
        TablePlace::Top => line_in_top(lines, key),
        TablePlace::Port(place) => line_in_list(lines, b"[[port]]", place, key),
        TablePlace::Unit(place) => line_in_list(lines, b"[[unit]]", place, key),
        TablePlace::Lose(place) => line_in_list(lines, b"[[lose]]", place, key),
        TablePlace::Event(place) => line_in_list(lines, b"[[event]]", place, key),
    }
}

/// Gives the key of a spot, where it has one; an item of a list of the top is a table of its own.
fn key_of_spot(table: TablePlace, spot: Spot) -> Option<&'static [u8]>
    ensures { option_copied result ≡ spec.key_of_spot table spot }
{
    match spot {
        Spot::Table => None,
        Spot::Key(key) => Some(key.name().as_bytes()),
        Spot::Item(key, _) => {
            if is_top(table) {
                None
            } else {
                Some(key.name().as_bytes())
            }
        }
    }
}

/// Gives the key where a mistake in a table stands.
fn key_of(table: TablePlace, mistake: &TableMistake) -> Option<&[u8]>
    ensures { option_copied result ≡ spec.key_of table (table_mistake_view mistake.now) }
{
    match mistake {
        TableMistake::UnknownKey(name) => Some(name.as_bytes()),
        TableMistake::Unmet(spot, _) => key_of_spot(table, *spot),
    }
}

/// Gives the line of a mistake in a table of a text.
fn line_in_text(
    alloc: Global,
    text: &str,
    table: TablePlace,
    key: Option<&[u8]>,
) -> Result<Option<usize>, AllocError>
    ensures { IfOk result (λ line. line ≡ spec.line_in_text table (option_copied key.entry) text.now) }
{
    if has_long_text(text.as_bytes()) || (!is_top(table) && has_odd_header(text)) {
        return Ok(None);
    }
    let lines = lines_of(alloc, text)?;
    Ok(line_in_table(lines.as_slice(), table, key))
}

/// Gives the same of bytes, where they are a text.
#[tactic(auto, using(crate::proofs::LinesLemmas::utf8_yes, crate::proofs::LinesLemmas::utf8_no))]
fn line_in_bytes(
    alloc: Global,
    bytes: &[u8],
    table: TablePlace,
    key: Option<&[u8]>,
) -> Result<Option<usize>, AllocError>
    ensures { IfOk result (λ line. line ≡ spec.line_in_bytes table (option_copied key.entry) bytes.now) }
{
    match str::from_utf8(bytes) {
        Ok(text) => line_in_text(alloc, text, table, key),
        Err(_) => Ok(None),
    }
}

/// Gives the line of a mistake that this text has as a script, from 1: the one with its key, and where the key is
/// missing or is written in another way, or the mistake is about the whole table, the header of the table. Fails where
/// memory was refused.
///
/// Of a key of the top that stands in no line of its own it is the first header with its name, as `[[events]]`.
///
/// `None` where no line is known: of a mistake of the top whose key stands nowhere, of a table that has no header of
/// its own, as one in a list in one line, of any mistake in a text that has `"""` or `'''` anywhere, and of one in a
/// table in a text with a header of a list that is written in another way than `[[port]]`, `[[unit]]`, `[[lose]]` and
/// `[[event]]`. A syntax mistake has its line already.
pub fn line_of_mistake(
    alloc: Global,
    text: &[u8],
    mistake: &Mistake,
) -> Result<Option<usize>, AllocError>
    ensures { IfOk result (λ line. line ≡ spec.line_of_mistake text.now (mistake_view mistake.now)) }
{
    match mistake {
        Mistake::NoText | Mistake::NoToml(_) => Ok(None),
        Mistake::Inside(table, mistake) => {
            line_in_bytes(alloc, text, *table, key_of(*table, mistake))
        }
    }
}
