//! Every change stands for something that a line says, and none is left out: counted against the input.
use crate::dumped::{ALL, Count, DumpText, dumped, has_count};
use crate::parsed::{Parsed, Wanted, parse};
use crate::texts::{LOG, TRACE};
use std::alloc::{AllocError, Global};

/// Gives how many lines of a text hold these words.
fn lines_with(text: &str, words: &str) -> u64 {
    let mut count = 0u64;
    for line in text.split('\n') {
        if line.contains(words) {
            count = count.saturating_add(1);
        }
    }
    count
}

/// A variable: of ports where the first is empty, of units where it is "unit"; which of its values are counted, and the
/// words of the lines that set it to one.
type Words = (&'static str, &'static str, Wanted<'static>, &'static str);

const OF_TRACE: [Words; 13] = [
    ("", "frame", Wanted::Something, " frame "),
    ("", "sent", Wanted::Something, " sent "),
    ("", "grant", Wanted::Something, " grant "),
    ("", "window", Wanted::Something, " grant "),
    ("", "asked", Wanted::Something, " grant range "),
    ("", "burst", Wanted::Something, " burst "),
    ("", "delay", Wanted::Something, " burst "),
    ("", "alarm", Wanted::Something, " alarm "),
    ("unit", "state", Wanted::Number("00000001"), " = found "),
    ("unit", "state", Wanted::Number("00000010"), " = found "),
    ("unit", "state", Wanted::Number("00000011"), " = ranged "),
    ("unit", "onu", Wanted::Something, " = found "),
    ("unit", "delay", Wanted::Something, " = ranged "),
];

/// The unit of the trace is removed once.
const ONCE: [Count; 2] = [
    ("unit", "serial", Wanted::Each, 1),
    ("unit", "state", Wanted::Number("00000000"), 1),
];

/// Gives how many lines of a text ask one unit to answer, or how many hold these words.
fn lines_of(text: &str, name: &str, words: &str) -> u64 {
    let polls = if name == "asked" {
        lines_with(text, " grant poll ")
    } else {
        0
    };
    lines_with(text, words).saturating_add(polls)
}

/// Tells whether the dump of a text has as many of these values as the text has such lines.
fn has_lines(alloc: Global, text: &str, row: &Words) -> Result<bool, AllocError> {
    let (unit, name, wanted, words) = *row;
    let count = (unit, name, wanted, lines_of(text, name, words));
    has_count(alloc, text, ALL, &count)
}

#[test]
fn a_trace(rt: HostRuntime) {
    for row in &OF_TRACE {
        assert!(rt; has_lines(rt.alloc(), TRACE, row) == Ok(true), "{}", row.1);
    }
    for row in &ONCE {
        assert!(rt;
            has_count(rt.alloc(), TRACE, ALL, row) == Ok(true),
            "{}",
            row.1
        );
    }
}

const OF_LOG: [Words; 4] = [
    ("", "sent", Wanted::Something, " down "),
    ("", "grant", Wanted::Something, " grant "),
    ("", "burst", Wanted::Something, " up "),
    ("", "delay", Wanted::Something, " up "),
];

/// Both units ask; the first is assigned 3, and then the second is, which takes it from the first, and is ranged; at
/// last the first is disabled, which holds nothing by then.
const UNITS_OF_LOG: [Count; 6] = [
    ("", "frame", Wanted::Each, 0),
    ("unit", "serial", Wanted::Each, 2),
    ("unit", "state", Wanted::Number("00000001"), 2),
    ("unit", "state", Wanted::Number("00000010"), 2),
    ("unit", "state", Wanted::Number("00000011"), 1),
    ("unit", "state", Wanted::Number("00000000"), 1),
];

#[test]
fn a_log(rt: HostRuntime) {
    for row in &OF_LOG {
        assert!(rt; has_lines(rt.alloc(), LOG, row) == Ok(true), "{}", row.1);
    }
    for row in &UNITS_OF_LOG {
        assert!(rt;
            has_count(rt.alloc(), LOG, ALL, row) == Ok(true),
            "{}",
            row.1
        );
    }
}

/// Gives the four binary digits of a hexadecimal one.
fn digits_of(digit: char) -> &'static str {
    match digit {
        '0' => "0000",
        '1' => "0001",
        '2' => "0010",
        '3' => "0011",
        '4' => "0100",
        '5' => "0101",
        '6' => "0110",
        '7' => "0111",
        '8' => "1000",
        '9' => "1001",
        'a' => "1010",
        'b' => "1011",
        'c' => "1100",
        'd' => "1101",
        'e' => "1110",
        'f' => "1111",
        _ => "x",
    }
}

/// Tells whether these are the binary digits of a code.
fn is_binary(digits: &str, code: &str) -> bool {
    let fours = digits.as_bytes().chunks(4);
    digits.len() == code.len().saturating_mul(4)
        && fours
            .zip(code.chars())
            .all(|(four, digit)| four == digits_of(digit).as_bytes())
}

/// Gives the code that a line of a trace sends, or that of its burst.
fn code_in<'a>(line: &'a str, name: &str) -> Option<&'a str> {
    if name == "sent" {
        let (_, code) = line.split_once(" sent ")?;
        return code.split(' ').next();
    }
    let (_, burst) = line.split_once(" burst ")?;
    burst.split(' ').nth(1)
}

/// Gives the place of the next setting of a variable from here on, but for those to `z`.
fn next_of(parsed: &Parsed<'_>, name: &str, from: usize) -> usize {
    let mut place = from;
    for setting in parsed.settings.as_slice().iter().skip(from) {
        if setting.variable.name == name && setting.value != "z" {
            return place;
        }
        place = place.saturating_add(1);
    }
    place
}

/// Tells whether the setting at a place is to this code, at this time.
fn is_code(parsed: &Parsed<'_>, place: usize, time: u64, code: &str) -> bool {
    match parsed.settings.get(place) {
        Some(setting) => setting.time == time && is_binary(setting.value, code),
        None => false,
    }
}

/// Tells whether the codes of a variable are those of the trace's lines, in their order, each at its time.
fn are_codes(parsed: &Parsed<'_>, trace: &str, name: &str) -> bool {
    let mut time = 0u64;
    let mut place = 0usize;
    for line in trace.split('\n') {
        if line.contains(" frame ") {
            time = time.saturating_add(125_000);
        }
        if let Some(code) = code_in(line, name) {
            place = next_of(parsed, name, place);
            if !is_code(parsed, place, time, code) {
                return false;
            }
            place = place.saturating_add(1);
        }
    }
    next_of(parsed, name, place) >= parsed.settings.len()
}

/// Tells whether that is so of a text, which is a dump of the trace.
fn has_codes(alloc: Global, text: &str, name: &str) -> Result<bool, AllocError> {
    match parse(alloc, text)? {
        Some(parsed) => Ok(are_codes(&parsed, TRACE, name)),
        None => Ok(false),
    }
}

/// Tells whether that is so of the trace's dump.
fn are_dumped(alloc: Global, name: &str) -> Result<bool, AllocError> {
    let dump = dumped(alloc, TRACE, ALL)?;
    has_codes(alloc, dump.text(), name)
}

#[test]
fn codes_and_times(rt: HostRuntime) {
    assert!(rt; are_dumped(rt.alloc(), "sent") == Ok(true));
    assert!(rt; are_dumped(rt.alloc(), "burst") == Ok(true));
}

/// A unit that is disabled asks all the same, and asks on where a message to all comes; where it is disabled again, it
/// is removed.
const DISABLED: &'static str = "\
1 down ff06ff41424344000000010055\n\
2 down ff06ff41424344000000010055\n\
3 down ff06ff41424344000000010055\n\
4 up ff01414243440000000100002c 9000\n\
5 down ff0c00000000000000000000c3\n\
6 down ff0c00000000000000000000c3\n\
7 down ff0c00000000000000000000c3\n\
8 down ff06ff41424344000000010055\n\
";

/// Tells whether a unit's states are two, of which the last is that it is removed, after eight frames.
fn is_removed(parsed: &Parsed<'_>) -> bool {
    let is_last = match parsed.last("state") {
        Some(last) => last.time == 1_000_000 && last.value == "00000000",
        None => false,
    };
    is_last && parsed.count("unit", "state", Wanted::Each) == 2
}

/// Tells whether a text is a dump in which that is so.
fn has_removed(alloc: Global, text: &str) -> Result<bool, AllocError> {
    match parse(alloc, text)? {
        Some(parsed) => Ok(is_removed(&parsed)),
        None => Ok(false),
    }
}

/// Tells whether a dump has the unit's answer, and its asking behind that in the same frame.
fn has_asked(dump: &DumpText) -> bool {
    let asked = "b00000001 at0\nbz ao0\nbz ae0\nbz as\n#625000\n";
    dump.text().contains("#500000\nb1111") && dump.text().contains(asked)
}

/// Tells whether the unit asks, and is removed.
fn is_disabled(alloc: Global) -> Result<bool, AllocError> {
    let dump = dumped(alloc, DISABLED, ALL)?;
    Ok(has_asked(&dump) && has_removed(alloc, dump.text())?)
}

#[test]
fn a_unit_that_is_disabled(rt: HostRuntime) {
    assert!(rt; is_disabled(rt.alloc()) == Ok(true));
}
