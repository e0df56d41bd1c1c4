//! Where two texts differ, and what is shown of that.
use gp_compare::{CompareError, Difference, LineEnd, MAX_SHOWN, ShownLine, compare_text};
use gp_stream::Source;
use std::alloc::{AllocError, Global};

/// What is behind a line: `$` a line feed, `!` the end of the text, `+` more of the line.
fn mark(end: LineEnd) -> &'static str {
    match end {
        LineEnd::Feed => "$",
        LineEnd::Text => "!",
        LineEnd::More => "+",
    }
}

/// Gives a line that is shown, and the mark of its end.
fn push_line(told: &mut String, line: &ShownLine) -> Result<(), AllocError> {
    told.push_str(std::str::from_utf8(line.octets.as_slice()).unwrap_or("?"))?;
    told.push_str(mark(line.end))
}

/// Gives a difference as `LINE:OCTET EXPECTED|GOT`.
fn push_difference(told: &mut String, difference: &Difference) -> Result<(), AllocError> {
    let line = difference.line;
    let octet = difference.octet;
    write!(told, "{line}:{octet} ")?;
    push_line(told, &difference.expected)?;
    told.push_str("|")?;
    push_line(told, &difference.got)
}

/// Gives it so; `same` where there is none.
fn told(alloc: Global, difference: &Option<Difference>) -> Result<String, AllocError> {
    let mut told = String::new(alloc);
    match difference {
        Some(difference) => push_difference(&mut told, difference)?,
        None => told.push_str("same")?,
    }
    Ok(told)
}

/// Tells whether this is told of a difference.
fn is_told(alloc: Global, difference: &Option<Difference>, wanted: &str) -> bool {
    match told(alloc, difference) {
        Ok(told) => told.as_str() == wanted,
        Err(_) => false,
    }
}

/// What is expected, what comes, and what is told of the two.
#[derive(Clone, Copy)]
struct Case(&'static str, &'static str, &'static str);

const CASES: [Case; 17] = [
    Case("", "", "same"),
    Case("a\nb\n", "a\nb\n", "same"),
    Case("a", "a", "same"),
    Case("a\n", "", "1:1 a$|!"),
    Case("", "a\n", "1:1 !|a$"),
    Case("a\n", "a", "1:2 a$|a!"),
    Case("a", "a\n", "1:2 a!|a$"),
    Case("a\nb\n", "a\n", "2:1 b$|!"),
    Case("a\n", "a\nb\n", "2:1 !|b$"),
    Case("a\nb\n", "a\nc\n", "2:1 b$|c$"),
    Case("a\nbcd\ne\n", "a\nbxd\ne\n", "2:2 bcd$|bxd$"),
    Case("abc\n", "ab\nc\n", "1:3 abc$|ab$"),
    Case("ab\nc\n", "abc\n", "1:3 ab$|abc$"),
    Case("a\n\n", "a\n", "2:1 $|!"),
    Case("a\n", "a\n\n", "2:1 !|$"),
    Case("a\r\n", "a\n", "1:2 a\r$|a$"),
    Case("x\ny\nz\n", "x\ny\nz\nz\n", "4:1 !|z$"),
];

/// Where a text differs from one at hand.
fn compare(alloc: Global, came: &[u8], expected: &[u8]) -> Result<Option<Difference>, AllocError> {
    match compare_text(alloc, came, Source::new(expected)) {
        Ok(difference) => Ok(difference),
        Err(CompareError::Read(_) | CompareError::OutOfMemory) => Err(AllocError),
    }
}

/// Tells whether a case is told so.
fn is_case(alloc: Global, case: &Case) -> Result<bool, AllocError> {
    let Case(expected, came, wanted) = *case;
    let difference = compare(alloc, came.as_bytes(), expected.as_bytes())?;
    Ok(is_told(alloc, &difference, wanted))
}

#[test]
fn the_first_line_that_differs_is_told(rt: HostRuntime) {
    for case in &CASES {
        let Case(expected, came, _) = *case;
        assert!(rt;
            is_case(rt.alloc(), case) == Ok(true),
            "{expected:?} {came:?}"
        );
    }
}

/// Gives a line of so many octets, and a line feed.
fn long_line(alloc: Global, octets: usize) -> Result<Vec<u8>, AllocError> {
    let mut line = vec![in alloc; b'x'; octets]?;
    line.push(b'\n')?;
    Ok(line)
}

/// Where a text differs from a line of so many octets.
fn differs(alloc: Global, octets: usize, came: &[u8]) -> Result<Option<Difference>, AllocError> {
    let expected = long_line(alloc, octets)?;
    compare(alloc, came, expected.as_slice())
}

/// Tells whether a line is shown as far as there is room, with this behind it, beside `xxx`.
fn is_shown(difference: &Option<Difference>, end: LineEnd) -> bool {
    match difference {
        Some(difference) => {
            difference.octet == 4
                && difference.expected.octets.len() == MAX_SHOWN
                && difference.expected.end == end
                && difference.got.octets.as_slice() == b"xxx".as_slice()
        }
        None => false,
    }
}

/// Tells whether that is so of a line of so many octets.
fn is_line_shown(alloc: Global, octets: usize, end: LineEnd) -> Result<bool, AllocError> {
    let difference = differs(alloc, octets, b"xxx\n")?;
    Ok(is_shown(&difference, end))
}

#[test]
fn as_much_of_a_line_is_shown_as_there_is_room_for(rt: HostRuntime) {
    for (octets, end) in [
        (MAX_SHOWN, LineEnd::Feed),
        (MAX_SHOWN + 1, LineEnd::More),
        (MAX_SHOWN + 70_000, LineEnd::More),
    ] {
        let shown = is_line_shown(rt.alloc(), octets, end);
        assert!(rt; shown == Ok(true), "{octets}");
    }
}

/// Gives a line whose octet at a place is another.
fn altered_line(alloc: Global, octets: usize, place: usize) -> Result<Vec<u8>, AllocError> {
    let mut line = long_line(alloc, octets)?;
    if let Some(octet) = line.get_mut(place) {
        *octet = b'y';
    }
    Ok(line)
}

/// Where two long lines differ that differ in one octet.
fn differs_far_behind(alloc: Global) -> Result<Option<Difference>, AllocError> {
    let came = altered_line(alloc, 200_000, 150_000)?;
    differs(alloc, 200_000, &came)
}

/// Tells whether that octet is told, and more of both lines.
fn is_far(difference: &Option<Difference>) -> bool {
    match difference {
        Some(difference) => {
            (difference.line, difference.octet) == (1, 150_001)
                && difference.expected.octets.len() == MAX_SHOWN
                && difference.expected.end == LineEnd::More
                && difference.got.end == LineEnd::More
        }
        None => false,
    }
}

/// Tells whether that is so of the two lines.
fn is_told_far_behind(alloc: Global) -> Result<bool, AllocError> {
    let difference = differs_far_behind(alloc)?;
    Ok(is_far(&difference))
}

#[test]
fn an_octet_far_behind_in_a_line_is_told_by_its_place(rt: HostRuntime) {
    assert!(rt; is_told_far_behind(rt.alloc()) == Ok(true));
}
