//! The pieces of a line: texts, decimal numbers, codes and serial numbers. Each is written so that it ends where it is
//! to, and tells where it begins.
ghost use Rattle.std.specs.Prelude.{◌+◌, ◌≤◌, length, decimal};
ghost use Rattle.gp_trace.specs.Writes.{Writes};
ghost use Rattle.gp_trace.specs.Reply.{numbered};
ghost use Rattle.gp_trace.specs.Text.{of_unit};
ghost use Rattle.hex.specs.Hex.{encode_lower};

use gp_ploam::Serial;
use gp_serial::SerialText;
use itoa::write_digits;

/// How many digits a code has.
const CODE_DIGITS: usize = 26;

/// Writes a text so that it ends at `end`, and tells where it begins, as each function of this crate.
#[inline(always)]
pub(crate) fn write_text(line: &mut [u8], end: usize, text: &str) -> usize
    requires room { length text.now ≤ end }
    requires within { end ≤ length line.old }
    ensures { Writes (length text.now) text.now line.old end line.new result }
{
    write_bytes(line, end, text.as_bytes())
}

/// Writes bytes.
#[inline(always)]
fn write_bytes(line: &mut [u8], end: usize, bytes: &[u8]) -> usize
    requires room { length bytes.now ≤ end }
    requires within { end ≤ length line.old }
    ensures { Writes (length bytes.now) bytes.now line.old end line.new result }
{
    let start = end - bytes.len();
    line[start..end].copy_from_slice(bytes);
    start
}

/// Writes a number in decimal digits.
#[inline(always)]
pub(crate) fn write_u64(line: &mut [u8], end: usize, number: u64) -> usize
    requires room { 20 ≤ end }
    requires within { end ≤ length line.old }
    ensures { Writes 20 (decimal number) line.old end line.new result }
{
    write_digits(number, line, end)
}

/// Writes a number of 32 bits.
#[inline(always)]
pub(crate) fn write_u32(line: &mut [u8], end: usize, number: u32) -> usize
    requires room { 10 ≤ end }
    requires within { end ≤ length line.old }
    ensures { Writes 10 (decimal number) line.old end line.new result }
{
    write_digits(u64::from(number), line, end)
}

/// Writes a number of 16 bits.
#[inline(always)]
pub(crate) fn write_u16(line: &mut [u8], end: usize, number: u16) -> usize
    requires room { 5 ≤ end }
    requires within { end ≤ length line.old }
    ensures { Writes 5 (decimal number) line.old end line.new result }
{
    write_digits(u64::from(number), line, end)
}

/// Writes a number of eight bits.
#[inline(always)]
pub(crate) fn write_u8(line: &mut [u8], end: usize, number: u8) -> usize
    requires room { 3 ≤ end }
    requires within { end ≤ length line.old }
    ensures { Writes 3 (decimal number) line.old end line.new result }
{
    write_digits(u64::from(number), line, end)
}

/// Writes a word and a number.
#[inline(always)]
pub(crate) fn write_numbered(line: &mut [u8], end: usize, word: &str, number: u32) -> usize
    requires room { length word.now + 11 ≤ end }
    requires within { end ≤ length line.old }
    ensures { Writes (length word.now + 11) (numbered word.now number) line.old end line.new result }
{
    let at = write_u32(line, end, number);
    let at = write_text(line, at, " ");
    write_text(line, at, word)
}

/// Writes the octets of a code in 26 lower-case hexadecimal digits.
#[inline(always)]
pub(crate) fn write_code(line: &mut [u8], end: usize, code: &[u8; 13]) -> usize
    requires room { 26 ≤ end }
    requires within { end ≤ length line.old }
    ensures { Writes 26 (encode_lower code.now) line.old end line.new result }
{
    let start = end - CODE_DIGITS;
    hex::encode_to_slice(code.as_slice(), &mut line[start..end]).unwrap();
    start
}

/// Writes a word and the text of a unit's serial number.
pub(crate) fn write_of_unit(line: &mut [u8], end: usize, word: &str, serial: &Serial) -> usize
    requires room { length word.now + 17 ≤ end }
    requires within { end ≤ length line.old }
    ensures { Writes (length word.now + 17) (of_unit word.now serial.now) line.old end line.new result }
{
    let at = write_bytes(line, end, SerialText::of(serial).as_bytes());
    let at = write_text(line, at, " ");
    write_text(line, at, word)
}
