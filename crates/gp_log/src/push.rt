//! Lines of a log as they are written: `push_entry`, which takes memory for the longest line before it writes any of
//! it.
ghost use Rattle.std.specs.Prelude.{◌≡◌, ◌+◌, ◌<◌, ◌≤◌, ◌++◌, OnErr, OnOk, codes, decimal, length, vec_capacity, vec_len};
ghost use Rattle.hex.specs.Hex.{encode_lower};
ghost use Rattle.gp_log.specs.Text as spec;

use crate::said::Said;
use gp_ranging::Grant;
use itoa::Buffer;
use std::alloc::AllocError;

/// How many octets a line that is written has at most, with its line feed.
pub const MAX_ENTRY: usize = 96;

/// How many digits a code has.
const CODE_DIGITS: usize = 26;

/// Appends a text for which there is room, as each function here.
fn put(out: &mut Vec<u8>, text: &[u8])
    requires room { vec_len out.old + length text.now ≤ vec_capacity out.old }
    ensures items { out.new.items ≡ out.old.items ++ text.now }
    ensures short { vec_len out.new ≡ vec_len out.old + length text.now }
    ensures capacity { vec_capacity out.old ≤ vec_capacity out.new }
{
    out.extend_from_slice(text).unwrap();
}

/// Appends a number.
fn put_number(out: &mut Vec<u8>, number: u64)
    requires room { vec_len out.old + 20 ≤ vec_capacity out.old }
    ensures items { out.new.items ≡ out.old.items ++ decimal number }
    ensures short { vec_len out.new ≤ vec_len out.old + 20 }
    ensures capacity { vec_capacity out.old ≤ vec_capacity out.new }
{
    let mut digits = Buffer::new();
    put(out, digits.format(number).as_bytes());
}

/// Appends a word and a number.
fn put_numbered(out: &mut Vec<u8>, word: &str, number: u64)
    requires room { vec_len out.old + length word.now + 20 ≤ vec_capacity out.old }
    ensures items { out.new.items ≡ out.old.items ++ (word.now ++ decimal number) }
    ensures short { vec_len out.new ≤ vec_len out.old + length word.now + 20 }
    ensures capacity { vec_capacity out.old ≤ vec_capacity out.new }
{
    put(out, word.as_bytes());
    put_number(out, number);
}

/// Appends a word and a code.
fn put_code(out: &mut Vec<u8>, word: &str, code: &[u8; 13])
    requires room { vec_len out.old + length word.now + 26 ≤ vec_capacity out.old }
    ensures items { out.new.items ≡ out.old.items ++ (word.now ++ encode_lower code.now) }
    ensures short { vec_len out.new ≡ vec_len out.old + length word.now + 26 }
    ensures capacity { vec_capacity out.old ≤ vec_capacity out.new }
{
    let mut digits = [0u8; CODE_DIGITS];
    hex::encode_to_slice(code.as_slice(), &mut digits).unwrap();
    put(out, word.as_bytes());
    put(out, &digits);
}

/// Appends a delay, where it was measured.
fn put_delay(out: &mut Vec<u8>, delay: Option<u32>)
    requires room { vec_len out.old + 21 ≤ vec_capacity out.old }
    ensures items { out.new.items ≡ out.old.items ++ spec.delay_text delay }
    ensures short { vec_len out.new ≤ vec_len out.old + 21 }
    ensures capacity { vec_capacity out.old ≤ vec_capacity out.new }
{
    match delay {
        None => {}
        Some(delay) => put_numbered(out, " ", u64::from(delay)),
    }
}

/// Appends a grant.
fn put_grant(out: &mut Vec<u8>, grant: Grant)
    requires room { vec_len out.old + 32 ≤ vec_capacity out.old }
    ensures items { out.new.items ≡ out.old.items ++ spec.grant_text grant }
    ensures short { vec_len out.new ≤ vec_len out.old + 32 }
    ensures capacity { vec_capacity out.old ≤ vec_capacity out.new }
{
    match grant {
        Grant::Search => put(out, b"grant search"),
        Grant::Range(onu) => put_numbered(out, "grant range ", u64::from(onu)),
        Grant::Poll(onu) => put_numbered(out, "grant poll ", u64::from(onu)),
    }
}

/// Appends a message of a unit.
fn put_up(out: &mut Vec<u8>, code: &[u8; 13], delay: Option<u32>)
    requires room { vec_len out.old + 50 ≤ vec_capacity out.old }
    ensures items { out.new.items ≡ out.old.items ++ (codes "up " ++ encode_lower code.now ++ spec.delay_text delay) }
    ensures short { vec_len out.new ≤ vec_len out.old + 50 }
    ensures capacity { vec_capacity out.old ≤ vec_capacity out.new }
{
    put_code(out, "up ", code);
    put_delay(out, delay);
}

/// Appends what was said.
fn put_said(out: &mut Vec<u8>, said: &Said)
    requires room { vec_len out.old + 50 ≤ vec_capacity out.old }
    ensures items { out.new.items ≡ out.old.items ++ spec.said_text said.now }
    ensures short { vec_len out.new ≤ vec_len out.old + 50 }
    ensures capacity { vec_capacity out.old ≤ vec_capacity out.new }
{
    match said {
        Said::Down(code) => put_code(out, "down ", code),
        Said::Up { code, delay } => put_up(out, code, *delay),
        Said::Grant(grant) => put_grant(out, *grant),
    }
}

/// Appends a line of a log.
#[tactic(auto, unfolding(crate::specs::Text::entry_text))]
fn put_entry(out: &mut Vec<u8>, port: u8, frames: u64, said: &Said)
    requires room { vec_len out.old + MAX_ENTRY ≤ vec_capacity out.old }
    ensures items { out.new.items ≡ out.old.items ++ (spec.entry_text port frames said.now ++ codes "\n") }
    ensures capacity { vec_capacity out.old ≤ vec_capacity out.new }
{
    put_number(out, u64::from(port));
    put(out, b" ");
    put_number(out, frames);
    put(out, b" ");
    put_said(out, said);
    put(out, b"\n");
}

/// Appends a line of a log, `PORT TIME down CODE`, `PORT TIME up CODE [DELAY]` or `PORT TIME grant GRANT`, with its
/// line feed. The time is in frames of 125 microseconds.
///
/// Takes memory only where there is no room for [`MAX_ENTRY`] octets more. An error is answered where that memory was
/// refused, and leaves `out` as it was.
pub fn push_entry(out: &mut Vec<u8>, port: u8, frames: u64, said: &Said) -> Result<(), AllocError>
    ensures ok { OnOk result
        (out.new.items ≡ out.old.items ++ (spec.entry_text port frames said.now ++ codes "\n")) }
    ensures untouched { OnErr result (out.new.items ≡ out.old.items) }
    ensures room { OnErr result (vec_capacity out.old < vec_len out.old + MAX_ENTRY) }
    ensures capacity { vec_capacity out.old ≤ vec_capacity out.new }
{
    out.reserve(MAX_ENTRY)?;
    put_entry(out, port, frames, said);
    Ok(())
}
