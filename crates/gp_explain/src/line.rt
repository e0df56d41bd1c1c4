//! One line of a trace in words: each code is told between brackets, and all else stays as it is.
ghost use Rattle.std.specs.Prelude.{◌≡◌, ◌≤◌, ◌++◌, ℕ, List, IfOk, OnOk, codes, length};
ghost use Rattle.gp_explain.specs.Words.{TellsCode, TellsLine, TellsOctets, TellsPart};
ghost use Rattle.gp_explain.specs.Runs.{RunsOn, front};

use crate::place::Place;
use gp_code::octets_in;
use gp_decode::{DecodeFault, push_words_of};
use gp_lines::cut;
use gp_ploam::Mask;
use std::alloc::AllocError;

/// Appends what is told of a code with a wrong check octet, behind its bracket.
fn push_garbled(out: &mut Vec<u8>, part: &[u8]) -> Result<(), AllocError>
    ensures { OnOk result (out.new.items ≡ out.old.items ++ (codes "garbled " ++ part.now ++ codes "]")) }
{
    out.extend_from_slice(b"garbled ")?;
    out.extend_from_slice(part)?;
    out.extend_from_slice(b"]")
}

/// Appends the octets of a code that a part spells, in words.
fn push_octets(
    out: &mut Vec<u8>,
    part: &[u8],
    octets: &[u8; 13],
    upstream: bool,
    mask: Mask,
) -> Result<(), AllocError>
    ensures { OnOk result ((told : List ℕ) × TellsOctets upstream mask part.now octets.now told
        × (out.new.items ≡ out.old.items ++ told)) }
{
    out.extend_from_slice(b"[")?;
    match push_words_of(out, octets, upstream, mask) {
        Ok(()) => out.extend_from_slice(b"]"),
        Err(DecodeFault::Crc) => push_garbled(out, part),
        Err(_) => Err(AllocError),
    }
}

/// Appends a part where a code should stand.
fn push_code(out: &mut Vec<u8>, part: &[u8], upstream: bool, mask: Mask) -> Result<(), AllocError>
    ensures { OnOk result ((told : List ℕ) × TellsCode upstream mask part.now told
        × (out.new.items ≡ out.old.items ++ told)) }
{
    match octets_in(part) {
        Some(octets) => push_octets(out, part, &octets, upstream, mask),
        None => out.extend_from_slice(part),
    }
}

/// Appends a part.
fn push_part(out: &mut Vec<u8>, part: &[u8], place: Place, mask: Mask) -> Result<(), AllocError>
    ensures { OnOk result ((told : List ℕ) × TellsPart mask place part.now told
        × (out.new.items ≡ out.old.items ++ told)) }
{
    match place {
        Place::Word | Place::Delay => out.extend_from_slice(part),
        Place::UnitCode => push_code(out, part, true, mask),
        Place::TerminalCode => push_code(out, part, false, mask),
    }
}

/// Tells the part that `behind` begins with. `run` ends with `behind`, and is what isn't appended yet. Where a code
/// should stand, all before it is appended, and the code in words. Gives what isn't appended then.
fn push_run<'a>(
    out: &mut Vec<u8>,
    run: &'a [u8],
    behind: &'a [u8],
    part: &[u8],
    place: Place,
    mask: Mask,
) -> Result<&'a [u8], AllocError>
    requires ends { run.now ≡ front run.now behind.now ++ behind.now }
    requires behind { length behind.now ≤ length run.now }
    requires part { length part.now ≤ length behind.now }
    ensures { IfOk result
        (λ left. RunsOn mask place part.now run.now behind.now left.now out.old.items out.new.items) }
{
    if !place.is_code() {
        return Ok(run);
    }
    out.extend_from_slice(&run[..run.len() - behind.len()])?;
    push_part(out, part, place, mask)?;
    Ok(&behind[part.len()..])
}

/// Appends a line of a trace in words, with a line feed behind it. The line comes without its line feed. Its codes are
/// told as `decode` tells them, between brackets: that of a burst as a unit's message, that behind `sent` as one of the
/// line terminal; `[garbled HEX]` where the check octet is wrong under the mask. All else stays as it is.
///
/// Memory is taken only where the buffer has no room. Where it is refused, a part of the line may have been appended.
pub(crate) fn push_words(mask: Mask, text: &[u8], out: &mut Vec<u8>) -> Result<(), AllocError>
    ensures { OnOk result ((line : List ℕ) × TellsLine mask text.now line
        × (out.new.items ≡ out.old.items ++ line)) }
{
    let (first, mut rest) = cut(text);
    let mut run = text;
    let mut place = Place::Word.after(first);
    'parts: while let Some(behind) = rest {
        let (part, others) = cut(behind);
        run = push_run(out, run, behind, part, place, mask)?;
        place = place.after(part);
        rest = others;
    }
    out.extend_from_slice(run)?;
    out.extend_from_slice(b"\n")
}
