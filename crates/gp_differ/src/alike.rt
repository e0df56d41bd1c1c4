//! `difference_of`, and lines that look alike: they differ in blanks at most, and then it is told which blank, and
//! where.
ghost use Rattle.std.specs.Prelude.{◌≡◌, ◌+◌, ◌≤◌, ◌++◌, IfOk, OnOk, length, slice_get};
ghost use Rattle.std.specs.List.{flat_map};
ghost use Rattle.gp_differ.specs.Alike as spec;

use crate::difference::Difference;
use crate::parts::{first_other, is_same, spelled};
use itoa::Buffer;
use std::alloc::{AllocError, Global};

/// Tells whether this is a tab, a carriage return or a space.
fn is_blank(octet: u8) -> bool
    ensures { result ≡ spec.is_blank octet }
{
    octet == b'\t' || octet == b'\r' || octet == b' '
}

/// Appends an octet, if it is seen.
fn push_seen(out: &mut Vec<u8>, octet: u8) -> Result<(), AllocError>
    ensures { OnOk result (out.new.items ≡ out.old.items ++ spec.seen octet) }
{
    if is_blank(octet) {
        return Ok(());
    }
    out.extend_from_slice(&[octet])
}

/// Appends what is seen of a text.
fn push_all_seen(out: &mut Vec<u8>, text: &[u8]) -> Result<(), AllocError>
    ensures { OnOk result (out.new.items ≡ out.old.items ++ spec.seen_of text.now) }
{
    'octets: for octet in text {
        push_seen(out, *octet)?;
    }
    Ok(())
}

/// Gives what is seen of a text.
fn seen_of(alloc: Global, text: &[u8]) -> Result<Vec<u8>, AllocError>
    ensures { IfOk result (λ seen. seen.items ≡ spec.seen_of text.now) }
{
    let mut seen = Vec::new(alloc);
    push_all_seen(&mut seen, text)?;
    Ok(seen)
}

/// Tells whether two texts look alike: they differ in blanks at most.
fn look_alike(alloc: Global, first: &[u8], second: &[u8]) -> Result<bool, AllocError>
    ensures { IfOk result (λ alike. alike ≡ spec.look_alike first.now second.now) }
{
    let first = seen_of(alloc, first)?;
    let second = seen_of(alloc, second)?;
    Ok(is_same(first.as_slice(), second.as_slice()))
}

/// Tells in which part a line first differs from the one that the machine says in its place. Both come without their
/// line feeds. Of two lines that are the same it gives `Blank`.
pub fn difference_of(alloc: Global, given: &[u8], said: &[u8]) -> Result<Difference, AllocError>
    ensures { IfOk result (λ difference. difference ≡ spec.difference_of given.now said.now) }
{
    if look_alike(alloc, given, said)? {
        return Ok(Difference::Blank);
    }
    Ok(first_other(&spelled(given), &spelled(said)))
}

/// Counts the octets that both texts begin with.
fn common_length(first: &[u8], second: &[u8]) -> usize
    ensures count { result ≡ spec.common_length first.now second.now }
    ensures most { result ≤ length first.now }
{
    let mut at = 0;
    'octets: while at < first.len() && at < second.len() && first[at] == second[at] {
        at += 1;
    }
    at
}

/// Gives the octet at a place of a text.
fn octet_at(text: &[u8], at: usize) -> Option<u8>
    ensures { result ≡ slice_get text.now at }
{
    text.get(at).copied()
}

/// Gives what stands at the first place where a line differs, or is missing there.
fn blank_name(octet: Option<u8>) -> &'static str
    ensures { result.now ≡ spec.blank_name octet }
{
    match octet {
        Some(b'\r') => "a carriage return stands",
        Some(b'\t') => "a tab stands",
        Some(b' ') => "a space stands",
        _ => "a space is missing",
    }
}

/// Appends which blank a line has, or lacks, that looks like another, and at which of its octets, from 1.
pub(crate) fn push_blank(out: &mut Vec<u8>, given: &[u8], said: &[u8]) -> Result<(), AllocError>
    ensures { OnOk result (out.new.items ≡ out.old.items ++ spec.blank_reason given.now said.now) }
{
    let at = common_length(given, said);
    let mut place = Buffer::new();
    out.extend_from_slice(blank_name(octet_at(given, at)).as_bytes())?;
    out.extend_from_slice(b" at octet ")?;
    out.extend_from_slice(place.format(at as u64 + 1).as_bytes())
}
