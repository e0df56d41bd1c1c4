//! Words of the command line as one text: as codes on lines of their own, and as one line of words.
ghost use Rattle.std.specs.Prelude.{◌≡◌, ◌∷◌, ◌++◌, IfOk, OnOk, map};
ghost use Rattle.std.specs.List.{flat_map, join_with_byte};
ghost use Rattle.oltctl.specs.Joined.{line_of_code, on_a_line};

use gp_decode::{is_remark, without_return};
use std::alloc::{AllocError, Global};

/// Appends words, each behind an octet.
fn push_behind(text: &mut Vec<u8>, words: &[&str], separator: u8) -> Result<(), AllocError>
    ensures { OnOk result (text.new.items ≡ text.old.items ++ flat_map (λ word. separator ∷ word.now) words.entry.now) }
{
    'words: for word in words {
        text.push(separator)?;
        text.extend_from_slice(word.as_bytes())?;
    }
    Ok(())
}

/// Gives the octet that stands for one of an argument that is a line: a space for a line feed.
fn on_a_line(octet: u8) -> u8
    ensures { result ≡ on_a_line octet }
{
    if octet == b'\n' { b' ' } else { octet }
}

/// Appends an argument as a part of one line.
fn push_on_a_line(text: &mut Vec<u8>, argument: &str) -> Result<(), AllocError>
    ensures { OnOk result (text.new.items ≡ text.old.items ++ map on_a_line argument.now) }
{
    'octets: for octet in argument.as_bytes() {
        text.push(on_a_line(*octet))?;
    }
    Ok(())
}

/// Appends a code as a line, behind a word that says whose it is.
fn push_line_of(text: &mut Vec<u8>, word: &str, code: &str) -> Result<(), AllocError>
    ensures { OnOk result (text.new.items ≡ text.old.items ++ line_of_code word.now code.now) }
{
    text.extend_from_slice(word.as_bytes())?;
    if is_remark(without_return(code.as_bytes())) {
        // A line that begins with a space isn't passed over.
        text.push(b' ')?;
    }
    push_on_a_line(text, code)?;
    text.push(b'\n')?;
    Ok(())
}

/// Gives codes as lines, each behind a word that says whose it is; none of them is passed over as a remark.
pub fn lines_of_codes(alloc: Global, word: &str, codes: &[&str]) -> Result<Vec<u8>, AllocError>
    ensures { IfOk result (λ text. text.items ≡ flat_map (λ code. line_of_code word.now code.now) codes.entry.now) }
{
    let mut text = Vec::new(alloc);
    'codes: for code in codes {
        push_line_of(&mut text, word, code)?;
    }
    Ok(text)
}

/// Joins words by an octet between each two.
pub fn joined(alloc: Global, words: &[&str], separator: u8) -> Result<Vec<u8>, AllocError>
    ensures { IfOk result (λ text. text.items ≡ join_with_byte separator (map (λ word. word.now) words.entry.now)) }
{
    let mut text = Vec::new(alloc);
    let Some((first, others)) = words.split_first() else {
        return Ok(text);
    };
    text.extend_from_slice(first.as_bytes())?;
    push_behind(&mut text, others, separator)?;
    Ok(text)
}
