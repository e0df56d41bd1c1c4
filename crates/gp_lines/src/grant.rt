//! Frames up to a grant, as a line asks for them.
ghost use Rattle.std.specs.Prelude.{◌≡◌, ◌≤◌, IfOk, MatchResult, Ok, Err, Some};
ghost use Rattle.std.specs.Option.{option_copied};
ghost use Rattle.gp_lines.specs.Parts.{parts_of, parts_behind};
ghost use Rattle.gp_lines.specs.TurnReading as spec;

use crate::fault::LineFault;
use crate::fields::number_in;
use crate::parts::{cut, is_word, one_part, two_parts};
use crate::turn::{Asked, MOST_FRAMES};
use gp_ranging::Grant;

/// The greatest ONU-ID that a unit may have (G.984.3, clause 9).
const LAST_ONU: u8 = 253;

/// Reads a number, from `low` to `high`, that stands alone.
#[tactic(auto, unfolding(crate::specs::TurnReading::one_number))]
pub(crate) fn one_number(low: u64, high: u64, text: &[u8]) -> Result<u64, LineFault>
    ensures value { result ≡ spec.one_number low high (parts_of text.now) }
    ensures within { IfOk result (λ number. number ≤ high) }
{
    let digits = one_part(text)?;
    number_in(low, high, digits)
}

/// Reads whose ranging is granted.
#[tactic(auto, unfolding(crate::specs::TurnReading::range_grant))]
fn range_grant(digits: &[u8]) -> Result<Grant, LineFault>
    ensures { result ≡ spec.range_grant digits.now }
{
    let onu = number_in(0, u64::from(LAST_ONU), digits)? as u8;
    Ok(Grant::Range(onu))
}

/// Reads who is polled.
#[tactic(auto, unfolding(crate::specs::TurnReading::poll_grant))]
fn poll_grant(digits: &[u8]) -> Result<Grant, LineFault>
    ensures { result ≡ spec.poll_grant digits.now }
{
    let onu = number_in(0, u64::from(LAST_ONU), digits)? as u8;
    Ok(Grant::Poll(onu))
}

/// Reads a grant by its word, and the number of the unit that it names.
#[tactic(auto, unfolding(crate::specs::TurnReading::onu_grant))]
fn onu_grant(word: &[u8], digits: &[u8]) -> Result<Grant, LineFault>
    ensures { result ≡ spec.onu_grant word.now digits.now }
{
    match word {
        b"range" => range_grant(digits),
        b"poll" => poll_grant(digits),
        _ => Err(LineFault::Word),
    }
}

/// Gives the digits behind `within`.
#[tactic(auto, unfolding(crate::specs::TurnReading::within_of))]
fn within_in(text: &[u8]) -> Result<Option<&[u8]>, LineFault>
    ensures { MatchResult result (λ bound. spec.within_of (parts_of text.now) ≡ Ok (option_copied bound))
        (λ fault. spec.within_of (parts_of text.now) ≡ Err fault) }
{
    let (word, digits) = two_parts(text)?;
    if is_word(word, "within") {
        Ok(Some(digits))
    } else {
        Err(LineFault::Word)
    }
}

/// Gives the digits behind `within`, if it stands behind a grant.
fn bound_in(behind: Option<&[u8]>) -> Result<Option<&[u8]>, LineFault>
    ensures { MatchResult result
        (λ bound. spec.bound_of (parts_behind (option_copied behind.entry)) ≡ Ok (option_copied bound))
        (λ fault. spec.bound_of (parts_behind (option_copied behind.entry)) ≡ Err fault) }
{
    match behind {
        Some(text) => within_in(text),
        None => Ok(None),
    }
}

/// Reads how many frames there are at most.
fn most_in(bound: Option<&[u8]>) -> Result<u32, LineFault>
    ensures { result ≡ spec.most_of (option_copied bound.entry) }
{
    match bound {
        Some(digits) => Ok(number_in(1, u64::from(MOST_FRAMES), digits)? as u32),
        None => Ok(MOST_FRAMES),
    }
}

/// Reads frames up to a search window, by what stands behind its word.
#[tactic(auto, unfolding(crate::specs::TurnReading::search_turn))]
fn search_turn(port: u8, behind: Option<&[u8]>) -> Result<Asked, LineFault>
    ensures { result ≡ spec.search_turn port (parts_behind (option_copied behind.entry)) }
{
    let bound = bound_in(behind)?;
    let most = most_in(bound)?;
    let grant = Grant::Search;
    Ok(Asked::Until { port, grant, most })
}

/// Reads frames up to a grant that names a unit, by its word and what stands behind that.
#[tactic(auto, unfolding(crate::specs::TurnReading::onu_turn))]
fn named_turn(port: u8, word: &[u8], behind: Option<&[u8]>) -> Result<Asked, LineFault>
    ensures { result ≡ spec.named_turn port word.now (parts_behind (option_copied behind.entry)) }
{
    let Some(text) = behind else {
        return Err(LineFault::Word);
    };
    let (digits, behind) = cut(text);
    let bound = bound_in(behind)?;
    let grant = onu_grant(word, digits)?;
    let most = most_in(bound)?;
    Ok(Asked::Until { port, grant, most })
}

/// Reads frames up to a grant.
#[tactic(auto, unfolding(crate::specs::TurnReading::grant_turn))]
pub(crate) fn until_turn(port: u8, text: &[u8]) -> Result<Asked, LineFault>
    ensures { result ≡ spec.until_turn port (parts_of text.now) }
{
    let (word, behind) = cut(text);
    if is_word(word, "search") {
        search_turn(port, behind)
    } else {
        named_turn(port, word, behind)
    }
}
