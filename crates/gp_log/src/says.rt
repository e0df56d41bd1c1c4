//! What stands behind the word of a line of a log.
ghost use Rattle.std.specs.Prelude.{◌≡◌, MatchResult, Ok, Err};
ghost use Rattle.gp_ranging.specs.declared.grant.Grant.TheVariants as grants;
ghost use Rattle.gp_log.specs.Fields.{next};
ghost use Rattle.gp_log.specs.Says as spec;
ghost use Rattle.gp_log.specs.Usual.{said_entry, written};

use crate::code::next_code;
use crate::fault::LogFault;
use crate::fields::{alone, is_over, next, next_number};
use crate::line::LogLine;
use crate::said::Said;
use gp_ranging::Grant;

/// Reads the delay of a burst, if one is next in a text, and gives what stands behind it.
fn next_delay(text: &[u8]) -> Result<(Option<u32>, &[u8]), LogFault>
    ensures { MatchResult result
        (λ read. (spec.delay_of (next text.now).0 ≡ Ok read.0) × ((next text.now).1 ≡ read.1.now))
        (λ fault. spec.delay_of (next text.now).0 ≡ Err fault) }
{
    if is_over(text) {
        return Ok((None, &[]));
    }
    let (delay, rest) = next_number(u64::from(u32::MAX), text)?;
    Ok((Some(delay as u32), rest))
}

/// Reads a message of the line terminal.
#[tactic(auto, unfolding(crate::specs::Says::down_said))]
pub(crate) fn down_line(
    port: u8,
    time: u64,
    text: &[u8],
    line: &mut LogLine,
) -> Result<(), LogFault>
    ensures { written result line.new ≡ said_entry port time (spec.down_said text.now) }
{
    let (code, rest) = next_code(text)?;
    alone(rest)?;
    let said = Said::Down(code);
    *line = LogLine::Log { port, time, said };
    Ok(())
}

/// Reads a message of a unit.
#[tactic(auto, unfolding(crate::specs::Says::up_said))]
pub(crate) fn up_line(port: u8, time: u64, text: &[u8], line: &mut LogLine) -> Result<(), LogFault>
    ensures { written result line.new ≡ said_entry port time (spec.up_said text.now) }
{
    let (code, rest) = next_code(text)?;
    let (delay, behind) = next_delay(rest)?;
    alone(behind)?;
    let said = Said::Up { code, delay };
    *line = LogLine::Log { port, time, said };
    Ok(())
}

/// Reads the ONU-ID that is next in a text, and gives what stands behind it.
#[inline(always)]
#[tactic(auto, unfolding(crate::specs::Says::next_onu))]
fn next_onu(text: &[u8]) -> Result<(u8, &[u8]), LogFault>
    ensures { MatchResult result (λ read. spec.next_onu text.now ≡ Ok (read.0, read.1.now))
        (λ fault. spec.next_onu text.now ≡ Err fault) }
{
    let (onu, rest) = next_number(u64::from(u8::MAX), text)?;
    Ok((onu as u8, rest))
}

/// Reads whose ranging is granted.
fn next_range(text: &[u8]) -> Result<(Grant, &[u8]), LogFault>
    ensures { MatchResult result (λ read. spec.onu_grant grants.Range text.now ≡ Ok (read.0, read.1.now))
        (λ fault. spec.onu_grant grants.Range text.now ≡ Err fault) }
{
    let (onu, rest) = next_onu(text)?;
    Ok((Grant::Range(onu), rest))
}

/// Reads who is polled.
#[inline(always)]
fn next_poll(text: &[u8]) -> Result<(Grant, &[u8]), LogFault>
    ensures { MatchResult result (λ read. spec.onu_grant grants.Poll text.now ≡ Ok (read.0, read.1.now))
        (λ fault. spec.onu_grant grants.Poll text.now ≡ Err fault) }
{
    let (onu, rest) = next_onu(text)?;
    Ok((Grant::Poll(onu), rest))
}

/// Reads the grant that is next in a text, and gives what stands behind it.
#[inline(always)]
#[tactic(auto, unfolding(crate::specs::Says::word_grant))]
pub(crate) fn next_grant(text: &[u8]) -> Result<(Grant, &[u8]), LogFault>
    ensures { MatchResult result (λ read. spec.next_grant text.now ≡ Ok (read.0, read.1.now))
        (λ fault. spec.next_grant text.now ≡ Err fault) }
{
    let (word, rest) = next(text);
    match word {
        b"search" => Ok((Grant::Search, rest)),
        b"range" => next_range(rest),
        b"poll" => next_poll(rest),
        _ => Err(LogFault::Word),
    }
}

/// Reads a grant.
#[tactic(auto, unfolding(crate::specs::Says::grant_said))]
pub(crate) fn grant_line(
    port: u8,
    time: u64,
    text: &[u8],
    line: &mut LogLine,
) -> Result<(), LogFault>
    ensures { written result line.new ≡ said_entry port time (spec.grant_said text.now) }
{
    let (grant, rest) = next_grant(text)?;
    alone(rest)?;
    let said = Said::Grant(grant);
    *line = LogLine::Log { port, time, said };
    Ok(())
}
