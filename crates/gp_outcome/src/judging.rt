//! A script is judged by what stands beside it.
ghost use Rattle.std.specs.Prelude.{IfErr, IfOk, string_bytes};
ghost use Rattle.gp_compare.specs.Fault.{HasFailed};
ghost use Rattle.gp_script.specs.Playable.{IsPlayable};
ghost use Rattle.gp_script.specs.View.{script_view};
ghost use Rattle.gp_outcome.specs.Judging.{IsJudged, IsJudgedPlay, IsJudgedRight, IsJudgedTold, IsJudgedWrong};

use crate::outcome::{Failure, Outcome};
use crate::playing::{Compared, compare_play};
use gp_check::{Purpose, placed_line};
use gp_compare::{CompareError, compare_text};
use gp_script::{PlacedError, Script, read_script_at};
use gp_stream::Source;
use std::alloc::Global;
use std::io::Read;

/// What a script is judged by.
#[derive(Drop)]
pub enum Expected<R: Read> {
    /// Nothing: it can't pass.
    Nothing,
    /// The trace that it has to write.
    Trace(Source<R>),
    /// What is told of it, since it is wrong.
    Faults(Source<R>),
}

/// Plays a script beside the trace that it has to write.
fn judge_play<R: Read + Drop>(
    alloc: Global,
    script: Script,
    trace: Source<R>,
) -> Result<Outcome, CompareError<R>>
    requires { IsPlayable (script_view script) }
    ensures judged { IfOk result (IsJudgedPlay (script_view script) trace.remaining) }
    ensures err { IfErr result HasFailed }
{
    match compare_play(alloc, script, trace)? {
        Compared::Same { lines: 0 } => Ok(Outcome::Failed(Failure::NothingPlayed)),
        Compared::Same { lines } => Ok(Outcome::Passed { lines }),
        Compared::Differs(difference) => Ok(Outcome::Failed(Failure::OtherTrace(difference))),
    }
}

/// What became of a script that is right.
fn judge_script<R: Read + Drop>(
    alloc: Global,
    script: Script,
    expected: Expected<R>,
) -> Result<Outcome, CompareError<R>>
    requires { IsPlayable (script_view script) }
    ensures judged { IfOk result (IsJudgedRight (script_view script) expected) }
    ensures err { IfErr result HasFailed }
{
    match expected {
        Expected::Trace(trace) => judge_play(alloc, script, trace),
        Expected::Faults(_) => Ok(Outcome::Failed(Failure::Right)),
        Expected::Nothing => Ok(Outcome::Failed(Failure::NothingBeside)),
    }
}

/// Compares what is told of a script that is wrong with what has to be told.
fn judge_told<R: Read + Drop>(
    alloc: Global,
    told: &str,
    faults: Source<R>,
) -> Result<Outcome, CompareError<R>>
    ensures judged { IfOk result (IsJudgedTold told.now faults.remaining) }
    ensures err { IfErr result HasFailed }
{
    let line = format!(in alloc; "{told}\n")?;
    match compare_text(alloc, line.as_bytes(), faults)? {
        None => Ok(Outcome::Refused),
        Some(difference) => Ok(Outcome::Failed(Failure::OtherFault(difference))),
    }
}

/// What became of a script that is wrong, of which this is told.
fn judge_wrong<R: Read + Drop>(
    alloc: Global,
    told: String,
    expected: Expected<R>,
) -> Result<Outcome, CompareError<R>>
    ensures judged { IfOk result (IsJudgedWrong (string_bytes told) expected) }
    ensures err { IfErr result HasFailed }
{
    match expected {
        Expected::Trace(_) | Expected::Nothing => Ok(Outcome::Failed(Failure::Wrong { told })),
        Expected::Faults(faults) => judge_told(alloc, told.as_str(), faults),
    }
}

/// Judges a script by its octets, and by what is expected of it. It passes where its trace has a line and is as expected
/// to the last octet, or where it is wrong, and what is told of that, as `oltctl check` tells it behind the file's
/// name, is what is expected, with a line feed behind it.
///
/// Fails where memory was refused, or where what is expected can't be read to its end, and gives that back then.
#[tactic(auto, using(crate::proofs::JudgingLemmas::right_judged, crate::proofs::JudgingLemmas::wrong_judged, crate::proofs::JudgingLemmas::mistake_told))]
pub fn judge<R: Read + Drop>(
    alloc: Global,
    octets: &[u8],
    expected: Expected<R>,
) -> Result<Outcome, CompareError<R>>
    ensures judged { IfOk result (IsJudged octets.now expected) }
    ensures err { IfErr result HasFailed }
{
    match read_script_at(alloc, octets) {
        Ok(script) => judge_script(alloc, script, expected),
        Err(PlacedError::OutOfMemory) => Err(CompareError::OutOfMemory),
        Err(PlacedError::Wrong(_)) => match placed_line(alloc, Purpose::Replay, octets)? {
            Some(told) => judge_wrong(alloc, told, expected),
            None => unreachable!(),
        },
    }
}
