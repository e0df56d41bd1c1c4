//! A script is played beside the trace that it has to write.
ghost use Rattle.std.specs.Prelude.{◌≡◌, IfErr, IfOk};
ghost use Rattle.gp_compare.specs.Fault.{HasFailed};
ghost use Rattle.gp_script.specs.Playable.{IsPlayable};
ghost use Rattle.gp_script.specs.View.{script_view};
ghost use Rattle.gp_outcome.specs.Playing.{ComparesPlayed, PlaysCompared};

use gp_compare::{CompareError, Comparer, Difference, Expects};
use gp_replay::{PlayFault, play_script};
use gp_script::Script;
use gp_stream::{Sink, Source};
use std::alloc::Global;
use std::io::Read;
use std::marker::Brand;

/// How the trace of a play compares with what is expected.
#[derive(Debug, Drop)]
pub(crate) enum Compared {
    /// It is the same, to the last octet, and has so many lines.
    Same { lines: u64 },
    /// It isn't, from there on.
    Differs(Difference),
}

/// Tells how what a comparer took compares, where the play ended so.
///
/// A comparer's writes fail only behind a difference or a fault. No clause of a writer can say so: a play that stopped
/// without either, which doesn't happen, is told as out of memory.
#[tactic(auto, using(crate::proofs::PlayingLemmas::stopped_compared, crate::proofs::PlayingLemmas::same_compared, crate::proofs::PlayingLemmas::other_compared))]
fn compare_taken<E: Expects, R: Read + Drop>(
    comparer: Comparer<E, R>,
    played: Result<(), PlayFault>,
) -> Result<Compared, CompareError<R>>
    ensures compares { IfOk result (ComparesPlayed E.expected comparer played) }
    ensures err { IfErr result HasFailed }
{
    let lines = comparer.lines();
    match played {
        Err(PlayFault::OutOfMemory) => Err(CompareError::OutOfMemory),
        Err(PlayFault::Write) => match comparer.stop()? {
            None => Err(CompareError::OutOfMemory),
            Some(difference) => Ok(Compared::Differs(difference)),
        },
        Ok(()) => match comparer.end()? {
            None => Ok(Compared::Same { lines }),
            Some(difference) => Ok(Compared::Differs(difference)),
        },
    }
}

/// Does what `compare_play` does, by an expectation that the caller picks.
#[tactic(auto, using(crate::proofs::PlayingLemmas::played_compared))]
fn compare_by<E: Expects, R: Read + Drop>(
    alloc: Global,
    script: Script,
    expected: Source<R>,
) -> Result<Compared, CompareError<R>>
    requires expected { expected.remaining ≡ E.expected }
    requires playable { IsPlayable (script_view script) }
    ensures compares { IfOk result (PlaysCompared (script_view script) E.expected) }
    ensures err { IfErr result HasFailed }
{
    let comparer = Comparer::<E, R>::new(alloc, expected)?;
    let mut sink = Sink::new(alloc, comparer)?;
    let played = play_script(alloc, script, &mut sink);
    compare_taken(sink.into_inner(), played)
}

/// Plays a script that was read, and compares its trace with what a source gives, while it is played. Neither is kept.
/// Behind the first line that differs nothing more is played.
///
/// Fails where memory is refused or the source can't be read to its end.
pub(crate) fn compare_play<R: Read + Drop>(
    alloc: Global,
    script: Script,
    expected: Source<R>,
) -> Result<Compared, CompareError<R>>
    requires { IsPlayable (script_view script) }
    ensures compares { IfOk result (PlaysCompared (script_view script) expected.remaining) }
    ensures err { IfErr result HasFailed }
{
    compare_by::<Brand, R>(alloc, script, expected)
}
