//! The command `replay`: a script is played, and its trace, or what is wanted in its place, goes to standard output.
ghost use Rattle.std.specs.Prelude.{◌≡◌, ◌≢◌, Ok, Err, OnOk};
ghost use Rattle.gp_script.specs.declared.fault.ScriptFault.{ScriptFault};
ghost use Rattle.gp_script.specs.Script.{ScriptView, script_of};
ghost use Rattle.oltctl.specs.Replays.{IsReadBy, IsTooLong};
ghost use Rattle.oltctl.specs.Statuses.{IsPlayed};

use crate::observed::{Observed, Seen};
use crate::reporting::end_run;
use crate::telling::{is_plain, play_so};
use gp_check::Purpose;
use gp_command_line::Play;
use gp_replay::{PlayFault, RunFault, run_replay};
use gp_script::{ScriptError, read_script};
use gp_stream::{Sink, Source, SourceFault, read_all};
use std::alloc::Global;
use std::io;
use std::io::Read;
use std::rt::{Clock, Files};

/// Tells whether the trace alone is wanted of a replay, as it is.
fn is_usual(play: Play) -> bool {
    is_plain(play.told) && !play.units && !play.summary && !play.explain && !play.progress
}

/// Plays the script that a reader gives, to standard output.
fn replay_from<R: AllocGlobal + Print, S: Read + Drop>(rt: &R, reader: S) -> Result<(), RunFault>
    ensures ok { OnOk result ((script : ScriptView) × IsReadBy script_of reader (S.remaining reader) (Ok script)) }
    ensures script { (fault : ScriptFault) → result ≡ Err (RunFault.Script fault)
        → IsReadBy script_of reader (S.remaining reader) (Err fault) }
    ensures too_long { result ≡ Err RunFault.TooLong → IsTooLong reader (S.remaining reader) }
    ensures mismatch { result ≢ Err RunFault.Mismatch }
    ensures journal_full { result ≢ Err RunFault.JournalFull }
{
    let mut source = Source::new(reader);
    let mut sink = Sink::new(rt.alloc(), io::writer(rt))?;
    run_replay(rt.alloc(), &mut source, &mut sink)
}

/// Says on standard error what went wrong with a replay, if anything did, and answers the exit status.
fn end_replay<R: Eprint>(rt: &R, outcome: &Result<(), RunFault>) -> u8
    requires mismatch { outcome.now ≢ Err RunFault.Mismatch }
    requires journal_full { outcome.now ≢ Err RunFault.JournalFull }
    ensures { IsPlayed result }
{
    end_run(rt, outcome)
}

/// Says on standard error why a script was not read, where that is wanted by its cause too, and answers the exit
/// status.
fn end_unread<R: AllocGlobal + Eprint>(
    rt: &R,
    fault: SourceFault,
    seen: &Seen<'_>,
    explain: bool,
) -> u8
    ensures { IsPlayed result }
{
    match fault {
        SourceFault::Read => {
            let status = end_replay(rt, &Err(RunFault::Read));
            if explain {
                seen.tell_unread(rt);
            }
            status
        }
        SourceFault::TooLong => end_replay(rt, &Err(RunFault::TooLong)),
        SourceFault::OutOfMemory => end_replay(rt, &Err(RunFault::OutOfMemory)),
    }
}

/// Reads all that a reader gives, of which is remembered why a read failed.
fn read_seen<S: Read + Drop>(
    alloc: Global,
    reader: S,
    seen: &mut Seen<'_>,
) -> Result<Vec<u8>, SourceFault> {
    let mut source = Source::new(Observed::new(reader, seen));
    read_all(alloc, &mut source)
}

/// Says on standard error why what was read is no script, where that is wanted with its place, and answers the exit
/// status.
fn end_unsaid<R: AllocGlobal + Eprint>(
    rt: &R,
    error: ScriptError,
    bytes: &[u8],
    seen: &Seen<'_>,
    explain: bool,
) -> u8
    ensures { IsPlayed result }
{
    match error {
        ScriptError::OutOfMemory => end_replay(rt, &Err(RunFault::OutOfMemory)),
        ScriptError::Fault(fault) => {
            let status = end_replay(rt, &Err(RunFault::Script(fault)));
            if explain {
                seen.tell_mistake(rt, Purpose::Replay, bytes);
            }
            status
        }
    }
}

/// Says on standard error why a script was not played to its end, if it wasn't, and answers the exit status.
fn end_play<R: Eprint>(rt: &R, played: Result<(), PlayFault>) -> u8
    ensures { IsPlayed result }
{
    match played {
        Ok(()) => end_replay(rt, &Ok(())),
        Err(PlayFault::OutOfMemory) => end_replay(rt, &Err(RunFault::OutOfMemory)),
        Err(PlayFault::Write) => end_replay(rt, &Err(RunFault::Write)),
    }
}

/// Plays the script that a reader gives, and writes what is wanted of it to standard output. Says on standard error
/// what went wrong, if anything did, and answers the exit status.
fn replay_so<R: AllocGlobal + Print + Eprint + Clock, S: Read + Drop>(
    rt: &R,
    reader: S,
    play: Play,
    seen: &mut Seen<'_>,
) -> u8
    ensures { IsPlayed result }
{
    if is_usual(play) {
        return end_replay(rt, &replay_from(rt, reader));
    }
    let bytes = match read_seen(rt.alloc(), reader, seen) {
        Ok(bytes) => bytes,
        Err(fault) => return end_unread(rt, fault, seen, play.explain),
    };
    match read_script(rt.alloc(), bytes.as_slice()) {
        Ok(script) => {
            drop(bytes);
            end_play(rt, play_so(rt, script, play))
        }
        Err(error) => end_unsaid(rt, error, bytes.as_slice(), seen, play.explain),
    }
}

/// Does so with the script of a file, or of standard input.
pub(crate) fn replay<R: AllocGlobal + Files + Print + Eprint + Input + Clock>(
    rt: &R,
    file: Option<&str>,
    play: Play,
) -> u8
    ensures { IsPlayed result }
{
    let mut seen = Seen::new(file);
    match file {
        None => replay_so(rt, rt.reader(), play, &mut seen),
        Some(path) => match std::fs::open(rt, path) {
            Ok(file) => replay_so(rt, file, play, &mut seen),
            Err(error) => {
                seen.failed(&error);
                end_unread(rt, SourceFault::Read, &seen, play.explain)
            }
        },
    }
}
