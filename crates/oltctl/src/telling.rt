//! Traces as they are wanted while a script is played or driven: as they are, in words, or as JSON.
ghost use Rattle.std.specs.Prelude.{◌≡◌, IfOk};
ghost use Rattle.gp_script.specs.Playable.{IsPlayable};
ghost use Rattle.gp_script.specs.View.{script_view};
ghost use Rattle.gp_with_units.specs.Behind as spec;

use crate::progress::Counted;
use gp_command_line::{Play, TraceForm};
use gp_drive::{DriveFault, DriveManner, Driven};
use gp_replay::{PlayFault, play_script};
use gp_script::{Script, ScriptEvent, read_script};
use gp_stream::{Sink, Source, read_all};
use gp_tally::Nowhere;
use gp_with_units::{
    DriveWritten, PlayWritten, play_for_summary, play_with_units, tell_drive, tell_play,
};
use std::alloc::Global;
use std::io;
use std::io::{Read, Write};
use std::rt::Clock;

/// Tells whether lines are written as they are.
pub(crate) fn is_plain(told: TraceForm) -> bool
    ensures { result ≡ spec.is_plain told.form told.timed }
{
    gp_with_units::is_plain(told.form, told.timed)
}

/// How many lines an event of a script without simulated units makes.
fn lines_of(event: &ScriptEvent) -> u64 {
    match event {
        ScriptEvent::Frames { port: _, count } => u64::from(*count),
        ScriptEvent::Burst { .. } | ScriptEvent::Command { .. } => 1,
        ScriptEvent::Light { .. } => 0,
    }
}

/// How many lines the trace of a script has, where that is known: with simulated units it isn't.
fn expected_lines(script: &Script) -> Option<u64> {
    if !script.units.is_empty() {
        return None;
    }
    let mut lines: u64 = 0;
    for event in script.events.as_slice() {
        lines = lines.saturating_add(lines_of(event));
    }
    Some(lines)
}

/// Gives a writer, whose lines are counted and told once a second where that is wanted.
fn counted<'r, R: Eprint + Clock, W: Write>(
    rt: &'r R,
    script: &Script,
    progress: bool,
    inner: W,
) -> Counted<'r, R, W> {
    let expected = if progress {
        expected_lines(script)
    } else {
        None
    };
    Counted::new(rt, inner, progress, expected)
}

/// Plays a script, and writes its trace as it is wanted.
pub(crate) fn play_so<R: AllocGlobal + Print + Eprint + Clock>(
    rt: &R,
    script: Script,
    play: Play,
) -> Result<(), PlayFault>
    requires { IsPlayable (script_view script) }
{
    let TraceForm { form, timed } = play.told;
    if play.summary {
        let trace = counted(rt, &script, play.progress, Nowhere);
        let mut out = io::writer(rt);
        return play_for_summary(rt.alloc(), script, form, trace, &mut out);
    }
    let writer = counted(rt, &script, play.progress, io::writer(rt));
    if play.units {
        let PlayWritten { played, writer: _ } = play_with_units(
            rt.alloc(),
            script,
            form,
            timed,
            writer,
        )?;
        return played;
    }
    if !is_plain(play.told) {
        let PlayWritten { played, writer: _ } = tell_play(rt.alloc(), script, form, timed, writer)?;
        return played;
    }
    let mut sink = Sink::new(rt.alloc(), writer)?;
    play_script(rt.alloc(), script, &mut sink)
}

/// Reads the script that a reader gives to its end.
pub(crate) fn script_from<S: Read + Drop>(alloc: Global, reader: S) -> Result<Script, DriveFault>
    ensures { IfOk result (λ script. IsPlayable (script_view script)) }
{
    let mut source = Source::new(reader);
    let bytes = read_all(alloc, &mut source)?;
    Ok(read_script(alloc, bytes.as_slice())?)
}

/// Plays the script that a reader gives, and answers the lines that another gives, by trace lines that are told so.
pub(crate) fn drive_told<R: AllocGlobal + Print, S: Read + Drop, T: Read + Drop>(
    rt: &R,
    manner: DriveManner,
    script: S,
    turns: T,
    told: TraceForm,
) -> Result<Driven, DriveFault> {
    let script = script_from(rt.alloc(), script)?;
    let mut turns = Source::endless(turns);
    let TraceForm { form, timed } = told;
    let out = io::writer(rt);
    let DriveWritten { ended, writer: _ } = tell_drive(
        rt.alloc(),
        manner,
        script,
        form,
        timed,
        &mut turns,
        out,
    )?;
    ended.driven
}
