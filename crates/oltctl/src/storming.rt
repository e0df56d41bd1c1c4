//! The command `storm`: a script's bursts, frames and commands happen at once, by threads, and the totals go to
//! standard output.
ghost use Rattle.std.specs.Prelude.{◌≡◌, Ok, Err, OnOk};
ghost use Rattle.gp_script.specs.declared.fault.ScriptFault.{ScriptFault};
ghost use Rattle.gp_script.specs.Script.{ScriptView, storm_script_of};
ghost use Rattle.oltctl.specs.Replays.{IsReadBy, IsTooLong};
ghost use Rattle.oltctl.specs.Statuses.{IsStormed};

use crate::observed::{Observed, Seen};
use crate::reporting::end_run;
use crate::ticking::with_ticks;
use gp_check::Purpose;
use gp_command_line::StormPlay;
use gp_replay::RunFault;
use gp_storm::{TotalsForm, run_storm_in};
use gp_stream::{Sink, Source};
use std::io;
use std::io::Read;
use std::rt::{Clock, Files};
use std::sync::Wait;
use std::thread::Threads;

/// Gives the form of the totals of a storm: an object where `json`, else lines.
fn totals_form(json: bool) -> TotalsForm {
    if json {
        TotalsForm::Object
    } else {
        TotalsForm::Lines
    }
}

/// Runs the storm of the script that a reader gives, and writes its totals in this form to standard output.
fn storm_from<R: AllocGlobal + Print + Threads + Wait + Sync, S: Read + Drop>(
    rt: &R,
    reader: S,
    form: TotalsForm,
) -> Result<(), RunFault>
    ensures ok { OnOk result
        ((script : ScriptView) × IsReadBy storm_script_of reader (S.remaining reader) (Ok script)) }
    ensures script { (fault : ScriptFault) → result ≡ Err (RunFault.Script fault)
        → IsReadBy storm_script_of reader (S.remaining reader) (Err fault) }
    ensures too_long { result ≡ Err RunFault.TooLong → IsTooLong reader (S.remaining reader) }
{
    let mut source = Source::new(reader);
    let mut sink = Sink::new(rt.alloc(), io::writer(rt))?;
    run_storm_in(rt, rt.alloc(), form, &mut source, &mut sink)
}

/// Runs the storm of a file's script, or of standard input's.
fn storm_file<R: AllocGlobal + Files + Print + Input + Threads + Wait + Sync>(
    rt: &R,
    file: Option<&str>,
    form: TotalsForm,
    seen: &mut Seen<'_>,
) -> Result<(), RunFault> {
    match file {
        None => storm_from(rt, Observed::new(rt.reader(), seen), form),
        Some(path) => match std::fs::open(rt, path) {
            Ok(file) => storm_from(rt, Observed::new(file, seen), form),
            Err(error) => {
                seen.failed(&error);
                Err(RunFault::Read)
            }
        },
    }
}

/// Does so, and tells once a second that it is going on, where that is wanted.
fn storm_so<R: AllocGlobal + Files + Print + Eprint + Input + Clock + Threads + Wait + Sync>(
    rt: &R,
    file: Option<&str>,
    play: StormPlay,
    seen: &mut Seen<'_>,
) -> Result<(), RunFault> {
    let form = totals_form(play.json);
    if play.progress {
        with_ticks(rt, || storm_file(rt, file, form, seen))
    } else {
        storm_file(rt, file, form, seen)
    }
}

/// Says in a second line why the script of a storm was not read, or where it is wrong.
fn explain_storm<R: AllocGlobal + Eprint>(rt: &R, outcome: &Result<(), RunFault>, seen: &Seen<'_>) {
    match outcome {
        Err(RunFault::Read) => {
            seen.tell_unread(rt);
        }
        Err(RunFault::Script(_)) => seen.tell_place(rt, Purpose::Storm),
        _ => {}
    }
}

/// Runs a storm, says how that ended, and answers the exit status.
pub(crate) fn storm<
    R: AllocGlobal + Files + Print + Eprint + Input + Clock + Threads + Wait + Sync,
>(rt: &R, file: Option<&str>, play: StormPlay) -> u8
    ensures { IsStormed result }
{
    let mut seen = if play.explain {
        Seen::keeping(rt.alloc(), file)
    } else {
        Seen::new(file)
    };
    let outcome = storm_so(rt, file, play, &mut seen);
    let status = end_run(rt, &outcome);
    if play.explain {
        explain_storm(rt, &outcome, &seen);
    }
    status
}
