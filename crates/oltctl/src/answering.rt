//! The command `drive`: a script is played, and lines of standard input are answered, each at once.
ghost use Rattle.std.specs.Prelude.{◌≡◌, Ok, Err, OnOk};
ghost use Rattle.gp_script.specs.declared.fault.ScriptFault.{ScriptFault};
ghost use Rattle.gp_script.specs.Script.{ScriptView, script_of};
ghost use Rattle.gp_with_units.specs.Driving.{drive_answer};
ghost use Rattle.oltctl.specs.Replays.{IsReadBy, IsTooLong};
ghost use Rattle.oltctl.specs.Statuses.{IsDriven, drive_status};

use crate::observed::{Observed, Seen};
use crate::reporting::report;
use crate::telling::{drive_told, is_plain, script_from};
use gp_command_line::TraceForm;
use gp_drive::{DriveFault, DriveManner, Driven, run_drive_in};
use gp_flow::{LinesFault, Unanswered};
use gp_replay::RunFault;
use gp_report::{BAD_INPUT, SUCCESS, input_report};
use gp_stream::{Sink, Source};
use gp_summed::DriveEnded;
use gp_with_units::{DriveWritten, drive_with_units};
use std::alloc::AllocError;
use std::io;
use std::io::Read;
use std::rt::Files;

/// Plays the script that a reader gives, and answers the lines that another gives, on standard output.
fn drive_from<R: AllocGlobal + Print, S: Read + Drop, T: Read + Drop>(
    rt: &R,
    manner: DriveManner,
    script: S,
    turns: T,
) -> Result<Driven, DriveFault>
    ensures ok { OnOk result ((view : ScriptView) × IsReadBy script_of script (S.remaining script) (Ok view)) }
    ensures script { (fault : ScriptFault) → result ≡ Err (DriveFault.Script (RunFault.Script fault))
        → IsReadBy script_of script (S.remaining script) (Err fault) }
    ensures too_long { result ≡ Err (DriveFault.Script RunFault.TooLong) → IsTooLong script (S.remaining script) }
{
    let mut script = Source::new(script);
    let mut turns = Source::endless(turns);
    let mut sink = Sink::new(rt.alloc(), io::writer(rt))?;
    run_drive_in(rt.alloc(), manner, &mut script, &mut turns, &mut sink)
}

/// Writes what became of ports and units to standard error, where all lines were answered, and answers how the drive
/// ended. Where standard error takes nothing, nothing is told.
fn tell_units<R: Eprint>(rt: &R, ended: DriveEnded) -> Result<Driven, DriveFault>
    ensures { result ≡ drive_answer ended.driven ended.summary }
{
    let DriveEnded { driven, summary } = ended;
    match summary {
        Some(Ok(text)) => {
            if let Ok(lines) = std::str::from_utf8(text.as_slice()) {
                let _ = eprint!(rt; "{lines}");
            }
            driven
        }
        Some(Err(AllocError)) => {
            let fault = LinesFault::Line(Unanswered::OutOfMemory);
            Err(DriveFault::Turns(fault))
        }
        None => driven,
    }
}

/// Does so as is wanted, and tells at the end, on standard error, what became of each port and unit.
fn drive_counted<R: AllocGlobal + Print + Eprint, S: Read + Drop, T: Read + Drop>(
    rt: &R,
    manner: DriveManner,
    script: S,
    turns: T,
    told: TraceForm,
) -> Result<Driven, DriveFault> {
    let script = script_from(rt.alloc(), script)?;
    let mut turns = Source::endless(turns);
    let TraceForm { form, timed } = told;
    let out = io::writer(rt);
    let DriveWritten { ended, writer: _ } = drive_with_units(
        rt.alloc(),
        manner,
        script,
        form,
        timed,
        &mut turns,
        out,
    )?;
    tell_units(rt, ended)
}

/// What is wanted of a drive.
#[derive(Clone, Copy)]
pub(crate) struct DriveWanted {
    pub(crate) told: TraceForm,
    pub(crate) manner: DriveManner,
    pub(crate) units: bool,
}

/// Drives the script of a file by the lines of standard input.
fn drive_file<R: AllocGlobal + Files + Print + Eprint + Input>(
    rt: &R,
    script: &str,
    wanted: DriveWanted,
    of_script: &mut Seen<'_>,
    of_turns: &mut Seen<'_>,
) -> Result<Driven, DriveFault> {
    let script = match std::fs::open(rt, script) {
        Ok(script) => Observed::new(script, of_script),
        Err(error) => {
            of_script.failed(&error);
            return Err(DriveFault::Script(RunFault::Read));
        }
    };
    let turns = Observed::new(rt.reader(), of_turns);
    let DriveWanted {
        told,
        manner,
        units,
    } = wanted;
    if units {
        drive_counted(rt, manner, script, turns, told)
    } else if is_plain(told) {
        drive_from(rt, manner, script, turns)
    } else {
        drive_told(rt, manner, script, turns, told)
    }
}

/// Does so, says how that ended, and answers the exit status.
pub(crate) fn drive<R: AllocGlobal + Files + Print + Eprint + Input>(
    rt: &R,
    script: &str,
    wanted: DriveWanted,
) -> u8
    ensures { IsDriven result }
{
    let mut of_script = Seen::keeping(rt.alloc(), Some(script));
    let mut of_turns = Seen::new(None);
    let outcome = drive_file(rt, script, wanted, &mut of_script, &mut of_turns);
    end_drive(rt, &outcome, &of_script, &of_turns)
}

/// Says on standard error how many lines were answered by an error, and answers the exit status.
fn report_errors<R: Eprint>(rt: &R, errors: u64) -> u8
    ensures { result ≡ BAD_INPUT }
{
    let _ = eprintln!(rt; "oltctl: lines answered by an error: {errors}");
    BAD_INPUT
}

/// Says how a drive ended, and answers the exit status.
fn end_drive<R: AllocGlobal + Eprint>(
    rt: &R,
    outcome: &Result<Driven, DriveFault>,
    of_script: &Seen<'_>,
    of_turns: &Seen<'_>,
) -> u8
    ensures { result ≡ drive_status outcome.now }
{
    match outcome {
        Ok(driven) => {
            if driven.errors == 0 {
                SUCCESS
            } else {
                report_errors(rt, driven.errors)
            }
        }
        Err(DriveFault::Script(fault)) => of_script.end_script(rt, fault),
        Err(DriveFault::Turns(LinesFault::Read)) => of_turns.tell_unread(rt),
        Err(DriveFault::Turns(fault)) => report(rt, input_report(fault)),
    }
}
