//! The command `verify`: whether a trace is one that a correct line terminal could have written.
ghost use Rattle.std.specs.Prelude.{◌≡◌};
ghost use Rattle.gp_report.specs.Report.{verify_status};
ghost use Rattle.oltctl.specs.Replays.{IsCheckedBy};
ghost use Rattle.oltctl.specs.Statuses.{IsRunStatus, IsVerified, IsVerifyStatus};
ghost use Rattle.gp_verify.specs.Ending.{wanted_lines};

use crate::observed::{Observed, Seen};
use crate::progress::Counted;
use crate::reporting::{report, report_at, report_count, tell_came};
use gp_command_line::Verification;
use gp_flow::LinesFault;
use gp_replay::RunFault;
use gp_report::{NOT_A_RUN, SUCCESS, few_lines_report, no_line_report, verify_report};
use gp_stream::{Sink, Source};
use gp_verify::{CheckFault, VerifyFault, verify_told, wanted_lines};
use gp_with_units::verify_with_units;
use std::io;
use std::io::Read;
use std::rt::{Clock, Files};

/// Verifies the trace that a reader gives against the script that another gives. What is found goes to standard output:
/// that it is a run, or the line that can't be, what the machine says in its place, and why.
fn verify_from<R: AllocGlobal + Print, S: Read + Drop, T: Read + Drop>(
    rt: &R,
    wanted: Verification<'_>,
    script: S,
    trace: T,
) -> Result<u64, CheckFault>
    ensures { IsCheckedBy wanted.entry.form script (S.remaining script) trace (T.remaining trace) result }
{
    let mut script = Source::new(script);
    let mut trace = Source::endless(trace);
    let mut sink = Sink::new(rt.alloc(), io::writer(rt))?;
    verify_told(
        rt.alloc(),
        wanted.form,
        wanted.at_least,
        &mut script,
        &mut trace,
        &mut sink,
    )
}

/// Does so, and writes behind what was found what became of each port and unit.
fn verify_units_from<R: AllocGlobal + Print, S: Read + Drop, T: Read + Drop>(
    rt: &R,
    wanted: Verification<'_>,
    script: S,
    trace: T,
) -> Result<u64, CheckFault>
    ensures { IsCheckedBy wanted.entry.form script (S.remaining script) trace (T.remaining trace) result }
{
    let mut script = Source::new(script);
    let mut trace = Source::endless(trace);
    let mut sink = Sink::new(rt.alloc(), io::writer(rt))?;
    verify_with_units(
        rt.alloc(),
        wanted.form,
        wanted.at_least,
        &mut script,
        &mut trace,
        &mut sink,
    )
}

/// Does so as is wanted.
fn verify_wanted<R: AllocGlobal + Print, S: Read + Drop, T: Read + Drop>(
    rt: &R,
    wanted: Verification<'_>,
    script: S,
    trace: T,
) -> Result<u64, CheckFault>
    ensures { IsCheckedBy wanted.entry.form script (S.remaining script) trace (T.remaining trace) result }
{
    if wanted.units {
        verify_units_from(rt, wanted, script, trace)
    } else {
        verify_from(rt, wanted, script, trace)
    }
}

/// Verifies the trace of a file, or of standard input, against the script that a reader gives.
fn verify_trace<R: AllocGlobal + Files + Print + Eprint + Input + Clock, S: Read + Drop>(
    rt: &R,
    wanted: Verification<'_>,
    script: S,
    of_trace: &mut Seen<'_>,
) -> Result<u64, CheckFault> {
    match wanted.trace {
        None => {
            let trace = Observed::new(rt.reader(), of_trace);
            let trace = Counted::new(rt, trace, wanted.progress, None);
            verify_wanted(rt, wanted, script, trace)
        }
        Some(path) => match std::fs::open(rt, path) {
            Ok(trace) => {
                let trace = Observed::new(trace, of_trace);
                let trace = Counted::new(rt, trace, wanted.progress, None);
                verify_wanted(rt, wanted, script, trace)
            }
            Err(error) => {
                of_trace.failed(&error);
                Err(CheckFault::Trace(VerifyFault::Lines(LinesFault::Read)))
            }
        },
    }
}

/// Does so against the script of a file.
fn verify_files<R: AllocGlobal + Files + Print + Eprint + Input + Clock>(
    rt: &R,
    wanted: Verification<'_>,
    of_script: &mut Seen<'_>,
    of_trace: &mut Seen<'_>,
) -> Result<u64, CheckFault> {
    match std::fs::open(rt, wanted.script) {
        Ok(script) => {
            let script = Observed::new(script, of_script);
            verify_trace(rt, wanted, script, of_trace)
        }
        Err(error) => {
            of_script.failed(&error);
            Err(CheckFault::Script(RunFault::Read))
        }
    }
}

/// Says that a run has too few lines, and how many, and answers the exit status.
fn report_few<R: Eprint>(rt: &R, at_least: Option<u64>, lines: u64) -> u8
    ensures { result ≡ NOT_A_RUN }
{
    match at_least {
        None => report(rt, no_line_report()),
        Some(count) => {
            let status = report_count(rt, few_lines_report(), count);
            tell_came(rt, lines);
            status
        }
    }
}

/// Says so of a run that has too few lines, and answers the exit status.
fn end_run<R: Eprint>(rt: &R, at_least: Option<u64>, lines: u64) -> u8
    ensures { IsRunStatus (wanted_lines at_least) lines result }
{
    if lines < wanted_lines(at_least) {
        report_few(rt, at_least, lines)
    } else {
        SUCCESS
    }
}

/// Says how a verification of a trace ended, with the number of the line that can't be, and answers the exit status.
fn end_trace<R: AllocGlobal + Eprint>(rt: &R, fault: &VerifyFault, of_trace: &Seen<'_>) -> u8
    ensures { result ≡ verify_status fault.now }
{
    match *fault {
        VerifyFault::Refused { line, verdict: _ } | VerifyFault::Unended { line } => {
            report_at(rt, verify_report(fault), line)
        }
        VerifyFault::Lines(LinesFault::Read) => of_trace.tell_unread(rt),
        VerifyFault::Lines(LinesFault::Line(_)) => report(rt, verify_report(fault)),
    }
}

/// Says how a verification ended, and answers the exit status.
fn end_verify<R: AllocGlobal + Eprint>(
    rt: &R,
    at_least: Option<u64>,
    outcome: &Result<u64, CheckFault>,
    of_script: &Seen<'_>,
    of_trace: &Seen<'_>,
) -> u8
    ensures { IsVerifyStatus at_least outcome.now result }
{
    match outcome {
        Ok(lines) => end_run(rt, at_least, *lines),
        Err(CheckFault::Script(fault)) => of_script.end_script(rt, fault),
        Err(CheckFault::Trace(fault)) => end_trace(rt, fault, of_trace),
    }
}

/// Verifies a trace, says how that ended, and answers the exit status.
pub(crate) fn verify<R: AllocGlobal + Files + Print + Eprint + Input + Clock>(
    rt: &R,
    wanted: Verification<'_>,
) -> u8
    ensures { IsVerified wanted.entry.at_least result }
{
    let mut of_script = Seen::keeping(rt.alloc(), Some(wanted.script));
    let mut of_trace = Seen::new(wanted.trace);
    let outcome = verify_files(rt, wanted, &mut of_script, &mut of_trace);
    end_verify(rt, wanted.at_least, &outcome, &of_script, &of_trace)
}
