//! `olt_examples`: replays the scripts of `data/`, each of which stands beside its trace, and compares what each replay
//! writes with that trace; audits each trace, and each log there, and compares what the audit writes with the findings
//! that stand beside it. It ends with status 1 where one is not as it stands.
//!
//! It reads the folder where it runs, so that a new example takes four things: NAME.toml, NAME.trace, NAME.findings,
//! and its lines in the crate's file `stdout`; a new log takes NAME.log, NAME.findings and its line.
//!
//! - `auditing.rt`: what an audit says.
#![tactic(auto)]

mod auditing;

use auditing::{audited, options_of_log, options_of_script};
use gp_audit::AuditOptions;
use gp_replay::{RunFault, run_replay};
use gp_script::read_script;
use gp_stream::{Sink, Source};
use std::alloc::{AllocError, Global};
use std::process::ExitCode;
use std::rt::Files;
use std::{fs, io};

/// How a script's file name ends; the rest of it is the example's name.
const SCRIPT_ENDING: &str = ".toml";

/// The same of a log.
const LOG_ENDING: &str = ".log";

/// Lists the names of the files in the folder that end so, in alphabetical order.
fn names_of<R: AllocGlobal + Files + Clone + Drop>(
    rt: &R,
    ending: &str,
) -> io::Result<Vec<String>> {
    let mut names = Vec::new(rt.alloc());
    for entry in fs::read_dir(rt, ".")? {
        let entry = entry?;
        if let Some(name) = entry.file_name().strip_suffix(ending) {
            names.push(String::from_str(rt.alloc(), name)?)?;
        }
    }
    names.sort()?;
    Ok(names)
}

/// Replays a script, and answers what the replay writes.
fn replayed(alloc: Global, script: &[u8]) -> Result<Vec<u8>, RunFault> {
    let mut source = Source::new(script);
    let mut sink = Sink::new(alloc, Vec::new(alloc))?;
    run_replay(alloc, &mut source, &mut sink)?;
    Ok(sink.into_inner())
}

/// Counts the lines that two texts have in common before they differ, or all of them where they don't.
fn common_lines(one: &[u8], other: &[u8]) -> usize {
    one.iter()
        .zip(other.iter())
        .take_while(|pair| pair.0 == pair.1)
        .filter(|pair| *pair.0 == b'\n')
        .count()
}

/// Tells whether what was written of an example is as it stands, and says in a line how the two compare.
fn compared(
    alloc: Global,
    name: &str,
    what: &str,
    written: &[u8],
    wanted: &[u8],
) -> Result<(bool, String), AllocError> {
    let lines = common_lines(written, wanted);
    let right = written == wanted;
    let verdict = if right {
        format!(in alloc; "{name}: {lines} lines, as in its {what}")?
    } else {
        format!(in alloc; "{name}: another line than in its {what} after {lines} lines")?
    };
    Ok((right, verdict))
}

/// Tells whether a replay of the script is as the trace, and says in a line how it compares with it.
fn verdict_of(
    alloc: Global,
    name: &str,
    script: &[u8],
    trace: &[u8],
) -> Result<(bool, String), AllocError> {
    match replayed(alloc, script) {
        Ok(written) => compared(alloc, name, "trace", &written, trace),
        Err(fault) => Ok((false, format!(in alloc; "{name}: {fault}")?)),
    }
}

/// The same of an audit and the findings.
fn verdict_of_audit(
    alloc: Global,
    name: &str,
    options: &AuditOptions,
    log: &[u8],
    findings: &[u8],
) -> Result<(bool, String), AllocError> {
    match audited(alloc, options, log) {
        Ok(written) => compared(alloc, name, "findings", &written, findings),
        Err(fault) => Ok((false, format!(in alloc; "{name}: {fault}")?)),
    }
}

/// Audits a log, or a trace, compares what the audit writes with the findings beside it, prints a line on that, and
/// tells whether it is as they stand.
fn check_audit<R: AllocGlobal + Files + Print + Clone + Drop>(
    rt: &R,
    name: &str,
    options: &AuditOptions,
    log: &[u8],
) -> io::Result<bool> {
    let alloc = rt.alloc();
    let findings = fs::read(rt, format!(in alloc; "{name}.findings")?)?;
    let (right, verdict) = verdict_of_audit(alloc, name, options, log, &findings)?;
    println!(rt; "{verdict}")?;
    Ok(right)
}

/// Replays an example, audits its trace, prints a line on each, and tells whether both are as they stand.
fn check_example<R: AllocGlobal + Files + Print + Clone + Drop>(
    rt: &R,
    name: &str,
) -> io::Result<bool> {
    let alloc = rt.alloc();
    let script = fs::read(rt, format!(in alloc; "{name}{SCRIPT_ENDING}")?)?;
    let trace = fs::read(rt, format!(in alloc; "{name}.trace")?)?;
    let (right, verdict) = verdict_of(alloc, name, &script, &trace)?;
    println!(rt; "{verdict}")?;
    let Ok(script) = read_script(alloc, &script) else {
        return Ok(false);
    };
    let audit_right = check_audit(rt, name, &options_of_script(&script), &trace)?;
    Ok(right && audit_right)
}

/// Goes through the examples and the logs of the folder, and tells whether all are as they stand.
fn check<R: AllocGlobal + Files + Print + Clone + Drop>(rt: &R) -> io::Result<bool> {
    let alloc = rt.alloc();
    let mut all_right = true;
    for name in names_of(rt, SCRIPT_ENDING)? {
        all_right &= check_example(rt, name.as_str())?;
    }
    for name in names_of(rt, LOG_ENDING)? {
        let log = fs::read(rt, format!(in alloc; "{name}{LOG_ENDING}")?)?;
        all_right &= check_audit(rt, name.as_str(), &options_of_log(name.as_str()), &log)?;
    }
    Ok(all_right)
}

fn main(rt: HostRuntime) -> ExitCode {
    match check(&rt) {
        Ok(true) => ExitCode::SUCCESS,
        Ok(false) => ExitCode::FAILURE,
        Err(error) => {
            let _ = eprintln!(&rt; "olt_examples: {error}");
            ExitCode::FAILURE
        }
    }
}
