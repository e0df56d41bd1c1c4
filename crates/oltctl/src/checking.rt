//! Whether files are scripts: of each a line, on standard output where it is one, and else on standard error; or of
//! each an object on standard output.
ghost use Rattle.std.specs.Prelude.{◌≡◌, IfOk};
ghost use Rattle.oltctl.specs.Replays.{IsToldBy, is_told_script};
ghost use Rattle.oltctl.specs.Statuses.{check_status};

use crate::observed::{Observed, Seen};
use crate::reporting::{report, unread_cause};
use gp_check::{CheckManner, CheckedSource, ScriptCheckFault, tell_script, unread_object};
use gp_report::{BAD_INPUT, SUCCESS, memory_report, write_report};
use gp_stream::{Sink, Source};
use std::io;
use std::io::{Read, Write};
use std::rt::Files;

/// The name of a file; None for standard input, which `-` stands for.
fn file_named(path: &str) -> Option<&str> {
    match path {
        "-" => None,
        path => Some(path),
    }
}

/// Says of a file that it was not looked at, and why, where that is known.
fn tell_unread<R: AllocGlobal + Eprint, W: Write>(
    rt: &R,
    path: &str,
    what: &str,
    error: Option<&io::Error>,
    json: bool,
    sink: &mut Sink<W>,
) -> Result<(), ScriptCheckFault> {
    let why = match error {
        None => String::from_str(rt.alloc(), what)?,
        Some(_) => {
            let cause = unread_cause(rt.alloc(), file_named(path), error)?;
            format!(in rt.alloc(); "{what}: {cause}")?
        }
    };
    if json {
        let object = unread_object(rt.alloc(), path, why.as_str())?;
        sink.write_whole(object.as_slice())?;
    } else {
        let _ = eprintln!(rt; "{path}: {why}");
    }
    Ok(())
}

/// Tells whether what was told of is a script.
fn is_told_script(told: &CheckedSource) -> bool
    ensures { result ≡ is_told_script told.now }
{
    match told {
        CheckedSource::Script => true,
        CheckedSource::NoScript | CheckedSource::Wrong(_) | CheckedSource::Unread => false,
    }
}

/// Tells of what a reader gives whether it is a script.
fn tell_from<R: AllocGlobal, T: Read + Drop, W: Write>(
    rt: &R,
    path: &str,
    reader: T,
    manner: CheckManner,
    sink: &mut Sink<W>,
) -> Result<CheckedSource, ScriptCheckFault>
    ensures { IfOk result (IsToldBy manner.purpose reader (T.remaining reader)) }
{
    let mut source = Source::new(reader);
    tell_script(rt.alloc(), manner, path, &mut source, sink)
}

/// Says so, also where it was not read or is none, and tells whether it is one.
fn check_reader<R: AllocGlobal + Eprint, T: Read + Drop, W: Write>(
    rt: &R,
    path: &str,
    reader: T,
    manner: CheckManner,
    sink: &mut Sink<W>,
) -> Result<bool, ScriptCheckFault> {
    let mut seen = Seen::new(file_named(path));
    let told = tell_from(rt, path, Observed::new(reader, &mut seen), manner, sink)?;
    match &told {
        CheckedSource::Script | CheckedSource::NoScript => {}
        CheckedSource::Wrong(line) => {
            let _ = eprint!(rt; "{line}");
        }
        CheckedSource::Unread => {
            tell_unread(rt, path, "can't be read", seen.cause(), manner.json, sink)?;
        }
    }
    Ok(is_told_script(&told))
}

/// Says of a file that it is a script, or where it is wrong, and tells whether it is one. `-` stands for standard
/// input.
fn check_file<R: AllocGlobal + Files + Eprint + Input, W: Write>(
    rt: &R,
    path: &str,
    manner: CheckManner,
    sink: &mut Sink<W>,
) -> Result<bool, ScriptCheckFault> {
    if path == "-" {
        return check_reader(rt, path, rt.reader(), manner, sink);
    }
    match std::fs::open(rt, path) {
        Ok(file) => check_reader(rt, path, file, manner, sink),
        Err(error) => {
            tell_unread(rt, path, "can't be opened", Some(&error), manner.json, sink)?;
            Ok(false)
        }
    }
}

/// Says so of each of these files, and tells whether all are scripts.
pub(crate) fn check_files<R: AllocGlobal + Files + Print + Eprint + Input>(
    rt: &R,
    files: &[&str],
    manner: CheckManner,
) -> Result<bool, ScriptCheckFault> {
    let mut sink = Sink::new(rt.alloc(), io::writer(rt))?;
    let mut are_scripts = true;
    for path in files {
        let is_script = check_file(rt, path, manner, &mut sink)?;
        are_scripts = are_scripts && is_script;
    }
    Ok(are_scripts)
}

/// Says why files were not all checked, if they weren't, and answers the exit status.
pub(crate) fn end_check<R: Eprint>(rt: &R, outcome: &Result<bool, ScriptCheckFault>) -> u8
    ensures { result ≡ check_status outcome.now }
{
    match outcome {
        Ok(true) => SUCCESS,
        Ok(false) => BAD_INPUT,
        Err(ScriptCheckFault::OutOfMemory) => report(rt, memory_report()),
        Err(ScriptCheckFault::Write) => report(rt, write_report()),
    }
}
