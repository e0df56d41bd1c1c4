//! A script of a folder is read and judged by what stands beside it, or its trace is written.
ghost use Rattle.std.specs.Prelude.{◌≡◌, IfOk, false};
ghost use Rattle.gp_script.specs.Playable.{IsPlayable};
ghost use Rattle.gp_script.specs.View.{script_view};
ghost use Rattle.oltctl.specs.Tested.{PassesBy, is_passed};

use crate::observed::{Observed, Seen, same_error};
use crate::reporting::cause_text;
use gp_compare::CompareError;
use gp_folder::{Beside, Case, Part};
use gp_outcome::{Expected, Failure, Outcome, judge, path_of};
use gp_replay::{PlayFault, play_script};
use gp_script::{Script, ScriptError, read_script};
use gp_stream::{Sink, Source, SourceFault, read_all};
use std::alloc::{AllocError, Global};
use std::fs::{File, OpenFile};
use std::io::Write;
use std::rt::Files;
use std::{fs, io};

/// A writer whose last failure is remembered.
#[derive(Drop)]
struct Blamed<'e, W> {
    inner: W,
    error: &'e mut Option<io::Error>,
}

impl<W: Write> Write for Blamed<'_, W> {
    ghost contents = { λ s. W.contents s.inner };

    fn write(&mut self, bytes: &[u8]) -> io::Result<usize> {
        match self.inner.write(bytes) {
            Ok(count) => Ok(count),
            Err(error) => {
                *self.error = Some(same_error(&error));
                Err(error)
            }
        }
    }

    fn flush(&mut self) -> io::Result<()> {
        self.inner.flush()
    }
}

/// Gives the path of the file of this kind that belongs to a script.
fn path_of_part(
    alloc: Global,
    folder: &str,
    case: &Case,
    part: Part,
) -> Result<String, AllocError> {
    let name = case.name.as_str();
    let ending = part.ending();
    let file = format!(in alloc; "{name}{ending}")?;
    path_of(alloc, folder, file.as_str())
}

/// Why a file of a script was not opened or not read, where that is known.
fn unread(alloc: Global, part: Part, what: &str, seen: &Seen<'_>) -> Result<Failure, AllocError> {
    let cause = match seen.cause() {
        None => String::from_str(alloc, what)?,
        Some(error) => {
            let cause = cause_text(alloc, error)?;
            format!(in alloc; "{what}: {cause}")?
        }
    };
    Ok(Failure::Unread { part, cause })
}

/// Tells whether reading this may wait for somebody: a pipe, a device or a socket, and no file or folder.
fn may_wait<R: Files>(rt: &R, path: &str) -> bool {
    match fs::metadata(rt, path) {
        Ok(about) => !about.is_file() && !about.is_dir(),
        Err(_) => false,
    }
}

/// Opens a file of a script, or says why it was not opened. What may keep a reader waiting isn't opened.
fn open_part<R: AllocGlobal + Files>(
    rt: &R,
    path: &str,
    part: Part,
    seen: &mut Seen<'_>,
) -> Result<Result<R::File, Failure>, AllocError> {
    if may_wait(rt, path) {
        return Ok(Err(unread(rt.alloc(), part, "can't be read: no regular file", seen)?));
    }
    match fs::open(rt, path) {
        Ok(file) => Ok(Ok(file)),
        Err(error) => {
            seen.failed(&error);
            Ok(Err(unread(rt.alloc(), part, "can't be opened", seen)?))
        }
    }
}

/// Says why a script that was opened was not read.
fn unread_script(
    alloc: Global,
    fault: SourceFault,
    seen: &Seen<'_>,
) -> Result<Failure, AllocError> {
    match fault {
        SourceFault::Read => unread(alloc, Part::Script, "can't be read", seen),
        SourceFault::TooLong => {
            let cause = String::from_str(alloc, "more than 1048576 bytes")?;
            Ok(Failure::Unread {
                part: Part::Script,
                cause,
            })
        }
        SourceFault::OutOfMemory => Err(AllocError),
    }
}

/// Reads a script, or says why it was not read.
fn read_octets<R: AllocGlobal + Files>(
    rt: &R,
    path: &str,
) -> Result<Result<Vec<u8>, Failure>, AllocError> {
    let alloc = rt.alloc();
    let mut seen = Seen::new(Some(path));
    let file = match open_part(rt, path, Part::Script, &mut seen)? {
        Ok(file) => file,
        Err(failure) => return Ok(Err(failure)),
    };
    let mut source = Source::new(Observed::new(file, &mut seen));
    match read_all(alloc, &mut source) {
        Ok(octets) => Ok(Ok(octets)),
        Err(fault) => {
            drop(source);
            Ok(Err(unread_script(alloc, fault, &seen)?))
        }
    }
}

/// Judges a script by a file.
fn judge_by<R: AllocGlobal + Files>(
    rt: &R,
    octets: &[u8],
    path: &str,
    part: Part,
) -> Result<Outcome, AllocError> {
    let alloc = rt.alloc();
    let mut seen = Seen::new(Some(path));
    let file = match open_part(rt, path, part, &mut seen)? {
        Ok(file) => file,
        Err(failure) => return Ok(Outcome::Failed(failure)),
    };
    let source = Source::endless(Observed::new(file, &mut seen));
    let expected = match part {
        Part::Faults => Expected::Faults(source),
        Part::Trace | Part::Script => Expected::Trace(source),
    };
    match judge(alloc, octets, expected) {
        Ok(outcome) => Ok(outcome),
        Err(CompareError::Read(source)) => {
            drop(source);
            let failure = unread(alloc, part, "can't be read", &seen)?;
            Ok(Outcome::Failed(failure))
        }
        Err(CompareError::OutOfMemory) => Err(AllocError),
    }
}

/// Plays a script into a file, and has the system keep what was written: an error that it would tell only when the file
/// is closed comes here.
fn play_into<F: Write + OpenFile + Drop>(
    alloc: Global,
    script: Script,
    file: F,
) -> Result<(), Option<io::Error>>
    requires { IsPlayable (script_view script) }
{
    let mut error = None;
    let blamed = Blamed {
        inner: file,
        error: &mut error,
    };
    let Ok(mut sink) = Sink::new(alloc, blamed) else {
        return Err(Some(io::Error::from(io::ErrorKind::OutOfMemory)));
    };
    let played = play_script(alloc, script, &mut sink);
    let Blamed {
        inner: file,
        error: _,
    } = sink.into_inner();
    match played {
        Ok(()) => file.sync_all().map_err(Some),
        Err(PlayFault::Write) => Err(error),
        Err(PlayFault::OutOfMemory) => Err(Some(io::Error::from(io::ErrorKind::OutOfMemory))),
    }
}

/// Plays a script into a file aside, which is new and then gets its name: so no trace is there that is not whole, and
/// none that was there is written over, whoever wrote it meanwhile. The name aside goes again.
fn write_aside<R: AllocGlobal + Files>(
    rt: &R,
    script: Script,
    file: R::File,
    path: &str,
    aside: &str,
) -> Result<(), Option<io::Error>>
    requires { IsPlayable (script_view script) }
{
    let written = match play_into(rt.alloc(), script, file) {
        Ok(()) => fs::hard_link(rt, aside, path).map_err(Some),
        Err(error) => Err(error),
    };
    let _ = fs::remove_file(rt, aside);
    written
}

/// A trace that was not written, since something happened to this file.
fn unwritten(alloc: Global, file: &str, error: Option<io::Error>) -> Result<Outcome, AllocError>
    ensures { IfOk result (λ outcome. is_passed outcome ≡ false) }
{
    let cause = match error {
        None => String::from_str(alloc, "a write failed or took nothing")?,
        Some(error) => cause_text(alloc, &error)?,
    };
    let cause = format!(in alloc; "{file}: {cause}")?;
    Ok(Outcome::Failed(Failure::Unwritten { cause }))
}

/// Writes the trace of a script, where neither it nor the file aside is there.
fn write_trace<R: AllocGlobal + Files>(
    rt: &R,
    octets: &[u8],
    path: &str,
) -> Result<Outcome, AllocError>
    ensures { IfOk result (λ outcome. is_passed outcome ≡ false) }
{
    let alloc = rt.alloc();
    let script = match read_script(alloc, octets) {
        Ok(script) => script,
        Err(ScriptError::OutOfMemory) => return Err(AllocError),
        Err(ScriptError::Fault(_)) => return Ok(Outcome::Failed(Failure::Stopped)),
    };
    let aside = format!(in alloc; "{path}.new")?;
    let file = match File::create_new(rt, aside.as_str()) {
        Ok(file) => file,
        Err(error) => return unwritten(alloc, aside.as_str(), Some(error)),
    };
    match write_aside(rt, script, file, path, aside.as_str()) {
        Ok(()) => Ok(Outcome::Written),
        Err(error) => unwritten(alloc, path, error),
    }
}

/// Writes the trace of a script to this path, if it has a line: beside an empty trace a script fails either where its
/// play writes one, or since it writes none.
fn bless<R: AllocGlobal + Files>(rt: &R, octets: &[u8], path: &str) -> Result<Outcome, AllocError>
    ensures { IfOk result (λ outcome. is_passed outcome ≡ false) }
{
    let empty: &[u8] = &[];
    match judge(rt.alloc(), octets, Expected::Trace(Source::endless(empty))) {
        Ok(Outcome::Failed(Failure::NothingPlayed)) => Ok(Outcome::Failed(Failure::NothingPlayed)),
        Ok(_) | Err(CompareError::Read(_)) => write_trace(rt, octets, path),
        Err(CompareError::OutOfMemory) => Err(AllocError),
    }
}

/// Judges a script with nothing beside it, of which a trace may be written to this path.
#[tactic(auto, using(crate::proofs::TestedLemmas::nothing_passes))]
fn judge_alone<R: AllocGlobal + Files>(
    rt: &R,
    octets: &[u8],
    path: &str,
    is_blessed: bool,
) -> Result<Outcome, AllocError>
    ensures { IfOk result (λ outcome. is_passed outcome ≡ false) }
{
    let Ok(outcome) = judge::<&[u8]>(rt.alloc(), octets, Expected::Nothing) else {
        return Err(AllocError);
    };
    match outcome {
        Outcome::Failed(Failure::NothingBeside) if is_blessed => bless(rt, octets, path),
        outcome => Ok(outcome),
    }
}

/// Judges a script by what stands beside it; where nothing does and that is wanted, its trace is written.
fn judge_octets<R: AllocGlobal + Files>(
    rt: &R,
    folder: &str,
    case: &Case,
    octets: &[u8],
    bless: bool,
) -> Result<Outcome, AllocError>
    ensures { IfOk result (PassesBy case.now.beside) }
{
    let alloc = rt.alloc();
    let trace = path_of_part(alloc, folder, case, Part::Trace)?;
    match case.beside {
        Beside::Trace => judge_by(rt, octets, trace.as_str(), Part::Trace),
        Beside::Faults => {
            let faults = path_of_part(alloc, folder, case, Part::Faults)?;
            judge_by(rt, octets, faults.as_str(), Part::Faults)
        }
        Beside::Both => Ok(Outcome::Failed(Failure::BothBeside)),
        Beside::Nothing => judge_alone(rt, octets, trace.as_str(), bless),
    }
}

/// Judges a script of a folder.
fn judge_case<R: AllocGlobal + Files>(
    rt: &R,
    folder: &str,
    case: &Case,
    bless: bool,
) -> Result<Outcome, AllocError>
    ensures { IfOk result (PassesBy case.now.beside) }
{
    let path = path_of_part(rt.alloc(), folder, case, Part::Script)?;
    match read_octets(rt, path.as_str())? {
        Ok(octets) => judge_octets(rt, folder, case, octets.as_slice(), bless),
        Err(failure) => Ok(Outcome::Failed(failure)),
    }
}

/// Tells what becomes of a script of a folder.
pub(crate) fn outcome_of<R: AllocGlobal + Files>(
    rt: &R,
    folder: &str,
    case: &Case,
    bless: bool,
) -> Outcome
    ensures { PassesBy case.now.beside result }
{
    match judge_case(rt, folder, case, bless) {
        Ok(outcome) => outcome,
        Err(AllocError) => Outcome::Failed(Failure::OutOfMemory),
    }
}
