//! JUnit's file: a regular file gets its new octets whole or stays as it was, and nothing but XML is written over; what
//! the program has open goes on from where it stands.
ghost use Rattle.std.specs.Prelude.{◌≡◌, IfOk, false};
ghost use Rattle.oltctl.specs.Opened.{opened_by};

use crate::opened::{Opened, opened_at};
use std::alloc::AllocError;
use std::fs::{File, OpenFile, OpenOptions, Permissions};
use std::io::{ErrorKind, Read, Write};
use std::rt::Files;
use std::{fs, io};

/// How a file of XML begins.
static XML_BEGUN: [u8; 5] = *b"<?xml";

/// How many names beside a file are tried.
const MOST_NAMES: u32 = 1_000;

/// Tells whether a reader gives what XML begins with.
fn gives_xml<F: Read>(file: &mut F) -> io::Result<bool> {
    for wanted in &XML_BEGUN {
        let mut octet = [0];
        if file.read(&mut octet)? == 0 || octet[0] != *wanted {
            return Ok(false);
        }
    }
    Ok(true)
}

/// Tells whether a file has something that isn't XML, and would be lost.
fn would_lose<R: Files>(rt: &R, path: &str) -> io::Result<bool> {
    let about = match fs::metadata(rt, path) {
        Ok(about) => about,
        Err(_) => return Ok(false),
    };
    if !about.is_file() || about.len() == 0 {
        return Ok(false);
    }
    let mut file = fs::open(rt, path)?;
    Ok(!gives_xml(&mut file)?)
}

/// Gives the file to which a link leads, where that is a regular one.
fn linked_file<R: AllocGlobal + Files>(rt: &R, path: &str) -> Result<Option<String>, AllocError> {
    match fs::canonicalize(rt, path) {
        Ok(target) => {
            let target = target.into_string();
            let is_file = match fs::metadata(rt, target.as_str()) {
                Ok(about) => about.is_file(),
                Err(_) => false,
            };
            Ok(if is_file { Some(target) } else { None })
        }
        Err(error) if error.kind() == ErrorKind::OutOfMemory => Err(AllocError),
        Err(_) => Ok(None),
    }
}

/// Gives the file that is replaced where this one is to be written: it, if it is a regular one or isn't there yet, or
/// that to which it leads. None where it is anything else, as a pipe, and in /dev, which may take no other file: there
/// it is written to as it is.
fn replaced_file<R: AllocGlobal + Files>(rt: &R, path: &str) -> Result<Option<String>, AllocError> {
    if path.starts_with("/dev/") {
        return Ok(None);
    }
    match fs::symlink_metadata(rt, path) {
        Ok(about) if about.is_symlink() => linked_file(rt, path),
        Ok(about) if !about.is_file() => Ok(None),
        _ => Ok(Some(String::from_str(rt.alloc(), path)?)),
    }
}

/// A new file beside another one, and its name.
#[derive(Drop)]
struct Aside<F> {
    name: String,
    file: F,
}

/// Makes a new file beside this one, by the first of its names that nothing has: so two that write at once have one
/// each, and one that was left by a run that was killed is in nobody's way.
fn make_aside<R: AllocGlobal + Files>(rt: &R, path: &str) -> io::Result<Aside<R::File>> {
    for number in 1..=MOST_NAMES {
        let name = format!(in rt.alloc(); "{path}.new{number}")?;
        match File::create_new(rt, name.as_str()) {
            Ok(file) => return Ok(Aside { name, file }),
            Err(error) if error.kind() == ErrorKind::AlreadyExists => {}
            Err(error) if error.kind() == ErrorKind::PermissionDenied => {
                let why = "no file may be made in its folder";
                return Err(io::Error::new(ErrorKind::PermissionDenied, why));
            }
            Err(error) => return Err(error),
        }
    }
    Err(io::Error::from(ErrorKind::AlreadyExists))
}

/// Writes octets to a file that was opened. A regular one is synced: an error that the system would tell only when the
/// file is closed comes here.
fn fill<F: Write + OpenFile + Drop>(mut file: F, octets: &[u8]) -> io::Result<()> {
    file.write_all(octets)?;
    file.flush()?;
    if file.metadata()?.is_file() {
        file.sync_all()?;
    }
    Ok(())
}

/// Gives the mode of a file that may be written to; None where there is none.
fn mode_of<R: Files>(rt: &R, path: &str) -> io::Result<Option<Permissions>> {
    match OpenOptions::new().write(true).open(rt, path) {
        Ok(file) => Ok(Some(file.metadata()?.permissions())),
        Err(error) if error.kind() == ErrorKind::NotFound => Ok(None),
        Err(error) => Err(error),
    }
}

/// Writes octets to a new file, which gets this mode, if there is one.
fn fill_new<F: Write + OpenFile + Drop>(
    file: F,
    mode: Option<Permissions>,
    octets: &[u8],
) -> io::Result<()> {
    if let Some(mode) = mode {
        file.set_permissions(mode)?;
    }
    fill(file, octets)
}

/// Writes octets to a new file beside this one, which then gets its name and has its mode: so it is there whole, or
/// stays as it was.
fn replace<R: AllocGlobal + Files>(rt: &R, path: &str, octets: &[u8]) -> io::Result<()> {
    let mode = mode_of(rt, path)?;
    let Aside { name, file } = make_aside(rt, path)?;
    let replaced = match fill_new(file, mode, octets) {
        Ok(()) => fs::rename(rt, name.as_str(), path),
        Err(error) => Err(error),
    };
    if replaced.is_err() {
        let _ = fs::remove_file(rt, name.as_str());
    }
    replaced
}

/// Writes octets to a file of its own, unless it has something that isn't XML, and tells whether it was written.
fn write_file<R: AllocGlobal + Files>(rt: &R, path: &str, octets: &[u8]) -> io::Result<bool> {
    if would_lose(rt, path)? {
        return Ok(false);
    }
    match replaced_file(rt, path)? {
        Some(file) => replace(rt, file.as_str(), octets)?,
        None => fill(fs::create(rt, path)?, octets)?,
    }
    Ok(true)
}

/// Writes octets behind what a file has.
fn append<R: Files>(rt: &R, path: &str, octets: &[u8]) -> io::Result<()> {
    fill(OpenOptions::new().append(true).open(rt, path)?, octets)
}

/// Writes octets to a file, unless it has something that isn't XML, and tells whether it was written. Where that fails,
/// a regular file stays as it was. What the program has open is written to from where it stands, whatever it has;
/// `host` is the same runtime, whose standard error takes octets.
pub(crate) fn write_over<R: AllocGlobal + Files + Print>(
    rt: &R,
    host: &HostRuntime,
    path: &str,
    octets: &[u8],
) -> io::Result<bool>
    ensures { IfOk result (λ is_written. is_written ≡ false → opened_by path.now ≡ Opened.Nothing) }
{
    match opened_at(rt, path)? {
        Opened::Output => Print::write_all(rt, octets)?,
        Opened::Error => Print::write_all(&host.stderr(), octets)?,
        Opened::Other => append(rt, path, octets)?,
        Opened::Nothing => return write_file(rt, path, octets),
    }
    Ok(true)
}
