//! Names that stand for what the program has open, as `/dev/stdout`: it is written to as it is, from where it stands.
ghost use Rattle.std.specs.Prelude.{◌≡◌, ◌⊎◌, IfOk};
ghost use Rattle.oltctl.specs.Opened as spec;

use std::io::ErrorKind;
use std::path::Path;
use std::rt::Files;
use std::{fs, io};

/// How many links are followed, as Linux does.
const MOST_LINKS: u32 = 40;

/// What a path stands for.
#[derive(Clone, Copy, Debug, PartialEq, Eq)]
pub(crate) enum Opened {
    /// Standard output.
    Output,
    /// Standard error.
    Error,
    /// Something else that a program has open.
    Other,
    /// A file of its own.
    Nothing,
}

/// Tells whether a path is a name of standard output.
fn is_output(path: &[u8]) -> bool
    ensures { result ≡ spec.is_output path.now }
{
    path == b"/dev/stdout".as_slice()
        || path == b"/dev/fd/1".as_slice()
        || path == b"/proc/self/fd/1".as_slice()
}

/// Tells whether a path is a name of standard error.
fn is_error(path: &[u8]) -> bool
    ensures { result ≡ spec.is_error path.now }
{
    path == b"/dev/stderr".as_slice()
        || path == b"/dev/fd/2".as_slice()
        || path == b"/proc/self/fd/2".as_slice()
}

/// Tells whether a path is in the folder of descriptors, or of what the system has of processes.
fn is_other(path: &[u8]) -> bool
    ensures { result ≡ spec.is_other path.now }
{
    path.starts_with(b"/dev/fd/") || path.starts_with(b"/proc/")
}

/// Gives what a path stands for by its name alone.
fn opened_by(path: &[u8]) -> Opened
    ensures { result ≡ spec.opened_by path.now }
{
    if is_output(path) {
        Opened::Output
    } else if is_error(path) {
        Opened::Error
    } else if is_other(path) {
        Opened::Other
    } else {
        Opened::Nothing
    }
}

/// Gives the name to which a path leads, if it is a link.
fn link_at<R: AllocGlobal + Files>(rt: &R, path: &str) -> io::Result<Option<String>> {
    let target = match fs::read_link(rt, path) {
        Ok(target) => target.into_string(),
        Err(error) if error.kind() == ErrorKind::OutOfMemory => return Err(error),
        Err(_) => return Ok(None),
    };
    let folder = Path::new(path).parent().unwrap_or(Path::new(""));
    Ok(Some(folder.join(rt.alloc(), target.as_str())?.into_string()))
}

/// Gives what a path stands for by a name to which it leads as a link.
fn linked_at<R: AllocGlobal + Files>(rt: &R, path: &str) -> io::Result<Opened> {
    let mut name = String::from_str(rt.alloc(), path)?;
    for _ in 0..MOST_LINKS {
        match link_at(rt, name.as_str())? {
            Some(target) => name = target,
            None => return Ok(Opened::Nothing),
        }
        let opened = opened_by(name.as_bytes());
        if opened != Opened::Nothing {
            return Ok(opened);
        }
    }
    Ok(Opened::Nothing)
}

/// Gives what a path stands for, by its name or by one to which it leads as a link.
pub(crate) fn opened_at<R: AllocGlobal + Files>(rt: &R, path: &str) -> io::Result<Opened>
    ensures { IfOk result (λ opened. (spec.opened_by path.now ≡ Opened.Nothing) ⊎ (opened ≡ spec.opened_by path.now)) }
{
    match opened_by(path.as_bytes()) {
        Opened::Nothing => linked_at(rt, path),
        opened => Ok(opened),
    }
}
