//! What is told of a source, and where: on the output, on standard error, or nowhere.
ghost use Rattle.gp_check.specs.Telling.{TellsSource, TellsFound};

use crate::checking::{Purpose, find_script};
use crate::fault::ScriptCheckFault;
use crate::found::{Found, found_line};
use crate::object::found_object;
use gp_stream::{Sink, Source};
use std::alloc::Global;
use std::io::{Read, Write};

/// How sources are told of.
#[derive(Clone, Copy, Debug, PartialEq, Eq)]
pub struct CheckManner {
    /// What they are to be scripts for.
    pub purpose: Purpose,
    /// Nothing is told of those that are.
    pub quiet: bool,
    /// An object is told of each, in place of a line.
    pub json: bool,
}

/// What a source was found to be, and what is left to tell of it.
#[derive(Debug, Drop)]
pub enum CheckedSource {
    /// It is a script, and all is told.
    Script,
    /// It is none, and all is told.
    NoScript,
    /// It is none, and this line of it is for standard error.
    Wrong(String),
    /// It was not read to its end: a read failed, or it took too many reads. Nothing is told.
    Unread,
}

/// Tells of what was found in a source that was read.
fn tell_found<W: Write>(
    alloc: Global,
    manner: CheckManner,
    name: &str,
    found: &Found,
    sink: &mut Sink<W>,
) -> Result<CheckedSource, ScriptCheckFault>
    ensures { TellsFound manner name.now found.now sink.old sink.new result }
{
    let is_script = found.is_script();
    if is_script && manner.quiet {
        return Ok(CheckedSource::Script);
    }
    if manner.json {
        let object = found_object(alloc, name, found)?;
        sink.write_whole(object.as_slice())?;
        return Ok(if is_script {
            CheckedSource::Script
        } else {
            CheckedSource::NoScript
        });
    }
    let line = found_line(alloc, name, found)?;
    if !is_script {
        return Ok(CheckedSource::Wrong(line));
    }
    sink.write_whole(line.as_bytes())?;
    Ok(CheckedSource::Script)
}

/// Reads a source to its end, and tells whether it is a script: a line of one that is goes to the sink, one of another
/// is handed back, and an object goes to the sink of either. What the sink gathered before goes out first. Of a source
/// that was not read to its end nothing is told, since why is known to its reader alone.
pub fn tell_script<R: Read, W: Write>(
    alloc: Global,
    manner: CheckManner,
    name: &str,
    source: &mut Source<R>,
    sink: &mut Sink<W>,
) -> Result<CheckedSource, ScriptCheckFault>
    ensures { TellsSource manner name.now source.old source.new sink.old sink.new result }
{
    let found = find_script(alloc, manner.purpose, source)?;
    match &found {
        Found::Unread => Ok(CheckedSource::Unread),
        _ => tell_found(alloc, manner, name, &found, sink),
    }
}
