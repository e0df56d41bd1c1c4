//! Whether what a source gives is a script.
ghost use Rattle.std.specs.Prelude.{IfOk, string_bytes};
ghost use Rattle.std.specs.Option.{option_map};
ghost use Rattle.gp_script.specs.Fault.{GivesPlaced};
ghost use Rattle.gp_script.specs.View.{script_view};
ghost use Rattle.gp_check.specs.Check.{Checks, IsFound, IsOfBytes, Places, said_by};

use crate::fault::ScriptCheckFault;
use crate::found::{Found, found_line, found_text};
use crate::lines::line_of_mistake;
use gp_script::{PlacedError, Script, read_script_at, read_storm_script_at};
use gp_stream::{Sink, Source, SourceFault, read_all};
use std::alloc::{AllocError, Global};
use std::io::{Read, Write};

/// What a script is to be for.
#[derive(Clone, Copy, Debug, PartialEq, Eq)]
pub enum Purpose {
    /// To be replayed, driven or verified against.
    Replay,
    /// To be run as a storm, which has no simulated units.
    Storm,
}

/// Reads what bytes say as a script for this.
pub fn read_script_for(alloc: Global, purpose: Purpose, bytes: &[u8]) -> Result<Script, PlacedError>
    ensures { GivesPlaced script_view result (said_by purpose bytes.now) }
{
    match purpose {
        Purpose::Replay => read_script_at(alloc, bytes),
        Purpose::Storm => read_storm_script_at(alloc, bytes),
    }
}

/// Tells what bytes are.
fn found_in_bytes(alloc: Global, purpose: Purpose, bytes: &[u8]) -> Result<Found, AllocError>
    ensures { IfOk result (IsOfBytes purpose bytes.now) }
{
    match read_script_for(alloc, purpose, bytes) {
        Ok(script) => Ok(Found::Script {
            ports: script.ports.len(),
            units: script.units.len(),
            events: script.events.len(),
        }),
        Err(PlacedError::Wrong(mistake)) => {
            let line = line_of_mistake(alloc, bytes, &mistake)?;
            Ok(Found::Wrong { mistake, line })
        }
        Err(PlacedError::OutOfMemory) => Err(AllocError),
    }
}

/// Gives the text of the mistake that bytes have as a script for this, and its line where that is known, as
/// `event 17, at: 3 range, 0 to 4294967295, line 84`; `None` where they are a script. Fails where memory was refused.
pub fn placed_line(
    alloc: Global,
    purpose: Purpose,
    bytes: &[u8],
) -> Result<Option<String>, AllocError>
    ensures { IfOk result (λ told. Places purpose bytes.now (option_map string_bytes told)) }
{
    let found = found_in_bytes(alloc, purpose, bytes)?;
    if found.is_script() {
        return Ok(None);
    }
    let text = found_text(alloc, &found)?;
    Ok(Some(text))
}

/// Reads a source to its end, and tells what was found in it: a script for this, or why it is none. Fails where memory
/// was refused.
pub fn find_script<R: Read>(
    alloc: Global,
    purpose: Purpose,
    source: &mut Source<R>,
) -> Result<Found, AllocError>
    ensures { IfOk result (IsFound purpose source.old source.new) }
{
    match read_all(alloc, source) {
        Ok(bytes) => found_in_bytes(alloc, purpose, bytes.as_slice()),
        Err(SourceFault::Read) => Ok(Found::Unread),
        Err(SourceFault::TooLong) => Ok(Found::TooLong),
        Err(SourceFault::OutOfMemory) => Err(AllocError),
    }
}

/// Reads a source to its end, writes one line that tells whether it is a script, `NAME: ..`, and answers whether it is.
///
/// A source that can't be read, or is too long for a script, is told by its line too. What the sink gathered before
/// goes out first, and the line is written out at once.
pub fn check_script<R: Read, W: Write>(
    alloc: Global,
    name: &str,
    source: &mut Source<R>,
    sink: &mut Sink<W>,
) -> Result<bool, ScriptCheckFault>
    ensures { Checks name.now source.old source.new sink.old sink.new result }
{
    let found = find_script(alloc, Purpose::Replay, source)?;
    let line = found_line(alloc, name, &found)?;
    sink.write_whole(line.as_bytes())?;
    Ok(found.is_script())
}
