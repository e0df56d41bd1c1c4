//! What was found in a source, and how it is told.
ghost use Rattle.std.specs.Prelude.{◌≡◌, IfOk, string_bytes};
ghost use Rattle.gp_check.specs.Check.{count_text, found_text as text_of_found, is_script as found_a_script, line_of};

use crate::text::placed_text;
use gp_script::Mistake;
use std::alloc::{AllocError, Global};

/// What was found in a source.
#[derive(Debug, Drop)]
pub enum Found {
    /// A script, with so many ports, simulated units and events.
    Script {
        ports: usize,
        units: usize,
        events: usize,
    },
    /// A read failed, or the source took too many reads.
    Unread,
    /// More bytes than a script may have.
    TooLong,
    /// Bytes that are no script.
    Wrong {
        mistake: Mistake,
        /// The line where the mistake stands, from 1, where it is known and not part of the mistake.
        line: Option<usize>,
    },
}

impl Found {
    /// Tells whether it is a script.
    pub fn is_script(&self) -> bool
        ensures { result ≡ found_a_script self.now }
    {
        match self {
            Found::Script { .. } => true,
            Found::Unread | Found::TooLong | Found::Wrong { .. } => false,
        }
    }
}

/// Gives how many there are of what is counted, whose name is that of one of them.
fn count_text(alloc: Global, count: usize, what: &str) -> Result<String, AllocError>
    ensures { IfOk result (λ text. string_bytes text ≡ count_text count what.now) }
{
    if count == 1 {
        format!(in alloc; "{count} {what}")
    } else {
        format!(in alloc; "{count} {what}s")
    }
}

/// Gives what is told of it, but for the name of the file.
pub(crate) fn found_text(alloc: Global, found: &Found) -> Result<String, AllocError>
    ensures { IfOk result (λ text. string_bytes text ≡ text_of_found found.now) }
{
    match found {
        Found::Script {
            ports,
            units,
            events,
        } => {
            let ports = count_text(alloc, *ports, "port")?;
            let units = count_text(alloc, *units, "unit")?;
            let events = count_text(alloc, *events, "event")?;
            format!(in alloc; "{ports}, {units}, {events}")
        }
        Found::Unread => String::from_str(alloc, "can't be read"),
        Found::TooLong => String::from_str(alloc, "more than 1048576 bytes"),
        Found::Wrong { mistake, line } => placed_text(alloc, mistake, *line),
    }
}

/// Gives the line of a file with this name, its line feed with it.
pub fn found_line(alloc: Global, name: &str, found: &Found) -> Result<String, AllocError>
    ensures { IfOk result (λ line. string_bytes line ≡ line_of name.now found.now) }
{
    let text = found_text(alloc, found)?;
    format!(in alloc; "{name}: {text}\n")
}
