//! What is wrong with a script, and where.
ghost use Rattle.std.specs.Prelude.{◌≡◌};
ghost use Rattle.gp_script.specs.Fault.{error_without_place, mistake_view};
ghost use Rattle.gp_script.specs.Mistake.{fault_of, fault_of_wanted};

use crate::fault::{ScriptError, ScriptFault};
use crate::place::{Spot, TablePlace, Wanted};
use thiserror::Error;

/// What is wrong in a table.
#[derive(Debug, Drop)]
pub enum TableMistake {
    /// It has a key that it may not have. Of several such keys the first in the order of their octets is told.
    UnknownKey(String),
    /// Something is wanted at a spot of it.
    Unmet(Spot, Wanted),
}

/// Why a text is no TOML, as the TOML library tells it.
#[derive(Debug, Drop)]
pub struct SyntaxMistake {
    /// The line, from 1.
    pub line: usize,
    /// The column, from 1, in characters.
    pub column: usize,
    /// What the library says.
    pub message: String,
}

/// What is wrong with a script, and where.
#[derive(Debug, Drop)]
pub enum Mistake {
    /// The bytes are no UTF-8.
    NoText,
    /// The text is no TOML.
    NoToml(SyntaxMistake),
    /// One of its tables is wrong.
    Inside(TablePlace, TableMistake),
}

impl Wanted {
    /// Gives the fault that this is, where something else stands.
    pub fn fault(self) -> ScriptFault
        ensures { result ≡ fault_of_wanted self }
    {
        match self {
            Wanted::Range { .. } | Wanted::Count { .. } | Wanted::MaskNumber => ScriptFault::Range,
            Wanted::SerialText => ScriptFault::Serial,
            Wanted::Digits(_) => ScriptFault::Hex,
            Wanted::NewSerial { .. } => ScriptFault::Duplicate,
            _ => ScriptFault::Shape,
        }
    }
}

impl Mistake {
    /// Gives the fault that this is.
    pub fn fault(&self) -> ScriptFault
        ensures { result ≡ fault_of (mistake_view self.now) }
    {
        match self {
            Mistake::NoText | Mistake::NoToml(_) => ScriptFault::Syntax,
            Mistake::Inside(_, TableMistake::UnknownKey(_)) => ScriptFault::Shape,
            Mistake::Inside(_, TableMistake::Unmet(_, want)) => want.fault(),
        }
    }
}

/// Why a script was not read, and where it is wrong.
#[derive(Debug, Drop, Error)]
pub enum PlacedError {
    /// Out of memory for the tables, for the script or for what is told of a mistake.
    #[error("out of memory")]
    OutOfMemory,
    /// What the bytes say is no script.
    #[error("the script is wrong")]
    Wrong(Mistake),
}

impl From<PlacedError> for ScriptError {
    ghost from_gives = { λ placed error. error ≡ error_without_place placed };

    fn from(placed: PlacedError) -> ScriptError {
        match placed {
            PlacedError::OutOfMemory => ScriptError::OutOfMemory,
            PlacedError::Wrong(mistake) => ScriptError::Fault(mistake.fault()),
        }
    }
}
