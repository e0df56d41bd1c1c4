//! The kinds of mistakes that a script may have, each with its number and name; and why a script was not read.
ghost use Rattle.std.specs.Prelude.{◌≡◌};
ghost use Rattle.gp_script.specs.declared.fault.ScriptError.TheVariants.{OutOfMemory, Fault};

use std::alloc::AllocError;
use thiserror::Error;

/// The first fault of a script. It is shown as its number and name.
#[derive(Clone, Copy, Debug, PartialEq, Eq, Error)]
pub enum ScriptFault {
    /// Not UTF-8, or no TOML.
    #[error("1 syntax")]
    Syntax,
    /// A key that is missing, unknown or one too many, a value of another type, a form that is not
    /// allowed, or a word that is not known.
    #[error("2 shape")]
    Shape,
    /// A number or a count out of its range.
    #[error("3 range")]
    Range,
    /// A text that spells no serial number.
    #[error("4 serial")]
    Serial,
    /// A text that isn't as many hex digits as it should be.
    #[error("5 hex")]
    Hex,
    /// A serial number that is admitted twice.
    #[error("6 duplicate")]
    Duplicate,
}

/// Why a script was not read.
#[derive(Clone, Copy, Debug, PartialEq, Eq, Error)]
pub enum ScriptError {
    /// Out of memory for the tables or for the script.
    #[error("out of memory")]
    OutOfMemory,
    /// What the bytes say is no script.
    #[error(transparent)]
    Fault(ScriptFault),
}

impl From<ScriptFault> for ScriptError {
    ghost from_gives = { λ f e. e ≡ Fault f };

    fn from(fault: ScriptFault) -> ScriptError {
        ScriptError::Fault(fault)
    }
}

impl From<AllocError> for ScriptError {
    ghost from_gives = { λ _ e. e ≡ OutOfMemory };

    fn from(_error: AllocError) -> ScriptError {
        ScriptError::OutOfMemory
    }
}
