//! Why a line was answered by an error, and why a drive ended early.
ghost use Rattle.std.specs.Prelude.{◌≡◌};
ghost use Rattle.gp_drive.specs.Drive.{fault_word};
ghost use Rattle.gp_drive.specs.declared.fault.DriveFault.TheVariants.{Script, Turns};
ghost use Rattle.gp_replay.specs.Fault.{fault_of_play, fault_of_script, fault_of_source};
ghost use Rattle.gp_replay.specs.declared.fault.RunFault.TheVariants as runs;

use gp_flow::LinesFault;
use gp_lines::LineFault;
use gp_replay::{PlayFault, RunFault};
use gp_script::ScriptError;
use gp_stream::SourceFault;
use std::alloc::AllocError;
use thiserror::Error;

/// Why a line was answered by an error.
#[derive(Clone, Copy, Debug, PartialEq, Eq)]
pub enum TurnFault {
    /// The line is no turn.
    NoTurn(LineFault),
    /// The script has no such port.
    NoPort,
    /// The script has no such simulated unit.
    NoUnit,
    /// The grant up to which frames were asked for was made in none of them.
    Never,
}

impl TurnFault {
    /// Gives the word for it, which stands in the error line.
    pub fn word(self) -> &'static str
        ensures { result.now ≡ fault_word self }
    {
        match self {
            TurnFault::NoTurn(LineFault::Word) => "word",
            TurnFault::NoTurn(LineFault::Number) => "number",
            TurnFault::NoTurn(LineFault::Serial) => "serial",
            TurnFault::NoTurn(LineFault::Hex) => "hex",
            TurnFault::NoTurn(LineFault::Range) => "range",
            TurnFault::NoTurn(LineFault::Long) => "long",
            TurnFault::NoTurn(LineFault::Space) => "space",
            TurnFault::NoPort => "port",
            TurnFault::NoUnit => "unit",
            TurnFault::Never => "never",
        }
    }
}

/// Why a drive ended early.
#[derive(Clone, Copy, Debug, PartialEq, Eq, Error)]
pub enum DriveFault {
    /// The script was not read, or its events were not played to their end; of the lines nothing was read.
    #[error("of the script: {0}")]
    Script(RunFault),
    /// The lines were not all read, or not all answered.
    #[error("of the lines: {0}")]
    Turns(LinesFault),
}

impl From<AllocError> for DriveFault {
    ghost from_gives = { λ _ outcome. outcome ≡ Script runs.OutOfMemory };

    fn from(_error: AllocError) -> DriveFault {
        DriveFault::Script(RunFault::OutOfMemory)
    }
}

impl From<SourceFault> for DriveFault {
    ghost from_gives = { λ fault outcome. outcome ≡ Script (fault_of_source fault) };

    fn from(fault: SourceFault) -> DriveFault {
        DriveFault::Script(RunFault::from(fault))
    }
}

impl From<ScriptError> for DriveFault {
    ghost from_gives = { λ fault outcome. outcome ≡ Script (fault_of_script fault) };

    fn from(fault: ScriptError) -> DriveFault {
        DriveFault::Script(RunFault::from(fault))
    }
}

impl From<PlayFault> for DriveFault {
    ghost from_gives = { λ fault outcome. outcome ≡ Script (fault_of_play fault) };

    fn from(fault: PlayFault) -> DriveFault {
        DriveFault::Script(RunFault::from(fault))
    }
}

impl From<LinesFault> for DriveFault {
    ghost from_gives = { λ fault outcome. outcome ≡ Turns fault };

    fn from(fault: LinesFault) -> DriveFault {
        DriveFault::Turns(fault)
    }
}
