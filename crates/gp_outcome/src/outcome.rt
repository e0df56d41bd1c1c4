//! What became of a script.
ghost use Rattle.std.specs.Prelude.{◌≡◌};
ghost use Rattle.gp_outcome.specs.Tally as spec;

use gp_compare::Difference;
use gp_folder::Part;

/// Why a script, or a folder, did not pass.
#[derive(Debug, Drop)]
pub enum Failure {
    /// A file of it was not read, for this cause.
    Unread { part: Part, cause: String },
    /// A folder, or a name in it, was not read, for this cause.
    Unlisted { cause: String },
    /// There is no script in the folder.
    NoScripts,
    /// There is no script beside the file.
    NoScript,
    /// There is nothing beside the script to compare with.
    NothingBeside,
    /// There is a trace and a list of faults beside the script, of which one can't be right.
    BothBeside,
    /// It is no script, for which this is told.
    Wrong { told: String },
    /// It is a script, though a list of its faults stands beside it.
    Right,
    /// What is told of its fault is not as expected.
    OtherFault(Difference),
    /// Its trace is not as expected.
    OtherTrace(Difference),
    /// A play of it writes no line, so that nothing is compared.
    NothingPlayed,
    /// It was not played to its end.
    Stopped,
    /// Its trace was not written, for this cause.
    Unwritten { cause: String },
    /// Out of memory.
    OutOfMemory,
}

/// What became of a script.
#[derive(Debug, Drop)]
pub enum Outcome {
    /// Its trace is as expected, and has so many lines.
    Passed { lines: u64 },
    /// It is wrong, and what is told of that is as expected.
    Refused,
    /// There was no trace, and now there is.
    Written,
    /// Something is not as it has to be.
    Failed(Failure),
}

impl Outcome {
    /// Tells whether something is not as it has to be.
    pub fn is_failed(&self) -> bool
        ensures { result ≡ spec.is_failed self.now }
    {
        match self {
            Outcome::Failed(_) => true,
            Outcome::Passed { .. } | Outcome::Refused | Outcome::Written => false,
        }
    }
}
