//! What a file is by the end of its name.
ghost use Rattle.std.specs.Prelude.{◌≡◌};
ghost use Rattle.gp_folder.specs.Names as spec;

/// What a file is.
#[derive(Clone, Copy, Debug, PartialEq, Eq)]
pub enum Part {
    /// A script.
    Script,
    /// The trace that a script has to write.
    Trace,
    /// What is told of a script that is wrong.
    Faults,
}

impl Part {
    /// How the name of such a file ends, behind the name that it shares with the others.
    pub fn ending(self) -> &'static str
        ensures { result.now ≡ spec.ending self }
    {
        match self {
            Part::Script => ".toml",
            Part::Trace => ".trace",
            Part::Faults => ".faults",
        }
    }
}
