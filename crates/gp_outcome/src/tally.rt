//! How many there were of each outcome.
ghost use Rattle.std.specs.Prelude.{◌≡◌, ◌++◌, IfOk, OnOk};
ghost use Rattle.gp_outcome.specs.Tally as spec;

use crate::outcome::Outcome;
use crate::words::{push_number, push_text};
use std::alloc::{AllocError, Global};

/// How many files had each outcome.
#[derive(Clone, Copy, Debug, PartialEq, Eq)]
pub struct Tally {
    /// Those that are as they have to be.
    pub passed: u64,
    /// Those whose trace was written.
    pub written: u64,
    /// Those that failed.
    pub failed: u64,
}

/// Appends how many traces were written, if any were.
fn push_written(out: &mut Vec<u8>, written: u64) -> Result<(), AllocError>
    ensures { OnOk result (out.new.items ≡ out.old.items ++ spec.written_text written) }
{
    if written == 0 {
        return Ok(());
    }
    push_number(out, written)?;
    push_text(out, " written, ")
}

impl Tally {
    /// Nothing was counted.
    pub fn new() -> Tally
        ensures { result ≡ spec.nothing }
    {
        Tally {
            passed: 0,
            written: 0,
            failed: 0,
        }
    }

    /// Counts one more; no more are counted than 64 bits hold.
    pub fn count(&mut self, outcome: &Outcome)
        ensures { self.new ≡ spec.counted self.old outcome.now }
    {
        match outcome {
            Outcome::Passed { .. } | Outcome::Refused => {
                self.passed = self.passed.saturating_add(1);
            }
            Outcome::Written => self.written = self.written.saturating_add(1),
            Outcome::Failed(_) => self.failed = self.failed.saturating_add(1),
        }
    }

    /// Gives the sum as a line, its line feed with it. Fails where memory was refused.
    pub fn line(&self, alloc: Global) -> Result<Vec<u8>, AllocError>
        ensures { IfOk result (λ line. line.items ≡ spec.line_of self.now) }
    {
        let mut line = Vec::new(alloc);
        push_number(&mut line, self.passed)?;
        push_text(&mut line, " passed, ")?;
        push_written(&mut line, self.written)?;
        push_number(&mut line, self.failed)?;
        push_text(&mut line, " failed\n")?;
        Ok(line)
    }

    /// Gives the sum as a JSON object, with a line feed behind it. Fails where memory was refused.
    pub fn object(&self, alloc: Global) -> Result<Vec<u8>, AllocError>
        ensures { IfOk result (λ object. object.items ≡ spec.object_of self.now) }
    {
        let mut object = Vec::new(alloc);
        push_text(&mut object, "{\"passed\":")?;
        push_number(&mut object, self.passed)?;
        push_text(&mut object, ",\"written\":")?;
        push_number(&mut object, self.written)?;
        push_text(&mut object, ",\"failed\":")?;
        push_number(&mut object, self.failed)?;
        push_text(&mut object, "}\n")?;
        Ok(object)
    }
}
