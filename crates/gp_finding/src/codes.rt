//! How many codes came, and how many of them are garbled.
ghost use Rattle.std.specs.Prelude.{◌≡◌};
ghost use Rattle.gp_finding.specs.Codes as spec;
ghost use Rattle.gp_finding.specs.Hearing as hearing;

use gp_log::{LogLine, Said};
use gp_ploam::{Mask, crc};

/// How many codes the lines of an input have, and how many of these are garbled, as far as 64 bits go.
#[derive(Clone, Copy, Debug, PartialEq, Eq)]
pub struct Codes {
    /// All codes that came, up and down, each copy too.
    pub came: u64,
    /// Those of them whose check octet is wrong under the mask.
    pub garbled: u64,
}

/// Tells whether the check octet of a code is right under the mask.
fn is_right(mask: Mask, code: &[u8; 13]) -> bool
    ensures { result ≡ hearing.is_right mask code.now }
{
    crc(&code[..12], mask) == code[12]
}

impl Codes {
    /// No code came.
    pub fn none() -> Codes
        ensures { result ≡ spec.no_codes }
    {
        Codes {
            came: 0,
            garbled: 0,
        }
    }

    /// Counts a code.
    fn count(&mut self, mask: Mask, code: &[u8; 13])
        ensures { self.new ≡ spec.with_code mask code.now self.old }
    {
        self.came = self.came.saturating_add(1);
        if !is_right(mask, code) {
            self.garbled = self.garbled.saturating_add(1);
        }
    }

    /// Counts the code of what is said, if it has one: a grant has none.
    fn count_said(&mut self, mask: Mask, said: &Said)
        ensures { self.new ≡ spec.with_said mask said.now self.old }
    {
        match said {
            Said::Down(code) => self.count(mask, code),
            Said::Up { code, .. } => self.count(mask, code),
            Said::Grant(_) => {}
        }
    }

    /// Counts the code of what is said, if something is.
    fn count_some(&mut self, mask: Mask, said: &Option<Said>)
        ensures { self.new ≡ spec.with_some mask said.now self.old }
    {
        match said {
            Some(said) => self.count_said(mask, said),
            None => {}
        }
    }

    /// Hears a line: each of its codes counts, whatever its time or its port.
    pub fn hear(&mut self, mask: Mask, line: &LogLine)
        ensures { self.new ≡ spec.codes_after mask line.now self.old }
    {
        match line {
            LogLine::Remark => {}
            LogLine::Log { said, .. } => self.count_said(mask, said),
            LogLine::Trace { first, second, .. } => {
                self.count_some(mask, first);
                self.count_some(mask, second);
            }
        }
    }

    /// Tells whether there are codes, and all of them are garbled: under this mask no message was heard.
    pub fn are_all_garbled(&self) -> bool
        ensures { result ≡ spec.are_all_garbled self.now }
    {
        self.came > 0 && self.garbled == self.came
    }
}
