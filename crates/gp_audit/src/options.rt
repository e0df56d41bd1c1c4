//! What a log is judged by, and what is told.
ghost use Rattle.std.specs.Prelude.{◌≡◌, ◌<◌};
ghost use Rattle.gp_machine.specs.Config.{max_ports};
ghost use Rattle.gp_watch.specs.Heard.{heard_of, settings_of};
ghost use Rattle.gp_audit.specs.Ending.{census_form};
ghost use Rattle.gp_audit.specs.Notice.{finding_form, settings_at};
ghost use Rattle.gp_audit.specs.RuleSet.{is_side_told, is_told};

use crate::rule_set::RuleSet;
use gp_census::CensusForm;
use gp_finding::FindingForm;
use gp_lines::PORTS;
use gp_observer::Rule;
use gp_ploam::Mask;
use gp_watch::{Heard, Settings};

/// How a log is told.
#[derive(Clone, Copy, Debug, PartialEq, Eq)]
pub enum AuditForm {
    /// The findings, each as a line.
    Text,
    /// Each line again, with its code in words, and its findings under it.
    Words,
    /// The findings, each as a JSON object.
    Json,
}

/// Which findings are told.
#[derive(Clone, Copy, Debug, PartialEq, Eq)]
pub struct FindingChoice {
    /// Those of the line terminal.
    pub terminal: bool,
    /// Those of the units.
    pub units: bool,
    /// Those of these rules.
    pub rules: RuleSet,
}

impl FindingChoice {
    /// Tells whether findings of its side are told.
    pub(crate) fn tells_side(&self, heard: &Heard) -> bool
        ensures { result ≡ is_side_told self.now (heard_of heard.now) }
    {
        match heard {
            Heard::Down(_) | Heard::Grant(_) => self.terminal,
            Heard::Up { .. } => self.units,
        }
    }

    /// Tells whether it is told that something heard breaks a rule.
    pub(crate) fn tells(&self, heard: &Heard, rule: Rule) -> bool
        ensures { result ≡ is_told self.now (heard_of heard.now) rule }
    {
        self.tells_side(heard) && self.rules.contains(rule)
    }
}

/// What a log is judged by, and what is told.
#[derive(Clone, Copy, Debug, PartialEq, Eq)]
pub struct AuditOptions {
    /// The mask of the codes.
    pub mask: Mask,
    /// The equalized round-trip delay of each port, in bit times.
    pub teqd: [u32; PORTS],
    /// By how much a delay may differ from the one that its unit was ranged with, in bit times.
    pub drift: u32,
    /// Whether the log begins in the middle: what needs to have heard an assignment is judged only of ONU-IDs of which
    /// one was heard.
    pub midway: bool,
    /// Which findings are told.
    pub told: FindingChoice,
    /// How they are told.
    pub form: AuditForm,
    /// Whether what was heard of each unit is told at the end. Each thing that is heard then costs a look for its unit.
    pub units: bool,
}

impl AuditOptions {
    /// Gives what a port's delays are judged by.
    pub(crate) fn settings(&self, port: u8) -> Settings
        requires { port < max_ports }
        ensures { settings_of result ≡ settings_at self.now port }
    {
        Settings {
            teqd: self.teqd[usize::from(port)],
            drift: self.drift,
        }
    }

    /// Gives how units are told.
    pub(crate) fn census_form(&self) -> CensusForm
        ensures { result ≡ census_form self.now.form }
    {
        match self.form {
            AuditForm::Text | AuditForm::Words => CensusForm::Text,
            AuditForm::Json => CensusForm::Json,
        }
    }

    /// Gives how findings are told.
    pub(crate) fn finding_form(&self) -> FindingForm
        ensures { result ≡ finding_form self.now.form }
    {
        match self.form {
            AuditForm::Text | AuditForm::Words => FindingForm::Text,
            AuditForm::Json => FindingForm::Json,
        }
    }
}
