//! What is said of the line at hand, and the counts.
ghost use Rattle.std.specs.Prelude.{◌≡◌, ◌+◌, ◌<◌, [], ◌∷◌, IfErr, IfOk, OnErr, OnOk};
ghost use Rattle.gp_machine.specs.Config.{max_ports};
ghost use Rattle.gp_flow.specs.Lines.{most_lines};
ghost use Rattle.gp_watch.specs.Heard.{settings_of};
ghost use Rattle.gp_audit.specs.Book.{TellingFails, TellsNotices};
ghost use Rattle.gp_audit.specs.Notice.{Finding, Fault, sum_behind};

use crate::fault::AuditFault;
use crate::options::AuditOptions;
use gp_finding::{AuditSum, LineError, Place, push_error, push_finding};
use gp_log::Said;
use gp_observer::Rule;
use gp_watch::PortWatch;

/// What is said of the line at hand, and how many lines, findings and errors there were.
#[derive(Drop)]
pub(crate) struct Book {
    pub(crate) said: Vec<u8>,
    pub(crate) sum: AuditSum,
}

impl Book {
    /// Begins the next line, of which nothing is said yet, and gives its number.
    pub(crate) fn begin_line(&mut self) -> Result<u64, AuditFault>
        ensures number { IfOk result (λ number. number ≡ self.old.sum.lines + 1) }
        ensures sum { OnOk result (self.new.sum ≡ sum_behind self.old.sum) }
        ensures empty { OnOk result (self.new.said.items ≡ []) }
        ensures full { OnErr result (self.old.sum.lines ≡ most_lines) }
    {
        if self.sum.lines == u64::MAX {
            return Err(AuditFault::Full);
        }
        self.said.clear();
        self.sum.lines += 1;
        Ok(self.sum.lines)
    }

    /// Tells that a rule is broken.
    pub(crate) fn tell_finding(
        &mut self,
        options: &AuditOptions,
        watch: &PortWatch,
        place: &Place,
        said: &Said,
        rule: Rule,
    ) -> Result<(), AuditFault>
        requires { place.now.port < max_ports }
        ensures told { OnOk result (TellsNotices options.now
            (Finding watch.now place.now said.now rule ∷ []) self.old self.new) }
        ensures fault { IfErr result (TellingFails self.old.sum
            (Finding watch.now place.now said.now rule ∷ []) ⊥) }
    {
        if self.sum.findings == u64::MAX {
            return Err(AuditFault::Full);
        }
        let form = options.finding_form();
        let settings = options.settings(place.port);
        push_finding(
            &mut self.said,
            form,
            options.mask,
            &settings,
            watch,
            place,
            said,
            rule,
        )?;
        self.sum.findings += 1;
        Ok(())
    }

    /// Tells why a line, or something that is said on it, isn't audited.
    pub(crate) fn tell_error(
        &mut self,
        options: &AuditOptions,
        line: u64,
        error: LineError,
    ) -> Result<(), AuditFault>
        ensures told { OnOk result (TellsNotices options.now (Fault line error ∷ []) self.old self.new) }
        ensures fault { IfErr result (TellingFails self.old.sum (Fault line error ∷ []) ⊥) }
    {
        if self.sum.errors == u64::MAX {
            return Err(AuditFault::Full);
        }
        push_error(&mut self.said, options.finding_form(), line, error)?;
        self.sum.errors += 1;
        Ok(())
    }
}
