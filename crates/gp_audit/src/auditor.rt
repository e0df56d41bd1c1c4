//! `Auditor`, which is given the lines of a log one after another, and tells of each what it breaks and at the end what
//! was counted.
ghost use Rattle.std.specs.Prelude.{◌≡◌, ◌<◌, IfOk};
ghost use Rattle.gp_machine.specs.Config.{max_ports};
ghost use Rattle.line_columns.specs.Layout.{as_they_are};
ghost use Rattle.gp_audit.specs.Audit.{audit_begun, is_silent, judged_at, judged_on};
ghost use Rattle.gp_audit.specs.Outcome.{TellsEnd};

use crate::again::Again;
use crate::book::Book;
use crate::judged::Judged;
use crate::options::AuditOptions;
use crate::ports::Ports;
use gp_finding::{AuditSum, push_sum};
use gp_flow::Unanswered;
use gp_stream::Sink;
use line_columns::Layout;
use std::alloc::{AllocError, Global};
use std::io::Write;
use std::marker::Model;

/// How much room the buffer of a line has at first.
const LINE_ROOM: usize = 512;

/// Audits the lines of a log, one after another. Contracts see what it judges by and tells, how lines are laid out, what
/// is known of each port, and how many lines, findings and errors there were.
#[derive(Drop)]
pub struct Auditor {
    pub(crate) options: AuditOptions,
    pub(crate) layout: Layout,
    pub(crate) ports: Ports,
    pub(crate) book: Book,
    pub(crate) again: Again,
    /// Room for what is read of a line with a layout.
    pub(crate) plain: Vec<u8>,
}

impl Model for Auditor {
    ghost use Rattle.std.specs.Prelude.{◌≡◌};
    ghost use Rattle.std.specs.Coded.{codes};
    ghost use Rattle.gp_census.specs.Kept.{census_code};
    ghost use Rattle.gp_watch.specs.Kept.{watch_code};
    ghost use Rattle.gp_audit.specs.Audit.{AuditState};

    ghost Value = { AuditState };

    ghost coded = { Prim.hlevel (codes, watch_code, census_code) };

    ghost view = { λ a. record {
      options = a.options;
      layout = a.layout;
      ports = a.ports;
      sum = a.book.sum;
    } };

    ghost invariant = { λ a. a.again ≡ a.options.mask };
}

impl Auditor {
    /// Makes one to which no line came. Fails only where there is no memory; a line takes more only for a serial number
    /// that is new, or where what is said to it needs more room than any line before.
    pub fn begin(alloc: Global, options: &AuditOptions) -> Result<Auditor, AllocError>
        ensures { IfOk result (λ auditor. auditor ≡ audit_begun options.now as_they_are) }
    {
        Auditor::begin_with(alloc, options, Layout::as_they_are(alloc))
    }

    /// Makes one whose lines are laid out like this.
    pub fn begin_with(
        alloc: Global,
        options: &AuditOptions,
        layout: Layout,
    ) -> Result<Auditor, AllocError>
        ensures { IfOk result (λ auditor. auditor ≡ audit_begun options.now layout) }
    {
        let ports = Ports::begin(alloc, options.midway)?;
        let said = Vec::with_capacity(alloc, LINE_ROOM)?;
        let sum = AuditSum {
            lines: 0,
            findings: 0,
            errors: 0,
        };
        Ok(Auditor {
            options: *options,
            layout,
            ports,
            book: Book { said, sum },
            again: Again::begin(alloc, options.mask),
            plain: Vec::new(alloc),
        })
    }

    /// How many lines, findings and errors there were.
    pub fn sum(&self) -> AuditSum
        ensures { result ≡ self.now.sum }
    {
        self.book.sum
    }

    /// Tells whether nothing was heard on any port, whatever lines came: neither a message nor a grant.
    pub fn is_silent(&self) -> bool
        ensures { result ≡ is_silent self.now }
    {
        self.ports.are_silent()
    }

    /// Which of the rules that are told were judged of what was heard, on any port, and how many garbled codes no
    /// finding tells of.
    pub fn judged(&self) -> Judged
        ensures { result ≡ judged_on self.now.ports }
    {
        self.ports.judged()
    }

    /// The same of one port, 0 to 15; None where nothing was heard there.
    pub fn judged_at(&self, port: u8) -> Option<Judged>
        requires { port < max_ports }
        ensures { result ≡ judged_at self.now.ports port }
    {
        self.ports.judged_at(port)
    }

    /// Writes what was counted of the units, where that is wanted, and the sum.
    pub(crate) fn tell_end<W: Write>(&mut self, sink: &mut Sink<W>) -> Result<(), Unanswered>
        ensures told { TellsEnd self.old sink.old sink.new result }
        ensures same { self.new ≡ self.old }
    {
        let form = self.options.finding_form();
        self.book.said.clear();
        if self.options.units {
            self.ports.push_units(&mut self.book.said, &self.options)?;
        }
        push_sum(&mut self.book.said, form, &self.book.sum)?;
        sink.write_whole(self.book.said.as_slice())?;
        Ok(())
    }
}
