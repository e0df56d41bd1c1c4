//! `Listener`, which is given the lines of a log or of a trace, and tells nothing of them: what they let one know of
//! each port stands in it.
ghost use Rattle.std.specs.Prelude.{◌≡◌, ◌<◌, IfErr, IfOk, OnOk};
ghost use Rattle.gp_machine.specs.Config.{max_ports};
ghost use Rattle.gp_audit.specs.Listening.{HearsLine, FailsOnLine, listening, none_heard};
ghost use Rattle.gp_audit.specs.Port.{port_of};

use crate::options::{AuditForm, AuditOptions, FindingChoice};
use crate::ports::Ports;
use crate::rule_set::RuleSet;
use gp_census::Census;
use gp_lines::PORTS;
use gp_log::read_line;
use gp_ploam::Mask;
use gp_watch::{PortWatch, WatchFault};
use std::alloc::{AllocError, Global};
use std::marker::Model;

/// Hears the lines of a log, one after another, and tells nothing of them. Contracts see the mask of their codes, and
/// what is known of each port.
#[derive(Drop)]
pub struct Listener {
    options: AuditOptions,
    ports: Ports,
}

impl Model for Listener {
    ghost use Rattle.std.specs.Prelude.{◌≡◌, length};
    ghost use Rattle.std.specs.Coded.{codes};
    ghost use Rattle.gp_census.specs.Kept.{census_code};
    ghost use Rattle.gp_watch.specs.Kept.{watch_code};
    ghost use Rattle.gp_audit.specs.Listening.{ListenerState, listening};

    ghost Value = { ListenerState };

    ghost coded = { Prim.hlevel (codes, watch_code, census_code) };

    ghost view = { λ l. record { mask = l.options.mask; ports = l.ports } };

    ghost invariant = { λ l. l.options ≡ listening l.options.mask };
}

/// Gives what a listener hears by.
fn listening(mask: Mask) -> AuditOptions
    ensures { result ≡ listening mask }
{
    AuditOptions {
        mask,
        teqd: [0; PORTS],
        drift: 0,
        midway: false,
        told: FindingChoice {
            terminal: false,
            units: false,
            rules: RuleSet::none(),
        },
        form: AuditForm::Text,
        units: true,
    }
}

impl Listener {
    /// Begins before the first line of a log, whose codes are under this mask. Takes memory for each port.
    pub fn begin(alloc: Global, mask: Mask) -> Result<Listener, AllocError>
        ensures { IfOk result (λ listener. listener ≡ record { mask = mask; ports = none_heard }) }
    {
        Ok(Listener {
            options: listening(mask),
            ports: Ports::begin(alloc, false)?,
        })
    }

    /// Hears a line, which comes without its line feed, as an audit does. Takes memory where a serial number is new.
    /// Where that is refused, or a serial number asks more often than is counted, nothing is promised of what is known
    /// of the ports then.
    pub fn hear(&mut self, text: &[u8]) -> Result<(), WatchFault>
        ensures heard { OnOk result (HearsLine self.old.mask text.now self.old.ports self.new.ports) }
        ensures mask { self.new.mask ≡ self.old.mask }
        ensures fault { IfErr result (FailsOnLine self.old.mask text.now self.old.ports) }
    {
        let read = read_line(text);
        self.ports.listen(&self.options, &read)
    }

    /// Gives what the messages on a port told.
    pub fn watch(&self, port: u8) -> &PortWatch
        requires { port < max_ports }
        ensures { result.now ≡ (port_of self.now.ports port).watch }
    {
        self.ports.watch(port)
    }

    /// Gives what was counted of the units of a port.
    pub fn census(&self, port: u8) -> &Census
        requires { port < max_ports }
        ensures { result.now ≡ (port_of self.now.ports port).census }
    {
        self.ports.census(port)
    }
}
