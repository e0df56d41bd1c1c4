//! What is known of each port, and a line heard on its own: judged, or noted alone.
ghost use Rattle.std.specs.Prelude.{◌≡◌, ◌<◌, ◌++◌, IfErr, IfOk, OnOk, replicate, length, slice_set};
ghost use Rattle.gp_machine.specs.Config.{max_ports};
ghost use Rattle.gp_audit.specs.Book.{TellingFails, TellsNotices};
ghost use Rattle.gp_audit.specs.Audit.{judged_at, judged_on};
ghost use Rattle.gp_audit.specs.Ending.{first_units};
ghost use Rattle.gp_audit.specs.Hearing.{log_told, port_at, port_logged, port_ticked, port_traced, ports_after, told_of, trace_told};
ghost use Rattle.gp_audit.specs.Port.{is_silent, port_begun, port_of};
ghost use Rattle.std.specs.List.{list_all};
ghost use Rattle.gp_audit.specs.Places.{IsNear};
ghost use Rattle.gp_audit.specs.Failing.{LineFails, LogFails, TraceFails};

use crate::book::Book;
use crate::fault::AuditFault;
use crate::judged::Judged;
use crate::options::AuditOptions;
use crate::port::Port;
use gp_census::Census;
use gp_finding::{LineError, Place};
use gp_lines::PORTS;
use gp_log::{LogFault, LogLine, Said};
use gp_watch::{PortWatch, WatchFault};
use std::alloc::{AllocError, Global};
use std::marker::Model;

/// What is known of each port.
#[derive(Drop)]
pub(crate) struct Ports {
    ports: Vec<Port>,
}

impl Model for Ports {
    ghost use Rattle.std.specs.Prelude.{◌≡◌, List, length};
    ghost use Rattle.std.specs.Coded.{codes};
    ghost use Rattle.gp_machine.specs.Config.{max_ports};
    ghost use Rattle.gp_census.specs.Kept.{census_code};
    ghost use Rattle.gp_watch.specs.Kept.{watch_code};
    ghost use Rattle.gp_audit.specs.Port.{PortState};

    ghost Value = { List PortState };

    ghost coded = { Prim.hlevel (codes, watch_code, census_code) };

    ghost view = { λ p. p.ports.items };

    ghost invariant = { λ p. length p.ports.items ≡ max_ports };
}

/// Opens each port: nothing was heard.
fn open(alloc: Global, midway: bool) -> Result<Vec<Port>, AllocError>
    ensures { IfOk result (λ ports. ports.items ≡ replicate max_ports (port_begun midway)) }
{
    let mut ports = Vec::with_capacity(alloc, PORTS)?;
    for _ in 0..PORTS {
        ports.push(Port::begin(alloc, midway)?)?;
    }
    Ok(ports)
}

/// Gives what was judged on all of these.
fn judged_on(ports: &[Port]) -> Judged
    ensures { result ≡ judged_on ports.now }
{
    ports
        .iter()
        .fold(Judged::none(), |sum, port| sum.with(port.judged()))
}

impl Ports {
    /// Nothing was heard on any of them.
    pub(crate) fn begin(alloc: Global, midway: bool) -> Result<Ports, AllocError>
        ensures { IfOk result (λ ports. ports ≡ replicate max_ports (port_begun midway)) }
    {
        Ok(Ports {
            ports: open(alloc, midway)?,
        })
    }

    /// Tells whether nothing was heard on any of them.
    pub(crate) fn are_silent(&self) -> bool
        ensures { result ≡ list_all is_silent self.now }
    {
        self.ports.iter().all(|port| port.is_silent())
    }

    /// Gives what was judged on all of them.
    pub(crate) fn judged(&self) -> Judged
        ensures { result ≡ judged_on self.now }
    {
        judged_on(&self.ports)
    }

    /// Gives what was judged on a port, where something was heard there.
    pub(crate) fn judged_at(&self, port: u8) -> Option<Judged>
        requires { port < max_ports }
        ensures { result ≡ judged_at self.now port }
    {
        let port = &self.ports[usize::from(port)];
        if port.is_silent() {
            return None;
        }
        Some(port.judged())
    }

    /// Tells what was counted of the units of each port on which something was heard.
    pub(crate) fn push_units(
        &self,
        out: &mut Vec<u8>,
        options: &AuditOptions,
    ) -> Result<(), AllocError>
        ensures { OnOk result (out.new.items ≡ out.old.items ++ first_units options.now self.now max_ports) }
    {
        for place in 0..PORTS {
            self.ports[place].push_units(out, options, place as u8)?;
        }
        Ok(())
    }

    /// Hears a line of a log on its port, unless its time is before the port's.
    fn hear_log(
        &mut self,
        book: &mut Book,
        options: &AuditOptions,
        place: &Place,
        time: u64,
        said: &Said,
    ) -> Result<(), AuditFault>
        requires { place.now.port < max_ports }
        ensures told { OnOk result (TellsNotices options.now (log_told options.now place.now
            (port_at options.now self.old place.now.port) time said.now) book.old book.new) }
        ensures fault { IfErr result (TellingFails book.old.sum (log_told options.now place.now
            (port_at options.now self.old place.now.port) time said.now)
            (LogFails options.now (port_at options.now self.old place.now.port) time said.now WatchFault.Full)) }
        ensures noted { OnOk result (self.new ≡ slice_set self.old place.now.port
            (port_logged options.now (port_at options.now self.old place.now.port) time said.now)) }
    {
        let port = &mut self.ports[usize::from(place.port)];
        port.hear_log(book, options, place, time, said)
    }

    /// Hears a line of a trace on its port: what it says, one behind the other.
    fn hear_trace(
        &mut self,
        book: &mut Book,
        options: &AuditOptions,
        place: &Place,
        is_frame: bool,
        first: &Option<Said>,
        second: &Option<Said>,
    ) -> Result<(), AuditFault>
        requires { place.now.port < max_ports }
        ensures told { OnOk result (TellsNotices options.now (trace_told options.now place.now
            (port_ticked (port_at options.now self.old place.now.port) is_frame) first.now second.now)
            book.old book.new) }
        ensures fault { IfErr result (TellingFails book.old.sum (trace_told options.now place.now
            (port_ticked (port_at options.now self.old place.now.port) is_frame) first.now second.now)
            (TraceFails options.now (port_ticked (port_at options.now self.old place.now.port) is_frame)
            first.now second.now WatchFault.Full)) }
        ensures noted { OnOk result (self.new ≡ slice_set self.old place.now.port (port_traced options.now
            (port_ticked (port_at options.now self.old place.now.port) is_frame) first.now second.now)) }
    {
        let port = &mut self.ports[usize::from(place.port)];
        port.hear_trace(book, options, place, is_frame, first, second)
    }

    /// Audits a line, by what was read of it.
    pub(crate) fn audit(
        &mut self,
        book: &mut Book,
        options: &AuditOptions,
        line: u64,
        read: &Result<LogLine, LogFault>,
    ) -> Result<(), AuditFault>
        requires { IsNear read.now }
        ensures told { OnOk result (TellsNotices options.now
            (told_of options.now self.old line read.now) book.old book.new) }
        ensures fault { IfErr result (TellingFails book.old.sum (told_of options.now self.old line read.now)
            (LineFails options.now self.old read.now WatchFault.Full)) }
        ensures noted { OnOk result (self.new ≡ ports_after options.now self.old read.now) }
    {
        match read {
            Ok(LogLine::Remark) => Ok(()),
            Ok(LogLine::Log { port, time, said }) => {
                let place = Place { line, port: *port };
                self.hear_log(book, options, &place, *time, said)
            }
            Ok(
                LogLine::Trace {
                    port,
                    is_frame,
                    first,
                    second,
                },
            ) => {
                let place = Place { line, port: *port };
                self.hear_trace(book, options, &place, *is_frame, first, second)
            }
            Err(fault) => book.tell_error(options, line, LineError::Log(*fault)),
        }
    }

    /// Notes a line of a log on its port, unless its time is before the port's.
    fn listen_log(
        &mut self,
        options: &AuditOptions,
        port: u8,
        time: u64,
        said: &Said,
    ) -> Result<(), WatchFault>
        requires { port < max_ports }
        ensures noted { OnOk result (self.new ≡ slice_set self.old port
            (port_logged options.now (port_at options.now self.old port) time said.now)) }
        ensures fault { IfErr result
            (LogFails options.now (port_at options.now self.old port) time said.now) }
    {
        let port = &mut self.ports[usize::from(port)];
        port.listen_log(options, time, said)
    }

    /// Notes a line of a trace on its port: what it says, one behind the other.
    fn listen_trace(
        &mut self,
        options: &AuditOptions,
        port: u8,
        is_frame: bool,
        first: &Option<Said>,
        second: &Option<Said>,
    ) -> Result<(), WatchFault>
        requires { port < max_ports }
        ensures noted { OnOk result (self.new ≡ slice_set self.old port (port_traced options.now
            (port_ticked (port_at options.now self.old port) is_frame) first.now second.now)) }
        ensures fault { IfErr result (TraceFails options.now
            (port_ticked (port_at options.now self.old port) is_frame) first.now second.now) }
    {
        let port = &mut self.ports[usize::from(port)];
        port.listen_trace(options, is_frame, first, second)
    }

    /// Notes a line, by what was read of it: it is heard, and nothing is told.
    pub(crate) fn listen(
        &mut self,
        options: &AuditOptions,
        read: &Result<LogLine, LogFault>,
    ) -> Result<(), WatchFault>
        requires { IsNear read.now }
        ensures noted { OnOk result (self.new ≡ ports_after options.now self.old read.now) }
        ensures fault { IfErr result (LineFails options.now self.old read.now) }
    {
        match read {
            Ok(LogLine::Log { port, time, said }) => self.listen_log(options, *port, *time, said),
            Ok(
                LogLine::Trace {
                    port,
                    is_frame,
                    first,
                    second,
                },
            ) => self.listen_trace(options, *port, *is_frame, first, second),
            Ok(LogLine::Remark) | Err(_) => Ok(()),
        }
    }

    /// Gives what the messages on a port told.
    pub(crate) fn watch(&self, port: u8) -> &PortWatch
        requires { port < max_ports }
        ensures { result.now ≡ (port_of self.now port).watch }
    {
        self.ports[usize::from(port)].watch()
    }

    /// Gives what was counted of the units of a port.
    pub(crate) fn census(&self, port: u8) -> &Census
        requires { port < max_ports }
        ensures { result.now ≡ (port_of self.now port).census }
    {
        self.ports[usize::from(port)].census()
    }
}
