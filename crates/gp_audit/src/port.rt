//! What is known of one port, and what is told of something that is heard there; or nothing is told, and it is noted
//! alone.
ghost use Rattle.std.specs.Prelude.{◌≡◌, ◌<◌, ◌||◌, [], ◌∷◌, ◌++◌, if◌then◌else◌, IfErr, IfOk, OnErr, OnOk};
ghost use Rattle.gp_machine.specs.Config.{max_ports};
ghost use Rattle.gp_watch.specs.Heard.{followed_down, followed_up, heard_of, IsFitting};
ghost use Rattle.gp_audit.specs.Book.{TellingFails, TellsNotices};
ghost use Rattle.gp_audit.specs.Ending.{units_of};
ghost use Rattle.gp_audit.specs.Hearing.{census_after, findings_of, followed_in, full_told, heard_told, log_told, maybe_told, overfills, port_after, port_behind, port_logged, port_maybe, port_noted, port_ticked, port_traced, said_told, told_rules, trace_told};
ghost use Rattle.gp_audit.specs.Port.{is_silent, port_begun, time_after};
ghost use Rattle.gp_audit.specs.RuleSet.{is_told};
ghost use Rattle.gp_audit.specs.Failing.{IsNewUnit, HeardFails, LogFails, MaybeFails, SaidFails, TraceFails};

use crate::book::Book;
use crate::fault::AuditFault;
use crate::judged::Judged;
use crate::options::AuditOptions;
use gp_census::{Census, push_census};
use gp_finding::{LineError, Place, heard_in};
use gp_log::Said;
use gp_observer::Rule;
use gp_ploam::{BROADCAST_ONU, Down, Serial, Up};
use gp_watch::{Heard, PortWatch, WatchFault};
use std::alloc::{AllocError, Global};
use std::marker::Model;

/// How many nanoseconds a frame has.
const FRAME_TIME: u64 = 125_000;

/// What is known of one port. Contracts see what its messages told, its time in nanoseconds, whether it was told that a
/// serial number can't be followed, how much was heard and what was judged of it, and what was counted of its units.
#[derive(Drop)]
pub(crate) struct Port {
    watch: PortWatch,
    time: u64,
    full: bool,
    heard: u64,
    judged: Judged,
    census: Census,
}

impl Model for Port {
    ghost use Rattle.std.specs.Coded.{codes};
    ghost use Rattle.gp_census.specs.Kept.{census_code};
    ghost use Rattle.gp_watch.specs.Kept.{watch_code};
    ghost use Rattle.gp_audit.specs.Port.{PortState};

    ghost Value = { PortState };

    ghost coded = { Prim.hlevel (codes, watch_code, census_code) };

    ghost view = { λ p. record {
      watch = p.watch;
      time = p.time;
      full = p.full;
      heard = p.heard;
      judged = p.judged;
      census = p.census;
    } };
}

/// Gives the serial number that a message down has followed, if it has one.
fn followed_down(message: &Option<Down>) -> Option<Serial>
    ensures { result ≡ followed_down message.now }
{
    match message {
        Some(Down::AssignOnu { serial, .. }) => Some(*serial),
        Some(Down::DisableSerial { serial }) => Some(*serial),
        _ => None,
    }
}

/// Gives the serial number that a message up has followed: that of a unit that asks.
fn followed_up(message: &Option<Up>) -> Option<Serial>
    ensures { result ≡ followed_up message.now }
{
    match message {
        Some(Up::SerialNumber { onu, serial, .. }) if *onu == BROADCAST_ONU => Some(*serial),
        _ => None,
    }
}

/// Gives the serial number that is followed from now on, if there is one.
fn followed_in(heard: &Heard) -> Option<Serial>
    ensures { result ≡ followed_in (heard_of heard.now) }
{
    match heard {
        Heard::Down(message) => followed_down(message),
        Heard::Up { message, .. } => followed_up(message),
        Heard::Grant(_) => None,
    }
}

impl Port {
    /// Nothing was heard.
    pub(crate) fn begin(alloc: Global, midway: bool) -> Result<Port, AllocError>
        ensures { IfOk result (λ port. port ≡ port_begun midway) }
    {
        let watch = PortWatch::begin(alloc, midway)?;
        Ok(Port {
            watch,
            time: 0,
            full: false,
            heard: 0,
            judged: Judged::none(),
            census: Census::begin(alloc),
        })
    }

    /// Tells whether nothing was heard.
    pub(crate) fn is_silent(&self) -> bool
        ensures { result ≡ is_silent self.now }
    {
        self.heard == 0
    }

    /// Tells whether something heard has a serial number that can't be followed.
    fn overfills(&self, heard: &Heard) -> bool
        ensures { result ≡ overfills self.now.watch (heard_of heard.now) }
    {
        match followed_in(heard) {
            Some(serial) => !self.watch.can_follow(&serial),
            None => false,
        }
    }

    /// Tells that what is heard breaks a rule, if that is told.
    fn tell_rule(
        &self,
        book: &mut Book,
        options: &AuditOptions,
        place: &Place,
        said: &Said,
        heard: &Heard,
        rule: Rule,
    ) -> Result<(), AuditFault>
        requires { place.now.port < max_ports }
        ensures told { OnOk result (TellsNotices options.now (findings_of self.now.watch place.now said.now
            (if is_told options.now.told (heard_of heard.now) rule then rule ∷ [] else [])) book.old book.new) }
        ensures fault { IfErr result (TellingFails book.old.sum (findings_of self.now.watch place.now said.now
            (if is_told options.now.told (heard_of heard.now) rule then rule ∷ [] else [])) ⊥) }
    {
        if options.told.tells(heard, rule) {
            return book.tell_finding(options, &self.watch, place, said, rule);
        }
        Ok(())
    }

    /// Tells the rules that are broken by what is heard.
    fn tell_broken(
        &self,
        book: &mut Book,
        options: &AuditOptions,
        place: &Place,
        said: &Said,
        heard: &Heard,
    ) -> Result<(), AuditFault>
        requires { place.now.port < max_ports }
        ensures told { OnOk result (TellsNotices options.now (findings_of self.now.watch place.now said.now
            (told_rules options.now place.now.port self.now.watch (heard_of heard.now))) book.old book.new) }
        ensures fault { IfErr result (TellingFails book.old.sum (findings_of self.now.watch place.now said.now
            (told_rules options.now place.now.port self.now.watch (heard_of heard.now))) ⊥) }
    {
        let broken = self.watch.broken(&options.settings(place.port), heard);
        let rules = broken.as_slice();
        for at in 0..rules.len() {
            self.tell_rule(book, options, place, said, heard, rules[at])?;
        }
        Ok(())
    }

    /// Tells once that a serial number can't be followed.
    fn tell_full(
        &mut self,
        book: &mut Book,
        options: &AuditOptions,
        line: u64,
        overfills: bool,
    ) -> Result<(), AuditFault>
        ensures told { OnOk result (TellsNotices options.now
            (full_told line self.old.full overfills) book.old book.new) }
        ensures full { OnOk result (self.new ≡ record self.old { full = self.old.full || overfills }) }
        ensures fault { IfErr result (TellingFails book.old.sum (full_told line self.old.full overfills) ⊥) }
    {
        if overfills && !self.full {
            book.tell_error(options, line, LineError::Full)?;
            self.full = true;
        }
        Ok(())
    }

    /// Counts what is heard, where that is told at the end.
    fn count(&mut self, options: &AuditOptions, heard: &Heard) -> Result<(), AllocError>
        ensures counted { OnOk result (self.new ≡ record self.old {
          census = census_after options.now.units self.old (heard_of heard.now);
        }) }
        ensures fault { OnErr result (IsNewUnit options.now.units self.old.watch self.old.census.units
            (heard_of heard.now)) }
    {
        if options.units {
            self.census.note(&self.watch, heard, self.time)?;
        }
        Ok(())
    }

    /// Tells what was counted of its units, where something was heard.
    pub(crate) fn push_units(
        &self,
        out: &mut Vec<u8>,
        options: &AuditOptions,
        port: u8,
    ) -> Result<(), AllocError>
        ensures { OnOk result (out.new.items ≡ out.old.items ++ units_of options.now port self.now) }
    {
        if self.is_silent() {
            return Ok(());
        }
        push_census(out, options.census_form(), port, &self.watch, &self.census)
    }

    /// Notes what is heard.
    fn note(&mut self, options: &AuditOptions, heard: &Heard) -> Result<(), WatchFault>
        requires { IsFitting heard.now }
        ensures noted { OnOk result (self.new ≡ port_noted options.now self.old (heard_of heard.now)) }
        ensures fault { IfErr result (HeardFails options.now self.old (heard_of heard.now)) }
    {
        self.count(options, heard)?;
        self.judged.note(&options.told, &self.watch, heard);
        self.watch.hear(heard)?;
        self.heard = self.heard.saturating_add(1);
        Ok(())
    }

    /// Judges what is heard by what is known before it, and notes it.
    fn hear(
        &mut self,
        book: &mut Book,
        options: &AuditOptions,
        place: &Place,
        said: &Said,
        heard: &Heard,
    ) -> Result<(), AuditFault>
        requires port { place.now.port < max_ports }
        requires fits { IsFitting heard.now }
        ensures told { OnOk result (TellsNotices options.now
            (heard_told options.now place.now self.old said.now (heard_of heard.now)) book.old book.new) }
        ensures fault { IfErr result (TellingFails book.old.sum
            (heard_told options.now place.now self.old said.now (heard_of heard.now))
            (HeardFails options.now self.old (heard_of heard.now) WatchFault.Full)) }
        ensures noted { OnOk result (self.new ≡ port_after options.now self.old (heard_of heard.now)) }
    {
        self.tell_broken(book, options, place, said, heard)?;
        let overfills = self.overfills(heard);
        self.tell_full(book, options, place.line, overfills)?;
        self.note(options, heard)?;
        Ok(())
    }

    /// Hears what is said.
    fn hear_said(
        &mut self,
        book: &mut Book,
        options: &AuditOptions,
        place: &Place,
        said: &Said,
    ) -> Result<(), AuditFault>
        requires { place.now.port < max_ports }
        ensures told { OnOk result (TellsNotices options.now (said_told options.now place.now self.old said.now)
            book.old book.new) }
        ensures fault { IfErr result (TellingFails book.old.sum
            (said_told options.now place.now self.old said.now)
            (SaidFails options.now self.old said.now WatchFault.Full)) }
        ensures noted { OnOk result (self.new ≡ port_behind options.now self.old said.now) }
    {
        let heard = heard_in(options.mask, said);
        self.hear(book, options, place, said, &heard)
    }

    /// Hears what is said, if something is.
    fn hear_maybe(
        &mut self,
        book: &mut Book,
        options: &AuditOptions,
        place: &Place,
        said: &Option<Said>,
    ) -> Result<(), AuditFault>
        requires { place.now.port < max_ports }
        ensures told { OnOk result (TellsNotices options.now (maybe_told options.now place.now self.old said.now)
            book.old book.new) }
        ensures fault { IfErr result (TellingFails book.old.sum
            (maybe_told options.now place.now self.old said.now)
            (MaybeFails options.now self.old said.now WatchFault.Full)) }
        ensures noted { OnOk result (self.new ≡ port_maybe options.now self.old said.now) }
    {
        match said {
            Some(said) => self.hear_said(book, options, place, said),
            None => Ok(()),
        }
    }

    /// Hears a line of a log, unless its time is before the port's.
    pub(crate) fn hear_log(
        &mut self,
        book: &mut Book,
        options: &AuditOptions,
        place: &Place,
        time: u64,
        said: &Said,
    ) -> Result<(), AuditFault>
        requires { place.now.port < max_ports }
        ensures told { OnOk result (TellsNotices options.now (log_told options.now place.now self.old time said.now)
            book.old book.new) }
        ensures fault { IfErr result (TellingFails book.old.sum
            (log_told options.now place.now self.old time said.now)
            (LogFails options.now self.old time said.now WatchFault.Full)) }
        ensures noted { OnOk result (self.new ≡ port_logged options.now self.old time said.now) }
    {
        if time < self.time {
            return book.tell_error(options, place.line, LineError::Time);
        }
        self.time = time;
        self.hear_said(book, options, place, said)
    }

    /// Counts a frame, if it is one.
    fn tick(&mut self, is_frame: bool)
        ensures { self.new ≡ port_ticked self.old is_frame }
    {
        if is_frame {
            self.time = self.time.saturating_add(FRAME_TIME);
        }
    }

    /// Hears a line of a trace: what it says, one behind the other.
    pub(crate) fn hear_trace(
        &mut self,
        book: &mut Book,
        options: &AuditOptions,
        place: &Place,
        is_frame: bool,
        first: &Option<Said>,
        second: &Option<Said>,
    ) -> Result<(), AuditFault>
        requires { place.now.port < max_ports }
        ensures told { OnOk result (TellsNotices options.now
            (trace_told options.now place.now (port_ticked self.old is_frame) first.now second.now) book.old book.new) }
        ensures fault { IfErr result (TellingFails book.old.sum
            (trace_told options.now place.now (port_ticked self.old is_frame) first.now second.now)
            (TraceFails options.now (port_ticked self.old is_frame) first.now second.now WatchFault.Full)) }
        ensures noted { OnOk result (self.new
            ≡ port_traced options.now (port_ticked self.old is_frame) first.now second.now) }
    {
        self.tick(is_frame);
        self.hear_maybe(book, options, place, first)?;
        self.hear_maybe(book, options, place, second)
    }

    /// Notes what is heard, of which nothing is told.
    fn listen(&mut self, options: &AuditOptions, heard: &Heard) -> Result<(), WatchFault>
        requires { IsFitting heard.now }
        ensures noted { OnOk result (self.new ≡ port_after options.now self.old (heard_of heard.now)) }
        ensures fault { IfErr result (HeardFails options.now self.old (heard_of heard.now)) }
    {
        self.full |= self.overfills(heard);
        self.note(options, heard)
    }

    /// Notes what is said.
    fn listen_said(&mut self, options: &AuditOptions, said: &Said) -> Result<(), WatchFault>
        ensures noted { OnOk result (self.new ≡ port_behind options.now self.old said.now) }
        ensures fault { IfErr result (SaidFails options.now self.old said.now) }
    {
        let heard = heard_in(options.mask, said);
        self.listen(options, &heard)
    }

    /// Notes what is said, if something is.
    fn listen_maybe(
        &mut self,
        options: &AuditOptions,
        said: &Option<Said>,
    ) -> Result<(), WatchFault>
        ensures noted { OnOk result (self.new ≡ port_maybe options.now self.old said.now) }
        ensures fault { IfErr result (MaybeFails options.now self.old said.now) }
    {
        match said {
            Some(said) => self.listen_said(options, said),
            None => Ok(()),
        }
    }

    /// Notes a line of a log, unless its time is before the port's.
    pub(crate) fn listen_log(
        &mut self,
        options: &AuditOptions,
        time: u64,
        said: &Said,
    ) -> Result<(), WatchFault>
        ensures noted { OnOk result (self.new ≡ port_logged options.now self.old time said.now) }
        ensures fault { IfErr result (LogFails options.now self.old time said.now) }
    {
        if self.time > time {
            return Ok(());
        }
        self.time = time;
        self.listen_said(options, said)
    }

    /// Notes a line of a trace: what it says, one behind the other.
    pub(crate) fn listen_trace(
        &mut self,
        options: &AuditOptions,
        is_frame: bool,
        first: &Option<Said>,
        second: &Option<Said>,
    ) -> Result<(), WatchFault>
        ensures noted { OnOk result (self.new
            ≡ port_traced options.now (port_ticked self.old is_frame) first.now second.now) }
        ensures fault { IfErr result (TraceFails options.now (port_ticked self.old is_frame) first.now second.now) }
    {
        self.tick(is_frame);
        self.listen_maybe(options, first)?;
        self.listen_maybe(options, second)
    }

    /// Gives what its messages told.
    pub(crate) fn watch(&self) -> &PortWatch
        ensures { result.now ≡ self.now.watch }
    {
        &self.watch
    }

    /// Gives what was judged of what was heard.
    pub(crate) fn judged(&self) -> Judged
        ensures { result ≡ self.now.judged }
    {
        self.judged
    }

    /// Gives what was counted of its units.
    pub(crate) fn census(&self) -> &Census
        ensures { result.now ≡ self.now.census }
    {
        &self.census
    }
}
