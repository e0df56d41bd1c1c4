//! The command `audit`: which rules the messages of a log break, told on standard output.
ghost use Rattle.std.specs.Prelude.{◌≡◌, ◌≤◌, ◌&&◌, not};
ghost use Rattle.std.specs.List.{list_any};
ghost use Rattle.gp_observer.specs.Observer.{some_passes};
ghost use Rattle.gp_audit.specs.Judging.{is_of_told, leaves_some};
ghost use Rattle.gp_audit.specs.RuleSet.{contains};
ghost use Rattle.oltctl.specs.Statuses.{IsAudited, audit_status, audited_status, greatest_status, leaves_strict, names_untold};

use crate::observed::{Observed, Seen};
use crate::progress::Counted;
use crate::reporting::{refuse_option, report, report_silence};
use crate::unjudged::{tell_unjudged, tell_untold_side};
use gp_audit::{AuditOptions, Auditor, FindingChoice, Judged, PORTS, audit_log};
use gp_command_line::Audit;
use gp_finding::{AuditSum, RULES};
use gp_flow::LinesFault;
use gp_observer::Rule;
use gp_options::audit_options;
use gp_report::{BAD_INPUT, NOT_A_RUN, SUCCESS, input_report};
use gp_stream::{Sink, Source};
use std::io;
use std::io::Read;
use std::rt::{Clock, Files};

/// A log that was audited to its end.
#[derive(Clone, Copy)]
pub(crate) struct Audited {
    /// How many lines, findings and errors there were.
    sum: AuditSum,
    /// Neither a message nor a grant was heard.
    is_silent: bool,
    /// What was judged of what was heard, on any port.
    judged: Judged,
    /// What was judged on each port; None where nothing was heard.
    ports: [Option<Judged>; PORTS],
}

/// Gives what was judged on each port.
fn judged_on_ports(auditor: &Auditor) -> [Option<Judged>; PORTS] {
    let mut ports = [None; PORTS];
    for port in 0..PORTS {
        ports[port] = auditor.judged_at(port as u8);
    }
    ports
}

/// Audits the log that a reader gives. What is found goes to standard output.
fn audit_from<R: AllocGlobal + Print, T: Read + Drop>(
    rt: &R,
    options: &AuditOptions,
    log: T,
) -> Result<Audited, LinesFault> {
    let mut source = Source::endless(log);
    let mut sink = Sink::new(rt.alloc(), io::writer(rt))?;
    let mut auditor = Auditor::begin(rt.alloc(), options)?;
    let sum = audit_log(rt.alloc(), &mut source, &mut sink, &mut auditor)?;
    Ok(Audited {
        sum,
        is_silent: auditor.is_silent(),
        judged: auditor.judged(),
        ports: judged_on_ports(&auditor),
    })
}

/// Audits the log of a file, or of standard input.
fn audit_file<R: AllocGlobal + Files + Print + Eprint + Input + Clock>(
    rt: &R,
    options: &AuditOptions,
    wanted: &Audit<'_, '_>,
    seen: &mut Seen<'_>,
) -> Result<Audited, LinesFault> {
    match wanted.log {
        None => {
            let log = Observed::new(rt.reader(), seen);
            let log = Counted::new(rt, log, wanted.progress, None);
            audit_from(rt, options, log)
        }
        Some(path) => match std::fs::open(rt, path) {
            Ok(log) => {
                let log = Observed::new(log, seen);
                let log = Counted::new(rt, log, wanted.progress, None);
                audit_from(rt, options, log)
            }
            Err(error) => {
                seen.failed(&error);
                Err(LinesFault::Read)
            }
        },
    }
}

/// Tells whether one of these rules is told, though it is judged on no side that is told.
fn tells_of_no_side(told: &FindingChoice, rules: &[Rule]) -> bool
    ensures { result ≡ list_any (λ rule. contains told.now.rules rule && not (is_of_told told.now rule)) rules.now }
{
    rules.iter().any(|rule| told.rules.contains(*rule) && !told.is_of_told(*rule))
}

/// Tells whether a rule is asked for by name, though it is judged on no side that is told.
fn names_untold(wanted: &Audit<'_, '_>, told: &FindingChoice) -> bool
    ensures { result ≡ names_untold wanted.now told.now }
{
    wanted.only.is_some() && tells_of_no_side(told, &RULES)
}

/// Tells whether something was heard on a port, and not all was judged there.
fn leaves_some_there(told: &FindingChoice, port: &Option<Judged>) -> bool
    ensures { result ≡ some_passes (leaves_some told.now) port.now }
{
    match port {
        Some(there) => there.leaves_some(told),
        None => false,
    }
}

/// The same of any port.
fn leaves_some_anywhere(told: &FindingChoice, ports: &[Option<Judged>]) -> bool
    ensures { result ≡ list_any (some_passes (leaves_some told.now)) ports.now }
{
    ports.iter().any(|port| leaves_some_there(told, port))
}

/// Tells whether all has to be judged, and something was left.
fn leaves_strict(wanted: &Audit<'_, '_>, told: &FindingChoice, audited: &Audited) -> bool
    ensures { result ≡ leaves_strict wanted.now told.now audited.now }
{
    wanted.strict && (names_untold(wanted, told) || leaves_some_anywhere(told, &audited.ports))
}

/// Says that lines were answered by an error, and that findings behind one may come of it.
fn tell_errors<R: Eprint>(rt: &R, sum: &AuditSum) {
    let AuditSum {
        findings,
        errors,
        ..
    } = *sum;
    if errors == 0 {
        return;
    }
    let _ = eprintln!(rt; "oltctl: lines answered by an error: {errors}");
    if findings != 0 {
        let _ = eprintln!(rt;
            "oltctl: findings behind such a line may come of it; see oltctl audit --help"
        );
    }
}

/// Says that a log had lines that were none, nothing that was heard, or something that was not judged, and answers the
/// exit status.
fn end_audited<R: Eprint>(
    rt: &R,
    wanted: &Audit<'_, '_>,
    options: &AuditOptions,
    audited: &Audited,
) -> u8
    ensures status { result ≡ audited_status wanted.now options.now.told audited.now }
    ensures bound { result ≤ greatest_status }
{
    let sum = &audited.sum;
    let judged = &audited.judged;
    tell_errors(rt, sum);
    if audited.is_silent {
        return match sum.errors {
            0 => report_silence(rt),
            _ => BAD_INPUT,
        };
    }
    tell_unjudged(rt, options, judged, &audited.ports, sum.findings != 0);
    if sum.errors != 0 || judged.is_nothing() {
        return BAD_INPUT;
    }
    if leaves_strict(wanted, &options.told, audited) {
        let _ = eprintln!(rt; "oltctl: not all was judged (--strict)");
        return BAD_INPUT;
    }
    match sum.findings {
        0 => SUCCESS,
        _ => NOT_A_RUN,
    }
}

/// Says how an audit ended, and answers the exit status.
fn end_audit<R: AllocGlobal + Eprint>(
    rt: &R,
    wanted: &Audit<'_, '_>,
    options: &AuditOptions,
    outcome: &Result<Audited, LinesFault>,
    seen: &Seen<'_>,
) -> u8
    ensures status { result ≡ audit_status wanted.now options.now.told outcome.now }
    ensures bound { result ≤ greatest_status }
{
    match outcome {
        Ok(audited) => end_audited(rt, wanted, options, audited),
        Err(LinesFault::Read) => seen.tell_unread(rt),
        Err(fault) => report(rt, input_report(fault)),
    }
}

/// Says which rules are asked for of a side that isn't told, audits a log, says how that ended, and answers the exit
/// status.
pub(crate) fn audit<R: AllocGlobal + Files + Print + Eprint + Input + Clock>(
    rt: &R,
    wanted: &Audit<'_, '_>,
) -> u8
    ensures audited { IsAudited wanted.now result }
    ensures bound { result ≤ greatest_status }
{
    match audit_options(wanted) {
        Err(option) => refuse_option(rt, option),
        Ok(options) => {
            tell_untold_side(rt, &options, wanted);
            let mut seen = Seen::new(wanted.log);
            let outcome = audit_file(rt, &options, wanted, &mut seen);
            end_audit(rt, wanted, &options, &outcome, &seen)
        }
    }
}
