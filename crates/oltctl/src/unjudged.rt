//! What an audit did not judge, told on standard error: rules of a side that isn't told, before the log is read; and
//! behind it what was not judged on any port, and on which ports what was judged on others.
use crate::reporting::mask_number;
use gp_audit::{AuditOptions, FindingChoice, Judged, PORTS, RuleSet};
use gp_command_line::Audit;
use gp_finding::{RULES, rule_name};
use gp_options::tells_some;

/// Which ports a line is of; None where it is of all together.
type OnPorts<'p> = Option<&'p [bool; PORTS]>;

/// What was not judged on a port.
#[derive(Clone, Copy, PartialEq, Eq)]
struct Unjudged {
    /// No rule that is told was.
    is_nothing: bool,
    /// How many codes were garbled of which no finding tells so.
    garbled: u64,
    /// Nothing of the terminal was, though it was on another port.
    no_terminal: bool,
    /// Nothing of the units was, though it was on another port.
    no_units: bool,
    /// The rules that were missed, though they were judged on another port.
    rules: RuleSet,
}

/// Says which ports a line is of: ` on port 3`, or ` on ports 3, 5, 7`; nothing of all together.
fn tell_ports_of<R: Eprint>(rt: &R, on: OnPorts<'_>) {
    let Some(ports) = on else {
        return;
    };
    let _ = match ports.iter().filter(|is_in| **is_in).count() {
        1 => eprint!(rt; " on port"),
        _ => eprint!(rt; " on ports"),
    };
    let mut between = " ";
    for port in 0..PORTS {
        if ports[port] {
            let _ = eprint!(rt; "{between}{port}");
            between = ", ";
        }
    }
}

/// Says that no rule was judged of what was heard, on any port or on some.
fn tell_none_judged<R: Eprint>(rt: &R, options: &AuditOptions, garbled: u64, on: OnPorts<'_>) {
    let _ = eprint!(rt; "oltctl: nothing was heard");
    tell_ports_of(rt, on);
    let _ = eprint!(rt; " that these rules judge");
    let mask = mask_number(options.mask);
    let _ = match garbled {
        0 => eprintln!(rt; ""),
        codes => eprintln!(rt; "; codes garbled under mask {mask} (--mask): {codes}"),
    };
}

/// Tells whether a choice leaves a rule that is judged of one side alone.
fn tells_of_side(options: &AuditOptions, terminal: bool, units: bool) -> bool {
    let told = FindingChoice {
        terminal: terminal && options.told.terminal,
        units: units && options.told.units,
        rules: options.told.rules,
    };
    tells_some(options.midway, &told)
}

/// Says that no rule was judged of a side, on any port or on some.
fn tell_silent_side<R: Eprint>(rt: &R, side: &str, on: OnPorts<'_>) {
    let _ = eprint!(rt; "oltctl: nothing of the {side} was judged");
    tell_ports_of(rt, on);
    let _ = eprintln!(rt; "");
}

/// Says of which side no rule was judged on any port, though one is told that is judged there.
fn tell_silent_sides<R: Eprint>(rt: &R, options: &AuditOptions, judged: &Judged) {
    if judged.terminal.is_empty() && tells_of_side(options, true, false) {
        tell_silent_side(rt, "terminal", None);
    }
    if judged.units.is_empty() && tells_of_side(options, false, true) {
        tell_silent_side(rt, "units", None);
    }
}

/// Says how many codes were garbled of which no finding tells so, if any were, on all ports or on one.
fn tell_left<R: Eprint>(rt: &R, options: &AuditOptions, garbled: u64, on: OnPorts<'_>) {
    if garbled == 0 {
        return;
    }
    let mask = mask_number(options.mask);
    let _ = eprint!(rt; "oltctl: codes garbled under mask {mask} (--mask)");
    tell_ports_of(rt, on);
    let _ = eprintln!(rt; ", not judged: {garbled}");
}

/// Says a line of rules behind its head and the ports that it is of; nothing where there is no rule.
fn tell_rules<R: Eprint>(rt: &R, head: &str, on: OnPorts<'_>, rules: &RuleSet) {
    if rules.is_empty() {
        return;
    }
    let _ = eprint!(rt; "oltctl: {head}");
    tell_ports_of(rt, on);
    let _ = eprint!(rt; ":");
    for rule in RULES.iter() {
        if rules.contains(*rule) {
            let name = rule_name(*rule);
            let _ = eprint!(rt; " {name}");
        }
    }
    let _ = eprintln!(rt; "");
}

/// Gives the rules that were missed: they are told, but were not judged of anything.
fn missed(options: &AuditOptions, judged: &Judged) -> RuleSet {
    let mut rules = RuleSet::none();
    for rule in RULES.iter() {
        if judged.misses(&options.told, *rule) {
            rules.insert(*rule);
        }
    }
    rules
}

/// Gives those that were missed on a port, though they were judged on another.
fn missed_there(options: &AuditOptions, on_all: &Judged, there: &Judged) -> RuleSet {
    let mut rules = missed(options, there);
    for rule in RULES.iter() {
        if on_all.misses(&options.told, *rule) {
            rules.remove(*rule);
        }
    }
    rules
}

/// Gives what was not judged on a port, by what was judged on all.
fn unjudged_there(options: &AuditOptions, on_all: &Judged, there: &Judged) -> Unjudged {
    Unjudged {
        is_nothing: there.is_nothing(),
        garbled: there.garbled,
        no_terminal: there.terminal.is_empty() && !on_all.terminal.is_empty(),
        no_units: there.units.is_empty() && !on_all.units.is_empty(),
        rules: missed_there(options, on_all, there),
    }
}

/// Says what was not judged on these ports.
fn tell_ports<R: Eprint>(rt: &R, options: &AuditOptions, unjudged: &Unjudged, on: OnPorts<'_>) {
    if unjudged.is_nothing {
        return tell_none_judged(rt, options, unjudged.garbled, on);
    }
    tell_left(rt, options, unjudged.garbled, on);
    if unjudged.no_terminal {
        tell_silent_side(rt, "terminal", on);
    }
    if unjudged.no_units {
        tell_silent_side(rt, "units", on);
    }
    tell_rules(rt, "rules that were judged, but not", on, &unjudged.rules);
}

/// Gives the ports that share the lines of one: that, and those of which the same is said. One with garbled codes has
/// its own, since they are counted of each.
fn ports_like(
    ports: &[Option<Unjudged>; PORTS],
    port: usize,
    unjudged: &Unjudged,
) -> [bool; PORTS] {
    let mut like = [false; PORTS];
    for other in 0..PORTS {
        like[other] = other == port || (unjudged.garbled == 0 && ports[other] == Some(*unjudged));
    }
    like
}

/// Says of each port on which something was heard what was not judged there.
fn tell_each_port<R: Eprint>(
    rt: &R,
    options: &AuditOptions,
    on_all: &Judged,
    ports: &[Option<Judged>; PORTS],
) {
    let mut unjudged = [None; PORTS];
    for port in 0..PORTS {
        if let Some(there) = &ports[port] {
            unjudged[port] = Some(unjudged_there(options, on_all, there));
        }
    }
    let mut told = [false; PORTS];
    for port in 0..PORTS {
        if let (Some(this), false) = (&unjudged[port], told[port]) {
            let like = ports_like(&unjudged, port, this);
            tell_ports(rt, options, this, Some(&like));
            for other in 0..PORTS {
                told[other] = told[other] || like[other];
            }
        }
    }
}

/// Says what was not judged: nothing at all, or garbled codes of which no finding tells so, a side of which nothing was,
/// and rules that were missed; where something was heard on several ports, that of each too.
pub(crate) fn tell_unjudged<R: Eprint>(
    rt: &R,
    options: &AuditOptions,
    judged: &Judged,
    ports: &[Option<Judged>; PORTS],
    has_findings: bool,
) {
    if judged.is_nothing() {
        return tell_none_judged(rt, options, judged.garbled, None);
    }
    tell_left(rt, options, judged.garbled, None);
    if judged.garbled != 0 && has_findings {
        let _ = eprintln!(rt;
            "oltctl: findings behind such a code on its port may come of it; see oltctl audit --help"
        );
    }
    tell_silent_sides(rt, options, judged);
    let head = match options.midway {
        false => "rules that were not judged of anything",
        true => "rules that were not judged of anything (--midway)",
    };
    tell_rules(rt, head, None, &missed(options, judged));
    if ports.iter().filter(|port| port.is_some()).count() > 1 {
        tell_each_port(rt, options, judged, ports);
    }
}

/// Says which rules are asked for by name, though no side that is told is judged by them.
pub(crate) fn tell_untold_side<R: Eprint>(rt: &R, options: &AuditOptions, wanted: &Audit<'_, '_>) {
    if wanted.only.is_none() {
        return;
    }
    let mut rules = options.told.rules;
    for rule in RULES.iter() {
        if options.told.is_of_told(*rule) {
            rules.remove(*rule);
        }
    }
    tell_rules(rt, "rules of a side that isn't told (--side)", None, &rules);
}
