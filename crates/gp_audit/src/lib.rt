//! Judges the lines of a log, or of a trace, by the rules that don't depend on a schedule, as they come.
//!
//! Promise: for any input, what is written is what each line breaks, by the definitions, in order, then what was
//! counted of the units, where that is wanted, and the sum; each line's findings are out before more is waited for
//! (`audit_log`, `Auditor`); and which of the rules that are told were judged, on all ports and on each
//! (`Auditor::judged`, `judged_at`), and whether that is all (`Judged::leaves_some`).
//!
//! - `options.rt`: `AuditOptions`, what it judges by and tells; `rule_set.rt`: `RuleSet`, some of the rules.
//! - `rule_names.rt`: `rules_told`, which rules are told, by lists of their names; `delays.rt`: `equalized_delays`, the
//!   equalized delays of the ports.
//! - `port.rt`: what is known of one port, and what is told of something that is heard there; `ports.rt`: the ports.
//! - `judged.rt`: `Judged`, which rules were judged, and the law that each of which a finding is told was.
//! - `book.rt`: what is said of the line at hand, and the counts. `again.rt`: a line told again, in words.
//! - `auditor.rt`: `Auditor`, which is given lines one after another; `serving.rt`: as what serves lines. `fault.rt`:
//!   why nothing is said of a line.
//! - `listener.rt`: `Listener`, which hears lines and tells nothing of them.
//! - `running.rt`: `audit_log`, from the bytes of a log to its findings and the sum.
//!
//! Where to make which change: which rules there are stands in `gp_observer`, how they are told in `gp_finding`, how a
//! line is read in `gp_log`. Which rules lists of names tell stands in `specs/Chosen.antt`, which delays texts give in
//! `specs/Delays.antt`. What is told of something heard stands in `specs/Hearing.antt`, which of it is told in
//! `specs/RuleSet.antt`, what is judged in `specs/Judging.antt`, what is said to a line in `specs/Audit.antt`, how it
//! is told again in `specs/Again.antt`, what is told at the end in `specs/Ending.antt`, what a listener hears in
//! `specs/Listening.antt`, why it may fail in `specs/Failing.antt`, and how an audit may end in `specs/Outcome.antt`.
//! What is counted of units stands in `gp_census`.
#![tactic(auto)]

mod again;
mod auditor;
mod book;
mod delays;
mod fault;
mod judged;
mod listener;
mod options;
mod port;
mod ports;
mod rule_names;
mod rule_set;
mod running;
mod serving;

pub use auditor::Auditor;
pub use delays::equalized_delays;
pub use gp_lines::PORTS;
pub use judged::{Judged, told_are_judged};
pub use listener::Listener;
pub use options::{AuditForm, AuditOptions, FindingChoice};
pub use rule_names::rules_told;
pub use rule_set::RuleSet;
pub use running::audit_log;
