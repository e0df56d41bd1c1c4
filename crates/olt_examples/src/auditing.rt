//! What an audit of an example's trace, or of a log, says.
use gp_audit::{AuditForm, AuditOptions, Auditor, FindingChoice, RuleSet, audit_log};
use gp_flow::LinesFault;
use gp_ploam::Mask;
use gp_script::Script;
use gp_stream::{Sink, Source};
use std::alloc::Global;

/// The equalized delay of a port where nothing else is told, in bit times.
const TEQD: u32 = 311_040;

/// How the name of a log ends that begins in the middle.
const IN_THE_MIDDLE: &str = "in-the-middle";

/// How logs are audited.
fn plain_options() -> AuditOptions {
    AuditOptions {
        mask: Mask::Plain,
        teqd: [TEQD; 16],
        drift: 8,
        midway: false,
        told: FindingChoice {
            terminal: true,
            units: true,
            rules: RuleSet::all(),
        },
        form: AuditForm::Text,
        units: false,
    }
}

/// How the trace of a script is audited: with its mask, and the equalized delay of each of its ports.
pub(crate) fn options_of_script(script: &Script) -> AuditOptions {
    let mut options = plain_options();
    options.mask = script.mask;
    for (place, port) in options.teqd.iter_mut().zip(script.ports.iter()) {
        *place = port.teqd;
    }
    options
}

/// How the log of this name is audited.
pub(crate) fn options_of_log(name: &str) -> AuditOptions {
    let mut options = plain_options();
    options.midway = name.ends_with(IN_THE_MIDDLE);
    options
}

/// Audits a log, or a trace, and answers what the audit writes.
pub(crate) fn audited(
    alloc: Global,
    options: &AuditOptions,
    log: &[u8],
) -> Result<Vec<u8>, LinesFault> {
    let mut source = Source::endless(log);
    let mut sink = Sink::new(alloc, Vec::new(alloc))?;
    let mut auditor = Auditor::begin(alloc, options)?;
    audit_log(alloc, &mut source, &mut sink, &mut auditor)?;
    Ok(sink.into_inner())
}
