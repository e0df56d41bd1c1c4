//! What an audit judges by and tells, by the options of the command line: names of rules first, then delays.
ghost use Rattle.std.specs.Prelude.{◌≡◌, MatchResult, codes};
ghost use Rattle.gp_options.specs.Options.{AuditsAs, IsBadAudit, form_of, tells_side};

use crate::bad_option::BadOption;
use crate::judged::{delays_of, drift_of};
use crate::sides::tells_some;
use gp_audit::{AuditForm, AuditOptions, FindingChoice, rules_told};
use gp_command_line::Audit;

/// Tells whether the findings of a side are told, where this one alone may be.
fn tells_side(alone: Option<&str>, side: &str) -> bool
    ensures { result ≡ tells_side alone.entry side.now }
{
    match alone {
        Some(name) => name == side,
        None => true,
    }
}

/// Gives how what is found is told.
fn form_of(words: bool, json: bool) -> AuditForm
    ensures { result ≡ form_of words json }
{
    match (words, json) {
        (_, true) => AuditForm::Json,
        (true, false) => AuditForm::Words,
        (false, false) => AuditForm::Text,
    }
}

/// Gives what a log is judged by and what is told, or the first option that can't be read: the names of rules are read
/// first, those of `--only` before those of `--without`, and they have to leave one that is judged on a side that is told;
/// and then the delays. A drift of 2^32 bit times or more counts as the greatest below. Takes no memory.
pub fn audit_options<'m, 'a>(wanted: &Audit<'m, 'a>) -> Result<AuditOptions, BadOption<'a>>
    ensures { MatchResult result (AuditsAs wanted.now) (IsBadAudit wanted.now) }
{
    let rules = match rules_told(wanted.only, wanted.without) {
        Ok(rules) => rules,
        Err(name) => return Err(BadOption::Rule(name)),
    };
    let told = FindingChoice {
        terminal: tells_side(wanted.side, "terminal"),
        units: tells_side(wanted.side, "units"),
        rules,
    };
    if !tells_some(wanted.midway, &told) {
        return Err(BadOption::NoRule);
    }
    let teqd = delays_of(wanted.teqd)?;
    Ok(AuditOptions {
        mask: wanted.mask,
        teqd,
        drift: drift_of(wanted.drift),
        midway: wanted.midway,
        told,
        form: form_of(wanted.words, wanted.json),
        units: wanted.units,
    })
}
