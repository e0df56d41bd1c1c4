//! The rules of Ranging_Time, and of messages to an ONU-ID: `nobody`, `unranged`, `delay`, `early`.
ghost use Rattle.std.specs.Prelude.{◌≡◌};
ghost use Rattle.hear_rules.specs.Facts as facts;
ghost use Rattle.hear_rules.specs.Rules as rules;
ghost use Rattle.hear_state.specs.Facts.{fact_of, sure_of};
ghost use Rattle.hear_state.specs.Judged.{settings_of};
ghost use Rattle.hear_state.specs.Kept.{known_of};
ghost use Rattle.hear_state.specs.Rows.{answers_of, number_of};

use crate::facts::{Fact, broken_if, broken_without, is_other_delay, judged_if};
use crate::knowledge::Knowledge;
use crate::rows::{Row, Span};
use crate::settings::Settings;
use gp_ploam::{BROADCAST_ONU, Down};
use hear_rules::Verdict;

/// The identifiers of messages to one ONU-ID, of those that have no type of their own (G.984.3, clause 9).
const DIRECTED: [u8; 10] = [4, 8, 9, 10, 12, 13, 14, 16, 18, 19];

/// An ONU-ID that isn't all of them.
fn to_one(onu: u8) -> Option<u8>
    ensures { result ≡ rules.to_one onu }
{
    if onu == BROADCAST_ONU {
        None
    } else {
        Some(onu)
    }
}

/// The ONU-ID that somebody has to hold where a message is sent.
fn needs_holder(message: &Down) -> Option<u8>
    ensures { result ≡ rules.needs_holder message.now }
{
    match *message {
        Down::RangingTime { onu, .. } | Down::AssignAlloc { onu, .. } => Some(onu),
        Down::Popup { onu } => to_one(onu),
        Down::Other { id, octet1, .. } if DIRECTED.contains(&id) => to_one(octet1),
        _ => None,
    }
}

/// Broken where nobody holds the ONU-ID of a row.
pub(crate) fn held_by_none(row: &Row) -> Verdict
    ensures { result ≡ rules.held_by_none (number_of row.now) }
{
    match row {
        Row::Unheard => Verdict::NotJudged,
        Row::Nobodys => Verdict::Broken,
        Row::Of { .. } => Verdict::Kept,
    }
}

/// Broken where the unit of a row is told a delay, and nothing was heard of it since it was assigned.
fn unranged_of(row: &Row, eqd: u32) -> Verdict
    ensures { result ≡ rules.unranged_of (number_of row.now) eqd }
{
    match *row {
        Row::Unheard | Row::Nobodys => Verdict::NotJudged,
        Row::Of { delay, answers, .. } => {
            is_other_delay(delay, eqd).but_not(broken_unanswered(answers))
        }
    }
}

/// Broken where a unit is known to have said nothing.
fn broken_unanswered(answers: Fact<Span>) -> Verdict
    ensures { result ≡ facts.broken_without (answers_of answers) }
{
    match answers {
        Fact::Unknown => Verdict::NotJudged,
        Fact::Nothing => Verdict::Broken,
        Fact::Is(_) => Verdict::Kept,
    }
}

/// Tells whether an equalization delay is outside of what delays between these two leave.
fn is_outside(settings: &Settings, eqd: u32, least: u32, greatest: u32) -> bool
    ensures { result ≡ rules.is_outside (settings_of settings.now) eqd least greatest }
{
    let eqd = u64::from(eqd);
    let teqd = u64::from(settings.teqd);
    let tolerance = u64::from(settings.tolerance);
    eqd + u64::from(greatest) + tolerance < teqd || teqd + tolerance < eqd + u64::from(least)
}

/// Broken where an equalization delay is not what the delays of its unit leave of the equalized one.
fn misses(settings: &Settings, eqd: u32, answers: Fact<Span>) -> Verdict
    ensures { result ≡ rules.misses (settings_of settings.now) eqd (answers_of answers) }
{
    match answers {
        Fact::Is(Span::Between { least, greatest }) => {
            broken_if(is_outside(settings, eqd, least, greatest))
        }
        Fact::Unknown | Fact::Nothing | Fact::Is(Span::Bare) => Verdict::NotJudged,
    }
}

/// The same, of the unit of a row that is told another delay than it has.
fn delay_of(settings: &Settings, row: &Row, eqd: u32) -> Verdict
    ensures { result ≡ rules.delay_of (settings_of settings.now) (number_of row.now) eqd }
{
    match *row {
        Row::Unheard | Row::Nobodys => Verdict::NotJudged,
        Row::Of { delay, answers, .. } => {
            is_other_delay(delay, eqd).but_not(misses(settings, eqd, answers))
        }
    }
}

/// Broken where the unit of a row has no delay.
fn early_of(row: &Row) -> Verdict
    ensures { result ≡ rules.early_of (number_of row.now) }
{
    match *row {
        Row::Unheard | Row::Nobodys => Verdict::NotJudged,
        Row::Of { delay, .. } => broken_without(delay),
    }
}

impl Knowledge {
    /// `nobody`: a message is to an ONU-ID that nobody holds.
    pub(crate) fn nobody(&self, message: &Down) -> Verdict
        ensures { result ≡ rules.nobody (known_of self.now) message.now }
    {
        match needs_holder(message) {
            None => Verdict::NotJudged,
            Some(onu) => held_by_none(&self.row(onu)),
        }
    }

    /// `unranged`: a unit is told a delay of which nothing was heard since it was assigned.
    pub(crate) fn unranged(&self, message: &Down) -> Verdict
        ensures { result ≡ rules.unranged (known_of self.now) message.now }
    {
        match *message {
            Down::RangingTime { onu, eqd } => judged_if(self.up, unranged_of(&self.row(onu), eqd)),
            _ => Verdict::NotJudged,
        }
    }

    /// `delay`: an equalization delay is above the equalized one, or not what the delays of its unit leave of that.
    pub(crate) fn delay(&self, settings: &Settings, message: &Down) -> Verdict
        ensures { result ≡ rules.delay (settings_of settings.now) (known_of self.now) message.now }
    {
        match *message {
            Down::RangingTime { eqd, .. } if settings.teqd < eqd => Verdict::Broken,
            Down::RangingTime { onu, eqd } => delay_of(settings, &self.row(onu), eqd),
            _ => Verdict::NotJudged,
        }
    }

    /// `early`: Assign_Alloc-ID, or POPUP of one ONU-ID, is to a unit that has no delay.
    pub(crate) fn early(&self, message: &Down) -> Verdict
        ensures { result ≡ rules.early (known_of self.now) message.now }
    {
        match *message {
            Down::AssignAlloc { onu, .. } => early_of(&self.row(onu)),
            Down::Popup { onu } if onu != BROADCAST_ONU => early_of(&self.row(onu)),
            _ => Verdict::NotJudged,
        }
    }
}
