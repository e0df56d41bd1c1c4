//! What each rule of the terminal says of what is heard, by what is known: `judge`.
ghost use Rattle.std.specs.Prelude.{◌≡◌};
ghost use Rattle.gp_watch.specs.Heard.{heard_of};
ghost use Rattle.hear_rules.specs.Rules as rules;
ghost use Rattle.hear_rules.specs.Rules.{judge_known};
ghost use Rattle.hear_state.specs.Judged.{settings_of};
ghost use Rattle.hear_state.specs.Kept.{known_of};

use crate::assigning::range;
use crate::knowledge::Knowledge;
use crate::settings::Settings;
use gp_ploam::Down;
use gp_ranging::Grant;
use gp_watch::Heard;
use hear_rules::{Rule, Verdict};

/// A code whose check octet is wrong breaks `garbled`, and nothing else is judged of it.
fn judge_garbled(rule: Rule) -> Verdict
    ensures { result ≡ rules.judge_garbled rule }
{
    match rule {
        Rule::Garbled => Verdict::Broken,
        _ => Verdict::NotJudged,
    }
}

impl Knowledge {
    /// What a rule says of a message down.
    fn judge_message(&self, settings: &Settings, message: &Down, rule: Rule) -> Verdict
        ensures { result ≡ rules.judge_message (settings_of settings.now) (known_of self.now) message.now rule }
    {
        match rule {
            Rule::Garbled => Verdict::Kept,
            Rule::Range => range(message),
            Rule::Barred => self.barred(message),
            Rule::Unasked => self.unasked(message),
            Rule::Taken => self.taken(message),
            Rule::Renumbered => self.renumbered(message),
            Rule::Nobody => self.nobody(message),
            Rule::Unranged => self.unranged(message),
            Rule::Delay => self.delay(settings, message),
            Rule::Early => self.early(message),
            Rule::Shared => self.shared(message),
            Rule::NotHeld => self.not_held(message),
            _ => Verdict::NotJudged,
        }
    }

    /// What a rule says of a window.
    fn judge_grant(&self, grant: &Grant, rule: Rule) -> Verdict
        ensures { result ≡ rules.judge_grant (known_of self.now) grant.now rule }
    {
        match rule {
            Rule::Overhead => self.overhead(grant),
            Rule::Grant => self.granted(grant),
            _ => Verdict::NotJudged,
        }
    }

    /// What a rule of the terminal says of what is heard, by what is known before it.
    pub fn judge(&self, settings: &Settings, heard: &Heard, rule: Rule) -> Verdict
        ensures { result ≡ judge_known (settings_of settings.now) (known_of self.now) (heard_of heard.now) rule }
    {
        match heard {
            Heard::Down(None) => judge_garbled(rule),
            Heard::Down(Some(message)) => self.judge_message(settings, message, rule),
            Heard::Up { .. } => Verdict::NotJudged,
            Heard::Grant(grant) => self.judge_grant(grant, rule),
        }
    }
}
