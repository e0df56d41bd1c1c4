//! Which rules that are told were judged of what was heard, on each side, and how many garbled codes were left out.
ghost use Rattle.std.specs.Prelude.{◌≡◌, ◌&&◌, if◌then◌else◌, true};
ghost use Rattle.std.specs.List.{fold, list_any};
ghost use Rattle.gp_observer.specs.Judged.{judges};
ghost use Rattle.gp_observer.specs.Watch.{is_new};
ghost use Rattle.gp_audit.specs.Judging as spec;
ghost use Rattle.gp_audit.specs.RuleSet.{contains, with_rule};
ghost use Rattle.gp_watch.specs.Heard.{heard_of};

use crate::options::FindingChoice;
use crate::rule_set::RuleSet;
use gp_finding::RULES;
use gp_observer::Rule;
use gp_ploam::Down;
use gp_watch::{Heard, PortWatch};

/// Which rules that are told were judged of what was heard. A rule is judged of what can break it or keep it, by what is
/// known before it.
#[derive(Clone, Copy, Debug, PartialEq, Eq)]
pub struct Judged {
    /// Those that were judged of something that the line terminal said.
    pub terminal: RuleSet,
    /// Those that were judged of something that a unit said.
    pub units: RuleSet,
    /// How many codes were garbled of which no finding tells so, on either side: nothing is judged of them. As far as 64
    /// bits go.
    pub garbled: u64,
}

/// Puts a rule in that isn't in yet, if it is told and judged of something heard.
// Kept out of line, so that whether a rule is in is looked at where `join_rule` is called.
#[inline(never)]
fn join_missing(judged: &mut RuleSet, told: &RuleSet, watch: &PortWatch, heard: &Heard, rule: Rule)
    ensures { judged.new ≡ (if contains told.now rule && judges watch.now (heard_of heard.now) rule
        then with_rule true judged.old rule else judged.old) }
{
    if told.contains(rule) && watch.judges(heard, rule) {
        judged.insert(rule);
    }
}

/// Puts a rule in, if it is told and judged of something heard. Whether it is isn't asked of one that is in, as most are
/// most of the time.
fn join_rule(judged: &mut RuleSet, told: &RuleSet, watch: &PortWatch, heard: &Heard, rule: Rule)
    ensures { judged.new ≡ (if contains told.now rule && judges watch.now (heard_of heard.now) rule
        then with_rule true judged.old rule else judged.old) }
{
    if judged.contains(rule) {
        return;
    }
    join_missing(judged, told, watch, heard, rule);
}

/// Puts the rules in that are told and judged of a message down that is told, which something heard is.
fn join_told(judged: &mut RuleSet, told: &RuleSet, watch: &PortWatch, heard: &Heard)
    ensures { judged.new ≡ spec.joined_by (λ rule. contains told.now rule && judges watch.now (heard_of heard.now) rule)
        spec.down_rules judged.old }
{
    join_rule(judged, told, watch, heard, Rule::Garbled);
    join_rule(judged, told, watch, heard, Rule::Copies);
    join_rule(judged, told, watch, heard, Rule::Range);
    join_rule(judged, told, watch, heard, Rule::Barred);
    join_rule(judged, told, watch, heard, Rule::Unasked);
    join_rule(judged, told, watch, heard, Rule::Taken);
    join_rule(judged, told, watch, heard, Rule::Renumbered);
    join_rule(judged, told, watch, heard, Rule::Nobody);
    join_rule(judged, told, watch, heard, Rule::Unranged);
    join_rule(judged, told, watch, heard, Rule::Delay);
    join_rule(judged, told, watch, heard, Rule::Early);
    join_rule(judged, told, watch, heard, Rule::Shared);
    join_rule(judged, told, watch, heard, Rule::NotHeld);
}

/// Puts the rules in that are told and judged of a message up, which something heard is.
fn join_answer(judged: &mut RuleSet, told: &RuleSet, watch: &PortWatch, heard: &Heard)
    ensures { judged.new ≡ spec.joined_by (λ rule. contains told.now rule && judges watch.now (heard_of heard.now) rule)
        spec.unit_rules judged.old }
{
    join_rule(judged, told, watch, heard, Rule::Garbled);
    join_rule(judged, told, watch, heard, Rule::Disabled);
    join_rule(judged, told, watch, heard, Rule::Anew);
    join_rule(judged, told, watch, heard, Rule::Number);
    join_rule(judged, told, watch, heard, Rule::Acknowledge);
    join_rule(judged, told, watch, heard, Rule::Drift);
}

/// Puts the rules in that are told and judged of a message down, which something heard is: of a copy that doesn't tell
/// it only that its check octet is right.
fn join_copy(judged: &mut RuleSet, told: &RuleSet, watch: &PortWatch, heard: &Heard, message: &Down)
    ensures { judged.new ≡ spec.joined_by (λ rule. contains told.now rule && judges watch.now (heard_of heard.now) rule)
        (if is_new watch.now message.now then spec.down_rules else spec.code_rules) judged.old }
{
    if watch.is_new(message) {
        join_told(judged, told, watch, heard);
    } else {
        join_rule(judged, told, watch, heard, Rule::Garbled);
    }
}

/// Puts the rules in that are told and judged of something heard, by what is known before it. Only those are looked at
/// that may be.
fn join_heard(judged: &mut RuleSet, told: &RuleSet, watch: &PortWatch, heard: &Heard)
    ensures { judged.new ≡ spec.joined_by (λ rule. contains told.now rule && judges watch.now (heard_of heard.now) rule)
        (spec.rules_of watch.now (heard_of heard.now)) judged.old }
{
    match heard {
        Heard::Grant(_) => join_rule(judged, told, watch, heard, Rule::Grant),
        Heard::Up {
            message: Some(_),
            ..
        } => join_answer(judged, told, watch, heard),
        Heard::Up { message: None, .. } => join_rule(judged, told, watch, heard, Rule::Garbled),
        Heard::Down(None) | Heard::Down(Some(Down::NoMessage)) => {
            join_rule(judged, told, watch, heard, Rule::Garbled)
        }
        Heard::Down(Some(message)) => join_copy(judged, told, watch, heard, message),
    }
}

/// Gives the rules that are in either set.
fn of_both(one: &RuleSet, other: &RuleSet) -> RuleSet
    ensures { result ≡ spec.of_both one.now other.now }
{
    RULES
        .iter()
        .fold(*one, |joined, rule| with_rule_of(joined, other, *rule))
}

/// Gives a set with a rule that is in another.
fn with_rule_of(one: RuleSet, other: &RuleSet, rule: Rule) -> RuleSet
    ensures { result ≡ (if contains other.now rule then with_rule true one rule else one) }
{
    let mut joined = one;
    if other.contains(rule) {
        joined.insert(rule);
    }
    joined
}

/// Tells whether a rule is judged of what a unit says.
fn is_of_units(rule: Rule) -> bool
    ensures { result ≡ spec.is_of_units rule }
{
    matches!(
        rule,
        Rule::Garbled | Rule::Disabled | Rule::Anew | Rule::Number | Rule::Acknowledge | Rule::Drift
    )
}

/// Tells whether a rule is judged of what the line terminal says.
fn is_of_terminal(rule: Rule) -> bool
    ensures { result ≡ spec.is_of_terminal rule }
{
    match rule {
        Rule::Garbled => true,
        _ => !is_of_units(rule),
    }
}

impl FindingChoice {
    /// Puts the rules in that are told and judged of something heard, by what is known before it.
    fn join_judged(&self, judged: &mut RuleSet, watch: &PortWatch, heard: &Heard)
        ensures { judged.new ≡ spec.judged_with self.now watch.now (heard_of heard.now) judged.old }
    {
        if self.tells_side(heard) {
            join_heard(judged, &self.rules, watch, heard);
        }
    }

    /// Tells whether something heard is garbled, though no finding tells so.
    fn leaves_garbled(&self, heard: &Heard) -> bool
        ensures { result ≡ spec.leaves_garbled self.now (heard_of heard.now) }
    {
        let is_garbled = matches!(heard, Heard::Down(None) | Heard::Up { message: None, .. });
        is_garbled && !self.tells(heard, Rule::Garbled)
    }

    /// Tells whether a rule is judged on a side that is told, whether the rule is told or not.
    pub fn is_of_told(&self, rule: Rule) -> bool
        ensures { result ≡ spec.is_of_told self.now rule }
    {
        (self.terminal && is_of_terminal(rule)) || (self.units && is_of_units(rule))
    }
}

impl Judged {
    /// Nothing was heard.
    pub(crate) fn none() -> Judged
        ensures { result ≡ spec.nothing_judged }
    {
        Judged {
            terminal: RuleSet::none(),
            units: RuleSet::none(),
            garbled: 0,
        }
    }

    /// Notes something heard, by what is known before it.
    pub(crate) fn note(&mut self, told: &FindingChoice, watch: &PortWatch, heard: &Heard)
        ensures { self.new ≡ spec.judged_after told.now watch.now (heard_of heard.now) self.old }
    {
        if told.leaves_garbled(heard) {
            self.garbled = self.garbled.saturating_add(1);
        }
        match heard {
            Heard::Down(_) | Heard::Grant(_) => {
                told.join_judged(&mut self.terminal, watch, heard);
            }
            Heard::Up { .. } => told.join_judged(&mut self.units, watch, heard),
        }
    }

    /// Gives what was judged here or there.
    pub(crate) fn with(self, other: Judged) -> Judged
        ensures { result ≡ spec.judged_on_both self other }
    {
        Judged {
            terminal: of_both(&self.terminal, &other.terminal),
            units: of_both(&self.units, &other.units),
            garbled: self.garbled.saturating_add(other.garbled),
        }
    }

    /// Tells whether no rule that is told was judged, of either side.
    pub fn is_nothing(&self) -> bool
        ensures { result ≡ spec.is_nothing self.now }
    {
        self.terminal.is_empty() && self.units.is_empty()
    }

    /// Tells whether a rule was judged, on either side.
    fn has(&self, rule: Rule) -> bool
        ensures { result ≡ spec.was_judged self.now rule }
    {
        self.terminal.contains(rule) || self.units.contains(rule)
    }

    /// Tells whether a rule was missed: it is told, but was not judged.
    pub fn misses(&self, told: &FindingChoice, rule: Rule) -> bool
        ensures { result ≡ spec.misses told.now self.now rule }
    {
        told.rules.contains(rule) && told.is_of_told(rule) && !self.has(rule)
    }

    /// Tells whether nothing was judged of a side that is told, though `garbled` is told, which alone is judged on both.
    fn misses_side(&self, told: &FindingChoice) -> bool
        ensures { result ≡ spec.misses_side told.now self.now }
    {
        told.rules.contains(Rule::Garbled)
            && ((told.terminal && self.terminal.is_empty())
                || (told.units && self.units.is_empty()))
    }

    /// Tells whether one of these rules was missed.
    fn misses_any(&self, told: &FindingChoice, rules: &[Rule]) -> bool
        ensures { result ≡ list_any (spec.misses told.now self.now) rules.now }
    {
        rules.iter().any(|rule| self.misses(told, *rule))
    }

    /// Tells whether not all was judged: a rule was missed, or a side, or a code was garbled of which no finding tells
    /// so.
    pub fn leaves_some(&self, told: &FindingChoice) -> bool
        ensures { result ≡ spec.leaves_some told.now self.now }
    {
        self.garbled != 0 || self.misses_side(told) || self.misses_any(told, &RULES)
    }
}

/// States that of what is heard just the rules that are told and judged of it join those that were judged on its side;
/// so each rule of which a finding is told was judged. Of two ports those of either count. The rules of each side are
/// those that may be judged there.
pub fn told_are_judged()
    ensures join { spec.JustTheJudgedJoin }
    ensures either { spec.EitherJudged }
    ensures sides { spec.RulesHaveSides }
{}
