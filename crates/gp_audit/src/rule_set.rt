//! Some of the rules, as a set: those of which findings are told, or those that were judged.
ghost use Rattle.std.specs.Prelude.{◌≡◌, ◌<◌, true, false};
ghost use Rattle.std.specs.List.{list_any};
ghost use Rattle.gp_observer.specs.declared.rule.Rule.{Rule as AnyRule};
ghost use Rattle.gp_audit.specs.RuleSet.{contains, each_rule, is_empty, rule_place, with_rule};

use gp_observer::Rule;

/// How many rules there are.
const RULES: usize = 19;

/// Some of the rules.
#[derive(Clone, Copy, Debug, PartialEq, Eq)]
pub struct RuleSet {
    /// Whether each is among them, in the order of `Rule`.
    pub places: [bool; RULES],
}

/// Gives the place of a rule in their order.
fn rule_place(rule: Rule) -> usize
    ensures place { result ≡ rule_place rule }
    ensures within { result < 19 }
{
    rule as usize
}

/// Tells whether a rule is among them, by whether each is.
fn has_any(places: &[bool]) -> bool
    ensures { result ≡ list_any (λ is_in. is_in) places.now }
{
    places.iter().any(|is_in| *is_in)
}

impl RuleSet {
    /// All rules.
    pub fn all() -> RuleSet
        ensures whole { result ≡ each_rule true }
        ensures each { (rule : AnyRule) → contains result rule ≡ true }
    {
        RuleSet {
            places: [true; RULES],
        }
    }

    /// No rule.
    pub fn none() -> RuleSet
        ensures whole { result ≡ each_rule false }
        ensures each { (rule : AnyRule) → contains result rule ≡ false }
    {
        RuleSet {
            places: [false; RULES],
        }
    }

    /// Tells whether no rule is among them.
    pub fn is_empty(&self) -> bool
        ensures { result ≡ is_empty self.now }
    {
        !has_any(&self.places)
    }

    /// Tells whether a rule is among them.
    pub fn contains(&self, rule: Rule) -> bool
        ensures { result ≡ contains self.now rule }
    {
        self.places[rule_place(rule)]
    }

    /// Puts a rule in.
    pub fn insert(&mut self, rule: Rule)
        ensures { self.new ≡ with_rule true self.old rule }
    {
        self.places[rule_place(rule)] = true;
    }

    /// Takes a rule out.
    pub fn remove(&mut self, rule: Rule)
        ensures { self.new ≡ with_rule false self.old rule }
    {
        self.places[rule_place(rule)] = false;
    }
}
