//! The names of rules, and whose rule each is.
ghost use Rattle.std.specs.Prelude.{◌≡◌};
ghost use Rattle.gp_watch.specs.Heard.{heard_of};
ghost use Rattle.gp_finding.specs.Names as spec;

use gp_observer::Rule;
use gp_watch::Heard;

/// Whose rule it is.
#[derive(Clone, Copy, Debug, PartialEq, Eq)]
pub enum Side {
    /// The line terminal's.
    Terminal,
    /// A unit's.
    Unit,
}

/// All rules, in the order in which they are judged.
pub const RULES: [Rule; 19] = [
    Rule::Garbled,
    Rule::Copies,
    Rule::Range,
    Rule::Barred,
    Rule::Unasked,
    Rule::Taken,
    Rule::Renumbered,
    Rule::Nobody,
    Rule::Unranged,
    Rule::Delay,
    Rule::Early,
    Rule::Shared,
    Rule::NotHeld,
    Rule::Grant,
    Rule::Disabled,
    Rule::Anew,
    Rule::Number,
    Rule::Acknowledge,
    Rule::Drift,
];

/// Gives whose rules something may break: messages down and grants those of the terminal, messages up those of a unit.
pub fn side_of(heard: &Heard) -> Side
    ensures { result ≡ spec.side_of (heard_of heard.now) }
{
    match heard {
        Heard::Down(_) | Heard::Grant(_) => Side::Terminal,
        Heard::Up { .. } => Side::Unit,
    }
}

/// Gives the name of a rule.
pub fn rule_name(rule: Rule) -> &'static str
    ensures { result.now ≡ spec.rule_name rule }
{
    match rule {
        Rule::Garbled => "garbled",
        Rule::Copies => "copies",
        Rule::Range => "range",
        Rule::Barred => "barred",
        Rule::Unasked => "unasked",
        Rule::Taken => "taken",
        Rule::Renumbered => "renumbered",
        Rule::Nobody => "nobody",
        Rule::Unranged => "unranged",
        Rule::Delay => "delay",
        Rule::Early => "early",
        Rule::Shared => "shared",
        Rule::NotHeld => "not-held",
        Rule::Grant => "grant",
        Rule::Disabled => "disabled",
        Rule::Anew => "anew",
        Rule::Number => "number",
        Rule::Acknowledge => "acknowledge",
        Rule::Drift => "drift",
    }
}

/// Gives the rule of this name, if there is one.
pub fn rule_named(name: &str) -> Option<Rule>
    ensures { result ≡ spec.rule_named name.now }
{
    match name {
        "garbled" => Some(Rule::Garbled),
        "copies" => Some(Rule::Copies),
        "range" => Some(Rule::Range),
        "barred" => Some(Rule::Barred),
        "unasked" => Some(Rule::Unasked),
        "taken" => Some(Rule::Taken),
        "renumbered" => Some(Rule::Renumbered),
        "nobody" => Some(Rule::Nobody),
        "unranged" => Some(Rule::Unranged),
        "delay" => Some(Rule::Delay),
        "early" => Some(Rule::Early),
        "shared" => Some(Rule::Shared),
        "not-held" => Some(Rule::NotHeld),
        "grant" => Some(Rule::Grant),
        "disabled" => Some(Rule::Disabled),
        "anew" => Some(Rule::Anew),
        "number" => Some(Rule::Number),
        "acknowledge" => Some(Rule::Acknowledge),
        "drift" => Some(Rule::Drift),
        _ => None,
    }
}
