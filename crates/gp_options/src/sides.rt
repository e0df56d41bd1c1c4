//! Whether a choice of rules leaves one to tell.
ghost use Rattle.std.specs.Prelude.{◌≡◌, ◌&&◌};
ghost use Rattle.std.specs.List.{list_any};
ghost use Rattle.gp_audit.specs.RuleSet.{contains};
ghost use Rattle.gp_options.specs.Sides.{NoneTellsNothing, SidesAreJudged, may_be_judged, tells_some};

use gp_audit::FindingChoice;
use gp_finding::RULES;
use gp_observer::Rule;

/// Tells whether a choice leaves this rule, and it is judged on a side of which it tells. Who asked before a log that
/// begins in the middle isn't known, so there `unasked` isn't judged.
fn tells(midway: bool, choice: &FindingChoice, rule: Rule) -> bool
    ensures { result ≡ (contains choice.now.rules rule && may_be_judged midway choice.now rule) }
{
    let is_unknown = midway && rule == Rule::Unasked;
    choice.rules.contains(rule) && choice.is_of_told(rule) && !is_unknown
}

/// Tells whether a choice leaves one of these rules that is judged on a side of which it tells.
fn tells_any(midway: bool, choice: &FindingChoice, rules: &[Rule]) -> bool
    ensures { result
        ≡ list_any (λ rule. contains choice.now.rules rule && may_be_judged midway choice.now rule) rules.now }
{
    rules.iter().any(|rule| tells(midway, choice, *rule))
}

/// Tells whether a choice leaves a rule that is judged on a side of which it tells.
pub fn tells_some(midway: bool, choice: &FindingChoice) -> bool
    ensures { result ≡ tells_some midway choice.now }
{
    tells_any(midway, choice, &RULES)
}

/// States that the rules of each side are just those that are judged there, and that where a choice leaves none of
/// them no finding would be told, whatever is heard.
pub fn sides_are_judged()
    ensures judged { SidesAreJudged }
    ensures none { NoneTellsNothing }
{}
