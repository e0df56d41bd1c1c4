//! Which rules are told, by lists of their names.
ghost use Rattle.std.specs.Prelude.{◌≡◌, ◌∷◌, ◌≤◌, Ok, Err, Some, None, IfOk, IfErr, MatchResult, length, option_map};
ghost use Rattle.gp_observer.specs.declared.rule.Rule.{Rule as AnyRule};
ghost use Rattle.gp_audit.specs.Chosen.{is_chosen, unknown_name};
ghost use Rattle.gp_audit.specs.Naming as spec;
ghost use Rattle.gp_audit.specs.RuleSet.{contains, with_rule};
ghost use Rattle.gp_audit.specs.Texts.{names_in, names_of, texts};

use crate::rule_set::RuleSet;
use gp_finding::rule_named;
use gp_observer::Rule;

/// Puts a rule in, or takes it out.
fn set_rule(rules: &mut RuleSet, rule: Rule, is_in: bool)
    ensures { rules.new ≡ with_rule is_in rules.old rule }
{
    if is_in {
        rules.insert(rule);
    } else {
        rules.remove(rule);
    }
}

/// Gives the first name of a list, and what stands behind its comma, if there is one.
fn first_name(list: &str) -> (&str, Option<&str>)
    ensures names { names_of list.now ≡ result.0.now ∷ spec.names_left result.1 }
    ensures shorter { spec.octets_left result.1 ≤ length list.now }
{
    match list.split_once(',') {
        Some((name, rest)) => (name, Some(rest)),
        None => (list, None),
    }
}

/// Puts the rules of a list's names in, or takes them out. The first name that no rule has is given back.
fn set_list<'t>(rules: &mut RuleSet, list: &'t str, is_in: bool) -> Result<(), &'t str>
    ensures { MatchResult result
        (λ done. spec.names_set is_in rules.old (names_of list.now) ≡ Ok rules.new)
        (λ name. spec.names_set is_in rules.old (names_of list.now) ≡ Err name.now) }
{
    let mut left = Some(list);
    'names: while let Some(list) = left {
        let (name, rest) = first_name(list);
        let Some(rule) = rule_named(name) else {
            return Err(name);
        };
        set_rule(rules, rule, is_in);
        left = rest;
    }
    Ok(())
}

/// Puts the rules of lists in, or takes them out. The first name that no rule has is given back.
fn set_lists<'t>(rules: &mut RuleSet, lists: &[&'t str], is_in: bool) -> Result<(), &'t str>
    ensures { MatchResult result
        (λ done. spec.names_set is_in rules.old (names_in (texts lists.entry)) ≡ Ok rules.new)
        (λ name. spec.names_set is_in rules.old (names_in (texts lists.entry)) ≡ Err name.now) }
{
    'lists: for list in lists {
        set_list(rules, list, is_in)?;
    }
    Ok(())
}

/// Gives the rules that are told alone, and all where none are named.
fn only_rules<'t>(only: Option<&[&'t str]>) -> Result<RuleSet, &'t str>
    ensures { MatchResult result
        (λ rules. spec.only_rules (option_map texts only.entry) ≡ Ok rules)
        (λ name. spec.only_rules (option_map texts only.entry) ≡ Err name.now) }
{
    let Some(lists) = only else {
        return Ok(RuleSet::all());
    };
    let mut rules = RuleSet::none();
    set_lists(&mut rules, lists, true)?;
    Ok(rules)
}

/// Gives the rules that are told: those that the lists of `only` name, or all where it is left out, without those that
/// the lists of `without` name. A list is names with commas between them, and an empty one is the name of none. The
/// first name that no rule has is given back. Takes no memory.
pub fn rules_told<'t>(
    only: Option<&[&'t str]>,
    without: Option<&[&'t str]>,
) -> Result<RuleSet, &'t str>
    ensures known { IfOk result (λ rules.
        unknown_name (option_map texts only.entry) (option_map texts without.entry) ≡ None) }
    ensures told { IfOk result (λ rules. (rule : AnyRule)
        → contains rules rule ≡ is_chosen (option_map texts only.entry) (option_map texts without.entry) rule) }
    ensures unknown { IfErr result (λ name.
        unknown_name (option_map texts only.entry) (option_map texts without.entry) ≡ Some name.now) }
{
    let mut rules = only_rules(only)?;
    if let Some(lists) = without {
        set_lists(&mut rules, lists, false)?;
    }
    Ok(rules)
}
