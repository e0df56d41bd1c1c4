//! The rules that something breaks, in their order.
ghost use Rattle.std.specs.Prelude.{◌≡◌, ◌<◌, ◌≤◌, [], ◌∷◌, ◌++◌, length};
ghost use Rattle.gp_observer.specs.Heard.{broken_of};

use gp_observer::Rule;
use std::marker::Model;

/// How many rules something breaks at most.
const MOST_BROKEN: usize = 12;

/// The rules that something breaks, in their order. It takes no memory.
#[derive(Drop)]
pub struct BrokenRules {
    rules: [Rule; MOST_BROKEN],
    count: usize,
}

impl Model for BrokenRules {
    ghost use Rattle.std.specs.Prelude.{◌≤◌, List, take};
    ghost use Rattle.std.specs.Coded.{coded_list};
    ghost use Rattle.gp_observer.specs.declared.rule.Rule.{Rule};
    ghost use Rattle.gp_observer.specs.contracts.rule.Rule as rule;

    ghost Value = { List Rule };

    ghost coded = { coded_list rule.the_row.coded };

    ghost view = { λ b. take b.count b.rules };

    ghost invariant = { λ b. b.count ≤ 12 };
}

impl BrokenRules {
    /// None is broken.
    pub(crate) fn none() -> BrokenRules
        ensures { result ≡ [] }
    {
        BrokenRules {
            rules: [Rule::Garbled; MOST_BROKEN],
            count: 0,
        }
    }

    /// Adds a rule.
    fn push(&mut self, rule: Rule)
        requires { length self.old < 12 }
        ensures { self.new ≡ self.old ++ rule ∷ [] }
    {
        self.rules[self.count] = rule;
        self.count += 1;
    }

    /// Adds a rule, if it is broken.
    fn push_if(&mut self, broken: bool, rule: Rule)
        requires { length self.old < 12 }
        ensures { self.new ≡ self.old ++ broken_of ((broken, rule) ∷ []) }
    {
        if broken {
            self.push(rule);
        }
    }

    /// Gathers the rules that are broken, of these.
    pub(crate) fn of(rules: &[(bool, Rule)]) -> BrokenRules
        requires { length rules.now ≤ 12 }
        ensures { result ≡ broken_of rules.now }
    {
        let mut found = BrokenRules::none();
        for at in 0..rules.len() {
            let (broken, rule) = rules[at];
            found.push_if(broken, rule);
        }
        found
    }

    /// Gives the rules, in their order.
    pub fn as_slice(&self) -> &[Rule]
        ensures { result.now ≡ self.now }
    {
        &self.rules[..self.count]
    }
}
