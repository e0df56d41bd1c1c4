//! Laws of the names of rules: each is read back as its rule, and no two are the same.
ghost use Rattle.std.specs.Prelude.{◌≡◌};
ghost use Rattle.gp_finding.specs.Laws.{NamesAreApart, NamesAreReadBack};
ghost use Rattle.gp_finding.specs.Names.{rules};

use crate::names::RULES;

/// States that the name of a rule is read back as it, and that no two rules have one name.
pub fn names_are_read_back()
    ensures back { NamesAreReadBack }
    ensures apart { NamesAreApart }
{}

/// States that `RULES` are the rules in which names are looked up.
pub fn rules_are_listed()
    ensures { RULES ≡ rules }
{}
