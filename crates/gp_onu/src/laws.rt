//! Laws of a simulated unit, as functions that do nothing: a code heard twice is as one heard once, and a unit has only
//! what it heard.
ghost use Rattle.std.specs.Prelude.{◌≡◌, ℕ, List};
ghost use Rattle.gp_ploam.specs.declared.message.Down.{Down};
ghost use Rattle.gp_onu.specs.Table.{Hears, UnitState, unit_after};
ghost use Rattle.gp_onu.specs.Told.{KnowsWhatItHears, StaysTold};

/// States that a code that is heard twice in a row leaves a unit as the first did.
pub fn heard_twice()
    ensures { (unit : UnitState) (code : List ℕ) (message : Down) →
        unit_after (unit_after unit (Hears code message)) (Hears code message) ≡ unit_after unit (Hears code message) }
{}

/// States that a unit has an ONU-ID or an equalization delay, or is disabled, only where it heard so, and that it
/// knows of no other messages than those that it heard.
pub fn knows_what_it_hears()
    ensures step { KnowsWhatItHears }
    ensures stays { StaysTold }
{}
