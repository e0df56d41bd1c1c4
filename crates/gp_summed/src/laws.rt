//! A law of counting: lines of light count for nothing.
ghost use Rattle.std.specs.Prelude.{◌↔◌, ℕ, List};
ghost use Rattle.gp_ploam.specs.declared.check.Mask.{Mask};
ghost use Rattle.gp_tally.specs.Tally.{PortTally};
ghost use Rattle.gp_tally.specs.Text.{AreTallies, HasLines};
ghost use Rattle.gp_summed.specs.Lights.{AddsLights};

/// States that what is counted of a text that has lines of light between its lines is what is counted of it without
/// them.
pub fn lights_count_for_nothing()
    ensures { (mask : Mask) (text plain last : List ℕ) (lines others : List (List ℕ)) (ports : List PortTally)
        → HasLines text lines last
        → HasLines plain others last
        → AddsLights lines others
        → AreTallies mask text ports ↔ AreTallies mask plain ports }
{}
