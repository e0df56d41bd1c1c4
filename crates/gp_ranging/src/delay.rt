//! The equalization delay: what makes a unit's round trip up to the one that all units have, if it is near enough for
//! that (G.984.3, clause 10).
ghost use Rattle.std.specs.Prelude.{◌≡◌};
ghost use Rattle.gp_ranging.specs.Delay.{equalization_delay};

/// Computes the equalization delay of a unit, in bit times: what is left of the equalized round-trip delay
/// `teqd` after the measured round-trip delay `rtd` (G.984.3, clause 10). None for a unit that is
/// farther away than `teqd` allows.
pub fn equalize(teqd: u32, rtd: u32) -> Option<u32>
    ensures { result ≡ equalization_delay teqd rtd }
{
    teqd.checked_sub(rtd)
}
