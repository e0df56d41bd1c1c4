//! That every unit is served, as the contract of a function that does nothing.
ghost use Rattle.gp_success.specs.Served.{EverybodyIsServed};

/// States that on a fibre that loses nothing every unit operates at most `4 * cycles + 9 * n + 4` frames after a
/// search, n being how many units there are, whatever free ONU-IDs the port picks: each has an ONU-ID and what its
/// delay leaves of the equalized one, the port's row of it says the same, no copy is owed, no window is open and no
/// burst is to come.
///
/// That asks for units that are lit, new, admitted, each with a serial number of its own and with a delay below three
/// frames (466,560 bit times) and of at most `teqd`; for no more of them than `max_units`, licences and `63 * cycles`;
/// and that the search is the first thing that happens.
pub fn everybody_is_served()
    ensures { EverybodyIsServed }
{
    gp_machine::one_outcome();
    gp_machine::sound_step();
    gp_ploam::up_round_trip();
    gp_laws::every_state_is_sound();
}
