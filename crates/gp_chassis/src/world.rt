//! What holds of a chassis after any moves, whoever makes them and in whatever order: laws, as functions that do
//! nothing.
ghost use Rattle.gp_chassis.specs.World.{BalanceLasts, SoundnessLasts, PortsReplay, EveryRunHolds};

/// States that after any moves each licence is free, in an actor's hands, or with an active unit.
pub fn balance_lasts()
    ensures { BalanceLasts }
{}

/// States that after any moves every port is sound.
pub fn soundness_lasts()
    ensures { SoundnessLasts }
{}

/// States that after any moves the entries of each port are a run from where it stood to where it stands.
pub fn ports_replay()
    ensures { PortsReplay }
{}

/// States what holds after any moves from the opening of a chassis: each port's entries are a run, no two active units
/// of a port share an ONU-ID or an Alloc-ID, a disabled serial number holds none, and no licence was made or lost.
pub fn every_run_holds()
    ensures { EveryRunHolds }
{}
