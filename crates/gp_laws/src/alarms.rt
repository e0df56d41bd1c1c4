//! Laws of alarms: with LOS, LOAM, LOA and SUF the unit is removed.
ghost use Rattle.gp_laws.specs.Alarms.{AlarmsRemoveUnits};

/// States that a step that raises LOS, LOAM, LOA or SUF of a unit removes the unit.
pub fn alarms_remove_units()
    ensures { AlarmsRemoveUnits }
{}
