//! Laws of the quarantine: a freed ONU-ID is given to no unit before it is over, and is free again exactly then.
ghost use Rattle.gp_laws.specs.Quarantine.{FreedOnuIdsRest, FreedOnuIdsAreFreeAgain};

/// States that an ONU-ID that was freed is given to a new unit only after as many frames as the quarantine
/// of the port's configuration has.
pub fn freed_onu_ids_rest()
    ensures { FreedOnuIdsRest }
{}

/// States that an ONU-ID that was freed and not handed out since is free again after exactly as many frames
/// as the quarantine has.
pub fn freed_onu_ids_are_free_again()
    ensures { FreedOnuIdsAreFreeAgain }
{}
