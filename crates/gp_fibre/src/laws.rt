//! What holds of every run of a fibre, as contracts of functions that do nothing: runs in parts, licences, what each
//! unit was sent, and what forgetting leaves as it is.
ghost use Rattle.gp_fibre.specs.Forgetting.{ForgettingChangesNoFrames, ForgettingChangesNoSteps};
ghost use Rattle.gp_fibre.specs.Laws.{AssignedStayOrAreTold, FramesAreRuns, FramesRunInParts, KeepsLicences, OneHasIt, PortRuns, RunsInParts, UnitsAreTold, UnitsHaveOrLose};

/// States that a run of a fibre, and a run from where it ends, are one run.
pub fn runs_in_parts()
    ensures { RunsInParts }
{}

/// States that the entries of a run of a fibre are a run of its port.
pub fn port_runs()
    ensures { PortRuns }
{}

/// States that the free licences and those of the port's units are as many after a run as before.
pub fn keeps_licences()
    ensures { KeepsLicences }
{
    gp_machine::sound_step();
    gp_machine::step_keeps_licences();
}

/// States that each unit was sent what it has: its ONU-ID, its equalization delay, and that it is disabled.
pub fn units_are_told()
    ensures { UnitsAreTold }
{
    gp_onu::knows_what_it_hears();
}

/// States that each unit that was assigned an ONU-ID has it in the port's table, or was sent or is owed later that it
/// is taken from it.
pub fn assigned_units_stay_or_are_told()
    ensures { AssignedStayOrAreTold }
{
    gp_laws::each_step_adds_messages();
}

/// States that a unit that has an ONU-ID which the port's table does not give it was sent or is owed that it is taken
/// from it; and that of two units that have one ONU-ID at most one has it by the table.
pub fn lost_units_are_told()
    ensures units { UnitsHaveOrLose }
    ensures one { OneHasIt }
{
    units_are_told();
    assigned_units_stay_or_are_told();
    gp_laws::no_shared_numbers();
}

/// States that the frames of `World::run` are a run of the fibre.
pub fn frames_are_runs()
    ensures { FramesAreRuns }
{}

/// States that a run of so many frames and then of more is one run of all of them, and that a run may be cut so.
pub fn frames_run_in_parts()
    ensures { FramesRunInParts }
{}

/// States that a world that forgot makes only frames and steps that it could have made if it had not: what is
/// forgotten changes nothing of what the port and the units do.
pub fn forgetting_changes_nothing()
    ensures frames { ForgettingChangesNoFrames }
    ensures steps { ForgettingChangesNoSteps }
{}
