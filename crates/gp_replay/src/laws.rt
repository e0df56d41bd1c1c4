//! What follows of each port from the entries of a play.
ghost use Rattle.gp_replay.specs.Laws.{EachPortRuns, LicencesAreKept};
ghost use Rattle.gp_replay.specs.Lights.{LightsAreTold, TraceIsTold};
ghost use Rattle.gp_replay.specs.Playing.{chassis_playing, fibre_playing};

/// States that of entries that play a script those of each port are a run of the activation machine from the
/// port's opening.
pub fn each_port_runs()
    ensures { EachPortRuns }
{
    gp_chassis::ports_replay();
    gp_fibre::frames_are_runs();
    gp_fibre::runs_in_parts();
    gp_fibre::port_runs();
}

/// States that of entries that play a script the licences that are free at the end and those of all units are
/// as many as the script says.
pub fn licences_are_kept()
    ensures { LicencesAreKept }
{
    gp_chassis::balance_lasts();
    gp_fibre::frames_are_runs();
    gp_fibre::runs_in_parts();
    gp_fibre::keeps_licences();
}

/// States that events that are told with their lights are played, and that their text is the trace with one line for
/// each time that light comes or goes, in their order; and that without lights it is the trace.
pub fn lights_are_told()
    ensures chassis { LightsAreTold chassis_playing }
    ensures fibre { LightsAreTold fibre_playing }
    ensures chassis_trace { TraceIsTold chassis_playing }
    ensures fibre_trace { TraceIsTold fibre_playing }
{}
