//! Laws of whole runs: they may be cut and joined, keep soundness, licences and the configuration, and are determined
//! by their entries, or by their replies.
ghost use Rattle.gp_laws.specs.Runs.{RunsInParts, RunsEndAlike, RepliesTellRuns, EveryStateIsSound, KeepsConfiguration, RunsKeepLicences};

use gp_machine::one_outcome;

/// States that a run may be cut anywhere, and that runs may be joined.
pub fn runs_in_parts()
    ensures { RunsInParts }
{}

/// States that every state of every run from an opening is sound.
pub fn every_state_is_sound()
    ensures { EveryStateIsSound }
{}

/// States that the licences handed in along a run, and those of the units at its start, are as many as those
/// handed back and those of the units at its end.
pub fn runs_keep_licences()
    ensures { RunsKeepLicences }
{}

/// States that the configuration of a port never changes.
pub fn keeps_configuration()
    ensures { KeepsConfiguration }
{}

/// States that two runs of the same entries from one state end in one state, and that the licences handed
/// in, the events and the replies are enough to tell all else of a run.
pub fn runs_end_alike()
    ensures entries { RunsEndAlike }
    ensures replies { RepliesTellRuns }
{
    one_outcome();
}
