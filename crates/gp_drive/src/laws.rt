//! The law that what a whole drive writes is a run of each port, over the script's events and those that lines ask for.
ghost use Rattle.gp_drive.specs.Runs.{ChassisDrivesRun, FibreDrivesRun};

use gp_replay::each_port_runs;

/// States that what a whole drive writes is the text of a run of each port over the script's events and those that its
/// lines ask for, with the error lines between: on a chassis, and on a fibre.
pub fn drives_are_runs()
    ensures chassis { ChassisDrivesRun }
    ensures fibre { FibreDrivesRun }
{
    each_port_runs();
}
