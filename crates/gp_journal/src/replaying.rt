//! Whether a journal tells how a port came to stand where it stands: each of its entries is followed from its base on.
ghost use Rattle.std.specs.Prelude.{◌≡◌, ◌↔◌, false, true, IfOk, IfSome, IfNone, IsTrue};
ghost use Rattle.gp_machine.specs.Config.{is_within_limits};
ghost use Rattle.gp_machine.specs.State.{PortState};
ghost use Rattle.gp_machine.specs.Run.{Run};
ghost use Rattle.gp_journal.specs.Replays.{LeadsTo, Replays, start_of};

use super::fault::JournalFault;
use super::journal::Journal;
use gp_machine::{Entry, PortConfig, compares_configs};
use gp_port::{OpenFault, PortCore, PortFollower};
use std::alloc::Global;
use std::sync::ledger::Ledger;

/// Tells whether the journal is that of a port with this configuration that stands as `core` does: the configuration
/// is within its limits, and the entries that are kept are steps of the machine from the journal's base to this
/// state, with the numbers that they name and whatever licences they tell of. Memory is taken for a port that follows
/// them.
pub fn replays<L: Ledger>(
    alloc: Global,
    config: &PortConfig,
    journal: &Journal,
    core: &PortCore<L>,
) -> Result<bool, JournalFault>
    ensures { IfOk result (λ tells. IsTrue tells ↔ Replays config.now journal.now.base journal.now.entries core.now) }
{
    match begin_follower(alloc, config, journal) {
        Err(fault) => Err(fault),
        Ok(None) => Ok(false),
        Ok(Some(mut follower)) => {
            let tells = follow_all(&mut follower, journal.entries()) && follower.stands_as(core);
            follower.close();
            Ok(tells)
        }
    }
}

/// Begins to follow where the journal begins, or gives `None` where no port of this configuration stood so.
fn begin_follower(
    alloc: Global,
    config: &PortConfig,
    journal: &Journal,
) -> Result<Option<PortFollower>, JournalFault>
    ensures some { IfOk result
        (λ begun. IfSome begun
        (λ follower. (is_within_limits config.now ≡ true) × (follower ≡ start_of config.now journal.now.base)
        × (follower.config ≡ config.now))) }
    ensures none { IfOk result
        (λ begun. IfNone begun
        (is_within_limits config.now ≡ true → (start_of config.now journal.now.base).config ≡ config.now → ⊥)) }
{
    compares_configs();
    match journal.base() {
        None => match PortFollower::begin(alloc, config) {
            Ok(follower) => Ok(Some(follower)),
            Err(OpenFault::Limit) => Ok(None),
            Err(OpenFault::OutOfMemory) => Err(JournalFault::OutOfMemory),
        },
        Some(base) => {
            if !config.is_within_limits() || *base.config() != *config {
                return Ok(None);
            }
            match PortFollower::resume(alloc, base) {
                Ok(follower) => Ok(Some(follower)),
                Err(_) => Err(JournalFault::OutOfMemory),
            }
        }
    }
}

/// Makes the steps that the entries tell of, and tells whether there are such steps.
fn follow_all(follower: &mut PortFollower, entries: &[Entry]) -> bool
    ensures followed { IsTrue result → LeadsTo follower.old entries.now follower.new }
    ensures refused { (last : PortState) → result ≡ false → Run follower.old entries.now last → ⊥ }
{
    for entry in entries {
        if !follower.follow(entry) {
            return false;
        }
    }
    true
}
