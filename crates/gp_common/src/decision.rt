//! What a port does in a frame in which no window is open and nothing is owed (this profile's own rule): the decision
//! table as code.
ghost use Rattle.std.specs.Prelude.{◌≡◌};
ghost use Rattle.gp_common.specs.Decision.{decision_of, measurement_of, standby_decision_of};

use super::common::Common;
use gp_ranging::Grant;

/// What a port does in a frame in which no window is open and nothing is owed.
#[derive(Clone, Copy, Debug, PartialEq, Eq)]
pub enum Decision {
    /// Nothing.
    Nothing,
    /// It sends Upstream_Overhead, which begins an acquisition.
    Overhead,
    /// It opens a window and grants it.
    Ask(Grant),
}

/// Decides what a port in the common state `common` does next, and its common state then. `wanted`: an
/// acquisition is wanted. `ranging`: the least ONU-ID of a ranging unit. `next_poll`: the ONU-ID of
/// the operating unit whose turn it is. `cycles`: how many search windows an acquisition opens.
pub fn decide(
    common: Common,
    wanted: bool,
    ranging: Option<u8>,
    next_poll: Option<u8>,
    cycles: u8,
) -> (Common, Decision)
    ensures { result ≡ decision_of common wanted ranging next_poll cycles }
{
    match common {
        Common::Standby if wanted => (Common::Acquisition(cycles), Decision::Overhead),
        Common::Standby => stand_by(ranging, next_poll),
        Common::Acquisition(left) if left > 0 => {
            (Common::Acquisition(left - 1), Decision::Ask(Grant::Search))
        }
        Common::Acquisition(_) | Common::Measuring => measure(ranging),
    }
}

/// Decides in standby: a ranging unit comes first, and else the operating unit whose turn it is.
fn stand_by(ranging: Option<u8>, next_poll: Option<u8>) -> (Common, Decision)
    ensures { result ≡ standby_decision_of ranging next_poll }
{
    match (ranging, next_poll) {
        (None, Some(onu)) => (Common::Standby, Decision::Ask(Grant::Poll(onu))),
        (ranging, _) => measure(ranging),
    }
}

/// Asks a ranging unit for its round-trip delay. With none left the port stands by.
fn measure(ranging: Option<u8>) -> (Common, Decision)
    ensures { result ≡ measurement_of ranging }
{
    match ranging {
        Some(onu) => (Common::Measuring, Decision::Ask(Grant::Range(onu))),
        None => (Common::Standby, Decision::Nothing),
    }
}
