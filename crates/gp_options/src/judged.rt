//! What an audit, a picture and a dump have of their options in common.
ghost use Rattle.std.specs.Prelude.{◌≡◌, ◌≤◌, ◌<◌, Ok, Err, MatchResult};
ghost use Rattle.gp_audit.specs.Delays.{equalized_delays as spec_delays};
ghost use Rattle.gp_audit.specs.Texts.{given};
ghost use Rattle.gp_options.specs.Options.{drift_of, first_frame, last_frame};
ghost use Rattle.gp_options.specs.declared.bad_option.BadOption.TheVariants as bad;

use crate::bad_option::BadOption;
use gp_audit::{PORTS, equalized_delays};

/// How far a unit's delay may be off where that is left out, in bit times.
const DRIFT: u32 = 8;

/// Gives the equalized delay of each port, in bit times.
pub(crate) fn delays_of<'t>(told: Option<&[&'t str]>) -> Result<[u32; PORTS], BadOption<'t>>
    ensures { MatchResult result
        (λ delays. spec_delays (given told.entry) ≡ Ok delays)
        (λ fault. (text : _) × (fault ≡ bad.Delay text) × (spec_delays (given told.entry) ≡ Err text.now)) }
{
    match equalized_delays(told) {
        Ok(delays) => Ok(delays),
        Err(text) => Err(BadOption::Delay(text)),
    }
}

/// Gives how far a delay may be off, in bit times.
pub(crate) fn drift_of(drift: Option<u64>) -> u32
    ensures { result ≡ drift_of drift }
{
    match drift {
        Some(drift) => drift.min(u64::from(u32::MAX)) as u32,
        None => DRIFT,
    }
}

/// Gives the first and the last frame of a log that are looked at, all where neither is given, unless they end before
/// they begin.
pub(crate) fn frames_of<'t>(from: Option<u64>, to: Option<u64>) -> Result<(u64, u64), BadOption<'t>>
    ensures { MatchResult result
        (λ frames. (frames.0 ≡ first_frame from) × (frames.1 ≡ last_frame to) × (frames.0 ≤ frames.1))
        (λ fault. (fault ≡ bad.Frames (first_frame from) (last_frame to)) × (last_frame to < first_frame from)) }
{
    let first = from.unwrap_or(0);
    let last = to.unwrap_or(u64::MAX);
    if first > last {
        return Err(BadOption::Frames {
            from: first,
            to: last,
        });
    }
    Ok((first, last))
}
