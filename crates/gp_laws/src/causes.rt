//! Laws of refusals: of the causes the first that holds refuses, and nothing else does; when a unit that asks for an
//! ONU-ID gets one.
ghost use Rattle.gp_laws.specs.Causes.{HasFirstCauseOrNone, RefusesForFirstCause, RefusesForNoOtherReason, RefusesForWantOfOnuId, RefusesForWantOfLicence, FindsWhoAsks};

use gp_machine::one_outcome;

/// States that of a list of causes the first that holds refuses, and that nothing is refused where none
/// holds.
pub fn first_cause_refuses()
    ensures some { HasFirstCauseOrNone }
    ensures first { RefusesForFirstCause }
    ensures only { RefusesForNoOtherReason }
{}

/// States where a unit that asks for an ONU-ID is refused for want of one, or of a licence, and that no step
/// is refused so elsewhere.
pub fn refuses_for_want()
    ensures onu { RefusesForWantOfOnuId }
    ensures licence { RefusesForWantOfLicence }
{
    one_outcome();
}

/// States that a unit that asks for an ONU-ID gets one, where nothing is wanting.
pub fn finds_who_asks()
    ensures { FindsWhoAsks }
{
    one_outcome();
}
