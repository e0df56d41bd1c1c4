//! Laws of single steps that the code of a port rests on: what is determined, soundness, licences, the order of copies,
//! free numbers, refusals. Those of runs stand in `gp_laws`.
ghost use Rattle.gp_machine.specs.OneStep.{RefusalsChangeNothing, FindsUnitWith, TellsFreeOnu, TellsFreeAlloc, HearsOneThing, IsDetermined, KeepsLicences, KeepsSound, SendsInOrder};

use gp_ploam::up_read_once;

/// States that, given the purse, the state, the event and the reply, all else is determined, and that a burst
/// is heard in one way.
pub fn one_outcome()
    ensures outcome { IsDetermined }
    ensures hears { HearsOneThing }
{
    up_read_once();
}

/// States that a step from a sound state ends in a sound one.
pub fn sound_step()
    ensures { KeepsSound }
{}

/// States that a step neither makes nor loses a licence.
pub fn step_keeps_licences()
    ensures { KeepsLicences }
{}

/// States that the copy that a step sends, and then those owed after it, are those owed before it and then
/// the messages that the step owes, each three times.
pub fn step_sends_in_order()
    ensures { SendsInOrder }
{}

/// States that a number is refused for want of one exactly where none is free.
pub fn tells_free_numbers()
    ensures onu { TellsFreeOnu }
    ensures alloc { TellsFreeAlloc }
{}

/// States that a step that refuses sends, grants and raises nothing, hands every licence back, and changes
/// nothing but that an open window has seen the burst.
pub fn refusals_change_nothing()
    ensures { RefusalsChangeNothing }
{}

/// States that the unit that a window asks is the active one with its ONU-ID.
pub fn finds_unit_with()
    ensures { FindsUnitWith }
{}
