//! Laws of single steps: each event has one, and any free number may be handed out.
ghost use Rattle.gp_laws.specs.Steps.{MayPickAnyFree, MayPickAnyFreeAlloc, EveryEventHasStep};

/// States that an ONU-ID or an Alloc-ID that a step hands out was free, and that the step could have handed
/// out any other free one.
pub fn may_pick_any_free()
    ensures onu { MayPickAnyFree }
    ensures alloc { MayPickAnyFreeAlloc }
{}

/// States that each event has a step, in every sound state.
pub fn every_event_has_step()
    ensures { EveryEventHasStep }
{}
