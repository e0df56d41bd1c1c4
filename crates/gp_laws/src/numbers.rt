//! Laws of numbers: no two active units share an ONU-ID or an Alloc-ID, and a disabled serial number holds none.
ghost use Rattle.gp_laws.specs.Numbers.{NoSharedOnuId, NoSharedAllocId, DisabledHoldsNoOnuId, DisabledHoldsNoAllocId};

/// States that no two active units hold one ONU-ID or one Alloc-ID, default ones included, in every state
/// that a run from an opening reaches.
pub fn no_shared_numbers()
    ensures onu { NoSharedOnuId }
    ensures alloc { NoSharedAllocId }
{}

/// States that a disabled serial number holds no ONU-ID and no Alloc-ID, in every state that a run from an
/// opening reaches.
pub fn disabled_hold_none()
    ensures onu { DisabledHoldsNoOnuId }
    ensures alloc { DisabledHoldsNoAllocId }
{}
