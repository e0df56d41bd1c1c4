//! The laws that each event of a generated script is within its ranges, and that such an event is read as what is
//! meant.
ghost use Rattle.std.specs.Prelude.{◌≡◌, ℕ, Ok};
ghost use Rattle.gp_ploam.specs.declared.check.Mask.{Mask as AnyMask};
ghost use Rattle.gp_script.specs.Event.{event_of};
ghost use Rattle.gp_generate.specs.declared.event.Event.{Event as AnyEvent};
ghost use Rattle.gp_generate.specs.declared.plan.Wish.{Wish as AnyWish};
ghost use Rattle.gp_generate.specs.Events.{event_fields};
ghost use Rattle.gp_generate.specs.Plan.{IsPlan, mask_of};
ghost use Rattle.gp_generate.specs.Script.{event_at};
ghost use Rattle.gp_generated.specs.Meant.{IsWithin, meant_by, members_of};

use gp_generate::{ORDERS, SAYINGS, SCENES};

/// States that the table of an event whose numbers are within their ranges is read as what is meant.
pub fn events_are_read()
    ensures { (ports units : ℕ) (mask : AnyMask) (event : AnyEvent) → IsWithin ports units event
        → event_of ports units mask (members_of (event_fields event)) ≡ Ok (meant_by mask event) }
{}

/// States that each event of a generated script is within its ranges, and so its table is read as what is meant.
pub fn generated_events_are_read()
    ensures within { (plan : AnyWish) (number : ℕ) → IsPlan plan
        → IsWithin plan.ports plan.units (event_at SCENES SAYINGS ORDERS plan number) }
    ensures read { (plan : AnyWish) (number : ℕ) → IsPlan plan
        → event_of plan.ports plan.units (mask_of plan)
        (members_of (event_fields (event_at SCENES SAYINGS ORDERS plan number)))
        ≡ Ok (meant_by (mask_of plan) (event_at SCENES SAYINGS ORDERS plan number)) }
{}
