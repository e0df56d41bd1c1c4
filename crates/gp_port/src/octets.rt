//! Octets of any length as the event of a burst: thirteen of them, or the fault `Length`. The check octet is left to
//! the port.
ghost use Rattle.std.specs.Prelude.{◌≡◌, ◌≢◌, ◌↔◌, IfOk, IsErrOf, length};
ghost use Rattle.gp_machine.specs.declared.event.Event.TheVariants as event;

use gp_machine::Event;
use gp_ploam::PloamFault;

/// Makes the event of a burst of these octets, which arrives after this whole round-trip delay in bit times. `Length`
/// where there are not thirteen octets, and no other fault: a wrong check octet is heard by the port, as Garbled. It
/// takes no memory.
pub fn burst_of(at: u32, bytes: &[u8]) -> Result<Event, PloamFault>
    ensures burst { IfOk result (λ made. made ≡ event.Burst at bytes.now) }
    ensures length { IsErrOf result PloamFault.Length ↔ (length bytes.now ≢ 13) }
    ensures never_crc { IsErrOf result PloamFault.Crc → ⊥ }
{
    let Some((octets, [])) = bytes.split_first_chunk::<13>() else {
        return Err(PloamFault::Length);
    };
    Ok(Event::Burst { at, bytes: *octets })
}
