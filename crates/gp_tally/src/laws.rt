//! Laws of counting: the line that a trace has of an entry tells the entry, so what is counted of a trace is what is
//! counted of its entries.
ghost use Rattle.std.specs.Prelude.{◌≡◌, ◌<◌, ◌≤◌, ◌^◌, ◌↔◌, ◌++◌, ℕ, All, IfSome, List, codes};
ghost use Rattle.gp_ploam.specs.declared.check.Mask.{Mask as AnyMask};
ghost use Rattle.gp_machine.specs.declared.entry.Receipt.{Receipt as AnyReceipt};
ghost use Rattle.gp_trace.specs.Text.{line_of, trace_text};
ghost use Rattle.gp_lines.specs.Spelling.{last_port};
ghost use Rattle.gp_lines.specs.Told.{AreOctets, HasSmallAlloc, HasSmallAllocCommand, IsTold, IsToldCommand};
ghost use Rattle.gp_tally.specs.declared.told.Told.{Told as AnyTold};
ghost use Rattle.gp_tally.specs.Entries.{AreCountsOf, IsWithinLimits, TellsEntry, found_of};
ghost use Rattle.gp_tally.specs.Tally.{PortTally as AnyTally};
ghost use Rattle.gp_tally.specs.Text.{AreTallies};
ghost use Rattle.gp_tally.specs.Told.{TellsLine};

use gp_alarms::Alarm;
use gp_machine::{Command, Event, Receipt, Reply};
use gp_ploam::Serial;

/// States that the line that a trace has of an entry, without its line feed, is one of the entry's port and tells what
/// the entry tells, and nothing else.
pub fn lines_tell_entries()
    ensures { (mask : AnyMask) (receipt : AnyReceipt) (text : List ℕ)
        → IsWithinLimits receipt
        → line_of mask receipt ≡ text ++ codes "\n"
        → (port : ℕ) (told : AnyTold)
        → TellsLine mask text port told ↔ ((port ≡ receipt.port) × TellsEntry mask receipt.entry told) }
{}

/// States that what is counted of the lines of a trace is what is counted of its entries.
pub fn traces_count_entries()
    ensures { (mask : AnyMask) (receipts : List AnyReceipt) (ports : List AnyTally)
        → All IsWithinLimits receipts
        → AreTallies mask (trace_text mask receipts) ports
        → AreCountsOf mask receipts ports }
{}

/// States that an entry is within its limits if its port and the Alloc-ID that it names are: a port is 0 to
/// `gp_lines::LAST_PORT`, and an Alloc-ID is 0 to 4095. All else is what its types hold.
pub fn entry_is_within_limits(receipt: &Receipt)
    requires near { receipt.now.port ≤ last_port }
    requires alloc { HasSmallAlloc receipt.now.entry.event }
    ensures { IsWithinLimits receipt.now }
{
    is_of_64_bits(receipt.number);
    event_is_told(&receipt.entry.event);
    found_is_small(&receipt.entry.answer.reply);
    alarm_is_octets(&receipt.entry.answer.alarm);
}

/// States that 64 bits hold a number.
fn is_of_64_bits(number: u64)
    ensures { number < 2 ^ 64 }
{}

/// States that these are octets.
fn are_octets(octets: &[u8])
    ensures { All (λ octet. octet < 256) octets.now }
{}

/// States that a serial number is eight octets.
fn serial_is_octets(serial: &Serial)
    ensures { AreOctets 8 serial.now.0 }
{
    are_octets(&serial.0);
}

/// States that a command is one that a line tells.
fn command_is_told(command: &Command)
    requires { HasSmallAllocCommand command.now }
    ensures { IsToldCommand command.now }
{
    match command {
        Command::Alloc(serial)
        | Command::Dealloc { serial, .. }
        | Command::Deactivate(serial)
        | Command::Disable(serial)
        | Command::Enable(serial)
        | Command::Popup(serial)
        | Command::Show(serial) => serial_is_octets(serial),
        Command::Search | Command::EnableAll | Command::PopupAll => {}
    }
}

/// States that these are the octets of a code.
fn code_is_octets(octets: &[u8; 13])
    ensures { AreOctets 13 octets.now }
{
    are_octets(octets);
}

/// States that 32 bits hold a number.
fn is_of_32_bits(number: u32)
    ensures { number < 2 ^ 32 }
{}

/// States that an event is one that a line tells.
fn event_is_told(event: &Event)
    requires { HasSmallAlloc event.now }
    ensures { IsTold event.now }
{
    match event {
        Event::Frame => {}
        Event::Burst { at, bytes } => {
            is_of_32_bits(*at);
            code_is_octets(bytes);
        }
        Event::Command(command) => command_is_told(command),
    }
}

/// States that 16 bits hold a number.
fn is_of_16_bits(number: u16)
    ensures { number < 2 ^ 16 }
{}

/// States that the ONU-ID of a unit that was found has 16 bits.
fn found_is_small(reply: &Reply)
    ensures { IfSome (found_of reply.now) (λ onu. onu < 2 ^ 16) }
{
    if let Reply::Found(onu) = reply {
        is_of_16_bits(u16::from(*onu));
    }
}

/// States that the serial number of an alarm is eight octets.
fn alarm_is_octets(alarm: &Option<Alarm>)
    ensures { IfSome alarm.now (λ alarm. AreOctets 8 alarm.serial.0) }
{
    if let Some(alarm) = alarm {
        serial_is_octets(&alarm.serial);
    }
}
