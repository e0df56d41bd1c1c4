//! Laws of reading: a line is read in one way, as a line of a log or of a trace and never both, and what is written
//! here and by `gp_trace` is read back.
ghost use Rattle.std.specs.Prelude.{ℕ, ◌≡◌, ◌*◌, ◌<◌, ◌≤◌, ◌^◌, ◌++◌, All, List, Result, Ok, Err, codes};
ghost use Rattle.gp_ploam.specs.declared.check.Mask.{Mask as AnyMask};
ghost use Rattle.gp_machine.specs.declared.entry.Receipt.{Receipt as AnyReceipt};
ghost use Rattle.gp_trace.specs.Text as trace;
ghost use Rattle.gp_lines.specs.Short.{IsShortAnswer};
ghost use Rattle.gp_lines.specs.Told.{IsTold};
ghost use Rattle.gp_log.specs.declared.fault.LogFault.{LogFault as AnyFault};
ghost use Rattle.gp_log.specs.declared.line.LogLine.{LogLine as AnyLine};
ghost use Rattle.gp_log.specs.declared.line.LogLine.TheVariants as lines;
ghost use Rattle.gp_log.specs.declared.said.Said.{Said as AnySaid};
ghost use Rattle.gp_log.specs.Line.{IsTraceLine, Reads};
ghost use Rattle.gp_log.specs.Log.{entry_in};
ghost use Rattle.gp_log.specs.declared.fault.LogFault.TheVariants as faults;
ghost use Rattle.gp_log.specs.Text.{CanBeSaid, CanBeWritten, IsDelay, IsOctetGrant, entry_text};
ghost use Rattle.gp_log.specs.Time.{frame_time};
ghost use Rattle.gp_log.specs.Told.{Answers, entry_says};
ghost use Rattle.gp_lines.specs.Spelling.{last_port};

use crate::said::Said;
use crate::time::LAST_FRAME;
use gp_ranging::Grant;

/// States that a line is read in one way.
pub fn one_reading()
    ensures { (line : List ℕ) (first second : Result AnyLine AnyFault)
        → Reads line first → Reads line second → first ≡ second }
{}

/// States that no line is one of a log and one of a trace: as one of a log, a line of a trace has the fault `Word`.
pub fn lines_are_of_one_kind()
    ensures { (text : List ℕ) → IsTraceLine text → entry_in text ≡ Err faults.Word }
{}

/// States that each line of a log that can be written is read back as it was written.
pub fn log_lines_are_read()
    ensures { (port frames : ℕ) (said : AnySaid) → CanBeWritten port frames said
        → Reads (entry_text port frames said) (Ok (lines.Log port (frames * frame_time) said)) }
{}

/// States that the line that a trace has of an entry is read, without its line feed, as what the entry says on the
/// fibre.
pub fn traced_lines_are_told()
    ensures { (mask : AnyMask) (receipt : AnyReceipt)
        → receipt.port ≤ last_port
        → receipt.number < 2 ^ 64
        → IsTold receipt.entry.event
        → IsShortAnswer receipt.entry.answer
        → Answers mask receipt.entry.event receipt.entry.answer
        → (text : List ℕ) × (trace.line_of mask receipt ≡ text ++ codes "\n")
        × Reads text (Ok (entry_says mask receipt.port receipt.entry.event receipt.entry.answer)) }
{}

/// States that an entry can be written and read back if its port and its frames are in their ranges: what was said has
/// the fields that its type holds. The port is 0 to `gp_lines::LAST_PORT`, and the frames are 0 to `LAST_FRAME`.
pub fn entry_can_be_written(port: u8, frames: u64, said: &Said)
    requires near { port ≤ last_port }
    requires fits { frames ≤ LAST_FRAME }
    ensures { CanBeWritten port frames said.now }
{
    can_be_said(said);
}

/// States it of what was said.
fn can_be_said(said: &Said)
    ensures { CanBeSaid said.now }
{
    match said {
        Said::Down(code) => are_octets(code),
        Said::Up { code, delay } => {
            are_octets(code);
            is_delay(*delay);
        }
        Said::Grant(grant) => is_octet_grant(*grant),
    }
}

/// States it of a delay.
fn is_delay(delay: Option<u32>)
    ensures { IsDelay delay }
{
    if let Some(delay) = delay {
        is_of_32_bits(delay);
    }
}

/// States it of a grant.
fn is_octet_grant(grant: Grant)
    ensures { IsOctetGrant grant }
{
    match grant {
        Grant::Search => {}
        Grant::Range(onu) | Grant::Poll(onu) => is_octet(onu),
    }
}

/// States that these are octets.
fn are_octets(octets: &[u8])
    ensures { All (λ octet. octet < 256) octets.now }
{}

/// States that this is an octet.
fn is_octet(octet: u8)
    ensures { octet < 256 }
{}

/// States that 32 bits hold a number.
fn is_of_32_bits(number: u32)
    ensures { number < 4294967296 }
{}
