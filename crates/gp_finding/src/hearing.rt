//! What is heard where something is said.
ghost use Rattle.std.specs.Prelude.{◌≡◌};
ghost use Rattle.std.specs.Option.{ForSome};
ghost use Rattle.gp_ploam.specs.Down.{IsFittingDown};
ghost use Rattle.gp_ploam.specs.Mask.{mask_value};
ghost use Rattle.gp_machine.specs.Step.{Hears};
ghost use Rattle.gp_observer.specs.Fibre.{HearsDown};
ghost use Rattle.gp_watch.specs.Heard.{IsFitting, heard_of};
ghost use Rattle.gp_finding.specs.Hearing as spec;

use gp_log::Said;
use gp_ploam::{Down, Mask, Up, decode_down, decode_up};
use gp_watch::Heard;

/// Reads the code of a message of the line terminal; None where its check octet is wrong.
fn down_in(mask: Mask, code: &[u8; 13]) -> Option<Down>
    ensures message { result ≡ spec.down_in mask code.now }
    ensures reads { HearsDown (mask_value mask) code.now result }
    ensures fitting { ForSome result IsFittingDown }
{
    match decode_down(code, mask) {
        Ok(message) => Some(message),
        Err(_) => None,
    }
}

/// Reads the code of a message of a unit; None where its check octet is wrong.
fn up_in(mask: Mask, code: &[u8; 13]) -> Option<Up>
    ensures message { result ≡ spec.up_in mask code.now }
    ensures reads { Hears (mask_value mask) code.now result }
{
    match decode_up(code, mask) {
        Ok(message) => Some(message),
        Err(_) => None,
    }
}

/// Gives what is heard where this is said: codes are read under the mask, and None stands for one whose check octet is
/// wrong.
#[tactic(auto, unfolding(crate::specs::Hearing::heard_in))]
pub fn heard_in(mask: Mask, said: &Said) -> Heard
    ensures heard { heard_of result ≡ spec.heard_in mask said.now }
    ensures reads { spec.IsHeard mask said.now (heard_of result) }
    ensures fitting { IsFitting result }
{
    match said {
        Said::Down(code) => Heard::Down(down_in(mask, code)),
        Said::Up { code, delay } => Heard::Up {
            message: up_in(mask, code),
            delay: *delay,
        },
        Said::Grant(grant) => Heard::Grant(*grant),
    }
}
