//! How the reason why a rule is broken reads.
ghost use Rattle.std.specs.Prelude.{◌≡◌};
ghost use Rattle.gp_decode.specs.Appending.{Appends};
ghost use Rattle.gp_decode.specs.Lines.{mask_text};
ghost use Rattle.gp_finding.specs.Reason as spec;

use crate::piece::{Piece, push_pieces};
use crate::why::Why;
use gp_ploam::Mask;
use std::alloc::AllocError;

/// Gives a mask in decimal.
fn mask_text(mask: Mask) -> &'static str
    ensures { result.now ≡ mask_text mask }
{
    match mask {
        Mask::Plain => "0",
        Mask::Coset => "85",
    }
}

/// Appends that so many copies are missing.
fn push_missing(out: &mut Vec<u8>, count: u8) -> Result<(), AllocError>
    ensures { Appends (spec.missing_text count) out.old out.new result }
{
    if count == 1 {
        return push_pieces(
            out,
            &[Piece::Word("1 copy of the message before is missing")],
        );
    }
    push_pieces(
        out,
        &[
            Piece::Onu(count),
            Piece::Word(" copies of the message before are missing"),
        ],
    )
}

/// Appends a reason.
pub(crate) fn push_reason(out: &mut Vec<u8>, why: Why) -> Result<(), AllocError>
    ensures { Appends (spec.reason_text why) out.old out.new result }
{
    use Piece::{Alloc, Delay, Digits, Onu, Word};
    match why {
        Why::Nothing => push_pieces(out, &[]),
        Why::RightUnder(mask) => push_pieces(
            out,
            &[Word("right under mask "), Word(mask_text(mask))],
        ),
        Why::Wanted(octet) => push_pieces(out, &[Digits(octet), Word(" should stand")]),
        Why::Missing(count) => push_missing(out, count),
        Why::OnuRange => push_pieces(out, &[Word("ONU-IDs are 0 to 253")]),
        Why::AllocRange => push_pieces(out, &[Word("a unit's further Alloc-IDs begin at 256")]),
        Why::Disabled => push_pieces(out, &[Word("it is disabled")]),
        Why::Unasked => push_pieces(out, &[Word("it didn't ask")]),
        Why::Held(onu, serial) => push_pieces(
            out,
            &[Onu(onu), Word(" is of "), Piece::Serial(serial)],
        ),
        Why::Holds(onu) => push_pieces(out, &[Word("it holds "), Onu(onu)]),
        Why::Nobody(onu) => push_pieces(out, &[Word("nobody holds "), Onu(onu)]),
        Why::Unheard(onu) => push_pieces(
            out,
            &[Word("its serial number was not heard with "), Onu(onu)],
        ),
        Why::Unanswered(delay) => push_pieces(
            out,
            &[Word("no answer had a delay of "), Delay(delay)],
        ),
        Why::Equalized(delay) => push_pieces(out, &[Word("the equalized delay is "), Delay(delay)]),
        Why::Unranged => push_pieces(out, &[Word("it has no delay yet")]),
        Why::Owned(alloc, onu) => push_pieces(out, &[Alloc(alloc), Word(" is of "), Onu(onu)]),
        Why::Unowned(alloc) => push_pieces(out, &[Word("nobody has "), Alloc(alloc)]),
        Why::Undelayed(onu) => push_pieces(out, &[Onu(onu), Word(" has no delay yet")]),
        Why::Untold => push_pieces(out, &[Word("none was sent to it")]),
        Why::Ranged(ranged, delay) => push_pieces(
            out,
            &[
                Word("it was ranged with "),
                Delay(ranged),
                Word(", its delay is "),
                Delay(delay),
            ],
        ),
    }
}
