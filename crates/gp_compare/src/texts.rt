//! A text is compared with what is expected.
ghost use Rattle.std.specs.Prelude.{◌≡◌, IfErr, IfOk, false};
ghost use Rattle.gp_compare.specs.Comparer.{Refuses};
ghost use Rattle.gp_compare.specs.Fault.{HasFailed};
ghost use Rattle.gp_compare.specs.Texts.{ComparesText, HandsIn};

use crate::comparer::Comparer;
use crate::difference::Difference;
use crate::expects::Expects;
use crate::fault::CompareError;
use gp_stream::Source;
use std::alloc::Global;
use std::io::Read;
use std::marker::Brand;

/// Hands a text in, and tells whether all of it was taken.
#[tactic(auto, using(crate::proofs::TextLemmas::handed_more, crate::proofs::TextLemmas::handed_part, crate::proofs::TextLemmas::handed_all))]
fn hand_in<E: Expects, R: Read>(comparer: &mut Comparer<E, R>, text: &[u8]) -> bool
    ensures hands { HandsIn comparer.old.taken comparer.new.taken text.now result }
    ensures refuses { result ≡ false → Refuses comparer.new }
{
    let mut at = 0;
    'writes: while at < text.len() {
        match comparer.accept(&text[at..]) {
            Some(count) => at += count,
            None => return false,
        }
    }
    true
}

/// Does what `compare_text` does, by an expectation that the caller picks.
#[tactic(auto, using(crate::proofs::TextLemmas::text_ended, crate::proofs::TextLemmas::text_stopped))]
fn compare_by<E: Expects, R: Read + Drop>(
    alloc: Global,
    text: &[u8],
    expected: Source<R>,
) -> Result<Option<Difference>, CompareError<R>>
    requires { expected.remaining ≡ E.expected }
    ensures compares { IfOk result (ComparesText E.expected text.now) }
    ensures err { IfErr result HasFailed }
{
    let mut comparer = Comparer::<E, R>::new(alloc, expected)?;
    if hand_in(&mut comparer, text) {
        return comparer.end();
    }
    comparer.stop()
}

/// Compares a text with what a source gives, and tells where it is the first time not as expected, if it isn't: if it
/// is, all that the source gives was read. Fails where that is not known.
pub fn compare_text<R: Read + Drop>(
    alloc: Global,
    text: &[u8],
    expected: Source<R>,
) -> Result<Option<Difference>, CompareError<R>>
    ensures compares { IfOk result (ComparesText expected.remaining text.now) }
    ensures err { IfErr result HasFailed }
{
    compare_by::<Brand, R>(alloc, text, expected)
}
