//! The first octet that differs.
ghost use Rattle.std.specs.Prelude.{◌≡◌, [], IfErr, IfOk, OnOk};
ghost use Rattle.gp_compare.specs.Ahead.{IsOver, StopsBy};
ghost use Rattle.gp_compare.specs.Reading.{ShowsHere, ShowsRest};
ghost use Rattle.gp_compare.specs.Shown.{end_behind, shown_at, shown_view};

use crate::ahead::Ahead;
use crate::fault::CompareFault;
use crate::place::Place;
use crate::shown::{LineEnd, MAX_SHOWN, ShownLine};
use std::alloc::{AllocError, Global};
use std::io::Read;

/// Where a text is the first time not as expected, and the line on both sides.
#[derive(Debug, Drop)]
pub struct Difference {
    /// The line, from 1.
    pub line: u64,
    /// The octet of the line, from 1.
    pub octet: u64,
    /// The line as it is expected.
    pub expected: ShownLine,
    /// The line as it is.
    pub got: ShownLine,
}

/// What stands behind what is shown of a line of which so many octets were passed.
fn end_behind(octets: u64) -> LineEnd
    ensures { result ≡ end_behind octets }
{
    if octets > MAX_SHOWN as u64 {
        LineEnd::More
    } else {
        LineEnd::Text
    }
}

/// Shows what was passed of the open line of a place.
fn shown_at(alloc: Global, place: &Place) -> Result<ShownLine, AllocError>
    ensures { IfOk result (λ line. shown_view line ≡ shown_at place.now) }
{
    let octets = Vec::from_slice(alloc, place.shown())?;
    let end = end_behind(place.octets());
    Ok(ShownLine { octets, end })
}

/// Reads what is expected, to the end of the line or as far as it is shown.
fn take_expected<R: Read>(line: &mut ShownLine, ahead: &mut Ahead<R>) -> Result<(), CompareFault>
    requires { ahead.old.rest ≡ [] → IsOver ahead.old }
    ensures shows { OnOk result (ShowsRest ahead.old ahead.new (shown_view line.old) (shown_view line.new)) }
    ensures err { IfErr result (StopsBy ahead.new) }
{
    'reads: while !ahead.rest().is_empty() {
        if line.is_whole() {
            return Ok(());
        }
        let rest = ahead.rest();
        let count = rest.len();
        line.take(rest)?;
        ahead.pass(count);
        ahead.fill()?;
    }
    Ok(())
}

/// Gives the difference at this place, where these octets come. Fails where a read fails, or memory is refused.
pub(crate) fn difference_at<R: Read>(
    alloc: Global,
    place: &Place,
    ahead: &mut Ahead<R>,
    came: &[u8],
) -> Result<Difference, CompareFault>
    requires { ahead.old.rest ≡ [] → IsOver ahead.old }
    ensures shows { IfOk result (ShowsHere place.now ahead.old ahead.new came.now) }
    ensures err { IfErr result (StopsBy ahead.new) }
{
    let mut expected = shown_at(alloc, place)?;
    let mut got = shown_at(alloc, place)?;
    got.take(came)?;
    take_expected(&mut expected, ahead)?;
    Ok(Difference {
        line: place.line(),
        octet: place.octet(),
        expected,
        got,
    })
}
