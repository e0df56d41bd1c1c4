//! A step of a comparison: octets that are as expected, or the first that isn't.
ghost use Rattle.std.specs.Prelude.{◌<◌, IfErr, IfOk, length};
ghost use Rattle.gp_compare.specs.Ahead.{StopsBy};
ghost use Rattle.gp_compare.specs.Reading.{EndsAs, IsCommon, Steps, TakesSame};

use crate::ahead::Ahead;
use crate::difference::{Difference, difference_at};
use crate::fault::CompareFault;
use crate::place::Place;
use std::alloc::Global;
use std::io::Read;

/// Counts the octets at the front of two texts that are the same, one by one.
fn count_same(one: &[u8], other: &[u8]) -> usize
    ensures { IsCommon one.now other.now result }
{
    let mut at = 0;
    'octets: while at < one.len() && at < other.len() {
        if one[at] != other[at] {
            return at;
        }
        at += 1;
    }
    at
}

/// Counts the octets at the front of two texts that are the same.
fn common(one: &[u8], other: &[u8]) -> usize
    ensures { IsCommon one.now other.now result }
{
    let count = one.len().min(other.len());
    if one[..count] == other[..count] {
        return count;
    }
    count_same(one, other)
}

/// Takes the octets at the front that are as expected, and gives their number. Fails where a read fails, or memory is
/// refused.
fn take_same<R: Read>(
    ahead: &mut Ahead<R>,
    place: &mut Place,
    octets: &[u8],
) -> Result<usize, CompareFault>
    ensures takes { IfOk result (TakesSame ahead.old ahead.new place.old place.new octets.now) }
    ensures err { IfErr result (StopsBy ahead.new) }
{
    ahead.fill()?;
    let count = common(octets, ahead.rest());
    place.pass(&octets[..count])?;
    ahead.pass(count);
    Ok(count)
}

/// What a step comes to.
pub(crate) enum Step {
    /// So many octets are as expected.
    Same(usize),
    /// The first isn't.
    Other(Difference),
}

/// Makes a step by octets that come. Fails where a read fails, or memory is refused.
pub(crate) fn make_step<R: Read>(
    alloc: Global,
    ahead: &mut Ahead<R>,
    place: &mut Place,
    octets: &[u8],
) -> Result<Step, CompareFault>
    requires { 0 < length octets.now }
    ensures steps { IfOk result (Steps ahead.old ahead.new place.old place.new octets.now) }
    ensures err { IfErr result (StopsBy ahead.new) }
{
    let count = take_same(ahead, place, octets)?;
    if count > 0 {
        return Ok(Step::Same(count));
    }
    let difference = difference_at(alloc, place, ahead, octets)?;
    Ok(Step::Other(difference))
}

/// Tells what else is expected at the end of what comes, if anything is. Fails where a read fails, or memory is
/// refused.
pub(crate) fn make_end<R: Read>(
    alloc: Global,
    ahead: &mut Ahead<R>,
    place: &Place,
) -> Result<Option<Difference>, CompareFault>
    ensures ends { IfOk result (EndsAs ahead.old ahead.new place.now) }
    ensures err { IfErr result (StopsBy ahead.new) }
{
    ahead.fill()?;
    if ahead.rest().is_empty() {
        return Ok(None);
    }
    let difference = difference_at(alloc, place, ahead, &[])?;
    Ok(Some(difference))
}
