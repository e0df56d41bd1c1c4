//! A mistake while its table is at hand, and its way out of the walk.
ghost use Rattle.std.specs.Prelude.{◌≡◌};
ghost use Rattle.gp_script.specs.Fault.{IsOwned};
ghost use Rattle.gp_script.specs.declared.walk.WalkError.TheVariants.{OutOfMemory as memory};

use crate::mistake::{Mistake, PlacedError, TableMistake};
use crate::place::{Key, Spot, TablePlace, Wanted};
use std::alloc::{AllocError, Global};

/// What is wrong in a table that is at hand.
#[derive(Clone, Copy)]
pub(crate) enum TableFault<'a> {
    /// A key that the table may not have.
    UnknownKey(&'a str),
    /// Something is wanted at a spot.
    Unmet(Spot, Wanted),
}

/// Why the walk over tables that are at hand ended.
#[derive(Clone, Copy)]
pub(crate) enum WalkError<'a> {
    /// Out of memory.
    OutOfMemory,
    /// One of the tables is wrong.
    Inside(TablePlace, TableFault<'a>),
}

impl From<AllocError> for WalkError<'_> {
    ghost from_gives = { λ _ error. error ≡ memory };

    fn from(_error: AllocError) -> Self {
        WalkError::OutOfMemory
    }
}

/// Tells that something is wanted at a key.
pub(crate) fn wanted_at<'a>(key: Key, want: Wanted) -> TableFault<'a>
    ensures { result ≡ TableFault.Unmet (Spot.Key key) want }
{
    TableFault::Unmet(Spot::Key(key), want)
}

/// Tells that an item of a list of the top is no table.
pub(crate) fn no_table<'a>(key: Key, place: usize) -> WalkError<'a>
    ensures { result ≡ WalkError.Inside TablePlace.Top (TableFault.Unmet (Spot.Item key place) Wanted.Table) }
{
    let fault = TableFault::Unmet(Spot::Item(key, place), Wanted::Table);
    WalkError::Inside(TablePlace::Top, fault)
}

/// Owns the mistake, behind whose table it may then stay.
pub(crate) fn owned(alloc: Global, error: WalkError<'_>) -> PlacedError
    ensures { IsOwned error.entry result }
{
    let (place, fault) = match error {
        WalkError::OutOfMemory => return PlacedError::OutOfMemory,
        WalkError::Inside(place, fault) => (place, fault),
    };
    match fault {
        TableFault::Unmet(spot, want) => {
            PlacedError::Wrong(Mistake::Inside(place, TableMistake::Unmet(spot, want)))
        }
        TableFault::UnknownKey(name) => match String::from_str(alloc, name) {
            Ok(name) => PlacedError::Wrong(Mistake::Inside(place, TableMistake::UnknownKey(name))),
            Err(AllocError) => PlacedError::OutOfMemory,
        },
    }
}
