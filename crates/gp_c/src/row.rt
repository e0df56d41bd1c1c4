//! What a port knows of a unit, as plain numbers; a place without an Alloc-ID is all zeros.
ghost use Rattle.std.specs.Prelude.{◌≡◌};
ghost use Rattle.gp_c.specs.Rows as spec;

use gp_unit::{Phase, RowView};

/// A further Alloc-ID of a unit, or a place that has none.
#[repr(C)]
#[derive(Clone, Copy, Debug)]
pub struct AllocNumbers {
    /// The Alloc-ID, 0 where there is none.
    pub alloc: u16,
    /// 1 where there is one.
    pub is_there: u8,
    /// 1 where the unit is to give it back.
    pub is_leaving: u8,
}

/// What a port knows of an active unit.
#[repr(C)]
#[derive(Clone, Copy, Debug)]
pub struct RowNumbers {
    /// The equalization delay in bit times, 0 of a ranging unit.
    pub eqd: u32,
    /// The further Alloc-IDs in rising order; places without one come last.
    pub allocs: [AllocNumbers; 8],
    /// The Alloc-ID that the unit has still to acknowledge.
    pub pending: u16,
    /// 1 where there is one.
    pub is_pending: u8,
    /// In how many poll windows it has not done so, 0 to 2.
    pub waiting: u8,
    /// The ONU-ID, 0 to 253.
    pub onu: u8,
    /// 1 of an operating unit, 0 of a ranging one.
    pub is_operating: u8,
    /// Of a ranging unit: how many ranging windows closed without a result.
    pub attempts: u8,
    /// Of a ranging unit: 1 where anything was heard in them.
    pub was_seen: u8,
    /// Of an operating unit: how many polls in a row nothing answered.
    pub dark: u8,
    /// Of an operating unit: how many were answered by nothing that could be read.
    pub garbled: u8,
}

/// Tells whether something is so: 1, else 0.
pub(crate) fn flag(is: bool) -> u8
    ensures { result ≡ spec.flag is }
{
    if is { 1 } else { 0 }
}

/// Tells a place for an Alloc-ID.
fn alloc_of(place: &Option<(u16, bool)>) -> AllocNumbers
    ensures { result ≡ spec.alloc_numbers place.now }
{
    match *place {
        None => AllocNumbers {
            alloc: 0,
            is_there: 0,
            is_leaving: 0,
        },
        Some((alloc, leaving)) => AllocNumbers {
            alloc,
            is_there: 1,
            is_leaving: flag(leaving),
        },
    }
}

/// Tells eight places.
fn allocs_of(places: &[Option<(u16, bool)>; 8]) -> [AllocNumbers; 8]
    ensures { result ≡ spec.eight_allocs places.now }
{
    [
        alloc_of(&places[0]),
        alloc_of(&places[1]),
        alloc_of(&places[2]),
        alloc_of(&places[3]),
        alloc_of(&places[4]),
        alloc_of(&places[5]),
        alloc_of(&places[6]),
        alloc_of(&places[7]),
    ]
}

/// Tells the Alloc-ID that is still to be acknowledged: whether there is one, and which.
fn pending_of(pending: Option<u16>) -> (u8, u16)
    ensures { result ≡ spec.pending_numbers pending }
{
    match pending {
        None => (0, 0),
        Some(alloc) => (1, alloc),
    }
}

/// Tells a row by numbers.
pub(crate) fn row_of(row: &RowView) -> RowNumbers
    ensures { result ≡ spec.row_numbers row.now row.now.phase }
{
    let (is_pending, pending) = pending_of(row.pending);
    let ranging = RowNumbers {
        eqd: 0,
        allocs: allocs_of(&row.allocs),
        pending,
        is_pending,
        waiting: row.waiting,
        onu: row.onu,
        is_operating: 0,
        attempts: 0,
        was_seen: 0,
        dark: 0,
        garbled: 0,
    };
    match row.phase {
        Phase::Ranging { attempts, seen } => RowNumbers {
            attempts,
            was_seen: flag(seen),
            ..ranging
        },
        Phase::Operating { eqd, dark, garbled } => RowNumbers {
            is_operating: 1,
            eqd,
            dark,
            garbled,
            ..ranging
        },
    }
}
