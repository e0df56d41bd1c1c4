//! A unit used by hand: measured, found silent, given an Alloc-ID, and called back.
ghost use Rattle.std.specs.Prelude.{◌≡◌, ◌≤◌, None};
ghost use Rattle.std.specs.FinMap as map;
ghost use Rattle.gp_pools.specs.Pool.{IsLeased};

use gp_alarms::Outcome;
use gp_ploam::Serial;
use gp_pools::{AllocIds, AllocLease, OnuIds};
use gp_unit::{Operating, PollClosed, Ranging, RangingClosed, Row};

const SERIAL: Serial = Serial([65, 76, 67, 76, 0, 0, 0, 1]);

/// The row of a unit after its delay was measured, and the row of one that is too far away.
fn row_after_measuring(teqd: u32, rtd: u32) -> Option<Row> {
    let mut onus = OnuIds::new(1, 0);
    let mut alloc_ids = AllocIds::new(255);
    let unit = Ranging::begin(SERIAL, onus.take()?);
    let kept = match unit.measured(teqd, rtd) {
        Ok(unit) => unit.settle(&mut onus, &mut alloc_ids),
        Err(unit) => unit.settle(&mut onus, &mut alloc_ids),
    };
    Some(kept.row)
}

#[test]
fn a_delay_up_to_the_limit(rt: HostRuntime) {
    assert!(rt; row_after_measuring(100, 40) == Some(Row::ranging(0).measured(60)));
    assert!(rt; row_after_measuring(100, 100) == Some(Row::ranging(0).measured(0)));
    assert!(rt; row_after_measuring(100, 101) == Some(Row::ranging(0)));
}

/// Whether anything was heard of a unit that failed in two ranging windows, and whether its ONU-ID is free then.
fn failed_unit(first: bool, second: bool) -> Option<(bool, bool)> {
    let mut onus = OnuIds::new(1, 0);
    let mut alloc_ids = AllocIds::new(255);
    let unit = match Ranging::begin(SERIAL, onus.take()?).window_closed(first) {
        RangingClosed::Still(unit) => unit,
        RangingClosed::Failed(rest, _) => {
            rest.give_up(&mut onus, &mut alloc_ids);
            return None;
        }
    };
    match unit.window_closed(second) {
        RangingClosed::Still(unit) => {
            unit.retire().give_up(&mut onus, &mut alloc_ids);
            None
        }
        RangingClosed::Failed(rest, seen) => {
            rest.give_up(&mut onus, &mut alloc_ids);
            Some((seen, onus.is_free(0)))
        }
    }
}

#[test]
fn two_ranging_windows(rt: HostRuntime) {
    assert!(rt; failed_unit(false, false) == Some((false, true)));
    assert!(rt; failed_unit(true, false) == Some((true, true)));
    assert!(rt; failed_unit(false, true) == Some((true, true)));
    assert!(rt; failed_unit(true, true) == Some((true, true)));
}

/// Gives the unit an Alloc-ID, which it acknowledges: whether that freed one, and the row in the end.
fn acknowledges(
    unit: Operating,
    lease: AllocLease,
    onus: &mut OnuIds,
    alloc_ids: &mut AllocIds,
) -> (bool, Row)
    requires none { unit.row.allocs ≡ map.empty }
    requires idle { unit.row.pending ≡ None }
    requires onu { IsLeased onus.old.pool unit.row.onu }
    requires alloc { IsLeased alloc_ids.old lease }
{
    let (unit, freed) = unit.alloc(lease).acked();
    let row = unit.settle(onus, alloc_ids).row;
    match freed {
        Some(lease) => {
            alloc_ids.give_back(lease);
            (true, row)
        }
        None => (false, row),
    }
}

#[test]
fn a_unit_acknowledges_an_alloc_id(rt: HostRuntime) {
    let mut onus = OnuIds::new(1, 0);
    let mut alloc_ids = AllocIds::new(256);
    let onu = onus.take().expect(&rt, "all are free");
    let lease = alloc_ids.take().expect(&rt, "all are free");
    let told = match Ranging::begin(SERIAL, onu).measured(100, 40) {
        Ok(unit) => Some(acknowledges(unit, lease, &mut onus, &mut alloc_ids)),
        Err(unit) => {
            alloc_ids.give_back(lease);
            unit.retire().give_up(&mut onus, &mut alloc_ids);
            None
        }
    };
    let any_free = alloc_ids.any_free() || onus.any_free();
    let acknowledged = match told {
        Some((freed, row)) => !freed && row.pending.is_none() && row.holds_alloc(256),
        None => false,
    };
    assert!(rt; acknowledged && !any_free);
}

/// The row of a unit that was polled, kept, and called back by POPUP.
fn popped_up(outcome: Outcome) -> Option<Row> {
    let mut onus = OnuIds::new(1, 0);
    let mut alloc_ids = AllocIds::new(255);
    match Ranging::begin(SERIAL, onus.take()?).measured(0, 0) {
        Ok(unit) => match unit.poll_closed(outcome) {
            PollClosed::Still(unit) => Some(unit.popup_all().settle(&mut onus, &mut alloc_ids).row),
            PollClosed::Lost(rest, _) => {
                rest.give_up(&mut onus, &mut alloc_ids);
                None
            }
        },
        Err(unit) => {
            unit.retire().give_up(&mut onus, &mut alloc_ids);
            None
        }
    }
}

/// How a poll ends after which a unit is kept.
const KEPT: [Outcome; 4] = [
    Outcome::Good,
    Outcome::Garbled,
    Outcome::Dark,
    Outcome::Gasped,
];

#[test]
fn a_polled_unit_pops_up(rt: HostRuntime) {
    for outcome in &KEPT {
        assert!(rt; popped_up(*outcome) == Some(Row::ranging(0)), "{outcome:?}");
    }
}

/// How many frames after a unit was given up its ONU-ID is free again.
fn frames_until_free(quarantine: u16) -> Option<u16>
    requires { quarantine ≤ 8000 }
{
    let mut onus = OnuIds::new(1, quarantine);
    let mut alloc_ids = AllocIds::new(255);
    let unit = Ranging::begin(SERIAL, onus.take()?);
    unit.retire().give_up(&mut onus, &mut alloc_ids);
    for frames in 0..9000u16 {
        if onus.is_free(0) {
            return Some(frames);
        }
        onus.tick();
    }
    None
}

#[test]
fn a_unit_that_is_given_up_leaves_its_number_to_cool(rt: HostRuntime) {
    assert!(rt; frames_until_free(0) == Some(0));
    assert!(rt; frames_until_free(1) == Some(1));
    assert!(rt; frames_until_free(800) == Some(800));
    assert!(rt; frames_until_free(8000) == Some(8000));
}
