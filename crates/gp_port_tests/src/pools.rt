//! Every number leased in turn, and the quarantine by frames.
ghost use Rattle.std.specs.Prelude.{◌≤◌};

use gp_pools::{AllocIds, OnuIds};

/// Leases the next ONU-ID, and settles it.
fn settle_next_onu_id(ids: &mut OnuIds) -> Option<u8> {
    let lease = ids.take()?;
    Some(ids.settle(lease))
}

/// Leases the next Alloc-ID, and settles it.
fn settle_next_alloc_id(ids: &mut AllocIds) -> Option<u16> {
    let lease = ids.take()?;
    Some(ids.settle(lease))
}

/// Leases the next ONU-ID, settles it, leases it again and gives it back.
fn pass_next_onu_id_through(ids: &mut OnuIds) -> Option<u8> {
    let lease = ids.take()?;
    let settled = ids.settle(lease);
    let lease = ids.lease_of(settled);
    let number = lease.number();
    ids.give_back(lease);
    Some(number)
}

/// Leases the next Alloc-ID, settles it, leases it again and gives it back.
fn pass_next_alloc_id_through(ids: &mut AllocIds) -> Option<u16> {
    let lease = ids.take()?;
    let settled = ids.settle(lease);
    let lease = ids.lease_of(settled);
    let number = lease.number();
    ids.give_back(lease);
    Some(number)
}

/// Tells whether this ONU-ID is next: it is passed through, and settled.
fn is_next_onu_id(ids: &mut OnuIds, number: u8) -> bool {
    ids.any_free()
        && pass_next_onu_id_through(ids) == Some(number)
        && settle_next_onu_id(ids) == Some(number)
}

/// Tells the same of an Alloc-ID.
fn is_next_alloc_id(ids: &mut AllocIds, number: u16) -> bool {
    ids.any_free()
        && pass_next_alloc_id_through(ids) == Some(number)
        && settle_next_alloc_id(ids) == Some(number)
}

/// Settles all ONU-IDs, each after it was passed through, and gives the first number that didn't come in its turn.
fn first_onu_id_out_of_turn(ids: &mut OnuIds) -> Option<u8> {
    for number in 0..254 {
        if !is_next_onu_id(ids, number) {
            return Some(number);
        }
    }
    None
}

#[test]
fn each_onu_id_in_turn(rt: HostRuntime) {
    let mut ids = OnuIds::new(254, 0);
    assert!(rt; ids.is_free(0) && ids.is_free(253) && !ids.is_free(254) && !ids.is_free(255));
    assert!(rt; first_onu_id_out_of_turn(&mut ids).is_none());
    assert!(rt; !ids.any_free() && !ids.is_free(0) && !ids.is_free(253));
    assert!(rt; settle_next_onu_id(&mut ids).is_none());
}

/// Settles the Alloc-IDs up to an end, each after it was passed through, and gives the first number that didn't come
/// in its turn.
fn first_alloc_id_out_of_turn(ids: &mut AllocIds, end: u16) -> Option<u16> {
    for number in 256..end {
        if !is_next_alloc_id(ids, number) {
            return Some(number);
        }
    }
    None
}

/// Tells whether all Alloc-IDs up to this last one come in turn, and none after it; there may be none.
fn come_in_turn(ids: &mut AllocIds, last: u16) -> bool {
    let free = !ids.is_free(255) && ids.is_free(256) == (last >= 256) && !ids.is_free(4096);
    let wrong = first_alloc_id_out_of_turn(ids, last.saturating_add(1));
    let left = ids.any_free() || ids.is_free(256);
    free && wrong.is_none() && !left && settle_next_alloc_id(ids).is_none()
}

#[test]
fn each_alloc_id_in_turn(rt: HostRuntime) {
    assert!(rt; come_in_turn(&mut AllocIds::new(255), 255));
    assert!(rt; come_in_turn(&mut AllocIds::new(256), 256));
    assert!(rt; come_in_turn(&mut AllocIds::new(4095), 4095));
}

/// How many frames pass in which the ONU-ID 0 cools.
fn frames_to_cool(ids: &mut OnuIds) -> u16 {
    let mut cooled = 0;
    for frame in 0..9000u16 {
        if ids.is_cooling(0) && !ids.is_free(0) {
            cooled = frame + 1;
            ids.tick();
        }
    }
    cooled
}

/// Tells what becomes of the ONU-ID 0, which A gave back: B gets a number, the frames pass in which 0 cools, and C
/// gets a number.
fn after_a_gave_0_back(quarantine: u16) -> (Option<u8>, u16, Option<u8>)
    requires { quarantine ≤ 8000 }
{
    let mut ids = OnuIds::new(254, quarantine);
    let _ = pass_next_onu_id_through(&mut ids);
    let number_of_b = settle_next_onu_id(&mut ids);
    let cooled = frames_to_cool(&mut ids);
    (number_of_b, cooled, settle_next_onu_id(&mut ids))
}

#[test]
fn a_freed_number_cools(rt: HostRuntime) {
    assert!(rt; after_a_gave_0_back(0) == (Some(0), 0, Some(1)));
    assert!(rt; after_a_gave_0_back(1) == (Some(1), 1, Some(0)));
    assert!(rt; after_a_gave_0_back(800) == (Some(1), 800, Some(0)));
    assert!(rt; after_a_gave_0_back(8000) == (Some(1), 8000, Some(0)));
}

/// Settles so many ONU-IDs.
fn settle(ids: &mut OnuIds, count: u8) {
    for _ in 0..count {
        let _ = settle_next_onu_id(ids);
    }
}

/// So many frames pass.
fn pass(ids: &mut OnuIds, frames: u16) {
    for _ in 0..frames {
        ids.tick();
    }
}

/// Settles so many ONU-IDs, and gives the next one back: that number, whether one is free while it
/// cools, whether one is handed out then, and whether one is free behind that once it has cooled.
fn while_one_cools(ids: &mut OnuIds, settled: u8) -> (Option<u8>, bool, bool, bool) {
    settle(ids, settled);
    let passed = pass_next_onu_id_through(ids);
    let free = ids.any_free();
    let next = settle_next_onu_id(ids);
    pass(ids, 800);
    (passed, free, next.is_some(), ids.any_free())
}

/// A cooling number doesn't count among those that are out, and isn't handed out either.
#[test]
fn no_number_but_a_cooling_one(rt: HostRuntime) {
    let mut ids = OnuIds::new(254, 800);
    assert!(rt; while_one_cools(&mut ids, 253) == (Some(253), false, false, true));
    let mut ids = OnuIds::new(2, 800);
    assert!(rt; while_one_cools(&mut ids, 1) == (Some(1), true, true, false));
}
