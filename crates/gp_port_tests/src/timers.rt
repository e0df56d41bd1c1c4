//! A wheel used by hand, wheels of many sizes, and what only a run shows: that memory suffices, or is told.
use crate::samples::prints;
use gp_timers::{TimerFault, Wheel};
use std::alloc::Global;

/// What is due of three names, one after the other, and whether the name that is not was set, and is again.
fn three_names(alloc: Global) -> Result<([Option<u16>; 4], [bool; 2]), TimerFault> {
    let mut wheel = Wheel::begin(alloc, 3)?;
    wheel.set(2, 5);
    wheel.set(0, 5);
    wheel.set(1, 9);
    let due = [wheel.due(4), wheel.due(7), wheel.due(7), wheel.due(7)];
    Ok((due, [wheel.cancel(1), wheel.cancel(1)]))
}

#[test]
fn wheel(rt: HostRuntime) {
    let told = ([None, Some(0), Some(2), None], [true, false]);
    assert!(rt; three_names(rt.alloc()) == Ok(told));
}

/// Tells whether the last of so many names is due in the last frame, and none before it.
fn is_due_last(alloc: Global, names: u16) -> Result<bool, TimerFault> {
    let last = names.checked_sub(1);
    let mut wheel = Wheel::begin(alloc, names)?;
    if let Some(name) = last {
        wheel.set(name, u64::MAX);
    }
    let before = wheel.due(u64::MAX - 1);
    Ok(before.is_none() && wheel.due(u64::MAX) == last)
}

/// Wheels of no name up to 300, and of the most names.
#[test]
fn wheel_of_each_size(rt: HostRuntime) {
    for names in 0..=300u16 {
        assert!(rt; is_due_last(rt.alloc(), names) == Ok(true), "{names}");
    }
    assert!(rt; is_due_last(rt.alloc(), u16::MAX) == Ok(true));
}

/// Tells whether a wheel is made, on which nothing is due, or is not since memory was refused.
fn is_made_or_told(alloc: Global) -> bool {
    match Wheel::begin(alloc, 5120) {
        Ok(mut wheel) => wheel.due(u64::MAX).is_none(),
        Err(fault) => fault == TimerFault::OutOfMemory,
    }
}

// Run with each allocation refused in turn (`rt try --test --fail-alloc N`).
#[test]
fn memory_short_or_ample(rt: HostRuntime) {
    assert!(rt; is_made_or_told(rt.alloc()));
}

#[test]
fn fault_text(rt: HostRuntime) {
    assert!(rt; prints(rt.alloc(), &TimerFault::OutOfMemory, "out of memory"));
}
