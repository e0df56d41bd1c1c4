//! A full queue, the order of copies, and what only a run shows: that memory suffices, or is told.
use crate::samples::prints;
use gp_ploam::Down;
use gp_volley::{QueueFault, VolleyQueue};
use std::alloc::Global;

/// Owes as many messages for the ONU-IDs from 0 on as there is room for beside one more.
fn owe_63(queue: &mut VolleyQueue) {
    for onu in 0..63u8 {
        if queue.len_copies() <= 189 {
            queue.owe(Down::Deactivate { onu });
        }
    }
}

/// Owes one more where 189 copies are owed.
fn owe_last(queue: &mut VolleyQueue) {
    if queue.len_copies() == 189 {
        queue.owe(Down::NoMessage);
    }
}

/// Tells whether a queue is full, and ends with a copy of the last ONU-ID and those of one message more.
fn ends_full(queue: &VolleyQueue) -> bool {
    queue.len_copies() == 192
        && queue.copy_at(188) == Some(Down::Deactivate { onu: 62 })
        && queue.copy_at(189) == Some(Down::NoMessage)
        && queue.copy_at(192).is_none()
}

/// Sends four copies: one message, and a copy.
fn send_four(queue: &mut VolleyQueue) {
    for _ in 0..4 {
        let _ = queue.send_one();
    }
}

/// Tells whether a queue begins with two copies for the ONU-ID 1, and none for 0 is owed.
fn begins_with_two(queue: &VolleyQueue) -> bool {
    queue.copy_at(1) == Some(Down::Deactivate { onu: 1 })
        && queue.copy_at(2) == Some(Down::Deactivate { onu: 2 })
        && !queue.owes(&Down::Deactivate { onu: 0 })
        && queue.owes(&Down::Deactivate { onu: 1 })
}

/// Fills a queue and sends four copies: whether it ends, and then begins, as it has to.
fn fill_and_send(alloc: Global) -> Result<(bool, bool), QueueFault> {
    let mut queue = VolleyQueue::begin(alloc)?;
    owe_63(&mut queue);
    owe_last(&mut queue);
    let is_end = ends_full(&queue);
    send_four(&mut queue);
    let is_begin = begins_with_two(&queue);
    queue.close();
    Ok((is_end, is_begin))
}

#[test]
fn full_room(rt: HostRuntime) {
    assert!(rt; fill_and_send(rt.alloc()) == Ok((true, true)));
}

/// What is sent of two messages, frame by frame.
const SENT: [Option<Down>; 7] = [
    Some(Down::EnableAll),
    Some(Down::EnableAll),
    Some(Down::EnableAll),
    Some(Down::Popup { onu: 255 }),
    Some(Down::Popup { onu: 255 }),
    Some(Down::Popup { onu: 255 }),
    None,
];

/// Tells whether a queue sends these, one after the other.
fn sends_all(queue: &mut VolleyQueue, copies: &[Option<Down>]) -> bool {
    for copy in copies {
        if queue.send_one() != *copy {
            return false;
        }
    }
    true
}

/// Tells whether two messages are sent so.
fn are_sent(alloc: Global) -> Result<bool, QueueFault> {
    let mut queue = VolleyQueue::begin(alloc)?;
    queue.owe(Down::EnableAll);
    queue.owe(Down::Popup { onu: 255 });
    let are_sent = sends_all(&mut queue, &SENT);
    queue.close();
    Ok(are_sent)
}

#[test]
fn three_copies_in_a_row(rt: HostRuntime) {
    assert!(rt; are_sent(rt.alloc()) == Ok(true));
}

/// Tells whether a queue is made, which is empty, or is not since memory was refused.
fn is_made_or_told(alloc: Global) -> bool {
    match VolleyQueue::begin(alloc) {
        Ok(queue) => {
            let copies = queue.len_copies();
            queue.close();
            copies == 0
        }
        Err(fault) => fault == QueueFault::OutOfMemory,
    }
}

// Run with each allocation refused in turn (`rt try --test --fail-alloc N`).
#[test]
fn memory_short_or_ample(rt: HostRuntime) {
    assert!(rt; is_made_or_told(rt.alloc()));
}

#[test]
fn fault_text(rt: HostRuntime) {
    assert!(rt; prints(rt.alloc(), &QueueFault::OutOfMemory, "out of memory"));
}
