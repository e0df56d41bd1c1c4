//! Worked logs: whose copies are late, and by which messages units may go.
use crate::{Place, SentBook};
use gp_ploam::{Down, Serial};
use std::rt::HostRuntime;
use std::test::Fail;

/// An ONU-ID is assigned.
fn assign(onu: u8, last: u8) -> Down {
    Down::AssignOnu {
        onu,
        serial: Serial([b'A', b'B', b'C', b'D', 0, 0, 0, last]),
    }
}

/// A copy is late 800 frames behind the one before it, and the third is the last.
#[test]
fn copies(rt: HostRuntime) -> Result<(), Fail> {
    let mut book = SentBook::begin_whole(rt.alloc())?;
    let place = Place::Holder(3);
    assert!(rt; !book.is_overdue(900, place));
    book.sent(1, &assign(3, 1))?;
    assert!(rt; !book.is_overdue(801, place));
    assert!(rt; book.is_overdue(802, place));
    assert!(rt; !book.is_overdue(802, Place::Holder(4)));
    book.sent(801, &assign(3, 1))?;
    assert!(rt; !book.is_overdue(1601, place));
    assert!(rt; book.is_overdue(1602, place));
    book.sent(1602, &assign(3, 1))?;
    assert!(rt; !book.is_overdue(9999, place));
    Ok(())
}

/// Who gets an ONU-ID ends what was sent of its delay; a copy doesn't. In the middle the first message may be a copy.
#[test]
fn ends(rt: HostRuntime) -> Result<(), Fail> {
    let mut book = SentBook::begin_midway(rt.alloc())?;
    let delay = Down::RangingTime { onu: 3, eqd: 7 };
    book.sent(1, &delay)?;
    assert!(rt; !book.is_overdue(900, Place::Delay(3)));
    book.sent(2, &assign(3, 1))?;
    book.sent(3, &assign(3, 2))?;
    assert!(rt; book.is_overdue(900, Place::Holder(3)));
    book.sent(4, &delay)?;
    assert!(rt; book.is_overdue(900, Place::Delay(3)));
    book.sent(5, &assign(3, 2))?;
    assert!(rt; book.is_overdue(900, Place::Delay(3)));
    book.sent(6, &Down::Deactivate { onu: 3 })?;
    assert!(rt; !book.is_overdue(900, Place::Delay(3)));
    book.sent(7, &Down::EnableAll)?;
    assert!(rt; !book.is_overdue(900, Place::AllSerials));
    Ok(())
}

/// A unit goes by a message that was sent three times, once the grace is over.
#[test]
fn settles(rt: HostRuntime) -> Result<(), Fail> {
    let mut book = SentBook::begin_whole(rt.alloc())?;
    let all = Down::Deactivate { onu: 255 };
    let place = Place::AllOnus;
    book.sent(1, &all)?;
    book.sent(2, &all)?;
    assert!(rt; !book.is_settled(10, 99, 0, place));
    book.sent(3, &all)?;
    assert!(rt; !book.is_settled(10, 13, 0, place));
    assert!(rt; book.is_settled(10, 14, 0, place));
    assert!(rt; !book.is_settled(10, 14, 1, place));
    book.sent(4, &Down::RangingTime { onu: 3, eqd: 4 })?;
    book.sent(5, &Down::RangingTime { onu: 3, eqd: 5 })?;
    for now in 6..9 {
        book.sent(now, &Down::RangingTime { onu: 3, eqd: 9 })?;
    }
    assert!(rt; !book.is_settled(10, 99, 1, Place::Delay(3)));
    assert!(rt; book.is_settled(10, 99, 2, Place::Delay(3)));
    assert!(rt; !book.is_settled(10, 99, 3, Place::Delay(3)));
    Ok(())
}
