//! Lines of a trace: every event, reply, alarm and grant.
ghost use Rattle.std.specs.Option.{ForSome};
ghost use Rattle.gp_ploam.specs.Down.{IsProperDown};

use gp_alarms::{Alarm, AlarmKind};
use gp_machine::{Allocs, Answer, Command, Entry, Event, Phase, Receipt, Refusal, Reply, Row};
use gp_ploam::{Down, Mask, Serial};
use gp_ranging::Grant;
use gp_trace::push_line;
use std::alloc::{AllocError, Global};

const A: Serial = Serial(*b"ABCD\x00\x00\x00\x01");

/// Events and replies, and the line of each, the seventh of port 1.
const LINES: [(Event, Reply, &'static str); 33] = [
    (Event::Frame, Reply::Ticked, "1 7 frame = ok\n"),
    (Event::Frame, Reply::Searching, "1 7 frame = searching\n"),
    (Event::Frame, Reply::Found(0), "1 7 frame = found 0\n"),
    (Event::Frame, Reply::Again(1), "1 7 frame = again 1\n"),
    (Event::Frame, Reply::Repeat(2), "1 7 frame = repeat 2\n"),
    (
        Event::Frame,
        Reply::Restarted(253),
        "1 7 frame = restarted 253\n",
    ),
    (
        Event::Frame,
        Reply::Ranged {
            onu: 0,
            eqd: 211_040,
        },
        "1 7 frame = ranged 0 211040\n",
    ),
    (Event::Frame, Reply::TooFar(3), "1 7 frame = too-far 3\n"),
    (
        Event::Frame,
        Reply::StillRanging(4),
        "1 7 frame = still-ranging 4\n",
    ),
    (Event::Frame, Reply::Alive(5), "1 7 frame = alive 5\n"),
    (Event::Frame, Reply::Acked(256), "1 7 frame = acked 256\n"),
    (Event::Frame, Reply::Gasp(6), "1 7 frame = gasp 6\n"),
    (
        Event::Frame,
        Reply::DisabledSeen,
        "1 7 frame = disabled-seen\n",
    ),
    (
        Event::Frame,
        Reply::Allocated(4095),
        "1 7 frame = allocated 4095\n",
    ),
    (
        Event::Frame,
        Reply::Releasing(257),
        "1 7 frame = releasing 257\n",
    ),
    (
        Event::Frame,
        Reply::Deactivated(7),
        "1 7 frame = deactivated 7\n",
    ),
    (Event::Frame, Reply::Disabled, "1 7 frame = disabled\n"),
    (Event::Frame, Reply::Enabled, "1 7 frame = enabled\n"),
    (Event::Frame, Reply::EnabledAll, "1 7 frame = enabled-all\n"),
    (
        Event::Frame,
        Reply::PoppedUp(8),
        "1 7 frame = popped-up 8\n",
    ),
    (
        Event::Frame,
        Reply::PoppedUpAll(9),
        "1 7 frame = popped-up-all 9\n",
    ),
    (
        Event::Frame,
        Reply::Refused(Refusal::AlreadySearching),
        "1 7 frame = refused 14 already-searching\n",
    ),
    (
        Event::Command(Command::Search),
        Reply::Searching,
        "1 7 search = searching\n",
    ),
    (
        Event::Command(Command::Alloc(A)),
        Reply::Searching,
        "1 7 alloc ABCD00000001 = searching\n",
    ),
    (
        Event::Command(Command::Dealloc {
            serial: A,
            alloc: 256,
        }),
        Reply::Searching,
        "1 7 dealloc ABCD00000001 256 = searching\n",
    ),
    (
        Event::Command(Command::Deactivate(A)),
        Reply::Searching,
        "1 7 deactivate ABCD00000001 = searching\n",
    ),
    (
        Event::Command(Command::Disable(A)),
        Reply::Searching,
        "1 7 disable ABCD00000001 = searching\n",
    ),
    (
        Event::Command(Command::Enable(A)),
        Reply::Searching,
        "1 7 enable ABCD00000001 = searching\n",
    ),
    (
        Event::Command(Command::EnableAll),
        Reply::Searching,
        "1 7 enable-all = searching\n",
    ),
    (
        Event::Command(Command::Popup(A)),
        Reply::Searching,
        "1 7 popup ABCD00000001 = searching\n",
    ),
    (
        Event::Command(Command::PopupAll),
        Reply::Searching,
        "1 7 popup-all = searching\n",
    ),
    (
        Event::Command(Command::Show(A)),
        Reply::Searching,
        "1 7 show ABCD00000001 = searching\n",
    ),
    (
        Event::Burst {
            at: 100_000,
            bytes: *b"\x00\x01ABCD\x00\x00\x00\x01\x00\x00\x6b",
        },
        Reply::Repeat(0),
        "1 7 burst 100000 0001414243440000000100006b = repeat 0\n",
    ),
];

/// The line of an entry, the seventh of port 1.
fn line(alloc: Global, mask: Mask, event: Event, answer: Answer) -> Result<Vec<u8>, AllocError>
    requires { ForSome answer.sent IsProperDown }
{
    let entry = Entry {
        purse_in: 0,
        event,
        answer,
        purse_out: 0,
    };
    let receipt = Receipt {
        port: 1,
        number: 7,
        entry,
    };
    let mut out = Vec::new(alloc);
    push_line(&mut out, mask, &receipt)?;
    Ok(out)
}

/// Tells whether an answer that sends no message is written so.
fn is_line(alloc: Global, event: Event, reply: Reply, text: &str) -> Result<bool, AllocError> {
    let found = line(alloc, Mask::Plain, event, Answer::from(reply))?;
    Ok(found.as_slice() == text.as_bytes())
}

#[test]
fn events_and_replies(rt: HostRuntime) {
    for (event, reply, text) in &LINES {
        assert!(rt;
            is_line(rt.alloc(), *event, *reply, text) == Ok(true),
            "{text}"
        );
    }
}

#[test]
fn whole_answer(rt: HostRuntime) -> Result<(), AllocError> {
    let answer = Answer {
        reply: Reply::Ticked,
        sent: Some(Down::AssignOnu { onu: 0, serial: A }),
        grant: Some(Grant::Range(0)),
        alarm: Some(Alarm {
            kind: AlarmKind::Loam,
            serial: A,
        }),
    };
    let found = line(rt.alloc(), Mask::Coset, Event::Frame, answer)?;
    let want =
        "1 7 frame = ok sent ff03004142434400000001004e grant range 0 alarm LOAM ABCD00000001\n";
    assert!(rt; found.as_slice() == want.as_bytes());
    Ok(())
}

/// Adds an Alloc-ID where there is room for one.
fn with_alloc(mut allocs: Allocs, alloc: u16, leaving: bool) -> Allocs {
    if allocs.len() < 8 {
        allocs.insert(alloc, leaving);
    }
    allocs
}

/// Tells whether the unit 3, operating or ranging, with these Alloc-IDs, is shown so.
fn is_shown(
    alloc: Global,
    is_operating: bool,
    allocs: Allocs,
    text: &str,
) -> Result<bool, AllocError> {
    let ranging = Row::ranging(3);
    let phase = if is_operating {
        Phase::Operating {
            eqd: 211_040,
            dark: 1,
            garbled: 2,
        }
    } else {
        ranging.phase
    };
    let row = Row {
        phase,
        allocs,
        ..ranging
    };
    is_line(
        alloc,
        Event::Command(Command::Show(A)),
        Reply::Shown(row),
        text,
    )
}

#[test]
fn shown_units(rt: HostRuntime) {
    let none = Allocs::new();
    let text = "1 7 show ABCD00000001 = unit 3 ranging 0 allocs -\n";
    assert!(rt; is_shown(rt.alloc(), false, none, text) == Ok(true));
    let text = "1 7 show ABCD00000001 = unit 3 operating 211040 allocs -\n";
    assert!(rt; is_shown(rt.alloc(), true, none, text) == Ok(true));
}

#[test]
fn shown_alloc_ids(rt: HostRuntime) {
    let one = with_alloc(Allocs::new(), 300, false);
    let text = "1 7 show ABCD00000001 = unit 3 operating 211040 allocs 300\n";
    assert!(rt; is_shown(rt.alloc(), true, one, text) == Ok(true));
    let three = with_alloc(with_alloc(one, 4095, false), 256, true);
    let text = "1 7 show ABCD00000001 = unit 3 ranging 0 allocs 256!,300,4095\n";
    assert!(rt; is_shown(rt.alloc(), false, three, text) == Ok(true));
}
