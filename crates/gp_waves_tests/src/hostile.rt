//! Lines that are none, times that fall, readers and writers that fail, and memory that is refused.
use crate::dumped::{
    ALL, Count, DumpText, codes_of, dumped, dumped_from, dumped_to, has_count, is_dump_with, is_sum,
};
use crate::parsed::Wanted;
use crate::run::{DUMP, RUN};
use gp_explain::{ExplainFault, NoLine};
use gp_flow::{LinesFault, Unanswered};
use gp_ploam::Mask;
use gp_waves::{Codes, Frames, WavesSum};
use std::alloc::{AllocError, Global};
use std::io;
use std::io::{ErrorKind, Read, Write};

/// Tells whether a dump ended so, behind so many frames.
fn is_ended(
    alloc: Global,
    dump: &DumpText,
    fault: ExplainFault,
    frames: u64,
) -> Result<bool, AllocError> {
    let count = ("", "frame", Wanted::Each, frames);
    Ok(dump.outcome == Err(fault) && is_dump_with(alloc, dump.text(), &count)?)
}

/// Tells whether the dump of what is read ends so, behind so many frames.
fn ends_with<R: Read + Drop>(
    alloc: Global,
    reader: R,
    fault: ExplainFault,
    frames: u64,
) -> Result<bool, AllocError> {
    let dump = dumped_from(alloc, reader, ALL)?;
    is_ended(alloc, &dump, fault, frames)
}

#[test]
fn a_line_that_is_none(rt: HostRuntime) {
    let text = "0 0 frame = ok\n\n# a remark\n0 1 frmae = ok\n0 2 frame = ok\n";
    let refused = ExplainFault::Refused {
        line: 4,
        why: NoLine::NotALine,
    };
    assert!(rt; ends_with(rt.alloc(), text.as_bytes(), refused, 1) == Ok(true));
}

#[test]
fn a_line_that_is_too_long(rt: HostRuntime) {
    let long = [b'0'; 4_097];
    let text = b"0 0 frame = ok\n".chain(long.as_slice());
    let refused = ExplainFault::Refused {
        line: 2,
        why: NoLine::TooLong,
    };
    assert!(rt; ends_with(rt.alloc(), text, refused, 1) == Ok(true));
}

/// The second line comes too late; its code is garbled, and of no port but 0; the fourth is of another port.
const FALLS: &'static str = "\
9 down ff010000000000000000000058\n\
8 down ff010000000000000000000059\n\
9 up ff01414243440000000100002d\n\
1 3 grant search\n\
";

const HEARD: [Count; 4] = [
    ("", "sent", Wanted::Something, 1),
    ("", "burst", Wanted::Something, 1),
    ("", "delay", Wanted::Something, 0),
    ("unit", "state", Wanted::Each, 0),
];

/// Tells whether one of four lines fell.
fn has_fallen(alloc: Global) -> Result<bool, AllocError> {
    let dump = dumped(alloc, FALLS, ALL)?;
    Ok(is_sum(&dump, 4, 1))
}

#[test]
fn times_that_fall(rt: HostRuntime) {
    assert!(rt; has_fallen(rt.alloc()) == Ok(true));
    for row in &HEARD {
        assert!(rt;
            has_count(rt.alloc(), FALLS, ALL, row) == Ok(true),
            "{}",
            row.1
        );
    }
}

/// The code of the first line is right under mask 85 alone, that of the second under none, and that of the last under 0.
const MIXED: &'static str = "\
0 0 frame = ok sent ff01000000000000000000000d\n\
0 1 burst 100000 ff01414243440000000100002d = refused 2 garbled\n\
# a remark\n\
0 2 frame = ok grant search\n\
0 3 frame = ok sent ff010000000000000000000058 grant search\n\
";

#[test]
fn codes_that_are_garbled(rt: HostRuntime) -> Result<(), ExplainFault> {
    // each code counts: of lines that fall, and of frames that are not dumped
    let none = codes_of(rt.alloc(), RUN, ALL, Mask::Plain)?;
    assert_eq!(rt;
        none,
        Codes {
            came: 5,
            garbled: 0
        }
    );
    let some = codes_of(rt.alloc(), FALLS, ALL, Mask::Plain)?;
    assert_eq!(rt;
        some,
        Codes {
            came: 3,
            garbled: 2
        }
    );
    let later = Frames { from: 20, to: 30 };
    let all = codes_of(rt.alloc(), FALLS, later, Mask::Coset)?;
    assert_eq!(rt;
        all,
        Codes {
            came: 3,
            garbled: 3
        }
    );
    for mask in [Mask::Plain, Mask::Coset] {
        let mixed = codes_of(rt.alloc(), MIXED, ALL, mask)?;
        assert_eq!(rt;
            mixed,
            Codes {
                came: 3,
                garbled: 2
            }
        );
    }
    let grants = codes_of(rt.alloc(), "1 grant search\n", ALL, Mask::Coset)?;
    assert_eq!(rt; grants, Codes::none());
    Ok(())
}

/// Fails at each read.
#[derive(Drop)]
struct FailingReader;

impl Read for FailingReader {
    fn read(&mut self, _buffer: &mut [u8]) -> io::Result<usize> {
        Err(io::Error::from(ErrorKind::Other))
    }
}

#[test]
fn a_read_that_fails(rt: HostRuntime) {
    let begin = b"0 0 frame = ok\n0 1 frame = ok\n0 2 fra".as_slice();
    let unread = ExplainFault::Lines(LinesFault::Read);
    assert!(rt; ends_with(rt.alloc(), begin.chain(FailingReader), unread, 2) == Ok(true));
}

/// Takes so many octets, and then fails.
#[derive(Drop)]
struct ShortWriter {
    taken: Vec<u8>,
    room: usize,
}

impl Write for ShortWriter {
    fn write(&mut self, buffer: &[u8]) -> io::Result<usize> {
        match buffer.first() {
            Some(first) if self.taken.len() < self.room => {
                self.taken.push(*first)?;
                Ok(1)
            }
            _ => Err(io::Error::from(ErrorKind::Other)),
        }
    }

    fn flush(&mut self) -> io::Result<()> {
        Ok(())
    }
}

/// Tells whether dumping ends as it has to where the writer has so much room.
fn is_end(outcome: Result<WavesSum, ExplainFault>, room: usize) -> bool {
    let stopped = ExplainFault::Lines(LinesFault::Line(Unanswered::Write));
    if room < DUMP.len() {
        outcome == Err(stopped)
    } else {
        outcome.is_ok()
    }
}

/// Tells whether octets are the first of the dump, so many or all.
fn are_first(taken: &[u8], room: usize) -> bool {
    DUMP.as_bytes().starts_with(taken) && taken.len() == room.min(DUMP.len())
}

/// Tells whether that is so of a writer that has so much room.
fn is_cut_at(alloc: Global, room: usize) -> Result<bool, AllocError> {
    let taken = Vec::new(alloc);
    let (outcome, writer) = dumped_to(alloc, RUN, ShortWriter { taken, room })?;
    Ok(is_end(outcome, room) && are_first(&writer.taken, room))
}

/// A pipe that is closed has a prefix of the dump, and the fault is told.
#[test]
fn a_write_that_fails(rt: HostRuntime) {
    let length = DUMP.len();
    for room in [0, 1, 100, length / 2, length.saturating_sub(1), length] {
        assert!(rt; is_cut_at(rt.alloc(), room) == Ok(true), "{room}");
    }
}

/// Room for the dump, so that no write takes memory.
const ROOM: usize = 8_192;

/// Tells whether all lines are dumped. None where memory was refused, and nothing is written.
fn is_dump(outcome: Result<WavesSum, ExplainFault>, written: &[u8]) -> Option<bool> {
    let refused = ExplainFault::Lines(LinesFault::Line(Unanswered::OutOfMemory));
    if outcome == Err(refused) && written.is_empty() {
        return None;
    }
    Some(outcome.is_ok_and(|sum| sum.lines == 11) && written == DUMP.as_bytes())
}

/// Tells the same of a dump that is made now; None too where the test has no memory itself.
fn is_dumped_if_ample(alloc: Global) -> Option<bool> {
    let writer = Vec::with_capacity(alloc, ROOM).ok()?;
    let (outcome, written) = dumped_to(alloc, RUN, writer).ok()?;
    is_dump(outcome, &written)
}

/// Where an allocation was made to fail it is told, and nothing is written; else the dump is as it should be. What the
/// test takes for itself may be refused too.
#[test]
fn memory_short_or_ample(rt: HostRuntime) {
    assert!(rt; is_dumped_if_ample(rt.alloc()) != Some(false));
}
