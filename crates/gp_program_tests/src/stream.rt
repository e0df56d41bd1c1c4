//! Sources and sinks over readers and writers that are slow or fail.
use crate::printed::is_printed;
use crate::streams::ShortWriter;
use gp_stream::{Sink, Source, SourceFault, WriteStopped, read_all};
use std::alloc::{AllocError, Global};
use std::io;
use std::io::{BufWriter, ErrorKind, Read};
use std::test::Fail;

/// Gives one octet a read, and fails at one read, counted from 1.
#[derive(Drop)]
struct SlowReader<'a> {
    rest: &'a [u8],
    reads: usize,
    fails_at: usize,
}

impl Read for SlowReader<'_> {
    fn read(&mut self, buffer: &mut [u8]) -> io::Result<usize> {
        self.reads = self.reads.saturating_add(1);
        if self.reads == self.fails_at {
            return Err(io::Error::from(ErrorKind::Other));
        }
        match (self.rest.split_first(), buffer.first_mut()) {
            (Some((first, rest)), Some(place)) => {
                *place = *first;
                self.rest = rest;
                Ok(1)
            }
            _ => Ok(0),
        }
    }
}

/// Gives so many octets, one a read.
#[derive(Drop)]
struct OctetReader {
    left: usize,
}

impl Read for OctetReader {
    fn read(&mut self, buffer: &mut [u8]) -> io::Result<usize> {
        match buffer.first_mut() {
            Some(place) if self.left > 0 => {
                *place = 7;
                self.left -= 1;
                Ok(1)
            }
            _ => Ok(0),
        }
    }
}

/// How many bytes came, and whether they begin with what is asked about.
type Came = Result<(usize, bool), SourceFault>;

/// Reads a source to its end.
fn read<R: Read>(alloc: Global, source: &mut Source<R>, start: &[u8]) -> Came {
    let bytes = read_all(alloc, source)?;
    Ok((bytes.len(), bytes.starts_with(start)))
}

/// How a source of eight octets is read to its end, and read again, whose read with this number fails.
fn read_twice(alloc: Global, fails_at: usize) -> [Came; 2] {
    let mut source = Source::new(SlowReader {
        rest: b"licences",
        reads: 0,
        fails_at,
    });
    [
        read(alloc, &mut source, b"licences"),
        read(alloc, &mut source, b""),
    ]
}

// The eight octets take eight reads, the end one more; a tenth read is made by another call alone. A source with a
// failed read gives nothing more.
#[test]
fn each_read_fails_in_turn(rt: HostRuntime) {
    let fault = Err(SourceFault::Read);
    for fails_at in 0..12 {
        let wanted = match fails_at {
            1..10 => [fault, fault],
            10 => [Ok((8, true)), fault],
            _ => [Ok((8, true)), Ok((0, true))],
        };
        assert!(rt;
            read_twice(rt.alloc(), fails_at) == wanted,
            "read {fails_at}"
        );
    }
}

/// How so many octets are read.
fn read_many(alloc: Global, octets: u64) -> Came {
    let mut source = Source::new(io::repeat(7).take(octets));
    read(alloc, &mut source, b"\x07\x07")
}

#[test]
fn longest_input(rt: HostRuntime) {
    assert!(rt; read_many(rt.alloc(), 1_048_576) == Ok((1_048_576, true)));
    assert!(rt; read_many(rt.alloc(), 1_048_577) == Err(SourceFault::TooLong));
}

/// How so many octets, one a read, are read up to a first end, and up to a second.
fn read_on(alloc: Global, octets: usize, endless: bool) -> [Came; 2] {
    let reader = OctetReader { left: octets };
    let mut source = if endless {
        Source::endless(reader)
    } else {
        Source::new(reader)
    };
    [
        read(alloc, &mut source, b""),
        read(alloc, &mut source, b"\x07"),
    ]
}

// The first input is too long after 1,048,577 reads of an octet. That leaves 1,048,575, the last of which finds the
// end, or none where an octet more comes; an endless source has no bound.
#[test]
fn bound_of_reads(rt: HostRuntime) {
    for (octets, endless, wanted) in [
        (2_097_151, false, Ok((1_048_574, true))),
        (2_097_152, false, Err(SourceFault::Read)),
        (2_097_152, true, Ok((1_048_575, true))),
    ] {
        let found = read_on(rt.alloc(), octets, endless);
        assert!(rt;
            found == [Err(SourceFault::TooLong), wanted],
            "{octets} {endless}"
        );
    }
}

/// Tells whether two puts to a writer with so much room are taken, what both ends answer is right, and the writer got
/// what it has room for.
fn is_put(alloc: Global, room: usize, fails: bool) -> Result<bool, AllocError> {
    let taken = Vec::with_capacity(alloc, 6)?;
    let mut sink = Sink::new(alloc, ShortWriter { taken, room, fails })?;
    let puts = [sink.put(b"abc"), sink.put(b"def")];
    let ends = [sink.finish(), sink.finish()];
    let taken = sink.into_inner().taken;
    let wanted = if room < 6 { Err(WriteStopped) } else { Ok(()) };
    Ok(puts == [Ok(()); 2] && ends == [wanted; 2] && is_cut_at(b"abcdef", &taken, room))
}

/// Tells whether octets are the first ones of a text, so many or all.
fn is_cut_at(text: &[u8], taken: &[u8], room: usize) -> bool {
    text.starts_with(taken) && taken.len() == room.min(text.len())
}

#[test]
fn short_writes_and_faults(rt: HostRuntime) {
    for fails in [true, false] {
        for room in 0..7 {
            assert!(rt;
                is_put(rt.alloc(), room, fails) == Ok(true),
                "{room} {fails}"
            );
        }
    }
}

/// The same of one put to a writer behind a buffer.
fn is_put_behind_a_buffer(alloc: Global, room: usize) -> Result<bool, Fail> {
    let writer = ShortWriter {
        taken: Vec::new(alloc),
        room,
        fails: true,
    };
    let mut sink = Sink::new(alloc, BufWriter::new(alloc, writer)?)?;
    let ends = [sink.put(b"abc"), sink.finish()];
    let buffer = sink.into_inner();
    let wanted = if room < 3 { Err(WriteStopped) } else { Ok(()) };
    Ok(ends == [Ok(()), wanted] && is_cut_at(b"abc", &buffer.get_ref().taken, room))
}

/// What a buffer between the sink and the writer keeps back goes out before `finish` answers.
#[test]
fn a_writer_behind_a_buffer(rt: HostRuntime) -> Result<(), Fail> {
    for room in 0..4 {
        assert!(rt; is_put_behind_a_buffer(rt.alloc(), room)?, "{room}");
    }
    Ok(())
}

#[test]
fn larger_than_the_room(rt: HostRuntime) -> Result<(), AllocError> {
    let mut sink = Sink::new(rt.alloc(), Vec::new(rt.alloc()))?;
    let puts = [sink.put(b"abc"), sink.put(&[7; 70_000]), sink.put(b"def")];
    let count = sink.into_inner().len();
    assert!(rt; puts == [Ok(()); 3] && count == 70_003);
    Ok(())
}

#[test]
fn texts_of_faults(rt: HostRuntime) {
    for (fault, text) in &[
        (
            SourceFault::Read,
            "a read failed, or the input took too many reads",
        ),
        (SourceFault::TooLong, "the input is too long"),
        (SourceFault::OutOfMemory, "out of memory"),
    ] {
        assert!(rt; is_printed(rt.alloc(), fault, text), "{text}");
    }
    assert!(rt; is_printed(rt.alloc(), &WriteStopped, "a write failed or took nothing"));
}
