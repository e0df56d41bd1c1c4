//! Sources that give an octet at a time, or fail in the middle.
use gp_compare::{CompareError, Difference, compare_text};
use gp_outcome::{Expected, judge};
use gp_stream::Source;
use std::alloc::Global;
use std::io;
use std::io::{ErrorKind, Read};

/// A reader that gives one octet at a time, and fails behind so many.
#[derive(Drop)]
struct Slow {
    octets: &'static [u8],
    at: usize,
    fails_at: usize,
}

impl Read for Slow {
    fn read(&mut self, buffer: &mut [u8]) -> io::Result<usize> {
        if self.at == self.fails_at {
            return Err(io::Error::from(ErrorKind::Other));
        }
        let Some(octet) = self.octets.get(self.at) else {
            return Ok(0);
        };
        let Some(first) = buffer.first_mut() else {
            return Ok(0);
        };
        *first = *octet;
        self.at = self.at.saturating_add(1);
        Ok(1)
    }
}

/// A source of these octets that fails behind so many.
fn source_of(octets: &'static [u8], fails_at: usize) -> Source<Slow> {
    Source::new(Slow {
        octets,
        at: 0,
        fails_at,
    })
}

/// Tells whether there is no difference.
fn are_same(alloc: Global, came: &[u8], octets: &'static [u8]) -> bool {
    match compare_text(alloc, came, source_of(octets, 100)) {
        Ok(difference) => difference.is_none(),
        Err(_) => false,
    }
}

/// Tells whether a difference is in the second line, where `cd` is expected.
fn is_second(difference: &Option<Difference>) -> bool {
    match difference {
        Some(difference) => {
            difference.line == 2 && difference.expected.octets.as_slice() == b"cd".as_slice()
        }
        None => false,
    }
}

/// Tells whether that is so of a text.
fn differs_second(alloc: Global, came: &[u8], octets: &'static [u8]) -> bool {
    match compare_text(alloc, came, source_of(octets, 100)) {
        Ok(difference) => is_second(&difference),
        Err(_) => false,
    }
}

#[test]
fn octets_may_come_one_by_one(rt: HostRuntime) {
    assert!(rt; are_same(rt.alloc(), b"ab\ncd\n", b"ab\ncd\n"));
    assert!(rt; differs_second(rt.alloc(), b"ab\nxd\n", b"ab\ncd\nef\n"));
}

/// Tells whether nothing more can be read of a source that came back.
fn is_spent(source: Source<Slow>) -> bool {
    !source.can_read()
}

/// Tells whether a source that fails behind so many octets comes back, and no read of it is left.
fn comes_back(alloc: Global, fails_at: usize) -> bool {
    match compare_text(alloc, b"ab\ncd\n", source_of(b"ab\ncd\n", fails_at)) {
        Ok(found) => {
            drop(found);
            false
        }
        Err(CompareError::Read(source)) => is_spent(source),
        Err(CompareError::OutOfMemory) => false,
    }
}

#[test]
fn a_read_that_fails_is_told_wherever_it_does(rt: HostRuntime) {
    for fails_at in 0..7 {
        assert!(rt; comes_back(rt.alloc(), fails_at), "{fails_at}");
    }
}

/// Tells whether what stands beside octets, and can't be read, comes back.
fn judging_gives_back(alloc: Global, octets: &[u8], beside: Expected<Slow>) -> bool {
    match judge(alloc, octets, beside) {
        Ok(found) => {
            drop(found);
            false
        }
        Err(CompareError::Read(source)) => is_spent(source),
        Err(CompareError::OutOfMemory) => false,
    }
}

#[test]
fn what_stands_beside_a_script_comes_back_where_it_can_t_be_read(rt: HostRuntime) {
    let script = b"licences = 1\n[[port]]\nadmit = []\n[[event]]\nport = 0\nframes = 3\n";
    let trace = Expected::Trace(source_of(b"0 0 frame = ok\n", 15));
    assert!(rt; judging_gives_back(rt.alloc(), script, trace));
    let faults = Expected::Faults(source_of(b"", 0));
    assert!(rt; judging_gives_back(rt.alloc(), b"licences = 0\n", faults));
}
