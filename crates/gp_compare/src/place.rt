//! How far two texts are the same.
ghost use Rattle.std.specs.Prelude.{◌≡◌, ◌<◌, ◌≤◌, ◌^◌, OnOk, length};
ghost use Rattle.gp_compare.specs.Place.{behind, behind_feed, behind_open, front, line_at, max_shown, octet_at};

use crate::shown::MAX_SHOWN;
use memchr::memchr;
use std::alloc::{AllocError, Global};
use std::marker::Model;

/// The octet that ends a line.
const LINE_FEED: u8 = b'\n';

/// A place in a text behind octets that were passed: which line it is in, how many octets of it were passed, and the
/// first [`MAX_SHOWN`] of them. Counts go no further than 64 bits hold.
#[derive(Drop)]
pub(crate) struct Place {
    feeds: u64,
    octets: u64,
    shown: Vec<u8>,
}

impl Model for Place {
    ghost use Rattle.std.specs.Prelude.{◌≤◌, vec_len};
    ghost use Rattle.gp_compare.specs.Place.{PlaceState, max_shown};

    ghost Value = { PlaceState };

    ghost view = { λ s. record { feeds = s.feeds; octets = s.octets; shown = s.shown.items } };

    ghost invariant = { λ s. vec_len s.shown ≤ max_shown };
}

impl Place {
    /// The front of a text.
    pub fn new(alloc: Global) -> Place
        ensures { result ≡ front }
    {
        Place {
            feeds: 0,
            octets: 0,
            shown: Vec::new(alloc),
        }
    }

    /// How many lines were passed with their line feeds.
    pub fn lines(&self) -> u64
        ensures { result ≡ self.now.feeds }
    {
        self.feeds
    }

    /// The line of the next octet, from 1.
    pub fn line(&self) -> u64
        ensures { result ≡ line_at self.now }
    {
        self.feeds.saturating_add(1)
    }

    /// Which octet of its line the next one is, from 1.
    pub fn octet(&self) -> u64
        ensures { result ≡ octet_at self.now }
    {
        self.octets.saturating_add(1)
    }

    /// How many octets of the open line were passed.
    pub fn octets(&self) -> u64
        ensures { result ≡ self.now.octets }
    {
        self.octets
    }

    /// Gives the first octets of the open line, at most [`MAX_SHOWN`].
    pub fn shown(&self) -> &[u8]
        ensures { result.now ≡ self.now.shown }
    {
        self.shown.as_slice()
    }

    /// Passes octets of the open line.
    fn pass_open(&mut self, part: &[u8]) -> Result<(), AllocError>
        ensures place { OnOk result (self.new ≡ behind_open self.old part.now) }
        ensures short { length self.old.shown ≤ max_shown }
        ensures small { self.old.octets < 2 ^ 64 }
    {
        let room = MAX_SHOWN - self.shown.len();
        let count = part.len().min(room);
        self.shown.extend_from_slice(&part[..count])?;
        self.octets = self.octets.saturating_add(part.len() as u64);
        Ok(())
    }

    /// Passes a line feed.
    fn pass_feed(&mut self)
        ensures { self.new ≡ behind_feed self.old }
    {
        self.shown.clear();
        self.octets = 0;
        self.feeds = self.feeds.saturating_add(1);
    }

    /// Passes octets. Where memory is refused, nothing is known of the place any more.
    pub fn pass(&mut self, octets: &[u8]) -> Result<(), AllocError>
        ensures { OnOk result (self.new ≡ behind self.old octets.now) }
    {
        let mut rest = octets;
        'lines: while let Some(at) = memchr(LINE_FEED, rest) {
            self.pass_feed();
            rest = &rest[at + 1..];
        }
        self.pass_open(rest)?;
        Ok(())
    }
}
