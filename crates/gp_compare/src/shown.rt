//! What is shown of a line.
ghost use Rattle.std.specs.Prelude.{◌≡◌, ◌≢◌, ◌≤◌, ◌↔◌, IfOk, IsTrue, OnOk, if◌then◌else◌, length};
ghost use Rattle.gp_compare.specs.Place.{max_shown};
ghost use Rattle.gp_compare.specs.Shown.{show, show_next, shown_view};

use std::alloc::{AllocError, Global};

/// How many octets of a line are shown at most.
pub const MAX_SHOWN: usize = 512;

/// The octet that ends a line.
const LINE_FEED: u8 = b'\n';

/// What stands behind the octets of a line that are shown.
#[derive(Clone, Copy, Debug, PartialEq, Eq)]
pub enum LineEnd {
    /// A line feed.
    Feed,
    /// Nothing: the text ends there. Where no octet is shown, it has no such line.
    Text,
    /// More octets of the line, which are not shown.
    More,
}

/// The first octets of a line, at most [`MAX_SHOWN`], and what stands behind them.
#[derive(Debug, Drop)]
pub struct ShownLine {
    /// The octets, without a line feed.
    pub octets: Vec<u8>,
    /// What stands behind them.
    pub end: LineEnd,
}

impl ShownLine {
    /// Tells whether what comes behind changes nothing of it.
    pub fn is_whole(&self) -> bool
        ensures { IsTrue result ↔ (self.now.end ≢ LineEnd.Text) }
    {
        match self.end {
            LineEnd::Text => false,
            LineEnd::Feed | LineEnd::More => true,
        }
    }

    /// Takes in what comes next of the text, an octet.
    fn take_octet(&mut self, octet: u8) -> Result<(), AllocError>
        ensures { OnOk result (shown_view self.new ≡ show_next (shown_view self.old) octet) }
    {
        match self.end {
            LineEnd::Feed | LineEnd::More => return Ok(()),
            LineEnd::Text => {}
        }
        if octet == LINE_FEED {
            self.end = LineEnd::Feed;
            return Ok(());
        }
        if self.octets.len() >= MAX_SHOWN {
            self.end = LineEnd::More;
            return Ok(());
        }
        self.octets.push(octet)?;
        Ok(())
    }

    /// Takes in what comes next of the text. Where memory is refused, a part of it may be left out.
    pub fn take(&mut self, octets: &[u8]) -> Result<(), AllocError>
        ensures { OnOk result (shown_view self.new ≡ show (shown_view self.old) octets.now) }
    {
        'octets: for octet in octets {
            self.take_octet(*octet)?;
        }
        Ok(())
    }
}
