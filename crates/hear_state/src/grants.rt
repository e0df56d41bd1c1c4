//! The rules of windows: `overhead`, `grant`.
ghost use Rattle.std.specs.Prelude.{◌≡◌};
ghost use Rattle.hear_rules.specs.Rules as rules;
ghost use Rattle.hear_state.specs.Facts.{sure_of};
ghost use Rattle.hear_state.specs.Kept.{known_of};
ghost use Rattle.hear_state.specs.Rows.{number_of};

use crate::facts::{Sure, broken_without};
use crate::knowledge::Knowledge;
use crate::ranging::held_by_none;
use crate::rows::Row;
use gp_ranging::Grant;
use hear_rules::Verdict;

/// Broken where a row's ONU-ID is polled that nobody holds, or whose unit has no delay.
fn polled(row: &Row) -> Verdict
    ensures { result ≡ rules.polled (number_of row.now) }
{
    match *row {
        Row::Unheard => Verdict::NotJudged,
        Row::Nobodys => Verdict::Broken,
        Row::Of { delay, .. } => broken_without(delay),
    }
}

/// Broken where no Upstream_Overhead was sent.
fn no_overhead(overhead: Sure) -> Verdict
    ensures { result ≡ rules.no_overhead (sure_of overhead) }
{
    match overhead {
        Sure::Yes => Verdict::Kept,
        Sure::No => Verdict::Broken,
        Sure::Unsure => Verdict::NotJudged,
    }
}

impl Knowledge {
    /// `grant`: a window is opened for an ONU-ID that nobody holds, or a poll window for a unit that has no delay.
    pub(crate) fn granted(&self, grant: &Grant) -> Verdict
        ensures { result ≡ rules.granted (known_of self.now) grant.now }
    {
        match *grant {
            Grant::Search => Verdict::NotJudged,
            Grant::Range(onu) => held_by_none(&self.row(onu)),
            Grant::Poll(onu) => polled(&self.row(onu)),
        }
    }

    /// `overhead`: a search is granted, and no Upstream_Overhead came before.
    pub(crate) fn overhead(&self, grant: &Grant) -> Verdict
        ensures { result ≡ rules.overhead (known_of self.now) grant.now }
    {
        match *grant {
            Grant::Search => no_overhead(self.overhead),
            Grant::Range(_) | Grant::Poll(_) => Verdict::NotJudged,
        }
    }
}
