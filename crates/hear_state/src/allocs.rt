//! The rules of Assign_Alloc-ID that go by owners: `shared`, `not-held`.
ghost use Rattle.std.specs.Prelude.{◌≡◌};
ghost use Rattle.hear_rules.specs.Facts as facts;
ghost use Rattle.hear_rules.specs.Known as known;
ghost use Rattle.hear_rules.specs.Rules as rules;
ghost use Rattle.hear_state.specs.Facts.{fact_of};
ghost use Rattle.hear_state.specs.Kept.{known_of, owner_at};
ghost use Rattle.hear_state.specs.Owners.{owner_of};
ghost use Rattle.hear_state.specs.Rows.{number_of};

use crate::facts::{Fact, broken_if, judged_if};
use crate::knowledge::Knowledge;
use crate::owners::Owner;
use crate::rows::Row;
use gp_ploam::Down;
use hear_rules::Verdict;

/// The last Alloc-ID (G.984.3, clause 9).
const LAST_ALLOC_ID: u16 = 4095;

/// A verdict that isn't judged where nobody is known to hold the ONU-ID of a row.
fn to_holder(row: &Row, verdict: Verdict) -> Verdict
    ensures { result ≡ rules.to_holder (number_of row.now) verdict }
{
    match row {
        Row::Unheard | Row::Nobodys => Verdict::NotJudged,
        Row::Of { .. } => verdict,
    }
}

/// Broken where an Alloc-ID is known not to have been this ONU-ID's last.
fn broken_unless(last: Fact<u8>, onu: u8) -> Verdict
    ensures { result ≡ facts.broken_unless (fact_of last) onu }
{
    match last {
        Fact::Unknown => Verdict::NotJudged,
        Fact::Nothing => Verdict::Broken,
        Fact::Is(value) => broken_if(value != onu),
    }
}

/// Broken where an ONU-ID gives back an Alloc-ID that it neither has nor had last.
fn not_held_of(owner: Owner, onu: u8) -> Verdict
    ensures { result ≡ rules.not_held_of (owner_of owner) onu }
{
    match owner {
        Owner::Unclear => Verdict::NotJudged,
        Owner::Free { last } => broken_unless(last, onu),
        Owner::Has { onu: other, .. } if other == onu => Verdict::Kept,
        Owner::Has { last, .. } => broken_unless(last, onu),
    }
}

impl Knowledge {
    /// Gives whose an Alloc-ID is.
    fn owner(&self, alloc: u16) -> Owner
        ensures { owner_of result ≡ owner_at self.now alloc }
    {
        if alloc <= LAST_ALLOC_ID {
            return self.owners.owner(alloc);
        }
        match self.others.asks {
            None => Owner::Unclear,
            Some(_) => Owner::Free {
                last: Fact::Nothing,
            },
        }
    }

    /// Broken where a unit holds the ONU-ID of this row, which didn't ask since it was assigned.
    fn shared_with(&self, row: &Row) -> Verdict
        ensures { result ≡ rules.shared_with ((known_of self.now).asked) (number_of row.now) }
    {
        match row {
            Row::Unheard | Row::Nobodys => Verdict::NotJudged,
            Row::Of { serial: holder, .. } => self.followed(holder).asked.unless(Verdict::Broken),
        }
    }

    /// Broken where an ONU-ID gets an Alloc-ID that another unit has.
    fn shared_of(&self, owner: Owner, onu: u8) -> Verdict
        ensures { result ≡ rules.shared_of (known_of self.now) (owner_of owner) onu }
    {
        match owner {
            Owner::Unclear => Verdict::NotJudged,
            Owner::Free { .. } => Verdict::Kept,
            Owner::Has { onu: other, .. } if other == onu => Verdict::NotJudged,
            Owner::Has { onu: other, .. } => self.shared_with(&self.row(other)),
        }
    }

    /// `shared`: an Alloc-ID is given that another unit has.
    pub(crate) fn shared(&self, message: &Down) -> Verdict
        ensures { result ≡ rules.shared (known_of self.now) message.now }
    {
        match *message {
            Down::AssignAlloc {
                onu,
                alloc,
                keep: true,
            } => {
                let shared = self.shared_of(self.owner(alloc), onu);
                to_holder(&self.row(onu), judged_if(self.up, shared))
            }
            _ => Verdict::NotJudged,
        }
    }

    /// `not-held`: an Alloc-ID is taken back that the unit neither has nor had last.
    pub(crate) fn not_held(&self, message: &Down) -> Verdict
        ensures { result ≡ rules.not_held (known_of self.now) message.now }
    {
        match *message {
            Down::AssignAlloc {
                onu,
                alloc,
                keep: false,
            } => to_holder(&self.row(onu), not_held_of(self.owner(alloc), onu)),
            _ => Verdict::NotJudged,
        }
    }
}
