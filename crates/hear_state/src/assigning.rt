//! The rules of Assign_ONU-ID: `range`, `barred`, `unasked`, `taken`, `renumbered`.
ghost use Rattle.std.specs.Prelude.{◌≡◌};
ghost use Rattle.hear_rules.specs.Known as known;
ghost use Rattle.hear_rules.specs.Rules as rules;
ghost use Rattle.hear_state.specs.Facts.{fact_of, sure_of};
ghost use Rattle.hear_state.specs.Kept.{known_of};
ghost use Rattle.hear_state.specs.Rows.{number_of};

use crate::facts::{Fact, Sure, broken_if, is_other, judged_if};
use crate::knowledge::Knowledge;
use crate::rows::Row;
use gp_ploam::{Down, LAST_ONU, Serial};
use hear_rules::Verdict;

/// The first Alloc-ID that isn't an ONU-ID's own (G.984.3, clause 5).
const FIRST_ALLOC_ID: u16 = 256;

/// `range`: an ONU-ID that no unit may have is given, or an Alloc-ID below 256 that isn't the ONU-ID itself.
pub(crate) fn range(message: &Down) -> Verdict
    ensures { result ≡ rules.range message.now }
{
    match *message {
        Down::AssignOnu { onu, .. } => broken_if(onu > LAST_ONU),
        Down::AssignAlloc {
            onu,
            alloc,
            keep: true,
        } => broken_if(alloc < FIRST_ALLOC_ID && alloc != u16::from(onu)),
        _ => Verdict::NotJudged,
    }
}

/// A verdict that isn't judged of an ONU-ID that no unit may have, of which `range` is told.
fn assigning(onu: u8, verdict: Verdict) -> Verdict
    ensures { result ≡ rules.assigning onu verdict }
{
    judged_if(onu <= LAST_ONU, verdict)
}

/// Broken where a unit has no ask left.
fn broken_unasked(asks: Option<u64>) -> Verdict
    ensures { result ≡ rules.broken_unasked asks }
{
    match asks {
        None => Verdict::NotJudged,
        Some(0) => Verdict::Broken,
        Some(_) => Verdict::Kept,
    }
}

impl Knowledge {
    /// Whether a unit is known not to hold the ONU-ID that it is assigned.
    fn is_news(&self, onu: u8, serial: &Serial) -> Sure
        ensures { sure_of result ≡ known.is_news (known_of self.now) onu serial.now }
    {
        is_other(self.followed(serial).holds, onu)
    }

    /// `barred`: an ONU-ID is given to a disabled serial number.
    pub(crate) fn barred(&self, message: &Down) -> Verdict
        ensures { result ≡ rules.barred (known_of self.now) message.now }
    {
        match *message {
            Down::AssignOnu { onu, serial } => {
                let broken = self.followed(&serial).disabled.broken_where();
                assigning(onu, self.is_news(onu, &serial).given(broken))
            }
            _ => Verdict::NotJudged,
        }
    }

    /// `unasked`: an ONU-ID is given to a unit that has no ask left.
    pub(crate) fn unasked(&self, message: &Down) -> Verdict
        ensures { result ≡ rules.unasked (known_of self.now) message.now }
    {
        match *message {
            Down::AssignOnu { onu, serial } => {
                let broken = broken_unasked(self.followed(&serial).asks);
                let news = self.is_news(onu, &serial).given(broken);
                assigning(onu, judged_if(self.up, news))
            }
            _ => Verdict::NotJudged,
        }
    }

    /// Broken where another unit holds this row's ONU-ID, which didn't ask since it was assigned.
    fn taken_of(&self, row: &Row, serial: &Serial) -> Verdict
        ensures { result ≡ rules.taken_of ((known_of self.now).asked) (number_of row.now) serial.now }
    {
        match row {
            Row::Unheard => Verdict::NotJudged,
            Row::Nobodys => Verdict::Kept,
            Row::Of { serial: holder, .. } if serial == holder => Verdict::NotJudged,
            Row::Of { serial: holder, .. } => self.followed(holder).asked.unless(Verdict::Broken),
        }
    }

    /// `taken`: an ONU-ID is given that another unit holds.
    pub(crate) fn taken(&self, message: &Down) -> Verdict
        ensures { result ≡ rules.taken (known_of self.now) message.now }
    {
        match *message {
            Down::AssignOnu { onu, serial } => {
                let taken = self.taken_of(&self.row(onu), &serial);
                assigning(onu, judged_if(self.up, taken))
            }
            _ => Verdict::NotJudged,
        }
    }

    /// `renumbered`: a unit gets an ONU-ID that holds another.
    pub(crate) fn renumbered(&self, message: &Down) -> Verdict
        ensures { result ≡ rules.renumbered (known_of self.now) message.now }
    {
        match *message {
            Down::AssignOnu { onu, serial } => {
                let followed = self.followed(&serial);
                let renumbered = renumbered_from(followed.asked, followed.holds, onu);
                assigning(onu, judged_if(self.up, renumbered))
            }
            _ => Verdict::NotJudged,
        }
    }
}

/// Broken where a unit holds another ONU-ID than this one, and didn't ask since.
fn renumbered_from(asked: Sure, held: Fact<u8>, onu: u8) -> Verdict
    ensures { result ≡ rules.renumbered_from (sure_of asked) (fact_of held) onu }
{
    match held {
        Fact::Unknown => Verdict::NotJudged,
        Fact::Nothing => Verdict::Kept,
        Fact::Is(held) if held == onu => Verdict::NotJudged,
        Fact::Is(_) => asked.unless(Verdict::Broken),
    }
}
