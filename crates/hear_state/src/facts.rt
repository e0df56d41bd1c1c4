//! What may be unknown, since a log begins in the middle (this profile's own rule), and verdicts by it.
ghost use Rattle.std.specs.Prelude.{◌≡◌};
ghost use Rattle.hear_rules.specs.Facts as spec;
ghost use Rattle.hear_rules.specs.Rules as rules;
ghost use Rattle.hear_state.specs.Facts.{fact_of, sure_of};

use hear_rules::Verdict;

/// A number, a unit, a delay: it isn't known, or it is known that there is none, or which it is.
#[derive(Clone, Copy, Debug, PartialEq, Eq)]
pub(crate) enum Fact<T> {
    Unknown,
    Nothing,
    Is(T),
}

/// Whether something is so.
#[derive(Clone, Copy, Debug, PartialEq, Eq)]
pub(crate) enum Sure {
    Unsure,
    Yes,
    No,
}

impl Sure {
    /// Broken where it is so.
    pub(crate) fn broken_where(self) -> Verdict
        ensures { result ≡ spec.broken_where (sure_of self) }
    {
        match self {
            Sure::Yes => Verdict::Broken,
            Sure::No => Verdict::Kept,
            Sure::Unsure => Verdict::NotJudged,
        }
    }

    /// A verdict that is judged only where this is sure.
    pub(crate) fn given(self, verdict: Verdict) -> Verdict
        ensures { result ≡ spec.given (sure_of self) verdict }
    {
        match self {
            Sure::Yes => verdict,
            Sure::No | Sure::Unsure => Verdict::NotJudged,
        }
    }

    /// A verdict that is judged but where this is sure not to be so.
    pub(crate) fn but_not(self, verdict: Verdict) -> Verdict
        ensures { result ≡ spec.but_not (sure_of self) verdict }
    {
        match self {
            Sure::No => Verdict::NotJudged,
            Sure::Yes | Sure::Unsure => verdict,
        }
    }

    /// A verdict that is judged only where this is sure not to be so.
    pub(crate) fn unless(self, verdict: Verdict) -> Verdict
        ensures { result ≡ spec.unless (sure_of self) verdict }
    {
        match self {
            Sure::No => verdict,
            Sure::Yes | Sure::Unsure => Verdict::NotJudged,
        }
    }
}

/// A verdict that is judged only where this is so.
pub(crate) fn judged_if(judged: bool, verdict: Verdict) -> Verdict
    ensures { result ≡ rules.judged_if judged verdict }
{
    if judged { verdict } else { Verdict::NotJudged }
}

/// Broken if this is so, kept if not.
pub(crate) fn broken_if(broken: bool) -> Verdict
    ensures { result ≡ spec.broken_if broken }
{
    if broken {
        Verdict::Broken
    } else {
        Verdict::Kept
    }
}

/// Whether a number is known to be another than this one, or none.
pub(crate) fn is_other(fact: Fact<u8>, number: u8) -> Sure
    ensures { sure_of result ≡ spec.is_other (fact_of fact) number }
{
    match fact {
        Fact::Unknown => Sure::Unsure,
        Fact::Is(value) if value == number => Sure::No,
        Fact::Nothing | Fact::Is(_) => Sure::Yes,
    }
}

/// Whether a delay is known to be another than this one, or none.
pub(crate) fn is_other_delay(fact: Fact<u32>, delay: u32) -> Sure
    ensures { sure_of result ≡ spec.is_other (fact_of fact) delay }
{
    match fact {
        Fact::Unknown => Sure::Unsure,
        Fact::Is(value) if value == delay => Sure::No,
        Fact::Nothing | Fact::Is(_) => Sure::Yes,
    }
}

/// Broken where there is known to be no delay.
pub(crate) fn broken_without(fact: Fact<u32>) -> Verdict
    ensures { result ≡ spec.broken_without (fact_of fact) }
{
    match fact {
        Fact::Unknown => Verdict::NotJudged,
        Fact::Nothing => Verdict::Broken,
        Fact::Is(_) => Verdict::Kept,
    }
}
