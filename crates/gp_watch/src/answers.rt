//! The delays of one unit's answers, so many different ones as there is room for, and whether these are all.
ghost use Rattle.std.specs.Prelude.{◌≡◌, ◌<◌, None, Some, is_none};
ghost use Rattle.std.specs.FinSet as finset;
ghost use Rattle.gp_observer.specs.Observer.{some_passes};
ghost use Rattle.gp_observer.specs.Watch.{answers_of, with_answer};
ghost use Rattle.gp_observer.specs.Rules.{leaves_no_answer};
ghost use Rattle.gp_watch.specs.Heard.{settings_of};

use crate::heard::Settings;
use std::marker::Model;

/// How many different delays of one unit are kept.
const MOST_DELAYS: usize = 64;

/// The delays of the answers of one unit, once it gave its serial number with its ONU-ID. It takes no memory.
#[derive(Drop)]
pub(crate) struct UnitAnswers {
    /// The delays, in the order in which they came.
    delays: [u32; MOST_DELAYS],
    count: usize,
    /// Whether these are all of them.
    all: bool,
}

impl Model for UnitAnswers {
    ghost use Rattle.std.specs.Prelude.{Option};
    ghost use Rattle.std.specs.Coded.{coded_option};
    ghost use Rattle.gp_observer.specs.Watch.{Answers};
    ghost use Rattle.gp_watch.specs.Answers.{answers_code, answers_in, AreApart};

    ghost Value = { Option Answers };

    ghost coded = { coded_option answers_code };

    ghost view = { λ a. answers_in a.delays a.count a.all };

    ghost invariant = { λ a. AreApart a.delays a.count };
}

impl UnitAnswers {
    /// No answer.
    pub(crate) fn none() -> UnitAnswers
        ensures { result ≡ None }
    {
        UnitAnswers {
            delays: [0; MOST_DELAYS],
            count: 0,
            all: true,
        }
    }

    /// Forgets all answers.
    pub(crate) fn forget(&mut self)
        ensures { self.new ≡ None }
    {
        self.count = 0;
        self.all = true;
    }

    /// Tells whether there was none.
    pub(crate) fn is_none(&self) -> bool
        ensures { result ≡ is_none self.now }
    {
        self.count == 0 && self.all
    }

    /// Tells whether an answer had this delay.
    fn had(&self, delay: u32) -> bool
        ensures { result ≡ finset.contains (answers_of self.now).delays delay }
    {
        self.delays[..self.count].contains(&delay)
    }

    /// Notes the delay of one more answer.
    fn note_delay(&mut self, delay: u32)
        ensures { self.new ≡ Some (with_answer (answers_of self.old) (Some delay)) }
    {
        if self.had(delay) {
            return;
        }
        let count = self.count;
        if count < MOST_DELAYS {
            self.delays[count] = delay;
            self.count = count + 1;
        } else {
            self.all = false;
        }
    }

    /// Notes that one more answer had no delay.
    fn note_none(&mut self)
        ensures { self.new ≡ Some (with_answer (answers_of self.old) None) }
    {
        self.all = false;
    }

    /// Notes one more answer, with its delay where it was measured.
    pub(crate) fn note(&mut self, delay: Option<u32>)
        ensures { self.new ≡ Some (with_answer (answers_of self.old) delay) }
    {
        match delay {
            Some(delay) => self.note_delay(delay),
            None => self.note_none(),
        }
    }

    /// Tells whether there was an answer, and all their delays are known.
    pub(crate) fn are_known(&self) -> bool
        ensures { result ≡ some_passes (λ answers. answers.all) self.now }
    {
        !self.is_none() && self.all
    }

    /// Tells whether there was an answer, all their delays are known, and none of them is what this equalization delay
    /// leaves of the equalized delay.
    pub(crate) fn leave_none(&self, settings: &Settings, eqd: u32) -> bool
        ensures { result ≡ some_passes (leaves_no_answer (settings_of settings.now) eqd) self.now }
    {
        if !self.are_known() {
            return false;
        }
        eqd > settings.teqd || !self.had(settings.teqd - eqd)
    }
}
