//! A frame: cooling, timer and the copy that is sent, then a frame off the open window, or the decision where no window
//! is open and nothing was owed. The tables are `Frame` and `Closes` of `gp_machine`.
ghost use Rattle.std.specs.Prelude.{◌≡◌, ℕ, ◌+◌, ◌-◌, ◌<◌, ◌≤◌, ◌^◌, None, Some, length, map};
ghost use Rattle.gp_volley.specs.Copies.{copies_each, first_of, max_copies};
ghost use Rattle.gp_machine.specs.Config.{max_search_period};
ghost use Rattle.gp_machine.specs.declared.event.Event.TheVariants as event;
ghost use Rattle.gp_machine.specs.Sound.{IsSound};
ghost use Rattle.gp_machine.specs.Step.{Step};
ghost use Rattle.gp_ploam.specs.declared.message.Down.TheVariants as down;
ghost use Rattle.gp_ploam.specs.Down.{IsProperDown};
ghost use Rattle.gp_unit.specs.Rows.{alarm_polled, row_unranged};
ghost use Rattle.gp_unit.specs.Sound.{IsSoundRow};
ghost use Rattle.gp_machine.specs.State.{HasRow};
ghost use Rattle.gp_machine.specs.Changes.{step_result_of};
ghost use Rattle.gp_machine.specs.Frame as spec;
ghost use Rattle.gp_machine.specs.Frame.{decided_response, frame_response, state_begun, window_response};
ghost use Rattle.gp_port.specs.Parts.{AreCandidates};
ghost use Rattle.gp_machine.specs.Closes.{poll_ended, suf_alarm, unpolled_response, unranged_response};
ghost use Rattle.gp_port.specs.Answers.{AnswersFrame};

use super::answers::{FrameAnswer, ticked};
use super::port_machine::PortMachine;
use gp_alarms::{Alarm, AlarmKind, Outcome};
use gp_common::{Common, Decision, decide};
use gp_machine::{Answer, Row};
use gp_ploam::{Down, Serial};
use gp_ranging::Grant;

impl PortMachine {
    /// Makes a frame: cooling, timer and sending, then the open window, or a decision. Its answer is written where the
    /// caller wants it.
    // Kept out of line, so that `step_into` is small and does not carry the locals of this call.
    #[inline(never)]
    pub(super) fn frame(&mut self, purse: u64, answer: &mut Answer) -> u64
        requires sound { IsSound self.old }
        requires purse { purse < 2 ^ 32 }
        requires period { self.old.config.search_period ≤ max_search_period }
        ensures { Step purse self.old event.Frame (step_result_of (answer.new, result) self.new) }
    {
        let (ranging, next) = self.candidates();
        let (gives, purse) = self.frame_by(purse, ranging, next);
        gives.write(answer);
        purse
    }

    /// Finds the least ranging unit and the one that is polled next, which only a frame that decides asks for.
    fn candidates(&self) -> (Option<u8>, Option<u8>)
        requires { IsSound self.now }
        ensures { AreCandidates self.now result }
    {
        if self.window.is_none() && self.owed.len_copies() == 0 {
            (self.least_ranging(), self.next_poll())
        } else {
            (None, None)
        }
    }

    /// Makes a frame, where these are the least ranging unit and the one that is polled next.
    fn frame_by(&mut self, purse: u64, ranging: Option<u8>, next: Option<u8>) -> (FrameAnswer, u64)
        requires sound { IsSound self.old }
        requires purse { purse < 2 ^ 32 }
        requires period { self.old.config.search_period ≤ max_search_period }
        ensures { AnswersFrame purse (state_begun self.old) (first_of self.old.owed)
            (frame_response self.old ranging next) result self.new }
    {
        let quiet = self.owed.len_copies() == 0;
        let sent = self.begin_frame();
        match &self.window {
            Some(window) => {
                let grant = window.grant();
                let seen = window.seen();
                let left = window.left();
                self.window_frame(purse, sent, grant, seen, left)
            }
            None if quiet => {
                let (common, decision) = decide(
                    self.common,
                    self.wanted,
                    ranging,
                    next,
                    self.config.cycles,
                );
                self.decided(purse, sent, common, decision)
            }
            None => (ticked(sent, None), purse),
        }
    }

    /// Begins a frame: cooling ONU-IDs have a frame less, the timer runs, and the first copy is sent.
    fn begin_frame(&mut self) -> Option<Down>
        requires timer { self.old.timer ≤ max_search_period }
        ensures first { result ≡ first_of self.old.owed }
        ensures state { self.new ≡ state_begun self.old }
    {
        self.cool();
        self.run_timer();
        self.owed.send_one()
    }

    /// Runs the timer of the search, which rises in standby.
    fn run_timer(&mut self)
        requires timer { self.old.timer ≤ max_search_period }
        ensures { self.new ≡ spec.state_after_timer self.old }
    {
        if matches!(self.common, Common::Standby) && self.config.search_period > 0 {
            self.timer += 1;
            if self.timer == self.config.search_period {
                self.timer = 0;
                self.wanted = true;
            }
        }
    }

    /// Takes a frame off the open window, which closes with its last.
    fn window_frame(
        &mut self,
        purse: u64,
        sent: Option<Down>,
        grant: Grant,
        seen: bool,
        left: u8,
    ) -> (FrameAnswer, u64)
        requires sound { IsSound self.old }
        requires purse { purse < 2 ^ 32 }
        requires window { self.old.window ≡ Some (record { grant = grant; left = left; seen = seen }) }
        ensures { AnswersFrame purse self.old sent
            (window_response self.old (record { grant = grant; left = left; seen = seen })) result self.new }
    {
        if left > 1 {
            self.count_down();
            return (ticked(sent, None), purse);
        }
        match grant {
            Grant::Search => {
                self.close_window();
                (ticked(sent, None), purse)
            }
            Grant::Range(onu) => match self.unit_with(onu) {
                Some((serial, row)) => self.unranged(purse, sent, serial, row, seen),
                None => {
                    self.close_window();
                    (ticked(sent, None), purse)
                }
            },
            Grant::Poll(onu) => match self.unit_with(onu) {
                Some((serial, row)) => self.unpolled(purse, sent, serial, row, seen),
                None => {
                    self.close_window();
                    (ticked(sent, None), purse)
                }
            },
        }
    }

    /// Does what follows from a decision.
    pub(super) fn decided(
        &mut self,
        purse: u64,
        sent: Option<Down>,
        common: Common,
        decision: Decision,
    ) -> (FrameAnswer, u64)
        requires idle { length self.old.owed + copies_each ≤ max_copies }
        ensures { AnswersFrame purse self.old sent (decided_response self.old (common, decision)) result self.new }
    {
        self.enter(common);
        match decision {
            Decision::Nothing => (ticked(sent, None), purse),
            Decision::Overhead => {
                self.want(false);
                let message = overhead_with(self.config.overhead);
                self.owe(message);
                (ticked(sent, None), purse)
            }
            Decision::Ask(grant) => {
                self.open_window(grant);
                let gives = FrameAnswer {
                    sent,
                    grant: Some(grant),
                    alarm: None,
                };
                (gives, purse)
            }
        }
    }

    /// Closes a ranging window without a result.
    pub(super) fn unranged(
        &mut self,
        purse: u64,
        sent: Option<Down>,
        serial: Serial,
        row: Row,
        heard: bool,
    ) -> (FrameAnswer, u64)
        requires fits { IsSoundRow self.old.config.alloc_last row }
        requires purse { purse < 2 ^ 32 }
        requires has { HasRow self.old.rows serial row }
        requires room { length self.old.owed + copies_each ≤ max_copies }
        ensures { AnswersFrame purse self.old sent
            (unranged_response serial row heard (row_unranged row heard row.phase)) result self.new }
    {
        let onu = row.onu;
        self.close_window();
        match row.unranged(heard) {
            Some(still) => {
                self.set_row(serial, still);
                (ticked(sent, None), purse)
            }
            None => {
                self.remove_unit(&serial, onu);
                self.owe(Down::Deactivate { onu });
                let alarm = suf(row.phase.was_seen() || heard, serial);
                (ticked(sent, alarm), purse + 1)
            }
        }
    }

    /// Closes a poll window with its last frame.
    pub(super) fn unpolled(
        &mut self,
        purse: u64,
        sent: Option<Down>,
        serial: Serial,
        row: Row,
        heard: bool,
    ) -> (FrameAnswer, u64)
        requires fits { IsSoundRow self.old.config.alloc_last row }
        requires purse { purse < 2 ^ 32 }
        requires has { HasRow self.old.rows serial row }
        requires room { length self.old.owed + copies_each ≤ max_copies }
        ensures { AnswersFrame purse self.old sent
            (unpolled_response serial row (poll_ended heard) (alarm_polled row (poll_ended heard))) result self.new }
    {
        let onu = row.onu;
        let (counts, alarm) = row.count_poll(ended(heard));
        self.close_window();
        match alarm {
            None => {
                self.set_counts(serial, row, counts);
                (ticked(sent, None), purse)
            }
            Some(kind) => {
                self.remove_unit(&serial, onu);
                self.owe(Down::Deactivate { onu });
                (ticked(sent, Some(Alarm { kind, serial })), purse + 1)
            }
        }
    }
}

/// Tells how a poll window ends that closes with its last frame.
fn ended(heard: bool) -> Outcome
    ensures { result ≡ poll_ended heard }
{
    if heard {
        Outcome::Garbled
    } else {
        Outcome::Dark
    }
}

/// Makes SUF of a unit of which something was heard while it was ranging.
fn suf(heard: bool, serial: Serial) -> Option<Alarm>
    ensures { result ≡ suf_alarm heard serial }
{
    let kind = AlarmKind::Suf;
    if heard {
        Some(Alarm { kind, serial })
    } else {
        None
    }
}

/// Makes Upstream_Overhead with these ten octets.
fn overhead_with(burst: [u8; 10]) -> Down
    ensures message { result ≡ down.UpstreamOverhead burst }
    ensures proper { IsProperDown result }
{
    Down::UpstreamOverhead { burst }
}
