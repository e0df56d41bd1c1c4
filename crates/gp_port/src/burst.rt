//! A burst: it is read under the port's mask, refused as Stray or Garbled, or handed to the table of the open window;
//! in a ranging or poll window octet 1 has to be the ONU-ID that is asked.
ghost use Rattle.std.specs.Prelude.{◌≡◌, ◌+◌, ◌<◌, ◌≤◌, ◌^◌, None, Some, length};
ghost use Rattle.gp_ploam.specs.OnuIds.{onu_ids};
ghost use Rattle.gp_volley.specs.Copies.{copies_each, max_copies};
ghost use Rattle.gp_ranging.specs.declared.grant.Grant.TheVariants as grant;
ghost use Rattle.gp_machine.specs.declared.event.Event.TheVariants as event;
ghost use Rattle.gp_machine.specs.State.{Operates};
ghost use Rattle.gp_machine.specs.Sound.{IsSound};
ghost use Rattle.gp_machine.specs.Changes.{step_result_of};
ghost use Rattle.gp_machine.specs.Burst.{burst_response, message_response};
ghost use Rattle.gp_machine.specs.Step.{Step};
ghost use Rattle.gp_port.specs.Answers.{AnswersBurst, number_given};
ghost use Rattle.gp_port.specs.Numbers.{GrantsWish, PicksWished};

use super::answers::BurstAnswer;
use super::port_machine::PortMachine;
use gp_machine::{Answer, Refusal, one_outcome};
use gp_ploam::{Up, decode_up};
use gp_ranging::Grant;

impl PortMachine {
    /// Hears a burst after this round-trip delay in bit times; its octets are read under the port's mask. Its answer is
    /// written where the caller wants it.
    // Kept out of line, so that `step_into` is small and does not carry the locals of this call.
    #[inline(never)]
    pub(super) fn burst(
        &mut self,
        purse: u64,
        at: u32,
        bytes: &[u8; 13],
        wished: Option<u16>,
        answer: &mut Answer,
    ) -> u64
        requires sound { IsSound self.old }
        requires units { self.old.config.max_units ≤ onu_ids }
        requires purse { purse < 2 ^ 32 }
        ensures step { Step purse self.old (event.Burst at bytes.now) (step_result_of (answer.new, result) self.new) }
        ensures wished { GrantsWish purse self.old (event.Burst at bytes.now) wished
            (step_result_of (answer.new, result) self.new) }
    {
        one_outcome();
        let heard = decode_up(bytes, self.config.mask).ok();
        let (gives, purse) = self.receive(purse, at, heard, wished);
        gives.write(answer);
        purse
    }

    /// Hears a burst that is read as this message, or whose check octet is wrong.
    fn receive(
        &mut self,
        purse: u64,
        at: u32,
        heard: Option<Up>,
        wished: Option<u16>,
    ) -> (BurstAnswer, u64)
        requires sound { IsSound self.old }
        requires units { self.old.config.max_units ≤ onu_ids }
        requires purse { purse < 2 ^ 32 }
        ensures wished { PicksWished self.old (burst_response purse self.old at heard) wished (number_given result.0) }
        ensures outcome { AnswersBurst purse self.old (burst_response purse self.old at heard) result self.new }
    {
        let Some(window) = &self.window else {
            return self.refuse(purse, Refusal::Stray);
        };
        let grant = window.grant();
        let Some(message) = heard else {
            return self.refuse(purse, Refusal::Garbled);
        };
        match grant {
            Grant::Search => self.search(purse, message, wished),
            Grant::Range(onu) => self.in_range(purse, at, onu, message),
            Grant::Poll(onu) => self.in_poll(purse, at, onu, message),
        }
    }

    /// Hears a message in the window of a ranging unit: octet 1 has to be its ONU-ID.
    fn in_range(&mut self, purse: u64, at: u32, onu: u8, message: Up) -> (BurstAnswer, u64)
        requires sound { IsSound self.old }
        ensures { AnswersBurst purse self.old
            (message_response purse self.old at (grant.Range onu) message) result self.new }
    {
        match self.unit_with(onu) {
            Some((serial, row)) => {
                if message.octet1() != onu {
                    return self.refuse(purse, Refusal::WrongWindow);
                }
                self.ranging(purse, at, serial, row, message)
            }
            None => self.refuse(purse, Refusal::WrongWindow),
        }
    }

    /// Hears a message in the window of an operating unit: octet 1 has to be its ONU-ID.
    fn in_poll(&mut self, purse: u64, at: u32, onu: u8, message: Up) -> (BurstAnswer, u64)
        requires sound { IsSound self.old }
        requires purse { purse < 2 ^ 32 }
        requires room { length self.old.owed + copies_each ≤ max_copies }
        requires asked { Operates self.old.rows onu }
        ensures { AnswersBurst purse self.old
            (message_response purse self.old at (grant.Poll onu) message) result self.new }
    {
        match self.unit_with(onu) {
            Some((serial, row)) => {
                if message.octet1() != onu {
                    return self.refuse(purse, Refusal::WrongWindow);
                }
                self.operating(purse, serial, row, message)
            }
            None => self.refuse(purse, Refusal::WrongWindow),
        }
    }
}
