//! A message in a search window: a new unit takes a free ONU-ID and a licence, a ranging one begins anew, an operating
//! one is removed. The table is `SearchWindow` of `gp_machine`. How any burst is refused stands here too.
ghost use Rattle.std.specs.Prelude.{◌≡◌, ◌<◌, ◌≤◌, ◌^◌, None, true};
ghost use Rattle.std.specs.FinMap as map;
ghost use Rattle.std.specs.FinSet as set;
ghost use Rattle.gp_ploam.specs.OnuIds.{onu_ids};
ghost use Rattle.gp_ploam.specs.Serials.{is_among};
ghost use Rattle.gp_unit.specs.declared.row.Row.{Row};
ghost use Rattle.gp_machine.specs.State.{HasRow};
ghost use Rattle.gp_machine.specs.Sound.{IsSound};
ghost use Rattle.gp_machine.specs.SearchWindow.{active_response, admitted_response, again_response, enabled_response, newcomer_response, refuses_burst, search_response};
ghost use Rattle.gp_port.specs.Numbers.{PicksWished};
ghost use Rattle.gp_port.specs.Answers.{AnswersBurst, number_given};

use super::answers::{BurstAnswer, BurstReply, raises, replies};
use super::port_machine::PortMachine;
use gp_alarms::AlarmKind;
use gp_machine::{Phase, Refusal, Row};
use gp_ploam::{BROADCAST_ONU, Down, Serial, Up};
use gp_table::UnitEntry;

impl PortMachine {
    /// Refuses a burst: the window has seen it, and nothing else changes.
    pub(super) fn refuse(&mut self, purse: u64, refusal: Refusal) -> (BurstAnswer, u64)
        ensures { AnswersBurst purse self.old (refuses_burst refusal) result self.new }
    {
        self.mark_seen();
        (replies(BurstReply::Refused(refusal)), purse)
    }

    /// Hears a message in a search window. A new unit gets the wished ONU-ID, where that is free.
    pub(super) fn search(
        &mut self,
        purse: u64,
        message: Up,
        wished: Option<u16>,
    ) -> (BurstAnswer, u64)
        requires sound { IsSound self.old }
        requires units { self.old.config.max_units ≤ onu_ids }
        requires purse { purse < 2 ^ 32 }
        ensures wished { PicksWished self.old (search_response purse self.old message) wished (number_given result.0) }
        ensures outcome { AnswersBurst purse self.old (search_response purse self.old message) result self.new }
    {
        let Up::SerialNumber { onu, serial, .. } = message else {
            return self.refuse(purse, Refusal::WrongWindow);
        };
        if onu != BROADCAST_ONU {
            return self.refuse(purse, Refusal::WrongWindow);
        }
        let Some(known) = self.look_up(&serial) else {
            return self.refuse(purse, Refusal::NotAdmitted);
        };
        self.admitted(purse, serial, known, wished)
    }

    /// Hears an admitted unit.
    fn admitted(
        &mut self,
        purse: u64,
        serial: Serial,
        known: UnitEntry,
        wished: Option<u16>,
    ) -> (BurstAnswer, u64)
        requires sound { IsSound self.old }
        requires units { self.old.config.max_units ≤ onu_ids }
        requires purse { purse < 2 ^ 32 }
        requires admitted { is_among serial self.old.config.admitted ≡ true }
        requires disabled { known.disabled ≡ set.contains self.old.disabled serial }
        requires row { known.row ≡ map.get self.old.rows serial }
        ensures wished { PicksWished self.old (admitted_response purse self.old serial) wished (number_given result.0) }
        ensures outcome { AnswersBurst purse self.old (admitted_response purse self.old serial) result self.new }
    {
        if known.disabled {
            return (
                raises(BurstReply::DisabledSeen, AlarmKind::Df, serial),
                purse,
            );
        }
        match known.row {
            Some(row) => self.active(purse, serial, row),
            None => self.newcomer(purse, serial, wished),
        }
    }

    /// Hears an admitted unit that is not active.
    fn newcomer(&mut self, purse: u64, serial: Serial, wished: Option<u16>) -> (BurstAnswer, u64)
        requires sound { IsSound self.old }
        requires units { self.old.config.max_units ≤ onu_ids }
        requires admitted { is_among serial self.old.config.admitted ≡ true }
        requires unknown { map.get self.old.rows serial ≡ None }
        ensures wished { PicksWished self.old (newcomer_response purse self.old serial) wished (number_given result.0) }
        ensures outcome { AnswersBurst purse self.old (newcomer_response purse self.old serial) result self.new }
    {
        let Some(onu) = self.free_onu(wished) else {
            return self.refuse(purse, Refusal::NoId);
        };
        if purse == 0 {
            return self.refuse(purse, Refusal::NoLicence);
        }
        if !self.has_room() {
            return self.refuse(purse, Refusal::Busy);
        }
        self.add_unit(serial, onu);
        self.owe(Down::AssignOnu { onu, serial });
        (replies(BurstReply::Found(onu)), purse - 1)
    }

    /// Hears a unit that is active already: an operating one is removed.
    fn active(&mut self, purse: u64, serial: Serial, row: Row) -> (BurstAnswer, u64)
        requires sound { IsSound self.old }
        requires purse { purse < 2 ^ 32 }
        requires has { HasRow self.old.rows serial row }
        ensures { AnswersBurst purse self.old (active_response self.old serial row.onu row.phase) result self.new }
    {
        let onu = row.onu;
        match row.phase {
            Phase::Ranging { .. } => self.again(purse, serial, row),
            Phase::Operating { .. } => {
                if !self.has_room() {
                    return self.refuse(purse, Refusal::Busy);
                }
                self.remove_unit(&serial, onu);
                self.owe(Down::Deactivate { onu });
                (replies(BurstReply::Restarted(onu)), purse + 1)
            }
        }
    }

    /// Begins anew with a ranging unit and its own ONU-ID, which it is told again, but where it is still to be told it.
    fn again(&mut self, purse: u64, serial: Serial, row: Row) -> (BurstAnswer, u64)
        requires sound { IsSound self.old }
        requires has { HasRow self.old.rows serial row }
        ensures { AnswersBurst purse self.old (again_response self.old serial row.onu) result self.new }
    {
        let onu = row.onu;
        if self.owes_assign(onu, serial) {
            return (replies(BurstReply::Repeat(onu)), purse);
        }
        if !self.has_room() {
            return self.refuse(purse, Refusal::Busy);
        }
        self.restart_unit(serial, row);
        self.owe(Down::AssignOnu { onu, serial });
        (replies(BurstReply::Again(onu)), purse)
    }
}
