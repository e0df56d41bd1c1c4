//! A message of the operating unit that is asked: an Acknowledge, a Dying_Gasp or any other, each of which closes the
//! window. The table is `PollWindow` of `gp_machine`.
ghost use Rattle.std.specs.Prelude.{◌≡◌, ◌+◌, ◌<◌, ◌≤◌, ◌^◌, None, Some, false, length};
ghost use Rattle.gp_volley.specs.Copies.{copies_each, max_copies};
ghost use Rattle.gp_alarms.specs.declared.poll.Outcome.TheVariants as poll;
ghost use Rattle.gp_unit.specs.Rows.{alarm_polled, is_ranging};
ghost use Rattle.gp_machine.specs.State.{HasRow};
ghost use Rattle.gp_machine.specs.Sound.{IsSound};
ghost use Rattle.gp_machine.specs.PollWindow.{acknowledged_response, alive_response, operating_response};
ghost use Rattle.gp_port.specs.Answers.{AnswersBurst};

use super::answers::{BurstAnswer, BurstReply, raises, replies};
use super::port_machine::PortMachine;
use gp_alarms::{AlarmKind, Outcome};
use gp_machine::Row;
use gp_ploam::{ASSIGN_ALLOC_ID, Down, Serial, Up};

impl PortMachine {
    /// Hears a message from the operating unit that is asked.
    pub(super) fn operating(
        &mut self,
        purse: u64,
        serial: Serial,
        row: Row,
        message: Up,
    ) -> (BurstAnswer, u64)
        requires sound { IsSound self.old }
        requires purse { purse < 2 ^ 32 }
        requires has { HasRow self.old.rows serial row }
        requires room { length self.old.owed + copies_each ≤ max_copies }
        requires operating { is_ranging row.phase ≡ false }
        ensures { AnswersBurst purse self.old (operating_response serial row message) result self.new }
    {
        match message {
            Up::Acknowledge { id, .. } if id == ASSIGN_ALLOC_ID => {
                self.acknowledged(purse, serial, row)
            }
            Up::DyingGasp { .. } => {
                let onu = row.onu;
                let (counts, _) = row.count_poll(Outcome::Gasped);
                self.close_window();
                self.set_counts(serial, row, counts);
                (raises(BurstReply::Gasp(onu), AlarmKind::Dg, serial), purse)
            }
            _ => self.alive(purse, serial, row),
        }
    }

    /// Hears an Acknowledge of an Assign_Alloc-ID; with nothing pending it is a message like any other.
    fn acknowledged(&mut self, purse: u64, serial: Serial, row: Row) -> (BurstAnswer, u64)
        requires sound { IsSound self.old }
        requires purse { purse < 2 ^ 32 }
        requires has { HasRow self.old.rows serial row }
        requires room { length self.old.owed + copies_each ≤ max_copies }
        requires operating { is_ranging row.phase ≡ false }
        ensures { AnswersBurst purse self.old (acknowledged_response serial row row.pending) result self.new }
    {
        let Some(alloc) = row.pending else {
            return self.alive(purse, serial, row);
        };
        self.close_window();
        self.acknowledge(serial, row, alloc);
        (replies(BurstReply::Acked(alloc)), purse)
    }

    /// Hears any other message of the operating unit that is asked; with an alarm the unit is removed.
    fn alive(&mut self, purse: u64, serial: Serial, row: Row) -> (BurstAnswer, u64)
        requires sound { IsSound self.old }
        requires purse { purse < 2 ^ 32 }
        requires has { HasRow self.old.rows serial row }
        requires room { length self.old.owed + copies_each ≤ max_copies }
        ensures { AnswersBurst purse self.old
            (alive_response serial row (alarm_polled row poll.Good)) result self.new }
    {
        let onu = row.onu;
        let (counts, alarm) = row.count_poll(Outcome::Good);
        self.close_window();
        match alarm {
            None => {
                self.set_counts(serial, row, counts);
                (replies(BurstReply::Alive(onu)), purse)
            }
            Some(kind) => {
                self.remove_unit(&serial, onu);
                self.owe(Down::Deactivate { onu });
                (raises(BurstReply::Alive(onu), kind, serial), purse + 1)
            }
        }
    }
}
