//! A message of the ranging unit that is asked: its serial number gives its equalization delay, if it is near enough,
//! and then it operates. The table is `RangeWindow` of `gp_machine`.
ghost use Rattle.std.specs.Prelude.{◌≡◌, None};
ghost use Rattle.gp_machine.specs.State.{HasRow};
ghost use Rattle.gp_machine.specs.Sound.{IsSound};
ghost use Rattle.gp_machine.specs.RangeWindow.{measured_response, ranging_response};
ghost use Rattle.gp_ranging.specs.Delay.{equalization_delay};
ghost use Rattle.gp_port.specs.Answers.{AnswersBurst};

use super::answers::{BurstAnswer, BurstReply, raises, replies};
use super::port_machine::PortMachine;
use gp_alarms::AlarmKind;
use gp_machine::{Refusal, Row};
use gp_ploam::{Down, Serial, Up};
use gp_ranging::equalize;

impl PortMachine {
    /// Hears a message from the ranging unit that is asked, after a round-trip delay in bit times.
    pub(super) fn ranging(
        &mut self,
        purse: u64,
        at: u32,
        serial: Serial,
        row: Row,
        message: Up,
    ) -> (BurstAnswer, u64)
        requires sound { IsSound self.old }
        requires has { HasRow self.old.rows serial row }
        ensures { AnswersBurst purse self.old (ranging_response self.old at serial row message) result self.new }
    {
        let onu = row.onu;
        match message {
            Up::SerialNumber { serial: told, .. } => {
                if told != serial {
                    return self.refuse(purse, Refusal::WrongWindow);
                }
                self.measured(purse, at, serial, row)
            }
            Up::DyingGasp { .. } => {
                self.mark_seen();
                (raises(BurstReply::Gasp(onu), AlarmKind::Dg, serial), purse)
            }
            _ => {
                self.mark_seen();
                (replies(BurstReply::StillRanging(onu)), purse)
            }
        }
    }

    /// Hears the serial number of the unit that is asked.
    fn measured(&mut self, purse: u64, at: u32, serial: Serial, row: Row) -> (BurstAnswer, u64)
        requires sound { IsSound self.old }
        requires has { HasRow self.old.rows serial row }
        ensures { AnswersBurst purse self.old
            (measured_response self.old serial row (equalization_delay self.old.config.teqd at)) result self.new }
    {
        let onu = row.onu;
        let Some(eqd) = equalize(self.config.teqd, at) else {
            self.mark_seen();
            return (replies(BurstReply::TooFar(onu)), purse);
        };
        if !self.has_room() {
            return self.refuse(purse, Refusal::Busy);
        }
        self.close_window();
        self.set_row(serial, row.measured(eqd));
        self.owe(Down::RangingTime { onu, eqd });
        (replies(BurstReply::Ranged { onu, eqd }), purse)
    }
}
