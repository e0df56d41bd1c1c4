//! The commands deactivate, disable, enable and popup: each owes its message to the unit, or is refused and changes
//! nothing.
ghost use Rattle.std.specs.Prelude.{◌≡◌, ◌<◌, ◌^◌, None};
ghost use Rattle.std.specs.FinMap as map;
ghost use Rattle.gp_machine.specs.declared.event.Command.TheVariants as command;
ghost use Rattle.gp_machine.specs.State.{HasRow};
ghost use Rattle.gp_machine.specs.Sound.{IsSound};
ghost use Rattle.gp_machine.specs.Commands.{command_response, deactivate_response, disable_response, popup_response};
ghost use Rattle.gp_port.specs.Answers.{AnswersCommand};

use super::command::refused;
use super::port_machine::PortMachine;
use gp_machine::{Answer, Refusal, Reply, Row};
use gp_ploam::{Down, Serial};

impl PortMachine {
    /// Carries out the command deactivate.
    pub(super) fn command_deactivate(&mut self, purse: u64, serial: Serial) -> (Answer, u64)
        requires sound { IsSound self.old }
        requires purse { purse < 2 ^ 32 }
        ensures { AnswersCommand purse self.old
            (command_response self.old (command.Deactivate serial)) result self.new }
    {
        let Some(known) = self.look_up(&serial) else {
            return (refused(Refusal::NotAdmitted), purse);
        };
        match known.row {
            Some(row) => self.deactivate(purse, serial, row),
            None => (refused(Refusal::NotActive), purse),
        }
    }

    /// Removes the unit.
    fn deactivate(&mut self, purse: u64, serial: Serial, row: Row) -> (Answer, u64)
        requires sound { IsSound self.old }
        requires purse { purse < 2 ^ 32 }
        requires has { HasRow self.old.rows serial row }
        ensures { AnswersCommand purse self.old (deactivate_response self.old serial row) result self.new }
    {
        if !self.has_room() {
            return (refused(Refusal::Busy), purse);
        }
        let onu = row.onu;
        self.remove_unit(&serial, onu);
        self.owe(Down::Deactivate { onu });
        (Answer::from(Reply::Deactivated(onu)), purse + 1)
    }

    /// Carries out the command disable.
    pub(super) fn command_disable(&mut self, purse: u64, serial: Serial) -> (Answer, u64)
        requires sound { IsSound self.old }
        requires purse { purse < 2 ^ 32 }
        ensures { AnswersCommand purse self.old (command_response self.old (command.Disable serial)) result self.new }
    {
        let Some(known) = self.look_up(&serial) else {
            return (refused(Refusal::NotAdmitted), purse);
        };
        if !self.has_room() {
            return (refused(Refusal::Busy), purse);
        }
        let left = match known.row {
            Some(row) => {
                self.remove_unit(&serial, row.onu);
                purse + 1
            }
            None => purse,
        };
        self.disable(&serial);
        self.owe(Down::DisableSerial { serial });
        (Answer::from(Reply::Disabled), left)
    }

    /// Carries out the command enable.
    pub(super) fn command_enable(&mut self, purse: u64, serial: Serial) -> (Answer, u64)
        requires sound { IsSound self.old }
        ensures { AnswersCommand purse self.old (command_response self.old (command.Enable serial)) result self.new }
    {
        if self.look_up(&serial).is_none() {
            return (refused(Refusal::NotAdmitted), purse);
        }
        if !self.has_room() {
            return (refused(Refusal::Busy), purse);
        }
        self.enable(&serial);
        self.owe(Down::EnableSerial { serial });
        (Answer::from(Reply::Enabled), purse)
    }

    /// Carries out the command popup.
    pub(super) fn command_popup(&mut self, purse: u64, serial: Serial) -> (Answer, u64)
        requires sound { IsSound self.old }
        ensures { AnswersCommand purse self.old (command_response self.old (command.Popup serial)) result self.new }
    {
        let Some(known) = self.look_up(&serial) else {
            return (refused(Refusal::NotAdmitted), purse);
        };
        match known.row {
            Some(row) => self.popup(purse, row),
            None => (refused(Refusal::NotActive), purse),
        }
    }

    /// Tells an operating unit to leave the POPUP state.
    fn popup(&mut self, purse: u64, row: Row) -> (Answer, u64)
        requires sound { IsSound self.old }
        ensures { AnswersCommand purse self.old (popup_response self.old row) result self.new }
    {
        if row.phase.is_ranging() {
            return (refused(Refusal::NotOperating), purse);
        }
        if !self.has_room() {
            return (refused(Refusal::Busy), purse);
        }
        let onu = row.onu;
        self.owe(Down::Popup { onu });
        (Answer::from(Reply::PoppedUp(onu)), purse)
    }
}
