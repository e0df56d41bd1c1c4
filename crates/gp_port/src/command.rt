//! The commands of the operator: which method carries out each, and those that stand here, search, enable all, popup
//! all and show.
ghost use Rattle.std.specs.Prelude.{◌≡◌, ◌<◌, ◌≤◌, ◌^◌, None};
ghost use Rattle.gp_ploam.specs.OnuIds.{onu_ids};
ghost use Rattle.gp_pools.specs.Limits.{last_alloc_id};
ghost use Rattle.gp_machine.specs.declared.event.Command.TheVariants as command;
ghost use Rattle.gp_machine.specs.declared.reply.Reply.TheVariants as reply;
ghost use Rattle.gp_machine.specs.Sound.{IsSound};
ghost use Rattle.gp_machine.specs.Responses.{bare_answer};
ghost use Rattle.gp_machine.specs.Commands.{command_response};
ghost use Rattle.gp_port.specs.Numbers.{PicksWished, number_handed_out};
ghost use Rattle.gp_port.specs.Answers.{AnswersCommand};

use super::port_machine::PortMachine;
use gp_common::Common;
use gp_machine::{Answer, Command, Refusal, Reply};
use gp_ploam::{BROADCAST_ONU, Down, Serial};

impl PortMachine {
    /// Carries out a command. An Alloc-ID that a unit gets is the wished one, where that is free.
    // Kept out of line, so that `step_into` is small and does not carry the locals of this call.
    #[inline(never)]
    pub(super) fn command(
        &mut self,
        purse: u64,
        command: Command,
        wished: Option<u16>,
    ) -> (Answer, u64)
        requires sound { IsSound self.old }
        requires units { self.old.config.max_units ≤ onu_ids }
        requires last { self.old.config.alloc_last ≤ last_alloc_id }
        requires purse { purse < 2 ^ 32 }
        ensures wished { PicksWished self.old (command_response self.old command) wished
            (number_handed_out result.0.reply) }
        ensures outcome { AnswersCommand purse self.old (command_response self.old command) result self.new }
    {
        match command {
            Command::Search => self.command_search(purse),
            Command::Alloc(serial) => self.command_alloc(purse, serial, wished),
            Command::Dealloc { serial, alloc } => self.command_dealloc(purse, serial, alloc),
            Command::Deactivate(serial) => self.command_deactivate(purse, serial),
            Command::Disable(serial) => self.command_disable(purse, serial),
            Command::Enable(serial) => self.command_enable(purse, serial),
            Command::EnableAll => self.command_enable_all(purse),
            Command::Popup(serial) => self.command_popup(purse, serial),
            Command::PopupAll => self.command_popup_all(purse),
            Command::Show(serial) => self.command_show(purse, serial),
        }
    }

    /// Carries out the command search.
    fn command_search(&mut self, purse: u64) -> (Answer, u64)
        ensures { AnswersCommand purse self.old (command_response self.old command.Search) result self.new }
    {
        if self.wanted || matches!(self.common, Common::Acquisition(_)) {
            return (refused(Refusal::AlreadySearching), purse);
        }
        self.want(true);
        (Answer::from(Reply::Searching), purse)
    }

    /// Carries out the command enable all.
    fn command_enable_all(&mut self, purse: u64) -> (Answer, u64)
        requires sound { IsSound self.old }
        ensures { AnswersCommand purse self.old (command_response self.old command.EnableAll) result self.new }
    {
        if !self.has_room() {
            return (refused(Refusal::Busy), purse);
        }
        self.enable_all();
        self.owe(Down::EnableAll);
        (Answer::from(Reply::EnabledAll), purse)
    }

    /// Carries out the command popup to all units.
    fn command_popup_all(&mut self, purse: u64) -> (Answer, u64)
        requires sound { IsSound self.old }
        requires units { self.old.config.max_units ≤ onu_ids }
        ensures { AnswersCommand purse self.old (command_response self.old command.PopupAll) result self.new }
    {
        if !self.has_room() {
            return (refused(Refusal::Busy), purse);
        }
        let count = self.pop_up_all();
        self.owe(Down::Popup { onu: BROADCAST_ONU });
        (Answer::from(Reply::PoppedUpAll(count)), purse)
    }

    /// Carries out the command show.
    fn command_show(&mut self, purse: u64, serial: Serial) -> (Answer, u64)
        ensures { AnswersCommand purse self.old (command_response self.old (command.Show serial)) result self.new }
    {
        let Some(known) = self.look_up(&serial) else {
            return (refused(Refusal::NotAdmitted), purse);
        };
        match known.row {
            Some(row) => (Answer::from(Reply::Shown(row)), purse),
            None => (refused(Refusal::NotActive), purse),
        }
    }
}

/// Makes the answer to a command that is refused.
pub(super) fn refused(refusal: Refusal) -> Answer
    ensures { result ≡ bare_answer (reply.Refused refusal) }
{
    Answer::from(Reply::Refused(refusal))
}
