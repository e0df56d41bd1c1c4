//! The commands alloc and dealloc: an operating unit is given a further Alloc-ID, or told to give one back. It has one
//! such change to acknowledge at a time.
ghost use Rattle.std.specs.Prelude.{◌≡◌, ◌≤◌, None};
ghost use Rattle.gp_pools.specs.Limits.{last_alloc_id};
ghost use Rattle.gp_machine.specs.declared.event.Command.TheVariants as command;
ghost use Rattle.gp_machine.specs.State.{HasRow};
ghost use Rattle.gp_machine.specs.Sound.{IsSound};
ghost use Rattle.gp_machine.specs.Commands.{alloc_response, command_response, dealloc_response};
ghost use Rattle.gp_port.specs.Numbers.{PicksWished, number_handed_out};
ghost use Rattle.gp_port.specs.Answers.{AnswersCommand};

use super::command::refused;
use super::port_machine::PortMachine;
use gp_machine::{Answer, Refusal, Reply, Row};
use gp_ploam::{Down, Serial};
use gp_unit::MAX_ALLOCS;

impl PortMachine {
    /// Carries out the command alloc; the Alloc-ID is the wished one, where that is free.
    pub(super) fn command_alloc(
        &mut self,
        purse: u64,
        serial: Serial,
        wished: Option<u16>,
    ) -> (Answer, u64)
        requires sound { IsSound self.old }
        requires last { self.old.config.alloc_last ≤ last_alloc_id }
        ensures wished { PicksWished self.old (command_response self.old (command.Alloc serial)) wished
            (number_handed_out result.0.reply) }
        ensures outcome { AnswersCommand purse self.old
            (command_response self.old (command.Alloc serial)) result self.new }
    {
        let Some(known) = self.look_up(&serial) else {
            return (refused(Refusal::NotAdmitted), purse);
        };
        match known.row {
            Some(row) => self.alloc(purse, serial, row, wished),
            None => (refused(Refusal::NotActive), purse),
        }
    }

    /// Gives an active unit a further Alloc-ID.
    fn alloc(&mut self, purse: u64, serial: Serial, row: Row, wished: Option<u16>) -> (Answer, u64)
        requires sound { IsSound self.old }
        requires last { self.old.config.alloc_last ≤ last_alloc_id }
        requires has { HasRow self.old.rows serial row }
        ensures wished { PicksWished self.old (alloc_response self.old serial row) wished
            (number_handed_out result.0.reply) }
        ensures outcome { AnswersCommand purse self.old (alloc_response self.old serial row) result self.new }
    {
        if row.phase.is_ranging() {
            return (refused(Refusal::NotOperating), purse);
        }
        if row.pending.is_some() {
            return (refused(Refusal::PendingAlloc), purse);
        }
        if row.allocs.len() == MAX_ALLOCS {
            return (refused(Refusal::AllocFull), purse);
        }
        let Some(alloc) = self.free_alloc(wished) else {
            return (refused(Refusal::NoAlloc), purse);
        };
        if !self.has_room() {
            return (refused(Refusal::Busy), purse);
        }
        let onu = row.onu;
        self.give_alloc(serial, row, alloc);
        self.owe(Down::AssignAlloc {
            onu,
            alloc,
            keep: true,
        });
        (Answer::from(Reply::Allocated(alloc)), purse)
    }

    /// Carries out the command dealloc.
    pub(super) fn command_dealloc(
        &mut self,
        purse: u64,
        serial: Serial,
        alloc: u16,
    ) -> (Answer, u64)
        requires sound { IsSound self.old }
        requires last { self.old.config.alloc_last ≤ last_alloc_id }
        ensures { AnswersCommand purse self.old
            (command_response self.old (command.Dealloc serial alloc)) result self.new }
    {
        let Some(known) = self.look_up(&serial) else {
            return (refused(Refusal::NotAdmitted), purse);
        };
        match known.row {
            Some(row) => self.dealloc(purse, serial, alloc, row),
            None => (refused(Refusal::NotActive), purse),
        }
    }

    /// Takes a further Alloc-ID back from an active unit.
    fn dealloc(&mut self, purse: u64, serial: Serial, alloc: u16, row: Row) -> (Answer, u64)
        requires sound { IsSound self.old }
        requires last { self.old.config.alloc_last ≤ last_alloc_id }
        requires has { HasRow self.old.rows serial row }
        ensures { AnswersCommand purse self.old (dealloc_response self.old serial alloc row) result self.new }
    {
        if row.phase.is_ranging() {
            return (refused(Refusal::NotOperating), purse);
        }
        if row.pending.is_some() {
            return (refused(Refusal::PendingAlloc), purse);
        }
        if !row.holds_alloc(alloc) {
            return (refused(Refusal::NotHeld), purse);
        }
        if !self.has_room() {
            return (refused(Refusal::Busy), purse);
        }
        let onu = row.onu;
        self.release_alloc(serial, row, alloc);
        self.owe(Down::AssignAlloc {
            onu,
            alloc,
            keep: false,
        });
        (Answer::from(Reply::Releasing(alloc)), purse)
    }
}
