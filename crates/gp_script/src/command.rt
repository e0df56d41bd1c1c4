//! Event tables with `command`: what the operator asks, by its word and the keys that this needs.
ghost use Rattle.std.specs.Prelude.{◌≡◌, IfOk};
ghost use Rattle.toml.specs.View.{table_view};
ghost use Rattle.gp_script.specs.Fault.{Sees};
ghost use Rattle.gp_script.specs.Command as spec;
ghost use Rattle.gp_script.specs.View.{NamesPort};

use crate::keys::{has_only, needed_number, needed_text};
use crate::place::{Key, Wanted};
use crate::script::ScriptEvent;
use crate::values::{in_range, port_in, serial_of};
use crate::walk::{TableFault, wanted_at};
use gp_machine::{Command, LAST_ALLOC_ID};
use gp_ploam::Serial;
use toml::Table;

/// A command to one unit, which has no key but the unit's serial number.
#[derive(Clone, Copy)]
enum UnitCommand {
    Alloc,
    Deactivate,
    Disable,
    Enable,
    Popup,
    Show,
}

/// What the word of a command asks for.
#[derive(Clone, Copy)]
enum CommandWord {
    /// A command that names no unit.
    OfPort(Command),
    /// A command to one unit.
    OfUnit(UnitCommand),
    /// A unit is to give an Alloc-ID back.
    Dealloc,
}

impl CommandWord {
    /// Tells what this word asks for, if it is known.
    fn from_text(text: &str) -> Option<CommandWord>
        ensures { result ≡ spec.command_word text.now }
    {
        match text {
            "search" => Some(CommandWord::OfPort(Command::Search)),
            "enable-all" => Some(CommandWord::OfPort(Command::EnableAll)),
            "popup-all" => Some(CommandWord::OfPort(Command::PopupAll)),
            "alloc" => Some(CommandWord::OfUnit(UnitCommand::Alloc)),
            "deactivate" => Some(CommandWord::OfUnit(UnitCommand::Deactivate)),
            "disable" => Some(CommandWord::OfUnit(UnitCommand::Disable)),
            "enable" => Some(CommandWord::OfUnit(UnitCommand::Enable)),
            "popup" => Some(CommandWord::OfUnit(UnitCommand::Popup)),
            "show" => Some(CommandWord::OfUnit(UnitCommand::Show)),
            "dealloc" => Some(CommandWord::Dealloc),
            _ => None,
        }
    }
}

impl UnitCommand {
    /// Gives the command to the unit with this serial number.
    fn to(self, serial: Serial) -> Command
        ensures { result ≡ spec.command_to serial self }
    {
        match self {
            UnitCommand::Alloc => Command::Alloc(serial),
            UnitCommand::Deactivate => Command::Deactivate(serial),
            UnitCommand::Disable => Command::Disable(serial),
            UnitCommand::Enable => Command::Enable(serial),
            UnitCommand::Popup => Command::Popup(serial),
            UnitCommand::Show => Command::Show(serial),
        }
    }
}

/// Reads a command that names no unit.
#[tactic(auto, unfolding(crate::specs::Command::port_command))]
fn port_command(ports: u8, command: Command, table: &Table) -> Result<ScriptEvent, TableFault<'_>>
    ensures value { Sees (λ e. e) result (spec.port_command ports command (table_view table.now)) }
    ensures port { IfOk result (λ e. NamesPort ports e) }
{
    has_only(table, &[Key::Port, Key::Command])?;
    let port = needed_number(table, Key::Port)?;
    let port = port_in(ports, port)?;
    Ok(ScriptEvent::Command { port, command })
}

/// Reads a command to one unit.
#[tactic(auto, unfolding(crate::specs::Command::unit_command))]
fn unit_command(
    ports: u8,
    command: UnitCommand,
    table: &Table,
) -> Result<ScriptEvent, TableFault<'_>>
    ensures value { Sees (λ e. e) result (spec.unit_command ports command (table_view table.now)) }
    ensures port { IfOk result (λ e. NamesPort ports e) }
{
    let keys = [Key::Port, Key::Command, Key::Serial];
    has_only(table, &keys)?;
    let port = needed_number(table, Key::Port)?;
    let serial = needed_text(table, Key::Serial)?;
    let port = port_in(ports, port)?;
    let serial = serial_of(serial)?;
    let command = command.to(serial);
    Ok(ScriptEvent::Command { port, command })
}

/// Reads the command that a unit is to give an Alloc-ID back.
#[tactic(auto, unfolding(crate::specs::Command::dealloc_command))]
fn dealloc_command(ports: u8, table: &Table) -> Result<ScriptEvent, TableFault<'_>>
    ensures value { Sees (λ e. e) result (spec.dealloc_command ports (table_view table.now)) }
    ensures port { IfOk result (λ e. NamesPort ports e) }
{
    let keys = [Key::Port, Key::Command, Key::Serial, Key::Alloc];
    has_only(table, &keys)?;
    let port = needed_number(table, Key::Port)?;
    let serial = needed_text(table, Key::Serial)?;
    let alloc = needed_number(table, Key::Alloc)?;
    let port = port_in(ports, port)?;
    let serial = serial_of(serial)?;
    let alloc = in_range(Key::Alloc, 0..=u32::from(LAST_ALLOC_ID), alloc)? as u16;
    let command = Command::Dealloc { serial, alloc };
    Ok(ScriptEvent::Command { port, command })
}

/// Reads what the operator asks, which is told by its word.
#[tactic(auto, unfolding(crate::specs::Command::command_event))]
pub(crate) fn command_event(ports: u8, table: &Table) -> Result<ScriptEvent, TableFault<'_>>
    ensures value { Sees (λ e. e) result (spec.command_event ports (table_view table.now)) }
    ensures port { IfOk result (λ e. NamesPort ports e) }
{
    let text = needed_text(table, Key::Command)?;
    let word = CommandWord::from_text(text).ok_or(wanted_at(Key::Command, Wanted::Word))?;
    match word {
        CommandWord::OfPort(command) => port_command(ports, command, table),
        CommandWord::OfUnit(command) => unit_command(ports, command, table),
        CommandWord::Dealloc => dealloc_command(ports, table),
    }
}
