//! The operator's commands, by their numbers.
ghost use Rattle.std.specs.Prelude.{◌≡◌};
ghost use Rattle.gp_c.specs.Commands as spec;

use gp_machine::Command;
use gp_ploam::Serial;

/// Makes the command of this kind, if there is one: 0 search, 1 alloc, 2 dealloc, 3 deactivate, 4 disable, 5 enable,
/// 6 enable all, 7 popup, 8 popup all, 9 show. A kind that needs no serial number or no Alloc-ID doesn't look at it.
pub(crate) fn command_of(kind: u8, serial: Serial, alloc: u16) -> Option<Command>
    ensures { result ≡ spec.command_of kind serial alloc }
{
    match kind {
        0 => Some(Command::Search),
        1 => Some(Command::Alloc(serial)),
        2 => Some(Command::Dealloc { serial, alloc }),
        3 => Some(Command::Deactivate(serial)),
        4 => Some(Command::Disable(serial)),
        5 => Some(Command::Enable(serial)),
        6 => Some(Command::EnableAll),
        7 => Some(Command::Popup(serial)),
        8 => Some(Command::PopupAll),
        9 => Some(Command::Show(serial)),
        _ => None,
    }
}
