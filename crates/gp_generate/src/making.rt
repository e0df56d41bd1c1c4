//! The event that an action is, and the next event of a script.
ghost use Rattle.std.specs.Prelude.{◌≡◌, ◌<◌};
ghost use Rattle.gp_generate.specs.Making as spec;

use crate::action::{Action, any_action};
use crate::cast::{Cast, cast_anew, serial_of, stranger_of, unit_behind};
use crate::chance::Draw;
use crate::event::{Event, Said};
use crate::plan::Plan;
use crate::scene::{ORDERS, SAYINGS};
use crate::step::{Order, Step, Words};
use gp_machine::Command;
use gp_ploam::{BROADCAST_ONU, Mask, Serial, Up, encode_up};

/// How much farther away a unit is that is too far, in bit times.
const FARTHER: u32 = 400_000;
/// The identifier of Assign_Alloc-ID.
const ASSIGN_ALLOC: u8 = 10;
/// The first further Alloc-ID.
const FIRST_ALLOC: u16 = 256;

/// Gives the command that an order is.
fn command_of(plan: &Plan, cast: &Cast, order: Order) -> Command
    ensures { result ≡ spec.command_of plan.now cast.now order }
{
    let serial = serial_of(cast.port, cast.unit);
    match order {
        Order::Search => Command::Search,
        Order::EnableAll => Command::EnableAll,
        Order::PopupAll => Command::PopupAll,
        Order::Alloc => Command::Alloc(serial),
        Order::Dealloc => Command::Dealloc {
            serial,
            alloc: FIRST_ALLOC,
        },
        Order::Deactivate => Command::Deactivate(serial),
        Order::Disable => Command::Disable(serial),
        Order::Enable => Command::Enable(serial),
        Order::Popup => Command::Popup(serial),
        Order::Show => Command::Show(serial),
        Order::ShowStranger => Command::Show(stranger_of(cast.port, cast.unit)),
        Order::PopupOther => Command::Popup(serial_of(cast.port, unit_behind(plan, cast, 1))),
    }
}

/// Gives the code with which a unit that has no ONU-ID says its serial number.
#[tactic(auto, unfolding(crate::specs::Making::code_of))]
fn code_of(mask: Mask, serial: Serial, draw: &Draw) -> [u8; 13]
    ensures { result ≡ spec.code_of mask serial draw.now }
{
    let message = Up::SerialNumber {
        onu: BROADCAST_ONU,
        serial,
        random: (draw.what % 4096) as u16,
        flags: 0,
    };
    encode_up(&message, mask)
}

/// Gives the same code with a wrong check octet.
fn garbled_code(mask: Mask, serial: Serial, draw: &Draw) -> [u8; 13]
    ensures { result ≡ spec.garbled_code mask serial draw.now }
{
    let mut code = code_of(mask, serial, draw);
    code[12] ^= (draw.who % 255) as u8 + 1;
    code
}

/// Gives what is said in words, if it is.
fn said_of(plan: &Plan, cast: &Cast, words: Words) -> Option<Said>
    ensures { result ≡ spec.said_of plan.now cast.now words }
{
    let serial = serial_of(cast.port, cast.unit);
    match words {
        Words::New(places) => Some(Said::Serial {
            serial: serial_of(cast.port, unit_behind(plan, cast, places)),
            onu: BROADCAST_ONU,
        }),
        Words::Code | Words::Garbled => None,
        Words::Stranger => Some(Said::Serial {
            serial: stranger_of(cast.port, cast.unit),
            onu: BROADCAST_ONU,
        }),
        Words::Own | Words::Far => Some(Said::Serial { serial, onu: 0 }),
        Words::Other => Some(Said::Serial {
            serial: serial_of(cast.port, unit_behind(plan, cast, 1)),
            onu: 0,
        }),
        Words::Gasp => Some(Said::Gasp { onu: 0 }),
        Words::Nothing => Some(Said::Nothing { onu: 0 }),
        Words::Elsewhere => Some(Said::Nothing { onu: 1 }),
        Words::Ack => Some(Said::Ack {
            onu: 0,
            id: ASSIGN_ALLOC,
        }),
    }
}

/// Gives the code of what isn't said in words.
fn code_said(plan: &Plan, cast: &Cast, words: Words, draw: &Draw) -> [u8; 13]
    ensures { result ≡ spec.code_said plan.now cast.now words draw.now }
{
    let serial = serial_of(cast.port, cast.unit);
    match words {
        Words::Garbled => garbled_code(plan.mask(), serial, draw),
        _ => code_of(plan.mask(), serial, draw),
    }
}

/// Gives from how far away it is said.
fn distance_of(cast: &Cast, words: Words) -> u32
    requires { cast.now.at < 300000 }
    ensures { result ≡ spec.distance_of cast.now words }
{
    match words {
        Words::Far => cast.at + FARTHER,
        _ => cast.at,
    }
}

/// Gives the burst in which something is said.
fn burst_of(plan: &Plan, cast: &Cast, words: Words, draw: &Draw) -> Event
    requires { cast.now.at < 300000 }
    ensures { result ≡ spec.burst_of plan.now cast.now words draw.now }
{
    let (port, at) = (cast.port, distance_of(cast, words));
    match said_of(plan, cast, words) {
        Some(said) => Event::Say { port, at, said },
        None => Event::Burst {
            port,
            at,
            code: code_said(plan, cast, words, draw),
        },
    }
}

/// Gives the event that an action is.
fn event_of(plan: &Plan, cast: &Cast, action: Action, draw: &Draw) -> Event
    requires { cast.now.at < 300000 }
    ensures { result ≡ spec.event_of plan.now cast.now action draw.now }
{
    match action {
        Action::Frames(count) => Event::Frames {
            port: cast.port,
            count: u32::from(count).max(1),
        },
        Action::Say(words) => burst_of(plan, cast, words, draw),
        Action::Ask(order) => Event::Command {
            port: cast.port,
            command: command_of(plan, cast, order),
        },
        Action::Light(lit) => Event::Light {
            unit: cast.unit,
            lit,
        },
    }
}

/// Gives the event of a step.
pub(crate) fn event_of_step(plan: &Plan, cast: &Cast, step: Step, draw: &Draw) -> Event
    requires { cast.now.at < 300000 }
    ensures { result ≡ spec.event_of_step SAYINGS ORDERS plan.now cast.now step draw.now }
{
    match step {
        Step::Frames(count) => event_of(plan, cast, Action::Frames(count), draw),
        Step::Ranging => event_of(plan, cast, Action::Frames(4 * plan.cycles(cast.port)), draw),
        Step::Say(words) => event_of(plan, cast, Action::Say(words), draw),
        Step::Ask(order) => event_of(plan, cast, Action::Ask(order), draw),
        Step::Wild => {
            let action = any_action(plan, draw);
            event_of(plan, &cast_anew(plan, cast, draw), action, draw)
        }
    }
}
