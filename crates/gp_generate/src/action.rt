//! What is done in a step, and what may be done anywhere.
ghost use Rattle.std.specs.Prelude.{◌≡◌, ◌<◌};
ghost use Rattle.gp_generate.specs.Actions as spec;

use crate::chance::Draw;
use crate::plan::Plan;
use crate::scene::{ORDERS, SAYINGS};
use crate::step::{Order, Step, Words};

/// What is done.
#[derive(Clone, Copy, Debug, PartialEq, Eq)]
pub enum Action {
    /// So many frames go by, 1 to 255.
    Frames(u8),
    Say(Words),
    Ask(Order),
    Light(bool),
}

/// Gives something that may be asked.
fn any_order(draw: &Draw) -> Action
    ensures { result ≡ spec.any_order ORDERS draw.now }
{
    Action::Ask(ORDERS[draw.what as usize % ORDERS.len()])
}

/// Gives something that may be said.
fn any_words(draw: &Draw) -> Action
    ensures { result ≡ spec.any_words SAYINGS draw.now }
{
    Action::Say(SAYINGS[draw.what as usize % SAYINGS.len()])
}

/// Gives so many frames, or fewer, and at least one.
fn any_frames(draw: &Draw, most: u8) -> Action
    requires { 0 < most }
    ensures { result ≡ spec.any_frames draw.now most }
{
    Action::Frames((draw.what % u32::from(most)) as u8 + 1)
}

/// Gives something that may happen at a port without simulated units.
fn wild_action(draw: &Draw) -> Action
    ensures { result ≡ spec.wild_action SAYINGS ORDERS draw.now }
{
    let kind = draw.which % 8;
    if kind < 3 {
        any_frames(draw, 12)
    } else if kind < 5 {
        any_order(draw)
    } else {
        any_words(draw)
    }
}

/// Gives something that may happen in a world of simulated units.
fn world_action(draw: &Draw) -> Action
    ensures { result ≡ spec.world_action SAYINGS ORDERS draw.now }
{
    let kind = draw.which % 16;
    if kind < 6 {
        any_frames(draw, 64)
    } else if kind < 8 {
        Action::Ask(Order::Search)
    } else if kind < 12 {
        any_order(draw)
    } else if kind < 15 {
        Action::Light(draw.what % 2 == 0)
    } else {
        any_words(draw)
    }
}

/// Gives anything that may happen.
pub(crate) fn any_action(plan: &Plan, draw: &Draw) -> Action
    ensures { result ≡ spec.any_action SAYINGS ORDERS plan.now draw.now }
{
    if plan.units() == 0 {
        wild_action(draw)
    } else {
        world_action(draw)
    }
}
