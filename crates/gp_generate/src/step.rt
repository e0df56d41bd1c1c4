//! The steps of a scene, and the step at a place of one.
ghost use Rattle.std.specs.Prelude.{◌≡◌, ◌<◌, ◌≤◌, IfSome};
ghost use Rattle.gp_generate.specs.Scenes as spec;

use crate::scene::Scene;

/// What a unit says, and which.
#[derive(Clone, Copy, Debug, PartialEq, Eq)]
pub enum Words {
    /// The scene's unit, or the one so many places behind it, says its serial number and has no ONU-ID.
    New(u8),
    /// The same as a code, with a random delay.
    Code,
    /// The same with a wrong check octet.
    Garbled,
    /// A unit that is not admitted says its serial number.
    Stranger,
    /// The scene's unit says its serial number under ONU-ID 0.
    Own,
    /// The one behind it does.
    Other,
    /// The scene's unit does, from farther away than the equalized round-trip delay.
    Far,
    /// ONU-ID 0 is losing its power.
    Gasp,
    /// ONU-ID 0 has nothing to say.
    Nothing,
    /// ONU-ID 1 has nothing to say.
    Elsewhere,
    /// ONU-ID 0 acknowledges an Alloc-ID.
    Ack,
}

/// What the operator asks, of the scene's unit where nothing else is said.
#[derive(Clone, Copy, Debug, PartialEq, Eq)]
pub enum Order {
    Search,
    EnableAll,
    PopupAll,
    Alloc,
    /// The first further Alloc-ID is to be given back.
    Dealloc,
    Deactivate,
    Disable,
    Enable,
    Popup,
    Show,
    /// A unit that is not admitted.
    ShowStranger,
    /// The unit behind the scene's.
    PopupOther,
}

/// A step of a scene, which is an event.
#[derive(Clone, Copy, Debug, PartialEq, Eq)]
pub enum Step {
    /// So many frames go by; one where it says 0.
    Frames(u8),
    /// As many go by as there are from a unit's answer to the ranging window.
    Ranging,
    Say(Words),
    Ask(Order),
    /// Anything.
    Wild,
}

/// Where a scene begins. Before it all units of the port were silent for long, but for `Anywhere`.
#[derive(Clone, Copy, Debug, PartialEq, Eq)]
pub enum Opening {
    Anywhere,
    /// A search window is open.
    Window,
    /// A unit has ONU-ID 0, and its ranging window is open.
    Found,
    /// It was ranged, and its poll window is open.
    Operating,
}

/// How many steps a scene has at most.
const MOST_STEPS: usize = 1000;

/// The steps of the openings: of each as many as it needs.
const OPENING: [Step; 8] = [
    Step::Ask(Order::EnableAll),
    Step::Frames(100),
    Step::Ask(Order::Search),
    Step::Frames(5),
    Step::Say(Words::New(0)),
    Step::Ranging,
    Step::Say(Words::Own),
    Step::Frames(5),
];

/// Tells how many of these an opening has.
fn opening_length(opening: Opening) -> usize
    ensures value { result ≡ spec.opening_length opening }
    ensures few { result ≤ 8 }
{
    match opening {
        Opening::Anywhere => 0,
        Opening::Window => 4,
        Opening::Found => 6,
        Opening::Operating => 8,
    }
}

/// Gives the step at a place of so many turns, counted from 0.
fn turned(turn: &[Step], turns: usize, place: usize) -> Option<Step>
    ensures { result ≡ spec.turned turn.now turns place }
{
    if turn.is_empty() || place / turn.len() >= turns {
        None
    } else {
        Some(turn[place % turn.len()])
    }
}

/// Gives the step at a place of a scene, counted from 0, or nothing behind its end.
pub(crate) fn step_at(scene: Scene, place: usize) -> Option<Step>
    ensures value { result ≡ spec.step_at scene place }
    ensures near { IfSome result (λ _. place < 1000) }
{
    if place >= MOST_STEPS {
        return None;
    }
    let opened = opening_length(scene.opening());
    if place < opened {
        Some(OPENING[place])
    } else {
        turned(scene.turn(), scene.turns(), place - opened)
    }
}
