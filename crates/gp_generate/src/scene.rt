//! The scenes that a script is made of: where each begins, the steps of a turn, and how often that comes.
ghost use Rattle.std.specs.Prelude.{◌≡◌, ◌≤◌};
ghost use Rattle.gp_generate.specs.Scenes as spec;

use crate::step::{Opening, Order, Step, Words};

/// A scene.
#[derive(Clone, Copy, Debug, PartialEq, Eq)]
pub enum Scene {
    /// Whatever comes.
    Anything,
    /// Bursts while no window is open.
    Stray,
    /// More messages than may be owed.
    Flood,
    /// The same while a window is open.
    FloodedWindow,
    /// A unit that is silent.
    Silent,
    /// One whose answers are garbled.
    Garbled,
    /// Another one answers.
    Elsewhere,
    /// Answers to polls.
    Answers,
    /// An Alloc-ID that is not acknowledged.
    Unacknowledged,
    /// As many Alloc-IDs as there may be.
    ManyAllocs,
    /// Alloc-IDs that are given and taken back.
    GivenBack,
    /// A unit that is losing its power.
    Gasps,
    /// One that is to leave the POPUP state.
    Popup,
    /// All units that are.
    PopupAll,
    /// A unit that is removed.
    Removed,
    /// One that is disabled, and heard.
    Disabled,
    /// Commands about a unit that is ranging.
    Early,
    /// A unit too far away.
    TooFar,
    /// One that says something else than its serial number.
    StillRanging,
    /// One that is losing its power while it is ranged.
    GaspsEarly,
    /// Another one in a ranging window.
    Other,
    /// A unit that is silent while it is ranged.
    SilentEarly,
    /// What is no answer to a search.
    NoAnswer,
    /// Three units in one search window.
    Three,
    /// A unit with a random delay.
    Random,
    /// A unit that is heard twice.
    Twice,
    /// One that is heard when its ONU-ID was told.
    Again,
    /// A unit that begins anew.
    Anew,
    /// A search during a search.
    SearchTwice,
    /// Commands about units that are not there.
    Nobody,
}

/// All scenes.
pub const SCENES: [Scene; 30] = [
    Scene::Anything,
    Scene::Stray,
    Scene::Flood,
    Scene::FloodedWindow,
    Scene::Silent,
    Scene::Garbled,
    Scene::Elsewhere,
    Scene::Answers,
    Scene::Unacknowledged,
    Scene::ManyAllocs,
    Scene::GivenBack,
    Scene::Gasps,
    Scene::Popup,
    Scene::PopupAll,
    Scene::Removed,
    Scene::Disabled,
    Scene::Early,
    Scene::TooFar,
    Scene::StillRanging,
    Scene::GaspsEarly,
    Scene::Other,
    Scene::SilentEarly,
    Scene::NoAnswer,
    Scene::Three,
    Scene::Random,
    Scene::Twice,
    Scene::Again,
    Scene::Anew,
    Scene::SearchTwice,
    Scene::Nobody,
];

/// What may be said anywhere.
pub const SAYINGS: [Words; 11] = [
    Words::New(0),
    Words::Code,
    Words::Garbled,
    Words::Stranger,
    Words::Own,
    Words::Other,
    Words::Far,
    Words::Gasp,
    Words::Nothing,
    Words::Elsewhere,
    Words::Ack,
];

/// What may be asked anywhere.
pub const ORDERS: [Order; 12] = [
    Order::Search,
    Order::EnableAll,
    Order::PopupAll,
    Order::Alloc,
    Order::Dealloc,
    Order::Deactivate,
    Order::Disable,
    Order::Enable,
    Order::Popup,
    Order::Show,
    Order::ShowStranger,
    Order::PopupOther,
];

impl Scene {
    /// Gives where it begins.
    pub(crate) fn opening(self) -> Opening
        ensures { result ≡ spec.opening_of self }
    {
        match self {
            Scene::Anything | Scene::Flood | Scene::SearchTwice => Opening::Anywhere,
            Scene::Stray
            | Scene::FloodedWindow
            | Scene::NoAnswer
            | Scene::Three
            | Scene::Random
            | Scene::Twice
            | Scene::Again => Opening::Window,
            Scene::Early
            | Scene::TooFar
            | Scene::StillRanging
            | Scene::GaspsEarly
            | Scene::Other
            | Scene::SilentEarly => Opening::Found,
            _ => Opening::Operating,
        }
    }

    /// Gives the steps of a turn.
    pub(crate) fn turn(self) -> &'static [Step]
        ensures { result.now ≡ spec.turn_of self }
    {
        match self {
            Scene::Anything => &[Step::Wild],
            Scene::Stray => &[
                Step::Wild,
                Step::Frames(3),
                Step::Say(Words::New(0)),
                Step::Frames(30),
                Step::Say(Words::Nothing),
            ],
            Scene::Flood => &[Step::Ask(Order::PopupAll)],
            Scene::FloodedWindow => &[Step::Ask(Order::EnableAll), Step::Say(Words::New(0))],
            Scene::Silent => &[Step::Frames(4)],
            Scene::Garbled => &[Step::Say(Words::Garbled), Step::Frames(4)],
            Scene::Elsewhere => &[Step::Say(Words::Elsewhere), Step::Frames(4)],
            Scene::Answers => &[Step::Say(Words::Nothing), Step::Frames(1)],
            Scene::Unacknowledged => &[
                Step::Ask(Order::Alloc),
                Step::Say(Words::Nothing),
                Step::Frames(4),
            ],
            Scene::ManyAllocs => &[
                Step::Ask(Order::Alloc),
                Step::Frames(4),
                Step::Say(Words::Ack),
                Step::Frames(1),
            ],
            Scene::GivenBack => &[
                Step::Ask(Order::Alloc),
                Step::Frames(4),
                Step::Say(Words::Ack),
                Step::Ask(Order::Dealloc),
                Step::Ask(Order::Show),
                Step::Frames(4),
                Step::Say(Words::Ack),
                Step::Ask(Order::Dealloc),
                Step::Frames(1),
            ],
            Scene::Gasps => &[Step::Say(Words::Gasp), Step::Frames(4)],
            Scene::Popup => &[
                Step::Ask(Order::Popup),
                Step::Frames(4),
                Step::Say(Words::Nothing),
                Step::Frames(1),
            ],
            Scene::PopupAll => &[
                Step::Ask(Order::PopupAll),
                Step::Frames(5),
                Step::Say(Words::Own),
                Step::Frames(5),
            ],
            Scene::Removed => &[
                Step::Ask(Order::Show),
                Step::Ask(Order::Deactivate),
                Step::Ask(Order::Show),
                Step::Ask(Order::Deactivate),
                Step::Ask(Order::Alloc),
            ],
            Scene::Disabled => &[
                Step::Ask(Order::Disable),
                Step::Ask(Order::Search),
                Step::Frames(8),
                Step::Say(Words::New(0)),
                Step::Ask(Order::Enable),
                Step::Ask(Order::Disable),
            ],
            Scene::Early => &[
                Step::Ask(Order::Alloc),
                Step::Ask(Order::Popup),
                Step::Ask(Order::Dealloc),
                Step::Ask(Order::Show),
            ],
            Scene::TooFar => &[Step::Say(Words::Far), Step::Frames(4)],
            Scene::StillRanging => &[Step::Say(Words::Nothing), Step::Frames(4)],
            Scene::GaspsEarly => &[Step::Say(Words::Gasp), Step::Frames(4)],
            Scene::Other => &[Step::Say(Words::Other), Step::Frames(4)],
            Scene::SilentEarly => &[Step::Frames(4)],
            Scene::NoAnswer => &[
                Step::Say(Words::Stranger),
                Step::Say(Words::Garbled),
                Step::Say(Words::Nothing),
                Step::Say(Words::Far),
            ],
            Scene::Three => &[
                Step::Say(Words::New(0)),
                Step::Say(Words::New(1)),
                Step::Say(Words::New(2)),
                Step::Frames(6),
                Step::Say(Words::Own),
            ],
            Scene::Random => &[
                Step::Say(Words::Code),
                Step::Ranging,
                Step::Say(Words::Own),
                Step::Frames(5),
                Step::Ask(Order::Show),
            ],
            Scene::Twice => &[Step::Say(Words::New(0)), Step::Say(Words::New(0))],
            Scene::Again => &[Step::Say(Words::New(0)), Step::Frames(4)],
            Scene::Anew => &[
                Step::Ask(Order::Search),
                Step::Frames(8),
                Step::Say(Words::New(0)),
            ],
            Scene::SearchTwice => &[Step::Ask(Order::Search)],
            Scene::Nobody => &[
                Step::Ask(Order::ShowStranger),
                Step::Ask(Order::PopupOther),
                Step::Ask(Order::Show),
                Step::Frames(3),
            ],
        }
    }

    /// Gives how often a turn comes.
    pub(crate) fn turns(self) -> usize
        ensures { result ≡ spec.turns_of self }
    {
        match self {
            Scene::Anything => 12,
            Scene::Flood => 66,
            Scene::FloodedWindow => 64,
            Scene::Silent | Scene::Answers => 6,
            Scene::Garbled | Scene::Elsewhere | Scene::Unacknowledged | Scene::Again => 4,
            Scene::ManyAllocs => 10,
            Scene::GivenBack
            | Scene::Popup
            | Scene::PopupAll
            | Scene::Disabled
            | Scene::Twice
            | Scene::Anew => 2,
            Scene::Gasps
            | Scene::TooFar
            | Scene::StillRanging
            | Scene::GaspsEarly
            | Scene::Other
            | Scene::SilentEarly
            | Scene::SearchTwice => 3,
            _ => 1,
        }
    }
}
