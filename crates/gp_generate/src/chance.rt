//! Numbers that are drawn by chance, four at a time, and from which list of draws.
ghost use Rattle.std.specs.Prelude.{◌≡◌};
ghost use Rattle.gp_generate.specs.Chance as spec;

use rand_core::utils::NextWord;
use rand_pcg::Pcg32;

/// What is drawn for one table of a script: four numbers.
#[derive(Clone, Copy, Debug, PartialEq, Eq)]
pub struct Draw {
    pub which: u32,
    pub who: u32,
    pub what: u32,
    pub place: u32,
}

/// The tables that are drawn, each kind from a stream of its own.
#[derive(Clone, Copy, Debug, PartialEq, Eq)]
pub enum Drawn {
    Top,
    Ports,
    Units,
    Losses,
    Events,
}

/// Gives the number of a stream.
fn stream_of(drawn: Drawn) -> u64
    ensures { result ≡ spec.stream_of drawn }
{
    match drawn {
        Drawn::Top => 0,
        Drawn::Ports => 1,
        Drawn::Units => 2,
        Drawn::Losses => 3,
        Drawn::Events => 4,
    }
}

/// Begins the stream of these tables.
#[tactic(auto, unfolding(crate::specs::Chance::chance_behind))]
pub(crate) fn begin(seed: u64, drawn: Drawn) -> Pcg32
    ensures { result ≡ spec.chance_behind seed drawn 0 }
{
    Pcg32::new(seed, stream_of(drawn))
}

/// Draws a number.
#[tactic(auto, unfolding(crate::specs::Chance::word_of, crate::specs::Chance::behind_word))]
fn word(chance: &mut Pcg32) -> u32
    ensures value { result ≡ spec.word_of chance.old }
    ensures rest { chance.new ≡ spec.behind_word chance.old }
{
    chance.next_word()
}

/// Draws four numbers.
#[tactic(auto, unfolding(crate::specs::Chance::draw_of, crate::specs::Chance::behind))]
pub(crate) fn draw_four(chance: &mut Pcg32) -> Draw
    ensures value { result ≡ spec.draw_of chance.old }
    ensures rest { chance.new ≡ spec.behind chance.old }
{
    let which = word(chance);
    let who = word(chance);
    let what = word(chance);
    let place = word(chance);
    Draw {
        which,
        who,
        what,
        place,
    }
}
