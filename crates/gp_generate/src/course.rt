//! The course of a script: the scene that it is in, and its next event.
ghost use Rattle.std.specs.Prelude.{◌≡◌, ◌<◌};
ghost use Rattle.gp_generate.specs.Course as spec;

use crate::cast::cast_of;
use crate::chance::{Draw, Drawn, begin, draw_four};
use crate::event::Event;
use crate::making::event_of_step;
use crate::plan::Plan;
use crate::scene::{ORDERS, SAYINGS, SCENES, Scene};
use crate::step::{Step, step_at};
use rand_pcg::Pcg32;
use std::marker::Model;

/// Of so many events one is anything.
const RARE: u32 = 32;

/// A step of a scene: by what draw the scene was opened, the place behind the step, and the step.
#[derive(Clone, Copy, Debug, PartialEq, Eq)]
pub struct Moment {
    pub opened: Draw,
    pub place: usize,
    pub step: Step,
}

/// The course of a script.
#[derive(Drop)]
pub(crate) struct Course {
    chance: Pcg32,
    opened: Draw,
    place: usize,
}

impl Model for Course {
    ghost use Rattle.gp_generate.specs.Course.{CourseState};

    ghost Value = { CourseState };

    ghost view = { λ c. record { chance = c.chance; opened = c.opened; place = c.place } };
}

/// Gives the scene that is opened by a draw; in a world of simulated units anything.
fn scene_of(plan: &Plan, opened: &Draw) -> Scene
    ensures { result ≡ spec.scene_of SCENES plan.now opened.now }
{
    if plan.units() == 0 {
        SCENES[opened.which as usize % SCENES.len()]
    } else {
        Scene::Anything
    }
}

/// Gives the first step of the scene that is opened by a draw.
fn first_step(plan: &Plan, opened: &Draw) -> Step
    ensures { result ≡ spec.first_step SCENES plan.now opened.now }
{
    match step_at(scene_of(plan, opened), 0) {
        Some(step) => step,
        None => Step::Wild,
    }
}

/// Gives the step at a place of a scene, or the first of a new one behind its end.
fn moment_of(plan: &Plan, opened: &Draw, place: usize, draw: &Draw) -> Moment
    ensures { result ≡ spec.moment_of SCENES plan.now opened.now place draw.now }
{
    match step_at(scene_of(plan, opened), place) {
        Some(step) => Moment {
            opened: *opened,
            place: place + 1,
            step,
        },
        None => Moment {
            opened: *draw,
            place: 1,
            step: first_step(plan, draw),
        },
    }
}

/// Gives a step, or now and then anything.
fn or_wild(step: Step, draw: &Draw) -> Step
    ensures { result ≡ spec.or_wild step draw.now }
{
    if draw.which / 256 % RARE == 0 {
        Step::Wild
    } else {
        step
    }
}

impl Course {
    /// Begins with a scene.
    #[tactic(auto, unfolding(crate::specs::Course::course_behind))]
    pub(crate) fn begin(plan: &Plan) -> Course
        ensures { result ≡ spec.course_behind SCENES plan.now 0 }
    {
        let mut chance = begin(plan.seed(), Drawn::Events);
        let opened = draw_four(&mut chance);
        Course {
            chance,
            opened,
            place: 0,
        }
    }

    /// Gives the next event, and goes on behind it.
    #[tactic(auto, unfolding(crate::specs::Course::course_next, crate::specs::Course::event_next))]
    pub(crate) fn next_event(&mut self, plan: &Plan) -> Event
        ensures event { result ≡ spec.event_next SCENES SAYINGS ORDERS plan.now self.old }
        ensures course { self.new ≡ spec.course_next SCENES plan.now self.old }
    {
        let draw = draw_four(&mut self.chance);
        let moment = moment_of(plan, &self.opened, self.place, &draw);
        self.opened = moment.opened;
        self.place = moment.place;
        let cast = cast_of(plan, &moment.opened);
        event_of_step(plan, &cast, or_wild(moment.step, &draw), &draw)
    }
}
