//! Losses that are looked up in order: numbers beside the list that they were given as, and runs into a list that is
//! lent, by the worked rows, beside the runs of a plan, and where memory is refused.
ghost use Rattle.std.specs.Prelude.{◌≡◌};

use super::runs::{
    ACTS, Act, IN_PARTS, LOSSES, PARTS, POPUP_AND_TIMERS, Plan, Run, TOLD, UNITS_AND_STEPS,
};
use super::{config_of, first_wrong, loses, play, units_of};
use gp_fibre::{LossPlan, Losses, LostNumbers, World, WorldFault, WorldStep};
use gp_licence::MAX_LICENCES;
use gp_machine::{Entry, Event, PortConfig};
use std::alloc::{AllocError, Global};
use std::marker::Brand;
use std::sync::ledger::{Blank, Ledger};

/// How the numbers of a list follow each other.
#[derive(Clone, Copy, Debug, PartialEq, Eq)]
enum Form {
    Rising,
    Falling,
    Twice,
    Scattered,
    Ends,
}

const FORMS: [Form; 5] = [
    Form::Rising,
    Form::Falling,
    Form::Twice,
    Form::Scattered,
    Form::Ends,
];

/// The number at this place of a list of so many.
fn number_at(form: Form, place: u64, count: u64) -> u64 {
    match form {
        Form::Rising => place,
        Form::Falling => count.saturating_sub(place),
        Form::Twice => place / 2,
        Form::Scattered => place.wrapping_mul(7) % 31,
        Form::Ends if place % 2 == 0 => u64::MAX - place / 2,
        Form::Ends => place / 2,
    }
}

/// Puts so many numbers into a list.
fn put_numbers(numbers: &mut Vec<u64>, form: Form, count: u64) -> Result<(), AllocError> {
    for place in 0..count {
        numbers.push(number_at(form, place, count))?;
    }
    Ok(())
}

/// Makes a list of so many numbers.
fn numbers_of(alloc: Global, form: Form, count: u64) -> Result<Vec<u64>, AllocError> {
    let mut numbers = Vec::new(alloc);
    put_numbers(&mut numbers, form, count)?;
    Ok(numbers)
}

/// The first of these numbers that is told otherwise than the list has it.
fn first_told_wrong(lost: &mut LostNumbers, given: &[u64], numbers: &[u64]) -> Option<u64> {
    for number in numbers {
        if lost.is_lost(*number) != given.contains(number) {
            return Some(*number);
        }
    }
    None
}

/// What is looked up: numbers that rise, one twice, and that fall, and the greatest.
const LOOKED_UP: [u64; 17] = [
    0,
    1,
    2,
    3,
    5,
    5,
    8,
    13,
    29,
    u64::MAX,
    u64::MAX - 7,
    31,
    30,
    6,
    4,
    1,
    0,
];

/// The same over and over, so often that the list is put in order and then looked up in order.
fn first_wrong_turn(lost: &mut LostNumbers, given: &[u64], turns: u32) -> Option<(u32, u64)> {
    for turn in 0..turns {
        if let Some(number) = first_told_wrong(lost, given, &LOOKED_UP) {
            return Some((turn, number));
        }
    }
    None
}

/// The first turn in which a list of so many numbers is told wrong, and the number.
fn wrong_turn_of(alloc: Global, form: Form, count: u64) -> Result<Option<(u32, u64)>, AllocError> {
    let given = numbers_of(alloc, form, count)?;
    let mut lost = LostNumbers::from(given.clone()?);
    Ok(first_wrong_turn(&mut lost, &given, 160))
}

/// How many numbers a list has.
const COUNTS: [u64; 5] = [0, 1, 2, 7, 40];

#[test]
fn numbers_beside_their_list(rt: HostRuntime) {
    for form in &FORMS {
        for count in &COUNTS {
            assert!(rt;
                wrong_turn_of(rt.alloc(), *form, *count) == Ok(None),
                "{count} numbers, {form:?}"
            );
        }
    }
}

/// Numbers, and whether the copy and the burst of each are lost by a plan.
const LOST: [(u64, bool, bool); 7] = [
    (0, false, true),
    (3, true, false),
    (4, true, false),
    (6, false, false),
    (99, false, true),
    (1_000_000, true, false),
    (u64::MAX, false, false),
];

/// The first of these numbers that is told otherwise.
fn first_lost_otherwise(losses: &mut Losses, numbers: &[(u64, bool, bool)]) -> Option<u64> {
    for (number, is_copy, is_burst) in numbers {
        let copy = losses.copies.is_lost(*number);
        let burst = losses.bursts.is_lost(*number);
        if copy != *is_copy || burst != *is_burst {
            return Some(*number);
        }
    }
    None
}

/// The same of the losses of a plan.
fn first_of_plan(alloc: Global) -> Result<Option<u64>, AllocError> {
    let mut losses = Losses::from(loses(alloc, &[3, 4, 5, 4, 1_000_000], &[99, 0])?);
    Ok(first_lost_otherwise(&mut losses, &LOST))
}

#[test]
fn losses_of_a_plan(rt: HostRuntime) {
    assert!(rt; first_of_plan(rt.alloc()) == Ok(None));
}

/// How many frames these entries are of.
fn frames_of(entries: &[Entry]) -> u32 {
    let mut frames: u32 = 0;
    for entry in entries {
        if entry.event == Event::Frame {
            frames = frames.saturating_add(1);
        }
    }
    frames
}

/// Makes so many frames, and the rest of them where memory was refused: the entries of those before it stand then.
fn run_at_last<L: Ledger>(
    world: &mut World<L>,
    frames: u32,
    losses: &mut Losses,
    lent: &mut Vec<Entry>,
    all: &mut Vec<Entry>,
) -> Result<(), WorldFault> {
    let made = world.run_into(frames, losses, lent);
    all.extend_from_slice(lent)?;
    if made != Err(WorldFault::OutOfMemory) {
        return made;
    }
    let before = frames_of(lent);
    world.run_into(frames.saturating_sub(before), losses, lent)?;
    all.extend_from_slice(lent)?;
    Ok(())
}

/// Makes a step, and once more where memory was refused: nothing had changed then.
fn step_at_last<L: Ledger>(
    world: &mut World<L>,
    step: WorldStep,
) -> Result<Option<Entry>, WorldFault> {
    match world.step(step) {
        Err(WorldFault::OutOfMemory) => world.step(step),
        given => given,
    }
}

/// Does one of these, and puts its entries behind all others.
fn done_into<L: Ledger>(
    world: &mut World<L>,
    act: Act,
    losses: &mut Losses,
    lent: &mut Vec<Entry>,
    all: &mut Vec<Entry>,
) -> Result<(), WorldFault> {
    match act {
        Act::Run(frames) => run_at_last(world, frames, losses, lent, all),
        Act::Step(step) => {
            let given = step_at_last(world, step)?;
            all.extend_from_slice(given.as_slice())?;
            Ok(())
        }
        Act::Forget => {
            world.forget();
            Ok(())
        }
    }
}

/// Does what a run does, and puts its entries behind all others.
fn all_done_into<L: Ledger>(
    world: &mut World<L>,
    run: Run,
    acts: &[(Run, Act)],
    losses: &mut Losses,
    lent: &mut Vec<Entry>,
    all: &mut Vec<Entry>,
) -> Result<(), WorldFault> {
    for (of, act) in acts {
        if *of == run {
            done_into(world, *act, losses, lent, all)?;
        }
    }
    Ok(())
}

/// Plays a run into a list that is lent, in a new world with one licence, and gives how many come back.
fn played_into<L: Ledger>(
    alloc: Global,
    blank: Blank,
    config: &PortConfig,
    plan: &Plan,
    acts: &[(Run, Act)],
    losses: &mut Losses,
    lists: (&mut Vec<Entry>, &mut Vec<Entry>),
) -> Result<u32, WorldFault>
    requires name { blank.name ≡ L.name }
    requires parts { (blank.parts ≡ L.parts) × (L.parts ≡ MAX_LICENCES) }
{
    let mut world = World::<L>::begin(alloc, blank, config, 1, units_of(plan))?;
    let (lent, all) = lists;
    let done = all_done_into(&mut world, plan.run, acts, losses, lent, all);
    let licences = world.close();
    done?;
    Ok(licences)
}

/// The same with a new ledger.
fn play_into(
    alloc: Global,
    plan: &Plan,
    acts: &[(Run, Act)],
    losses: &mut Losses,
    all: &mut Vec<Entry>,
) -> Result<u32, WorldFault> {
    let config = config_of(alloc, plan.cycles)?;
    let mut lent = Vec::new(alloc);
    let blank = Blank::new(u64::from(MAX_LICENCES));
    played_into::<Brand>(alloc, blank, &config, plan, acts, losses, (&mut lent, all))
}

/// Plays a worked run with these losses into a list that is lent, and gives the first wrong place, and how many
/// licences come back. There is room for the entries of a short run before it begins.
fn wrong_with(
    alloc: Global,
    plan: &Plan,
    losses: &mut Losses,
) -> Result<(Option<usize>, u32), WorldFault> {
    let mut entries = Vec::with_capacity(alloc, 64)?;
    let licences = play_into(alloc, plan, &ACTS, losses, &mut entries)?;
    Ok((first_wrong(&entries, plan.run, &TOLD), licences))
}

/// The same with the losses of the plan.
fn wrong_into(alloc: Global, plan: &Plan) -> Result<(Option<usize>, u32), WorldFault> {
    let mut losses = Losses::from(loses(alloc, plan.copies, plan.bursts)?);
    wrong_with(alloc, plan, &mut losses)
}

/// The same, and once more where there was no memory for a new world.
fn wrong_at_last(alloc: Global, plan: &Plan) -> Result<(Option<usize>, u32), WorldFault> {
    match wrong_into(alloc, plan) {
        Err(WorldFault::OutOfMemory) => wrong_into(alloc, plan),
        wrong => wrong,
    }
}

// Passes whichever one request for memory is refused, and with ample memory (`rt try --test --fail-alloc N`).
#[test]
fn short_of_memory(rt: HostRuntime) {
    for plan in &LOSSES {
        assert!(rt;
            wrong_at_last(rt.alloc(), plan) == Ok((None, 1)),
            "{:?}",
            plan.run
        );
    }
}

#[test]
fn worked_runs(rt: HostRuntime) {
    for plan in &POPUP_AND_TIMERS {
        assert!(rt;
            wrong_into(rt.alloc(), plan) == Ok((None, 1)),
            "{:?}",
            plan.run
        );
    }
    for plan in &UNITS_AND_STEPS {
        assert!(rt;
            wrong_into(rt.alloc(), plan) == Ok((None, 1)),
            "{:?}",
            plan.run
        );
    }
}

/// Looks up a number so often.
fn look_up(lost: &mut LostNumbers, times: u32) {
    for _ in 0..times {
        let _ = lost.is_lost(u64::MAX);
    }
}

/// Loses so many copies, and half as many bursts.
fn loss_of(alloc: Global, form: Form, count: u64) -> Result<LossPlan, AllocError> {
    let copies = numbers_of(alloc, form, count)?;
    let bursts = numbers_of(alloc, form, count / 2)?;
    Ok(LossPlan { copies, bursts })
}

/// What is played: the entries, and how many licences come back.
type Played = (Vec<Entry>, u32);

/// Plays the run in parts by a plan.
fn parts_by_plan(alloc: Global, loss: &LossPlan) -> Result<Played, WorldFault> {
    let mut entries = Vec::new(alloc);
    let licences = play(alloc, &IN_PARTS, &PARTS, loss, &mut entries)?;
    Ok((entries, licences))
}

/// Plays the run in parts into a list that is lent, where a number was looked up so often among both before.
fn parts_into(alloc: Global, loss: LossPlan, times: u32) -> Result<Played, WorldFault> {
    let mut losses = Losses::from(loss);
    look_up(&mut losses.copies, times);
    look_up(&mut losses.bursts, times);
    let mut entries = Vec::new(alloc);
    let licences = play_into(alloc, &IN_PARTS, &PARTS, &mut losses, &mut entries)?;
    Ok((entries, licences))
}

/// Tells whether the same entries are played, and as many licences come back.
fn are_same(by_plan: &Played, into: &Played) -> bool {
    by_plan.0.as_slice() == into.0.as_slice() && by_plan.1 == into.1
}

/// Tells whether the run in parts is the same by a plan and into a list that is lent, with losses of this form.
fn is_same_by_both(alloc: Global, form: Form, count: u64, times: u32) -> Result<bool, WorldFault> {
    let loss = loss_of(alloc, form, count)?;
    let by_plan = parts_by_plan(alloc, &loss)?;
    let into = parts_into(alloc, loss, times)?;
    Ok(are_same(&by_plan, &into))
}

/// How many numbers are lost, and how often one is looked up before: the losses stay as they were given, or are put in
/// order during the run, or before it.
const LOOK_UPS: [(u64, u32); 9] = [
    (0, 0),
    (1, 0),
    (2, 0),
    (5, 3),
    (9, 5),
    (9, 600),
    (40, 0),
    (40, 15),
    (40, 600),
];

#[test]
fn runs_by_both_forms(rt: HostRuntime) {
    for form in &FORMS {
        for (count, times) in &LOOK_UPS {
            assert!(rt;
                is_same_by_both(rt.alloc(), *form, *count, *times) == Ok(true),
                "{count} numbers, {form:?}, after {times} look-ups"
            );
        }
    }
}
