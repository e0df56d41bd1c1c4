//! Worked runs of one port and its simulated units. The search itself is entry 0 of the port.
ghost use Rattle.std.specs.Prelude.{◌≡◌};

mod losses;
mod runs;

use crate::onu::prints;
use gp_fibre::{LossPlan, UnitPlan, World, WorldFault, WorldStep};
use gp_licence::MAX_LICENCES;
use gp_machine::{Admitted, Command, Entry, PortConfig, Reply};
use gp_ploam::Mask;
use runs::{
    A, ACTS, Act, FORGOTTEN, LOSSES, NEAR, POPUP_AND_TIMERS, Plan, Run, SHORT_OF_MEMORY, TOLD,
    Told, UNITS_AND_STEPS,
};
use std::alloc::{AllocError, Global};
use std::marker::Brand;
use std::sync::ledger::{Blank, Ledger};

/// The defaults, with A admitted.
fn config_of(alloc: Global, cycles: u8) -> Result<PortConfig, AllocError> {
    Ok(PortConfig {
        mask: Mask::Plain,
        teqd: 311_040,
        overhead: [0; 10],
        max_units: 254,
        alloc_last: 4095,
        cycles,
        search_period: 0,
        quarantine: 800,
        admitted: Admitted::from([A].to_vec(alloc)?),
    })
}

fn loses(alloc: Global, copies: &[u64], bursts: &[u64]) -> Result<LossPlan, AllocError> {
    Ok(LossPlan {
        copies: copies.to_vec(alloc)?,
        bursts: bursts.to_vec(alloc)?,
    })
}

/// Makes so many frames, and puts their entries behind all others.
fn frames_done<L: Ledger>(
    alloc: Global,
    world: &mut World<L>,
    frames: u32,
    loss: &LossPlan,
    all: &mut Vec<Entry>,
) -> Result<(), WorldFault> {
    let entries = world.run(alloc, frames, loss)?;
    all.extend_from_slice(&entries)?;
    Ok(())
}

/// Does one of these, and puts its entries behind all others.
fn done<L: Ledger>(
    alloc: Global,
    world: &mut World<L>,
    act: Act,
    loss: &LossPlan,
    all: &mut Vec<Entry>,
) -> Result<(), WorldFault> {
    match act {
        Act::Run(frames) => frames_done(alloc, world, frames, loss, all),
        Act::Step(step) => {
            let given = world.step(step)?;
            all.extend_from_slice(given.as_slice())?;
            Ok(())
        }
        Act::Forget => {
            world.forget();
            Ok(())
        }
    }
}

/// Does what a run does, and puts its entries behind all others.
fn all_done<L: Ledger>(
    alloc: Global,
    world: &mut World<L>,
    run: Run,
    acts: &[(Run, Act)],
    loss: &LossPlan,
    all: &mut Vec<Entry>,
) -> Result<(), WorldFault> {
    for (of, act) in acts {
        if *of == run {
            done(alloc, world, *act, loss, all)?;
        }
    }
    Ok(())
}

/// The units of a plan.
fn units_of(plan: &Plan) -> &[UnitPlan] {
    if plan.alone {
        &plan.units[..1]
    } else {
        &plan.units[..]
    }
}

/// Plays a run in a new world with one licence, and gives how many come back.
fn played<L: Ledger>(
    alloc: Global,
    blank: Blank,
    config: &PortConfig,
    plan: &Plan,
    acts: &[(Run, Act)],
    loss: &LossPlan,
    all: &mut Vec<Entry>,
) -> Result<u32, WorldFault>
    requires name { blank.name ≡ L.name }
    requires parts { (blank.parts ≡ L.parts) × (L.parts ≡ MAX_LICENCES) }
{
    let mut world = World::<L>::begin(alloc, blank, config, 1, units_of(plan))?;
    let done = all_done(alloc, &mut world, plan.run, acts, loss, all);
    let licences = world.close();
    done?;
    Ok(licences)
}

/// Plays a run with these losses, puts its entries into a list, and gives how many licences come back.
fn play(
    alloc: Global,
    plan: &Plan,
    acts: &[(Run, Act)],
    loss: &LossPlan,
    all: &mut Vec<Entry>,
) -> Result<u32, WorldFault> {
    let config = config_of(alloc, plan.cycles)?;
    let blank = Blank::new(u64::from(MAX_LICENCES));
    played::<Brand>(alloc, blank, &config, plan, acts, loss, all)
}

/// Tells whether the entries of a run have this at a place.
fn tells(entries: &[Entry], place: usize, told: Told) -> bool {
    match (told, entries.get(place)) {
        (Told::Replied(reply), Some(entry)) => entry.answer.reply == reply,
        (Told::Granted(grant), Some(entry)) => entry.answer.grant == Some(grant),
        (Told::Raised(alarm), Some(entry)) => entry.answer.alarm == Some(alarm),
        (Told::Ended, None) => entries.len() == place,
        _ => false,
    }
}

/// Gives the first place of a run at which its entries don't have what they have to.
fn first_wrong(entries: &[Entry], run: Run, rows: &[(Run, usize, Told)]) -> Option<usize> {
    for (of, place, told) in rows {
        if *of == run && !tells(entries, *place, *told) {
            return Some(*place);
        }
    }
    None
}

/// Plays a run with these losses, and gives the first wrong place, and how many licences come back.
fn wrong_with(
    alloc: Global,
    plan: &Plan,
    loss: &LossPlan,
) -> Result<(Option<usize>, u32), WorldFault> {
    let mut entries = Vec::new(alloc);
    let licences = play(alloc, plan, &ACTS, loss, &mut entries)?;
    Ok((first_wrong(&entries, plan.run, &TOLD), licences))
}

/// The same with the losses of the plan.
fn wrong_in(alloc: Global, plan: &Plan) -> Result<(Option<usize>, u32), WorldFault> {
    let loss = loses(alloc, plan.copies, plan.bursts)?;
    wrong_with(alloc, plan, &loss)
}

/// In each run the licence comes back.
#[test]
fn lost_copies(rt: HostRuntime) {
    for plan in &LOSSES {
        assert!(rt;
            wrong_in(rt.alloc(), plan) == Ok((None, 1)),
            "{:?}",
            plan.run
        );
    }
}

#[test]
fn unit_popup_and_timers(rt: HostRuntime) {
    for plan in &POPUP_AND_TIMERS {
        assert!(rt;
            wrong_in(rt.alloc(), plan) == Ok((None, 1)),
            "{:?}",
            plan.run
        );
    }
}

#[test]
fn units_and_steps(rt: HostRuntime) {
    for plan in &UNITS_AND_STEPS {
        assert!(rt;
            wrong_in(rt.alloc(), plan) == Ok((None, 1)),
            "{:?}",
            plan.run
        );
    }
}

/// Steps of a world with one unit, one after the other, and the fault of each, if it has one.
const STEPS: [(WorldStep, Option<WorldFault>); 9] = [
    (
        WorldStep::Deliver { copy: 0, unit: 0 },
        Some(WorldFault::NoCopy),
    ),
    (WorldStep::Command(Command::Search), None),
    (WorldStep::Frame, None),
    (WorldStep::Frame, None),
    (
        WorldStep::Deliver { copy: 0, unit: 1 },
        Some(WorldFault::NoUnit),
    ),
    (
        WorldStep::Give { grant: 0, unit: 0 },
        Some(WorldFault::NoGrant),
    ),
    (WorldStep::Arrive { burst: 0 }, Some(WorldFault::NoBurst)),
    (WorldStep::Light(1), Some(WorldFault::NoUnit)),
    (WorldStep::Dark(1), Some(WorldFault::NoUnit)),
];

/// The fault of a step, if it has one.
fn fault_of<L: Ledger>(world: &mut World<L>, step: WorldStep) -> Option<WorldFault> {
    world.step(step).err()
}

/// The place of the first of these steps that has another fault.
fn first_other<L: Ledger>(
    world: &mut World<L>,
    steps: &[(WorldStep, Option<WorldFault>)],
) -> Option<usize> {
    for (place, (step, fault)) in steps.iter().enumerate() {
        if fault_of(world, *step) != *fault {
            return Some(place);
        }
    }
    None
}

/// The same in a world with one unit.
fn first_other_of<L: Ledger>(
    alloc: Global,
    blank: Blank,
    config: &PortConfig,
) -> Result<Option<usize>, WorldFault>
    requires name { blank.name ≡ L.name }
    requires parts { (blank.parts ≡ L.parts) × (L.parts ≡ MAX_LICENCES) }
{
    let mut world = World::<L>::begin(alloc, blank, config, 1, &[NEAR])?;
    let place = first_other(&mut world, &STEPS);
    world.close();
    Ok(place)
}

/// The same with a new ledger.
fn first_other_fault(alloc: Global) -> Result<Option<usize>, WorldFault> {
    let config = config_of(alloc, 1)?;
    first_other_of::<Brand>(alloc, Blank::new(u64::from(MAX_LICENCES)), &config)
}

#[test]
fn world_faults(rt: HostRuntime) {
    assert!(rt; first_other_fault(rt.alloc()) == Ok(None));
}

/// Why no world begins with so many licences and these units, if none does.
fn limit_of<L: Ledger>(
    alloc: Global,
    blank: Blank,
    config: &PortConfig,
    licences: u32,
    plans: &[UnitPlan],
) -> Option<WorldFault>
    requires name { blank.name ≡ L.name }
    requires parts { (blank.parts ≡ L.parts) × (L.parts ≡ MAX_LICENCES) }
{
    match World::<L>::begin(alloc, blank, config, licences, plans) {
        Ok(world) => {
            world.close();
            None
        }
        Err(fault) => Some(fault),
    }
}

/// The same of the defaults but for the number of search windows.
fn limit_with(alloc: Global, cycles: u8, licences: u32, plans: &[UnitPlan]) -> Option<WorldFault> {
    let blank = Blank::new(u64::from(MAX_LICENCES));
    match config_of(alloc, cycles) {
        Ok(config) => limit_of::<Brand>(alloc, blank, &config, licences, plans),
        Err(_) => Some(WorldFault::OutOfMemory),
    }
}

/// The farthest unit that may be.
const FARTHEST: UnitPlan = UnitPlan {
    delay: 622_080,
    ..NEAR
};

const TOO_FAR: UnitPlan = UnitPlan {
    delay: 622_081,
    ..NEAR
};

const TOO_LATE: UnitPlan = UnitPlan {
    random: 4096,
    ..FARTHEST
};

/// With how many search windows, how many licences and which units no world begins: with one licence more than may
/// be, no search windows, and a unit that is too far away or answers too late.
const LIMITS: [(u8, u32, UnitPlan); 4] = [
    (1, 4065, FARTHEST),
    (0, 1, FARTHEST),
    (1, 1, TOO_FAR),
    (1, 1, TOO_LATE),
];

#[test]
fn limits(rt: HostRuntime) {
    for (cycles, licences, unit) in &LIMITS {
        let fault = limit_with(rt.alloc(), *cycles, *licences, &[*unit]);
        assert!(rt; fault == Some(WorldFault::Limit), "{licences} {unit:?}");
    }
}

/// Why no world begins with so many licences and so many of the farthest units, if none does.
fn limit_of_crowd(alloc: Global, licences: u32, count: usize) -> Option<WorldFault> {
    match vec![in alloc; FARTHEST; count] {
        Ok(units) => limit_with(alloc, 1, licences, &units),
        Err(_) => Some(WorldFault::OutOfMemory),
    }
}

/// The most licences and units are begun with; one more unit is not.
#[test]
fn most_units(rt: HostRuntime) {
    let most = limit_of_crowd(rt.alloc(), 4064, 1024);
    assert!(rt; most.is_none() || most == Some(WorldFault::OutOfMemory));
    assert!(rt; limit_of_crowd(rt.alloc(), 1, 1025) == Some(WorldFault::Limit));
}

const FAULT_TEXTS: [(WorldFault, &'static str); 6] = [
    (WorldFault::Limit, "a number is outside its range"),
    (WorldFault::NoCopy, "no such copy was sent"),
    (WorldFault::NoUnit, "there is no such unit"),
    (WorldFault::NoGrant, "no such grant was issued"),
    (WorldFault::NoBurst, "no such burst was answered"),
    (WorldFault::OutOfMemory, "out of memory"),
];

#[test]
fn fault_texts(rt: HostRuntime) {
    for (fault, text) in &FAULT_TEXTS {
        assert!(rt; prints(rt.alloc(), fault, text), "{text}");
    }
}

/// The reply of the last of these entries.
fn last_reply(entries: &[Entry]) -> Option<Reply> {
    match entries.last() {
        Some(entry) => Some(entry.answer.reply),
        None => None,
    }
}

/// Makes so many frames, and gives the last reply of the port.
fn reply_to_frames<L: Ledger>(
    alloc: Global,
    world: &mut World<L>,
    frames: u32,
    loss: &LossPlan,
) -> Result<Option<Reply>, WorldFault> {
    let entries = world.run(alloc, frames, loss)?;
    Ok(last_reply(&entries))
}

/// Does this, and gives the last reply of the port.
fn reply_to<L: Ledger>(
    alloc: Global,
    world: &mut World<L>,
    act: Act,
    loss: &LossPlan,
) -> Result<Option<Reply>, WorldFault> {
    match act {
        Act::Run(frames) => reply_to_frames(alloc, world, frames, loss),
        Act::Step(step) => {
            let given = world.step(step)?;
            Ok(last_reply(given.as_slice()))
        }
        Act::Forget => {
            world.forget();
            Ok(None)
        }
    }
}

/// Does this, and once more where memory was refused: nothing had changed then.
fn reply_at_last<L: Ledger>(
    alloc: Global,
    world: &mut World<L>,
    act: Act,
    loss: &LossPlan,
) -> Result<Option<Reply>, WorldFault> {
    match reply_to(alloc, world, act, loss) {
        Err(WorldFault::OutOfMemory) => reply_to(alloc, world, act, loss),
        reply => reply,
    }
}

/// Does all this, and gives the last reply of the port, or the first fault.
fn reply_to_all<L: Ledger>(
    alloc: Global,
    world: &mut World<L>,
    acts: &[Act],
    loss: &LossPlan,
) -> Result<Option<Reply>, WorldFault> {
    let mut reply = None;
    for act in acts {
        reply = reply_at_last(alloc, world, *act, loss)?;
    }
    Ok(reply)
}

/// The last reply in a world with one unit, or the first fault. There is no answer where memory for the world is
/// refused.
fn outcome_of<L: Ledger>(
    alloc: Global,
    blank: Blank,
    config: &PortConfig,
    acts: &[Act],
    loss: &LossPlan,
) -> Option<Result<Option<Reply>, WorldFault>>
    requires name { blank.name ≡ L.name }
    requires parts { (blank.parts ≡ L.parts) × (L.parts ≡ MAX_LICENCES) }
{
    let mut world = World::<L>::begin(alloc, blank, config, 1, &[NEAR]).ok()?;
    let reply = reply_to_all(alloc, &mut world, acts, loss);
    world.close();
    Some(reply)
}

/// The same with a new ledger.
fn outcome(alloc: Global, acts: &[Act]) -> Option<Result<Option<Reply>, WorldFault>> {
    let config = config_of(alloc, 1).ok()?;
    let loss = loses(alloc, &[], &[]).ok()?;
    let blank = Blank::new(u64::from(MAX_LICENCES));
    outcome_of::<Brand>(alloc, blank, &config, acts, &loss)
}

/// The same, and once more where memory for the world was refused.
fn outcome_at_last(alloc: Global, acts: &[Act]) -> Option<Result<Option<Reply>, WorldFault>> {
    match outcome(alloc, acts) {
        None => outcome(alloc, acts),
        found => found,
    }
}

/// Tells whether there is an outcome, and it is this.
fn is_told(
    found: Option<Result<Option<Reply>, WorldFault>>,
    wanted: Result<Option<Reply>, WorldFault>,
) -> bool {
    found == Some(wanted)
}

// Passes whichever one request for memory is refused, and with ample memory (`rt try --test --fail-alloc N`).
#[test]
fn memory_short_or_ample(rt: HostRuntime) {
    for (acts, reply) in &SHORT_OF_MEMORY {
        assert!(rt;
            is_told(outcome_at_last(rt.alloc(), acts), Ok(*reply)),
            "{reply:?}"
        );
    }
}

#[test]
fn nothing_asks_for_what_is_forgotten(rt: HostRuntime) {
    for (acts, fault) in &FORGOTTEN {
        assert!(rt;
            is_told(outcome(rt.alloc(), acts), Err(*fault)),
            "{fault:?}"
        );
    }
}
