//! What no clause says of a plan that is stormed: on which port each burst is served; and, with faults that come at
//! once, whose is told.
use gp_chassis::ChassisConfig;
use gp_licence::MAX_LICENCES;
use gp_machine::{Command, Entry, Event};
use gp_script::read_storm_script;
use gp_storm::{Plan, StormFault, plan_of, storm};
use std::alloc::{AllocError, Global};
use std::marker::Brand;
use std::sync::Wait;
use std::sync::ledger::Blank;
use std::thread::Threads;

/// Three ports with a burst on the first, two on the second and three on the third, each of another delay.
const BURSTS: &str = r#"
licences = 1
port = [{}, {}, {}]
event = [
    {port = 2, at = 20, say = "none", onu = 0},
    {port = 0, at = 0, say = "none", onu = 0},
    {port = 1, at = 10, say = "none", onu = 0},
    {port = 2, at = 21, say = "none", onu = 0},
    {port = 2, at = 22, say = "none", onu = 0},
    {port = 1, at = 11, say = "none", onu = 0},
]
"#;

/// Two ports whose journals keep an entry each.
const ONE_ENTRY_A_PORT: &str = "licences = 1\njournal_limit = 1\nport = [{}, {}]\nevent = []\n";

/// A script's chassis and its plan, if it is read.
fn opened(alloc: Global, text: &str) -> Option<(ChassisConfig, Plan)> {
    let script = read_storm_script(alloc, text.as_bytes()).ok()?;
    let plan = plan_of(alloc, &script).ok()?;
    let config = ChassisConfig {
        licences: script.licences,
        journal_limit: script.journal_limit,
        ports: script.ports,
    };
    Some((config, plan))
}

/// Tells whether the entries are of so many bursts, whose delays are counted up from the first one.
fn are_bursts(entries: &[Entry], first: u32, count: usize) -> bool {
    let mut delay = first;
    for entry in entries {
        if !matches!(entry.event, Event::Burst { at, .. } if at == delay) {
            return false;
        }
        delay = delay.wrapping_add(1);
    }
    entries.len() == count
}

/// Tells whether each journal of a storm has the bursts of its port, in order.
fn keeps_bursts<R: Threads + Wait + Sync>(rt: &R, alloc: Global) -> Option<bool> {
    let (config, plan) = opened(alloc, BURSTS)?;
    let blank = Blank::new(u64::from(MAX_LICENCES));
    let closed = storm::<Brand, R>(rt, alloc, blank, &config, &plan).ok()?;
    let [first, second, third] = closed.journals.as_slice() else {
        return None;
    };
    Some(
        are_bursts(first.entries(), 0, 1)
            && are_bursts(second.entries(), 10, 2)
            && are_bursts(third.entries(), 20, 3),
    )
}

#[test]
fn each_port_has_its_bursts(rt: HostRuntime) {
    assert!(rt; keeps_bursts(&rt, rt.alloc()) == Some(true));
}

/// What is asked for on two ports whose journals keep an entry each, and the fault that is told.
#[derive(Clone, Copy)]
struct Row {
    /// The ports of the operator's commands.
    commands: &'static [u8],
    /// On how many ports, and how often on each of them, a burst comes.
    bursts: (usize, usize),
    /// The port of the clock's one frame.
    frame: u8,
    fault: StormFault,
}

const FAULTS: &[Row] = &[
    // The operator's fault comes before those of the readers and of the clock.
    Row {
        commands: &[9],
        bursts: (2, 2),
        frame: 0,
        fault: StormFault::NoPort,
    },
    Row {
        commands: &[0, 0],
        bursts: (2, 0),
        frame: 9,
        fault: StormFault::JournalFull,
    },
    // A reader's comes before the clock's.
    Row {
        commands: &[],
        bursts: (2, 2),
        frame: 9,
        fault: StormFault::JournalFull,
    },
    // The clock's is told where there is no other.
    Row {
        commands: &[],
        bursts: (1, 1),
        frame: 9,
        fault: StormFault::NoPort,
    },
    // A list of bursts for a third port is one for a port that is not there, although it has none.
    Row {
        commands: &[],
        bursts: (3, 0),
        frame: 0,
        fault: StormFault::NoPort,
    },
];

/// The plan of a row.
fn planned(alloc: Global, row: &Row) -> Result<Plan, AllocError> {
    let mut plan = Plan {
        bursts: Vec::new(alloc),
        frames: vec![in alloc; (row.frame, 1)]?,
        commands: Vec::new(alloc),
    };
    for port in row.commands {
        plan.commands.push((*port, Command::Search))?;
    }
    for _ in 0..row.bursts.0 {
        plan.bursts
            .push(vec![in alloc; (0, [0; 13]); row.bursts.1]?)?;
    }
    Ok(plan)
}

/// The fault of a row's storm, if it has one.
fn fault_of<R: Threads + Wait + Sync>(rt: &R, alloc: Global, row: &Row) -> Option<StormFault> {
    let (config, _) = opened(alloc, ONE_ENTRY_A_PORT)?;
    let plan = planned(alloc, row).ok()?;
    let blank = Blank::new(u64::from(MAX_LICENCES));
    storm::<Brand, R>(rt, alloc, blank, &config, &plan).err()
}

#[test]
fn first_of_several_faults(rt: HostRuntime) {
    for row in FAULTS {
        assert!(rt;
            fault_of(&rt, rt.alloc(), row) == Some(row.fault),
            "{}",
            row.frame
        );
    }
}
