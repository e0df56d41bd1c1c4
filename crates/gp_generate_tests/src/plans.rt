//! What there is no script of.
use gp_generate::{Asked, Plan, PlanFault, Wish};

/// What is asked for, and what is wrong with it.
const WRONG: [(u64, u64, u64, u64, PlanFault); 9] = [
    (0, 0, 10, 0, PlanFault::Ports),
    (17, 0, 10, 0, PlanFault::Ports),
    (u64::MAX, 0, 10, 0, PlanFault::Ports),
    (1, 1025, 10, 0, PlanFault::Units),
    (2, 1, 10, 0, PlanFault::UnitsBesidePorts),
    (16, 1024, 10, 0, PlanFault::UnitsBesidePorts),
    (1, 0, 10_001, 0, PlanFault::Events),
    (1, 0, 10, 11, PlanFault::Mistakes),
    (1, 0, 10_000, 101, PlanFault::Mistakes),
];

#[test]
fn wrong_plans(rt: HostRuntime) {
    for (ports, units, events, mistakes, fault) in WRONG {
        let wish = Wish {
            seed: 0,
            ports,
            units,
            events,
            mistakes,
        };
        assert!(rt;
            Plan::new(wish).err() == Some(fault),
            "{ports} {units} {events} {mistakes}"
        );
    }
}

#[test]
fn defaults(rt: HostRuntime) {
    let nothing = Asked {
        seed: None,
        ports: None,
        units: None,
        events: None,
        mistakes: None,
    };
    let wish = nothing.wish();
    assert!(rt;
        wish == Wish {
            seed: 0,
            ports: 2,
            units: 0,
            events: 200,
            mistakes: 0
        }
    );
    let world = Asked {
        units: Some(8),
        ..nothing
    };
    assert!(rt; world.wish().ports == 1 && world.wish().units == 8);
}
