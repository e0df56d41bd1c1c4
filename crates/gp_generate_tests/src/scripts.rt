//! Scripts that are read back.
use crate::made::{made, of_ports, of_units};
use gp_generate::Wish;
use gp_script::read_script;
use std::alloc::Global;

/// How many octets a script has at most.
const MOST: usize = 1_048_576;

/// Tells whether what is written is a script with so many ports, units and events.
fn is_script(alloc: Global, wish: Wish) -> bool {
    let Some(text) = made(alloc, wish) else {
        return false;
    };
    let Ok(script) = read_script(alloc, text.as_slice()) else {
        return false;
    };
    text.len() <= MOST
        && script.ports.len() as u64 == wish.ports
        && script.units.len() as u64 == wish.units
        && (script.losses.copies.len() + script.losses.bursts.len()) as u64 == wish.units
        && script.events.len() as u64 == wish.events
}

#[test]
fn scripts_of_ports(rt: HostRuntime) {
    for seed in 0..100 {
        assert!(rt; is_script(rt.alloc(), of_ports(seed, 150)), "{seed}");
    }
}

#[test]
fn scripts_of_units(rt: HostRuntime) {
    for seed in 0..100 {
        assert!(rt;
            is_script(rt.alloc(), of_units(seed, seed % 7 + 1, 100)),
            "{seed}"
        );
    }
}

/// The least and the greatest of each.
#[test]
fn least_and_greatest(rt: HostRuntime) {
    let greatest = Wish {
        seed: u64::MAX,
        ports: 16,
        units: 0,
        events: 10_000,
        mistakes: 0,
    };
    assert!(rt; is_script(rt.alloc(), greatest));
    assert!(rt; is_script(rt.alloc(), of_units(3, 1024, 5_000)));
    assert!(rt; is_script(rt.alloc(), of_units(3, 1, 0)));
    assert!(rt; is_script(rt.alloc(), of_ports(0, 0)));
}

/// Tells whether two texts are there and are one.
fn are_same(first: &Option<Vec<u8>>, other: &Option<Vec<u8>>) -> bool {
    match (first, other) {
        (Some(first), Some(other)) => first.as_slice() == other.as_slice(),
        _ => false,
    }
}

#[test]
fn the_same_for_the_same_seed(rt: HostRuntime) {
    for seed in [0, 1, 7, u64::MAX] {
        let text = made(rt.alloc(), of_ports(seed, 60));
        assert!(rt;
            are_same(&text, &made(rt.alloc(), of_ports(seed, 60))),
            "{seed}"
        );
        assert!(rt;
            !are_same(&text, &made(rt.alloc(), of_ports(seed / 2 + 1000, 60))),
            "{seed}"
        );
    }
}

/// A longer script begins as a shorter one, but for its first line, which says how long it is.
#[test]
fn a_longer_one_goes_on(rt: HostRuntime) {
    let short = made(rt.alloc(), of_ports(11, 20)).unwrap_or(Vec::new(rt.alloc()));
    let long = made(rt.alloc(), of_ports(11, 90)).unwrap_or(Vec::new(rt.alloc()));
    let first = "# oltctl generate --seed 11 --ports 2 --units 0 --events 20 --mistakes 0\n".len();
    assert!(rt; short.len() > first);
    assert!(rt; long.as_slice().get(first..short.len()) == short.as_slice().get(first..));
}
