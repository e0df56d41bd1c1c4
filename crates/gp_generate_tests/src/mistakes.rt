//! Scripts with mistakes.
use crate::made::{made, of_ports, of_units};
use gp_generate::Wish;
use gp_script::{ScriptError, ScriptFault, read_script};
use std::alloc::Global;

/// The faults of the mistakes in the order in which they come, by the pages of scripts.
const FAULTS: [ScriptFault; 20] = [
    ScriptFault::Syntax,
    ScriptFault::Syntax,
    ScriptFault::Syntax,
    ScriptFault::Syntax,
    ScriptFault::Shape,
    ScriptFault::Shape,
    ScriptFault::Shape,
    ScriptFault::Shape,
    ScriptFault::Shape,
    ScriptFault::Range,
    ScriptFault::Range,
    ScriptFault::Range,
    ScriptFault::Range,
    ScriptFault::Range,
    ScriptFault::Serial,
    ScriptFault::Serial,
    ScriptFault::Serial,
    ScriptFault::Hex,
    ScriptFault::Hex,
    ScriptFault::Duplicate,
];

/// Gives the fault of a script, if it has one.
fn fault_of(alloc: Global, wish: Wish) -> Option<ScriptFault> {
    let text = made(alloc, wish)?;
    match read_script(alloc, text.as_slice()) {
        Err(ScriptError::Fault(fault)) => Some(fault),
        _ => None,
    }
}

/// One mistake is the fault that is meant: the first of a seed is its place in the list.
#[test]
fn one_mistake(rt: HostRuntime) {
    for seed in 0..60 {
        let meant = FAULTS[seed as usize % FAULTS.len()];
        let of_ports = Wish {
            mistakes: 1,
            ..of_ports(seed, 30)
        };
        let of_units = Wish {
            mistakes: 1,
            ..of_units(seed, 3, 30)
        };
        assert!(rt; fault_of(rt.alloc(), of_ports) == Some(meant), "{seed}");
        assert!(rt; fault_of(rt.alloc(), of_units) == Some(meant), "{seed}");
    }
}

/// Gives how many mistakes of events are told, and how often the first serial number is admitted once more.
fn counts_of(text: &str) -> (u64, u64) {
    let mut told: u64 = 0;
    'lines: for line in text.lines() {
        if line.starts_with("# mistake ") {
            told = told.saturating_add(1);
        }
    }
    let mut twice: u64 = 0;
    'parts: for part in text.split(", ") {
        if part.starts_with("\"ABCD00000000\"") {
            twice = twice.saturating_add(1);
        }
    }
    (told, twice)
}

/// As many as are asked for: those of events are told before them, and a serial number that is admitted once more is
/// the other one.
#[test]
fn so_many_mistakes(rt: HostRuntime) {
    for mistakes in [0, 1, 2, 19, 20, 100] {
        let wish = Wish {
            mistakes,
            ..of_ports(5, 100)
        };
        let text = made(rt.alloc(), wish).unwrap_or(Vec::new(rt.alloc()));
        let (told, twice) = counts_of(str::from_utf8(text.as_slice()).unwrap_or(""));
        assert!(rt; told.saturating_add(twice) == mistakes, "{mistakes}");
        assert!(rt;
            fault_of(rt.alloc(), wish).is_some() == (mistakes > 0),
            "{mistakes}"
        );
    }
}
