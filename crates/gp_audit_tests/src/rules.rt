//! Each rule broken alone, and not broken by what is nearest to that.
use crate::words::{audited, log_of, plain_options, rules_in};
use gp_flow::LinesFault;
use std::alloc::Global;
use std::process::Abort;
use std::test::Fail;

/// A log, and the rules that are told of it.
struct Case {
    log: &'static str,
    rules: &'static str,
}

/// Gives the rules that are told of a log, each as `N SIDE RULE` and a semicolon.
fn rules_of(alloc: Global, midway: bool, log: &str) -> Result<String, LinesFault> {
    let mut options = plain_options();
    options.midway = midway;
    let log = log_of(alloc, log)?;
    let told = audited(alloc, &options, log.as_slice())?;
    let text = std::str::from_utf8(told.as_slice()).unwrap_or("no text");
    Ok(rules_in(alloc, text)?)
}

/// Checks what is told of each log.
fn assert_told(
    rt: &(impl AllocGlobal + Abort),
    midway: bool,
    cases: &[Case],
) -> Result<(), LinesFault> {
    for case in cases {
        let rules = rules_of(rt.alloc(), midway, case.log)?;
        assert_eq!(rt; rules.as_str(), case.rules, "{}", case.log);
    }
    Ok(())
}

/// `garbled`.
const GARBLED: [Case; 2] = [
    Case {
        log: "\
1 down! Deactivate_ONU-ID 255",
        rules: "1 terminal garbled;",
    },
    Case {
        log: "\
1 up! Serial_Number_ONU 255 ABCD00000001 0 0 @1000\n\
3 down Assign_ONU-ID 3 ABCD00000001",
        rules: "1 unit garbled;2 terminal unasked;",
    },
];

/// `copies`.
const COPIES: [Case; 3] = [
    Case {
        log: "\
2 down Upstream_Overhead 00000000000000000000\n\
3 down Enable_All",
        rules: "3 terminal copies;",
    },
    Case {
        log: "\
4 down Enable_All\n\
1 down Enable_Serial_Number ABCD00000001\n\
1 down No_message\n\
2 down Enable_Serial_Number ABCD00000001",
        rules: "5 terminal copies;",
    },
    Case {
        log: "\
6 down Enable_All\n\
3 down Enable_Serial_Number ABCD00000001\n\
1 down! Enable_All\n\
1 down No_message\n\
3 down Enable_All",
        rules: "10 terminal garbled;",
    },
];

/// `range`.
const RANGE: [Case; 4] = [
    Case {
        log: "\
1 up Serial_Number_ONU 255 ABCD00000001 0 0 @1000\n\
3 down Assign_ONU-ID 254 ABCD00000001",
        rules: "2 terminal range;",
    },
    Case {
        log: "\
1 up Serial_Number_ONU 255 ABCD00000001 0 0 @1000\n\
3 down Assign_ONU-ID 253 ABCD00000001",
        rules: "",
    },
    Case {
        log: "\
1 up Serial_Number_ONU 255 ABCD00000001 0 0 @1000\n\
3 down Assign_ONU-ID 3 ABCD00000001\n\
1 grant range 3\n\
1 up Serial_Number_ONU 3 ABCD00000001 0 0 @1000\n\
3 down Ranging_Time 3 310040\n\
3 down Assign_Alloc-ID 3 255 keep",
        rules: "10 terminal range;",
    },
    Case {
        log: "\
1 up Serial_Number_ONU 255 ABCD00000001 0 0 @1000\n\
3 down Assign_ONU-ID 3 ABCD00000001\n\
1 grant range 3\n\
1 up Serial_Number_ONU 3 ABCD00000001 0 0 @1000\n\
3 down Ranging_Time 3 310040\n\
3 down Assign_Alloc-ID 3 256 keep",
        rules: "",
    },
];

/// `barred`.
const BARRED: [Case; 3] = [
    Case {
        log: "\
3 down Disable_Serial_Number ABCD00000001\n\
1 up Serial_Number_ONU 255 ABCD00000001 0 0 @1000\n\
3 down Assign_ONU-ID 3 ABCD00000001",
        rules: "4 unit disabled;5 terminal barred;",
    },
    Case {
        log: "\
3 down Disable_Serial_Number ABCD00000001\n\
3 down Enable_Serial_Number ABCD00000001\n\
1 up Serial_Number_ONU 255 ABCD00000001 0 0 @1000\n\
3 down Assign_ONU-ID 3 ABCD00000001",
        rules: "",
    },
    Case {
        log: "\
3 down Disable_Serial_Number ABCD00000001\n\
3 down Enable_All\n\
1 up Serial_Number_ONU 255 ABCD00000001 0 0 @1000\n\
3 down Assign_ONU-ID 3 ABCD00000001",
        rules: "",
    },
];

/// `unasked`.
const UNASKED: [Case; 3] = [
    Case {
        log: "\
3 down Assign_ONU-ID 3 ABCD00000001",
        rules: "1 terminal unasked;",
    },
    Case {
        log: "\
1 up Serial_Number_ONU 255 ABCD00000001 0 0 @1000\n\
3 down Assign_ONU-ID 3 ABCD00000001\n\
3 down Deactivate_ONU-ID 3\n\
3 down Assign_ONU-ID 3 ABCD00000001",
        rules: "8 terminal unasked;",
    },
    Case {
        log: "\
1 up Serial_Number_ONU 255 ABCD00000001 0 0 @1000\n\
1 up Serial_Number_ONU 255 ABCD00000001 0 0 @1000\n\
3 down Assign_ONU-ID 3 ABCD00000001\n\
3 down Deactivate_ONU-ID 3\n\
3 down Assign_ONU-ID 3 ABCD00000001",
        rules: "",
    },
];

/// `unasked` in the middle.
const UNASKED_MIDWAY: [Case; 1] = [Case {
    log: "\
3 down Enable_All\n\
3 down Assign_ONU-ID 3 ABCD00000001",
    rules: "",
}];

/// `taken`.
const TAKEN: [Case; 3] = [
    Case {
        log: "\
1 up Serial_Number_ONU 255 ABCD00000001 0 0 @1000\n\
1 up Serial_Number_ONU 255 ABCD00000002 0 0 @1000\n\
3 down Assign_ONU-ID 3 ABCD00000001\n\
3 down Assign_ONU-ID 3 ABCD00000002",
        rules: "6 terminal taken;",
    },
    Case {
        log: "\
1 up Serial_Number_ONU 255 ABCD00000001 0 0 @1000\n\
1 up Serial_Number_ONU 255 ABCD00000002 0 0 @1000\n\
3 down Assign_ONU-ID 3 ABCD00000001\n\
3 down Deactivate_ONU-ID 3\n\
3 down Assign_ONU-ID 3 ABCD00000002",
        rules: "",
    },
    Case {
        log: "\
1 up Serial_Number_ONU 255 ABCD00000001 0 0 @1000\n\
1 up Serial_Number_ONU 255 ABCD00000002 0 0 @1000\n\
3 down Assign_ONU-ID 3 ABCD00000001\n\
3 down Disable_Serial_Number ABCD00000001\n\
3 down Assign_ONU-ID 3 ABCD00000002",
        rules: "",
    },
];

/// `renumbered`.
const RENUMBERED: [Case; 2] = [
    Case {
        log: "\
1 up Serial_Number_ONU 255 ABCD00000001 0 0 @1000\n\
1 up Serial_Number_ONU 255 ABCD00000001 0 0 @1000\n\
3 down Assign_ONU-ID 3 ABCD00000001\n\
3 down Assign_ONU-ID 4 ABCD00000001",
        rules: "6 terminal renumbered;",
    },
    Case {
        log: "\
1 up Serial_Number_ONU 255 ABCD00000001 0 0 @1000\n\
1 up Serial_Number_ONU 255 ABCD00000001 0 0 @1000\n\
6 down Assign_ONU-ID 3 ABCD00000001",
        rules: "",
    },
];

/// `nobody`.
const NOBODY: [Case; 3] = [
    Case {
        log: "\
3 down Deactivate_ONU-ID 3",
        rules: "1 terminal nobody;",
    },
    Case {
        log: "\
3 down Deactivate_ONU-ID 255\n\
3 down POPUP 255",
        rules: "",
    },
    Case {
        log: "\
3 down Ranging_Time 3 1000\n\
3 down Assign_Alloc-ID 4 256 keep\n\
3 down POPUP 5",
        rules: "1 terminal nobody;4 terminal nobody;7 terminal nobody;",
    },
];

/// `nobody` in the middle.
const NOBODY_MIDWAY: [Case; 1] = [Case {
    log: "\
3 down Enable_All\n\
3 down Ranging_Time 3 1000\n\
3 down Deactivate_ONU-ID 4",
    rules: "",
}];

/// `unranged`.
const UNRANGED: [Case; 2] = [
    Case {
        log: "\
1 up Serial_Number_ONU 255 ABCD00000001 0 0 @1000\n\
3 down Assign_ONU-ID 3 ABCD00000001\n\
1 up No_message 3 @1000\n\
3 down Ranging_Time 3 310040",
        rules: "6 terminal unranged;",
    },
    Case {
        log: "\
1 up Serial_Number_ONU 255 ABCD00000001 0 0 @1000\n\
1 up Serial_Number_ONU 255 ABCD00000001 0 0 @1000\n\
3 down Assign_ONU-ID 3 ABCD00000001\n\
1 up Serial_Number_ONU 3 ABCD00000001 0 0 @1000\n\
3 down Ranging_Time 3 310040\n\
3 down Deactivate_ONU-ID 3\n\
3 down Assign_ONU-ID 3 ABCD00000001\n\
3 down Ranging_Time 3 310040",
        rules: "16 terminal unranged;",
    },
];

/// `delay`.
const DELAY: [Case; 3] = [
    Case {
        log: "\
1 up Serial_Number_ONU 255 ABCD00000001 0 0 @1000\n\
3 down Assign_ONU-ID 3 ABCD00000001\n\
1 up Serial_Number_ONU 3 ABCD00000001 0 0 @1000\n\
3 down Ranging_Time 3 310041",
        rules: "6 terminal delay;",
    },
    Case {
        log: "\
1 up Serial_Number_ONU 255 ABCD00000001 0 0 @1000\n\
3 down Assign_ONU-ID 3 ABCD00000001\n\
1 up Serial_Number_ONU 3 ABCD00000001 0 0 @1000\n\
1 up Serial_Number_ONU 3 ABCD00000001 0 0 @1001\n\
3 down Ranging_Time 3 310040",
        rules: "",
    },
    Case {
        log: "\
1 up Serial_Number_ONU 255 ABCD00000001 0 0 @1000\n\
3 down Assign_ONU-ID 3 ABCD00000001\n\
1 up Serial_Number_ONU 3 ABCD00000001 0 0 @1000\n\
1 up Serial_Number_ONU 3 ABCD00000001 0 0\n\
3 down Ranging_Time 3 310041",
        rules: "",
    },
];

/// `early`.
const EARLY: [Case; 3] = [
    Case {
        log: "\
1 up Serial_Number_ONU 255 ABCD00000001 0 0 @1000\n\
3 down Assign_ONU-ID 3 ABCD00000001\n\
3 down Assign_Alloc-ID 3 256 keep\n\
3 down POPUP 3",
        rules: "5 terminal early;8 terminal early;",
    },
    Case {
        log: "\
1 up Serial_Number_ONU 255 ABCD00000001 0 0 @1000\n\
3 down Assign_ONU-ID 3 ABCD00000001\n\
1 grant range 3\n\
1 up Serial_Number_ONU 3 ABCD00000001 0 0 @1000\n\
3 down Ranging_Time 3 310040\n\
3 down Assign_Alloc-ID 3 256 keep\n\
3 down POPUP 3",
        rules: "",
    },
    Case {
        log: "\
1 up Serial_Number_ONU 255 ABCD00000001 0 0 @1000\n\
3 down Assign_ONU-ID 3 ABCD00000001\n\
1 grant range 3\n\
1 up Serial_Number_ONU 3 ABCD00000001 0 0 @1000\n\
3 down Ranging_Time 3 310040\n\
3 down POPUP 255\n\
3 down POPUP 3",
        rules: "13 terminal early;",
    },
];

/// `shared`.
const SHARED: [Case; 3] = [
    Case {
        log: "\
1 up Serial_Number_ONU 255 ABCD00000001 0 0 @1000\n\
3 down Assign_ONU-ID 3 ABCD00000001\n\
1 grant range 3\n\
1 up Serial_Number_ONU 3 ABCD00000001 0 0 @1000\n\
3 down Ranging_Time 3 310040\n\
1 up Serial_Number_ONU 255 ABCD00000002 0 0 @1000\n\
3 down Assign_ONU-ID 4 ABCD00000002\n\
1 grant range 4\n\
1 up Serial_Number_ONU 4 ABCD00000002 0 0 @1000\n\
3 down Ranging_Time 4 310040\n\
3 down Assign_Alloc-ID 3 256 keep\n\
3 down Assign_Alloc-ID 4 256 keep",
        rules: "22 terminal shared;",
    },
    Case {
        log: "\
1 up Serial_Number_ONU 255 ABCD00000001 0 0 @1000\n\
3 down Assign_ONU-ID 3 ABCD00000001\n\
1 grant range 3\n\
1 up Serial_Number_ONU 3 ABCD00000001 0 0 @1000\n\
3 down Ranging_Time 3 310040\n\
1 up Serial_Number_ONU 255 ABCD00000002 0 0 @1000\n\
3 down Assign_ONU-ID 4 ABCD00000002\n\
1 grant range 4\n\
1 up Serial_Number_ONU 4 ABCD00000002 0 0 @1000\n\
3 down Ranging_Time 4 310040\n\
3 down Assign_Alloc-ID 3 256 keep\n\
3 down Assign_Alloc-ID 3 257 keep\n\
3 down Assign_Alloc-ID 3 256 back\n\
3 down Assign_Alloc-ID 4 256 keep",
        rules: "",
    },
    Case {
        log: "\
1 up Serial_Number_ONU 255 ABCD00000001 0 0 @1000\n\
3 down Assign_ONU-ID 3 ABCD00000001\n\
1 grant range 3\n\
1 up Serial_Number_ONU 3 ABCD00000001 0 0 @1000\n\
3 down Ranging_Time 3 310040\n\
1 up Serial_Number_ONU 255 ABCD00000002 0 0 @1000\n\
3 down Assign_ONU-ID 4 ABCD00000002\n\
1 grant range 4\n\
1 up Serial_Number_ONU 4 ABCD00000002 0 0 @1000\n\
3 down Ranging_Time 4 310040\n\
3 down Assign_Alloc-ID 3 256 keep\n\
3 down Deactivate_ONU-ID 3\n\
3 down Assign_Alloc-ID 4 256 keep",
        rules: "",
    },
];

/// `not-held`.
const NOT_HELD: [Case; 2] = [
    Case {
        log: "\
1 up Serial_Number_ONU 255 ABCD00000001 0 0 @1000\n\
3 down Assign_ONU-ID 3 ABCD00000001\n\
1 grant range 3\n\
1 up Serial_Number_ONU 3 ABCD00000001 0 0 @1000\n\
3 down Ranging_Time 3 310040\n\
3 down Assign_Alloc-ID 3 256 back",
        rules: "10 terminal not-held;",
    },
    Case {
        log: "\
1 up Serial_Number_ONU 255 ABCD00000001 0 0 @1000\n\
3 down Assign_ONU-ID 3 ABCD00000001\n\
1 grant range 3\n\
1 up Serial_Number_ONU 3 ABCD00000001 0 0 @1000\n\
3 down Ranging_Time 3 310040\n\
1 up Serial_Number_ONU 255 ABCD00000002 0 0 @1000\n\
3 down Assign_ONU-ID 4 ABCD00000002\n\
1 grant range 4\n\
1 up Serial_Number_ONU 4 ABCD00000002 0 0 @1000\n\
3 down Ranging_Time 4 310040\n\
3 down Assign_Alloc-ID 3 256 keep\n\
3 down Assign_Alloc-ID 4 256 back\n\
3 down Assign_Alloc-ID 3 256 back",
        rules: "22 terminal not-held;25 terminal not-held;",
    },
];

/// `grant`.
const GRANT: [Case; 3] = [
    Case {
        log: "\
1 grant range 3\n\
1 grant poll 3\n\
1 grant search",
        rules: "1 terminal grant;2 terminal grant;",
    },
    Case {
        log: "\
1 up Serial_Number_ONU 255 ABCD00000001 0 0 @1000\n\
3 down Assign_ONU-ID 3 ABCD00000001\n\
1 grant range 3\n\
1 grant poll 3",
        rules: "6 terminal grant;",
    },
    Case {
        log: "\
1 up Serial_Number_ONU 255 ABCD00000001 0 0 @1000\n\
3 down Assign_ONU-ID 3 ABCD00000001\n\
1 grant range 3\n\
1 up Serial_Number_ONU 3 ABCD00000001 0 0 @1000\n\
3 down Ranging_Time 3 310040\n\
1 grant poll 3\n\
1 grant range 3\n\
3 down POPUP 255\n\
1 grant range 3\n\
1 grant poll 3",
        rules: "16 terminal grant;",
    },
];

/// `disabled`.
const DISABLED: [Case; 2] = [
    Case {
        log: "\
3 down Disable_Serial_Number ABCD00000001\n\
1 up Serial_Number_ONU 255 ABCD00000001 0 0 @1000\n\
1 up Serial_Number_ONU 255 ABCD00000002 0 0 @1000",
        rules: "4 unit disabled;",
    },
    Case {
        log: "\
3 down Disable_Serial_Number ABCD00000001\n\
3 down Enable_Serial_Number ABCD00000001\n\
1 up Serial_Number_ONU 255 ABCD00000001 0 0 @1000",
        rules: "",
    },
];

/// `anew`.
const ANEW: [Case; 2] = [
    Case {
        log: "\
1 up Serial_Number_ONU 255 ABCD00000001 0 0 @1000\n\
3 down Assign_ONU-ID 3 ABCD00000001\n\
1 up Serial_Number_ONU 255 ABCD00000001 0 0 @1000\n\
1 up Serial_Number_ONU 255 ABCD00000002 0 0 @1000",
        rules: "5 unit anew;",
    },
    Case {
        log: "\
1 up Serial_Number_ONU 255 ABCD00000001 0 0 @1000\n\
3 down Assign_ONU-ID 3 ABCD00000001\n\
3 down Deactivate_ONU-ID 3\n\
1 up Serial_Number_ONU 255 ABCD00000001 0 0 @1000",
        rules: "",
    },
];

/// `number`.
const NUMBER: [Case; 2] = [
    Case {
        log: "\
1 up No_message 3 @1000\n\
1 up Dying_Gasp 4\n\
1 up No_message 255",
        rules: "1 unit number;2 unit number;",
    },
    Case {
        log: "\
1 up Serial_Number_ONU 255 ABCD00000001 0 0 @1000\n\
3 down Assign_ONU-ID 3 ABCD00000001\n\
1 up Serial_Number_ONU 3 ABCD00000002 0 0 @1000\n\
1 up Serial_Number_ONU 3 ABCD00000001 0 0 @1000\n\
1 up No_message 3",
        rules: "5 unit number;",
    },
];

/// `number` in the middle.
const NUMBER_MIDWAY: [Case; 1] = [Case {
    log: "\
3 down Enable_All\n\
1 up No_message 3 @1000",
    rules: "",
}];

/// `acknowledge`.
const ACKNOWLEDGE: [Case; 3] = [
    Case {
        log: "\
1 up Serial_Number_ONU 255 ABCD00000001 0 0 @1000\n\
3 down Assign_ONU-ID 3 ABCD00000001\n\
1 grant range 3\n\
1 up Serial_Number_ONU 3 ABCD00000001 0 0 @1000\n\
3 down Ranging_Time 3 310040\n\
1 up Acknowledge 3 10 @1000",
        rules: "10 unit acknowledge;",
    },
    Case {
        log: "\
1 up Serial_Number_ONU 255 ABCD00000001 0 0 @1000\n\
3 down Assign_ONU-ID 3 ABCD00000001\n\
1 grant range 3\n\
1 up Serial_Number_ONU 3 ABCD00000001 0 0 @1000\n\
3 down Ranging_Time 3 310040\n\
3 down Assign_Alloc-ID 3 256 keep\n\
1 up Acknowledge 3 10 @1000\n\
1 up Acknowledge 3 9 @1000",
        rules: "",
    },
    Case {
        log: "\
1 up Serial_Number_ONU 255 ABCD00000001 0 0 @1000\n\
3 down Assign_ONU-ID 3 ABCD00000001\n\
1 grant range 3\n\
1 up Serial_Number_ONU 3 ABCD00000001 0 0 @1000\n\
3 down Ranging_Time 3 310040\n\
1 up Acknowledge 3 9 @1000",
        rules: "",
    },
];

/// `drift`.
const DRIFT: [Case; 2] = [
    Case {
        log: "\
1 up Serial_Number_ONU 255 ABCD00000001 0 0 @1000\n\
3 down Assign_ONU-ID 3 ABCD00000001\n\
1 grant range 3\n\
1 up Serial_Number_ONU 3 ABCD00000001 0 0 @1000\n\
3 down Ranging_Time 3 310040\n\
1 up No_message 3 @1008\n\
1 up No_message 3 @1009\n\
1 up No_message 3 @992\n\
1 up No_message 3 @991\n\
1 up No_message 3",
        rules: "11 unit drift;13 unit drift;",
    },
    Case {
        log: "\
1 up Serial_Number_ONU 255 ABCD00000001 0 0 @1000\n\
3 down Assign_ONU-ID 3 ABCD00000001\n\
1 grant range 3\n\
1 up Serial_Number_ONU 3 ABCD00000001 0 0 @1000\n\
3 down Ranging_Time 3 310040\n\
3 down POPUP 255\n\
1 up No_message 3 @2000",
        rules: "",
    },
];

#[test]
fn garbled(rt: HostRuntime) -> Result<(), Fail> {
    assert_told(&rt, false, &GARBLED)?;
    Ok(())
}

#[test]
fn copies(rt: HostRuntime) -> Result<(), Fail> {
    assert_told(&rt, false, &COPIES)?;
    Ok(())
}

#[test]
fn range(rt: HostRuntime) -> Result<(), Fail> {
    assert_told(&rt, false, &RANGE)?;
    Ok(())
}

#[test]
fn barred(rt: HostRuntime) -> Result<(), Fail> {
    assert_told(&rt, false, &BARRED)?;
    Ok(())
}

#[test]
fn unasked(rt: HostRuntime) -> Result<(), Fail> {
    assert_told(&rt, false, &UNASKED)?;
    Ok(())
}

#[test]
fn unasked_midway(rt: HostRuntime) -> Result<(), Fail> {
    assert_told(&rt, true, &UNASKED_MIDWAY)?;
    Ok(())
}

#[test]
fn taken(rt: HostRuntime) -> Result<(), Fail> {
    assert_told(&rt, false, &TAKEN)?;
    Ok(())
}

#[test]
fn renumbered(rt: HostRuntime) -> Result<(), Fail> {
    assert_told(&rt, false, &RENUMBERED)?;
    Ok(())
}

#[test]
fn nobody(rt: HostRuntime) -> Result<(), Fail> {
    assert_told(&rt, false, &NOBODY)?;
    Ok(())
}

#[test]
fn nobody_midway(rt: HostRuntime) -> Result<(), Fail> {
    assert_told(&rt, true, &NOBODY_MIDWAY)?;
    Ok(())
}

#[test]
fn unranged(rt: HostRuntime) -> Result<(), Fail> {
    assert_told(&rt, false, &UNRANGED)?;
    Ok(())
}

#[test]
fn delay(rt: HostRuntime) -> Result<(), Fail> {
    assert_told(&rt, false, &DELAY)?;
    Ok(())
}

#[test]
fn early(rt: HostRuntime) -> Result<(), Fail> {
    assert_told(&rt, false, &EARLY)?;
    Ok(())
}

#[test]
fn shared(rt: HostRuntime) -> Result<(), Fail> {
    assert_told(&rt, false, &SHARED)?;
    Ok(())
}

#[test]
fn not_held(rt: HostRuntime) -> Result<(), Fail> {
    assert_told(&rt, false, &NOT_HELD)?;
    Ok(())
}

#[test]
fn grant(rt: HostRuntime) -> Result<(), Fail> {
    assert_told(&rt, false, &GRANT)?;
    Ok(())
}

#[test]
fn disabled(rt: HostRuntime) -> Result<(), Fail> {
    assert_told(&rt, false, &DISABLED)?;
    Ok(())
}

#[test]
fn anew(rt: HostRuntime) -> Result<(), Fail> {
    assert_told(&rt, false, &ANEW)?;
    Ok(())
}

#[test]
fn number(rt: HostRuntime) -> Result<(), Fail> {
    assert_told(&rt, false, &NUMBER)?;
    Ok(())
}

#[test]
fn number_midway(rt: HostRuntime) -> Result<(), Fail> {
    assert_told(&rt, true, &NUMBER_MIDWAY)?;
    Ok(())
}

#[test]
fn acknowledge(rt: HostRuntime) -> Result<(), Fail> {
    assert_told(&rt, false, &ACKNOWLEDGE)?;
    Ok(())
}

#[test]
fn drift(rt: HostRuntime) -> Result<(), Fail> {
    assert_told(&rt, false, &DRIFT)?;
    Ok(())
}
