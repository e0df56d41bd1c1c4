//! What of a log is judged: by which rules, of which side, which rules are missed, and which garbled codes are left out.
use crate::words::{log_of, plain_options};
use gp_audit::{AuditOptions, Auditor, FindingChoice, Judged, RuleSet, audit_log};
use gp_flow::LinesFault;
use gp_observer::Rule;
use gp_stream::{Sink, Source};
use std::alloc::{AllocError, Global};
use std::process::Abort;
use std::test::Fail;

/// A unit asks, is assigned and ranged, and answers with its delay; then comes a garbled code of each side.
const RANGED: &'static str = "\
1 up Serial_Number_ONU 255 ABCD00000001 0 0 @1000\n\
3 down Assign_ONU-ID 3 ABCD00000001\n\
1 up Serial_Number_ONU 3 ABCD00000001 0 0 @1000\n\
3 down Ranging_Time 3 310040\n\
1 grant poll 3\n\
1 up No_message 3 @1001\n\
1 down! Deactivate_ONU-ID 3\n\
1 up! No_message 3 @1001";

/// The same without delays.
const UNMEASURED: &'static str = "\
1 up Serial_Number_ONU 255 ABCD00000001 0 0\n\
3 down Assign_ONU-ID 3 ABCD00000001\n\
1 up Serial_Number_ONU 3 ABCD00000001 0 0\n\
3 down Ranging_Time 3 310040\n\
1 up No_message 3";

/// Alloc-IDs are given and taken back, and acknowledged; then a unit is popped up.
const ALLOCS: &'static str = "\
3 down Assign_ONU-ID 3 ABCD00000001\n\
3 down Assign_Alloc-ID 3 256 keep\n\
1 up Acknowledge 3 10\n\
3 down Assign_Alloc-ID 3 256 back\n\
3 down POPUP 3";

/// Gives what was judged of a log by these options.
fn judged(alloc: Global, options: &AuditOptions, words: &str) -> Result<Judged, LinesFault> {
    let log = log_of(alloc, words)?;
    judged_log(alloc, options, log.as_slice())
}

/// Audits the octets of a log.
fn audited(alloc: Global, options: &AuditOptions, log: &[u8]) -> Result<Auditor, LinesFault> {
    let mut source = Source::endless(log);
    let mut sink = Sink::new(alloc, Vec::new(alloc))?;
    let mut auditor = Auditor::begin(alloc, options)?;
    audit_log(alloc, &mut source, &mut sink, &mut auditor)?;
    Ok(auditor)
}

/// Gives what was judged of the octets of a log.
fn judged_log(alloc: Global, options: &AuditOptions, log: &[u8]) -> Result<Judged, LinesFault> {
    let auditor = audited(alloc, options, log)?;
    Ok(auditor.judged())
}

/// Gives options by which one rule alone is told.
fn alone(rule: Rule, midway: bool) -> AuditOptions {
    let mut options = plain_options();
    options.midway = midway;
    options.told.rules = RuleSet::none();
    options.told.rules.insert(rule);
    options
}

/// Gives the letters of the rules that are judged of a log, each told alone.
fn rules_judged(alloc: Global, midway: bool, words: &str) -> Result<String, LinesFault> {
    let mut letters = String::new(alloc);
    for (rule, letter) in LETTERS.iter() {
        let found = judged(alloc, &alone(*rule, midway), words)?;
        if !found.is_nothing() {
            letters.push(*letter)?;
        }
    }
    Ok(letters)
}

/// Gives the letters of the rules in a set, in the order of `LETTERS`.
fn letters_of(alloc: Global, set: &RuleSet) -> Result<String, AllocError> {
    let mut letters = String::new(alloc);
    for (rule, letter) in LETTERS.iter() {
        if set.contains(*rule) {
            letters.push(*letter)?;
        }
    }
    Ok(letters)
}

/// Gives the letters of the rules that were missed.
fn missed(alloc: Global, told: &FindingChoice, judged: &Judged) -> Result<String, AllocError> {
    let mut letters = String::new(alloc);
    for (rule, letter) in LETTERS.iter() {
        if judged.misses(told, *rule) {
            letters.push(*letter)?;
        }
    }
    Ok(letters)
}

/// All rules, by a letter.
const LETTERS: [(Rule, char); 19] = [
    (Rule::Garbled, 'g'),
    (Rule::Copies, 'c'),
    (Rule::Range, 'r'),
    (Rule::Barred, 'b'),
    (Rule::Unasked, 'u'),
    (Rule::Taken, 't'),
    (Rule::Renumbered, 'e'),
    (Rule::Nobody, 'n'),
    (Rule::Unranged, 'a'),
    (Rule::Delay, 'd'),
    (Rule::Early, 'y'),
    (Rule::Shared, 's'),
    (Rule::NotHeld, 'h'),
    (Rule::Grant, 'G'),
    (Rule::Disabled, 'D'),
    (Rule::Anew, 'A'),
    (Rule::Number, 'N'),
    (Rule::Acknowledge, 'K'),
    (Rule::Drift, 'F'),
];

/// Checks which rules were judged of the terminal and of units, by their letters, and how many garbled codes were left
/// out.
fn check_judged(
    rt: &(impl AllocGlobal + Abort),
    found: &Judged,
    terminal: &str,
    units: &str,
    garbled: u64,
) -> Result<(), Fail> {
    assert_eq!(rt; letters_of(rt.alloc(), &found.terminal)?.as_str(), terminal);
    assert_eq!(rt; letters_of(rt.alloc(), &found.units)?.as_str(), units);
    assert_eq!(rt; found.garbled, garbled);
    assert_eq!(rt; found.is_nothing(), terminal.is_empty() && units.is_empty());
    Ok(())
}

#[test]
fn all_of_a_log(rt: HostRuntime) -> Result<(), Fail> {
    let options = plain_options();
    let all = judged(rt.alloc(), &options, RANGED)?;
    check_judged(&rt, &all, "gcrbutenadG", "gDANF", 0)?;
    assert_eq!(rt; missed(rt.alloc(), &options.told, &all)?.as_str(), "yshK");
    Ok(())
}

#[test]
fn without_delays(rt: HostRuntime) -> Result<(), Fail> {
    let options = plain_options();
    let unmeasured = judged(rt.alloc(), &options, UNMEASURED)?;
    check_judged(&rt, &unmeasured, "gcrbutena", "gDAN", 0)?;
    assert_eq!(rt;
        missed(rt.alloc(), &options.told, &unmeasured)?.as_str(),
        "dyshGKF"
    );
    Ok(())
}

#[test]
fn one_side_of_a_log(rt: HostRuntime) -> Result<(), Fail> {
    let mut options = plain_options();
    options.told.units = false;
    options.told.rules.remove(Rule::Garbled);
    let terminal = judged(rt.alloc(), &options, RANGED)?;
    check_judged(&rt, &terminal, "crbutenadG", "", 2)?;
    assert_eq!(rt;
        missed(rt.alloc(), &options.told, &terminal)?.as_str(),
        "ysh"
    );
    options.told.units = true;
    options.told.terminal = false;
    let silent = judged(rt.alloc(), &options, "3 down Assign_ONU-ID 3 ABCD00000001")?;
    check_judged(&rt, &silent, "", "", 0)?;
    assert_eq!(rt;
        missed(rt.alloc(), &options.told, &silent)?.as_str(),
        "DANKF"
    );
    Ok(())
}

#[test]
fn by_one_rule(rt: HostRuntime) -> Result<(), Fail> {
    let alloc = rt.alloc();
    let garbled = judged(alloc, &alone(Rule::Garbled, false), RANGED)?;
    check_judged(&rt, &garbled, "g", "g", 0)?;
    let copies = judged(alloc, &alone(Rule::Copies, false), RANGED)?;
    check_judged(&rt, &copies, "c", "", 2)?;
    let drift = judged(alloc, &alone(Rule::Drift, false), RANGED)?;
    check_judged(&rt, &drift, "", "F", 2)?;
    Ok(())
}

#[test]
fn garbled_of_one_side(rt: HostRuntime) -> Result<(), Fail> {
    let options = plain_options();
    let granted = "1 grant poll 3\n1 up No_message 3 @1001";
    let found = judged(rt.alloc(), &options, granted)?;
    check_judged(&rt, &found, "G", "gN", 0)?;
    assert_eq!(rt;
        missed(rt.alloc(), &options.told, &found)?.as_str(),
        "crbutenadyshDAKF"
    );
    Ok(())
}

#[test]
fn rules_that_are_judged(rt: HostRuntime) -> Result<(), Fail> {
    let alloc = rt.alloc();
    let ranged = rules_judged(alloc, false, RANGED)?;
    assert_eq!(rt; ranged.as_str(), "gcrbutenadGDANF");
    let unmeasured = rules_judged(alloc, false, UNMEASURED)?;
    assert_eq!(rt; unmeasured.as_str(), "gcrbutenaDAN");
    let allocs = rules_judged(alloc, false, ALLOCS)?;
    assert_eq!(rt; allocs.as_str(), "gcrbutenyshNK");
    Ok(())
}

#[test]
fn one_message_alone(rt: HostRuntime) -> Result<(), Fail> {
    let alloc = rt.alloc();
    let nothing = rules_judged(alloc, false, "1 down No_message")?;
    assert_eq!(rt; nothing.as_str(), "g");
    let first = rules_judged(alloc, false, "1 down Deactivate_ONU-ID 3")?;
    assert_eq!(rt; first.as_str(), "gn");
    let search = rules_judged(alloc, false, "1 grant search")?;
    assert_eq!(rt; search.as_str(), "");
    let ask = rules_judged(alloc, false, "1 up Serial_Number_ONU 255 ABCD00000001 0 0")?;
    assert_eq!(rt; ask.as_str(), "gDA");
    Ok(())
}

#[test]
fn midway(rt: HostRuntime) -> Result<(), Fail> {
    let alloc = rt.alloc();
    let ranged = rules_judged(alloc, true, RANGED)?;
    // the assignment stands first and is passed over; what is said to its unit isn't known then
    assert_eq!(rt; ranged.as_str(), "gF");
    let allocs = rules_judged(alloc, true, ALLOCS)?;
    assert_eq!(rt; allocs.as_str(), "gcr");
    Ok(())
}

#[test]
fn who_holds_a_number_midway(rt: HostRuntime) -> Result<(), Fail> {
    let mut options = plain_options();
    options.midway = true;
    let unknown = "1 grant poll 3\n1 up No_message 3 @1001\n3 down Deactivate_ONU-ID 3";
    let judged_of_unknown = judged(rt.alloc(), &options, unknown)?;
    check_judged(&rt, &judged_of_unknown, "g", "g", 0)?;
    assert_eq!(rt;
        missed(rt.alloc(), &options.told, &judged_of_unknown)?.as_str(),
        "crbutenadyshGDANKF"
    );
    let known = "3 down POPUP 255\n3 down Assign_ONU-ID 3 ABCD00000001\n1 grant range 3";
    let judged_of_known = judged(rt.alloc(), &options, known)?;
    check_judged(&rt, &judged_of_known, "grG", "", 0)?;
    Ok(())
}

#[test]
fn two_ports(rt: HostRuntime) -> Result<(), Fail> {
    let log =
        b"1 7 grant poll 3\n7 up 00000000000000000000000002\n2 7 up 00000000000000000000000001\n";
    let mut options = plain_options();
    options.told.rules.remove(Rule::Garbled);
    let found = judged_log(rt.alloc(), &options, log.as_slice())?;
    check_judged(&rt, &found, "G", "", 2)?;
    let other =
        b"1 7 grant poll 3\n2 7 up 00000000000000000000000002\n7 7 down ff010000000000000000000058\n";
    let both = judged_log(rt.alloc(), &plain_options(), other.as_slice())?;
    check_judged(&rt, &both, "gG", "g", 0)?;
    Ok(())
}

#[test]
fn each_of_two_ports(rt: HostRuntime) -> Result<(), Fail> {
    let log =
        b"7 1 grant poll 3\n7 2 up 00000000000000000000000002\n7 7 grant search\n5 7 grant search\n";
    let mut options = plain_options();
    options.told.rules.remove(Rule::Garbled);
    let auditor = audited(rt.alloc(), &options, log.as_slice())?;
    let seventh = auditor.judged_at(7);
    assert!(rt; seventh.is_some());
    if let Some(found) = seventh {
        check_judged(&rt, &found, "G", "", 1)?;
    }
    let fifth = auditor.judged_at(5);
    assert!(rt; fifth.is_some());
    if let Some(found) = fifth {
        check_judged(&rt, &found, "", "", 0)?;
    }
    assert_eq!(rt; auditor.judged_at(0), None);
    assert_eq!(rt; auditor.judged_at(6), None);
    assert_eq!(rt; auditor.judged_at(15), None);
    Ok(())
}

#[test]
fn something_is_left(rt: HostRuntime) -> Result<(), Fail> {
    let codes = alone(Rule::Garbled, false);
    let down = judged(rt.alloc(), &codes, "3 down POPUP 255")?;
    assert!(rt; down.leaves_some(&codes.told));
    let mut terminal = alone(Rule::Garbled, false);
    terminal.told.units = false;
    let of_terminal = judged(rt.alloc(), &terminal, "3 down POPUP 255")?;
    assert!(rt; !of_terminal.leaves_some(&terminal.told));
    let nobody = alone(Rule::Nobody, false);
    let to_all = judged(rt.alloc(), &nobody, "3 down POPUP 255")?;
    assert!(rt; to_all.leaves_some(&nobody.told));
    let grants = alone(Rule::Grant, false);
    let granted = judged(rt.alloc(), &grants, "1 grant range 3")?;
    assert!(rt; !granted.leaves_some(&grants.told));
    let garbled = b"1 grant range 3\n1 up 00000000000000000000000001\n";
    let granted_too = judged_log(rt.alloc(), &grants, garbled.as_slice())?;
    assert!(rt; granted_too.leaves_some(&grants.told));
    Ok(())
}
