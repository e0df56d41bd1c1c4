//! More serial numbers than are followed, more delays than are kept, long lines, and what is told alone.
use crate::words::{audited, log_of, plain_options, rules_in};
use gp_audit::RuleSet;
use gp_flow::LinesFault;
use gp_log::{Said, push_entry};
use gp_observer::Rule;
use gp_ploam::{Mask, Serial, Up, encode_up};
use std::alloc::{AllocError, Global};
use std::test::Fail;

/// Gives the code of a unit that asks: one of 65,536.
fn asking(number: u16) -> [u8; 13] {
    let [high, low] = number.to_be_bytes();
    let message = Up::SerialNumber {
        onu: 255,
        serial: Serial([b'A', b'B', b'C', b'D', 0, 0, high, low]),
        random: 0,
        flags: 0,
    };
    encode_up(&message, Mask::Plain)
}

/// Gives a log in which so many units ask, and then one more, a second time.
fn log_of_many(alloc: Global, units: u16) -> Result<Vec<u8>, AllocError> {
    let mut log = Vec::new(alloc);
    for number in 0..units {
        let code = asking(number);
        push_entry(&mut log, 1, 7, &Said::Up { code, delay: None })?;
    }
    let code = asking(units);
    push_entry(&mut log, 1, 8, &Said::Up { code, delay: None })?;
    push_entry(&mut log, 1, 8, &Said::Up { code, delay: None })?;
    Ok(log)
}

/// Gives what is told of that log.
fn told_of_many(alloc: Global, units: u16) -> Result<Vec<u8>, LinesFault> {
    let log = log_of_many(alloc, units)?;
    audited(alloc, &plain_options(), log.as_slice())
}

#[test]
fn as_many_units_as_are_followed(rt: HostRuntime) -> Result<(), Fail> {
    let told = told_of_many(rt.alloc(), 4_095)?;
    assert_eq!(rt; told.as_slice(), b"4097 lines, 0 findings\n".as_slice());
    Ok(())
}

#[test]
fn one_unit_too_many(rt: HostRuntime) -> Result<(), Fail> {
    let told = told_of_many(rt.alloc(), 4_096)?;
    let wanted = "error 4097 full\n4098 lines, 0 findings, 1 error\n";
    assert_eq!(rt; told.as_slice(), wanted.as_bytes());
    Ok(())
}

/// Gives a log in which a unit answers with so many delays, from 1,000 on, and is told one that it had at no time.
fn log_of_delays(alloc: Global, delays: u32) -> Result<String, AllocError> {
    let mut log = String::new(alloc);
    log.push_str("1 up Serial_Number_ONU 255 ABCD00000001 0 0 @1000\n")?;
    log.push_str("3 down Assign_ONU-ID 3 ABCD00000001\n")?;
    for place in 0..delays {
        let delay = place.wrapping_add(1_000);
        write!(log, "1 up Serial_Number_ONU 3 ABCD00000001 0 0 @{delay}\n")?;
    }
    log.push_str("3 down Ranging_Time 3 311000")?;
    Ok(log)
}

/// Gives the rules that are told of that log.
fn rules_of_delays(alloc: Global, delays: u32) -> Result<String, LinesFault> {
    let words = log_of_delays(alloc, delays)?;
    let log = log_of(alloc, words.as_str())?;
    let told = audited(alloc, &plain_options(), log.as_slice())?;
    let text = std::str::from_utf8(told.as_slice()).unwrap_or("no text");
    Ok(rules_in(alloc, text)?)
}

#[test]
fn as_many_delays_as_are_kept(rt: HostRuntime) -> Result<(), Fail> {
    let rules = rules_of_delays(rt.alloc(), 64)?;
    assert_eq!(rt; rules.as_str(), "69 terminal delay;");
    Ok(())
}

#[test]
fn one_delay_too_many(rt: HostRuntime) -> Result<(), Fail> {
    let rules = rules_of_delays(rt.alloc(), 65)?;
    assert_eq!(rt; rules.as_str(), "");
    Ok(())
}

#[test]
fn a_line_too_long(rt: HostRuntime) -> Result<(), Fail> {
    let mut log = Vec::new(rt.alloc());
    log.push(b'#')?;
    for _ in 1..4_096 {
        log.push(b' ')?;
    }
    log.push(b'\n')?;
    log.push(b'#')?;
    for _ in 0..4_096 {
        log.push(b' ')?;
    }
    let told = audited(rt.alloc(), &plain_options(), log.as_slice())?;
    let wanted = "error 2 long\n2 lines, 0 findings, 1 error\n";
    assert_eq!(rt; told.as_slice(), wanted.as_bytes());
    Ok(())
}

/// A log that breaks rules of both sides.
const BOTH: &'static str = "\
3 down Deactivate_ONU-ID 3\n\
1 up No_message 4 @7\n\
1 grant poll 5\n\
1 up! No_message 255";

#[test]
fn one_side_alone(rt: HostRuntime) -> Result<(), Fail> {
    let log = log_of(rt.alloc(), BOTH)?;
    let mut options = plain_options();
    options.told.units = false;
    let told = audited(rt.alloc(), &options, log.as_slice())?;
    let text = std::str::from_utf8(told.as_slice()).unwrap_or("no text");
    let rules = rules_in(rt.alloc(), text)?;
    assert_eq!(rt; rules.as_str(), "1 terminal nobody;5 terminal grant;");
    Ok(())
}

#[test]
fn some_rules_alone(rt: HostRuntime) -> Result<(), Fail> {
    let log = log_of(rt.alloc(), BOTH)?;
    let mut options = plain_options();
    options.told.rules = RuleSet::none();
    options.told.rules.insert(Rule::Garbled);
    options.told.rules.insert(Rule::Number);
    let told = audited(rt.alloc(), &options, log.as_slice())?;
    let text = std::str::from_utf8(told.as_slice()).unwrap_or("no text");
    let rules = rules_in(rt.alloc(), text)?;
    assert_eq!(rt; rules.as_str(), "4 unit number;6 unit garbled;");
    Ok(())
}
