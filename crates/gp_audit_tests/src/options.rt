//! Options as they are given: lists of rules, and delays of ports.
use gp_audit::{RuleSet, equalized_delays, rules_told};
use gp_observer::Rule;
use std::process::Abort;

/// Gives a set of these rules.
fn set_of(rules: &[Rule]) -> RuleSet {
    let mut set = RuleSet::none();
    for rule in rules {
        set.insert(*rule);
    }
    set
}

/// Checks which rules lists name alone, and that none is told where they are the ones that are left out.
fn assert_only(rt: &impl Abort, lists: &[&str], wanted: &[Rule]) {
    assert_eq!(rt; rules_told(Some(lists), None), Ok(set_of(wanted)));
    assert_eq!(rt; rules_told(Some(lists), Some(lists)), Ok(RuleSet::none()));
}

/// Checks which name of lists is one of no rule, where they are told alone and where they are left out.
fn assert_unknown(rt: &impl Abort, lists: &[&str], wanted: &str) {
    assert_eq!(rt; rules_told(Some(lists), None), Err(wanted));
    assert_eq!(rt; rules_told(None, Some(lists)), Err(wanted));
}

/// Checks the delay of each port that texts give.
fn assert_delays(rt: &impl Abort, texts: &[&str], wanted: [u32; 16]) {
    assert_eq!(rt; equalized_delays(Some(texts)), Ok(wanted));
}

/// Checks that one text can't be read, behind another one that can.
fn assert_unread(rt: &impl Abort, text: &str) {
    assert_eq!(rt; equalized_delays(Some(["7", text].as_slice())), Err(text));
}

#[test]
fn all_rules_where_none_are_named(rt: HostRuntime) {
    assert_eq!(rt; rules_told(None, None), Ok(RuleSet::all()));
}

#[test]
fn one_list(rt: HostRuntime) {
    assert_only(
        &rt,
        &["drift,garbled,not-held"],
        &[Rule::Garbled, Rule::NotHeld, Rule::Drift],
    );
}

#[test]
fn a_name_twice(rt: HostRuntime) {
    assert_only(&rt, &["taken,taken"], &[Rule::Taken]);
}

#[test]
fn several_lists(rt: HostRuntime) {
    assert_only(
        &rt,
        &["copies", "anew,number", "copies"],
        &[Rule::Copies, Rule::Anew, Rule::Number],
    );
}

#[test]
fn no_lists(rt: HostRuntime) {
    assert_only(&rt, &[], &[]);
}

#[test]
fn some_are_left_out(rt: HostRuntime) {
    let mut wanted = RuleSet::all();
    wanted.remove(Rule::Shared);
    wanted.remove(Rule::Grant);
    assert_eq!(rt;
        rules_told(None, Some(["shared", "grant"].as_slice())),
        Ok(wanted)
    );
}

#[test]
fn alone_and_left_out(rt: HostRuntime) {
    let only = ["range,barred,early", "delay"].as_slice();
    let without = ["early", "range,unasked"].as_slice();
    assert_eq!(rt;
        rules_told(Some(only), Some(without)),
        Ok(set_of(&[Rule::Barred, Rule::Delay]))
    );
}

#[test]
fn the_first_wrong_name(rt: HostRuntime) {
    assert_unknown(&rt, &["delay", "late,grant,Delay"], "late");
}

#[test]
fn the_second_list_is_wrong(rt: HostRuntime) {
    let rules = rules_told(Some(["delay"].as_slice()), Some(["delay,none"].as_slice()));
    assert_eq!(rt; rules, Err("none"));
}

#[test]
fn both_lists_are_wrong(rt: HostRuntime) {
    let rules = rules_told(Some(["delay,one"].as_slice()), Some(["two"].as_slice()));
    assert_eq!(rt; rules, Err("one"));
}

#[test]
fn no_rule_has_no_name(rt: HostRuntime) {
    assert_unknown(&rt, &[""], "");
}

#[test]
fn a_comma_behind(rt: HostRuntime) {
    assert_unknown(&rt, &["delay,"], "");
}

#[test]
fn a_space_is_of_the_name(rt: HostRuntime) {
    assert_unknown(&rt, &["delay, grant"], " grant");
}

#[test]
fn delays_that_are_left_out(rt: HostRuntime) {
    assert_eq!(rt; equalized_delays(None), Ok([311_040; 16]));
}

#[test]
fn one_port(rt: HostRuntime) {
    let mut wanted = [311_040; 16];
    wanted[3] = 5;
    assert_delays(&rt, &["3=5"], wanted);
}

#[test]
fn the_last_port(rt: HostRuntime) {
    let mut wanted = [311_040; 16];
    wanted[15] = 0;
    assert_delays(&rt, &["015=00"], wanted);
}

#[test]
fn a_port_twice(rt: HostRuntime) {
    let mut wanted = [311_040; 16];
    wanted[3] = 6;
    wanted[4] = 8;
    assert_delays(&rt, &["3=5", "4=8", "3=6"], wanted);
}

#[test]
fn all_ports_and_then_one(rt: HostRuntime) {
    let mut wanted = [9; 16];
    wanted[0] = 10;
    assert_delays(&rt, &["0=8", "9", "0=10"], wanted);
}

#[test]
fn the_greatest_delay(rt: HostRuntime) {
    assert_delays(&rt, &["4294967295"], [4_294_967_295; 16]);
}

#[test]
fn a_delay_too_great(rt: HostRuntime) {
    assert_unread(&rt, "4294967296");
}

#[test]
fn no_such_port(rt: HostRuntime) {
    assert_unread(&rt, "16=5");
}

#[test]
fn no_port(rt: HostRuntime) {
    assert_unread(&rt, "=5");
}

#[test]
fn no_delay(rt: HostRuntime) {
    assert_unread(&rt, "5=");
}

#[test]
fn nothing_at_all(rt: HostRuntime) {
    assert_unread(&rt, "");
}

#[test]
fn a_port_of_a_port(rt: HostRuntime) {
    assert_unread(&rt, "1=2=3");
}

#[test]
fn the_first_text_that_is_wrong(rt: HostRuntime) {
    assert_eq!(rt; equalized_delays(Some(["1=x", "y"].as_slice())), Err("1=x"));
}
