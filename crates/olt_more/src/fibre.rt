//! Scripts with simulated units, none of whose messages are lost, and lines for them.
use crate::choices::Choices;
use crate::codes::garbled;
use crate::serials::{add_list, serial_of, text_of};
use gp_ploam::Mask;
use std::alloc::{AllocError, Global};

/// How many serial numbers a port may admit.
const MAX_ADMITTED: u16 = 512;

/// A kilometre of fibre in bit times, there and back.
const KILOMETRE: u32 = 12_442;

/// How many of the first ONU-IDs are surely those of units, once the port has searched.
const KNOWN: u32 = 40;

/// What a fibre has.
#[derive(Clone, Copy)]
pub(crate) struct Fibre {
    pub(crate) lot: u8,
    pub(crate) units: u16,
    pub(crate) mask: Mask,
}

/// Gives the number of a mask.
pub(crate) fn mask_number(mask: Mask) -> u8 {
    match mask {
        Mask::Plain => 0,
        Mask::Coset => 85,
    }
}

/// Adds the port and the units, each 5 to 35 km away.
fn add_tables(
    alloc: Global,
    script: &mut String,
    choices: &mut Choices,
    fibre: Fibre,
) -> Result<(), AllocError> {
    script.push_str("[[port]]\nteqd = 460000\ncycles = 5\nadmit = ")?;
    add_list(alloc, script, fibre.lot, 0, fibre.units.min(MAX_ADMITTED))?;
    script.push_str("\n")?;
    for place in 0..fibre.units {
        let serial = text_of(alloc, serial_of(fibre.lot, 0, place))?;
        let delay = choices.between(KILOMETRE * 5, KILOMETRE * 35);
        let random = choices.below(4096);
        write!(
            script,
            "[[unit]]\nserial = \"{serial}\"\ndelay = {delay}\nrandom = {random}\n"
        )?;
    }
    Ok(())
}

/// Adds a command about a unit, or a burst that a rogue sends.
fn add_turn(
    alloc: Global,
    script: &mut String,
    choices: &mut Choices,
    fibre: Fibre,
) -> Result<(), AllocError> {
    let place = choices.below(u32::from(fibre.units)) as u16;
    let serial = text_of(alloc, serial_of(fibre.lot, 0, place))?;
    let word = match choices.below(24) {
        0..=3 => {
            let code = hex::encode(alloc, garbled((place % 256) as u8, fibre.mask))?;
            return write!(script, "{{port = 0, at = 90000, burst = \"{code}\"}},\n");
        }
        4 => return script.push_str("{port = 0, command = \"search\"},\n"),
        5..=9 => "alloc",
        10..=13 => "popup",
        14 | 15 => "deactivate",
        _ => "show",
    };
    write!(
        script,
        "{{port = 0, command = \"{word}\", serial = \"{serial}\"}},\n"
    )
}

/// Adds a spell: a unit goes dark and comes back, an operator asks for something, and single frames go by.
fn add_spell(
    alloc: Global,
    script: &mut String,
    choices: &mut Choices,
    fibre: Fibre,
) -> Result<(), AllocError> {
    let unit = choices.below(u32::from(fibre.units));
    let frames = choices.between(500, 1_500);
    write!(script, "{{unit = {unit}, light = false}},\n")?;
    write!(script, "{{port = 0, frames = {frames}}},\n")?;
    write!(script, "{{unit = {unit}, light = true}},\n")?;
    for _ in 0..20u32 {
        add_turn(alloc, script, choices, fibre)?;
        for _ in 0..4u32 {
            script.push_str("{port = 0, frames = 1},\n")?;
        }
    }
    Ok(())
}

/// Writes the script of a fibre, on which so many spells are played behind a search.
pub(crate) fn script_of(
    alloc: Global,
    choices: &mut Choices,
    fibre: Fibre,
    spells: u32,
) -> Result<String, AllocError> {
    let mut script = String::new(alloc);
    let mask = mask_number(fibre.mask);
    write!(script, "licences = 254\nmask = {mask}\nevent = [\n")?;
    script.push_str("{port = 0, command = \"search\"},\n{port = 0, frames = 4000},\n")?;
    for _ in 0..spells {
        add_spell(alloc, &mut script, choices, fibre)?;
    }
    script.push_str("]\n")?;
    add_tables(alloc, &mut script, choices, fibre)?;
    Ok(script)
}

/// Adds frames, each a line of its own.
fn add_frames(lines: &mut String, frames: u32) -> Result<(), AllocError> {
    for _ in 0..frames {
        lines.push_str("0 frame\n")?;
    }
    Ok(())
}

/// Writes lines for a fibre: frames up to a poll or a measurement, single frames, and at the end a rogue's garbled
/// bursts.
pub(crate) fn lines_of(
    alloc: Global,
    choices: &mut Choices,
    fibre: Fibre,
) -> Result<String, AllocError> {
    let mut lines = String::new(alloc);
    lines.push_str("0 popup-all\n")?;
    for _ in 0..12u32 {
        let onu = choices.below(KNOWN);
        write!(lines, "0 until poll {onu}\n")?;
        add_frames(&mut lines, 400)?;
    }
    let onu = choices.below(KNOWN);
    write!(lines, "0 popup-all\n0 until range {onu}\n")?;
    for _ in 0..1_000u32 {
        let code = hex::encode(alloc, garbled(choices.below(254) as u8, fibre.mask))?;
        write!(lines, "0 burst 90000 {code}\n")?;
        add_frames(&mut lines, 4)?;
    }
    Ok(lines)
}
