//! What stands before the events: the top of a script, its ports, its simulated units and what is lost.
ghost use Rattle.std.specs.Prelude.{◌≡◌, ◌++◌, OnOk};
ghost use Rattle.gp_generate.specs.Tables as spec;

use crate::cast::serial_of;
use crate::chance::{Draw, Drawn, begin, draw_four};
use crate::mistake::{MISTAKES, Mistake, mistake_by};
use crate::pieces::{push_decimal, push_number, push_serial, push_serial_key, push_text};
use crate::plan::Plan;
use gp_ploam::Mask;
use std::alloc::AllocError;

/// Gives how many licences there are.
fn licences(plan: &Plan, draw: &Draw) -> u32
    ensures { result ≡ spec.licences plan.now draw.now }
{
    draw.which % (u32::from(plan.cast_units()) * u32::from(plan.ports()) + 1) + 1
}

/// Gives the number of a mask.
fn mask_number(mask: Mask) -> u64
    ensures { result ≡ spec.mask_number mask }
{
    match mask {
        Mask::Plain => 0,
        Mask::Coset => 85,
    }
}

/// Appends an option and its number.
#[tactic(auto, unfolding(crate::specs::Tables::option_text))]
fn push_option(out: &mut Vec<u8>, name: &str, number: u64) -> Result<(), AllocError>
    ensures { OnOk result (out.new.items ≡ out.old.items ++ spec.option_text name.now number) }
{
    push_text(out, name)?;
    push_decimal(out, number)
}

/// Appends the command, as a comment.
#[tactic(auto, unfolding(crate::specs::Tables::tool_text))]
fn push_tool(out: &mut Vec<u8>) -> Result<(), AllocError>
    ensures { OnOk result (out.new.items ≡ out.old.items ++ spec.tool_text) }
{
    out.extend_from_slice(b"# oltctl generate")
}

/// Appends it, and where chance begins.
#[tactic(auto, unfolding(crate::specs::Tables::seed_text))]
fn push_seed(out: &mut Vec<u8>, seed: u64) -> Result<(), AllocError>
    ensures { OnOk result (out.new.items ≡ out.old.items ++ spec.seed_text seed) }
{
    push_tool(out)?;
    push_option(out, " --seed ", seed)
}

/// Appends how big a script was asked for.
#[tactic(auto, unfolding(crate::specs::Tables::size_text))]
fn push_size(out: &mut Vec<u8>, seed: u64, ports: u8, units: u16) -> Result<(), AllocError>
    ensures { OnOk result (out.new.items ≡ out.old.items ++ spec.size_text seed ports units) }
{
    push_seed(out, seed)?;
    push_option(out, " --ports ", u64::from(ports))?;
    push_option(out, " --units ", u64::from(units))
}

/// Appends what is in it.
#[tactic(auto, unfolding(crate::specs::Tables::content_text))]
fn push_content(out: &mut Vec<u8>, events: u32, mistakes: u32) -> Result<(), AllocError>
    ensures { OnOk result (out.new.items ≡ out.old.items ++ spec.content_text events mistakes) }
{
    push_option(out, " --events ", u64::from(events))?;
    push_option(out, " --mistakes ", u64::from(mistakes))?;
    push_text(out, "\n")
}

/// Appends by which words it was asked for.
#[tactic(auto, unfolding(crate::specs::Tables::asked_text))]
fn push_asked(out: &mut Vec<u8>, plan: &Plan) -> Result<(), AllocError>
    ensures { OnOk result (out.new.items ≡ out.old.items ++ spec.asked_text plan.now) }
{
    push_size(out, plan.seed(), plan.ports(), plan.units())?;
    push_content(out, plan.events(), plan.mistakes())
}

/// Appends the top.
#[tactic(auto, unfolding(crate::specs::Tables::top_text))]
fn push_top(out: &mut Vec<u8>, plan: &Plan, draw: &Draw) -> Result<(), AllocError>
    ensures { OnOk result (out.new.items ≡ out.old.items ++ spec.top_text plan.now draw.now) }
{
    push_asked(out, plan)?;
    push_number(out, "licences", u64::from(licences(plan, draw)))?;
    push_number(out, "mask", mask_number(plan.mask()))?;
    push_text(out, "\n")
}

/// Appends a comma, but before the first serial number.
fn push_comma(out: &mut Vec<u8>, place: u16) -> Result<(), AllocError>
    ensures { OnOk result (out.new.items ≡ out.old.items ++ spec.comma_text place) }
{
    if place == 0 {
        Ok(())
    } else {
        push_text(out, ", ")
    }
}

/// Appends the serial number of a unit that is admitted.
fn push_admitted(out: &mut Vec<u8>, port: u8, unit: u16) -> Result<(), AllocError>
    ensures { OnOk result (out.new.items ≡ out.old.items ++ spec.admitted_text port unit) }
{
    push_comma(out, unit)?;
    push_text(out, "\"")?;
    push_serial(out, &serial_of(port, unit))?;
    push_text(out, "\"")
}

/// Appends those of so many units.
fn push_all_admitted(out: &mut Vec<u8>, port: u8, units: u16) -> Result<(), AllocError>
    ensures { OnOk result (out.new.items ≡ out.old.items ++ spec.all_admitted port units) }
{
    'units: for unit in 0..units {
        push_admitted(out, port, unit)?;
    }
    Ok(())
}

/// Appends the serial number of the first unit once more, where a mistake is that.
fn push_twice_if(out: &mut Vec<u8>, mistake: Mistake) -> Result<(), AllocError>
    ensures { OnOk result (out.new.items ≡ out.old.items ++ spec.twice_if mistake) }
{
    match mistake {
        Mistake::AdmittedTwice => push_text(out, ", \"ABCD00000000\""),
        _ => Ok(()),
    }
}

/// Appends it for each of so many mistakes.
fn push_twice(out: &mut Vec<u8>, seed: u64, mistakes: u32) -> Result<(), AllocError>
    ensures { OnOk result (out.new.items ≡ out.old.items ++ spec.twice_text MISTAKES seed mistakes) }
{
    'mistakes: for number in 0..mistakes {
        push_twice_if(out, mistake_by(seed, number))?;
    }
    Ok(())
}

/// Appends the mistakes of a port: those of the script, where it is the first.
fn push_port_mistakes(out: &mut Vec<u8>, plan: &Plan, port: u8) -> Result<(), AllocError>
    ensures { OnOk result (out.new.items ≡ out.old.items ++ spec.port_mistakes MISTAKES plan.now port) }
{
    if port == 0 {
        push_twice(out, plan.seed(), plan.mistakes())
    } else {
        Ok(())
    }
}

/// Gives how many units may be active on a port.
fn max_units(plan: &Plan, draw: &Draw) -> u32
    ensures { result ≡ spec.max_units plan.now draw.now }
{
    (draw.who % (u32::from(plan.cast_units()) + 1) + 1).min(254)
}

/// Gives the greatest Alloc-ID: one in four ports has one further Alloc-ID alone.
fn alloc_last(draw: &Draw) -> u64
    ensures { result ≡ spec.alloc_last draw.now }
{
    if draw.what % 4 == 0 { 256 } else { 4095 }
}

/// Gives after how many frames a search begins by itself: of one port in four.
fn search_period(draw: &Draw) -> u64
    ensures { result ≡ spec.search_period draw.now }
{
    if draw.place % 4 == 0 { 200 } else { 0 }
}

/// Appends the limits of a port.
#[tactic(auto, unfolding(crate::specs::Tables::limits_text))]
fn push_limits(out: &mut Vec<u8>, plan: &Plan, port: u8, draw: &Draw) -> Result<(), AllocError>
    ensures { OnOk result (out.new.items ≡ out.old.items ++ spec.limits_text plan.now port draw.now) }
{
    push_number(out, "max_units", u64::from(max_units(plan, draw)))?;
    push_number(out, "alloc_last", alloc_last(draw))?;
    push_number(out, "cycles", u64::from(plan.cycles(port)))?;
    push_number(out, "search_period", search_period(draw))?;
    push_number(out, "quarantine", u64::from(draw.place / 4 % 3 * 10))
}

/// Appends a port.
#[tactic(auto, unfolding(crate::specs::Tables::port_text))]
fn push_port(out: &mut Vec<u8>, plan: &Plan, port: u8, draw: &Draw) -> Result<(), AllocError>
    ensures { OnOk result (out.new.items ≡ out.old.items ++ spec.port_text MISTAKES plan.now port draw.now) }
{
    push_text(out, "[[port]]\n")?;
    push_limits(out, plan, port, draw)?;
    push_text(out, "admit = [")?;
    push_all_admitted(out, port, plan.admitted())?;
    push_port_mistakes(out, plan, port)?;
    push_text(out, "]\n\n")
}

/// Appends all ports.
fn push_ports(out: &mut Vec<u8>, plan: &Plan) -> Result<(), AllocError>
    ensures { OnOk result (out.new.items ≡ out.old.items ++ spec.ports_text MISTAKES plan.now plan.now.ports) }
{
    let mut chance = begin(plan.seed(), Drawn::Ports);
    'ports: for port in 0..plan.ports() {
        let draw = draw_four(&mut chance);
        push_port(out, plan, port, &draw)?;
    }
    Ok(())
}

/// Gives how far away a unit is, in bit times: one in eight is too far to be ranged.
fn delay_of(draw: &Draw) -> u64
    ensures { result ≡ spec.delay_of draw.now }
{
    if draw.which % 8 == 0 {
        u64::from(draw.who % 311_000 + 311_041)
    } else {
        u64::from(draw.who % 300_000)
    }
}

/// Appends a simulated unit.
#[tactic(auto, unfolding(crate::specs::Tables::unit_text))]
fn push_unit(out: &mut Vec<u8>, unit: u16, draw: &Draw) -> Result<(), AllocError>
    ensures { OnOk result (out.new.items ≡ out.old.items ++ spec.unit_text unit draw.now) }
{
    push_text(out, "[[unit]]\n")?;
    push_serial_key(out, &serial_of(0, unit))?;
    push_number(out, "delay", delay_of(draw))?;
    push_number(out, "random", u64::from(draw.what % 4096))?;
    push_text(out, "\n")
}

/// Appends all simulated units.
fn push_units(out: &mut Vec<u8>, plan: &Plan) -> Result<(), AllocError>
    ensures { OnOk result (out.new.items ≡ out.old.items ++ spec.units_text plan.now plan.now.units) }
{
    let mut chance = begin(plan.seed(), Drawn::Units);
    'units: for unit in 0..plan.units() {
        let draw = draw_four(&mut chance);
        push_unit(out, unit, &draw)?;
    }
    Ok(())
}

/// Gives what is lost: a copy or a burst.
fn lost_name(draw: &Draw) -> &'static str
    ensures { result.now ≡ spec.lost_name draw.now }
{
    if draw.which % 2 == 0 { "copy" } else { "burst" }
}

/// Appends what is lost.
#[tactic(auto, unfolding(crate::specs::Tables::loss_text))]
fn push_loss(out: &mut Vec<u8>, plan: &Plan, draw: &Draw) -> Result<(), AllocError>
    ensures { OnOk result (out.new.items ≡ out.old.items ++ spec.loss_text plan.now draw.now) }
{
    let number = draw.who % (40 * u32::from(plan.cast_units()));
    push_text(out, "[[lose]]\n")?;
    push_number(out, lost_name(draw), u64::from(number))?;
    push_text(out, "\n")
}

/// Appends all that is lost: a table for each unit.
fn push_losses(out: &mut Vec<u8>, plan: &Plan) -> Result<(), AllocError>
    ensures { OnOk result (out.new.items ≡ out.old.items ++ spec.losses_text plan.now plan.now.units) }
{
    let mut chance = begin(plan.seed(), Drawn::Losses);
    'units: for _unit in 0..plan.units() {
        let draw = draw_four(&mut chance);
        push_loss(out, plan, &draw)?;
    }
    Ok(())
}

/// Appends all that stands before the events.
#[tactic(auto, unfolding(crate::specs::Tables::head_text))]
pub(crate) fn push_head(out: &mut Vec<u8>, plan: &Plan) -> Result<(), AllocError>
    ensures { OnOk result (out.new.items ≡ out.old.items ++ spec.head_text MISTAKES plan.now) }
{
    let draw = top_draw(plan.seed());
    push_top(out, plan, &draw)?;
    push_ports(out, plan)?;
    push_units(out, plan)?;
    push_losses(out, plan)
}

/// Draws for the top.
#[tactic(auto, unfolding(crate::specs::Chance::drawn_for))]
fn top_draw(seed: u64) -> Draw
    ensures { result ≡ spec.top_draw seed }
{
    let mut chance = begin(seed, Drawn::Top);
    draw_four(&mut chance)
}
