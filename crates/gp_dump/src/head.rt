//! The declarations of a dump: what times are counted in, what numbers stand for, and the variables of each port and of
//! each of its lanes.
ghost use Rattle.std.specs.Prelude.{◌≡◌, ◌<◌, ◌++◌, OnOk, Some, length};
ghost use Rattle.gp_machine.specs.Config.{max_ports};
ghost use Rattle.gp_dump.specs.Head as spec;
ghost use Rattle.gp_dump.specs.Text.{port_id, unit_id};

use crate::dump::PORTS;
use crate::piece::{push_number, push_port_id, push_unit_id};
use std::alloc::AllocError;

/// What times are counted in, and what the numbers stand for.
const FRONT: &str =
    "$timescale 1 ns $end\n$comment grant, window: 1 search, 2 range, 3 poll; alarm: 1 LOS, 2 LOAM, 3 LOA, 4 SUF, 5 DF, 6 DG; state: 0 removed, 1 asking, 2 ranging, 3 operating; z: none $end\n";

/// Appends what times are counted in, and what the numbers stand for.
#[tactic(auto, unfolding(crate::specs::Head::front_text))]
fn push_front(out: &mut Vec<u8>) -> Result<(), AllocError>
    ensures { OnOk result (out.new.items ≡ out.old.items ++ spec.front_text) }
{
    out.extend_from_slice(FRONT.as_bytes())
}

/// Appends where the declarations end.
#[tactic(auto, unfolding(crate::specs::Head::last_text))]
fn push_last(out: &mut Vec<u8>) -> Result<(), AllocError>
    ensures { OnOk result (out.new.items ≡ out.old.items ++ spec.last_text) }
{
    out.extend_from_slice(b"$enddefinitions $end\n")
}

/// Appends a variable of a port.
#[tactic(auto, unfolding(crate::specs::Head::variable_text))]
fn push_port_variable(
    out: &mut Vec<u8>,
    kind: &str,
    port: u8,
    letter: u8,
    name: &str,
) -> Result<(), AllocError>
    requires { port < max_ports }
    ensures { OnOk result (out.new.items ≡ out.old.items
        ++ spec.variable_text kind.now (port_id port letter) name.now) }
{
    out.extend_from_slice(b"$var ")?;
    out.extend_from_slice(kind.as_bytes())?;
    push_port_id(out, port, letter)?;
    out.extend_from_slice(name.as_bytes())?;
    out.extend_from_slice(b" $end\n")
}

/// Appends a variable of a unit's lane.
#[tactic(auto, unfolding(crate::specs::Head::variable_text))]
fn push_unit_variable(
    out: &mut Vec<u8>,
    kind: &str,
    port: u8,
    letter: u8,
    lane: u16,
    name: &str,
) -> Result<(), AllocError>
    requires { port < max_ports }
    ensures { OnOk result (out.new.items ≡ out.old.items
        ++ spec.variable_text kind.now (unit_id port letter lane) name.now) }
{
    out.extend_from_slice(b"$var ")?;
    out.extend_from_slice(kind.as_bytes())?;
    push_unit_id(out, port, letter, lane)?;
    out.extend_from_slice(name.as_bytes())?;
    out.extend_from_slice(b" $end\n")
}

/// Appends where a scope begins, by its words and its number.
#[tactic(auto, unfolding(crate::specs::Head::scope_text))]
fn push_scope(out: &mut Vec<u8>, name: &str, number: u64) -> Result<(), AllocError>
    ensures { OnOk result (out.new.items ≡ out.old.items ++ spec.scope_text name.now number) }
{
    out.extend_from_slice(name.as_bytes())?;
    push_number(out, number)?;
    out.extend_from_slice(b" $end\n")
}

/// Appends where the scope of a lane begins.
#[tactic(auto, unfolding(crate::specs::Head::unit_scope))]
fn push_unit_scope(out: &mut Vec<u8>, lane: u16) -> Result<(), AllocError>
    ensures { OnOk result (out.new.items ≡ out.old.items ++ spec.unit_scope lane) }
{
    push_scope(out, "$scope module unit", u64::from(lane))
}

/// Appends where the scope of a port begins.
#[tactic(auto, unfolding(crate::specs::Head::port_scope))]
fn push_port_scope(out: &mut Vec<u8>, port: u8) -> Result<(), AllocError>
    ensures { OnOk result (out.new.items ≡ out.old.items ++ spec.port_scope port) }
{
    push_scope(out, "$scope module port", u64::from(port))
}

/// Appends where a scope ends.
#[tactic(auto, unfolding(crate::specs::Head::end_text))]
fn push_end(out: &mut Vec<u8>) -> Result<(), AllocError>
    ensures { OnOk result (out.new.items ≡ out.old.items ++ spec.end_text) }
{
    out.extend_from_slice(b"$upscope $end\n")
}

/// Appends what is sent on a port, and what is granted.
#[tactic(auto, unfolding(crate::specs::Head::down_text))]
fn push_down(out: &mut Vec<u8>, port: u8) -> Result<(), AllocError>
    requires { port < max_ports }
    ensures { OnOk result (out.new.items ≡ out.old.items ++ spec.down_text port) }
{
    push_port_variable(out, "wire 1 ", port, b'f', " frame")?;
    push_port_variable(out, "reg 104 ", port, b's', " sent")?;
    push_port_variable(out, "reg 8 ", port, b'g', " grant")?;
    push_port_variable(out, "reg 8 ", port, b'a', " asked")
}

/// Appends what comes back.
#[tactic(auto, unfolding(crate::specs::Head::up_text))]
fn push_up(out: &mut Vec<u8>, port: u8) -> Result<(), AllocError>
    requires { port < max_ports }
    ensures { OnOk result (out.new.items ≡ out.old.items ++ spec.up_text port) }
{
    push_port_variable(out, "reg 8 ", port, b'w', " window")?;
    push_port_variable(out, "reg 104 ", port, b'b', " burst")?;
    push_port_variable(out, "reg 32 ", port, b'd', " delay")?;
    push_port_variable(out, "reg 8 ", port, b'l', " alarm")
}

/// Appends what is known of a unit.
#[tactic(auto, unfolding(crate::specs::Head::unit_text))]
fn push_unit(out: &mut Vec<u8>, port: u8, lane: u16) -> Result<(), AllocError>
    requires { port < max_ports }
    ensures { OnOk result (out.new.items ≡ out.old.items ++ spec.unit_text port lane) }
{
    push_unit_variable(out, "reg 64 ", port, b'n', lane, " serial")?;
    push_unit_variable(out, "reg 8 ", port, b't', lane, " state")?;
    push_unit_variable(out, "reg 8 ", port, b'o', lane, " onu")?;
    push_unit_variable(out, "reg 32 ", port, b'e', lane, " delay")
}

/// Appends a lane.
#[tactic(auto, unfolding(crate::specs::Head::lane_text))]
fn push_lane(out: &mut Vec<u8>, port: u8, lane: u16) -> Result<(), AllocError>
    requires { port < max_ports }
    ensures { OnOk result (out.new.items ≡ out.old.items ++ spec.lane_text port lane) }
{
    push_unit_scope(out, lane)?;
    push_unit(out, port, lane)?;
    push_end(out)
}

/// Appends so many lanes.
fn push_lanes(out: &mut Vec<u8>, port: u8, lanes: u16) -> Result<(), AllocError>
    requires { port < max_ports }
    ensures { OnOk result (out.new.items ≡ out.old.items ++ spec.lanes_text port lanes) }
{
    'lanes: for lane in 0..lanes {
        push_lane(out, port, lane)?;
    }
    Ok(())
}

/// Appends a port.
#[tactic(auto, unfolding(crate::specs::Head::port_text))]
fn push_port(out: &mut Vec<u8>, port: u8, lanes: u16) -> Result<(), AllocError>
    requires { port < max_ports }
    ensures { OnOk result (out.new.items ≡ out.old.items ++ spec.port_text port lanes) }
{
    push_port_scope(out, port)?;
    push_down(out, port)?;
    push_up(out, port)?;
    push_lanes(out, port, lanes)?;
    push_end(out)
}

/// Appends a port, if it is declared.
fn push_port_if(out: &mut Vec<u8>, port: u8, lanes: Option<u16>) -> Result<(), AllocError>
    requires { port < max_ports }
    ensures { OnOk result (out.new.items ≡ out.old.items ++ spec.port_if port lanes) }
{
    match lanes {
        Some(lanes) => push_port(out, port, lanes),
        None => Ok(()),
    }
}

/// Appends the ports that are declared.
fn push_ports(out: &mut Vec<u8>, ports: &[Option<u16>; PORTS]) -> Result<(), AllocError>
    ensures { OnOk result (out.new.items ≡ out.old.items ++ spec.ports_text 0 ports.now) }
{
    'ports: for port in 0..PORTS as u8 {
        push_port_if(out, port, ports[usize::from(port)])?;
    }
    Ok(())
}

/// Appends the declarations of a dump: of each port its variables and those of so many lanes, if it is declared. Where
/// memory is refused, a part of them may have been appended.
pub fn push_head(out: &mut Vec<u8>, ports: &[Option<u16>; PORTS]) -> Result<(), AllocError>
    ensures { OnOk result (out.new.items ≡ out.old.items ++ spec.head_text ports.now) }
{
    push_front(out)?;
    push_ports(out, ports)?;
    push_last(out)
}
