//! The whole picture as SVG: how everything looks, the legend, and the ports of which a line tells.
ghost use Rattle.std.specs.Prelude.{IfOk};
ghost use Rattle.std.specs.String.{string_bytes};
ghost use Rattle.gp_picture.specs.Outcome.{IsSvg};

use crate::legend::{push_head, push_legend};
use crate::picture::Picture;
use crate::port_text::push_port;
use crate::scale::Scale;
use gp_times::PortTimes;
use std::alloc::{AllocError, Global};

/// Where the first port begins, in units: the legend stands above it.
const PORTS_TOP: u64 = 48;

/// Appends the ports of which a line tells, one below the other, and gives where they end.
fn push_ports(
    out: &mut String,
    alloc: Global,
    picture: &Picture,
    times: &PortTimes,
) -> Result<u64, AllocError> {
    let scale = Scale::of(&picture.options.frames, times);
    let mut y = PORTS_TOP;
    let mut number = 0u8;
    for port in picture.ports.as_slice() {
        let time = times.of(number);
        if time.first.is_some() {
            y = push_port(out, alloc, scale, number, port, time.frame(), y)?;
        }
        number = number.saturating_add(1);
    }
    Ok(y)
}

/// Appends how much is left out for want of room, if anything is.
fn push_left_out(out: &mut String, picture: &Picture) -> Result<(), AllocError> {
    let times = picture.room.left_out;
    if times == 0 {
        return Ok(());
    }
    write!(
        out,
        "<text x=\"590\" y=\"32\">Not drawn: units behind the first 1024, of which lines told {times} times.</text>\n"
    )
}

/// Appends what stands within a picture: how everything looks, the legend, and the ports.
fn push_inside(
    out: &mut String,
    alloc: Global,
    picture: &Picture,
    times: &PortTimes,
) -> Result<(), AllocError> {
    let mut ports = String::new(alloc);
    let height = push_ports(&mut ports, alloc, picture, times)?;
    push_head(out, height)?;
    push_legend(out)?;
    push_left_out(out, picture)?;
    out.push_str(ports.as_str())
}

/// Writes a picture of ports at these times as SVG.
pub(crate) fn picture_text(
    alloc: Global,
    picture: &Picture,
    times: &PortTimes,
) -> Result<String, AllocError>
    ensures { IfOk result (λ text. IsSvg (string_bytes text)) }
{
    let mut inside = String::new(alloc);
    push_inside(&mut inside, alloc, picture, times)?;
    let mut text = String::new(alloc);
    text.push_str("<svg ")?;
    text.push_str(inside.as_str())?;
    text.push_str("</svg>\n")?;
    Ok(text)
}
