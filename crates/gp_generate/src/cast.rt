//! Who is in a scene, and what the units of a port are called.
ghost use Rattle.std.specs.Prelude.{◌≡◌, ◌<◌};
ghost use Rattle.gp_generate.specs.Cast as spec;

use crate::chance::Draw;
use crate::plan::Plan;
use gp_ploam::Serial;

/// How far away units are, but for those that are too far: less than this in bit times.
const NEAR: u32 = 300_000;

/// The port of a scene, the place of its unit, and how far away that is, in bit times.
#[derive(Clone, Copy, Debug, PartialEq, Eq)]
pub struct Cast {
    pub port: u8,
    pub unit: u16,
    pub at: u32,
}

/// Gives the serial number of a unit. Of one in four it has no vendor code.
pub(crate) fn serial_of(port: u8, unit: u16) -> Serial
    ensures { result ≡ spec.serial_of port unit }
{
    let first = if unit % 4 == 3 { 1 } else { b'A' };
    let (high, low) = ((unit / 256) as u8, (unit % 256) as u8);
    Serial([first, b'B', b'C', b'D', 0, port, high, low])
}

/// Gives the serial number of a unit that no port admits.
pub(crate) fn stranger_of(port: u8, unit: u16) -> Serial
    ensures { result ≡ spec.stranger_of port unit }
{
    let (high, low) = ((unit / 256) as u8, (unit % 256) as u8);
    Serial([b'W', b'X', b'Y', b'Z', 0, port, high, low])
}

/// Gives a unit by a number.
fn unit_by(plan: &Plan, number: u32) -> u16
    ensures value { result ≡ spec.unit_by plan.now number }
    ensures within { result < spec.units_cast plan.now }
{
    (number % u32::from(plan.cast_units())) as u16
}

/// Gives who is in the scene that is opened with this draw.
pub(crate) fn cast_of(plan: &Plan, draw: &Draw) -> Cast
    ensures value { result ≡ spec.cast_of plan.now draw.now }
    ensures port { result.port < plan.now.ports }
    ensures unit { result.unit < spec.units_cast plan.now }
    ensures near { result.at < 300000 }
{
    Cast {
        port: (draw.who % u32::from(plan.ports())) as u8,
        unit: unit_by(plan, draw.what),
        at: draw.place % NEAR,
    }
}

/// Gives who is in an event that may be anything.
pub(crate) fn cast_anew(plan: &Plan, cast: &Cast, draw: &Draw) -> Cast
    ensures value { result ≡ spec.cast_anew plan.now cast.now draw.now }
    ensures port { result.port ≡ cast.now.port }
    ensures unit { result.unit < spec.units_cast plan.now }
    ensures near { result.at < 300000 }
{
    Cast {
        port: cast.port,
        unit: unit_by(plan, draw.who),
        at: draw.place % NEAR,
    }
}

/// Gives the unit so many places behind the scene's.
pub(crate) fn unit_behind(plan: &Plan, cast: &Cast, places: u8) -> u16
    ensures value { result ≡ spec.unit_behind plan.now cast.now places }
{
    unit_by(plan, u32::from(cast.unit) + u32::from(places))
}
