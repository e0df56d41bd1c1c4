//! What goes on at ports, whoever serves it: searches with a rogue's floods, answers to each grant, and an operator's
//! commands.
use crate::choices::Choices;
use crate::fault::JobFault;
use crate::serials::serial_of;
use crate::units::{UNITS, Units};
use gp_chassis::ChassisConfig;
use gp_machine::{Admitted, Command, Event, PortConfig};
use gp_ploam::{Mask, Serial};
use gp_ranging::Grant;
use std::alloc::{AllocError, Global};

/// How many serial numbers each port admits.
pub(crate) const ADMITTED: u16 = 512;

/// What events are handed to, one after another.
pub(crate) trait Serve {
    /// Has the port of these units serve an event, and lets them know of what it answered.
    fn serve(&mut self, units: &mut Units, event: Event) -> Result<(), JobFault>;
}

/// How much goes on.
#[derive(Clone, Copy)]
pub(crate) struct Traffic {
    /// What the seed decides of the serial numbers.
    pub(crate) lot: u8,
    /// How many ports there are.
    pub(crate) ports: u8,
    /// The mask of even ports, and that of odd ones.
    pub(crate) masks: [Mask; 2],
    /// How many frames each port has.
    pub(crate) frames: u32,
    /// How many bursts a rogue's flood has, at least and at most.
    pub(crate) flood: [u32; 2],
    /// With one frame in how many an operator asks for something.
    pub(crate) orders: u32,
}

impl Traffic {
    /// Gives the mask of a port.
    fn mask_of(self, port: u8) -> Mask {
        let [even, odd] = self.masks;
        if port % 2 == 0 { even } else { odd }
    }

    /// Makes what a port is opened with.
    fn config_of(self, alloc: Global, port: u8) -> Result<PortConfig, AllocError> {
        let mut serials = Vec::new(alloc);
        for place in 0..ADMITTED {
            serials.push(serial_of(self.lot, port, place))?;
        }
        Ok(PortConfig {
            mask: self.mask_of(port),
            teqd: 311_040,
            overhead: [port; 10],
            max_units: 254,
            alloc_last: 4095,
            cycles: 6,
            search_period: 0,
            quarantine: 800,
            admitted: Admitted::from(serials),
        })
    }

    /// Makes what a chassis is opened with.
    pub(crate) fn opening(
        self,
        alloc: Global,
        licences: u32,
        limit: u32,
    ) -> Result<ChassisConfig, AllocError> {
        let mut ports = Vec::new(alloc);
        for port in 0..self.ports {
            ports.push(self.config_of(alloc, port)?)?;
        }
        Ok(ChassisConfig {
            licences,
            journal_limit: limit,
            ports,
        })
    }

    /// Makes the units of each port.
    fn units(self, alloc: Global) -> Result<Vec<Units>, AllocError> {
        let mut units = Vec::new(alloc);
        for port in 0..self.ports {
            units.push(Units::new(alloc, self.lot, port, self.mask_of(port))?)?;
        }
        Ok(units)
    }
}

/// Has a search window hear each unit without an ONU-ID, and one in four of them a rogue's flood before.
fn search<S: Serve>(
    served: &mut S,
    units: &mut Units,
    choices: &mut Choices,
    traffic: Traffic,
) -> Result<(), JobFault> {
    if choices.is_once_in(4) {
        let [least, most] = traffic.flood;
        for _ in 0..choices.between(least, most) {
            let event = units.rogue(choices);
            served.serve(units, event)?;
        }
    }
    for place in 0..UNITS {
        if units.asks(place, choices) {
            let event = units.searched(place);
            served.serve(units, event)?;
            units.note(place);
        }
    }
    Ok(())
}

/// Has the units that a grant asks answer it. One poll in a thousand isn't answered.
fn answer<S: Serve>(
    served: &mut S,
    units: &mut Units,
    grant: Grant,
    choices: &mut Choices,
    traffic: Traffic,
) -> Result<(), JobFault> {
    match grant {
        Grant::Search => search(served, units, choices, traffic)?,
        Grant::Range(onu) => {
            let event = units.ranged(onu);
            served.serve(units, event)?
        }
        Grant::Poll(onu) => match units.polled(onu) {
            Some(event) if !choices.is_once_in(1_000) => served.serve(units, event)?,
            _ => {}
        },
    }
    Ok(())
}

/// Gives a command that an operator has now and then, most of them about one unit.
fn command_of(choices: &mut Choices, serial: Serial) -> Command {
    match choices.below(40) {
        0..=7 => Command::Alloc(serial),
        8..=13 => Command::Dealloc {
            serial,
            alloc: 256 + choices.below(64) as u16,
        },
        14..=25 => Command::Show(serial),
        26..=28 => Command::Popup(serial),
        29 | 30 => Command::Deactivate(serial),
        31 | 32 => Command::Disable(serial),
        33 => Command::Enable(serial),
        34 => Command::EnableAll,
        35 => Command::PopupAll,
        _ => Command::Search,
    }
}

/// Gives a command to the port of these units.
fn order<S: Serve>(
    served: &mut S,
    units: &mut Units,
    choices: &mut Choices,
) -> Result<(), JobFault> {
    let place = choices.below(u32::from(UNITS)) as u16;
    let command = command_of(choices, units.serial(place));
    served.serve(units, Event::Command(command))?;
    units.note_order(place);
    Ok(())
}

/// Has one frame go by on the port of these units, and the answers that are due.
fn tick<S: Serve>(
    served: &mut S,
    units: &mut Units,
    choices: &mut Choices,
    traffic: Traffic,
) -> Result<(), JobFault> {
    served.serve(units, Event::Frame)?;
    if let Some(grant) = units.due() {
        answer(served, units, grant, choices, traffic)?;
    }
    if choices.is_once_in(traffic.orders) {
        order(served, units, choices)?;
    }
    if choices.is_once_in(4_000) {
        units.darken(choices);
    }
    Ok(())
}

/// Has frames go by, on each port in turn, from a first search on.
pub(crate) fn run<S: Serve>(
    alloc: Global,
    served: &mut S,
    choices: &mut Choices,
    traffic: Traffic,
) -> Result<(), JobFault> {
    let mut ports = traffic.units(alloc)?;
    for units in ports.as_mut_slice() {
        served.serve(units, Event::Command(Command::Search))?;
    }
    for _ in 0..traffic.frames {
        for units in ports.as_mut_slice() {
            tick(served, units, choices, traffic)?;
        }
    }
    Ok(())
}
