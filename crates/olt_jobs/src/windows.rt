//! The units of a port as a program that drives them knows them: what they answer in each window, and what a rogue
//! sends in a search window.

use crate::choices::Choices;
use crate::codes::{garbled, nothing, searched, serial_number};
use crate::serials::serial_of;
use gp_machine::{Event, Reply};
use gp_ranging::Grant;
use std::alloc::{AllocError, Global};

/// How many units each port admits.
pub(crate) const UNITS: u16 = 64;

/// How many ONU-IDs there are.
const ONU_IDS: usize = 254;

/// How many units that nobody admitted a rogue's flood has.
const FLOOD: u32 = 400;

/// The units of a port, as a program that drives them knows them.
#[derive(Drop)]
pub(crate) struct Units {
    lot: u8,
    port: u8,
    /// By ONU-ID, the place of the unit that was last found with it.
    places: Vec<u16>,
    /// What the units with each ONU-ID answer to a poll.
    polled: Vec<[u8; 13]>,
    /// The grant that is to be answered, and in how many frames.
    asked: Option<Grant>,
    frames: u8,
}

impl Units {
    /// Makes the units of a port.
    pub(crate) fn new(alloc: Global, lot: u8, port: u8) -> Result<Units, AllocError> {
        let mut places = Vec::new(alloc);
        let mut polled = Vec::new(alloc);
        for onu in 0..ONU_IDS {
            places.push(0)?;
            polled.push(nothing((onu % 256) as u8))?;
        }
        Ok(Units {
            lot,
            port,
            places,
            polled,
            asked: None,
            frames: 0,
        })
    }

    /// Notes what a frame granted, and tells what is to be answered with this frame: each grant is answered with the
    /// second frame behind it.
    pub(crate) fn hear(&mut self, grant: Option<Grant>) -> Option<Grant> {
        if grant.is_some() {
            self.asked = grant;
            self.frames = 2;
            return None;
        }
        self.frames = self.frames.saturating_sub(1);
        if self.frames > 0 {
            return None;
        }
        self.asked.take()
    }

    /// Notes which unit was found.
    pub(crate) fn note(&mut self, reply: &Reply, place: u16) {
        if let Reply::Found(onu) = reply {
            if let Some(held) = self.places.get_mut(usize::from(*onu)) {
                *held = place;
            }
        }
    }

    /// Gives the burst of the unit with this ONU-ID that is ranged.
    pub(crate) fn ranged(&self, onu: u8) -> Event {
        let place = self.places.get(usize::from(onu)).copied().unwrap_or(0);
        let at = 60_000 + u32::from(place) * 3_000;
        let bytes = serial_number(onu, serial_of(self.lot, self.port, place));
        Event::Burst { at, bytes }
    }

    /// Gives the burst of the unit with this ONU-ID that is polled.
    pub(crate) fn polled(&self, onu: u8) -> Event {
        let bytes = self.polled.get(usize::from(onu)).copied();
        Event::Burst {
            at: 60_000 + u32::from(onu) * 1_000,
            bytes: bytes.unwrap_or([0; 13]),
        }
    }

    /// Gives the burst of the unit at a place that asks for an ONU-ID.
    pub(crate) fn searched(&self, place: u16) -> Event {
        let at = 60_000 + u32::from(place) * 3_000;
        let bytes = searched(serial_of(self.lot, self.port, place));
        Event::Burst { at, bytes }
    }
}

/// How many bursts of a rogue a search window hears.
pub(crate) fn flood_of(choices: &mut Choices) -> u32 {
    choices.between(0, FLOOD)
}

/// Gives a rogue's burst: a unit that nobody admitted, or garbled octets.
pub(crate) fn rogue(choices: &mut Choices) -> Event {
    let lot = choices.below(256) as u8;
    let place = choices.below(65_536) as u16;
    let bytes = if choices.is_once_in(4) {
        garbled(lot)
    } else {
        searched(serial_of(lot, 255, place))
    };
    Event::Burst { at: 100_000, bytes }
}
