//! The units of a port, as a program that drives them knows them.
use crate::choices::Choices;
use crate::codes::{acknowledged, garbled, nothing, searched, serial_number};
use crate::serials::serial_of;
use gp_machine::{Answer, Event, Reply};
use gp_ploam::{Mask, Serial};
use gp_ranging::Grant;
use std::alloc::{AllocError, Global};

/// How many units a port has: as many as there are ONU-IDs.
pub(crate) const UNITS: u16 = 254;

/// The units of a port: every second serial number that it admits is one's.
#[derive(Drop)]
pub(crate) struct Units {
    lot: u8,
    port: u8,
    mask: Mask,
    /// By ONU-ID, the place of the unit that was last found with it.
    places: Vec<u16>,
    /// By place, the unit's ONU-ID, if it has one.
    onus: Vec<Option<u8>>,
    /// What the units with each ONU-ID answer to a poll.
    polled: Vec<[u8; 13]>,
    /// The unit that has an Alloc-ID to acknowledge, and the one that answers no poll.
    owing: Option<u8>,
    dark: Option<u8>,
    /// The grant that is to be answered, and in how many frames.
    asked: Option<Grant>,
    frames: u8,
    /// Of the last answer: its grant, the ONU-ID that was found, and whether a unit has an Alloc-ID to acknowledge.
    granted: Option<Grant>,
    found: Option<u8>,
    is_owed: bool,
}

impl Units {
    /// Makes the units of a port.
    pub(crate) fn new(alloc: Global, lot: u8, port: u8, mask: Mask) -> Result<Units, AllocError> {
        let mut places = Vec::new(alloc);
        let mut onus = Vec::new(alloc);
        let mut polled = Vec::new(alloc);
        for onu in 0..UNITS {
            places.push(0)?;
            onus.push(None)?;
            polled.push(nothing((onu % 256) as u8, mask))?;
        }
        Ok(Units {
            lot,
            port,
            mask,
            places,
            onus,
            polled,
            owing: None,
            dark: None,
            asked: None,
            frames: 0,
            granted: None,
            found: None,
            is_owed: false,
        })
    }

    /// The port.
    pub(crate) fn port(&self) -> u8 {
        self.port
    }

    /// Gives the serial number of the unit at a place.
    pub(crate) fn serial(&self, place: u16) -> Serial {
        serial_of(self.lot, self.port, place.wrapping_mul(2))
    }

    /// Tells what is to be answered with a frame that was answered: each grant is, with the second frame behind it.
    pub(crate) fn due(&mut self) -> Option<Grant> {
        if self.granted.is_some() {
            self.asked = self.granted;
            self.frames = 2;
            return None;
        }
        self.frames = self.frames.saturating_sub(1);
        if self.frames > 0 {
            return None;
        }
        self.asked.take()
    }

    /// The unit at a place has this ONU-ID from now on, or none.
    fn set(&mut self, place: u16, onu: Option<u8>) {
        if let Some(held) = self.onus.get_mut(usize::from(place)) {
            *held = onu;
        }
    }

    /// Gives the place of the unit that was last found with this ONU-ID.
    fn place_of(&self, onu: u8) -> u16 {
        self.places.get(usize::from(onu)).copied().unwrap_or(0)
    }

    /// Notes what an answer tells, and which units it takes their ONU-IDs from.
    pub(crate) fn heed(&mut self, answer: &Answer) {
        self.granted = answer.grant;
        self.found = None;
        self.is_owed = false;
        if let Some(alarm) = &answer.alarm {
            let Serial([_, _, _, _, _, _, high, low]) = alarm.serial;
            self.set(u16::from_be_bytes([high, low]) / 2, None);
        }
        match answer.reply {
            Reply::Restarted(onu) | Reply::Deactivated(onu) => self.set(self.place_of(onu), None),
            Reply::Found(onu) => self.found = Some(onu),
            Reply::Allocated(_) | Reply::Releasing(_) => self.is_owed = true,
            _ => {}
        }
    }

    /// Notes what came of the unit at a place that asked for an ONU-ID.
    pub(crate) fn note(&mut self, place: u16) {
        if let Some(onu) = self.found {
            self.set(place, Some(onu));
            if let Some(held) = self.places.get_mut(usize::from(onu)) {
                *held = place;
            }
        }
    }

    /// Notes what came of a command about the unit at a place.
    pub(crate) fn note_order(&mut self, place: u16) {
        if self.is_owed {
            self.owing = self.onus.get(usize::from(place)).copied().flatten();
        }
    }

    /// Another unit answers no poll, or each answers.
    pub(crate) fn darken(&mut self, choices: &mut Choices) {
        self.dark = if choices.is_once_in(2) {
            Some(choices.below(u32::from(UNITS)) as u8)
        } else {
            None
        };
    }

    /// Tells whether the unit at a place asks for an ONU-ID: one that has none does, and one in a thousand of the
    /// others.
    pub(crate) fn asks(&self, place: u16, choices: &mut Choices) -> bool {
        match self.onus.get(usize::from(place)) {
            Some(Some(_)) => choices.is_once_in(1_000),
            _ => true,
        }
    }

    /// Gives the burst of the unit at a place that asks for an ONU-ID.
    pub(crate) fn searched(&self, place: u16) -> Event {
        let at = 60_000 + u32::from(place) * 900;
        let bytes = searched(self.serial(place), self.mask);
        Event::Burst { at, bytes }
    }

    /// Gives the burst of the unit with this ONU-ID that is ranged.
    pub(crate) fn ranged(&self, onu: u8) -> Event {
        let place = self.place_of(onu);
        let at = 60_000 + u32::from(place) * 900;
        let bytes = serial_number(onu, self.serial(place), self.mask);
        Event::Burst { at, bytes }
    }

    /// Gives the burst of the unit with this ONU-ID that is polled: none of one that is dark.
    pub(crate) fn polled(&mut self, onu: u8) -> Option<Event> {
        if self.dark == Some(onu) {
            return None;
        }
        let bytes = if self.owing == Some(onu) {
            self.owing = None;
            acknowledged(onu, self.mask)
        } else {
            self.polled
                .get(usize::from(onu))
                .copied()
                .unwrap_or([0; 13])
        };
        let at = 60_000 + u32::from(onu) * 900;
        Some(Event::Burst { at, bytes })
    }

    /// Gives a rogue's burst: a unit that nobody admitted, or garbled octets.
    pub(crate) fn rogue(&self, choices: &mut Choices) -> Event {
        let lot = choices.below(256) as u8;
        let place = choices.below(65_536) as u16;
        let bytes = if choices.is_once_in(4) {
            garbled(lot, self.mask)
        } else {
            searched(serial_of(lot, 255, place), self.mask)
        };
        Event::Burst { at: 100_000, bytes }
    }
}
