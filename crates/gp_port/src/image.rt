//! `PortImage`, all that a port knows as plain data: how it is made, what it tells, when a port or another image stands
//! at the same, and the machine made of it again.
ghost use Rattle.std.specs.Prelude.{◌≡◌, ◌≢◌, IfNone, IfOk, IfSome, IsTrue, MatchOption, None, Some, slice_get, ◌↔◌, true};
ghost use Rattle.std.specs.FinMap as map;
ghost use Rattle.std.specs.FinSet as set;
ghost use Rattle.gp_ploam.specs.declared.message.Serial.{Serial};
ghost use Rattle.gp_unit.specs.declared.row.Row.{Row};
ghost use Rattle.gp_machine.specs.State.{HasRow, rows_of, unit_with};
ghost use Rattle.gp_machine.specs.Config.{is_within_limits};
ghost use Rattle.gp_machine.specs.Sound.{IsSound};
ghost use Rattle.gp_port.specs.Parts.{IsSteady};
ghost use Rattle.gp_port.specs.declared.image.ImageFault.TheVariants.{OutOfMemory};

use super::comparing::{
    Marks, same_config, same_marks, same_units, same_window, window_copy, window_image,
    window_reopened,
};
use super::port_machine::PortMachine;
use gp_common::Common;
use gp_machine::{PortConfig, Row, finds_unit_with};
use gp_ploam::{ONU_IDS, Serial};
use gp_ranging::WindowImage;
use gp_table::ActiveUnits;
use gp_volley::{OwedImage, QueueFault};
use std::alloc::{AllocError, Global};
use std::marker::Model;
use thiserror::Error;

/// Why no image of a port was made, or no port of an image.
#[derive(Clone, Copy, Debug, PartialEq, Eq, Error)]
pub enum ImageFault {
    /// The allocator refused memory for the units or the messages.
    #[error("out of memory")]
    OutOfMemory,
}

impl From<AllocError> for ImageFault {
    ghost from_gives = { λ _ fault. fault ≡ OutOfMemory };

    fn from(_error: AllocError) -> ImageFault {
        ImageFault::OutOfMemory
    }
}

impl From<QueueFault> for ImageFault {
    ghost from_gives = { λ _ fault. fault ≡ OutOfMemory };

    fn from(_fault: QueueFault) -> ImageFault {
        ImageFault::OutOfMemory
    }
}

/// All that a port knew when the image was made, with its configuration. It is made of a port alone, so it is always
/// a state that a port can be in: sound, with a configuration within the limits.
#[derive(Drop)]
pub struct PortImage {
    pub(super) config: PortConfig,
    pub(super) units: ActiveUnits,
    pub(super) common: Common,
    pub(super) wanted: bool,
    pub(super) timer: u32,
    pub(super) window: Option<WindowImage>,
    pub(super) owed: OwedImage,
    pub(super) polled: Option<u8>,
}

impl Model for PortImage {
    ghost use Rattle.gp_machine.specs.Codes.{port_codes};
    ghost use Rattle.gp_machine.specs.State.{PortState};
    ghost use Rattle.gp_port.specs.Parts.{IsAssembled, IsSteady, state_with};

    ghost Value = { PortState };

    ghost coded = { Prim.hlevel port_codes };

    ghost view = { λ c. state_with c.config c.units c.common c.wanted c.timer c.window c.owed c.polled };

    ghost invariant = { λ c. IsAssembled c.config c.units c.owed
        × IsSteady (state_with c.config c.units c.common c.wanted c.timer c.window c.owed c.polled) };
}

impl PortImage {
    /// Makes a second image of the same state.
    pub fn try_clone(&self, alloc: Global) -> Result<PortImage, ImageFault>
        ensures { IfOk result (λ image. image ≡ self.now) }
    {
        let config = self.config.try_clone(alloc)?;
        let units = self.units.try_clone(alloc)?;
        let owed = self.owed.try_clone(alloc)?;
        Ok(PortImage {
            config,
            units,
            common: self.common,
            wanted: self.wanted,
            timer: self.timer,
            window: window_copy(&self.window),
            owed,
            polled: self.polled,
        })
    }

    /// Gives what the port was opened with.
    pub fn config(&self) -> &PortConfig
        ensures { result.now ≡ self.now.config }
    {
        &self.config
    }

    /// States that a port can be in this state: its configuration is within the limits, and it is sound.
    pub fn stands(&self)
        ensures { IsSteady self.now }
    {
        // The invariant is known once a field is looked at.
        let _ = &self.config;
    }

    /// Tells how many units were active, at most `max_units` of the config.
    pub fn rows(&self) -> usize
        ensures { result ≡ rows_of self.now }
    {
        self.units.len()
    }

    /// Gives what the port knew of the unit with this serial number, if it was active.
    pub fn row_of(&self, serial: &Serial) -> Option<Row>
        ensures { result ≡ map.get self.now.rows serial.now }
    {
        self.units.row_of(serial)
    }

    /// Gives the unit that had this ONU-ID, with what the port knew of it. Each active unit had one of 0 to 253, so
    /// these give all of them, one after the other.
    pub fn unit_with(&self, onu: u8) -> Option<(Serial, Row)>
        ensures unit { result ≡ unit_with self.now.rows onu }
        ensures none { IfNone result ((serial : Serial) (row : Row) → HasRow self.now.rows serial row → row.onu ≢ onu) }
        ensures some { IfSome result (λ unit. HasRow self.now.rows unit.0 unit.1 × (unit.1.onu ≡ onu)) }
    {
        finds_unit_with();
        match self.units.holder(onu) {
            Some(unit) => Some((unit.serial, unit.row)),
            None => None,
        }
    }

    /// Tells whether the serial number was disabled. Those that were are admitted.
    pub fn is_disabled(&self, serial: &Serial) -> bool
        ensures { result ≡ set.contains self.now.disabled serial.now }
    {
        self.units.is_disabled(serial)
    }

    /// Tells what the port did for all units together.
    pub fn common(&self) -> Common
        ensures { result ≡ self.now.common }
    {
        self.common
    }

    /// Tells whether a search was wanted.
    pub fn is_wanted(&self) -> bool
        ensures { result ≡ self.now.wanted }
    {
        self.wanted
    }

    /// Tells how many frames went by in standby since a search was last wanted by itself.
    pub fn timer(&self) -> u32
        ensures { result ≡ self.now.timer }
    {
        self.timer
    }

    /// Gives where the window stood, if one was open.
    pub fn window(&self) -> Option<&WindowImage>
        ensures { MatchOption result (self.now.window ≡ None) (λ window. self.now.window ≡ Some window.now) }
    {
        self.window.as_ref()
    }

    /// Gives the copies of messages that were still to be sent, in order.
    pub fn owed(&self) -> &OwedImage
        ensures { result.now ≡ self.now.owed }
    {
        &self.owed
    }

    /// Tells the ONU-ID that was polled last, if one was.
    pub fn polled(&self) -> Option<u8>
        ensures { result ≡ self.now.polled }
    {
        self.polled
    }

    /// Tells for how many frames more an ONU-ID, 0 to 253, was not to be given to another unit; None above 253.
    pub fn frames_left(&self, onu: u8) -> Option<u16>
        ensures { result ≡ slice_get self.now.cooling onu }
    {
        self.stands();
        if onu >= ONU_IDS {
            return None;
        }
        Some(self.units.frames_left(onu))
    }

    /// Tells whether both images are of one state.
    pub fn is_same_as(&self, other: &PortImage) -> bool
        ensures { IsTrue result ↔ (self.now ≡ other.now) }
    {
        if !same_config(&self.config, &other.config) {
            return false;
        }
        if !same_units(self.config.admitted.as_slice(), &self.units, &other.units) {
            return false;
        }
        if !same_marks(self.marks(), other.marks()) {
            return false;
        }
        if !same_window(&self.window, &other.window) {
            return false;
        }
        self.owed.is_same_as(&other.owed)
    }

    /// Tells what the port knew besides its units, its window and the copies that it owed.
    pub(super) fn marks(&self) -> Marks
        ensures { result ≡ record
            { common = self.now.common; wanted = self.now.wanted; timer = self.now.timer; polled = self.now.polled } }
    {
        Marks {
            common: self.common,
            wanted: self.wanted,
            timer: self.timer,
            polled: self.polled,
        }
    }

    /// Makes a machine that stands where the port stood.
    pub(super) fn reopen(&self, alloc: Global) -> Result<PortMachine, ImageFault>
        ensures { IfOk result (λ machine. machine ≡ self.now) }
    {
        let config = self.config.try_clone(alloc)?;
        let units = self.units.try_clone(alloc)?;
        let owed = self.owed.reopen(alloc)?;
        Ok(PortMachine {
            config,
            units,
            common: self.common,
            wanted: self.wanted,
            timer: self.timer,
            window: window_reopened(&self.window),
            owed,
            polled: self.polled,
        })
    }
}

impl PortMachine {
    /// Makes an image of the port as it stands.
    pub(super) fn image(&self, alloc: Global) -> Result<PortImage, ImageFault>
        requires limits { is_within_limits self.now.config ≡ true }
        requires sound { IsSound self.now }
        ensures { IfOk result (λ image. image ≡ self.now) }
    {
        let config = self.config.try_clone(alloc)?;
        let units = self.units.try_clone(alloc)?;
        let owed = self.owed.image(alloc)?;
        Ok(PortImage {
            config,
            units,
            common: self.common,
            wanted: self.wanted,
            timer: self.timer,
            window: window_image(&self.window),
            owed,
            polled: self.polled,
        })
    }

    /// Tells whether the port stands as the image has it.
    pub(super) fn stands_for(&self, image: &PortImage) -> bool
        requires { IsSound self.now }
        ensures { IsTrue result ↔ (self.now ≡ image.now) }
    {
        if !same_config(&self.config, &image.config) {
            return false;
        }
        if !same_units(self.config.admitted.as_slice(), &self.units, &image.units) {
            return false;
        }
        if !same_marks(self.marks(), image.marks()) {
            return false;
        }
        if !same_window(&window_image(&self.window), &image.window) {
            return false;
        }
        self.owed.stands_for(&image.owed)
    }

    /// Tells whether both ports stand at the same.
    pub(super) fn is_same_as(&self, other: &PortMachine) -> bool
        requires one { IsSound self.now }
        requires other { IsSound other.now }
        ensures { IsTrue result ↔ (self.now ≡ other.now) }
    {
        if !same_config(&self.config, &other.config) {
            return false;
        }
        if !same_units(self.config.admitted.as_slice(), &self.units, &other.units) {
            return false;
        }
        if !same_marks(self.marks(), other.marks()) {
            return false;
        }
        if !same_window(&window_image(&self.window), &window_image(&other.window)) {
            return false;
        }
        self.owed.is_same_as(&other.owed)
    }

    /// Tells what the port knows besides its units, its window and the copies that it owes.
    fn marks(&self) -> Marks
        ensures { result ≡ record
            { common = self.now.common; wanted = self.now.wanted; timer = self.now.timer; polled = self.now.polled } }
    {
        Marks {
            common: self.common,
            wanted: self.wanted,
            timer: self.timer,
            polled: self.polled,
        }
    }
}
