//! A simulated unit: what it does at light, frames, codes and grants, and what it answers, by the unit table
//! (`specs/Table.antt`). All else changes nothing.
ghost use Rattle.std.specs.Prelude.{◌≡◌, ◌≤◌, ◌<◌, ℕ, Bool, false, List, IfNone, IfSome, IsTrue, take};
ghost use Rattle.std.specs.Option.{ForSome, option_map};
ghost use Rattle.gp_ploam.specs.declared.message.Down.{Down};
ghost use Rattle.gp_ploam.specs.Down.{ReadsDown};
ghost use Rattle.gp_ploam.specs.Mask.{mask_value};
ghost use Rattle.gp_ploam.specs.OnuIds.{last_onu};
ghost use Rattle.gp_ploam.specs.Row.{HasRightCheck};
ghost use Rattle.gp_ploam.specs.Up.{IsProperUp, code_of_up};
ghost use Rattle.gp_ranging.specs.declared.grant.Grant.TheVariants.{Poll, Range, Search};
ghost use Rattle.gp_onu.specs.Limits.{max_random_delay};
ghost use Rattle.gp_onu.specs.Frames.{IsFirstChange, NeverChanges, frames_left, unit_after_frames};
ghost use Rattle.gp_onu.specs.Noticing.{LeavesUnanswered, PassesOver, is_asked, is_meant};
ghost use Rattle.gp_onu.specs.Stage.{eqd_of, onu_id_of, state_of};
ghost use Rattle.gp_onu.specs.Status.{status_of};
ghost use Rattle.gp_onu.specs.Table.{Dark, Frame, Granted, Hears, Light, answer_to, unit_after};

use super::stage::Stage;
use super::state::State;
use super::status::UnitStatus;
use gp_ploam::{
    ASSIGN_ALLOC_ID, BROADCAST_ONU, Down, LAST_ONU, Mask, Serial, Up, decode_down, encode_up,
};
use gp_ranging::Grant;
use std::marker::Model;

/// How many frames of 125 microseconds O3 and O4 last together: the timer TO1, 10 seconds (G.984.3, clause 10).
const ACTIVATION_FRAMES: u32 = 80_000;

/// How many frames of 125 microseconds O6 lasts: the timer TO2, 100 milliseconds (G.984.3, clause 10).
const POPUP_FRAMES: u32 = 800;

/// A simulated unit.
#[derive(Debug, Drop)]
pub struct Unit {
    serial: Serial,
    mask: Mask,
    lit: bool,
    stage: Stage,
}

impl Model for Unit {
    ghost use Rattle.gp_onu.specs.Table.{UnitState};

    ghost Value = { UnitState };

    ghost use Rattle.std.specs.Prelude.{◌≡◌, length};
    ghost use Rattle.gp_onu.specs.Frames.{IsWithinLimits};

    ghost view = { λ u. record { serial = u.serial; mask = u.mask; lit = u.lit; stage = u.stage } };

    ghost invariant = { λ u. (length u.serial.0 ≡ 8) × IsWithinLimits u.stage };
}

impl Unit {
    /// Makes a unit in O1 that no light reaches. Its codes have their check octets under `mask`.
    pub fn new(serial: Serial, mask: Mask) -> Unit
        ensures { result ≡ record { serial = serial; mask = mask; lit = false; stage = Stage.Initial } }
    {
        Unit {
            serial,
            mask,
            lit: false,
            stage: Stage::Initial,
        }
    }

    /// Tells which of the states O1 to O7 the unit is in.
    pub fn state(&self) -> State
        ensures { result ≡ state_of self.now.stage }
    {
        self.stage.state()
    }

    /// Gives the ONU-ID, in O4, O5 and O6.
    pub fn number(&self) -> Option<u8>
        ensures value { result ≡ onu_id_of self.now.stage }
        ensures low { IfSome result (λ onu. onu ≤ last_onu) }
    {
        self.stage.number()
    }

    /// Gives the equalization delay in bit times, in O5 and O6.
    pub fn eqd(&self) -> Option<u32>
        ensures { result ≡ eqd_of self.now.stage }
    {
        self.stage.eqd()
    }

    /// Tells what the unit is: its state, what it has in it, and whether light reaches it.
    pub fn status(&self) -> UnitStatus
        ensures { result ≡ status_of self.now }
    {
        UnitStatus {
            state: self.state(),
            onu: self.number(),
            eqd: self.eqd(),
            is_lit: self.lit,
        }
    }

    /// Lets light reach the unit.
    pub fn light(&mut self)
        ensures { self.new ≡ unit_after self.old Light }
    {
        self.lit = true;
        if let Stage::Initial = self.stage {
            self.stage = Stage::Standby;
        }
    }

    /// Takes the light away.
    pub fn dark(&mut self)
        ensures { self.new ≡ unit_after self.old Dark }
    {
        self.lit = false;
        self.stage = match self.stage {
            Stage::Standby | Stage::SerialNumber { .. } | Stage::Ranging { .. } => Stage::Initial,
            Stage::Operation { onu, eqd, owed } => Stage::Popup {
                onu,
                eqd,
                owed,
                frames: 0,
            },
            other => other,
        };
    }

    /// Ends a frame.
    pub fn frame(&mut self)
        ensures { self.new ≡ unit_after self.old Frame }
    {
        self.stage = if self.ends_in() == Some(1) {
            match self.stage {
                Stage::Popup { .. } => Stage::Initial,
                _ => Stage::Standby,
            }
        } else {
            self.stage.with_more_frames(1)
        };
    }

    /// Counts the frames up to and with the one that ends the unit's state, if nothing else happens: 1 in O1
    /// where light reaches it, up to 80,000 in O3 and O4, up to 800 in O6. None where no frame ends it.
    pub fn ends_in(&self) -> Option<u32>
        ensures value { result ≡ frames_left self.now }
        ensures first { IfSome result (IsFirstChange self.now) }
        ensures never { IfNone result (NeverChanges self.now) }
    {
        match self.stage {
            Stage::Initial if self.lit => Some(1),
            Stage::SerialNumber { frames } => Some(ACTIVATION_FRAMES - frames),
            Stage::Ranging { frames, .. } => Some(ACTIVATION_FRAMES - frames),
            Stage::Popup { frames, .. } => Some(POPUP_FRAMES - frames),
            _ => None,
        }
    }

    /// Ends `frames` frames, none of which ends the unit's state.
    pub fn skip(&mut self, frames: u32)
        requires { ForSome (frames_left self.old) (λ left. frames < left) }
        ensures { self.new ≡ unit_after_frames frames self.old }
    {
        self.stage = self.stage.with_more_frames(frames);
    }

    /// Tells whether a message is meant for the unit as it stands. One that isn't changes nothing, after frames that
    /// don't end the unit's state either.
    pub fn may_notice(&self, message: &Down) -> bool
        ensures value { result ≡ is_meant message.now self.now }
        ensures passed { result ≡ false → PassesOver self.now message.now }
    {
        match *message {
            Down::UpstreamOverhead { .. } => self.stage.state() == State::Standby,
            Down::AssignOnu { serial, .. }
            | Down::DisableSerial { serial }
            | Down::EnableSerial { serial } => serial == self.serial,
            Down::RangingTime { onu, .. } | Down::AssignAlloc { onu, .. } => {
                Some(onu) == self.stage.number()
            }
            Down::Deactivate { onu } | Down::Popup { onu } => {
                onu == BROADCAST_ONU || Some(onu) == self.stage.number()
            }
            Down::EnableAll => self.stage.state() == State::EmergencyStop,
            Down::NoMessage | Down::Other { .. } => false,
        }
    }

    /// Lets the unit hear a code. One with a wrong check octet changes nothing.
    pub fn hear(&mut self, code: &[u8; 13])
        ensures read { (m : Down) → ReadsDown code.now (mask_value self.old.mask) m
            → self.new ≡ unit_after self.old (Hears code.now m) }
        ensures unread { ¬ HasRightCheck code.now (mask_value self.old.mask) → self.new ≡ self.old }
    {
        if !self.lit {
            return;
        }
        if let Ok(message) = decode_down(code, self.mask) {
            self.handle(message, code);
        }
    }

    fn handle(&mut self, message: Down, code: &[u8; 13])
        requires { IsTrue self.old.lit }
        ensures { self.new ≡ unit_after self.old (Hears code.now message) }
    {
        match message {
            Down::UpstreamOverhead { .. } => self.handle_overhead(),
            Down::AssignOnu { onu, serial } => self.handle_assignment(onu, &serial),
            Down::RangingTime { onu, eqd } => self.handle_ranging_time(onu, eqd),
            Down::Deactivate { onu } => self.handle_deactivation(onu),
            Down::DisableSerial { serial } => self.handle_disabling(&serial),
            Down::EnableSerial { serial } => self.handle_enabling(&serial),
            Down::EnableAll => self.handle_enabling_of_all(),
            Down::AssignAlloc { onu, .. } => self.handle_alloc(onu, prefix_of(code)),
            Down::Popup { onu } => self.handle_popup(onu),
            Down::NoMessage => {}
            Down::Other { .. } => {}
        }
    }

    fn handle_overhead(&mut self)
        requires { IsTrue self.old.lit }
        ensures { (code burst : List ℕ) → self.new ≡ unit_after self.old (Hears code (Down.UpstreamOverhead burst)) }
    {
        if let Stage::Standby = self.stage {
            self.stage = Stage::SerialNumber { frames: 0 };
        }
    }

    fn handle_assignment(&mut self, onu: u8, serial: &Serial)
        requires { IsTrue self.old.lit }
        ensures { (code : List ℕ) → self.new ≡ unit_after self.old (Hears code (Down.AssignOnu onu serial.now)) }
    {
        match self.stage {
            Stage::SerialNumber { frames } if *serial == self.serial && onu <= LAST_ONU => {
                self.stage = Stage::Ranging { onu, frames };
            }
            _ => {}
        }
    }

    fn handle_ranging_time(&mut self, onu: u8, eqd: u32)
        requires { IsTrue self.old.lit }
        ensures { (code : List ℕ) → self.new ≡ unit_after self.old (Hears code (Down.RangingTime onu eqd)) }
    {
        match self.stage {
            Stage::Ranging { onu: own, .. } if own == onu => {
                self.stage = Stage::Operation {
                    onu,
                    eqd,
                    owed: None,
                };
            }
            Stage::Operation { onu: own, owed, .. } if own == onu => {
                self.stage = Stage::Operation { onu, eqd, owed };
            }
            _ => {}
        }
    }

    fn handle_deactivation(&mut self, onu: u8)
        requires { IsTrue self.old.lit }
        ensures { (code : List ℕ) → self.new ≡ unit_after self.old (Hears code (Down.Deactivate onu)) }
    {
        match self.stage.number() {
            Some(own) if onu == own || onu == BROADCAST_ONU => self.stage = Stage::Standby,
            _ => {}
        }
    }

    fn handle_disabling(&mut self, serial: &Serial)
        requires { IsTrue self.old.lit }
        ensures { (code : List ℕ) → self.new ≡ unit_after self.old (Hears code (Down.DisableSerial serial.now)) }
    {
        match self.stage {
            Stage::Initial => {}
            _ if *serial == self.serial => self.stage = Stage::EmergencyStop,
            _ => {}
        }
    }

    fn handle_enabling(&mut self, serial: &Serial)
        requires { IsTrue self.old.lit }
        ensures { (code : List ℕ) → self.new ≡ unit_after self.old (Hears code (Down.EnableSerial serial.now)) }
    {
        match self.stage {
            Stage::EmergencyStop if *serial == self.serial => self.stage = Stage::Standby,
            _ => {}
        }
    }

    fn handle_enabling_of_all(&mut self)
        requires { IsTrue self.old.lit }
        ensures { (code : List ℕ) → self.new ≡ unit_after self.old (Hears code Down.EnableAll) }
    {
        if let Stage::EmergencyStop = self.stage {
            self.stage = Stage::Standby;
        }
    }

    fn handle_alloc(&mut self, onu: u8, prefix: [u8; 9])
        requires { IsTrue self.old.lit }
        ensures { (code : List ℕ) (alloc : ℕ) (keep : Bool) → prefix ≡ take 9 code
            → self.new ≡ unit_after self.old (Hears code (Down.AssignAlloc onu alloc keep)) }
    {
        match self.stage {
            Stage::Operation { onu: own, eqd, .. } if own == onu => {
                self.stage = Stage::Operation {
                    onu,
                    eqd,
                    owed: Some(prefix),
                };
            }
            _ => {}
        }
    }

    fn handle_popup(&mut self, onu: u8)
        requires { IsTrue self.old.lit }
        ensures { (code : List ℕ) → self.new ≡ unit_after self.old (Hears code (Down.Popup onu)) }
    {
        match self.stage {
            Stage::Popup {
                onu: own,
                eqd,
                owed,
                ..
            } if own == onu => {
                self.stage = Stage::Operation { onu, eqd, owed };
            }
            Stage::Popup { onu: own, .. } if onu == BROADCAST_ONU => {
                self.stage = Stage::Ranging {
                    onu: own,
                    frames: 0,
                };
            }
            _ => {}
        }
    }

    /// Tells whether a grant asks the unit as it stands. One that doesn't has no answer, after frames that don't end
    /// the unit's state either.
    pub fn may_answer(&self, grant: Grant) -> bool
        ensures value { result ≡ is_asked grant self.now }
        ensures unanswered { result ≡ false → LeavesUnanswered self.now grant }
    {
        match grant {
            Grant::Search => self.stage.state() == State::SerialNumber,
            Grant::Range(onu) | Grant::Poll(onu) => Some(onu) == self.stage.number(),
        }
    }

    /// Gives the code of the unit's answer to a grant, if it answers. `random`, at most `MAX_RANDOM_DELAY`, is its
    /// random delay under a serial number request, in units of 32 bytes; other grants don't look at it.
    pub fn grant(&mut self, grant: Grant, random: u16) -> Option<[u8; 13]>
        requires { random ≤ max_random_delay }
        ensures answer { result ≡ option_map (λ m. code_of_up m (mask_value self.old.mask))
            (answer_to self.old (Granted grant random)) }
        ensures after { self.new ≡ unit_after self.old (Granted grant random) }
    {
        if !self.lit {
            return None;
        }
        let answer = self.answer(grant, random)?;
        Some(encode_up(&answer, self.mask))
    }

    fn answer(&mut self, grant: Grant, random: u16) -> Option<Up>
        requires lit { IsTrue self.old.lit }
        requires random { random ≤ max_random_delay }
        ensures answer { result ≡ answer_to self.old (Granted grant random) }
        ensures after { self.new ≡ unit_after self.old (Granted grant random) }
        ensures proper { IfSome result IsProperUp }
    {
        match grant {
            Grant::Search => self.answer_search(random),
            Grant::Range(onu) => self.answer_range(onu),
            Grant::Poll(onu) => self.answer_poll(onu),
        }
    }

    fn answer_search(&self, random: u16) -> Option<Up>
        requires lit { IsTrue self.now.lit }
        requires random { random ≤ max_random_delay }
        ensures answer { result ≡ answer_to self.now (Granted Search random) }
        ensures after { self.now ≡ unit_after self.now (Granted Search random) }
        ensures proper { IfSome result IsProperUp }
    {
        match self.stage {
            Stage::SerialNumber { .. } => Some(Up::SerialNumber {
                onu: BROADCAST_ONU,
                serial: self.serial,
                random,
                flags: 0,
            }),
            _ => None,
        }
    }

    fn answer_range(&self, onu: u8) -> Option<Up>
        requires { IsTrue self.now.lit }
        ensures answer { (random : ℕ) → result ≡ answer_to self.now (Granted (Range onu) random) }
        ensures after { (random : ℕ) → self.now ≡ unit_after self.now (Granted (Range onu) random) }
        ensures proper { IfSome result IsProperUp }
    {
        match self.stage {
            Stage::Ranging { onu: own, .. } | Stage::Operation { onu: own, .. } if own == onu => {
                Some(Up::SerialNumber {
                    onu,
                    serial: self.serial,
                    random: 0,
                    flags: 0,
                })
            }
            _ => None,
        }
    }

    fn answer_poll(&mut self, onu: u8) -> Option<Up>
        requires { IsTrue self.old.lit }
        ensures answer { (random : ℕ) → result ≡ answer_to self.old (Granted (Poll onu) random) }
        ensures after { (random : ℕ) → self.new ≡ unit_after self.old (Granted (Poll onu) random) }
        ensures proper { IfSome result IsProperUp }
    {
        match self.stage {
            Stage::Operation {
                onu: own,
                eqd,
                owed,
            } if own == onu => {
                self.stage = Stage::Operation {
                    onu,
                    eqd,
                    owed: None,
                };
                match owed {
                    None => Some(Up::NoMessage { onu }),
                    Some(copy) => Some(Up::Acknowledge {
                        onu,
                        id: ASSIGN_ALLOC_ID,
                        copy,
                    }),
                }
            }
            _ => None,
        }
    }
}

/// Gives the first nine octets of a code.
fn prefix_of(code: &[u8; 13]) -> [u8; 9]
    ensures { result ≡ take 9 code.now }
{
    let mut prefix = [0; 9];
    prefix.copy_from_slice(&code[..9]);
    prefix
}
