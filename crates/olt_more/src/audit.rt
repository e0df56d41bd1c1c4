//! Logs of sixteen ports, audited: units are activated, polled, told of Alloc-IDs and removed, and now and then a line
//! breaks a rule.
use crate::choices::Choices;
use crate::codes::{acknowledged, garbled, nothing, searched, serial_number};
use crate::digest::Digest;
use crate::fault::JobFault;
use crate::serials::serial_of;
use gp_audit::{AuditForm, AuditOptions, Auditor, FindingChoice, RuleSet, audit_log};
use gp_log::{Said, push_entry};
use gp_ploam::{Down, Mask, encode_down};
use gp_ranging::Grant;
use gp_stream::{Sink, Source};
use std::alloc::{AllocError, Global};

/// How often something happens in a part.
const ROUNDS: u32 = 20_000;

/// How many ports a log is of.
const PORTS: u32 = 16;

/// How many ONU-IDs a port has.
const ONUS: u32 = 254;

/// The equalized delay, in bit times.
const TEQD: u32 = 311_040;

/// A log that is being written, and which ONU-IDs are held.
#[derive(Drop)]
struct Log {
    lines: Vec<u8>,
    mask: Mask,
    lot: u8,
    frame: u32,
    held: Vec<bool>,
}

/// A unit: its port and its ONU-ID.
#[derive(Clone, Copy)]
struct Unit {
    port: u8,
    onu: u8,
}

impl Unit {
    /// Its place among those of all ports.
    fn place(self) -> usize {
        usize::from(self.port) * 256 + usize::from(self.onu)
    }

    /// Its round-trip delay, in bit times.
    fn delay(self) -> u32 {
        2_000 + u32::from(self.onu) * 900
    }
}

impl Log {
    /// Begins a log in which nobody holds an ONU-ID.
    fn new(alloc: Global, mask: Mask, lot: u8) -> Result<Log, AllocError> {
        let mut held = Vec::new(alloc);
        for _ in 0..PORTS * 256 {
            held.push(false)?;
        }
        Ok(Log {
            lines: Vec::new(alloc),
            mask,
            lot,
            frame: 0,
            held,
        })
    }

    /// Adds a line, a frame behind the one before it.
    fn say(&mut self, port: u8, said: Said) -> Result<(), AllocError> {
        self.frame = self.frame.wrapping_add(1);
        push_entry(&mut self.lines, port % 16, u64::from(self.frame), &said)
    }

    /// The line terminal sends three copies of a message.
    fn send(&mut self, port: u8, code: [u8; 13]) -> Result<(), AllocError> {
        for _ in 0..3 {
            self.say(port, Said::Down(code))?;
        }
        Ok(())
    }

    /// A unit answers, with its delay.
    fn answer(&mut self, port: u8, code: [u8; 13], delay: u32) -> Result<(), AllocError> {
        let delay = Some(delay);
        self.say(port, Said::Up { code, delay })
    }

    /// A unit is found, gets its ONU-ID and is ranged.
    fn activate(&mut self, unit: Unit) -> Result<(), AllocError> {
        let Unit { port, onu } = unit;
        let serial = serial_of(self.lot, port, u16::from(onu));
        self.say(port, Said::Grant(Grant::Search))?;
        self.answer(port, searched(serial, self.mask), unit.delay())?;
        self.send(
            port,
            encode_down(&Down::AssignOnu { onu, serial }, self.mask),
        )?;
        self.say(port, Said::Grant(Grant::Range(onu)))?;
        self.answer(port, serial_number(onu, serial, self.mask), unit.delay())?;
        let eqd = TEQD.saturating_sub(unit.delay());
        self.send(
            port,
            encode_down(&Down::RangingTime { onu, eqd }, self.mask),
        )?;
        self.hold(unit, true);
        Ok(())
    }

    /// An ONU-ID is held from now on, or isn't.
    fn hold(&mut self, unit: Unit, is_held: bool) {
        if let Some(held) = self.held.get_mut(unit.place()) {
            *held = is_held;
        }
    }

    /// A unit is polled.
    fn poll(&mut self, unit: Unit, off: u32) -> Result<(), AllocError> {
        let Unit { port, onu } = unit;
        self.say(port, Said::Grant(Grant::Poll(onu)))?;
        self.answer(
            port,
            nothing(onu, self.mask),
            unit.delay().wrapping_add(off),
        )
    }

    /// A unit is told of an Alloc-ID, which it acknowledges, and which is taken back.
    fn allocate(&mut self, unit: Unit) -> Result<(), AllocError> {
        let Unit { port, onu } = unit;
        let alloc = 256 + u16::from(onu) * 8;
        for keep in [true, false] {
            self.send(
                port,
                encode_down(&Down::AssignAlloc { onu, alloc, keep }, self.mask),
            )?;
            self.say(port, Said::Grant(Grant::Poll(onu)))?;
            self.answer(port, acknowledged(onu, self.mask), unit.delay())?;
        }
        Ok(())
    }

    /// A unit is removed.
    fn remove(&mut self, unit: Unit) -> Result<(), AllocError> {
        let message = Down::Deactivate { onu: unit.onu };
        self.send(unit.port, encode_down(&message, self.mask))?;
        self.hold(unit, false);
        Ok(())
    }

    /// Something is said that breaks a rule.
    fn mistake(&mut self, unit: Unit, choices: &mut Choices) -> Result<(), AllocError> {
        let Unit { port, onu } = unit;
        match choices.below(4) {
            0 => self.answer(port, garbled(onu, self.mask), unit.delay()),
            1 => self.poll(unit, 12),
            2 => self.say(port, Said::Grant(Grant::Poll(254))),
            _ => {
                let serial = serial_of(self.lot, port, 1_000);
                self.answer(port, serial_number(onu, serial, self.mask), unit.delay())
            }
        }
    }

    /// Something happens to a unit that holds its ONU-ID.
    fn go_on(&mut self, unit: Unit, choices: &mut Choices) -> Result<(), AllocError> {
        match choices.below(1_000) {
            0..=1 => self.mistake(unit, choices),
            2..=4 => self.remove(unit),
            5..=24 => self.allocate(unit),
            _ => self.poll(unit, 1),
        }
    }

    /// Something happens.
    fn round(&mut self, choices: &mut Choices) -> Result<(), AllocError> {
        let unit = Unit {
            port: choices.below(PORTS) as u8,
            onu: choices.below(ONUS) as u8,
        };
        if self.held.get(unit.place()).copied().unwrap_or(false) {
            self.go_on(unit, choices)
        } else {
            self.activate(unit)
        }
    }
}

/// How a log is audited.
fn options_of(mask: Mask, form: AuditForm) -> AuditOptions {
    AuditOptions {
        mask,
        teqd: [TEQD; 16],
        drift: 8,
        midway: false,
        told: FindingChoice {
            terminal: true,
            units: true,
            rules: RuleSet::all(),
        },
        form,
        units: false,
    }
}

/// Audits the log of a part, and adds what is told of it.
pub(crate) fn audit(
    alloc: Global,
    part: u32,
    seed: u32,
    digest: Digest,
) -> Result<Digest, JobFault> {
    let mut choices = Choices::new(seed, part);
    let mask = if part % 2 == 0 {
        Mask::Plain
    } else {
        Mask::Coset
    };
    let form = if part % 4 == 3 {
        AuditForm::Json
    } else {
        AuditForm::Text
    };
    let mut log = Log::new(alloc, mask, choices.below(256) as u8)?;
    for _ in 0..ROUNDS {
        log.round(&mut choices)?;
    }
    let mut source = Source::endless(log.lines.as_slice());
    let mut sink = Sink::new(alloc, digest)?;
    let mut auditor = Auditor::begin(alloc, &options_of(mask, form))?;
    let sum = audit_log(alloc, &mut source, &mut sink, &mut auditor);
    let mut digest = sink.into_inner();
    let Ok(sum) = sum else {
        return Err(JobFault::Unexpected);
    };
    digest.add(sum.findings);
    Ok(digest)
}
