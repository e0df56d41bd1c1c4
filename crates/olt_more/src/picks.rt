//! Traces in which any free ONU-ID and any free Alloc-ID is picked, verified.
ghost use Rattle.std.specs.Prelude.{◌≡◌};
ghost use Rattle.gp_licence.specs.declared.ledger_parts.TheConstants.{MAX_LICENCES};

use crate::choices::Choices;
use crate::digest::Digest;
use crate::fault::JobFault;
use crate::fields::word_of;
use crate::serials::add_list;
use crate::traffic::{ADMITTED, Serve, Traffic, run};
use crate::units::Units;
use gp_chassis::ChassisCore;
use gp_licence::MAX_LICENCES;
use gp_machine::{Command, Event};
use gp_ploam::Mask;
use gp_stream::{Sink, Source};
use gp_trace::push_line;
use gp_verify::{CheckFault, Verdict, VerifyFault, verify_script};
use std::alloc::{AllocError, Global};
use std::marker::Brand;
use std::sync::ledger::{Blank, Ledger};

/// How many ports the chassis has, and how many licences.
const PORTS: u8 = 4;

const LICENCES: u32 = 900;

/// How many entries a port's journal keeps before it is cut.
const ENTRIES: u64 = 4_096;

/// A chassis that is asked for numbers that the seed decides, and the trace of all that it answers.
struct Picked<L: Ledger> {
    alloc: Global,
    core: ChassisCore<L>,
    mask: Mask,
    wishes: Choices,
    trace: Vec<u8>,
}

impl<L: Ledger> Picked<L> {
    /// Lets go what a port's journal keeps.
    #[inline(never)]
    fn cut(&mut self, port: u8) -> Result<(), JobFault> {
        match self.core.cut(self.alloc, port) {
            Ok(_) => Ok(()),
            Err(_) => Err(JobFault::OutOfMemory),
        }
    }

    /// Closes the chassis, and gives the trace.
    fn close(self) -> Vec<u8> {
        let Picked {
            alloc: _,
            core,
            mask: _,
            wishes: _,
            trace,
        } = self;
        let _ = core.close();
        trace
    }
}

/// Gives the number that is wished for where an event hands one out.
fn wish_of(wishes: &mut Choices, event: &Event) -> Option<u16> {
    match event {
        Event::Frame => None,
        Event::Burst { .. } => Some(wishes.below(254) as u16),
        Event::Command(Command::Alloc(_)) => Some(256 + wishes.below(3_840) as u16),
        Event::Command(_) => None,
    }
}

impl<L: Ledger> Serve for Picked<L> {
    fn serve(&mut self, units: &mut Units, event: Event) -> Result<(), JobFault> {
        let port = units.port();
        let wished = wish_of(&mut self.wishes, &event);
        let Ok(receipt) = self.core.apply_wishing(port, event, wished) else {
            return Err(JobFault::Unexpected);
        };
        push_line(&mut self.trace, self.mask, &receipt)?;
        units.heed(&receipt.entry.answer);
        if receipt.number % ENTRIES == ENTRIES - 1 {
            self.cut(port)?;
        }
        Ok(())
    }
}

/// Records the trace of a chassis whose numbers the seed decides.
fn recorded_on<L: Ledger>(
    alloc: Global,
    blank: Blank,
    choices: &mut Choices,
    traffic: Traffic,
) -> Result<Vec<u8>, JobFault>
    requires name { blank.name ≡ L.name }
    requires parts { (blank.parts ≡ L.parts) × (L.parts ≡ MAX_LICENCES) }
{
    let config = traffic.opening(alloc, LICENCES, ENTRIES as u32)?;
    let Ok(core) = ChassisCore::<L>::begin(alloc, blank, &config) else {
        return Err(JobFault::Unexpected);
    };
    let [mask, _] = traffic.masks;
    let mut served = Picked {
        alloc,
        core,
        mask,
        wishes: Choices::new(choices.below(u32::MAX), 0),
        trace: Vec::new(alloc),
    };
    let outcome = run(alloc, &mut served, choices, traffic);
    let trace = served.close();
    outcome?;
    Ok(trace)
}

/// Writes the script that opens the same chassis.
fn script_of(alloc: Global, traffic: Traffic) -> Result<String, AllocError> {
    let mut script = String::new(alloc);
    let mask = match traffic.masks {
        [Mask::Plain, _] => 0,
        [Mask::Coset, _] => 85,
    };
    write!(script, "licences = {LICENCES}\nmask = {mask}\n")?;
    for port in 0..traffic.ports {
        let overhead = hex::encode(alloc, [port; 10])?;
        write!(
            script,
            "[[port]]\ncycles = 6\noverhead = \"{overhead}\"\nadmit = "
        )?;
        add_list(alloc, &mut script, traffic.lot, port, ADMITTED)?;
        script.push_str("\n")?;
    }
    Ok(script)
}

/// Makes a number of what is said of a line.
fn verdict_kind(verdict: Verdict) -> u8 {
    match verdict {
        Verdict::Follows => 1,
        Verdict::NotALine => 2,
        Verdict::NoPort => 3,
        Verdict::WrongNumber => 4,
        Verdict::NotAStep => 5,
        Verdict::TooLong => 6,
    }
}

/// Verifies a trace, and adds what is told of it.
fn verified(alloc: Global, script: &str, trace: &[u8], digest: Digest) -> Result<Digest, JobFault> {
    let mut source = Source::new(script.as_bytes());
    let mut lines = Source::endless(trace);
    let mut sink = Sink::new(alloc, digest)?;
    let outcome = verify_script(alloc, &mut source, &mut lines, &mut sink);
    let mut digest = sink.into_inner();
    match outcome {
        Ok(lines) => digest.add(lines),
        Err(CheckFault::Trace(VerifyFault::Refused { line, verdict })) => {
            digest.add(line);
            digest.add(word_of(verdict_kind(verdict), 0, 0, 0));
        }
        Err(CheckFault::Trace(VerifyFault::Unended { line })) => digest.add(line.wrapping_mul(3)),
        Err(_) => return Err(JobFault::Unexpected),
    }
    Ok(digest)
}

/// Has one octet of a trace wrong, in its last eighth.
fn spoil(trace: &mut Vec<u8>, choices: &mut Choices) {
    let length = trace.len();
    let eighth = (length / 8).min(u32::MAX as usize) as u32;
    let place = length.saturating_sub(choices.between(1, eighth) as usize);
    if let Some(octet) = trace.get_mut(place) {
        *octet ^= 1;
    }
}

/// Records the trace of a part, and verifies it as it is and with an octet that is wrong.
pub(crate) fn verify(
    alloc: Global,
    choices: &mut Choices,
    mask: Mask,
    digest: Digest,
) -> Result<Digest, JobFault> {
    let traffic = Traffic {
        lot: choices.below(256) as u8,
        ports: PORTS,
        masks: [mask, mask],
        frames: 5_000,
        flood: [100, 400],
        orders: 20,
    };
    let blank = Blank::new(u64::from(MAX_LICENCES));
    let mut trace = recorded_on::<Brand>(alloc, blank, choices, traffic)?;
    let script = script_of(alloc, traffic)?;
    let digest = verified(alloc, script.as_str(), trace.as_slice(), digest)?;
    spoil(&mut trace, choices);
    verified(alloc, script.as_str(), trace.as_slice(), digest)
}
