//! The command `generate`: a script by chance, written to standard output.
ghost use Rattle.std.specs.Prelude.{◌≡◌, ◌≢◌, ◌∷◌};
ghost use Rattle.oltctl.specs.Statuses.{IsGenerated, generate_status};

use crate::reporting::report;
use gp_generate::{Asked, GenerateFault, Plan, PlanFault};
use gp_report::{BAD_ARGUMENTS, SUCCESS, memory_report, write_report};
use gp_stream::Sink;
use std::io;

/// Writes the script of a plan to standard output.
fn write_script<R: AllocGlobal + Print>(rt: &R, plan: &Plan) -> Result<(), GenerateFault> {
    let mut sink = Sink::new(rt.alloc(), io::writer(rt))?;
    gp_generate::generate(rt.alloc(), plan, &mut sink)
}

/// Says why a script was not written whole, if it wasn't, and answers the exit status.
fn end_generate<R: Eprint>(rt: &R, outcome: &Result<(), GenerateFault>) -> u8
    ensures { result ≡ generate_status outcome.now }
{
    match outcome {
        Ok(()) => SUCCESS,
        Err(GenerateFault::OutOfMemory) => report(rt, memory_report()),
        Err(GenerateFault::Write) => report(rt, write_report()),
    }
}

/// Says why there is no such script, by the option that asks for it, and answers the exit status.
fn refuse_plan<R: Eprint>(rt: &R, fault: PlanFault) -> u8
    ensures { result ≡ BAD_ARGUMENTS }
{
    let _ = eprintln!(rt; "oltctl: --{fault}");
    BAD_ARGUMENTS
}

/// Writes the script that is asked for, says how that ended, and answers the exit status.
pub(crate) fn generate<R: AllocGlobal + Print + Eprint>(rt: &R, asked: &Asked) -> u8
    ensures { IsGenerated asked.now result }
{
    match Plan::new(asked.wish()) {
        Err(fault) => refuse_plan(rt, fault),
        Ok(plan) => end_generate(rt, &write_script(rt, &plan)),
    }
}
