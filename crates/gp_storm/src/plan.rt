//! What each thread of a storm is to do, by a script.
ghost use Rattle.std.specs.Prelude.{◌≡◌, ◌++◌, ℕ, [], IfOk, OnOk, length, replicate};
ghost use Rattle.gp_script.specs.Playable.{IsPlayable};
ghost use Rattle.gp_script.specs.View.{NamesOneOf, script_view};
ghost use Rattle.gp_storm.specs.Plan.{IsPlanOf, burst_lists, burst_of, bursts_at, command_of, frames_of};

use gp_machine::Command;
use gp_script::{Script, ScriptEvent};
use std::alloc::{AllocError, Global};

/// What a storm does.
#[derive(Drop)]
pub struct Plan {
    /// The bursts of each port, in order: the whole round-trip delay, in bit times, and the octets.
    pub bursts: Vec<Vec<(u32, [u8; 13])>>,
    /// How many frames are served on which port, one after another.
    pub frames: Vec<(u8, u32)>,
    /// The commands and their ports, in order.
    pub commands: Vec<(u8, Command)>,
}

impl Plan {
    /// Makes a plan that has nothing to do on so many ports.
    fn idle(alloc: Global, ports: usize) -> Result<Plan, AllocError>
        ensures bursts { IfOk result (λ plan. burst_lists plan.bursts.items ≡ replicate ports []) }
        ensures frames { IfOk result (λ plan. plan.frames.items ≡ []) }
        ensures commands { IfOk result (λ plan. plan.commands.items ≡ []) }
    {
        let mut bursts = Vec::with_capacity(alloc, ports)?;
        for _ in 0..ports {
            bursts.push_reserved(Vec::new(alloc));
        }
        Ok(Plan {
            bursts,
            frames: Vec::new(alloc),
            commands: Vec::new(alloc),
        })
    }

    /// Adds what an event asks for.
    fn add(&mut self, event: &ScriptEvent) -> Result<(), AllocError>
        requires { (units : ℕ) × NamesOneOf (length self.old.bursts.items) units event.now }
        ensures ports { length self.new.bursts.items ≡ length self.old.bursts.items }
        ensures bursts { OnOk result
            ((port : ℕ) → bursts_at port self.new ≡ bursts_at port self.old ++ burst_of port event.now) }
        ensures frames { OnOk result (self.new.frames.items ≡ self.old.frames.items ++ frames_of event.now) }
        ensures commands { OnOk result (self.new.commands.items ≡ self.old.commands.items ++ command_of event.now) }
    {
        match *event {
            ScriptEvent::Frames { port, count } => self.frames.push((port, count))?,
            ScriptEvent::Burst { port, at, bytes } => {
                self.bursts[usize::from(port)].push((at, bytes))?
            }
            ScriptEvent::Command { port, command } => self.commands.push((port, command))?,
            ScriptEvent::Light { .. } => {}
        }
        Ok(())
    }
}

/// Plans the storm of a script: the bursts of each port, the frames of all ports and the commands, each in the order
/// of the script.
pub fn plan_of(alloc: Global, script: &Script) -> Result<Plan, AllocError>
    requires { IsPlayable (script_view script.now) }
    ensures { IfOk result (IsPlanOf (script_view script.now)) }
{
    let mut plan = Plan::idle(alloc, script.ports.len())?;
    for event in &script.events {
        plan.add(event)?;
    }
    Ok(plan)
}
