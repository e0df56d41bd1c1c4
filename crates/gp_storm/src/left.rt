//! What of a plan is left to do, and the next part of it.
ghost use Rattle.std.specs.Prelude.{◌≡◌, ◌+◌, [], IfOk, IsTrue, length, take, drop};
ghost use Rattle.gp_storm.specs.Plan.{frame_count};

use super::plan::Plan;
use gp_machine::Command;
use std::alloc::{AllocError, Global};

/// How many frames a part of a plan has at most, how many commands, and how many bursts on all ports together.
pub(crate) const PART: u32 = 65_536;

/// What of a plan is left to do.
#[derive(Drop)]
pub(crate) struct Left<'a> {
    /// The whole plan.
    plan: &'a Plan,
    /// How many bursts of each port are done, where it has so many.
    bursts: usize,
    /// The frames that are left on which port; the next ones stand last.
    frames: Vec<(u8, u32)>,
    /// The commands that are left.
    commands: &'a [(u8, Command)],
}

/// Gives so many items at most, from a place on.
fn middle<T>(items: &[T], from: usize, most: usize) -> &[T]
    ensures { result.now ≡ take most (drop from items.now) }
{
    if from >= items.len() {
        return &[];
    }
    let rest = &items[from..];
    if rest.len() <= most {
        rest
    } else {
        &rest[..most]
    }
}

/// Takes so many frames at most out of those that are left.
fn take_frames(
    alloc: Global,
    left: &mut Vec<(u8, u32)>,
    most: u32,
) -> Result<Vec<(u8, u32)>, AllocError>
    ensures { IfOk result
        (λ taken. frame_count left.old.items ≡ frame_count taken.items + frame_count left.new.items) }
{
    let mut taken = Vec::new(alloc);
    let mut room = most;
    while let Some((port, count)) = left.pop() {
        if count > room {
            left.push((port, count - room))?;
            taken.push((port, room))?;
            return Ok(taken);
        }
        taken.push((port, count))?;
        room -= count;
    }
    Ok(taken)
}

/// Gives so many of each port's bursts at most, from a place on.
fn bursts_from(
    alloc: Global,
    plan: &Plan,
    from: usize,
    most: usize,
) -> Result<Vec<Vec<(u32, [u8; 13])>>, AllocError>
    ensures { IfOk result (λ lists. length lists.items ≡ length plan.now.bursts.items) }
{
    let mut lists = Vec::with_capacity(alloc, plan.bursts.len())?;
    for bursts in &plan.bursts {
        lists.push_reserved(Vec::from_slice(alloc, middle(bursts, from, most))?);
    }
    Ok(lists)
}

impl<'a> Left<'a> {
    /// All of a plan.
    pub(crate) fn of(alloc: Global, plan: &'a Plan) -> Result<Left<'a>, AllocError>
        ensures frames { IfOk result (λ left. frame_count left.frames.items ≡ frame_count plan.now.frames.items) }
        ensures commands { IfOk result (λ left. left.commands.now ≡ plan.now.commands.items) }
    {
        let mut frames = Vec::from_slice(alloc, plan.frames.as_slice())?;
        frames.reverse();
        Ok(Left {
            plan,
            bursts: 0,
            frames,
            commands: plan.commands.as_slice(),
        })
    }

    /// Tells whether nothing is left.
    pub(crate) fn is_done(&self) -> bool
        ensures frames { IsTrue result → self.now.frames.items ≡ [] }
        ensures commands { IsTrue result → self.now.commands.now ≡ [] }
    {
        for bursts in &self.plan.bursts {
            if bursts.len() > self.bursts {
                return false;
            }
        }
        self.frames.is_empty() && self.commands.is_empty()
    }

    /// Gives the next part, as a plan of its own.
    pub(crate) fn next(&mut self, alloc: Global) -> Result<Plan, AllocError>
        ensures frames { IfOk result (λ part. frame_count self.old.frames.items
            ≡ frame_count part.frames.items + frame_count self.new.frames.items) }
        ensures commands { IfOk result (λ part. length self.old.commands.now
            ≡ length part.commands.items + length self.new.commands.now) }
    {
        let most = PART as usize;
        let each = (most / self.plan.bursts.len().max(1)).max(1);
        let bursts = bursts_from(alloc, self.plan, self.bursts, each)?;
        let frames = take_frames(alloc, &mut self.frames, PART)?;
        let (asked, later) = self.commands.split_at(most.min(self.commands.len()));
        let commands = Vec::from_slice(alloc, asked)?;
        self.bursts = self.bursts.saturating_add(each);
        self.commands = later;
        Ok(Plan {
            bursts,
            frames,
            commands,
        })
    }
}
