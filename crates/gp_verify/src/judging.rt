//! Whether a line is that of the turn that it tells of.
ghost use Rattle.std.specs.Prelude.{◌≡◌, ◌<◌, ◌≤◌, ◌+◌, ◌↔◌, ◌++◌, ℕ, codes, All, IfOk, OnErr, IsTrue, length};
ghost use Rattle.gp_machine.specs.Config.{max_ports};
ghost use Rattle.gp_lines.specs.Trace.{SplitsLine};
ghost use Rattle.gp_replay.specs.Chassis.{HasRoom};
ghost use Rattle.gp_verify.specs.Ports.{IsOrderlyPort};
ghost use Rattle.gp_verify.specs.Verdicts.{Judges, Moves};

use super::verdict::Verdict;
use gp_lines::{TraceLine, event_is_told, picked, split_line};
use gp_ploam::Mask;
use gp_replay::{LineBuffer, Player, Turn};
use std::alloc::AllocError;
use std::sync::ledger::Ledger;

/// Tells whether a line is this text and a line feed.
fn is_line_of(line: &[u8], text: &[u8]) -> bool
    ensures { IsTrue result ↔ (line.now ≡ text.now ++ codes "\n") }
{
    match line.strip_suffix(b"\n") {
        Some(front) => front == text,
        None => false,
    }
}

/// Takes the turn that a line tells of, with the number that its answer names, and tells whether the line is that
/// turn's.
fn judge_turn<L: Ledger>(
    player: &mut Player<L>,
    buffer: &mut LineBuffer,
    mask: Mask,
    text: &[u8],
    line: TraceLine<'_>,
) -> Result<Verdict, AllocError>
    requires port { line.port < length player.old.next }
    requires few { length player.old.next ≤ max_ports }
    requires room { HasRoom 1 player.old }
    requires split { SplitsLine text.now line.port line.number line.event line.answer.now }
    ensures judged { IfOk result (λ verdict. Judges verdict mask player.old text.now player.new buffer.new) }
    ensures moved { IfOk result (λ verdict. Moves verdict mask text.now player.old player.new buffer.new) }
    ensures err { OnErr result ((player.new ≡ player.old) × (buffer.new ≡ buffer.old)) }
    ensures ports { length player.new.next ≡ length player.old.next }
    ensures room { (count : ℕ) → HasRoom (1 + count) player.old → HasRoom count player.new }
    ensures stays { All IsOrderlyPort player.old.world.ports → All IsOrderlyPort player.new.world.ports }
{
    player.stands();
    event_is_told(&line.event);
    let wished = picked(line.answer);
    let turn = Turn {
        port: line.port,
        event: line.event,
    };
    let told = player.tell_turn(turn, wished, mask, buffer)?;
    if is_line_of(buffer.as_bytes(), text) {
        return Ok(Verdict::Follows);
    }
    if told.number != line.number {
        return Ok(Verdict::WrongNumber);
    }
    Ok(Verdict::NotAStep)
}

/// Takes the turn that a text tells of, and tells whether the text is its line.
pub(crate) fn judge_line<L: Ledger>(
    player: &mut Player<L>,
    buffer: &mut LineBuffer,
    mask: Mask,
    text: &[u8],
) -> Result<Verdict, AllocError>
    requires few { length player.old.next ≤ max_ports }
    requires room { HasRoom 1 player.old }
    ensures judged { IfOk result (λ verdict. Judges verdict mask player.old text.now player.new buffer.new) }
    ensures moved { IfOk result (λ verdict. Moves verdict mask text.now player.old player.new buffer.new) }
    ensures err { OnErr result ((player.new ≡ player.old) × (buffer.new ≡ buffer.old)) }
    ensures ports { length player.new.next ≡ length player.old.next }
    ensures room { (count : ℕ) → HasRoom (1 + count) player.old → HasRoom count player.new }
    ensures stays { All IsOrderlyPort player.old.world.ports → All IsOrderlyPort player.new.world.ports }
{
    let Some(line) = split_line(text) else {
        return Ok(Verdict::NotALine);
    };
    if usize::from(line.port) >= player.ports() {
        return Ok(Verdict::NoPort);
    }
    judge_turn(player, buffer, mask, text, line)
}
