//! What a drive does with one line, and where it stands between two.
ghost use Rattle.std.specs.Prelude.{◌≡◌, ◌≤◌, ◌⊎◌, None, Err};
ghost use Rattle.gp_flow.specs.Lines.{Answers};
ghost use Rattle.gp_flow.specs.declared.fault.Unanswered.TheVariants as lines;
ghost use Rattle.gp_replay.specs.Playing.{HasRoomFor};
ghost use Rattle.gp_drive.specs.Drive.{answering, begun, begun_in, line_fault, most_lines, most_turns, playing_of, refusing};
ghost use Rattle.gp_drive.specs.Turns.{cost_of, missing_in};

use crate::ending::{errors_of, put_ending};
use crate::fault::TurnFault;
use crate::manner::{DriveManner, UNTOLD};
use crate::shown::put_behind;
use crate::turn::{cost_of, missing_in, play_turn};
use gp_flow::{LineWork, Unanswered};
use gp_lines::{Asked, LineFault as Fault, parse_turn};
use gp_ploam::Mask;
use gp_replay::{EventPlayer, LineBuffer, PlayFault, TraceOut};
use gp_stream::Sink;
use std::alloc::Global;
use std::io::Write;
use std::marker::Model;

/// The most frames and other events that all lines of a drive together may ask for (this profile's own rule).
pub const MOST_TURNS: u64 = 2_251_799_813_685_248;

/// Answers lines that ask for something on a player: each by the trace lines of its entries, by what a simulated unit
/// is, or by an error line.
/// Contracts see the player, how many lines were answered, and how many of them by an error.
///
/// It has no `Drop`: its player is given back by `into_player`.
pub struct Driver<P: EventPlayer> {
    player: P,
    buffer: LineBuffer,
    mask: Mask,
    manner: DriveManner,
    lines: u64,
    errors: u64,
    left: u64,
}

impl<P: EventPlayer> Model for Driver<P> {
    ghost use Rattle.std.specs.Prelude.{◌<◌, ◌≤◌};
    ghost use Rattle.gp_replay.specs.Playing.{HasRoomFor};
    ghost use Rattle.gp_drive.specs.Drive.{DriveState};

    ghost Value = { DriveState P };

    ghost view = { λ d. record {
      player = d.player;
      mask = d.mask;
      done = d.manner.done;
      lights = d.manner.lights;
      lines = d.lines;
      errors = d.errors;
      left = d.left;
    } };

    ghost invariant = { λ d. (d.errors ≤ d.lines) × (0 < d.left → HasRoomFor P.playing d.left d.player) };
}

impl<P: EventPlayer> Driver<P> {
    /// Makes a drive on this player, before its first line.
    pub fn new(_alloc: Global, player: P, mask: Mask, buffer: LineBuffer) -> Driver<P>
        requires { HasRoomFor P.playing most_turns player }
        ensures { result ≡ begun player mask }
    {
        Driver::new_in(UNTOLD, player, mask, buffer)
    }

    /// The same, in this manner.
    pub(crate) fn new_in(
        manner: DriveManner,
        player: P,
        mask: Mask,
        buffer: LineBuffer,
    ) -> Driver<P>
        requires { HasRoomFor P.playing most_turns player }
        ensures { result ≡ begun_in manner player mask }
    {
        Driver {
            player,
            buffer,
            mask,
            manner,
            lines: 0,
            errors: 0,
            left: MOST_TURNS,
        }
    }

    /// How many lines were answered.
    pub fn lines(&self) -> u64
        ensures { result ≡ self.now.lines }
    {
        self.lines
    }

    /// How many of them were answered by an error.
    pub fn errors(&self) -> u64
        ensures { result ≡ self.now.errors }
    {
        self.errors
    }

    /// The mask of the codes.
    fn mask(&self) -> Mask
        ensures { result ≡ self.now.mask }
    {
        self.mask
    }

    /// Gives the player back.
    pub fn into_player(self) -> P
        ensures { result ≡ self.player }
    {
        let Driver {
            player,
            buffer: _,
            mask: _,
            manner: _,
            lines: _,
            errors: _,
            left: _,
        } = self;
        player
    }

    /// Answers a line by an error.
    fn refuse<W: Write>(&mut self, sink: &mut Sink<W>, fault: TurnFault) -> Result<(), Unanswered>
        ensures answers { Answers (refusing fault) None self.old self.new sink.old sink.new result }
        ensures full { result ≡ Err lines.Full → self.old.lines ≡ most_lines }
    {
        if self.lines == u64::MAX {
            return Err(Unanswered::Full);
        }
        put_ending(sink, self.manner.done, self.lines + 1, Some(fault))?;
        self.lines += 1;
        self.errors += 1;
        Ok(())
    }

    /// Plays what a line asks for that is there.
    fn play<W: Write>(&mut self, sink: &mut Sink<W>, asked: Asked) -> Result<(), Unanswered>
        requires { missing_in (P.playing.ports self.old.player) (P.playing.units self.old.player) asked ≡ None }
        ensures answers { Answers (playing_of P.playing asked) None self.old self.new sink.old sink.new result }
        ensures full { result ≡ Err lines.Full
            → (self.old.lines ≡ most_lines) ⊎ (self.old.left ≤ cost_of asked) }
    {
        let cost = cost_of(asked);
        if self.lines == u64::MAX || self.left <= cost {
            return Err(Unanswered::Full);
        }
        let mut out = TraceOut {
            sink,
            buffer: &mut self.buffer,
            mask: self.mask,
        };
        match play_turn(&mut self.player, &mut out, asked) {
            Ok(told) => {
                self.left -= cost;
                put_behind(sink, &self.player, asked, self.manner, self.lines + 1, told)?;
                self.lines += 1;
                self.errors += errors_of(told);
                Ok(())
            }
            Err(fault) => {
                self.left = 0;
                Err(line_fault(fault))
            }
        }
    }

    /// Answers what was read from a line.
    fn answer<W: Write>(&mut self, sink: &mut Sink<W>, asked: Asked) -> Result<(), Unanswered>
        ensures answers { Answers (answering P.playing asked) None self.old self.new sink.old sink.new result }
        ensures full { result ≡ Err lines.Full
            → (self.old.lines ≡ most_lines) ⊎ (self.old.left ≤ cost_of asked) }
    {
        match missing_in(self.player.ports(), self.player.units(), asked) {
            Some(fault) => self.refuse(sink, fault),
            None => self.play(sink, asked),
        }
    }
}

/// Why a line was not answered, where a turn was not played.
fn line_fault(fault: PlayFault) -> Unanswered
    ensures { result ≡ line_fault fault }
{
    match fault {
        PlayFault::OutOfMemory => Unanswered::OutOfMemory,
        PlayFault::Write => Unanswered::Write,
    }
}

impl<P: EventPlayer> LineWork for Driver<P> {
    ghost use Rattle.gp_drive.specs.Drive.{driving, never_over};

    ghost speech = { driving P.playing };

    ghost over = { never_over };

    fn is_over(&self) -> bool {
        false
    }

    fn line<W: Write>(&mut self, text: &[u8], sink: &mut Sink<W>) -> Result<(), Unanswered> {
        match parse_turn(self.mask(), text) {
            Err(fault) => self.refuse(sink, TurnFault::NoTurn(fault)),
            Ok(asked) => self.answer(sink, asked),
        }
    }

    fn long_line<W: Write>(&mut self, sink: &mut Sink<W>) -> Result<(), Unanswered> {
        self.refuse(sink, TurnFault::NoTurn(Fault::Long))
    }
}
