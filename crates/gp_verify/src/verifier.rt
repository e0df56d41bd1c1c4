//! Where a verification stands between two lines, and what it does with one.
ghost use Rattle.std.specs.Prelude.{◌≡◌, ◌+◌, ◌≤◌, All, None, Some, Ok, Err, IfOk, OnErr, length};
ghost use Rattle.gp_machine.specs.Config.{max_ports};
ghost use Rattle.gp_chassis.specs.Limits.{IsWithin};
ghost use Rattle.gp_chassis.specs.World.{IsBalanced};
ghost use Rattle.gp_replay.specs.Chassis.{HasRoom};
ghost use Rattle.gp_verify.specs.declared.fault.LineRefusal.TheVariants.{Full};
ghost use Rattle.gp_verify.specs.declared.verdict.Verdict.{Verdict as AnyVerdict};
ghost use Rattle.gp_verify.specs.declared.verdict.Verdict.TheVariants.{NoPort, TooLong};
ghost use Rattle.gp_verify.specs.Ports.{IsOrderlyPort};
ghost use Rattle.gp_verify.specs.Report.{Explains, Reports, TellsBoth, TellsFor, TellsLine, left_behind, why_no_port};
ghost use Rattle.gp_verify.specs.Verdicts.{Judges, Moves, ending, most_lines, opened_verify};

use super::fault::LineRefusal;
use super::judging::judge_line;
use super::object::{both_object, line_object};
use super::report::{as_it_is, both_lines, choice_in, in_words, line_alone, port_of, without_feed};
use super::typed::configs_are_typed;
use super::verdict::Verdict;
use gp_chassis::ChassisConfig;
use gp_differ::{push_reason, why_no_line};
use gp_explain::Form;
use gp_licence::MAX_LICENCES;
use gp_ploam::Mask;
use gp_replay::{LineBuffer, Player};
use itoa::Buffer;
use std::alloc::{AllocError, Global};
use std::marker::Model;
use std::sync::ledger::{Blank, Ledger};

/// Tells of the lines of a text, one after another, whether they are the trace of some run. The first line that is
/// not ends it. Contracts see the play that the lines so far tell of, how many lines were judged, and what the
/// machine said last.
///
/// It has no `Drop`: its licences are gathered by `close`.
pub struct Verifier<L: Ledger> {
    alloc: Global,
    player: Player<L>,
    buffer: LineBuffer,
    mask: Mask,
    form: Form,
    lines: u64,
    ended: Option<Verdict>,
}

impl<L: Ledger> Model for Verifier<L> {
    ghost use Rattle.std.specs.Prelude.{◌≤◌, ◌-◌, All, length};
    ghost use Rattle.gp_machine.specs.Codes.{port_codes};
    ghost use Rattle.gp_machine.specs.Config.{max_ports};
    ghost use Rattle.gp_replay.specs.Chassis.{HasRoom};
    ghost use Rattle.gp_verify.specs.Ports.{IsOrderlyPort};
    ghost use Rattle.gp_verify.specs.Verdicts.{VerifyState, most_lines};

    ghost Value = { VerifyState };

    ghost coded = { Prim.hlevel port_codes };

    ghost view = { λ v. record {
      mask = v.mask;
      form = v.form;
      play = v.player;
      lines = v.lines;
      said = v.buffer;
      ended = v.ended;
    } };

    ghost invariant = { λ v. (length v.player.next ≤ max_ports) × HasRoom (most_lines - v.lines) v.player
        × All IsOrderlyPort v.player.world.ports };
}

impl<L: Ledger> Verifier<L> {
    /// Opens the chassis, before the first line, where the line that can't be is to be told as it is. `blank` is a new
    /// ledger of `MAX_LICENCES` parts, made by `Blank::new`, and `L` its name.
    pub fn begin(
        alloc: Global,
        blank: Blank,
        config: &ChassisConfig,
        mask: Mask,
    ) -> Result<Verifier<L>, AllocError>
        requires name { blank.name ≡ L.name }
        requires parts { (blank.parts ≡ L.parts) × (L.parts ≡ MAX_LICENCES) }
        requires within { IsWithin config.now }
        ensures { IfOk result (λ verifier. verifier ≡ opened_verify mask config.now.ports.items config.now.licences) }
    {
        configs_are_typed(config.ports.as_slice());
        let buffer = LineBuffer::new(alloc)?;
        let player = Player::begin(alloc, blank, config)?;
        Ok(Verifier::on(alloc, Form::Plain, player, buffer, mask))
    }

    /// Makes one on ports that were opened, before the first line.
    pub(crate) fn on(
        alloc: Global,
        form: Form,
        player: Player<L>,
        buffer: LineBuffer,
        mask: Mask,
    ) -> Verifier<L>
        requires few { length player.next ≤ max_ports }
        requires room { HasRoom most_lines player }
        requires orderly { All IsOrderlyPort player.world.ports }
        ensures { result ≡ record { mask = mask; form = form; play = player; lines = 0; said = buffer; ended = None } }
    {
        Verifier {
            alloc,
            player,
            buffer,
            mask,
            form,
            lines: 0,
            ended: None,
        }
    }

    /// Judges the next line, without its line feed. A verdict other than `Follows` ends it: that verdict is then
    /// given for every further line.
    ///
    /// `OutOfMemory` is answered where memory for the journal was refused; the line may then be given again. `Full` is
    /// answered where `u64::MAX` lines were judged before.
    pub fn judge(&mut self, text: &[u8]) -> Result<Verdict, LineRefusal>
        ensures judged { self.old.ended ≡ None → IfOk result (λ verdict.
            Judges verdict self.old.mask self.old.play text.now self.new.play self.new.said) }
        ensures moved { self.old.ended ≡ None → IfOk result (λ verdict.
            Moves verdict self.old.mask text.now self.old.play self.new.play self.new.said) }
        ensures ends { self.old.ended ≡ None → IfOk result (λ verdict. self.new.ended ≡ ending verdict) }
        ensures lines { self.old.ended ≡ None → IfOk result (λ _. self.new.lines ≡ self.old.lines + 1) }
        ensures ended { (verdict : AnyVerdict) → self.old.ended ≡ Some verdict
            → (result ≡ Ok verdict) × (self.new ≡ self.old) }
        ensures err { OnErr result (self.new ≡ self.old) }
        ensures full { result ≡ Err Full → self.old.lines ≡ most_lines }
        ensures mask { self.new.mask ≡ self.old.mask }
        ensures form { self.new.form ≡ self.old.form }
    {
        if let Some(verdict) = self.ended {
            return Ok(verdict);
        }
        if self.lines == u64::MAX {
            return Err(LineRefusal::Full);
        }
        let verdict = judge_line(&mut self.player, &mut self.buffer, self.mask, text)?;
        self.lines += 1;
        self.ended = ending(verdict);
        Ok(verdict)
    }

    /// Ends it at a line that is too long to be looked at, if it has not ended.
    pub fn pass_long(&mut self) -> Result<(), LineRefusal>
        ensures ended { (verdict : AnyVerdict) → self.old.ended ≡ Some verdict
            → (result ≡ Ok tt) × (self.new ≡ self.old) }
        ensures long { self.old.ended ≡ None → IfOk result (λ _.
            self.new ≡ record self.old { lines = self.old.lines + 1; ended = Some TooLong }) }
        ensures err { OnErr result (self.new ≡ self.old) }
        ensures full { result ≡ Err Full → self.old.lines ≡ most_lines }
    {
        if self.ended.is_some() {
            return Ok(());
        }
        if self.lines == u64::MAX {
            return Err(LineRefusal::Full);
        }
        self.lines += 1;
        self.ended = Some(Verdict::TooLong);
        Ok(())
    }

    /// States what holds of each port: no line of it is too long.
    pub fn stands(&self)
        ensures { All IsOrderlyPort self.now.play.world.ports }
    {
        // The invariant is known once a field is looked at.
        let _ = &self.mask;
    }

    /// The verdict that ended it, of the line that was judged last.
    pub fn ended(&self) -> Option<Verdict>
        ensures { result ≡ self.now.ended }
    {
        self.ended
    }

    /// How many lines were judged.
    pub fn lines(&self) -> u64
        ensures { result ≡ self.now.lines }
    {
        self.lines
    }

    /// The ports as the lines so far left them.
    pub fn player(&self) -> &Player<L>
        ensures { result.now ≡ self.now.play }
    {
        &self.player
    }

    /// The line that the machine said last, with its line feed: after `WrongNumber` and `NotAStep` that in the line's
    /// place.
    pub fn said(&self) -> &[u8]
        ensures { result.now ≡ self.now.said }
    {
        self.buffer.as_bytes()
    }

    /// Tells how many copies of messages are still owed by the port of the line that the machine said last.
    fn left(&self) -> usize
        ensures { result ≡ left_behind self.now }
    {
        match port_of(self.said()) {
            Some(port) => self.player.owed(port),
            None => 0,
        }
    }

    /// Gives why a line is not the one that the machine said in its place.
    fn reason(&self, text: &[u8]) -> Result<Vec<u8>, AllocError>
        ensures { IfOk result (λ reason. Explains self.now text.now reason.items) }
    {
        let mut reason = Vec::new(self.alloc);
        push_reason(
            self.alloc,
            self.mask,
            self.left(),
            text,
            without_feed(self.said()),
            &mut reason,
        )?;
        Ok(reason)
    }

    /// Makes what is told of a line in whose place the machine said nothing, for this reason.
    fn report_line(
        &self,
        verdict: Verdict,
        text: &[u8],
        reason: &[u8],
    ) -> Result<Vec<u8>, AllocError>
        ensures { IfOk result (λ report.
            TellsLine self.now.form verdict self.now.lines self.now text.now reason.now report.items) }
    {
        match self.form {
            Form::Plain => {
                let shown = as_it_is(self.alloc, text)?;
                line_alone(self.alloc, self.lines, shown.as_slice(), reason)
            }
            Form::Words => {
                let shown = in_words(self.alloc, self.mask, text)?;
                line_alone(self.alloc, self.lines, shown.as_slice(), reason)
            }
            Form::Json => line_object(self.alloc, verdict, self.lines, text, reason),
        }
    }

    /// Gives why a line tells of no port: which one is the script's last.
    fn no_port(&self) -> Result<Vec<u8>, AllocError>
        ensures { IfOk result (λ reason. reason.items ≡ why_no_port self.now) }
    {
        let mut digits = Buffer::new();
        let last = self.player.ports().saturating_sub(1);
        let mut reason = Vec::from_slice(self.alloc, b"the port: the last of the script is ")?;
        reason.extend_from_slice(digits.format(last as u64).as_bytes())?;
        Ok(reason)
    }

    /// Makes what is told of a line that tells of a port that is not there.
    fn report_port(&self, text: &[u8]) -> Result<Vec<u8>, AllocError>
        ensures { IfOk result (λ report.
            TellsLine self.now.form NoPort self.now.lines self.now text.now (why_no_port self.now) report.items) }
    {
        let reason = self.no_port()?;
        self.report_line(Verdict::NoPort, text, reason.as_slice())
    }

    /// Makes what is told of a line, as it is, in whose place the machine said another for this reason.
    fn report_plain(&self, text: &[u8], reason: &[u8]) -> Result<Vec<u8>, AllocError>
        ensures { IfOk result (λ report. (verdict : AnyVerdict)
            → TellsFor Form.Plain verdict self.now.lines self.now text.now reason.now report.items) }
    {
        let shown = as_it_is(self.alloc, text)?;
        both_lines(
            self.alloc,
            self.lines,
            shown.as_slice(),
            self.said(),
            self.said(),
            reason,
        )
    }

    /// The same in words.
    fn report_words(&self, text: &[u8], reason: &[u8]) -> Result<Vec<u8>, AllocError>
        ensures { IfOk result (λ report. (verdict : AnyVerdict)
            → TellsFor Form.Words verdict self.now.lines self.now text.now reason.now report.items) }
    {
        let shown = in_words(self.alloc, self.mask, text)?;
        let machine = in_words(self.alloc, self.mask, without_feed(self.said()))?;
        both_lines(
            self.alloc,
            self.lines,
            shown.as_slice(),
            machine.as_slice(),
            self.said(),
            reason,
        )
    }

    /// The same as an object.
    fn report_object(
        &self,
        verdict: Verdict,
        text: &[u8],
        reason: &[u8],
    ) -> Result<Vec<u8>, AllocError>
        ensures { IfOk result (λ report.
            TellsFor Form.Json verdict self.now.lines self.now text.now reason.now report.items) }
    {
        both_object(
            self.alloc,
            verdict,
            self.lines,
            text,
            without_feed(self.said()),
            choice_in(self.said()),
            reason,
        )
    }

    /// The same in the form in which it is to be told.
    fn report_for(
        &self,
        verdict: Verdict,
        text: &[u8],
        reason: &[u8],
    ) -> Result<Vec<u8>, AllocError>
        ensures { IfOk result (λ report.
            TellsFor self.now.form verdict self.now.lines self.now text.now reason.now report.items) }
    {
        match self.form {
            Form::Plain => self.report_plain(text, reason),
            Form::Words => self.report_words(text, reason),
            Form::Json => self.report_object(verdict, text, reason),
        }
    }

    /// Makes what is told of a line in whose place the machine said another.
    fn report_both(&self, verdict: Verdict, text: &[u8]) -> Result<Vec<u8>, AllocError>
        ensures { IfOk result
            (λ report. TellsBoth self.now.form verdict self.now.lines self.now text.now report.items) }
    {
        let reason = self.reason(text)?;
        self.report_for(verdict, text, reason.as_slice())
    }

    /// Makes what is told of the line that was judged last, by its verdict and its text: nothing of one that follows,
    /// and of one that is too long.
    pub fn report(&self, verdict: Verdict, text: &[u8]) -> Result<Vec<u8>, AllocError>
        ensures { IfOk result
            (λ report. Reports self.now.form verdict self.now.lines self.now text.now report.items) }
    {
        match verdict {
            Verdict::Follows | Verdict::TooLong => Ok(Vec::new(self.alloc)),
            Verdict::NotALine => self.report_line(verdict, text, why_no_line(text).as_bytes()),
            Verdict::NoPort => self.report_port(text),
            Verdict::WrongNumber | Verdict::NotAStep => self.report_both(verdict, text),
        }
    }

    /// Ends the chassis, and answers how many licences it was opened with: those that are free, in hands or with
    /// active units.
    pub fn close(self) -> u32
        ensures { IsBalanced result self.play.world }
    {
        let Verifier {
            alloc: _,
            player,
            buffer: _,
            mask: _,
            form: _,
            lines: _,
            ended: _,
        } = self;
        player.close()
    }
}

/// The verdict, where it ends a verification.
fn ending(verdict: Verdict) -> Option<Verdict>
    ensures { result ≡ ending verdict }
{
    match verdict {
        Verdict::Follows => None,
        _ => Some(verdict),
    }
}
