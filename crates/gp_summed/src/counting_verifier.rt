//! `CountingVerifier`, a verifier whose entries are counted.
ghost use Rattle.std.specs.Prelude.{◌≡◌, ◌+◌, ◌++◌, [], None, Err, IfOk, OnErr, codes, length};
ghost use Rattle.gp_chassis.specs.World.{IsBalanced};
ghost use Rattle.gp_verify.specs.declared.fault.LineRefusal.TheVariants.{Full};
ghost use Rattle.gp_verify.specs.declared.verdict.Verdict.TheVariants.{Follows};
ghost use Rattle.gp_verify.specs.Verdicts.{Judges, ending, most_lines};
ghost use Rattle.gp_summed.specs.Verifying.{IsPlayed, said_by};

use crate::opening::Opening;
use gp_flow::{LineWork, Unanswered};
use gp_replay::Player;
use gp_stream::Sink;
use gp_tally::Counter;
use gp_verify::{LineRefusal, Verdict, Verifier};
use std::io::Write;
use std::marker::{Model, PhantomData};
use std::sync::ledger::Ledger;

/// A verifier, and what was counted of the entries of its play: of each line that follows, and of the machine's own in
/// the place of the one that ended it. Contracts see the verifier and the counter.
///
/// It has no `Drop`: its licences are gathered by `close`.
pub(crate) struct CountingVerifier<B: Opening, L: Ledger> {
    verifier: Verifier<L>,
    counter: Counter,
    of: PhantomData<B>,
}

impl<B: Opening, L: Ledger> Model for CountingVerifier<B, L> {
    ghost use Rattle.std.specs.Prelude.{◌≡◌, length};
    ghost use Rattle.std.specs.FinMap as map;
    ghost use Rattle.std.specs.FinSet as set;
    ghost use Rattle.std.specs.Coded.{codes};
    ghost use Rattle.gp_ploam.specs.Serials.{serial_cmp, coded_serial};
    ghost use Rattle.gp_unit.specs.contracts.row.Row as row;
    ghost use Rattle.gp_tally.specs.contracts.counts.PortCounts as port;
    ghost use Rattle.gp_tally.specs.contracts.counts.UnitCounts as unit;
    ghost use Rattle.gp_summed.specs.Verifying.{CountingVerifyState, IsPlayed};

    ghost Value = { CountingVerifyState };

    ghost coded = { Prim.hlevel (
      codes,
      coded_serial,
      map.code {R = serial_cmp} coded_serial row.the_row.coded,
      set.code {R = serial_cmp} coded_serial,
      port.the_row.coded,
      map.code {R = serial_cmp} coded_serial unit.the_row.coded,
    ) };

    ghost view = { λ a. record { verify = a.verifier; counter = a.counter } };

    ghost invariant = { λ a. IsPlayed B.mask B.start a.verifier.play a.counter.taken × (a.verifier.mask ≡ B.mask)
        × (a.counter.mask ≡ B.mask) × (length a.counter.ports ≡ B.ports) };
}

/// Counts the line that the machine said, where an entry was made.
fn count(counter: &mut Counter, verdict: Verdict, said: &[u8])
    ensures taken { counter.new.taken ≡ counter.old.taken ++ said_by verdict said.now }
    ensures mask { counter.new.mask ≡ counter.old.mask }
    ensures ports { length counter.new.ports ≡ length counter.old.ports }
{
    match verdict {
        Verdict::Follows | Verdict::WrongNumber | Verdict::NotAStep => counter.take(said),
        Verdict::NotALine | Verdict::NoPort | Verdict::TooLong => {}
    }
}

impl<B: Opening, L: Ledger> CountingVerifier<B, L> {
    /// Begins before the first line, with a counter that was handed nothing yet.
    pub(crate) fn new(verifier: Verifier<L>, counter: Counter) -> Self
        requires start { verifier.play ≡ B.start }
        requires mask { verifier.mask ≡ B.mask }
        requires nothing { counter.taken ≡ [] }
        requires counted { counter.mask ≡ B.mask }
        requires ports { length counter.ports ≡ B.ports }
        ensures { result ≡ record { verify = verifier; counter = counter } }
    {
        CountingVerifier {
            verifier,
            counter,
            of: PhantomData,
        }
    }

    /// Gives the verifier.
    pub(crate) fn verifier(&self) -> &Verifier<L>
        ensures { result.now ≡ self.now.verify }
    {
        &self.verifier
    }

    /// Gives the ports as the lines left them.
    pub(crate) fn player(&self) -> &Player<L>
        ensures { result.now ≡ self.now.verify.play }
    {
        self.verifier.player()
    }

    /// Gives the counter, which was handed the lines of the entries of the play.
    pub(crate) fn counter(&self) -> &Counter
        ensures counter { result.now ≡ self.now.counter }
        ensures played { IsPlayed B.mask B.start self.now.verify.play self.now.counter.taken }
        ensures mask { self.now.counter.mask ≡ B.mask }
        ensures ports { length self.now.counter.ports ≡ B.ports }
    {
        &self.counter
    }

    /// Judges the next line, and counts the entry that is made for it, if one is.
    fn judge(&mut self, text: &[u8]) -> Result<Verdict, LineRefusal>
        requires { self.old.verify.ended ≡ None }
        ensures judged { IfOk result (λ verdict. Judges verdict self.old.verify.mask self.old.verify.play text.now
            self.new.verify.play self.new.verify.said) }
        ensures ends { IfOk result (λ verdict. self.new.verify.ended ≡ ending verdict) }
        ensures lines { IfOk result (λ _. self.new.verify.lines ≡ self.old.verify.lines + 1) }
        ensures mask { self.new.verify.mask ≡ self.old.verify.mask }
        ensures form { self.new.verify.form ≡ self.old.verify.form }
        ensures taken { IfOk result (λ verdict.
            self.new.counter.taken ≡ self.old.counter.taken ++ said_by verdict self.new.verify.said) }
        ensures follows { IfOk result (λ verdict.
            verdict ≡ Follows → self.new.verify.said ≡ text.now ++ codes "\n") }
        ensures err { OnErr result (self.new ≡ self.old) }
        ensures full { result ≡ Err Full → self.old.verify.lines ≡ most_lines }
    {
        let verdict = self.verifier.judge(text)?;
        count(&mut self.counter, verdict, self.verifier.said());
        Ok(verdict)
    }

    /// Ends the chassis, and answers how many licences it was opened with.
    pub(crate) fn close(self) -> u32
        ensures { IsBalanced result self.verify.play.world }
    {
        let CountingVerifier {
            verifier,
            counter: _,
            of: _,
        } = self;
        verifier.close()
    }
}

impl<B: Opening, L: Ledger> LineWork for CountingVerifier<B, L> {
    ghost use Rattle.gp_summed.specs.Verifying.{JudgesCounting, is_over};

    ghost speech = { JudgesCounting };

    ghost over = { is_over };

    fn is_over(&self) -> bool {
        self.verifier.ended().is_some()
    }

    fn line<W: Write>(&mut self, text: &[u8], sink: &mut Sink<W>) -> Result<(), Unanswered> {
        if self.verifier.ended().is_some() {
            return Ok(());
        }
        match self.judge(text)? {
            Verdict::Follows => Ok(()),
            verdict => {
                let report = self.verifier.report(verdict, text)?;
                sink.put(report.as_slice())?;
                Ok(())
            }
        }
    }

    fn long_line<W: Write>(&mut self, _sink: &mut Sink<W>) -> Result<(), Unanswered> {
        if self.verifier.ended().is_some() {
            return Ok(());
        }
        self.verifier.pass_long()?;
        Ok(())
    }
}
