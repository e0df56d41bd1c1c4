//! The verifier as what lines are handed to, one after another.
use super::verdict::Verdict;
use super::verifier::Verifier;
use gp_flow::{LineWork, Unanswered};
use gp_stream::Sink;
use std::io::Write;
use std::sync::ledger::Ledger;

impl<L: Ledger> LineWork for Verifier<L> {
    ghost use Rattle.gp_verify.specs.Following.{Following, has_ended};

    ghost speech = { Following };

    ghost over = { has_ended };

    fn is_over(&self) -> bool {
        self.ended().is_some()
    }

    fn line<W: Write>(&mut self, text: &[u8], sink: &mut Sink<W>) -> Result<(), Unanswered> {
        if self.ended().is_some() {
            return Ok(());
        }
        match self.judge(text)? {
            Verdict::Follows => Ok(()),
            verdict => {
                let report = self.report(verdict, text)?;
                sink.put(report.as_slice())?;
                Ok(())
            }
        }
    }

    fn long_line<W: Write>(&mut self, _sink: &mut Sink<W>) -> Result<(), Unanswered> {
        self.pass_long()?;
        Ok(())
    }
}
