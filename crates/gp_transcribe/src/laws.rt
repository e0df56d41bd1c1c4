//! The log that is written of a trace says what the trace says.
ghost use Rattle.std.specs.Prelude.{ℕ, List};
ghost use Rattle.gp_log.specs.declared.line.LogLine.{LogLine as AnyLine};
ghost use Rattle.gp_flow.specs.Lines.{lines_of};
ghost use Rattle.gp_transcribe.specs.Back.{AreRead, TraceSaysAll};
ghost use Rattle.gp_transcribe.specs.Outcome.{AreTranscribed};

/// States that what is written of lines of a trace is read back, line by line, as what they say on the fibre, at their
/// ports and times.
pub fn written_lines_are_read()
    ensures { (frames : List ℕ) (texts : List (List ℕ)) (said : List ℕ) → AreTranscribed frames texts said
        → (entries : List AnyLine) × TraceSaysAll frames texts entries × AreRead (lines_of said) entries }
{}
