//! A text cut at the first place of a word.
ghost use Rattle.std.specs.Prelude.{◌≡◌, List, ℕ};
ghost use Rattle.std.specs.Option.{option_copied};
ghost use Rattle.gp_decode.specs.LineText.{behind};
ghost use Rattle.gp_differ.specs.Parts.{cut_at};

/// Gives what stands behind a word at the head of a text.
fn behind<'a>(word: &[u8], text: &'a [u8]) -> Option<&'a [u8]>
    ensures { option_copied result ≡ behind word.now text.now }
{
    text.strip_prefix(word)
}

/// Cuts a text at the first place of a word: gives what stands before it, and what stands behind it, if it is there.
pub(crate) fn cut_at<'a>(word: &[u8], text: &'a [u8]) -> (&'a [u8], Option<&'a [u8]>)
    ensures before { result.0.now ≡ (cut_at word.now text.now).0 }
    ensures behind { option_copied result.1 ≡ (cut_at word.now text.now).1 }
{
    let mut at = 0;
    'places: while at < text.len() {
        if let Some(rest) = behind(word, &text[at..]) {
            return (&text[..at], Some(rest));
        }
        at += 1;
    }
    (text, None)
}
