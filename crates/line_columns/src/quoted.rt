//! A field in quotation marks.
ghost use Rattle.std.specs.Prelude.{◌≡◌, [], None, Some, MatchOption};
ghost use Rattle.line_columns.specs.Fields as spec;

/// The mark in which a field may stand.
const MARK: u8 = b'"';

/// Gives what stands before the mark that closes a field, and what stands behind that; None where none does. Two marks
/// one behind the other close nothing.
pub(crate) fn quoted(text: &[u8]) -> Option<(&[u8], &[u8])>
    ensures { MatchOption result (spec.quoted [] text.now ≡ None)
        (λ read. spec.quoted [] text.now ≡ Some (read.0.now, read.1.now)) }
{
    let mut at = 0;
    'octets: while at < text.len() {
        if text[at] != MARK {
            at += 1;
        } else if at + 1 < text.len() && text[at + 1] == MARK {
            at += 2;
        } else {
            return Some((&text[..at], &text[at + 1..]));
        }
    }
    None
}
