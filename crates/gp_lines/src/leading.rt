//! What a text begins with, read in one pass: a number, or a burst.
ghost use Rattle.std.specs.Prelude.{IfSome};
ghost use Rattle.gp_lines.specs.Leading.{NumberLeads, EventLeads};

use gp_code::{CODE_DIGITS, octets_in};
use gp_machine::Event;

/// The most digits of which each number is below 2 ^ 64.
pub(crate) const MOST_DIGITS: usize = 19;

/// Reads a number up to the first space, and gives what stands behind that. None for numbers of more than eighteen
/// digits too: it looks at nineteen octets at most.
pub(crate) fn leading_number(text: &[u8]) -> Option<(u64, &[u8])>
    ensures { IfSome result (λ read. NumberLeads text.now read.0 read.1.now) }
{
    let end = text.len().min(MOST_DIGITS);
    let mut number = 0u64;
    let mut at = 0;
    'digits: while at < end {
        let octet = text[at];
        if octet == b' ' && at > 0 {
            return Some((number, &text[at + 1..]));
        }
        if !octet.is_ascii_digit() {
            return None;
        }
        number = number * 10 + u64::from(octet - b'0');
        at += 1;
    }
    None
}

/// Reads the burst that a text begins with, and gives what stands behind it. None for some bursts too: those whose
/// times have very many digits.
pub(crate) fn leading_burst(text: &[u8]) -> Option<(Event, &[u8])>
    ensures { IfSome result (λ read. EventLeads text.now read.0 read.1.now) }
{
    let fields = text.strip_prefix(b"burst ")?;
    let (at, behind) = leading_number(fields)?;
    let (digits, rest) = behind.split_at_checked(CODE_DIGITS)?;
    let bytes = octets_in(digits)?;
    if at > u64::from(u32::MAX) {
        return None;
    }
    let at = at as u32;
    Some((Event::Burst { at, bytes }, rest))
}
