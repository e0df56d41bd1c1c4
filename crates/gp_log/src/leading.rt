//! What a text begins with, read in one pass: a number, the word of a line of a log, a code, an event.
ghost use Rattle.std.specs.Prelude.{◌≡◌, ◌≤◌, ◌++◌, true, Some, IfSome, codes, length, position};
ghost use Rattle.std.specs.List.{list_all};
ghost use Rattle.gp_lines.specs.Trace.{is_equals};
ghost use Rattle.gp_log.specs.Code.{code_at};
ghost use Rattle.gp_log.specs.Fields.{is_of_field};
ghost use Rattle.gp_log.specs.Says.{kind_of};
ghost use Rattle.gp_log.specs.Usual.{AreTold, KindLeads, NumberBegins};

use crate::fields::behind_word;
use crate::word::Kind;
use gp_code::{CODE_DIGITS, octets_in};
use gp_lines::parse_event;
use gp_machine::Event;

/// The most digits of which each number is below 2 ^ 64.
const MOST_DIGITS: usize = 19;

/// Reads the decimal digits that a text begins with, nineteen at most, and gives what stands behind them.
pub(crate) fn leading_number(text: &[u8]) -> Option<(u64, &[u8])>
    ensures { IfSome result (λ read. NumberBegins text.now read.0 read.1.now) }
{
    let end = text.len().min(MOST_DIGITS);
    let mut number = 0u64;
    let mut at = 0;
    'digits: while at < end {
        let octet = text[at];
        if !octet.is_ascii_digit() {
            break;
        }
        number = number * 10 + u64::from(octet - b'0');
        at += 1;
    }
    if at == 0 {
        return None;
    }
    Some((number, &text[at..]))
}

/// Gives this kind, and what stands behind its word, if that is next in a text.
fn named<'a>(text: &'a [u8], word: &[u8], kind: Kind) -> Option<(Kind, &'a [u8])>
    requires field { list_all is_of_field word.now ≡ true }
    requires names { kind_of word.now ≡ Some kind }
    ensures { IfSome result (λ read. KindLeads text.now read.0 read.1.now) }
{
    let rest = behind_word(text, word)?;
    Some((kind, rest))
}

/// Reads the word of a line of a log that a text begins with, and gives what stands behind it.
#[tactic(auto, unfolding(crate::specs::Says::kind_of))]
pub(crate) fn leading_kind(text: &[u8]) -> Option<(Kind, &[u8])>
    ensures { IfSome result (λ read. KindLeads text.now read.0 read.1.now) }
{
    match text {
        [b'd', ..] => named(text, b"down", Kind::Down),
        [b'u', ..] => named(text, b"up", Kind::Up),
        [b'g', ..] => named(text, b"grant", Kind::Grant),
        _ => None,
    }
}

/// Reads the code that a text begins with, if that is 26 hexadecimal digits, and gives what stands behind it.
pub(crate) fn leading_code(text: &[u8]) -> Option<([u8; 13], &[u8])>
    ensures { IfSome result (λ read. code_at text.now ≡ Some (read.0, read.1.now)) }
{
    let (digits, rest) = text.split_at_checked(CODE_DIGITS)?;
    let octets = octets_in(digits)?;
    Some((octets, rest))
}

/// Reads the fields of the burst that a text begins with, and gives the answer behind it.
pub(crate) fn leading_burst(text: &[u8]) -> Option<(Event, &[u8])>
    ensures { IfSome result (λ read. AreTold (codes "burst " ++ text.now) read.0 read.1.now) }
{
    let (at, behind) = leading_number(text)?;
    let fields = behind.strip_prefix(b" ")?;
    let (digits, rest) = fields.split_at_checked(CODE_DIGITS)?;
    let bytes = octets_in(digits)?;
    let answer = rest.strip_prefix(b" = ")?;
    if at > u64::from(u32::MAX) {
        return None;
    }
    let at = at as u32;
    Some((Event::Burst { at, bytes }, answer))
}

/// Gives the place of the first `=`.
pub(crate) fn first_equals(text: &[u8]) -> Option<usize>
    ensures { result ≡ position is_equals text.now }
{
    text.iter().position(|octet| *octet == b'=')
}

/// Reads the event that stands in front of this place, and gives the answer behind it, if that is the place of ` = `.
pub(crate) fn event_before(text: &[u8], at: usize) -> Option<(Event, &[u8])>
    requires { at ≤ length text.now }
    ensures { IfSome result (λ read. AreTold text.now read.0 read.1.now) }
{
    let (front, back) = text.split_at(at);
    let told = front.strip_suffix(b" ")?;
    let answer = back.strip_prefix(b"= ")?;
    let event = parse_event(told).ok()?;
    Some((event, answer))
}
