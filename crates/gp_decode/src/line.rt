//! `decode_line`: from the hexadecimal digits of one code to the line of its message. Nothing is written but the whole
//! line.
ghost use Rattle.std.specs.Prelude.{◌≡◌, ◌≢◌, ◌↔◌, ℕ, List, [], OnOk, OnErr, IfOk, IfErr, IsErr, Err, true, false};
ghost use Rattle.gp_stream.specs.Sink.{Takes, TakesPrefix};
ghost use Rattle.gp_decode.specs.declared.fault.DecodeFault.{DecodeFault as AnyFault};
ghost use Rattle.gp_decode.specs.Line.{HasDecodeFault, IsOfText, LacksLine, Says, SaysIn};

use super::append::push_words_in;
use super::code::code_in;
use super::fault::DecodeFault;
use gp_ploam::Mask;
use gp_stream::Sink;
use std::alloc::Global;
use std::io::Write;

/// Writes the line of the message that a text of hexadecimal digits is the code of: its name and its
/// fields, downstream or upstream. Digits may stand in either case.
///
/// Nothing is written but the whole line, and nothing where the text has a fault. All that the sink
/// gathers goes out.
pub fn decode_line<W: Write>(
    alloc: Global,
    text: &str,
    upstream: bool,
    mask: Mask,
    sink: &mut Sink<W>,
) -> Result<(), DecodeFault>
    ensures ok { OnOk result ((line : List ℕ) × Says upstream mask text.now line × Takes sink.old sink.new line) }
    ensures written { OnOk result (sink.new.gathered ≡ []) }
    ensures flushed { sink.old.flushed ≡ true → OnOk result (sink.new.flushed ≡ true) }
    ensures finished { OnOk result (sink.new.stopped ≡ false) }

    // Memory and the writer aside, the text alone decides, by its first fault.
    ensures fault { (fault : AnyFault) → IsOfText fault → (result ≡ Err fault) ↔ HasDecodeFault mask text.now fault }

    ensures write { result ≡ Err DecodeFault.Write → sink.new.stopped ≡ true }
    ensures prefix { result ≡ Err DecodeFault.Write
        → (line : List ℕ) × Says upstream mask text.now line × TakesPrefix sink.old sink.new line }
    ensures kept { IfErr result (λ fault. fault ≢ DecodeFault.Write → sink.new ≡ sink.old) }
{
    decode_line_in(alloc, text, upstream, mask, false, sink)
}

/// Writes it so, and where `names` with the name that G.984.3 has for a message that this profile has no row for, in
/// the place of `Other` and its identifier.
pub fn decode_line_in<W: Write>(
    alloc: Global,
    text: &str,
    upstream: bool,
    mask: Mask,
    names: bool,
    sink: &mut Sink<W>,
) -> Result<(), DecodeFault>
    ensures ok { OnOk result ((line : List ℕ) × SaysIn names upstream mask text.now line
        × Takes sink.old sink.new line) }
    ensures written { OnOk result (sink.new.gathered ≡ []) }
    ensures flushed { sink.old.flushed ≡ true → OnOk result (sink.new.flushed ≡ true) }
    ensures finished { OnOk result (sink.new.stopped ≡ false) }
    ensures fault { (fault : AnyFault) → IsOfText fault → (result ≡ Err fault) ↔ HasDecodeFault mask text.now fault }
    ensures write { result ≡ Err DecodeFault.Write → sink.new.stopped ≡ true }
    ensures prefix { result ≡ Err DecodeFault.Write
        → (line : List ℕ) × SaysIn names upstream mask text.now line × TakesPrefix sink.old sink.new line }
    ensures kept { IfErr result (λ fault. fault ≢ DecodeFault.Write → sink.new ≡ sink.old) }
{
    let line = line_for(alloc, text.as_bytes(), upstream, mask, names)?;
    sink.write_whole(line.as_slice())?;
    Ok(())
}

/// Makes the line of the message that a text is the code of.
fn line_for(
    alloc: Global,
    text: &[u8],
    upstream: bool,
    mask: Mask,
    names: bool,
) -> Result<Vec<u8>, DecodeFault>
    ensures line { IfOk result (λ line. SaysIn names upstream mask text.now line.items) }
    ensures fault { IfErr result (LacksLine upstream mask text.now) }
{
    let code = code_in(text)?;
    let mut line = Vec::new(alloc);
    push_words_in(&mut line, &code, upstream, mask, names)?;
    line.extend_from_slice(b"\n")?;
    Ok(line)
}
