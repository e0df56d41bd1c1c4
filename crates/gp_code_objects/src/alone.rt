//! `decode_object` and `encode_object`: one text is answered by an object, as if it were the first line of an input.
ghost use Rattle.std.specs.Prelude.{◌≡◌, ◌≢◌, ◌↔◌, ℕ, List, [], IfErr, IfOk, OnOk, Option, Some, Err, true, false};
ghost use Rattle.gp_stream.specs.Sink.{Takes, TakesPrefix};
ghost use Rattle.gp_decode.specs.declared.fault.DecodeFault.{DecodeFault as AnyFault};
ghost use Rattle.gp_decode.specs.Line.{HasDecodeFault, IsOfText};
ghost use Rattle.gp_encode.specs.declared.fault.WordsFault.{WordsFault as AnyWordsFault};
ghost use Rattle.gp_code_objects.specs.Decoded.{ShowsDigits};
ghost use Rattle.gp_code_objects.specs.Encoded.{ShowsWords};

use crate::shown::put_digits;
use crate::words::put_words;
use gp_decode::DecodeFault;
use gp_encode::WordsFault;
use gp_flow::Unanswered;
use gp_ploam::Mask;
use gp_stream::Sink;
use std::alloc::Global;
use std::io::Write;

/// Writes the object of the message that a text of hexadecimal digits is the code of, downstream or upstream, or that
/// of the text's first fault, which is answered; its `line` is 1. Digits may stand in either case, and nothing between
/// them.
///
/// Nothing is written but the whole object, which goes out with all that the sink gathers. Where it is not, the fault
/// is `OutOfMemory` or `Write`.
pub fn decode_object<W: Write>(
    alloc: Global,
    text: &str,
    upstream: bool,
    mask: Mask,
    sink: &mut Sink<W>,
) -> Result<Option<DecodeFault>, Unanswered>
    ensures ok { IfOk result (λ fault. (said : List ℕ) × ShowsDigits upstream mask 1 text.now fault said
        × Takes sink.old sink.new said) }
    // The text alone decides which fault it is.
    ensures fault { IfOk result (λ told. (fault : AnyFault) → IsOfText fault
        → (told ≡ Some fault) ↔ HasDecodeFault mask text.now fault) }
    ensures written { OnOk result (sink.new.gathered ≡ []) }
    ensures flushed { sink.old.flushed ≡ true → OnOk result (sink.new.flushed ≡ true) }
    ensures finished { OnOk result (sink.new.stopped ≡ false) }
    ensures full { result ≢ Err Unanswered.Full }
    ensures write { result ≡ Err Unanswered.Write → sink.new.stopped ≡ true }
    ensures prefix { result ≡ Err Unanswered.Write → (fault : Option AnyFault) × (said : List ℕ)
        × ShowsDigits upstream mask 1 text.now fault said × TakesPrefix sink.old sink.new said }
    ensures kept { IfErr result (λ fault. fault ≢ Unanswered.Write → sink.new ≡ sink.old) }
{
    let mut said = Vec::new(alloc);
    let fault = put_digits(&mut said, 1, text.as_bytes(), upstream, mask)?;
    sink.write_whole(said.as_slice())?;
    Ok(fault)
}

/// Writes the object of the code of a message in words, downstream or upstream, or that of their first fault, which is
/// answered; its `line` is 1.
///
/// Nothing is written but the whole object, which goes out with all that the sink gathers. Where it is not, the fault
/// is `OutOfMemory` or `Write`.
pub fn encode_object<W: Write>(
    alloc: Global,
    text: &[u8],
    upstream: bool,
    mask: Mask,
    sink: &mut Sink<W>,
) -> Result<Option<WordsFault>, Unanswered>
    ensures ok { IfOk result (λ fault. (said : List ℕ) × ShowsWords upstream mask 1 text.now fault said
        × Takes sink.old sink.new said) }
    ensures written { OnOk result (sink.new.gathered ≡ []) }
    ensures flushed { sink.old.flushed ≡ true → OnOk result (sink.new.flushed ≡ true) }
    ensures finished { OnOk result (sink.new.stopped ≡ false) }
    ensures full { result ≢ Err Unanswered.Full }
    ensures write { result ≡ Err Unanswered.Write → sink.new.stopped ≡ true }
    ensures prefix { result ≡ Err Unanswered.Write → (fault : Option AnyWordsFault) × (said : List ℕ)
        × ShowsWords upstream mask 1 text.now fault said × TakesPrefix sink.old sink.new said }
    ensures kept { IfErr result (λ fault. fault ≢ Unanswered.Write → sink.new ≡ sink.old) }
{
    let mut said = Vec::new(alloc);
    let fault = put_words(&mut said, 1, text, upstream, mask)?;
    sink.write_whole(said.as_slice())?;
    Ok(fault)
}
