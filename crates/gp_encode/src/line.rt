//! `encode_line`: the code of one message in words, as a line of hexadecimal digits. Nothing is written where the words
//! have a fault.
ghost use Rattle.std.specs.Prelude.{◌≡◌, ◌++◌, ℕ, List, OnOk, Ok, Err, codes, true, false};
ghost use Rattle.hex.specs.Hex.{encode_lower};
ghost use Rattle.gp_stream.specs.Sink.{Takes};
ghost use Rattle.gp_encode.specs.declared.fault.WordsFault.{WordsFault as AnyFault};
ghost use Rattle.gp_encode.specs.declared.fault.EncodeFault.TheVariants as faults;
ghost use Rattle.gp_encode.specs.Encoding.{Encodes};

use crate::encoding::encode_words;
use crate::fault::EncodeFault;
use gp_ploam::Mask;
use gp_stream::Sink;
use std::io::Write;

/// Writes the code of a message in words, as `encode_words` gives it, in 26 lower-case hexadecimal digits, and a line
/// feed. All that the sink gathers goes out. Nothing is written where the words have a fault.
pub fn encode_line<W: Write>(
    text: &[u8],
    upstream: bool,
    mask: Mask,
    sink: &mut Sink<W>,
) -> Result<(), EncodeFault>
    ensures ok { OnOk result ((code : List ℕ) × Encodes upstream mask text.now (Ok code)
        × Takes sink.old sink.new (encode_lower code ++ codes "\n")) }
    ensures finished { OnOk result (sink.new.stopped ≡ false) }
    ensures fault { (fault : AnyFault) → result ≡ Err (faults.Words fault)
        → Encodes upstream mask text.now (Err fault) × (sink.new ≡ sink.old) }
    ensures write { result ≡ Err faults.Write → sink.new.stopped ≡ true }
{
    let code = encode_words(text, upstream, mask)?;
    let mut digits = [0u8; 26];
    hex::encode_to_slice(code.as_slice(), &mut digits).unwrap();
    sink.put(&digits)?;
    sink.write_whole(b"\n")?;
    Ok(())
}
