//! The words of a code's message, as a text of their own.
ghost use Rattle.std.specs.Prelude.{IfOk, IfErr};
ghost use Rattle.std.specs.String.{string_bytes};
ghost use Rattle.gp_decode.specs.Line.{HasWords, LacksWords};

use super::append::push_words_of;
use super::fault::DecodeFault;
use gp_ploam::Mask;
use std::alloc::Global;

/// Makes the words of the message that a code is read as, as `push_words_of` appends them. `Crc` is answered where the
/// check octet is wrong under the mask.
pub fn words_of(
    alloc: Global,
    code: &[u8; 13],
    upstream: bool,
    mask: Mask,
) -> Result<String, DecodeFault>
    ensures words { IfOk result (λ words. HasWords upstream mask code.now (string_bytes words)) }
    ensures fault { IfErr result (LacksWords upstream mask code.now) }
{
    let mut words = Vec::new(alloc);
    push_words_of(&mut words, code, upstream, mask)?;
    match String::from_utf8(words) {
        Ok(text) => Ok(text),
        Err(_) => unreachable!(),
    }
}
