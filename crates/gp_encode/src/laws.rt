//! Laws of encoding: the words that `gp_decode` has for a proper message say that message, and have a code of which it
//! says these words.
ghost use Rattle.std.specs.Prelude.{◌≡◌, Ok, true, false};
ghost use Rattle.gp_ploam.specs.declared.check.Mask.{Mask as AnyMask};
ghost use Rattle.gp_ploam.specs.declared.message.Down.{Down as AnyDown};
ghost use Rattle.gp_ploam.specs.declared.message.Up.{Up as AnyUp};
ghost use Rattle.gp_ploam.specs.Down.{IsProperDown};
ghost use Rattle.gp_ploam.specs.Up.{IsProperUp};
ghost use Rattle.gp_decode.specs.Message.{down_text, up_text};
ghost use Rattle.gp_encode.specs.Said.{ComeBack, HoldsDown, HoldsUp, as_said};
ghost use Rattle.gp_encode.specs.Words.{down_of, up_of};

/// States that the words that `decode` has for a proper message say that message, but for the copy in an
/// acknowledgement, which they leave out.
pub fn words_are_read()
    ensures down { (m : AnyDown) → HoldsDown m → IsProperDown m → down_of (down_text m) ≡ Ok m }
    ensures up { (m : AnyUp) → HoldsUp m → IsProperUp m → up_of (up_text m) ≡ Ok (as_said m) }
{}

/// States that every proper message can be said: its words have a code, of which `decode` says these words.
pub fn words_come_back()
    ensures down { (m : AnyDown) (mask : AnyMask) → HoldsDown m → IsProperDown m → ComeBack false mask (down_text m) }
    ensures up { (m : AnyUp) (mask : AnyMask) → HoldsUp m → IsProperUp m → ComeBack true mask (up_text m) }
{}
