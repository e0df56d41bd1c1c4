//! Laws of decoding: a code in digits alone is read as it stands, and no message with a row has another name.
ghost use Rattle.std.specs.Prelude.{◌≡◌, ℕ, List, None, true, false, slice_index};
ghost use Rattle.std.specs.List.{list_all};
ghost use Rattle.hex.specs.Hex.{is_hex_digit};
ghost use Rattle.gp_ploam.specs.declared.message.Down.{Down as AnyDown};
ghost use Rattle.gp_ploam.specs.declared.message.Up.{Up as AnyUp};
ghost use Rattle.gp_ploam.specs.Down.{IsNamedDown, down_row};
ghost use Rattle.gp_ploam.specs.Row.{written};
ghost use Rattle.gp_ploam.specs.Up.{IsNamedUp, up_row};
ghost use Rattle.gp_decode.specs.LineText.{code_digits};
ghost use Rattle.gp_decode.specs.Names.{other_name};

/// States that nothing is passed over in a code that is written in digits alone.
pub fn plain_digits_stay()
    ensures { (text : List ℕ) → list_all is_hex_digit text ≡ true → code_digits text ≡ text }
{}

/// States that no message with a row of its own has the identifier of another name.
pub fn named_rows_stay()
    ensures down { (m : AnyDown) → IsNamedDown m → other_name false (slice_index (written (down_row m)) 1) ≡ None }
    ensures up { (m : AnyUp) → IsNamedUp m → other_name true (slice_index (written (up_row m)) 1) ≡ None }
{}
