//! Octets, of two hexadecimal digits each, read with no branch that depends on a digit.
ghost use Rattle.std.specs.Prelude.{◌≡◌, ◌*◌, ◌<◌, true, Some, Ok, Err, IfSome, IfNone, length};
ghost use Rattle.std.specs.Char.{is_ascii_hexdigit};
ghost use Rattle.std.specs.List.{list_all};
ghost use Rattle.hex.specs.Hex.{decode_sized, hex_digit_value};
ghost use Rattle.hex.specs.declared.error.FromHexError.{FromHexError};

/// How many digits a code has.
pub const CODE_DIGITS: usize = 26;

/// Tells whether each character is a hexadecimal digit, in either case. It looks at each, also behind one that isn't.
fn are_hex_digits(text: &[u8]) -> bool
    ensures { result ≡ list_all is_ascii_hexdigit text.now }
{
    let mut all = true;
    for octet in text {
        all &= octet.is_ascii_hexdigit();
    }
    all
}

/// Gives the value of a hexadecimal digit: its low four bits, and nine more for a letter.
fn digit_value(digit: u8) -> u8
    requires { is_ascii_hexdigit digit ≡ true }
    ensures value { hex_digit_value digit ≡ Some result }
    ensures within { result < 16 }
{
    digit % 16 + digit / 64 * 9
}

/// Gives the octets that digits stand for.
fn octets_of<const N: usize>(digits: &[u8]) -> [u8; N]
    requires few { N < 32768 }
    requires digits { list_all is_ascii_hexdigit digits.now ≡ true }
    requires count { length digits.now ≡ 2 * N }
    ensures { decode_sized digits.now N ≡ Ok result }
{
    let mut octets = [0u8; N];
    'pairs: for i in 0..N {
        octets[i] = digit_value(digits[2 * i]) * 16 + digit_value(digits[2 * i + 1]);
    }
    octets
}

/// Reads so many octets, thirteen of a code, from their digits, which stand in either case. None for a text that isn't
/// two hexadecimal digits for each. Takes no memory.
pub fn octets_in<const N: usize>(text: &[u8]) -> Option<[u8; N]>
    requires { N < 32768 }
    ensures octets { IfSome result (λ octets. decode_sized text.now N ≡ Ok octets) }
    ensures none { IfNone result ((fault : FromHexError) × (decode_sized text.now N ≡ Err fault)) }
{
    if text.len() == 2 * N && are_hex_digits(text) {
        Some(octets_of(text))
    } else {
        None
    }
}
