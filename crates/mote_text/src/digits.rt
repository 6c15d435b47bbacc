//! Hexadecimal digits.

ghost use Rattle.std.specs.Prelude.{◌≡◌, ◌<◌};
ghost use Rattle.mote_text.specs.Hex.{hex_word, hex_upper};

/// The four lower-case digits of a word.
pub(crate) fn hex_digits(word: u16) -> [u8; 4]
    ensures { result ≡ hex_word word }
{
    let mut digits = [0; 4];
    // Two bytes have four digits.
    let _ = hex::encode_to_slice(word.to_be_bytes(), &mut digits);
    digits
}

/// The upper-case hexadecimal digit of a number below 16.
pub(crate) fn upper_digit(digit: u8) -> char
    requires { digit < 16 }
    ensures value { result ≡ hex_upper digit }
    ensures ascii { result < 128 }
{
    if digit < 10 {
        (b'0' + digit) as char
    } else {
        (b'A' + (digit - 10)) as char
    }
}
