//! Classes of bytes, and runs of a class.

ghost use Rattle.std.specs.Prelude.{◌≡◌, ◌≤◌, length, not};
ghost use Rattle.std.specs.List.{prefix_len};
ghost use Rattle.std.specs.Char.{is_ascii_digit, is_ascii_hexdigit};
ghost use Rattle.nesc_tokens.specs.CodePoints.{ends_line, is_letter, is_octal_digit, is_plain, is_white_space, is_word_byte};

pub fn is_letter(b: u8) -> bool
    ensures { result ≡ is_letter b }
{
    b.is_ascii_alphabetic() || b == b'_'
}

pub fn is_word_byte(b: u8) -> bool
    ensures { result ≡ is_word_byte b }
{
    is_letter(b) || b.is_ascii_digit()
}

pub fn is_octal_digit(b: u8) -> bool
    ensures { result ≡ is_octal_digit b }
{
    b >= b'0' && b <= b'7'
}

pub fn is_white_space(b: u8) -> bool
    ensures { result ≡ is_white_space b }
{
    b == b' ' || b == b'\t' || b == b'\r' || b == b'\n' || b == 0x0C
}

/// Whether the byte stands for itself between quotes of this sort.
pub fn is_plain(quote: u8, b: u8) -> bool
    ensures { result ≡ is_plain quote b }
{
    !(b == quote || b == b'\\' || b == b'\n')
}

/// How many bytes at the front are word bytes.
#[tactic(auto, using(crate::proofs::Runs::run_within))]
pub fn word_run(bytes: &[u8]) -> usize
    ensures run { result ≡ prefix_len is_word_byte bytes.now }
    ensures within { result ≤ length bytes.now }
{
    bytes.iter().take_while(|b| is_word_byte(**b)).count()
}

/// How many bytes at the front are decimal digits.
#[tactic(auto, using(crate::proofs::Runs::run_within))]
pub fn decimal_run(bytes: &[u8]) -> usize
    ensures run { result ≡ prefix_len is_ascii_digit bytes.now }
    ensures within { result ≤ length bytes.now }
{
    bytes.iter().take_while(|b| b.is_ascii_digit()).count()
}

/// How many bytes at the front are octal digits.
#[tactic(auto, using(crate::proofs::Runs::run_within))]
pub fn octal_run(bytes: &[u8]) -> usize
    ensures run { result ≡ prefix_len is_octal_digit bytes.now }
    ensures within { result ≤ length bytes.now }
{
    bytes.iter().take_while(|b| is_octal_digit(**b)).count()
}

/// How many bytes at the front are hexadecimal digits.
#[tactic(auto, using(crate::proofs::Runs::run_within))]
pub fn hexadecimal_run(bytes: &[u8]) -> usize
    ensures run { result ≡ prefix_len is_ascii_hexdigit bytes.now }
    ensures within { result ≤ length bytes.now }
{
    bytes.iter().take_while(|b| b.is_ascii_hexdigit()).count()
}

/// How many bytes at the front stand before the end of the line.
#[tactic(auto, using(crate::proofs::Runs::run_within))]
pub fn line_run(bytes: &[u8]) -> usize
    ensures run { result ≡ prefix_len (λ b. not (ends_line b)) bytes.now }
    ensures within { result ≤ length bytes.now }
{
    bytes.iter().take_while(|b| **b != b'\n').count()
}
