//! One line of an image's text.

ghost use Rattle.std.specs.Prelude.{◌≡◌, ◌<◌, ◌≤◌, [], ◌∷◌, ℕ, List, length, Some, None, MatchOption, IfSome};
ghost use Rattle.std.specs.Option.{option_map, option_and_then};
ghost use Rattle.mote_text.specs.ImageLines.{image_line, line_bytes, section_address, spaced_bytes};
ghost use Rattle.mote_text.specs.Lines.{numeral};
ghost use Rattle.mote_text.specs.Parsed.{line_of};

use crate::lines::numeral;
use arrayvec::ArrayVec;
use nm_base::CODE_START;

/// A line of an image's text: nothing, where the next bytes go, bytes, or the end.
#[derive(Drop)]
pub(crate) enum ImageLine {
    Blank,
    Section(u16),
    Bytes(ArrayVec<u8, 16>),
    End,
}

// One to eight hexadecimal digits, from 0x4000 to 0xFFFF.
fn section_address(digits: &[u8]) -> Option<u16>
    ensures { result ≡ section_address digits.now }
{
    if digits.len() > 8 {
        return None;
    }
    let address = numeral(digits, 16, 0xFFFF)?;
    if address >= u32::from(CODE_START) {
        Some(address as u16)
    } else {
        None
    }
}

// The byte that two hexadecimal digits spell.
fn byte_of(high: u8, low: u8) -> Option<u8>
    ensures { result ≡ numeral 16 255 (high ∷ low ∷ []) }
{
    let mut byte = [0];
    match hex::decode_to_slice([high, low], &mut byte) {
        Ok(()) => Some(byte[0]),
        Err(_) => None,
    }
}

// The byte at the front, and the text behind it and its space.
#[tactic(auto, unfolding(crate::specs::ImageLines::spaced_bytes))]
fn front_byte(text: &[u8]) -> Option<(u8, &[u8])>
    requires { 0 < length text.now }
    ensures value { spaced_bytes text.now
        ≡ option_and_then (λ x. option_map (λ bs. x.0 ∷ bs) (spaced_bytes x.1.now)) result }
    ensures shorter { IfSome result (λ x. length x.1.now < length text.now) }
{
    let [high, low, rest @ ..] = text else {
        return None;
    };
    let byte = byte_of(*high, *low)?;
    match rest.split_first() {
        None => Some((byte, rest)),
        Some((b' ', behind)) => Some((byte, behind)),
        Some(_) => None,
    }
}

// One to sixteen bytes, a space behind each, which may be left out behind the last.
fn line_bytes(line: &[u8]) -> Option<ArrayVec<u8, 16>>
    ensures { option_map (λ bytes. bytes.items) result ≡ line_bytes line.now }
{
    let mut bytes = ArrayVec::new();
    let mut rest = line;
    while !rest.is_empty() {
        let (byte, behind) = front_byte(rest)?;
        if bytes.is_full() {
            return None;
        }
        bytes.push(byte);
        rest = behind;
    }
    Some(bytes)
}

/// What a line says; None where it has no form of a line.
pub(crate) fn image_line(line: &[u8]) -> Option<ImageLine>
    ensures { option_map line_of result ≡ image_line line.now }
{
    match line {
        [] => Some(ImageLine::Blank),
        [b'@', digits @ ..] => Some(ImageLine::Section(section_address(digits)?)),
        [b'q'] => Some(ImageLine::End),
        [b'q', ..] => None,
        _ => Some(ImageLine::Bytes(line_bytes(line)?)),
    }
}
