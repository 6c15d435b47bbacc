//! The printed form of an image.

ghost use Rattle.std.specs.Prelude.{◌≡◌, ◌++◌, ◌≤◌, length};
ghost use Rattle.mote_text.specs.ImageText.{image_text, words_from, word_text, before_word};
ghost use Rattle.mote_text.specs.Hex.{hex_byte};
ghost use Rattle.nm_base.specs.Outside.{Writes};

use crate::digits::upper_digit;
use arrayvec::ArrayVec;
use byteorder::{ByteOrder, LittleEndian};
use msp_isa::Image;
use nm_base::{Sink, WriteFault, write_all};

type Piece = ArrayVec<u8, 6>;

fn push_digits(piece: &mut Piece, byte: u8)
    requires { length piece.old.items ≤ 4 }
    ensures { piece.new.items ≡ piece.old.items ++ hex_byte byte }
{
    piece.push(upper_digit(byte / 16) as u8);
    piece.push(upper_digit(byte % 16) as u8);
}

// A word, and what stands before it in its section.
fn piece_of(k: usize, word: u16) -> Piece
    ensures { result.items ≡ before_word k ++ word_text word }
{
    let mut piece = Piece::new();
    if k > 0 {
        piece.push(if k % 8 == 0 { b'\n' } else { b' ' });
    }
    let mut bytes = [0; 2];
    LittleEndian::write_u16(&mut bytes, word);
    let [low, high] = bytes;
    push_digits(&mut piece, low);
    piece.push(b' ');
    push_digits(&mut piece, high);
    piece
}

fn write_words<S: Sink>(out: &mut S, words: &[u16]) -> Result<(), WriteFault>
    ensures { Writes result (S.seen out.old) (S.seen out.new) (words_from 0 words.now) }
{
    if words.is_empty() {
        return Ok(());
    }
    for (k, word) in words.iter().enumerate() {
        write_all(out, piece_of(k, *word).as_slice())?;
    }
    write_all(out, b"\n")
}

// A section's address, and its words.
fn write_section<S: Sink>(out: &mut S, address: &[u8], words: &[u16]) -> Result<(), WriteFault>
    ensures { Writes result (S.seen out.old) (S.seen out.new) (address.now ++ words_from 0 words.now) }
{
    write_all(out, address)?;
    write_words(out, words)
}

/// Writes the TI-TXT form of an image. After a fault the beginning of it was taken, and the sink's faults rose.
pub fn print_image<S: Sink>(image: &Image, out: &mut S) -> Result<(), WriteFault>
    ensures { Writes result (S.seen out.old) (S.seen out.new) (image_text image.now.code.items image.now.vectors) }
{
    write_section(out, b"@4000\n", &image.code)?;
    write_section(out, b"@FFE0\n", &image.vectors)?;
    write_all(out, b"q\n")
}
