//! A line of a trace as it is made, in a buffer of its own.

ghost use Rattle.std.specs.Prelude.{◌≡◌, ◌≤◌, ◌+◌, ◌++◌, decimal, drop, length, take};
ghost use Rattle.mote_text.specs.Hex.{hex_word};

use crate::digits::hex_digits;
use arrayvec::ArrayVec;
use itoa::Buffer;

/// No line of a trace is longer.
pub(crate) type Line = ArrayVec<u8, 64>;

/// Puts bytes behind a line that has room for them.
pub(crate) fn push(line: &mut Line, piece: &[u8])
    requires { length line.old.items + length piece.now ≤ 64 }
    ensures { line.new.items ≡ line.old.items ++ piece.now }
{
    // There is room.
    let _ = line.try_extend_from_slice(piece);
}

/// A number in decimal.
pub(crate) fn push_number(line: &mut Line, number: u32)
    requires { length line.old.items + 10 ≤ 64 }
    ensures text { line.new.items ≡ line.old.items ++ decimal number }
    ensures short { length line.new.items ≤ length line.old.items + 10 }
{
    let mut digits = Buffer::new();
    push(line, digits.format(number).as_bytes());
}

/// Four hexadecimal digits.
pub(crate) fn push_word(line: &mut Line, word: u16)
    requires { length line.old.items + 4 ≤ 64 }
    ensures text { line.new.items ≡ line.old.items ++ hex_word word }
    ensures short { length line.new.items ≡ length line.old.items + 4 }
{
    push(line, &hex_digits(word));
}

/// Copies a line into the front of a buffer; how many bytes it has.
pub(crate) fn copy(line: &Line, buffer: &mut [u8; 64]) -> usize
    ensures fits { result ≤ 64 }
    ensures line { take result buffer.new ≡ line.now.items }
    ensures rest { drop result buffer.new ≡ drop result buffer.old }
{
    let bytes = line.as_slice();
    buffer[..bytes.len()].copy_from_slice(bytes);
    bytes.len()
}
