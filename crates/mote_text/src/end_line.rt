//! How a run ended, as text.

ghost use Rattle.std.specs.Prelude.{◌≡◌, ◌≤◌, ◌+◌, ◌++◌, decimal, take, drop, length};
ghost use Rattle.nm_base.specs.Lists.{number_of};
ghost use Rattle.mote_text.specs.Hex.{hex_word};
ghost use Rattle.mote_text.specs.TraceText.{end_text};

use crate::End;
use crate::line::{Line, copy, push, push_number, push_word};

// A name and a number.
fn push_field(line: &mut Line, name: &[u8], number: u32)
    requires { length line.old.items + length name.now + 10 ≤ 64 }
    ensures text { line.new.items ≡ line.old.items ++ (name.now ++ decimal number) }
    ensures short { length line.new.items ≤ length line.old.items + length name.now + 10 }
{
    push(line, name);
    push_number(line, number);
}

// A name and four hexadecimal digits.
fn push_word_field(line: &mut Line, name: &[u8], word: u16)
    requires { length line.old.items + length name.now + 4 ≤ 64 }
    ensures text { line.new.items ≡ line.old.items ++ (name.now ++ hex_word word) }
    ensures short { length line.new.items ≡ length line.old.items + length name.now + 4 }
{
    push(line, name);
    push_word(line, word);
}

// 1 for a flag that is set, and 0 for one that is not.
fn digit_of(flag: bool) -> u32
    ensures { result ≡ number_of flag }
{
    if flag { 1 } else { 0 }
}

fn line_of(end: &End) -> Line
    ensures { result.items ≡ end_text end.now.slots end.now.ran end.now.least end.now.off }
{
    let mut line = Line::new();
    push_field(&mut line, b"end slots ", end.slots);
    push_field(&mut line, b" ran ", end.ran);
    push_word_field(&mut line, b" sp ", end.least);
    push_field(&mut line, b" off ", digit_of(end.off));
    line
}

/// Writes the last line of a trace, without its end, into the front of the buffer; how many bytes it has.
pub fn print_end(end: &End, buffer: &mut [u8; 64]) -> usize
    ensures fits { result ≤ 64 }
    ensures line { take result buffer.new ≡ end_text end.now.slots end.now.ran end.now.least end.now.off }
    ensures rest { drop result buffer.new ≡ drop result buffer.old }
{
    copy(&line_of(end), buffer)
}
