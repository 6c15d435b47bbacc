//! The bytes of a text as it is read, without its line splices.

ghost use Rattle.std.specs.Prelude.{◌≡◌, ◌<◌, ◌≤◌, ◌+◌, ◌^◌, length, false, IfOk};
ghost use Rattle.nesc_tokens.specs.Splices.{col_behind, line_behind, placed, source_of, splice_len};

use nm_base::NoMemory;
use std::alloc::Global;

/// A byte and the place where it stands.
#[derive(Clone, Copy, PartialEq, Eq, Debug)]
pub struct SourceByte {
    pub byte: u8,
    pub line: u32,
    pub col: u32,
}

// How many bytes of a line splice stand at the front.
fn splice_len(bytes: &[u8]) -> usize
    ensures len { result ≡ splice_len bytes.now }
    ensures within { result ≤ length bytes.now }
{
    match bytes {
        [b'\\', b'\n', ..] => 2,
        [b'\\', b'\r', b'\n', ..] => 3,
        _ => 0,
    }
}

/// The line of the byte behind one.
pub fn line_behind(byte: u8, line: u32) -> u32
    requires { line + 1 < 2 ^ 32 }
    ensures { result ≡ line_behind byte line }
{
    if byte == b'\n' { line + 1 } else { line }
}

/// The column of the byte behind one.
pub fn col_behind(byte: u8, col: u32) -> u32
    requires { col + 1 < 2 ^ 32 }
    ensures { result ≡ col_behind byte col }
{
    if byte == b'\n' { 1 } else { col + 1 }
}

/// The bytes of a text as it is read, with their places.
pub fn source_bytes(alloc: Global, text: &[u8]) -> Result<Vec<SourceByte>, NoMemory>
    requires { length text.now + 1 < 2 ^ 32 }
    ensures { IfOk result (λ v. v.items ≡ source_of text.now) }
{
    let mut source = Vec::new(alloc);
    let mut line = 1u32;
    let mut col = 1u32;
    let mut at = 0;
    while at < text.len() {
        let splice = splice_len(&text[at..]);
        if splice > 0 {
            line += 1;
            col = 1;
            at += splice;
            continue;
        }
        let byte = text[at];
        source.push(SourceByte { byte, line, col })?;
        line = line_behind(byte, line);
        col = col_behind(byte, col);
        at += 1;
    }
    Ok(source)
}

/// Whether a line splice may stand in a text. Each begins with a backslash; where there is none, the bytes are read as they
/// stand.
pub fn has_splice(text: &[u8]) -> bool
    ensures { result ≡ false → source_of text.now ≡ placed 1 1 text.now }
{
    text.contains(&b'\\')
}
