//! Texts of files.

ghost use Rattle.std.specs.Prelude.{◌≡◌, ◌≤◌, length, IfOk, IfSome};
ghost use Rattle.nm_base.specs.declared.limit.TheConstants.{MAX_FILE};
ghost use Rattle.nesc_tokens.specs.Lexes.{Lexes};
ghost use Rattle.nesc_tokens.specs.Joined.{is_joined};

use nesc_tokens::{SourceByte, joined_bytes, stands_at};
use nm_base::{List, NoMemory, Pos, Token};
use std::alloc::Global;
use std::marker::Model;

/// The text of a file, which contracts see as its bytes, and those of its bytes that line splices join to a word. Its tokens
/// are kept beside it once the file was opened again.
#[derive(Debug, Drop)]
pub(crate) struct FileText {
    text: List<u8>,
    joined: Vec<SourceByte>,
    file: u32,
    tokens: Option<List<Token>>,
}

impl Model for FileText {
    ghost use Rattle.std.specs.Prelude.{◌≡◌, List, ℕ};
    ghost use Rattle.nesc_tokens.specs.Joined.{joined_bytes};
    ghost use Rattle.nesc_preproc.specs.FileTables.{AreKept};

    ghost Value = { List ℕ };

    ghost view = { λ f. f.text };

    ghost invariant = { λ f. (f.joined.items ≡ joined_bytes f.text) × AreKept f.file f.text f.tokens };
}

impl FileText {
    pub fn new(alloc: Global, text: Vec<u8>) -> Result<FileText, NoMemory>
        requires { length text.items ≤ MAX_FILE }
        ensures { IfOk result (λ f. f ≡ text.items) }
    {
        let joined = joined_bytes(alloc, text.as_slice())?;
        Ok(FileText {
            text: List::new(text),
            joined,
            file: 0,
            tokens: None,
        })
    }

    pub fn as_slice(&self) -> &[u8]
        ensures { result.now ≡ self.now }
    {
        self.text.as_slice()
    }

    /// Whether the byte at this place is joined to a word.
    pub fn is_joined(&self, pos: Pos) -> bool
        ensures { result ≡ is_joined self.now pos }
    {
        self.joined.iter().any(|byte| stands_at(byte, pos))
    }

    /// Its tokens in the file of this number, where they are kept.
    pub fn tokens(&self, file: u32) -> Option<&List<Token>>
        ensures { IfSome result (λ tokens. Lexes file self.now tokens.now) }
    {
        if self.file == file {
            self.tokens.as_ref()
        } else {
            None
        }
    }

    /// Keeps its tokens, those in the file of this number.
    pub fn keep(&mut self, file: u32, tokens: List<Token>)
        requires { Lexes file self.old tokens }
        ensures { self.new ≡ self.old }
    {
        self.file = file;
        self.tokens = Some(tokens);
    }
}
