//! Words of a text that is printed.

use nm_base::{Kind, Name, NoMemory};
use std::alloc::Global;
use std::marker::Model;

/// What stands before a word.
#[derive(Clone, Copy, PartialEq, Eq, Debug)]
pub enum Gap {
    /// Nothing, where the word is apart from the one before it
    Joined,
    /// A space
    Spaced,
    /// The end of a line, and two spaces for each brace that is open
    Line,
}

/// A word and what stands before it; contracts see the word alone.
#[derive(Debug, Drop)]
pub struct Word {
    kind: Kind,
    text: Name,
    gap: Gap,
}

impl Model for Word {
    ghost use Rattle.printed_words.specs.LaidOut.{Lexeme};

    ghost Value = { Lexeme };

    ghost view = { λ w. record { kind = w.kind; text = w.text } };
}

ghost use Rattle.std.specs.Prelude.{◌≡◌, IfOk};

impl Word {
    /// A word of this kind and this spelling.
    pub fn new(alloc: Global, gap: Gap, kind: Kind, text: &[u8]) -> Result<Word, NoMemory>
        ensures { IfOk result (λ w. w ≡ record { kind = kind; text = text.now }) }
    {
        Ok(Word {
            kind,
            text: Name::new(alloc, text)?,
            gap,
        })
    }

    /// Its spelling.
    pub fn text(&self) -> &[u8]
        ensures { result.now ≡ self.now.text }
    {
        self.text.as_bytes()
    }

    /// What stands before it.
    pub fn gap(&self) -> Gap {
        self.gap
    }
}
