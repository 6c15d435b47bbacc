//! The words that are printed so far.

ghost use Rattle.std.specs.Prelude.{◌≡◌, ◌++◌, ◌∷◌, [], OnOk};
ghost use Rattle.nesc_print_words.specs.Lexemes as spec;

use nm_base::{Kind, NoMemory};
use printed_words::{Gap, Word};
use std::alloc::Global;
use std::marker::Model;

/// Words in the order of a text.
#[derive(Drop)]
pub struct Words {
    alloc: Global,
    list: Vec<Word>,
}

impl Model for Words {
    ghost use Rattle.std.specs.Prelude.{List};
    ghost use Rattle.printed_words.specs.LaidOut.{Lexeme};

    ghost Value = { List Lexeme };

    ghost view = { λ w. w.list.items };
}

impl Words {
    pub fn new(alloc: Global) -> Words
        ensures { result ≡ [] }
    {
        Words {
            alloc,
            list: Vec::new(alloc),
        }
    }

    pub fn as_slice(&self) -> &[Word]
        ensures { result.now ≡ self.now }
    {
        self.list.as_slice()
    }

    fn add(&mut self, gap: Gap, kind: Kind, text: &[u8]) -> Result<(), NoMemory>
        ensures { OnOk result (self.new ≡ self.old ++ record { kind = kind; text = text.now } ∷ []) }
    {
        let word = Word::new(self.alloc, gap, kind, text)?;
        self.list.push(word)?;
        Ok(())
    }

    /// Adds a keyword or a name.
    pub fn word(&mut self, gap: Gap, text: &[u8]) -> Result<(), NoMemory>
        ensures { OnOk result (self.new ≡ self.old ++ spec.word text.now ∷ []) }
    {
        self.add(gap, Kind::Word, text)
    }

    /// Adds a sign.
    pub fn sign(&mut self, gap: Gap, text: &[u8]) -> Result<(), NoMemory>
        ensures { OnOk result (self.new ≡ self.old ++ spec.sign text.now ∷ []) }
    {
        self.add(gap, Kind::Sign, text)
    }

    /// Adds a number.
    pub fn number(&mut self, gap: Gap, text: &[u8]) -> Result<(), NoMemory>
        ensures { OnOk result (self.new ≡ self.old ++ spec.number text.now ∷ []) }
    {
        self.add(gap, Kind::Number, text)
    }

    /// Adds a character literal.
    pub fn character(&mut self, gap: Gap, text: &[u8]) -> Result<(), NoMemory>
        ensures { OnOk result (self.new ≡ self.old ++ spec.character text.now ∷ []) }
    {
        self.add(gap, Kind::Char, text)
    }

    /// Adds a text literal.
    pub fn literal(&mut self, gap: Gap, text: &[u8]) -> Result<(), NoMemory>
        ensures { OnOk result (self.new ≡ self.old ++ spec.literal text.now ∷ []) }
    {
        self.add(gap, Kind::Text, text)
    }

    /// Adds a keyword where the flag is set, and gives the gap of what stands behind.
    pub fn flag(&mut self, gap: Gap, is_set: bool, text: &[u8]) -> Result<Gap, NoMemory>
        ensures { OnOk result (self.new ≡ self.old ++ spec.flagged is_set text.now) }
    {
        if is_set {
            self.word(gap, text)?;
            return Ok(Gap::Spaced);
        }
        Ok(gap)
    }
}
