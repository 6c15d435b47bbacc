//! Files by name and by number.

ghost use Rattle.std.specs.Prelude.{◌≡◌, ◌<◌, ◌≤◌, ◌++◌, ◌∷◌, [], length, slice_get, slice_index_or, Some, None, MatchOption, IfOk, IfSome, OnOk, option_copied};
ghost use Rattle.nm_base.specs.declared.limit.TheConstants.{MAX_FILE};
ghost use Rattle.nesc_tokens.specs.Lexes.{Lexes};
ghost use Rattle.nesc_preproc.specs.Definitions.{joined_in};
ghost use Rattle.nesc_preproc.specs.Sources.{file_from};
ghost use Rattle.nesc_preproc.specs.FileTables.{files_of};

use crate::file_name::FileName;
use crate::file_text::FileText;
use indexmap::IndexMap;
use nm_base::{List, Name, NoMemory, Pos, Token};
use std::alloc::Global;
use std::marker::Model;

/// The files that were read, in this order, each found by its name or its number in the time of one look-up.
#[derive(Debug, Drop)]
pub(crate) struct FileTable {
    files: IndexMap<FileName, FileText>,
}

impl Model for FileTable {
    ghost use Rattle.nesc_preproc.specs.FileTables.{FilesRead, files_of};

    ghost Value = { FilesRead };

    ghost view = { λ t. files_of t.files.entries };
}

impl FileTable {
    /// No file was read.
    pub fn new(alloc: Global) -> FileTable
        ensures { result ≡ files_of [] }
    {
        FileTable {
            files: IndexMap::new(alloc),
        }
    }

    pub fn len(&self) -> usize
        ensures { result ≡ length self.now.texts }
    {
        self.files.len()
    }

    /// The number of the file of this name.
    pub fn find(&self, name: &Name) -> Result<Option<usize>, NoMemory>
        ensures found { IfOk result (λ number. MatchOption number (file_from 0 self.now.names self.now.texts name.now ≡ None)
            (λ k. file_from 0 self.now.names self.now.texts name.now ≡ Some (k, slice_index_or self.now.texts k []))) }
        ensures within { IfOk result (λ number. IfSome number (λ k. k < length self.now.texts)) }
    {
        Ok(self.files.get_index_of(&FileName::of(name)?))
    }

    /// The name of the file of this number.
    pub fn name(&self, number: usize) -> Option<&Name>
        ensures { option_copied result ≡ slice_get self.now.names number }
    {
        let (name, _) = self.files.get_index(number)?;
        Some(name.name())
    }

    /// The text of the file of this number; none where there is no such file.
    pub fn text(&self, number: usize) -> &[u8]
        ensures { result.now ≡ slice_index_or self.now.texts number [] }
    {
        match self.files.get_index(number) {
            Some((_, text)) => text.as_slice(),
            None => &[],
        }
    }

    /// Whether the byte at this place is joined to a word by line splices.
    pub fn is_joined(&self, pos: Pos) -> bool
        ensures { result ≡ joined_in self.now.texts pos }
    {
        match self.files.get_index(pos.file as usize) {
            Some((_, text)) => text.is_joined(pos),
            None => false,
        }
    }

    /// Adds a file of another name than those that were read.
    pub fn add(&mut self, alloc: Global, name: &Name, text: Vec<u8>) -> Result<(), NoMemory>
        requires size { length text.items ≤ MAX_FILE }
        requires new { file_from 0 self.old.names self.old.texts name.now ≡ None }
        ensures names { OnOk result (self.new.names ≡ self.old.names ++ name.now ∷ []) }
        ensures texts { OnOk result (self.new.texts ≡ self.old.texts ++ text.items ∷ []) }
    {
        self.files
            .insert(FileName::of(name)?, FileText::new(alloc, text)?)?;
        Ok(())
    }

    /// The tokens of the file of this number, where they are kept.
    pub fn tokens(&self, number: u32) -> Option<&List<Token>>
        ensures { IfSome result (λ tokens. Lexes number (slice_index_or self.now.texts number []) tokens.now) }
    {
        let (_, text) = self.files.get_index(number as usize)?;
        text.tokens(number)
    }

    /// Keeps the tokens of the file of this number.
    pub fn keep(&mut self, number: u32, tokens: List<Token>)
        requires { Lexes number (slice_index_or self.old.texts number []) tokens }
        ensures { self.new ≡ self.old }
    {
        if let Some(text) = self.files.get_index_mut(number as usize) {
            text.keep(number, tokens);
        }
    }
}
