//! What is known of the files that were read.

ghost use Rattle.std.specs.Prelude.{◌≡◌, ◌+◌, ◌<◌, ◌≤◌, false, length, None, OnOk, IfErr, IfOk};
ghost use Rattle.nm_base.specs.declared.limit.TheConstants.{MAX_ALL_FILES, MAX_FILE, MAX_TOKENS};
ghost use Rattle.nesc_macros.specs.Expansion.{too_many};
ghost use Rattle.nesc_preproc.specs.Sources.{nothing_known, file_from, files_too_large, with_count, with_file};
ghost use Rattle.nesc_macros.specs.Invocation.{is_among};
ghost use Rattle.nesc_preproc.specs.Kept.{known_of};
ghost use Rattle.nesc_preproc.specs.Obeyed.{declared_with};

use crate::file_name::FileName;
use crate::file_table::FileTable;
use indexmap::IndexSet;
use nm_base::{Fault, Limit, MAX_ALL_FILES, MAX_TOKENS, Name, NoMemory, Which};
use std::alloc::Global;

/// The files that were read, in this order, with their bytes; the headers whose ordinary tokens were given; the bytes of all
/// files, and the tokens that were put before the scan.
#[derive(Debug, Drop)]
pub(crate) struct KnownFiles {
    pub files: FileTable,
    pub declared: IndexSet<FileName>,
    pub bytes: u32,
    pub tokens: u32,
}

impl KnownFiles {
    /// No file was read.
    pub fn new(alloc: Global) -> KnownFiles
        ensures { known_of result ≡ nothing_known }
    {
        KnownFiles {
            files: FileTable::new(alloc),
            declared: IndexSet::new(alloc),
            bytes: 0,
            tokens: 0,
        }
    }

    /// Whether the ordinary tokens of this header were given.
    pub fn is_declared(&self, name: &Name) -> Result<bool, NoMemory>
        ensures { IfOk result (λ is. is ≡ is_among self.now.declared.keys name.now) }
    {
        Ok(self.declared.contains(&FileName::of(name)?))
    }

    /// The ordinary tokens of this header are given.
    pub fn declare(&mut self, name: &Name) -> Result<(), NoMemory>
        requires { is_among self.old.declared.keys name.now ≡ false }
        ensures { OnOk result (known_of self.new ≡ declared_with false name.now (known_of self.old)) }
    {
        self.declared.insert(FileName::of(name)?)?;
        Ok(())
    }

    /// The bytes of all files with so many more.
    pub fn bytes_with(&self, more: usize) -> Result<u32, Fault>
        ensures ok { IfOk result (λ n. (n ≡ self.now.bytes + more) × (n ≤ MAX_ALL_FILES)) }
        ensures err { IfErr result (λ e. (e ≡ files_too_large) × (MAX_ALL_FILES < self.now.bytes + more)) }
    {
        let more = u32::try_from(more).ok();
        match more.and_then(|more| self.bytes.checked_add(more)) {
            Some(bytes) if bytes <= MAX_ALL_FILES => Ok(bytes),
            _ => Err(Fault::Limit(Limit {
                which: Which::AllFiles,
                have: MAX_ALL_FILES + 1,
            })),
        }
    }

    /// Keeps a file, with the bytes of all files.
    pub fn add(
        &mut self,
        alloc: Global,
        name: &Name,
        text: Vec<u8>,
        bytes: u32,
    ) -> Result<(), NoMemory>
        requires size { length text.items ≤ MAX_FILE }
        requires new { file_from 0 self.old.files.names self.old.files.texts name.now ≡ None }
        ensures { OnOk result (known_of self.new ≡ with_file name.now text.items bytes (known_of self.old)) }
    {
        self.files.add(alloc, name, text)?;
        self.bytes = bytes;
        Ok(())
    }

    /// So many more tokens are put before the scan.
    pub fn count(&mut self, tokens: usize) -> Result<(), Fault>
        ensures ok { OnOk result ((known_of self.new ≡ with_count (self.old.tokens + tokens) (known_of self.old)) × (self.old.tokens + tokens ≤ MAX_TOKENS)) }
        ensures err { IfErr result (λ e. (e ≡ too_many) × ((MAX_TOKENS < self.old.tokens + tokens) × (self.new ≡ self.old))) }
    {
        let tokens = u32::try_from(tokens).ok();
        match tokens.and_then(|tokens| self.tokens.checked_add(tokens)) {
            Some(tokens) if tokens <= MAX_TOKENS => {
                self.tokens = tokens;
                Ok(())
            }
            _ => Err(Fault::Limit(Limit {
                which: Which::Tokens,
                have: MAX_TOKENS + 1,
            })),
        }
    }
}
