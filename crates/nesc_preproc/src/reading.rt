//! What is kept from one expansion to the next.

ghost use Rattle.std.specs.Prelude.{◌≡◌, Some, None, option_copied};
ghost use Rattle.nesc_preproc.specs.Sources.{nothing_known};
ghost use Rattle.nesc_preproc.specs.Kept.{name_at};

use crate::known::KnownFiles;
use nm_base::Name;
use std::alloc::Global;
use std::marker::Model;

/// The files that an application's sources were read from, and the counts of their limits. Contracts see it as what is
/// known, or as None once memory ran out in a call of `expand`: each later call then answers `NoMemory`.
#[derive(Debug, Drop)]
pub struct Reading {
    pub(crate) files: KnownFiles,
    pub(crate) spent: bool,
}

impl Model for Reading {
    ghost use Rattle.std.specs.Prelude.{Option};
    ghost use Rattle.nesc_preproc.specs.Sources.{Known};
    ghost use Rattle.nesc_preproc.specs.Kept.{kept};

    ghost Value = { Option Known };

    ghost view = { λ r. kept r.spent r.files };
}

impl Reading {
    /// Nothing is read yet.
    pub fn new(alloc: Global) -> Reading
        ensures { result ≡ Some nothing_known }
    {
        Reading {
            files: KnownFiles::new(alloc),
            spent: false,
        }
    }

    /// The name of the file of this number, in reading order; None where no such file was read, or memory ran out.
    pub fn name(&self, file: u32) -> Option<&Name>
        ensures { option_copied result ≡ name_at self.now file }
    {
        if self.spent {
            return None;
        }
        self.files.files.name(file as usize)
    }
}
