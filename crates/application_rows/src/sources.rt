//! The files of an application, whose reads are counted.

use crate::chain::text_of;
use nm_base::{Files, Found, MemFiles, Name};
use std::alloc::Global;

/// Files in memory, behind those of a chain, and how often a file was read.
#[derive(Drop)]
pub struct Sources {
    files: MemFiles,
    chain: u32,
    missed: u64,
    faults: u64,
    pub reads: u32,
}

impl Sources {
    /// Files in memory, behind those of a chain of so many.
    pub fn new(files: MemFiles, chain: u32) -> Sources {
        Sources {
            files,
            chain,
            missed: 0,
            faults: 0,
            reads: 0,
        }
    }
}

impl Files for Sources {
    ghost use Rattle.std.specs.Prelude.{None};

    ghost seen = { λ s. record { texts = None; faults = s.faults; misses = λ n. s.missed } };

    fn read(&mut self, alloc: Global, name: &Name) -> Found {
        let found = match text_of(alloc, self.chain, name) {
            Ok(Some(text)) => Found::Bytes(text),
            Ok(None) => self.files.read(alloc, name),
            Err(_) => Found::NoMemory,
        };
        match &found {
            Found::Bytes(_) => self.reads = self.reads.saturating_add(1),
            Found::Missing => self.missed = self.missed.saturating_add(1),
            Found::Failed => self.faults = self.faults.saturating_add(1),
            Found::NoMemory => {}
        }
        found
    }
}
