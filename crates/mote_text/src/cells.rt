//! The cells of the memory from 0x4000 to 0xFFFF.

ghost use Rattle.std.specs.Prelude.{◌≡◌, ◌<◌, Some, None, true, false, length, replicate, map, IfOk, MatchOption, IsSome};
ghost use Rattle.std.specs.Option.{unwrap_or};
ghost use Rattle.msp_isa.specs.Image.{bytes_map};
ghost use Rattle.mote_text.specs.Cells.{cells_map};
ghost use Rattle.mote_text.specs.ImageLines.{is_free, with_byte};

use msp_isa::Loaded;
use nm_base::{CODE_START, NoMemory};
use std::alloc::Global;

/// How many bytes the memory from 0x4000 on has.
const COUNT: usize = 49152;

/// The byte that each address of the memory was given, if any.
#[derive(Drop)]
pub(crate) struct Cells {
    bytes: Vec<Option<u8>>,
    ghost whole: { length bytes.items ≡ 49152 },
}

impl Cells {
    /// No address has a byte.
    pub(crate) fn new(alloc: Global) -> Result<Cells, NoMemory>
        ensures { IfOk result (λ c. cells_map c.bytes.items ≡ (λ a. None)) }
    {
        Ok(Cells {
            bytes: vec![in alloc; None; COUNT]?,
        })
    }

    /// Gives a byte to an address. None where the address is not in the memory, or has a byte.
    pub(crate) fn put(&mut self, address: u32, byte: u8) -> Option<()>
        ensures put { MatchOption result (is_free (cells_map self.old.bytes.items) address ≡ false)
            (λ _. (is_free (cells_map self.old.bytes.items) address ≡ true)
            × (cells_map self.new.bytes.items ≡ with_byte (cells_map self.old.bytes.items) address byte)) }
        ensures room { IsSome result → address < 0x10000 }
    {
        let index = address.checked_sub(u32::from(CODE_START))? as usize;
        if index >= self.bytes.len() || self.bytes[index].is_some() {
            return None;
        }
        self.bytes[index] = Some(byte);
        Some(())
    }

    fn bytes(&self, alloc: Global) -> Result<Vec<u8>, NoMemory>
        ensures { IfOk result (λ v. v.items ≡ map (λ o. unwrap_or o 0) self.now.bytes.items) }
    {
        Ok(
            self.bytes
                .iter()
                .map(|byte| byte.unwrap_or(0))
                .collect(alloc)?,
        )
    }

    /// The bytes, 0 where an address was given none.
    pub(crate) fn loaded(&self, alloc: Global) -> Result<Loaded, NoMemory>
        ensures { IfOk result (λ l. bytes_map l ≡ (λ a. unwrap_or (cells_map self.now.bytes.items a) 0)) }
    {
        Ok(Loaded::from_bytes(self.bytes(alloc)?))
    }
}
