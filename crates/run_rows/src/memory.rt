//! The bytes that a run has stored.

use nm_base::NoMemory;
use std::alloc::Global;

/// The bytes of the store, and the one behind the last address, which a word there has.
const BYTES: usize = 65_537;

/// A byte at each address, at first 0.
#[derive(Drop)]
pub struct Memory {
    bytes: Vec<u8>,
}

impl Memory {
    /// Nothing was stored.
    pub fn new(alloc: Global) -> Result<Memory, NoMemory> {
        Ok(Memory {
            bytes: vec![in alloc; 0; BYTES]?,
        })
    }

    fn byte(&self, address: usize) -> u8 {
        self.bytes.get(address).copied().unwrap_or(0)
    }

    fn put(&mut self, address: usize, byte: u8) {
        if address < self.bytes.len() {
            self.bytes[address] = byte;
        }
    }

    /// The byte or the word at an address.
    pub fn load(&self, address: u16, is_word: bool) -> u16 {
        let address = usize::from(address);
        let high = if is_word { self.byte(address + 1) } else { 0 };
        u16::from_le_bytes([self.byte(address), high])
    }

    /// Puts a byte or a word to an address.
    pub fn store(&mut self, address: u16, is_word: bool, word: u16) {
        let address = usize::from(address);
        let [low, high] = word.to_le_bytes();
        self.put(address, low);
        if is_word {
            self.put(address + 1, high);
        }
    }
}
