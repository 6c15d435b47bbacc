//! The bytes of a mote's code and vectors.

ghost use Rattle.std.specs.Prelude.{◌≡◌, IfOk, length};
ghost use Rattle.msp_isa.specs.Image.{byte_of, bytes_map, image_map};

use crate::Image;
use byteorder::{ByteOrder, LittleEndian};
use nm_base::{CODE_START, NoMemory, VECTORS};
use std::alloc::Global;
use std::marker::Model;

/// The bytes from 0x4000 to 0xFFFF, which contracts see as their list.
#[derive(Debug, Drop)]
pub struct Loaded {
    bytes: Vec<u8>,
}

impl Model for Loaded {
    ghost use Rattle.std.specs.Prelude.{◌≡◌, List, ℕ, length};

    ghost Value = { List ℕ };

    ghost view = { λ l. l.bytes.items };

    ghost invariant = { λ l. length l.bytes.items ≡ 49152 };
}

impl Loaded {
    /// The memory that these bytes are, of which there are 49,152.
    pub fn from_bytes(bytes: Vec<u8>) -> Loaded
        requires { length bytes.items ≡ 49152 }
        ensures { result ≡ bytes.items }
    {
        Loaded { bytes }
    }

    /// The 49,152 bytes in their order.
    pub fn bytes(&self) -> &[u8]
        ensures value { result.now ≡ self.now }
        ensures count { length result.now ≡ 49152 }
    {
        self.bytes.as_slice()
    }
}

/// An image's bytes; those that it does not name are 0.
pub fn load_image(alloc: Global, image: &Image) -> Result<Loaded, NoMemory>
    ensures { IfOk result (λ l. bytes_map l ≡ image_map image.now.code.items image.now.vectors) }
{
    let mut bytes = Vec::new(alloc);
    for offset in 0..49152 {
        bytes.push(image_byte(&image.code, &image.vectors, CODE_START + offset))?;
    }
    Ok(Loaded { bytes })
}

fn image_byte(code: &[u16], vectors: &[u16; 16], address: u16) -> u8
    ensures { result ≡ image_map code.now vectors.now address }
{
    match address {
        VECTORS.. => byte_of(vectors[usize::from((address - VECTORS) / 2)], address),
        CODE_START.. => {
            let index = usize::from((address - CODE_START) / 2);
            byte_of(code.get(index).copied().unwrap_or(0), address)
        }
        _ => 0,
    }
}

// The low byte of a word stands at an even address, the high byte at the next one.
fn byte_of(word: u16, address: u16) -> u8
    ensures { result ≡ byte_of word address }
{
    let mut bytes = [0; 2];
    LittleEndian::write_u16(&mut bytes, word);
    let [low, high] = bytes;
    if address % 2 == 0 { low } else { high }
}
