//! Images from their text.

ghost use Rattle.std.specs.Prelude.{◌≡◌, ◌<◌, ◌+◌, ℕ, List, Option as OptionOf, Ok, Some, None, true, map, length, IfOk, IfErr, OnSome, MatchOption};
ghost use Rattle.std.specs.Option.{option_map, option_and_then, unwrap_or};
ghost use Rattle.msp_isa.specs.Image.{bytes_map};
ghost use Rattle.mote_text.specs.Cells.{cells_map};
ghost use Rattle.mote_text.specs.ImageLines.{after_line, image_of, image_step, memory_of, nothing_read, stored};
ghost use Rattle.mote_text.specs.Parsed.{line_of, reading_of};
ghost use Rattle.mote_text.specs.Answers.{IsImageFault};

use crate::cells::Cells;
use crate::image_line::{ImageLine, image_line};
use crate::lines::{cut_line, next_line};
use crate::{Loaded, TextFault};
use nm_base::NoMemory;
use std::alloc::Global;

/// What the lines so far have named.
#[derive(Drop)]
struct Reader {
    next: Option<u32>,
    cells: Cells,
    ended: bool,
}

// Stores bytes from an address on; the address behind them.
fn store(cells: &mut Cells, address: u32, bytes: &[u8]) -> Option<u32>
    ensures { option_map (λ a. (a, cells_map cells.new.bytes.items)) result
        ≡ stored (cells_map cells.old.bytes.items) address bytes.now }
{
    let mut address = address;
    for byte in bytes {
        cells.put(address, *byte)?;
        address += 1;
    }
    Some(address)
}

impl Reader {
    // Takes the next line; None where it is refused.
    fn take(&mut self, line: ImageLine) -> Option<()>
        ensures { option_map (λ _. reading_of self.new) result ≡ after_line (reading_of self.old) (line_of line) }
    {
        if let ImageLine::Blank = line {
            return Some(());
        }
        if self.ended {
            return None;
        }
        match line {
            ImageLine::Blank => {}
            ImageLine::Section(address) => self.next = Some(u32::from(address)),
            ImageLine::Bytes(bytes) => {
                let next = self.next?;
                self.next = Some(store(&mut self.cells, next, bytes.as_slice())?);
            }
            ImageLine::End => self.ended = true,
        }
        Some(())
    }

    fn take_text(&mut self, line: &[u8]) -> Option<()>
        ensures { option_map (λ _. reading_of self.new) result ≡ image_step (reading_of self.old) line.now }
    {
        let line = image_line(line)?;
        self.take(line)
    }
}

/// The bytes that a TI-TXT text names; those that it does not name are 0. `BadImage` has the first line that is
/// refused: one of no form of a line, bytes before the first address, past 0xFFFF or at an address that has one, and
/// what stands behind `q`; where `q` is missing, the line after the last.
#[tactic(auto, unfolding(crate::specs::ImageLines::image_of))]
pub fn read_image(alloc: Global, text: &[u8]) -> Result<Loaded, TextFault>
    ensures read { IfOk result (λ l. image_of text.now ≡ Ok (bytes_map l)) }
    ensures fault { IfErr result (λ e. IsImageFault text.now e) }
{
    let Ok(cells) = Cells::new(alloc) else {
        return Err(TextFault::NoMemory);
    };
    let mut reader = Reader {
        next: None,
        cells,
        ended: false,
    };
    let mut number = 1;
    let mut rest = text;
    while let Some((line, behind)) = cut_line(rest) {
        if reader.take_text(line).is_none() {
            return Err(TextFault::BadImage(number));
        }
        number = next_line(number);
        rest = behind;
    }
    if !reader.ended {
        return Err(TextFault::BadImage(number));
    }
    match reader.cells.loaded(alloc) {
        Ok(loaded) => Ok(loaded),
        Err(NoMemory) => Err(TextFault::NoMemory),
    }
}
