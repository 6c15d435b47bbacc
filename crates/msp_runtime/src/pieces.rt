//! Pieces of routines one behind the other.

ghost use Rattle.std.specs.Prelude.{◌≡◌, ◌++◌, OnOk, map};
ghost use Rattle.msp_runtime.specs.Pieces.{shifted};

use msp_isa::Item;
use nm_base::NoMemory;

/// A piece whose labels count from 0, with labels that count from `first`.
///
/// Errors: `NoMemory` alone.
pub fn put(items: &mut Vec<Item>, first: u32, piece: &[Item]) -> Result<(), NoMemory>
    ensures { OnOk result (items.new.items ≡ items.old.items ++ map (shifted first) piece.now) }
{
    for item in piece {
        items.push(from(first, *item))?;
    }
    Ok(())
}

// An item with its label so much higher.
fn from(first: u32, item: Item) -> Item
    ensures { result ≡ shifted first item }
{
    match item {
        Item::Jump(condition, label) => Item::Jump(condition, first.wrapping_add(label)),
        Item::Label(label) => Item::Label(first.wrapping_add(label)),
        _ => item,
    }
}
