//! Laws of the bytes of code.

ghost use Rattle.code_bytes.specs.Laws.{FixedCodeIsSmall, ItemsAreWithin};

/// Items with shortest jumps are within their bytes with longer ones: each has a size that it may have, and the longer form of a jump
/// is its greatest.
pub fn items_are_within()
    ensures { ItemsAreWithin }
{}

/// The 48 operations take 2310 bytes at most, reset 16, and the code of each of the eight lines 60.
pub fn fixed_code_is_small()
    ensures { FixedCodeIsSmall }
{}
