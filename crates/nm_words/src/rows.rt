//! Worked rows of the command line.

ghost use Rattle.nm_words.specs.WordRows.{InUse, NotInUse};

/// The definitions answer these command lines so.
pub fn worked_rows()
    ensures in_use { InUse }
    ensures not_in_use { NotInUse }
{}
