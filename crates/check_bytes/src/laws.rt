//! The law of the bytes of checks.

ghost use Rattle.check_bytes.specs.Laws.{ChecksAreSmall};

/// The routine of a check takes at most 24 bytes for each run, and 62: all its jumps are short, however many runs there are.
pub fn checks_are_small()
    ensures { ChecksAreSmall }
{}
