//! Laws of the checks of a program.

ghost use Rattle.range_sums.specs.Laws.{ChecksAreFew, RunsAreRanges};

/// Each type that bodies dereference has one check, and all of them have as many runs as the program has ranges.
pub fn runs_are_ranges()
    ensures { RunsAreRanges }
{}

/// There are no more checks than dereferences.
pub fn checks_are_few()
    ensures { ChecksAreFew }
{}
