//! Worked rows of wired programs.

ghost use Rattle.program_meaning.specs.BlinkRows.{BlinkRows};
ghost use Rattle.program_meaning.specs.CombineRows.{CombineRows};
ghost use Rattle.program_meaning.specs.InstanceRows.{InstanceRows};
ghost use Rattle.program_meaning.specs.LimitRows.{LimitRows};
ghost use Rattle.program_meaning.specs.PlainRows.{PlainRows};
ghost use Rattle.program_meaning.specs.RefusedRows.{RefusedRows};
ghost use Rattle.program_meaning.specs.StructRows.{StructRows};
ghost use Rattle.program_meaning.specs.WiredRows.{WiredRows};

/// These applications are wired to the programs that were worked out by hand, and others are refused at these places.
pub fn worked_rows()
    ensures modules { PlainRows }
    ensures wires { WiredRows }
    ensures instances { InstanceRows }
    ensures timers { BlinkRows }
    ensures combined { CombineRows }
    ensures structs { StructRows }
    ensures limits { LimitRows }
    ensures refused { RefusedRows }
{}
