//! Worked rows of conditions, and what becomes of `defined`.

ghost use Rattle.std.specs.Prelude.{List};
ghost use Rattle.nesc_macros.specs.declared.definition.Macro.{Macro};
ghost use Rattle.nesc_conditions.specs.Resolution.{Resolution};
ghost use Rattle.nesc_conditions.specs.Rows.{WorkedRows};

/// The definition gives these lines these values.
pub fn worked_rows()
    ensures { WorkedRows }
{}

/// What becomes of each `defined` of a line.
pub fn resolution()
    ensures { (macros : List Macro) → Resolution macros }
{}
