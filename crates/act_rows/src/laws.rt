//! The rows, and that their programs are well formed.

ghost use Rattle.nesc_core.specs.WellFormed.{IsWellFormed};
ghost use Rattle.act_rows.specs.Bodies as rows;
ghost use Rattle.act_rows.specs.FirstRun as first;
ghost use Rattle.act_rows.specs.Rows.{WorkedRows};
ghost use Rattle.act_rows.specs.declared.row.Row.{Row};

/// The programs of the rows and that of the first run are well formed, so `act` takes them.
pub fn rows_are_well_formed()
    ensures { IsWellFormed first.first_run × ((r : Row) → IsWellFormed (rows.program (rows.statement_of r))) }
{}

/// The actions that `act` computes of each form of place, expression and statement, as gone through by hand.
pub fn worked_rows()
    ensures { WorkedRows }
{}
