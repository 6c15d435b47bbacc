//! Worked rows of constants and literals.

ghost use Rattle.nesc_types.specs.BitRows.{BitRows};
ghost use Rattle.nesc_types.specs.ComparisonRows.{ComparisonRows};
ghost use Rattle.nesc_types.specs.LiteralRows.{LiteralRows};
ghost use Rattle.nesc_types.specs.QuotientRows.{QuotientRows};
ghost use Rattle.nesc_types.specs.SumRows.{SumRows};
ghost use Rattle.nesc_types.specs.UnaryRows.{UnaryRows};
ghost use Rattle.nesc_types.specs.WorkedRows.{WorkedConstants};

/// Operators on constants of each two types, and casts, give what a C compiler with an int of 16 bits computes.
pub fn operator_rows()
    ensures sums { SumRows }
    ensures quotients { QuotientRows }
    ensures bits { BitRows }
    ensures comparisons { ComparisonRows }
    ensures unary { UnaryRows }
{}

/// Literals at the borders of the types have these types.
pub fn literal_rows()
    ensures { LiteralRows }
{}

/// These expressions are these constants, or are refused at these places.
pub fn worked_constants()
    ensures { WorkedConstants }
{}
