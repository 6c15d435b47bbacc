//! Worked examples, by computation.

ghost use Rattle.expr_emitter.specs.Forms.{FormRows};
ghost use Rattle.expr_emitter.specs.Operators.{OperatorRows};

/// The code of one expression of each form and width, as written by hand.
pub fn form_rows()
    ensures { FormRows }
{}

/// What operators at every type give in the open machine, as a C compiler computes it with an int of 16 bits.
pub fn operator_rows()
    ensures { OperatorRows }
{}
