//! What the code of expressions does.

ghost use Rattle.lower_expr.specs.Runs.{ArgumentsRun, ExpressionsRun};

/// From wherever the code of an expression stands, with values that hold the locals, the machine does exactly what the expression
/// does in the source, for every list of answers, and goes on behind it with the result in its values: every expression that has a
/// type, in a well-formed program whose called functions do what their bodies do.
pub fn expressions_run()
    ensures { ExpressionsRun }
{}

/// The same of the arguments of a call: behind their code stand the values that pass them, in order, the low half of a number first.
pub fn arguments_run()
    ensures { ArgumentsRun }
{}
