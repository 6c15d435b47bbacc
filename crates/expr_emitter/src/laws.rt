//! What the code of an expression does with labels and values.

ghost use Rattle.expr_emitter.specs.Laws.{LabelsDiffer, ValuesBelow};

/// The labels in the code of an expression are as many as `labels` counts, from the first on; none stands twice, and each that the
/// code names stands in it.
pub fn labels_differ()
    ensures { LabelsDiffer }
{}

/// The code names values below two for each level and six, from the first on, and those of locals.
pub fn values_below()
    ensures { ValuesBelow }
{}
